//! What is wanted of a file, what is done, and what came of it.

/// What is to be written of a network.
#[derive(Clone, Copy, Debug, PartialEq, Eq)]
pub enum Wanted {
    /// Nothing changed.
    Nothing,
    /// A batch of what changed.
    Batch,
    /// A snapshot, since a batch can't say what changed.
    Snapshot,
}

/// What is done to a file.
#[derive(Clone, Copy, Debug, PartialEq, Eq)]
pub enum Deed {
    /// Nothing now.
    Rest,
    /// A batch is appended.
    Append,
    /// A new file with a snapshot takes its place.
    Replace,
}

/// What came of it.
#[derive(Clone, Copy, Debug, PartialEq, Eq)]
pub enum Outcome {
    /// It is written and synced.
    Done,
    /// It is not written, or in part.
    NotWritten,
    /// It is written, but the sync failed: the system may have dropped it.
    NotSynced,
}

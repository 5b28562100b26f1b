//! Moments.

/// A moment: milliseconds since 1970-01-01T00:00:00Z, handed in by the caller.
#[derive(Clone, Copy, Debug, PartialEq, Eq)]
pub struct Moment(pub u64);

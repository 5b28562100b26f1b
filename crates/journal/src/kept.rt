//! What records leave.

use history::{History, Marks};

/// A channel that we are on.
#[derive(Drop)]
pub struct Channel {
    /// Its name.
    pub name: Vec<u8>,
    /// Its key, if it has one.
    pub key: Option<Vec<u8>>,
}

/// What is kept of a network.
#[derive(Drop)]
pub struct Kept {
    /// The messages.
    pub history: History,
    /// The client names, each with what it has seen.
    pub marks: Marks,
    /// The same names, each with its last `MARK`, which counts if no `SEEN` came after it.
    pub marked: Marks,
    /// The channels that we are on.
    pub channels: Vec<Channel>,
}

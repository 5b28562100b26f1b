//! The journal of one network, between its hub and its file: what is recalled of the file, what has
//! changed in the hub since the file was written, and writing that.
#![tactic(auto)]

mod copying;
mod due;
mod hubs;
mod opening;
mod writing;

pub use due::Due;
pub use journal_files::{Disk, Fault, OpenError, Wanted};
pub use opening::{Found, FoundJournal, NoJournal, Opened, open};
pub use writing::{Journal, WriteError};

//! The file of a journal: what is to be done to it after each outcome, as plain steps, and the disk
//! that does it.
#![tactic(auto)]

mod disk;
mod file_state;
mod journal_file;
mod outcome;

pub use disk::{Appending, Disk, Lock};
pub use file_state::{COMPACTION_SIZE, FAULT_PAUSE, FileState};
pub use journal_file::{Beginning, Fault, JournalFile, OpenError};
pub use outcome::{Deed, Outcome, Wanted};

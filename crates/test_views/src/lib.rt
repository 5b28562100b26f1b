//! Views of transcripts for the tests of several crates: taking texts into a view, what it shows as
//! text, and whole sessions of two servers.
#![tactic(auto)]

mod report;
mod whole_sessions;

pub use report::{
    item, quick_of, show_channel, show_fact, show_members, show_modes, show_ranks, shown, take_all,
    tape_of,
};
pub use whole_sessions::{INSPIRCD, NGIRCD};

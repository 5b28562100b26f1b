//! What is kept in memory, in bytes, by which the budget of a network goes: the lengths of its texts,
//! and a fixed number for each thing.
#![tactic(auto)]

mod adding;
mod costs;
mod weighed;

pub use adding::{less, more};
pub use costs::{CHANNEL, ENTRY, MEMBER, MODE, NAME, PERSON, SETTING, STATE_PART};
pub use weighed::Weighed;

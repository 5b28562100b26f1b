//! Readers and writers in memory for the tests of all crates: they take and give as much as they are
//! told to, and fail where they are told to.
#![tactic(auto)]

mod pieces;
mod sink;

pub use pieces::Pieces;
pub use sink::Sink;

//! What tests of several crates share: networks between rings, gates and clocks that a test moves,
//! readers and writers that are slow, the test's end of a connection, and a user whose sessions are
//! served over streams in memory.
#![tactic(auto)]

pub mod ann;
pub mod claims;
pub mod gates;
pub mod pages;
pub mod peer;
pub mod refusing;
pub mod settings;
pub mod slow_streams;
pub mod stage;

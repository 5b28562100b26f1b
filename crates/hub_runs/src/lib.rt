//! Runs: lists of events over a hub whose ends are in memory.
#![tactic(auto)]

mod apply;
mod event;
mod items;
pub mod laws;
mod outcome;
mod runs;

pub use event::Event;
pub use outcome::{MemoryHub, Reply, Run, StartError, Stop, World};
pub use runs::{run, run_by, run_from};

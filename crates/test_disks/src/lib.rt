//! A disk in memory for the tests of all crates, which may have a fault.
#![tactic(auto)]

mod small_disk;

pub use small_disk::{SmallDisk, Trouble, disk};

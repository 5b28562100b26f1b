//! A list in blocks: an item that comes or goes moves a part of its own block, and one item of each
//! block after it.
#![tactic(auto)]

mod blocks;
mod moving;
mod searching;

pub use blocks::Blocks;
pub use std::alloc::AllocError as OutOfMemory;

//! Names of users and channels: when two are one name, their order, and which nicks are nameable.
#![tactic(auto)]

mod case_mapping;
pub mod laws;
mod nick;

pub use case_mapping::CaseMapping;
pub use nick::is_nameable;
pub use std::alloc::AllocError as OutOfMemory;

//! The messages that are kept for clients that were away: the last ones to each target of a network,
//! each with its number, and which of them each client name has seen.
#![tactic(auto)]

mod entry;
mod keeping;
mod kept;
pub mod laws;
mod marks;
mod names;
mod ring;
mod targets;

pub use entry::{Entry, is_message};
pub use keeping::Keeping;
pub use marks::{AdmitError, Marks, NAME_LIMIT};
pub use ring::{CAPACITY_LIMIT, CapacityError, History, PushError};
pub use std::alloc::AllocError as OutOfMemory;
pub use targets::TARGET_LIMIT;

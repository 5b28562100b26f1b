//! Up to which message the client of a session has surely received what it was sent, and how a session
//! is left by that. Plain data and steps, without clock, socket, thread or lock.
#![tactic(auto)]

mod hearing;
mod note;
mod notes;
mod parting;
mod sent;

pub use hearing::Hearing;
pub use note::Note;
pub use notes::Notes;
pub use parting::{End, Left, Parting, is_fault, left_by};
pub use sent::Sent;
pub use std::alloc::AllocError as OutOfMemory;

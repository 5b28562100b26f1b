//! A login to an account of a network by SASL, line by line.
#![tactic(auto)]

pub mod laws;
mod login;
mod offer;
mod response;
mod said;

pub use login::{Login, LoginStep};
pub use offer::offers;
pub use said::{has_subcommand, last_param};
pub use std::alloc::AllocError as OutOfMemory;

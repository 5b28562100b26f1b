//! The login of a client, and its session.
#![tactic(auto)]

mod admission;
mod arrival;
mod attending;
mod claim;
mod fault;
mod given;
mod judge;
pub mod laws;
mod login;
mod negotiation;
mod replies;
mod sending;
mod serving;
mod talk;
mod watcher;

pub use admission::{admitted, let_in};
pub use arrival::{Ending, LoggedIn, Unread, log_in};
pub use attending::{Leave, attach_claim, say};
pub use claim::Claim;
pub use fault::LoginFault;
pub use judge::{Judge, Listed};
pub use login::{Login, LoginStep};
pub use sending::{deny, refuse};
pub use serving::{ServeFault, Served, serve, serve_by, serve_session};
pub use std::alloc::AllocError as OutOfMemory;
pub use watcher::{Refusal, Unwatched, Watcher};

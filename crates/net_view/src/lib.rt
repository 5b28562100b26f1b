//! The network view: what a network's lines say about it, defined by looking back through all of
//! them.
#![tactic(auto)]

mod channel;
pub mod facts;
mod item;
pub mod laws;
mod network_view;
mod state_command;
mod state_line;
mod walk;

pub use channel::{Channel, Member};
pub use item::Item;
pub use network_view::NetworkView;
pub use state_command::StateCommand;
pub use state_line::{Telling, is_state_line, is_word, told, told_as};
pub use std::alloc::AllocError as OutOfMemory;
pub use walk::{Members, Modes};

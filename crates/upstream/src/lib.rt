//! A network: the registration at it, and a connection from its first byte to its end.
#![tactic(auto)]

mod account;
mod dialled;
mod handshake;
mod keeper;
pub mod laws;
mod link;
mod offers;
mod registration;
mod said;
mod sending;
mod serving;
mod writing;

pub use dialled::{Dialled, Duplex, Live, Registering};
pub use handshake::{DialFault, Welcomed, register};
pub use keeper::Keeper;
pub use link::Link;
pub use registration::{Register, RegisterFault, Step};
pub use sending::{channel_lines, channel_lines_by};
pub use serving::{NetworkEnd, Served, serve_network, serve_network_as};
pub use std::alloc::AllocError as OutOfMemory;

//! The ends of a hub: where items come from, and where packets go.
#![tactic(auto)]

mod ends;
mod memory_inlet;
mod memory_outlet;
mod packet;

pub use ends::{Inlet, Outlet, SessionId};
pub use memory_inlet::MemoryInlet;
pub use memory_outlet::MemoryOutlet;
pub use net_view::OutOfMemory;
pub use packet::Packet;

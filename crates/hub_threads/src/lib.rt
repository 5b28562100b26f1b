//! Hubs between threads: rings as their ends, the writer of a session, and how a session ends.
#![tactic(auto)]

mod backlog;
mod bell;
mod bulk;
mod ending;
mod front;
mod gate;
mod inlet_ring;
mod lull;
mod network;
mod outlet_end;
mod outlet_pair;
mod outlet_ring;
mod patience;
mod pumping;
mod queued;
mod reading;
mod receiving;
mod slowness;
mod stack;
mod stop_sign;
mod turns;
mod worker;
mod write_call;
mod writer;
mod writing;

pub use bell::{Bell, SharedBell, shared_bell};
pub use bulk::Bulk;
pub use ending::{Ended, end_session, end_session_at};
pub use gate::{Clock, FreeGate, Gate, Point};
pub use hub_ends::OutOfMemory;
pub use inlet_ring::{InletEnd, RingInlet, inlet, waiting};
pub use network::{Beside, Network, RingHub, Started};
pub use outlet_end::{OutletEnd, Stopper};
pub use outlet_pair::outlet;
pub use outlet_ring::RingOutlet;
pub use patience::Patience;
pub use pumping::{Permission, Permit, PumpEnd, REFUSALS, REFUSED_REST, Refusals, pump_loop};
pub use queued::{Counted, Queued};
pub use reading::{PumpsBeside, ReadEnd, Reading, put_lines, read_beside, read_in};
pub use slowness::WRITE_CALL;
pub use stack::small_thread;
pub use turns::Turns;
pub use worker::Worker;
pub use writer::{Given, Writer, spawn_stoppable, spawn_writer};
pub use writing::{WriteFault, Written, write_out};

//! The bouncer in threads of a test over the loopback range, the network that it dials, and clients.
//! Each wait has a limit, and the connections and dials of each bouncer are counted, so that it ends
//! by itself. For tests alone.
#![tactic(auto)]

pub mod bouncer;
pub mod host;
pub mod refusal;
pub mod room;

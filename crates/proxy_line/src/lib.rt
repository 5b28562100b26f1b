//! The line by which a proxy names the client whose bytes it passes on: the PROXY protocol, version
//! 1 (HAProxy, The PROXY protocol, section 2.1).
#![tactic(auto)]

mod line;
mod port;
mod reading;

pub use line::{Origin, origin_of};
pub use reading::{ProxyFault, read_origin};

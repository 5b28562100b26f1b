//! The hub of one network: what comes from the network goes to each session as its client reads
//! it, and what clients say goes to the network.
#![tactic(auto)]

mod attach;
mod away;
mod deliver;
mod detach;
mod forgetting;
mod hub;
mod image_table;
mod incoming;
mod join_keys;
mod key_news;
mod lost;
mod memory;
mod messages;
mod outlets;
mod prepare;
mod profile;
mod pump;
mod respond;
mod said;
mod session;
mod state_parts;
mod upkeep;
mod weighing;
mod wishes;

pub use attach::{AttachError, NoSession};
pub use detach::Seen;
pub use forgetting::ForgetFault;
pub use history::CapacityError;
pub use hub::{Hub, HubError, Past, Pumped, Setup};
pub use lost::{LostChannel, channel_key};
pub use net_view::OutOfMemory;
pub use profile::Profile;
pub use said::Said;

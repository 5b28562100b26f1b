//! The settings of the bouncer: what a TOML text means, and its first fault.
#![tactic(auto)]

mod account;
mod allowed;
mod channel_keys;
mod command;
mod config;
mod digest;
mod fault;
mod fault_place;
mod key;
mod lists;
mod messages;
mod names;
mod network;
mod network_options;
mod networks;
mod options;
mod place;
mod playback;
mod profile;
mod table;
mod text;
mod unknown;
mod users;
mod utc_offset;

pub use account::SaslConfig;
pub use allowed::{is_address, is_name, is_word};
pub use channel_keys::ChannelKey;
pub use config::Config;
pub use fault::ConfigFault;
pub use fault_place::{FaultPlace, place_of_fault};
pub use key::Key;
pub use messages::MessagesConfig;
pub use network::NetworkConfig;
pub use place::Place;
pub use playback::PlaybackConfig;
pub use profile::ProfileConfig;
pub use std::alloc::AllocError as OutOfMemory;
pub use text::Text;
pub use unknown::unknown_keys;
pub use users::UserConfig;
pub use utc_offset::UtcOffset;

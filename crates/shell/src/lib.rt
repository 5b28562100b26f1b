//! The part of the outer shell that needs no hub: what reads a client or a network, with its time
//! limits and its pace, and what counts a client's bytes.
#![tactic(auto)]

mod after_connect;
mod ahead;
mod by_line;
mod client_input;
mod cost;
mod counted;
mod debt;
mod last_line;
mod network_input;
mod nick_cut;
mod nick_tries;
mod pace;
mod paced;
mod recalling;
mod regain;
mod repeats;
mod timed;
mod wire;

pub use after_connect::{AfterConnect, Due, ends_greeting};
pub use ahead::lines_left;
pub use by_line::ByLine;
pub use client_input::ClientInput;
pub use cost::{Toll, full_cost, toll_of};
pub use counted::{Count, Counted};
pub use debt::Debt;
pub use last_line::{ends_within, say_last};
pub use network_input::NetworkInput;
pub use nick_cut::cut_nick;
pub use nick_tries::{NickChoice, NickTries};
pub use pace::Pace;
pub use paced::{Neighbours, Paced};
pub use recalling::Recalling;
pub use regain::{Holder, NickNews, Regain, WhenAsked, news_of};
pub use repeats::{Noted, Repeats};
pub use timed::{OnSilence, Patient, Until, is_silence};
pub use wire::Wire;

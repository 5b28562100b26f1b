//! What the outer shell decides: who may log in, which networks are dialled and when, and who is
//! sent what at a reload and at the end. Plain data and steps, without clock, socket, thread or lock.
#![tactic(auto)]

mod address;
mod client;
mod clients;
mod dialling;
mod door;
mod ending;
mod entering;
mod event;
mod finding;
mod fleet;
mod holding;
mod judging;
mod limits;
mod names;
mod network;
mod networks;
mod note;
mod outgrowing;
mod refusals;
mod reloading;
mod running;
mod search;
mod step;
mod steward;
mod stopping;
mod telling;
mod times;

pub use address::key_of;
pub use client::{Client, Stage};
pub use door::{Admitted, Denied, Door, Entry};
pub use event::{Answer, Channels, Event, Verdict, Why};
pub use finding::place_of_name;
pub use fleet::{Ended, Fleet, Turn};
pub use limits::Limits;
pub use names::Names;
pub use network::{Network, Phase, Wanted};
pub use note::{Note, Said};
pub use refusals::Refusals;
pub use running::run;
pub use search::{count_inside, count_seats};
pub use steward::{Steward, Stop, Terms};
pub use times::Times;

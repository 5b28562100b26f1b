//! What a network says of itself by 005 RPL_ISUPPORT, and what it makes of mode changes and name
//! lists.
#![tactic(auto)]

mod bytes;
mod chan_modes;
mod cuts;
mod kind;
pub mod laws;
mod mode_changes;
mod name_list;
mod names_reply;
mod pending;
mod prefix;
mod ranks;
mod support;
mod tokens;

pub use cuts::cut;
pub use kind::Kind;
pub use mode_changes::{Change, ModeChanges, changes};
pub use name_list::{NameWords, Names, next_word};
pub use names_reply::{name_words, names};
pub use prefix::RANK_COUNT;
pub use ranks::{RankIter, Ranks};
pub use std::alloc::AllocError as OutOfMemory;
pub use support::Support;

//! A view that keeps the state lines of a network, and answers by looking back through them.
#![tactic(auto)]

mod bytes;
mod facts;
mod kept;
mod members;
mod modes;
mod name_count;
mod places;
mod presence;
mod ranks;
mod tape;
mod tape_view;
mod topic;

pub use tape_view::TapeView;

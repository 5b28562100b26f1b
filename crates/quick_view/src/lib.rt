//! The network view by tables in the order of keys: each line changes what it speaks of.
#![tactic(auto)]

mod listed;
mod listing;
mod moding;
mod quick_view;
mod state;
mod table_view;
mod taking;

pub use quick_view::QuickView;
pub use std::alloc::AllocError as OutOfMemory;
pub use table_view::TableView;

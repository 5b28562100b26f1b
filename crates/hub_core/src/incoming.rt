//! An item on its way to the sessions.

use client_caps::Moment;
use net_view::{Item, NetworkView};
use std::alloc::Global;

/// An item on its way to the sessions, when it came, and the view before it: what is sent of it is
/// made by these.
#[derive(Drop)]
pub struct Incoming<'a, V: NetworkView> {
    pub alloc: Global,
    pub view: &'a V,
    pub item: &'a Item,
    pub moment: Moment,
}

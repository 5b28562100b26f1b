//! What comes from a network.

use irc_line::Line;
use std::alloc::{Allocator, Global};

/// What comes from a network, one after the other.
#[derive(Drop)]
pub enum Item<A: Allocator = Global> {
    /// A line, as `:bob!b@h JOIN #c`.
    Line(Line<A>),
    /// The connection is lost. Own nick and settings stay; we are on no channel until the next
    /// JOIN.
    Lost,
}

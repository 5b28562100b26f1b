//! A member that a name list names.

ghost use Rattle.std.specs.Prelude.{◌≡◌};

use irc_support::Ranks;
use network_tables::{Entry, Fresh, Person};
use std::alloc::Allocator;

/// A member that is listed, as it is to be kept.
#[derive(Drop)]
pub(crate) struct Listed<A: Allocator> {
    pub(crate) member: Box<Entry<Ranks, A>, A>,
    pub(crate) person: Fresh<Person<A>, A>,
    ghost same: { member.value.key.items ≡ person.known.key.items },
}

//! `Refusing`: a view that finds no memory for topics.

ghost use Rattle.std.specs.Prelude.{◌≡◌, IsTrue, true};
ghost use Rattle.net_view.specs.Arrival.{arrival_of};
ghost use Rattle.net_view.specs.StateLines.{may_need_memory};

use irc_support::Support;
use net_view::{Channel, Item, Member, NetworkView, OutOfMemory, is_state_line};
use std::alloc::Allocator;
use weights::Weighed;

/// Another view, except that its first `times` TOPIC lines find no memory.
#[derive(Drop)]
pub struct Refusing<V: NetworkView + Drop> {
    pub view: V,
    pub times: u64,
}

/// Whether an item is a TOPIC line.
fn is_topic<A: Allocator>(item: &Item<A>) -> bool
    ensures { IsTrue result → may_need_memory (arrival_of item.now) ≡ true }
{
    match item {
        Item::Line(line) => is_state_line(line) && line.is(b"TOPIC"),
        Item::Lost => false,
    }
}

impl<V: NetworkView + Drop> NetworkView for Refusing<V> {
    ghost view = { λ r. V.view r.view };

    type Memory = V::Memory;

    fn take<A: Allocator>(&mut self, item: &Item<A>) -> Result<(), OutOfMemory> {
        if self.times > 0 && is_topic(item) {
            self.times -= 1;
            return Err(OutOfMemory);
        }
        self.view.take(item)
    }

    fn comes_from_lines(&self) {
        self.view.comes_from_lines()
    }

    fn welcomed(&self) -> bool {
        self.view.welcomed()
    }

    fn ready(&self) -> bool {
        self.view.ready()
    }

    fn support(&self) -> &Support<V::Memory> {
        self.view.support()
    }

    fn own(&self) -> Option<&[u8]> {
        self.view.own()
    }

    fn channel_count(&self) -> usize {
        self.view.channel_count()
    }

    fn channel_at(&self, i: usize) -> Option<Channel<'_>> {
        self.view.channel_at(i)
    }

    fn mode_at(&self, i: usize, j: usize) -> Option<(u8, Option<&[u8]>)> {
        self.view.mode_at(i, j)
    }

    fn member_count(&self, i: usize) -> usize {
        self.view.member_count(i)
    }

    fn member_at(&self, i: usize, j: usize) -> Option<Member<'_>> {
        self.view.member_at(i, j)
    }

    fn account_of(&self, nick: &[u8]) -> Option<&[u8]> {
        self.view.account_of(nick)
    }
}

impl<V: NetworkView + Weighed + Drop> Weighed for Refusing<V> {
    ghost weight = { λ r. V.weight r.view };

    fn weight(&self) -> u64 {
        self.view.weight()
    }
}

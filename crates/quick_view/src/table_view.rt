//! A view that keeps what the lines say.

ghost use Rattle.std.specs.Prelude.{IfOk};

use crate::OutOfMemory;
use crate::state::State;
use irc_names::is_nameable;
use irc_support::Support;
use net_view::{Channel, Item, Member, NetworkView, StateCommand};
use network_tables::{Sought, bytes, text_weight};
use std::alloc::{Allocator, Global};
use std::marker::Model;
use weights::{Weighed, more};

/// A view by tables in the order of keys: persons by the keys of their nicks, channels by those of
/// their names, and in each channel the members. It keeps no line.
///
/// A reader by place takes one step. A line takes a few binary searches, and a move of what comes
/// after the place where a table changes; QUIT, NICK and a member's leaving do so in each channel.
/// Only `take` of a line that says something to keep may need memory: a loss, PART, KICK and QUIT
/// never do.
pub struct TableView<A: Allocator = Global> {
    state: State<A>,
}

// By hand, so that whoever owns a view proves one call where it goes, and not the way of each
// field.
impl<A: Allocator> Drop for TableView<A> {
    fn drop(self) {
        let TableView { state: _state } = self;
    }
}

impl<A: Allocator> Model for TableView<A> {
    ghost use Rattle.net_view.specs.View.{View};
    ghost use Rattle.quick_view.specs.Coded.{view_code};
    ghost use Rattle.quick_view.specs.Kept.{view_kept};
    ghost use Rattle.quick_view.specs.FromLines.{ComesFromLines};

    ghost Value = { View };

    ghost coded = { view_code };

    ghost view = { λ v. view_kept v.state };

    ghost invariant = { λ v. ComesFromLines (view_kept v.state) };
}

impl<A: Allocator + Copy> TableView<A> {
    ghost use Rattle.std.specs.Prelude.{◌≡◌, IfOk};
    ghost use Rattle.net_view.specs.View.{empty_view};

    /// A view to which nothing came.
    #[tactic(auto, using(crate::proofs::TakeLemmas::no_lines))]
    pub fn new(alloc: A) -> Result<TableView<A>, OutOfMemory>
        ensures { IfOk result (λ v. v ≡ empty_view) }
    {
        let state = State::new(alloc)?;
        Ok(TableView { state })
    }
}

impl<A: Allocator> Weighed for TableView<A> {
    ghost use Rattle.quick_view.specs.Weights.{view_bytes};

    ghost weight = { view_bytes };

    fn weight(&self) -> u64 {
        let state = &self.state;
        let ours = more(text_weight(&state.own), state.support.weight());
        more(more(ours, state.rooms.bytes()), state.people.bytes())
    }
}

impl<A: Allocator + Copy> NetworkView for TableView<A> {
    ghost view = { λ v. v };

    type Memory = A;

    fn take<B: Allocator>(&mut self, item: &Item<B>) -> Result<(), OutOfMemory> {
        match item {
            Item::Line(line) => match StateCommand::of(line) {
                Some(command) => self.state.take_line(command, line),
                None => Ok(()),
            },
            Item::Lost => {
                self.state.lose();
                Ok(())
            }
        }
    }

    fn comes_from_lines(&self) {
        let _state = &self.state;
    }

    fn welcomed(&self) -> bool {
        self.state.own.is_some()
    }

    fn ready(&self) -> bool {
        self.state.ready
    }

    fn support(&self) -> &Support<A> {
        &self.state.support
    }

    fn own(&self) -> Option<&[u8]> {
        bytes(&self.state.own)
    }

    #[tactic(auto, using(crate::proofs::ReadLemmas::places))]
    fn channel_count(&self) -> usize {
        self.state.rooms.len()
    }

    #[tactic(auto, using(crate::proofs::ReadLemmas::places))]
    fn channel_at(&self, i: usize) -> Option<Channel<'_>> {
        match self.state.rooms.at(i) {
            Some((_key, room)) => Some(Channel {
                name: room.name.as_slice(),
                topic: bytes(&room.topic),
            }),
            None => None,
        }
    }

    #[tactic(auto, using(crate::proofs::ReadLemmas::places))]
    fn mode_at(&self, i: usize, j: usize) -> Option<(u8, Option<&[u8]>)> {
        match self.state.rooms.at(i) {
            Some((_key, room)) => room.modes.at(j),
            None => None,
        }
    }

    #[tactic(auto, using(crate::proofs::ReadLemmas::places))]
    fn member_count(&self, i: usize) -> usize {
        match self.state.rooms.at(i) {
            Some((_key, room)) => room.members.len(),
            None => 0,
        }
    }

    #[tactic(auto, using(crate::proofs::ReadLemmas::places))]
    fn member_at(&self, i: usize, j: usize) -> Option<Member<'_>> {
        let Some((_key, room)) = self.state.rooms.at(i) else {
            return None;
        };
        let Some((key, ranks)) = room.members.at(j) else {
            return None;
        };
        let near = room.members.near_at(j);
        match self.state.people.get_near(near, Sought::Key(key)) {
            Some(person) => Some(Member {
                nick: person.nick.as_slice(),
                ranks: *ranks,
                account: bytes(&person.account),
                away: bytes(&person.away),
            }),
            None => unreachable!(),
        }
    }

    #[tactic(auto, using(crate::proofs::ReadLemmas::places))]
    fn account_of(&self, nick: &[u8]) -> Option<&[u8]> {
        if !is_nameable(nick) {
            return None;
        }
        let who = Sought::Name(self.state.support.mapping(), nick);
        match self.state.people.get(who) {
            Some(person) => bytes(&person.account),
            None => None,
        }
    }
}

//! Walks through what a network view shows of a channel, in the order of the keys.

ghost use Rattle.std.specs.Prelude.{◌≡◌, ◌≤◌, ◌+◌};
ghost use Rattle.std.specs.Iterator.{YieldsFirstBy};
ghost use Rattle.net_view.specs.Readers.{mode_parts};
ghost use Rattle.net_view.specs.Walks.{member_parts_at, modes_at, parts_of};

use crate::channel::Member;
use crate::network_view::NetworkView;
use std::marker::Model;

/// The modes of a channel, in the order of their letters' bytes: each its letter, and its parameter
/// if it has one.
#[derive(Drop)]
pub struct Modes<'v, V: NetworkView> {
    view: &'v V,
    // the place of the channel, and of its next mode
    channel: usize,
    place: usize,
}

impl<'v, V: NetworkView> Model for Modes<'v, V> {
    ghost use Rattle.std.specs.Prelude.{ℕ, List, Option, drop};
    ghost use Rattle.irc_support.specs.Text.{Text};
    ghost use Rattle.net_view.specs.Walks.{modes_at};

    ghost Value = { List (ℕ × Option Text) };

    ghost view = { λ s. drop s.place (modes_at (V.view s.view.now) s.channel) };
}

/// The place after that of a mode. Letters rise from place to place, so none is at a place
/// above it.
fn place_behind(letter: u8, place: usize) -> usize
    requires { place ≤ letter }
    ensures { result ≡ place + 1 }
{
    place + 1
}

impl<'v, V: NetworkView> Modes<'v, V> {
    /// The modes of the channel at place `i`; none from `channel_count` on.
    pub fn of(view: &'v V, i: usize) -> Modes<'v, V>
        ensures { result ≡ modes_at (V.view view.now) i }
    {
        Modes {
            view,
            channel: i,
            place: 0,
        }
    }

    /// The next mode; `None` after the last one.
    pub fn next(&mut self) -> Option<(u8, Option<&'v [u8]>)>
        ensures { YieldsFirstBy mode_parts (λ left. left) self.old result self.new }
    {
        let (letter, param) = self.view.mode_at(self.channel, self.place)?;
        self.place = place_behind(letter, self.place);
        Some((letter, param))
    }
}

/// The members of a channel, we among them, in the order of their keys.
#[derive(Drop)]
pub struct Members<'v, V: NetworkView> {
    view: &'v V,
    // the place of the channel, and of its next member
    channel: usize,
    place: usize,
}

impl<'v, V: NetworkView> Model for Members<'v, V> {
    ghost use Rattle.std.specs.Prelude.{List, drop};
    ghost use Rattle.net_view.specs.Readers.{MemberParts};
    ghost use Rattle.net_view.specs.Walks.{member_parts_at};

    ghost Value = { List MemberParts };

    ghost view = { λ s. drop s.place (member_parts_at (V.view s.view.now) s.channel) };
}

impl<'v, V: NetworkView> Members<'v, V> {
    /// The members of the channel at place `i`; none from `channel_count` on.
    pub fn of(view: &'v V, i: usize) -> Members<'v, V>
        ensures { result ≡ member_parts_at (V.view view.now) i }
    {
        Members {
            view,
            channel: i,
            place: 0,
        }
    }

    /// The next member; `None` after the last one.
    pub fn next(&mut self) -> Option<Member<'v>>
        ensures { YieldsFirstBy parts_of (λ left. left) self.old result self.new }
    {
        if self.place >= self.view.member_count(self.channel) {
            return None;
        }
        let member = self.view.member_at(self.channel, self.place);
        self.place += 1;
        member
    }
}

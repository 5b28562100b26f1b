//! The tape: the kept lines, as the settings in force read them.

ghost use Rattle.std.specs.Prelude.{◌≡◌, ◌<◌, Bool, false, length, option_map};
ghost use Rattle.std.specs.Option.{IfNone, IfSome};
ghost use Rattle.irc_support.specs.Text.{Text};
ghost use Rattle.net_view.specs.LookBack.{name_before};
ghost use Rattle.net_view.specs.Names.{same};
ghost use Rattle.net_view.specs.Presence.{is_on};
ghost use Rattle.tape_view.specs.Kept.{tape_of, IsReadable};
ghost use Rattle.tape_view.specs.Tape.{key, key_there, meaning, read_by, IsBy, IsLast};

use crate::kept::{Kept, Marks, is_same};
use irc_support::Support;
use net_view::{Telling, told_as};
use std::alloc::Allocator;
use std::marker::Model;

/// A line of a tape: the settings that it is read by, what it says, and whether it comes from us
/// or names us.
#[derive(Drop)]
pub(crate) struct Said<'a, A: Allocator> {
    pub(crate) support: &'a Support<A>,
    pub(crate) telling: Telling<'a, A>,
    pub(crate) marks: Marks,
}

impl<'a, A: Allocator> Said<'a, A> {
    /// The name that a person had before the line; `None` if nobody of before is that person.
    pub(crate) fn name_before(&self, nick: &'a [u8]) -> Option<&'a [u8]>
        ensures { (us : Text → Bool) → IsBy us self.now →
            option_map (λ name. key_there self.now name.now) result
            ≡ name_before us (meaning self.now) (key_there self.now nick.now) }
    {
        match &self.telling {
            Telling::Renamed { old, new } => {
                if self.marks.names_us && !self.marks.by_us {
                    return Some(nick);
                }
                if is_same(self.support, nick, new) {
                    return Some(*old);
                }
                if is_same(self.support, nick, old) {
                    None
                } else {
                    Some(nick)
                }
            }
            Telling::Quits { who } if is_same(self.support, nick, who) => None,
            Telling::Welcomed { .. } => None,
            _ => Some(nick),
        }
    }
}

/// Kept lines, the oldest first, that can be read by the settings in force.
#[derive(Drop)]
pub(crate) struct Tape<'a, A: Allocator> {
    support: &'a Support<A>,
    kept: &'a [Kept<A>],
}

impl<'a, A: Allocator> Model for Tape<'a, A> {
    ghost use Rattle.tape_view.specs.Kept.{tape_of, IsReadable};
    ghost use Rattle.tape_view.specs.Tape.{Heard, read_by};

    ghost Value = { Heard };

    ghost view = { λ t. read_by t.support.now (tape_of t.kept.now) };

    ghost invariant = { λ t. IsReadable t.support.now t.kept.now };
}

impl<'a, A: Allocator> Tape<'a, A> {
    /// These lines, by the settings in force after them.
    pub(crate) fn new(support: &'a Support<A>, kept: &'a [Kept<A>]) -> Tape<'a, A>
        requires { IsReadable support.now kept.now }
        ensures { result ≡ read_by support.now (tape_of kept.now) }
    {
        Tape { support, kept }
    }

    /// The same tape, to be looked back through.
    pub(crate) fn copy(&self) -> Tape<'a, A>
        ensures { result ≡ self.now }
    {
        Tape {
            support: self.support,
            kept: self.kept,
        }
    }

    /// The settings in force.
    pub(crate) fn support(&self) -> &'a Support<A>
        ensures { result.now ≡ self.now.settings }
    {
        self.support
    }

    /// Whether the two are one name.
    pub(crate) fn is_same(&self, a: &[u8], b: &[u8]) -> bool
        ensures { result ≡ same (key self.now a.now) (key self.now b.now) }
    {
        is_same(self.support, a, b)
    }

    /// The last line, and the tape before it; `None` if nothing was received since the connection
    /// was lost, or since the network took us in. Then we are on no channel.
    #[tactic(auto, using(crate::proofs::TapeLast::command_last, crate::proofs::TapeLast::no_lines, crate::proofs::TapeLast::off_after, crate::proofs::TapeLast::tape_none))]
    pub(crate) fn split_last(&self) -> Option<(Said<'a, A>, Tape<'a, A>)>
        ensures last { IfSome result (λ r. IsLast self.now r.0 r.1) }
        ensures shorter { IfSome result (λ r. length r.1.readings < length self.now.readings) }
        ensures none { IfNone result ((c : Text) → is_on self.now.readings c ≡ false) }
    {
        let [older @ .., last] = self.kept else {
            return None;
        };
        if last.lost || !last.fixed {
            return None;
        }
        let said = Said {
            support: self.support,
            telling: told_as(last.command, &last.line),
            marks: last.marks,
        };
        let older = Tape {
            support: self.support,
            kept: older,
        };
        Some((said, older))
    }
}

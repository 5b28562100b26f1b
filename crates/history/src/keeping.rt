//! Which messages are kept.

ghost use Rattle.std.specs.Prelude.{ℕ, ◌≡◌, ◌&&◌, List, None, Some, [], is_some, option_map};
ghost use Rattle.std.specs.Prelude.{if◌then◌else◌};
ghost use Rattle.std.specs.Option.{option_and_then};
ghost use Rattle.std.specs.List.{list_any};
ghost use Rattle.irc_line.specs.Line.{nick_of};
ghost use Rattle.irc_names.specs.declared.case_mapping.CaseMapping.TheVariants.{Ascii};
ghost use Rattle.history.specs.Entry.{entry_parts, message_of};
ghost use Rattle.history.specs.Keeping.{before_at, ends_word, heard_message, is_action, is_among};
ghost use Rattle.history.specs.Keeping.{is_ctcp, is_kept_heard, is_kept_line, is_kept_said, kept_by};
ghost use Rattle.history.specs.Keeping.{is_left_out, is_one_name, is_one_of, is_server_notice};
ghost use Rattle.history.specs.Keeping.{is_person, is_to_one_of, ring_heard, said_ring, whole};

use crate::entry::is_message;
use irc_line::{Line, place_of, split_byte};
use irc_names::CaseMapping;
use std::alloc::{Allocator, Global};

/// Which messages of a network are kept: all, except those that four of these choices leave out; and
/// in whose rings.
#[derive(Drop)]
pub struct Keeping {
    /// Whether CTCP messages are kept, which are texts that begin with byte 1. ACTION always is.
    pub ctcp: bool,
    /// Whether a NOTICE is kept that was heard from a source without `!`, as a server's.
    pub server_notices: bool,
    /// Whether it is kept what a client says to our own nick. The network sends it back to us.
    pub to_self: bool,
    /// Whether what a person says to us, or we to a person, is kept in a ring of that person.
    pub by_person: bool,
    /// The names to which and from which nothing is kept, compared by the `ascii` mapping.
    pub never: Vec<Vec<u8>>,
}

/// Whether a word of CTCP may end before this text.
fn ends_word(text: &[u8]) -> bool
    ensures { result ≡ ends_word text.now }
{
    matches!(text, [] | [b' ' | 1, ..])
}

/// Whether a text is an ACTION: byte 1, the word, and a space, byte 1 or the end.
fn is_action(text: &[u8]) -> bool
    ensures { result ≡ is_action text.now }
{
    text.starts_with(b"\x01ACTION") && ends_word(&text[7..])
}

/// Whether a text is a CTCP message, but no ACTION.
fn is_ctcp(text: &[u8]) -> bool
    ensures { result ≡ is_ctcp text.now }
{
    text.starts_with(b"\x01") && !is_action(text)
}

/// Whether two names are one.
fn is_one_name(mapping: CaseMapping, a: &[u8], b: &[u8]) -> bool
    ensures { result ≡ is_one_name mapping a.now b.now }
{
    mapping.same(a, b)
}

/// An item of a list of targets up to its `@`.
fn before_at(item: &[u8]) -> &[u8]
    ensures { result.now ≡ before_at item.now }
{
    match place_of(b'@', item) {
        Some(end) => &item[..end],
        None => item,
    }
}

/// Whether a name is among those of a list of targets.
fn is_among(target: &[u8], name: &[u8]) -> bool
    ensures { result ≡ is_among target.now name.now }
{
    let mut rest = target;
    while let Some((item, after)) = split_byte(b',', rest) {
        if is_one_name(CaseMapping::Ascii, name, before_at(item)) {
            return true;
        }
        rest = after;
    }
    is_one_name(CaseMapping::Ascii, name, before_at(rest))
}

/// Whether a message of this source and command is a notice of a server.
fn is_server_notice(source: &[u8], command: &[u8]) -> bool
    ensures { result ≡ is_server_notice source.now command.now }
{
    command.eq_ignore_ascii_case(b"NOTICE") && place_of(b'!', source).is_none()
}

/// Whether a target is a person: no channel, mask or list.
fn is_person(target: &[u8]) -> bool
    ensures { result ≡ is_person target.now }
{
    match target.first() {
        Some(b'#' | b'&' | b'+' | b'!' | b'$' | b'@' | b'%' | b'~' | b'*') | None => false,
        Some(_) => place_of(b',', target).is_none(),
    }
}

/// Whether one of these names is among those of a list of targets.
fn is_to_some(names: &Vec<Vec<u8>>, target: &[u8]) -> bool
    ensures { result ≡ list_any (λ name. is_among target.now name.items) names.now.items }
{
    names.iter().any(|name| is_among(target, name))
}

/// Whether this is one of these names.
fn is_some_of(names: &Vec<Vec<u8>>, name: &[u8]) -> bool
    ensures { result ≡ list_any (λ own. is_one_name Ascii own.items name.now) names.now.items }
{
    names
        .iter()
        .any(|own| is_one_name(CaseMapping::Ascii, own, name))
}

impl Keeping {
    /// All messages are kept. It takes no memory.
    pub fn whole(alloc: Global) -> Keeping
        ensures { kept_by result ≡ whole }
    {
        Keeping {
            ctcp: true,
            server_notices: true,
            to_self: true,
            by_person: false,
            never: Vec::new(alloc),
        }
    }

    /// Whether nothing is kept of what is said to one of these targets.
    #[tactic(auto, using(crate::proofs::KeptLines::any_in))]
    fn is_to_one(&self, target: &[u8]) -> bool
        ensures { result ≡ is_to_one_of (kept_by self.now).never target.now }
    {
        is_to_some(&self.never, target)
    }

    /// Whether nothing is kept of what is heard from this name.
    #[tactic(auto, using(crate::proofs::KeptLines::any_in))]
    fn is_one(&self, name: &[u8]) -> bool
        ensures { result ≡ is_one_of (kept_by self.now).never name.now }
    {
        is_some_of(&self.never, name)
    }

    /// Whether a message to this target with this text is left out, whoever says it.
    fn leaves_out(&self, target: &[u8], text: &[u8]) -> bool
        ensures { result ≡ is_left_out (kept_by self.now) target.now text.now }
    {
        !self.ctcp && is_ctcp(text) || self.is_to_one(target)
    }

    /// Whether a message is kept that came from this source, which has this nick.
    fn keeps_from(
        &self,
        source: &[u8],
        nick: &[u8],
        command: &[u8],
        target: &[u8],
        text: &[u8],
    ) -> bool
        requires { nick.now ≡ nick_of source.now }
        ensures { result ≡ is_kept_heard (kept_by self.now)
            (entry_parts [] source.now command.now target.now text.now) }
    {
        if self.leaves_out(target, text) || self.is_one(nick) {
            return false;
        }
        self.server_notices || !is_server_notice(source, command)
    }

    /// Whether a message is kept that a client says, by our own nick, if we have one, and the
    /// mapping of names of the network.
    fn keeps_said(
        &self,
        own: Option<&[u8]>,
        mapping: CaseMapping,
        target: &[u8],
        text: &[u8],
    ) -> bool
        ensures { result ≡ is_kept_said (kept_by self.now) (option_map (λ n. n.now) own.entry) mapping
            target.now text.now }
    {
        let is_to_self = match own {
            Some(nick) => is_one_name(mapping, nick, target),
            None => false,
        };
        !self.leaves_out(target, text) && (self.to_self || !is_to_self)
    }

    /// Whether a line of the network is a message that is kept. It takes no memory.
    pub fn is_kept_heard<A: Allocator>(&self, line: &Line<A>) -> bool
        ensures { (time : List ℕ) → result ≡ is_some (heard_message (kept_by self.now) time line.now) }
    {
        if !is_message(line) {
            return false;
        }
        let mut params = line.params();
        match (
            line.source(),
            line.source_nick(),
            params.next(),
            params.next(),
        ) {
            (Some(source), Some(nick), Some(target), Some(text)) => {
                self.keeps_from(source, nick, line.command(), target, text)
            }
            _ => false,
        }
    }

    /// Whether a line is a message that is kept, if a client says it: by our own nick, if we have
    /// one, and the mapping of names of the network. It takes no memory.
    pub fn is_kept_said<A: Allocator>(
        &self,
        own: Option<&[u8]>,
        mapping: CaseMapping,
        line: &Line<A>,
    ) -> bool
        ensures { result ≡ is_kept_line (kept_by self.now) (option_map (λ n. n.now) own.entry) mapping
            line.now }
    {
        if !is_message(line) {
            return false;
        }
        let mut params = line.params();
        match (params.next(), params.next()) {
            (Some(target), Some(text)) => self.keeps_said(own, mapping, target, text),
            _ => false,
        }
    }

    /// This name, if each person has a ring and the target is one.
    fn ring_of<'l>(&self, name: &'l [u8], target: &[u8]) -> Option<&'l [u8]>
        ensures { option_map (λ name. name.now) result
            ≡ (if (kept_by self.now).by_person && is_person target.now then Some name.now else None) }
    {
        if self.by_person && is_person(target) {
            Some(name)
        } else {
            None
        }
    }

    /// The name of the person in whose ring a line of the network is kept, if it is a message;
    /// `None` if that is the ring of its target. It takes no memory.
    pub fn ring_heard<'l, A: Allocator>(&self, line: &'l Line<A>) -> Option<&'l [u8]>
        ensures { (time : List ℕ) → option_map (λ name. name.now) result ≡ option_and_then
            (ring_heard (kept_by self.now)) (message_of time line.now.source line.now) }
    {
        if !is_message(line) {
            return None;
        }
        let mut params = line.params();
        match (
            line.source(),
            line.source_nick(),
            params.next(),
            params.next(),
        ) {
            (Some(_), Some(nick), Some(target), Some(_)) => self.ring_of(nick, target),
            _ => None,
        }
    }

    /// The name of the person in whose ring a line is kept, if it is a message and a client says it;
    /// `None` if that is the ring of its target. It takes no memory.
    pub fn ring_said<'l, A: Allocator>(&self, line: &'l Line<A>) -> Option<&'l [u8]>
        ensures { option_map (λ name. name.now) result ≡ said_ring (kept_by self.now) line.now }
    {
        if !is_message(line) {
            return None;
        }
        let mut params = line.params();
        match (params.next(), params.next()) {
            (Some(target), Some(_)) => self.ring_of(target, target),
            _ => None,
        }
    }
}

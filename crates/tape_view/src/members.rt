//! The members of a channel that we are on.

ghost use Rattle.std.specs.Prelude.{◌≡◌, ◌&&◌, ℕ, Bool, true, false};
ghost use Rattle.std.specs.Prelude.{is_some, option_map, unwrap_or};
ghost use Rattle.std.specs.List.{filter_map};
ghost use Rattle.irc_names.specs.Nick.{is_nameable};
ghost use Rattle.irc_support.specs.Line.{words_in};
ghost use Rattle.irc_support.specs.Ranks.{has_rank};
ghost use Rattle.irc_support.specs.Settings.{key_by};
ghost use Rattle.irc_support.specs.Text.{Text};
ghost use Rattle.net_view.specs.Names.{same};
ghost use Rattle.net_view.specs.StateLines.{listing};
ghost use Rattle.net_view.specs.LookBack.{last_in, last_of};
ghost use Rattle.net_view.specs.Presence.{is_on};
ghost use Rattle.net_view.specs.Members.{is_member, lists, rank_in_listing, says_member};
ghost use Rattle.net_view.specs.Facts.{spelled_in};
ghost use Rattle.tape_view.specs.Tape.{key, key_there, meaning, IsBy};

use crate::kept::is_same;
use crate::tape::{Said, Tape};
use irc_line::Line;
use irc_names::is_nameable;
use irc_support::{Ranks, Support, names};
use net_view::Telling;
use std::alloc::Allocator;

/// Whether this nick, of a name list or of a MODE, is this person's.
pub(crate) fn names_person<A: Allocator>(support: &Support<A>, word: &[u8], nick: &[u8]) -> bool
    ensures { result
        ≡ (is_nameable word.now
        && same (key_by support.now nick.now) (key_by support.now word.now)) }
{
    is_nameable(word) && is_same(support, nick, word)
}

/// A word of a 353 that names a person: the ranks that it shows, and the nick as it spells it.
#[derive(Clone, Copy)]
pub(crate) struct Word<'a> {
    pub(crate) ranks: Ranks,
    pub(crate) nick: &'a [u8],
}

/// The last word of a 353 that names this person.
pub(crate) fn word_of<'a, A: Allocator>(
    support: &'a Support<A>,
    line: &'a Line<A>,
    nick: &[u8],
) -> Option<Word<'a>>
    ensures listed { is_some result
        ≡ lists (key_by support.now nick.now) (filter_map (listing support.now)
        (words_in support.now line.now)) }
    ensures rank { (rank : ℕ) → option_map (λ word. has_rank word.ranks rank) result
        ≡ last_in (rank_in_listing (key_by support.now nick.now) rank)
        (filter_map (listing support.now) (words_in support.now line.now)) }
    ensures spelled { option_map (λ word. word.nick.now) result
        ≡ last_in (spelled_in (key_by support.now nick.now)) (filter_map (listing support.now)
        (words_in support.now line.now)) }
{
    let mut last = None;
    for (ranks, name) in names(support, line) {
        if names_person(support, name, nick) {
            last = Some(Word { ranks, nick: name });
        }
    }
    last
}

impl<'a, A: Allocator> Said<'a, A> {
    /// What the line says of a person's being a member of a channel.
    fn says_member(&self, channel: &[u8], nick: &[u8]) -> Option<bool>
        ensures { (us : Text → Bool) → IsBy us self.now →
            result ≡ says_member (key_there self.now channel.now) us (meaning self.now)
            (key_there self.now nick.now) }
    {
        match &self.telling {
            Telling::Joined {
                channel: name,
                who,
                ..
            } => {
                if !is_same(self.support, channel, name) {
                    return None;
                }
                if self.marks.by_us {
                    return if self.support.is_channel(name) {
                        Some(is_same(self.support, nick, who))
                    } else {
                        None
                    };
                }
                if is_same(self.support, nick, who) {
                    Some(true)
                } else {
                    None
                }
            }
            Telling::Present {
                channel: name,
                line,
            } => {
                if is_same(self.support, channel, name)
                    && word_of(self.support, line, nick).is_some()
                {
                    Some(true)
                } else {
                    None
                }
            }
            Telling::Parted { channel: name, who } | Telling::Kicked { channel: name, who } => {
                if is_same(self.support, channel, name) && is_same(self.support, nick, who) {
                    Some(false)
                } else {
                    None
                }
            }
            _ => None,
        }
    }
}

impl<'a, A: Allocator> Tape<'a, A> {
    /// Whether the last line that speaks of the channel, on which we are, and of the person makes
    /// the person a member. The person is followed back under earlier names.
    fn was_made_member(&self, channel: &[u8], nick: &[u8]) -> bool
        requires { is_on self.now.readings (key self.now channel.now) ≡ true }
        ensures { result
            ≡ unwrap_or (last_of (says_member (key self.now channel.now)) self.now.readings
            (key self.now nick.now)) false }
    {
        let mut name = nick;
        let mut tape = self.copy();
        while let Some((said, older)) = tape.split_last() {
            if let Some(answer) = said.says_member(channel, name) {
                return answer;
            }
            match said.name_before(name) {
                Some(before) => name = before,
                None => return false,
            }
            tape = older;
        }
        false
    }

    /// Whether the person is a member of the channel, on which we are.
    pub(crate) fn is_member(&self, channel: &[u8], nick: &[u8]) -> bool
        ensures { result
            ≡ is_member self.now.readings (key self.now channel.now) (key self.now nick.now) }
    {
        self.name_on(channel).is_some() && self.was_made_member(channel, nick)
    }
}

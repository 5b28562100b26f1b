//! The ranks that a member of a channel holds.

ghost use Rattle.std.specs.Prelude.{◌≡◌, ◌<◌, Bool, true};
ghost use Rattle.std.specs.List.{filter_map};
ghost use Rattle.std.specs.Option.{option_and_then};
ghost use Rattle.irc_support.specs.ChangeShown.{shown_change};
ghost use Rattle.irc_support.specs.Line.{changes_in};
ghost use Rattle.irc_support.specs.Ranks.{ranks_that};
ghost use Rattle.irc_support.specs.Settings.{key_by};
ghost use Rattle.irc_support.specs.Text.{Text};
ghost use Rattle.net_view.specs.StateLines.{letter_change};
ghost use Rattle.net_view.specs.LookBack.{last_in};
ghost use Rattle.net_view.specs.Presence.{is_on};
ghost use Rattle.net_view.specs.Members.{rank_decided, rank_in_change, says_rank};
ghost use Rattle.tape_view.specs.Tape.{key, key_there, meaning, IsBy};

use crate::kept::is_same;
use crate::members::{names_person, word_of};
use crate::tape::{Said, Tape};
use irc_line::Line;
use irc_support::{Change, Ranks, Support, changes};
use net_view::Telling;
use std::alloc::Allocator;

/// What a change of a letter says of the rank of this person.
fn rank_in_change<A: Allocator>(
    support: &Support<A>,
    change: Change<'_>,
    nick: &[u8],
    rank: u8,
) -> Option<bool>
    ensures { result
        ≡ option_and_then (rank_in_change (key_by support.now nick.now) rank)
        (letter_change support.now (shown_change change.entry)) }
{
    if support.rank_of_letter(change.letter)? != rank {
        return None;
    }
    if names_person(support, change.param?, nick) {
        Some(change.plus)
    } else {
        None
    }
}

/// Whether this person holds the rank, by the last change of a MODE that says so.
fn rank_changed<A: Allocator>(
    support: &Support<A>,
    line: &Line<A>,
    nick: &[u8],
    rank: u8,
) -> Option<bool>
    ensures { result
        ≡ last_in (rank_in_change (key_by support.now nick.now) rank)
        (filter_map (letter_change support.now) (changes_in support.now line.now)) }
{
    let mut last = None;
    for change in changes(support, line) {
        if let Some(answer) = rank_in_change(support, change, nick, rank) {
            last = Some(answer);
        }
    }
    last
}

impl<'a, A: Allocator> Said<'a, A> {
    /// What the line says of a person's holding a rank on a channel.
    fn says_rank(&self, channel: &[u8], nick: &[u8], rank: u8) -> Option<bool>
        ensures { (us : Text → Bool) → IsBy us self.now →
            result ≡ says_rank (key_there self.now channel.now) rank us (meaning self.now)
            (key_there self.now nick.now) }
    {
        match &self.telling {
            Telling::Joined {
                channel: name,
                who,
                ..
            } => {
                if !is_same(self.support, channel, name) {
                    return None;
                }
                if self.marks.by_us && self.support.is_channel(name) {
                    return Some(false);
                }
                if is_same(self.support, nick, who) {
                    Some(false)
                } else {
                    None
                }
            }
            Telling::Present {
                channel: name,
                line,
            } if is_same(self.support, channel, name) => {
                match word_of(self.support, line, nick) {
                    Some(word) => Some(word.ranks.has(rank)),
                    None => None,
                }
            }
            Telling::Changed {
                channel: name,
                line,
            } if is_same(self.support, channel, name) => {
                rank_changed(self.support, line, nick, rank)
            }
            _ => None,
        }
    }
}

impl<'a, A: Allocator> Tape<'a, A> {
    /// Whether the person holds the rank on the channel, which we are on, by the last line that
    /// says so. The person is followed back under earlier names.
    fn has_rank(&self, channel: &[u8], nick: &[u8], rank: u8) -> bool
        requires { is_on self.now.readings (key self.now channel.now) ≡ true }
        ensures { result
            ≡ rank_decided self.now.readings (key self.now channel.now) (key self.now nick.now)
            rank }
    {
        let mut name = nick;
        let mut tape = self.copy();
        while let Some((said, older)) = tape.split_last() {
            if let Some(answer) = said.says_rank(channel, name, rank) {
                return answer;
            }
            match said.name_before(name) {
                Some(before) => name = before,
                None => return false,
            }
            tape = older;
        }
        false
    }

    /// The ranks that the person holds on the channel, on which we are.
    #[tactic(auto, using(crate::proofs::GatheredRanks::none_below))]
    pub(crate) fn ranks(&self, channel: &[u8], nick: &[u8]) -> Ranks
        requires { is_on self.now.readings (key self.now channel.now) ≡ true }
        ensures { result
            ≡ ranks_that (rank_decided self.now.readings (key self.now channel.now)
            (key self.now nick.now)) }
    {
        let mut ranks = Ranks::none();
        for rank in 0..16 {
            if self.has_rank(channel, nick, rank) {
                ranks = ranks.with(rank);
            }
        }
        ranks
    }
}

//! The modes of a channel on which we are: what the kept lines say of a letter, and the letters
//! that are on, in the order of their bytes.

ghost use Rattle.std.specs.Prelude.{◌≡◌, Bool, true, option_map};
ghost use Rattle.std.specs.List.{filter_map};
ghost use Rattle.std.specs.Ordering.{nat_cmp};
ghost use Rattle.irc_support.specs.Text.{Text};
ghost use Rattle.irc_support.specs.Settings.{key_by};
ghost use Rattle.irc_support.specs.Line.{changes_in};
ghost use Rattle.net_view.specs.StateLines.{mode_change, setting_by};
ghost use Rattle.net_view.specs.LookBack.{last_in};
ghost use Rattle.net_view.specs.Presence.{is_on};
ghost use Rattle.net_view.specs.Modes.{setting_of, says_mode, mode_of};
ghost use Rattle.net_view.specs.Least.{above_by, better_by, considered_by, improves_by, IsNextBy};
ghost use Rattle.tape_view.specs.Tape.{key, key_there, meaning, IsBy};
ghost use Rattle.tape_view.specs.Letters.{is_set, letter_shown, letters_listed, letters_told};

use crate::kept::is_same;
use crate::tape::{Said, Tape};
use irc_line::Line;
use irc_support::{Kind, Support, changes};
use net_view::{Telling, is_word};
use std::alloc::Allocator;

/// A mode: `None` if it is off, else on, with its parameter, if it has one.
type Setting<'a> = Option<Option<&'a [u8]>>;

/// What a change of a letter of this kind sets; `None` if that is not kept.
fn setting_by<'a>(kind: Kind, plus: bool, param: Option<&'a [u8]>) -> Option<Setting<'a>>
    ensures { option_map (option_map (option_map (λ text. text.now))) result
        ≡ setting_by kind plus (option_map (λ text. text.now) param.entry) }
{
    match kind {
        Kind::D => Some(if plus { Some(None) } else { None }),
        Kind::C if !plus => Some(None),
        Kind::B | Kind::C => match param {
            Some(text) if is_word(text) => Some(if plus { Some(Some(text)) } else { None }),
            _ => None,
        },
        Kind::Prefix | Kind::A | Kind::Unknown => None,
    }
}

/// What the last change of this letter in a MODE or a 324 line sets.
#[tactic(auto, using(crate::proofs::LineParts::last_found, crate::proofs::LineParts::sets_it, crate::proofs::LineParts::sets_none))]
fn last_setting<'a, A: Allocator, B: Allocator>(
    support: &'a Support<A>,
    line: &'a Line<B>,
    letter: u8,
) -> Option<Setting<'a>>
    ensures { option_map (option_map (option_map (λ text. text.now))) result
        ≡ last_in (setting_of letter) (filter_map (mode_change support.now)
        (changes_in support.now line.now)) }
{
    let kind = support.kind(letter);
    let mut last = None;
    for change in changes(support, line) {
        if change.letter == letter {
            last = setting_by(kind, change.plus, change.param).or(last);
        }
    }
    last
}

/// Whether a letter comes after the one that was given, if any.
fn is_above(after: Option<u8>, letter: u8) -> bool
    ensures { result ≡ above_by nat_cmp after letter }
{
    match after {
        Some(after) => after < letter,
        None => true,
    }
}

/// Whether a letter comes before the best so far, if any.
fn is_better(best: Option<u8>, letter: u8) -> bool
    ensures { result ≡ improves_by nat_cmp best letter }
{
    match best {
        Some(best) => letter < best,
        None => true,
    }
}

impl<'a, A: Allocator> Said<'a, A> {
    /// What the line says of the mode of a letter.
    fn says_mode(&self, channel: &[u8], letter: u8) -> Option<Setting<'a>>
        ensures { (us : Text → Bool) → IsBy us self.now →
            option_map (option_map (option_map (λ text. text.now))) result
            ≡ says_mode (key_there self.now channel.now) letter us (meaning self.now) }
    {
        match &self.telling {
            Telling::Joined { channel: name, .. }
                if self.marks.by_us
                    && self.support.is_channel(name)
                    && is_same(self.support, channel, name) => { Some(None) }
            Telling::Changed {
                channel: name,
                line,
            } if is_same(self.support, channel, name) => {
                last_setting(self.support, line, letter)
            }
            Telling::Listed {
                channel: name,
                line,
            } if is_same(self.support, channel, name) => {
                Some(last_setting(self.support, line, letter).unwrap_or(None))
            }
            _ => None,
        }
    }
}

impl<'a, A: Allocator> Tape<'a, A> {
    /// The mode of a letter, of a channel on which we are.
    pub(crate) fn mode(&self, channel: &[u8], letter: u8) -> Setting<'a>
        requires { is_on self.now.readings (key self.now channel.now) ≡ true }
        ensures { option_map (option_map (λ text. text.now)) result
            ≡ mode_of self.now.readings (key self.now channel.now) letter }
    {
        let mut tape = self.copy();
        while let Some((said, older)) = tape.split_last() {
            if let Some(answer) = said.says_mode(channel, letter) {
                return answer;
            }
            tape = older;
        }
        None
    }

    /// Whether the mode of a letter is on.
    fn is_set(&self, channel: &[u8], letter: u8) -> bool
        requires { is_on self.now.readings (key self.now channel.now) ≡ true }
        ensures { result ≡ is_set self.now.readings (key self.now channel.now) letter }
    {
        self.mode(channel, letter).is_some()
    }

    /// The best so far, or this letter, if it is on, above the given one and before the best.
    fn better_letter(
        &self,
        channel: &[u8],
        after: Option<u8>,
        best: Option<u8>,
        letter: u8,
    ) -> Option<u8>
        requires { is_on self.now.readings (key self.now channel.now) ≡ true }
        ensures { result
            ≡ better_by nat_cmp (is_set self.now.readings (key self.now channel.now)) after best
            letter }
    {
        if is_above(after, letter) && is_better(best, letter) && self.is_set(channel, letter) {
            Some(letter)
        } else {
            best
        }
    }

    /// The best so far, or the best of the letters that a line lists.
    fn best_listed(
        &self,
        channel: &[u8],
        after: Option<u8>,
        best: Option<u8>,
        line: &Line<A>,
    ) -> Option<u8>
        requires { is_on self.now.readings (key self.now channel.now) ≡ true }
        ensures { result
            ≡ considered_by nat_cmp (is_set self.now.readings (key self.now channel.now)) after best
            (letters_listed self.now.settings line.now) }
    {
        let mut best = best;
        for change in changes(self.support(), line) {
            best = self.better_letter(channel, after, best, change.letter);
        }
        best
    }

    /// The best so far, or the best of the letters that a MODE or a 324 lists.
    fn best_letter(
        &self,
        channel: &[u8],
        after: Option<u8>,
        best: Option<u8>,
        telling: &Telling<'_, A>,
    ) -> Option<u8>
        requires { is_on self.now.readings (key self.now channel.now) ≡ true }
        ensures { result
            ≡ considered_by nat_cmp (is_set self.now.readings (key self.now channel.now)) after best
            (letters_told self.now.settings telling.now) }
    {
        match telling {
            Telling::Changed { line, .. } | Telling::Listed { line, .. } => {
                self.best_listed(channel, after, best, line)
            }
            _ => best,
        }
    }

    /// The least letter above the given one, among those that are on. Before our own JOIN nothing
    /// counts.
    fn next_letter(&self, channel: &[u8], after: Option<u8>) -> Option<u8>
        requires { is_on self.now.readings (key self.now channel.now) ≡ true }
        ensures { IsNextBy nat_cmp (is_set self.now.readings (key self.now channel.now)) after
            result }
    {
        let mut best = None;
        let mut tape = self.copy();
        while let Some((said, older)) = tape.split_last() {
            if said.says_on(channel).is_some() {
                return best;
            }
            best = self.best_letter(channel, after, best, &said.telling);
            tape = older;
        }
        best
    }

    /// The letter at a place, counted from 0, of those that are on.
    pub(crate) fn letter_at(&self, channel: &[u8], place: usize) -> Option<u8>
        requires { is_on self.now.readings (key self.now channel.now) ≡ true }
        ensures { result ≡ letter_shown self.now.readings (key self.now channel.now) place }
    {
        let mut at = self.next_letter(channel, None);
        for _place in 0..place {
            let letter = at?;
            at = self.next_letter(channel, Some(letter));
        }
        at
    }
}

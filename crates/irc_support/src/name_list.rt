//! The words of a name list, and the members that they name.

ghost use Rattle.std.specs.Prelude.{◌≡◌, [], ◌∷◌, MatchOption};
ghost use Rattle.std.specs.Iterator.{YieldsFirstBy, item_count};
ghost use Rattle.irc_support.specs.NamesReply as parsed;
ghost use Rattle.irc_support.specs.NamesReply.{words_between};
ghost use Rattle.irc_support.specs.MemberShown.{shown_member, shown_word};

use crate::cuts::cut;
use crate::{Ranks, Support};
use std::alloc::{Allocator, Global};
use std::marker::Model;

/// The words of a name list that are left, each taken apart. See [`name_words`](crate::name_words).
#[derive(Drop)]
pub struct NameWords<'a, A: Allocator = Global> {
    support: &'a Support<A>,
    // the words that are left
    text: &'a [u8],
}

impl<'a, A: Allocator> Model for NameWords<'a, A> {
    ghost use Rattle.std.specs.Prelude.{ℕ, List};
    ghost use Rattle.irc_support.specs.Text.{Text};
    ghost use Rattle.irc_support.specs.NamesReply.{split_words};

    ghost Value = { List (List ℕ × Text) };

    ghost view = { λ s. split_words s.support.now s.text.now };
}

impl<'a, A: Allocator> NameWords<'a, A> {
    pub(crate) fn of(support: &'a Support<A>, text: &'a [u8]) -> NameWords<'a, A>
        ensures { result ≡ parsed.split_words support.now text.now }
    {
        NameWords { support, text }
    }
}

impl<'a, A: Allocator> Iterator for NameWords<'a, A> {
    type Item = (Ranks, &'a [u8]);

    ghost next_gives = { YieldsFirstBy shown_word (λ left. left) };

    ghost remaining = { item_count (λ left. left) };

    #[tactic(auto, unfolding(crate::specs::NamesReply::split_words))]
    fn next(&mut self) -> Option<(Ranks, &'a [u8])> {
        let (word, rest) = next_word(self.text)?;
        self.text = rest;
        Some(self.support.split_symbols(word))
    }
}

/// The members that a line names, each with the ranks that it shows, in their order. See
/// [`names`](crate::names).
#[derive(Drop)]
pub struct Names<'a, A: Allocator = Global> {
    support: &'a Support<A>,
    // the words that are left
    text: &'a [u8],
}

impl<'a, A: Allocator> Model for Names<'a, A> {
    ghost use Rattle.std.specs.Prelude.{List};
    ghost use Rattle.irc_support.specs.NamesReply.{Word, words};

    ghost Value = { List Word };

    ghost view = { λ s. words s.support.now s.text.now };
}

impl<'a, A: Allocator> Names<'a, A> {
    pub(crate) fn of(support: &'a Support<A>, text: &'a [u8]) -> Names<'a, A>
        ensures { result ≡ parsed.words support.now text.now }
    {
        Names { support, text }
    }
}

impl<'a, A: Allocator> Iterator for Names<'a, A> {
    type Item = (Ranks, &'a [u8]);

    ghost next_gives = { YieldsFirstBy shown_member (λ left. left) };

    ghost remaining = { item_count (λ left. left) };

    #[tactic(auto, unfolding(crate::specs::NamesReply::words))]
    fn next(&mut self) -> Option<(Ranks, &'a [u8])> {
        let (word, rest) = next_word(self.text)?;
        self.text = rest;
        let (ranks, name) = self.support.split_symbols(word);
        Some((ranks, cut(b'!', name).0))
    }
}

/// The first word of a text of words with spaces between, and what follows it; `None` if
/// there is no word left.
pub fn next_word(text: &[u8]) -> Option<(&[u8], &[u8])>
    ensures { MatchOption result (words_between text.now ≡ [])
        (λ w. words_between text.now ≡ w.0.now ∷ words_between w.1.now) }
{
    let mut left = text;
    while !left.is_empty() {
        let (word, rest) = cut(b' ', left);
        left = match rest {
            Some(rest) => rest,
            None => &[],
        };
        if !word.is_empty() {
            return Some((word, left));
        }
    }
    None
}

//! The parameters of a line, one after another.

ghost use Rattle.std.specs.Prelude.{◌≡◌, false};
ghost use Rattle.std.specs.Iterator.{YieldsFirstRef, item_count};
ghost use Rattle.irc_line.specs.Reading.{params_at};

use crate::scan::next_param;
use std::iter::FusedIterator;
use std::marker::Model;

/// The parameters of a line that are left, in order. See [`Line::params`](crate::Line::params).
#[derive(Clone, Drop)]
pub struct Params<'a> {
    // the text after what was taken
    rest: &'a [u8],
}

impl<'a> Model for Params<'a> {
    ghost use Rattle.std.specs.Prelude.{ℕ, List, false};
    ghost use Rattle.irc_line.specs.Reading.{params_at};

    ghost Value = { List (List ℕ) };

    ghost view = { λ s. params_at false s.rest.now };
}

impl<'a> Params<'a> {
    /// The parameters of what follows a command.
    pub(crate) fn of(text: &'a [u8]) -> Params<'a>
        ensures { result ≡ params_at false text.now }
    {
        Params { rest: text }
    }
}

impl<'a> Iterator for Params<'a> {
    type Item = &'a [u8];

    ghost next_gives = { YieldsFirstRef (λ left. left) };

    ghost remaining = { item_count (λ left. left) };

    fn next(&mut self) -> Option<&'a [u8]> {
        let (param, rest) = next_param(self.rest)?;
        self.rest = rest;
        Some(param)
    }
}

impl<'a> FusedIterator for Params<'a> {}

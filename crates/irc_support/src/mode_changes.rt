//! The changes of MODE (RFC 2812, section 3.2.3) and of 324 RPL_CHANNELMODEIS (section 5.1).

ghost use Rattle.std.specs.Prelude.{◌≡◌, true, drop};
ghost use Rattle.std.specs.Iterator.{YieldsFirstBy, item_count};
ghost use Rattle.irc_support.specs.ModeChanges as parsed;
ghost use Rattle.irc_support.specs.ModeChanges.{signed, with_params};
ghost use Rattle.irc_support.specs.Line.{changes_in};
ghost use Rattle.irc_support.specs.ChangeShown.{shown_change};

use crate::Support;
use irc_line::{Line, Params};
use std::alloc::{Allocator, Global};
use std::marker::Model;

/// One letter of a mode text.
#[derive(Clone, Copy, Debug, PartialEq, Eq)]
pub struct Change<'a> {
    /// Whether the letter is set, and not unset.
    pub plus: bool,
    /// The letter, as it came; it may be one that the network did not name.
    pub letter: u8,
    /// What the letter took: the next parameter, word or not, if its kind takes one and one was
    /// left.
    pub param: Option<&'a [u8]>,
}

/// The changes that a line lists, in their order. See [`changes`].
#[derive(Drop)]
pub struct ModeChanges<'a, A: Allocator = Global> {
    support: &'a Support<A>,
    // the sign, and the letters and the parameters that are left
    plus: bool,
    letters: &'a [u8],
    params: Params<'a>,
}

impl<'a, A: Allocator> Model for ModeChanges<'a, A> {
    ghost use Rattle.std.specs.Prelude.{List};
    ghost use Rattle.irc_support.specs.ModeChanges.{ChangeParts, signed, with_params};

    ghost Value = { List ChangeParts };

    ghost view = { λ s. with_params s.support.now (signed s.plus s.letters.now) s.params };
}

impl<'a, A: Allocator> Iterator for ModeChanges<'a, A> {
    type Item = Change<'a>;

    ghost next_gives = { YieldsFirstBy shown_change (λ left. left) };

    ghost remaining = { item_count (λ left. left) };

    fn next(&mut self) -> Option<Change<'a>> {
        while let [byte, letters @ ..] = self.letters {
            self.letters = letters;
            match *byte {
                b'+' => self.plus = true,
                b'-' => self.plus = false,
                letter => {
                    let plus = self.plus;
                    let mut param = None;
                    if self.support.kind(letter).takes_parameter(plus) {
                        param = self.params.next();
                    }
                    return Some(Change {
                        plus,
                        letter,
                        param,
                    });
                }
            }
        }
        None
    }
}

/// The changes of these letters, which take these parameters.
fn changes_of<'a, A: Allocator>(
    support: &'a Support<A>,
    letters: &'a [u8],
    params: Params<'a>,
) -> ModeChanges<'a, A>
    ensures { result ≡ with_params support.now (signed true letters.now) params.entry }
{
    ModeChanges {
        support,
        plus: true,
        letters,
        params,
    }
}

/// The changes of the letters in the parameter at this place, which take what follows it.
fn changes_from<'a, A: Allocator, B: Allocator>(
    support: &'a Support<A>,
    line: &'a Line<B>,
    place: usize,
) -> ModeChanges<'a, A>
    ensures { result ≡ parsed.changes support.now (drop place line.now.params) }
{
    let mut params = line.params();
    let letters = params.nth(place).unwrap_or(&[]);
    changes_of(support, letters, params)
}

/// The changes that a MODE or a 324 line lists, read by these settings: none for any other line. It
/// takes no memory.
///
/// MODE has its letters in parameter 1, 324 in parameter 2, and what they take after it, as in
/// `:s MODE #c +lo-v 5 bob eve` (the place of the letters in a 324 is our own choice). The sign is
/// plus until the text says otherwise. Prefix letters and kinds A and B take a parameter always, C
/// when it is set, D and unknown letters never. A letter that finds no parameter left comes
/// without one.
pub fn changes<'a, A: Allocator, B: Allocator>(
    support: &'a Support<A>,
    line: &'a Line<B>,
) -> ModeChanges<'a, A>
    ensures { result ≡ changes_in support.now line.now }
{
    if line.is(b"MODE") {
        changes_from(support, line, 1)
    } else if line.is(b"324") {
        changes_from(support, line, 2)
    } else {
        changes_of(support, b"", line.params())
    }
}

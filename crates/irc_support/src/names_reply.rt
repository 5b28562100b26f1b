//! Name lists, 353 RPL_NAMREPLY (RFC 2812, section 5.1).

ghost use Rattle.std.specs.Prelude.{◌≡◌};
ghost use Rattle.irc_support.specs.Line.{words_in, split_words_in};

use crate::Support;
use crate::name_list::{NameWords, Names};
use irc_line::Line;
use std::alloc::Allocator;

/// The words of a 353 line, taken apart by these settings: none for any other line. It takes no
/// memory.
///
/// The words are in parameter 3 with spaces between, as in `:s 353 Me = #c :Me @+bob +eve!e@h`
/// (that they are in this place is our own choice). A word is the symbols of `PREFIX` at its
/// front, all of which are read (IRCv3 multi-prefix), and what follows them, unchanged: a nick,
/// or with userhost-in-names `nick!user@host`. A word of symbols alone comes with an empty rest.
#[tactic(auto, unfolding(crate::specs::NamesReply::split_words))]
pub fn name_words<'a, A: Allocator, B: Allocator>(
    support: &'a Support<A>,
    line: &'a Line<B>,
) -> NameWords<'a, A>
    ensures { result ≡ split_words_in support.now line.now }
{
    if line.is(b"353") {
        NameWords::of(support, line.param(3).unwrap_or(&[]))
    } else {
        NameWords::of(support, &[])
    }
}

/// The members that a 353 line names, read by these settings: none for any other line. It takes no
/// memory.
///
/// They are those of [`name_words`], each with its nick alone, which ends before the first `!`. A
/// word of symbols alone comes with an empty nick.
#[tactic(auto, unfolding(crate::specs::NamesReply::words))]
pub fn names<'a, A: Allocator, B: Allocator>(
    support: &'a Support<A>,
    line: &'a Line<B>,
) -> Names<'a, A>
    ensures { result ≡ words_in support.now line.now }
{
    if line.is(b"353") {
        Names::of(support, line.param(3).unwrap_or(&[]))
    } else {
        Names::of(support, &[])
    }
}

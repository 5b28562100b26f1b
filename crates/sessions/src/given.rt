//! What the lines of a login give: the parameter 0 of NICK, USER and PASS.

ghost use Rattle.std.specs.Prelude.{◌≡◌, IfOk, option_map};
ghost use Rattle.std.specs.Option.{option_or};
ghost use Rattle.sessions.specs.Given.{given};

use crate::OutOfMemory;
use irc_line::Line;
use std::alloc::Global;

/// Parameter 0 of a line of this command; `None` if it is no such line, or has none.
pub(crate) fn given<'a>(line: &'a Line, command: &[u8]) -> Option<&'a [u8]>
    ensures { option_map (λ text. text.now) result ≡ given command.now line.now }
{
    if line.is(command) {
        line.param(0)
    } else {
        None
    }
}

/// What was given last, by the line or before it.
pub(crate) fn latest<'a>(
    line: &'a Line,
    command: &[u8],
    before: &'a Option<Vec<u8>>,
) -> Option<&'a [u8]>
    ensures { option_map (λ text. text.now) result
        ≡ option_or (given command.now line.now) (option_map (λ text. text.items) before.now) }
{
    given(line, command).or(before.as_deref())
}

/// A copy of a text, if there is one.
pub(crate) fn copied(alloc: Global, text: Option<&[u8]>) -> Result<Option<Vec<u8>>, OutOfMemory>
    ensures { IfOk result (λ copy. option_map (λ text. text.items) copy
        ≡ option_map (λ text. text.now) text.entry) }
{
    match text {
        Some(text) => Ok(Some(Vec::from_slice(alloc, text)?)),
        None => Ok(None),
    }
}

/// Puts a text in the place of another, if there is one.
pub(crate) fn replace(kept: &mut Option<Vec<u8>>, text: Option<Vec<u8>>)
    ensures { option_map (λ text. text.items) kept.new
        ≡ option_or (option_map (λ text. text.items) text)
        (option_map (λ text. text.items) kept.old) }
{
    if text.is_some() {
        *kept = text;
    }
}

//! The text of a line.

ghost use Rattle.std.specs.Prelude.{◌≡◌, ◌++◌, ◌∷◌, [], ℕ, List, false, option_map, OnOk, OnErr};
ghost use Rattle.std.specs.Prelude.{map};
ghost use Rattle.std.specs.List.{list_any, flat_map};
ghost use Rattle.irc_line.specs.Line.{is_space};
ghost use Rattle.irc_line.specs.Reading.{params_at};
ghost use Rattle.irc_line.specs.Writing.{line_of_parts, written, is_word, param_text, marked_text};
ghost use Rattle.irc_line.specs.Writing.{is_token, is_part};
ghost use Rattle.irc_line.specs.Writing.{are_params};

use crate::OutOfMemory;
use crate::scan::{is_clean, next_param};
use std::alloc::Allocator;

fn has_space(text: &[u8]) -> bool
    ensures { result ≡ list_any is_space text.now }
{
    text.iter().any(|byte| *byte == b' ')
}

/// Whether this parameter needs no colon.
fn is_a_word(param: &[u8]) -> bool
    ensures { result ≡ is_word param.now }
{
    match param {
        [] => false,
        [first, ..] => *first != b':' && !has_space(param),
    }
}

/// Adds a part after its mark, and a space.
pub fn push_marked<A: Allocator>(
    mark: u8,
    part: Option<&[u8]>,
    out: &mut Vec<u8, A>,
) -> Result<(), OutOfMemory>
    ensures ok { OnOk result
        (out.new.items ≡ out.old.items ++ marked_text mark (option_map (λ p. p.now) part.entry)) }
    ensures err { OnErr result ((more : List ℕ) × (out.new.items ≡ out.old.items ++ more)) }
{
    if let Some(part) = part {
        out.push(mark)?;
        out.extend_from_slice(part)?;
        out.push(b' ')?;
    }
    Ok(())
}

fn push_param<A: Allocator>(param: &[u8], out: &mut Vec<u8, A>) -> Result<(), OutOfMemory>
    ensures ok { OnOk result (out.new.items ≡ out.old.items ++ param_text param.now) }
    ensures err { OnErr result ((more : List ℕ) × (out.new.items ≡ out.old.items ++ more)) }
{
    out.push(b' ')?;
    if !is_a_word(param) {
        out.push(b':')?;
    }
    out.extend_from_slice(param)?;
    Ok(())
}

/// Adds the parameters of what follows a command.
pub fn push_params<A: Allocator>(text: &[u8], out: &mut Vec<u8, A>) -> Result<(), OutOfMemory>
    ensures ok { OnOk result
        (out.new.items ≡ out.old.items ++ flat_map param_text (params_at false text.now)) }
    ensures err { OnErr result ((more : List ℕ) × (out.new.items ≡ out.old.items ++ more)) }
{
    let mut rest = text;
    while let Some((param, after)) = next_param(rest) {
        push_param(param, out)?;
        rest = after;
    }
    Ok(())
}

/// Adds these parameters.
pub fn push_all<A: Allocator>(params: &[&[u8]], out: &mut Vec<u8, A>) -> Result<(), OutOfMemory>
    ensures ok { OnOk result (out.new.items
        ≡ out.old.items ++ flat_map param_text (map (λ p. p.now) params.now)) }
    ensures err { OnErr result ((more : List ℕ) × (out.new.items ≡ out.old.items ++ more)) }
{
    let mut rest = params;
    while let [param, after @ ..] = rest {
        push_param(param, out)?;
        rest = after;
    }
    Ok(())
}

fn push_line<A: Allocator>(
    tags: Option<&[u8]>,
    source: Option<&[u8]>,
    command: &[u8],
    params: &[&[u8]],
    out: &mut Vec<u8, A>,
) -> Result<(), OutOfMemory>
    ensures ok { OnOk result (out.new.items ≡ out.old.items
        ++ written (line_of_parts (option_map (λ t. t.now) tags.entry)
        (option_map (λ s. s.now) source.entry) command.now (map (λ p. p.now) params.now))) }
    ensures err { OnErr result ((more : List ℕ) × (out.new.items ≡ out.old.items ++ more)) }
{
    push_marked(b'@', tags, out)?;
    push_marked(b':', source, out)?;
    out.extend_from_slice(command)?;
    push_all(params, out)?;
    out.extend_from_slice(b"\r\n")?;
    Ok(())
}

/// Appends a line of these parts and CR LF, as [`Line::write`](crate::Line::write) does with a line
/// in hand; no line is made. Whether the text is read as these parts is not checked (that is what
/// [`Line::make`](crate::Line::make) says). After an error `out` is unchanged.
pub fn write_line<A: Allocator>(
    tags: Option<&[u8]>,
    source: Option<&[u8]>,
    command: &[u8],
    params: &[&[u8]],
    out: &mut Vec<u8, A>,
) -> Result<(), OutOfMemory>
    ensures taken { OnOk result (out.new.items ≡ out.old.items
        ++ written (line_of_parts (option_map (λ t. t.now) tags.entry)
        (option_map (λ s. s.now) source.entry) command.now (map (λ p. p.now) params.now))) }
    ensures kept { OnErr result (out.new.items ≡ out.old.items) }
{
    let len = out.len();
    let done = push_line(tags, source, command, params, out);
    if done.is_err() {
        out.truncate(len);
    }
    done
}

/// How many bytes a part takes after its mark, with a space.
pub fn part_room(part: Option<&[u8]>) -> usize {
    part.map_or(0, |part| part.len().saturating_add(2))
}

/// How many bytes the parameters take at the most.
pub fn params_room(params: &[&[u8]]) -> usize {
    let mut room: usize = 0;
    for param in params {
        room = room.saturating_add(param.len()).saturating_add(2);
    }
    room
}

fn is_a_token(part: &[u8]) -> bool
    ensures { result ≡ is_token part.now }
{
    !part.is_empty() && !has_space(part)
}

/// Whether these can be tags or a source.
pub fn is_a_part(part: Option<&[u8]>) -> bool
    ensures { result ≡ is_part (option_map (λ p. p.now) part.entry) }
{
    match part {
        None => true,
        Some(part) => is_a_token(part) && is_clean(part),
    }
}

/// Whether these can be the parameters of a line.
pub fn are_all_params(params: &[&[u8]]) -> bool
    ensures { result ≡ are_params (map (λ p. p.now) params.now) }
{
    let mut rest = params;
    while let [param, after @ ..] = rest {
        if after.is_empty() {
            return is_clean(param);
        }
        if !is_a_word(param) || !is_clean(param) {
            return false;
        }
        rest = after;
    }
    true
}

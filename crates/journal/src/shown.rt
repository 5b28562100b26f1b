//! The kept messages as text.

ghost use Rattle.std.specs.Prelude.{◌≡◌, ◌<◌, ◌++◌, IfOk, OnOk};
ghost use Rattle.journal.specs.Shown.{hex_digit, line_of, part, shown, shown_all};
ghost use Rattle.journal.specs.Shown.{text_of_messages};

use history::{Entry, History, OutOfMemory};
use std::alloc::Global;

/// A hexadecimal digit.
fn hex_digit(value: u8) -> u8
    requires { value < 16 }
    ensures { result ≡ hex_digit value }
{
    if value < 10 {
        b'0' + value
    } else {
        b'a' + (value - 10)
    }
}

/// Adds a byte, or `\xNN` for a control byte.
fn push_shown(out: &mut Vec<u8>, byte: u8) -> Result<(), OutOfMemory>
    ensures { OnOk result (out.new.items ≡ out.old.items ++ shown byte) }
{
    if byte < 0x20 || byte == 0x7F {
        out.extend_from_slice(&[b'\\', b'x', hex_digit(byte / 16), hex_digit(byte % 16)])?;
    } else {
        out.push(byte)?;
    }
    Ok(())
}

/// Adds a text.
fn push_all_shown(out: &mut Vec<u8>, text: &[u8]) -> Result<(), OutOfMemory>
    ensures { OnOk result (out.new.items ≡ out.old.items ++ shown_all text.now) }
{
    let mut rest = text;
    while let [byte, after @ ..] = rest {
        push_shown(out, *byte)?;
        rest = after;
    }
    Ok(())
}

/// Adds a text and what ends it.
fn push_part(out: &mut Vec<u8>, text: &[u8], end: u8) -> Result<(), OutOfMemory>
    ensures { OnOk result (out.new.items ≡ out.old.items ++ part text.now end) }
{
    push_all_shown(out, text)?;
    out.push(end)?;
    Ok(())
}

/// Adds the line of a message.
#[tactic(auto, using(crate::proofs::TextParts::four_parts))]
fn push_line(out: &mut Vec<u8>, entry: &Entry) -> Result<(), OutOfMemory>
    ensures { OnOk result (out.new.items ≡ out.old.items ++ line_of entry.now) }
{
    push_part(out, entry.time(), b' ')?;
    push_part(out, entry.target(), b' ')?;
    push_part(out, entry.source(), b' ')?;
    push_part(out, entry.text(), b'\n')?;
    Ok(())
}

/// The messages of a history as text, one a line and in their order: the time, the target, the
/// source and the text, with a space between two of them, as
/// `2020-01-02T03:04:05.678Z #c bob!b@h hi all`. Bytes below 0x20 and 0x7F are written as `\xNN`.
pub fn messages_text(alloc: Global, history: &History) -> Result<Vec<u8>, OutOfMemory>
    ensures { IfOk result (λ text. text.items ≡ text_of_messages history.now) }
{
    let mut text = Vec::new(alloc);
    for item in history.numbered(alloc)? {
        push_line(&mut text, item.1)?;
    }
    Ok(text)
}

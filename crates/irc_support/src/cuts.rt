//! Bytes in texts.

ghost use Rattle.std.specs.Prelude.{◌≡◌, option_map};
ghost use Rattle.irc_support.specs.Text.{cut_at, has_byte};

use irc_line::place_of;

/// The text before the first such byte, else the whole text; and, if there is one, the text
/// after it.
pub fn cut(byte: u8, text: &[u8]) -> (&[u8], Option<&[u8]>)
    ensures before { result.0.now ≡ (cut_at byte text.now).0 }
    ensures behind { option_map (λ rest. rest.now) result.1 ≡ (cut_at byte text.now).1 }
{
    match place_of(byte, text) {
        Some(place) => (&text[..place], Some(&text[place + 1..])),
        None => (text, None),
    }
}

/// Whether the text has the byte.
pub fn has(text: &[u8], byte: u8) -> bool
    ensures { result ≡ has_byte text.now byte }
{
    text.iter().any(|b| *b == byte)
}

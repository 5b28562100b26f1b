//! The tags of a line (IRCv3 message-tags), as far as the bouncer reads them.

ghost use Rattle.std.specs.Prelude.{◌≡◌, option_map};
ghost use Rattle.irc_line.specs.Tags.{fits_form, has_form, time_form, value_behind};

use crate::scan::split_byte;

/// The form of a time; `d` stands for a digit.
const TIME_FORM: &[u8; 24] = b"dddd-dd-ddTdd:dd:dd.dddZ";

/// The value of the first tag that begins like this.
pub fn tag_value<'a>(front: &[u8], tags: &'a [u8]) -> Option<&'a [u8]>
    ensures { option_map (λ value. value.now) result ≡ value_behind front.now tags.now }
{
    let mut rest = tags;
    while let Some((tag, after)) = split_byte(b';', rest) {
        if tag.starts_with(front) {
            return Some(&tag[front.len()..]);
        }
        rest = after;
    }
    if rest.starts_with(front) {
        return Some(&rest[front.len()..]);
    }
    None
}

/// Whether the byte may be where the form has this one.
fn fits(byte: u8, form: u8) -> bool
    ensures { result ≡ fits_form byte form }
{
    match form {
        b'd' => byte.is_ascii_digit(),
        _ => byte == form,
    }
}

fn is_of_form(form: &[u8], text: &[u8]) -> bool
    ensures { result ≡ has_form form.now text.now }
{
    let (mut form, mut text) = (form, text);
    while let [f, others @ ..] = form {
        let [byte, bytes @ ..] = text else {
            return false;
        };
        if !fits(*byte, *f) {
            return false;
        }
        (form, text) = (others, bytes);
    }
    text.is_empty()
}

/// Whether the text has the form of a time, `2020-01-02T03:04:05.678Z`.
pub fn is_time(text: &[u8]) -> bool
    ensures { result ≡ has_form time_form text.now }
{
    is_of_form(TIME_FORM, text)
}

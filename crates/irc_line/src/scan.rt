//! Steps through the text of a line.

ghost use Rattle.std.specs.Prelude.{◌≡◌, ◌==◌, ◌<◌, ◌+◌, false, option_map, IfNone, IfSome, []};
ghost use Rattle.std.specs.Prelude.{◌∷◌, length, slice_get};
ghost use Rattle.std.specs.List.{list_all, position, slice_split};
ghost use Rattle.std.specs.Char.{is_ascii_alphabetic, is_ascii_digit};
ghost use Rattle.irc_line.specs.Line.{is_command, is_line_byte, nick_of};
ghost use Rattle.irc_line.specs.Reading.{trimmed, token, after_token, marked, after_marked};
ghost use Rattle.irc_line.specs.Reading.{params_at};

use memchr::memchr;

/// The text without the spaces at its front.
pub fn trim(text: &[u8]) -> &[u8]
    ensures { result.now ≡ trimmed text.now }
{
    let mut rest = text;
    while let [b' ', after @ ..] = rest {
        rest = after;
    }
    rest
}

/// Where the first such byte is.
#[tactic(auto, using(crate::proofs::First::first_position))]
pub fn place_of(byte: u8, text: &[u8]) -> Option<usize>
    ensures place { result ≡ position (λ b. b == byte) text.now }
    ensures within { IfSome result (λ place. place < length text.now) }
{
    memchr(byte, text)
}

/// The text before the first such byte, and the text after it.
pub fn split_byte(byte: u8, text: &[u8]) -> Option<(&[u8], &[u8])>
    ensures none { IfNone result (slice_split (λ b. b == byte) text.now ≡ text.now ∷ []) }
    ensures some { IfSome result
        (λ x. slice_split (λ b. b == byte) text.now
        ≡ x.0.now ∷ slice_split (λ b. b == byte) x.1.now) }
    ensures shorter { IfSome result (λ x. length x.0.now + 1 + length x.1.now ≡ length text.now) }
{
    let end = place_of(byte, text)?;
    Some((&text[..end], &text[end + 1..]))
}

/// The text before the first space, and the text from it on.
pub fn split_token(text: &[u8]) -> (&[u8], &[u8])
    ensures before { result.0.now ≡ token text.now }
    ensures after { result.1.now ≡ after_token text.now }
{
    match place_of(b' ', text) {
        Some(len) => text.split_at(len),
        None => (text, &[]),
    }
}

/// The part after the mark, if the text begins with one, and what follows that.
pub fn split_marked(mark: u8, text: &[u8]) -> (Option<&[u8]>, &[u8])
    ensures part { option_map (λ part. part.now) result.0 ≡ marked mark text.now }
    ensures after { result.1.now ≡ after_marked mark text.now }
{
    if let [first, rest @ ..] = text {
        if *first == mark {
            let (part, after) = split_token(rest);
            if !part.is_empty() {
                return (Some(part), trim(after));
            }
        }
    }
    (None, text)
}

/// Whether the text has neither NUL nor CR nor LF.
pub fn is_clean(text: &[u8]) -> bool
    ensures { result ≡ list_all is_line_byte text.now }
{
    text.iter().all(|byte| !matches!(byte, 0 | b'\n' | b'\r'))
}

fn are_letters(text: &[u8]) -> bool
    ensures { result ≡ list_all is_ascii_alphabetic text.now }
{
    text.iter().all(|byte| byte.is_ascii_alphabetic())
}

fn are_digits(text: &[u8]) -> bool
    ensures { result ≡ list_all is_ascii_digit text.now }
{
    text.iter().all(|byte| byte.is_ascii_digit())
}

/// Letters, or three digits.
pub fn is_a_command(text: &[u8]) -> bool
    ensures { result ≡ is_command text.now }
{
    !text.is_empty() && are_letters(text) || text.len() == 3 && are_digits(text)
}

/// The parameter at the front of what follows a command, and what follows it.
pub fn next_param(text: &[u8]) -> Option<(&[u8], &[u8])>
    ensures none { IfNone result (params_at false text.now ≡ []) }
    ensures some { IfSome result
        (λ x. params_at false text.now ≡ x.0.now ∷ params_at false x.1.now) }
    ensures shorter { IfSome result (λ x. length x.1.now < length text.now) }
{
    let rest = trim(text);
    if rest.is_empty() {
        return None;
    }
    if rest[0] == b':' {
        return Some((&rest[1..], &[]));
    }
    Some(split_token(rest))
}

/// The parameter at this place in what follows a command.
pub fn nth_param(text: &[u8], place: usize) -> Option<&[u8]>
    ensures { option_map (λ param. param.now) result ≡ slice_get (params_at false text.now) place }
{
    let mut rest = text;
    for _ in 0..place {
        let (_, after) = next_param(rest)?;
        rest = after;
    }
    let (param, _) = next_param(rest)?;
    Some(param)
}

/// How many parameters there are in what follows a command.
pub fn count_params(text: &[u8]) -> usize
    ensures { result ≡ length (params_at false text.now) }
{
    let mut rest = text;
    let mut count = 0;
    while let Some((_, after)) = next_param(rest) {
        rest = after;
        count += 1;
    }
    count
}

/// The nick of a source.
pub fn nick(source: &[u8]) -> &[u8]
    ensures { result.now ≡ nick_of source.now }
{
    match (place_of(b'!', source), place_of(b'@', source)) {
        (Some(end), _) | (None, Some(end)) => &source[..end],
        (None, None) => source,
    }
}

//! Which lines may be sent once a network has taken us in.

ghost use Rattle.std.specs.Prelude.{◌≡◌, ◌<◌, ◌==◌, IfSome, length, position};
ghost use Rattle.std.specs.Char.{is_ascii_alphabetic, is_ascii_digit};
ghost use Rattle.std.specs.List.{list_all, list_any};
ghost use Rattle.bnc_config.specs.Command.{ends_line, first_word, is_barred, is_command};
ghost use Rattle.bnc_config.specs.Command.{is_sent_at_connect, unindented};

/// The text without the spaces at its front.
fn unindented(text: &[u8]) -> &[u8]
    ensures { result.now ≡ unindented text.now }
{
    let mut rest = text;
    while let [b' ', after @ ..] = rest {
        rest = after;
    }
    rest
}

/// The place of the first space of a text.
fn space_in(text: &[u8]) -> Option<usize>
    ensures place { result ≡ position (λ b. b == 32) text.now }
    ensures within { IfSome result (λ place. place < length text.now) }
{
    text.iter().position(|byte| *byte == b' ')
}

/// The text before the first space.
fn first_word(text: &[u8]) -> &[u8]
    ensures { result.now ≡ first_word text.now }
{
    match space_in(text) {
        Some(end) => &text[..end],
        None => text,
    }
}

fn has_letters_only(text: &[u8]) -> bool
    ensures { result ≡ list_all is_ascii_alphabetic text.now }
{
    text.iter().all(|byte| byte.is_ascii_alphabetic())
}

fn has_digits_only(text: &[u8]) -> bool
    ensures { result ≡ list_all is_ascii_digit text.now }
{
    text.iter().all(|byte| byte.is_ascii_digit())
}

/// Whether the text is letters, or three digits.
fn is_command(text: &[u8]) -> bool
    ensures { result ≡ is_command text.now }
{
    !text.is_empty() && has_letters_only(text) || text.len() == 3 && has_digits_only(text)
}

/// Whether no such line has the command.
fn is_barred(command: &[u8]) -> bool
    ensures { result ≡ is_barred command.now }
{
    command.eq_ignore_ascii_case(b"NICK")
        || command.eq_ignore_ascii_case(b"USER")
        || command.eq_ignore_ascii_case(b"PASS")
        || command.eq_ignore_ascii_case(b"CAP")
        || command.eq_ignore_ascii_case(b"QUIT")
        || command.eq_ignore_ascii_case(b"AUTHENTICATE")
        || command.eq_ignore_ascii_case(b"JOIN")
}

fn has_line_end(text: &[u8]) -> bool
    ensures { result ≡ list_any ends_line text.now }
{
    text.iter().any(|byte| matches!(*byte, 0 | b'\n' | b'\r'))
}

/// Whether the text is a line that may be sent: at most 400 bytes, without tags and source, and of
/// none of the commands that a registration sends, that end a connection, or that the settings have
/// keys for.
pub(crate) fn is_sent_at_connect(text: &[u8]) -> bool
    ensures { result ≡ is_sent_at_connect text.now }
{
    let command = first_word(unindented(text));
    text.len() <= 400 && !has_line_end(text) && is_command(command) && !is_barred(command)
}

//! What a line says to one who logs in.

ghost use Rattle.std.specs.Prelude.{◌≡◌, ◌==◌, codes};
ghost use Rattle.std.specs.List.{list_any, slice_split};
ghost use Rattle.std.specs.Str.{bytes_eq};
ghost use Rattle.sasl.specs.Said.{has_item, has_subcommand, is_go, last_param, said};

use irc_line::{Line, split_byte};

/// What a line says to one who logs in (IRCv3 sasl 3.1).
#[derive(Clone, Copy)]
pub(crate) enum Said {
    /// The network has acknowledged `sasl`: `CAP * ACK` with this word in its list.
    Acknowledged,
    /// It asks for the response: `AUTHENTICATE +`.
    Go,
    /// We are logged in: 903 RPL_SASLSUCCESS, 907 ERR_SASLALREADY.
    LoggedIn,
    /// We are not, and won't be: 902 ERR_NICKLOCKED, 904 ERR_SASLFAIL, 905 ERR_SASLTOOLONG, 906
    /// ERR_SASLABORTED, 908 RPL_SASLMECHS, `CAP * NAK`.
    Failed,
    /// Anything else.
    Other,
}

/// Whether the subcommand of a CAP line, which is its second parameter, is this.
pub fn has_subcommand(line: &Line, word: &[u8]) -> bool
    ensures { result ≡ has_subcommand word.now line.now }
{
    match line.param(1) {
        Some(param) => param.eq_ignore_ascii_case(word),
        None => false,
    }
}

/// The last parameter of a line; empty if it has none.
pub fn last_param(line: &Line) -> &[u8]
    ensures { result.now ≡ last_param line.now }
{
    match line.param(line.param_count().saturating_sub(1)) {
        Some(param) => param,
        None => b"",
    }
}

/// Whether this is one of the items of a list, which such bytes part.
pub(crate) fn has_item(separator: u8, item: &[u8], list: &[u8]) -> bool
    ensures { result ≡ has_item separator item.now list.now }
{
    let mut rest = list;
    while let Some((first, after)) = split_byte(separator, rest) {
        if item == first {
            return true;
        }
        rest = after;
    }
    item == rest
}

/// Whether a line asks for the response.
fn is_go(line: &Line) -> bool
    ensures { result ≡ is_go line.now }
{
    line.is(b"AUTHENTICATE") && line.param(0) == Some(b"+".as_slice())
}

impl Said {
    /// What a line says.
    pub fn of(line: &Line) -> Said
        ensures { result ≡ said line.now }
    {
        if line.is(b"CAP") && has_subcommand(line, b"NAK") {
            Said::Failed
        } else if line.is(b"CAP")
            && has_subcommand(line, b"ACK")
            && has_item(b' ', b"sasl", last_param(line))
        {
            Said::Acknowledged
        } else if is_go(line) {
            Said::Go
        } else if line.is(b"903") || line.is(b"907") {
            Said::LoggedIn
        } else if line.is(b"902")
            || line.is(b"904")
            || line.is(b"905")
            || line.is(b"906")
            || line.is(b"908")
        {
            Said::Failed
        } else {
            Said::Other
        }
    }
}

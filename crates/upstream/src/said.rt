//! What a line says to one who registers.

ghost use Rattle.std.specs.Prelude.{◌≡◌, codes};
ghost use Rattle.sasl.specs.Said.{has_param};
ghost use Rattle.upstream.specs.Said.{said, said_by_cap};
ghost use Rattle.irc_names.specs.Nick as nick;
ghost use Rattle.std.specs.Str.{bytes_eq};

use irc_line::Line;
use irc_names::is_nameable;
use sasl::has_subcommand;

/// What a line says to one who registers (RFC 2812, sections 3.1 and 5; IRCv3 capability
/// negotiation).
#[derive(Clone, Copy)]
pub(crate) enum Said {
    /// We are in, under a nick: 001.
    Welcome,
    /// Some of the capabilities that are offered; more come: `CAP * LS * :names`.
    List,
    /// The last of the capabilities that are offered: `CAP * LS :names`.
    LastList,
    /// A request for capabilities is answered: `CAP * ACK` or `CAP * NAK`.
    CapAnswered,
    /// The nick is another's: 433.
    NickInUse,
    /// The nick is none here: 432.
    BadNick,
    /// We are not let in: 464 or ERROR.
    Refused,
    /// The network asks whether we are there: PING.
    Ping,
    /// Anything else.
    Other,
}

/// Whether parameter 2 is `*`.
fn has_star(line: &Line) -> bool
    ensures { result ≡ has_param (bytes_eq (codes "*")) 2 line.now }
{
    line.param(2) == Some(b"*".as_slice())
}

/// Whether parameter 0 is a nick that we can have.
fn has_nick(line: &Line) -> bool
    ensures { result ≡ has_param nick.is_nameable 0 line.now }
{
    match line.param(0) {
        Some(param) => is_nameable(param),
        None => false,
    }
}

impl Said {
    /// What a CAP line says.
    fn by_cap(line: &Line) -> Said
        ensures { result ≡ said_by_cap line.now }
    {
        let is_list = has_subcommand(line, b"LS");
        if is_list && line.param_count() == 3 {
            Said::LastList
        } else if is_list && line.param_count() == 4 && has_star(line) {
            Said::List
        } else if has_subcommand(line, b"ACK") || has_subcommand(line, b"NAK") {
            Said::CapAnswered
        } else {
            Said::Other
        }
    }

    /// What a line says.
    pub fn of(line: &Line) -> Said
        ensures { result ≡ said line.now }
    {
        if line.is(b"001") && has_nick(line) {
            Said::Welcome
        } else if line.is(b"CAP") {
            Said::by_cap(line)
        } else if line.is(b"433") {
            Said::NickInUse
        } else if line.is(b"432") {
            Said::BadNick
        } else if line.is(b"464") || line.is(b"ERROR") {
            Said::Refused
        } else if line.is(b"PING") {
            Said::Ping
        } else {
            Said::Other
        }
    }
}

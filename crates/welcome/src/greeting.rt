//! The beginning of the burst: what a server says to a client that it took in (RFC 2812, section
//! 5.1).

ghost use Rattle.std.specs.Prelude.{◌≡◌, ◌++◌, ◌∷◌, [], OnOk, map, unwrap_or};
ghost use Rattle.std.specs.List.{flat_map};
ghost use Rattle.irc_line.specs.Writing.{written};
ghost use Rattle.client_caps.specs.Answers.{from_bouncer};
ghost use Rattle.welcome.specs.Burst.{greeting_of, no_motd};

use irc_line::write_line;
use net_view::{NetworkView, OutOfMemory};
use std::alloc::Allocator;

/// Adds a line of our own, as `:bnc 422 Me :MOTD File is missing`. The first parameter of a reply
/// is the client's nick.
pub fn push_reply<A: Allocator>(
    text: &mut Vec<u8, A>,
    command: &[u8],
    params: &[&[u8]],
) -> Result<(), OutOfMemory>
    ensures { OnOk result (text.new.items ≡ text.old.items
        ++ written (from_bouncer command.now (map (λ p. p.now) params.now))) }
{
    write_line(None, Some(b"bnc"), command, params, text)
}

/// Adds a reply of one text to the client of this nick.
fn push_said<A: Allocator>(
    text: &mut Vec<u8, A>,
    command: &[u8],
    nick: &[u8],
    said: &[u8],
) -> Result<(), OutOfMemory>
    ensures { OnOk result (text.new.items ≡ text.old.items
        ++ written (from_bouncer command.now (nick.now ∷ said.now ∷ []))) }
{
    push_reply(text, command, &[nick, said])
}

/// Our own nick; empty before the first welcome.
pub fn own_nick<V: NetworkView>(view: &V) -> &[u8]
    ensures { result.now ≡ unwrap_or (V.view view.now).own [] }
{
    view.own().unwrap_or(&[])
}

/// Adds 001 RPL_WELCOME to 004 RPL_MYINFO.
pub fn push_greeting<V: NetworkView, A: Allocator>(
    text: &mut Vec<u8, A>,
    view: &V,
) -> Result<(), OutOfMemory>
    ensures { OnOk result (text.new.items
        ≡ text.old.items ++ flat_map written (greeting_of (V.view view.now))) }
{
    let nick = own_nick(view);
    push_said(text, b"001", nick, b"Welcome to the bouncer")?;
    push_said(text, b"002", nick, b"Your host is bnc, running version 1")?;
    push_said(text, b"003", nick, b"This server was created for you")?;
    push_reply(text, b"004", &[nick, b"bnc", b"1", b"i", b"biklmnopstv"])
}

/// Adds 422 ERR_NOMOTD.
pub fn push_no_motd<V: NetworkView, A: Allocator>(
    text: &mut Vec<u8, A>,
    view: &V,
) -> Result<(), OutOfMemory>
    ensures { OnOk result (text.new.items
        ≡ text.old.items ++ written (no_motd (V.view view.now))) }
{
    push_said(text, b"422", own_nick(view), b"MOTD File is missing")
}

//! The text of the settings file.

ghost use Rattle.std.specs.Prelude.{◌≡◌, ◌++◌, IfOk, OnOk};
ghost use Rattle.irc_support.specs.NamesReply.{words_between};
ghost use Rattle.first_settings.specs.Written.{items, join_line, line_of, more, name_lines};
ghost use Rattle.first_settings.specs.Written.{network_lines, quoted, text_of, tables};

use crate::Answers;
use crate::password::push_password;
use irc_support::next_word;
use std::alloc::{AllocError, Global};

/// Adds a text as a basic string of TOML.
fn push_quoted(out: &mut Vec<u8>, text: &[u8]) -> Result<(), AllocError>
    ensures { OnOk result (out.new.items ≡ out.old.items ++ quoted text.now) }
{
    out.push(b'"')?;
    for byte in text {
        if matches!(*byte, b'"' | b'\\') {
            out.push(b'\\')?;
        }
        out.push(*byte)?;
    }
    out.push(b'"')?;
    Ok(())
}

/// Adds the line of a key whose value is a text.
#[tactic(auto, unfolding(crate::specs::Written::line_of))]
pub(crate) fn push_line(out: &mut Vec<u8>, key: &[u8], text: &[u8]) -> Result<(), AllocError>
    ensures { OnOk result (out.new.items ≡ out.old.items ++ line_of key.now text.now) }
{
    out.extend_from_slice(key)?;
    out.extend_from_slice(b" = ")?;
    push_quoted(out, text)?;
    out.push(b'\n')?;
    Ok(())
}

/// Adds the items of a list after its first.
fn push_more(out: &mut Vec<u8>, text: &[u8]) -> Result<(), AllocError>
    ensures { OnOk result (out.new.items ≡ out.old.items ++ more (words_between text.now)) }
{
    let mut left = text;
    while let Some((word, rest)) = next_word(left) {
        out.extend_from_slice(b", ")?;
        push_quoted(out, word)?;
        left = rest;
    }
    Ok(())
}

/// Adds the words of a text as the items of a list.
fn push_items(out: &mut Vec<u8>, text: &[u8]) -> Result<(), AllocError>
    ensures { OnOk result (out.new.items ≡ out.old.items ++ items (words_between text.now)) }
{
    match next_word(text) {
        Some((word, rest)) => {
            push_quoted(out, word)?;
            push_more(out, rest)
        }
        None => Ok(()),
    }
}

/// Adds what a network calls us.
#[tactic(auto, unfolding(crate::specs::Written::name_lines))]
fn push_names(out: &mut Vec<u8>, nick: &[u8]) -> Result<(), AllocError>
    ensures { OnOk result (out.new.items ≡ out.old.items ++ name_lines nick.now) }
{
    push_line(out, b"nick", nick)?;
    push_line(out, b"user", nick)?;
    push_line(out, b"realname", nick)
}

/// Adds the channels to join.
#[tactic(auto, unfolding(crate::specs::Written::join_line))]
fn push_join(out: &mut Vec<u8>, channels: &[u8]) -> Result<(), AllocError>
    ensures { OnOk result (out.new.items ≡ out.old.items ++ join_line channels.now) }
{
    out.extend_from_slice(b"join = [")?;
    push_items(out, channels)?;
    out.extend_from_slice(b"]\n")?;
    Ok(())
}

/// Adds a network: its address, what it calls us, and the channels to join.
fn push_network(
    out: &mut Vec<u8>,
    address: &[u8],
    nick: &[u8],
    channels: &[u8],
) -> Result<(), AllocError>
    ensures { OnOk result (out.new.items
        ≡ out.old.items ++ network_lines address.now nick.now channels.now) }
{
    out.extend_from_slice(b"\n[[user.network]]\nname = \"net\"\n")?;
    push_line(out, b"address", address)?;
    push_names(out, nick)?;
    push_join(out, channels)
}

/// Adds the tables of what is kept and how it is played back.
#[tactic(auto, unfolding(crate::specs::Written::tables))]
fn push_tables(out: &mut Vec<u8>) -> Result<(), AllocError>
    ensures { OnOk result (out.new.items ≡ out.old.items ++ tables) }
{
    out.extend_from_slice(
        b"\n# not kept: requests by CTCP, notices of servers, what you say to yourself, and what is said to or by services\n[messages]\nctcp = false\nserver_notices = false\nto_self = false\nnever = [\"NickServ\", \"ChanServ\"]\n# who talks much pushes out nobody else\nby_person = true\n\n# private messages come person by person to clients that know batches, and with their times in the text to clients\n# that know none; a client that attaches just after a reconnect waits for the channels, at most 10 seconds\n[playback]\nprivate_batches = true\ntimes = \"UTC\"\nwait = 10\n",
    )?;
    Ok(())
}

/// The settings file that the answers make, with this salt for the password.
#[tactic(auto, using(crate::proofs::Appended::five))]
pub fn settings_text(alloc: Global, answers: &Answers, salt: &[u8]) -> Result<Vec<u8>, AllocError>
    ensures { IfOk result (λ text. text.items ≡ text_of answers.now salt.now) }
{
    let mut out = Vec::new(alloc);
    out.extend_from_slice(
        b"# Settings of bnc: docs/SETTINGS.md has each key.\nlisten = \"127.0.0.1:6667\"\nhistory = 500\nretry = 30\n# what is kept over a restart, in a folder beside this file\n#kept = \"kept\"\n\n[[user]]\n",
    )?;
    push_line(&mut out, b"name", answers.nick())?;
    push_password(alloc, &mut out, salt, answers.password())?;
    push_network(
        &mut out,
        answers.address(),
        answers.nick(),
        answers.channels(),
    )?;
    push_tables(&mut out)?;
    Ok(out)
}

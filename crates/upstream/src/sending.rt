//! The lines that a registration sends.

ghost use Rattle.std.specs.Prelude.{◌≡◌, ◌<◌, ◌++◌, ◌∷◌, [], IfOk, IsTrue, OnOk, map};
ghost use Rattle.std.specs.List.{list_all};
ghost use Rattle.irc_line.specs.Writing.{is_clean, is_writable};
ghost use Rattle.irc_names.specs.Nick.{is_nameable};
ghost use Rattle.bnc_config.specs.Text.{is_word};
ghost use Rattle.upstream.specs.Registration.{asked_as, cap_end, channel_lines, channel_lines_by};
ghost use Rattle.upstream.specs.Registration.{command, first_lines, join_line, join_lines, marked};
ghost use Rattle.upstream.specs.Registration.{nick_line, pong_line, request_of, user_line};

use crate::OutOfMemory;
use bnc_config::NetworkConfig;
use irc_line::Line;
use irc_names::CaseMapping;
use std::alloc::Global;

/// A line of ours, without a source.
fn command(alloc: Global, name: &[u8], params: &[&[u8]]) -> Result<Line, OutOfMemory>
    requires { IsTrue (is_writable (command name.now (map (λ p. p.now) params.now))) }
    ensures { IfOk result (λ line. line ≡ command name.now (map (λ p. p.now) params.now)) }
{
    Line::from_parts(alloc, None, None, name, params)
}

/// Adds a line of ours, without a source.
fn push_command(
    alloc: Global,
    lines: &mut Vec<Line>,
    name: &[u8],
    params: &[&[u8]],
) -> Result<(), OutOfMemory>
    requires { IsTrue (is_writable (command name.now (map (λ p. p.now) params.now))) }
    ensures { OnOk result (lines.new.items
        ≡ lines.old.items ++ command name.now (map (λ p. p.now) params.now) ∷ []) }
{
    lines.push(command(alloc, name, params)?)?;
    Ok(())
}

/// `NICK nick`, with that many marks after the nick.
pub(crate) fn nick_line(alloc: Global, nick: &[u8], marks: usize) -> Result<Line, OutOfMemory>
    requires nameable { IsTrue (is_nameable nick.now) }
    requires few { marks < 4 }
    ensures { IfOk result (λ line. line ≡ nick_line (marked nick.now marks)) }
{
    let mut marked = Vec::from_slice(alloc, nick)?;
    marked.extend_from_slice(&b"___"[..marks])?;
    command(alloc, b"NICK", &[marked.as_slice()])
}

/// `USER user 0 * :realname` (RFC 2812, section 3.1.3).
fn user_line(alloc: Global, network: &NetworkConfig) -> Result<Line, OutOfMemory>
    ensures { IfOk result (λ line. line ≡ user_line network.now) }
{
    let params = [network.user(), b"0", b"*", network.realname()];
    command(alloc, b"USER", &params)
}

/// What is sent before a line has come: `CAP LS 302`, PASS if there is a password, NICK with this
/// nick and USER.
pub(crate) fn first_lines(
    alloc: Global,
    network: &NetworkConfig,
    nick: &[u8],
) -> Result<Vec<Line>, OutOfMemory>
    requires { IsTrue (is_nameable nick.now) }
    ensures { IfOk result (λ lines. lines.items ≡ first_lines (asked_as network.now nick.now)) }
{
    let mut lines = Vec::with_capacity(alloc, 4)?;
    push_command(alloc, &mut lines, b"CAP", &[b"LS", b"302"])?;
    if let Some(password) = network.password() {
        push_command(alloc, &mut lines, b"PASS", &[password])?;
    }
    push_command(alloc, &mut lines, b"NICK", &[nick])?;
    lines.push(user_line(alloc, network)?)?;
    Ok(lines)
}

/// `JOIN channel`, with the channel's key under a mapping, if the settings have one (RFC 2812, section
/// 3.2.1).
fn join_line(
    alloc: Global,
    network: &NetworkConfig,
    mapping: CaseMapping,
    channel: &[u8],
) -> Result<Line, OutOfMemory>
    requires { IsTrue (is_word channel.now) }
    ensures { IfOk result (λ line.
        line ≡ join_line mapping network.now.options.keys channel.now) }
{
    match network.key_by(mapping, channel) {
        Some(key) => command(alloc, b"JOIN", &[channel, key]),
        None => command(alloc, b"JOIN", &[channel]),
    }
}

/// `JOIN channel` for each channel of the settings, in their order, with its key if they have one:
/// of `join = ["#a", "#b"]` and `keys = { "#B" = "secret" }`
///
/// ```text
/// JOIN #a
/// JOIN #b secret
/// ```
pub fn channel_lines(alloc: Global, network: &NetworkConfig) -> Result<Vec<Line>, OutOfMemory>
    ensures { IfOk result (λ lines. lines.items ≡ channel_lines network.now) }
{
    channel_lines_by(alloc, network, CaseMapping::Ascii)
}

/// The same once the network's CASEMAPPING is known: a key is for the channel that has its name under
/// this mapping.
pub fn channel_lines_by(
    alloc: Global,
    network: &NetworkConfig,
    mapping: CaseMapping,
) -> Result<Vec<Line>, OutOfMemory>
    ensures { IfOk result (λ lines. lines.items ≡ channel_lines_by mapping network.now) }
{
    let channels = network.join();
    let mut lines = Vec::with_capacity(alloc, channels.len())?;
    for channel in channels {
        lines.push(join_line(alloc, network, mapping, channel.as_bytes())?)?;
    }
    Ok(lines)
}

/// What is sent once we are in: a JOIN for each channel; nothing if the settings have lines that
/// are to be sent before them.
pub(crate) fn join_lines(alloc: Global, network: &NetworkConfig) -> Result<Vec<Line>, OutOfMemory>
    ensures { IfOk result (λ lines. lines.items ≡ join_lines network.now) }
{
    if network.on_connect().is_empty() {
        channel_lines(alloc, network)
    } else {
        Ok(Vec::new(alloc))
    }
}

/// `CAP END`.
pub(crate) fn cap_end(alloc: Global) -> Result<Line, OutOfMemory>
    ensures { IfOk result (λ line. line ≡ cap_end) }
{
    command(alloc, b"CAP", &[b"END"])
}

/// `CAP REQ :names`, or `CAP END` if there are none.
pub(crate) fn request_line(alloc: Global, names: &[&str]) -> Result<Line, OutOfMemory>
    requires { IsTrue (list_all is_clean (map (λ name. name.now) names.now)) }
    ensures { IfOk result (λ line. line ≡ request_of (map (λ name. name.now) names.now)) }
{
    match names {
        [] => cap_end(alloc),
        [_, ..] => {
            let text = names.join(alloc, " ")?;
            command(alloc, b"CAP", &[b"REQ", text.as_str().as_bytes()])
        }
    }
}

/// `PONG` with PING's parameters.
pub(crate) fn pong_line(alloc: Global, ping: &Line) -> Result<Line, OutOfMemory>
    ensures { IfOk result (λ line. line ≡ pong_line ping.now) }
{
    let _ = ping.command();
    let mut params = Vec::with_capacity(alloc, 2)?;
    for param in ping.params() {
        params.push(param)?;
    }
    command(alloc, b"PONG", params.as_slice())
}

//! What one line says.

ghost use Rattle.std.specs.Prelude.{◌≡◌, ◌≤◌, true, Some, List, codes, option_map};
ghost use Rattle.irc_line.specs.Line.{has_command};
ghost use Rattle.irc_support.specs.Text.{is_word};
ghost use Rattle.irc_support.specs.Tokens.{Token};
ghost use Rattle.net_view.specs.Arrival.{Received};
ghost use Rattle.net_view.specs.StateCommands.{state_command};
ghost use Rattle.net_view.specs.StateLines.{told, told_by_welcome, told_by_join, told_by_part};
ghost use Rattle.net_view.specs.StateLines.{told_by_kick, told_by_quit, told_by_nick};
ghost use Rattle.net_view.specs.StateLines.{told_by_mode, told_by_mode_reply, told_by_names};
ghost use Rattle.net_view.specs.StateLines.{told_by_topic_at, told_by_no_topic, unless_empty};
ghost use Rattle.net_view.specs.StateLines.{told_by_account, told_by_away, or_silent};
ghost use Rattle.net_view.specs.StateLines.{account_said, actor_nick, is_state_line};
ghost use Rattle.net_view.specs.Tells.{meant, meant_or_settles};

use crate::state_command::StateCommand;
use irc_line::Line;
use irc_names::is_nameable;
use std::alloc::Allocator;

/// What a line says, with names as they are spelled: a channel's name need not be one, and a nick
/// is nameable. What is read by the network's settings, as the letters of a MODE, stays in the
/// line.
#[derive(Drop)]
pub enum Telling<'a, A: Allocator> {
    /// Nothing.
    Silent,
    /// `:s 001 Me :hi`: the network takes us in under this nick.
    Welcomed {
        /// Our nick.
        nick: &'a [u8],
    },
    /// `:s 005 Me PREFIX=(ov)@+ :are supported`: more settings.
    Supports {
        /// The line, whose parameters are the settings, except the first one and the last.
        line: &'a Line<A>,
    },
    /// `:s 376 Me :End of /MOTD command.`, `:s 422 Me :MOTD File is missing`, and a JOIN without a
    /// channel or a nameable actor: the settings are fixed from here on.
    Settles,
    /// `:bob!b@h JOIN #c bobacc :Bob`: a person joins a channel, and the settings are fixed.
    Joined {
        /// The channel.
        channel: &'a [u8],
        /// The person.
        who: &'a [u8],
        /// The account, or that there is none (`*`); `None` if the line says nothing about it.
        account: Option<Option<&'a [u8]>>,
    },
    /// `:bob!b@h PART #c :bye`: a person leaves a channel.
    Parted {
        /// The channel.
        channel: &'a [u8],
        /// The person.
        who: &'a [u8],
    },
    /// `:s KICK #c bob :out`: a person is taken off a channel.
    Kicked {
        /// The channel.
        channel: &'a [u8],
        /// The person, named by the line.
        who: &'a [u8],
    },
    /// `:bob!b@h QUIT :bye`: a person leaves the network.
    Quits {
        /// The person.
        who: &'a [u8],
    },
    /// `:bob!b@h NICK rob`: a person takes another name.
    Renamed {
        /// The name before.
        old: &'a [u8],
        /// The name from here on.
        new: &'a [u8],
    },
    /// `:s MODE #c +o-l bob`: changes of a channel's ranks and modes.
    Changed {
        /// The channel.
        channel: &'a [u8],
        /// The line with the changes: its second parameter has the letters, their parameters
        /// follow.
        line: &'a Line<A>,
    },
    /// `:s 324 Me #c +kl key 9`: a channel has these modes, and no others.
    Listed {
        /// The channel.
        channel: &'a [u8],
        /// The line with the modes: its third parameter has the letters, their parameters follow.
        line: &'a Line<A>,
    },
    /// `:bob!b@h TOPIC #c :hi`, `:s 332 Me #c :hi` and `:s 331 Me #c :No topic is set`: a channel's
    /// topic.
    Titled {
        /// The channel.
        channel: &'a [u8],
        /// The topic, not empty; `None` if there is none.
        topic: Option<&'a [u8]>,
    },
    /// `:s 353 Me = #c :Me @+bob`: persons are members of a channel.
    Present {
        /// The channel.
        channel: &'a [u8],
        /// The line with the members: the words of its fourth parameter, each with symbols before a
        /// nick.
        line: &'a Line<A>,
    },
    /// `:bob!b@h ACCOUNT bobacc`: a person's account.
    HasAccount {
        /// The person.
        who: &'a [u8],
        /// The account; `None` if there is none (`*`).
        account: Option<&'a [u8]>,
    },
    /// `:bob!b@h AWAY :lunch`: whether a person is away.
    IsAway {
        /// The person.
        who: &'a [u8],
        /// The away text, not empty; `None` if the person is back.
        text: Option<&'a [u8]>,
    },
}

/// Whether the line can say something, that is, whether a view keeps it.
#[tactic(auto, using(crate::proofs::Commands::is_read))]
pub fn is_state_line<A: Allocator>(line: &Line<A>) -> bool
    ensures { result ≡ is_state_line line.now }
{
    StateCommand::of(line).is_some()
}

/// The nick of the source, if it is nameable.
fn actor<A: Allocator>(line: &Line<A>) -> Option<&[u8]>
    ensures { option_map (λ nick. nick.now) result ≡ actor_nick line.now }
{
    let nick = line.source_nick()?;
    if is_nameable(nick) { Some(nick) } else { None }
}

/// Whether the text can be a parameter with others after it: not empty, no `:` at its head,
/// no space (RFC 2812, section 2.3.1: middle).
pub fn is_word(text: &[u8]) -> bool
    ensures { result ≡ is_word text.now }
{
    match text {
        [] | [b':', ..] => false,
        _ => !text.contains(&b' '),
    }
}

/// The account that a parameter gives, if it is a word; `*` says that there is none.
#[tactic(auto, using(crate::proofs::Keys::texts_ties))]
fn account_said(text: &[u8]) -> Option<Option<&[u8]>>
    ensures { option_map (option_map (λ name. name.now)) result ≡ account_said text.now }
{
    if !is_word(text) {
        return None;
    }
    if text == b"*".as_slice() {
        Some(None)
    } else {
        Some(Some(text))
    }
}

/// The text, if it is not empty.
fn unless_empty(text: &[u8]) -> Option<&[u8]>
    ensures { option_map (λ t. t.now) result ≡ unless_empty text.now }
{
    match text {
        [] => None,
        _ => Some(text),
    }
}

/// What a `001` says.
fn told_by_welcome<A: Allocator>(line: &Line<A>) -> Option<Telling<'_, A>>
    ensures { (settings : List Token) →
        or_silent (option_map (meant settings) result) ≡ told_by_welcome settings line.now }
{
    let nick = line.param(0)?;
    if is_nameable(nick) {
        Some(Telling::Welcomed { nick })
    } else {
        None
    }
}

/// What a JOIN says, if it names a channel and has a nameable actor.
fn told_by_join<A: Allocator>(line: &Line<A>) -> Option<Telling<'_, A>>
    ensures { (settings : List Token) →
        meant_or_settles settings result ≡ told_by_join settings line.now }
{
    let channel = line.param(0)?;
    let who = actor(line)?;
    let account = match line.param(1) {
        Some(text) => account_said(text),
        None => None,
    };
    Some(Telling::Joined {
        channel,
        who,
        account,
    })
}

/// What a PART says.
fn told_by_part<A: Allocator>(line: &Line<A>) -> Option<Telling<'_, A>>
    ensures { (settings : List Token) →
        or_silent (option_map (meant settings) result) ≡ told_by_part settings line.now }
{
    let channel = line.param(0)?;
    let who = actor(line)?;
    Some(Telling::Parted { channel, who })
}

/// What a KICK says.
fn told_by_kick<A: Allocator>(line: &Line<A>) -> Option<Telling<'_, A>>
    ensures { (settings : List Token) →
        or_silent (option_map (meant settings) result) ≡ told_by_kick settings line.now }
{
    let channel = line.param(0)?;
    let who = line.param(1)?;
    if is_nameable(who) {
        Some(Telling::Kicked { channel, who })
    } else {
        None
    }
}

/// What a QUIT says.
fn told_by_quit<A: Allocator>(line: &Line<A>) -> Option<Telling<'_, A>>
    ensures { (settings : List Token) →
        or_silent (option_map (meant settings) result) ≡ told_by_quit settings line.now }
{
    let who = actor(line)?;
    Some(Telling::Quits { who })
}

/// What a NICK says.
fn told_by_nick<A: Allocator>(line: &Line<A>) -> Option<Telling<'_, A>>
    ensures { (settings : List Token) →
        or_silent (option_map (meant settings) result) ≡ told_by_nick settings line.now }
{
    let new = line.param(0)?;
    let old = actor(line)?;
    if is_nameable(new) {
        Some(Telling::Renamed { old, new })
    } else {
        None
    }
}

/// What a MODE says.
fn told_by_mode<A: Allocator>(line: &Line<A>) -> Option<Telling<'_, A>>
    requires { has_command line.now (codes "MODE") ≡ true }
    ensures { (settings : List Token) →
        or_silent (option_map (meant settings) result) ≡ told_by_mode settings line.now }
{
    let channel = line.param(0)?;
    Some(Telling::Changed { channel, line })
}

/// What a 324 says.
fn told_by_mode_reply<A: Allocator>(line: &Line<A>) -> Option<Telling<'_, A>>
    requires { has_command line.now (codes "324") ≡ true }
    ensures { (settings : List Token) →
        or_silent (option_map (meant settings) result) ≡ told_by_mode_reply settings line.now }
{
    let channel = line.param(1)?;
    Some(Telling::Listed { channel, line })
}

/// What a line says that has a channel at this place, and its topic after it.
fn told_by_topic_at<A: Allocator>(line: &Line<A>, place: usize) -> Option<Telling<'_, A>>
    requires { place ≤ 1 }
    ensures { (settings : List Token) →
        or_silent (option_map (meant settings) result) ≡ told_by_topic_at place settings line.now }
{
    let channel = line.param(place)?;
    let text = line.param(place + 1)?;
    Some(Telling::Titled {
        channel,
        topic: unless_empty(text),
    })
}

/// What a 331 says.
fn told_by_no_topic<A: Allocator>(line: &Line<A>) -> Option<Telling<'_, A>>
    ensures { (settings : List Token) →
        or_silent (option_map (meant settings) result) ≡ told_by_no_topic settings line.now }
{
    let channel = line.param(1)?;
    Some(Telling::Titled {
        channel,
        topic: None,
    })
}

/// What a 353 says.
fn told_by_names<A: Allocator>(line: &Line<A>) -> Option<Telling<'_, A>>
    requires { has_command line.now (codes "353") ≡ true }
    ensures { (settings : List Token) →
        or_silent (option_map (meant settings) result) ≡ told_by_names settings line.now }
{
    let channel = line.param(2)?;
    Some(Telling::Present { channel, line })
}

/// What an ACCOUNT says.
fn told_by_account<A: Allocator>(line: &Line<A>) -> Option<Telling<'_, A>>
    ensures { (settings : List Token) →
        or_silent (option_map (meant settings) result) ≡ told_by_account settings line.now }
{
    let who = actor(line)?;
    let account = account_said(line.param(0)?)?;
    Some(Telling::HasAccount { who, account })
}

/// What an AWAY says.
fn told_by_away<A: Allocator>(line: &Line<A>) -> Option<Telling<'_, A>>
    ensures { (settings : List Token) →
        or_silent (option_map (meant settings) result) ≡ told_by_away settings line.now }
{
    let who = actor(line)?;
    let text = match line.param(0) {
        Some(text) => unless_empty(text),
        None => None,
    };
    Some(Telling::IsAway { who, text })
}

/// What a line says whose command is known already.
pub fn told_as<A: Allocator>(command: StateCommand, line: &Line<A>) -> Telling<'_, A>
    requires { state_command line.now ≡ Some command }
    ensures { (settings : List Token) → meant settings result ≡ told settings (Received line.now) }
{
    let telling = match command {
        StateCommand::Welcome => told_by_welcome(line),
        StateCommand::Isupport => Some(Telling::Supports { line }),
        StateCommand::EndOfMotd | StateCommand::NoMotd => Some(Telling::Settles),
        StateCommand::Join => return told_by_join(line).unwrap_or(Telling::Settles),
        StateCommand::Part => told_by_part(line),
        StateCommand::Kick => told_by_kick(line),
        StateCommand::Quit => told_by_quit(line),
        StateCommand::Nick => told_by_nick(line),
        StateCommand::Mode => told_by_mode(line),
        StateCommand::ModeReply => told_by_mode_reply(line),
        StateCommand::Topic => told_by_topic_at(line, 0),
        StateCommand::TopicReply => told_by_topic_at(line, 1),
        StateCommand::NoTopic => told_by_no_topic(line),
        StateCommand::Names => told_by_names(line),
        StateCommand::Account => told_by_account(line),
        StateCommand::Away => told_by_away(line),
    };
    telling.unwrap_or(Telling::Silent)
}

/// What the line says; a line that is no state line says nothing.
pub fn told<A: Allocator>(line: &Line<A>) -> Telling<'_, A>
    ensures { (settings : List Token) → meant settings result ≡ told settings (Received line.now) }
{
    match StateCommand::of(line) {
        Some(command) => told_as(command, line),
        None => Telling::Silent,
    }
}

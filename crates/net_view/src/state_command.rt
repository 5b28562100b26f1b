//! The commands that a view reads.

ghost use Rattle.std.specs.Prelude.{◌≡◌, true, Some, IsTrue};
ghost use Rattle.std.specs.Str.{str_eq_ignore_ascii_case};
ghost use Rattle.irc_line.specs.Writing.{is_writable};
ghost use Rattle.net_view.specs.StateCommands.{command_text, state_command};

use irc_line::Line;
use std::alloc::Allocator;

/// The command of a line that can say something about the network (RFC 2812, sections 3.1, 3.2 and
/// 5; IRCv3 account-notify and away-notify). What each says is given at
/// [`Telling`](crate::Telling).
#[derive(Clone, Copy, Debug, PartialEq, Eq)]
pub enum StateCommand {
    /// `001` RPL_WELCOME.
    Welcome,
    /// `005` RPL_ISUPPORT.
    Isupport,
    /// `376` RPL_ENDOFMOTD.
    EndOfMotd,
    /// `422` ERR_NOMOTD.
    NoMotd,
    /// `JOIN`.
    Join,
    /// `PART`.
    Part,
    /// `KICK`.
    Kick,
    /// `QUIT`.
    Quit,
    /// `NICK`.
    Nick,
    /// `MODE`.
    Mode,
    /// `324` RPL_CHANNELMODEIS.
    ModeReply,
    /// `TOPIC`.
    Topic,
    /// `332` RPL_TOPIC.
    TopicReply,
    /// `331` RPL_NOTOPIC.
    NoTopic,
    /// `353` RPL_NAMREPLY.
    Names,
    /// `ACCOUNT`.
    Account,
    /// `AWAY`.
    Away,
}

impl StateCommand {
    /// The command of the line, read once and without regard to the case of ASCII letters; `None`
    /// if the line can say nothing, as a `PRIVMSG`.
    pub fn of<A: Allocator>(line: &Line<A>) -> Option<StateCommand>
        ensures value { result ≡ state_command line.now }
        // Whatever line it is, it can be written.
        ensures writable { IsTrue (is_writable line.now) }
    {
        let likely = StateCommand::likely(line.command())?;
        if line.is(likely.text()) {
            Some(likely)
        } else {
            None
        }
    }

    /// The command as it is written, in capital letters.
    pub fn text(self) -> &'static [u8]
        ensures { result.now ≡ command_text self }
    {
        match self {
            StateCommand::Welcome => b"001",
            StateCommand::Isupport => b"005",
            StateCommand::EndOfMotd => b"376",
            StateCommand::NoMotd => b"422",
            StateCommand::Join => b"JOIN",
            StateCommand::Part => b"PART",
            StateCommand::Kick => b"KICK",
            StateCommand::Quit => b"QUIT",
            StateCommand::Nick => b"NICK",
            StateCommand::Mode => b"MODE",
            StateCommand::ModeReply => b"324",
            StateCommand::Topic => b"TOPIC",
            StateCommand::TopicReply => b"332",
            StateCommand::NoTopic => b"331",
            StateCommand::Names => b"353",
            StateCommand::Account => b"ACCOUNT",
            StateCommand::Away => b"AWAY",
        }
    }

    /// The one command that it can be, by its length and its first and last byte.
    fn likely(command: &[u8]) -> Option<StateCommand>
        ensures { (it : StateCommand) →
            str_eq_ignore_ascii_case command.now (command_text it) ≡ true → result ≡ Some it }
    {
        let first = command.first()?.to_ascii_lowercase();
        let last = *command.last()?;
        match (command.len(), first, last) {
            (3, b'0', b'1') => Some(StateCommand::Welcome),
            (3, b'0', b'5') => Some(StateCommand::Isupport),
            (3, b'3', b'6') => Some(StateCommand::EndOfMotd),
            (3, b'4', _) => Some(StateCommand::NoMotd),
            (3, b'3', b'4') => Some(StateCommand::ModeReply),
            (3, b'3', b'2') => Some(StateCommand::TopicReply),
            (3, b'3', b'1') => Some(StateCommand::NoTopic),
            (3, b'3', b'3') => Some(StateCommand::Names),
            (4, b'j', _) => Some(StateCommand::Join),
            (4, b'p', _) => Some(StateCommand::Part),
            (4, b'k', _) => Some(StateCommand::Kick),
            (4, b'q', _) => Some(StateCommand::Quit),
            (4, b'n', _) => Some(StateCommand::Nick),
            (4, b'm', _) => Some(StateCommand::Mode),
            (4, b'a', _) => Some(StateCommand::Away),
            (5, b't', _) => Some(StateCommand::Topic),
            (7, b'a', _) => Some(StateCommand::Account),
            _ => None,
        }
    }
}

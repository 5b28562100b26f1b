//! The questions of `bnc setup`, in their order.

ghost use Rattle.std.specs.Prelude.{◌≡◌};
ghost use Rattle.first_settings.specs.Questions.{after};

/// What is asked. Each answer is one line.
#[derive(Clone, Copy, Debug, PartialEq, Eq)]
pub enum Question {
    /// The address of the network, `HOST:PORT`.
    Address,
    /// The nick, which is the user's name too.
    Nick,
    /// The channels to join, with spaces between them; there may be none.
    Channels,
    /// The password for clients.
    Password,
    /// The password once more.
    Again,
}

impl Question {
    /// What is asked, as it is printed.
    pub fn text(self) -> &'static str {
        match self {
            Question::Address => "network (HOST:PORT)",
            Question::Nick => "nick",
            Question::Channels => "channels, with spaces between them (#one #two)",
            Question::Password => "a password for your clients",
            Question::Again => "the password again",
        }
    }

    /// What a good answer is like, as it is printed after a bad one.
    pub fn hint(self) -> &'static str {
        match self {
            Question::Address => "as irc.example.org:6667",
            Question::Nick => "a letter first, and no space, '/', '@', ':' or '!'",
            Question::Channels => "at most 64, each with '#', '&', '+' or '!' in front",
            Question::Password => "not empty, without spaces, and no ':' in front",
            Question::Again => "it was another one; type it twice",
        }
    }

    /// The question after a good answer to this one; `None` after the last.
    pub fn after(self) -> Option<Question>
        ensures { result ≡ after self }
    {
        match self {
            Question::Address => Some(Question::Nick),
            Question::Nick => Some(Question::Channels),
            Question::Channels => Some(Question::Password),
            Question::Password => Some(Question::Again),
            Question::Again => None,
        }
    }
}

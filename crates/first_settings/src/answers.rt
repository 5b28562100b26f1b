//! The answers to the questions of `bnc setup`.

ghost use Rattle.std.specs.Prelude.{◌≡◌};
ghost use Rattle.first_settings.specs.Interviews.{nothing};

use std::alloc::Global;
use std::marker::Model;

/// What was answered so far; an answer that is still to come is empty. Only good answers are kept.
#[derive(Debug, Drop)]
pub struct Answers {
    pub(crate) address: Vec<u8>,
    pub(crate) nick: Vec<u8>,
    pub(crate) channels: Vec<u8>,
    pub(crate) password: Vec<u8>,
}

impl Model for Answers {
    ghost use Rattle.first_settings.specs.Interviews.{Given};

    ghost Value = { Given };

    ghost view = { λ answers. record {
      address = answers.address.items;
      nick = answers.nick.items;
      channels = answers.channels.items;
      password = answers.password.items;
    } };
}

impl Answers {
    /// No answers yet.
    pub(crate) fn new(alloc: Global) -> Answers
        ensures { result ≡ nothing }
    {
        Answers {
            address: Vec::new(alloc),
            nick: Vec::new(alloc),
            channels: Vec::new(alloc),
            password: Vec::new(alloc),
        }
    }

    /// The network's address.
    pub fn address(&self) -> &[u8]
        ensures { result.now ≡ self.now.address }
    {
        self.address.as_slice()
    }

    /// The nick, which is the user's name too.
    pub fn nick(&self) -> &[u8]
        ensures { result.now ≡ self.now.nick }
    {
        self.nick.as_slice()
    }

    /// The channels to join, with spaces between them.
    pub fn channels(&self) -> &[u8]
        ensures { result.now ≡ self.now.channels }
    {
        self.channels.as_slice()
    }

    /// The password for clients.
    pub fn password(&self) -> &[u8]
        ensures { result.now ≡ self.now.password }
    {
        self.password.as_slice()
    }
}

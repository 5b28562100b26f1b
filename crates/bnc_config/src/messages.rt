//! What is kept: the table `[messages]`.

ghost use Rattle.std.specs.Prelude.{◌≡◌, ◌≤◌, IsTrue, length};
ghost use Rattle.std.specs.List.{list_all};
ghost use Rattle.toml.specs.View.{table_view};
ghost use Rattle.bnc_config.specs.Document.{Reads, keys_fault, message_keys, messages_in, table_at};
ghost use Rattle.bnc_config.specs.Document.{table_fault};
ghost use Rattle.bnc_config.specs.Text.{is_word};
ghost use Rattle.bnc_config.specs.declared.key.Key.TheVariants.{Messages};

use crate::lists::texts_at;
use crate::table::{flag_or, table_or_none};
use crate::{ConfigFault, Key, Text};
use std::alloc::Global;
use std::marker::Model;
use toml::Table;

/// Which messages are kept.
#[derive(Debug, Drop)]
pub struct MessagesConfig {
    ctcp: bool,
    server_notices: bool,
    never: Vec<Text>,
    to_self: bool,
    by_person: bool,
}

impl Model for MessagesConfig {
    ghost use Rattle.bnc_config.specs.Settings.{IsMessages, MessagesSettings};

    ghost Value = { MessagesSettings };

    ghost view = { λ messages. record {
      ctcp = messages.ctcp;
      server_notices = messages.server_notices;
      never = messages.never.items;
      to_self = messages.to_self;
      by_person = messages.by_person;
    } };

    ghost invariant = { λ messages. IsMessages (record {
      ctcp = messages.ctcp;
      server_notices = messages.server_notices;
      never = messages.never.items;
      to_self = messages.to_self;
      by_person = messages.by_person;
    }) };
}

impl MessagesConfig {
    /// What the table `[messages]` says.
    fn of_table(alloc: Global, table: &Table) -> Result<MessagesConfig, ConfigFault>
        ensures { Reads (λ messages. messages) result
            (keys_fault message_keys (table_view table.now))
            (messages_in (table_view table.now)) }
    {
        let ctcp = flag_or(table, Key::MessagesCtcp, true)?;
        let server_notices = flag_or(table, Key::MessagesServerNotices, true)?;
        let never = texts_at(alloc, table, Key::MessagesNever, 64)?;
        let to_self = flag_or(table, Key::MessagesToSelf, true)?;
        let by_person = flag_or(table, Key::MessagesByPerson, false)?;
        Ok(MessagesConfig {
            ctcp,
            server_notices,
            never,
            to_self,
            by_person,
        })
    }

    /// What the table `[messages]` of a file's top says, which may be left out.
    pub(crate) fn read(alloc: Global, top: &Table) -> Result<MessagesConfig, ConfigFault>
        ensures { Reads (λ messages. messages) result
            (table_fault Messages message_keys (table_view top.now))
            (messages_in (table_at Messages (table_view top.now))) }
    {
        match table_or_none(top, Key::Messages)? {
            Some(table) => MessagesConfig::of_table(alloc, table),
            None => Ok(MessagesConfig {
                ctcp: true,
                server_notices: true,
                never: Vec::new(alloc),
                to_self: true,
                by_person: false,
            }),
        }
    }
}

impl MessagesConfig {
    /// Whether CTCP is kept, that is not ACTION; it is if the file does not say.
    pub fn ctcp(&self) -> bool
        ensures { result ≡ self.now.ctcp }
    {
        self.ctcp
    }

    /// Whether a NOTICE of a server is kept; it is if the file does not say.
    pub fn server_notices(&self) -> bool
        ensures { result ≡ self.now.server_notices }
    {
        self.server_notices
    }

    /// The names of which no message is kept, in the order of the file: at most 64 words. None if
    /// the file does not say.
    pub fn never(&self) -> &[Text]
        ensures value { result.now ≡ self.now.never }
        ensures clean { IsTrue (list_all is_word result.now) }
        ensures few { length result.now ≤ 64 }
    {
        self.never.as_slice()
    }

    /// Whether what a client says to our own nick is kept; it is if the file does not say.
    pub fn to_self(&self) -> bool
        ensures { result ≡ self.now.to_self }
    {
        self.to_self
    }

    /// Whether each person has a history of their own; not if the file does not say.
    pub fn by_person(&self) -> bool
        ensures { result ≡ self.now.by_person }
    {
        self.by_person
    }
}

//! What may be left out of a network, beside its password, its channels and its login.

ghost use Rattle.std.specs.Prelude.{◌≡◌, ◌≤◌, IfSome, IsTrue, length, option_map};
ghost use Rattle.std.specs.List.{list_all};
ghost use Rattle.irc_names.specs.Nick.{is_nameable};
ghost use Rattle.toml.specs.View.{table_view};
ghost use Rattle.bnc_config.specs.Command.{is_sent_at_connect};
ghost use Rattle.bnc_config.specs.Document.{Reads, keys_fault, network_option_keys};
ghost use Rattle.bnc_config.specs.Document.{network_options_in};
ghost use Rattle.bnc_config.specs.Settings.{are_channel_keys, key_by, key_for};
ghost use Rattle.bnc_config.specs.Text.{is_channel_key};

use crate::channel_keys::{key_by, read_keys};
use crate::lists::{texts_at, texts_or_none};
use crate::table::{flag_or, number_or};
use crate::{ChannelKey, ConfigFault, Key, NetworkConfig, Text};
use irc_names::CaseMapping;
use std::alloc::Global;
use std::marker::Model;
use toml::Table;

/// The settings of a network that may be left out.
#[derive(Debug, Drop)]
pub(crate) struct NetworkOptions {
    on_connect: Vec<Text>,
    join_after: u32,
    pairs: Vec<ChannelKey>,
    nicks: Option<Vec<Text>>,
    away: bool,
}

impl Model for NetworkOptions {
    ghost use Rattle.std.specs.Prelude.{option_map};
    ghost use Rattle.bnc_config.specs.Settings.{IsNetworkOptions, NetworkOptionSettings};

    ghost Value = { NetworkOptionSettings };

    ghost view = { λ options. record {
      on_connect = options.on_connect.items;
      join_after = options.join_after;
      keys = options.pairs.items;
      nicks = option_map (λ nicks. nicks.items) options.nicks;
      away = options.away;
    } };

    ghost invariant = { λ options. IsNetworkOptions (record {
      on_connect = options.on_connect.items;
      join_after = options.join_after;
      keys = options.pairs.items;
      nicks = option_map (λ nicks. nicks.items) options.nicks;
      away = options.away;
    }) };
}

impl NetworkOptions {
    /// The options that a network's table has.
    pub fn read(alloc: Global, table: &Table) -> Result<NetworkOptions, ConfigFault>
        ensures { Reads (λ options. options) result
            (keys_fault network_option_keys (table_view table.now))
            (network_options_in (table_view table.now)) }
    {
        let on_connect = texts_at(alloc, table, Key::NetworkOnConnect, 16)?;
        let join_after = number_or(table, Key::NetworkJoinAfter, 3, 0, 60)?;
        let pairs = read_keys(alloc, table)?;
        let nicks = texts_or_none(alloc, table, Key::NetworkNicks, 8)?;
        let away = flag_or(table, Key::NetworkAway, false)?;
        Ok(NetworkOptions {
            on_connect,
            join_after,
            pairs,
            nicks,
            away,
        })
    }
}

impl NetworkConfig {
    /// The lines that are sent once the server has said its welcome, before the channels are
    /// joined, in the order of the file: at most 16, of at most 400 bytes each. Each is a line
    /// without tags and source (RFC 2812, section 2.3.1), and none has the command NICK, USER,
    /// PASS, CAP, QUIT, AUTHENTICATE or JOIN. None if the file does not say.
    pub fn on_connect(&self) -> &[Text]
        ensures value { result.now ≡ self.now.options.on_connect }
        ensures clean { IsTrue (list_all is_sent_at_connect result.now) }
        ensures few { length result.now ≤ 16 }
    {
        self.options.on_connect.as_slice()
    }

    /// The seconds from the last of these lines to the channels: 0 to 60, and 3 if the file does
    /// not say.
    pub fn join_after(&self) -> u64
        ensures value { result ≡ self.now.options.join_after }
        ensures within { result ≤ 60 }
    {
        u64::from(self.options.join_after)
    }

    /// The keys of channels, in the order of the names' bytes: at most 64.
    pub fn keys(&self) -> &[ChannelKey]
        ensures value { result.now ≡ self.now.options.keys }
        ensures clean { IsTrue (are_channel_keys result.now) }
        ensures few { length result.now ≤ 64 }
    {
        self.options.pairs.as_slice()
    }

    /// The key of a channel: that of the first of `keys` which has its name, in letters of either
    /// case of ASCII, since no CASEMAPPING is known before the welcome.
    pub fn key_of(&self, channel: &[u8]) -> Option<&[u8]>
        ensures value { option_map (λ key. key.now) result
            ≡ key_for self.now.options.keys channel.now }
        ensures clean { IfSome result (λ key. IsTrue (is_channel_key key.now)) }
    {
        key_by(CaseMapping::Ascii, self.options.pairs.as_slice(), channel)
    }

    /// The key of a channel, once the network's CASEMAPPING is known: that of the first of `keys`
    /// which has its name under this mapping.
    pub fn key_by(&self, mapping: CaseMapping, channel: &[u8]) -> Option<&[u8]>
        ensures value { option_map (λ key. key.now) result
            ≡ key_by mapping self.now.options.keys channel.now }
        ensures clean { IfSome result (λ key. IsTrue (is_channel_key key.now)) }
    {
        key_by(mapping, self.options.pairs.as_slice(), channel)
    }

    /// Further nicks for when the wanted one can't be had, in the order of the file: at most 8,
    /// each one that `irc_names::is_nameable` takes. `None` if the file does not say: then nothing
    /// is asked for again.
    pub fn nicks(&self) -> Option<&[Text]>
        ensures value { option_map (λ nicks. nicks.now) result ≡ self.now.options.nicks }
        ensures clean { IfSome result (λ nicks.
            IsTrue (list_all is_nameable nicks.now) × (length nicks.now ≤ 8)) }
    {
        match &self.options.nicks {
            Some(nicks) => Some(nicks.as_slice()),
            None => None,
        }
    }

    /// Whether the last AWAY of a client is sent again after a loss; not if the file does not say.
    pub fn away(&self) -> bool
        ensures { result ≡ self.now.options.away }
    {
        self.options.away
    }
}

//! The settings as a whole.

ghost use Rattle.std.specs.Prelude.{◌≡◌, ◌≤◌, ◌↔◌, IfSome, IsTrue, MatchResult, length, option_map};
ghost use Rattle.std.specs.Prelude.{option_copied};
ghost use Rattle.std.specs.List.{list_all};
ghost use Rattle.toml.specs.View.{table_view};
ghost use Rattle.bnc_config.specs.Document.{IsFaultOf, Means, Reads, first_fault, settings_in};
ghost use Rattle.bnc_config.specs.Settings.{Matches, first_listen, network_at, networks_at};
ghost use Rattle.bnc_config.specs.Settings.{place_of, user_at};
ghost use Rattle.bnc_config.specs.Text.{is_address, is_ip, is_path};

use crate::digest::{are_equal, digest_of};
use crate::lists::required_addresses;
use crate::networks::place_of_network;
use crate::options::Options;
use crate::table::number_or;
use crate::users::{place_of_user, users_at};
use crate::{
    ConfigFault, Key, MessagesConfig, NetworkConfig, Place, PlaybackConfig, ProfileConfig, Text,
    UserConfig,
};
use std::alloc::Global;
use std::marker::Model;
use toml::Table;

/// How many messages a file may ask for: the most that a history can hold
/// (`history::CAPACITY_LIMIT`, which this crate, below that one, can't name).
const HISTORY_LIMIT: u32 = 10_000;

/// The settings that a file means.
#[derive(Debug, Drop)]
pub struct Config {
    listens: Vec<Text>,
    history: usize,
    retry: u64,
    options: Options,
    profile: ProfileConfig,
    users: Vec<UserConfig>,
}

impl Model for Config {
    ghost use Rattle.bnc_config.specs.Settings.{IsTop, Settings};

    ghost Value = { Settings };

    ghost view = { λ config. record {
      listens = config.listens.items;
      history = config.history;
      retry = config.retry;
      options = config.options;
      profile = config.profile;
      users = config.users.items;
    } };

    ghost invariant = { λ config. IsTop (record {
      listens = config.listens.items;
      history = config.history;
      retry = config.retry;
      options = config.options;
      profile = config.profile;
      users = config.users.items;
    }) };
}

impl Config {
    /// The settings that the top of a file means.
    fn of_table(alloc: Global, table: &Table) -> Result<Config, ConfigFault>
        ensures { Reads (λ config. config) result (first_fault (table_view table.now))
            (settings_in (table_view table.now)) }
    {
        let listens = required_addresses(alloc, table, Key::Listen)?;
        let history = number_or(table, Key::History, 500, 1, HISTORY_LIMIT)?;
        let retry = number_or(table, Key::Retry, 30, 1, 3_600)?;
        let options = Options::read(alloc, table, history)?;
        let profile = ProfileConfig::of_table(alloc, table)?;
        let users = users_at(alloc, table)?;
        Ok(Config {
            listens,
            history: history as usize,
            retry: u64::from(retry),
            options,
            profile,
            users,
        })
    }

    /// Reads a settings file: the settings that it means, else its first fault. Keys that are not
    /// named here are not looked at.
    #[tactic(auto, using(crate::proofs::FaultLemmas::fault_of_tree))]
    pub fn read(alloc: Global, text: &[u8]) -> Result<Config, ConfigFault>
        ensures { MatchResult result (Means text.now) (IsFaultOf text.now) }
    {
        let table = match toml::table_from_slice(alloc, text) {
            Ok(table) => table,
            Err(error) if error.is_memory() => return Err(ConfigFault::OutOfMemory),
            Err(_) => return Err(ConfigFault::NotToml),
        };
        Config::of_table(alloc, &table)
    }
}

impl Config {
    /// Where clients connect: `HOST:PORT` or `[IPV6]:PORT`, with a port from 1 to 65535. It is the
    /// first of `listens`.
    pub fn listen(&self) -> &str
        ensures value { result.now ≡ first_listen self.now }
        ensures clean { IsTrue (is_address result.now) }
    {
        match self.listens.as_slice() {
            [first, ..] => first.as_str(),
            [] => "",
        }
    }

    /// All addresses where clients connect, in the order of the file: 1 to 8.
    pub fn listens(&self) -> &[Text]
        ensures value { result.now ≡ self.now.listens }
        ensures clean { IsTrue (list_all is_address result.now) }
        ensures within { (1 ≤ length result.now) × (length result.now ≤ 8) }
    {
        self.listens.as_slice()
    }

    /// Where proxies connect, which name the client's address in a line of their own, in the order
    /// of the file: at most 8, each as one of `listens`. None if the file does not say.
    pub fn listen_proxy(&self) -> &[Text]
        ensures value { result.now ≡ self.now.options.listen_proxy }
        ensures clean { IsTrue (list_all is_address result.now) }
        ensures few { length result.now ≤ 8 }
    {
        self.options.listen_proxy()
    }

    /// The addresses from which proxies may connect: at most 16 texts, each an address of IPv4 or
    /// IPv6 without a port. `None` if the file does not say: then those of the loopback range may.
    pub fn proxies(&self) -> Option<&[Text]>
        ensures value { option_map (λ proxies. proxies.now) result ≡ self.now.options.proxies }
        ensures clean { IfSome result (λ proxies.
            IsTrue (list_all is_ip proxies.now) × (length proxies.now ≤ 16)) }
    {
        self.options.proxies()
    }

    /// How many messages a network's history keeps: 1 to 10,000, and 500 if the file does not
    /// say.
    pub fn history(&self) -> usize
        ensures value { result ≡ self.now.history }
        ensures within { (1 ≤ result) × (result ≤ 10000) }
    {
        self.history
    }

    /// The seconds between two dials after a loss: 1 to 3600, and 30 if the file does not say.
    pub fn retry(&self) -> u64
        ensures value { result ≡ self.now.retry }
        ensures within { (1 ≤ result) × (result ≤ 3600) }
    {
        self.retry
    }

    /// The folder in which messages are kept over a restart, relative to that of the settings file:
    /// not empty, without control bytes. `None` if the file does not say.
    pub fn kept(&self) -> Option<&str>
        ensures value { option_map (λ path. path.now) result ≡ self.now.options.kept }
        ensures clean { IfSome result (λ path. IsTrue (is_path path.now)) }
    {
        self.options.kept()
    }

    /// How many MiB a network may take: 8 to 65,536. If the file does not say, 64, or a sixteenth
    /// of the history if that is more.
    pub fn memory(&self) -> u32
        ensures value { result ≡ self.now.options.memory }
        ensures within { (8 ≤ result) × (result ≤ 65536) }
    {
        self.options.memory()
    }

    /// The file in which figures are written for a program that watches, relative to the folder of
    /// the settings file: not empty, without control bytes. `None` if the file does not say.
    pub fn metrics(&self) -> Option<&str>
        ensures value { option_map (λ path. path.now) result ≡ self.now.options.metrics }
        ensures clean { IfSome result (λ path. IsTrue (is_path path.now)) }
    {
        self.options.metrics()
    }

    /// Which messages are kept.
    pub fn messages(&self) -> &MessagesConfig
        ensures { result.now ≡ self.now.profile.messages }
    {
        self.profile.messages()
    }

    /// How they are played back.
    pub fn playback(&self) -> &PlaybackConfig
        ensures { result.now ≡ self.now.profile.playback }
    {
        self.profile.playback()
    }

    /// The users, in the order of the file.
    pub fn users(&self) -> &[UserConfig]
        ensures { result.now ≡ self.now.users }
    {
        self.users.as_slice()
    }

    /// How many users there are.
    pub fn user_count(&self) -> usize
        ensures { result ≡ length self.now.users }
    {
        self.users.len()
    }

    /// The networks of the user at a place, from 0, in the order of the file: none if there is
    /// no such user.
    pub fn networks(&self, user: usize) -> &[NetworkConfig]
        ensures { result.now ≡ networks_at self.now user }
    {
        match self.users.get(user) {
            Some(user) => user.networks(),
            None => &[],
        }
    }

    /// How many networks the user at a place, from 0, has: 0 if there is no such user.
    pub fn network_count(&self, user: usize) -> usize
        ensures { result ≡ length (networks_at self.now user) }
    {
        self.networks(user).len()
    }

    /// The network at a place.
    pub fn network(&self, place: Place) -> Option<&NetworkConfig>
        ensures { option_copied result ≡ network_at self.now place.user place.network }
    {
        self.networks(place.user).get(place.network)
    }

    /// The place of a network by the name of its user and its own, byte for byte.
    pub fn find(&self, user: &[u8], network: &[u8]) -> Option<Place>
        ensures { option_map (λ place. (place.user, place.network)) result
            ≡ place_of self.now user.now network.now }
    {
        let user = place_of_user(self.users.as_slice(), user)?;
        let network = place_of_network(self.networks(user), network)?;
        Some(Place { user, network })
    }

    /// Whether this is the password of the user of a name: whether the SHA-256 digest of the user's
    /// salt followed by the password is the user's. False if no user has the name.
    pub fn password_matches(&self, user: &[u8], password: &[u8]) -> bool
        ensures { IsTrue result ↔ Matches self.now user.now password.now }
    {
        match place_of_user(self.users.as_slice(), user).and_then(|user| self.users.get(user)) {
            Some(user) => are_equal(&digest_of(user.salt(), password), user.digest()),
            None => false,
        }
    }
}

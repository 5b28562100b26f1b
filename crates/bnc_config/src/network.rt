//! A network of a user.

ghost use Rattle.std.specs.Prelude.{◌≡◌, ◌≤◌, ◌++◌, ◌∷◌, [], List, ℕ, OnOk, drop, length};
ghost use Rattle.std.specs.Prelude.{◌↔◌, option_copied, option_map, IfSome, IsTrue};
ghost use Rattle.std.specs.List.{list_all};
ghost use Rattle.std.specs.Option.{option_or};
ghost use Rattle.irc_names.specs.Nick.{is_nameable};
ghost use Rattle.toml.specs.View.{table_view};
ghost use Rattle.bnc_config.specs.Names.{AreNames};
ghost use Rattle.bnc_config.specs.Document.{Reads, keys_fault, later_fault, network_fault};
ghost use Rattle.bnc_config.specs.Document.{network_in, network_keys, text_at};
ghost use Rattle.bnc_config.specs.Settings.{AreDialledAlike};
ghost use Rattle.bnc_config.specs.Text.{is_address, is_name, is_one_line, is_word};
ghost use Rattle.bnc_config.specs.declared.key.Key.TheVariants.{NetworkName};

use crate::account::{SaslConfig, are_same_logins};
use crate::lists::texts_at;
use crate::names::Names;
use crate::network_options::NetworkOptions;
use crate::table::{allowed_text, optional_text, required_text};
use crate::text::are_same_texts;
use crate::{ConfigFault, Key, Text};
use std::alloc::Global;
use std::marker::Model;
use toml::Table;

/// A network that the bouncer stays connected to for a user.
#[derive(Debug)]
pub struct NetworkConfig {
    name: Text,
    address: Text,
    nick: Text,
    user: Text,
    realname: Text,
    password: Option<Text>,
    join: Vec<Text>,
    sasl: Option<SaslConfig>,
    pub(crate) options: NetworkOptions,
}

// By hand, so that whoever owns a network proves one call where it goes, and not the way of each
// field.
impl Drop for NetworkConfig {
    fn drop(self) {
        let NetworkConfig {
            name: _name,
            address: _address,
            nick: _nick,
            user: _user,
            realname: _realname,
            password: _password,
            join: _join,
            sasl: _sasl,
            options: _options,
        } = self;
    }
}

impl Model for NetworkConfig {
    ghost use Rattle.bnc_config.specs.Settings.{IsNetwork, NetworkSettings};

    ghost Value = { NetworkSettings };

    ghost view = { λ network. record {
      name = network.name;
      address = network.address;
      nick = network.nick;
      user = network.user;
      realname = network.realname;
      password = network.password;
      join = network.join.items;
      sasl = network.sasl;
      options = network.options;
    } };

    ghost invariant = { λ network. IsNetwork (record {
      name = network.name;
      address = network.address;
      nick = network.nick;
      user = network.user;
      realname = network.realname;
      password = network.password;
      join = network.join.items;
      sasl = network.sasl;
      options = network.options;
    }) };
}

impl NetworkConfig {
    /// The network of this name that a table has the other keys of.
    fn named(alloc: Global, name: &str, table: &Table) -> Result<NetworkConfig, ConfigFault>
        requires { IsTrue (is_name name.now) }
        ensures { Reads (λ network. network) result
            (option_or (keys_fault (drop 1 network_keys) (table_view table.now))
            (later_fault (table_view table.now)))
            (record (network_in (table_view table.now)) { name = name.now }) }
    {
        let address = required_text(alloc, table, Key::NetworkAddress)?;
        let nick = required_text(alloc, table, Key::NetworkNick)?;
        let user = required_text(alloc, table, Key::NetworkUser)?;
        let realname = required_text(alloc, table, Key::NetworkRealname)?;
        let password = optional_text(alloc, table, Key::NetworkPassword)?;
        let join = texts_at(alloc, table, Key::NetworkJoin, 64)?;
        let sasl = SaslConfig::read(alloc, table, nick.as_str())?;
        let options = NetworkOptions::read(alloc, table)?;
        let name = Text::copy(alloc, name)?;
        Ok(NetworkConfig {
            name,
            address,
            nick,
            user,
            realname,
            password,
            join,
            sasl,
            options,
        })
    }

    /// The network that a table means, after networks of the names `earlier`, to which its own is
    /// added.
    pub(crate) fn read<'t>(
        alloc: Global,
        table: &'t Table,
        earlier: &mut Names<'t>,
    ) -> Result<NetworkConfig, ConfigFault>
        ensures read { (names : List (List ℕ)) → AreNames earlier.old names
            → Reads (λ network. network) result
            (network_fault names (table_view table.now)) (network_in (table_view table.now)) }
        ensures named { OnOk result ((names : List (List ℕ)) → AreNames earlier.old names
            → AreNames earlier.new (names ++ text_at NetworkName (table_view table.now) ∷ [])) }
    {
        let name = allowed_text(table, Key::NetworkName)?;
        let network = NetworkConfig::named(alloc, name, table)?;
        earlier.add_new(alloc, name)?;
        Ok(network)
    }

    /// What the user calls the network, and a client asks for when it logs in. No other network of
    /// the user has this name. It is not empty and holds no `/`, `@`, `:`, space or control byte.
    pub fn name(&self) -> &[u8]
        ensures value { result.now ≡ self.now.name }
        ensures clean { IsTrue (is_name result.now) }
    {
        self.name.as_bytes()
    }

    /// Where the IRC server is: `HOST:PORT` or `[IPV6]:PORT`, with a port from 1 to 65535.
    pub fn address(&self) -> &str
        ensures value { result.now ≡ self.now.address }
        ensures clean { IsTrue (is_address result.now) }
    {
        self.address.as_str()
    }

    /// The nick that is asked for first, one that `irc_names::is_nameable` takes.
    pub fn nick(&self) -> &[u8]
        ensures value { result.now ≡ self.now.nick }
        ensures clean { IsTrue (is_nameable result.now) }
    {
        self.nick.as_bytes()
    }

    /// The first parameter of the USER line (RFC 2812, section 3.1.3), a word: it is not empty,
    /// does not begin with a colon, and holds no space or control byte.
    pub fn user(&self) -> &[u8]
        ensures value { result.now ≡ self.now.user }
        ensures clean { IsTrue (is_word result.now) }
    {
        self.user.as_bytes()
    }

    /// The last parameter of the USER line (RFC 2812, section 3.1.3). It may have spaces and may be
    /// empty, and holds no control byte.
    pub fn realname(&self) -> &[u8]
        ensures value { result.now ≡ self.now.realname }
        ensures clean { IsTrue (is_one_line result.now) }
    {
        self.realname.as_bytes()
    }

    /// The parameter of the PASS line (RFC 2812, section 3.1.1), a word; `None` if no PASS is
    /// sent.
    pub fn password(&self) -> Option<&[u8]>
        ensures value { option_map (λ password. password.now) result ≡ self.now.password }
        ensures clean { IfSome result (λ password. IsTrue (is_word password.now)) }
    {
        match &self.password {
            Some(password) => Some(password.as_bytes()),
            None => None,
        }
    }

    /// The channels to join once the server has said its welcome, in the order of the file: at most
    /// 64 words.
    pub fn join(&self) -> &[Text]
        ensures value { result.now ≡ self.now.join }
        ensures clean { IsTrue (list_all is_word result.now) }
        ensures few { length result.now ≤ 64 }
    {
        self.join.as_slice()
    }

    /// How we log in to an account of the network before its welcome; `None` if we do not.
    pub fn sasl(&self) -> Option<&SaslConfig>
        ensures { option_copied result ≡ self.now.sasl }
    {
        self.sasl.as_ref()
    }

    /// Whether a network that has these settings is dialled as one of `other`: all is the same
    /// except the names, the channels to join, and what counts from the next dial on: the lines
    /// that are sent first, the seconds after them, the channels' keys, further nicks and AWAY.
    pub fn is_dialled_as(&self, other: &NetworkConfig) -> bool
        ensures { IsTrue result ↔ AreDialledAlike self.now other.now }
    {
        let NetworkConfig {
            name: _,
            address,
            nick,
            user,
            realname,
            password,
            join: _,
            sasl,
            options: _,
        } = self;
        address.is_same(&other.address)
            && nick.is_same(&other.nick)
            && user.is_same(&other.user)
            && realname.is_same(&other.realname)
            && are_same_texts(password, &other.password)
            && are_same_logins(sasl, &other.sasl)
    }
}

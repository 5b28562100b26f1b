//! The users.

ghost use Rattle.std.specs.Prelude.{◌≡◌, ◌++◌, ◌∷◌, [], List, ℕ, IsTrue, OnOk};
ghost use Rattle.std.specs.Prelude.{false, map, length, option_map};
ghost use Rattle.toml.specs.Data.{get_member};
ghost use Rattle.toml.specs.View.{items_view, table_view};
ghost use Rattle.bnc_config.specs.Key.{word_of};
ghost use Rattle.bnc_config.specs.Names.{AreNames};
ghost use Rattle.bnc_config.specs.Allowed.{is_text_where};
ghost use Rattle.bnc_config.specs.Document.{Reads, bytes_at, fault_at, tables_at, tables_of};
ghost use Rattle.bnc_config.specs.Document.{text_at, user_fault, user_in, users_fault};
ghost use Rattle.bnc_config.specs.Document.{users_fault_at};
ghost use Rattle.bnc_config.specs.Settings.{place_of_user};
ghost use Rattle.bnc_config.specs.Text.{is_digest, is_hexadecimal, is_name};
ghost use Rattle.bnc_config.specs.declared.key.Key.TheVariants.{User, UserName};
ghost use Rattle.bnc_config.specs.declared.key.Key.TheVariants.{UserPassword, UserSalt};

use crate::names::Names;
use crate::networks::read_networks;
use crate::table::{allowed_text, any_text, tables_at};
use crate::{ConfigFault, Key, NetworkConfig, Text};
use hex::{FromHex, FromHexError};
use std::alloc::Global;
use std::marker::Model;
use toml::{Table, Value};

/// A user of the bouncer.
#[derive(Debug)]
pub struct UserConfig {
    name: Text,
    salt: Vec<u8>,
    digest: [u8; 32],
    networks: Vec<NetworkConfig>,
}

// By hand, so that whoever owns a user proves one call where it goes, and not the way of each
// field.
impl Drop for UserConfig {
    fn drop(self) {
        let UserConfig {
            name: _name,
            salt: _salt,
            digest: _,
            networks: _networks,
        } = self;
    }
}

impl Model for UserConfig {
    ghost use Rattle.bnc_config.specs.Settings.{IsUser, UserSettings};

    ghost Value = { UserSettings };

    ghost view = { λ user. record {
      name = user.name;
      salt = user.salt.items;
      digest = user.digest;
      networks = user.networks.items;
    } };

    ghost invariant = { λ user. IsUser (record {
      name = user.name;
      salt = user.salt.items;
      digest = user.digest;
      networks = user.networks.items;
    }) };
}

/// The bytes of the salt.
#[tactic(auto, using(crate::proofs::KeyLemmas::fault_at_any_text))]
fn salt_in(alloc: Global, table: &Table) -> Result<Vec<u8>, ConfigFault>
    ensures { Reads (λ salt. salt.items) result
        (fault_at UserSalt false (is_text_where is_hexadecimal)
        (get_member (word_of UserSalt) (table_view table.now)))
        (bytes_at UserSalt (table_view table.now)) }
{
    match hex::decode(alloc, any_text(table, Key::UserSalt)?) {
        Ok(salt) => Ok(salt),
        Err(FromHexError::OutOfMemory) => Err(ConfigFault::OutOfMemory),
        Err(_) => Err(ConfigFault::BadValue(Key::UserSalt)),
    }
}

/// The digest of the salt and the password.
#[tactic(auto, using(crate::proofs::KeyLemmas::fault_at_any_text))]
fn digest_in(table: &Table) -> Result<[u8; 32], ConfigFault>
    ensures { Reads (λ digest. digest) result
        (fault_at UserPassword false (is_text_where is_digest)
        (get_member (word_of UserPassword) (table_view table.now)))
        (bytes_at UserPassword (table_view table.now)) }
{
    match <[u8; 32]>::from_hex(any_text(table, Key::UserPassword)?) {
        Ok(digest) => Ok(digest),
        Err(_) => Err(ConfigFault::BadValue(Key::UserPassword)),
    }
}

impl UserConfig {
    /// The user that a table means, after users of the names `earlier`, to which its own is added.
    pub(crate) fn read<'t>(
        alloc: Global,
        table: &'t Table,
        earlier: &mut Names<'t>,
    ) -> Result<UserConfig, ConfigFault>
        ensures read { (names : List (List ℕ)) → AreNames earlier.old names
            → Reads (λ user. user) result
            (user_fault names (table_view table.now)) (user_in (table_view table.now)) }
        ensures named { OnOk result ((names : List (List ℕ)) → AreNames earlier.old names
            → AreNames earlier.new (names ++ text_at UserName (table_view table.now) ∷ [])) }
    {
        let name = allowed_text(table, Key::UserName)?;
        let salt = salt_in(alloc, table)?;
        let digest = digest_in(table)?;
        let networks = tables_at(table, Key::UserNetwork)?;
        earlier.add_new(alloc, name)?;
        let networks = read_networks(alloc, networks)?;
        let name = Text::copy(alloc, name)?;
        Ok(UserConfig {
            name,
            salt,
            digest,
            networks,
        })
    }

    /// What a client logs in as. No other user has this name. It is not empty and holds no `/`,
    /// `@`, `:`, space or control byte.
    pub fn name(&self) -> &[u8]
        ensures value { result.now ≡ self.now.name }
        ensures clean { IsTrue (is_name result.now) }
    {
        self.name.as_bytes()
    }

    /// The bytes that are hashed before the password; there may be none.
    pub fn salt(&self) -> &[u8]
        ensures { result.now ≡ self.now.salt }
    {
        self.salt.as_slice()
    }

    /// The SHA-256 digest of the salt's bytes followed by the password's.
    pub fn digest(&self) -> &[u8; 32]
        ensures { result.now ≡ self.now.digest }
    {
        &self.digest
    }

    /// The user's networks, in the order of the file.
    pub fn networks(&self) -> &[NetworkConfig]
        ensures { result.now ≡ self.now.networks }
    {
        self.networks.as_slice()
    }
}

/// The users that the tables among some values mean, in their order.
fn read_users(alloc: Global, values: &[Value]) -> Result<Vec<UserConfig>, ConfigFault>
    ensures { Reads (λ users. users.items) result
        (users_fault [] (tables_of (items_view values.now)))
        (map user_in (tables_of (items_view values.now))) }
{
    let mut names = Names::new(alloc);
    let mut users = Vec::new(alloc);
    for value in values {
        if let Some(table) = value.as_table() {
            users.push(UserConfig::read(alloc, table, &mut names)?)?;
        }
    }
    Ok(users)
}

/// The users that the list at the key `user` of a table means; the key may be left out.
pub(crate) fn users_at(alloc: Global, table: &Table) -> Result<Vec<UserConfig>, ConfigFault>
    ensures { Reads (λ users. users.items) result (users_fault_at (table_view table.now))
        (map user_in (tables_at User (table_view table.now))) }
{
    read_users(alloc, tables_at(table, Key::User)?)
}

/// The place of the user of this name among some.
pub(crate) fn place_of_user(users: &[UserConfig], name: &[u8]) -> Option<usize>
    ensures { result ≡ place_of_user name.now users.now }
{
    users.iter().position(|user| user.name() == name)
}

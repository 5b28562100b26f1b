//! How we log in to an account of a network.

ghost use Rattle.std.specs.Prelude.{◌≡◌, ◌↔◌, IfOk, IfSome, IsTrue, option_map};
ghost use Rattle.std.specs.Prelude.{unwrap_or};
ghost use Rattle.irc_names.specs.Nick.{is_nameable};
ghost use Rattle.toml.specs.View.{table_view};
ghost use Rattle.bnc_config.specs.Document.{Reads, key_fault, optional_text_at, sasl_fault};
ghost use Rattle.bnc_config.specs.Document.{sasl_of};
ghost use Rattle.bnc_config.specs.declared.key.Key.TheVariants.{NetworkSaslUser};
ghost use Rattle.bnc_config.specs.Text.{is_account_password, is_word};

use crate::table::{bar, optional_text, required_text, text_or_none};
use crate::{ConfigFault, Key, Text};
use std::alloc::Global;
use std::marker::Model;
use toml::Table;

/// How we log in to an account of a network by SASL (IRCv3 sasl 3.1): by PLAIN (RFC 4616) with the
/// account's name and password, or by EXTERNAL (RFC 4422, appendix A) with neither.
#[derive(Debug, Drop)]
pub struct SaslConfig {
    // by PLAIN; else by EXTERNAL
    account: Option<(Text, Text)>,
}

impl Model for SaslConfig {
    ghost use Rattle.bnc_config.specs.Settings.{IsSasl, SaslSettings};

    ghost Value = { SaslSettings };

    ghost view = { λ sasl. sasl.account };

    ghost invariant = { λ sasl. IsSasl sasl.account };
}

/// The name of the account of a table, which is `nick` if the key is left out.
#[tactic(auto, using(crate::proofs::TextLemmas::nameable_is_word))]
fn user_in(alloc: Global, table: &Table, nick: &str) -> Result<Text, ConfigFault>
    requires { IsTrue (is_nameable nick.now) }
    ensures word { IfOk result (λ user. IsTrue (is_word user)) }
    ensures read { Reads (λ user. user) result (key_fault (table_view table.now) NetworkSaslUser)
        (unwrap_or (optional_text_at NetworkSaslUser (table_view table.now)) nick.now) }
{
    match optional_text(alloc, table, Key::NetworkSaslUser)? {
        Some(user) => Ok(user),
        None => Ok(Text::copy(alloc, nick)?),
    }
}

impl SaslConfig {
    /// The login of a table, which has none if the key `sasl` is left out. The account has the name
    /// `nick` if its own is left out.
    pub(crate) fn read(
        alloc: Global,
        table: &Table,
        nick: &str,
    ) -> Result<Option<SaslConfig>, ConfigFault>
        requires { IsTrue (is_nameable nick.now) }
        ensures { Reads (λ sasl. sasl) result (sasl_fault (table_view table.now))
            (sasl_of nick.now (table_view table.now)) }
    {
        match text_or_none(table, Key::NetworkSasl)? {
            Some("PLAIN") => {
                let user = user_in(alloc, table, nick)?;
                let password = required_text(alloc, table, Key::NetworkSaslPassword)?;
                Ok(Some(SaslConfig {
                    account: Some((user, password)),
                }))
            }
            other => {
                bar(table, Key::NetworkSaslUser)?;
                bar(table, Key::NetworkSaslPassword)?;
                Ok(other.map(|_| SaslConfig { account: None }))
            }
        }
    }

    /// Whether both log in alike.
    fn is_same(&self, other: &SaslConfig) -> bool
        ensures { IsTrue result ↔ (self.now ≡ other.now) }
    {
        match (&self.account, &other.account) {
            (Some((user, password)), Some((other_user, other_password))) => {
                user.is_same(other_user) && password.is_same(other_password)
            }
            (None, None) => true,
            _ => false,
        }
    }

    /// The account's name, a word, and its password, 1 to 300 bytes without NUL, for PLAIN; `None`
    /// for EXTERNAL.
    pub fn account(&self) -> Option<(&[u8], &[u8])>
        ensures value { option_map (λ account. (account.0.now, account.1.now)) result ≡ self.now }
        ensures clean { IfSome result (λ account. IsTrue (is_word account.0.now)
            × IsTrue (is_account_password account.1.now)) }
    {
        match &self.account {
            Some((user, password)) => Some((user.as_bytes(), password.as_bytes())),
            None => None,
        }
    }
}

/// Whether both are left out, or log in alike.
pub(crate) fn are_same_logins(one: &Option<SaslConfig>, other: &Option<SaslConfig>) -> bool
    ensures { IsTrue result ↔ (one.now ≡ other.now) }
{
    match (one, other) {
        (Some(one), Some(other)) => one.is_same(other),
        (None, None) => true,
        _ => false,
    }
}

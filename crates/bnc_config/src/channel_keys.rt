//! The keys of channels.

ghost use Rattle.std.specs.Prelude.{◌≡◌, ◌≤◌, IfOk, IfSome, IsTrue, length, option_map, position, true};
ghost use Rattle.toml.specs.Data.{get_member};
ghost use Rattle.toml.specs.View.{table_view};
ghost use Rattle.bnc_config.specs.Allowed.{is_text_table};
ghost use Rattle.bnc_config.specs.Document.{ArePairs, Reads, channel_keys_at, fault_at};
ghost use Rattle.bnc_config.specs.Key.{word_of};
ghost use Rattle.bnc_config.specs.Settings.{are_channel_keys, is_key_by, key_by};
ghost use Rattle.bnc_config.specs.Text.{is_channel_key};
ghost use Rattle.bnc_config.specs.declared.key.Key.TheVariants.{NetworkKeys};

use crate::allowed::allows;
use crate::table::value_at;
use crate::{ConfigFault, Key, OutOfMemory, Text};
use irc_names::CaseMapping;
use std::alloc::Global;
use std::marker::Model;
use toml::Table;

/// A channel and the key that it is joined with (RFC 2812, section 3.2.1), which contracts see as
/// a pair.
#[derive(Debug, Drop)]
pub struct ChannelKey {
    channel: Text,
    key: Text,
}

impl Model for ChannelKey {
    ghost use Rattle.bnc_config.specs.Settings.{ChannelKey as Pair};
    ghost use Rattle.std.specs.Prelude.{IsTrue};
    ghost use Rattle.bnc_config.specs.Text.{is_channel_key};

    ghost Value = { Pair };

    ghost view = { λ pair. (pair.channel, pair.key) };

    ghost invariant = { λ pair. IsTrue (is_channel_key pair.key) };
}

impl ChannelKey {
    /// The channel's name, as the file has it.
    pub fn channel(&self) -> &[u8]
        ensures { result.now ≡ self.now.0 }
    {
        self.channel.as_bytes()
    }

    /// The key: a word without a comma.
    pub fn key(&self) -> &[u8]
        ensures value { result.now ≡ self.now.1 }
        ensures clean { IsTrue (is_channel_key result.now) }
    {
        self.key.as_bytes()
    }

    /// Whether this is the channel, under a mapping.
    fn is_for(&self, mapping: CaseMapping, channel: &[u8]) -> bool
        ensures { result ≡ is_key_by mapping channel.now self.now }
    {
        mapping.same(self.channel(), channel)
    }
}

/// The place of the first key of the channel of this name among some, under a mapping.
fn place_by(mapping: CaseMapping, keys: &[ChannelKey], channel: &[u8]) -> Option<usize>
    ensures { result ≡ position (is_key_by mapping channel.now) keys.now }
{
    keys.iter().position(|pair| pair.is_for(mapping, channel))
}

/// The key of the channel of this name among some, under a mapping.
pub(crate) fn key_by<'k>(
    mapping: CaseMapping,
    keys: &'k [ChannelKey],
    channel: &[u8],
) -> Option<&'k [u8]>
    ensures value { option_map (λ key. key.now) result ≡ key_by mapping keys.now channel.now }
    ensures clean { IfSome result (λ key. IsTrue (is_channel_key key.now)) }
{
    let place = place_by(mapping, keys, channel)?;
    match keys.get(place) {
        Some(pair) => Some(pair.key()),
        None => None,
    }
}

/// Copies of the texts of a table with their names, if all of them are keys; else `None`.
fn copied_pairs(alloc: Global, table: &Table) -> Result<Option<Vec<ChannelKey>>, OutOfMemory>
    ensures { IfOk result (λ copies.
        ArePairs (table_view table.now) (option_map (λ pairs. pairs.items) copies)) }
{
    let mut pairs = Vec::new(alloc);
    for (name, value) in table.iter() {
        match value.as_str() {
            Some(text) if allows(Key::NetworkKeys, text) => {
                let channel = Text::copy(alloc, name.as_str())?;
                let key = Text::copy(alloc, text)?;
                pairs.push(ChannelKey { channel, key })?;
            }
            _ => return Ok(None),
        }
    }
    Ok(Some(pairs))
}

/// The keys of channels of a table, at most 64; the key may be left out.
#[tactic(auto, using(crate::proofs::PairsLemmas::member_count_view, crate::proofs::PairsLemmas::pairs_of_allowed, crate::proofs::PairsLemmas::few_pairs_of))]
pub(crate) fn read_keys(alloc: Global, table: &Table) -> Result<Vec<ChannelKey>, ConfigFault>
    ensures few { IfOk result (λ pairs. length pairs.items ≤ 64) }
    ensures clean { IfOk result (λ pairs. IsTrue (are_channel_keys pairs.items)) }
    ensures read { Reads (λ pairs. pairs.items) result
        (fault_at NetworkKeys true (is_text_table is_channel_key 64)
        (get_member (word_of NetworkKeys) (table_view table.now)))
        (channel_keys_at (table_view table.now)) }
{
    let Some(value) = value_at(table, Key::NetworkKeys) else {
        return Ok(Vec::new(alloc));
    };
    let Some(members) = value.as_table() else {
        return Err(ConfigFault::BadValue(Key::NetworkKeys));
    };
    if members.len() > 64 {
        return Err(ConfigFault::BadValue(Key::NetworkKeys));
    }
    match copied_pairs(alloc, members)? {
        Some(pairs) => Ok(pairs),
        None => Err(ConfigFault::BadValue(Key::NetworkKeys)),
    }
}

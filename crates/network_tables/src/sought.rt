//! What is looked for in a table.

ghost use Rattle.std.specs.Prelude.{◌≡◌, ◌<◌, ◌≤◌, drop, get_or, length};
ghost use Rattle.irc_names.specs.CaseMapping.{key_of};
ghost use Rattle.net_view.specs.Names.{bytes_cmp};
ghost use Rattle.network_tables.specs.Head.{head_of, AreBytesTo};
ghost use Rattle.network_tables.specs.Sought.{sought_key};

use irc_names::CaseMapping;
use std::cmp::Ordering;

/// What is looked for.
#[derive(Clone, Copy)]
pub enum Sought<'a> {
    /// The entry of this key.
    Key(&'a [u8]),
    /// The entry of this name, which is folded on the way.
    Name(CaseMapping, &'a [u8]),
}

/// How a key compares to what is looked for.
#[tactic(auto, using(crate::proofs::HeadLemmas::turned))]
pub(crate) fn order(key: &[u8], sought: Sought<'_>) -> Ordering
    ensures { result ≡ bytes_cmp key.now (sought_key sought.entry) }
{
    match sought {
        Sought::Key(other) => key.cmp(other),
        Sought::Name(mapping, name) => mapping.order_to_key(name, key).reverse(),
    }
}

/// How a key compares to what is looked for, if their heads are equal: what follows the first
/// eight bytes decides, if both are that long.
pub(crate) fn order_behind(key: &[u8], sought: Sought<'_>) -> Ordering
    ensures { AreBytesTo 8 key.now → AreBytesTo 8 (sought_key sought.entry) →
        head_of key.now ≡ head_of (sought_key sought.entry) →
        result ≡ bytes_cmp key.now (sought_key sought.entry) }
{
    let Sought::Name(mapping, name) = sought else {
        return order(key, sought);
    };
    if key.len() < 8 || name.len() < 8 {
        return order(key, sought);
    }
    mapping.order_to_key(rest(name), rest(key)).reverse()
}

/// What follows the first eight bytes.
fn rest(text: &[u8]) -> &[u8]
    requires { 8 ≤ length text.now }
    ensures { result.now ≡ drop 8 text.now }
{
    &text[8..]
}

/// The byte at a place of a key; 0 after its end.
fn key_byte_at(key: &[u8], place: usize) -> u8
    ensures byte { result ≡ get_or key.now place 0 }
    ensures small { result < 256 }
{
    if place < key.len() { key[place] } else { 0 }
}

/// The byte at a place of a name's key; 0 after its end.
fn name_byte_at(mapping: CaseMapping, name: &[u8], place: usize) -> u8
    ensures byte { result ≡ get_or (key_of mapping name.now) place 0 }
    ensures small { result < 256 }
{
    if place < name.len() {
        mapping.fold_byte(name[place])
    } else {
        0
    }
}

/// The head of a key: its first eight bytes as one number, so that keys are ordered as their
/// heads are if these differ.
pub(crate) fn key_head(key: &[u8]) -> u64
    ensures head { result ≡ head_of key.now }
    ensures bytes { AreBytesTo 8 key.now }
{
    u64::from_be_bytes([
        key_byte_at(key, 0),
        key_byte_at(key, 1),
        key_byte_at(key, 2),
        key_byte_at(key, 3),
        key_byte_at(key, 4),
        key_byte_at(key, 5),
        key_byte_at(key, 6),
        key_byte_at(key, 7),
    ])
}

/// The head of a name's key: the key's first eight bytes as one number, so that keys are ordered
/// as their heads are if these differ.
pub fn name_head(mapping: CaseMapping, name: &[u8]) -> u64
    ensures head { result ≡ head_of (key_of mapping name.now) }
    ensures bytes { AreBytesTo 8 (key_of mapping name.now) }
{
    u64::from_be_bytes([
        name_byte_at(mapping, name, 0),
        name_byte_at(mapping, name, 1),
        name_byte_at(mapping, name, 2),
        name_byte_at(mapping, name, 3),
        name_byte_at(mapping, name, 4),
        name_byte_at(mapping, name, 5),
        name_byte_at(mapping, name, 6),
        name_byte_at(mapping, name, 7),
    ])
}

/// The head of the key of what is looked for.
pub(crate) fn head(sought: Sought<'_>) -> u64
    ensures head { result ≡ head_of (sought_key sought.entry) }
    ensures bytes { AreBytesTo 8 (sought_key sought.entry) }
{
    match sought {
        Sought::Key(key) => key_head(key),
        Sought::Name(mapping, name) => name_head(mapping, name),
    }
}

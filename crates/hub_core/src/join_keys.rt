//! The keys by which channels were asked to be joined, and which of them the network confirmed.

ghost use Rattle.std.specs.Prelude.{◌≡◌, ◌<◌, ◌+◌, ◌∷◌, ◌&&◌, [], true, IfNone, IfOk, IfSome, OnOk, Some};
ghost use Rattle.std.specs.Prelude.{length, map, not, option_map};
ghost use Rattle.std.specs.List.{list_any};
ghost use Rattle.std.specs.Option.{option_map_or};
ghost use Rattle.hub_core.specs.JoinKeys.{ask, ask_all, asked_among, confirmed, first_key, is_one, items_of};
ghost use Rattle.hub_core.specs.JoinKeys.{join_key, join_keys, joined_in, known_among, known_if, known_key, later_keys};
ghost use Rattle.hub_core.specs.JoinKeys.{paired, unasked, unknown, with_room, without_oldest};

use irc_line::{Line, split_byte};
use irc_names::CaseMapping;
use net_view::{OutOfMemory, is_word};
use std::alloc::Global;

/// How many keys can wait for the network's answer.
const ASKED_LIMIT: usize = 64;

/// A channel, and a key by which it was asked to be joined.
#[derive(Drop)]
pub struct JoinKey {
    pub name: Vec<u8>,
    pub key: Vec<u8>,
    // whether our JOIN of the channel came since
    pub is_known: bool,
}

/// The first item of a list, and the list after its comma, if there is one.
fn next_item(list: Option<&[u8]>) -> Option<(&[u8], Option<&[u8]>)>
    ensures none { IfNone result (items_of (option_map (λ l. l.now) list.entry) ≡ []) }
    ensures some { IfSome result (λ x. items_of (option_map (λ l. l.now) list.entry)
        ≡ x.0.now ∷ items_of (option_map (λ l. l.now) x.1)) }
    ensures shorter { IfSome result (λ x. option_map_or (λ l. length l.now + 1) x.1 0
        < option_map_or (λ l. length l.now + 1) list.entry 0) }
{
    let list = list?;
    match split_byte(b',', list) {
        Some((item, after)) => Some((item, Some(after))),
        None => Some((list, None)),
    }
}

/// The first key of a list, if it is a word, and the list after it.
fn next_key(list: Option<&[u8]>) -> (Option<&[u8]>, Option<&[u8]>)
    ensures key { option_map (λ key. key.now) result.0
        ≡ first_key (items_of (option_map (λ l. l.now) list.entry)) }
    ensures later { items_of (option_map (λ l. l.now) result.1)
        ≡ later_keys (items_of (option_map (λ l. l.now) list.entry)) }
{
    match next_item(list) {
        Some((key, later)) if is_word(key) => (Some(key), later),
        Some((_, later)) => (None, later),
        None => (None, None),
    }
}

/// Whether this is what is known of the channel of this name.
fn is_known_as(key: &JoinKey, mapping: CaseMapping, name: &[u8]) -> bool
    ensures { result ≡ (join_key key.now).known && is_one mapping name.now (join_key key.now).name }
{
    key.is_known && mapping.order(&key.name, name).is_eq()
}

/// Whether this is asked for the channel of this name, and not confirmed.
fn is_asked_as(key: &JoinKey, mapping: CaseMapping, name: &[u8]) -> bool
    ensures { result ≡ not (join_key key.now).known && is_one mapping name.now (join_key key.now).name }
{
    !key.is_known && mapping.order(&key.name, name).is_eq()
}

/// How many are not confirmed.
fn asked_count(keys: &Vec<JoinKey>) -> usize
    ensures { result ≡ length (asked_among (join_keys keys.now.items)) }
{
    let mut count = 0;
    for key in keys {
        if !key.is_known {
            count += 1;
        }
    }
    count
}

/// Takes the first one off that is not confirmed.
fn drop_oldest(keys: &mut Vec<JoinKey>)
    ensures { join_keys keys.new.items ≡ without_oldest (join_keys keys.old.items) }
{
    for place in 0..keys.len() {
        if !keys[place].is_known {
            keys.remove(place);
            return;
        }
    }
}

/// Makes room for one more that is not confirmed.
fn make_room(keys: &mut Vec<JoinKey>)
    ensures { join_keys keys.new.items ≡ with_room (join_keys keys.old.items) }
{
    if asked_count(keys) >= ASKED_LIMIT {
        drop_oldest(keys);
    }
}

/// Takes what was asked for a channel off.
fn drop_asked_for(keys: &mut Vec<JoinKey>, mapping: CaseMapping, name: &[u8])
    ensures { join_keys keys.new.items
        ≡ unasked (is_one mapping name.now) (join_keys keys.old.items) }
{
    keys.retain(|key| !is_asked_as(key, mapping, name));
}

/// Adds what is asked for a channel, in place of what was asked for it before.
fn ask(
    alloc: Global,
    keys: &mut Vec<JoinKey>,
    mapping: CaseMapping,
    name: &[u8],
    key: Option<&[u8]>,
) -> Result<(), OutOfMemory>
    ensures { OnOk result (join_keys keys.new.items
        ≡ ask mapping (name.now, option_map (λ k. k.now) key.entry) (join_keys keys.old.items)) }
{
    drop_asked_for(keys, mapping, name);
    let Some(key) = key else {
        return Ok(());
    };
    make_room(keys);
    let asked = JoinKey {
        name: name.to_vec(alloc)?,
        key: key.to_vec(alloc)?,
        is_known: false,
    };
    Ok(keys.push(asked)?)
}

/// Adds what is asked for each channel of a list.
fn ask_all(
    alloc: Global,
    keys: &mut Vec<JoinKey>,
    mapping: CaseMapping,
    names: Option<&[u8]>,
    words: Option<&[u8]>,
) -> Result<(), OutOfMemory>
    ensures { OnOk result (join_keys keys.new.items ≡ ask_all mapping
        (paired (items_of (option_map (λ l. l.now) names.entry)) (items_of (option_map (λ l. l.now) words.entry)))
        (join_keys keys.old.items)) }
{
    let (mut names, mut words) = (names, words);
    while let Some((name, more)) = next_item(names) {
        let (key, later) = next_key(words);
        ask(alloc, keys, mapping, name, key)?;
        (names, words) = (more, later);
    }
    Ok(())
}

/// One of them, copied.
fn copy_one(alloc: Global, key: &JoinKey) -> Result<JoinKey, OutOfMemory>
    ensures { IfOk result (λ copy. join_key copy ≡ join_key key.now) }
{
    Ok(JoinKey {
        name: key.name.to_vec(alloc)?,
        key: key.key.to_vec(alloc)?,
        is_known: key.is_known,
    })
}

/// All of them, copied.
fn copy_all(alloc: Global, keys: &Vec<JoinKey>) -> Result<Vec<JoinKey>, OutOfMemory>
    ensures { IfOk result (λ copy. join_keys copy.items ≡ join_keys keys.now.items) }
{
    let mut copies = Vec::new(alloc);
    for key in keys {
        copies.push(copy_one(alloc, key)?)?;
    }
    Ok(copies)
}

/// The keys after a JOIN of a client.
pub fn asked_for(
    alloc: Global,
    keys: &Vec<JoinKey>,
    mapping: CaseMapping,
    line: &Line,
) -> Result<Vec<JoinKey>, OutOfMemory>
    ensures { IfOk result (λ new. join_keys new.items
        ≡ ask_all mapping (joined_in line.now) (join_keys keys.now.items)) }
{
    let mut new = copy_all(alloc, keys)?;
    ask_all(alloc, &mut new, mapping, line.param(0), line.param(1))?;
    Ok(new)
}

/// The keys once this one is asked for the channel of this name.
pub fn expected(
    alloc: Global,
    keys: &Vec<JoinKey>,
    mapping: CaseMapping,
    name: &[u8],
    key: &[u8],
) -> Result<Vec<JoinKey>, OutOfMemory>
    ensures { IfOk result (λ new. join_keys new.items
        ≡ ask mapping (name.now, Some key.now) (join_keys keys.now.items)) }
{
    let mut new = copy_all(alloc, keys)?;
    ask(alloc, &mut new, mapping, name, Some(key))?;
    Ok(new)
}

/// Whether something is asked for the channel of this name.
fn is_asked(keys: &Vec<JoinKey>, mapping: CaseMapping, name: &[u8]) -> bool
    ensures { result ≡ list_any (λ k. not (join_key k).known && is_one mapping name.now (join_key k).name)
        keys.now.items }
{
    keys.iter().any(|key| is_asked_as(key, mapping, name))
}

/// Takes off what is known of the channel of this name.
pub fn drop_known(keys: &mut Vec<JoinKey>, mapping: CaseMapping, name: &[u8])
    ensures { join_keys keys.new.items
        ≡ unknown (is_one mapping name.now) (join_keys keys.old.items) }
{
    keys.retain(|key| !is_known_as(key, mapping, name));
}

/// Takes off what is not confirmed.
pub fn drop_asked(keys: &mut Vec<JoinKey>)
    ensures { join_keys keys.new.items ≡ known_among (join_keys keys.old.items) }
{
    keys.retain(|key| key.is_known);
}

/// Takes off what is known of all channels.
pub fn drop_known_all(keys: &mut Vec<JoinKey>)
    ensures { join_keys keys.new.items ≡ asked_among (join_keys keys.old.items) }
{
    keys.retain(|key| !key.is_known);
}

/// It is known from here on, if it is of the channel of this name.
fn confirm_one(key: &mut JoinKey, mapping: CaseMapping, name: &[u8])
    ensures { join_key key.new ≡ known_if (is_one mapping name.now) (join_key key.old) }
{
    if mapping.order(&key.name, name).is_eq() {
        key.is_known = true;
    }
}

/// What is of the channel of this name is known from here on.
fn confirm_each(keys: &mut [JoinKey], mapping: CaseMapping, name: &[u8])
    ensures { join_keys keys.new
        ≡ map (known_if (is_one mapping name.now)) (join_keys keys.old) }
{
    for key in keys.iter_mut() {
        confirm_one(key, mapping, name);
    }
}

/// The same of keys in a `Vec`.
fn confirm_all(keys: &mut Vec<JoinKey>, mapping: CaseMapping, name: &[u8])
    ensures { join_keys keys.new.items
        ≡ map (known_if (is_one mapping name.now)) (join_keys keys.old.items) }
{
    confirm_each(keys, mapping, name)
}

/// Takes our JOIN of the channel of this name: what is asked for it is known from here on.
#[tactic(auto, using(crate::proofs::Each::any_of))]
pub fn confirm(keys: &mut Vec<JoinKey>, mapping: CaseMapping, name: &[u8])
    ensures { join_keys keys.new.items
        ≡ confirmed (is_one mapping name.now) (join_keys keys.old.items) }
{
    if is_asked(keys, mapping, name) {
        drop_known(keys, mapping, name);
        confirm_all(keys, mapping, name);
    }
}

/// The key of the channel of this name, if it is known.
pub fn known_key<'a>(keys: &'a Vec<JoinKey>, mapping: CaseMapping, name: &[u8]) -> Option<&'a [u8]>
    ensures { option_map (λ key. key.now) result
        ≡ known_key mapping name.now (join_keys keys.now.items) }
{
    for key in keys {
        if is_known_as(key, mapping, name) {
            return Some(&key.key);
        }
    }
    None
}

//! Readers of a key whose value is a list of texts.

ghost use Rattle.std.specs.Prelude.{◌≡◌, ◌≤◌, Some, false, length, option_map, true, IfOk, IfSome};
ghost use Rattle.std.specs.Prelude.{IsTrue};
ghost use Rattle.std.specs.List.{list_all};
ghost use Rattle.toml.specs.Data.{get_member};
ghost use Rattle.toml.specs.View.{items_view, table_view, view};
ghost use Rattle.bnc_config.specs.Key.{word_of};
ghost use Rattle.bnc_config.specs.Allowed.{allows_text, is_text_list, is_text_or_list};
ghost use Rattle.bnc_config.specs.Document.{AreAddresses, AreCopied, Reads, addresses_at, fault_at};
ghost use Rattle.bnc_config.specs.Document.{optional_texts_at, texts_at, texts_in};

use crate::allowed::allows;
use crate::table::value_at;
use crate::{ConfigFault, Key, OutOfMemory, Text};
use std::alloc::Global;
use toml::{Table, Value};

/// Copies of the texts that a list has, if the key allows all of them; else `None`.
fn copied_texts(alloc: Global, values: &[Value], key: Key) -> Result<Option<Vec<Text>>, OutOfMemory>
    ensures { IfOk result (λ copies.
        AreCopied key (items_view values.now) (option_map (λ texts. texts.items) copies)) }
{
    let mut texts = Vec::with_capacity(alloc, values.len())?;
    for value in values {
        match value.as_str() {
            Some(text) if allows(key, text) => texts.push(Text::copy(alloc, text)?)?,
            _ => return Ok(None),
        }
    }
    Ok(Some(texts))
}

/// Copies of the texts of the list at a key, at most this many, if the key is there.
#[tactic(auto, using(crate::proofs::ItemsLemmas::item_count_view, crate::proofs::ItemsLemmas::texts_of_allowed, crate::proofs::ItemsLemmas::few_texts_of))]
pub(crate) fn texts_or_none(
    alloc: Global,
    table: &Table,
    key: Key,
    most: usize,
) -> Result<Option<Vec<Text>>, ConfigFault>
    ensures allowed { IfOk result (λ found. IfSome found (λ texts.
        IsTrue (list_all (allows_text key) texts.items) × (length texts.items ≤ most))) }
    ensures read { Reads (λ found. option_map (λ texts. texts.items) found) result
        (fault_at key true (is_text_list (allows_text key) most)
        (get_member (word_of key) (table_view table.now)))
        (optional_texts_at key (table_view table.now)) }
{
    let Some(value) = value_at(table, key) else {
        return Ok(None);
    };
    let Some(values) = value.as_array() else {
        return Err(ConfigFault::BadValue(key));
    };
    if values.len() > most {
        return Err(ConfigFault::BadValue(key));
    }
    match copied_texts(alloc, values.as_slice(), key)? {
        Some(texts) => Ok(Some(texts)),
        None => Err(ConfigFault::BadValue(key)),
    }
}

/// Copies of the texts of the list at a key, at most this many, which may be left out.
pub(crate) fn texts_at(
    alloc: Global,
    table: &Table,
    key: Key,
    most: usize,
) -> Result<Vec<Text>, ConfigFault>
    ensures allowed { IfOk result (λ texts.
        IsTrue (list_all (allows_text key) texts.items) × (length texts.items ≤ most)) }
    ensures read { Reads (λ texts. texts.items) result
        (fault_at key true (is_text_list (allows_text key) most)
        (get_member (word_of key) (table_view table.now)))
        (texts_at key (table_view table.now)) }
{
    match texts_or_none(alloc, table, key, most)? {
        Some(texts) => Ok(texts),
        None => Ok(Vec::new(alloc)),
    }
}

/// Copies of the texts of a value, one or a list of 1 to 8, if the key allows all of them; else
/// `None`.
#[tactic(auto, using(crate::proofs::ItemsLemmas::item_count_view))]
fn copied_addresses(
    alloc: Global,
    value: &Value,
    key: Key,
) -> Result<Option<Vec<Text>>, OutOfMemory>
    ensures { IfOk result (λ copies.
        AreAddresses key 8 (view value.now) (option_map (λ texts. texts.items) copies)) }
{
    if let Some(text) = value.as_str() {
        if !allows(key, text) {
            return Ok(None);
        }
        let mut texts = Vec::with_capacity(alloc, 1)?;
        texts.push(Text::copy(alloc, text)?)?;
        return Ok(Some(texts));
    }
    match value.as_array() {
        Some(values) if 1 <= values.len() && values.len() <= 8 => {
            copied_texts(alloc, values.as_slice(), key)
        }
        _ => Ok(None),
    }
}

/// The addresses of a value at a key.
#[tactic(auto, using(crate::proofs::ItemsLemmas::addresses_allowed, crate::proofs::ItemsLemmas::addresses_few, crate::proofs::ItemsLemmas::addresses_some))]
fn addresses_of(alloc: Global, value: &Value, key: Key) -> Result<Vec<Text>, ConfigFault>
    ensures allowed { IfOk result (λ texts. IsTrue (list_all (allows_text key) texts.items)) }
    ensures some { IfOk result (λ texts. 1 ≤ length texts.items) }
    ensures few { IfOk result (λ texts. length texts.items ≤ 8) }
    ensures read { Reads (λ texts. texts.items) result
        (fault_at key false (is_text_or_list (allows_text key) 8) (Some (view value.now)))
        (texts_in (view value.now)) }
{
    match copied_addresses(alloc, value, key)? {
        Some(texts) => Ok(texts),
        None => Err(ConfigFault::BadValue(key)),
    }
}

/// The addresses at a key that has to be there: one text, or a list of 1 to 8.
pub(crate) fn required_addresses(
    alloc: Global,
    table: &Table,
    key: Key,
) -> Result<Vec<Text>, ConfigFault>
    ensures allowed { IfOk result (λ texts. IsTrue (list_all (allows_text key) texts.items)) }
    ensures some { IfOk result (λ texts. 1 ≤ length texts.items) }
    ensures few { IfOk result (λ texts. length texts.items ≤ 8) }
    ensures read { Reads (λ texts. texts.items) result
        (fault_at key false (is_text_or_list (allows_text key) 8)
        (get_member (word_of key) (table_view table.now)))
        (addresses_at key (table_view table.now)) }
{
    match value_at(table, key) {
        Some(value) => addresses_of(alloc, value, key),
        None => Err(ConfigFault::Missing(key)),
    }
}

/// The same at a key that may be left out, and there are none then.
pub(crate) fn addresses_at(alloc: Global, table: &Table, key: Key) -> Result<Vec<Text>, ConfigFault>
    ensures allowed { IfOk result (λ texts. IsTrue (list_all (allows_text key) texts.items)) }
    ensures few { IfOk result (λ texts. length texts.items ≤ 8) }
    ensures read { Reads (λ texts. texts.items) result
        (fault_at key true (is_text_or_list (allows_text key) 8)
        (get_member (word_of key) (table_view table.now)))
        (addresses_at key (table_view table.now)) }
{
    match value_at(table, key) {
        Some(value) => addresses_of(alloc, value, key),
        None => Ok(Vec::new(alloc)),
    }
}

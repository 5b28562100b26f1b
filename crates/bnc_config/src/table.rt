//! Readers of one key of a table.

ghost use Rattle.std.specs.Prelude.{◌≡◌, ◌≤◌, option_map, false, true, IfOk, IfSome};
ghost use Rattle.std.specs.Prelude.{IsTrue};
ghost use Rattle.std.specs.List.{list_all};
ghost use Rattle.toml.specs.Data.{get_member};
ghost use Rattle.toml.specs.View.{view, items_view, table_view};
ghost use Rattle.bnc_config.specs.Key.{word_of};
ghost use Rattle.bnc_config.specs.Allowed.{allows_text, is_flag, is_list_where, is_number_within};
ghost use Rattle.bnc_config.specs.Allowed.{is_table, is_text_where};
ghost use Rattle.bnc_config.specs.Document.{Reads, barred_fault, fault_at, flag_or, items_of};
ghost use Rattle.bnc_config.specs.Document.{number_at, optional_table_at, optional_text_at};
ghost use Rattle.bnc_config.specs.Document.{text_at};

use crate::allowed::allows;
use crate::{ConfigFault, Key, Text};
use std::alloc::Global;
use toml::{Table, Value};

/// The value at a key of its table.
pub(crate) fn value_at<'t>(table: &'t Table, key: Key) -> Option<&'t Value>
    ensures { option_map (λ value. view value.now) result
        ≡ get_member (word_of key) (table_view table.now) }
{
    table.get(key.word())
}

/// The text at a key that has to be there, whatever it is.
pub(crate) fn any_text<'t>(table: &'t Table, key: Key) -> Result<&'t str, ConfigFault>
    ensures { Reads (λ text. text.now) result
        (fault_at key false (is_text_where (λ _. true))
        (get_member (word_of key) (table_view table.now)))
        (text_at key (table_view table.now)) }
{
    let Some(value) = value_at(table, key) else {
        return Err(ConfigFault::Missing(key));
    };
    match value.as_str() {
        Some(text) => Ok(text),
        None => Err(ConfigFault::BadValue(key)),
    }
}

/// The text at a key that has to be there, one that the key allows.
pub(crate) fn allowed_text<'t>(table: &'t Table, key: Key) -> Result<&'t str, ConfigFault>
    ensures allowed { IfOk result (λ text. IsTrue (allows_text key text.now)) }
    ensures read { Reads (λ text. text.now) result
        (fault_at key false (is_text_where (allows_text key))
        (get_member (word_of key) (table_view table.now)))
        (text_at key (table_view table.now)) }
{
    let Some(value) = value_at(table, key) else {
        return Err(ConfigFault::Missing(key));
    };
    match value.as_str() {
        Some(text) if allows(key, text) => Ok(text),
        _ => Err(ConfigFault::BadValue(key)),
    }
}

/// A copy of the text at a key that has to be there.
pub(crate) fn required_text(alloc: Global, table: &Table, key: Key) -> Result<Text, ConfigFault>
    ensures allowed { IfOk result (λ text. IsTrue (allows_text key text)) }
    ensures read { Reads (λ text. text) result
        (fault_at key false (is_text_where (allows_text key))
        (get_member (word_of key) (table_view table.now)))
        (text_at key (table_view table.now)) }
{
    Ok(Text::copy(alloc, allowed_text(table, key)?)?)
}

/// The text at a key that may be left out.
pub(crate) fn text_or_none<'t>(table: &'t Table, key: Key) -> Result<Option<&'t str>, ConfigFault>
    ensures allowed { IfOk result
        (λ found. IfSome found (λ text. IsTrue (allows_text key text.now))) }
    ensures read { Reads (λ found. option_map (λ text. text.now) found) result
        (fault_at key true (is_text_where (allows_text key))
        (get_member (word_of key) (table_view table.now)))
        (optional_text_at key (table_view table.now)) }
{
    let Some(value) = value_at(table, key) else {
        return Ok(None);
    };
    match value.as_str() {
        Some(text) if allows(key, text) => Ok(Some(text)),
        _ => Err(ConfigFault::BadValue(key)),
    }
}

/// A copy of the text at a key that may be left out.
pub(crate) fn optional_text(
    alloc: Global,
    table: &Table,
    key: Key,
) -> Result<Option<Text>, ConfigFault>
    ensures allowed { IfOk result (λ found. IfSome found (λ text. IsTrue (allows_text key text))) }
    ensures read { Reads (λ text. text) result
        (fault_at key true (is_text_where (allows_text key))
        (get_member (word_of key) (table_view table.now)))
        (optional_text_at key (table_view table.now)) }
{
    match text_or_none(table, key)? {
        Some(text) => Ok(Some(Text::copy(alloc, text)?)),
        None => Ok(None),
    }
}

/// A fault if a key has any value.
pub(crate) fn bar(table: &Table, key: Key) -> Result<(), ConfigFault>
    ensures { Reads (λ none. none) result (barred_fault (table_view table.now) key) tt }
{
    match value_at(table, key) {
        Some(_) => Err(ConfigFault::BadValue(key)),
        None => Ok(()),
    }
}

/// The number at a key that may be left out, `least` to `most`, as the default is.
pub(crate) fn number_or(
    table: &Table,
    key: Key,
    default: u32,
    least: u32,
    most: u32,
) -> Result<u32, ConfigFault>
    requires { (least ≤ default) × (default ≤ most) }
    ensures within { IfOk result (λ number. (least ≤ number) × (number ≤ most)) }
    ensures read { Reads (λ number. number) result
        (fault_at key true (is_number_within least most)
        (get_member (word_of key) (table_view table.now)))
        (number_at default key (table_view table.now)) }
{
    let Some(value) = value_at(table, key) else {
        return Ok(default);
    };
    let Some(number) = value.as_integer() else {
        return Err(ConfigFault::BadValue(key));
    };
    match u32::try_from(number) {
        Ok(number) if least <= number && number <= most => Ok(number),
        _ => Err(ConfigFault::BadValue(key)),
    }
}

/// The flag at a key that may be left out, which then is the default.
pub(crate) fn flag_or(table: &Table, key: Key, default: bool) -> Result<bool, ConfigFault>
    ensures { Reads (λ flag. flag) result
        (fault_at key true is_flag (get_member (word_of key) (table_view table.now)))
        (flag_or default key (table_view table.now)) }
{
    let Some(value) = value_at(table, key) else {
        return Ok(default);
    };
    match value.as_bool() {
        Some(flag) => Ok(flag),
        None => Err(ConfigFault::BadValue(key)),
    }
}

/// The table at a key that may be left out.
pub(crate) fn table_or_none<'t>(
    table: &'t Table,
    key: Key,
) -> Result<Option<&'t Table>, ConfigFault>
    ensures { Reads (λ found. option_map (λ inner. table_view inner.now) found) result
        (fault_at key true is_table (get_member (word_of key) (table_view table.now)))
        (optional_table_at key (table_view table.now)) }
{
    let Some(value) = value_at(table, key) else {
        return Ok(None);
    };
    match value.as_table() {
        Some(inner) => Ok(Some(inner)),
        None => Err(ConfigFault::BadValue(key)),
    }
}

/// Whether each of the values is a table.
fn are_tables(values: &[Value]) -> bool
    ensures { result ≡ list_all (λ value. is_table (view value)) values.now }
{
    values.iter().all(|value| value.is_table())
}

/// The tables of the list at a key, which may be left out.
#[tactic(auto, using(crate::proofs::ItemsLemmas::all_items_view))]
pub(crate) fn tables_at<'t>(table: &'t Table, key: Key) -> Result<&'t [Value], ConfigFault>
    ensures { Reads (λ values. items_view values.now) result
        (fault_at key true (is_list_where is_table)
        (get_member (word_of key) (table_view table.now)))
        (items_of (get_member (word_of key) (table_view table.now))) }
{
    let Some(value) = value_at(table, key) else {
        return Ok(&[]);
    };
    let Some(values) = value.as_array() else {
        return Err(ConfigFault::BadValue(key));
    };
    if !are_tables(values.as_slice()) {
        return Err(ConfigFault::BadValue(key));
    }
    Ok(values.as_slice())
}

//! Keys of a settings file that no setting has, such as misspelt ones.

use crate::table::value_at;
use crate::{Key, OutOfMemory, Text};
use std::alloc::Global;
use toml::{Table, Value};

/// Whether a setting has this path.
fn is_known(path: &str) -> bool {
    Key::ALL.iter().any(|key| key.path() == path)
}

/// Adds the keys of a table that no setting has, each once; `above` is the path of the table and a dot.
fn add_unknown(
    alloc: Global,
    table: &Table,
    above: &str,
    found: &mut Vec<Text>,
) -> Result<(), OutOfMemory> {
    for name in table.keys() {
        let path = format!(in alloc; "{above}{name}")?;
        let is_there = found.iter().any(|other| other.as_str() == path.as_str());
        if !is_there && !is_known(path.as_str()) {
            found.push(Text::copy(alloc, path.as_str())?)?;
        }
    }
    Ok(())
}

/// The tables at a key: one, or those of a list.
fn tables_at<'t>(table: &'t Table, key: Key) -> &'t [Value] {
    match value_at(table, key).and_then(Value::as_array) {
        Some(values) => values.as_slice(),
        None => &[],
    }
}

/// Adds those of a user's table, and of its networks.
fn add_of_user(alloc: Global, user: &Table, found: &mut Vec<Text>) -> Result<(), OutOfMemory> {
    add_unknown(alloc, user, "user.", found)?;
    for value in tables_at(user, Key::UserNetwork) {
        if let Some(network) = value.as_table() {
            add_unknown(alloc, network, "user.network.", found)?;
        }
    }
    Ok(())
}

/// The keys of a file that no setting has, with their tables, as `user.network.nik`: each once, those
/// at the top first, then those of `[messages]`, `[playback]` and the users. None if the file is not
/// TOML.
pub fn unknown_keys(alloc: Global, text: &[u8]) -> Result<Vec<Text>, OutOfMemory> {
    let mut found = Vec::new(alloc);
    let Ok(table) = toml::table_from_slice(alloc, text) else {
        return Ok(found);
    };
    add_unknown(alloc, &table, "", &mut found)?;
    for (key, above) in [(Key::Messages, "messages."), (Key::Playback, "playback.")] {
        if let Some(inner) = value_at(&table, key).and_then(Value::as_table) {
            add_unknown(alloc, inner, above, &mut found)?;
        }
    }
    for value in tables_at(&table, Key::User) {
        if let Some(user) = value.as_table() {
            add_of_user(alloc, user, &mut found)?;
        }
    }
    Ok(found)
}

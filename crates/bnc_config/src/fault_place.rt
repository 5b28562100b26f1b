//! Where the first fault of a settings file is.

use crate::names::Names;
use crate::table::tables_at;
use crate::{ConfigFault, Key, NetworkConfig, UserConfig};
use std::alloc::Global;
use std::ops::Range;
use toml::{Table, Value};

/// Where the first fault of a settings file is.
#[derive(Clone, Copy, Debug, PartialEq, Eq)]
pub enum FaultPlace {
    /// In this line of the text, counted from 1.
    Line(usize),
    /// In the table of the user at this place, counted from 0.
    User(usize),
    /// In the table of the network at the second place, of the user at the first.
    Network(usize, usize),
}

/// The line in which a part of a text begins, counted from 1.
fn line_at(text: &[u8], part: &Range<usize>) -> usize {
    let before = &text[..part.start.min(text.len())];
    before
        .iter()
        .filter(|byte| **byte == b'\n')
        .count()
        .saturating_add(1)
}

/// The place of the first network with a fault among a user's.
fn faulty_network(alloc: Global, user: &Table) -> Option<usize> {
    let networks = tables_at(user, Key::UserNetwork).ok()?;
    let mut names = Names::new(alloc);
    networks.iter().position(|value| match value.as_table() {
        Some(network) => NetworkConfig::read(alloc, network, &mut names).is_err(),
        None => false,
    })
}

/// The place of the first user with a fault, and its table.
fn faulty_user<'t>(alloc: Global, users: &'t [Value]) -> Option<(usize, &'t Table)> {
    let mut names = Names::new(alloc);
    for (place, value) in users.iter().enumerate() {
        if let Some(user) = value.as_table() {
            if UserConfig::read(alloc, user, &mut names).is_err() {
                return Some((place, user));
            }
        }
    }
    None
}

/// How many networks the users have together, as far as a sum can hold them.
fn network_count(users: &[Value]) -> usize {
    let mut count = 0usize;
    for user in users.iter().filter_map(Value::as_table) {
        if let Ok(networks) = tables_at(user, Key::UserNetwork) {
            count = count.saturating_add(networks.len());
        }
    }
    count
}

/// Where a fault of this key is, which is one of a user or of a network.
fn place_of_key(alloc: Global, text: &[u8], key: Key) -> Option<FaultPlace> {
    let table = toml::table_from_slice(alloc, text).ok()?;
    let users = tables_at(&table, Key::User).ok()?;
    if users.len() <= 1 && network_count(users) <= 1 {
        return None;
    }
    let (user, inner) = faulty_user(alloc, users)?;
    if !key.path().starts_with("user.network.") {
        return Some(FaultPlace::User(user));
    }
    Some(FaultPlace::Network(user, faulty_network(alloc, inner)?))
}

/// Where the first fault of a file is: the line of a text that is not TOML; the table of a key of
/// a user or a network, if the file has several users or networks. `None` for other faults, and if
/// an allocation fails.
pub fn place_of_fault(alloc: Global, text: &[u8], fault: &ConfigFault) -> Option<FaultPlace> {
    match fault {
        ConfigFault::NotToml => match toml::table_from_slice(alloc, text) {
            Ok(_) => None,
            Err(error) => Some(FaultPlace::Line(line_at(text, &error.span()?))),
        },
        ConfigFault::Missing(key) | ConfigFault::BadValue(key) if key.path().starts_with("user.") =>
            { place_of_key(alloc, text, *key) }
        _ => None,
    }
}

//! What is wrong with the LIST of `attach --caps LIST`.

use crate::arguments::grammar;
use client_caps::{Cap, Caps, read_request};
use std::alloc::{AllocError, Global};

/// The names of all capabilities, with commas between them.
fn all_names(alloc: Global) -> Result<String, AllocError> {
    let mut names = String::new(alloc);
    for cap in Cap::ALL {
        if !names.is_empty() {
            names.push_str(", ")?;
        }
        names.push_str(str::from_utf8(cap.name()).unwrap_or(""))?;
    }
    Ok(names)
}

/// The first name of a list that no capability has.
fn unknown_in(list: &str) -> Option<&str> {
    for word in list.split([',', ' ']) {
        if read_request(Caps::none(), word.as_bytes()).is_none() {
            return Some(word.strip_prefix('-').unwrap_or(word));
        }
    }
    None
}

/// Which name after `--caps` no capability has, and the names that there are, as `error: unknown
/// capability 'sasl': there are multi-prefix, ..`. `None` if the words ask for no `attach`, or if each
/// name is that of a capability.
pub fn explain_caps<'a>(alloc: Global, words: &'a [&'a str]) -> Result<Option<String>, AllocError> {
    let Ok(matches) = grammar(alloc)?.try_get_matches_from(words) else {
        return Ok(None);
    };
    let Some(("attach", inner)) = matches.subcommand() else {
        return Ok(None);
    };
    match unknown_in(inner.get_str("caps").unwrap_or("")) {
        Some(name) => Ok(Some(format!(in alloc;
            "error: unknown capability '{name}': there are {}",
            all_names(alloc)?
        )?)),
        None => Ok(None),
    }
}

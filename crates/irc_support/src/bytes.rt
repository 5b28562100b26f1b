//! The bytes that tokens take.

ghost use Rattle.std.specs.Prelude.{◌≡◌, ◌+◌, ◌%◌, ◌^◌, option_map};
ghost use Rattle.irc_support.specs.Edits.{tokens_in};
ghost use Rattle.irc_support.specs.Weights.{settings_bytes};
ghost use Rattle.weights.specs.Costs.{setting_cost};
ghost use Rattle.weights.specs.Sums.{maybe_bytes};

use crate::tokens::Table;
use std::alloc::Allocator;
use weights::{SETTING, more};

/// The bytes of a token with a name of this length and this value.
pub fn token_bytes<A: Allocator>(name: usize, value: &Option<Vec<u8, A>>) -> u64
    ensures { result
        ≡ (setting_cost + name + maybe_bytes (option_map (λ v. v.items) value.now)) % 2 ^ 64 }
{
    let named = more(SETTING, name as u64);
    match value {
        Some(value) => more(named, value.len() as u64),
        None => named,
    }
}

/// The bytes of all tokens, counted anew.
pub fn counted<A: Allocator>(tokens: &Table<A>) -> u64
    ensures { result ≡ settings_bytes (tokens_in tokens.now.entries) % 2 ^ 64 }
{
    let mut bytes = 0;
    for (name, value) in tokens {
        bytes = more(bytes, token_bytes(name.len(), value));
    }
    bytes
}

//! The changes of a 005 line, made in one pass over the tokens (isupport draft, section 2).

ghost use Rattle.std.specs.Prelude.{◌≡◌, ◌<◌, ◌≤◌, ◌+◌, ◌%◌, ◌^◌, List, IfOk, MatchOption, false};
ghost use Rattle.std.specs.Prelude.{fold, slice_get, vec_len};
ghost use Rattle.irc_support.specs.Tokens.{Token, with_token};
ghost use Rattle.irc_support.specs.Edits.{tokens_in, token_in, edited, AreApart, is_kept, kept};
ghost use Rattle.irc_support.specs.Edits.{left_to};
ghost use Rattle.irc_support.specs.Weights.{settings_bytes};
ghost use Rattle.indexmap.specs.IndexMap.{spare};

use crate::OutOfMemory;
use crate::bytes::{counted, token_bytes};
use crate::tokens::{Edit, Table};
use indexmap::IndexSet;
use std::alloc::Allocator;
use std::hash::{BuildHasherDefault, FoldHasher};
use weights::{less, more};

type Names<A> = IndexSet<Vec<u8, A>, BuildHasherDefault<FoldHasher>, A>;

/// What a line leaves to do: first names go, then tokens are set. A name that the line removes goes
/// from its old place, wherever in the line that is, and what the line set before does not
/// count.
#[derive(Drop)]
pub struct Pending<A: Allocator> {
    removed: Names<A>,
    // the last change first
    set: Vec<(Vec<u8, A>, Option<Vec<u8, A>>), A>,
}

/// Whether the token at this place has none of these names.
fn stays<A: Allocator>(tokens: &Table<A>, names: &Names<A>, place: usize) -> bool
    ensures { MatchOption (slice_get tokens.now.entries place) (result ≡ false)
        (λ e. result ≡ is_kept names.now.keys e.0.items) }
{
    match tokens.get_index(place) {
        Some((name, _)) => !names.contains(name.as_slice()),
        None => false,
    }
}

/// Takes the tokens of these names away, in one pass: each token that stays moves to the front,
/// after those that stayed before it. The bytes of those before give the bytes of those that stay.
fn remove<A: Allocator + Copy>(tokens: &mut Table<A>, bytes: u64, names: &Names<A>) -> u64
    requires { bytes ≡ settings_bytes (tokens_in tokens.old.entries) % 2 ^ 64 }
    ensures entries { tokens_in tokens.new.entries
        ≡ kept names.now.keys (tokens_in tokens.old.entries) }
    ensures room { spare tokens.old ≤ spare tokens.new }
    ensures bytes { result ≡ settings_bytes (tokens_in tokens.new.entries) % 2 ^ 64 }
{
    if names.is_empty() {
        return bytes;
    }
    let mut kept = 0;
    for place in 0..tokens.len() {
        if stays(tokens, names, place) {
            tokens.swap_indices(kept, place);
            kept += 1;
        }
    }
    tokens.truncate(kept);
    counted(tokens)
}

/// Sets a token. The bytes of the tokens before give those after.
#[tactic(auto, using(crate::proofs::TokenTable::tokens_in_insert_entry))]
fn set<A: Allocator + Copy>(
    tokens: &mut Table<A>,
    bytes: u64,
    name: Vec<u8, A>,
    value: Option<Vec<u8, A>>,
) -> u64
    requires room { 0 < spare tokens.old }
    requires bytes { bytes ≡ settings_bytes (tokens_in tokens.old.entries) % 2 ^ 64 }
    ensures after { tokens_in tokens.new.entries
        ≡ with_token (tokens_in tokens.old.entries) (token_in (name, value)) }
    ensures room { spare tokens.old ≤ spare tokens.new + 1 }
    ensures bytes { result ≡ settings_bytes (tokens_in tokens.new.entries) % 2 ^ 64 }
{
    let named = name.len();
    let with_it = more(bytes, token_bytes(named, &value));
    match tokens.insert(name, value) {
        Ok(Some(before)) => less(with_it, token_bytes(named, &before)),
        Ok(None) => with_it,
        Err(_) => unreachable!(),
    }
}

impl<A: Allocator + Copy> Pending<A> {
    /// What these changes leave to do, from the last to the first. It has all the memory that it
    /// needs.
    pub fn of(alloc: A, edits: Vec<Edit<A>, A>) -> Result<Pending<A>, OutOfMemory>
        ensures { IfOk result (λ pending. (settings : List Token) → AreApart settings →
            fold edited settings edits.items
            ≡ left_to pending.removed.keys pending.set.items settings) }
    {
        let mut removed = IndexSet::new(alloc);
        let mut set = Vec::new(alloc);
        let mut left = edits;
        while let Some(edit) = left.pop() {
            match edit {
                Edit::Remove(name) => {
                    removed.insert(name)?;
                }
                Edit::Set(name, value) => {
                    if !removed.contains(name.as_slice()) {
                        set.push((name, value))?;
                    }
                }
            }
        }
        Ok(Pending { removed, set })
    }

    /// How many tokens are set.
    pub fn set_count(&self) -> usize
        ensures { result ≡ vec_len self.now.set }
    {
        self.set.len()
    }

    /// Does what is left to do. There is room for all of it. The bytes of the tokens before give
    /// those after.
    #[tactic(auto, using(crate::proofs::PendingTokens::with_all_push))]
    pub fn make(self, tokens: &mut Table<A>, bytes: u64) -> u64
        requires room { vec_len self.set ≤ spare tokens.old }
        requires bytes { bytes ≡ settings_bytes (tokens_in tokens.old.entries) % 2 ^ 64 }
        ensures after { tokens_in tokens.new.entries
            ≡ left_to self.removed.keys self.set.items (tokens_in tokens.old.entries) }
        ensures bytes { result ≡ settings_bytes (tokens_in tokens.new.entries) % 2 ^ 64 }
    {
        let Pending {
            removed,
            set: mut left,
        } = self;
        let mut bytes = remove(tokens, bytes, &removed);
        while let Some((name, value)) = left.pop() {
            bytes = set(tokens, bytes, name, value);
        }
        bytes
    }
}

//! The tokens of 005 RPL_ISUPPORT in a table, in their order (isupport draft, section 2).

ghost use Rattle.std.specs.Prelude.{◌≡◌, ℕ, List, IfOk, option_map, fold, unwrap_or};
ghost use Rattle.irc_support.specs.Tokens.{Token, after_param, token_params, value_of};
ghost use Rattle.irc_support.specs.Edits.{tokens_in, edited, edited_if};

use crate::OutOfMemory;
use crate::cuts::cut;
use indexmap::IndexMap;
use irc_line::Line;
use std::alloc::Allocator;
use std::hash::{BuildHasherDefault, FoldHasher};

/// The tokens: each name with its value, if a `=` followed it.
pub type Table<A> = IndexMap<Vec<u8, A>, Option<Vec<u8, A>>, BuildHasherDefault<FoldHasher>, A>;

/// A change of the tokens with all the memory that it needs.
#[derive(Drop)]
pub enum Edit<A: Allocator> {
    /// The name gets this value.
    Set(Vec<u8, A>, Option<Vec<u8, A>>),
    /// The name goes.
    Remove(Vec<u8, A>),
}

fn copied<A: Allocator>(alloc: A, value: Option<&[u8]>) -> Result<Option<Vec<u8, A>>, OutOfMemory>
where
    A: Drop,
    ensures { IfOk result
        (λ copy. option_map (λ v. v.items) copy ≡ option_map (λ v. v.now) value.entry) }
{
    match value {
        Some(value) => Ok(Some(Vec::from_slice(alloc, value)?)),
        None => Ok(None),
    }
}

/// What one parameter does to the tokens; nothing if it has no name.
fn edit_of<A: Allocator + Copy>(alloc: A, param: &[u8]) -> Result<Option<Edit<A>>, OutOfMemory>
    ensures { IfOk result
        (λ edit. (settings : List Token) →
        edited_if settings edit ≡ after_param settings param.now) }
{
    if let [b'-', name @ ..] = param {
        return Ok(Some(Edit::Remove(Vec::from_slice(alloc, name)?)));
    }
    let (name, value) = cut(b'=', param);
    if name.is_empty() {
        return Ok(None);
    }
    let name = Vec::from_slice(alloc, name)?;
    let value = copied(alloc, value)?;
    Ok(Some(Edit::Set(name, value)))
}

/// What a 005 line does to the tokens, in order.
pub fn edits<A: Allocator + Copy, B: Allocator>(
    alloc: A,
    line: &Line<B>,
) -> Result<Vec<Edit<A>, A>, OutOfMemory>
    ensures { IfOk result
        (λ edits. (settings : List Token) →
        fold edited settings edits.items
        ≡ fold after_param settings (token_params line.now.params)) }
{
    let mut edits = Vec::new(alloc);
    let count = line.param_count().saturating_sub(2);
    for param in line.params().skip(1).take(count) {
        if let Some(edit) = edit_of(alloc, param)? {
            edits.push(edit)?;
        }
    }
    Ok(edits)
}

/// The value of the token of this name, empty if there is no `=`; `None` if there is no such
/// token.
fn value<'a, A: Allocator>(tokens: &'a Table<A>, name: &[u8]) -> Option<&'a [u8]>
    ensures { option_map (λ value. value.now) result
        ≡ value_of (tokens_in tokens.now.entries) name.now }
{
    match tokens.get(name)? {
        Some(value) => Some(value.as_slice()),
        None => Some(&[]),
    }
}

/// The value of the token of this name, or the default if there is no such token.
pub fn value_or<'a, A: Allocator>(tokens: &'a Table<A>, name: &[u8], default: &'a [u8]) -> &'a [u8]
    ensures { result.now
        ≡ unwrap_or (value_of (tokens_in tokens.now.entries) name.now) default.now }
{
    match value(tokens, name) {
        Some(value) => value,
        None => default,
    }
}

//! An entry of a table.

ghost use Rattle.std.specs.Prelude.{◌≡◌, IfOk};
ghost use Rattle.network_tables.specs.Head.{head_of, AreBytesTo, AreBytesTo-prop};

use crate::OutOfMemory;
use std::alloc::Allocator;

/// A value under its key.
#[derive(Drop)]
pub struct Entry<V, A: Allocator> {
    pub key: Vec<u8, A>,
    pub value: V,
    /// Where to look first, elsewhere, for what belongs to it. It may be any number.
    pub near: usize,
}

/// A value under its key; nothing about it is known elsewhere.
pub(crate) fn new_entry<V: Drop, A: Allocator + Copy>(
    alloc: A,
    key: Vec<u8, A>,
    value: V,
) -> Result<Box<Entry<V, A>, A>, OutOfMemory>
    ensures key { IfOk result (λ entry. entry.value.key.items ≡ key.items) }
    ensures value { IfOk result (λ entry. entry.value.value ≡ value) }
{
    Ok(Box::new(
        alloc,
        Entry {
            key,
            value,
            near: 0,
        },
    )?)
}

/// An entry behind a pointer, with the first eight bytes of its key beside it: what follows a
/// place is small to move, and a search seldom reads a key.
#[derive(Drop)]
pub(crate) struct Slot<V, A: Allocator> {
    pub(crate) head: u64,
    pub(crate) entry: Box<Entry<V, A>, A>,
    ghost same: { head ≡ head_of entry.value.key.items },
    ghost bytes: { AreBytesTo 8 entry.value.key.items } by { AreBytesTo-prop 8 _ },
}

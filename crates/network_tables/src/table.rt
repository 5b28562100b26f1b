//! Values by key.

ghost use Rattle.std.specs.Prelude.{◌≡◌, ◌+◌, ◌<◌, ◌≤◌, ◌%◌, ◌^◌, length, map, slice_get, slice_set, sum_by, IsSome};
ghost use Rattle.std.specs.Prelude.{IfOk, vec_len, vec_capacity, OnOk, OnErr};
ghost use Rattle.std.specs.List.{insert, remove};
ghost use Rattle.std.specs.List.Sorted.{IsBinarySearchResult, IsSearchInRange};
ghost use Rattle.std.specs.Option.{option_map};
ghost use Rattle.std.specs.FinMap as fin;
ghost use Rattle.net_view.specs.Names.{bytes_cmp};
ghost use Rattle.network_tables.specs.Table.{entry_now, swapped_in, swapped_out};
ghost use Rattle.network_tables.specs.Sought.{sought_key};
ghost use Rattle.network_tables.specs.Head.{head_of, AreBytesTo};
ghost use Rattle.network_tables.specs.Table.{entry_bytes, entry_of, map_bytes};

use crate::OutOfMemory;
use crate::marks::{is_up, marks_of, put_up};
use crate::slot::{Entry, Slot};
use crate::sought::{Sought, head, key_head, order, order_behind};
use crate::table_value::TableValue;
use block_list::Blocks;
use std::alloc::Allocator;
use std::cmp::Ordering;
use std::marker::Model;
use std::mem;
use weights::{less, more};

/// How many entries a table has at least that has marks.
const FEWEST_MARKED: usize = 64;

/// How many entries come at least before its marks are made again, so that those of entries that
/// went are taken down.
const FEWEST_NEW: usize = 256;

/// Values by key, in the order of the keys, byte by byte.
#[derive(Drop)]
pub struct Table<V: TableValue, A: Allocator> {
    pub(crate) entries: Blocks<Slot<V, A>, A>,
    // those of all entries are up; none in a table that is small
    pub(crate) marks: Vec<bool, A>,
    // how many entries came since they were made, at most the greatest count
    came: usize,
    // how many bytes the entries keep
    pub(crate) bytes: u64,
}

impl<V: TableValue, A: Allocator> Model for Table<V, A> {
    ghost use Rattle.network_tables.specs.Table.{Tabled, tabled_code, tabled, IsTabled};

    ghost Value = { Tabled V };

    ghost coded = { tabled_code V.code };

    ghost view = { λ t. tabled t.entries };

    ghost invariant = { λ t. IsTabled V.weight t.entries t.marks.items t.bytes };
}

/// How an entry compares to what is looked for, whose head is this.
#[tactic(auto, using(crate::proofs::HeadLemmas::by_heads, crate::proofs::HeadLemmas::level))]
fn order_by_head<V, A: Allocator>(slot: &Slot<V, A>, head: u64, sought: Sought<'_>) -> Ordering
    ensures { head ≡ head_of (sought_key sought.entry) → AreBytesTo 8 (sought_key sought.entry) →
        result ≡ bytes_cmp slot.now.entry.value.key.items (sought_key sought.entry) }
{
    match slot.head.cmp(&head) {
        Ordering::Equal => order_behind(&slot.entry.key, sought),
        apart => apart,
    }
}

/// Where the entry that is looked for is, or would be, by its head.
fn place_of<V, A: Allocator>(
    slots: &Blocks<Slot<V, A>, A>,
    head: u64,
    sought: Sought<'_>,
) -> Result<usize, usize>
    requires head { head ≡ head_of (sought_key sought) }
    requires bytes { AreBytesTo 8 (sought_key sought) }
    ensures bound { IsSearchInRange result (length slots.now.items) }
    ensures place { IsBinarySearchResult
        (λ slot. bytes_cmp slot.entry.value.key.items (sought_key sought.entry)) slots.now.items
        result }
{
    slots.binary_search_by(
        |slot: &Slot<V, A>| -> Ordering
            ensures { head ≡ head_of (sought_key sought.entry) →
                AreBytesTo 8 (sought_key sought.entry) → result
                ≡ bytes_cmp slot.now.entry.value.key.items (sought_key sought.entry) }
        { order_by_head(slot, head, sought) },
    )
}

/// Where the entry that is looked for is, or would be. It is first looked for at the place
/// near which it was last, if there is one; that place is then where it was found.
fn place_near<V, A: Allocator>(
    slots: &Blocks<Slot<V, A>, A>,
    near: &mut Option<usize>,
    sought: Sought<'_>,
) -> Result<usize, usize>
    ensures bound { IsSearchInRange result (length slots.now.items) }
    ensures place { IsBinarySearchResult
        (λ slot. bytes_cmp slot.entry.value.key.items (sought_key sought.entry)) slots.now.items
        result }
{
    if let Some(last) = *near {
        if last < slots.len() {
            if order(&slots.at(last).entry.key, sought).is_eq() {
                return Ok(last);
            }
        }
    }
    match place_of(slots, head(sought), sought) {
        Ok(place) => {
            *near = Some(place);
            Ok(place)
        }
        Err(place) => Err(place),
    }
}

/// Puts an item at a place, for which there is room.
pub(crate) fn insert_at<T: Drop, A: Allocator>(items: &mut Vec<T, A>, place: usize, item: T)
    requires place { place ≤ vec_len items.old }
    requires room { vec_len items.old < vec_capacity items.old }
    ensures items { items.new.items ≡ insert items.old.items place item }
    ensures len { vec_len items.new ≡ vec_len items.old + 1 }
    ensures capacity { vec_capacity items.old ≤ vec_capacity items.new }
{
    let _ = items.insert(place, item);
}

/// The item at a place.
pub(crate) fn item_at<T, A: Allocator>(items: &Vec<T, A>, place: usize) -> Option<&T>
    ensures { option_map (λ item. item.now) result ≡ slice_get items.now.items place }
{
    if place < items.len() {
        Some(&items[place])
    } else {
        None
    }
}

/// Puts an item in the place of another.
pub(crate) fn write_at<T: Drop, A: Allocator>(items: &mut Vec<T, A>, place: usize, item: T)
    requires { place < length items.old.items }
    ensures { items.new.items ≡ slice_set items.old.items place item }
{
    items[place] = item;
}

/// Takes out the item at a place.
pub(crate) fn remove_at<T: Drop, A: Allocator>(items: &mut Vec<T, A>, place: usize)
    requires { place < length items.old.items }
    ensures { items.new.items ≡ remove items.old.items place }
{
    let _ = items.remove(place);
}

/// How many bytes an entry keeps: its key, and its value.
pub(crate) fn entry_weight<V: TableValue, A: Allocator>(entry: &Entry<V, A>) -> u64
    ensures { result ≡ entry_bytes V.weight (entry.now.key.items, entry.now.value) % 2 ^ 64 }
{
    more(entry.key.len() as u64, entry.value.weight())
}

/// How many bytes all entries keep, counted anew.
pub(crate) fn slots_weight<V: TableValue, A: Allocator>(slots: &Blocks<Slot<V, A>, A>) -> u64
    ensures { result
        ≡ sum_by (entry_bytes V.weight) (map entry_of slots.now.items) % 2 ^ 64 }
{
    let mut bytes = 0;
    for place in 0..slots.len() {
        bytes = more(bytes, entry_weight(&slots.at(place).entry));
    }
    bytes
}

impl<V: TableValue, A: Allocator> Table<V, A> {
    /// A table without entries.
    #[tactic(auto, using(crate::proofs::TableLemmas::none_sorted, crate::proofs::BytesLemmas::none_weigh))]
    pub fn new(alloc: A) -> Table<V, A>
    where
        A: Copy,
        ensures { result.all ≡ fin.empty }
    {
        Table {
            entries: Blocks::new(alloc),
            marks: Vec::new(alloc),
            came: 0,
            bytes: 0,
        }
    }

    /// How many bytes the entries keep: their keys, and their values. One step.
    pub fn bytes(&self) -> u64
        ensures { result ≡ map_bytes V.weight self.now.all % 2 ^ 64 }
    {
        self.bytes
    }

    /// How many entries there are.
    #[tactic(auto, using(crate::proofs::TableLemmas::entry_places))]
    pub fn len(&self) -> usize
        ensures { result ≡ length (fin.entries self.now.all) }
    {
        self.entries.len()
    }

    /// The value that is looked for.
    pub fn get(&self, sought: Sought<'_>) -> Option<&V>
        ensures { option_map (λ value. value.now) result ≡ fin.get self.now.all (sought_key
            sought.entry) }
    {
        self.get_by(head(sought), sought)
    }

    /// The same, by the head of what is looked for.
    fn get_by(&self, head: u64, sought: Sought<'_>) -> Option<&V>
        requires head { head ≡ head_of (sought_key sought) }
        requires bytes { AreBytesTo 8 (sought_key sought) }
        ensures { option_map (λ value. value.now) result ≡ fin.get self.now.all (sought_key
            sought.entry) }
    {
        match place_of(&self.entries, head, sought) {
            Ok(place) => Some(&self.entries.at(place).entry.value),
            Err(_) => None,
        }
    }

    /// The same, near the place where it was last.
    pub fn get_near(&self, near: &mut Option<usize>, sought: Sought<'_>) -> Option<&V>
        ensures { option_map (λ value. value.now) result ≡ fin.get self.now.all (sought_key
            sought.entry) }
    {
        match place_near(&self.entries, near, sought) {
            Ok(place) => Some(&self.entries.at(place).entry.value),
            Err(_) => None,
        }
    }

    /// Whether there is an entry of what is looked for, by its head.
    pub(crate) fn contains_by(&self, head: u64, sought: Sought<'_>) -> bool
        requires head { head ≡ head_of (sought_key sought) }
        requires bytes { AreBytesTo 8 (sought_key sought) }
        ensures { result ≡ fin.contains_key self.now.all (sought_key sought.entry) }
    {
        is_up(&self.marks, head) && self.get_by(head, sought).is_some()
    }

    /// Whether it has grown enough to have marks, or so much has come that they say little.
    fn needs_marks(&self) -> bool {
        let len = self.entries.len();
        if self.marks.is_empty() {
            len >= FEWEST_MARKED
        } else {
            self.came >= len.max(FEWEST_NEW)
        }
    }

    /// The same, near the place where it was last.
    pub fn contains_near(&self, near: &mut Option<usize>, sought: Sought<'_>) -> bool
        ensures { result ≡ fin.contains_key self.now.all (sought_key sought.entry) }
    {
        self.get_near(near, sought).is_some()
    }

    /// Where to look first for what belongs to the entry at a place; nothing else is said about it.
    pub fn near_at(&self, place: usize) -> Option<usize> {
        if place < self.entries.len() {
            Some(self.entries.at(place).entry.near)
        } else {
            None
        }
    }

    /// The key and the value at a place.
    #[tactic(auto, using(crate::proofs::TableLemmas::entry_places))]
    pub fn at(&self, place: usize) -> Option<(&[u8], &V)>
        ensures { option_map entry_now result ≡ slice_get (fin.entries self.now.all) place }
    {
        if place < self.entries.len() {
            let slot = self.entries.at(place);
            Some((slot.entry.key.as_slice(), &slot.entry.value))
        } else {
            None
        }
    }
}

impl<V: TableValue + Drop, A: Allocator> Table<V, A> {
    /// Makes room for more entries.
    pub fn reserve(&mut self, more: usize) -> Result<(), OutOfMemory>
    where
        A: Copy,
        ensures all { self.new.all ≡ self.old.all }
        ensures room { OnOk result (more ≤ self.new.spare) }
    {
        self.entries.reserve(more)?;
        if self.needs_marks() {
            self.marks = marks_of(*self.marks.allocator(), &self.entries)?;
            self.came = 0;
        }
        Ok(())
    }

    /// Puts an entry in its place, or in the place of one of the same key.
    pub fn insert(&mut self, entry: Box<Entry<V, A>, A>)
        requires { 0 < self.old.spare }
        ensures all { self.new.all
            ≡ fin.insert self.old.all entry.value.key.items entry.value.value }
        ensures room { self.old.spare ≤ self.new.spare + 1 }
    {
        let mut near = None;
        self.insert_near(&mut near, entry);
    }

    /// The same, near the place where the one of the same key was last.
    pub fn insert_near(&mut self, near: &mut Option<usize>, entry: Box<Entry<V, A>, A>)
        requires { 0 < self.old.spare }
        ensures all { self.new.all
            ≡ fin.insert self.old.all entry.value.key.items entry.value.value }
        ensures room { self.old.spare ≤ self.new.spare + 1 }
    {
        let head = key_head(&entry.key);
        put_up(&mut self.marks, head);
        self.came = self.came.saturating_add(1);
        let found = place_near(&self.entries, near, Sought::Key(&entry.key));
        let bytes = entry_weight(&entry);
        let slot = Slot { head, entry };
        match found {
            Ok(place) => {
                let gone = entry_weight(&self.entries.at(place).entry);
                self.bytes = more(less(self.bytes, gone), bytes);
                *self.entries.at_mut(place) = slot;
            }
            Err(place) => {
                self.bytes = more(self.bytes, bytes);
                self.entries.insert(place, slot);
            }
        }
    }

    /// Changes the value that is looked for, near the place where it was last, and this one, each
    /// into the other's place; whether there is one.
    pub fn swap(&mut self, near: &mut Option<usize>, sought: Sought<'_>, value: &mut V) -> bool
        ensures found { result ≡ fin.contains_key self.old.all (sought_key sought.entry) }
        ensures all { self.new.all ≡ swapped_in self.old.all (sought_key sought.entry) value.old }
        ensures value { value.new ≡ swapped_out self.old.all (sought_key sought.entry) value.old }
        ensures room { self.new.spare ≡ self.old.spare }
    {
        match place_near(&self.entries, near, sought) {
            Ok(place) => {
                let came = value.weight();
                mem::swap(&mut self.entries.at_mut(place).entry.value, value);
                self.bytes = more(less(self.bytes, value.weight()), came);
                true
            }
            Err(_) => false,
        }
    }

    /// Takes out the entry that is looked for, which leaves room for one.
    pub fn remove(&mut self, sought: Sought<'_>) -> Option<Box<Entry<V, A>, A>>
        ensures value { option_map (λ entry. entry.value.value) result
            ≡ fin.get self.old.all (sought_key sought.entry) }
        ensures all { self.new.all ≡ fin.remove self.old.all (sought_key sought.entry) }
        ensures room { self.old.spare ≤ self.new.spare }
        ensures left { IsSome result → self.old.spare + 1 ≤ self.new.spare }
    {
        self.remove_by(head(sought), sought)
    }

    /// The same, by the head of what is looked for.
    pub(crate) fn remove_by(&mut self, head: u64, sought: Sought<'_>) -> Option<Box<Entry<V, A>, A>>
        requires head { head ≡ head_of (sought_key sought) }
        requires bytes { AreBytesTo 8 (sought_key sought) }
        ensures value { option_map (λ entry. entry.value.value) result
            ≡ fin.get self.old.all (sought_key sought.entry) }
        ensures all { self.new.all ≡ fin.remove self.old.all (sought_key sought.entry) }
        ensures room { self.old.spare ≤ self.new.spare }
        ensures left { IsSome result → self.old.spare + 1 ≤ self.new.spare }
    {
        if !is_up(&self.marks, head) {
            return None;
        }
        match place_of(&self.entries, head, sought) {
            Ok(place) => {
                let gone = self.entries.remove(place);
                self.bytes = less(self.bytes, entry_weight(&gone.entry));
                Some(gone.entry)
            }
            Err(_) => None,
        }
    }

    /// Takes out the entry of a key, if there is one.
    pub fn forget(&mut self, key: &[u8])
        ensures { self.new.all ≡ fin.remove self.old.all key.now }
    {
        let _ = self.remove(Sought::Key(key));
    }

    /// Takes out all entries.
    #[tactic(auto, using(crate::proofs::TableLemmas::none_sorted, crate::proofs::MarkLemmas::none_marked, crate::proofs::BytesLemmas::none_weigh))]
    pub fn clear(&mut self)
        ensures { self.new.all ≡ fin.empty }
    {
        self.entries.clear();
        self.bytes = 0;
    }
}

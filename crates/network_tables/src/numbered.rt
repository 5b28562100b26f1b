//! Values by key, each in a cell that has a number.

ghost use Rattle.std.specs.Prelude.{◌≡◌, ℕ, ◌+◌, ◌<◌, ◌≤◌, ◌%◌, ◌^◌, None, IsSome, OnOk};
ghost use Rattle.std.specs.Option.{option_map};
ghost use Rattle.std.specs.FinMap as fin;
ghost use Rattle.slab.specs.Slab.{ContainsKey, HasRoomFor, Updates, get as cell};
ghost use Rattle.network_tables.specs.Numbered.{AreTied, joined, with_value_in, value_out};
ghost use Rattle.network_tables.specs.Sought.{sought_key};
ghost use Rattle.network_tables.specs.Table.{entry_bytes, map_bytes, swapped_in, swapped_out};

use crate::OutOfMemory;
use crate::slot::Entry;
use crate::sought::{Sought, order};
use crate::table::Table;
use crate::table_value::TableValue;
use slab::Slab;
use std::alloc::Allocator;
use std::marker::Model;
use std::mem;
use weights::{less, more};

/// What a cell holds: a value, and the key that says whose it is.
#[derive(Drop)]
pub struct Keyed<V, A: Allocator> {
    pub key: Vec<u8, A>,
    pub value: V,
}

/// A value under its key, as it is to be kept in a cell.
#[derive(Drop)]
pub struct Fresh<V, A: Allocator> {
    pub known: Keyed<V, A>,
    pub number: Box<Entry<usize, A>, A>,
    ghost same: { number.value.key.items ≡ known.key.items },
}

/// Values by key. Each is in a cell, whose number stays as long as the value is kept. A caller that
/// has the number from before finds it in one step, and in a search if the cell holds another by
/// now.
#[derive(Drop)]
pub struct Numbered<V: TableValue, A: Allocator> {
    pub(crate) index: Table<usize, A>,
    pub(crate) cells: Slab<Keyed<V, A>, A>,
    pub(crate) spare: usize,
    // how many bytes the keys and values keep
    pub(crate) bytes: u64,
}

impl<V: TableValue, A: Allocator> Model for Numbered<V, A> {
    ghost use Rattle.network_tables.specs.Table.{Tabled, tabled_code};
    ghost use Rattle.network_tables.specs.Numbered.{joined, IsNumbered};

    ghost Value = { Tabled V };

    ghost coded = { tabled_code V.code };

    ghost view = { λ t. record { all = joined t.index.all t.cells; spare = t.spare } };

    ghost invariant = { λ t. IsNumbered V.weight t.index t.cells t.spare t.bytes };
}

/// The number of the cell of what is looked for. It is first looked for in the cell in which it
/// was last, if that is known.
fn number_of<V, A: Allocator>(
    index: &Table<usize, A>,
    cells: &Slab<Keyed<V, A>, A>,
    near: Option<usize>,
    sought: Sought<'_>,
) -> Option<usize>
    requires { AreTied index.now.all cells.now }
    ensures { result ≡ fin.get index.now.all (sought_key sought.entry) }
{
    if let Some(last) = near {
        if let Some(known) = cells.get(last) {
            if order(&known.key, sought).is_eq() {
                return Some(last);
            }
        }
    }
    index.get(sought).copied()
}

/// Changes the value in a cell and this one, each into the other's place.
fn swap_in<V, A: Allocator>(cells: &mut Slab<Keyed<V, A>, A>, number: usize, value: &mut V)
    requires { ContainsKey cells.old number }
    ensures cells { Updates cells.old cells.new number (with_value_in value.old (cell cells.old
        number)) }
    ensures value { value.new ≡ value_out (cell cells.old number) value.old }
    ensures room { (more : ℕ) → HasRoomFor cells.old more → HasRoomFor cells.new more }
{
    match cells.get_mut(number) {
        Some(known) => mem::swap(&mut known.value, value),
        None => unreachable!(),
    }
}

/// How many bytes a key and its value keep.
pub(crate) fn known_weight<V: TableValue, A: Allocator>(known: &Keyed<V, A>) -> u64
    ensures { result ≡ entry_bytes V.weight (known.now.key.items, known.now.value) % 2 ^ 64 }
{
    more(known.key.len() as u64, known.value.weight())
}

/// How many bytes all keys and values keep, counted anew.
pub(crate) fn cells_weight<V: TableValue, A: Allocator>(
    index: &Table<usize, A>,
    cells: &Slab<Keyed<V, A>, A>,
) -> u64
    requires { AreTied index.now.all cells.now }
    ensures { result ≡ map_bytes V.weight (joined index.now.all cells.now) % 2 ^ 64 }
{
    let mut bytes = 0;
    for place in 0..index.len() {
        if let Some((_key, number)) = index.at(place) {
            if let Some(known) = cells.get(*number) {
                bytes = more(bytes, known_weight(known));
            }
        }
    }
    bytes
}

impl<V: TableValue, A: Allocator> Numbered<V, A> {
    /// A table without values.
    #[tactic(auto, using(crate::proofs::NumberedLemmas::none_joined, crate::proofs::NumberedLemmas::none_tied))]
    pub fn new(alloc: A) -> Numbered<V, A>
    where
        A: Copy,
        ensures { result.all ≡ fin.empty }
    {
        Numbered {
            index: Table::new(alloc),
            cells: Slab::new(alloc),
            spare: 0,
            bytes: 0,
        }
    }

    /// How many bytes the keys and values keep. One step.
    pub fn bytes(&self) -> u64
        ensures { result ≡ map_bytes V.weight self.now.all % 2 ^ 64 }
    {
        self.bytes
    }

    /// The value that is looked for.
    pub fn get(&self, sought: Sought<'_>) -> Option<&V>
        ensures { option_map (λ value. value.now) result ≡ fin.get self.now.all (sought_key
            sought.entry) }
    {
        self.get_near(None, sought)
    }

    /// The same, which is first looked for in the cell in which it was last.
    #[tactic(auto, using(crate::proofs::NumberedLemmas::get_joined))]
    pub fn get_near(&self, near: Option<usize>, sought: Sought<'_>) -> Option<&V>
        ensures { option_map (λ value. value.now) result ≡ fin.get self.now.all (sought_key
            sought.entry) }
    {
        let number = number_of(&self.index, &self.cells, near, sought)?;
        match self.cells.get(number) {
            Some(known) => Some(&known.value),
            None => None,
        }
    }

    /// The number of the cell of this key, or the one that it would get now.
    pub fn number_for(&self, key: &[u8]) -> usize {
        match number_of(&self.index, &self.cells, None, Sought::Key(key)) {
            Some(number) => number,
            None => self.cells.vacant_key(),
        }
    }
}

impl<V: TableValue + Drop, A: Allocator> Numbered<V, A> {
    /// Makes room for more values.
    pub fn reserve(&mut self, more: usize) -> Result<(), OutOfMemory>
    where
        A: Copy,
        ensures all { self.new.all ≡ self.old.all }
        ensures room { OnOk result (more ≤ self.new.spare) }
    {
        if self.spare < more {
            self.spare = 0;
            self.index.reserve(more)?;
            self.cells.reserve(more)?;
            self.spare = more;
        }
        Ok(())
    }

    /// Changes the value that is looked for, first in the cell in which it was last, and this
    /// one, each into the other's place; whether there is one.
    pub fn swap(&mut self, near: &mut Option<usize>, sought: Sought<'_>, value: &mut V) -> bool
        ensures found { result ≡ fin.contains_key self.old.all (sought_key sought.entry) }
        ensures all { self.new.all ≡ swapped_in self.old.all (sought_key sought.entry) value.old }
        ensures value { value.new ≡ swapped_out self.old.all (sought_key sought.entry) value.old }
        ensures room { self.new.spare ≡ self.old.spare }
    {
        match number_of(&self.index, &self.cells, *near, sought) {
            Some(number) => {
                let came = value.weight();
                swap_in(&mut self.cells, number, value);
                self.bytes = more(less(self.bytes, value.weight()), came);
                *near = Some(number);
                true
            }
            None => false,
        }
    }

    /// Puts a value in a cell, if there is none of its key; the cell's number.
    pub fn put(&mut self, fresh: Fresh<V, A>) -> usize
        requires room { 0 < self.old.spare }
        requires none { fin.get self.old.all fresh.known.key.items ≡ None }
        ensures all { self.new.all
            ≡ fin.insert self.old.all fresh.known.key.items fresh.known.value }
        ensures room { self.old.spare ≤ self.new.spare + 1 }
    {
        let Fresh { known, mut number } = fresh;
        self.bytes = more(self.bytes, known_weight(&known));
        let cell = self.cells.insert_reserved(known);
        number.value = cell;
        self.index.insert(number);
        self.spare -= 1;
        cell
    }

    /// Takes out the value that is looked for, which leaves room for one.
    pub fn take(&mut self, sought: Sought<'_>) -> Option<(Keyed<V, A>, Box<Entry<usize, A>, A>)>
        ensures value { option_map (λ taken. taken.0.value) result
            ≡ fin.get self.old.all (sought_key sought.entry) }
        ensures all { self.new.all ≡ fin.remove self.old.all (sought_key sought.entry) }
        ensures room { self.old.spare ≤ self.new.spare }
        ensures left { IsSome result → 0 < self.new.spare }
    {
        let number = self.index.remove(sought)?;
        let known = self.cells.remove(number.value);
        self.bytes = less(self.bytes, known_weight(&known));
        self.spare = self.spare.saturating_add(1);
        Some((known, number))
    }

    /// Takes out what is looked for, if there is one.
    pub fn remove(&mut self, sought: Sought<'_>)
        ensures all { self.new.all ≡ fin.remove self.old.all (sought_key sought.entry) }
        ensures room { self.old.spare ≤ self.new.spare }
    {
        let _ = self.take(sought);
    }

    /// Takes out all values.
    #[tactic(auto, using(crate::proofs::NumberedLemmas::none_joined, crate::proofs::NumberedLemmas::none_tied))]
    pub fn clear(&mut self)
        ensures { self.new.all ≡ fin.empty }
    {
        self.spare = 0;
        self.bytes = 0;
        self.index.clear();
        self.cells.clear();
        self.cells.shrink_to_fit();
    }
}

//! The modes of a channel.

ghost use Rattle.std.specs.Prelude.{◌≡◌, ◌%◌, ◌^◌, IfOk, OnOk, length, map, slice_get, sum_by};
ghost use Rattle.std.specs.Option.{option_map};
ghost use Rattle.std.specs.Ordering.{nat_cmp};
ghost use Rattle.std.specs.List.Sorted.{IsBinarySearchResult, IsSearchInRange};
ghost use Rattle.std.specs.FinMap as fin;
ghost use Rattle.network_tables.specs.Modes.{mode_of};
ghost use Rattle.net_view.specs.Readers.{mode_parts};
ghost use Rattle.network_tables.specs.Weights.{mode_bytes, modes_bytes};

use crate::OutOfMemory;
use crate::table::{insert_at, item_at, remove_at, write_at};
use crate::text::{bytes, copy_of, text_weight};
use std::alloc::Allocator;
use std::cmp::Ordering;
use std::marker::Model;
use weights::{MODE, more};

/// A mode that is on.
#[derive(Drop)]
pub(crate) struct Mode<A: Allocator> {
    letter: u8,
    param: Option<Vec<u8, A>>,
}

/// The modes that are on, in the order of their letters' bytes.
#[derive(Drop)]
pub struct Modes<A: Allocator> {
    modes: Vec<Mode<A>, A>,
}

impl<A: Allocator> Model for Modes<A> {
    ghost use Rattle.std.specs.Prelude.{ℕ, Option};
    ghost use Rattle.std.specs.Ordering.{nat_cmp};
    ghost use Rattle.std.specs.Coded.{coded_ℕ, coded_list, coded_option};
    ghost use Rattle.std.specs.FinMap as fin;
    ghost use Rattle.irc_support.specs.Text.{Text};
    ghost use Rattle.network_tables.specs.Modes.{modes_of, AreModes};

    ghost Value = { fin.FinMap nat_cmp (Option Text) };

    ghost coded = { fin.code coded_ℕ (coded_option (coded_list coded_ℕ)) };

    ghost view = { λ m. modes_of m.modes.items };

    ghost invariant = { λ m. AreModes m.modes.items };
}

/// Where the mode of this letter is, or would be.
fn place_of<A: Allocator>(modes: &[Mode<A>], letter: u8) -> Result<usize, usize>
    ensures bound { IsSearchInRange result (length modes.now) }
    ensures place { IsBinarySearchResult (λ mode. nat_cmp mode.letter letter) modes.now result }
{
    modes.binary_search_by(
        |mode: &Mode<A>| -> Ordering
            ensures { result ≡ nat_cmp mode.now.letter letter }
        { mode.letter.cmp(&letter) },
    )
}

/// A copy of modes.
#[tactic(auto, using(crate::proofs::TableLemmas::copies))]
fn modes_copy<A: Allocator + Copy>(
    alloc: A,
    modes: &[Mode<A>],
) -> Result<Vec<Mode<A>, A>, OutOfMemory>
    ensures { IfOk result (λ copy. map mode_of copy.items ≡ map mode_of modes.now) }
{
    let mut copy = Vec::with_capacity(alloc, modes.len())?;
    for mode in modes {
        let param = copy_of(alloc, bytes(&mode.param))?;
        copy.push(Mode {
            letter: mode.letter,
            param,
        })?;
    }
    Ok(copy)
}

/// How many bytes modes keep.
fn modes_weight<A: Allocator>(modes: &[Mode<A>]) -> u64
    ensures { result ≡ sum_by mode_bytes (map mode_of modes.now) % 2 ^ 64 }
{
    let mut bytes = 0;
    for mode in modes {
        bytes = more(bytes, more(MODE, text_weight(&mode.param)));
    }
    bytes
}

impl<A: Allocator> Modes<A> {
    /// How many bytes the modes keep.
    #[tactic(auto, using(crate::proofs::TableLemmas::entry_places))]
    pub fn bytes(&self) -> u64
        ensures { result ≡ modes_bytes self.now % 2 ^ 64 }
    {
        modes_weight(&self.modes)
    }
}

impl<A: Allocator + Copy> Modes<A> {
    /// No modes.
    #[tactic(auto, using(crate::proofs::TableLemmas::none_sorted))]
    pub fn new(alloc: A) -> Modes<A>
        ensures { result ≡ fin.empty }
    {
        Modes {
            modes: Vec::new(alloc),
        }
    }

    /// A copy of the modes.
    pub fn copy(&self, alloc: A) -> Result<Modes<A>, OutOfMemory>
        ensures { IfOk result (λ copy. copy ≡ self.now) }
    {
        Ok(Modes {
            modes: modes_copy(alloc, &self.modes)?,
        })
    }

    /// Sets a mode.
    pub fn set(&mut self, letter: u8, param: Option<Vec<u8, A>>) -> Result<(), OutOfMemory>
        ensures { OnOk result (self.new ≡ fin.insert self.old letter (option_map (λ text.
            text.items) param)) }
    {
        match place_of(&self.modes, letter) {
            Ok(place) => write_at(&mut self.modes, place, Mode { letter, param }),
            Err(place) => {
                self.modes.reserve(1)?;
                insert_at(&mut self.modes, place, Mode { letter, param });
            }
        }
        Ok(())
    }

    /// Takes a mode off.
    pub fn unset(&mut self, letter: u8)
        ensures { self.new ≡ fin.remove self.old letter }
    {
        if let Ok(place) = place_of(&self.modes, letter) {
            remove_at(&mut self.modes, place);
        }
    }

    /// The mode at a place: its letter, and its parameter, if it has one.
    #[tactic(auto, using(crate::proofs::TableLemmas::entry_places))]
    pub fn at(&self, place: usize) -> Option<(u8, Option<&[u8]>)>
        ensures { option_map mode_parts result ≡ slice_get (fin.entries self.now) place }
    {
        match item_at(&self.modes, place) {
            Some(mode) => Some((mode.letter, bytes(&mode.param))),
            None => None,
        }
    }
}

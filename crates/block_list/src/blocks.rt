//! `Blocks`: a list in blocks of one size.

ghost use Rattle.std.specs.Prelude.{◌≡◌, ◌+◌, ◌<◌, ◌≤◌, [], length, slice_index_or, OnOk};
ghost use Rattle.std.specs.Borrow.{Lends, sem};
ghost use Rattle.std.specs.List.{insert, remove};

use crate::OutOfMemory;
use crate::moving::{BLOCK, close_up, make_room};
use std::alloc::Allocator;
use std::collections::VecDeque;
use std::marker::Model;

/// How many blocks there may be.
const MOST_BLOCKS: usize = 1 << 56;

/// A list in blocks of 128 items. Each block is full before the next one begins, so the place of an
/// item determines its block.
#[derive(Drop)]
pub struct Blocks<T, A: Allocator> {
    pub(crate) blocks: Vec<VecDeque<T, A>, A>,
    pub(crate) len: usize,
}

impl<T, A: Allocator> Model for Blocks<T, A> {
    ghost use Rattle.block_list.specs.Blocks.{Shelf, shelf_code, shelf, IsTiled};

    ghost Value = { Shelf T };

    ghost coded = { shelf_code T.code };

    ghost view = { λ b. shelf b.blocks.items b.len };

    ghost invariant = { λ b. IsTiled b.blocks.items b.len };
}

impl<T, A: Allocator> Blocks<T, A> {
    ghost use Rattle.block_list.specs.Lending.{lends_item};

    /// A list without items.
    pub fn new(alloc: A) -> Blocks<T, A>
        ensures { result.items ≡ [] }
    {
        Blocks {
            blocks: Vec::new(alloc),
            len: 0,
        }
    }

    /// How many items there are.
    #[tactic(auto, using(crate::proofs::Places::counted))]
    pub fn len(&self) -> usize
        ensures { result ≡ length self.now.items }
    {
        self.len
    }

    /// The item at a place.
    #[tactic(auto, using(crate::proofs::Places::inside, crate::proofs::Places::item_at, crate::proofs::Places::offset))]
    pub fn at(&self, place: usize) -> &T
        requires { place < length self.now.items }
        ensures { result.now ≡ slice_index_or self.now.items place result.now }
    {
        &self.blocks[place / BLOCK][place % BLOCK]
    }

    /// The item at a place, to write to.
    #[tactic(auto, using(crate::proofs::Places::inside, crate::proofs::Places::item_at, crate::proofs::Places::lent, crate::proofs::Places::offset))]
    pub fn at_mut(&mut self, place: usize) -> &mut T
        requires { place < length self.old.items }
        ensures* writes_back { sem 𝓛 (lends_item T.row A.row A.Allocator self.entry place result) }
        ensures value { result.now ≡ slice_index_or self.old.items place result.now }
    {
        let block = &mut self.blocks[place / BLOCK];
        &mut block[place % BLOCK]
    }
}

impl<T: Drop, A: Allocator> Blocks<T, A> {
    /// Makes room for more items, so that an insertion takes no memory.
    #[tactic(auto, using(crate::proofs::Gaps::items_more, crate::proofs::Gaps::tiled_more))]
    pub fn reserve(&mut self, more: usize) -> Result<(), OutOfMemory>
    where
        A: Copy,
        ensures items { self.new.items ≡ self.old.items }
        ensures room { OnOk result (more ≤ self.new.spare) }
    {
        let filled = self.len / BLOCK;
        let wanted = more / BLOCK + (more % BLOCK + self.len % BLOCK).div_ceil(BLOCK);
        while self.blocks.len() - filled < wanted {
            if self.blocks.len() == MOST_BLOCKS {
                return Err(OutOfMemory);
            }
            let block = VecDeque::with_capacity(*self.blocks.allocator(), BLOCK)?;
            self.blocks.push(block)?;
        }
        Ok(())
    }

    /// Puts an item at a place, for which there is room.
    pub fn insert(&mut self, place: usize, item: T)
        requires place { place ≤ length self.old.items }
        requires room { 0 < self.old.spare }
        ensures items { self.new.items ≡ insert self.old.items place item }
        ensures spare { self.new.spare + 1 ≡ self.old.spare }
    {
        make_room(&mut self.blocks, place / BLOCK, self.len);
        let _ = self.blocks[place / BLOCK].insert(place % BLOCK, item);
        self.len += 1;
    }

    /// Takes out the item at a place.
    pub fn remove(&mut self, place: usize) -> T
        requires { place < length self.old.items }
        ensures value { result ≡ slice_index_or self.old.items place result }
        ensures items { self.new.items ≡ remove self.old.items place }
        ensures spare { self.new.spare ≡ self.old.spare + 1 }
    {
        match self.blocks[place / BLOCK].remove(place % BLOCK) {
            Some(item) => {
                close_up(&mut self.blocks, place / BLOCK, self.len);
                self.len -= 1;
                item
            }
            None => unreachable!(),
        }
    }

    /// Takes out all items, and gives their memory back.
    pub fn clear(&mut self)
        ensures { self.new.items ≡ [] }
    {
        self.blocks.clear();
        self.len = 0;
    }
}

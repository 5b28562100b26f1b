//! Items in memory.

ghost use Rattle.std.specs.Prelude.{◌≡◌, ◌∷◌, ◌++◌, ◌+◌, ◌≤◌, [], IfOk, OnOk, OnErr, vec_len};
ghost use Rattle.std.specs.Vec.{vec_capacity};
ghost use Rattle.std.specs.VecDeque.{deque_len};
ghost use Rattle.hub_ends.specs.Came.{came};

use crate::OutOfMemory;
use crate::ends::Inlet;
use client_caps::Moment;
use net_view::Item;
use std::alloc::Global;
use std::collections::VecDeque;

/// An item that waits, with a copy of it.
#[derive(Drop)]
struct Twin {
    item: Item,
    copy: Item,
    moment: Moment,
    ghost same: { item ≡ copy },
}

/// Items that were put, and those of them that were taken, which are kept for good.
#[derive(Drop)]
pub struct MemoryInlet {
    alloc: Global,
    taken: Vec<(Item, Moment)>,
    waiting: VecDeque<Twin>,
    ghost room: { vec_len taken + deque_len waiting ≤ vec_capacity taken },
}

/// A copy of an item.
fn copy_of_item(alloc: Global, item: &Item) -> Result<Item, OutOfMemory>
    ensures { IfOk result (λ copy. copy ≡ item.now) }
{
    match item {
        Item::Line(line) => Ok(Item::Line(line.copy_in(alloc)?)),
        Item::Lost => Ok(Item::Lost),
    }
}

impl MemoryInlet {
    ghost use Rattle.hub_ends.specs.Memory.{taken_of, ahead_of};

    /// An inlet in which nothing was put.
    pub fn new(alloc: Global) -> MemoryInlet
        ensures taken { taken_of result ≡ [] }
        ensures ahead { ahead_of result ≡ [] }
    {
        MemoryInlet {
            alloc,
            taken: Vec::new(alloc),
            waiting: VecDeque::new(alloc),
        }
    }

    /// Puts an item after those that wait, and keeps a copy of it. `OutOfMemory` if an
    /// allocation was refused, and for no other cause; then nothing has changed.
    pub fn put(&mut self, item: Item, moment: Moment) -> Result<(), OutOfMemory>
        ensures taken { taken_of self.new ≡ taken_of self.old }
        ensures ok { OnOk result (ahead_of self.new
            ≡ ahead_of self.old ++ came (item, moment) ∷ []) }
        ensures err { OnErr result (ahead_of self.new ≡ ahead_of self.old) }
    {
        self.waiting.reserve(1)?;
        self.taken.reserve(self.waiting.len() + 1)?;
        let copy = copy_of_item(self.alloc, &item)?;
        self.waiting.push_back_reserved(Twin { item, copy, moment });
        Ok(())
    }
}

impl Inlet for MemoryInlet {
    ghost use Rattle.std.specs.Prelude.{true};
    ghost use Rattle.hub_ends.specs.Memory.{taken_of, ahead_of};

    ghost taken = { taken_of };

    ghost ahead = { ahead_of };

    ghost alone = { true };

    fn next(&mut self) -> Option<(Item, Moment)> {
        let Twin { item, copy, moment } = self.waiting.pop_front()?;
        self.taken.push_reserved((copy, moment));
        Some((item, moment))
    }
}

//! Items that move from block to block, so that each block is full before the next one begins.

ghost use Rattle.std.specs.Prelude.{◌≡◌, ◌*◌, ◌+◌, ◌-◌, ◌<◌, ◌≤◌, length};
ghost use Rattle.block_list.specs.Blocks.{items_of, IsTiled, IsShort};

use std::alloc::Allocator;
use std::collections::VecDeque;

/// How many items a full block has.
pub(crate) const BLOCK: usize = 128;

/// Makes room for one item in the block at `first`: from the last block down to the one after it,
/// each takes the last item of the one before.
pub(crate) fn make_room<T, A: Allocator>(
    blocks: &mut Vec<VecDeque<T, A>, A>,
    first: usize,
    len: usize,
)
    requires tiled { IsTiled blocks.old.items len }
    requires room { len < length blocks.old.items * 128 }
    requires first { first * 128 ≤ len }
    ensures items { items_of blocks.new.items ≡ items_of blocks.old.items }
    ensures count { length blocks.new.items ≡ length blocks.old.items }
    ensures short { IsShort blocks.new.items (len + 1) first }
{
    let mut hole = len / BLOCK;
    while first < hole {
        match blocks[hole - 1].pop_back() {
            Some(item) => blocks[hole].push_front_reserved(item),
            None => unreachable!(),
        }
        hole -= 1;
    }
}

/// Closes the gap that an item left in the block at `first`: from there on, each block takes the
/// first item of the next one.
pub(crate) fn close_up<T, A: Allocator>(
    blocks: &mut Vec<VecDeque<T, A>, A>,
    first: usize,
    len: usize,
)
    requires short { IsShort blocks.old.items len first }
    requires first { first * 128 < len }
    requires within { len ≤ length blocks.old.items * 128 }
    ensures items { items_of blocks.new.items ≡ items_of blocks.old.items }
    ensures count { length blocks.new.items ≡ length blocks.old.items }
    ensures tiled { IsTiled blocks.new.items (len - 1) }
{
    let last = (len - 1) / BLOCK;
    for hole in first..last {
        match blocks[hole + 1].pop_front() {
            Some(item) => blocks[hole].push_back_reserved(item),
            None => unreachable!(),
        }
    }
}

//! Marks by which most keys that a table does not hold are known without a search.

ghost use Rattle.std.specs.Prelude.{◌≡◌, IfOk, T, map, set, true};
ghost use Rattle.std.specs.FinMap as fin;
ghost use Rattle.network_tables.specs.Marks.{AreMarked, is_marked, mark_of};
ghost use Rattle.network_tables.specs.Table.{entry_of, tabled};
ghost use Rattle.net_view.specs.Names.{bytes_cmp};

use crate::OutOfMemory;
use crate::slot::Slot;
use block_list::Blocks;
use std::alloc::Allocator;

/// How many marks a table has. A prime, so that all eight bytes of a head count.
const COUNT: u64 = 1_021;

/// The place of the mark of a head.
fn mark_of(head: u64) -> usize
    ensures { result ≡ mark_of head }
{
    (head % COUNT) as usize
}

/// Whether the mark of a head is up; it is if there are no marks.
pub(crate) fn is_up<A: Allocator>(marks: &Vec<bool, A>, head: u64) -> bool
    ensures { result ≡ is_marked marks.now.items head }
{
    let place = mark_of(head);
    if place < marks.len() {
        marks[place]
    } else {
        true
    }
}

/// Puts the mark of a head up, if there are marks.
pub(crate) fn put_up<A: Allocator>(marks: &mut Vec<bool, A>, head: u64)
    ensures { marks.new.items ≡ set marks.old.items (mark_of head) true }
{
    let place = mark_of(head);
    if place < marks.len() {
        marks[place] = true;
    }
}

/// The marks of the keys of these slots, with all others down.
pub(crate) fn marks_of<V, A: Allocator>(
    alloc: A,
    slots: &Blocks<Slot<V, A>, A>,
) -> Result<Vec<bool, A>, OutOfMemory>
    requires { T (fin.is_sorted bytes_cmp (map entry_of slots.now.items)) }
    ensures { IfOk result (λ marks. AreMarked marks.items (tabled slots.now).all) }
{
    let mut marks = vec![in alloc; false; COUNT as usize]?;
    for place in 0..slots.len() {
        put_up(&mut marks, slots.at(place).head);
    }
    Ok(marks)
}

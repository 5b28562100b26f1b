//! Where an item is in a list in order.

ghost use Rattle.std.specs.Prelude.{◌≡◌, length};
ghost use Rattle.std.specs.Fn.{FnReturnsAt};
ghost use Rattle.std.specs.List.Sorted.{IsBinarySearchResult, IsSearchInRange};

use crate::blocks::Blocks;
use crate::moving::BLOCK;
use std::alloc::Allocator;
use std::cmp::Ordering;

impl<T, A: Allocator> Blocks<T, A> {
    /// Where an item is that is equal by `order`, or where one would be: first its block,
    /// then its place there.
    pub fn binary_search_by<F: Fn(&T) -> Ordering>(&self, order: F) -> Result<usize, usize>
        requires { F.IsAlwaysCallable order }
        ensures bound { IsSearchInRange result (length self.now.items) }
        ensures position { (ord : T → Ordering) →
            ((item : T) (answer : Ordering) → FnReturnsAt F.Fn order item answer →
            answer ≡ ord item) →
            IsBinarySearchResult ord self.now.items result }
    {
        if self.len == 0 {
            return Err(0);
        }
        let mut count = (self.len - 1) / BLOCK + 1;
        let mut first = 0;
        while count > 1 {
            let half = count / 2;
            let middle = first + half;
            if order(&self.blocks[middle][0]).is_gt() {
                count = half;
            } else {
                first = middle;
                count -= half;
            }
        }
        let block = &self.blocks[first];
        let mut size = block.len();
        let mut base = 0;
        while size > 1 {
            let half = size / 2;
            let middle = base + half;
            if order(&block[middle]).is_gt() {
                size = half;
            } else {
                base = middle;
                size -= half;
            }
        }
        match order(&block[base]) {
            Ordering::Equal => Ok(first * BLOCK + base),
            Ordering::Less => Err(first * BLOCK + base + 1),
            Ordering::Greater => Err(first * BLOCK + base),
        }
    }
}

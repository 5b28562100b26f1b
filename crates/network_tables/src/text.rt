//! Texts that may be absent.

ghost use Rattle.std.specs.Prelude.{◌≡◌, ◌%◌, ◌^◌, IfOk};
ghost use Rattle.std.specs.Option.{option_map};
ghost use Rattle.weights.specs.Sums.{maybe_bytes};

use crate::OutOfMemory;
use std::alloc::Allocator;

/// The bytes of a text, if there is one.
pub fn bytes<A: Allocator>(text: &Option<Vec<u8, A>>) -> Option<&[u8]>
    ensures { option_map (λ t. t.now) result ≡ option_map (λ t. t.items) text.now }
{
    // `as_deref` wants a lifetime of the allocator, which nothing gives here
    match text {
        Some(text) => Some(text.as_slice()),
        None => None,
    }
}

/// How many bytes a text keeps, if there is one.
pub fn text_weight<A: Allocator>(text: &Option<Vec<u8, A>>) -> u64
    ensures { result ≡ maybe_bytes (option_map (λ t. t.items) text.now) % 2 ^ 64 }
{
    match text {
        Some(text) => text.len() as u64,
        None => 0,
    }
}

/// A copy of a text, if there is one.
pub fn copy_of<A: Allocator>(
    alloc: A,
    text: Option<&[u8]>,
) -> Result<Option<Vec<u8, A>>, OutOfMemory>
    ensures { IfOk result (λ copy. option_map (λ t. t.items) copy ≡ option_map (λ t. t.now)
        text.entry) }
{
    match text {
        Some(text) => Ok(Some(Vec::from_slice(alloc, text)?)),
        None => Ok(None),
    }
}

/// A copy of a text that may be known, and then may be absent.
pub fn copy_of_told<A: Allocator>(
    alloc: A,
    told: Option<Option<&[u8]>>,
) -> Result<Option<Option<Vec<u8, A>>>, OutOfMemory>
    ensures { IfOk result (λ copy. option_map (option_map (λ t. t.items)) copy
        ≡ option_map (option_map (λ t. t.now)) told.entry) }
{
    match told {
        Some(text) => Ok(Some(copy_of(alloc, text)?)),
        None => Ok(None),
    }
}

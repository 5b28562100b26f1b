//! Messages by their numbers, and the sum of their bytes.

ghost use Rattle.std.specs.Prelude.{◌≡◌, ◌<◌, ◌^◌, ◌%◌, ◌++◌, ◌∷◌, [], OnErr, OnOk};
ghost use Rattle.std.specs.List.{AllByRecursion};
ghost use Rattle.std.specs.List.Sorted.{IsStrictlySortedBy};
ghost use Rattle.std.specs.Map.{keys_of};
ghost use Rattle.std.specs.Ordering.{nat_cmp};
ghost use Rattle.history.specs.Rings.{taken};
ghost use Rattle.history.specs.Weights.{kept_bytes};

use crate::OutOfMemory;
use crate::entry::Entry;
use std::alloc::Allocator;
use std::collections::BTreeMap;
use std::marker::Model;
use weights::{less, more};

/// Messages by their numbers, and the sum of their bytes.
#[derive(Drop)]
pub struct Kept<A: Allocator> {
    messages: BTreeMap<u64, Entry<A>, A>,
    // the bytes of all messages, modulo 2^64
    bytes: u64,
}

impl<A: Allocator> Model for Kept<A> {
    ghost use Rattle.std.specs.Prelude.{ℕ, ◌≡◌, ◌^◌, ◌%◌, List};
    ghost use Rattle.history.specs.Entry.{EntryParts};
    ghost use Rattle.history.specs.Weights.{kept_bytes};

    ghost Value = { List (ℕ × EntryParts) };

    ghost view = { λ k. k.messages.entries };

    ghost invariant = { λ k. k.bytes ≡ kept_bytes k.messages.entries % 2 ^ 64 };
}

impl<A: Allocator> Kept<A> {
    /// No messages.
    pub fn new(alloc: A) -> Kept<A>
        ensures { result ≡ [] }
    {
        Kept {
            messages: BTreeMap::new(alloc),
            bytes: 0,
        }
    }

    /// The messages, to be read.
    pub fn messages(&self) -> &BTreeMap<u64, Entry<A>, A>
        ensures { result.now.entries ≡ self.now }
    {
        &self.messages
    }

    /// The bytes of all messages, modulo 2^64. One step.
    pub fn bytes(&self) -> u64
        ensures { result ≡ kept_bytes self.now % 2 ^ 64 }
    {
        self.bytes
    }

    /// Adds a message whose number is above all others.
    pub fn push(&mut self, number: u64, entry: Entry<A>) -> Result<(), OutOfMemory>
    where
        A: Clone + Drop,
        requires { AllByRecursion (λ m. m.0 < number) self.old }
        ensures ok { OnOk result (self.new ≡ self.old ++ (number, entry) ∷ []) }
        ensures err { OnErr result (self.new ≡ self.old) }
        ensures rise { IsStrictlySortedBy nat_cmp (keys_of self.old) }
    {
        let bytes = entry.bytes();
        self.messages.insert(number, entry)?;
        self.bytes = more(self.bytes, bytes);
        Ok(())
    }

    /// Takes out the message of a number, if there is one.
    pub fn remove(&mut self, number: u64)
    where
        A: Drop,
        ensures { self.new ≡ taken number self.old }
    {
        if let Some(message) = self.messages.remove(&number) {
            self.bytes = less(self.bytes, message.bytes());
        }
    }
}

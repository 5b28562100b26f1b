//! The last messages to each target.

ghost use Rattle.std.specs.Prelude.{ℕ, ◌≡◌, ◌↔◌, ◌<◌, ◌≤◌, ◌&&◌, IfOk, IsErrOf, IsTrue, None, OnErr, Some};
ghost use Rattle.std.specs.Prelude.{◌++◌, ◌∷◌, [], OnOk, filter, length, map, nat_eq, option_map};
ghost use Rattle.std.specs.Prelude.{not, slice_get, false, true, ◌%◌, ◌^◌};
ghost use Rattle.std.specs.List.{AllByRecursion};
ghost use Rattle.std.specs.NonZero.{non_zero_usize_get};
ghost use Rattle.std.specs.Option.{option_map_or, unwrap_or};
ghost use Rattle.circular_buffer.specs.Buffer.{last_item};
ghost use Rattle.history.specs.Entry.{IsWrittenEntry, entry_parts};
ghost use Rattle.history.specs.Messages.{AreWrittenMessages, CanComeAgain, is_capacity, is_missed, missed_by, no_messages};
ghost use Rattle.history.specs.Messages.{is_with_person, number_after, persons_held, rings_with};
ghost use Rattle.history.specs.Messages.{staying_of, target_key, targets_held, with_message};
ghost use Rattle.history.specs.Rings.{all_taken, taken};
ghost use Rattle.history.specs.Weights.{history_bytes};

use crate::OutOfMemory;
use crate::entry::Entry;
use crate::kept::Kept;
use crate::targets::Targets;
use circular_buffer::HeapCircularBuffer;
use irc_names::CaseMapping;
use std::alloc::{Allocator, Global};
use std::marker::Model;
use std::num::NonZeroUsize;
use std::ops::Bound;
use thiserror::Error;

/// How many messages to one target a history may hold.
pub const CAPACITY_LIMIT: usize = 10_000;

/// Why there is no history.
#[derive(Clone, Copy, Debug, PartialEq, Eq, Error)]
pub enum CapacityError {
    /// The capacity is 0 or above 10,000 messages.
    #[error("bad capacity")]
    BadCapacity,
    /// An allocation was refused.
    #[error("out of memory")]
    OutOfMemory,
}

impl From<OutOfMemory> for CapacityError {
    ghost use Rattle.history.specs.declared.ring.CapacityError.TheVariants as fault;

    ghost from_gives = { λ _ e. e ≡ fault.OutOfMemory };

    fn from(_e: OutOfMemory) -> CapacityError {
        CapacityError::OutOfMemory
    }
}

/// Why a message was not taken.
#[derive(Clone, Copy, Debug, PartialEq, Eq, Error)]
pub enum PushError {
    /// The number 18446744073709551615 was given, and there is none for a further message.
    #[error("numbers spent")]
    Spent,
    /// An allocation was refused.
    #[error("out of memory")]
    OutOfMemory,
}

impl From<OutOfMemory> for PushError {
    ghost use Rattle.history.specs.declared.ring.PushError.TheVariants as fault;

    ghost from_gives = { λ _ e. e ≡ fault.OutOfMemory };

    fn from(_e: OutOfMemory) -> PushError {
        PushError::OutOfMemory
    }
}

/// The last messages of each ring of a network: of the 128 persons that were written last, and of the
/// 128 other targets. Two of them are the same if their keys under the `ascii` mapping are equal.
/// Numbers rise by one from message to message; a number is given once.
///
/// Messages are kept by their numbers, and each person or target has a ring of the numbers of its own.
#[derive(Drop)]
pub struct History<A: Allocator = Global> {
    kept: Kept<A>,
    targets: Targets<A>,
    persons: Targets<A>,
    // how many messages of one ring there may be
    capacity: usize,
    // the number of the next message; `None` if the last number was given
    next: Option<u64>,
    alloc: A,
}

impl<A: Allocator> Model for History<A> {
    ghost use Rattle.history.specs.Messages.{IsTied, Messages};

    ghost Value = { Messages };

    ghost view = { λ h. record {
      capacity = h.capacity;
      kept = h.kept;
      next = h.next;
    } };

    ghost invariant = { λ h. IsTied h.capacity h.kept h.next h.targets h.persons };
}

/// The number after this one; `None` after the last one.
fn number_after(number: u64) -> Option<u64>
    ensures { result ≡ number_after number }
{
    number.checked_add(1)
}

/// Takes out the message of a number, if one is given.
fn take_out<A: Allocator + Drop>(kept: &mut Kept<A>, number: Option<u64>)
    ensures { kept.new ≡ option_map_or (λ j. taken j kept.old) number kept.old }
{
    if let Some(number) = number {
        kept.remove(number);
    }
}

/// Takes out the messages of these numbers.
fn take_all_out<A: Allocator + Drop>(kept: &mut Kept<A>, numbers: &HeapCircularBuffer<u64, A>)
    ensures { kept.new ≡ all_taken numbers.now.items kept.old }
{
    for number in numbers.iter() {
        kept.remove(*number);
    }
}

/// Takes out the messages of a target that is forgotten, if one is.
fn forget<A: Allocator + Drop>(kept: &mut Kept<A>, numbers: Option<HeapCircularBuffer<u64, A>>)
    ensures { kept.new ≡ all_taken
        (unwrap_or (option_map (λ ring. ring.items) numbers) []) kept.old }
{
    if let Some(numbers) = numbers {
        take_all_out(kept, &numbers);
    }
}

/// Keeps one message more in the ring of this key, beside the rings of the other kind, and takes out
/// what goes for it. After an error all is as it was.
fn keep<A: Allocator + Copy + Drop>(
    kept: &mut Kept<A>,
    targets: &mut Targets<A>,
    others: &Targets<A>,
    key: Vec<u8, A>,
    number: u64,
    entry: Entry<A>,
) -> Result<(), OutOfMemory>
    requires below { AllByRecursion (λ m. m.0 < number) kept.old }
    requires tied { targets.old ≡ rings_with (is_with_person (number, entry))
        targets.old.capacity kept.old }
    requires others { others.now ≡ rings_with (not (is_with_person (number, entry)))
        targets.old.capacity kept.old }
    requires key { key.items ≡ target_key (number, entry) }
    ensures ok { OnOk result (kept.new
        ≡ staying_of targets.old.capacity (kept.old ++ (number, entry) ∷ [])) }
    ensures tied { OnOk result (targets.new ≡ rings_with (is_with_person (number, entry))
        targets.old.capacity kept.new) }
    ensures others { OnOk result (others.now ≡ rings_with (not (is_with_person (number, entry)))
        targets.old.capacity kept.new) }
    ensures err { OnErr result (kept.new ≡ kept.old) }
    ensures same { OnErr result (targets.new ≡ targets.old) }
{
    let _count = targets.count();
    let _others = others.count();
    kept.push(number, entry)?;
    match targets.note(key, number) {
        Ok((oldest, forgotten)) => {
            take_out(kept, oldest);
            forget(kept, forgotten);
            Ok(())
        }
        Err(e) => {
            kept.remove(number);
            Err(e)
        }
    }
}

/// Keeps one message more in its ring, and takes out what goes for it. After an error all is as it
/// was.
fn keep_in_ring<A: Allocator + Copy + Drop>(
    alloc: A,
    kept: &mut Kept<A>,
    targets: &mut Targets<A>,
    persons: &mut Targets<A>,
    number: u64,
    entry: Entry<A>,
) -> Result<(), OutOfMemory>
    requires below { AllByRecursion (λ m. m.0 < number) kept.old }
    requires targets { targets.old ≡ rings_with false targets.old.capacity kept.old }
    requires persons { persons.old ≡ rings_with true targets.old.capacity kept.old }
    ensures ok { OnOk result (kept.new
        ≡ staying_of targets.old.capacity (kept.old ++ (number, entry) ∷ [])) }
    ensures targets { OnOk result (targets.new ≡ rings_with false targets.old.capacity kept.new) }
    ensures persons { OnOk result (persons.new ≡ rings_with true targets.old.capacity kept.new) }
    ensures err { OnErr result (kept.new ≡ kept.old) }
    ensures same_targets { OnErr result (targets.new ≡ targets.old) }
    ensures same_persons { OnErr result (persons.new ≡ persons.old) }
{
    match entry.ring() {
        Some(name) => {
            let key = CaseMapping::Ascii.key(alloc, name)?;
            keep(kept, persons, targets, key, number, entry)
        }
        None => {
            let key = CaseMapping::Ascii.key(alloc, entry.target())?;
            keep(kept, targets, persons, key, number, entry)
        }
    }
}

impl<A: Allocator + Copy + Drop> History<A> {
    /// A history without messages, that holds the last `capacity` of them to each target, and gives
    /// the first one this number. `BadCapacity` comes exactly outside of 1 to 10,000, and before
    /// memory is asked for. It takes memory with its messages.
    pub fn new(alloc: A, capacity: usize, first: u64) -> Result<History<A>, CapacityError>
        ensures made { IfOk result (λ history. history ≡ no_messages capacity first) }
        ensures bad { IsErrOf result CapacityError.BadCapacity ↔ (is_capacity capacity ≡ false) }
    {
        match NonZeroUsize::new(capacity) {
            Some(some) if capacity <= CAPACITY_LIMIT => Ok(History::keeping(alloc, some, first)?),
            _ => Err(CapacityError::BadCapacity),
        }
    }

    /// A history without messages, as `new` makes it, but with no limit to its capacity: for who
    /// reads an input once, and not for one that runs on.
    pub fn keeping(alloc: A, capacity: NonZeroUsize, first: u64) -> Result<History<A>, OutOfMemory>
        ensures { IfOk result (λ history. history
            ≡ no_messages (non_zero_usize_get capacity) first) }
    {
        let capacity = capacity.get();
        let targets = Targets::new(alloc, capacity)?;
        let persons = Targets::new(alloc, capacity)?;
        Ok(History {
            kept: Kept::new(alloc),
            targets,
            persons,
            capacity,
            next: Some(first),
            alloc,
        })
    }

    /// Keeps a message that was made before, and answers its number. If its ring is full,
    /// its oldest message goes; if its ring is new and there are 128 of its kind, which are
    /// persons' and those of other targets, the one that was written least recently goes with all its
    /// messages. `Spent` comes exactly if there is no number left, and before memory is asked for.
    /// After an error the history is unchanged.
    pub fn add(&mut self, entry: Entry<A>) -> Result<u64, PushError>
        ensures ok { IfOk result (λ number. (self.old.next ≡ Some number)
            × (self.new ≡ with_message number entry self.old)) }
        ensures spent { IsErrOf result PushError.Spent ↔ (self.old.next ≡ None) }
        ensures kept { OnErr result (self.new ≡ self.old) }
        ensures written { IsWrittenEntry entry → AreWrittenMessages self.old →
            AreWrittenMessages self.new }
    {
        let Some(number) = self.next else {
            return Err(PushError::Spent);
        };
        let (kept, targets, persons) = (&mut self.kept, &mut self.targets, &mut self.persons);
        keep_in_ring(self.alloc, kept, targets, persons, number, entry)?;
        self.next = number_after(number);
        Ok(number)
    }

    /// Keeps a message of these texts, which may be any, and answers its number, as `add` does.
    /// `Spent` comes exactly if there is no number left, and before memory is asked for. After an
    /// error the history is unchanged.
    pub fn push(
        &mut self,
        time: &[u8],
        source: &[u8],
        command: &[u8],
        target: &[u8],
        text: &[u8],
    ) -> Result<u64, PushError>
        ensures ok { IfOk result (λ number. (self.old.next ≡ Some number)
            × (self.new ≡ with_message number
            (entry_parts time.now source.now command.now target.now text.now) self.old)) }
        ensures spent { IsErrOf result PushError.Spent ↔ (self.old.next ≡ None) }
        ensures kept { OnErr result (self.new ≡ self.old) }
    {
        if self.next.is_none() {
            return Err(PushError::Spent);
        }
        let entry = Entry::make(self.alloc, time, source, command, target, text)?;
        self.add(entry)
    }
}

impl<A: Allocator> History<A> {
    /// Has the next message get this number, if that is no lower than its own: for messages that
    /// were numbered before.
    pub fn skip_to(&mut self, number: u64)
        requires { (next : ℕ) × (self.old.next ≡ Some next) × (next ≤ number) }
        ensures { self.new ≡ record self.old { next = Some number } }
    {
        self.next = Some(number);
    }

    /// The number of the next message; `None` if the last number was given.
    pub fn next_number(&self) -> Option<u64>
        ensures { result ≡ self.now.next }
    {
        self.next
    }

    /// How many messages are kept.
    pub fn len(&self) -> usize
        ensures { result ≡ length self.now.kept }
    {
        self.kept.messages().len()
    }

    /// Whether none is kept: whether none was taken yet.
    pub fn is_empty(&self) -> bool
        ensures { result ≡ nat_eq (length self.now.kept) 0 }
    {
        self.kept.messages().is_empty()
    }

    /// The bytes that the messages take that are kept, modulo 2^64: those of their texts, and
    /// [`weights::ENTRY`] for each message. One step, however many there are.
    pub fn bytes(&self) -> u64
        ensures { result ≡ history_bytes self.now % 2 ^ 64 }
    {
        self.kept.bytes()
    }

    /// Of how many targets messages are kept, persons that have a ring aside; at most 128.
    pub fn target_count(&self) -> usize
        ensures count { result ≡ targets_held self.now }
        ensures few { targets_held self.now ≤ 128 }
    {
        self.targets.count()
    }

    /// Of how many persons messages are kept in rings of theirs; at most 128.
    pub fn person_count(&self) -> usize
        ensures count { result ≡ persons_held self.now }
        ensures few { persons_held self.now ≤ 128 }
    {
        self.persons.count()
    }

    /// The message at place `i`, counted from 0, the oldest first; `None` from `len` on.
    pub fn entry(&self, i: usize) -> Option<&Entry<A>>
        ensures { option_map (λ entry. entry.now) result
            ≡ option_map (λ m. m.1) (slice_get self.now.kept i) }
    {
        let (_, entry) = self.kept.messages().iter().nth(i)?;
        Some(entry)
    }

    /// The number of the message at place `i`; `None` from `len` on.
    pub fn number_of(&self, i: usize) -> Option<u64>
        ensures { result ≡ option_map (λ m. m.0) (slice_get self.now.kept i) }
    {
        let (number, _) = self.kept.messages().iter().nth(i)?;
        Some(*number)
    }

    /// The messages numbered above the mark, or all if there is none, oldest first: those that a
    /// client missed that has seen all up to the mark. The first of them is looked up, and only
    /// these are visited. One growing allocation.
    pub fn missed<B: Allocator>(
        &self,
        alloc: B,
        mark: Option<u64>,
    ) -> Result<Vec<&Entry<A>, B>, OutOfMemory>
        ensures missed { IfOk result (λ missed. map (λ entry. entry.now) missed.items
            ≡ missed_by mark self.now) }
        ensures written { AreWrittenMessages self.now → IfOk result (λ missed.
            AllByRecursion (λ entry. IsWrittenEntry entry.now) missed.items) }
    {
        let above = match mark {
            Some(mark) => Bound::Excluded(mark),
            None => Bound::Unbounded,
        };
        let mut missed = Vec::new(alloc);
        for (_, entry) in self.kept.messages().range((above, Bound::Unbounded)) {
            missed.push(entry)?;
        }
        Ok(missed)
    }

    /// Says what holds of the messages of every history. It does nothing.
    pub fn can_come_again(&self)
        ensures { CanComeAgain self.now }
    {
        let _count = self.targets.count();
        let _persons = self.persons.count();
        let _order = self.kept.messages().iter();
    }

    /// All messages with their numbers, oldest first. One growing allocation.
    pub fn numbered<B: Allocator>(&self, alloc: B) -> Result<Vec<(u64, &Entry<A>), B>, OutOfMemory>
        ensures all { IfOk result (λ all. map (λ m. (m.0, m.1.now)) all.items ≡ self.now.kept) }
        ensures again { CanComeAgain self.now }
    {
        self.can_come_again();
        let mut all = Vec::new(alloc);
        for item in self.kept.messages().iter() {
            all.push((*item.0, item.1))?;
        }
        Ok(all)
    }

    /// The messages numbered above the mark, or all if there is none, each with its number, oldest
    /// first. The first of them is looked up, and only these are visited. One growing allocation.
    pub fn numbered_above<B: Allocator>(
        &self,
        alloc: B,
        mark: Option<u64>,
    ) -> Result<Vec<(u64, &Entry<A>), B>, OutOfMemory>
        ensures { IfOk result (λ above. map (λ m. (m.0, m.1.now)) above.items
            ≡ filter (is_missed mark) self.now.kept) }
    {
        let from = match mark {
            Some(number) => Bound::Excluded(number),
            None => Bound::Unbounded,
        };
        let mut above = Vec::new(alloc);
        for item in self.kept.messages().range((from, Bound::Unbounded)) {
            above.push((*item.0, item.1))?;
        }
        Ok(above)
    }

    /// The number of the last message; `None` if none was taken yet.
    pub fn last_number(&self) -> Option<u64>
        ensures { result ≡ option_map (λ m. m.0) (last_item self.now.kept) }
    {
        let (number, _) = self.kept.messages().last_key_value()?;
        Some(*number)
    }
}

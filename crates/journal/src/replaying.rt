//! Batches are done again.

ghost use Rattle.std.specs.Prelude.{◌≡◌, IfErr, IfOk, IsErrOf, OnOk, false, map};
ghost use Rattle.history.specs.Messages.{is_capacity};
ghost use Rattle.journal.specs.Kept.{kept_parts, nothing};
ghost use Rattle.journal.specs.Recalls.{FailsBy, IsRedone, Takes};

use crate::damage::{Damage, RedoError};
use crate::kept::Kept;
use crate::redoing::redo_batch;
use crate::texts::read_batch;
use history::{CapacityError, History, Marks, OutOfMemory};
use std::alloc::Global;
use thiserror::Error;

/// Why a journal was not recalled.
#[derive(Clone, Copy, Debug, PartialEq, Eq, Error)]
pub enum RecallError {
    /// The capacity is 0 or above 10,000 messages.
    #[error("bad capacity")]
    BadCapacity,
    /// The file does not begin with the first frame of a journal, or with a part of it.
    #[error("not a journal")]
    NotAJournal,
    /// The first frame is that of another version.
    #[error("a later version")]
    LaterVersion,
    /// An allocation was refused.
    #[error("out of memory")]
    OutOfMemory,
}

impl From<CapacityError> for RecallError {
    ghost use Rattle.journal.specs.Recalls.{recall_error_of};

    ghost from_gives = { λ e x. x ≡ recall_error_of e };

    fn from(e: CapacityError) -> RecallError {
        match e {
            CapacityError::BadCapacity => RecallError::BadCapacity,
            CapacityError::OutOfMemory => RecallError::OutOfMemory,
        }
    }
}

impl From<OutOfMemory> for RecallError {
    ghost use Rattle.journal.specs.declared.replaying.RecallError.TheVariants as fault;

    ghost from_gives = { λ _ e. e ≡ fault.OutOfMemory };

    fn from(_e: OutOfMemory) -> RecallError {
        RecallError::OutOfMemory
    }
}

/// What came of payloads.
#[derive(Drop)]
pub enum Redone {
    /// All count, and this is kept.
    All(Kept),
    /// That many count, and the next one does not.
    Until(usize, Damage),
}

/// Does the batch of a payload again.
fn redo_payload(alloc: Global, kept: &mut Kept, payload: &[u8]) -> Result<(), RedoError>
    ensures took { OnOk result
        (Takes payload.now (kept_parts kept.old) (kept_parts kept.new)) }
    ensures fails { IfErr result (FailsBy payload.now (kept_parts kept.old)) }
{
    match read_batch(alloc, payload)? {
        Some(records) => redo_batch(kept, records),
        None => Err(RedoError::Damaged(Damage::NoRecord)),
    }
}

/// What is kept before any batch.
pub fn nothing(alloc: Global, capacity: usize, first: u64) -> Result<Kept, RecallError>
    ensures made { IfOk result (λ kept. kept_parts kept ≡ nothing capacity first) }
    ensures bad { IsErrOf result RecallError.BadCapacity → is_capacity capacity ≡ false }
    ensures ours { IsErrOf result RecallError.NotAJournal → ⊥ }
    ensures known { IsErrOf result RecallError.LaterVersion → ⊥ }
{
    Ok(Kept {
        history: History::new(alloc, capacity, first)?,
        marks: Marks::new(alloc)?,
        marked: Marks::new(alloc)?,
        channels: Vec::new(alloc),
    })
}

/// Does the batches of payloads again.
pub fn redo_all(
    alloc: Global,
    capacity: usize,
    first: u64,
    payloads: Vec<&[u8]>,
) -> Result<Redone, RecallError>
    ensures redone { IfOk result
        (IsRedone (map (λ p. p.now) payloads.entry.items) (nothing capacity first)) }
    ensures bad { IsErrOf result RecallError.BadCapacity → is_capacity capacity ≡ false }
    ensures ours { IsErrOf result RecallError.NotAJournal → ⊥ }
    ensures known { IsErrOf result RecallError.LaterVersion → ⊥ }
{
    let mut kept = nothing(alloc, capacity, first)?;
    let mut done: usize = 0;
    for payload in payloads {
        match redo_payload(alloc, &mut kept, payload) {
            Ok(()) => done += 1,
            Err(error) => match error {
                RedoError::Damaged(damage) => return Ok(Redone::Until(done, damage)),
                RedoError::OutOfMemory => return Err(RecallError::OutOfMemory),
            },
        }
    }
    Ok(Redone::All(kept))
}

//! A journal is recalled.

ghost use Rattle.std.specs.Prelude.{◌≡◌, ◌↔◌, ◌<◌, ◌^◌, ◌++◌, IfOk, IsErrOf, List, None, Ok, Some, ℕ};
ghost use Rattle.std.specs.Prelude.{Bool, false, length, take};
ghost use Rattle.history.specs.Messages.{is_capacity};
ghost use Rattle.frames.specs.Frames.{frame, frame_at};
ghost use Rattle.journal.specs.Header.{IsForeign, IsOfAnotherVersion, file_of, header_for};
ghost use Rattle.journal.specs.Kept.{KeptParts, after_all, kept_parts, nothing};
ghost use Rattle.journal.specs.Recalls.{CanBegin, Fails, IsAfterBeginning, Recalls, RecallsBehind};
ghost use Rattle.journal.specs.Recalls.{RecallsFile};
ghost use Rattle.journal.specs.Records.{AreBatches, RecordParts};
ghost use Rattle.journal.specs.declared.damage.Damage.{Damage};

use crate::damage::Damage;
use crate::header::behind_header;
use crate::kept::Kept;
use crate::replaying::{RecallError, Redone, nothing, redo_all};
use crate::sizes::frames_length;
use frames::read_frames;
use history::CAPACITY_LIMIT;
use std::alloc::Global;

/// What is recalled of a journal.
#[derive(Drop)]
pub struct Recalled {
    /// What is kept after its batches, up to the first that does not count.
    pub kept: Kept,
    /// Whether messages with rings may be in its file, by its header. `false` if the file ends
    /// within its header.
    pub rings: bool,
    /// How many batches count.
    pub batches: usize,
    /// How many bytes of the file count, with its header: after them it is to be cut.
    pub used: usize,
    /// Why the next batch does not count; `None` if all do whose frames are whole.
    pub damage: Option<Damage>,
}

/// Recalls the batches of frames, of a file that may have messages with rings or not.
#[tactic(auto, using(crate::proofs::FrameSizes::small_all, crate::proofs::FrameSizes::small_part, crate::proofs::InOrder::recalled_all, crate::proofs::InOrder::recalled_part, crate::proofs::InOrder::no_second,))]
fn recall_frames(
    alloc: Global,
    capacity: usize,
    first: u64,
    rings: bool,
    bytes: &[u8],
) -> Result<Recalled, RecallError>
    ensures rings { IfOk result (λ r. r.rings ≡ rings) }
    ensures recalls { IfOk result (λ r. Recalls (nothing capacity first) bytes.now r.batches
        r.used r.damage (kept_parts r.kept)) }
    ensures bad { IsErrOf result RecallError.BadCapacity → is_capacity capacity ≡ false }
    ensures ours { IsErrOf result RecallError.NotAJournal → ⊥ }
    ensures known { IsErrOf result RecallError.LaterVersion → ⊥ }
{
    let _size = bytes.len();
    let (mut payloads, _rest) = read_frames(alloc, bytes)?;
    let all = Vec::from_slice(alloc, &payloads)?;
    match redo_all(alloc, capacity, first, all)? {
        Redone::All(kept) => Ok(Recalled {
            kept,
            rings,
            batches: payloads.len(),
            used: frames_length(payloads),
            damage: None,
        }),
        Redone::Until(done, damage) => {
            let front = Vec::from_slice(alloc, &payloads[..done])?;
            match redo_all(alloc, capacity, first, front)? {
                Redone::All(kept) => {
                    payloads.truncate(done);
                    Ok(Recalled {
                        kept,
                        rings,
                        batches: done,
                        used: frames_length(payloads),
                        damage: Some(damage),
                    })
                }
                Redone::Until(_, _) => unreachable!(),
            }
        }
    }
}

/// Recalls the bytes after the header of a file.
#[tactic(auto, using(crate::proofs::Headers::behind_short, crate::proofs::Headers::behind_is))]
fn recall_behind(
    alloc: Global,
    capacity: usize,
    first: u64,
    bytes: &[u8],
    rings: bool,
    more: &[u8],
) -> Result<Recalled, RecallError>
    requires { bytes.now ≡ frame (header_for rings) ++ more.now }
    ensures recalls { IfOk result (λ r. RecallsBehind (nothing capacity first) bytes.now r.rings
        r.batches r.used r.damage (kept_parts r.kept)) }
    ensures bad { IsErrOf result RecallError.BadCapacity → is_capacity capacity ≡ false }
    ensures ours { IsErrOf result RecallError.NotAJournal → ⊥ }
    ensures known { IsErrOf result RecallError.LaterVersion → ⊥ }
{
    let mut recalled = recall_frames(alloc, capacity, first, rings, more)?;
    recalled.used += bytes.len() - more.len();
    Ok(recalled)
}

/// Recalls a file, whatever it begins with.
fn recall_file(
    alloc: Global,
    capacity: usize,
    first: u64,
    bytes: &[u8],
) -> Result<Recalled, RecallError>
    ensures recalls { IfOk result (λ r. RecallsFile (nothing capacity first) bytes.now r.rings
        r.batches r.used r.damage (kept_parts r.kept)) }
    ensures not_a_journal { IsErrOf result RecallError.NotAJournal → IsForeign bytes.now }
    ensures later { IsErrOf result RecallError.LaterVersion → IsOfAnotherVersion bytes.now }
    ensures bad { IsErrOf result RecallError.BadCapacity → is_capacity capacity ≡ false }
{
    match behind_header(alloc, bytes)? {
        Some((rings, more)) => recall_behind(alloc, capacity, first, bytes, rings, more),
        None => Ok(Recalled {
            kept: nothing(alloc, capacity, first)?,
            rings: false,
            batches: 0,
            used: 0,
            damage: None,
        }),
    }
}

/// Recalls a journal: what is kept after its batches, for a history of this capacity whose
/// first message has this number. Of bytes that were cut anywhere, that is what was kept after a
/// beginning of the batches; nothing is kept of a file that ends within its header. In a sound
/// frame that is no batch, or whose records can't be done, recall ends, and says why.
pub fn recall(
    alloc: Global,
    capacity: usize,
    first: u64,
    bytes: &[u8],
) -> Result<Recalled, RecallError>
    ensures recalls { IfOk result (λ r. RecallsFile (nothing capacity first) bytes.now r.rings
        r.batches r.used r.damage (kept_parts r.kept)) }
    // A hub can begin with it.
    ensures begins { IfOk result (λ r. CanBegin r.kept.history) }
    // Of what was written and then cut, a beginning of the batches is recalled.
    ensures cut { (rings : Bool) (batches : List (List RecordParts)) (n : ℕ) → AreBatches batches →
        bytes.now ≡ take n (file_of rings batches) → IfOk result (λ r.
        IsAfterBeginning batches (nothing capacity first) (kept_parts r.kept)) }
    // Of what was written, and bytes after it that begin no frame, all batches are.
    ensures whole { (rings : Bool) (batches : List (List RecordParts)) (torn : List ℕ)
        (kept : KeptParts) → AreBatches batches → frame_at torn ≡ None →
        bytes.now ≡ file_of rings batches ++ torn →
        after_all batches (nothing capacity first) ≡ Ok kept → IfOk result (λ r.
        (kept_parts r.kept ≡ kept) × (r.rings ≡ rings) × (r.damage ≡ None)
        × (r.batches ≡ length batches) × (r.used ≡ length (file_of rings batches))) }
    // A sound frame after them that does not count ends it, with all before it, and is reported.
    ensures damaged { (rings : Bool) (batches : List (List RecordParts)) (bad more : List ℕ)
        (kept : KeptParts) (why : Damage) → AreBatches batches → length bad < 2 ^ 32 →
        bytes.now ≡ file_of rings batches ++ (frame bad ++ more) →
        after_all batches (nothing capacity first) ≡ Ok kept → Fails bad kept why →
        IfOk result (λ r. (kept_parts r.kept ≡ kept) × (r.rings ≡ rings) × (r.damage ≡ Some why)
        × (r.batches ≡ length batches) × (r.used ≡ length (file_of rings batches))) }
    // A file that begins otherwise is refused, and one of another version by a refusal of its own.
    ensures not_a_journal { IsErrOf result RecallError.NotAJournal → IsForeign bytes.now }
    ensures later { IsErrOf result RecallError.LaterVersion → IsOfAnotherVersion bytes.now }
    // `BadCapacity` comes exactly if the capacity is 0 or above 10,000, and before any allocation.
    ensures bad { IsErrOf result RecallError.BadCapacity ↔ (is_capacity capacity ≡ false) }
{
    if capacity == 0 || capacity > CAPACITY_LIMIT {
        return Err(RecallError::BadCapacity);
    }
    recall_file(alloc, capacity, first, bytes)
}

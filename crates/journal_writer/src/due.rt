//! What is due for a file.

ghost use Rattle.std.specs.Prelude.{ℕ, ◌≡◌, ◌++◌, ◌∷◌, [], IfOk, List, Option, Some, map};
ghost use Rattle.frames.specs.Frames.{frame};
ghost use Rattle.history.specs.Marks.{NameMarks};
ghost use Rattle.history.specs.Messages.{Messages};
ghost use Rattle.journal.specs.Changes.{Follows, Tells, kept_now};
ghost use Rattle.journal.specs.Fillings.{AreWritten};
ghost use Rattle.journal.specs.Header.{header_for};
ghost use Rattle.journal.specs.Kept.{KeptParts, channel_parts};
ghost use Rattle.journal.specs.Records.{AreBatches, journal_of, parts_of_all};
ghost use Rattle.journal.specs.declared.changes.Written.{Written};
ghost use Rattle.journal_writer.specs.Dues.{AsWanted, GoesOn, IsDue};

use crate::copying::copied;
use history::{History, Marks};
use journal::{
    Changes, Channel, PushError, Record, Written, has_rings, push_batch, push_batches, push_header,
    snapshot,
};
use journal_files::{Deed, Wanted};
use std::alloc::{AllocError, Global};

/// What is to be done to a file, taken under the lock of a hub.
#[derive(Drop)]
pub enum Due {
    /// Nothing now.
    Nothing,
    /// These records are appended, as one batch; then the file holds this.
    Append(Vec<Record>, Written),
    /// A new file of these records takes its place; then it holds this. The last says what was wanted: a
    /// batch, if the file is only long.
    Replace(Vec<Record>, Written, Wanted),
}

/// What is wanted of a file if this has changed.
pub(crate) fn wanted_by(change: &Changes) -> Wanted
    ensures { (w : Written) (last : ℕ) (h : Messages) (marks latest : NameMarks)
        (channels : List (List ℕ × Option (List ℕ))) → h.next ≡ Some last →
        Tells change.now w h marks latest channels → AsWanted result w last h }
{
    match change {
        Changes::Nothing | Changes::Spent => Wanted::Nothing,
        Changes::Batch(_) => Wanted::Batch,
        Changes::Snapshot => Wanted::Snapshot,
    }
}

/// What a file holds once all of it is written, up to the message with this number, if messages with
/// rings may be in it or not.
fn after(
    alloc: Global,
    rings: bool,
    next: u64,
    marks: &Marks,
    latest: &Marks,
    channels: Vec<Channel>,
) -> Result<Written, AllocError>
    ensures rings { IfOk result (λ w. w.rings ≡ rings) }
    ensures next { IfOk result (λ w. w.next ≡ next) }
    ensures names { IfOk result (λ w. w.marks ≡ marks.now) }
    ensures given { IfOk result (λ w. w.latest ≡ latest.now) }
    ensures channels { IfOk result (λ w. w.channels ≡ channels) }
{
    Ok(Written {
        next,
        marks: copied(alloc, marks)?,
        latest: copied(alloc, latest)?,
        channels,
        rings,
    })
}

/// What is due if the file is to be written anew, and this is wanted of it.
fn anew(
    alloc: Global,
    wanted: Wanted,
    next: u64,
    history: &History,
    marks: &Marks,
    latest: &Marks,
    channels: Vec<Channel>,
) -> Result<Due, AllocError>
    requires next { history.now.next ≡ Some next }
    ensures due { (w : Written) → AsWanted wanted w next history.now →
        IfOk result (λ due. IsDue due w history.now marks.now latest.now) }
    ensures goes_on { (k : KeptParts) →
        IfOk result (λ due. GoesOn due k history.now marks.now latest.now) }
{
    history.can_come_again();
    match snapshot(alloc, history, marks, latest, &channels)? {
        Some(records) => {
            let then = after(alloc, has_rings(history), next, marks, latest, channels)?;
            Ok(Due::Replace(records, then, wanted))
        }
        None => Ok(Due::Nothing),
    }
}

/// What is due if this has changed, and this is to be done to the file, in which messages with rings
/// may be or not.
pub(crate) fn due_by(
    alloc: Global,
    deed: Deed,
    change: Changes,
    rings: bool,
    history: &History,
    marks: &Marks,
    latest: &Marks,
    channels: Vec<Channel>,
) -> Result<Due, AllocError>
    ensures due { (w : Written) → w.rings ≡ rings →
        Tells change w history.now marks.now latest.now (map channel_parts channels.items) →
        IfOk result (λ due. IsDue due w history.now marks.now latest.now) }
    ensures goes_on { (k : KeptParts) → Follows change k
        (kept_now history.now marks.now latest.now (map channel_parts channels.items)) →
        IfOk result (λ due. GoesOn due k history.now marks.now latest.now) }
{
    // after the last number no journal can go on
    let Some(next) = history.next_number() else {
        return Ok(Due::Nothing);
    };
    history.can_come_again();
    let wanted = wanted_by(&change);
    match (deed, change) {
        (Deed::Append, Changes::Batch(records)) => {
            let then = after(alloc, rings, next, marks, latest, channels)?;
            Ok(Due::Append(records, then))
        }
        (Deed::Replace, _) => anew(alloc, wanted, next, history, marks, latest, channels),
        _ => Ok(Due::Nothing),
    }
}

/// The bytes that a batch of records is appended as.
pub(crate) fn batch_bytes(alloc: Global, records: &Vec<Record>) -> Result<Vec<u8>, PushError>
    ensures batch { IfOk result (λ bytes.
        bytes.items ≡ journal_of (parts_of_all records.now.items ∷ [])) }
    ensures sound { IfOk result (λ _. AreBatches (parts_of_all records.now.items ∷ [])) }
{
    let mut bytes = Vec::new(alloc);
    push_batch(alloc, &mut bytes, records)?;
    Ok(bytes)
}

/// The bytes of a new file of records, which then holds this: its header, and batches of at most
/// 1 MiB.
pub(crate) fn file_bytes(
    alloc: Global,
    records: Vec<Record>,
    then: &Written,
) -> Result<Vec<u8>, PushError>
    ensures { IfOk result (λ bytes. AreWritten (parts_of_all records.items)
        (frame (header_for then.now.rings)) bytes.items) }
{
    let mut bytes = Vec::new(alloc);
    push_header(&mut bytes, then.rings)?;
    push_batches(alloc, &mut bytes, records)?;
    Ok(bytes)
}

//! The text of a batch.

ghost use Rattle.std.specs.Prelude.{◌≡◌, ◌++◌, ◌∷◌, [], List, IfNone, IfOk, IfSome, IsErrOf, OnOk, map, option_map};
ghost use Rattle.std.specs.Prelude.{◌≤◌, ◌^◌, OnErr, length};
ghost use Rattle.frames.specs.Frames.{frame};
ghost use Rattle.journal.specs.Records.{AreBatches, AreSound, IsBatch, RecordParts, journal_of};
ghost use Rattle.journal.specs.Records.{parts_of_all, payload_of};
ghost use Rattle.journal.specs.Reading.{records_in};

use crate::lines::{line_for, read_record};
use crate::record::Record;
use frames::push_frame;
use irc_line::{Line, MakeError, OutOfMemory, lines_in};
use std::alloc::{AllocError, Global};
use thiserror::Error;

/// The records of these lines; `None` if a line is none.
fn read_records(alloc: Global, lines: &[Line]) -> Result<Option<Vec<Record>>, OutOfMemory>
    ensures { IfOk result (λ r. option_map (λ v. parts_of_all v.items) r ≡ records_in lines.now) }
{
    let mut records = Vec::new(alloc);
    let mut rest = lines;
    while let [line, after @ ..] = rest {
        match read_record(alloc, line)? {
            Some(record) => records.push(record)?,
            None => return Ok(None),
        }
        rest = after;
    }
    Ok(Some(records))
}

/// The text of a batch of these records. `NotALine` comes exactly if one can't be written.
pub fn text_of(alloc: Global, records: &[Record]) -> Result<Vec<u8>, MakeError>
    ensures ok { IfOk result (λ text. IsBatch text.items (parts_of_all records.now)) }
    ensures not_a_line { IsErrOf result MakeError.NotALine
        → AreSound (parts_of_all records.now) → ⊥ }
{
    let mut text = Vec::new(alloc);
    let mut rest = records;
    while let [record, after @ ..] = rest {
        line_for(alloc, record)?.write(&mut text)?;
        rest = after;
    }
    Ok(text)
}

/// The records of a batch; `None` if the text is that of none.
#[tactic(auto, using(crate::proofs::Again::batch_again, crate::proofs::Again::other_text))]
pub fn read_batch(alloc: Global, payload: &[u8]) -> Result<Option<Vec<Record>>, OutOfMemory>
    ensures found { IfOk result (λ r. IfSome r (λ records.
        IsBatch payload.now (parts_of_all records.items))) }
    ensures none { IfOk result (λ r. IfNone r
        ((rs : List RecordParts) → IsBatch payload.now rs → ⊥)) }
{
    let lines = lines_in(alloc, payload)?;
    let Some(records) = read_records(alloc, &lines)? else {
        return Ok(None);
    };
    match text_of(alloc, &records) {
        Ok(text) if text.as_slice() == payload => Ok(Some(records)),
        Ok(_) => Ok(None),
        Err(MakeError::NotALine) => Ok(None),
        Err(MakeError::OutOfMemory) => Err(AllocError),
    }
}

/// Why a batch was not written.
#[derive(Clone, Copy, Debug, PartialEq, Eq, Error)]
pub enum PushError {
    /// A record can't be written: a name or a text that no line can hold there, or an entry that is
    /// no message.
    #[error("no record")]
    NoRecord,
    /// The text has 4 GiB or more.
    #[error("batch too long")]
    TooLong,
    /// An allocation was refused.
    #[error("out of memory")]
    OutOfMemory,
}

impl From<MakeError> for PushError {
    ghost use Rattle.journal.specs.Writing.{push_error_of};

    ghost from_gives = { λ e x. x ≡ push_error_of e };

    fn from(e: MakeError) -> PushError {
        match e {
            MakeError::NotALine => PushError::NoRecord,
            MakeError::OutOfMemory => PushError::OutOfMemory,
        }
    }
}

impl From<OutOfMemory> for PushError {
    ghost use Rattle.journal.specs.declared.texts.PushError.TheVariants as fault;

    ghost from_gives = { λ _ e. e ≡ fault.OutOfMemory };

    fn from(_e: OutOfMemory) -> PushError {
        PushError::OutOfMemory
    }
}

/// Appends a batch of these records, as a frame. After an error `out` is unchanged.
pub fn push_batch(alloc: Global, out: &mut Vec<u8>, records: &[Record]) -> Result<(), PushError>
    ensures ok { OnOk result
        (out.new.items ≡ out.old.items ++ journal_of (parts_of_all records.now ∷ [])) }
    ensures sound { OnOk result (AreBatches (parts_of_all records.now ∷ [])) }
    ensures err { OnErr result (out.new.items ≡ out.old.items) }
    ensures no_record { IsErrOf result PushError.NoRecord
        → AreSound (parts_of_all records.now) → ⊥ }
    ensures too_long { IsErrOf result PushError.TooLong
        → 2 ^ 32 ≤ length (payload_of (parts_of_all records.now)) }
{
    let payload = text_of(alloc, records)?;
    if payload.len() > 0xFFFF_FFFF {
        return Err(PushError::TooLong);
    }
    push_frame(out, &payload)?;
    Ok(())
}

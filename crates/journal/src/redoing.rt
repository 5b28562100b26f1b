//! Records are done again.

ghost use Rattle.std.specs.Prelude.{◌≡◌, ◌++◌, IfErr, IfOk, IfSome, IfNone, OnOk, List, map, option_map};
ghost use Rattle.history.specs.Marks.{with_mark};
ghost use Rattle.journal.specs.Records.{parts_of_all, record_parts};
ghost use Rattle.journal.specs.Kept.{Does, after, after_batch, channel_parts, counted, kept_parts, marked};
ghost use Rattle.journal.specs.Kept.{named, skipped, with_next};

use crate::damage::{Damage, RedoError};
use crate::kept::{Channel, Kept};
use crate::record::Record;
use history::{AdmitError, Entry, History, Marks, PushError};
use std::alloc::Global;

/// The next message has this number.
fn skip(history: &mut History, number: u64) -> Result<(), RedoError>
    ensures { Does result (skipped number history.old.next history.old) history.new }
{
    match history.next_number() {
        Some(next) if next <= number => {
            history.skip_to(number);
            Ok(())
        }
        _ => Err(RedoError::Damaged(Damage::BadNumber)),
    }
}

/// Keeps a message.
fn keep(history: &mut History, entry: Entry) -> Result<(), RedoError>
    ensures { Does result (with_next entry history.old.next history.old) history.new }
{
    match history.next_number() {
        Some(next) if next < u64::MAX => match history.add(entry) {
            Ok(_) => Ok(()),
            Err(PushError::Spent) => Err(RedoError::Damaged(Damage::BadNumber)),
            Err(PushError::OutOfMemory) => Err(RedoError::OutOfMemory),
        },
        _ => Err(RedoError::Damaged(Damage::BadNumber)),
    }
}

/// Admits a name.
fn admit(marks: &mut Marks, name: &[u8]) -> Result<(), RedoError>
    ensures { Does result (named name.now marks.old) marks.new }
{
    match marks.admit(name) {
        Ok(_) => Ok(()),
        Err(AdmitError::NamesFull) => Err(RedoError::Damaged(Damage::TooManyNames)),
        Err(AdmitError::OutOfMemory) => Err(RedoError::OutOfMemory),
    }
}

/// Has this number count for a name.
fn count(marks: &mut Marks, name: &[u8], latest: u64) -> Result<(), RedoError>
    ensures { Does result (counted name.now latest marks.old) marks.new }
{
    admit(marks, name)?;
    marks.set_mark(name, latest);
    Ok(())
}

/// Sets the mark of a name, which never goes back.
fn mark(marks: &mut Marks, name: &[u8], number: u64) -> Result<(), RedoError>
    ensures { Does result (marked name.now number marks.old) marks.new }
{
    admit(marks, name)?;
    match marks.mark(name) {
        Some(before) if number < before => Err(RedoError::Damaged(Damage::BadNumber)),
        _ => {
            marks.set_mark(name, number);
            Ok(())
        }
    }
}

/// Does one record again.
fn redo(kept: &mut Kept, item: Record) -> Result<(), RedoError>
    ensures { Does result (after (record_parts item) (kept_parts kept.old))
        (kept_parts kept.new) }
{
    match item {
        Record::Next(number) => skip(&mut kept.history, number),
        Record::Message(entry) => keep(&mut kept.history, entry),
        Record::Name(name) => {
            admit(&mut kept.marks, &name)?;
            admit(&mut kept.marked, &name)
        }
        Record::Mark(name, number) => {
            count(&mut kept.marks, &name, number)?;
            mark(&mut kept.marked, &name, number)
        }
        Record::Seen(name, latest) => {
            count(&mut kept.marks, &name, latest)?;
            admit(&mut kept.marked, &name)
        }
        Record::Gone(name) => {
            kept.marks.forget(&name);
            kept.marked.forget(&name);
            Ok(())
        }
        Record::On(name, key) => {
            kept.channels.reserve(1)?;
            kept.channels.push_reserved(Channel { name, key });
            Ok(())
        }
    }
}

/// Does a batch again.
pub fn redo_batch(kept: &mut Kept, records: Vec<Record>) -> Result<(), RedoError>
    ensures { Does result (after_batch (parts_of_all records.items) (kept_parts kept.old))
        (kept_parts kept.new) }
{
    kept.channels.clear();
    for item in records {
        redo(kept, item)?;
    }
    Ok(())
}

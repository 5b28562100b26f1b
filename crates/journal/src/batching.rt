//! Records as several batches.

ghost use Rattle.std.specs.Prelude.{◌≡◌, ◌++◌, ◌&&◌, IfOk, List, Ok, OnErr, OnOk, Some, not, true, ℕ};
ghost use Rattle.journal.specs.Fillings.{AreWritten, DoTheSame, Leaves, texts_of};
ghost use Rattle.journal.specs.Fillings.{is_on, next_after};
ghost use Rattle.journal.specs.Kept.{KeptParts, after};
ghost use Rattle.journal.specs.Records.{AreBatches, journal_of, parts_of_all, record_parts};

use crate::record::Record;
use crate::texts::{PushError, push_batch};
use history::{Entry, OutOfMemory};
use std::alloc::Global;
use std::mem;

/// How many bytes the text of a batch has at most, unless it is that of one record or has channels
/// (our own choice).
const BATCH_SIZE: usize = 1_048_576;

/// How many bytes a line has at most beside its texts.
const LINE_SIZE: usize = 32;

/// Batches that are filled one after another.
#[derive(Drop)]
struct Filling {
    // those that are whole, and the one that is filled
    whole: Vec<Vec<Record>>,
    batch: Vec<Record>,
    // how many bytes the text of that one has at most
    size: usize,
    // the number of the next message, if it is known
    next: Option<u64>,
    // whether no channel is in that one
    is_open: bool,
}

/// How many bytes a ring's name has at most in a line.
fn ring_size(entry: &Entry) -> usize {
    match entry.ring() {
        Some(name) => name.len().saturating_mul(2),
        None => 0,
    }
}

/// How many bytes the line of a record has at most.
fn size_of(item: &Record) -> usize {
    match item {
        Record::Next(_) => LINE_SIZE,
        Record::Message(entry) => LINE_SIZE
            .saturating_add(entry.time().len())
            .saturating_add(ring_size(entry))
            .saturating_add(entry.source().len())
            .saturating_add(entry.command().len())
            .saturating_add(entry.target().len())
            .saturating_add(entry.text().len()),
        Record::Name(name) => LINE_SIZE.saturating_add(name.len()),
        Record::Mark(name, _) => LINE_SIZE.saturating_add(name.len()),
        Record::Seen(name, _) => LINE_SIZE.saturating_add(name.len()),
        Record::Gone(name) => LINE_SIZE.saturating_add(name.len()),
        Record::On(channel, None) => LINE_SIZE.saturating_add(channel.len()),
        Record::On(channel, Some(key)) => LINE_SIZE
            .saturating_add(channel.len())
            .saturating_add(key.len()),
    }
}

/// The number of the message after a record.
fn next_after(item: &Record, next: Option<u64>) -> Option<u64>
    ensures { result ≡ next_after (record_parts item.now) next }
{
    match item {
        Record::Next(number) => Some(*number),
        Record::Message(_) => next?.checked_add(1),
        _ => next,
    }
}

fn is_channel(item: &Record) -> bool
    ensures { result ≡ is_on (record_parts item.now) }
{
    matches!(item, Record::On(_, _))
}

/// Whether a batch may still end after a record.
fn stays_open(is_open: bool, item: &Record) -> bool
    ensures { result ≡ (is_open && not (is_on (record_parts item.now))) }
{
    is_open && !is_channel(item)
}

impl Filling {
    /// Ends the batch that is filled; the next one begins with this number.
    fn end(&mut self, alloc: Global, next: u64) -> Result<(), OutOfMemory>
        requires number { self.old.next ≡ Some next }
        requires may_end { self.old.is_open ≡ true }
        ensures { OnOk result ((k j : KeptParts) → Leaves self.old k j → Leaves self.new k j) }
    {
        let mut batch = Vec::new(alloc);
        batch.push(Record::Next(next))?;
        let whole = mem::replace(&mut self.batch, batch);
        self.whole.push(whole)?;
        self.size = LINE_SIZE;
        Ok(())
    }

    /// Ends the batch that is filled, if it has no room for a record of this many bytes and may
    /// end. Channels stay together.
    fn make_room(&mut self, alloc: Global, item: &Record, size: usize) -> Result<(), OutOfMemory>
        ensures { OnOk result ((k j : KeptParts) → Leaves self.old k j → Leaves self.new k j) }
    {
        if self.size.saturating_add(size) <= BATCH_SIZE || !stays_open(self.is_open, item) {
            return Ok(());
        }
        match self.next {
            Some(next) => {
                self.end(alloc, next)?;
                Ok(())
            }
            None => Ok(()),
        }
    }

    /// Adds a record to the batch that is filled.
    fn push(&mut self, item: Record, size: usize) -> Result<(), OutOfMemory>
        ensures { OnOk result ((k i j : KeptParts) → Leaves self.old k i →
            after (record_parts item) i ≡ Ok j → Leaves self.new k j) }
    {
        self.next = next_after(&item, self.next);
        self.is_open = stays_open(self.is_open, &item);
        self.size = self.size.saturating_add(size);
        self.batch.push(item)?;
        Ok(())
    }

    /// Adds a record.
    fn add(&mut self, alloc: Global, item: Record) -> Result<(), OutOfMemory>
        ensures { OnOk result ((k i j : KeptParts) → Leaves self.old k i →
            after (record_parts item) i ≡ Ok j → Leaves self.new k j) }
    {
        let size = size_of(&item);
        self.make_room(alloc, &item, size)?;
        self.push(item, size)?;
        Ok(())
    }
}

/// Records as batches; all of these but the last have no channels.
fn in_batches(alloc: Global, records: Vec<Record>) -> Result<Vec<Vec<Record>>, OutOfMemory>
    ensures { IfOk result (λ r. DoTheSame (parts_of_all records.items) (texts_of r.items)) }
{
    let mut filling = Filling {
        whole: Vec::new(alloc),
        batch: Vec::new(alloc),
        size: 0,
        next: None,
        is_open: true,
    };
    for item in records {
        filling.add(alloc, item)?;
    }
    let mut batches = filling.whole;
    batches.push(filling.batch)?;
    Ok(batches)
}

/// Appends batches, each as a frame.
fn push_all(alloc: Global, out: &mut Vec<u8>, batches: &[Vec<Record>]) -> Result<(), PushError>
    ensures ok { OnOk result
        (out.new.items ≡ out.old.items ++ journal_of (texts_of batches.now)) }
    ensures sound { OnOk result (AreBatches (texts_of batches.now)) }
    ensures err { OnErr result ((more : List ℕ) × (out.new.items ≡ out.old.items ++ more)) }
{
    let mut rest = batches;
    while let [batch, after @ ..] = rest {
        push_batch(alloc, out, batch)?;
        rest = after;
    }
    Ok(())
}

/// Appends records as batches of at most 1 MiB, each as a frame: a batch ends before the record for
/// which it has no room, and the next one begins with the number of its first message. All channels
/// are in the last one. What is kept after the batches is what is kept after one batch of all
/// records. After an error `out` is unchanged.
pub fn push_batches(alloc: Global, out: &mut Vec<u8>, records: Vec<Record>) -> Result<(), PushError>
    ensures ok { OnOk result
        (AreWritten (parts_of_all records.items) out.old.items out.new.items) }
    ensures err { OnErr result (out.new.items ≡ out.old.items) }
{
    let batches = in_batches(alloc, records)?;
    let before = out.len();
    match push_all(alloc, out, &batches) {
        Ok(()) => Ok(()),
        Err(e) => {
            out.truncate(before);
            Err(e)
        }
    }
}

//! A journal that is written.

ghost use Rattle.std.specs.Prelude.{◌≡◌, IfOk, List, OnErr, OnOk};
ghost use Rattle.history.specs.Entry.{EntryParts};
ghost use Rattle.journal.specs.Changes.{WasWritten, grown};
ghost use Rattle.journal.specs.Kept.{KeptParts};
ghost use Rattle.journal.specs.Recalls.{CanBegin};
ghost use Rattle.journal_writer.specs.Dues.{GoesOn, IsDue, written_by};

use crate::due::{Due, batch_bytes, due_by, file_bytes, wanted_by};
use crate::hubs::{channels_of, latest_of};
use crate::opening::{NoJournal, parts};
use history::{History, Marks};
use hub_core::Past;
use hub_threads::RingHub;
use journal::{PushError, RecallError, Recalled, Written, recall, what_changed};
use journal_files::{Disk, Fault, JournalFile, OpenError};
use net_view::NetworkView;
use std::alloc::{AllocError, Global};
use std::marker::Model;
use thiserror::Error;

/// Why a file does not hold all. It is tried again, with all that came since.
#[derive(Debug, Drop, Error)]
pub enum WriteError {
    /// The disk.
    #[error("{0}")]
    Disk(Fault),
    /// A name or a message is in no line.
    #[error("not a line")]
    NotALine,
    /// An allocation was refused.
    #[error("out of memory")]
    OutOfMemory,
}

impl From<AllocError> for WriteError {
    fn from(_e: AllocError) -> WriteError {
        WriteError::OutOfMemory
    }
}

impl From<PushError> for WriteError {
    fn from(e: PushError) -> WriteError {
        match e {
            PushError::NoRecord | PushError::TooLong => WriteError::NotALine,
            PushError::OutOfMemory => WriteError::OutOfMemory,
        }
    }
}

/// What is left of before without its messages: the next one has the number that it would have had.
fn without_messages(alloc: Global, past: Past, capacity: usize) -> Result<Past, RecallError>
    ensures begins { IfOk result (λ past. CanBegin past.history) }
{
    let first = past.history.next_number().unwrap_or(u64::MAX);
    let Past {
        history: _,
        marks,
        channels,
    } = past;
    Ok(Past {
        history: History::new(alloc, capacity, first)?,
        marks,
        channels,
    })
}

/// What is left of before: all, or all but the messages.
fn past_for(
    alloc: Global,
    past: Past,
    capacity: usize,
    with_messages: bool,
) -> Result<Past, RecallError>
    requires { CanBegin past.history }
    ensures begins { IfOk result (λ past. CanBegin past.history) }
{
    if with_messages {
        return Ok(past);
    }
    without_messages(alloc, past, capacity)
}

/// The journal of a network.
#[derive(Drop)]
pub struct Journal {
    file: JournalFile,
    written: Written,
    // what the sessions of each name were given
    latest: Marks,
}

impl Model for Journal {
    ghost use Rattle.std.specs.FinMap as map;
    ghost use Rattle.std.specs.Prelude.{refl};
    ghost use Rattle.std.specs.Coded.{code_by, coded_list, coded_option, coded×, coded_ℕ};
    ghost use Rattle.history.specs.Marks.{NameMarks};
    ghost use Rattle.journal.specs.contracts.changes.Written as w;
    ghost use Rattle.journal.specs.declared.changes.Written.{Written};
    ghost use Rattle.journal_writer.specs.Dues.{JournalState};

    ghost Value = { JournalState };

    ghost coded = { code_by (Written × NameMarks) (coded× w.the_row.coded
        (map.code (coded_list coded_ℕ) (coded_option coded_ℕ)))
        (λ s. (s.written, s.latest))
        (λ p. record { written = p.0; latest = p.1 }) (λ _. refl) };

    ghost view = { λ journal. record { written = journal.written; latest = journal.latest } };
}

impl Journal {
    /// The journal of a file that holds this.
    pub(crate) fn new(file: JournalFile, written: Written, latest: Marks) -> Journal
        ensures written { result.written ≡ written }
        ensures latest { result.latest ≡ latest }
    {
        Journal {
            file,
            written,
            latest,
        }
    }

    /// Where its file is.
    pub fn path(&self) -> &str {
        self.file.path()
    }

    /// What the file holds, for a network that is begun anew: with its messages, or its marks and
    /// channels alone; then the file is written anew next. After an error nothing has changed.
    pub fn again<D: Disk>(
        &mut self,
        disk: &D,
        alloc: Global,
        capacity: usize,
        with_messages: bool,
    ) -> Result<Past, NoJournal>
        ensures begins { IfOk result (λ past. CanBegin past.history) }
        ensures err { OnErr result (self.new ≡ self.old) }
    {
        let bytes = match self.file.bytes(disk, alloc) {
            Ok(bytes) => bytes,
            Err(e) => return Err(NoJournal::File(OpenError::Io(e))),
        };
        let Recalled { kept, rings, .. } = recall(alloc, capacity, 1, &bytes)?;
        let (past, mut written, latest) = parts(alloc, kept, rings)?;
        if !with_messages {
            written.next = 0;
        }
        let past = past_for(alloc, past, capacity, with_messages)?;
        self.written = written;
        self.latest = latest;
        Ok(past)
    }

    /// Takes what is due from a hub, whose lock the caller holds; and whether the writer of a session is
    /// behind, so that more will be due without any change in the hub.
    pub fn take<V: NetworkView + Drop>(
        &mut self,
        alloc: Global,
        hub: &RingHub<V>,
        now: u64,
    ) -> Result<(Due, bool), AllocError>
        ensures due { IfOk result (λ r. IsDue r.0 self.old.written hub.now.history hub.now.marks
            self.new.latest) }
        // If this is kept after what the file holds, and the history has grown by messages, what
        // there is now is kept after the batch.
        ensures goes_on { (k : KeptParts) (es : List EntryParts) → WasWritten self.old.written k →
            hub.now.history ≡ grown self.old.written.next es k.history →
            IfOk result (λ r. GoesOn r.0 k hub.now.history hub.now.marks self.new.latest) }
        ensures same { self.new.written ≡ self.old.written }
    {
        let (latest, is_behind) = latest_of(alloc, hub, &self.latest)?;
        self.latest = latest;
        let channels = channels_of(alloc, hub)?;
        let (history, marks) = (hub.history(), hub.marks());
        let latest = &self.latest;
        let change = what_changed(alloc, &self.written, history, marks, latest, &channels)?;
        let deed = self.file.next(wanted_by(&change), now);
        let rings = self.written.rings;
        let due = due_by(alloc, deed, change, rings, history, marks, latest, channels)?;
        Ok((due, is_behind))
    }

    /// Writes what is due. After an error the file holds what it held, or is written anew later.
    pub fn write<D: Disk>(
        &mut self,
        disk: &D,
        alloc: Global,
        due: Due,
        now: u64,
    ) -> Result<(), WriteError>
        ensures ok { OnOk result (self.new.written ≡ written_by due self.old.written) }
        ensures err { OnErr result (self.new.written ≡ self.old.written) }
        ensures latest { self.new.latest ≡ self.old.latest }
    {
        let (done, written) = match due {
            Due::Nothing => return Ok(()),
            Due::Append(records, written) => {
                let bytes = batch_bytes(alloc, &records)?;
                (self.file.append(disk, &bytes, now), written)
            }
            Due::Replace(records, written, wanted) => {
                let bytes = file_bytes(alloc, records, &written)?;
                (self.file.replace(disk, &bytes, wanted, now), written)
            }
        };
        match done {
            Ok(()) => {
                self.written = written;
                Ok(())
            }
            Err(fault) => Err(WriteError::Disk(fault)),
        }
    }
}

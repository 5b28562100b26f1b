//! A journal that is opened, and recalled.

ghost use Rattle.std.specs.Prelude.{◌≡◌, IfOk, false};
ghost use Rattle.journal.specs.Recalls.{CanBegin};

use crate::copying::copied;
use crate::writing::Journal;
use history::Marks;
use hub_core::{LostChannel, Past};
use journal::{Channel, Damage, Kept, RecallError, Recalled, Written, recall};
use journal_files::{Disk, JournalFile, OpenError};
use std::alloc::{AllocError, Global};
use std::io;
use thiserror::Error;

/// Why a network has no journal. Its file, if there is one, is as it was.
#[derive(Debug, Drop, Error)]
pub enum NoJournal {
    /// The file.
    #[error("{0}")]
    File(OpenError),
    /// What is in it.
    #[error("{0}")]
    Recall(RecallError),
    /// An allocation was refused.
    #[error("out of memory")]
    OutOfMemory,
}

impl From<OpenError> for NoJournal {
    fn from(e: OpenError) -> NoJournal {
        NoJournal::File(e)
    }
}

impl From<io::Error> for NoJournal {
    fn from(e: io::Error) -> NoJournal {
        NoJournal::File(OpenError::Io(e))
    }
}

impl From<RecallError> for NoJournal {
    fn from(e: RecallError) -> NoJournal {
        NoJournal::Recall(e)
    }
}

impl From<AllocError> for NoJournal {
    fn from(_e: AllocError) -> NoJournal {
        NoJournal::OutOfMemory
    }
}

/// What was found in a file.
#[derive(Clone, Copy, Debug)]
pub struct Found {
    /// How many messages.
    pub messages: usize,
    /// How many client names.
    pub names: usize,
    /// How many bytes after the good ones, which `begin` moves to the file of damaged ends.
    pub damaged: u64,
    /// Why the first batch among them does not count, if it is whole.
    pub damage: Option<Damage>,
}

/// A journal that was found. Its file is as it was.
#[derive(Drop)]
pub struct FoundJournal {
    file: JournalFile,
    // what is in it, and how much of that counts
    bytes: Vec<u8>,
    used: usize,
    written: Written,
    latest: Marks,
}

impl FoundJournal {
    /// The journal, to be written from now on; a damaged end of its file is moved to that of damaged
    /// ends. It allocates nothing, so what else a network needs is allocated before. After an error
    /// nothing is cut, and no journal is to be written.
    pub fn begin<D: Disk>(self, disk: &D) -> io::Result<Journal>
        ensures written { IfOk result (λ journal. journal.written ≡ self.written) }
        ensures latest { IfOk result (λ journal. journal.latest ≡ self.latest) }
    {
        let FoundJournal {
            mut file,
            bytes,
            used,
            written,
            latest,
        } = self;
        file.begin(disk, &bytes, used)?;
        Ok(Journal::new(file, written, latest))
    }
}

/// What was opened.
#[derive(Drop)]
pub struct Opened {
    /// The journal, which is not begun.
    pub journal: FoundJournal,
    /// What its hub goes on from.
    pub past: Past,
    /// What was found.
    pub found: Found,
}

/// The channels that are to be joined again.
fn channels_again(alloc: Global, channels: &[Channel]) -> Result<Vec<LostChannel>, AllocError> {
    let mut again = Vec::new(alloc);
    for channel in channels {
        let name = Vec::from_slice(alloc, &channel.name)?;
        let key = match &channel.key {
            Some(key) => Some(Vec::from_slice(alloc, key)?),
            None => None,
        };
        again.push(LostChannel { name, key })?;
    }
    Ok(again)
}

/// What is recalled, for a hub and for what its file holds, in which messages with rings may be or
/// not.
pub(crate) fn parts(
    alloc: Global,
    kept: Kept,
    rings: bool,
) -> Result<(Past, Written, Marks), AllocError>
    ensures begins { IfOk result (λ r. CanBegin kept.history → CanBegin r.0.history) }
    ensures rings { IfOk result (λ r. r.1.rings ≡ rings) }
{
    let Kept {
        history,
        marks,
        marked,
        channels,
    } = kept;
    let again = channels_again(alloc, &channels)?;
    let written = Written {
        next: history.next_number().unwrap_or(u64::MAX),
        marks: marked,
        latest: copied(alloc, &marks)?,
        channels,
        rings,
    };
    let latest = copied(alloc, &marks)?;
    let past = Past {
        history,
        marks,
        channels: again,
    };
    Ok((past, written, latest))
}

/// How many bytes come after those that count; none if the file is to be written anew.
fn damaged_bytes(bytes: &[u8], used: usize) -> u64 {
    if used == 0 {
        return 0;
    }
    bytes.len().saturating_sub(used) as u64
}

/// Opens the journal of this name in a folder, and recalls it for a history of this capacity. Messages
/// are numbered from 1. The file stays as it is, whatever comes of it, until the journal is begun.
pub fn open<D: Disk>(
    disk: &D,
    alloc: Global,
    folder: &str,
    name: &str,
    capacity: usize,
) -> Result<Opened, NoJournal>
    ensures begins { IfOk result (λ o. CanBegin o.past.history) }
    // So a network for which memory is refused later leaves its file as it was, too.
    ensures unbegun { IfOk result (λ o. o.journal.file.is_sound ≡ false) }
{
    let (file, bytes) = JournalFile::open(disk, alloc, folder, name)?;
    let recalled = recall(alloc, capacity, 1, &bytes)?;
    let Recalled {
        kept,
        rings,
        used,
        damage,
        ..
    } = recalled;
    let found = Found {
        messages: kept.history.len(),
        names: kept.marks.count(),
        damaged: damaged_bytes(&bytes, used),
        damage,
    };
    let (past, written, latest) = parts(alloc, kept, rings)?;
    Ok(Opened {
        journal: FoundJournal {
            file,
            bytes,
            used,
            written,
            latest,
        },
        past,
        found,
    })
}

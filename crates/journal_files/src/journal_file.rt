//! One file.

use crate::disk::{Disk, Lock};
use crate::file_state::FileState;
use crate::outcome::{Deed, Outcome, Wanted};
use std::alloc::{AllocError, Global};
use std::io;
use std::marker::Model;
use thiserror::Error;

/// Why a network has no journal. Its file, if there is one, is as it was.
#[derive(Debug, Drop, Error)]
pub enum OpenError {
    /// Another program has the lock.
    #[error("another program has it")]
    Taken,
    /// It can't be made, locked or read.
    #[error("{0}")]
    Io(io::Error),
    /// An allocation was refused.
    #[error("out of memory")]
    OutOfMemory,
}

impl From<io::Error> for OpenError {
    fn from(e: io::Error) -> OpenError {
        OpenError::Io(e)
    }
}

impl From<AllocError> for OpenError {
    fn from(_e: AllocError) -> OpenError {
        OpenError::OutOfMemory
    }
}

/// What was not done to a file. It is tried again, with all that came since.
#[derive(Debug, Drop, Error)]
pub enum Fault {
    /// A batch was not appended.
    #[error("not written: {0}")]
    NotWritten(io::Error),
    /// A batch was not synced: a new file will take its place.
    #[error("not synced: {0}")]
    NotSynced(io::Error),
    /// What was written in part was not cut off: a new file will take its place.
    #[error("not cut: {0}")]
    NotCut(io::Error),
    /// A new file did not take its place.
    #[error("not written anew: {0}")]
    NotReplaced(io::Error),
}

/// What was in a file that was opened.
#[derive(Clone, Copy, Debug, PartialEq, Eq)]
pub enum Beginning {
    /// Nothing of use: it is written anew.
    Fresh,
    /// All of it counts.
    Whole,
    /// This many bytes after those that count were moved to the file of damaged ends.
    Cut(u64),
}

/// The file of a network's journal, `FOLDER/NAME`, with those beside it: `NAME:lock`, which is held,
/// `NAME:new` and `NAME:damaged`. No name holds a colon.
#[derive(Drop)]
pub struct JournalFile {
    folder: String,
    path: String,
    replacement: String,
    damaged: String,
    lock: Lock,
    state: FileState,
}

impl Model for JournalFile {
    ghost use Rattle.journal_files.specs.declared.file_state.FileState.{FileState};

    ghost Value = { FileState };

    ghost view = { λ file. file.state };
}

impl JournalFile {
    ghost use Rattle.std.specs.Prelude.{◌≡◌, IfOk, OnErr, OnOk, false, length};
    ghost use Rattle.journal_files.specs.FileStates.{appended, begun, deed_for, fault_pause, not_replaced, replaced, sum_within};

    /// Locks the file of this name in a folder, which is made if there is none, and reads it. The
    /// bytes are none if there is no file.
    pub fn open<D: Disk>(
        disk: &D,
        alloc: Global,
        folder: &str,
        name: &str,
    ) -> Result<(JournalFile, Vec<u8>), OpenError>
        // It is not begun: nothing is cut yet, and nothing will be appended.
        ensures unbegun { IfOk result (λ r. r.0.is_sound ≡ false) }
    {
        let path = format!(in alloc; "{folder}/{name}")?;
        let lock = format!(in alloc; "{folder}/{name}:lock")?;
        let file = JournalFile {
            folder: String::from_str(alloc, folder)?,
            replacement: format!(in alloc; "{folder}/{name}:new")?,
            damaged: format!(in alloc; "{folder}/{name}:damaged")?,
            lock: locked(disk, folder, lock.as_str())?,
            path,
            state: FileState::fresh(),
        };
        match disk.read(alloc, file.path.as_str())? {
            Some(bytes) => Ok((file, bytes)),
            None => Ok((file, Vec::new(alloc))),
        }
    }

    /// Goes on after those of its bytes that count, at the front; moves the others to the file of
    /// damaged ends. It allocates nothing. After an error nothing is cut, and no journal is to be
    /// written.
    pub fn begin<D: Disk>(&mut self, disk: &D, bytes: &[u8], used: usize) -> io::Result<Beginning>
        ensures ok { IfOk result (λ beginning. self.new ≡ begun beginning used self.old) }
        ensures err { OnErr result (self.new ≡ self.old) }
    {
        if used == 0 || used > bytes.len() {
            return Ok(Beginning::Fresh);
        }
        let (_front, rest) = bytes.split_at(used);
        if rest.is_empty() {
            self.state = FileState::of_size(used as u64);
            return Ok(Beginning::Whole);
        }
        let saved = disk.append(self.damaged.as_str(), rest);
        if let Some(e) = saved.error {
            return Err(e);
        }
        disk.cut(self.path.as_str(), used as u64)?;
        self.state = FileState::of_size(used as u64);
        Ok(Beginning::Cut(rest.len() as u64))
    }

    /// Where it is.
    pub fn path(&self) -> &str {
        self.path.as_str()
    }

    /// Its bytes as they are now.
    pub fn bytes<D: Disk>(&self, disk: &D, alloc: Global) -> io::Result<Vec<u8>> {
        match disk.read(alloc, self.path.as_str())? {
            Some(bytes) => Ok(bytes),
            None => Ok(Vec::new(alloc)),
        }
    }

    /// What is to be done to it now.
    pub fn next(&self, wanted: Wanted, now: u64) -> Deed
        ensures { result ≡ deed_for wanted now self.now }
    {
        self.state.next(wanted, now)
    }

    /// Appends a batch. After a fault nothing is done for a while.
    pub fn append<D: Disk>(&mut self, disk: &D, frame: &[u8], now: u64) -> Result<(), Fault>
        ensures ok { OnOk result (self.new ≡ appended Outcome.Done (length frame.now) now self.old) }
        ensures err { OnErr result (self.new.rest_until ≡ sum_within now fault_pause) }
    {
        let done = disk.append(self.path.as_str(), frame);
        let cut = self.state.appended(done.outcome, frame.len() as u64, now);
        if let Some(size) = cut {
            if let Err(e) = disk.cut(self.path.as_str(), size) {
                self.state.not_cut();
                return Err(Fault::NotCut(e));
            }
        }
        let error = match done.error {
            Some(e) => e,
            None => io::ErrorKind::Other.into(),
        };
        match done.outcome {
            Outcome::Done => Ok(()),
            Outcome::NotWritten => Err(Fault::NotWritten(error)),
            Outcome::NotSynced => Err(Fault::NotSynced(error)),
        }
    }

    /// Puts a new file of these bytes in its place.
    pub fn replace<D: Disk>(
        &mut self,
        disk: &D,
        bytes: &[u8],
        wanted: Wanted,
        now: u64,
    ) -> Result<(), Fault>
        ensures ok { OnOk result (self.new ≡ replaced (length bytes.now)) }
        ensures err { OnErr result (self.new ≡ not_replaced wanted now self.old) }
    {
        let (folder, new) = (self.folder.as_str(), self.replacement.as_str());
        match disk.replace(folder, new, self.path.as_str(), bytes) {
            Ok(()) => {
                self.state.replaced(bytes.len() as u64);
                Ok(())
            }
            Err(e) => {
                self.state.not_replaced(wanted, now);
                Err(Fault::NotReplaced(e))
            }
        }
    }
}

/// Makes a folder, and locks a file in it.
fn locked<D: Disk>(disk: &D, folder: &str, path: &str) -> Result<Lock, OpenError> {
    disk.make_folder(folder)?;
    match disk.lock(path)? {
        Some(lock) => Ok(lock),
        None => Err(OpenError::Taken),
    }
}

//! A small disk in memory, which may have a fault.

use journal_files::{Appending, Disk, Lock, Outcome};
use std::alloc::Global;
use std::cell::{Cell, RefCell};
use std::io::{self, ErrorKind};

/// What is wrong with a disk.
#[derive(Clone, Copy)]
pub enum Trouble {
    /// Nothing.
    Nothing,
    /// It is full after two more bytes.
    Full,
    /// The same, and no file can be cut.
    FullForGood,
    /// No file can be synced.
    Unsynced,
    /// Another program has the lock.
    Locked,
}

/// A disk in memory, with one file and that of its damaged ends.
#[derive(Drop)]
pub struct SmallDisk {
    /// What is wrong with it now.
    pub trouble: Cell<Trouble>,
    /// The file.
    pub file: RefCell<Vec<u8>>,
    /// The file of damaged ends.
    pub damaged: RefCell<Vec<u8>>,
}

/// A disk whose file has these bytes.
pub fn disk(alloc: Global, file: Vec<u8>, trouble: Trouble) -> SmallDisk {
    SmallDisk {
        trouble: Cell::new(trouble),
        file: RefCell::new(file),
        damaged: RefCell::new(Vec::new(alloc)),
    }
}

/// Cuts a file, and adds bytes to it.
fn change(file: &RefCell<Vec<u8>>, size: usize, more: &[u8]) -> io::Result<()> {
    let Ok(mut file) = file.try_borrow_mut() else {
        return Err(ErrorKind::ResourceBusy.into());
    };
    file.truncate(size);
    match file.extend_from_slice(more) {
        Ok(()) => Ok(()),
        Err(_) => Err(ErrorKind::OutOfMemory.into()),
    }
}

/// What came of an attempt to append, if it failed so.
fn failed(outcome: Outcome, kind: ErrorKind) -> Appending {
    Appending {
        outcome,
        error: Some(kind.into()),
    }
}

impl Disk for SmallDisk {
    fn make_folder(&self, _path: &str) -> io::Result<()> {
        Ok(())
    }

    fn lock(&self, _path: &str) -> io::Result<Option<Lock>> {
        match self.trouble.get() {
            Trouble::Locked => Ok(None),
            _ => Ok(Some(Lock { file: None })),
        }
    }

    fn read(&self, alloc: Global, _path: &str) -> io::Result<Option<Vec<u8>>> {
        let Ok(file) = self.file.try_borrow() else {
            return Err(ErrorKind::ResourceBusy.into());
        };
        match Vec::from_slice(alloc, &file) {
            Ok(bytes) => Ok(Some(bytes)),
            Err(_) => Err(ErrorKind::OutOfMemory.into()),
        }
    }

    fn append(&self, path: &str, bytes: &[u8]) -> Appending {
        let is_damaged = path.ends_with(":damaged");
        let file = if is_damaged {
            &self.damaged
        } else {
            &self.file
        };
        let is_full = matches!(self.trouble.get(), Trouble::Full | Trouble::FullForGood);
        let room = if is_full {
            bytes.len().min(2)
        } else {
            bytes.len()
        };
        if let Err(e) = change(file, usize::MAX, &bytes[..room]) {
            return failed(Outcome::NotWritten, e.kind());
        }
        match self.trouble.get() {
            Trouble::Full | Trouble::FullForGood => {
                failed(Outcome::NotWritten, ErrorKind::StorageFull)
            }
            Trouble::Unsynced => failed(Outcome::NotSynced, ErrorKind::Other),
            Trouble::Nothing | Trouble::Locked => Appending {
                outcome: Outcome::Done,
                error: None,
            },
        }
    }

    fn cut(&self, _path: &str, size: u64) -> io::Result<()> {
        match self.trouble.get() {
            Trouble::FullForGood => Err(ErrorKind::StorageFull.into()),
            _ => change(&self.file, size as usize, b""),
        }
    }

    fn replace(&self, _folder: &str, _new: &str, _path: &str, bytes: &[u8]) -> io::Result<()> {
        match self.trouble.get() {
            Trouble::Full | Trouble::FullForGood => Err(ErrorKind::StorageFull.into()),
            Trouble::Unsynced => Err(ErrorKind::Other.into()),
            Trouble::Nothing | Trouble::Locked => change(&self.file, 0, bytes),
        }
    }
}

//! Where the files of journals are.

use crate::outcome::Outcome;
use std::alloc::Global;
use std::fs::{DirBuilder, File, OpenOptions, TryLockError};
use std::io::Write;
use std::os::unix::fs::{DirBuilderExt, OpenOptionsExt};
use std::{fs, io};

/// A lock that is held until it is dropped.
#[derive(Drop)]
pub struct Lock {
    /// The file that is locked; `None` if a test's disk has none.
    pub file: Option<File>,
}

/// What came of an attempt to append, with the error if it failed.
#[derive(Drop)]
pub struct Appending {
    /// What is in the file.
    pub outcome: Outcome,
    /// Why it is not done.
    pub error: Option<io::Error>,
}

/// A disk, as a thread that was started may use it, or a test's own. Paths are texts.
pub trait Disk {
    /// Makes a folder that only its owner can read, with those that it is in, if there is none.
    fn make_folder(&self, path: &str) -> io::Result<()>;

    /// Locks a file, which is made if there is none, for this program alone; `None` if another has
    /// it.
    fn lock(&self, path: &str) -> io::Result<Option<Lock>>;

    /// The bytes of a file; `None` if there is none.
    fn read(&self, alloc: Global, path: &str) -> io::Result<Option<Vec<u8>>>;

    /// Appends bytes to a file, which is made if there is none, and syncs them.
    fn append(&self, path: &str, bytes: &[u8]) -> Appending;

    /// Cuts a file.
    fn cut(&self, path: &str, size: u64) -> io::Result<()>;

    /// Writes bytes to a new file beside another one, syncs it, puts it in that one's place, and
    /// syncs their folder.
    fn replace(&self, folder: &str, new: &str, path: &str, bytes: &[u8]) -> io::Result<()>;
}

/// A file that only its owner can read, to be appended to.
fn open_to_append(rt: &HostRuntime, path: &str) -> io::Result<File> {
    let mut options = OpenOptions::new();
    options.append(true).create(true).mode(0o600);
    options.open(rt, path)
}

/// An empty file that only its owner can read.
fn open_anew(rt: &HostRuntime, path: &str) -> io::Result<File> {
    let mut options = OpenOptions::new();
    options.write(true).create(true).truncate(true).mode(0o600);
    options.open(rt, path)
}

/// Appends bytes to an open file, and syncs them.
fn append_to(file: &mut File, bytes: &[u8]) -> Appending {
    if let Err(e) = file.write_all(bytes) {
        return Appending {
            outcome: Outcome::NotWritten,
            error: Some(e),
        };
    }
    match file.sync_data() {
        Ok(()) => Appending {
            outcome: Outcome::Done,
            error: None,
        },
        Err(e) => Appending {
            outcome: Outcome::NotSynced,
            error: Some(e),
        },
    }
}

impl Disk for HostRuntime {
    fn make_folder(&self, path: &str) -> io::Result<()> {
        let mut builder = DirBuilder::new();
        builder.recursive(true).mode(0o700);
        builder.create(self, path)
    }

    fn lock(&self, path: &str) -> io::Result<Option<Lock>> {
        let file = open_to_append(self, path)?;
        match file.try_lock() {
            Ok(()) => Ok(Some(Lock { file: Some(file) })),
            Err(TryLockError::WouldBlock) => Ok(None),
            Err(TryLockError::Error(e)) => Err(e),
        }
    }

    fn read(&self, _alloc: Global, path: &str) -> io::Result<Option<Vec<u8>>> {
        match fs::read(self, path) {
            Ok(bytes) => Ok(Some(bytes)),
            Err(e) if e.kind() == io::ErrorKind::NotFound => Ok(None),
            Err(e) => Err(e),
        }
    }

    fn append(&self, path: &str, bytes: &[u8]) -> Appending {
        match open_to_append(self, path) {
            Ok(file) => {
                let mut file = file;
                append_to(&mut file, bytes)
            }
            Err(e) => Appending {
                outcome: Outcome::NotWritten,
                error: Some(e),
            },
        }
    }

    fn cut(&self, path: &str, size: u64) -> io::Result<()> {
        let file = open_to_append(self, path)?;
        file.set_len(size)?;
        file.sync_all()
    }

    fn replace(&self, folder: &str, new: &str, path: &str, bytes: &[u8]) -> io::Result<()> {
        let mut file = open_anew(self, new)?;
        file.write_all(bytes)?;
        file.sync_all()?;
        fs::rename(self, new, path)?;
        let folder = File::open(self, folder)?;
        folder.sync_all()
    }
}

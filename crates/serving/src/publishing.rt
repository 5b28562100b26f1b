//! Files that other programs read.

use std::{fs, io};

/// What writes files that other programs read, as a thread that was started may use it.
pub trait Publish {
    /// Writes a text into a new file, and puts that one in the place of the file at a path.
    fn publish(&self, new: &str, path: &str, text: &[u8]) -> io::Result<()>;
}

impl Publish for HostRuntime {
    fn publish(&self, new: &str, path: &str, text: &[u8]) -> io::Result<()> {
        fs::write(self, new, text)?;
        fs::rename(self, new, path)
    }
}

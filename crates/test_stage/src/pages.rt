//! `Page` and `Scribe`: a writer whose bytes a test can read when it is gone.

use std::alloc::Global;
use std::io::{self, Write};
use std::sync::{Arc, Mutex, Wait};
use std::test::Fail;

/// Bytes that were written, for a test to read.
pub type Page = Arc<Mutex<Vec<u8>>, Global>;

/// An empty page, with room for 2,000 bytes, so that no write asks for memory.
pub fn page(alloc: Global) -> Result<Page, Fail> {
    Ok(Arc::new(alloc, Mutex::new(Vec::with_capacity(alloc, 2_000)?))?)
}

/// A writer to a page.
#[derive(Drop)]
pub struct Scribe<R: Wait> {
    pub rt: R,
    pub page: Page,
}

impl<R: Wait> Write for Scribe<R> {
    fn write(&mut self, buf: &[u8]) -> io::Result<usize> {
        let mut page = self.page.lock(&self.rt);
        page.write(buf)
    }

    fn flush(&mut self) -> io::Result<()> {
        Ok(())
    }
}

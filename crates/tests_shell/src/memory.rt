//! `Memory`: a connection in memory.

use shell::{Neighbours, Wire};
use std::alloc::{AllocError, Global};
use std::io::{self, Read};
use std::time::Duration;
use test_streams::Pieces;

/// A connection in memory, which may be shut.
#[derive(Drop)]
pub(crate) struct Memory {
    pub(crate) pieces: Pieces,
    pub(crate) is_shut: bool,
}

impl Memory {
    /// One that gives these texts, each as a piece, and is not shut.
    pub(crate) fn new(alloc: Global, texts: &[&[u8]]) -> Result<Memory, AllocError> {
        Ok(Memory {
            pieces: Pieces::new(alloc, texts)?,
            is_shut: false,
        })
    }
}

impl Read for Memory {
    fn read(&mut self, buf: &mut [u8]) -> io::Result<usize> {
        self.pieces.read(buf)
    }
}

impl Wire for Memory {
    fn limit_reads(&mut self, _time: Option<Duration>) -> io::Result<()> {
        Ok(())
    }

    fn is_shut(&self) -> bool {
        self.is_shut
    }
}

/// Neighbours that take all.
#[derive(Clone, Copy)]
pub(crate) struct Idle;

impl Neighbours for Idle {
    fn is_crowded(&self) -> bool {
        false
    }

    fn take_changed(&self) -> bool {
        false
    }
}

/// What one read gives; nothing at the end.
pub(crate) fn next<I: Read>(alloc: Global, input: &mut I) -> io::Result<Vec<u8>> {
    let mut buffer = [0u8; 64];
    let count = input.read(&mut buffer)?;
    Ok(Vec::from_slice(alloc, &buffer[..count])?)
}

/// Whether one read gives this.
pub(crate) fn gives<I: Read>(alloc: Global, input: &mut I, want: &[u8]) -> io::Result<bool> {
    Ok(next(alloc, input)?.as_slice() == want)
}

//! `Pieces`: a reader that gives an input in pieces.

use std::alloc::{AllocError, Global};
use std::io::{self, ErrorKind, Read};

/// A reader that gives an input in pieces. A call never gives bytes of two pieces.
///
/// A test sets the public fields to what it needs; `new` sets no limit and no fault.
#[derive(Drop)]
pub struct Pieces {
    pieces: Vec<Vec<u8>>,
    // the place of the next piece, and how many bytes of it were read
    next: usize,
    at: usize,
    /// How many bytes a call gives at most.
    pub a_call: usize,
    /// How many calls are left that may give bytes.
    pub good_calls: usize,
    /// How each call fails after the last good one, and after the last byte. If there is none, such a
    /// call answers that the input has ended.
    pub fault: Option<ErrorKind>,
}

impl Pieces {
    /// One that gives these texts, each as a piece.
    pub fn new(alloc: Global, texts: &[&[u8]]) -> Result<Pieces, AllocError> {
        let mut pieces = Vec::new(alloc);
        for text in texts {
            pieces.push(Vec::from_slice(alloc, text)?)?;
        }
        Ok(Pieces {
            pieces,
            next: 0,
            at: 0,
            a_call: usize::MAX,
            good_calls: usize::MAX,
            fault: None,
        })
    }

    /// One that gives each line of a text as a piece, with its LF.
    pub fn of_lines(alloc: Global, text: &[u8]) -> Result<Pieces, AllocError> {
        let mut all = Pieces::new(alloc, &[])?;
        let mut line = Vec::new(alloc);
        for byte in text {
            line.push(*byte)?;
            if *byte == b'\n' {
                all.pieces.push(line)?;
                line = Vec::new(alloc);
            }
        }
        all.pieces.push(line)?;
        Ok(all)
    }

    /// The bytes that were not read.
    pub fn unread(&self, alloc: Global) -> Result<Vec<u8>, AllocError> {
        let mut unread = Vec::new(alloc);
        let mut at = self.at;
        for piece in self.pieces.iter().skip(self.next) {
            unread.extend_from_slice(&piece[at.min(piece.len())..])?;
            at = 0;
        }
        Ok(unread)
    }
}

impl Read for Pieces {
    fn read(&mut self, buf: &mut [u8]) -> io::Result<usize> {
        let piece = match self.pieces.get(self.next) {
            Some(piece) if self.good_calls > 0 => piece,
            _ => {
                return match self.fault {
                    Some(kind) => Err(io::Error::from(kind)),
                    None => Ok(0),
                };
            }
        };
        let left = &piece[self.at.min(piece.len())..];
        let count = left.len().min(buf.len()).min(self.a_call);
        buf[..count].copy_from_slice(&left[..count]);
        self.good_calls -= 1;
        if count < left.len() {
            self.at = self.at.saturating_add(count);
        } else {
            self.next = self.next.saturating_add(1);
            self.at = 0;
        }
        Ok(count)
    }
}

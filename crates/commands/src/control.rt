//! `bnc control FILE WORD ..`: a line for the program that serves a settings file.

use crate::Control;
use crate::fault::Fault;
use std::alloc::{AllocError, Global};
use std::fs::{File, OpenOptions, TryLockError};
use std::io::Write;
use std::os::unix::fs::{FileTypeExt, MetadataExt};
use std::rt::Files;

/// How many bytes a FIFO takes at once, if it takes any (PIPE_BUF).
const AT_ONCE: usize = 4_096;

/// The line that the words make, with LF.
fn line_of(alloc: Global, control: &Control) -> Result<String, AllocError> {
    let mut line = String::from_str(alloc, control.word.as_str())?;
    if let Some(network) = &control.network {
        line.push(' ')?;
        line.push_str(network.as_str())?;
    }
    if let Some(name) = &control.name {
        line.push(' ')?;
        line.push_str(name.as_str())?;
    }
    line.push('\n')?;
    Ok(line)
}

/// The FIFO at a path if a program has it open and locked, as `bnc serve` does.
fn read_fifo<R: AllocGlobal + Files<File = File>>(rt: &R, path: &str) -> Option<File> {
    // opened for reading too, so that it is there at once if nobody reads
    let fifo = OpenOptions::new()
        .read(true)
        .write(true)
        .open(rt, path)
        .ok()?;
    if !fifo.metadata().ok()?.file_type().is_fifo() {
        return None;
    }
    match fifo.try_lock() {
        Err(TryLockError::WouldBlock) => Some(fifo),
        _ => None,
    }
}

/// Sends the program that serves a settings file a line: the words, with spaces between them. It does
/// not wait. If no program reads the FIFO beside the file, also because one that has it open is
/// stopped and the FIFO full, nothing is sent, nor is a line of more than 4,096 bytes.
pub fn send_control<R: AllocGlobal + Files<File = File>>(
    rt: &R,
    control: &Control,
) -> Result<(), Fault> {
    let path = format!(in rt.alloc(); "{}.control", control.file)?;
    let line = line_of(rt.alloc(), control)?;
    if line.len() > AT_ONCE {
        return Err(Fault::LineTooLong);
    }
    let Some(mut fifo) = read_fifo(rt, path.as_str()) else {
        return Err(Fault::NobodyReads(path));
    };
    if !keep::has_room(&fifo) {
        return Err(Fault::NobodyReads(path));
    }
    match fifo.write_all(line.as_bytes()) {
        Ok(()) => Ok(()),
        Err(_) => Err(Fault::CannotWrite),
    }
}

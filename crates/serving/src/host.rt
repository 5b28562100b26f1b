//! What the threads of the program ask of their runtime.

use journal_writer::Disk;
use std::random::RandomSource;
use std::rt::Clock;
use std::sync::Wait;
use std::thread::Threads;

/// Threads that wait, read the clock, draw random bytes and write the files of journals. Sockets
/// are a bound of their own, since a function that takes no handle of sockets is not to name their
/// types.
pub trait Host: Threads
    + Wait
    + Clock
    + RandomSource
    + Disk
    + Copy
    + Send
    + Sync
    + Drop
    + 'static {}

impl<R: Threads + Wait + Clock + RandomSource + Disk + Copy + Send + Sync + Drop + 'static> Host
    for R {}

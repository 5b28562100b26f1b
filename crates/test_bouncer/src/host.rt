//! `Host`: what the bouncer in a test asks of its runtime.

use journal_files::Disk;
use std::random::RandomSource;
use std::rt::Clock;
use std::sync::Wait;
use std::thread::Threads;

/// Threads that wait, read the clock, draw random bytes, have a disk and write a log. Sockets are a
/// bound of their own, since a function that takes no handle of sockets is not to name their types.
pub trait Host: Threads
    + Wait
    + Clock
    + RandomSource
    + Disk
    + Eprint
    + Copy
    + Send
    + Sync
    + Drop
    + 'static {}

impl<
    R: Threads + Wait + Clock + RandomSource + Disk + Eprint + Copy + Send + Sync + Drop + 'static,
> Host for R {}

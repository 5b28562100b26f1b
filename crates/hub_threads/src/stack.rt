//! Threads that take little of the address space.

use std::thread::Builder;

/// The stack of a thread, in bytes, in place of the system's (8 MiB as a rule). What a thread needs
/// much of lies in its heap.
const STACK: usize = 1_048_576;

/// How the program's threads are started: with a stack of 1 MiB, so that a limit of the address space
/// leaves the memory to what is kept.
pub fn small_thread() -> Builder {
    Builder::new().stack_size(STACK)
}

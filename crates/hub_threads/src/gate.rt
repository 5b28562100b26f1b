//! Where workers are, and what time it is.

use client_caps::Moment;

/// Where a worker is.
#[derive(Clone, Copy, Debug, PartialEq, Eq)]
pub enum Point {
    /// Before a read.
    BeforeRead,
    /// After a read.
    AfterRead,
    /// Before each write.
    BeforeWrite,
    /// After all that was taken has been written and flushed.
    AfterWrite,
    /// After the last write of a writer that has taken a packet: it writes no more.
    AtEnd,
    /// Before the lock is taken for an item.
    BeforeStep,
    /// After the lock was let go.
    AfterStep,
}

/// What a worker passes at each point. No lock is held there, so a test can hold a worker.
pub trait Gate {
    /// Returns once the worker may go on.
    fn pass(&self, point: Point);
}

/// A gate that holds nobody.
#[derive(Clone, Copy)]
pub struct FreeGate;

impl Gate for FreeGate {
    fn pass(&self, _point: Point) {}
}

/// Says what time it is: which moment it is, and how long something took.
pub trait Clock {
    /// The moment that it is now, by the clock that is set.
    fn now(&self) -> Moment;

    /// How many milliseconds have gone by since a moment that stays the same. Nobody sets this
    /// clock, so waiting goes by it.
    fn ticks(&self) -> u64;
}

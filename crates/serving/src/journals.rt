//! Where journals are kept, and what the thread that writes them sleeps on.

use std::sync::Wait;
use std::sync::atomic::{AtomicBool, Ordering};
use std::thread::Parker;
use std::time::Duration;

/// The folder of the journals, if there is one, and what the thread that writes them sleeps on: it is
/// rung when there may be something to write.
#[derive(Drop)]
pub struct Journals {
    folder: Option<String>,
    bed: Parker,
    is_rung: AtomicBool,
    // whether the writers to clients ring too, because one had not written everything
    awaits_writers: AtomicBool,
    // whether the networks of the start have opened theirs
    has_begun: AtomicBool,
    // whether what is left is written now, and then nothing more
    is_ending: AtomicBool,
}

impl Journals {
    /// Journals in this folder; none if there is none.
    pub fn new(folder: Option<String>) -> Journals {
        Journals {
            folder,
            bed: Parker::new(),
            is_rung: AtomicBool::new(false),
            awaits_writers: AtomicBool::new(false),
            has_begun: AtomicBool::new(false),
            is_ending: AtomicBool::new(false),
        }
    }

    /// Their folder.
    pub(crate) fn folder(&self) -> Option<&str> {
        self.folder.as_deref()
    }

    /// Says that each network of the start has opened its journal, or has none. From then on one that is
    /// held may be that of a network that ends now.
    pub(crate) fn note_begun(&self) {
        self.has_begun.store(true, Ordering::SeqCst);
    }

    /// Whether that was said.
    pub(crate) fn has_begun(&self) -> bool {
        self.has_begun.load(Ordering::SeqCst)
    }

    /// Says that there may be something to write. It takes no lock and waits for nobody.
    pub(crate) fn ring(&self) {
        if self.folder.is_some() && !self.is_rung.swap(true, Ordering::SeqCst) {
            self.bed.unpark();
        }
    }

    /// Says that a client's writer has nothing left to write. That rings only if one is waited for.
    pub(crate) fn ring_if_awaited(&self) {
        if self.awaits_writers.load(Ordering::SeqCst) {
            self.ring();
        }
    }

    /// Says whether a client's writer is waited for.
    pub(crate) fn await_writers(&self, awaits: bool) {
        self.awaits_writers.store(awaits, Ordering::SeqCst);
    }

    /// Waits until it is rung, no longer than the limit if there is one; whether it was rung. From
    /// then on nobody needs to ring until `answer`.
    pub(crate) fn wait<R: Wait>(&self, rt: &R, most: Option<Duration>) -> bool {
        match most {
            Some(time) => self.bed.park_timeout(rt, time),
            None => self.bed.park(rt),
        }
        self.is_rung.swap(true, Ordering::SeqCst)
    }

    /// Rests for this time, or until the service ends.
    pub(crate) fn rest<R: Wait>(&self, rt: &R, time: Duration) {
        if !self.is_ending() {
            self.bed.park_timeout(rt, time);
        }
    }

    /// Says that everything that was rung for is looked at anew.
    pub(crate) fn answer(&self) {
        self.is_rung.store(false, Ordering::SeqCst);
    }

    /// Makes the thread that writes them write what is left, and end.
    pub(crate) fn end(&self) {
        self.is_ending.store(true, Ordering::SeqCst);
        self.bed.unpark();
    }

    /// Whether that was asked for.
    pub(crate) fn is_ending(&self) -> bool {
        self.is_ending.load(Ordering::SeqCst)
    }
}

//! The journal of a network, and how writing it went.

use journal_writer::Journal;

/// For how many milliseconds after a network was begun anew it is begun anew without the messages of
/// its journal.
const SOON: u64 = 600_000;

/// After how many milliseconds something is written again that was not.
pub(crate) const AGAIN: u64 = 30_000;

/// The journal of a network, and how writing it went.
#[derive(Drop)]
pub(crate) struct KeptJournal {
    pub(crate) journal: Journal,
    // when something was not written last, if all is not written again yet
    fault: Option<u64>,
    // when its network was begun anew last
    begun_anew: Option<u64>,
    // whether what was left was written, or the log says that it was not
    is_done: bool,
}

impl KeptJournal {
    /// One that was just opened.
    pub(crate) fn new(journal: Journal) -> KeptJournal {
        KeptJournal {
            journal,
            fault: None,
            begun_anew: None,
            is_done: false,
        }
    }

    /// Notes that something was not written at a time; whether the last time all was.
    pub(crate) fn note_fault(&mut self, now: u64) -> bool {
        let is_first = !self.is_faulty();
        self.fault = Some(now);
        is_first
    }

    /// Notes that all is written; whether the last time something was not.
    pub(crate) fn note_written(&mut self) -> bool {
        let has_recovered = self.is_faulty();
        self.fault = None;
        has_recovered
    }

    /// Whether something was not written, and all is not written again yet.
    pub(crate) fn is_faulty(&self) -> bool {
        self.fault.is_some()
    }

    /// For how many milliseconds nothing is written yet, since something was not; 0 if that is over.
    pub(crate) fn rest(&self, now: u64) -> u64 {
        match self.fault {
            Some(fault) => fault.saturating_add(AGAIN).saturating_sub(now),
            None => 0,
        }
    }

    /// Whether the network was begun anew within the last ten minutes.
    pub(crate) fn was_begun_anew(&self, now: u64) -> bool {
        match self.begun_anew {
            Some(before) => now < before.saturating_add(SOON),
            None => false,
        }
    }

    /// Notes that the network was begun anew at a time.
    pub(crate) fn note_begun_anew(&mut self, now: u64) {
        self.begun_anew = Some(now);
    }

    /// Notes that what was left was written, or that the log says that it was not.
    pub(crate) fn note_done(&mut self) {
        self.is_done = true;
    }

    /// Whether that was noted.
    pub(crate) fn is_done(&self) -> bool {
        self.is_done
    }
}

//! What is known of a file.

use crate::outcome::{Deed, Outcome, Wanted};

/// For how long nothing is written after a fault, in milliseconds (our own choice).
pub const FAULT_PAUSE: u64 = 30_000;

/// Above how many bytes a file is written anew, if it is also three times as long as after its last
/// snapshot (our own choice).
pub const COMPACTION_SIZE: u64 = 4_194_304;

/// What is known of the file of a journal. Moments are in milliseconds since a fixed one.
#[derive(Clone, Copy, Debug, PartialEq, Eq)]
pub struct FileState {
    /// How many bytes its header and its whole frames have.
    pub size: u64,
    /// How many it had after its last snapshot.
    pub snapshot: u64,
    /// Whether it may be appended to.
    pub is_sound: bool,
    /// Nothing is written before this moment.
    pub rest_until: u64,
    /// It is not written anew for its length before this moment.
    pub compact_from: u64,
}

impl FileState {
    ghost use Rattle.std.specs.Prelude.{◌≡◌, ◌<◌, ℕ, None, Some, false, true};
    ghost use Rattle.journal_files.specs.FileStates.{appended, cut_after, deed_for, is_long, not_replaced, opened, replaced};

    /// No file yet, or one that holds nothing: it is to be written anew.
    pub fn fresh() -> FileState
        ensures deed { (now : ℕ) → deed_for Wanted.Batch now result ≡ Deed.Replace }
        ensures sound { result.is_sound ≡ false }
    {
        FileState {
            size: 0,
            snapshot: 0,
            is_sound: false,
            rest_until: 0,
            compact_from: 0,
        }
    }

    /// A file of this many bytes, all of which count.
    pub fn of_size(size: u64) -> FileState
        ensures { result ≡ opened size }
    {
        FileState {
            size,
            snapshot: 0,
            is_sound: true,
            rest_until: 0,
            compact_from: 0,
        }
    }

    /// Whether it is to be written anew for its length.
    fn is_long(&self) -> bool
        ensures { result ≡ is_long self.now }
    {
        self.size > COMPACTION_SIZE && self.size > self.snapshot.saturating_mul(3)
    }

    /// What is to be done now.
    pub fn next(&self, wanted: Wanted, now: u64) -> Deed
        ensures deed { result ≡ deed_for wanted now self.now }
        // A file that is not sound is never appended to, and nothing is written while it rests.
        ensures sound { result ≡ Deed.Append → self.now.is_sound ≡ true }
        ensures rests { now < self.now.rest_until → result ≡ Deed.Rest }
    {
        if now < self.rest_until {
            return Deed::Rest;
        }
        if !self.is_sound {
            return Deed::Replace;
        }
        match wanted {
            Wanted::Nothing => Deed::Rest,
            Wanted::Snapshot => Deed::Replace,
            Wanted::Batch if self.is_long() && self.compact_from <= now => Deed::Replace,
            Wanted::Batch => Deed::Append,
        }
    }

    /// A batch of this many bytes was appended, or was not. Answers where the file is to be cut.
    pub fn appended(&mut self, outcome: Outcome, bytes: u64, now: u64) -> Option<u64>
        ensures state { self.new ≡ appended outcome bytes now self.old }
        ensures cut { result ≡ cut_after outcome self.old }
        // What could not be synced is never trusted again.
        ensures synced { outcome ≡ Outcome.NotSynced → self.new.is_sound ≡ false }
    {
        match outcome {
            Outcome::Done => {
                self.size = self.size.saturating_add(bytes);
                None
            }
            Outcome::NotWritten => {
                self.rest_until = now.saturating_add(FAULT_PAUSE);
                Some(self.size)
            }
            Outcome::NotSynced => {
                self.is_sound = false;
                self.rest_until = now.saturating_add(FAULT_PAUSE);
                None
            }
        }
    }

    /// It could not be cut back: what is at its end is not known.
    pub fn not_cut(&mut self)
        ensures { self.new ≡ record self.old { is_sound = false } }
    {
        self.is_sound = false;
    }

    /// A new file with a snapshot of this many bytes took its place.
    pub fn replaced(&mut self, bytes: u64)
        ensures { self.new ≡ replaced bytes }
    {
        *self = FileState {
            size: bytes,
            snapshot: bytes,
            is_sound: true,
            rest_until: 0,
            compact_from: 0,
        };
    }

    /// No new file took its place. If it is sound and a batch would do, batches are appended to it
    /// meanwhile.
    pub fn not_replaced(&mut self, wanted: Wanted, now: u64)
        ensures { self.new ≡ not_replaced wanted now self.old }
    {
        match wanted {
            Wanted::Batch if self.is_sound => self.compact_from = now.saturating_add(FAULT_PAUSE),
            _ => self.rest_until = now.saturating_add(FAULT_PAUSE),
        }
    }
}

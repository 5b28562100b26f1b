//! What is noted of a session while it lasts.

ghost use Rattle.std.specs.Prelude.{◌≤◌, length};

use crate::OutOfMemory;
use crate::note::{Note, put};
use crate::sent::{Sent, settled, waiting_after};
use std::alloc::Global;

/// How many milliseconds lie between two of the moments at least whose messages are waited for.
const REST: u64 = 1_000;

/// The notes of a session: at most 256; the oldest goes first.
#[derive(Drop)]
pub struct Notes {
    // oldest first
    known: Vec<Note>,
    // what was sent and is not known to be written
    waiting: Option<Sent>,
    // when that was taken on last
    looked: Option<u64>,
    ghost few: { length known.items ≤ 256 },
}

impl Notes {
    ghost use Rattle.std.specs.Prelude.{◌≡◌, [], None, OnErr, OnOk};
    ghost use Rattle.receipts.specs.Notes.{is_due, noted, offered, received_by, state_of};

    /// No note, of a session that begins.
    pub fn new(alloc: Global) -> Notes
        ensures { state_of result ≡ record { known = []; waiting = None; looked = None } }
    {
        Notes {
            known: Vec::new(alloc),
            waiting: None,
            looked: None,
        }
    }

    /// Whether what the session has been sent by now is to be taken on: not within a second after the
    /// last time.
    fn is_due(&self, now: u64) -> bool
        ensures { result ≡ is_due self.now.looked now }
    {
        match self.looked {
            Some(looked) => now.saturating_sub(looked) >= REST,
            None => true,
        }
    }

    /// What is taken on of what was sent by now.
    fn offered(&self, sent: Sent, now: u64) -> Option<Sent>
        ensures { result ≡ offered self.now.looked sent now }
    {
        if self.is_due(now) { Some(sent) } else { None }
    }

    /// Looks at the session: this is what it has been sent by now, and its writer has written this
    /// many packets. What is seen to be written is noted with this moment. An error leaves all as
    /// it was.
    pub fn note(&mut self, sent: Sent, written: u64, now: u64) -> Result<(), OutOfMemory>
        ensures ok { OnOk result (state_of self.new ≡ noted sent written now (state_of self.old)) }
        ensures err { OnErr result (state_of self.new ≡ state_of self.old) }
    {
        let offered = self.offered(sent, now);
        if let Some(number) = settled(self.waiting, offered, written) {
            let moment = now;
            put(&mut self.known, Note { number, moment })?;
        }
        self.waiting = waiting_after(self.waiting, offered, written);
        if self.is_due(now) {
            self.looked = Some(now);
        }
        Ok(())
    }

    /// The number of the last message that a client surely received, whose last line came at
    /// this moment: that of the newest note that is at least this many milliseconds older.
    pub fn received_by(&self, heard: u64, margin: u64) -> Option<u64>
        ensures { result ≡ received_by heard margin self.now.known.items }
    {
        let mut received = None;
        for note in &self.known {
            if note.is_before(heard, margin) {
                received = Some(note.number);
            }
        }
        received
    }
}

//! A moment at which messages had been written to a client.

ghost use Rattle.std.specs.Prelude.{◌≡◌, ◌≤◌, OnErr, OnOk, length};
ghost use Rattle.receipts.specs.Notes.{is_before, newest, with_note};

use crate::OutOfMemory;

/// How many notes are kept at most.
const MOST: usize = 256;

/// A moment at which all messages up to one had been written to a client.
#[derive(Clone, Copy, Debug, PartialEq, Eq)]
pub struct Note {
    /// The number of that message.
    pub number: u64,
    /// The moment, in milliseconds since any other.
    pub moment: u64,
}

impl Note {
    /// Whether it is at least this many milliseconds older than that moment.
    pub(crate) fn is_before(self, moment: u64, margin: u64) -> bool
        ensures { result ≡ is_before moment margin self }
    {
        moment >= margin && self.moment <= moment - margin
    }
}

/// The number of the newest note.
fn newest(known: &[Note]) -> Option<u64>
    ensures { result ≡ newest known.now }
{
    match known.last() {
        Some(note) => Some(note.number),
        None => None,
    }
}

/// Adds a note, unless the newest one says the same already. An error leaves all as it was.
pub(crate) fn put(known: &mut Vec<Note>, note: Note) -> Result<(), OutOfMemory>
    ensures ok { OnOk result (known.new.items ≡ with_note note known.old.items) }
    ensures err { OnErr result (known.new.items ≡ known.old.items) }
    ensures few { length known.old.items ≤ 256 → length known.new.items ≤ 256 }
{
    if newest(known).is_some_and(|number| number >= note.number) {
        return Ok(());
    }
    known.push(note)?;
    if known.len() > MOST {
        known.remove(0);
    }
    Ok(())
}

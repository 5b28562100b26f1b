//! A history of the messages of lines, as a hub keeps them.

ghost use Rattle.std.specs.Prelude.{IfOk};
ghost use Rattle.std.specs.List.{AllByRecursion};
ghost use Rattle.history.specs.Entry.{IsWrittenEntry};

use client_caps::{Moment, shown_time};
use history::{Entry, History};
use std::alloc::Global;
use std::marker::Model;
use std::test::Fail;
use test_texts::line;

/// A history whose messages are those of lines.
#[derive(Drop)]
pub(crate) struct SaidLines {
    history: History,
}

impl Model for SaidLines {
    ghost use Rattle.history.specs.Messages.{AreWrittenMessages, Messages};

    ghost Value = { Messages };

    ghost view = { λ said. said.history };

    ghost invariant = { λ said. AreWrittenMessages said.history };
}

impl SaidLines {
    /// One of no messages.
    fn new(alloc: Global) -> Result<SaidLines, Fail> {
        Ok(SaidLines {
            history: History::new(alloc, 500, 1)?,
        })
    }

    /// Adds the message of a line that came at this moment, unless it has a time of its own.
    fn add(&mut self, alloc: Global, text: &[u8], moment: Moment) -> Result<(), Fail> {
        let line = line(alloc, text)?;
        let time = shown_time(&line, moment);
        let entry = Entry::of_message(alloc, &time, &line)?;
        let entry = entry.ok_or("a message")?;
        let _number = self.history.add(entry);
        Ok(())
    }

    /// Those of these lines; they come second by second.
    pub(crate) fn of(alloc: Global, rows: &[&[u8]]) -> Result<SaidLines, Fail> {
        let mut said = SaidLines::new(alloc)?;
        let mut moment = Moment(0);
        for text in rows {
            moment = Moment(moment.0.saturating_add(1000));
            said.add(alloc, text, moment)?;
        }
        Ok(said)
    }

    /// Those above a mark.
    pub(crate) fn missed(&self, alloc: Global, mark: Option<u64>) -> Result<Vec<&Entry>, Fail>
        ensures { IfOk result (λ missed.
            AllByRecursion (λ entry. IsWrittenEntry entry.now) missed.items) }
    {
        Ok(self.history.missed(alloc, mark)?)
    }
}

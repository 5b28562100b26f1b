//! Reading what a network sent, to its end.

ghost use Rattle.std.specs.Prelude.{◌≡◌, ◌++◌, ◌∷◌, [], ℕ, List, false, map, IfErr, IfOk, OnOk};
ghost use Rattle.std.specs.Io.KnownBytes.{Consumes, IsAtEnd};
ghost use Rattle.history.specs.Keeping.{Kept};
ghost use Rattle.irc_line.specs.Lines.{counted, is_too_long, skipped_of};
ghost use Rattle.net_view.specs.Arrival.{Arrival, Received};
ghost use Rattle.commands.specs.Stream.{IsRefusal, transcript_of};

use crate::fault::Fault;
use irc_line::{InputEnd, Line, LineTaker, read_from_start};
use net_view::OutOfMemory;
use std::alloc::Global;
use std::io::Read;

/// What takes the lines of an input, in order.
pub trait Taker {
    // Whether it is as these items leave it.
    ghost is_after: { Self → List Arrival → Type 0 };

    // Which messages it keeps, and how many at most.
    ghost room: { Self → Kept × ℕ };

    /// Takes the next line.
    fn take_line(&mut self, line: Line) -> Result<(), OutOfMemory>
        ensures taken { (items : List Arrival) → is_after self.old items →
            OnOk result (is_after self.new (items ++ Received line ∷ [])) }
        ensures kept { OnOk result (room self.new ≡ room self.old) };
}

/// How many bytes one read asks for.
pub const PIECE: usize = 65_536;

/// Takes lines, in order.
fn take_all<T: Taker>(taker: &mut T, lines: Vec<Line>) -> Result<(), OutOfMemory>
    ensures taken { (items : List Arrival) → T.is_after taker.old items →
        OnOk result (T.is_after taker.new (items ++ map Received lines.items)) }
    ensures kept { OnOk result (T.room taker.new ≡ T.room taker.old) }
{
    for line in lines {
        taker.take_line(line)?;
    }
    Ok(())
}

/// Takes the lines of an input one by one, until an allocation is refused.
#[derive(Drop)]
struct OneByOne<'a, T> {
    taker: &'a mut T,
}

impl<T: Taker> LineTaker<OutOfMemory> for OneByOne<'_, T> {
    ghost use Rattle.std.specs.Prelude.{◌≡◌, ◌++◌, List, map, ⊤};
    ghost use Rattle.net_view.specs.Arrival.{Arrival, Received};

    ghost is_after = { λ began lines now. (now.taker.ghost_name ≡ began.taker.ghost_name)
        × (T.room now.taker.now ≡ T.room began.taker.now)
        × ((items : List Arrival) → T.is_after began.taker.now items →
        T.is_after now.taker.now (items ++ map Received lines)) };

    ghost ends = { λ began lines refused now. ⊤ };

    fn take_lines(&mut self, lines: Vec<Line>) -> Option<OutOfMemory> {
        match take_all(self.taker, lines) {
            Ok(()) => None,
            Err(refused) => Some(refused),
        }
    }
}

/// Reads the input to its end, and answers how many lines were skipped.
pub fn read_all<T: Taker, R: Read>(
    alloc: Global,
    taker: &mut T,
    reader: &mut R,
) -> Result<u64, Fault>
    requires new { T.is_after taker.old [] }
    ensures read { IfOk result (λ skipped. (bytes : List ℕ)
        × Consumes (R.remaining reader.old) (R.remaining reader.new) bytes
        × IsAtEnd (R.remaining reader.new)
        × (is_too_long bytes ≡ false)
        × T.is_after taker.new (transcript_of bytes)
        × (T.room taker.new ≡ T.room taker.old)
        × (skipped ≡ counted (skipped_of bytes))) }
    ensures refused { IfErr result (λ fault. (bytes : List ℕ)
        × Consumes (R.remaining reader.old) (R.remaining reader.new) bytes
        × IsRefusal bytes fault) }
{
    let mut buffer = vec![in alloc; 0; PIECE]?;
    let mut lines = OneByOne { taker };
    let (end, splitter) = read_from_start(alloc, &mut lines, reader, &mut buffer);
    match end {
        InputEnd::EndOfInput => Ok(splitter.skipped()),
        InputEnd::ReadFault(error) => Err(Fault::of_reading(&error)),
        InputEnd::ReadsSpent => Err(Fault::CannotRead),
        InputEnd::TooLong => Err(Fault::LineTooLong),
        InputEnd::OutOfMemory => Err(Fault::OutOfMemory),
        InputEnd::Answered(refused) => Err(refused.into()),
    }
}

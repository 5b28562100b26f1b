//! An input that is read piece by piece, and what takes its lines.

ghost use Rattle.std.specs.Prelude.{◌≡◌, ◌++◌, ◌<◌, [], ℕ, List, IfNone, IfSome, length};
ghost use Rattle.irc_line.specs.Line.{Parts};
ghost use Rattle.irc_line.specs.Input.{IsTaken, WasRead, WasReadAnew};

use crate::line::Line;
use crate::splitter::{FeedError, Splitter};
use std::alloc::Global;
use std::io::{Error, ErrorKind, Read};

/// How many reads of an input there are at most.
pub const READ_LIMIT: u64 = 1_000_000_000;

/// The state of a reading.
#[derive(Clone, Copy, Debug, PartialEq, Eq)]
pub enum ReadPoint {
    /// Before a read.
    Before,
    /// After a read that gave bytes.
    After,
}

/// What takes the lines of an input, in order, until it answers.
pub trait LineTaker<A> {
    // From how it began, it goes on so once it has taken these lines.
    ghost is_after: { Self → List Parts → Self → Type 0 };

    // From how it began, it ended so, with this answer, at one of these lines.
    ghost ends: { Self → List Parts → A → Self → Type 0 };

    /// Takes the lines of the next piece; answers if it takes no more.
    fn take_lines(&mut self, lines: Vec<Line>) -> Option<A>
        ensures goes_on { (began : Self) (before : List Parts) → is_after began before self.old →
            IfNone result (is_after began (before ++ lines.items) self.new) }
        ensures ends { (began : Self) (before : List Parts) → is_after began before self.old →
            IfSome result (λ answer. ends began (before ++ lines.items) answer self.new) };

    /// Is called before each read, and after each that gave bytes.
    fn pass(&self, _point: ReadPoint) {}
}

/// Why an input is read no further.
#[derive(Debug, Drop)]
pub enum InputEnd<A> {
    /// What takes its lines answered this.
    Answered(A),
    /// The input ended.
    EndOfInput,
    /// A read failed.
    ReadFault(Error),
    /// With the last piece, more than `LINE_LIMIT` bytes come without LF.
    TooLong,
    /// An allocation was refused for the lines of the last piece.
    OutOfMemory,
    /// There were `READ_LIMIT` reads.
    ReadsSpent,
}

/// Takes a piece: the lines that it completes. Answers why it is the last, if it is. Of a piece
/// that is refused no line is taken, and the splitter is as it was.
fn take_piece<A, T: LineTaker<A>>(
    alloc: Global,
    splitter: &mut Splitter,
    taker: &mut T,
    piece: &[u8],
) -> Option<InputEnd<A>>
    ensures { (began : T) (before : List Parts) → T.is_after began before taker.old →
        IsTaken (λ lines. T.is_after began lines taker.new)
        (λ lines answer. T.ends began lines answer taker.new)
        before splitter.old piece.now splitter.new result }
{
    let mut lines = Vec::new(alloc);
    match splitter.feed(piece, &mut lines) {
        Ok(()) => match taker.take_lines(lines) {
            Some(answer) => Some(InputEnd::Answered(answer)),
            None => None,
        },
        Err(FeedError::TooLong) => Some(InputEnd::TooLong),
        Err(FeedError::OutOfMemory) => Some(InputEnd::OutOfMemory),
    }
}

/// Reads an input piece by piece, and has its lines taken, in order, after what the splitter
/// holds: until the taker answers, the input ends or fails, or a piece is refused. Of a piece that
/// is refused no line is taken.
///
/// It reads at most `READ_LIMIT` times. A read that is interrupted is tried again.
pub fn read_lines<A, T: LineTaker<A>, R: Read>(
    alloc: Global,
    splitter: &mut Splitter,
    taker: &mut T,
    reader: &mut R,
    buffer: &mut [u8],
) -> InputEnd<A>
    requires room { 0 < length buffer.old }
    requires begins { T.is_after taker.old [] taker.old }
    ensures { WasRead (λ lines. T.is_after taker.old lines taker.new)
        (λ lines answer. T.ends taker.old lines answer taker.new)
        splitter.old splitter.new (R.remaining reader.old) (R.remaining reader.new) result }
{
    for _ in 0..READ_LIMIT {
        taker.pass(ReadPoint::Before);
        match reader.read(buffer) {
            Ok(0) => return InputEnd::EndOfInput,
            Ok(count) => {
                taker.pass(ReadPoint::After);
                if let Some(end) = take_piece(alloc, splitter, taker, &buffer[..count]) {
                    return end;
                }
            }
            Err(error) => {
                if error.kind() != ErrorKind::Interrupted {
                    return InputEnd::ReadFault(error);
                }
            }
        }
    }
    InputEnd::ReadsSpent
}

/// Reads an input from its start as `read_lines` does; hands back the splitter too, with the bytes
/// after the last line.
#[tactic(auto, using(crate::proofs::InputRead::read_anew))]
pub fn read_from_start<A, T: LineTaker<A>, R: Read>(
    alloc: Global,
    taker: &mut T,
    reader: &mut R,
    buffer: &mut [u8],
) -> (InputEnd<A>, Splitter)
    requires room { 0 < length buffer.old }
    requires begins { T.is_after taker.old [] taker.old }
    ensures { WasReadAnew (λ lines. T.is_after taker.old lines taker.new)
        (λ lines answer. T.ends taker.old lines answer taker.new)
        (R.remaining reader.old) (R.remaining reader.new) result.0 result.1 }
{
    let mut splitter = Splitter::new(alloc);
    let end = read_lines(alloc, &mut splitter, taker, reader, buffer);
    (end, splitter)
}

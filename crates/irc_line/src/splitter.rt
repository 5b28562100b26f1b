//! A stream of bytes, cut into lines.

ghost use Rattle.std.specs.Prelude.{◌≡◌, ◌≤◌, ◌<◌, ◌+◌, ◌↔◌, ◌++◌, List, [], ◌∷◌, ℕ, IfOk, IfNone};
ghost use Rattle.std.specs.Prelude.{IfSome, OnOk, OnErr, IsErrOf, IsTrue, length, drop};
ghost use Rattle.std.specs.Prelude.{option_to_list};
ghost use Rattle.irc_line.specs.Line.{Parts};
ghost use Rattle.irc_line.specs.Reading.{line_of};
ghost use Rattle.irc_line.specs.Lines.{HasNoLf, lines_of, rest_of, skipped_of, without_cr};
ghost use Rattle.irc_line.specs.Lines.{is_skipped, is_too_long, line_limit, start, fed};

use crate::OutOfMemory;
use crate::line::Line;
use crate::scan::{split_byte, trim};
use memchr::memrchr;
use std::alloc::{AllocFailed, Allocator, Global};
use std::marker::Model;
use thiserror::Error;

/// How many bytes may come before LF. RFC 2812, section 2.3, allows 512 with CR LF; this limit is
/// our own.
pub const LINE_LIMIT: usize = 16_384;

/// Why a piece was not taken.
#[derive(Clone, Copy, Debug, PartialEq, Eq, Error)]
pub enum FeedError {
    /// With the piece, more than `LINE_LIMIT` bytes come without LF.
    #[error("line too long")]
    TooLong,
    /// An allocation was refused.
    #[error("out of memory")]
    OutOfMemory,
}

impl From<OutOfMemory> for FeedError {
    ghost use Rattle.irc_line.specs.declared.splitter.FeedError.TheVariants as fault;

    ghost from_gives = { λ _ e. e ≡ fault.OutOfMemory };

    fn from(_e: OutOfMemory) -> FeedError {
        FeedError::OutOfMemory
    }
}

/// Cuts a stream into lines, in whatever pieces it comes. A line ends at LF, and one CR before that
/// is dropped (RFC 2812, section 2.3).
#[derive(Drop)]
pub struct Splitter<A: Allocator = Global> {
    // the text after the last LF
    rest: Vec<u8, A>,
    skipped: u64,
}

impl<A: Allocator> Model for Splitter<A> {
    ghost use Rattle.std.specs.Prelude.{◌≤◌, length};
    ghost use Rattle.irc_line.specs.Lines.{HasNoLf, Pending, line_limit};

    ghost Value = { Pending };

    ghost view = { λ s. record { rest = s.rest.items; skipped = s.skipped } };

    ghost invariant = { λ s. HasNoLf s.rest.items × (length s.rest.items ≤ line_limit) };
}

fn strip_cr(segment: &[u8]) -> &[u8]
    ensures { result.now ≡ without_cr segment.now }
{
    match segment {
        [text @ .., b'\r'] => text,
        _ => segment,
    }
}

/// Whether more than `LINE_LIMIT` bytes come without LF anywhere, once the piece comes after
/// the rest.
///
/// The last LF within reach is looked for, so that most of the piece is passed over unread.
fn runs_over(rest: &[u8], piece: &[u8]) -> bool
    requires no_lf { HasNoLf rest.now }
    requires short { length rest.now ≤ line_limit }
    ensures { result ≡ is_too_long (rest.now ++ piece.now) }
{
    let mut room = LINE_LIMIT - rest.len();
    let mut left = piece;
    while left.len() > room {
        let Some(last) = memrchr(b'\n', &left[..room + 1]) else {
            return true;
        };
        left = &left[last + 1..];
        room = LINE_LIMIT;
    }
    false
}

/// Adds the line that the segment is, if any; answers whether the segment is skipped.
fn read_segment<A: Allocator + Drop, B: Allocator>(
    alloc: A,
    segment: &[u8],
    out: &mut Vec<Line<A>, B>,
) -> Result<bool, OutOfMemory>
    ensures added { OnOk result
        (out.new.items ≡ out.old.items ++ option_to_list (line_of (without_cr segment.now))) }
    ensures skips { IfOk result (λ skips. skips ≡ is_skipped (without_cr segment.now)) }
    ensures err { OnErr result (out.new.items ≡ out.old.items) }
{
    let text = strip_cr(segment);
    match Line::<A>::read(alloc, text)? {
        Some(line) => {
            out.push(line)?;
            Ok(false)
        }
        None => Ok(!trim(text).is_empty()),
    }
}

/// Adds the lines that the bytes hold; answers the text after the last LF, and how many
/// segments are skipped.
fn read_lines<'a, A: Allocator + Copy, B: Allocator>(
    alloc: A,
    bytes: &'a [u8],
    out: &mut Vec<Line<A>, B>,
) -> Result<(&'a [u8], u64), OutOfMemory>
    ensures added { OnOk result (out.new.items ≡ out.old.items ++ lines_of bytes.now) }
    ensures left { IfOk result (λ x. x.0.now ≡ rest_of bytes.now) }
    ensures skips { IfOk result (λ x. x.1 ≡ skipped_of bytes.now) }
    ensures few { IfOk result (λ x. x.1 ≤ length bytes.now) }
    ensures err { OnErr result ((more : List Parts) × (out.new.items ≡ out.old.items ++ more)) }
{
    let mut rest = bytes;
    let mut skipped = 0;
    while let Some((segment, after)) = split_byte(b'\n', rest) {
        if read_segment(alloc, segment, out)? {
            skipped += 1;
        }
        rest = after;
    }
    Ok((rest, skipped))
}

/// The lines that bytes in memory hold, in order, as a splitter gives them, but of any length: for a
/// text that was read whole. Each line takes one allocation.
pub fn lines_in<A: Allocator + Copy>(alloc: A, bytes: &[u8]) -> Result<Vec<Line<A>, A>, OutOfMemory>
    ensures { IfOk result (λ lines. lines.items ≡ lines_of bytes.now) }
{
    let mut lines = Vec::new(alloc);
    let (_rest, _skipped) = read_lines(alloc, bytes, &mut lines)?;
    Ok(lines)
}

fn drop_front<A: Allocator>(bytes: &mut Vec<u8, A>, count: usize)
    requires { count ≤ length bytes.old.items }
    ensures { bytes.new.items ≡ drop count bytes.old.items }
{
    bytes.copy_within(count.., 0);
    bytes.truncate(bytes.len() - count);
}

/// Adds the line that the rest and the bytes before the first LF are together, if any; answers
/// whether they are skipped. They may be put together in the rest.
fn read_first<A: Allocator + Copy, B: Allocator>(
    rest: &mut Vec<u8, A>,
    head: &[u8],
    out: &mut Vec<Line<A>, B>,
) -> Result<bool, OutOfMemory>
    ensures added { OnOk result
        (out.new.items
        ≡ out.old.items ++ option_to_list (line_of (without_cr (rest.old.items ++ head.now)))) }
    ensures skips { IfOk result
        (λ skips. skips ≡ is_skipped (without_cr (rest.old.items ++ head.now))) }
    ensures err { OnErr result (out.new.items ≡ out.old.items) }
    ensures grown { (more : List ℕ) × (rest.new.items ≡ rest.old.items ++ more) }
{
    if rest.is_empty() {
        return read_segment(*rest.allocator(), head, out);
    }
    rest.extend_from_slice(head)?;
    read_segment(*rest.allocator(), rest, out)
}

/// Adds the lines that the rest and the piece hold, and leaves the new rest; answers how many
/// segments are skipped. After an error more may follow the old rest and the old lines.
fn read_on<A: Allocator + Copy, B: Allocator>(
    rest: &mut Vec<u8, A>,
    piece: &[u8],
    out: &mut Vec<Line<A>, B>,
) -> Result<u64, OutOfMemory>
    requires { HasNoLf rest.old.items }
    ensures added { OnOk result
        (out.new.items ≡ out.old.items ++ lines_of (rest.old.items ++ piece.now)) }
    ensures left { OnOk result (rest.new.items ≡ rest_of (rest.old.items ++ piece.now)) }
    ensures skips { IfOk result (λ skipped. skipped ≡ skipped_of (rest.old.items ++ piece.now)) }
    ensures err_lines { OnErr result
        ((more : List Parts) × (out.new.items ≡ out.old.items ++ more)) }
    ensures err_rest { OnErr result ((more : List ℕ) × (rest.new.items ≡ rest.old.items ++ more)) }
{
    let Some((head, after)) = split_byte(b'\n', piece) else {
        rest.extend_from_slice(piece)?;
        return Ok(0);
    };
    let first_skips = read_first(rest, head, out)?;
    let (tail, skipped) = read_lines(*rest.allocator(), after, out)?;
    let done = rest.len();
    rest.extend_from_slice(tail)?;
    drop_front(rest, done);
    Ok(if first_skips { skipped + 1 } else { skipped })
}

impl<A: Allocator> Splitter<A> {
    /// A splitter at the beginning of a stream. Takes no memory.
    pub fn new(alloc: A) -> Splitter<A>
        ensures { result ≡ start }
    {
        Splitter {
            rest: Vec::new(alloc),
            skipped: 0,
        }
    }

    /// How many ended lines were outside the grammar and not blank. It stays at its greatest value,
    /// 18446744073709551615, once that is reached.
    pub fn skipped(&self) -> u64
        ensures { result ≡ self.now.skipped }
    {
        self.skipped
    }
}

impl<A: Allocator + Copy> Splitter<A> {
    /// Takes a piece of what was received, however it was cut, and adds the lines that it completes
    /// to `out`, in order. A line that is blank is dropped; another that is outside the grammar is
    /// skipped and counted.
    ///
    /// `TooLong` comes exactly if more than `LINE_LIMIT` bytes come without LF, and before
    /// memory is asked for. After an error splitter and list are unchanged. Each byte is searched
    /// for LF once, however small the pieces are, and each line takes one allocation.
    #[tactic(auto, using(crate::proofs::Limit::rest_short, crate::proofs::Segments::rest_clean))]
    pub fn feed<B: Allocator>(
        &mut self,
        piece: &[u8],
        out: &mut Vec<Line<A>, B>,
    ) -> Result<(), FeedError>
        ensures lines { OnOk result
            (out.new.items ≡ out.old.items ++ lines_of (self.old.rest ++ piece.now)) }
        ensures left { OnOk result (self.new ≡ fed self.old piece.now) }
        ensures too_long { IsErrOf result FeedError.TooLong
            ↔ IsTrue (is_too_long (self.old.rest ++ piece.now)) }
        ensures kept { OnErr result ((self.new ≡ self.old) × (out.new.items ≡ out.old.items)) }
    {
        if runs_over(&self.rest, piece) {
            return Err(FeedError::TooLong);
        }
        let held = self.rest.len();
        let count = out.len();
        match read_on(&mut self.rest, piece, out) {
            Ok(skipped) => {
                self.skipped = self.skipped.saturating_add(skipped);
                Ok(())
            }
            Err(e) => {
                out.truncate(count);
                self.rest.truncate(held);
                Err(e.into())
            }
        }
    }
}

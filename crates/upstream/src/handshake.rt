//! The registration over a reader and a writer.

ghost use Rattle.std.specs.Prelude.{◌≡◌, ◌++◌, ◌∷◌, [], ◌+◌, ℕ, List, false, take};
ghost use Rattle.std.specs.Prelude.{◌<◌, ◌≤◌, IfErr, IfNone, IfOk, IfSome, IsTrue, OnOk, drop, length};
ghost use Rattle.irc_names.specs.Nick.{is_nameable};
ghost use Rattle.std.specs.Io.KnownBytes.{Appends, Consumes};
ghost use Rattle.irc_line.specs.Line.{Parts};
ghost use Rattle.irc_line.specs.Lines.{fed, lines_of, start};
ghost use Rattle.bnc_config.specs.Settings.{NetworkSettings};
ghost use Rattle.upstream.specs.Registration.{answer_to, asked_as, first_lines, has_ended};
ghost use Rattle.upstream.specs.Handshake.{Begins, IsCauseOf, IsEndedBy, IsLinesCause, IsSendCause};
ghost use Rattle.upstream.specs.Handshake.{IsStepCause, IsWelcomeAt, IsWelcomed};
ghost use Rattle.irc_line.specs.Writing.{bytes_of};
ghost use Rattle.upstream.specs.Handshake.{all_sent, lines_in, outcome_of, sent_for};
ghost use Rattle.upstream.specs.Taken.{HasTaken};

use crate::OutOfMemory;
use crate::registration::{Register, RegisterFault, Step};
use crate::writing::{send, send_any};
use bnc_config::NetworkConfig;
use irc_line::{InputEnd, Line, LineTaker, Splitter, read_from_start};
use std::alloc::Global;
use std::io::{Read, Write};
use thiserror::Error;

/// How many bytes one read asks for.
const PIECE: usize = 4_096;

/// Why a registration over streams failed.
#[derive(Debug, Drop, Error)]
pub enum DialFault {
    /// An allocation was refused.
    #[error("out of memory")]
    Memory,
    /// A read failed, or the input ended before the registration did.
    #[error("cannot read")]
    Read,
    /// A write failed.
    #[error("cannot write")]
    Write,
    /// More than 16,384 bytes came without LF.
    #[error("line too long")]
    TooLong,
    /// The network did not take us in.
    #[error("{0}")]
    Register(RegisterFault),
}

impl From<OutOfMemory> for DialFault {
    ghost use Rattle.std.specs.Prelude.{◌≡◌};
    ghost use Rattle.upstream.specs.declared.handshake.DialFault.TheVariants as fault;

    ghost from_gives = { λ _ made. made ≡ fault.Memory };

    fn from(_refused: OutOfMemory) -> DialFault {
        DialFault::Memory
    }
}

/// What was read of a network that has taken us in.
#[derive(Drop)]
pub struct Welcomed {
    /// The splitter, with the bytes after the last line.
    pub splitter: Splitter,
    /// The lines that were read from the welcome on, in order.
    pub lines: Vec<Line>,
}

/// Takes one line, and sends what is to be sent for it; answers whether it is the welcome.
fn take_line<W: Write>(
    alloc: Global,
    register: &mut Register,
    line: &Line,
    writer: &mut W,
) -> Result<bool, DialFault>
    ensures taken { (network : NetworkSettings) (before : List Parts) →
        HasTaken network before register.old →
        OnOk result (HasTaken network (before ++ line.now ∷ []) register.new) }
    ensures sent { (network : NetworkSettings) (before : List Parts) →
        HasTaken network before register.old →
        OnOk result (Appends (W.contents writer.old) (W.contents writer.new)
        (bytes_of (lines_in (answer_to network before line.now)))) }
    ensures begun { (network : NetworkSettings) (before : List Parts) →
        HasTaken network before register.old →
        Begins (W.contents writer.old) (W.contents writer.new)
        (bytes_of (lines_in (answer_to network before line.now))) }
    ensures ended { (network : NetworkSettings) (before : List Parts) →
        HasTaken network before register.old →
        IfOk result (IsEndedBy network (answer_to network before line.now)) }
    ensures err { (network : NetworkSettings) (before : List Parts) →
        HasTaken network before register.old →
        IfErr result (IsStepCause (answer_to network before line.now)) }
{
    match register.line(line)? {
        Step::Send(lines) => {
            send_any(alloc, lines.as_slice(), writer)?;
            Ok(false)
        }
        Step::Done(lines) => {
            send(alloc, lines.as_slice(), writer)?;
            Ok(true)
        }
        Step::Fault(fault) => Err(DialFault::Register(fault)),
    }
}

/// Takes lines, in order, up to the welcome; answers its place, from 0, if it is among them.
fn take_lines<W: Write>(
    alloc: Global,
    register: &mut Register,
    lines: &[Line],
    writer: &mut W,
) -> Result<Option<usize>, DialFault>
    ensures none { (network : NetworkSettings) (before : List Parts) →
        HasTaken network before register.old → has_ended network before ≡ false →
        IfOk result (λ place. IfNone place (HasTaken network (before ++ lines.now) register.new
        × (has_ended network (before ++ lines.now) ≡ false)
        × Appends (W.contents writer.old) (W.contents writer.new)
        (bytes_of (sent_for network before lines.now)))) }
    ensures some { (network : NetworkSettings) (before : List Parts) →
        HasTaken network before register.old → has_ended network before ≡ false →
        IfOk result (λ place. IfSome place (λ i. IsWelcomeAt network before lines.now i
        × Appends (W.contents writer.old) (W.contents writer.new)
        (bytes_of (sent_for network before (take (i + 1) lines.now))))) }
    ensures err { (network : NetworkSettings) (before : List Parts) →
        HasTaken network before register.old → has_ended network before ≡ false →
        IfErr result (IsLinesCause network before lines.now) }
    ensures begun { (network : NetworkSettings) (before : List Parts) →
        HasTaken network before register.old → has_ended network before ≡ false →
        Begins (W.contents writer.old) (W.contents writer.new)
        (bytes_of (sent_for network before lines.now)) }
    ensures within { IfOk result (λ place. IfSome place (λ i. i < length lines.now)) }
{
    for (place, line) in lines.iter().enumerate() {
        if take_line(alloc, register, line, writer)? {
            return Ok(Some(place));
        }
    }
    Ok(None)
}

/// Leaves the lines from a place on.
fn drop_front(lines: &mut Vec<Line>, place: usize)
    requires { place ≤ length lines.old.items }
    ensures { lines.new.items ≡ drop place lines.old.items }
{
    lines.rotate_left(place);
    lines.truncate(lines.len() - place);
}

/// Sends what is sent before a line has come, in one write; it asks for this nick.
pub(crate) fn open<W: Write>(
    alloc: Global,
    writer: &mut W,
    network: &NetworkConfig,
    nick: &[u8],
) -> Result<Register, DialFault>
    requires { IsTrue (is_nameable nick.now) }
    ensures taken { IfOk result
        (λ register. HasTaken (asked_as network.now nick.now) [] register) }
    ensures sent { OnOk result (Appends (W.contents writer.old) (W.contents writer.new)
        (bytes_of (first_lines (asked_as network.now nick.now)))) }
    ensures begun { Begins (W.contents writer.old) (W.contents writer.new)
        (bytes_of (first_lines (asked_as network.now nick.now))) }
    ensures err { IfErr result IsSendCause }
{
    let (register, first) = Register::start_as(alloc, network, nick)?;
    send(alloc, first.as_slice(), writer)?;
    Ok(register)
}

/// The lines that were read from the welcome on, in order.
#[derive(Drop)]
struct FromWelcome {
    lines: Vec<Line>,
}

/// A registration that takes the lines of its network, and sends what is to be sent for them.
#[derive(Drop)]
struct Completing<'a, W> {
    alloc: Global,
    register: &'a mut Register,
    writer: &'a mut W,
}

impl<W: Write> LineTaker<Result<FromWelcome, DialFault>> for Completing<'_, W> {
    ghost use Rattle.std.specs.Prelude.{◌≡◌};
    ghost use Rattle.upstream.specs.Handshake.{EndsSo, GoesOn};

    ghost is_after = { λ began lines now. (now.writer.ghost_name ≡ began.writer.ghost_name)
        × GoesOn began.register.now (W.contents began.writer.now) (W.contents now.writer.now)
        now.register.now lines };

    ghost ends = { λ began lines answer now. (now.writer.ghost_name ≡ began.writer.ghost_name)
        × EndsSo began.register.now (W.contents began.writer.now) (W.contents now.writer.now)
        lines answer };

    fn take_lines(&mut self, lines: Vec<Line>) -> Option<Result<FromWelcome, DialFault>> {
        let mut lines = lines;
        match take_lines(self.alloc, self.register, lines.as_slice(), self.writer) {
            Ok(None) => None,
            Ok(Some(place)) => {
                drop_front(&mut lines, place);
                Some(Ok(FromWelcome { lines }))
            }
            Err(fault) => Some(Err(fault)),
        }
    }
}

/// What a registration came to, by why its input is read no further.
fn outcome(end: InputEnd<Result<FromWelcome, DialFault>>) -> Result<FromWelcome, DialFault>
    ensures { result ≡ outcome_of end }
{
    match end {
        InputEnd::Answered(answer) => answer,
        InputEnd::EndOfInput | InputEnd::ReadFault(_) | InputEnd::ReadsSpent => Err(
            DialFault::Read,
        ),
        InputEnd::TooLong => Err(DialFault::TooLong),
        InputEnd::OutOfMemory => Err(DialFault::Memory),
    }
}

/// Goes on with a registration that was opened: sends, for each line that comes, what is to be sent
/// for it, in one write. Answers the lines from the welcome on, once it has come.
pub(crate) fn complete<R: Read, W: Write>(
    alloc: Global,
    register: Register,
    reader: &mut R,
    writer: &mut W,
) -> Result<Welcomed, DialFault>
    ensures ok { (network : NetworkSettings) → HasTaken network [] register →
        IfOk result (λ w. (bytes : List ℕ) × (before : List Parts) × (welcome : Parts)
        × (after : List Parts)
        × Consumes (R.remaining reader.old) (R.remaining reader.new) bytes
        × IsWelcomed network (lines_of bytes) before welcome after
        × (w.lines.items ≡ welcome ∷ after)
        × (w.splitter ≡ fed start bytes)
        × Appends (W.contents writer.old) (W.contents writer.new)
        (bytes_of (sent_for network [] (before ++ welcome ∷ [])))) }
    ensures err { (network : NetworkSettings) → HasTaken network [] register →
        IfErr result (λ fault. (bytes : List ℕ)
        × Consumes (R.remaining reader.old) (R.remaining reader.new) bytes
        × IsCauseOf network bytes fault
        × Begins (W.contents writer.old) (W.contents writer.new)
        (bytes_of (sent_for network [] (lines_of bytes)))) }
{
    let mut buffer = vec![in alloc; 0; PIECE]?;
    let mut register = register;
    let mut completing = Completing {
        alloc,
        register: &mut register,
        writer,
    };
    let (end, splitter) = read_from_start(alloc, &mut completing, reader, &mut buffer);
    let FromWelcome { lines } = outcome(end)?;
    Ok(Welcomed { splitter, lines })
}

/// Registers at a network: sends the first lines, and then, for each line that comes, what is to be
/// sent for it, in one write. Answers the lines from the welcome on, once it has come.
///
/// It reads at most `irc_line::READ_LIMIT` times. A read or a write that is interrupted is tried
/// again. At a fault a beginning of what is to be sent was sent.
pub fn register<R: Read, W: Write>(
    alloc: Global,
    reader: &mut R,
    writer: &mut W,
    network: &NetworkConfig,
) -> Result<Welcomed, DialFault>
    ensures ok { IfOk result (λ w. (bytes : List ℕ) × (before : List Parts) × (welcome : Parts)
        × (after : List Parts)
        × Consumes (R.remaining reader.old) (R.remaining reader.new) bytes
        × IsWelcomed network.now (lines_of bytes) before welcome after
        × (w.lines.items ≡ welcome ∷ after)
        × (w.splitter ≡ fed start bytes)
        × Appends (W.contents writer.old) (W.contents writer.new)
        (bytes_of (all_sent network.now (before ++ welcome ∷ [])))) }
    ensures err { IfErr result (λ fault. (bytes : List ℕ)
        × Consumes (R.remaining reader.old) (R.remaining reader.new) bytes
        × IsCauseOf network.now bytes fault
        × Begins (W.contents writer.old) (W.contents writer.new)
        (bytes_of (all_sent network.now (lines_of bytes)))) }
{
    let register = open(alloc, writer, network, network.nick())?;
    complete(alloc, register, reader, writer)
}

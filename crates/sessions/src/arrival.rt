//! The login over a reader and a writer.

ghost use Rattle.std.specs.Prelude.{◌≡◌, ◌++◌, ◌∷◌, [], ◌+◌, ◌<◌, ℕ, List, false, take};
ghost use Rattle.std.specs.Prelude.{IfErr, IfNone, IfOk, IfSome, OnOk, drop, length};
ghost use Rattle.std.specs.Io.KnownBytes.{Appends, Consumes};
ghost use Rattle.irc_line.specs.Line.{Parts};
ghost use Rattle.irc_line.specs.Writing.{bytes_of};
ghost use Rattle.sessions.specs.Answers.{answer_to, has_ended, is_end};
ghost use Rattle.sessions.specs.Logins.{IsCauseOf, IsEndAt, IsEndOf, IsSendCause};
ghost use Rattle.sessions.specs.Logins.{LogsIn, lines_in, outcome_of, sent_for};
ghost use Rattle.sessions.specs.Taken.{HasTaken};

use crate::claim::Claim;
use crate::fault::LoginFault;
use crate::login::{Login, LoginStep};
use crate::sending::send;
use irc_line::{InputEnd, Line, LineTaker, Splitter, read_from_start};
use std::alloc::Global;
use std::io::{Read, Write};

/// How many bytes one read asks for.
const PIECE: usize = 4_096;

/// How a login ended.
#[derive(Drop)]
pub enum Ending {
    /// Nothing was missing: this is what the client logs in as. Nobody has asked yet whether the
    /// password is right.
    Claims(Claim),
    /// It was closed.
    Closes,
}

/// What was read of a client and is still to be taken.
#[derive(Drop)]
pub struct Unread {
    /// The splitter, with the bytes after the last line.
    pub splitter: Splitter,
    /// The lines after those that were taken, in order.
    pub lines: Vec<Line>,
}

/// A login that has ended.
#[derive(Drop)]
pub struct LoggedIn {
    /// How.
    pub ending: Ending,
    /// What was read after its last line.
    pub unread: Unread,
}

/// Takes one line, and sends its answer; says how it ended the login, if it did.
fn take_line<W: Write>(
    alloc: Global,
    login: &mut Login,
    line: &Line,
    writer: &mut W,
) -> Result<Option<Ending>, LoginFault>
    ensures taken { (before : List Parts) → HasTaken before login.old →
        OnOk result (HasTaken (before ++ line.now ∷ []) login.new) }
    ensures sent { (before : List Parts) → HasTaken before login.old →
        OnOk result (Appends (W.contents writer.old) (W.contents writer.new)
        (bytes_of (lines_in (answer_to before line.now)))) }
    ensures going { (before : List Parts) → HasTaken before login.old →
        IfOk result (λ ending. IfNone ending (is_end (answer_to before line.now) ≡ false)) }
    ensures ended { (before : List Parts) → HasTaken before login.old →
        IfOk result (λ ending. IfSome ending (IsEndOf (answer_to before line.now))) }
    ensures err { IfErr result IsSendCause }
{
    match login.line(line)? {
        LoginStep::Send(lines) => {
            send(alloc, lines.as_slice(), writer)?;
            Ok(None)
        }
        LoginStep::Done(claim) => Ok(Some(Ending::Claims(claim))),
        LoginStep::Closed(lines) => {
            send(alloc, lines.as_slice(), writer)?;
            Ok(Some(Ending::Closes))
        }
    }
}

/// Takes lines, in order, up to the last of the login; answers its place, from 0, and how it ended
/// the login, if it is among them.
fn take_lines<W: Write>(
    alloc: Global,
    login: &mut Login,
    lines: &[Line],
    writer: &mut W,
) -> Result<Option<(usize, Ending)>, LoginFault>
    ensures none { (before : List Parts) →
        HasTaken before login.old → has_ended before ≡ false →
        IfOk result (λ end. IfNone end (HasTaken (before ++ lines.now) login.new
        × (has_ended (before ++ lines.now) ≡ false)
        × Appends (W.contents writer.old) (W.contents writer.new)
        (bytes_of (sent_for before lines.now)))) }
    ensures some { (before : List Parts) →
        HasTaken before login.old → has_ended before ≡ false →
        IfOk result (λ end. IfSome end (λ e. IsEndAt before lines.now e.0 e.1
        × Appends (W.contents writer.old) (W.contents writer.new)
        (bytes_of (sent_for before (take (e.0 + 1) lines.now))))) }
    ensures err { IfErr result IsSendCause }
    ensures within { IfOk result (λ end. IfSome end (λ e. e.0 < length lines.now)) }
{
    for (place, line) in lines.iter().enumerate() {
        if let Some(ending) = take_line(alloc, login, line, writer)? {
            return Ok(Some((place, ending)));
        }
    }
    Ok(None)
}

/// Leaves the lines after a place.
fn leave_behind(lines: &mut Vec<Line>, place: usize)
    requires { place < length lines.old.items }
    ensures { lines.new.items ≡ drop (place + 1) lines.old.items }
{
    let count = place + 1;
    lines.rotate_left(count);
    lines.truncate(lines.len() - count);
}

/// What the last line of a login came to.
#[derive(Drop)]
struct LastLine {
    /// How it ended the login.
    ending: Ending,
    /// The lines after it, in order.
    behind: Vec<Line>,
}

/// A login that takes the lines of its client, and sends what they are answered.
#[derive(Drop)]
struct LoggingIn<'a, W> {
    alloc: Global,
    login: &'a mut Login,
    writer: &'a mut W,
}

impl<W: Write> LineTaker<Result<LastLine, LoginFault>> for LoggingIn<'_, W> {
    ghost use Rattle.std.specs.Prelude.{◌≡◌};
    ghost use Rattle.sessions.specs.Logins.{EndsLogin, GoesOn};

    ghost is_after = { λ began lines now. (now.writer.ghost_name ≡ began.writer.ghost_name)
        × GoesOn (W.contents began.writer.now) (W.contents now.writer.now) now.login.now lines };

    ghost ends = { λ began lines answer now. (now.writer.ghost_name ≡ began.writer.ghost_name)
        × EndsLogin (W.contents began.writer.now) (W.contents now.writer.now) lines answer };

    fn take_lines(&mut self, lines: Vec<Line>) -> Option<Result<LastLine, LoginFault>> {
        let mut lines = lines;
        match take_lines(self.alloc, self.login, lines.as_slice(), self.writer) {
            Ok(None) => None,
            Ok(Some((place, ending))) => {
                leave_behind(&mut lines, place);
                Some(Ok(LastLine {
                    ending,
                    behind: lines,
                }))
            }
            Err(fault) => Some(Err(fault)),
        }
    }
}

/// What a login came to, by why its input is read no further.
fn outcome(end: InputEnd<Result<LastLine, LoginFault>>) -> Result<LastLine, LoginFault>
    ensures { result ≡ outcome_of end }
{
    match end {
        InputEnd::Answered(answer) => answer,
        InputEnd::EndOfInput | InputEnd::ReadFault(_) | InputEnd::ReadsSpent => {
            Err(LoginFault::Read)
        }
        InputEnd::TooLong => Err(LoginFault::TooLong),
        InputEnd::OutOfMemory => Err(LoginFault::OutOfMemory),
    }
}

/// Lets a client log in: reads lines, and sends for each its answer, in one write, until
/// the login has ended. The caller says who is let in ([`let_in`](crate::let_in)).
///
/// It reads at most `irc_line::READ_LIMIT` times. A read that is interrupted is tried again. How
/// long a client may take is the reader's own affair: one that answers an error ends the login.
pub fn log_in<R: Read, W: Write>(
    alloc: Global,
    reader: &mut R,
    writer: &mut W,
) -> Result<LoggedIn, LoginFault>
    ensures ok { IfOk result (λ l. LogsIn (R.remaining reader.old) (R.remaining reader.new)
        (W.contents writer.old) (W.contents writer.new)
        l.ending l.unread.lines.items l.unread.splitter) }
    ensures err { IfErr result (λ fault. (bytes : List ℕ)
        × Consumes (R.remaining reader.old) (R.remaining reader.new) bytes
        × IsCauseOf bytes fault) }
{
    let mut buffer = vec![in alloc; 0; PIECE]?;
    let mut login = Login::new(alloc);
    let mut logging_in = LoggingIn {
        alloc,
        login: &mut login,
        writer,
    };
    let (end, splitter) = read_from_start(alloc, &mut logging_in, reader, &mut buffer);
    let LastLine {
        ending,
        behind: lines,
    } = outcome(end)?;
    let unread = Unread { splitter, lines };
    Ok(LoggedIn { ending, unread })
}

//! A reader of what a client says, which keeps to the pace of its network and leaves others the
//! time to take it.

ghost use Rattle.std.specs.Prelude.{◌≡◌, ◌==◌, ◌-◌, ◌≤◌, ◌<◌, [], IfOk, OnOk, take, length};
ghost use Rattle.std.specs.Io.{ReadsAtMost};
ghost use Rattle.std.specs.Io.KnownBytes.{IsAtEnd, Keeps, ReadConsumes, prepend_known};
ghost use Rattle.std.specs.List.{count_by};
ghost use Rattle.irc_line.specs.Lines.{HasNoLf};
ghost use Rattle.shell.specs.Held.{line_length};

use crate::ahead::Ahead;
use crate::cost::{Toll, full_cost, toll_of};
use crate::pace::Pace;
use crate::timed::is_silence;
use crate::wire::Wire;
use std::alloc::Global;
use std::io::{ErrorKind, Read};
use std::rt::Clock;
use std::sync::Wait;
use std::time::{Duration, Instant};
use std::{io, thread};

/// After how many bytes it waits. They hold fewer messages than a session that is not nearly full
/// has room for, and no more lines than half of those that may wait for a network: no command of
/// RFC 2812 is shorter than `WHO` and an LF.
const PIECE: usize = 512;

/// For how many milliseconds it waits at most.
const PATIENCE: u32 = 50;

/// How many milliseconds go by at most before it sees that the connection was shut.
const STEP: u64 = 50;

/// For how many milliseconds a request for capabilities waits after one that changed them: such a
/// request is answered by the state of all channels.
const REST: u64 = 1_000;

/// Who gets what a client says: its network, and the network's other clients.
pub trait Neighbours {
    /// Whether one of them takes no more, or nearly so.
    fn is_crowded(&self) -> bool;

    /// Whether the client's capabilities were changed since this was asked last.
    fn take_changed(&self) -> bool;
}

/// A reader that hands on one line at a time, in the order in which they were said, once the pace
/// of the network's clients lets it in. PING, PONG, CAP and QUIT cost nothing, any other line at
/// least 30 bytes. A CAP REQ is handed on a second after the last one, if that one changed the
/// client's capabilities. While a line waits the reader reads on, and sees the connection's end: it
/// then fails with `ConnectionAborted`, and what is not handed on by then is lost.
///
/// It waits too after each 512 bytes, so that what a client says at once does not fill what goes to
/// the network or to the other sessions.
#[derive(Drop)]
pub struct Paced<'a, S, N, R> {
    rt: &'a R,
    alloc: Global,
    input: S,
    neighbours: N,
    pace: &'a Pace,
    ahead: Ahead,
    // how many bytes were handed on since it has waited for room
    count: usize,
    // how many bytes of a line that was let in are not handed on yet
    let_in: usize,
    // when the last request for capabilities was let in
    asked: Option<Instant>,
    ghost within: { let_in ≤ line_length ahead },
    ghost few: { count ≤ 512 },
}

impl<'a, S: Wire, N: Neighbours, R: Wait + Clock> Paced<'a, S, N, R> {
    ghost use Rattle.shell.specs.Readers.{paced_held, paced_remaining};

    /// A reader of what a client says to these, what was read ahead first.
    pub(crate) fn new(
        rt: &'a R,
        alloc: Global,
        input: S,
        ahead: Ahead,
        neighbours: N,
        pace: &'a Pace,
    ) -> Paced<'a, S, N, R>
        ensures { paced_remaining S.remaining result ≡ prepend_known ahead (S.remaining input) }
    {
        Paced {
            rt,
            alloc,
            input,
            neighbours,
            pace,
            ahead,
            count: 0,
            let_in: 0,
            asked: None,
        }
    }

    /// How many lines were read and not handed on.
    pub fn unsaid(&self) -> u64
        ensures { result ≡ count_by (λ b. b == 10) (paced_held self.now) }
    {
        self.ahead.line_count()
    }

    /// Waits a millisecond, and on until there is room in what goes to the network and to each
    /// session, but at most 50 ms.
    fn wait_for_room(&self) {
        for _ in 0..PATIENCE {
            thread::sleep(self.rt, Duration::from_millis(1));
            if !self.neighbours.is_crowded() {
                return;
            }
        }
    }

    /// Waits for so long at most, and reads what comes meanwhile; false at the connection's end.
    fn reads_on(&mut self, time: Duration) -> bool
        ensures kept { Keeps (paced_remaining S.remaining self.old)
            (paced_remaining S.remaining self.new) }
        ensures line { line_length (paced_held self.old) ≤ line_length (paced_held self.new) }
    {
        if self.input.is_shut() {
            return false;
        }
        if !self.ahead.has_room() {
            thread::sleep(self.rt, time);
            return true;
        }
        if self.input.limit_reads(Some(time)).is_err() {
            return false;
        }
        match self.ahead.fill(&mut self.input) {
            Ok(count) => count > 0,
            Err(error) => is_silence(&error) || error.kind() == ErrorKind::Interrupted,
        }
    }

    /// Waits, reading what comes meanwhile; false if the connection has ended before.
    #[tactic(auto, using(crate::proofs::Kept::keeps_on))]
    fn waits(&mut self, time: Duration) -> bool
        ensures kept { Keeps (paced_remaining S.remaining self.old)
            (paced_remaining S.remaining self.new) }
        ensures line { line_length (paced_held self.old) ≤ line_length (paced_held self.new) }
    {
        let Ok(start) = Instant::now(self.rt) else {
            return true;
        };
        for _ in self.rt.forever() {
            let Ok(passed) = start.elapsed(self.rt) else {
                return true;
            };
            let left = time.saturating_sub(passed);
            if left.is_zero() {
                return true;
            }
            let step = left
                .min(Duration::from_millis(STEP))
                .max(Duration::from_millis(1));
            if !self.reads_on(step) {
                return false;
            }
        }
        unreachable!()
    }

    /// How long a request for capabilities waits, if the line is one: until a second after the last
    /// one, if that one changed them.
    fn rest(&self, toll: Toll) -> Duration {
        if !toll.is_request || !self.neighbours.take_changed() {
            return Duration::ZERO;
        }
        match self.asked.map(|at| at.elapsed(self.rt)) {
            Some(Ok(passed)) => Duration::from_millis(REST).saturating_sub(passed),
            _ => Duration::ZERO,
        }
    }

    /// Waits until this many bytes may be said, and for this long at least; false if the connection
    /// has ended before.
    #[tactic(auto, using(crate::proofs::Kept::keeps_on))]
    fn is_let_in(&mut self, bytes: usize, rest: Duration) -> io::Result<bool>
        ensures kept { Keeps (paced_remaining S.remaining self.old)
            (paced_remaining S.remaining self.new) }
        ensures line { line_length (paced_held self.old) ≤ line_length (paced_held self.new) }
    {
        let time = self.pace.take(self.rt, bytes as u64).max(rest);
        if time.is_zero() {
            return Ok(true);
        }
        let is_let_in = self.waits(time);
        if !is_let_in {
            self.pace.give_back(self.rt, bytes as u64);
        }
        self.input.limit_reads(None)?;
        Ok(is_let_in)
    }

    /// What the first bytes ask, this many. If there is no memory to read them, what they cost at
    /// most.
    fn toll(&self, length: usize) -> Toll
        requires { length ≤ line_length (paced_held self.now) }
    {
        match toll_of(self.alloc, &self.ahead.rest()[..length]) {
            Ok(toll) => toll,
            Err(_) => Toll {
                cost: full_cost(length),
                is_request: false,
            },
        }
    }

    /// Waits for the next line, and until it may be said; answers how many bytes it has, 0 at the
    /// connection's end. It fails if the connection ends before the line may be said.
    #[tactic(auto, using(crate::proofs::Kept::keeps_on))]
    fn next_line(&mut self) -> io::Result<usize>
        ensures kept { Keeps (paced_remaining S.remaining self.old)
            (paced_remaining S.remaining self.new) }
        ensures line { IfOk result (λ n. n ≤ line_length (paced_held self.new)) }
        ensures end { IfOk result (λ n. n ≡ 0 → (paced_held self.new ≡ [])
            × IsAtEnd (S.remaining self.new.input)) }
    {
        let length = self.ahead.await_line(&mut self.input)?;
        if length == 0 {
            return Ok(0);
        }
        let toll = self.toll(length);
        let rest = self.rest(toll);
        if !self.is_let_in(toll.cost, rest)? {
            return Err(io::Error::from(ErrorKind::ConnectionAborted));
        }
        if toll.is_request {
            self.asked = Instant::now(self.rt).ok();
        }
        Ok(length)
    }

    /// Waits for the next line, and until it may be said, unless one was let in and is not handed on
    /// yet.
    fn begin_line(&mut self) -> io::Result<()>
        ensures kept { Keeps (paced_remaining S.remaining self.old)
            (paced_remaining S.remaining self.new) }
        ensures end { OnOk result (self.new.let_in ≡ 0 → (paced_held self.new ≡ [])
            × IsAtEnd (S.remaining self.new.input)) }
    {
        if self.let_in == 0 {
            self.let_in = self.next_line()?;
        }
        Ok(())
    }

    /// Waits for room, if it is time to.
    fn make_way(&mut self)
        ensures count { self.new.count < 512 }
        ensures let_in { self.new.let_in ≡ self.old.let_in }
        ensures held { paced_held self.new ≡ paced_held self.old }
        ensures input { self.new.input ≡ self.old.input }
    {
        if self.count >= PIECE {
            self.wait_for_room();
            self.count = 0;
        }
    }
}

impl<S: Wire, N: Neighbours, R: Wait + Clock> Read for Paced<'_, S, N, R> {
    ghost use Rattle.shell.specs.Readers.{paced_held, paced_remaining};

    ghost remaining = { paced_remaining S.remaining };

    fn read(&mut self, buf: &mut [u8]) -> io::Result<usize>
        ensures bound { ReadsAtMost result buf.new }
        ensures bytes { ReadConsumes (paced_remaining S.remaining self.old)
            (paced_remaining S.remaining self.new) result buf.new }
        // no more than one line
        ensures line { IfOk result (λ n. HasNoLf (take (n - 1) buf.new)) }
        // the end comes only after what is held
        ensures end { IfOk result (λ n. n ≡ 0 → 0 < length buf.new → paced_held self.new ≡ []) }
    {
        self.begin_line()?;
        self.make_way();
        let most = self.let_in.min(PIECE - self.count);
        let count = self.ahead.give(buf, most)?;
        self.let_in -= count;
        self.count += count;
        Ok(count)
    }
}

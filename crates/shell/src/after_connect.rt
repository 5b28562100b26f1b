//! What a connection sends by itself after its registration, if lines come before the channels.

ghost use Rattle.std.specs.Prelude.{◌≡◌, ◌||◌, ◌+◌, ◌<◌, ◌≤◌, None, Some, false, true};
ghost use Rattle.shell.specs.AfterConnect.{IsNext, ends_greeting};

use irc_line::Line;

/// For how many milliseconds after the welcome the lines wait for the end of the greeting.
const GREETING: u64 = 10_000;

/// What is to be done next.
#[derive(Clone, Copy, Debug, PartialEq, Eq)]
pub enum Due {
    /// Nothing more.
    Nothing,
    /// Nothing for this many milliseconds.
    After(u64),
    /// The line at this place, from 0, is next: the network's pace is to be asked when it may go.
    Ask(usize),
    /// The line at this place, from 0, is to be sent.
    Line(usize),
    /// The channels are to be joined.
    Joins,
}

/// What a connection sends by itself after its registration: lines, once the network has ended its
/// greeting with 376 RPL_ENDOFMOTD or 422 ERR_NOMOTD, or 10 s after its welcome, each no sooner than
/// the network's pace has it; and then the JOIN lines, a time after the last of these, since a service
/// that they are for answers later.
///
/// Times are milliseconds since any moment.
#[derive(Clone, Copy, Debug)]
pub struct AfterConnect {
    // how many lines there are, and how many of them were sent
    lines: usize,
    sent: usize,
    // when the welcome came, and when the last line was sent
    welcome: u64,
    last: u64,
    // when the next line may be sent, if the pace was asked
    let_in: Option<u64>,
    // from the last line to the channels
    join_after: u64,
    is_greeted: bool,
    is_over: bool,
}

/// Whether a line ends the greeting of a network.
pub fn ends_greeting(line: &Line) -> bool
    ensures { result ≡ ends_greeting line.now }
{
    line.is(b"376") || line.is(b"422")
}

impl AfterConnect {
    /// The welcome has come now. This many lines are to be sent, and the channels are joined this
    /// many milliseconds after the last of them. The greeting may have ended already.
    pub fn start(lines: usize, join_after: u64, is_greeted: bool, now: u64) -> AfterConnect
        ensures lines { (result.lines ≡ lines) × (result.sent ≡ 0) }
        ensures times { (result.welcome ≡ now) × (result.last ≡ now)
            × (result.join_after ≡ join_after) × (result.let_in ≡ None) }
        ensures begun { (result.is_greeted ≡ is_greeted) × (result.is_over ≡ false) }
    {
        AfterConnect {
            lines,
            sent: 0,
            welcome: now,
            last: now,
            let_in: None,
            join_after,
            is_greeted,
            is_over: false,
        }
    }

    /// Takes a line of the network.
    pub fn take_line(&mut self, line: &Line)
        ensures { self.new ≡ record self.old {
          is_greeted = self.old.is_greeted || ends_greeting line.now;
        } }
    {
        self.is_greeted = self.is_greeted || ends_greeting(line);
    }

    /// What is to be done at this time.
    pub fn next(&self, now: u64) -> Due
        ensures { IsNext self.now now result }
    {
        if self.is_over {
            return Due::Nothing;
        }
        let waited = now.saturating_sub(self.welcome);
        if self.sent < self.lines {
            if self.sent == 0 && !self.is_greeted && waited < GREETING {
                return Due::After(GREETING - waited);
            }
            return match self.let_in {
                None => Due::Ask(self.sent),
                Some(at) if now < at => Due::After(at - now),
                Some(_) => Due::Line(self.sent),
            };
        }
        let rested = now.saturating_sub(self.last);
        if rested < self.join_after {
            return Due::After(self.join_after - rested);
        }
        Due::Joins
    }

    /// The network's pace lets the next line in at this time.
    pub fn let_in(&mut self, at: u64)
        ensures { self.new ≡ record self.old { let_in = Some at } }
    {
        self.let_in = Some(at);
    }

    /// The line that was due was sent at this time. If none was due, nothing changes.
    pub fn line_sent(&mut self, now: u64)
        ensures due { self.old.sent < self.old.lines →
            self.new ≡ record self.old { sent = self.old.sent + 1; last = now; let_in = None } }
        ensures none { self.old.lines ≤ self.old.sent → self.new ≡ self.old }
    {
        if self.lines > self.sent {
            self.sent += 1;
            self.last = now;
            self.let_in = None;
        }
    }

    /// The JOIN lines were sent: nothing more is due.
    pub fn joined(&mut self)
        ensures { self.new ≡ record self.old { is_over = true } }
    {
        self.is_over = true;
    }
}

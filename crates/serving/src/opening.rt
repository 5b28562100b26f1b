//! What is sent to a network by itself after the registration: the settings' lines, the channels,
//! AWAY, and NICK as long as our nick is another's.

ghost use Rattle.std.specs.Counts.{IsPrefixLen};
ghost use Rattle.std.specs.Prelude.{IfOk};

use crate::connection::Connection;
use crate::dialling::Dialling;
use crate::joining::Joining;
use crate::rejoining::{all_joins, mapping_told};
use crate::saying_again::{ask_for_nick, holder_of_nick};
use bnc_config::NetworkConfig;
use irc_line::{Line, Splitter};
use irc_names::CaseMapping;
use irc_support::Support;
use shell::{
    AfterConnect, Due, NickNews, Regain, WhenAsked, Wire, ends_greeting, full_cost, is_silence,
    news_of,
};
use std::alloc::{AllocError, Global};
use std::io::Read;
use std::rt::Clock;
use std::sync::{Arc, Mutex, Wait};
use std::time::Duration;
use std::{io, mem};

/// After how many milliseconds it tries again to say something between two lines of the clients.
const BETWEEN: u64 = 10;

/// After how many milliseconds it tries again if an allocation failed.
const MEMORY: u64 = 1_000;

/// The mapping by which names are compared here. It makes the most names equal, so that nothing is
/// missed before the network's own mapping is known.
const MAPPING: CaseMapping = CaseMapping::Rfc1459;

/// What is to be sent once the network has let us in.
#[derive(Drop)]
pub(crate) struct Plan {
    /// The AWAY line, with which a client was away before; empty if none was.
    pub(crate) away: Vec<u8>,
    /// When the wanted nick is asked for, if we have another one.
    pub(crate) regain: Option<Regain>,
}

/// What is still to be sent.
#[derive(Drop)]
struct Left {
    after: AfterConnect,
    // the JOIN lines, once they were due and are made
    joins: Option<Vec<u8>>,
    plan: Plan,
    // when AWAY may be sent, by the pace of the network's clients, if that was asked
    away_at: Option<u64>,
}

/// What is due of that.
#[derive(Clone, Copy)]
enum Next {
    Nothing,
    After(u64),
    Ask(usize),
    Line(usize),
    Joins,
    Away,
    Nick,
}

/// How far a connection is.
#[derive(Drop)]
struct Stage {
    splitter: Splitter,
    // what the network has said of itself, as far as there was memory for it
    support: Support<Global>,
    is_greeted: bool,
    // whether nothing is sent any more
    is_over: bool,
    left: Option<Left>,
}

/// What a connection is to send by itself, for who reads it and who lets it in.
#[derive(Drop)]
pub(crate) struct Opening {
    alloc: Global,
    stage: Arc<Mutex<Stage>>,
}

impl Left {
    /// What is due at this time.
    fn next(&self, now: u64) -> Next {
        match self.after.next(now) {
            Due::After(time) => return Next::After(time),
            Due::Ask(place) => return Next::Ask(place),
            Due::Line(place) => return Next::Line(place),
            Due::Joins => return Next::Joins,
            Due::Nothing => {}
        }
        if !self.plan.away.is_empty() {
            return Next::Away;
        }
        match &self.plan.regain {
            Some(regain) => match regain.next(now) {
                WhenAsked::After(time) => Next::After(time),
                WhenAsked::Now => Next::Nick,
                WhenAsked::Never => Next::Nothing,
            },
            None => Next::Nothing,
        }
    }

    /// Takes a line of the network.
    fn note(&mut self, line: &Line, nick: &[u8], now: u64) {
        self.after.take_line(line);
        if let Some(regain) = &mut self.plan.regain {
            regain.note(news_of(MAPPING, nick, line), now);
        }
    }
}

impl Stage {
    /// Takes what was read from the network, on which `nick` is wanted, also for logins that wait.
    fn note(&mut self, alloc: Global, bytes: &[u8], nick: &[u8], joining: &mut Joining, now: u64) {
        let mut lines = Vec::new(alloc);
        let is_over = self.is_over && !joining.is_open(now);
        if is_over || self.splitter.feed(bytes, &mut lines).is_err() {
            return;
        }
        for line in &lines {
            joining.note(line, now);
            let _ = self.support.take(line);
            if ends_greeting(line) {
                self.is_greeted = true;
            }
            if let Some(left) = &mut self.left {
                left.note(line, nick, now);
            }
        }
    }
}

impl Opening {
    /// That of a connection from which nothing was read yet.
    pub(crate) fn new(alloc: Global) -> Result<Opening, AllocError> {
        let stage = Stage {
            splitter: Splitter::new(alloc),
            support: Support::new(alloc)?,
            is_greeted: false,
            is_over: false,
            left: None,
        };
        Ok(Opening {
            alloc,
            stage: Arc::new(alloc, Mutex::new(stage))?,
        })
    }

    /// The same in another hand.
    pub(crate) fn share(&self) -> Result<Opening, AllocError> {
        Ok(Opening {
            alloc: self.alloc,
            stage: Arc::try_clone(&self.stage)?,
        })
    }

    /// The network has let us in now: from here on what is due is sent. If the settings have no
    /// lines, the channels were joined already.
    pub(crate) fn begin<R: Wait>(&self, rt: &R, settings: &NetworkConfig, plan: Plan, now: u64) {
        let lines = settings.on_connect().len();
        let join_after = settings.join_after().saturating_mul(1_000);
        let mut stage = self.stage.lock(rt);
        let mut after = AfterConnect::start(lines, join_after, stage.is_greeted, now);
        if lines == 0 {
            after.joined();
        }
        stage.left = Some(Left {
            after,
            joins: None,
            plan,
            away_at: None,
        });
    }

    /// Takes what was read from the network, on which `nick` is wanted, also for logins that wait.
    fn note<R: Wait>(&self, rt: &R, bytes: &[u8], nick: &[u8], joining: &Mutex<Joining>, now: u64) {
        let mut stage = self.stage.lock(rt);
        let mut joining = joining.lock(rt);
        stage.note(self.alloc, bytes, nick, &mut joining, now);
    }
}

/// A connection to a network, as its readers see it. While it is read, what is due is sent.
#[derive(Drop)]
pub(crate) struct Opened<'a, R: Wait + Clock> {
    pub(crate) dialling: Dialling<'a, R>,
    pub(crate) settings: &'a NetworkConfig,
    pub(crate) connection: &'a Connection,
    pub(crate) opening: Opening,
    // the limit to a read
    pub(crate) limit: Option<Duration>,
}

impl<R: Wait + Clock> Opened<'_, R> {
    /// What is due.
    fn due(&self, now: u64) -> Next {
        match &self.opening.stage.lock(self.dialling.rt).left {
            Some(left) => left.next(now),
            None => Next::Nothing,
        }
    }

    /// When a line of this many bytes may be sent, at the pace of the network's clients and counted
    /// as theirs are.
    fn time_of(&self, bytes: usize, now: u64) -> u64 {
        let pace = self.dialling.station.pace();
        let cost = full_cost(bytes) as u64;
        let wait = pace.take(self.dialling.rt, cost).as_millis();
        now.saturating_add(u64::try_from(wait).unwrap_or(u64::MAX))
    }

    /// Asks the pace when a line of the settings may be sent.
    fn ask_for_line(&self, place: usize, now: u64) -> Option<u64> {
        let text = self.settings.on_connect().get(place)?;
        let at = self.time_of(text.as_bytes().len().saturating_add(2), now);
        if let Some(left) = &mut self.opening.stage.lock(self.dialling.rt).left {
            left.after.let_in(at);
        }
        None
    }

    /// Sends a line of the settings, between two lines of the clients; for how many milliseconds it
    /// waits if a line of theirs is half written.
    fn say_line(&self, place: usize, now: u64) -> Option<u64> {
        let text = self.settings.on_connect().get(place)?;
        let parts = [text.as_bytes(), b"\r\n"];
        if !self.connection.say(self.dialling.rt, &parts) {
            return Some(BETWEEN);
        }
        if let Some(left) = &mut self.opening.stage.lock(self.dialling.rt).left {
            left.after.line_sent(now);
        }
        None
    }

    /// Makes the JOIN lines when they are due, since by then the network has said by which mapping
    /// it compares names; whether there was memory for them.
    fn make_joins(&self) -> bool {
        let stage = self.opening.stage.lock(self.dialling.rt);
        let told = mapping_told(&stage.support);
        let are_due = matches!(&stage.left, Some(left) if left.joins.is_none());
        drop(stage);
        if !are_due {
            return true;
        }
        let Ok(joins) = all_joins(&self.dialling, self.settings, told) else {
            return false;
        };
        if let Some(left) = &mut self.opening.stage.lock(self.dialling.rt).left {
            left.joins = Some(joins);
        }
        true
    }

    /// Joins the channels, if that may be sent now; otherwise for how many milliseconds it waits.
    fn say_joins(&self) -> Option<u64> {
        if !self.make_joins() {
            return Some(MEMORY);
        }
        let mut stage = self.opening.stage.lock(self.dialling.rt);
        let Some(left) = &mut stage.left else {
            return None;
        };
        let joins = left.joins.take()?;
        if !self.connection.say(self.dialling.rt, &[joins.as_slice()]) {
            left.joins = Some(joins);
            return Some(BETWEEN);
        }
        left.after.joined();
        None
    }

    /// The AWAY line, and when it may be sent.
    fn away(&self, now: u64) -> (Vec<u8>, u64) {
        let mut stage = self.opening.stage.lock(self.dialling.rt);
        let mut line = Vec::new(self.dialling.alloc);
        let Some(left) = &mut stage.left else {
            return (line, now);
        };
        mem::swap(&mut line, &mut left.plan.away);
        let at = match left.away_at {
            Some(at) => at,
            None => self.time_of(line.len(), now),
        };
        left.away_at = Some(at);
        (line, at)
    }

    /// Puts a line back that can't be sent yet.
    fn put_back(&self, line: Vec<u8>) {
        if let Some(left) = &mut self.opening.stage.lock(self.dialling.rt).left {
            left.plan.away = line;
        }
    }

    /// Sends AWAY, if that may be sent now; otherwise for how many milliseconds it waits.
    fn say_away(&self, now: u64) -> Option<u64> {
        let (line, at) = self.away(now);
        if now < at {
            self.put_back(line);
            return Some(at - now);
        }
        if !self.connection.say(self.dialling.rt, &[line.as_slice()]) {
            self.put_back(line);
            return Some(BETWEEN);
        }
        None
    }

    /// Whether the wanted nick may be asked for, by which of ours has it.
    fn may_ask_for_nick(&self, now: u64) -> bool {
        let holder = holder_of_nick(&self.dialling, self.settings);
        match &mut self.opening.stage.lock(self.dialling.rt).left {
            Some(
                Left {
                    plan: Plan {
                        regain: Some(regain),
                        ..
                    },
                    ..
                },
            ) => regain.look(holder, now),
            _ => false,
        }
    }

    /// Asks for the wanted nick, unless one of our connections has it, or a client asked for one by
    /// itself; for how many milliseconds it waits.
    fn say_nick(&self, now: u64) -> Option<u64> {
        if !self.may_ask_for_nick(now) {
            return None;
        }
        let news = ask_for_nick(&self.dialling, self.settings);
        if let Some(left) = &mut self.opening.stage.lock(self.dialling.rt).left {
            if let Some(regain) = &mut left.plan.regain {
                match news {
                    NickNews::Nothing => regain.asked(now),
                    news => regain.note(news, now),
                }
            }
        }
        None
    }

    /// Sends what is due; for how many milliseconds nothing more is due, or `None` if nothing is
    /// left.
    fn say_due(&self) -> Option<u64> {
        for _ in 0..u64::MAX {
            let now = self.dialling.shared.ticks(self.dialling.rt);
            let waits = match self.due(now) {
                Next::Nothing => return None,
                Next::After(time) => Some(time),
                Next::Ask(place) => self.ask_for_line(place, now),
                Next::Line(place) => self.say_line(place, now),
                Next::Joins => self.say_joins(),
                Next::Away => self.say_away(now),
                Next::Nick => self.say_nick(now),
            };
            if waits.is_some() {
                return waits;
            }
        }
        None
    }

    /// Whether lines of the network decide what is sent, or who waits.
    fn has_use_for_lines(&self) -> bool {
        !self.settings.on_connect().is_empty()
            || self.settings.nicks().is_some()
            || self.dialling.shared.wait() > 0
    }

    /// Reads the connection.
    fn read_once(&self, buf: &mut [u8]) -> io::Result<usize>
        ensures { IfOk result (λ count. IsPrefixLen count buf.new) }
    {
        let mut stream = self.connection.stream();
        let count = stream.read(buf)?;
        if self.has_use_for_lines() {
            let Dialling {
                rt,
                shared,
                station,
                ..
            } = self.dialling;
            let now = shared.ticks(rt);
            let nick = self.settings.nick();
            self.opening
                .note(rt, &buf[..count], nick, station.joining(), now);
        }
        Ok(count)
    }

    /// Whether something is still to be sent.
    fn is_open(&self) -> bool {
        self.opening.stage.lock(self.dialling.rt).left.is_some()
    }

    /// Ends what is sent by itself, and sets the limit to a read as it was.
    fn close(&self) -> io::Result<()> {
        let mut stage = self.opening.stage.lock(self.dialling.rt);
        stage.left = None;
        stage.is_over = true;
        drop(stage);
        self.connection.stream().set_read_timeout(self.limit)
    }

    /// How long a read that began then may wait: until something is due, in this many milliseconds,
    /// or until the limit to a read, if that is sooner or the same; and whether it is the limit.
    fn waits(&self, due: u64, begun: u64) -> (Duration, bool) {
        let due = Duration::from_millis(due.max(1));
        let Some(limit) = self.limit else {
            return (due, false);
        };
        let now = self.dialling.shared.ticks(self.dialling.rt);
        let left = limit.saturating_sub(Duration::from_millis(now.saturating_sub(begun)));
        if left <= due {
            (left.max(Duration::from_millis(1)), true)
        } else {
            (due, false)
        }
    }
}

impl<R: Wait + Clock> Read for Opened<'_, R> {
    fn read(&mut self, buf: &mut [u8]) -> io::Result<usize> {
        if !self.is_open() {
            return self.read_once(buf);
        }
        let begun = self.dialling.shared.ticks(self.dialling.rt);
        for _ in self.dialling.rt.forever() {
            let Some(due) = self.say_due() else {
                self.close()?;
                return self.read_once(buf);
            };
            let (wait, is_limit) = self.waits(due, begun);
            self.connection.stream().set_read_timeout(Some(wait))?;
            match self.read_once(buf) {
                Err(error) if is_silence(&error) && !is_limit => {}
                read => return read,
            }
        }
        unreachable!()
    }
}

impl<R: Wait + Clock> Wire for Opened<'_, R> {
    fn limit_reads(&mut self, time: Option<Duration>) -> io::Result<()> {
        self.limit = time;
        self.connection.stream().set_read_timeout(time)
    }

    /// Also if it is to end after a last line.
    fn is_shut(&self) -> bool {
        self.connection.is_shut()
    }
}

//! The log: lines on standard error, each begun with the time in UTC. Logging waits for no write: a
//! thread of its own writes the lines.

use crate::clock::SystemClock;
use crate::shown::Shown;
use client_caps::time_text;
use std::alloc::{AllocError, Global};
use std::collections::VecDeque;
use std::io::Write;
use std::rt::Clock;
use std::sync::atomic::{AtomicBool, Ordering};
use std::sync::{Mutex, Wait};
use std::thread::Parker;
use std::{fmt, io};

/// How many lines wait at most to be written.
const LINES: usize = 1_024;

/// A line, and how many were lost right before it.
#[derive(Drop)]
struct Logged {
    lost: u64,
    // none if it only says how many were lost
    text: Option<String>,
}

/// What waits to be written.
#[derive(Drop)]
struct Waiting {
    lines: VecDeque<Logged>,
    // how many were lost since the last line that waits
    lost: u64,
    // how many were lost in all
    lost_ever: u64,
    is_over: bool,
}

/// What the thread that writes does next.
#[derive(Drop)]
enum Next {
    Write(Logged),
    Sleep,
    End,
}

/// The log of the service. At most 1,024 lines wait to be written. Further lines are dropped, and so
/// is one that can't be written; the log then says how many were dropped.
#[derive(Drop)]
pub struct Log {
    alloc: Global,
    waiting: Mutex<Waiting>,
    // wakes the thread that writes
    writer: Parker,
    is_written: AtomicBool,
}

/// The time, as the log shows it.
fn now<R: Clock>(rt: &R) -> [u8; 24] {
    time_text(hub_threads::Clock::now(&SystemClock::of(rt)))
}

impl Waiting {
    /// Queues a line after those that wait, or drops it if there is no room.
    fn put(&mut self, text: Option<String>) {
        let text = text.filter(|_| self.lines.len() < LINES);
        if text.is_none() {
            return self.lose();
        }
        let lost = self.lost;
        match self.lines.push_back(Logged { lost, text }) {
            Ok(()) => self.lost = 0,
            Err(_) => self.lose(),
        }
    }

    /// Counts a line that is dropped.
    fn lose(&mut self) {
        self.lost = self.lost.saturating_add(1);
        self.lost_ever = self.lost_ever.saturating_add(1);
    }

    /// Takes the next line, or how many were dropped after the last one.
    fn next(&mut self) -> Next {
        if let Some(logged) = self.lines.pop_front() {
            return Next::Write(logged);
        }
        if self.lost > 0 {
            let lost = self.lost;
            self.lost = 0;
            return Next::Write(Logged { lost, text: None });
        }
        if self.is_over { Next::End } else { Next::Sleep }
    }
}

impl Log {
    /// A log in which nothing waits.
    pub fn new(alloc: Global) -> Result<Log, AllocError> {
        Ok(Log {
            alloc,
            waiting: Mutex::new(Waiting {
                lines: VecDeque::with_capacity(alloc, LINES)?,
                lost: 0,
                lost_ever: 0,
                is_over: false,
            }),
            writer: Parker::new(),
            is_written: AtomicBool::new(false),
        })
    }

    /// Logs something about somebody, in a line `TIME WHO: WHAT`. It waits for no write.
    pub fn tell<R: Wait + Clock, T: fmt::Display, U: fmt::Display>(
        &self,
        rt: &R,
        who: &T,
        what: &U,
    ) {
        let now = now(rt);
        let now = Shown(&now);
        let text = format!(in self.alloc; "{now} {who}: {what}\n").ok();
        self.waiting.lock(rt).put(text);
        self.writer.unpark();
    }

    /// How many lines were dropped so far, or could not be written.
    pub(crate) fn lost<R: Wait>(&self, rt: &R) -> u64 {
        self.waiting.lock(rt).lost_ever
    }

    /// Counts a line that could not be written.
    fn note_unwritten<R: Wait>(&self, rt: &R) {
        let mut waiting = self.waiting.lock(rt);
        waiting.lost_ever = waiting.lost_ever.saturating_add(1);
    }

    /// Ends the thread that writes once nothing waits.
    pub fn end<R: Wait>(&self, rt: &R) {
        self.waiting.lock(rt).is_over = true;
        self.writer.unpark();
    }

    /// Whether it has ended, and all of it was written.
    pub fn is_written(&self) -> bool {
        self.is_written.load(Ordering::SeqCst)
    }

    /// What the thread that writes does next. The lock is held for that step alone.
    fn next<R: Wait>(&self, rt: &R) -> Next {
        self.waiting.lock(rt).next()
    }

    /// Writes the lines to `out`, each in one write, until the log has ended and nothing waits. For
    /// one thread at a time.
    pub fn write_to<R: Wait + Clock, W: Write>(&self, rt: &R, out: &mut W) {
        for _ in rt.forever() {
            match self.next(rt) {
                Next::Write(logged) => {
                    if !write_logged(rt, out, &logged) {
                        self.note_unwritten(rt);
                    }
                }
                Next::Sleep => self.writer.park(rt),
                Next::End => {
                    self.is_written.store(true, Ordering::SeqCst);
                    return;
                }
            }
        }
        unreachable!()
    }
}

/// Writes a line, and before it how many were lost. What can't be written is lost, and no more.
/// Answers whether the line is written, if there is one.
fn write_logged<R: Clock, W: Write>(rt: &R, out: &mut W, logged: &Logged) -> bool {
    if logged.lost > 0 {
        let now = now(rt);
        let now = Shown(&now);
        let lost = logged.lost;
        let _ = write!(out, "{now} bnc: {lost} lines of the log were lost\n");
    }
    match &logged.text {
        Some(text) => out.write_all(text.as_str().as_bytes()).is_ok(),
        None => true,
    }
}

/// Standard error, as what the log is written to.
#[derive(Clone, Copy)]
pub(crate) struct StandardError<'a, R: Eprint>(pub(crate) &'a R);

impl<R: Eprint> Write for StandardError<'_, R> {
    fn write(&mut self, buf: &[u8]) -> io::Result<usize> {
        match str::from_utf8(buf) {
            Ok(text) => eprint!(self.0; "{text}")?,
            Err(_) => return Err(io::Error::from(io::ErrorKind::InvalidData)),
        }
        Ok(buf.len())
    }

    fn flush(&mut self) -> io::Result<()> {
        Ok(())
    }
}

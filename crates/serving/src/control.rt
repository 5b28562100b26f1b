//! Words that control the program while it runs.

use crate::control_event::ControlEvent;
use crate::forgetting::forget;
use crate::helm::Standing;
use crate::host::Host;
use crate::metrics::{ask_for_metrics, kept_of};
use crate::reloading::{Source, reload};
use crate::shared::Shared;
use crate::station::Station;
use std::alloc::Global;
use std::fs::File;
use std::io::{ErrorKind, Read};
use std::mem;
use std::net::{Net, TcpListener, TcpStream};
use std::rt::Clock;
use std::sync::{Arc, Wait};
use std::time::Duration;

/// How many bytes a line has at most.
const LINE: usize = 64;

/// How many it has at most if it names a client.
const LINE_WITH_A_NAME: usize = 1_024;

/// What a line begins with that names a client.
const FORGET: &[u8] = b"forget ";

/// How many bytes one read asks for.
const PIECE: usize = 256;

/// After how many milliseconds without a further byte a line counts that has no LF.
const SILENCE: u64 = 1_000;

/// What is asked for.
#[derive(Drop)]
enum Word {
    /// `reload`: to read the settings again.
    Reload,
    /// `reload empty`: the same, also if they have no network.
    ReloadEmpty,
    /// `status`: to log how each network is.
    Status,
    /// `forget USER/NETWORK NAME`: to forget a client name; what follows the word.
    Forget(Vec<u8>),
    /// `metrics`: to write the figures now.
    Metrics,
    /// `stop`: to end the service.
    Stop,
}

/// Where words are read.
pub trait Words: Read {
    /// Waits until more has come or they are at their end, for at most `time`; whether that is so.
    fn is_ready(&self, time: Duration) -> bool;
}

/// A line that is being read.
#[derive(Drop)]
struct Begun {
    bytes: Vec<u8>,
    is_too_long: bool,
}

/// The word that a line is. If there is no memory for it, it is none.
fn word_of(alloc: Global, line: &[u8]) -> Option<Word> {
    if let Some(rest) = line.strip_prefix(FORGET) {
        return Some(Word::Forget(Vec::from_slice(alloc, rest).ok()?));
    }
    match line {
        b"reload" => Some(Word::Reload),
        b"reload empty" => Some(Word::ReloadEmpty),
        b"status" => Some(Word::Status),
        b"metrics" => Some(Word::Metrics),
        b"stop" => Some(Word::Stop),
        _ => None,
    }
}

/// How a network is.
fn status_of<R: Wait>(
    rt: &R,
    alloc: Global,
    shared: &Shared,
    station: &Station,
) -> ControlEvent<'static> {
    let kept = kept_of(rt, alloc, station);
    let Standing { since, sessions } = shared.helm().lock(rt).standing(station.number());
    ControlEvent::Status {
        since,
        sessions,
        kept,
    }
}

/// Logs of each network since when it is online, how many sessions it has, and what it keeps.
fn tell_status<R: Wait + Clock>(rt: &R, alloc: Global, shared: &Shared) {
    let Ok(roster) = shared.roster(rt) else {
        return;
    };
    for (_, station) in roster.networks() {
        let status = status_of(rt, alloc, shared, station);
        shared.log().tell(rt, &station.who(), &status);
    }
}

impl Words for File {
    fn is_ready(&self, time: Duration) -> bool {
        keep::is_readable(self, time)
    }
}

impl Words for &[u8] {
    fn is_ready(&self, _time: Duration) -> bool {
        true
    }
}

impl Begun {
    /// Whether a byte of it has come.
    fn is_begun(&self) -> bool {
        self.is_too_long || !self.bytes.is_empty()
    }

    /// How many bytes it has at most.
    fn limit(&self) -> usize {
        if self.bytes.starts_with(FORGET) {
            LINE_WITH_A_NAME
        } else {
            LINE
        }
    }

    /// Takes a byte of a line; what the line asks for, if this byte ends it.
    fn take<R: Wait + Clock>(&mut self, rt: &R, shared: &Shared, byte: u8) -> Option<Word> {
        if byte != b'\n' {
            if self.bytes.len() >= self.limit() || self.bytes.push(byte).is_err() {
                self.is_too_long = true;
            }
            return None;
        }
        let word = if mem::replace(&mut self.is_too_long, false) {
            let limit = self.limit();
            let event = ControlEvent::IgnoredLine { limit };
            shared.log().tell(rt, &"bnc", &event);
            None
        } else {
            self.word(rt, shared)
        };
        self.bytes.clear();
        word
    }

    /// The word that the line is. A line that is no word is logged.
    fn word<R: Wait + Clock>(&self, rt: &R, shared: &Shared) -> Option<Word> {
        let word = word_of(*self.bytes.allocator(), self.bytes.as_slice());
        if word.is_none() {
            let word = self.bytes.as_slice();
            shared
                .log()
                .tell(rt, &"bnc", &ControlEvent::Ignored { word });
        }
        word
    }
}

/// Does what a word asks for; whether that is to stop.
fn obey_word<S: Source, R: Host + Net<Listener = TcpListener, Stream = TcpStream>>(
    rt: R,
    alloc: Global,
    shared: &Arc<Shared>,
    source: &S,
    word: Word,
) -> bool {
    match word {
        Word::Reload => reload(rt, alloc, shared, source, false),
        Word::ReloadEmpty => reload(rt, alloc, shared, source, true),
        Word::Status => tell_status(&rt, alloc, shared),
        Word::Metrics => ask_for_metrics(&rt, shared),
        Word::Forget(line) => forget(&rt, shared, line.as_slice()),
        Word::Stop => return true,
    }
    false
}

/// Takes bytes, and does what the lines that end among them ask for; whether one asks to stop.
fn obey_bytes<S: Source, R: Host + Net<Listener = TcpListener, Stream = TcpStream>>(
    rt: R,
    alloc: Global,
    shared: &Arc<Shared>,
    source: &S,
    line: &mut Begun,
    bytes: &[u8],
) -> bool {
    for byte in bytes {
        if let Some(word) = line.take(&rt, shared, *byte) {
            if obey_word(rt, alloc, shared, source, word) {
                return true;
            }
        }
    }
    false
}

/// Reads words, one a line, and does what they ask for, to the input's end, or until one asks to
/// stop; whether one does. Other lines, and those of more than 64 bytes, or of more than 1,024 if
/// they name a client to forget, are ignored, and the log says so. A line without its LF counts
/// once nothing more has come for a second.
pub fn obey<I: Words, S: Source, R: Host + Net<Listener = TcpListener, Stream = TcpStream>>(
    rt: R,
    alloc: Global,
    shared: &Arc<Shared>,
    input: &mut I,
    source: &S,
) -> bool {
    let mut piece = [0u8; PIECE];
    let mut line = Begun {
        bytes: Vec::new(alloc),
        is_too_long: false,
    };
    for _ in rt.forever() {
        let is_over = line.is_begun() && !input.is_ready(Duration::from_millis(SILENCE));
        if is_over && obey_bytes(rt, alloc, shared, source, &mut line, b"\n") {
            return true;
        }
        let count = match input.read(&mut piece) {
            Ok(0) => return false,
            Ok(count) => count,
            Err(error) if error.kind() == ErrorKind::Interrupted => 0,
            Err(_) => {
                shared.log().tell(&rt, &"bnc", &ControlEvent::NoWords);
                return false;
            }
        };
        if obey_bytes(rt, alloc, shared, source, &mut line, &piece[..count]) {
            return true;
        }
    }
    unreachable!()
}

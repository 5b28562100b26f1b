//! The channels that are joined after a registration, for logins that wait for them.

use irc_line::Line;
use irc_names::CaseMapping;
use net_view::NetworkView;
use quick_view::QuickView;
use shell::ends_greeting;
use std::alloc::Global;
use steward::Channels;

/// For how many milliseconds after its welcome a network may leave its greeting without an end.
const GREETING: u64 = 10_000;

/// The mapping by which names are compared here. It makes the most names equal, so that no refusal
/// is missed.
const MAPPING: CaseMapping = CaseMapping::Rfc1459;

/// The channels that are still to be joined after a registration, without those that were joined or
/// refused.
#[derive(Drop)]
pub(crate) struct Joining {
    left: Vec<Vec<u8>>,
    // when the network let us in, and when its greeting ended
    welcome: u64,
    greeted: Option<u64>,
    // for how many milliseconds after that a login waits
    wait: u64,
}

/// Whether a line says that something was refused: 4xx and 5xx (RFC 2812, section 5.2).
fn is_refusal(line: &Line) -> bool {
    matches!(line.command(), [b'4' | b'5', _, _])
}

impl Joining {
    /// No channels.
    pub(crate) fn new(alloc: Global) -> Joining {
        Joining {
            left: Vec::new(alloc),
            welcome: 0,
            greeted: None,
            wait: 0,
        }
    }

    /// These channels are to be joined, and a login waits this many milliseconds for them.
    pub(crate) fn begin(&mut self, channels: Vec<Vec<u8>>, wait: u64) {
        self.left = channels;
        self.wait = wait;
    }

    /// When the greeting ended, if it did: it is over some time after the welcome in any case.
    fn greeted(&self, now: u64) -> Option<u64> {
        match self.greeted {
            Some(time) => Some(time),
            None => {
                let time = self.welcome.saturating_add(GREETING);
                if time <= now { Some(time) } else { None }
            }
        }
    }

    /// Whether a login may wait at this time, so that lines are to be noted.
    pub(crate) fn is_open(&self, now: u64) -> bool {
        let is_over = match self.greeted(now) {
            Some(time) => now.saturating_sub(time) >= self.wait,
            None => false,
        };
        !self.left.is_empty() && !is_over
    }

    /// Takes a line of the network that came at this time.
    pub(crate) fn note(&mut self, line: &Line, now: u64) {
        if line.is(b"001") {
            self.welcome = now;
            self.greeted = None;
        }
        if self.greeted.is_none() && (ends_greeting(line) || line.is(b"JOIN")) {
            self.greeted = Some(now);
        }
        if let (true, Some(refused)) = (is_refusal(line), line.param(1)) {
            self.left
                .retain(|name| MAPPING.order(name.as_slice(), refused).is_ne());
        }
    }

    /// Leaves out the channels that we are on by now.
    pub(crate) fn leave_out(&mut self, view: &QuickView) {
        let mapping = view.support().mapping();
        for i in 0..view.channel_count() {
            if let Some(channel) = view.channel_at(i) {
                self.left.retain(|name| mapping.order(name.as_slice(), channel.name).is_ne());
            }
        }
    }

    /// How far the joining is.
    pub(crate) fn channels(&self, now: u64) -> Channels {
        if self.left.is_empty() {
            return Channels::Settled;
        }
        match self.greeted(now) {
            Some(time) => Channels::AwaitedSince(time),
            None => Channels::Awaited,
        }
    }
}

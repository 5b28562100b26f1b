//! What the log says of connections that are refused: of each address one line a second at most.

use crate::shared::Shared;
use crate::stranger_event::StrangerEvent;
use std::fmt;
use std::net::IpAddr;
use std::rt::Clock;
use std::sync::Wait;
use steward::{Said, key_of};

/// How many addresses are counted each by itself; the rest are counted together.
pub(crate) const ADDRESSES: usize = 256;

/// How many milliseconds there are at least between two lines of one address.
pub(crate) const PAUSE: u64 = 1_000;

/// An event, and how many like it had no line before.
#[derive(Clone, Copy)]
struct After<'a, T> {
    event: &'a T,
    held: u64,
}

impl<T: fmt::Display> fmt::Display for After<'_, T> {
    fn fmt<W: fmt::Write>(&self, f: &mut fmt::Formatter<W>) -> fmt::Result {
        write!(f, "{}", self.event)?;
        match self.held {
            0 => Ok(()),
            held => write!(f, "; {held} more before it"),
        }
    }
}

/// Logs that a connection from an address was refused, or counts it if that address had a line
/// within a second.
pub(crate) fn tell_refusal<R: Wait + Clock, T: fmt::Display, U: fmt::Display>(
    rt: &R,
    shared: &Shared,
    from: IpAddr,
    who: &T,
    event: &U,
) {
    shared.metrics().note_refusal();
    let now = shared.ticks(rt);
    let mut refusals = shared.refusals().lock(rt);
    let said = refusals.note(key_of(from), now);
    drop(refusals);
    if let Said::Told(held) = said {
        shared.log().tell(rt, who, &After { event, held });
    }
}

/// Logs the refusals that were counted, once their addresses may have another line.
pub(crate) fn tell_counted<R: Wait + Clock>(rt: &R, shared: &Shared) {
    let now = shared.ticks(rt);
    for _ in 0..=ADDRESSES {
        let mut refusals = shared.refusals().lock(rt);
        let due = refusals.take_due(now);
        drop(refusals);
        let Some((from, count)) = due else {
            return;
        };
        shared
            .log()
            .tell(rt, &"bnc", &StrangerEvent::Refused { from, count });
    }
}

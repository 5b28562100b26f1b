//! How a client is heard in its session.

use crate::guest::Guest;
use crate::wired::Wired;
use hub_ends::SessionId;
use hub_threads::Network;
use irc_line::lines_in;
use quick_view::QuickView;
use receipts::Hearing;
use shell::Wire;
use std::alloc::Global;
use std::cell::{Cell, OnceCell};
use std::io;
use std::io::Read;
use std::rt::Clock;
use std::sync::{Arc, Wait};
use std::time::Duration;

/// Whether a PING is among these bytes. If there is no memory to read them, none is.
fn has_ping(alloc: Global, bytes: &[u8]) -> bool {
    match lines_in(alloc, bytes) {
        Ok(lines) => lines.iter().any(|line| line.is(b"PING")),
        Err(_) => false,
    }
}

/// What hears a client, from the beginning of its session on: what reads it and what watches it share
/// that.
#[derive(Drop)]
pub(crate) struct Ear {
    hearing: Cell<Hearing>,
    network: OnceCell<Arc<Network<QuickView>>>,
    session: Cell<Option<SessionId>>,
}

impl Ear {
    /// It hears nothing yet.
    pub(crate) fn new() -> Ear {
        Ear {
            hearing: Cell::new(Hearing::new()),
            network: OnceCell::new(),
            session: Cell::new(None),
        }
    }

    /// The client may attach to this network.
    pub(crate) fn enter(&self, network: Arc<Network<QuickView>>) {
        let _ = self.network.set(network);
    }

    /// The client has a session with this number.
    pub(crate) fn attached(&self, id: SessionId) {
        self.session.set(Some(id));
    }

    /// The network of the client and the number of its session, once it has one.
    pub(crate) fn session(&self) -> Option<(&Network<QuickView>, SessionId)> {
        match (self.network.get(), self.session.get()) {
            (Some(network), Some(id)) => Some((network, id)),
            _ => None,
        }
    }

    /// When the client was heard last, if it is one that is heard.
    pub(crate) fn last(&self) -> Option<u64> {
        self.hearing.get().last()
    }

    /// The client said this at this moment.
    fn hear(&self, alloc: Global, bytes: &[u8], now: u64) {
        let mut hearing = self.hearing.get();
        let is_ping = hearing.last().is_none() && has_ping(alloc, bytes);
        hearing.hear(is_ping, now);
        self.hearing.set(hearing);
    }
}

/// A client's connection; each read that shows when its bytes came is heard: what fills its
/// room may have come long before, and so may the read after it.
#[derive(Drop)]
pub(crate) struct Heard<'a, R> {
    input: Wired<'a>,
    guest: Guest<'a, R>,
    // whether the last read took all that there was
    has_drained: bool,
}

impl<'a, R: Wait + Clock> Heard<'a, R> {
    /// The connection of this client.
    pub(crate) fn new(guest: Guest<'a, R>) -> Heard<'a, R> {
        Heard {
            input: Wired(guest.connection),
            guest,
            has_drained: true,
        }
    }

    /// The client said this now.
    fn hear(&self, bytes: &[u8]) {
        let Guest {
            rt,
            alloc,
            shared,
            ear,
            ..
        } = self.guest;
        let Some((network, id)) = ear.session() else {
            return;
        };
        let now = shared.ticks(rt);
        ear.hear(alloc, bytes, now);
        network.note_sent_to(rt, id, now);
    }
}

impl<R: Wait + Clock> Read for Heard<'_, R> {
    fn read(&mut self, buf: &mut [u8]) -> io::Result<usize> {
        let count = self.input.read(buf)?;
        let drains = count < buf.len();
        if count > 0 && drains && self.has_drained {
            self.hear(&buf[..count]);
        }
        self.has_drained = drains;
        Ok(count)
    }
}

impl<R: Wait + Clock> Wire for Heard<'_, R> {
    fn limit_reads(&mut self, time: Option<Duration>) -> io::Result<()> {
        self.input.limit_reads(time)
    }

    fn is_shut(&self) -> bool {
        self.input.is_shut()
    }
}

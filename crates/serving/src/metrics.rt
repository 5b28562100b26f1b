//! Figures for a monitoring program, which are written into a file.

use crate::control_event::ControlEvent;
use crate::helm::Standing;
use crate::kept::Kept;
use crate::publishing::Publish;
use crate::shared::Shared;
use crate::station::Station;
use figures::{NetworkFigures, Totals, figures_text};
use std::alloc::{AllocError, Global};
use std::io;
use std::rt::Clock;
use std::sync::Wait;
use std::sync::atomic::{AtomicU64, Ordering};
use std::thread::Parker;
use std::time::Duration;

/// How many seconds pass from one writing to the next.
const PAUSE: u64 = 60;

/// Where figures are written, if they are, what the thread that writes them sleeps on, and what is
/// counted for them.
#[derive(Drop)]
pub(crate) struct Metrics {
    path: Option<String>,
    bed: Parker,
    cuts: AtomicU64,
    refusals: AtomicU64,
    dials: AtomicU64,
}

impl Metrics {
    /// Figures for the file at this path; they are not written if there is none.
    pub(crate) fn new(path: Option<String>) -> Metrics {
        Metrics {
            path,
            bed: Parker::new(),
            cuts: AtomicU64::new(0),
            refusals: AtomicU64::new(0),
            dials: AtomicU64::new(0),
        }
    }

    /// The path of their file.
    pub(crate) fn path(&self) -> Option<&str> {
        self.path.as_deref()
    }

    /// Counts a session that was cut.
    pub(crate) fn note_cut(&self) {
        self.cuts.fetch_add(1, Ordering::SeqCst);
    }

    /// Counts a connection or a login that was refused.
    pub(crate) fn note_refusal(&self) {
        self.refusals.fetch_add(1, Ordering::SeqCst);
    }

    /// Counts a dial of a network.
    pub(crate) fn note_dial(&self) {
        self.dials.fetch_add(1, Ordering::SeqCst);
    }

    /// What was counted so far, with this many lines of the log that were lost.
    fn totals(&self, lost: u64) -> Totals {
        Totals {
            cuts: self.cuts.load(Ordering::SeqCst),
            refusals: self.refusals.load(Ordering::SeqCst),
            dials: self.dials.load(Ordering::SeqCst),
            lost,
        }
    }

    /// Makes the thread that writes them write now.
    pub(crate) fn ring(&self) {
        self.bed.unpark();
    }
}

/// What a network keeps; `None` while it is begun anew, and if there is no memory to count it.
pub(crate) fn kept_of<R: Wait>(rt: &R, alloc: Global, station: &Station) -> Option<Kept> {
    let network = station.slot().network(rt)?;
    Kept::by(rt, alloc, &network).ok()
}

/// The figures of a network.
fn figures_of<'a, R: Wait>(
    rt: &R,
    alloc: Global,
    shared: &Shared,
    station: &'a Station,
) -> NetworkFigures<'a> {
    let kept = kept_of(rt, alloc, station);
    let Standing { since, sessions } = shared.helm().lock(rt).standing(station.number());
    let who = station.who();
    NetworkFigures {
        user: who.user,
        network: who.network,
        is_online: since.is_some(),
        sessions: sessions as u64,
        kept: kept.map(|kept| (kept.messages as u64, kept.bytes as u64)),
    }
}

/// The text of all figures.
fn text_now<R: Wait>(rt: &R, alloc: Global, shared: &Shared) -> Result<Vec<u8>, AllocError> {
    let roster = shared.roster(rt)?;
    let mut networks = Vec::with_capacity(alloc, roster.networks().len())?;
    for (_, station) in roster.networks() {
        networks.push(figures_of(rt, alloc, shared, station))?;
    }
    let totals = shared.metrics().totals(shared.log().lost(rt));
    figures_text(alloc, networks.as_slice(), totals)
}

/// Writes all figures into a file beside the one at a path, and puts that one in its place.
fn write_metrics<R: Wait + Publish>(
    rt: &R,
    alloc: Global,
    shared: &Shared,
    path: &str,
) -> io::Result<()> {
    let text = text_now(rt, alloc, shared)?;
    let new = format!(in alloc; "{path}.new")?;
    rt.publish(new.as_str(), path, text.as_slice())
}

/// Writes the figures once a minute and whenever it is asked to, and never ends. A failure is
/// logged if the write before it did not fail.
pub(crate) fn keep_metrics<R: Wait + Clock + Publish>(rt: &R, alloc: Global, shared: &Shared) {
    let Some(path) = shared.metrics().path() else {
        return;
    };
    let mut has_failed = false;
    for _ in rt.forever() {
        match write_metrics(rt, alloc, shared, path) {
            Ok(()) => has_failed = false,
            Err(error) => {
                if !has_failed {
                    let event = ControlEvent::MetricsNotWritten { error: &error };
                    shared.log().tell(rt, &"bnc", &event);
                }
                has_failed = true;
            }
        }
        let pause = Duration::from_secs(PAUSE);
        shared.metrics().bed.park_timeout(rt, pause);
    }
}

/// Asks that the figures are written now; the log says so if the settings name no file for them.
pub(crate) fn ask_for_metrics<R: Wait + Clock>(rt: &R, shared: &Shared) {
    match shared.metrics().path() {
        Some(_) => shared.metrics().ring(),
        None => shared.log().tell(rt, &"bnc", &ControlEvent::NoMetrics),
    }
}

//! What all threads share.

use crate::helm::Helm;
use crate::journals::Journals;
use crate::limits::{Limits, budget_of};
use crate::log::Log;
use crate::metrics::Metrics;
use crate::plan::Plan;
use crate::refusals::{ADDRESSES, PAUSE};
use crate::roster::Roster;
use crate::station::Begun;
use crate::ticks::Ticks;
use bnc_config::Config;
use std::alloc::{AllocError, Global};
use std::rt::Clock;
use std::sync::atomic::{AtomicU64, Ordering};
use std::sync::{Arc, Mutex, Wait};
use steward::{Answer, Event, Refusals};

/// What all threads share: what is decided, the settings and the networks, and the log.
#[derive(Drop)]
pub struct Shared {
    helm: Mutex<Helm>,
    // what the log has of connections that were refused
    refusals: Mutex<Refusals>,
    ticks: Ticks,
    limits: Limits,
    log: Log,
    journals: Arc<Journals>,
    metrics: Metrics,
    // how many networks are still dialled
    dialled: AtomicU64,
    // for how many milliseconds a login waits while channels are joined
    wait: u64,
    // the settings of the start, by which some things go until the end
    first: Arc<Config>,
}

impl Shared {
    /// What the threads of these settings share, and the networks that are begun, in the order of
    /// the settings. Nothing outlives the program.
    pub fn new<C: Clock>(
        clock: &C,
        alloc: Global,
        config: Config,
        limits: Limits,
    ) -> Result<(Shared, Vec<Begun>), AllocError> {
        Shared::keeping(clock, alloc, config, limits, Journals::new(None))
    }

    /// The same, of networks that are kept in these journals.
    pub fn keeping<C: Clock>(
        clock: &C,
        alloc: Global,
        config: Config,
        limits: Limits,
        journals: Journals,
    ) -> Result<(Shared, Vec<Begun>), AllocError> {
        let config = Arc::new(alloc, config)?;
        let first = Arc::try_clone(&config)?;
        let wait = config.playback().wait().saturating_mul(1_000);
        let journals = Arc::new(alloc, journals)?;
        let ours = Arc::try_clone(&journals)?;
        let mut helm = Helm::new(alloc, Arc::try_clone(&config)?, &limits, wait, ours)?;
        let wanted = helm.wanted(alloc, &config)?;
        let next = helm.next_network();
        let mut plan = Plan::new(alloc, helm.roster(), config, wanted, next, &limits)?;
        helm.go_by(&mut plan, &limits, 0)?;
        let shared = Shared {
            helm: Mutex::new(helm),
            refusals: Mutex::new(Refusals::new(alloc, ADDRESSES, PAUSE)?),
            ticks: Ticks::begin(clock),
            limits,
            log: Log::new(alloc)?,
            journals,
            metrics: Metrics::new(None),
            dialled: AtomicU64::new(0),
            wait,
            first,
        };
        let Plan { begun, .. } = plan;
        Ok((shared, begun))
    }

    /// The same with figures for the file at this path, if there is one.
    pub fn with_metrics(self, path: Option<String>) -> Shared {
        Shared {
            metrics: Metrics::new(path),
            ..self
        }
    }

    /// What is decided, and what its numbers stand for. While its lock is held nothing waits, and no
    /// lock of a network is taken.
    pub(crate) fn helm(&self) -> &Mutex<Helm> {
        &self.helm
    }

    /// One step that needs no memory. What its answer asks of connections is done.
    pub(crate) fn decide<R: Wait + Clock>(&self, rt: &R, event: Event<'_>) -> Answer {
        let now = self.ticks(rt);
        self.helm.lock(rt).step(event, now)
    }

    /// The current settings, and the networks that they name.
    pub fn roster<R: Wait>(&self, rt: &R) -> Result<Arc<Roster>, AllocError> {
        let helm = self.helm.lock(rt);
        Arc::try_clone(helm.roster())
    }

    /// The current settings, and how often they were read.
    pub(crate) fn settings<R: Wait>(&self, rt: &R) -> Result<(Arc<Roster>, u64), AllocError> {
        let helm = self.helm.lock(rt);
        Ok((Arc::try_clone(helm.roster())?, helm.settings()))
    }

    /// How long things may take, and how many there may be.
    pub fn limits(&self) -> Limits {
        self.limits
    }

    /// The log of what happens.
    pub fn log(&self) -> &Log {
        &self.log
    }

    /// Where journals are kept.
    pub(crate) fn journals(&self) -> &Arc<Journals> {
        &self.journals
    }

    /// Where figures are written, and what is counted for them.
    pub(crate) fn metrics(&self) -> &Metrics {
        &self.metrics
    }

    /// For how many milliseconds after the end of a network's greeting a login waits while channels are
    /// joined. 0: it does not.
    pub(crate) fn wait(&self) -> u64 {
        self.wait
    }

    /// The settings of the start.
    pub(crate) fn first(&self) -> &Config {
        &self.first
    }

    /// How many connections wait for their login.
    pub fn logins<R: Wait>(&self, rt: &R) -> usize {
        self.helm.lock(rt).logins()
    }

    /// How many clients of the networks are served, all together. One counts until the thread that
    /// writes to it has ended.
    pub fn sessions<R: Wait>(&self, rt: &R) -> usize {
        self.helm.lock(rt).sessions()
    }

    /// What the log has of connections that were refused.
    pub(crate) fn refusals(&self) -> &Mutex<Refusals> {
        &self.refusals
    }

    /// How many milliseconds have gone by since the program began.
    pub(crate) fn ticks<C: Clock>(&self, clock: &C) -> u64 {
        self.ticks.now(clock)
    }

    /// How many bytes a network may keep.
    pub(crate) fn budget(&self) -> u64 {
        budget_of(&self.first)
    }

    /// Begins the end of the service: from now on nobody is accepted, and no network dialled.
    pub fn begin_stop<R: Wait + Clock>(&self, rt: &R) {
        let _ = self.decide(rt, Event::Stop);
    }

    /// Whether the service ends.
    pub fn is_stopping<R: Wait>(&self, rt: &R) -> bool {
        self.helm.lock(rt).is_stopping()
    }

    /// Notes that one network more is dialled.
    pub(crate) fn dials_one_more(&self) {
        self.dialled.fetch_add(1, Ordering::SeqCst);
    }

    /// Notes that one network less is dialled.
    pub(crate) fn dials_no_more(&self) {
        self.dialled.fetch_sub(1, Ordering::SeqCst);
    }

    /// Whether no network is dialled any more.
    pub(crate) fn is_over(&self) -> bool {
        self.dialled.load(Ordering::SeqCst) == 0
    }
}

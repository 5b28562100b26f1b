//! What is decided, and what its numbers stand for. One lock holds both, so a step and what it does to
//! a connection are one.

use crate::connection::Connection;
use crate::journals::Journals;
use crate::limits::{Limits, budget_of};
use crate::numbers::{Before, Numbers};
use crate::plan::Plan;
use crate::roster::Roster;
use crate::tables::{Neighbour, Tables};
use bnc_config::Config;
use client_caps::Moment;
use std::alloc::{AllocError, Global};
use std::mem;
use std::sync::Arc;
use steward::{Answer, Event, Stage, Steward, Wanted, count_inside, count_seats};

/// How a network is, for whoever asks.
#[derive(Clone, Copy)]
pub(crate) struct Standing {
    /// Since when it has let us in; `None` if it has not.
    pub(crate) since: Option<Moment>,
    /// How many clients of it are served.
    pub(crate) sessions: usize,
}

/// How many networks are on their way out, and how many are to be dialled anew.
#[derive(Clone, Copy)]
pub(crate) struct Tally {
    pub(crate) left: usize,
    pub(crate) changed: usize,
}

/// What is decided, the settings in force, and what the numbers of clients and networks stand for.
#[derive(Drop)]
pub(crate) struct Helm {
    steward: Steward,
    numbers: Numbers,
    roster: Arc<Roster>,
    tables: Tables,
}

impl Helm {
    /// No client, and no network that is served yet. A login waits this many milliseconds while
    /// channels are joined.
    pub(crate) fn new(
        alloc: Global,
        config: Arc<Config>,
        limits: &Limits,
        wait: u64,
        journals: Arc<Journals>,
    ) -> Result<Helm, AllocError> {
        let terms = limits.terms(wait, budget_of(&config));
        let roster = Roster::without_networks(alloc, config, limits.retry, journals);
        let times = limits.times(limits.retry);
        Ok(Helm {
            steward: Steward::new(alloc, limits.of_clients(), times, terms),
            numbers: Numbers::new(alloc),
            roster: Arc::new(alloc, roster)?,
            tables: Tables::new(alloc),
        })
    }

    /// The settings in force, and the networks that they name.
    pub(crate) fn roster(&self) -> &Arc<Roster> {
        &self.roster
    }

    /// How often the settings were read.
    pub(crate) fn settings(&self) -> u64 {
        self.steward.settings
    }

    /// Whether the service ends.
    pub(crate) fn is_stopping(&self) -> bool {
        self.steward.stop.is_some()
    }

    /// How many connections log in.
    pub(crate) fn logins(&self) -> usize {
        count_seats(&self.steward.door.clients)
    }

    /// How many clients are inside networks, all together.
    pub(crate) fn sessions(&self) -> usize {
        let clients = self.steward.door.clients.iter();
        clients
            .filter(|one| matches!(one.stage, Stage::Inside(_) | Stage::Parting(_)))
            .count()
    }

    /// How a network is.
    pub(crate) fn standing(&self, number: u64) -> Standing {
        Standing {
            since: self.tables.online_since(number),
            sessions: count_inside(&self.steward.door.clients, number),
        }
    }

    /// Whether clients of a network are still there that were sent their last lines.
    pub(crate) fn has_parting(&self, number: u64) -> bool {
        let mut clients = self.steward.door.clients.iter();
        clients.any(|one| one.stage == Stage::Parting(number))
    }

    /// Shuts the connections of these clients.
    pub(crate) fn shut_parting(&self, number: u64) {
        for one in &self.steward.door.clients {
            if one.stage == Stage::Parting(number) {
                self.tables.hang_up(one.number);
            }
        }
    }

    /// Whether a network is served no more, or the service ends.
    pub(crate) fn is_leaving(&self, number: u64) -> bool {
        let mut networks = self.steward.fleet.networks.iter();
        self.is_stopping() || !networks.any(|one| one.number == number && !one.is_left)
    }

    /// Whether a network that was dialled is still to be.
    pub(crate) fn is_awaited(&self, number: u64) -> bool {
        self.steward.is_awaited(number)
    }

    /// The numbers of all networks.
    pub(crate) fn networks(&self, alloc: Global) -> Result<Vec<u64>, AllocError> {
        self.tables.networks(alloc)
    }

    /// The number of the next network that is begun.
    pub(crate) fn next_network(&self) -> u64 {
        self.steward.fleet.next
    }

    /// One step that needs no memory, and what its answer asks for.
    pub(crate) fn step(&mut self, event: Event<'_>, now: u64) -> Answer {
        let answer = self.steward.on(event, now).unwrap_or(Answer::Nothing);
        self.tables.do_as(answer);
        match event {
            Event::Gone { client } => self.tables.forget_client(client),
            Event::Asks { network } if answer == Answer::Over => {
                self.tables.forget_network(network)
            }
            Event::Stop => self.tables.wake(),
            _ => {}
        }
        answer
    }

    /// A connection comes from an address. Answers its number, if it may log in, and whether half of
    /// the seats were taken. If an allocation fails nothing has changed.
    pub(crate) fn come(
        &mut self,
        from: u64,
        is_exempt: bool,
        connection: Connection,
        now: u64,
    ) -> Result<Option<(u64, bool)>, AllocError> {
        self.tables.make_room()?;
        let is_crowded = self.steward.door.is_crowded();
        let answer = self.steward.on(Event::Came { from, is_exempt }, now)?;
        self.tables.do_as(answer);
        match answer {
            Answer::Serve { client } | Answer::ServeInPlaceOf { client, .. } => {
                self.tables.add_client(client, connection)?;
                Ok(Some((client, is_crowded)))
            }
            _ => Ok(None),
        }
    }

    /// A connection to a network is made, at this address; whether we register there. If so it is noted,
    /// to be shut when the network is to end.
    pub(crate) fn connect(
        &mut self,
        network: u64,
        connection: Connection,
        address: Vec<u8>,
        now: u64,
    ) -> bool {
        let answer = self.step(Event::Connected { network }, now);
        let registers = answer == Answer::Register { network };
        if registers {
            self.tables.connect(network, connection, address);
        }
        registers
    }

    /// The other networks that are connected to this address.
    pub(crate) fn neighbours(
        &self,
        alloc: Global,
        network: u64,
        address: &[u8],
    ) -> Result<Vec<Neighbour>, AllocError> {
        self.tables.neighbours(alloc, network, address)
    }

    /// A network has let us in at a moment; whether it is served from now on.
    pub(crate) fn welcome(&mut self, network: u64, moment: Moment, now: u64) -> bool {
        let answer = self.step(Event::Registered { network }, now);
        let is_welcome = answer == Answer::Welcome { network };
        if is_welcome {
            self.tables.welcome(network, moment);
        }
        is_welcome
    }

    /// What other settings want, by numbers.
    pub(crate) fn wanted(
        &mut self,
        alloc: Global,
        config: &Config,
    ) -> Result<Vec<Wanted>, AllocError> {
        let before = Before {
            roster: &self.roster,
            networks: self.steward.fleet.networks.as_slice(),
        };
        self.numbers.wanted(alloc, config, before)
    }

    /// How many networks are on their way out, and how many are to be dialled anew.
    fn tally(&self) -> Tally {
        let networks = &self.steward.fleet.networks;
        Tally {
            left: networks.iter().filter(|one| one.is_left).count(),
            changed: networks.iter().filter(|one| one.is_changed).count(),
        }
    }

    /// Makes the steps follow what a plan wants. `None` if the service ends.
    fn settle(
        &mut self,
        plan: &Plan,
        limits: &Limits,
        now: u64,
    ) -> Result<Option<Tally>, AllocError> {
        let wanted = plan.wanted.as_slice();
        let times = limits.times(plan.roster.retry());
        let before = self.tally();
        if self.steward.on(Event::Settings { wanted, times }, now)? != Answer::Reloaded {
            return Ok(None);
        }
        let after = self.tally();
        Ok(Some(Tally {
            left: after.left.saturating_sub(before.left),
            changed: after.changed.saturating_sub(before.changed),
        }))
    }

    /// Puts other settings in force; the earlier roster takes the place of the plan's. `None` if
    /// the service ends. Then nothing has changed, and neither has it if an allocation fails.
    pub(crate) fn go_by(
        &mut self,
        plan: &mut Plan,
        limits: &Limits,
        now: u64,
    ) -> Result<Option<Tally>, AllocError> {
        let next = self.next_network();
        let added = self.tables.add_networks(&plan.begun);
        let settled = match added {
            Ok(()) => self.settle(plan, limits, now),
            Err(error) => Err(error),
        };
        match &settled {
            Ok(Some(_)) => {
                mem::swap(&mut self.roster, &mut plan.roster);
                self.tables.wake();
            }
            Ok(None) | Err(_) => self.tables.forget_from(next),
        }
        settled
    }
}

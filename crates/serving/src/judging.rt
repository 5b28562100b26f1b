//! Whether the login of a client is right, by the current settings.

use crate::guest::Guest;
use crate::roster::Roster;
use crate::station::Station;
use hub_core::AttachError;
use sessions::{Claim, Judge};
use std::alloc::AllocError;
use std::cell::{Cell, OnceCell};
use std::rt::Clock;
use std::sync::{Arc, Wait};
use steward::{Answer, Why};

/// Why a client whose login is complete is not served, and gets no answer from `serve_by`.
#[derive(Clone, Copy, PartialEq, Eq)]
pub(crate) enum TurnedAway {
    /// There is no memory for what it claims.
    NoMemory,
    /// Its password is wrong, and the limit of those that wait for an answer is reached.
    Wrong,
    /// It was closed before, or the service ends.
    Closed,
}

/// What was decided about a client whose login is complete.
#[derive(Drop)]
pub(crate) enum Judged {
    /// It is let in to this network.
    LetIn(Arc<Station>),
    /// It is not let in to this network, for this reason.
    Refused(Arc<Station>, AttachError),
    /// Its password is wrong, or its user has no such network. It is answered at this time.
    Wrong(u64),
    /// It is not served, and gets no answer.
    TurnedAway(TurnedAway),
}

/// What is decided about the login of one client, once it is.
#[derive(Drop)]
pub(crate) struct Decision {
    judged: OnceCell<Judged>,
    // its password is right, and its user has no network of the name
    lacks_network: Cell<bool>,
}

impl Decision {
    /// Nothing is decided yet.
    pub(crate) fn new() -> Decision {
        Decision {
            judged: OnceCell::new(),
            lacks_network: Cell::new(false),
        }
    }

    /// What was decided; `None` before its login is complete.
    pub(crate) fn judged(&self) -> Option<&Judged> {
        self.judged.get()
    }

    /// Whether its password is right, and its user has no network of the name that it claims.
    pub(crate) fn lacks_network(&self) -> bool {
        self.lacks_network.get()
    }
}

/// Judges the login of one client.
#[derive(Drop)]
pub(crate) struct Judging<'a, R> {
    guest: Guest<'a, R>,
}

impl<'a, R: Wait + Clock> Judging<'a, R> {
    /// Judges this client, and keeps what it decides beside it.
    pub(crate) fn new(guest: Guest<'a, R>) -> Judging<'a, R> {
        Judging { guest }
    }

    /// What is decided about a claim by these settings, which were read this often; `None` if
    /// others are in force by now.
    fn decide_by(
        &self,
        roster: &Roster,
        settings: u64,
        claim: &Claim,
    ) -> Result<Option<Judged>, AllocError> {
        let station = match roster.admitted(claim) {
            Some(station) => Some(Arc::try_clone(station)?),
            None => None,
        };
        let answer = self.guest.judge(station.as_deref(), settings);
        if answer == Answer::JudgeAgain {
            return Ok(None);
        }
        let lacks_network = roster.lacks_network_of(claim);
        self.guest.decision.lacks_network.set(lacks_network);
        Ok(Some(match (answer, station) {
            (Answer::LetIn { .. }, Some(station)) => Judged::LetIn(station),
            (Answer::Tell { why: Why::Full, .. }, Some(station)) => {
                Judged::Refused(station, AttachError::Full)
            }
            (Answer::Tell { .. }, Some(station)) => Judged::Refused(station, AttachError::NotReady),
            (Answer::AnswerAt { time, .. }, _) => Judged::Wrong(time),
            (Answer::Drop { .. }, _) => Judged::TurnedAway(TurnedAway::Wrong),
            _ => Judged::TurnedAway(TurnedAway::Closed),
        }))
    }

    /// What is decided about a claim by the current settings. If they change meanwhile, it is
    /// judged again.
    fn decide(&self, claim: &Claim) -> Result<Judged, AllocError> {
        for _ in self.guest.rt.forever() {
            let (roster, settings) = self.guest.shared.settings(self.guest.rt)?;
            if let Some(judged) = self.decide_by(&roster, settings, claim)? {
                return Ok(judged);
            }
        }
        unreachable!()
    }
}

impl<R: Wait + Clock> Judge<Arc<Station>> for Judging<'_, R> {
    // by the current settings, which are no part of this value
    ghost lets_in = { λ _ _. Unit {0} };

    ghost denies = { λ _ _. Unit {0} };

    fn judge(&self, claim: &Claim) -> Option<&Arc<Station>> {
        let judged = match self.decide(claim) {
            Ok(judged) => judged,
            Err(_) => Judged::TurnedAway(TurnedAway::NoMemory),
        };
        let decision = self.guest.decision;
        let _ = decision.judged.set(judged);
        match decision.judged.get() {
            Some(Judged::LetIn(station) | Judged::Refused(station, _)) => Some(station),
            _ => None,
        }
    }
}

//! What becomes of the networks when other settings are put in force.

use crate::limits::Limits;
use crate::roster::Roster;
use crate::shown::Who;
use crate::station::{Begun, Station};
use bnc_config::{Config, Place};
use std::alloc::{AllocError, Global};
use std::sync::Arc;
use steward::Wanted;

/// Other settings: the roster that they make, what they want by numbers, and the networks that are
/// begun.
#[derive(Drop)]
pub(crate) struct Plan {
    pub(crate) roster: Arc<Roster>,
    pub(crate) wanted: Vec<Wanted>,
    pub(crate) begun: Vec<Begun>,
}

/// What the networks of a roster are made from.
#[derive(Clone, Copy)]
struct Making<'a> {
    alloc: Global,
    config: &'a Config,
    limits: &'a Limits,
    // the roster before
    old: &'a Roster,
    // the number of the next network that is begun
    next: u64,
}

impl Making<'_> {
    /// The network of this name that is served already. One without threads is not.
    fn find(&self, label: u64) -> Option<&Arc<Station>> {
        for (_, station) in self.old.networks() {
            if station.label() == label && !station.slot().is_closed() {
                return Some(station);
            }
        }
        None
    }

    /// The network of these names: as it is served already, or else begun.
    fn station(
        &self,
        who: Who<'_>,
        label: u64,
        begun: &mut Vec<Begun>,
    ) -> Result<Arc<Station>, AllocError> {
        if let Some(station) = self.find(label) {
            return Arc::try_clone(station);
        }
        let number = self.next.saturating_add(begun.len() as u64);
        let journals = Arc::try_clone(self.old.journals())?;
        let numbers = (number, label);
        let new = Begun::new(self.alloc, who, numbers, self.config, self.limits, journals)?;
        let station = Arc::try_clone(&new.station)?;
        begun.push(new)?;
        Ok(station)
    }

    /// All networks, in the order of the settings, and those that are begun.
    fn stations(
        &self,
        wanted: &[Wanted],
    ) -> Result<(Vec<(Place, Arc<Station>)>, Vec<Begun>), AllocError> {
        let mut stations = Vec::new(self.alloc);
        let mut begun = Vec::new(self.alloc);
        let mut wanted = wanted.iter();
        for (user, named) in self.config.users().iter().enumerate() {
            for (network, settings) in named.networks().iter().enumerate() {
                let Some(one) = wanted.next() else {
                    break;
                };
                let who = Who {
                    user: named.name(),
                    client: None,
                    network: settings.name(),
                };
                let station = self.station(who, one.name, &mut begun)?;
                stations.push((Place { user, network }, station))?;
            }
        }
        Ok((stations, begun))
    }
}

impl Plan {
    /// What becomes of the networks of a roster by other settings, which want this, in their order: a
    /// network of the same user's and its own name goes on, the others are begun, with numbers from
    /// this on.
    pub(crate) fn new(
        alloc: Global,
        old: &Roster,
        config: Arc<Config>,
        wanted: Vec<Wanted>,
        next: u64,
        limits: &Limits,
    ) -> Result<Plan, AllocError> {
        let making = Making {
            alloc,
            config: &config,
            limits,
            old,
            next,
        };
        let (networks, begun) = making.stations(&wanted)?;
        let roster = Arc::new(alloc, old.next(config, networks)?)?;
        Ok(Plan {
            roster,
            wanted,
            begun,
        })
    }
}

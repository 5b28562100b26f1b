//! The current settings, and the networks that they name.

use crate::journals::Journals;
use crate::shown::Who;
use crate::station::Station;
use bnc_config::{Config, NetworkConfig, Place};
use sessions::{Claim, admitted};
use std::alloc::{AllocError, Global};
use std::sync::Arc;
use std::time::Duration;

/// The settings in force, and the networks that they name. When the settings are read again, another
/// roster replaces this one.
#[derive(Drop)]
pub struct Roster {
    config: Arc<Config>,
    networks: Vec<(Place, Arc<Station>)>,
    // between two dials
    retry: Duration,
    // what keeps them over a restart
    journals: Arc<Journals>,
}

impl Roster {
    /// These settings, whose networks are not served yet.
    pub(crate) fn without_networks(
        alloc: Global,
        config: Arc<Config>,
        retry: Duration,
        journals: Arc<Journals>,
    ) -> Roster {
        Roster {
            config,
            networks: Vec::new(alloc),
            retry,
            journals,
        }
    }

    /// Other settings, and the networks that they name.
    pub(crate) fn next(
        &self,
        config: Arc<Config>,
        networks: Vec<(Place, Arc<Station>)>,
    ) -> Result<Roster, AllocError> {
        let retry = if config.retry() == self.config.retry() {
            self.retry
        } else {
            Duration::from_secs(config.retry())
        };
        Ok(Roster {
            config,
            networks,
            retry,
            journals: Arc::try_clone(&self.journals)?,
        })
    }

    /// The settings.
    pub fn config(&self) -> &Config {
        &self.config
    }

    /// The networks, each with its place in the settings.
    pub fn networks(&self) -> &[(Place, Arc<Station>)] {
        self.networks.as_slice()
    }

    /// Between two dials of a network.
    pub(crate) fn retry(&self) -> Duration {
        self.retry
    }

    /// What keeps them over a restart.
    pub(crate) fn journals(&self) -> &Arc<Journals> {
        &self.journals
    }

    /// The network that a client claims; `None` if its password is wrong, or the settings have no such
    /// user or network.
    pub(crate) fn admitted(&self, claim: &Claim) -> Option<&Arc<Station>> {
        let place = admitted(&self.config, claim)?;
        for (other, station) in &self.networks {
            if *other == place {
                return Some(station);
            }
        }
        None
    }

    /// Whether a client's password is right, and its user has no network of the name that it claims.
    pub(crate) fn lacks_network_of(&self, claim: &Claim) -> bool {
        self.config.find(&claim.user, &claim.network).is_none()
            && self.config.password_matches(&claim.user, &claim.password)
    }

    /// The settings of a network; `None` if there are none.
    pub(crate) fn settings_of(&self, who: Who<'_>) -> Option<&NetworkConfig> {
        let place = self.config.find(who.user, who.network)?;
        self.config.network(place)
    }
}

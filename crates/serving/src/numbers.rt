//! The numbers that steps have for names, addresses, nicks and settings.

use crate::roster::Roster;
use crate::shown::Who;
use bnc_config::{Config, NetworkConfig};
use std::alloc::{AllocError, Global};
use steward::{Names, Network, Wanted};

/// The numbers of texts, and that of the settings that changed last.
#[derive(Drop)]
pub(crate) struct Numbers {
    names: Names,
    versions: u64,
}

/// What is served already: the settings, and the networks by their numbers.
#[derive(Clone, Copy)]
pub(crate) struct Before<'a> {
    pub(crate) roster: &'a Roster,
    pub(crate) networks: &'a [Network],
}

impl Before<'_> {
    /// The number of the settings of a network, if it is served under this name and dialled as these
    /// settings say.
    fn settings_of(&self, name: u64, who: Who<'_>, new: &NetworkConfig) -> Option<u64> {
        let old = self.roster.settings_of(who)?;
        if !new.is_dialled_as(old) {
            return None;
        }
        let mut networks = self.networks.iter();
        let network = networks.find(|network| network.is_served_as(name))?;
        Some(network.settings)
    }
}

impl Numbers {
    /// Nothing has a number.
    pub(crate) fn new(alloc: Global) -> Numbers {
        Numbers {
            names: Names::new(alloc),
            versions: 0,
        }
    }

    /// The number of two texts with this byte between them, which the second does not have.
    fn number_of(
        &mut self,
        alloc: Global,
        first: &[u8],
        between: u8,
        second: &[u8],
    ) -> Result<u64, AllocError> {
        let mut text = Vec::from_slice(alloc, first)?;
        text.push(between)?;
        text.extend_from_slice(second)?;
        self.names.number_of(alloc, text.as_slice())
    }

    /// What a user's settings want of one network. Settings by which it is dialled otherwise have a
    /// number of their own.
    fn wanted_one(
        &mut self,
        alloc: Global,
        who: Who<'_>,
        network: &NetworkConfig,
        before: Before<'_>,
    ) -> Result<Wanted, AllocError> {
        let address = network.address().as_bytes();
        let name = self.number_of(alloc, who.user, b'/', who.network)?;
        let settings = match before.settings_of(name, who, network) {
            Some(settings) => settings,
            None => {
                self.versions = self.versions.wrapping_add(1);
                self.versions
            }
        };
        Ok(Wanted {
            name,
            address: self.names.number_of(alloc, address)?,
            holds: self.number_of(alloc, address, b' ', network.nick())?,
            settings,
        })
    }

    /// What settings want, in their order.
    pub(crate) fn wanted(
        &mut self,
        alloc: Global,
        config: &Config,
        before: Before<'_>,
    ) -> Result<Vec<Wanted>, AllocError> {
        let mut wanted = Vec::new(alloc);
        for user in config.users() {
            for network in user.networks() {
                let who = Who {
                    user: user.name(),
                    client: None,
                    network: network.name(),
                };
                wanted.push(self.wanted_one(alloc, who, network, before)?)?;
            }
        }
        Ok(wanted)
    }
}

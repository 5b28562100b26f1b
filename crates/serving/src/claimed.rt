//! The identity that a client claims.

use crate::shown::Who;
use sessions::{Claim, OutOfMemory};
use std::alloc::Global;

/// The names in a claim, kept for the log.
#[derive(Drop)]
pub(crate) struct Claimed {
    user: Vec<u8>,
    client: Option<Vec<u8>>,
    network: Vec<u8>,
}

impl Claimed {
    /// The names in this claim.
    pub(crate) fn of(alloc: Global, claim: &Claim) -> Result<Claimed, OutOfMemory> {
        let client = match &claim.client {
            Some(client) => Some(Vec::from_slice(alloc, client.as_slice())?),
            None => None,
        };
        Ok(Claimed {
            user: Vec::from_slice(alloc, claim.user.as_slice())?,
            client,
            network: Vec::from_slice(alloc, claim.network.as_slice())?,
        })
    }

    /// What a log line is about.
    pub(crate) fn who(&self) -> Who<'_> {
        Who {
            user: self.user.as_slice(),
            client: self.client.as_deref(),
            network: self.network.as_slice(),
        }
    }
}

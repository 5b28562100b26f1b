//! The long bursts of a network that wait for their writers.

use hub_threads::Bulk;
use std::alloc::{AllocError, Global};
use std::sync::{Mutex, Wait};

/// How many bursts of more than 1 MiB of a network wait for their writers at once, at most.
const PLACES: usize = 4;

/// The place of a client that may get such a burst.
#[derive(Drop)]
struct Place {
    // the client's number
    client: u64,
    // what tells whether its burst waits; none before it has a session
    bulk: Option<Bulk>,
}

impl Place {
    /// Whether its client is still to get a burst, or its burst waits.
    fn is_taken(&self) -> bool {
        match &self.bulk {
            Some(bulk) => bulk.is_waiting(),
            None => true,
        }
    }
}

/// The places of the clients that may get a burst of more than 1 MiB, or whose burst waits.
#[derive(Drop)]
pub(crate) struct Bursts {
    places: Mutex<Vec<Place>>,
}

impl Bursts {
    /// Free places.
    pub(crate) fn new(alloc: Global) -> Result<Bursts, AllocError> {
        Ok(Bursts {
            places: Mutex::new(Vec::with_capacity(alloc, PLACES)?),
        })
    }

    /// Takes a place for a client; whether there was one. Those whose bursts are written are free.
    pub(crate) fn enter<R: Wait>(&self, rt: &R, client: u64) -> bool {
        let mut places = self.places.lock(rt);
        places.retain(|place| place.is_taken());
        if places.len() >= PLACES {
            return false;
        }
        places.push(Place { client, bulk: None }).is_ok()
    }

    /// Whether a client has a place.
    pub(crate) fn has_place<R: Wait>(&self, rt: &R, client: u64) -> bool {
        let places = self.places.lock(rt);
        places.iter().any(|place| place.client == client)
    }

    /// Notes what tells whether the burst of a client waits.
    pub(crate) fn note<R: Wait>(&self, rt: &R, client: u64, bulk: Bulk) {
        let mut places = self.places.lock(rt);
        let Some(at) = places.iter().position(|place| place.client == client) else {
            return;
        };
        if let Some(place) = places.get_mut(at) {
            place.bulk = Some(bulk);
        }
    }

    /// Gives the place of a client back, if it has one.
    pub(crate) fn leave<R: Wait>(&self, rt: &R, client: u64) {
        let mut places = self.places.lock(rt);
        places.retain(|place| place.client != client);
    }
}

//! What the numbers of clients and networks stand for, and what orders do to it. Nothing here waits.

use crate::connection::{Connection, Farewell};
use crate::station::{Begun, Station};
use client_caps::Moment;
use std::alloc::{AllocError, Global};
use std::sync::Arc;
use steward::{Answer, Why};

/// A client's connection, by its number.
#[derive(Drop)]
struct Aboard {
    number: u64,
    connection: Connection,
}

/// The connection to a network, to which address, and since when it has let us in.
#[derive(Drop)]
struct Upstream {
    connection: Connection,
    address: Vec<u8>,
    since: Option<Moment>,
}

/// A network that is connected, and whether its connection is about to end.
#[derive(Drop)]
pub(crate) struct Neighbour {
    pub(crate) station: Arc<Station>,
    pub(crate) leaves: bool,
}

/// A network, until its thread has ended.
#[derive(Drop)]
struct Berth {
    station: Arc<Station>,
    upstream: Option<Upstream>,
}

/// The connections of clients, and the networks with theirs.
#[derive(Drop)]
pub(crate) struct Tables {
    clients: Vec<Aboard>,
    berths: Vec<Berth>,
}

/// The last line that a cause calls for; `None` if it is not written for an order.
fn farewell_of(why: Why) -> Option<Farewell> {
    match why {
        Why::Stops => Some(Farewell::Stops),
        Why::Removed => Some(Farewell::Removed),
        Why::Changed => Some(Farewell::Changed),
        Why::Anew => Some(Farewell::TooMuch),
        Why::Full | Why::NotServed => None,
    }
}

impl Tables {
    /// No client and no network.
    pub(crate) fn new(alloc: Global) -> Tables {
        Tables {
            clients: Vec::new(alloc),
            berths: Vec::new(alloc),
        }
    }

    /// Makes room for one client more.
    pub(crate) fn make_room(&mut self) -> Result<(), AllocError> {
        self.clients.reserve(1)
    }

    /// Adds a client.
    pub(crate) fn add_client(
        &mut self,
        number: u64,
        connection: Connection,
    ) -> Result<(), AllocError> {
        Ok(self.clients.push(Aboard { number, connection })?)
    }

    /// Forgets a client.
    pub(crate) fn forget_client(&mut self, number: u64) {
        self.clients.retain(|client| client.number != number);
    }

    /// The numbers of all networks.
    pub(crate) fn networks(&self, alloc: Global) -> Result<Vec<u64>, AllocError> {
        let mut numbers = Vec::with_capacity(alloc, self.berths.len())?;
        for berth in &self.berths {
            numbers.push(berth.station.number())?;
        }
        Ok(numbers)
    }

    /// Adds networks that are begun. If an allocation fails, some of them.
    pub(crate) fn add_networks(&mut self, begun: &[Begun]) -> Result<(), AllocError> {
        self.berths.reserve(begun.len())?;
        for one in begun {
            self.berths.push(Berth {
                station: Arc::try_clone(&one.station)?,
                upstream: None,
            })?;
        }
        Ok(())
    }

    /// Forgets the networks from this number on.
    pub(crate) fn forget_from(&mut self, next: u64) {
        self.berths.retain(|berth| berth.station.number() < next);
    }

    /// Forgets a network.
    pub(crate) fn forget_network(&mut self, number: u64) {
        self.berths.retain(|berth| berth.station.number() != number);
    }

    /// Wakes the threads that dial, so that each asks again what to do.
    pub(crate) fn wake(&self) {
        for berth in &self.berths {
            berth.station.wake();
        }
    }

    /// The connection of a client.
    fn client(&self, number: u64) -> Option<&Connection> {
        let mut clients = self.clients.iter();
        let found = clients.find(|client| client.number == number)?;
        Some(&found.connection)
    }

    /// The connection to a network.
    fn upstream(&self, number: u64) -> Option<&Upstream> {
        let mut berths = self.berths.iter();
        let berth = berths.find(|berth| berth.station.number() == number)?;
        berth.upstream.as_ref()
    }

    /// Since when a network has let us in; `None` if it has not.
    pub(crate) fn online_since(&self, number: u64) -> Option<Moment> {
        self.upstream(number)?.since
    }

    /// The place of a network.
    fn place_of(&self, number: u64) -> Option<usize> {
        let mut berths = self.berths.iter();
        berths.position(|berth| berth.station.number() == number)
    }

    /// Notes the connection to a network, or that there is none.
    fn set_upstream(&mut self, number: u64, upstream: Option<Upstream>) {
        let Some(place) = self.place_of(number) else {
            return;
        };
        if let Some(berth) = self.berths.get_mut(place) {
            berth.upstream = upstream;
        }
    }

    /// Notes a connection to a network that registers, at this address.
    pub(crate) fn connect(&mut self, number: u64, connection: Connection, address: Vec<u8>) {
        let upstream = Upstream {
            connection,
            address,
            since: None,
        };
        self.set_upstream(number, Some(upstream));
    }

    /// The other networks that are connected to this address.
    pub(crate) fn neighbours(
        &self,
        alloc: Global,
        number: u64,
        address: &[u8],
    ) -> Result<Vec<Neighbour>, AllocError> {
        let mut neighbours = Vec::new(alloc);
        for berth in &self.berths {
            let Some(upstream) = &berth.upstream else {
                continue;
            };
            if berth.station.number() != number && upstream.address.as_slice() == address {
                neighbours.push(Neighbour {
                    station: Arc::try_clone(&berth.station)?,
                    leaves: upstream.connection.is_shut(),
                })?;
            }
        }
        Ok(neighbours)
    }

    /// Notes that a network has let us in.
    pub(crate) fn welcome(&mut self, number: u64, moment: Moment) {
        for berth in &mut self.berths {
            if berth.station.number() != number {
                continue;
            }
            if let Some(upstream) = &mut berth.upstream {
                upstream.since = Some(moment);
            }
        }
    }

    /// Shuts a client's connection.
    pub(crate) fn hang_up(&self, client: u64) {
        if let Some(connection) = self.client(client) {
            connection.hang_up();
        }
    }

    /// Ends a client's session. Its own thread writes the last line, if there is one.
    fn part(&self, client: u64, why: Why) {
        if let (Some(farewell), Some(connection)) = (farewell_of(why), self.client(client)) {
            connection.part(farewell);
        }
    }

    /// Ends the connection to a network after a last line, which its own thread writes.
    fn quit(&self, network: u64, why: Why) {
        if let (Some(farewell), Some(upstream)) = (farewell_of(why), self.upstream(network)) {
            upstream.connection.part(farewell);
        }
    }

    /// Does to connections and threads what an answer asks for.
    pub(crate) fn do_as(&mut self, answer: Answer) {
        match answer {
            Answer::ServeInPlaceOf { gone, .. } => self.hang_up(gone),
            Answer::Drop { client } => self.hang_up(client),
            Answer::Tell { client, why } => self.part(client, why),
            Answer::Quit { network, why } => self.quit(network, why),
            Answer::BeginAnew { network } => {
                if let Some(upstream) = self.upstream(network) {
                    upstream.connection.hang_up();
                }
            }
            Answer::EndedUntil { network, .. } => {
                self.set_upstream(network, None);
                self.wake();
            }
            Answer::EndedOver { network } | Answer::Forgotten { network } => {
                self.forget_network(network);
                self.wake();
            }
            _ => {}
        }
    }
}

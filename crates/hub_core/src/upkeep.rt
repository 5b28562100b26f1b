//! What a hub is asked for between its steps: a sign of life of the network, which sessions are
//! nearly full, and how much room there is towards the network.

ghost use Rattle.std.specs.Prelude.{◌≡◌, ◌∷◌, ◌++◌, [], IfOk, codes, if◌then◌else◌, map};
ghost use Rattle.hub_core.specs.Insides.{state_of};
ghost use Rattle.hub_ends.specs.Outlets.{FindsRoom};
ghost use Rattle.hub_core.specs.Given.{with_outlet};
ghost use Rattle.hub_core.specs.Saying.{Stays};
ghost use Rattle.hub_core.specs.Upkeep.{AreFreed, Asks, Frees, KeepsAlive, is_nearly_full};
ghost use Rattle.hub_core.specs.Upkeep.{life_asked, nearly_full};

use crate::hub::Hub;
use crate::outlets::put_into_room;
use crate::said::upward;
use crate::session::Session;
use history::is_message;
use hub_ends::{Inlet, Outlet, SessionId};
use irc_line::{Line, MakeError};
use net_view::{NetworkView, OutOfMemory};
use std::alloc::Global;
use welcome::Packet;

/// `PING bnc`.
fn ping(alloc: Global) -> Result<Packet, OutOfMemory>
    ensures { IfOk result (λ packet. packet ≡ life_asked ∷ []) }
{
    match Line::make(alloc, None, b"PING", &[b"bnc"]) {
        Ok(line) => Packet::one(alloc, &line),
        Err(MakeError::OutOfMemory) => Err(OutOfMemory),
        Err(MakeError::NotALine) => unreachable!(),
    }
}

/// Whether a session's outlet has nearly no room.
fn is_nearly_full<O: Outlet>(session: &mut Session<O>) -> bool
    ensures state { state_of O.state session.new
        ≡ with_outlet (state_of O.state session.old) (O.state session.new.outlet) }
    ensures found { FindsRoom O.alone (O.state session.old.outlet) (O.state session.new.outlet) }
    ensures value { result ≡ is_nearly_full (state_of O.state session.new) }
{
    session.outlet.free() < (session.outlet.capacity() / 4).max(1)
}

/// Adds a number, if it is to be added.
fn push_if(numbers: &mut Vec<SessionId>, number: SessionId, is: bool) -> Result<(), OutOfMemory>
    ensures { IfOk result (λ u. numbers.new.items
        ≡ numbers.old.items ++ (if is then number ∷ [] else [])) }
{
    if is {
        numbers.push(number)?;
    }
    Ok(())
}

/// The numbers of the sessions whose outlets have nearly no room.
fn all_nearly_full<O: Outlet>(
    alloc: Global,
    sessions: &mut Vec<Session<O>>,
) -> Result<Vec<SessionId>, OutOfMemory>
    ensures sessions { AreFreed O.alone (map (state_of O.state) sessions.old.items)
        (map (state_of O.state) sessions.new.items) }
    ensures numbers { IfOk result (λ numbers. numbers.items
        ≡ nearly_full (map (state_of O.state) sessions.new.items)) }
{
    let mut numbers = Vec::new(alloc);
    for place in 0..sessions.len() {
        let session = &mut sessions[place];
        let is_full = is_nearly_full(session);
        push_if(&mut numbers, session.id, is_full)?;
    }
    Ok(numbers)
}

impl<V: NetworkView + Drop, I: Inlet, O: Outlet> Hub<V, I, O> {
    /// Puts `PING bnc` into the outlet to the network, if we are online and there is room, and
    /// answers whether it did. The answer of the network, a PONG, goes to nobody. After
    /// `OutOfMemory`, which is the answer if an allocation was refused, nothing was put.
    pub fn keepalive(&mut self) -> Result<bool, OutOfMemory>
        ensures { KeepsAlive O.alone self.old result self.new }
    {
        if !self.online {
            return Ok(false);
        }
        if !self.upstream.room() {
            return Ok(false);
        }
        let Ok(ping) = ping(self.alloc) else {
            return Err(OutOfMemory);
        };
        put_into_room(&mut self.upstream, ping);
        Ok(true)
    }

    /// Puts a line of our own into the outlet to the network, without tags and source, if it is no
    /// message, we are online and there is room; answers whether it did. After `OutOfMemory`, which
    /// is the answer if an allocation was refused, nothing was put.
    pub fn ask(&mut self, line: &Line) -> Result<bool, OutOfMemory>
        ensures { Asks O.alone self.old line.now result self.new }
    {
        if !self.online {
            return Ok(false);
        }
        if is_message(line) {
            return Ok(false);
        }
        if !self.upstream.room() {
            return Ok(false);
        }
        let Ok(packet) = upward(self.alloc, line) else {
            return Err(OutOfMemory);
        };
        put_into_room(&mut self.upstream, packet);
        Ok(true)
    }

    /// The numbers of the sessions whose outlets have less room than for a quarter of the packets
    /// that they hold at most, or for none, in the order in which the sessions were attached.
    /// `OutOfMemory` if an allocation was refused. Nothing changes, except that more room
    /// may be known.
    pub fn nearly_full(&mut self) -> Result<Vec<SessionId>, OutOfMemory>
        ensures hub { Frees O.alone self.old self.new }
        ensures numbers { IfOk result (λ numbers. numbers.items ≡ nearly_full self.new.sessions) }
    {
        all_nearly_full(self.alloc, &mut self.sessions)
    }

    /// How many more packets there is room for in the outlet to the network, as far as is known: 0
    /// if it is full or closed. Each line that goes to the network is one packet. Nothing
    /// changes, except that more room may be known.
    pub fn upstream_free(&mut self) -> usize
        ensures hub { Stays O.alone self.old self.new }
        ensures value { result ≡ self.new.upstream.free }
    {
        self.upstream.free()
    }
}

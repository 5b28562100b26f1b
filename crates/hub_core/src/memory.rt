//! Hubs whose ends are in memory: items are put in, and packets are taken out.

ghost use Rattle.std.specs.Prelude.{◌≡◌, ◌++◌, ◌∷◌, [], IfOk, OnErr, OnOk};
ghost use Rattle.hub_ends.specs.Came.{came};
ghost use Rattle.hub_core.specs.InMemory.{DrainsAt, DrainsUpstream, with_ahead};

use crate::hub::Hub;
use crate::session::place_of;
use client_caps::Moment;
use hub_ends::{Inlet, MemoryInlet, MemoryOutlet, Outlet, SessionId};
use net_view::{Item, NetworkView, OutOfMemory};

impl<V: NetworkView + Drop, O: Outlet> Hub<V, MemoryInlet, O> {
    /// Puts an item after those that wait in the inlet. After a refusal nothing has changed.
    pub fn put(&mut self, item: Item, moment: Moment) -> Result<(), OutOfMemory>
        ensures ok { OnOk result (self.new
            ≡ with_ahead self.old (self.old.ahead ++ came (item, moment) ∷ [])) }
        ensures err { OnErr result (self.new ≡ self.old) }
    {
        self.inlet.put(item, moment)
    }
}

impl<V: NetworkView + Drop, I: Inlet> Hub<V, I, MemoryOutlet> {
    /// Takes up to `most` packets out of the outlet to the network, oldest first; answers how many.
    /// They stay to be read there. After a refusal nothing has changed.
    pub fn drain_upstream(&mut self, most: usize) -> Result<usize, OutOfMemory>
        ensures ok { IfOk result (λ taken. DrainsUpstream self.old most taken self.new) }
        ensures err { OnErr result (self.new ≡ self.old) }
    {
        let taken = self.upstream.drain(most)?;
        Ok(taken)
    }

    /// Takes up to `most` packets out of a session's outlet, oldest first; answers how many, 0
    /// if no session has the number. They stay to be read there. After a refusal nothing has
    /// changed.
    pub fn drain_session(&mut self, id: SessionId, most: usize) -> Result<usize, OutOfMemory>
        ensures ok { IfOk result (λ taken. DrainsAt self.old id most taken self.new) }
        ensures err { OnErr result (self.new ≡ self.old) }
    {
        let Some(place) = place_of(&self.sessions, id) else {
            return Ok(0);
        };
        let taken = self.sessions[place].outlet.drain(most)?;
        Ok(taken)
    }
}

//! What a hub asks of its ends.

ghost use Rattle.std.specs.Prelude.{◌≡◌, ◌∷◌, ◌++◌, ◌<◌, [], List, Bool, Option, true, ℕ};
ghost use Rattle.std.specs.Prelude.{None, Some, IsSome, IfErr, OnOk, IsTrue, ◌↔◌};
ghost use Rattle.std.specs.Prelude.{MatchOption};
ghost use Rattle.hub_ends.specs.Came.{Came, came};
ghost use Rattle.hub_ends.specs.Outlets.{FindsRoom, OutletState, Took};

use crate::packet::Packet;
use client_caps::Moment;
use net_view::Item;

/// The number of a session. Numbers rise by one, and none is given twice.
pub type SessionId = u64;

/// Where items come from, each with the moment at which it came. Its meaning is the list of items
/// taken so far.
pub trait Inlet: Drop {
    /// The items taken so far.
    ghost taken: { Self → List Came };

    /// The items that are known to come next.
    ghost ahead: { Self → List Came };

    /// Whether items come by calls on this end alone, so that all that will come is known.
    ghost alone: { Bool };

    /// Takes the next item; `None` if there is none for now.
    fn next(&mut self) -> Option<(Item, Moment)>
        ensures { MatchOption result
            ((taken self.new ≡ taken self.old) × (ahead self.old ≡ []) × (ahead self.new ≡ []))
            (λ x. (taken self.new ≡ taken self.old ++ came x ∷ []) ×
            (alone ≡ true → ahead self.old ≡ came x ∷ ahead self.new)) };
}

/// Where packets go. Its meaning is the list of packets sent so far, the number that it was closed
/// with, if any, and how much room it is known to have.
pub trait Outlet: Drop {
    /// What was sent, and how many more packets it is known to take.
    ghost state: { Self → OutletState };

    /// The number of the session in what the other end gets last, once the outlet is closed; `None`
    /// before, and if there was no room for that.
    ghost told: { Self → Option ℕ };

    /// Whether room comes by calls on this end alone.
    ghost alone: { Bool };

    /// How many packets it holds at most that the other end has not taken yet.
    fn capacity(&self) -> usize
        ensures { result ≡ (state self.now).capacity };

    /// How many more packets there is room for, as far as is known.
    fn free(&mut self) -> usize
        ensures value { result ≡ (state self.new).free }
        ensures found { FindsRoom alone (state self.old) (state self.new) };

    /// Whether there is room for a packet. After `true` the next `offer` is taken.
    fn room(&mut self) -> bool
        ensures value { IsTrue result ↔ (0 < (state self.new).free) }
        ensures found { FindsRoom alone (state self.old) (state self.new) };

    /// Sends a packet, or hands it back if the outlet is full. It waits for nobody.
    fn offer(&mut self, packet: Packet) -> Result<(), Packet>
        ensures taken { OnOk result (Took alone (state self.old) packet (state self.new)) }
        ensures full { IfErr result (λ p. (p ≡ packet) × (state self.new ≡ state self.old) ×
            ((state self.old).free ≡ 0)) };

    /// Closes the outlet with the number of its session; a second time nothing changes. A closed
    /// outlet counts as full. The other end learns of it if there is room.
    fn close(&mut self, id: SessionId)
        ensures sent { (state self.new).sent ≡ (state self.old).sent }
        ensures capacity { (state self.new).capacity ≡ (state self.old).capacity }
        ensures first { (state self.old).closed ≡ None → (state self.new).closed ≡ Some id }
        ensures again { IsSome (state self.old).closed →
            (state self.new).closed ≡ (state self.old).closed }
        ensures full { (state self.new).free ≡ 0 }
        ensures told { 0 < (state self.old).free → told self.new ≡ Some id };
}

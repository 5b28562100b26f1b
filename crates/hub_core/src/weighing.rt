//! How many bytes a hub keeps.

ghost use Rattle.std.specs.Prelude.{◌≡◌, ◌%◌, ◌^◌, sum_by};
ghost use Rattle.hub_core.specs.Weights.{Keeps, part_bytes};

use crate::hub::Hub;
use crate::state_parts::StatePart;
use hub_ends::{Inlet, Outlet};
use net_view::NetworkView;
use weights::{STATE_PART, Weighed, more};

/// How many bytes state parts keep.
fn parts_weight(parts: &[StatePart]) -> u64
    ensures { result ≡ sum_by part_bytes parts.now % 2 ^ 64 }
{
    let mut bytes = 0;
    for part in parts {
        bytes = more(bytes, more(STATE_PART, part.packet.bytes().len() as u64));
    }
    bytes
}

impl<V: NetworkView + Weighed + Drop, I: Inlet, O: Outlet> Hub<V, I, O> {
    /// How many bytes it keeps, modulo 2^64: of messages, of the names of clients, of its view, of
    /// the channels to be joined again, and of the lines that tell a client where it stands. Sums
    /// are stored, so it takes a step for each name and each set of capabilities, at most 64 of each.
    pub fn kept_bytes(&self) -> u64
        ensures { Keeps V.view V.weight self.now result }
    {
        let told = more(self.history.bytes(), self.marks.bytes());
        let seen = more(told, self.view.weight());
        more(more(seen, self.lost.bytes()), parts_weight(&self.parts))
    }
}

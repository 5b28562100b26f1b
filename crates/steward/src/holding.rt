//! Clients that wait for their sessions while channels are joined.

ghost use Rattle.std.specs.Prelude.{◌≡◌, count_by, IfNone, IfSome};
ghost use Rattle.std.specs.List.{Any};
ghost use Rattle.steward.specs.declared.client.Stage as stage;
ghost use Rattle.steward.specs.Clients.{is_inside_as};
ghost use Rattle.steward.specs.Holding.{IsEntering};
ghost use Rattle.steward.specs.Lasting.{EndsFirst, IsQuitOnce};
ghost use Rattle.steward.specs.Stewards.{IsBooked, LetsNobodyIn};

use crate::client::{Client, Stage};
use crate::event::{Answer, Channels};
use crate::finding::place_of_entrance;
use crate::search::place_inside;
use crate::steward::Steward;

/// The network that the client of this number was let in to; `None` if there is no such client, and
/// if it was sent its last line.
fn network_of(clients: &[Client], number: u64) -> Option<u64>
    ensures some { IfSome result (λ n. Any (λ x. (x.number ≡ number) × (x.stage ≡ stage.Stage.Inside n))
        clients.now) }
    ensures none { IfNone result (count_by (is_inside_as number) clients.now ≡ 0) }
{
    let Some(place) = place_inside(clients, number) else {
        return None;
    };
    match clients[place].stage {
        Stage::Inside(network) => Some(network),
        _ => None,
    }
}

impl Steward {
    /// A client that was let in is to get its session. It waits while its network, which has let us
    /// in, is joining channels, but no longer than the terms say. Nothing changes.
    pub(crate) fn enters(&self, client: u64, channels: Channels, now: u64) -> Answer
        ensures booked { IsBooked result self.now self.now }
        ensures nobody { LetsNobodyIn result }
        ensures entering { IsEntering result client channels now self.now }
        ensures still { EndsFirst result self.now }
        ensures once { IsQuitOnce result self.now self.now }
    {
        let is_ending = self.stop.is_some();
        if is_ending {
            return Answer::Nothing;
        }
        let Some(network) = network_of(&self.door.clients, client) else {
            return Answer::Nothing;
        };
        let are_settled = channels.are_settled(self.terms.wait, now);
        match place_of_entrance(&self.fleet.networks, network, are_settled) {
            Some(_) => Answer::Enter { client },
            None => Answer::Hold { client },
        }
    }
}

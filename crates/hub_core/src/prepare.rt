//! What sessions are to be sent next.

ghost use Rattle.std.specs.Prelude.{◌≡◌, ◌↔◌, [], None, Option, IfOk, IfSome, IsErrOf, IsSome, true};
ghost use Rattle.std.specs.Prelude.{if◌then◌else◌};
ghost use Rattle.std.specs.Prelude.{OnOk, map, option_map};
ghost use Rattle.std.specs.List.{AllByRecursion};
ghost use Rattle.net_view.specs.Arrival.{arrival_of};
ghost use Rattle.history.specs.Entry.{IsWrittenEntry, in_ring};
ghost use Rattle.hub_core.specs.Given.{all_sets_but, given_but, packet_for, sets_but};
ghost use Rattle.hub_core.specs.Insides.{state_of};
ghost use Rattle.hub_core.specs.Pumping.{entry_for};

use crate::hub::HubError;
use crate::image_table::{Made, shared_packet_for};
use crate::incoming::Incoming;
use crate::messages::entry_of;
use crate::session::Session;
use history::{Entry, History};
use hub_ends::{Outlet, SessionId};
use net_view::{NetworkView, OutOfMemory};
use welcome::Packet;

/// What one session is to be sent of an item; nothing, if it is the one left out.
fn coming_for<V: NetworkView, O: Outlet>(
    incoming: &Incoming<'_, V>,
    session: &Session<O>,
    except: Option<SessionId>,
    made: &mut Vec<Made>,
) -> Result<Option<Packet>, OutOfMemory>
    requires { AllByRecursion (λ m. m.packet ≡ packet_for (V.view incoming.now.view.now)
        (arrival_of incoming.now.item.now, incoming.now.moment.0) m.caps) made.old.items }
    ensures packet { IfOk result (λ packet. packet
        ≡ given_but except (packet_for (V.view incoming.now.view.now)
        (arrival_of incoming.now.item.now, incoming.now.moment.0))
        (state_of O.state session.now)) }
    ensures made { AllByRecursion (λ m. m.packet ≡ packet_for (V.view incoming.now.view.now)
        (arrival_of incoming.now.item.now, incoming.now.moment.0) m.caps) made.new.items }
    ensures sets { OnOk result (map (λ m. m.caps) made.new.items
        ≡ sets_but except (map (λ m. m.caps) made.old.items) (state_of O.state session.now)) }
{
    if except == Some(session.id) {
        return Ok(None);
    }
    shared_packet_for(incoming, session.caps, made)
}

/// Makes what each session but one is to be sent of an item, once for each set of capabilities.
/// Nothing is sent yet: after a refusal each session is as it was.
#[tactic(auto, using(irc_line::proofs::Outcomes::not_ok))]
fn prepare<V: NetworkView, O: Outlet>(
    incoming: &Incoming<'_, V>,
    sessions: &mut Vec<Session<O>>,
    except: Option<SessionId>,
    made: &mut Vec<Made>,
) -> Result<(), OutOfMemory>
    ensures states { map (state_of O.state) sessions.new.items
        ≡ map (state_of O.state) sessions.old.items }
    ensures coming { OnOk result (AllByRecursion (λ s. s.coming
        ≡ given_but except (packet_for (V.view incoming.now.view.now)
        (arrival_of incoming.now.item.now, incoming.now.moment.0))
        (state_of O.state s)) sessions.new.items) }
    ensures sets { OnOk result (map (λ m. m.caps) made.new.items
        ≡ all_sets_but except [] (map (state_of O.state) sessions.old.items)) }
{
    made.clear();
    for i in 0..sessions.len() {
        let coming = coming_for(incoming, &sessions[i], except, made)?;
        sessions[i].coming = coming;
    }
    Ok(())
}

/// Makes what an item leads to: what each session but one is to be sent, and the entry of a
/// message, if it is to be kept, in the ring of a person of this name, or in that of its target.
/// Nothing is sent yet, and no date is formatted for what is not kept.
pub fn prepare_item<V: NetworkView, O: Outlet>(
    incoming: &Incoming<'_, V>,
    sessions: &mut Vec<Session<O>>,
    history: &History,
    except: Option<SessionId>,
    is_kept: bool,
    ring: Option<&[u8]>,
    made: &mut Vec<Made>,
) -> Result<Option<Entry>, HubError>
    ensures states { map (state_of O.state) sessions.new.items
        ≡ map (state_of O.state) sessions.old.items }
    ensures made { IfOk result (λ entry. entry ≡ (if is_kept
        then option_map (in_ring (option_map (λ name. name.now) ring.entry))
        (entry_for (arrival_of incoming.now.item.now, incoming.now.moment.0)) else None)) }
    ensures written { IfOk result (λ entry. IfSome entry IsWrittenEntry) }
    ensures coming { OnOk result (AllByRecursion (λ s. s.coming
        ≡ given_but except (packet_for (V.view incoming.now.view.now)
        (arrival_of incoming.now.item.now, incoming.now.moment.0))
        (state_of O.state s)) sessions.new.items) }
    ensures numbered { IfOk result (λ entry. IsSome entry → IsSome history.now.next) }
    ensures sets { OnOk result (map (λ m. m.caps) made.new.items ≡ all_sets_but except []
        (map (state_of O.state) sessions.old.items)) }
    ensures spent { IsErrOf result HubError.Spent ↔
        ((is_kept ≡ true) × (history.now.next ≡ None)) }
{
    if is_kept && history.next_number().is_none() {
        return Err(HubError::Spent);
    }
    prepare(incoming, sessions, except, made)?;
    if !is_kept {
        return Ok(None);
    }
    let entry = entry_of(incoming.alloc, ring, incoming.item, incoming.moment)?;
    Ok(entry)
}

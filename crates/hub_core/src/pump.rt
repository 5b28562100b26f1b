//! What comes from the network goes to the sessions.

ghost use Rattle.std.specs.Prelude.{◌≡◌, ◌≤◌, ◌++◌, ◌∷◌, ◌↔◌, [], None, Option, IsSome, IfErr, IfOk};
ghost use Rattle.std.specs.Prelude.{IfNone, IfSome, IsErrOf, OnErr, OnOk, codes, cond, is_some};
ghost use Rattle.std.specs.Prelude.{length, map, option_map};
ghost use Rattle.std.specs.Option.{option_map_or};
ghost use Rattle.std.specs.List.{AllByRecursion};
ghost use Rattle.irc_line.specs.Writing.{untagged_line};
ghost use Rattle.net_view.specs.Arrival.{arrival_of};
ghost use Rattle.history.specs.Entry.{IsWrittenEntry};
ghost use Rattle.hub_ends.specs.Came.{came};
ghost use Rattle.hub_core.specs.Given.{all_sets_but, given_but, packet_for};
ghost use Rattle.hub_core.specs.Insides.{state_of};
ghost use Rattle.hub_core.specs.LostChannels.{keyed, lost_by};
ghost use Rattle.hub_core.specs.Online.{is_welcome, says_online};
ghost use Rattle.history.specs.Keeping.{kept_by};
ghost use Rattle.hub_core.specs.Pumping.{Comes, Pumps, entry_kept, pong_for};

use crate::deliver::deliver;
use crate::hub::{Hub, HubError, Pumped};
use crate::image_table::{Made, images_of};
use crate::incoming::Incoming;
use crate::key_news::news_of;
use crate::lost::{LostChannels, LostEntry, drop_named, lost_by, renew, settled_by};
use crate::messages::{is_kept, keep, ring_heard};
use crate::outlets::put;
use crate::prepare::prepare_item;
use crate::session::Session;
use crate::state_parts::{drop_if_short, drop_outdated};
use client_caps::Moment;
use history::{Entry, History, Keeping};
use hub_ends::{Inlet, Outlet};
use irc_line::Line;
use irc_names::is_nameable;
use net_view::{Item, NetworkView, OutOfMemory};
use std::alloc::Global;
use welcome::Packet;

/// The held item, or else the next one.
fn next_item<I: Inlet>(held: &mut Option<(Item, Moment)>, inlet: &mut I) -> Option<(Item, Moment)>
    ensures none { IfNone result ((option_map came held.old ≡ None) ×
        (I.taken inlet.new ≡ I.taken inlet.old) × (I.ahead inlet.old ≡ []) ×
        (I.ahead inlet.new ≡ [])) }
    ensures taken { IfSome result (λ x. I.taken inlet.new
        ≡ I.taken inlet.old ++ cond (is_some (option_map came held.old)) [] (came x ∷ [])) }
    ensures held { held.new ≡ None }
    ensures ahead { IfSome result (λ x. Comes I.alone (option_map came held.old)
        (I.ahead inlet.old) (came x) (I.ahead inlet.new)) }
{
    if let Some(item) = held.take() {
        return Some(item);
    }
    inlet.next()
}

/// The answer to a PING of the network.
fn pong(alloc: Global, line: &Line) -> Result<Packet, OutOfMemory>
    ensures { IfOk result (λ packet.
        packet ≡ untagged_line None (codes "PONG") line.now.params ∷ []) }
{
    let pong = line.copy_as_in(alloc, None, b"PONG")?;
    Packet::one(alloc, &pong)
}

/// What the network is answered to an item.
fn pong_of(alloc: Global, item: &Item) -> Result<Option<Packet>, OutOfMemory>
    ensures { IfOk result (λ packet. packet ≡ pong_for (arrival_of item.now)) }
{
    match item {
        Item::Line(line) if line.is(b"PING") => Ok(Some(pong(alloc, line)?)),
        _ => Ok(None),
    }
}

/// Whether a line takes us in.
fn is_welcome(line: &Line) -> bool
    ensures { result ≡ is_welcome line.now }
{
    line.is(b"001")
        && match line.param(0) {
            Some(nick) => is_nameable(nick),
            None => false,
        }
}

/// Whether we are online after an item.
fn online_after(online: bool, item: &Item) -> bool
    ensures { result ≡ option_map_or (λ said. said) (says_online (arrival_of item.now)) online }
{
    match item {
        Item::Line(line) => online || is_welcome(line),
        Item::Lost => false,
    }
}

/// Makes what an item from the network leads to: that for the sessions, the answer to a PING, and
/// the channels that are to be joined again from here on, for which room is made.
#[tactic(auto, using(irc_line::proofs::Outcomes::no_value, irc_line::proofs::Outcomes::not_ok, crate::proofs::Kept::kept_if))]
fn prepare_arrival<V: NetworkView, O: Outlet>(
    incoming: &Incoming<'_, V>,
    sessions: &mut Vec<Session<O>>,
    history: &History,
    keeping: &Keeping,
    made: &mut Vec<Made>,
    lost: &mut LostChannels,
) -> Result<(Option<Entry>, Option<Packet>, Option<Vec<LostEntry>>), HubError>
    ensures states { map (state_of O.state) sessions.new.items
        ≡ map (state_of O.state) sessions.old.items }
    ensures made { IfOk result (λ r.
        (r.0 ≡ entry_kept (kept_by keeping.now)
        (arrival_of incoming.now.item.now, incoming.now.moment.0)) ×
        (r.1 ≡ pong_for (arrival_of incoming.now.item.now)) ×
        (option_map (λ channels. map (λ e. keyed e.value) channels.items) r.2
        ≡ lost_by (V.view incoming.now.view.now) (arrival_of incoming.now.item.now))) }
    ensures all { lost.new.all ≡ lost.old.all }
    ensures room { IfOk result (λ r.
        IfSome r.2 (λ channels. length channels.items ≤ lost.new.spare)) }
    ensures written { IfOk result (λ r. IfSome r.0 IsWrittenEntry) }
    ensures coming { OnOk result (AllByRecursion (λ s. s.coming
        ≡ given_but None (packet_for (V.view incoming.now.view.now)
        (arrival_of incoming.now.item.now, incoming.now.moment.0))
        (state_of O.state s)) sessions.new.items) }
    ensures numbered { IfOk result (λ r. IsSome r.0 → IsSome history.now.next) }
    ensures sets { OnOk result (map (λ m. m.caps) made.new.items ≡ all_sets_but None []
        (map (state_of O.state) sessions.old.items)) }
    ensures spent { IsErrOf result HubError.Spent ↔
        (IsSome (entry_kept (kept_by keeping.now)
        (arrival_of incoming.now.item.now, incoming.now.moment.0)) ×
        (history.now.next ≡ None)) }
{
    let is_kept = is_kept(keeping, incoming.item);
    let ring = ring_heard(keeping, incoming.item);
    let entry = prepare_item(incoming, sessions, history, None, is_kept, ring, made)?;
    let pong = pong_of(incoming.alloc, incoming.item)?;
    let new = lost_by(incoming.alloc, incoming.view, incoming.item, lost)?;
    Ok((entry, pong, new))
}

impl<V: NetworkView + Drop, I: Inlet, O: Outlet> Hub<V, I, O> {
    /// Tries the held item, or else takes the next one from the inlet. For a line, each session is
    /// sent its image, as its client's capabilities have it, by the view before the line; a message
    /// is kept, if the profile keeps it, in its ring; a PING puts a PONG with its parameters into the
    /// outlet to the network, if there is room. For a loss each session is sent that we leave the
    /// channels. A session whose outlet has no room is cut.
    ///
    /// After an error the item is held and nothing else has changed; the next pump tries it again.
    /// `Spent` comes exactly if the item is a message to be kept for which there is no number, and
    /// before memory is asked for. `OutOfMemory` if an allocation was refused.
    pub fn pump(&mut self) -> Result<Pumped, HubError>
        ensures step { Pumps I.alone O.alone self.old result self.new }
    {
        let Some((item, moment)) = next_item(&mut self.held, &mut self.inlet) else {
            return Ok(Pumped::Nothing);
        };
        let incoming = Incoming {
            alloc: self.alloc,
            view: &self.view,
            item: &item,
            moment,
        };
        let (sessions, kept, by) = (&mut self.sessions, &self.history, &self.profile.keeping);
        let (made, lost) = (&mut self.made, &mut self.lost);
        let (entry, pong, new) = match prepare_arrival(&incoming, sessions, kept, by, made, lost) {
            Ok(made) => made,
            Err(e) => {
                self.held = Some((item, moment));
                drop_if_short(&mut self.parts, e);
                return Err(e);
            }
        };
        if let Err(e) = keep(&mut self.history, entry) {
            self.held = Some((item, moment));
            drop_if_short(&mut self.parts, e);
            return Err(e);
        }
        let settled = settled_by(&self.view, &item, &self.lost, &self.recalled);
        let news = news_of(&self.view, &item, &self.wishes.keys);
        // A message is no state line, so the view takes it: here nothing was kept.
        if let Err(_) = self.view.take(&item) {
            self.held = Some((item, moment));
            drop_if_short(&mut self.parts, HubError::OutOfMemory);
            return Err(HubError::OutOfMemory);
        }
        drop_outdated(&mut self.parts, &item);
        self.images = self.images.saturating_add(images_of(&item, &self.made));
        self.online = online_after(self.online, &item);
        renew(&mut self.lost, settled, new);
        drop_named(&mut self.recalled, settled);
        self.wishes.hear(&item, news);
        put(&mut self.upstream, pong);
        let cut = deliver(&mut self.sessions);
        Ok(Pumped::Taken { cut })
    }
}

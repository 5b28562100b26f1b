//! One event.

ghost use Rattle.std.specs.Prelude.{ℕ, ◌≡◌, List, IfErr, IfOk, OnErr, map, option_map};
ghost use Rattle.hub_ends.specs.Came.{Came};
ghost use Rattle.hub_ends.specs.Outlets.{OutletState};
ghost use Rattle.hub_core.specs.Attaching.{Goes, Lacks};
ghost use Rattle.hub_ends.specs.Memory.{state_of};
ghost use Rattle.hub_runs.specs.declared.event.Event.TheVariants as on;
ghost use Rattle.hub_runs.specs.Worlds.{Happens, RestsAt, Stops, Went, name_of, outlets_of};
ghost use Rattle.hub_runs.specs.Worlds.{world_of};

use crate::event::Event;
use crate::items::{take_in, take_lines};
use crate::outcome::{MemoryHub, Reply, Stop, World};
use client_caps::{Caps, Moment};
use hub_core::{AttachError, HubError, NoSession, Seen};
use hub_ends::{MemoryOutlet, SessionId};
use irc_line::{Line, Splitter};
use net_view::{Item, NetworkView};
use std::alloc::Global;

/// A piece comes: its lines are taken.
fn up<V: NetworkView + Drop>(
    alloc: Global,
    hub: &mut MemoryHub<V>,
    splitter: &mut Splitter,
    bytes: &Vec<u8>,
    moment: Moment,
) -> Result<Reply, Stop>
    ensures ok { (gone : List OutletState) → IfOk result (λ r. Happens (on.Up bytes.now moment) r
        (world_of hub.old splitter.old.rest gone) (world_of hub.new splitter.new.rest gone)) }
    ensures err { (gone : List OutletState) → IfErr result (λ s. (taken : List Came) × Stops
        (on.Up bytes.now moment) s (world_of hub.old splitter.old.rest gone) taken hub.new) }
    ensures rest { OnErr result
        (RestsAt (on.Up bytes.now moment) splitter.old.rest splitter.new.rest) }
{
    let mut lines = Vec::new(alloc);
    splitter.feed(bytes, &mut lines)?;
    let mut pumped = Vec::with_capacity(alloc, lines.len())?;
    take_lines(hub, &mut lines, moment, &mut pumped)?;
    Ok(Reply::Up(pumped))
}

/// The connection is lost: so is a line that is not at its end.
fn lose<V: NetworkView + Drop>(
    alloc: Global,
    hub: &mut MemoryHub<V>,
    splitter: &mut Splitter,
    moment: Moment,
) -> Result<Reply, Stop>
    ensures ok { (gone : List OutletState) → IfOk result (λ r. Happens (on.Lost moment) r
        (world_of hub.old splitter.old.rest gone) (world_of hub.new splitter.new.rest gone)) }
    ensures err { (gone : List OutletState) → IfErr result (λ s. (taken : List Came) × Stops
        (on.Lost moment) s (world_of hub.old splitter.old.rest gone) taken hub.new) }
    ensures rest { OnErr result (splitter.new.rest ≡ splitter.old.rest) }
{
    let did = match take_in(hub, Item::Lost, moment) {
        Ok(did) => did,
        Err(e) => return Err(Stop::from(e)),
    };
    *splitter = Splitter::new(alloc);
    Ok(Reply::Lost(did))
}

/// A client's name as the hub gets it.
fn name_of(name: &Option<Vec<u8>>) -> Option<&[u8]>
    ensures { option_map (λ n. n.now) result ≡ name_of name.now }
{
    match name {
        Some(name) => Some(name.as_slice()),
        None => None,
    }
}

/// A client attaches, to an outlet of its own.
fn join<V: NetworkView + Drop>(
    alloc: Global,
    hub: &mut MemoryHub<V>,
    caps: Caps,
    name: &Option<Vec<u8>>,
    capacity: usize,
) -> Result<Reply, Stop>
    ensures ok { (rest : List ℕ) (gone : List OutletState) → IfOk result (λ r. Happens
        (on.Attach caps name.now capacity) r (world_of hub.old rest gone)
        (world_of hub.new rest gone)) }
    ensures err { IfErr result (λ s. (s ≡ Stop.Memory) × (hub.new ≡ hub.old)) }
{
    let outlet = MemoryOutlet::new(alloc, capacity)?;
    match hub.attach(caps, name_of(name), outlet) {
        Ok(id) => Ok(Reply::Attach(Ok(id))),
        Err((AttachError::OutOfMemory, _)) => Err(Stop::Memory),
        Err((e, _)) => Ok(Reply::Attach(Err(e))),
    }
}

/// A session goes, and its client has seen this.
fn end<V: NetworkView + Drop>(
    hub: &mut MemoryHub<V>,
    id: SessionId,
    seen: Seen,
) -> Result<MemoryOutlet, NoSession>
    ensures ok { IfOk result (λ o.
        Goes seen hub.old id (state_of o) (state_of o).closed hub.new) }
    ensures err { OnErr result ((hub.new ≡ hub.old) × Lacks id hub.old.sessions) }
{
    match seen {
        Seen::All => hub.detach(id),
        Seen::UpTo(number) => hub.leave(id, number),
    }
}

/// A session goes, and its client has seen this; its outlet is kept.
fn leave<V: NetworkView + Drop>(
    hub: &mut MemoryHub<V>,
    id: SessionId,
    seen: Seen,
    gone: &mut Vec<MemoryOutlet>,
) -> Result<Reply, Stop>
    ensures ok { (rest : List ℕ) → IfOk result (λ r. Went seen id r
        (world_of hub.old rest (outlets_of gone.old.items))
        (world_of hub.new rest (outlets_of gone.new.items))) }
    ensures err { IfErr result (λ s. (s ≡ Stop.Memory) × (hub.new ≡ hub.old) ×
        (gone.new.items ≡ gone.old.items)) }
{
    gone.reserve(1)?;
    match end(hub, id, seen) {
        Ok(outlet) => {
            gone.push_reserved(outlet);
            Ok(Reply::Detach(Ok(())))
        }
        Err(NoSession) => Ok(Reply::Detach(Err(NoSession))),
    }
}

/// A client says a line.
fn hear<V: NetworkView + Drop>(
    hub: &mut MemoryHub<V>,
    id: SessionId,
    line: &Line,
    moment: Moment,
) -> Result<Reply, Stop>
    ensures ok { (rest : List ℕ) (gone : List OutletState) → IfOk result (λ r. Happens
        (on.Said id line.now moment) r (world_of hub.old rest gone) (world_of hub.new rest gone)) }
    ensures err { IfErr result (λ s. (s ≡ Stop.Memory) × (hub.new ≡ hub.old)) }
{
    match hub.said(id, line, moment) {
        Err(HubError::OutOfMemory) => Err(Stop::Memory),
        said => Ok(Reply::Said(said)),
    }
}

/// Packets are taken out.
fn drain<V: NetworkView + Drop>(
    hub: &mut MemoryHub<V>,
    id: Option<SessionId>,
    most: usize,
) -> Result<Reply, Stop>
    ensures ok { (rest : List ℕ) (gone : List OutletState) → IfOk result (λ r. Happens
        (on.Drained id most) r (world_of hub.old rest gone) (world_of hub.new rest gone)) }
    ensures err { IfErr result (λ s. (s ≡ Stop.Memory) × (hub.new ≡ hub.old)) }
{
    let taken = match id {
        Some(id) => hub.drain_session(id, most)?,
        None => hub.drain_upstream(most)?,
    };
    Ok(Reply::Drained(taken))
}

/// One event. After a stop the world has only taken what was before it.
pub fn apply<V: NetworkView + Drop>(
    alloc: Global,
    world: &mut World<V>,
    event: &Event,
) -> Result<Reply, Stop>
    ensures ok { IfOk result (λ r. Happens event.now r
        (world_of world.old.hub world.old.splitter.rest (outlets_of world.old.gone.items))
        (world_of world.new.hub world.new.splitter.rest (outlets_of world.new.gone.items))) }
    ensures err { IfErr result (λ s. (taken : List Came) × Stops event.now s
        (world_of world.old.hub world.old.splitter.rest (outlets_of world.old.gone.items)) taken
        world.new.hub × (world.new.gone.items ≡ world.old.gone.items)) }
    ensures rest { OnErr result
        (RestsAt event.now world.old.splitter.rest world.new.splitter.rest) }
    ensures replies { world.new.replies ≡ world.old.replies }
{
    match event {
        Event::Up(bytes, moment) => up(alloc, &mut world.hub, &mut world.splitter, bytes, *moment),
        Event::Lost(moment) => lose(alloc, &mut world.hub, &mut world.splitter, *moment),
        Event::Attach(caps, name, capacity) => join(alloc, &mut world.hub, *caps, name, *capacity),
        Event::Detach(id) => leave(&mut world.hub, *id, Seen::All, &mut world.gone),
        Event::Leave(id, number) => {
            leave(&mut world.hub, *id, Seen::UpTo(*number), &mut world.gone)
        }
        Event::Said(id, line, moment) => hear(&mut world.hub, *id, line, *moment),
        Event::Drained(id, most) => drain(&mut world.hub, *id, *most),
    }
}

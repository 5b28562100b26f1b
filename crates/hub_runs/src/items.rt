//! Items are put into a hub, and it takes them.

ghost use Rattle.std.specs.Prelude.{◌≡◌, ◌+◌, ◌≤◌, [], List, IfOk, IfErr, OnOk, map, vec_len};
ghost use Rattle.std.specs.Vec.{vec_capacity};
ghost use Rattle.net_view.specs.Arrival.{Received};
ghost use Rattle.hub_ends.specs.Came.{Came, came};
ghost use Rattle.hub_runs.specs.Worlds.{RefusesItem, TakesAll, TakesIn, RefusesAmong};

use crate::outcome::MemoryHub;
use client_caps::Moment;
use hub_core::{HubError, Pumped};
use irc_line::Line;
use net_view::{Item, NetworkView};

/// Puts an item, and has the hub take it.
pub fn take_in<V: NetworkView + Drop>(
    hub: &mut MemoryHub<V>,
    item: Item,
    moment: Moment,
) -> Result<Pumped, HubError>
    ensures ok { IfOk result (λ did. TakesIn hub.old (came (item, moment)) did hub.new) }
    ensures err { IfErr result (λ e. RefusesItem hub.old (came (item, moment)) e hub.new) }
{
    match hub.put(item, moment) {
        Ok(()) => hub.pump(),
        Err(_) => Err(HubError::OutOfMemory),
    }
}

/// Has the hub take lines, in order, and notes what it did of each.
pub fn take_lines<V: NetworkView + Drop>(
    hub: &mut MemoryHub<V>,
    lines: &mut Vec<Line>,
    moment: Moment,
    pumped: &mut Vec<Pumped>,
) -> Result<(), HubError>
    requires none { pumped.old.items ≡ [] }
    requires room { vec_len lines.old ≤ vec_capacity pumped.old }
    ensures ok { OnOk result (TakesAll hub.old
        (map (λ line. (Received line, moment.0)) lines.old.items) pumped.new.items hub.new) }
    ensures err { IfErr result (λ e. (taken : List Came) × RefusesAmong
        (map (λ line. (Received line, moment.0)) lines.old.items) e hub.old taken hub.new) }
{
    for line in lines.drain(..) {
        match take_in(hub, Item::Line(line), moment) {
            Ok(did) => pumped.push_reserved(did),
            Err(e) => return Err(e),
        }
    }
    Ok(())
}

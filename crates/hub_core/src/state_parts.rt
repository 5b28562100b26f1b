//! The state parts of bursts, kept until the view may be another.

ghost use Rattle.std.specs.Prelude.{◌≡◌, [], false, true, IfOk, IfSome, position};
ghost use Rattle.net_view.specs.Arrival.{arrival_of};
ghost use Rattle.net_view.specs.StateLines.{is_state_item};
ghost use Rattle.net_view.specs.View.{View};
ghost use Rattle.welcome.specs.Burst.{state_part_of};
ghost use Rattle.hub_core.specs.Given.{same_caps};
ghost use Rattle.hub_core.specs.StateParts.{AreStateParts};

use crate::hub::HubError;
use client_caps::Caps;
use net_view::{Item, NetworkView, OutOfMemory, is_state_line};
use std::alloc::Global;
use welcome::{Packet, state_part};

/// How many state parts are kept at most: one for each set of the six capabilities.
const KEPT_LIMIT: usize = 64;

/// What a client with this set of capabilities is sent first when it attaches.
#[derive(Drop)]
pub struct StatePart {
    pub caps: Caps,
    pub packet: Packet,
}

/// The place of the state part for a set.
fn place_in(parts: &Vec<StatePart>, caps: Caps) -> Option<usize>
    ensures { result ≡ position (λ p. same_caps p.caps caps) parts.now.items }
{
    parts.iter().position(|part| part.caps == caps)
}

/// A share of the state part that is kept for a set, if there is one.
fn kept_for<V: NetworkView>(view: &V, parts: &Vec<StatePart>, caps: Caps) -> Option<Packet>
    requires { AreStateParts (V.view view.now) parts.now.items }
    ensures { IfSome result (λ packet. packet ≡ state_part_of (V.view view.now) caps) }
{
    let place = place_in(parts, caps)?;
    match parts[place].packet.share() {
        Ok(packet) => Some(packet),
        Err(_) => None,
    }
}

/// Keeps a state part, if memory allows. If the most that there may be are kept, the one that was
/// made first goes.
fn keep_part(parts: &mut Vec<StatePart>, caps: Caps, packet: &Packet)
    ensures { (view : View) → AreStateParts view parts.old.items →
        packet.now ≡ state_part_of view caps → AreStateParts view parts.new.items }
{
    let Ok(packet) = packet.share() else {
        return;
    };
    if parts.len() >= KEPT_LIMIT {
        parts.remove(0);
    }
    let _ = parts.push(StatePart { caps, packet });
}

/// The state part of a view that is ready, for a set of capabilities: a share of the one that is
/// kept, or one that is made now and kept, if memory allows.
pub fn state_part_for<V: NetworkView>(
    alloc: Global,
    view: &V,
    caps: Caps,
    parts: &mut Vec<StatePart>,
) -> Result<Packet, OutOfMemory>
    requires ready { (V.view view.now).ready ≡ true }
    requires parts { AreStateParts (V.view view.now) parts.old.items }
    ensures packet { IfOk result (λ packet. packet ≡ state_part_of (V.view view.now) caps) }
    ensures parts { AreStateParts (V.view view.now) parts.new.items }
{
    if let Some(packet) = kept_for(view, parts, caps) {
        return Ok(packet);
    }
    let packet = state_part(alloc, view, caps)?;
    keep_part(parts, caps, &packet);
    Ok(packet)
}

/// Whether an item may change a view.
fn may_change_a_view(item: &Item) -> bool
    ensures { result ≡ is_state_item (arrival_of item.now) }
{
    match item {
        Item::Line(line) => is_state_line(line),
        Item::Lost => true,
    }
}

/// Drops the state parts of a view that has taken an item which may have changed it.
pub fn drop_outdated(parts: &mut Vec<StatePart>, item: &Item)
    ensures { (before after : View) → AreStateParts before parts.old.items →
        (is_state_item (arrival_of item.now) ≡ false → after ≡ before) →
        AreStateParts after parts.new.items }
{
    if !parts.is_empty() && may_change_a_view(item) {
        parts.clear();
    }
}

/// Drops the state parts after an allocation was refused, for whoever needs the memory more.
pub fn drop_if_short(parts: &mut Vec<StatePart>, refusal: HubError)
    ensures kept { (view : View) → AreStateParts view parts.old.items →
        AreStateParts view parts.new.items }
    ensures dropped { refusal ≡ HubError.OutOfMemory → parts.new.items ≡ [] }
{
    match refusal {
        HubError::OutOfMemory => parts.clear(),
        HubError::Spent => {}
    }
}

//! What sessions are sent of an item, made once for each set of capabilities.

ghost use Rattle.std.specs.Prelude.{◌≡◌, Option, Some, IfOk, OnOk, length, map, position};
ghost use Rattle.std.specs.Prelude.{option_to_list};
ghost use Rattle.std.specs.List.{AllByRecursion};
ghost use Rattle.net_view.specs.Arrival.{arrival_of};
ghost use Rattle.hub_core.specs.Given.{packet_for, packet_of, same_caps, more_sets};
ghost use Rattle.hub_core.specs.Pumping.{images_for};
ghost use Rattle.client_caps.specs.Images.{part_lines_of};

use crate::incoming::Incoming;
use client_caps::{Caps, image, part_lines};
use irc_line::Line;
use net_view::{Item, NetworkView, OutOfMemory};
use std::alloc::Global;
use welcome::Packet;

/// What sessions with this set of capabilities are sent.
#[derive(Drop)]
pub struct Made {
    pub caps: Caps,
    pub packet: Option<Packet>,
}

/// The packet of a line, if there is one.
fn packet_of_line(alloc: Global, line: &Option<Line>) -> Result<Option<Packet>, OutOfMemory>
    ensures { IfOk result (λ packet. packet ≡ packet_of (option_to_list line.now)) }
{
    match line {
        None => Ok(None),
        Some(line) => Ok(Some(Packet::one(alloc, line)?)),
    }
}

/// The packet of the lines that stand for a loss, if we are on a channel.
fn packet_of_loss<V: NetworkView>(alloc: Global, view: &V) -> Result<Option<Packet>, OutOfMemory>
    ensures { IfOk result (λ packet. packet ≡ packet_of (part_lines_of (V.view view.now))) }
{
    let lines = part_lines(alloc, view)?;
    if lines.is_empty() {
        return Ok(None);
    }
    Ok(Some(Packet::all(alloc, &lines)?))
}

/// What sessions with these capabilities are sent of an item.
fn packet_for<V: NetworkView>(
    incoming: &Incoming<'_, V>,
    caps: Caps,
) -> Result<Option<Packet>, OutOfMemory>
    ensures { IfOk result (λ packet. packet ≡ packet_for (V.view incoming.now.view.now)
        (arrival_of incoming.now.item.now, incoming.now.moment.0) caps) }
{
    let (alloc, view) = (incoming.alloc, incoming.view);
    match incoming.item {
        Item::Line(line) => {
            let image = image(alloc, view, caps, line, incoming.moment)?;
            packet_of_line(alloc, &image)
        }
        Item::Lost => packet_of_loss(alloc, view),
    }
}

/// The same packet again, over the same bytes.
fn share_of(packet: &Option<Packet>) -> Result<Option<Packet>, OutOfMemory>
    ensures { IfOk result (λ share. share ≡ packet.now) }
{
    match packet {
        None => Ok(None),
        Some(packet) => Ok(Some(packet.share()?)),
    }
}

/// The place of what was made for a set.
fn place_in(made: &Vec<Made>, caps: Caps) -> Option<usize>
    ensures { result ≡ position (λ m. same_caps m.caps caps) made.now.items }
{
    made.iter().position(|m| m.caps == caps)
}

/// As `packet_for`, made once for each set of capabilities: what was made for a set before is
/// shared.
pub fn shared_packet_for<V: NetworkView>(
    incoming: &Incoming<'_, V>,
    caps: Caps,
    made: &mut Vec<Made>,
) -> Result<Option<Packet>, OutOfMemory>
    requires { AllByRecursion (λ m. m.packet ≡ packet_for (V.view incoming.now.view.now)
        (arrival_of incoming.now.item.now, incoming.now.moment.0) m.caps) made.old.items }
    ensures packet { IfOk result (λ packet. packet ≡ packet_for (V.view incoming.now.view.now)
        (arrival_of incoming.now.item.now, incoming.now.moment.0) caps) }
    ensures made { AllByRecursion (λ m. m.packet ≡ packet_for (V.view incoming.now.view.now)
        (arrival_of incoming.now.item.now, incoming.now.moment.0) m.caps) made.new.items }
    ensures sets { OnOk result (map (λ m. m.caps) made.new.items
        ≡ more_sets (map (λ m. m.caps) made.old.items) caps) }
{
    if let Some(place) = place_in(made, caps) {
        return share_of(&made[place].packet);
    }
    let packet = packet_for(incoming, caps)?;
    let share = share_of(&packet)?;
    made.push(Made { caps, packet })?;
    Ok(share)
}

/// How many images an item was sent as.
pub fn images_of(item: &Item, made: &Vec<Made>) -> u64
    ensures { result ≡ images_for (arrival_of item.now) (length made.now.items) }
{
    match item {
        Item::Line(_) => made.len() as u64,
        Item::Lost => 0,
    }
}

//! How a packet is put into an outlet.

ghost use Rattle.std.specs.Prelude.{◌<◌};
ghost use Rattle.hub_ends.specs.Outlets.{Took};
ghost use Rattle.hub_core.specs.Pumping.{Puts};

use hub_ends::Outlet;
use welcome::Packet;

/// Puts a packet, if there is one and there is room for it.
pub fn put<O: Outlet>(outlet: &mut O, packet: Option<Packet>)
    ensures { Puts O.alone (O.state outlet.old) packet (O.state outlet.new) }
{
    if let Some(packet) = packet {
        match outlet.offer(packet) {
            Ok(()) => {}
            Err(_) => {}
        }
    }
}

/// Puts a packet into an outlet that has room for it.
pub fn put_into_room<O: Outlet>(outlet: &mut O, packet: Packet)
    requires { 0 < (O.state outlet.old).free }
    ensures { Took O.alone (O.state outlet.old) packet (O.state outlet.new) }
{
    match outlet.offer(packet) {
        Ok(()) => {}
        Err(_) => unreachable!(),
    }
}

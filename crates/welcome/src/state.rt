//! The state part of the burst: all of it but the playback.

ghost use Rattle.std.specs.Prelude.{◌≡◌, ◌++◌, IfOk, OnOk, true};
ghost use Rattle.std.specs.List.{flat_map};
ghost use Rattle.irc_line.specs.Writing.{written};
ghost use Rattle.welcome.specs.Burst.{state_part_of};

use crate::in_sight::push_in_sight;
use crate::network::push_network;
use client_caps::Caps;
use hub_ends::Packet;
use net_view::{NetworkView, OutOfMemory};
use std::alloc::Allocator;

/// Adds the lines of the state part.
#[tactic(auto, using(crate::proofs::WrittenLaw::state_steps))]
pub fn push_state<V: NetworkView, A: Allocator + Copy>(
    text: &mut Vec<u8, A>,
    view: &V,
    caps: Caps,
) -> Result<(), OutOfMemory>
    ensures { OnOk result (text.new.items
        ≡ text.old.items ++ flat_map written (state_part_of (V.view view.now) caps)) }
{
    push_network(text, view, caps)?;
    push_in_sight(text, view, caps)?;
    Ok(())
}

/// The packet of the state part, from its bytes. That its lines can be written follows from where
/// the view comes from.
#[tactic(auto, using(crate::proofs::WrittenLaw::lines_back, crate::proofs::WrittenLaw::state_is_packet, crate::proofs::WrittenLaw::state_written))]
fn packet_of_state<V: NetworkView, A: Allocator + Clone>(
    text: Vec<u8, A>,
    view: &V,
    caps: Caps,
) -> Result<Packet<A>, OutOfMemory>
    requires ready { (V.view view.now).ready ≡ true }
    requires whole { text.items ≡ flat_map written (state_part_of (V.view view.now) caps) }
    ensures { IfOk result (λ packet. packet ≡ state_part_of (V.view view.now) caps) }
{
    view.comes_from_lines();
    Packet::of_lines(text)
}

/// What tells a client, when it attaches, where it is on the network, all of the burst but the
/// playback, as far as its capabilities let it know. The view is ready.
///
/// ```text
/// :bnc 001 Me :Welcome to the bouncer
/// :bnc 002 Me :Your host is bnc, running version 1
/// :bnc 003 Me :This server was created for you
/// :bnc 004 Me bnc 1 i biklmnopstv
/// :bnc 005 Me PREFIX=(ov)@+ CHANTYPES=# :are supported by this server
/// :bnc 422 Me :MOTD File is missing
/// :Me JOIN #c
/// :bnc 332 Me #c :Hello all
/// :bnc 324 Me #c +kl key 9
/// :bnc 353 Me = #c :@bob +eve Me
/// :bnc 366 Me #c :End of NAMES list
/// :bob ACCOUNT bobacc
/// :bob AWAY :gone fishing
/// ```
///
/// The 005 lines have the network's settings, in order, at most 12 tokens and 400 bytes of them on
/// a line, or one token; there is none without settings. From JOIN to 366 are the lines of a
/// channel; channels, and the members in a 353, come in the order of their keys, and a 353 has at
/// most 400 bytes of words, or one word. 332 comes if there is a topic, and 324 if there are
/// modes, in the order of their letters' bytes. Without multi-prefix a member has the highest of
/// its symbols alone. With extended-join a JOIN is `:Me JOIN #c account :`, with `*` if we have
/// no account. Last comes each person in sight whose account or away text is known, in the order of
/// the keys: ACCOUNT comes only with account-notify, AWAY only with away-notify. The texts and
/// limits are our own.
///
/// `OutOfMemory` if an allocation was refused, and for no other reason.
pub fn state_part<V: NetworkView, A: Allocator + Copy>(
    alloc: A,
    view: &V,
    caps: Caps,
) -> Result<Packet<A>, OutOfMemory>
    requires { (V.view view.now).ready ≡ true }
    ensures { IfOk result (λ packet. packet ≡ state_part_of (V.view view.now) caps) }
{
    let mut text = Vec::new(alloc);
    push_state(&mut text, view, caps)?;
    packet_of_state(text, view, caps)
}

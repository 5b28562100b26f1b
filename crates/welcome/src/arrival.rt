//! What a client is sent when it comes.

ghost use Rattle.std.specs.Prelude.{◌≡◌, ◌<◌, ◌^◌, IfOk, map, true};
ghost use Rattle.std.specs.List.{AllByRecursion, flat_map};
ghost use Rattle.irc_line.specs.Writing.{written};
ghost use Rattle.history.specs.Entry.{IsWrittenEntry};
ghost use Rattle.welcome.specs.Burst.{state_part_of};
ghost use Rattle.welcome.specs.Playback.{burst_of};
ghost use Rattle.welcome.specs.Playing.{burst_by, places_of};

use crate::backlog::{playback_by, push_playback};
use crate::playing::Playing;
use crate::state::push_state;
use client_caps::Caps;
use history::Entry;
use hub_ends::Packet;
use net_view::{NetworkView, OutOfMemory};
use std::alloc::Allocator;

/// The packet of the burst, from its bytes. That its lines can be written follows from where the
/// view and the messages come from.
#[tactic(auto, using(crate::proofs::WrittenLaw::lines_back, crate::proofs::OthersWritten::burst_by_written, crate::proofs::WrittenLaw::state_is_packet))]
fn packet_of_burst<V: NetworkView, A: Allocator + Clone, B: Allocator>(
    text: Vec<u8, A>,
    playing: Playing,
    view: &V,
    caps: Caps,
    entries: &[&Entry<B>],
) -> Result<Packet<A>, OutOfMemory>
    requires ready { (V.view view.now).ready ≡ true }
    requires whole { text.items ≡ flat_map written
        (burst_by playing (V.view view.now) caps (map (λ entry. entry.now) entries.now)) }
    requires written { AllByRecursion (λ entry. IsWrittenEntry entry.now) entries.now }
    requires few { places_of playing (V.view view.now) caps
        (map (λ entry. entry.now) entries.now) < 2 ^ 64 }
    ensures { IfOk result (λ packet.
        packet ≡ burst_by playing (V.view view.now) caps (map (λ entry. entry.now) entries.now)) }
{
    view.comes_from_lines();
    Packet::of_lines(text)
}

/// The welcome burst: what tells a client, when it attaches, where it is on the network (see
/// [`state_part`](crate::state_part)), and then the messages that it missed (see
/// [`playback`](crate::playback)). The view is ready, and the entries are those of messages from
/// lines, so they can be written. One growing buffer holds its bytes.
///
/// `OutOfMemory` if an allocation was refused, and for no other reason.
#[tactic(auto, using(crate::proofs::PlaybackWhole::whole_played))]
pub fn burst<V: NetworkView, A: Allocator + Copy, B: Allocator>(
    alloc: A,
    view: &V,
    caps: Caps,
    entries: &[&Entry<B>],
) -> Result<Packet<A>, OutOfMemory>
    requires ready { (V.view view.now).ready ≡ true }
    requires written { AllByRecursion (λ entry. IsWrittenEntry entry.now) entries.now }
    ensures { IfOk result (λ packet.
        packet ≡ burst_of (V.view view.now) caps (map (λ entry. entry.now) entries.now)) }
{
    burst_by(alloc, Playing::whole(), view, caps, entries)
}

/// The welcome burst by a profile (see [`playback_by`](crate::playback_by)); by the whole one it is
/// [`burst`]'s.
///
/// `OutOfMemory` if an allocation was refused, and for no other reason.
#[tactic(auto, using(crate::proofs::PlaybackWhole::said_steps))]
pub fn burst_by<V: NetworkView, A: Allocator + Copy, B: Allocator>(
    alloc: A,
    playing: Playing,
    view: &V,
    caps: Caps,
    entries: &[&Entry<B>],
) -> Result<Packet<A>, OutOfMemory>
    requires ready { (V.view view.now).ready ≡ true }
    requires written { AllByRecursion (λ entry. IsWrittenEntry entry.now) entries.now }
    ensures { IfOk result (λ packet.
        packet ≡ burst_by playing (V.view view.now) caps (map (λ entry. entry.now) entries.now)) }
{
    let mut text = Vec::new(alloc);
    push_state(&mut text, view, caps)?;
    push_playback(&mut text, playing, view, caps, entries)?;
    packet_of_burst(text, playing, view, caps, entries)
}

/// The welcome burst, as [`burst`] makes it, if its state part is there already: a share of it
/// if no message was missed, and else its bytes and the playback's in one packet.
///
/// `OutOfMemory` if an allocation was refused, and for no other reason.
#[tactic(auto, using(crate::proofs::PlaybackWhole::whole_played))]
pub fn burst_from<V: NetworkView, A: Allocator + Copy, B: Allocator>(
    alloc: A,
    state: &Packet<A>,
    view: &V,
    caps: Caps,
    entries: &[&Entry<B>],
) -> Result<Packet<A>, OutOfMemory>
    requires state { state.now ≡ state_part_of (V.view view.now) caps }
    requires written { AllByRecursion (λ entry. IsWrittenEntry entry.now) entries.now }
    ensures { IfOk result (λ packet.
        packet ≡ burst_of (V.view view.now) caps (map (λ entry. entry.now) entries.now)) }
{
    burst_from_by(alloc, Playing::whole(), state, view, caps, entries)
}

/// The welcome burst by a profile, as [`burst_by`] makes it, if its state part is there already:
/// a share of it if no message was missed, and else its bytes and the playback's in one packet.
///
/// `OutOfMemory` if an allocation was refused, and for no other reason.
#[tactic(auto, using(crate::proofs::PlaybackWhole::empty_list, crate::proofs::PlaybackWhole::nothing_missed))]
pub fn burst_from_by<V: NetworkView, A: Allocator + Copy, B: Allocator>(
    alloc: A,
    playing: Playing,
    state: &Packet<A>,
    view: &V,
    caps: Caps,
    entries: &[&Entry<B>],
) -> Result<Packet<A>, OutOfMemory>
    requires state { state.now ≡ state_part_of (V.view view.now) caps }
    requires written { AllByRecursion (λ entry. IsWrittenEntry entry.now) entries.now }
    ensures { IfOk result (λ packet.
        packet ≡ burst_by playing (V.view view.now) caps (map (λ entry. entry.now) entries.now)) }
{
    if entries.is_empty() {
        return state.share();
    }
    let played = playback_by(alloc, playing, view, caps, entries)?;
    state.followed_by(alloc, &played)
}

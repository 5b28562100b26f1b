//! A network under its lock, and the ends of its rings that the dialling thread keeps.

ghost use Rattle.std.specs.Prelude.{◌≡◌, true};
ghost use Rattle.history.specs.Messages.{is_capacity};
ghost use Rattle.journal.specs.Recalls.{CanBegin};

use hub_core::{Past, Profile, Setup};
use hub_threads::{Network, Started};
use quick_view::QuickView;
use std::alloc::{AllocError, Global};
pub use upstream::Link;

/// A network that has received nothing, and its link. Its history keeps `history` messages of each
/// target, those that the profile keeps, and its rings hold `packets` items and that many packets;
/// 0 counts as 1. Messages are numbered from 1, sessions from 0. `AllocError` if an allocation
/// fails.
pub fn network_with_link(
    alloc: Global,
    history: usize,
    packets: usize,
    profile: Profile,
) -> Result<(Network<QuickView>, Link), AllocError>
    requires { is_capacity history ≡ true }
{
    let packets = packets.max(1);
    let setup = Setup {
        history,
        first_number: 1,
        first_session: 0,
    };
    let view = QuickView::new(alloc)?;
    linked(Network::start_by(alloc, view, setup, packets, packets, profile)?)
}

/// A network that goes on from what was before, by this profile, and its link. Its rings hold
/// `packets` items and that many packets; 0 counts as 1. `AllocError` if an allocation fails.
pub(crate) fn network_again(
    alloc: Global,
    past: Past,
    packets: usize,
    profile: Profile,
) -> Result<(Network<QuickView>, Link), AllocError>
    requires { CanBegin past.history }
{
    let packets = packets.max(1);
    let view = QuickView::new(alloc)?;
    linked(Network::start_again(alloc, view, past, 0, packets, packets, profile)?)
}

/// A network that was started, and its link.
fn linked(started: Started<QuickView>) -> Result<(Network<QuickView>, Link), AllocError> {
    let Started {
        network,
        inlet,
        outlet,
    } = started;
    let stopper = outlet.stopper()?;
    let link = Link {
        inlet,
        outlet,
        stopper,
    };
    Ok((network, link))
}

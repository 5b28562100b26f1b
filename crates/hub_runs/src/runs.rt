//! Events, one after the other.

ghost use Rattle.std.specs.Prelude.{◌≡◌, ◌↔◌, ◌+◌, ◌≤◌, ◌<◌, ◌^◌, [], false, IfOk, IsErrOf, length, vec_len};
ghost use Rattle.std.specs.Prelude.{ℕ, List, Option, Some, map};
ghost use Rattle.irc_support.specs.Text.{Text};
ghost use Rattle.std.specs.Vec.{vec_capacity};
ghost use Rattle.net_view.specs.View.{empty_view};
ghost use Rattle.history.specs.Marks.{NameMarks};
ghost use Rattle.history.specs.Messages.{AreKeptBefore, Messages, is_capacity};
ghost use Rattle.hub_core.specs.LostChannels.{joining};
ghost use Rattle.hub_core.specs.States.{ProfileParts, profile_of};
ghost use Rattle.hub_runs.specs.Course.{Before};
ghost use Rattle.hub_runs.specs.Ran.{CanRun, Ran, RanFrom, RanOn};
ghost use Rattle.hub_runs.specs.Worlds.{beginning, beginning_by, beginning_from, outlets_of};
ghost use Rattle.hub_runs.specs.Worlds.{world_of};

use crate::apply::apply;
use crate::event::Event;
use crate::outcome::{Run, StartError, World};
use history::{CAPACITY_LIMIT, OutOfMemory};
use hub_core::{Hub, Past, Profile, Setup};
use hub_ends::{MemoryInlet, MemoryOutlet, SessionId};
use irc_line::Splitter;
use net_view::NetworkView;
use std::alloc::Global;

/// What a run of this many events begins with.
fn begin<V: NetworkView + Drop>(
    alloc: Global,
    view: V,
    setup: Setup,
    upstream_capacity: usize,
    count: usize,
    profile: Profile,
) -> Result<World<V>, StartError>
    requires { V.view view ≡ empty_view }
    ensures ok { IfOk result (λ w. (world_of w.hub w.splitter.rest (outlets_of w.gone.items)
        ≡ beginning_by (profile_of profile) setup.history setup.first_number setup.first_session
        upstream_capacity) ×
        (w.replies.items ≡ []) × (count ≤ vec_capacity w.replies)) }
    ensures bad { IsErrOf result StartError.BadCapacity ↔ (is_capacity setup.history ≡ false) }
{
    if setup.history == 0 || setup.history > CAPACITY_LIMIT {
        return Err(StartError::BadCapacity);
    }
    let upstream = MemoryOutlet::new(alloc, upstream_capacity)?;
    let replies = Vec::with_capacity(alloc, count)?;
    let inlet = MemoryInlet::new(alloc);
    let hub = Hub::start_by(alloc, view, inlet, upstream, setup, profile)?;
    Ok(World {
        hub,
        splitter: Splitter::new(alloc),
        replies,
        gone: Vec::new(alloc),
    })
}

/// What a run of this many events begins with that goes on from what was kept.
fn begin_from<V: NetworkView + Drop>(
    alloc: Global,
    view: V,
    past: Past,
    first_session: SessionId,
    upstream_capacity: usize,
    count: usize,
    profile: Profile,
) -> Result<World<V>, OutOfMemory>
    requires view { V.view view ≡ empty_view }
    requires kept { (first : ℕ) × AreKeptBefore first past.history }
    ensures ok { (first : ℕ) → past.history.next ≡ Some first → IfOk result (λ w.
        (world_of w.hub w.splitter.rest (outlets_of w.gone.items)
        ≡ beginning_from (profile_of profile) past.history first past.marks
        (map joining past.channels.items) first_session upstream_capacity) ×
        (w.replies.items ≡ []) × (count ≤ vec_capacity w.replies)) }
{
    let upstream = MemoryOutlet::new(alloc, upstream_capacity)?;
    let replies = Vec::with_capacity(alloc, count)?;
    let inlet = MemoryInlet::new(alloc);
    let hub = Hub::start_again(alloc, view, inlet, upstream, past, first_session, profile);
    Ok(World {
        hub,
        splitter: Splitter::new(alloc),
        replies,
        gone: Vec::new(alloc),
    })
}

/// Runs events, from a world to which nothing came.
fn go_on<V: NetworkView + Drop>(alloc: Global, world: World<V>, events: &[Event]) -> Run<V>
    requires none { world.replies.items ≡ [] }
    requires room { length events.now ≤ vec_capacity world.replies }
    ensures { (b : Before) (profile : ProfileParts) (history : Messages) (first : ℕ) (marks : NameMarks)
        (channels : List (Text × Option Text)) (first_session upstream_capacity : ℕ) → first_session < 2 ^ 64 →
        CanRun b (beginning_from profile history first marks channels first_session upstream_capacity).hub →
        world_of world.hub world.splitter.rest (outlets_of world.gone.items)
        ≡ beginning_from profile history first marks channels first_session upstream_capacity →
        RanFrom b (beginning_from profile history first marks channels first_session upstream_capacity)
        events.now result.done result.stopped_by result.world.replies.items
        (world_of result.world.hub result.world.splitter.rest
        (outlets_of result.world.gone.items)) }
{
    let mut world = world;
    let mut done = 0;
    for event in events {
        match apply(alloc, &mut world, event) {
            Ok(reply) => world.replies.push_reserved(reply),
            Err(stop) => {
                return Run {
                    done,
                    world,
                    stopped_by: Some(stop),
                };
            }
        }
        done += 1;
    }
    Run {
        done,
        world,
        stopped_by: None,
    }
}

/// Runs events over a hub whose ends are in memory. It begins with this view, to which nothing
/// came, and with an outlet to the network for this many packets at a time.
///
/// It stops at an event for which an allocation is refused, at a message from the network for which
/// no number is left, and at more bytes without LF than a line may have; then the world is as it is
/// after the events done and the lines that were already taken of the next one. All other refusals
/// are replies. A refusal to start drops the view; `BadCapacity` comes exactly if the setup's
/// history is 0 or above 10,000.
pub fn run<V: NetworkView + Drop>(
    alloc: Global,
    view: V,
    setup: Setup,
    upstream_capacity: usize,
    events: &[Event],
) -> Result<Run<V>, StartError>
    requires { V.view view ≡ empty_view }
    ensures ran { IfOk result (λ r. Ran
        (beginning setup.history setup.first_number setup.first_session upstream_capacity)
        events.now r.done r.stopped_by r.world.replies.items
        (world_of r.world.hub r.world.splitter.rest (outlets_of r.world.gone.items))) }
    ensures bad { IsErrOf result StartError.BadCapacity ↔ (is_capacity setup.history ≡ false) }
{
    run_by(
        alloc,
        view,
        setup,
        upstream_capacity,
        events,
        Profile::whole(alloc),
    )
}

/// Runs events over a hub whose ends are in memory, as `run` does, which keeps messages and plays
/// them back by this profile. `run` keeps each message.
pub fn run_by<V: NetworkView + Drop>(
    alloc: Global,
    view: V,
    setup: Setup,
    upstream_capacity: usize,
    events: &[Event],
    profile: Profile,
) -> Result<Run<V>, StartError>
    requires { V.view view ≡ empty_view }
    ensures ran { IfOk result (λ r. Ran (beginning_by (profile_of profile) setup.history
        setup.first_number setup.first_session upstream_capacity)
        events.now r.done r.stopped_by r.world.replies.items
        (world_of r.world.hub r.world.splitter.rest (outlets_of r.world.gone.items))) }
    ensures bad { IsErrOf result StartError.BadCapacity ↔ (is_capacity setup.history ≡ false) }
{
    let world = begin(alloc, view, setup, upstream_capacity, events.len(), profile)?;
    Ok(go_on(alloc, world, events))
}

/// Runs events over a hub whose ends are in memory, as `run` does, but from what was before: the
/// messages that were kept, what each client name had seen of them, and the channels that are to be
/// joined again; and by this profile.
pub fn run_from<V: NetworkView + Drop>(
    alloc: Global,
    view: V,
    past: Past,
    first_session: SessionId,
    upstream_capacity: usize,
    events: &[Event],
    profile: Profile,
) -> Result<Run<V>, OutOfMemory>
    requires view { V.view view ≡ empty_view }
    requires kept { (first : ℕ) × AreKeptBefore first past.history }
    ensures { (first : ℕ) → past.history.next ≡ Some first → IfOk result (λ r. RanOn
        (beginning_from (profile_of profile) past.history first past.marks
        (map joining past.channels.items) first_session upstream_capacity) events.now r.done
        r.stopped_by r.world.replies.items
        (world_of r.world.hub r.world.splitter.rest (outlets_of r.world.gone.items))) }
{
    let count = events.len();
    let capacity = upstream_capacity;
    let world = begin_from(alloc, view, past, first_session, capacity, count, profile)?;
    Ok(go_on(alloc, world, events))
}

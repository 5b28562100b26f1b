//! Hubs over memory, and what they sent.

use crate::hub_rows::SETUP;
use crate::hub_rows::events::{WELCOME, events_of};
use crate::hub_rows::scripts::{push_sent, text_of};
use hub_ends::{MemoryOutlet, OutOfMemory};
use hub_runs::{MemoryHub, Run, Stop, World, run};
use quick_view::QuickView;
use std::alloc::Global;
use std::process::Abort;
use std::test::Fail;

/// A hub over memory and the view by tables.
pub(crate) type QuickHub = MemoryHub<QuickView>;

/// How many packets may wait for the network.
pub(crate) const UPSTREAM: usize = 8;

/// Fails if a script was stopped.
fn is_done(stopped_by: Option<Stop>) -> Result<(), Fail> {
    match stopped_by {
        None => Ok(()),
        Some(Stop::Memory) => Err(OutOfMemory)?,
        Some(_) => Err("the script was stopped")?,
    }
}

/// The hub of a run.
fn hub_of(run: Run<QuickView>) -> QuickHub {
    let Run { world, .. } = run;
    let World { hub, .. } = world;
    hub
}

/// The hub after a welcome, our own JOIN and a script. It is the test's own: if an allocation is
/// refused for it, the test ends.
pub(crate) fn hub_after(alloc: Global, script: &[&[u8]]) -> Result<QuickHub, Fail> {
    let events = events_of(alloc, &WELCOME, script)?;
    let run = run(alloc, QuickView::new(alloc)?, SETUP, UPSTREAM, &events)?;
    is_done(run.stopped_by)?;
    Ok(hub_of(run))
}

/// How many packets were sent to the first session and the second, if they are there, and to the
/// network.
pub(crate) fn sent_counts(hub: &QuickHub) -> [Option<usize>; 3] {
    [
        count(hub.outlet(0)),
        count(hub.outlet(1)),
        count(Some(hub.upstream_outlet())),
    ]
}

/// How many packets an outlet was sent, if it is there.
fn count(outlet: Option<&MemoryOutlet>) -> Option<usize> {
    Some(outlet?.sent_count())
}

/// What an outlet was sent.
pub(crate) fn sent_text(alloc: Global, outlet: &MemoryOutlet) -> Result<Vec<u8>, Fail> {
    let mut text = Vec::new(alloc);
    push_sent(&mut text, outlet, 0, b"")?;
    Ok(text)
}

/// The outlet was sent these lines, and nothing else.
pub(crate) fn is_sent<R: AllocGlobal + Abort>(
    rt: &R,
    outlet: Option<&MemoryOutlet>,
    lines: &[&[u8]],
) -> Result<(), Fail> {
    let sent = sent_text(rt.alloc(), outlet.ok_or("no such session")?)?;
    assert!(rt; sent.as_slice() == text_of(rt.alloc(), lines)?.as_slice());
    Ok(())
}

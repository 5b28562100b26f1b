//! Scripts of events, written as lines, and the text that they give.

ghost use Rattle.std.specs.Prelude.{◌≡◌, IfOk};
ghost use Rattle.net_view.specs.View.{empty_view, view_back};

use crate::hub_rows::events::{WELCOME, events_of};
use crate::hub_rows::replies::{push_count, push_line, push_number, push_reply, stop_text};
use hub_core::Setup;
use hub_ends::MemoryOutlet;
use hub_runs::{Run, run};
use net_view::{NetworkView, OutOfMemory};
use quick_view::QuickView;
use std::alloc::Global;
use std::process::Abort;
use std::test::Fail;
use tape_view::TapeView;

/// How a script is run, and what is shown: what one session is sent, from one of its packets on,
/// and whether the images that were made are counted.
#[derive(Clone, Copy)]
pub(crate) struct Story {
    pub(crate) setup: Setup,
    // how many packets may wait for the network
    pub(crate) upstream: usize,
    // the number of that session
    pub(crate) of: u64,
    // whether `of` is a place among the sessions that were detached, in order, and not a number
    pub(crate) is_gone: bool,
    pub(crate) from: usize,
    pub(crate) images: bool,
}

/// Adds the packets that an outlet was sent, from one on, each after a mark.
pub(crate) fn push_sent(
    text: &mut Vec<u8>,
    outlet: &MemoryOutlet,
    from: usize,
    mark: &[u8],
) -> Result<(), Fail> {
    for place in from..outlet.sent_count() {
        let packet = outlet.sent(place).ok_or("it was sent")?;
        text.extend_from_slice(mark)?;
        text.extend_from_slice(packet.bytes())?;
    }
    Ok(())
}

/// Adds how many lines each packet has that an outlet was sent, from one on.
fn push_line_counts(text: &mut Vec<u8>, outlet: &MemoryOutlet, from: usize) -> Result<(), Fail> {
    text.extend_from_slice(b"packets")?;
    for place in from..outlet.sent_count() {
        let packet = outlet.sent(place).ok_or("it was sent")?;
        text.push(b' ')?;
        push_number(text, packet.line_count() as u64)?;
    }
    push_line(text, b"")
}

/// The outlet that a story looks at, if there is one.
fn outlet_of<V: NetworkView + Drop>(run: &Run<V>, story: Story) -> Option<&MemoryOutlet> {
    if story.is_gone {
        return run.world.gone.get(story.of as usize);
    }
    run.world.hub.outlet(story.of)
}

/// Adds the replies to the events that are done.
pub(crate) fn push_replies<V: NetworkView + Drop>(
    text: &mut Vec<u8>,
    run: &Run<V>,
) -> Result<(), Fail> {
    for reply in &run.world.replies {
        push_reply(text, reply)?;
    }
    Ok(())
}

/// What came of a run: the replies, why it stopped, what the session was sent, and the network.
pub(crate) fn outcome<V: NetworkView + Drop>(
    alloc: Global,
    run: &Run<V>,
    story: Story,
) -> Result<Vec<u8>, Fail> {
    let mut text = Vec::new(alloc);
    push_replies(&mut text, run)?;
    if let Some(stop) = run.stopped_by {
        push_line(&mut text, stop_text(stop))?;
    }
    if let Some(outlet) = outlet_of(run, story) {
        push_sent(&mut text, outlet, story.from, b"")?;
        push_line_counts(&mut text, outlet, story.from)?;
    }
    push_sent(&mut text, run.world.hub.upstream_outlet(), 0, b"> ")?;
    if story.images {
        push_count(&mut text, b"images ", run.world.hub.images_made())?;
    }
    Ok(text)
}

/// What comes of a script after a beginning, over this view.
fn outcome_over<V: NetworkView + Drop>(
    alloc: Global,
    view: V,
    story: Story,
    before: &[&[u8]],
    script: &[&[u8]],
) -> Result<Vec<u8>, Fail>
    requires { V.view view ≡ empty_view }
{
    let events = events_of(alloc, before, script)?;
    let run = run(alloc, view, story.setup, story.upstream, &events)?;
    outcome(alloc, &run, story)
}

/// The lines, each with CR LF.
pub(crate) fn text_of(alloc: Global, lines: &[&[u8]]) -> Result<Vec<u8>, Fail> {
    let mut text = Vec::new(alloc);
    for line in lines {
        push_line(&mut text, line)?;
    }
    Ok(text)
}

/// The view that searches the lines that came; none has.
pub(crate) fn searching_view(alloc: Global) -> Result<TapeView, OutOfMemory>
    ensures { IfOk result (λ v. view_back v ≡ empty_view) }
{
    let view = TapeView::new(alloc)?;
    Ok(view)
}

/// A script after a beginning comes to this text.
pub(crate) fn check_text<R: AllocGlobal + Abort>(
    rt: &R,
    story: Story,
    before: &[&[u8]],
    script: &[&[u8]],
    wanted: &[u8],
) -> Result<(), Fail> {
    let view = QuickView::new(rt.alloc())?;
    assert!(rt; outcome_over(rt.alloc(), view, story, before, script)?.as_slice() == wanted);
    Ok(())
}

/// A script after a welcome and our own JOIN comes to these lines.
pub(crate) fn check<R: AllocGlobal + Abort>(
    rt: &R,
    story: Story,
    script: &[&[u8]],
    lines: &[&[u8]],
) -> Result<(), Fail> {
    check_text(rt, story, &WELCOME, script, &text_of(rt.alloc(), lines)?)
}

/// The same over the view by tables and over the view that searches.
pub(crate) fn check_over_both_views<R: AllocGlobal + Abort>(
    rt: &R,
    story: Story,
    script: &[&[u8]],
    lines: &[&[u8]],
) -> Result<(), Fail> {
    check(rt, story, script, lines)?;
    let view = searching_view(rt.alloc())?;
    let found = outcome_over(rt.alloc(), view, story, &WELCOME, script)?;
    assert!(rt; found.as_slice() == text_of(rt.alloc(), lines)?.as_slice());
    Ok(())
}

/// A script after a beginning comes to these answers, then to what one of several clients is sent,
/// then to what the network is sent.
pub(crate) fn check_client<R: AllocGlobal + Abort>(
    rt: &R,
    story: Story,
    before: &[&[u8]],
    script: &[&[u8]],
    answered: &[&[u8]],
    sent: &[&[u8]],
    upward: &[&[u8]],
) -> Result<(), Fail> {
    let mut wanted = text_of(rt.alloc(), answered)?;
    wanted.extend_from_slice(&text_of(rt.alloc(), sent)?)?;
    wanted.extend_from_slice(&text_of(rt.alloc(), upward)?)?;
    check_text(rt, story, before, script, &wanted)
}

//! Runs of events that are made again.

use super::hubs::{UPSTREAM, sent_text};
use crate::hub_rows::events::{WELCOME, events_of};
use crate::hub_rows::limits::{A_SESSION_THAT_IS_CUT, A_SESSION_THAT_IS_CUT_WANTED};
use crate::hub_rows::losses::{A_LOSS_WITH_TWO_CHANNELS, A_LOSS_WITH_TWO_CHANNELS_WANTED};
use crate::hub_rows::messages::{MESSAGES_THAT_WERE_MISSED, MESSAGES_THAT_WERE_MISSED_WANTED};
use crate::hub_rows::scripts::{Story, outcome, push_replies, text_of};
use crate::hub_rows::{BURST, SETUP, STORY};
use hub_ends::MemoryOutlet;
use hub_runs::{Event, Run, StartError, Stop, run};
use quick_view::QuickView;
use std::process::Abort;
use std::test::Fail;
use test_texts::{GREETING, again, begins};

/// A script, the text that it gives by its story, and all that its two sessions are sent. The
/// network is sent nothing.
#[derive(Clone, Copy)]
struct Row<'a> {
    script: &'a [&'a [u8]],
    story: Story,
    wanted: &'a [&'a [u8]],
    first: &'a [&'a [u8]],
    second: &'a [&'a [u8]],
}

/// The outlet of a session in a run, also if it was detached: only the first one of a script is.
fn sent_in(run: &Run<QuickView>, id: u64) -> Option<&MemoryOutlet> {
    let outlet = run.world.hub.outlet(id);
    if outlet.is_none() && id == 0 {
        return run.world.gone.first();
    }
    outlet
}

/// If this session is there, it was sent a beginning of these lines.
fn is_begun<R: AllocGlobal + Abort>(
    rt: &R,
    run: &Run<QuickView>,
    id: u64,
    lines: &[&[u8]],
) -> Result<(), Fail> {
    if let Some(outlet) = sent_in(run, id) {
        let text = sent_text(rt.alloc(), outlet)?;
        assert!(rt; begins(&text, &text_of(rt.alloc(), lines)?));
    }
    Ok(())
}

/// What each session was sent is a beginning of what it is sent in a full run.
fn is_a_beginning<R: AllocGlobal + Abort>(
    rt: &R,
    run: &Run<QuickView>,
    row: Row<'_>,
) -> Result<(), Fail> {
    is_begun(rt, run, 0, row.first)?;
    is_begun(rt, run, 1, row.second)?;
    assert!(rt; run.world.hub.upstream_outlet().sent_count() == 0);
    Ok(())
}

/// All events are done, and all comes of them.
fn is_full<R: AllocGlobal + Abort>(rt: &R, run: &Run<QuickView>, row: Row<'_>) -> Result<(), Fail> {
    let text = outcome(rt.alloc(), run, row.story)?;
    assert!(rt; text.as_slice() == text_of(rt.alloc(), row.wanted)?.as_slice());
    is_a_beginning(rt, run, row)
}

/// The run stopped because memory was refused, and what was done before is as in a full run.
fn is_stopped<R: AllocGlobal + Abort>(
    rt: &R,
    run: &Run<QuickView>,
    row: Row<'_>,
) -> Result<(), Fail> {
    assert!(rt; run.stopped_by == Some(Stop::Memory) && run.done == run.world.replies.len());
    let mut text = Vec::new(rt.alloc());
    push_replies(&mut text, run)?;
    assert!(rt; begins(&text, &text_of(rt.alloc(), row.wanted)?));
    is_a_beginning(rt, run, row)
}

/// What came of a run is right; whether all its events are done.
fn is_whole<R: AllocGlobal + Abort>(
    rt: &R,
    run: &Run<QuickView>,
    row: Row<'_>,
) -> Result<bool, Fail> {
    if run.stopped_by.is_none() {
        is_full(rt, run, row)?;
        return Ok(true);
    }
    is_stopped(rt, run, row)?;
    Ok(false)
}

/// A script is run; whether all its events are done.
fn runs_whole<R: AllocGlobal + Abort>(
    rt: &R,
    events: &[Event],
    row: Row<'_>,
) -> Result<bool, Fail> {
    let view = QuickView::new(rt.alloc())?;
    match run(rt.alloc(), view, SETUP, UPSTREAM, events) {
        Ok(run) => is_whole(rt, &run, row),
        Err(error) => {
            assert!(rt; error == StartError::OutOfMemory);
            Ok(false)
        }
    }
}

/// A script is run; if memory was refused, it is run again.
fn runs<R: AllocGlobal + Abort>(rt: &R, row: Row<'_>) -> Result<(), Fail> {
    let events = events_of(rt.alloc(), &WELCOME, row.script)?;
    if runs_whole(rt, &events, row)? {
        return Ok(());
    }
    let view = QuickView::new(rt.alloc())?;
    let run = again(run(rt.alloc(), view, SETUP, UPSTREAM, &events))?;
    is_full(rt, &run, row)
}

/// A client attaches again, with a playback of what it missed.
#[test]
fn messages_that_were_missed(rt: HostRuntime) -> Result<(), Fail> {
    let mut first: Vec<&[u8]> = Vec::new(rt.alloc());
    first.extend_from_slice(&BURST)?;
    first.push(b":bob!b@h PRIVMSG #c m1")?;
    first.push(b":bob!b@h PRIVMSG #c m2")?;
    let row = Row {
        script: &MESSAGES_THAT_WERE_MISSED,
        story: Story { from: 0, ..STORY },
        wanted: &MESSAGES_THAT_WERE_MISSED_WANTED,
        first: &first,
        second: &MESSAGES_THAT_WERE_MISSED_WANTED[2..14],
    };
    runs(&rt, row)
}

/// What a client is sent while we are on two channels, then at the loss and after it.
const OF_TWO_CHANNELS: [&[u8]; 12] = [
    GREETING,
    b":bnc 005 Me PREFIX=(ov)@+ CHANTYPES=# :are supported by this server",
    b":bnc 422 Me :MOTD File is missing",
    b":Me JOIN #b",
    b":bnc 353 Me = #b Me",
    b":bnc 366 Me #b :End of NAMES list",
    b":Me JOIN #c",
    b":bnc 353 Me = #c Me",
    b":bnc 366 Me #c :End of NAMES list",
    b":Me PART #b",
    b":Me PART #c",
    b":t 001 You hi",
];

/// The connection is lost while we are on two channels, and comes again.
#[test]
fn a_loss_with_two_channels(rt: HostRuntime) -> Result<(), Fail> {
    let row = Row {
        script: &A_LOSS_WITH_TWO_CHANNELS,
        story: Story { of: 0, ..STORY },
        wanted: &A_LOSS_WITH_TWO_CHANNELS_WANTED,
        first: &OF_TWO_CHANNELS,
        second: &[],
    };
    runs(&rt, row)
}

/// A session is cut, and the other one is not.
#[test]
fn a_session_that_is_cut(rt: HostRuntime) -> Result<(), Fail> {
    let mut all: Vec<&[u8]> = Vec::new(rt.alloc());
    all.extend_from_slice(&BURST)?;
    all.extend_from_slice(&A_SESSION_THAT_IS_CUT_WANTED[5..8])?;
    let count = all.len().saturating_sub(1);
    let row = Row {
        script: &A_SESSION_THAT_IS_CUT,
        story: STORY,
        wanted: &A_SESSION_THAT_IS_CUT_WANTED,
        first: &all[..count],
        second: &all,
    };
    runs(&rt, row)
}

//! A hub that goes on from a journal: what each client name is sent, which channels are to be joined
//! again, and a name that is forgotten.

ghost use Rattle.std.specs.Prelude.{IfOk};
ghost use Rattle.journal.specs.Recalls.{CanBegin};

use crate::hub_rows::events::{WELCOME, events_of};
use crate::hub_rows::scripts::{Story, outcome, text_of};
use crate::hub_rows::{BURST, STORY};
use frames::push_frame;
use hub_core::{ForgetFault, LostChannel, Past, Profile};
use hub_runs::{Run, run_from};
use journal::{Channel, Kept, RecallError, push_header, recall};
use quick_view::QuickView;
use std::alloc::{AllocError, Global};
use std::process::Abort;
use std::test::Fail;

/// What was kept: two messages, the first of which `pc` has seen, and two channels.
const KEPT: &[u8] = b"NEXT 7\r\n\
    @time=2020-01-02T03:04:05.678Z :bob!b@h PRIVMSG #c :hi all\r\n\
    @time=2020-01-02T03:04:06.678Z :bob!b@h PRIVMSG #c :hi again\r\n\
    MARK pc 7\r\nNAME phone\r\nON #C key\r\nON #d key\r\n";

/// The channels that are to be joined again.
fn channels_again(alloc: Global, channels: &[Channel]) -> Result<Vec<LostChannel>, AllocError> {
    let mut again = Vec::new(alloc);
    for channel in channels {
        let name = Vec::from_slice(alloc, &channel.name)?;
        let key = Vec::from_slice(alloc, channel.key.as_deref().unwrap_or(b""))?;
        again.push(LostChannel {
            name,
            key: Some(key),
        })?;
    }
    Ok(again)
}

/// What is recalled of a file.
fn past_of(alloc: Global, file: &[u8]) -> Result<Past, RecallError>
    ensures { IfOk result (λ past. CanBegin past.history) }
{
    let Kept {
        history,
        marks,
        marked: _,
        channels,
    } = recall(alloc, 500, 1, file)?.kept;
    Ok(Past {
        history,
        marks,
        channels: channels_again(alloc, &channels)?,
    })
}

/// Runs a script after a welcome and our own JOIN, from what was kept.
fn runs(alloc: Global, script: &[&[u8]]) -> Result<Run<QuickView>, Fail> {
    let mut file = Vec::new(alloc);
    push_header(&mut file, false)?;
    push_frame(&mut file, KEPT)?;
    let past = past_of(alloc, &file)?;
    let events = events_of(alloc, &WELCOME, script)?;
    let profile = Profile::whole(alloc);
    Ok(run_from(alloc, QuickView::new(alloc)?, past, 0, 8, &events, profile)?)
}

/// Three clients attach, and then somebody talks.
const ATTACHED: [&[u8]; 4] = [
    b"attach - pc 16",
    b"attach - phone 16",
    b"attach - tablet 16",
    b"up :bob!b@h PRIVMSG #c :and now",
];

/// The messages that each of the three is sent after its burst.
const MESSAGES: [(u64, &[&[u8]]); 3] = [
    (0, &[b":bob!b@h PRIVMSG #c :hi again"]),
    (
        1,
        &[
            b":bob!b@h PRIVMSG #c :hi all",
            b":bob!b@h PRIVMSG #c :hi again",
        ],
    ),
    (
        2,
        &[
            b":bob!b@h PRIVMSG #c :hi all",
            b":bob!b@h PRIVMSG #c :hi again",
        ],
    ),
];

/// What is answered, and what one client is sent.
fn wanted_for(alloc: Global, missed: &[&[u8]]) -> Result<Vec<u8>, Fail> {
    let mut lines: Vec<&[u8]> = Vec::new(alloc);
    for line in [b"session 0".as_slice(), b"session 1", b"session 2"] {
        lines.push(line)?;
    }
    lines.extend_from_slice(&BURST)?;
    lines.extend_from_slice(missed)?;
    lines.push(b":bob!b@h PRIVMSG #c :and now")?;
    let mut text = text_of(alloc, &lines)?;
    let count = format!(in alloc; "packets {} 1\r\n", 9 + missed.len())?;
    text.extend_from_slice(count.as_str().as_bytes())?;
    Ok(text)
}

fn clients_are_sent_so<R: AllocGlobal + Abort>(rt: &R, run: &Run<QuickView>) -> Result<(), Fail> {
    for (of, missed) in MESSAGES {
        let story = Story {
            of,
            from: 0,
            ..STORY
        };
        let text = outcome(rt.alloc(), run, story)?;
        assert!(rt;
            text.as_slice() == wanted_for(rt.alloc(), missed)?.as_slice(),
            "{of}"
        );
    }
    Ok(())
}

/// Each name gets what its mark leaves open, and the next message has the next number.
#[test]
fn what_was_missed_over_a_restart(rt: HostRuntime) -> Result<(), Fail> {
    let run = runs(rt.alloc(), &ATTACHED)?;
    clients_are_sent_so(&rt, &run)?;
    assert!(rt; run.world.hub.history().last_number() == Some(9));
    Ok(())
}

fn is_to_be_joined<R: AllocGlobal + Abort>(
    rt: &R,
    script: &[&[u8]],
    left: &[&[u8]],
) -> Result<(), Fail> {
    let run = runs(rt.alloc(), script)?;
    let channels = run.world.hub.recalled_channels();
    assert!(rt; channels.len() == left.len());
    for (channel, name) in channels.iter().zip(left) {
        assert!(rt; channel.name.as_slice() == *name);
        assert!(rt; channel.key.as_deref() == Some(b"key".as_slice()));
    }
    Ok(())
}

/// A channel of before is to be joined again until it is joined or left.
#[test]
fn channels_that_are_to_be_joined_again(rt: HostRuntime) -> Result<(), Fail> {
    is_to_be_joined(&rt, &[], &[b"#d"])?;
    is_to_be_joined(&rt, &[b"lost"], &[b"#d"])?;
    is_to_be_joined(&rt, &[b"up :bob!b@h JOIN #D"], &[b"#d"])?;
    is_to_be_joined(&rt, &[b"up :Me!m@h JOIN #D"], &[])?;
    Ok(())
}

/// A name of a client that is there stays; one that is not is forgotten.
#[test]
fn a_name_that_is_forgotten(rt: HostRuntime) -> Result<(), Fail> {
    let mut run = runs(rt.alloc(), &[b"attach - pc 16"])?;
    let hub = &mut run.world.hub;
    assert!(rt; hub.forget(b"pc") == Err(ForgetFault::InUse));
    assert!(rt; hub.forget(b"tablet") == Err(ForgetFault::Unknown));
    assert!(rt; hub.forget(b"phone") == Ok(()));
    assert!(rt; hub.marks().knows(b"pc") && !hub.marks().knows(b"phone"));
    Ok(())
}

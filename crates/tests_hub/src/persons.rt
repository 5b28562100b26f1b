//! Rings of persons: what a person says to us and we to them, beside what others say, in channels too.

use crate::hub_rows::STORY;
use crate::hub_rows::events::{WELCOME, events_of};
use crate::hub_rows::replies::push_line;
use crate::hub_rows::scripts::{Story, outcome, text_of};
use hub_core::{Profile, Setup};
use hub_runs::{Run, run_by};
use quick_view::QuickView;
use std::alloc::Global;
use std::process::Abort;
use std::test::Fail;

/// Two messages of each ring are kept.
const TWO: Setup = Setup {
    history: 2,
    first_number: 1,
    first_session: 0,
};

/// Runs a script after a welcome and our own JOIN, with rings of persons or without, and with batches
/// of private messages.
fn runs(alloc: Global, by_person: bool, script: &[&[u8]]) -> Result<Run<QuickView>, Fail> {
    let events = events_of(alloc, &WELCOME, script)?;
    let mut profile = Profile::whole(alloc);
    profile.keeping.by_person = by_person;
    profile.playing.private_batches = true;
    let view = QuickView::new(alloc)?;
    Ok(run_by(alloc, view, TWO, 8, &events, profile)?)
}

/// The texts of the messages that are kept after a script, the oldest first.
fn kept_after(alloc: Global, by_person: bool, script: &[&[u8]]) -> Result<Vec<u8>, Fail> {
    let run = runs(alloc, by_person, script)?;
    let history = run.world.hub.history();
    let mut text = Vec::new(alloc);
    for i in 0..history.len() {
        let entry = history.entry(i).ok_or("it is kept")?;
        push_line(&mut text, entry.text())?;
    }
    Ok(text)
}

/// With rings of persons these messages are kept after a script, and without them those.
fn keeps<R: AllocGlobal + Abort>(
    rt: &R,
    script: &[&[u8]],
    by_person: &[&[u8]],
    by_target: &[&[u8]],
) -> Result<(), Fail> {
    let alloc = rt.alloc();
    let kept = kept_after(alloc, true, script)?;
    assert!(rt; kept.as_slice() == text_of(alloc, by_person)?.as_slice());
    let kept = kept_after(alloc, false, script)?;
    assert!(rt; kept.as_slice() == text_of(alloc, by_target)?.as_slice());
    Ok(())
}

/// A service that talks much pushes out nothing that a friend said.
#[test]
fn a_friend_beside_a_chatty_service(rt: HostRuntime) -> Result<(), Fail> {
    const SCRIPT: [&[u8]; 4] = [
        b"up :bob!b@h PRIVMSG Me lunch",
        b"up :HostServ!h@services NOTICE Me s1",
        b"up :HostServ!h@services NOTICE Me s2",
        b"up :HostServ!h@services NOTICE Me s3",
    ];
    keeps(&rt, &SCRIPT, &[b"lunch", b"s2", b"s3"], &[b"s2", b"s3"])
}

/// What we say to a person and what that person says to us is one conversation, in either case of its
/// letters; what is said in a channel is not of it.
#[test]
fn what_we_say_and_what_is_said_in_one_ring(rt: HostRuntime) -> Result<(), Fail> {
    const SCRIPT: [&[u8]; 7] = [
        b"attach - - 16",
        b"up :bob!b@h PRIVMSG Me m1",
        b"said 0 PRIVMSG BOB m2",
        b"said 0 PRIVMSG #c m3",
        b"up :Bob!b@h PRIVMSG #c m4",
        b"up :Bob!b@h NOTICE Me m5",
        b"up :bob!b@h PRIVMSG #c m6",
    ];
    keeps(
        &rt,
        &SCRIPT,
        &[b"m2", b"m4", b"m5", b"m6"],
        &[b"m1", b"m2", b"m4", b"m5", b"m6"],
    )
}

/// Our own nick is another: what a friend said before and what is said now stay together.
#[test]
fn a_changed_own_nick(rt: HostRuntime) -> Result<(), Fail> {
    const SCRIPT: [&[u8]; 4] = [
        b"up :bob!b@h PRIVMSG Me m1",
        b"up :Me!m@h NICK Ann",
        b"up :bob!b@h PRIVMSG Ann m2",
        b"up :bob!b@h PRIVMSG Ann m3",
    ];
    keeps(&rt, &SCRIPT, &[b"m2", b"m3"], &[b"m1", b"m2", b"m3"])
}

/// So a client gets them in one batch.
#[test]
fn one_batch_after_a_changed_own_nick(rt: HostRuntime) -> Result<(), Fail> {
    const SCRIPT: [&[u8]; 4] = [
        b"up :bob!b@h PRIVMSG Me m1",
        b"up :Me!m@h NICK Ann",
        b"up :bob!b@h PRIVMSG Ann m2",
        b"attach batch - 8",
    ];
    const WANTED: [&[u8]; 15] = [
        b"session 0",
        b":bnc 001 Ann :Welcome to the bouncer",
        b":bnc 002 Ann :Your host is bnc, running version 1",
        b":bnc 003 Ann :This server was created for you",
        b":bnc 004 Ann bnc 1 i biklmnopstv",
        b":bnc 005 Ann PREFIX=(ov)@+ CHANTYPES=# :are supported by this server",
        b":bnc 422 Ann :MOTD File is missing",
        b":Ann JOIN #c",
        b":bnc 353 Ann = #c Ann",
        b":bnc 366 Ann #c :End of NAMES list",
        b":bnc BATCH +h1 chathistory bob",
        b"@batch=h1 :bob!b@h PRIVMSG Me m1",
        b"@batch=h1 :bob!b@h PRIVMSG Ann m2",
        b":bnc BATCH -h1",
        b"packets 13",
    ];
    let alloc = rt.alloc();
    let run = runs(alloc, true, &SCRIPT)?;
    let story = Story {
        of: 0,
        from: 0,
        ..STORY
    };
    let text = outcome(alloc, &run, story)?;
    assert!(rt; text.as_slice() == text_of(alloc, &WANTED)?.as_slice());
    Ok(())
}

/// A word in a channel, and after it one of each of this many strangers.
fn strangers_say(alloc: Global, count: usize) -> Result<Vec<Vec<u8>>, Fail> {
    let mut lines = Vec::new(alloc);
    lines.push(Vec::from_slice(alloc, b"up :bob!b@h PRIVMSG #c :hi all")?)?;
    for n in 0..count {
        let line = format!(in alloc; "up :n{n}!u@h PRIVMSG Me :hi")?;
        lines.push(Vec::from_slice(alloc, line.as_str().as_bytes())?)?;
    }
    Ok(lines)
}

/// Ever new strangers push out each other, and no channel.
#[test]
fn a_channel_beside_strangers(rt: HostRuntime) -> Result<(), Fail> {
    let lines = strangers_say(rt.alloc(), 130)?;
    let mut script: Vec<&[u8]> = Vec::new(rt.alloc());
    for line in &lines {
        script.push(line.as_slice())?;
    }
    let run = runs(rt.alloc(), true, &script)?;
    let history = run.world.hub.history();
    assert!(rt; history.target_count() == 1 && history.person_count() == 128);
    let first = history.entry(0).ok_or("the channel's")?;
    assert!(rt; first.target() == b"#c".as_slice() && first.ring().is_none());
    let next = history.entry(1).ok_or("a stranger's")?;
    assert!(rt; next.ring() == Some(b"n2".as_slice()));
    Ok(())
}

//! What a client that attaches receives about the network, by both views.

ghost use Rattle.std.specs.List.{AllByRecursion};
ghost use Rattle.history.specs.Entry.{IsWrittenEntry};

use crate::clients::asked;
use crate::said::SaidLines;
use crate::views::{Rows, check_after};
use history::Entry;
use net_view::NetworkView;
use std::alloc::Global;
use std::process::Abort;
use std::test::Fail;
use test_texts::GREETING;
use welcome::{burst, burst_from, state_part};

/// A welcome, our JOIN, and what the network says of the channel and of one person.
const TOLD: [&[u8]; 10] = [
    b":s 001 Me :hi",
    b":s 005 Me PREFIX=(ov)@+ CHANTYPES=# :are supported",
    b":s 376 Me :end",
    b":Me!m@h JOIN #c",
    b":s 332 Me #c :Hello all",
    b":s 324 Me #c +kl key 9",
    b":s 353 Me = #c :Me @+bob +eve",
    b":s 366 Me #c :End",
    b":bob!b@h ACCOUNT bobacc",
    b":bob!b@h AWAY :gone fishing",
];

/// What a client with these capabilities that missed these messages gets after the greeting.
fn told<V: NetworkView>(
    alloc: Global,
    view: &V,
    names: &[u8],
    missed: &[&Entry],
) -> Result<Vec<u8>, Fail>
    requires { AllByRecursion (λ entry. IsWrittenEntry entry.now) missed.now }
{
    let caps = asked(names)?;
    if view.ready() {
        let packet = burst(alloc, view, caps, missed)?;
        let state = state_part(alloc, view, caps)?;
        let over = burst_from(alloc, &state, view, caps, missed)?;
        if over.bytes() != packet.bytes() || over.line_count() != packet.line_count() {
            return Ok(Vec::from_slice(alloc, b"another burst over the state part")?);
        }
        let after = packet.bytes().strip_prefix(GREETING);
        Ok(Vec::from_slice(alloc, after.unwrap_or(b"no greeting"))?)
    } else {
        Ok(Vec::from_slice(alloc, b"not ready")?)
    }
}

/// Messages that were missed; capabilities, and what comes after the greeting.
#[derive(Clone, Copy)]
struct Arrivals<'a> {
    said: &'a SaidLines,
    rows: &'a [(&'a [u8], &'a [u8])],
}

impl Rows for Arrivals<'_> {
    fn check<R: AllocGlobal + Abort, V: NetworkView>(&self, rt: &R, view: &V) -> Result<(), Fail> {
        let missed = self.said.missed(rt.alloc(), None)?;
        for (names, wanted) in self.rows {
            let text = told(rt.alloc(), view, names, &missed)?;
            assert!(rt; text.as_slice() == *wanted);
        }
        Ok(())
    }
}

/// What a client gets for these lines and messages, by both views.
fn check_told<R: AllocGlobal + Abort>(
    rt: &R,
    texts: &[&[u8]],
    said: &[&[u8]],
    rows: &[(&[u8], &[u8])],
) -> Result<(), Fail> {
    let said = SaidLines::of(rt.alloc(), said)?;
    let arrivals = Arrivals { said: &said, rows };
    check_after(rt, texts, &arrivals)
}

const A_CHANNEL_WITH_ALL_THAT_IS_KNOWN: [(&[u8], &[u8]); 2] = [
    (
        b"",
        b":bnc 005 Me PREFIX=(ov)@+ CHANTYPES=# :are supported by this server\r\n\
        :bnc 422 Me :MOTD File is missing\r\n\
        :Me JOIN #c\r\n\
        :bnc 332 Me #c :Hello all\r\n\
        :bnc 324 Me #c +kl key 9\r\n\
        :bnc 353 Me = #c :@bob +eve Me\r\n\
        :bnc 366 Me #c :End of NAMES list\r\n",
    ),
    (
        b"multi-prefix extended-join account-notify away-notify server-time batch",
        b":bnc 005 Me PREFIX=(ov)@+ CHANTYPES=# :are supported by this server\r\n\
        :bnc 422 Me :MOTD File is missing\r\n\
        :Me JOIN #c * :\r\n\
        :bnc 332 Me #c :Hello all\r\n\
        :bnc 324 Me #c +kl key 9\r\n\
        :bnc 353 Me = #c :@+bob +eve Me\r\n\
        :bnc 366 Me #c :End of NAMES list\r\n\
        :bob ACCOUNT bobacc\r\n\
        :bob AWAY :gone fishing\r\n",
    ),
];

/// No capabilities, and all six.
#[test]
fn a_channel_with_all_that_is_known(rt: HostRuntime) -> Result<(), Fail> {
    check_told(&rt, &TOLD, &[], &A_CHANNEL_WITH_ALL_THAT_IS_KNOWN)
}

/// Without channels, before the settings are fixed and after that.
#[test]
fn no_channel(rt: HostRuntime) -> Result<(), Fail> {
    check_told(&rt, &[b":s 001 Me :hi"], &[], &[(b"", b"not ready")])?;
    check_told(
        &rt,
        &[b":s 001 Me :hi", b":s 422 Me :none"],
        &[],
        &[(b"", b":bnc 422 Me :MOTD File is missing\r\n")],
    )
}

const PERSONS_OF_SEVERAL_CHANNELS_TEXTS: [&[u8]; 9] = [
    b":s 001 Me :hi",
    b":s 376 Me :end",
    b":Me!m@h JOIN #b",
    b":s 353 Me = #b :Me bob Al",
    b":Me!m@h JOIN #a",
    b":s 353 Me = #a :Me BOB",
    b":bob!b@h ACCOUNT bobacc",
    b":bob!b@h AWAY :gone fishing",
    b":al!a@h AWAY :lunch",
];

/// Persons on two channels: each is sent once, in the order of their keys, and then a message.
#[test]
fn persons_of_several_channels(rt: HostRuntime) -> Result<(), Fail> {
    check_told(
        &rt,
        &PERSONS_OF_SEVERAL_CHANNELS_TEXTS,
        &[b":bob!b@h PRIVMSG #A :hi all"],
        &[(
            b"account-notify away-notify batch",
            b":bnc 422 Me :MOTD File is missing\r\n\
            :Me JOIN #a\r\n\
            :bnc 353 Me = #a :BOB Me\r\n\
            :bnc 366 Me #a :End of NAMES list\r\n\
            :Me JOIN #b\r\n\
            :bnc 353 Me = #b :Al BOB Me\r\n\
            :bnc 366 Me #b :End of NAMES list\r\n\
            :Al AWAY lunch\r\n\
            :BOB ACCOUNT bobacc\r\n\
            :BOB AWAY :gone fishing\r\n\
            :bnc BATCH +h0 chathistory #a\r\n\
            @batch=h0 :bob!b@h PRIVMSG #A :hi all\r\n\
            :bnc BATCH -h0\r\n",
        )],
    )
}

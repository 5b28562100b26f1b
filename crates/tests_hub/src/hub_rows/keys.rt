//! The keys by which clients join channels (RFC 2812, section 3.2.1), and what the network says of them.

use crate::hub_rows::SETUP;
use crate::hub_rows::events::events_of;
use client_caps::Moment;
use hub_runs::{Event, run};
use quick_view::QuickView;
use std::alloc::Global;
use std::process::Abort;
use std::test::Fail;

/// How many packets may wait for the network.
const UPSTREAM: usize = 3;

/// A welcome, our own JOIN of another channel, and a client.
const BEFORE: [&[u8]; 5] = [
    b"up :s 001 Me :hi",
    b"up :s 005 Me PREFIX=(ov)@+ CHANTYPES=# :are supported",
    b"up :s 376 Me :end",
    b"up :Me!m@h JOIN #c",
    b"attach - - 9",
];

const SAID: &[u8] = b"said 0 JOIN #k bees";

const JOINED: &[u8] = b"up :Me!m@h JOIN #k";

const OTHERS: &[u8] = b"up :bob!b@h JOIN #k";

const WELCOMED: &[u8] = b"up :s 001 Me :hi";

/// 475 ERR_BADCHANNELKEY and 471 ERR_CHANNELISFULL (section 5.2).
const BAD_KEY: &[u8] = b"up :s 475 Me #k :Cannot join channel (+k)";

const IS_FULL: &[u8] = b"up :s 471 Me #k :Cannot join channel (+l)";

/// 65 channels with a key each.
const MANY: &[u8] = b"said 0 JOIN #00,#01,#02,#03,#04,#05,#06,#07,#08,#09,#10,#11,#12,#13,#14,#15,\
    #16,#17,#18,#19,#20,#21,#22,#23,#24,#25,#26,#27,#28,#29,#30,#31,#32,#33,#34,#35,#36,#37,#38,#39,\
    #40,#41,#42,#43,#44,#45,#46,#47,#48,#49,#50,#51,#52,#53,#54,#55,#56,#57,#58,#59,#60,#61,#62,#63,#64 \
    k00,k01,k02,k03,k04,k05,k06,k07,k08,k09,k10,k11,k12,k13,k14,k15,k16,k17,k18,k19,k20,k21,k22,k23,\
    k24,k25,k26,k27,k28,k29,k30,k31,k32,k33,k34,k35,k36,k37,k38,k39,k40,k41,k42,k43,k44,k45,k46,k47,\
    k48,k49,k50,k51,k52,k53,k54,k55,k56,k57,k58,k59,k60,k61,k62,k63,k64";

/// A key that is known: what a client says and the network answers, a channel, and its key that is known
/// then; none is an empty one. It is the one of a JOIN that our own JOIN confirmed, as long as we are on
/// the channel; after a MODE with `k` and a 324 the network's word counts, which the view has.
const KEYS: [(&[&[u8]], &[u8], &[u8]); 38] = [
    (&[SAID], b"#k", b""),
    (&[SAID, OTHERS], b"#k", b""),
    (&[SAID, JOINED], b"#k", b"bees"),
    (&[SAID, JOINED], b"#c", b""),
    (&[b"said 0 join #K bees", JOINED], b"#k", b"bees"),
    (&[SAID, b"up :Me!m@h JOIN #K"], b"#k", b"bees"),
    (&[SAID, b"up :Me!m@h NICK You", JOINED], b"#k", b""),
    (
        &[SAID, b"up :Me!m@h NICK You", b"up :You!m@h JOIN #k"],
        b"#k",
        b"bees",
    ),
    // the keys of a list are for its channels in order; a channel more has none, and a key more is for none
    (&[b"said 0 JOIN #a,#k,#b x,bees", JOINED], b"#k", b"bees"),
    (&[b"said 0 JOIN #a,#k x", JOINED], b"#k", b""),
    (&[b"said 0 JOIN #k bees,x", JOINED], b"#k", b"bees"),
    (
        &[b"said 0 JOIN #a,#k x,bees", b"up :Me!m@h JOIN #a"],
        b"#k",
        b"",
    ),
    (
        &[b"said 0 JOIN #a,#k x,bees", JOINED, b"up :Me!m@h JOIN #a"],
        b"#a",
        b"x",
    ),
    (
        &[b"said 0 JOIN #a x", SAID, JOINED, b"up :Me!m@h JOIN #a"],
        b"#k",
        b"bees",
    ),
    // a key that is no word can't be in a list again
    (&[b"said 0 JOIN #k :two words", JOINED], b"#k", b""),
    (&[b"said 0 JOIN #k ::bees", JOINED], b"#k", b""),
    (
        &[b"said 0 JOIN #a,#k ,bees", b"up :Me!m@h JOIN #a"],
        b"#a",
        b"",
    ),
    (&[b"said 0 JOIN #a,#k ,bees", JOINED], b"#k", b"bees"),
    // the last JOIN counts, one without a key too
    (&[SAID, b"said 0 JOIN #k wasps", JOINED], b"#k", b"wasps"),
    (&[SAID, IS_FULL, b"said 0 JOIN #k", JOINED], b"#k", b""),
    // a refused one is not remembered, and what was known stays
    (&[SAID, IS_FULL], b"#k", b""),
    (
        &[b"said 0 JOIN #k wasps", BAD_KEY, SAID, JOINED],
        b"#k",
        b"bees",
    ),
    (
        &[SAID, JOINED, b"said 0 JOIN #k wasps", BAD_KEY],
        b"#k",
        b"bees",
    ),
    // who is no longer on the channel knows no key of it
    (&[SAID, JOINED, b"up :Me!m@h PART #K"], b"#k", b""),
    (&[SAID, JOINED, b"up :bob!b@h KICK #k Me :out"], b"#k", b""),
    (
        &[SAID, JOINED, OTHERS, b"up :bob!b@h PART #k"],
        b"#k",
        b"bees",
    ),
    (
        &[SAID, JOINED, OTHERS, b"up :Me!m@h KICK #k bob :out"],
        b"#k",
        b"bees",
    ),
    (&[SAID, JOINED, b"up :Me!m@h PART #k", JOINED], b"#k", b""),
    // the network's word
    (&[SAID, JOINED, b"up :bob!b@h MODE #k +k wasps"], b"#k", b""),
    (&[SAID, JOINED, b"up :bob!b@h MODE #k -k bees"], b"#k", b""),
    (
        &[SAID, JOINED, b"up :bob!b@h MODE #k +o Me"],
        b"#k",
        b"bees",
    ),
    (
        &[SAID, JOINED, b"up :bob!b@h MODE #c +k wasps"],
        b"#k",
        b"bees",
    ),
    (&[SAID, JOINED, b"up :s 324 Me #k +nk wasps"], b"#k", b""),
    // what a lost connection did not confirm does not count on the next one, nor what is said between
    (&[SAID, b"lost", WELCOMED, JOINED], b"#k", b""),
    (&[b"lost", SAID, WELCOMED, JOINED], b"#k", b""),
    (&[SAID, JOINED, b"lost", WELCOMED, JOINED], b"#k", b"bees"),
    // nor what found no room
    (
        &[b"said 0 LIST", b"said 0 LIST", b"said 0 LIST", SAID, JOINED],
        b"#k",
        b"",
    ),
    // 64 wait at most, and those that are known don't count among them
    (
        &[SAID, JOINED, MANY, b"up :Me!m@h JOIN #00"],
        b"#k",
        b"bees",
    ),
];

/// Of 65 that are asked for, the oldest does not count.
const OF_MANY: [(&[&[u8]], &[u8], &[u8]); 3] = [
    (&[MANY, b"up :Me!m@h JOIN #00"], b"#00", b""),
    (&[MANY, b"up :Me!m@h JOIN #01"], b"#01", b"k01"),
    (&[MANY, b"up :Me!m@h JOIN #64"], b"#64", b"k64"),
];

/// The key that is known of a channel after a script, and if it is lost then after the loss of the
/// connection.
fn key_after(alloc: Global, script: &[&[u8]], is_lost: bool, name: &[u8]) -> Result<Vec<u8>, Fail> {
    let mut events = events_of(alloc, &BEFORE, script)?;
    if is_lost {
        events.push(Event::Lost(Moment(0)))?;
    }
    let run = run(alloc, QuickView::new(alloc)?, SETUP, UPSTREAM, &events)?;
    if run.stopped_by.is_some() {
        return Err("the script was stopped")?;
    }
    let key = run.world.hub.joined_key(name).unwrap_or(b"");
    Ok(Vec::from_slice(alloc, key)?)
}

/// What is known outlives a loss.
fn check<R: AllocGlobal + Abort>(rt: &R, rows: &[(&[&[u8]], &[u8], &[u8])]) -> Result<(), Fail> {
    for (script, name, wanted) in rows {
        for is_lost in [false, true] {
            let found = key_after(rt.alloc(), script, is_lost, name)?;
            assert!(rt; found.as_slice() == *wanted);
        }
    }
    Ok(())
}

#[test]
fn keys_that_are_known(rt: HostRuntime) -> Result<(), Fail> {
    check(&rt, &KEYS)?;
    check(&rt, &OF_MANY)
}

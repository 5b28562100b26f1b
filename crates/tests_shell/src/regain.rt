//! When a nick is asked for again, by which of ours has it and by what the network shows.

use irc_names::CaseMapping;
use shell::{Holder, NickNews, Regain, WhenAsked, news_of};
use std::alloc::Global;
use std::process::Abort;
use std::test::Fail;
use test_texts::line;

/// What happens before a question.
#[derive(Clone, Copy)]
enum Then {
    Nothing,
    /// A line of the network comes.
    Comes(&'static str),
    /// It is its turn while this one of ours has it: it is asked for.
    Asked(Holder),
    /// The same, and it is not asked for.
    NotAsked(Holder),
}

/// A time, what happens, and when it is asked for then.
type Row = (u64, Then, WhenAsked);

/// A stranger has it, whose QUIT comes in the end.
const A_STRANGERS: [Row; 7] = [
    (0, Then::Nothing, WhenAsked::After(60_000)),
    (60_000, Then::Nothing, WhenAsked::Now),
    (
        60_000,
        Then::Asked(Holder::Nobody),
        WhenAsked::After(120_000),
    ),
    (
        180_000,
        Then::Asked(Holder::Nobody),
        WhenAsked::After(240_000),
    ),
    (
        200_000,
        Then::Comes(":bob!b@h QUIT :bye"),
        WhenAsked::After(220_000),
    ),
    (200_000, Then::Comes(":ann!b@h QUIT :bye"), WhenAsked::Now),
    (
        200_000,
        Then::Asked(Holder::Nobody),
        WhenAsked::After(480_000),
    ),
];

/// One of ours has it for a long time, and leaves out of sight; its server is slow.
const OF_ONE_THAT_STAYS: [Row; 8] = [
    (0, Then::Nothing, WhenAsked::After(5_000)),
    (
        5_000,
        Then::NotAsked(Holder::Stays),
        WhenAsked::After(5_000),
    ),
    (
        4_000_000,
        Then::NotAsked(Holder::Stays),
        WhenAsked::After(5_000),
    ),
    (
        4_005_000,
        Then::NotAsked(Holder::Leaves),
        WhenAsked::After(1_000),
    ),
    (
        4_006_000,
        Then::Asked(Holder::Nobody),
        WhenAsked::After(1_000),
    ),
    (
        4_007_000,
        Then::Asked(Holder::Nobody),
        WhenAsked::After(2_000),
    ),
    (
        4_009_000,
        Then::Asked(Holder::Nobody),
        WhenAsked::After(4_000),
    ),
    (
        4_013_000,
        Then::Asked(Holder::Nobody),
        WhenAsked::After(8_000),
    ),
];

/// One of ours leaves in sight, before its thread has ended.
const OF_ONE_THAT_LEAVES: [Row; 6] = [
    (0, Then::Nothing, WhenAsked::After(1_000)),
    (
        1_000,
        Then::NotAsked(Holder::Leaves),
        WhenAsked::After(1_000),
    ),
    (1_400, Then::Comes(":Ann!a@h QUIT :removed"), WhenAsked::Now),
    (1_400, Then::Asked(Holder::Leaves), WhenAsked::After(1_000)),
    (
        2_400,
        Then::NotAsked(Holder::Leaves),
        WhenAsked::After(1_000),
    ),
    (2_500, Then::Comes(":ann!a@h NICK :bob"), WhenAsked::Now),
];

/// A stranger leaves in sight, and one of ours that stays is quicker.
const OF_ONE_THAT_WAS_QUICKER: [Row; 4] = [
    (0, Then::Nothing, WhenAsked::After(60_000)),
    (9_000, Then::Comes(":ann!b@h NICK bob"), WhenAsked::Now),
    (
        9_000,
        Then::NotAsked(Holder::Stays),
        WhenAsked::After(5_000),
    ),
    (
        14_000,
        Then::NotAsked(Holder::Leaves),
        WhenAsked::After(1_000),
    ),
];

/// Goes through rows after a registration during which this one of ours had the nick.
fn goes_so(rt: &impl Abort, alloc: Global, holder: Holder, rows: &[Row]) -> Result<(), Fail> {
    let mut regain = Regain::start(holder, 0);
    for (now, then, when) in rows {
        match then {
            Then::Nothing => {}
            Then::Comes(text) => {
                let line = line(alloc, text.as_bytes())?;
                regain.note(news_of(CaseMapping::Ascii, b"ann", &line), *now);
            }
            Then::Asked(holder) => {
                assert!(rt; regain.look(*holder, *now), "at {now}");
                regain.asked(*now);
            }
            Then::NotAsked(holder) => {
                assert!(rt; !regain.look(*holder, *now), "at {now}");
            }
        }
        assert!(rt; regain.next(*now) == *when, "at {now}");
    }
    Ok(())
}

#[test]
fn a_nick_is_asked_for_in_its_time(rt: HostRuntime) -> Result<(), Fail> {
    goes_so(&rt, rt.alloc(), Holder::Nobody, &A_STRANGERS)?;
    goes_so(&rt, rt.alloc(), Holder::Stays, &OF_ONE_THAT_STAYS)?;
    goes_so(&rt, rt.alloc(), Holder::Leaves, &OF_ONE_THAT_LEAVES)?;
    goes_so(&rt, rt.alloc(), Holder::Nobody, &OF_ONE_THAT_WAS_QUICKER)
}

#[test]
fn a_nick_is_asked_for_no_more(rt: HostRuntime) -> Result<(), Fail> {
    for news in [NickNews::Ours, NickNews::Chosen, NickNews::Never] {
        let mut regain = Regain::start(Holder::Leaves, 0);
        regain.note(news, 500);
        assert!(rt; regain.next(1_000_000) == WhenAsked::Never);
    }
    Ok(())
}

//! What a connection sends by itself after its registration, by the time and what the network says.

use shell::{AfterConnect, Due};
use std::test::Fail;
use test_texts::line;

/// What happens before a question.
#[derive(Clone, Copy)]
enum Then {
    Nothing,
    /// A line of the network comes.
    Comes(&'static str),
    /// The pace lets the next line in at this time.
    LetIn(u64),
    /// The line that is due is sent.
    Sent,
    /// The channels are joined.
    Joined,
}

/// Two lines, and channels 3 s after the second; the welcome comes at 1,000 ms. The greeting ends.
const GREETED: [(u64, Then, Due); 12] = [
    (1_000, Then::Nothing, Due::After(10_000)),
    (1_200, Then::Comes(":s 372 ann :motd"), Due::After(9_800)),
    (1_300, Then::Comes(":s 376 ann :end"), Due::Ask(0)),
    (1_300, Then::LetIn(1_300), Due::Line(0)),
    (1_300, Then::Sent, Due::Ask(1)),
    (1_900, Then::LetIn(1_900), Due::Line(1)),
    (1_950, Then::Nothing, Due::Line(1)),
    (2_000, Then::Sent, Due::After(3_000)),
    (4_999, Then::Nothing, Due::After(1)),
    (5_000, Then::Nothing, Due::Joins),
    (5_000, Then::Joined, Due::Nothing),
    (90_000, Then::Comes(":s 376 ann :end"), Due::Nothing),
];

/// The greeting never ends.
const NOT_GREETED: [(u64, Then, Due); 7] = [
    (10_999, Then::Nothing, Due::After(1)),
    (11_000, Then::Nothing, Due::Ask(0)),
    (11_000, Then::LetIn(11_000), Due::Line(0)),
    (11_000, Then::Sent, Due::Ask(1)),
    (11_000, Then::LetIn(11_001), Due::After(1)),
    (11_001, Then::Sent, Due::After(3_000)),
    (14_001, Then::Nothing, Due::Joins),
];

/// The pace lets the second line in 4 s later; the channels wait for it.
const HELD_BACK: [(u64, Then, Due); 7] = [
    (1_000, Then::Comes(":s 376 ann :end"), Due::Ask(0)),
    (1_000, Then::LetIn(1_000), Due::Line(0)),
    (1_000, Then::Sent, Due::Ask(1)),
    (1_000, Then::LetIn(5_000), Due::After(4_000)),
    (4_999, Then::Nothing, Due::After(1)),
    (5_000, Then::Nothing, Due::Line(1)),
    (5_000, Then::Sent, Due::After(3_000)),
];

#[test]
fn lines_come_before_the_channels(rt: HostRuntime) -> Result<(), Fail> {
    for rows in [
        GREETED.as_slice(),
        NOT_GREETED.as_slice(),
        HELD_BACK.as_slice(),
    ] {
        let mut after = AfterConnect::start(2, 3_000, false, 1_000);
        for (now, then, due) in rows {
            match then {
                Then::Nothing => {}
                Then::Comes(text) => after.take_line(&line(rt.alloc(), text.as_bytes())?),
                Then::LetIn(at) => after.let_in(*at),
                Then::Sent => after.line_sent(*now),
                Then::Joined => after.joined(),
            }
            assert_eq!(rt; after.next(*now), *due);
        }
    }
    Ok(())
}

/// 422 ends the greeting too, and may have come with the welcome; without a time the channels follow
/// at once.
#[test]
fn a_greeting_that_came_with_the_welcome(rt: HostRuntime) -> Result<(), Fail> {
    let mut after = AfterConnect::start(1, 0, false, 0);
    after.take_line(&line(rt.alloc(), b":s 422 ann :none")?);
    assert_eq!(rt; after.next(0), Due::Ask(0));
    let mut after = AfterConnect::start(1, 0, true, 0);
    assert_eq!(rt; after.next(0), Due::Ask(0));
    after.let_in(5);
    after.line_sent(5);
    assert_eq!(rt; after.next(5), Due::Joins);
    Ok(())
}

//! Images of a message: sessions with the same capabilities share one, and each session is sent one
//! packet.

use crate::hub_rows::STORY;
use crate::hub_rows::events::WELCOME;
use crate::hub_rows::scripts::{Story, check_client};
use std::process::Abort;
use std::test::Fail;

/// Three clients, two with the same capabilities: a message comes, then the first speaks,
/// then the third.
const OF_THREE: [&[u8]; 6] = [
    b"attach - - 8",
    b"attach - - 8",
    b"attach multi-prefix - 8",
    b"up :bob!b@h PRIVMSG #c m1",
    b"said 0 PRIVMSG #c m",
    b"said 2 PRIVMSG #c m",
];

/// What the events are answered.
const ANSWERED: [&[u8]; 5] = [
    b"session 0",
    b"session 1",
    b"session 2",
    b"forwarded",
    b"forwarded",
];

/// A script comes to these packets of each session, after its burst, and then to these lines.
fn check<R: AllocGlobal + Abort>(
    rt: &R,
    script: &[&[u8]],
    answered: &[&[u8]],
    sent: [&[&[u8]]; 3],
    after: &[&[u8]],
) -> Result<(), Fail> {
    for (of, lines) in sent.into_iter().enumerate() {
        let story = Story {
            of: of as u64,
            images: true,
            ..STORY
        };
        check_client(rt, story, &WELCOME, script, answered, lines, after)?;
    }
    Ok(())
}

const ONE_MESSAGE: [&[u8]; 2] = [b":bob!b@h PRIVMSG #c m1", b"packets 1"];

const TWO_MESSAGES: [&[u8]; 3] = [
    b":bob!b@h PRIVMSG #c m1",
    b":Me PRIVMSG #c m",
    b"packets 1 1",
];

const THREE_MESSAGES: [&[u8]; 4] = [
    b":bob!b@h PRIVMSG #c m1",
    b":Me PRIVMSG #c m",
    b":Me PRIVMSG #c m",
    b"packets 1 1 1",
];

/// One image for the first and the second session, another for the third.
#[test]
fn images_of_a_message_that_comes(rt: HostRuntime) -> Result<(), Fail> {
    check(
        &rt,
        &OF_THREE[..4],
        &ANSWERED[..3],
        [&ONE_MESSAGE, &ONE_MESSAGE, &ONE_MESSAGE],
        &[b"images 2"],
    )
}

/// The first speaks: one image for the second, another for the third.
#[test]
fn images_of_a_message_of_one_of_two(rt: HostRuntime) -> Result<(), Fail> {
    check(
        &rt,
        &OF_THREE[..5],
        &ANSWERED[..4],
        [&ONE_MESSAGE, &TWO_MESSAGES, &TWO_MESSAGES],
        &[b"> PRIVMSG #c m", b"images 4"],
    )
}

/// The third speaks too: one image for the first and the second.
#[test]
fn images_of_a_message_of_the_third(rt: HostRuntime) -> Result<(), Fail> {
    check(
        &rt,
        &OF_THREE,
        &ANSWERED,
        [&TWO_MESSAGES, &THREE_MESSAGES, &TWO_MESSAGES],
        &[b"> PRIVMSG #c m", b"> PRIVMSG #c m", b"images 5"],
    )
}

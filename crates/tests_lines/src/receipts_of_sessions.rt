//! What a client has surely received, by what was noted of its session.

use receipts::{End, Hearing, Left, Notes, Parting, Sent, is_fault, left_by};
use std::alloc::Global;
use std::process::Abort;
use std::test::Fail;

/// What is noted of a session, each in turn: the number of the last message, how many packets were
/// sent, how many written, and the moment.
type Looks<'a> = &'a [(u64, u64, u64, u64)];

/// What is noted, when the client was heard, and up to which message it has received all.
const ROWS: &[(Looks<'static>, u64, Option<u64>)] = &[
    (&[], 9_000, None),
    (&[(7, 1, 1, 1_000)], 5_999, None),
    (&[(7, 1, 1, 1_000)], 6_000, Some(7)),
    // written later than it was sent
    (&[(7, 1, 0, 1_000), (8, 2, 1, 2_000)], 6_999, None),
    (&[(7, 1, 0, 1_000), (8, 2, 1, 2_000)], 7_000, Some(7)),
    // never written
    (&[(7, 1, 0, 1_000), (8, 2, 0, 2_000)], 90_000, None),
    // the older note of a message counts
    (&[(7, 1, 1, 1_000), (7, 1, 1, 4_000)], 6_000, Some(7)),
    // the newest that is old enough
    (&[(7, 1, 1, 1_000), (9, 3, 3, 2_000)], 6_999, Some(7)),
    (&[(7, 1, 1, 1_000), (9, 3, 3, 2_000)], 7_000, Some(9)),
    // within a second nothing more is taken on
    (&[(7, 1, 1, 1_000), (9, 3, 3, 1_999)], 90_000, Some(7)),
];

/// The notes of these looks.
fn noted(alloc: Global, looks: Looks<'_>) -> Result<Notes, Fail> {
    let mut notes = Notes::new(alloc);
    for (number, count, written, now) in looks {
        let sent = Sent {
            number: *number,
            count: *count,
        };
        notes.note(sent, *written, *now)?;
    }
    Ok(notes)
}

/// A session whose connection failed, and whose client was heard at this moment.
fn failed(heard: u64) -> Parting {
    Parting {
        end: End::Fault,
        is_proxied: false,
        heard: Some(heard),
        margin: 5_000,
    }
}

#[test]
fn what_was_surely_received(rt: HostRuntime) -> Result<(), Fail> {
    for (looks, heard, number) in ROWS {
        let notes = noted(rt.alloc(), looks)?;
        assert!(rt; left_by(failed(*heard), &notes) == Left::UpTo(*number));
    }
    Ok(())
}

/// The oldest of more than 256 notes goes, so for a client that was heard long ago nothing is known.
#[test]
fn the_oldest_note_goes(rt: HostRuntime) -> Result<(), Fail> {
    let mut notes = Notes::new(rt.alloc());
    for i in 1..=257u64 {
        let sent = Sent {
            number: i,
            count: i,
        };
        notes.note(sent, i, i * 1_000)?;
    }
    assert!(rt; left_by(failed(6_999), &notes) == Left::UpTo(None));
    assert!(rt; left_by(failed(7_000), &notes) == Left::UpTo(Some(2)));
    assert!(rt; left_by(failed(300_000), &notes) == Left::UpTo(Some(257)));
    Ok(())
}

/// How a session ended, whether it came through a proxy, and whether it may have lost messages.
const ENDS: &[(End, bool, bool)] = &[
    (End::Quit, false, false),
    (End::Quit, true, false),
    (End::Ordered, true, false),
    (End::Closed, false, false),
    (End::Closed, true, true),
    (End::GivenUp, false, false),
    (End::Fault, false, true),
];

fn ends_so<R: AllocGlobal + Abort>(
    rt: &R,
    end: End,
    is_proxied: bool,
    fails: bool,
) -> Result<(), Fail> {
    let notes = noted(rt.alloc(), &[(7, 1, 1, 1_000)])?;
    let parting = Parting {
        end,
        is_proxied,
        ..failed(6_000)
    };
    let wanted = if fails {
        Left::UpTo(Some(7))
    } else {
        Left::All
    };
    assert!(rt; is_fault(end, is_proxied) == fails);
    assert!(rt; left_by(parting, &notes) == wanted);
    Ok(())
}

#[test]
fn who_may_have_lost_messages(rt: HostRuntime) -> Result<(), Fail> {
    for (end, is_proxied, fails) in ENDS {
        ends_so(&rt, *end, *is_proxied, *fails)?;
    }
    Ok(())
}

/// A client that never sends a PING is not heard, and counts as one that has received all.
#[test]
fn when_a_client_is_heard(rt: HostRuntime) -> Result<(), Fail> {
    let mut hearing = Hearing::new();
    hearing.hear(false, 1_000);
    assert!(rt; hearing.last() == None);
    let parting = Parting {
        heard: hearing.last(),
        ..failed(0)
    };
    let notes = noted(rt.alloc(), &[(7, 1, 1, 1_000)])?;
    assert!(rt; left_by(parting, &notes) == Left::All);
    hearing.hear(true, 2_000);
    hearing.hear(false, 3_000);
    assert!(rt; hearing.last() == Some(3_000));
    Ok(())
}

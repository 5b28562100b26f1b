//! The bytes of the messages that are kept, and of the names of clients.

use history::{Entry, History, Marks, PushError};
use std::alloc::Global;
use std::process::Abort;
use std::test::Fail;

/// A message of bob's: the name of the person in whose ring it is kept, its target, and its text.
type Said<'a> = (Option<&'a [u8]>, &'a [u8], &'a [u8]);

/// Adds a message, whose source, command and time have 7, 7 and 24 bytes.
fn add(
    alloc: Global,
    history: &mut History,
    (ring, target, text): Said,
) -> Result<Result<u64, PushError>, Fail> {
    let time = b"1970-01-01T00:00:00.000Z";
    let entry = Entry::make_in(alloc, ring, time, b"bob!b@h", b"PRIVMSG", target, text)?;
    Ok(history.add(entry))
}

/// A message, and the bytes after it in a history that keeps one of each ring: 192 for each message
/// that is kept, and its texts.
const BYTES_AFTER_EACH_MESSAGE: [(Said, u64); 7] = [
    ((None, b"#c", b"hi"), 234),
    ((None, b"#c", b"hi all"), 238),
    ((None, b"#d", b""), 470),
    ((Some(b"bob"), b"Me", b"psst"), 709),
    ((Some(b"BOB"), b"Me", b""), 705),
    ((None, b"#C", b""), 699),
    ((None, b"Me", b""), 931),
];

/// Each row holds, one after the other.
fn check_each_message<R: AllocGlobal + Abort>(
    rt: &R,
    history: &mut History,
    rows: &[(Said, u64)],
) -> Result<(), Fail> {
    assert!(rt; history.bytes() == 0);
    for (said, bytes) in rows {
        assert!(rt; add(rt.alloc(), history, *said)?.is_ok());
        assert!(rt; history.bytes() == *bytes);
    }
    Ok(())
}

/// The bytes of the messages that are kept, after each message.
#[test]
fn bytes_after_each_message(rt: HostRuntime) -> Result<(), Fail> {
    let mut history = History::new(rt.alloc(), 1, 1)?;
    check_each_message(&rt, &mut history, &BYTES_AFTER_EACH_MESSAGE)
}

/// Of two messages the second one is refused, and the bytes are those of the first.
fn counts_one_of_two<R: AllocGlobal + Abort>(rt: &R, history: &mut History) -> Result<(), Fail> {
    assert!(rt; add(rt.alloc(), history, (None, b"#c", b"hi"))?.is_ok());
    let refused = add(rt.alloc(), history, (None, b"#d", b"hi"))?;
    assert!(rt; matches!(refused, Err(PushError::Spent)) && history.bytes() == 234);
    Ok(())
}

/// A message that is refused is not counted.
#[test]
fn bytes_after_a_refused_message(rt: HostRuntime) -> Result<(), Fail> {
    counts_one_of_two(&rt, &mut History::new(rt.alloc(), 3, u64::MAX)?)
}

/// A name that is admitted, and the bytes of all names then: 128 for each, and its length.
const BYTES_AFTER_EACH_NAME: [(&[u8], u64); 4] = [
    (b"pc", 130),
    (b"phone", 263),
    (b"pc", 263),
    (b"", 391),
];

/// Each row holds, one after the other.
fn check_each_name<R: AllocGlobal + Abort>(rt: &R, marks: &mut Marks, rows: &[(&[u8], u64)]) {
    assert!(rt; marks.bytes() == 0);
    for (name, bytes) in rows {
        assert!(rt; marks.admit(name).is_ok() && marks.bytes() == *bytes);
    }
}

/// A mark takes no bytes of its own, and a name that goes takes its own with it.
fn counts_names_that_go<R: AllocGlobal + Abort>(rt: &R, marks: &mut Marks) {
    marks.set_mark(b"pc", 5);
    assert!(rt; marks.bytes() == 391);
    marks.withdraw(b"phone");
    assert!(rt; marks.bytes() == 258);
    marks.forget(b"pc");
    assert!(rt; marks.bytes() == 128);
}

/// The bytes of names, as they come and go.
#[test]
fn bytes_of_names(rt: HostRuntime) -> Result<(), Fail> {
    let mut marks = Marks::new(rt.alloc())?;
    check_each_name(&rt, &mut marks, &BYTES_AFTER_EACH_NAME);
    counts_names_that_go(&rt, &mut marks);
    Ok(())
}

//! The messages that are kept, and the marks of client names.

use client_caps::{Moment, time_text};
use history::{AdmitError, CapacityError, Entry, History, Marks, PushError, is_message};
use std::alloc::Global;
use std::process::Abort;
use std::test::Fail;
use test_texts::line;

/// The entry of a line that came at the beginning of 1970.
fn entry_of(alloc: Global, text: &[u8]) -> Result<Option<Entry>, Fail> {
    let time = time_text(Moment(0));
    Ok(Entry::of_message(alloc, &time, &line(alloc, text)?)?)
}

/// Adds the message of a line.
fn add(alloc: Global, history: &mut History, text: &[u8]) -> Result<Result<u64, PushError>, Fail> {
    let entry = entry_of(alloc, text)?.ok_or("a message")?;
    Ok(history.add(entry))
}

/// Whether this capacity is refused.
fn is_bad_capacity(alloc: Global, capacity: usize) -> bool {
    let none = History::<Global>::new(alloc, capacity, 1);
    matches!(none, Err(CapacityError::BadCapacity))
}

/// Whether this capacity is accepted, and there are no messages at first.
fn is_good_capacity(alloc: Global, capacity: usize) -> bool {
    match History::<Global>::new(alloc, capacity, 1) {
        Ok(history) => history.is_empty() && history.last_number().is_none(),
        Err(_) => false,
    }
}

/// How many messages there may be.
#[test]
fn capacities(rt: HostRuntime) {
    for capacity in [0, 10_001, usize::MAX] {
        assert!(&rt; is_bad_capacity(rt.alloc(), capacity));
    }
    for capacity in [1, 10_000] {
        assert!(&rt; is_good_capacity(rt.alloc(), capacity));
    }
}

/// Whether the message of a line gets the greatest number there is.
fn gets_the_last_number(alloc: Global, history: &mut History, text: &[u8]) -> Result<bool, Fail> {
    Ok(matches!(add(alloc, history, text)?, Ok(u64::MAX)))
}

/// Whether there is no number for the message of a line.
fn gets_no_number(alloc: Global, history: &mut History, text: &[u8]) -> Result<bool, Fail> {
    Ok(matches!(add(alloc, history, text)?, Err(PushError::Spent)))
}

/// Whether one message is kept, with the greatest number there is.
fn has_the_last_number(history: &History) -> bool {
    history.len() == 1 && history.last_number() == Some(u64::MAX) && history.next_number().is_none()
}

/// Of two messages the first one gets the last number.
fn one_of_two_is_kept<R: AllocGlobal + Abort>(rt: &R, history: &mut History) -> Result<(), Fail> {
    assert!(rt; gets_the_last_number(rt.alloc(), history, b":a PRIVMSG #c m1")?);
    assert!(rt; gets_no_number(rt.alloc(), history, b":a PRIVMSG #c m2")?);
    assert!(rt; has_the_last_number(history));
    Ok(())
}

/// The greatest number there is belongs to the last message.
#[test]
fn the_last_number(rt: HostRuntime) -> Result<(), Fail> {
    one_of_two_is_kept(&rt, &mut History::new(rt.alloc(), 3, u64::MAX)?)
}

const THREE_OF_FIVE_SAID: [&[u8]; 5] = [
    b":bob!b@h PRIVMSG #c m1",
    b":bob!b@h PRIVMSG #c m2",
    b":bob!b@h PRIVMSG #c m3",
    b":bob!b@h PRIVMSG #c m4",
    b":bob!b@h PRIVMSG #c m5",
];

/// A history of three that five messages came to.
fn three_of_five(alloc: Global) -> Result<History, Fail> {
    let mut history = History::new(alloc, 3, 1)?;
    for text in &THREE_OF_FIVE_SAID {
        let _number = add(alloc, &mut history, text)?;
    }
    Ok(history)
}

/// Whether an entry is such a message of bob's.
fn is_of_bob(entry: &Entry, text: &[u8]) -> bool {
    entry.text() == text
        && entry.target() == b"#c".as_slice()
        && entry.source() == b"bob!b@h".as_slice()
        && entry.time() == b"1970-01-01T00:00:00.000Z".as_slice()
        && entry.command() == b"PRIVMSG".as_slice()
}

/// Places, the texts there, and their numbers.
const THE_LAST_THREE: [(usize, &[u8], u64); 3] = [(0, b"m3", 3), (1, b"m4", 4), (2, b"m5", 5)];

/// Whether at a place is this message of bob's, with this number.
fn has_message(history: &History, (place, text, number): (usize, &[u8], u64)) -> bool {
    match history.entry(place) {
        Some(entry) => is_of_bob(entry, text) && history.number_of(place) == Some(number),
        None => false,
    }
}

/// At these places are these messages of bob's.
fn has_messages<R: AllocGlobal + Abort>(rt: &R, history: &History, rows: &[(usize, &[u8], u64)]) {
    for row in rows {
        assert!(rt; has_message(history, *row));
    }
}

/// Whether three messages are kept, the last one with the number 5.
fn has_three(history: &History) -> bool {
    history.len() == 3
        && history.last_number() == Some(5)
        && history.entry(3).is_none()
        && history.number_of(3).is_none()
}

/// Three messages are kept, and they are these.
fn has_these_three<R: AllocGlobal + Abort>(rt: &R, history: &History) {
    assert!(rt; has_three(history));
    has_messages(rt, history, &THE_LAST_THREE);
}

/// The last three of five messages.
#[test]
fn the_last_three_of_five(rt: HostRuntime) -> Result<(), Fail> {
    has_these_three(&rt, &three_of_five(rt.alloc())?);
    Ok(())
}

const HOW_MANY_STAND_ABOVE_A_MARK: [(Option<u64>, usize); 5] = [
    (None, 3),
    (Some(0), 3),
    (Some(2), 3),
    (Some(4), 1),
    (Some(5), 0),
];

/// Each row holds.
fn check_missed<R: AllocGlobal + Abort>(
    rt: &R,
    history: &History,
    rows: &[(Option<u64>, usize)],
) -> Result<(), Fail> {
    for (mark, count) in rows {
        assert!(rt; history.missed(rt.alloc(), *mark)?.len() == *count);
    }
    Ok(())
}

/// Those of them that are above a mark.
#[test]
fn how_many_stand_above_a_mark(rt: HostRuntime) -> Result<(), Fail> {
    check_missed(
        &rt,
        &three_of_five(rt.alloc())?,
        &HOW_MANY_STAND_ABOVE_A_MARK,
    )
}

/// A message that was made before it is added.
#[test]
fn a_message_made_beforehand(rt: HostRuntime) -> Result<(), Fail> {
    let mut history = History::<Global>::new(rt.alloc(), 1, 7)?;
    assert!(&rt; keeps_an_empty_notice(rt.alloc(), &mut history)?);
    Ok(())
}

/// Whether a notice of a without a text gets the number 7, and is kept.
fn keeps_an_empty_notice(alloc: Global, history: &mut History) -> Result<bool, Fail> {
    let number = add(alloc, history, b":a!b@c NOTICE Me :")?;
    Ok(matches!(number, Ok(7)) && is_empty_notice_of_a(history.entry(0)))
}

/// Whether it is a message of a without a text.
fn is_empty_notice_of_a(entry: Option<&Entry>) -> bool {
    match entry {
        Some(entry) => entry.source() == b"a!b@c".as_slice() && entry.text().is_empty(),
        None => false,
    }
}

/// A message that is made by its parts.
fn made(alloc: Global) -> Result<Entry, Fail> {
    let time = b"2020-01-02T03:04:05.678Z";
    Ok(Entry::make(alloc, time, b"Me", b"privmsg", b"#c", b"m 1")?)
}

/// Pushes a message as its readers give it; its number.
fn push_read(history: &mut History, entry: &Entry) -> Option<u64> {
    let number = history.push(
        entry.time(),
        entry.source(),
        entry.command(),
        entry.target(),
        entry.text(),
    );
    number.ok()
}

/// Whether it is the message made by its parts.
fn is_made(entry: Option<&Entry>) -> bool {
    let Some(entry) = entry else {
        return false;
    };
    entry.time() == b"2020-01-02T03:04:05.678Z".as_slice()
        && entry.source() == b"Me".as_slice()
        && entry.command() == b"privmsg".as_slice()
        && entry.target() == b"#c".as_slice()
        && entry.text() == b"m 1".as_slice()
}

/// A message that is made by its parts, and pushed as its readers give them back.
#[test]
fn a_message_by_its_parts(rt: HostRuntime) -> Result<(), Fail> {
    let mut history = History::<Global>::new(rt.alloc(), 2, u64::MAX)?;
    assert!(&rt; keeps_what_is_read(&mut history, &made(rt.alloc())?));
    Ok(())
}

/// Whether the message made by its parts gets the last number, and is kept.
fn keeps_what_is_read(history: &mut History, entry: &Entry) -> bool {
    push_read(history, entry) == Some(u64::MAX) && is_made(history.entry(0))
}

/// A message that is pushed when no number is left.
#[test]
fn a_message_without_a_number(rt: HostRuntime) -> Result<(), Fail> {
    let mut history = History::<Global>::new(rt.alloc(), 2, u64::MAX)?;
    let _number = add(rt.alloc(), &mut history, b":a PRIVMSG #c m1")?;
    assert!(&rt; is_refused(&mut history));
    Ok(())
}

/// Whether a message is refused because no number is left, and one is kept.
fn is_refused(history: &mut History) -> bool {
    let refused = history.push(b"2020-01-02T03:04:05.678Z", b"Me", b"NOTICE", b"bob", b"");
    matches!(refused, Err(PushError::Spent)) && history.len() == 1
}

/// The entry of a line that a client says under our nick.
fn said_entry(alloc: Global, text: &[u8]) -> Result<Option<Entry>, Fail> {
    let time = time_text(Moment(0));
    Ok(Entry::of_said(alloc, &time, b"Me", &line(alloc, text)?)?)
}

/// Whether there is an entry, and it is what we said.
fn is_said_by_us(entry: Option<&Entry>) -> bool {
    match entry {
        Some(entry) => {
            entry.source() == b"Me".as_slice() && entry.text() == b"hi all".as_slice()
        }
        None => false,
    }
}

const MESSAGES_THAT_A_CLIENT_SAYS: [(&[u8], bool); 4] = [
    (b"PRIVMSG #c :hi all", true),
    (b":other NOTICE #c :hi all", true),
    (b"PRIVMSG #c", false),
    (b"TOPIC #c :hi all", false),
];

/// Each row holds.
fn check_messages_that_a_client_says<R: AllocGlobal + Abort>(
    rt: &R,
    rows: &[(&[u8], bool)],
) -> Result<(), Fail> {
    for (text, is_said) in rows {
        let entry = said_entry(rt.alloc(), text)?;
        assert!(rt; is_said_by_us(entry.as_ref()) == *is_said && entry.is_some() == *is_said);
    }
    Ok(())
}

/// What a client says, as a message of ours: the line, and whether it is one.
#[test]
fn messages_that_a_client_says(rt: HostRuntime) -> Result<(), Fail> {
    check_messages_that_a_client_says(&rt, &MESSAGES_THAT_A_CLIENT_SAYS)
}

const LINES_THAT_ARE_MESSAGES: [(&[u8], bool, bool); 8] = [
    (b":bob!b@h PRIVMSG #c :hi all", true, true),
    (b":bob!b@h notice Me hi", true, true),
    (b"PRIVMSG #c hi", false, true),
    (b":bob!b@h PRIVMSG #c", false, false),
    (b":bob!b@h PRIVMSG #c hi all", false, false),
    (b":bob!b@h TOPIC #c :hi all", false, false),
    (b":bob!b@h PRIVMSGS #c :hi all", false, false),
    (b"@a=b :bob PRIVMSG #c :", true, true),
];

/// Each row holds.
fn check_lines_that_are_messages<R: AllocGlobal + Abort>(
    rt: &R,
    rows: &[(&[u8], bool, bool)],
) -> Result<(), Fail> {
    for (text, of_network, of_client) in rows {
        assert!(rt; is_message(&line(rt.alloc(), text)?) == *of_client);
        assert!(rt; entry_of(rt.alloc(), text)?.is_some() == *of_network);
    }
    Ok(())
}

/// Lines, and whether they are messages: of the network, and of a client.
#[test]
fn lines_that_are_messages(rt: HostRuntime) -> Result<(), Fail> {
    check_lines_that_are_messages(&rt, &LINES_THAT_ARE_MESSAGES)
}

/// Admits 64 names of a byte each.
fn fill<R: AllocGlobal + Abort>(rt: &R, marks: &mut Marks) {
    for byte in 0..64 {
        assert!(rt; matches!(marks.admit(&[byte]), Ok(true)));
    }
}

/// A known name is admitted again, and no further one.
fn admits_the_known<R: AllocGlobal + Abort>(rt: &R, marks: &mut Marks) {
    assert!(rt; marks.is_full_for(b"pc") && !marks.is_full_for(&[0]));
    assert!(rt; matches!(marks.admit(b"pc"), Err(AdmitError::NamesFull)));
    assert!(rt; matches!(marks.admit(&[0]), Ok(false)));
}

/// Whether of two marks that are set the one is kept whose name was admitted.
fn keeps_a_mark(marks: &mut Marks) -> bool {
    marks.set_mark(&[0], 5);
    marks.set_mark(b"pc", 6);
    marks.mark(&[0]) == Some(5) && marks.mark(b"pc").is_none() && marks.mark(&[1]).is_none()
}

/// Names up to the 64th are admitted, and keep their marks.
fn are_admitted<R: AllocGlobal + Abort>(rt: &R, marks: &mut Marks) {
    fill(rt, marks);
    admits_the_known(rt, marks);
    assert!(rt; keeps_a_mark(marks));
}

/// Names up to the 64th, and their marks.
#[test]
fn names_and_their_marks(rt: HostRuntime) -> Result<(), Fail> {
    are_admitted(&rt, &mut Marks::new(rt.alloc())?);
    Ok(())
}

/// Of the names that are withdrawn those without a mark make room, each for one name.
fn are_withdrawn<R: AllocGlobal + Abort>(rt: &R, marks: &mut Marks) {
    fill(rt, marks);
    marks.set_mark(&[0], 5);
    marks.withdraw(&[0]);
    marks.withdraw(b"pc");
    assert!(rt; matches!(marks.admit(b"pc"), Err(AdmitError::NamesFull)));
    marks.withdraw(&[1]);
    assert!(rt; matches!(marks.admit(b"pc"), Ok(true)));
    // names are compared byte for byte
    marks.withdraw(&[2]);
    assert!(rt; matches!(marks.admit(b"PC"), Ok(true)));
}

/// A name with a mark stays, and so does one that was not admitted away.
#[test]
fn names_that_are_withdrawn(rt: HostRuntime) -> Result<(), Fail> {
    are_withdrawn(&rt, &mut Marks::new(rt.alloc())?);
    Ok(())
}

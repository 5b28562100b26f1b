//! Messages that are kept, and names that are admitted.

use super::{Heap, MANY};
use history::{AdmitError, History, Marks, PushError};
use std::alloc::{Allocator, Global};
use std::process::Abort;
use std::test::Fail;

/// All that a history's readers say: each message with its number, and the counts.
fn all_kept<A: Allocator>(alloc: Global, history: &History<A>) -> Result<Vec<u8>, Fail> {
    let mut text = Vec::new(alloc);
    for place in 0..history.len() {
        let entry = history.entry(place).ok_or("a message")?;
        for part in [entry.time(), entry.source(), entry.command()] {
            text.extend_from_slice(part)?;
        }
        text.extend_from_slice(entry.target())?;
        text.extend_from_slice(entry.text())?;
        let number = history.number_of(place).ok_or("a number")?;
        text.extend_from_slice(&number.to_le_bytes())?;
    }
    let next = history.next_number().unwrap_or(0);
    text.extend_from_slice(&next.to_le_bytes())?;
    text.extend_from_slice(&history.target_count().to_le_bytes())?;
    Ok(text)
}

/// Keeps a message.
fn push<A: Allocator + Copy + Drop>(
    history: &mut History<A>,
    target: &[u8],
    text: &[u8],
) -> Result<u64, PushError> {
    history.push(b"now", b"bob!b@h", b"PRIVMSG", target, text)
}

/// Keeps a message, with the next number. If that is refused, nothing has changed, and it is
/// kept then.
fn push_again<R: AllocGlobal + Abort, A: Allocator + Copy + Drop>(
    rt: &R,
    history: &mut History<A>,
    target: &[u8],
    text: &[u8],
) -> Result<(), Fail> {
    let before = all_kept(rt.alloc(), &*history)?;
    let number = history.next_number();
    let given = match push(history, target, text) {
        Ok(given) => given,
        Err(e) => {
            assert!(rt; e == PushError::OutOfMemory);
            assert!(rt; all_kept(rt.alloc(), &*history)? == before);
            push(history, target, text)?
        }
    };
    assert!(rt; Some(given) == number);
    Ok(())
}

/// Targets and texts; of the messages to `#a` the third one drives out the first.
const MESSAGES: [(&[u8], &[u8]); 5] = [
    (b"#a", b"a1"),
    (b"#b", b"b1"),
    (b"#A", b"a2"),
    (b"#a", b"a3"),
    (b"bob", b"hi"),
];

/// Keeps the messages.
fn push_all<R: AllocGlobal + Abort, A: Allocator + Copy + Drop>(
    rt: &R,
    history: &mut History<A>,
) -> Result<Vec<u8>, Fail> {
    for (target, text) in &MESSAGES {
        push_again(rt, history, target, text)?;
    }
    all_kept(rt.alloc(), &*history)
}

/// The nth allocation is refused while messages are kept; whether one was.
fn push_refused<R: AllocGlobal + Abort>(rt: &R, nth: u64, wanted: &[u8]) -> Result<bool, Fail> {
    let heap = Heap::none(rt.alloc());
    let mut history = History::new(&heap, 2, 1)?;
    heap.refuse(nth);
    assert!(rt; push_all(rt, &mut history)?.as_slice() == wanted);
    Ok(heap.has_refused())
}

/// Each message is kept whole with its number, or nothing is.
#[test]
fn messages_that_are_kept(rt: HostRuntime) -> Result<(), Fail> {
    let wanted = push_all(&rt, &mut History::new(rt.alloc(), 2, 1)?)?;
    for nth in 1..MANY {
        if !push_refused(&rt, nth, &wanted)? {
            assert!(&rt; nth > 20);
            return Ok(());
        }
    }
    Err(Fail::new(format_args!("refused on and on")))
}

/// Admits a name after each of its allocations was refused; how many were.
fn admit_refused<R: AllocGlobal + Abort, A: Allocator + Copy + Drop>(
    rt: &R,
    heap: &Heap,
    marks: &mut Marks<A>,
    name: &[u8],
) -> Result<u64, Fail> {
    for nth in 1..MANY {
        heap.refuse(nth);
        match marks.admit(name) {
            Ok(is_new) => {
                assert!(rt; !heap.has_refused() && is_new);
                heap.refuse(0);
                return Ok(nth - 1);
            }
            Err(e) => assert!(rt; heap.has_refused() && e == AdmitError::OutOfMemory),
        }
    }
    Err(Fail::new(format_args!("a name is refused on and on")))
}

/// A name that was refused takes no place: 64 names are admitted after all the refusals, and then
/// none that is new.
#[test]
fn names_that_are_admitted(rt: HostRuntime) -> Result<(), Fail> {
    let heap = Heap::none(rt.alloc());
    let mut marks = Marks::new(&heap)?;
    let mut refused = 0u64;
    for place in 0..64u8 {
        refused = refused.saturating_add(admit_refused(&rt, &heap, &mut marks, &[place])?);
        assert!(&rt; marks.admit(&[place]) == Ok(false));
    }
    assert!(&rt; refused >= 64 && marks.admit(b"pc") == Err(AdmitError::NamesFull));
    assert!(&rt; marks.mark(b"pc").is_none() && marks.is_full_for(b"pc"));
    Ok(())
}

//! The messages that are kept of each target.

use history::{Entry, History};
use std::alloc::Global;
use std::process::Abort;
use std::test::Fail;
use test_texts::line;

/// Adds a message to a target; its number.
fn add(alloc: Global, history: &mut History, target: &str) -> Result<u64, Fail> {
    let text = format!(in alloc; ":bob!b@h PRIVMSG {target} :hi")?;
    let entry = Entry::of_message(
        alloc,
        b"1970-01-01T00:00:00.000Z",
        &line(alloc, text.as_bytes())?,
    )?;
    Ok(history.add(entry.ok_or("a message")?)?)
}

/// Adds a message to each of `count` targets, from t0 on.
fn add_each(alloc: Global, history: &mut History, count: usize) -> Result<(), Fail> {
    for i in 0..count {
        let target = format!(in alloc; "t{i}")?;
        let _number = add(alloc, history, &target)?;
    }
    Ok(())
}

/// Whether these are the numbers of the messages that are kept.
fn has_numbers(history: &History, numbers: &[u64]) -> bool {
    for (i, number) in numbers.iter().enumerate() {
        if history.number_of(i) != Some(*number) {
            return false;
        }
    }
    history.len() == numbers.len()
}

fn two_to_each<R: AllocGlobal + Abort>(rt: &R, history: &mut History) -> Result<(), Fail> {
    for target in ["#a", "#b", "#A", "#a"] {
        let _number = add(rt.alloc(), history, target)?;
    }
    assert!(rt; has_numbers(history, &[2, 3, 4]));
    assert!(rt; history.target_count() == 2 && history.last_number() == Some(4));
    Ok(())
}

/// Two messages to each target, whatever the case of its letters.
#[test]
fn two_messages_to_each_target(rt: HostRuntime) -> Result<(), Fail> {
    two_to_each(&rt, &mut History::new(rt.alloc(), 2, 1)?)
}

fn the_oldest_goes<R: AllocGlobal + Abort>(rt: &R, history: &mut History) -> Result<(), Fail> {
    add_each(rt.alloc(), history, 129)?;
    assert!(rt; history.len() == 128 && history.number_of(0) == Some(2));
    assert!(rt; add(rt.alloc(), history, "t0")? == 130);
    assert!(rt; history.len() == 128 && history.number_of(0) == Some(3));
    assert!(rt; history.target_count() == 128);
    Ok(())
}

/// The target that was written least recently is forgotten for a new one.
#[test]
fn one_target_too_many(rt: HostRuntime) -> Result<(), Fail> {
    the_oldest_goes(&rt, &mut History::new(rt.alloc(), 2, 1)?)
}

fn grows<R: AllocGlobal + Abort>(rt: &R, history: &mut History) -> Result<(), Fail> {
    for _ in 0..30 {
        let _number = add(rt.alloc(), history, "#a")?;
    }
    let _number = add(rt.alloc(), history, "bob")?;
    assert!(rt; history.len() == 21 && history.number_of(0) == Some(11));
    assert!(rt; history.number_of(20) == Some(31) && history.number_of(21).is_none());
    Ok(())
}

/// A target's messages are kept up to the capacity, and a loud one pushes out no other's.
#[test]
fn a_loud_target(rt: HostRuntime) -> Result<(), Fail> {
    grows(&rt, &mut History::new(rt.alloc(), 20, 1)?)
}

fn still_there<R: AllocGlobal + Abort>(rt: &R, history: &mut History) -> Result<(), Fail> {
    let _number = add(rt.alloc(), history, "me")?;
    for _ in 0..10_000 {
        let _number = add(rt.alloc(), history, "#loud")?;
    }
    assert!(rt; has_numbers(history, &[1, 9_999, 10_000, 10_001]));
    assert!(rt; history.missed(rt.alloc(), None)?.len() == 4);
    Ok(())
}

/// After 10,000 messages to a channel a private one is still there.
#[test]
fn a_private_message_stays(rt: HostRuntime) -> Result<(), Fail> {
    still_there(&rt, &mut History::new(rt.alloc(), 3, 1)?)
}

fn the_last_128<R: AllocGlobal + Abort>(rt: &R, history: &mut History) -> Result<(), Fail> {
    add_each(rt.alloc(), history, 200)?;
    add_each(rt.alloc(), history, 200)?;
    assert!(rt; history.target_count() == 128 && history.len() == 128);
    assert!(rt; history.number_of(0) == Some(273) && history.last_number() == Some(400));
    Ok(())
}

/// Of 200 targets that were written in turn twice, each is forgotten before its second message, and
/// the last 128 are kept.
#[test]
fn targets_in_turn(rt: HostRuntime) -> Result<(), Fail> {
    the_last_128(&rt, &mut History::new(rt.alloc(), 2, 1)?)
}

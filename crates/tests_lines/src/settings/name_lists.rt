//! Name lists as networks send them, and sets of ranks.

use irc_line::Line;
use irc_support::{OutOfMemory, Ranks, Support, cut, name_words, names, next_word};
use std::alloc::Global;
use std::process::Abort;
use std::test::Fail;
use test_texts::line;

/// Adds the symbols of these ranks, highest first, what comes after them, and a space.
fn push_word(
    settings: &Support,
    ranks: Ranks,
    rest: &[u8],
    text: &mut Vec<u8>,
) -> Result<(), OutOfMemory> {
    for rank in ranks.iter() {
        text.push(settings.symbol(rank).unwrap_or(b'?'))?;
    }
    text.extend_from_slice(rest)?;
    text.push(b' ')?;
    Ok(())
}

/// Adds the members of a name list.
fn push_members(settings: &Support, line: &Line, text: &mut Vec<u8>) -> Result<(), OutOfMemory> {
    for (ranks, nick) in names(settings, line) {
        push_word(settings, ranks, nick, text)?;
    }
    Ok(())
}

/// Adds the words of a name list.
fn push_words(settings: &Support, line: &Line, text: &mut Vec<u8>) -> Result<(), OutOfMemory> {
    for (ranks, rest) in name_words(settings, line) {
        push_word(settings, ranks, rest, text)?;
    }
    Ok(())
}

/// The members of the name list of a line.
fn members_text(alloc: Global, settings: &Support, said: &[u8]) -> Result<Vec<u8>, Fail> {
    let line = line(alloc, said)?;
    let mut text = Vec::new(alloc);
    push_members(settings, &line, &mut text)?;
    Ok(text)
}

/// The words of the name list of a line.
fn words_text(alloc: Global, settings: &Support, said: &[u8]) -> Result<Vec<u8>, Fail> {
    let line = line(alloc, said)?;
    let mut text = Vec::new(alloc);
    push_words(settings, &line, &mut text)?;
    Ok(text)
}

/// Each row holds.
fn check_members<R: AllocGlobal + Abort>(
    rt: &R,
    settings: &Support,
    rows: &[(&[u8], &[u8])],
) -> Result<(), Fail> {
    for (said, wanted) in rows {
        assert!(rt; members_text(rt.alloc(), settings, said)?.as_slice() == *wanted);
    }
    Ok(())
}

const MEMBERS_OF_A_NAME_LIST: [(&[u8], &[u8]); 8] = [
    (b":s 353 Me = #c :Me @+bob  +eve!e@h ", b"Me @+bob +eve "),
    (b":s 353 Me = #c :+@+bob", b"@+bob "),
    (b":s 353 Me = #c :%bob @", b"%bob @ "),
    (b":s 353 Me = #c @bob", b"@bob "),
    (b":s 353 Me = #c :", b""),
    (b":s 353 Me = #c", b""),
    (b":s 353 Me #c :@bob", b""),
    (b":s 366 Me = #c :@bob", b""),
];

#[test]
fn members_of_a_name_list(rt: HostRuntime) -> Result<(), Fail> {
    check_members(&rt, &Support::new(rt.alloc())?, &MEMBERS_OF_A_NAME_LIST)
}

/// Each row holds.
fn check_words<R: AllocGlobal + Abort>(
    rt: &R,
    settings: &Support,
    rows: &[(&[u8], &[u8])],
) -> Result<(), Fail> {
    for (said, wanted) in rows {
        assert!(rt; words_text(rt.alloc(), settings, said)?.as_slice() == *wanted);
    }
    Ok(())
}

const WORDS_WITH_USER_AND_HOST: [(&[u8], &[u8]); 4] = [
    (
        b":s 353 Me = #c :Me!m@h +@bob!b@h  +eve @",
        b"Me!m@h @+bob!b@h +eve @ ",
    ),
    (b":s 353 Me = #c :%bob!b@h!x", b"%bob!b@h!x "),
    (b":s 353 Me = #c", b""),
    (b":s 366 Me = #c :@bob", b""),
];

#[test]
fn words_with_user_and_host(rt: HostRuntime) -> Result<(), Fail> {
    check_words(&rt, &Support::new(rt.alloc())?, &WORDS_WITH_USER_AND_HOST)
}

#[test]
fn a_word_cut_behind_its_symbols(rt: HostRuntime) -> Result<(), Fail> {
    assert!(rt; is_cut_behind_its_symbols(&Support::new(rt.alloc())?));
    Ok(())
}

/// Whether a word is cut after the symbols of both ranks.
fn is_cut_behind_its_symbols(settings: &Support) -> bool {
    let (ranks, name) = settings.split_symbols(b"+@bob!b@h");
    ranks == Ranks::none().with(0).with(1) && name == b"bob!b@h".as_slice()
}

/// Whether a set has the ranks 3 and 15 and no others.
fn has_two_alone(set: Ranks) -> bool {
    for rank in 0..=255 {
        if set.has(rank) != (rank == 3 || rank == 15) {
            return false;
        }
    }
    true
}

/// Whether the ranks 3 and 15 of a set are its highest, one after the other, and its last.
fn goes_by_rank(set: Ranks) -> bool {
    set.top() == Some(3)
        && set.without(3).top() == Some(15)
        && set.without(3).without(15) == Ranks::none()
}

#[test]
fn sets_of_ranks(rt: HostRuntime) {
    let set = Ranks::none().with(3).with(15).with(3);
    assert!(rt; Ranks::none().top().is_none() && set == Ranks::none().with(15).with(3));
    assert!(rt; goes_by_rank(set) && has_two_alone(set));
}

#[test]
fn ranks_one_after_another(rt: HostRuntime) {
    let mut ranks = Ranks::none().with(15).with(3).iter();
    for next in [Some(3), Some(15), None] {
        assert!(rt; ranks.next() == next);
    }
}

/// The first word of a text.
fn first_word(text: &[u8]) -> Option<&[u8]> {
    let (word, _) = next_word(text)?;
    Some(word)
}

/// The second word of a text.
fn second_word(text: &[u8]) -> Option<&[u8]> {
    let (_, rest) = next_word(text)?;
    first_word(rest)
}

#[test]
fn words_of_a_text(rt: HostRuntime) {
    assert!(&rt; has_one_and_two(b"  one two"));
    assert!(&rt; second_word(b"two").is_none() && first_word(b"").is_none());
}

/// Whether the first two words of a text are these.
fn has_one_and_two(text: &[u8]) -> bool {
    first_word(text) == Some(b"one".as_slice()) && second_word(text) == Some(b"two".as_slice())
}

/// A text before and after the first of a byte.
#[test]
fn cuts_of_a_text(rt: HostRuntime) {
    let (before, behind) = cut(b'=', b"A=x=y");
    assert!(&rt; before == b"A".as_slice() && behind == Some(b"x=y".as_slice()));
    assert!(&rt; cut(b'=', b"A").1.is_none());
}

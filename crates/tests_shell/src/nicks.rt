//! Which nick a registration asks for, after others that were not taken.

use irc_names::is_nameable;
use shell::{NickChoice, NickTries, cut_nick};
use std::test::Fail;

/// Two further nicks: each once, in their order, and then the cut one.
const CHOICES: [NickChoice; 5] = [
    NickChoice::Wanted,
    NickChoice::Further(0),
    NickChoice::Further(1),
    NickChoice::Cut,
    NickChoice::Cut,
];

#[test]
fn each_nick_in_its_turn(rt: HostRuntime) -> Result<(), Fail> {
    let mut tries = NickTries::new();
    for choice in &CHOICES {
        assert_eq!(rt; tries.next(2), *choice);
        tries.refused();
    }
    tries.welcomed();
    assert_eq!(rt; tries.next(2), NickChoice::Wanted);
    tries.refused();
    assert_eq!(rt; tries.next(0), NickChoice::Cut);
    Ok(())
}

/// A nick, how long one may be, a number, and the nick that is made of them.
type Row<'a> = (&'a str, Option<usize>, u64, &'a str);

const CUT: &[Row<'static>] = &[
    // by the network's limit
    ("annabelle", Some(9), 42, "annabel42"),
    ("ann", Some(9), 107, "ann07"),
    ("annabelle", Some(5), 99, "ann99"),
    // by two bytes
    ("annabelle", None, 5, "annabel05"),
    // at least one byte
    ("ab", None, 10, "a10"),
    ("a", None, 10, "a10"),
    ("ann", Some(2), 10, "a10"),
    // at a character's beginning: é has two bytes, 😀 four
    ("annaé", Some(7), 10, "anna10"),
    ("annéa", Some(7), 10, "anné10"),
    ("ann😀", None, 10, "ann10"),
    ("é", None, 10, "é10"),
];

#[test]
fn a_nick_with_digits(rt: HostRuntime) -> Result<(), Fail> {
    for (nick, limit, chance, want) in CUT {
        let nick_bytes = nick.as_bytes();
        assert!(rt; is_nameable(nick_bytes), "at {nick}");
        let cut = cut_nick(rt.alloc(), nick_bytes, *limit, *chance)?;
        assert!(rt; cut.as_slice() == want.as_bytes(), "at {nick}");
    }
    Ok(())
}

//! Late attach of clients whose capabilities change, from both sides: from then on a client knows
//! what one that attaches then with its new capabilities knows.

use super::known::defined_text;
use super::received::received_by_one_that_changed;
use super::{Client, caps_of, read_by_tables};
use std::process::Abort;
use std::test::Fail;

/// A member with two ranks, an account and an away text that change.
const STORY: [&[u8]; 9] = [
    b":s 001 Me :hi",
    b":s 005 Me PREFIX=(ov)@+ CHANTYPES=# :are supported",
    b":s 376 Me :end",
    b":Me!m@h JOIN #c",
    b":s 353 Me = #c :Me @+bob",
    b":bob!b@h ACCOUNT bobacc",
    b":bob!b@h AWAY :lunch",
    b":s MODE #c -o bob",
    b":bob!b@h ACCOUNT *",
];

/// What a client reads that came as the first and has changed to the last.
fn check_change<R: AllocGlobal + Abort>(
    rt: &R,
    session: &[&[u8]],
    first: Client,
    last: Client,
) -> Result<(), Fail> {
    let alloc = rt.alloc();
    let lines = received_by_one_that_changed(alloc, session, first, last)?;
    let wanted = defined_text(
        alloc,
        session,
        if first.caps == last.caps { first } else { last },
    )?;
    assert!(rt; read_by_tables(alloc, &lines, last.caps)?.as_slice() == wanted.as_slice());
    Ok(())
}

/// From some capabilities to others after each line, for a client that came before the name list.
fn check_changes<R: AllocGlobal + Abort>(rt: &R, old: u64, sets: &[u64]) -> Result<(), Fail> {
    let first = Client {
        caps: caps_of(rt.alloc(), old)?,
        late: 4,
    };
    for set in sets {
        let caps = caps_of(rt.alloc(), *set)?;
        for late in first.late..STORY.len() + 1 {
            check_change(rt, &STORY, first, Client { caps, late })?;
        }
    }
    Ok(())
}

/// The sets of capabilities that a client changes to, as numbers written by twos.
const SETS: [u64; 8] = [0, 1, 4, 6, 7, 8, 15, 63];

/// A client without capabilities asks for some.
#[test]
fn from_none(rt: HostRuntime) -> Result<(), Fail> {
    check_changes(&rt, 0, &SETS)
}

/// A client that knows accounts and away texts gives some up.
#[test]
fn from_all_but_symbols(rt: HostRuntime) -> Result<(), Fail> {
    check_changes(&rt, 14, &SETS)
}

/// A client with all capabilities gives some up.
#[test]
fn from_all(rt: HostRuntime) -> Result<(), Fail> {
    check_changes(&rt, 63, &SETS)
}

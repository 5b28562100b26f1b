//! Late attach on short sessions, with what a client knows in the end.

use super::known::defined_text;
use super::{Client, caps_of, check_places, check_read_by_both};
use client_caps::Caps;
use std::process::Abort;
use std::test::Fail;

/// Both sides are this text.
fn check_text<R: AllocGlobal + Abort>(
    rt: &R,
    session: &[&[u8]],
    client: Client,
    wanted: &[u8],
) -> Result<(), Fail> {
    assert!(rt; defined_text(rt.alloc(), session, client)?.as_slice() == wanted);
    check_read_by_both(rt, session, client, wanted)
}

/// A member with two ranks loses the higher one, and a name list follows.
const RANKS: [&[u8]; 7] = [
    b":s 001 Me :hi",
    b":s 005 Me PREFIX=(ov)@+ CHANTYPES=# :are supported",
    b":s 376 Me :end",
    b":Me!m@h JOIN #c",
    b":s 353 Me = #c :Me @+bob",
    b":s MODE #c -o bob",
    b":s 353 Me = #c :Me +bob",
];

/// A person shown as an operator alone loses that rank: whether he has a voice is not known until
/// the next name list.
#[test]
fn a_rank_that_was_not_shown(rt: HostRuntime) -> Result<(), Fail> {
    let plain = Client {
        caps: Caps::none(),
        late: 5,
    };
    check_text(&rt, &RANKS[..5], plain, b"Me / #c @bob Me")?;
    check_text(&rt, &RANKS[..6], plain, b"Me / #c bob Me")?;
    check_text(&rt, &RANKS, plain, b"Me / #c +bob Me")
}

/// With all capabilities it is known at once.
#[test]
fn a_rank_that_was_shown(rt: HostRuntime) -> Result<(), Fail> {
    let all = Client {
        caps: caps_of(rt.alloc(), 63)?,
        late: 5,
    };
    check_text(&rt, &RANKS[..6], all, b"Me / #c +bob Me")
}

/// Each set of capabilities, and each place from which a client may come; before the name list and
/// after it.
#[test]
fn ranks_for_each_set(rt: HostRuntime) -> Result<(), Fail> {
    for set in 0..64 {
        let caps = caps_of(rt.alloc(), set)?;
        check_places(&rt, &RANKS[..6], 3, caps)?;
        check_places(&rt, &RANKS, 3, caps)?;
    }
    Ok(())
}

/// A person joins two channels, and only the first JOIN gives the account.
const ACCOUNT: [&[u8]; 7] = [
    b":s 001 Me :hi",
    b":s 005 Me PREFIX=(ov)@+ CHANTYPES=# :are supported",
    b":s 376 Me :end",
    b":Me!m@h JOIN #c",
    b":bob!b@h JOIN #c bobacc :Bob",
    b":Me!m@h JOIN #d",
    b":bob!b@h JOIN #d",
];

/// A person who joins a second channel has the account that was seen at the first one.
#[test]
fn an_account_that_is_not_told_again(rt: HostRuntime) -> Result<(), Fail> {
    let knows = Client {
        caps: caps_of(rt.alloc(), 6)?,
        late: 5,
    };
    check_text(
        &rt,
        &ACCOUNT,
        knows,
        b"Me / #c bob=bobacc Me / #d bob=bobacc Me",
    )
}

/// A client without account-notify could not tell when it ends.
#[test]
fn an_account_that_is_not_told(rt: HostRuntime) -> Result<(), Fail> {
    let plain = Client {
        caps: caps_of(rt.alloc(), 2)?,
        late: 5,
    };
    check_text(&rt, &ACCOUNT, plain, b"Me / #c bob Me / #d bob Me")
}

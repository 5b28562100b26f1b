//! Clients that come, log in and end.

use crate::rows::{ONLINE, check, steward};
use std::test::Fail;

/// A client is let in by the current settings and by no others, and ends once.
#[test]
fn a_client_is_let_in_by_the_settings_of_now(rt: HostRuntime) -> Result<(), Fail> {
    let mut steward = steward(rt.alloc());
    check(&rt, &mut steward, ONLINE)?;
    let rows = "
        2 came 1 => Serve { client: 0 }
        3 right 0 0 7 => JudgeAgain
        3 right 0 1 7 => LetIn { client: 0, network: 0 }
        4 gone 0 => Left { client: 0 }
        4 gone 0 => Nothing
    ";
    check(&rt, &mut steward, rows)
}

/// A client of a network that is not served, one too many in a network, and a client that writes its
/// last line itself.
#[test]
fn a_client_ends_by_one_line(rt: HostRuntime) -> Result<(), Fail> {
    let mut steward = steward(rt.alloc());
    check(&rt, &mut steward, ONLINE)?;
    let rows = "
        2 came 1 => Serve { client: 0 }
        2 right 0 1 9 => Tell { client: 0, why: NotServed }
        2 came 1 => Serve { client: 1 }
        2 right 1 1 7 => LetIn { client: 1, network: 0 }
        2 came 1 => Serve { client: 2 }
        2 right 2 1 7 => LetIn { client: 2, network: 0 }
        2 came 1 => Serve { client: 3 }
        2 right 3 1 7 => Tell { client: 3, why: Full }
        3 tells 1 => MayTell { client: 1 }
        3 tells 1 => Nothing
        4 gone 1 => Nothing
    ";
    check(&rt, &mut steward, rows)
}

/// Wrong logins keep no seat, so a right one finds one; only the first of them is answered.
#[test]
fn wrong_logins_lock_nobody_out(rt: HostRuntime) -> Result<(), Fail> {
    let mut steward = steward(rt.alloc());
    check(&rt, &mut steward, ONLINE)?;
    let rows = "
        2 exempt 2 => Serve { client: 0 }
        2 wrong 0 => AnswerAt { client: 0, time: 1002 }
        2 exempt 2 => Serve { client: 1 }
        2 wrong 1 => Drop { client: 1 }
        2 exempt 2 => Serve { client: 2 }
        2 wrong 2 => Drop { client: 2 }
        3 exempt 2 => Serve { client: 3 }
        3 right 3 1 7 => LetIn { client: 3, network: 0 }
        1002 tells 0 => MayTell { client: 0 }
    ";
    check(&rt, &mut steward, rows)
}

/// Two seats, both of one address, are all that the address has; another address displaces the
/// oldest login.
#[test]
fn the_oldest_login_gives_way(rt: HostRuntime) -> Result<(), Fail> {
    let mut steward = steward(rt.alloc());
    let rows = "
        0 came 1 => Serve { client: 0 }
        0 came 1 => Serve { client: 1 }
        0 came 1 => TurnAway
        0 exempt 2 => ServeInPlaceOf { client: 2, gone: 0 }
        1 gone 0 => Nothing
    ";
    check(&rt, &mut steward, rows)
}

/// Who is let in waits while the network joins channels, until they are settled or the time is over.
#[test]
fn a_session_waits_for_channels(rt: HostRuntime) -> Result<(), Fail> {
    let mut steward = steward(rt.alloc());
    check(&rt, &mut steward, ONLINE)?;
    let rows = "
        2 came 1 => Serve { client: 0 }
        2 settled 0 => Nothing
        3 right 0 1 7 => LetIn { client: 0, network: 0 }
        3 awaited 0 => Hold { client: 0 }
        200 awaited 0 => Hold { client: 0 }
        201 since 0 200 => Hold { client: 0 }
        299 since 0 200 => Hold { client: 0 }
        299 settled 0 => Enter { client: 0 }
        300 since 0 200 => Enter { client: 0 }
    ";
    check(&rt, &mut steward, rows)
}

/// Nobody waits while the network is away, and nobody enters after a last line or a stop.
#[test]
fn a_session_that_waits_ends_as_others(rt: HostRuntime) -> Result<(), Fail> {
    let mut steward = steward(rt.alloc());
    check(&rt, &mut steward, ONLINE)?;
    let rows = "
        2 came 1 => Serve { client: 0 }
        2 right 0 1 7 => LetIn { client: 0, network: 0 }
        2 came 1 => Serve { client: 1 }
        2 right 1 1 7 => LetIn { client: 1, network: 0 }
        2 came 1 => Serve { client: 2 }
        3 awaited 0 => Hold { client: 0 }
        3 right 2 1 7 => Tell { client: 2, why: Full }
        4 lost 0 0 => EndedUntil { network: 0, time: 104 }
        4 awaited 0 => Enter { client: 0 }
        5 tells 0 => MayTell { client: 0 }
        5 settled 0 => Nothing
        6 stop => Nothing
        6 settled 1 => Nothing
        6 ends => Tell { client: 1, why: Stops }
    ";
    check(&rt, &mut steward, rows)
}

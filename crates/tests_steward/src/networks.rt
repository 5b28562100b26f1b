//! Networks that are dialled, lost, reloaded and stopped.

use crate::rows::{ONLINE, check, steward};
use std::test::Fail;

/// A network that is renamed is not dialled while its nick is held under the old name.
#[test]
fn a_renamed_network_waits_for_its_nick(rt: HostRuntime) -> Result<(), Fail> {
    let mut steward = steward(rt.alloc());
    check(&rt, &mut steward, ONLINE)?;
    let rows = "
        10 settings renamed => Reloaded
        11 asks 1 => WaitForOther
        12 parts 0 => Quit { network: 0, why: Removed }
        13 asks 1 => WaitForOther
        14 lost 0 => EndedOver { network: 0 }
        15 asks 1 => Dial { network: 1 }
        15 asks 1 => Nothing
        15 asks 0 => Over
    ";
    check(&rt, &mut steward, rows)
}

/// Dials that fail are 100, 200 and 250 apart, and a connection that stood is followed by 100.
#[test]
fn dials_that_fail_back_off(rt: HostRuntime) -> Result<(), Fail> {
    let mut steward = steward(rt.alloc());
    let rows = "
        0 settings net => Reloaded
        0 asks 0 => Dial { network: 0 }
        0 lost 0 => EndedUntil { network: 0, time: 100 }
        100 asks 0 => Dial { network: 0 }
        100 lost 0 => EndedUntil { network: 0, time: 300 }
        300 asks 0 => Dial { network: 0 }
        300 lost 0 => EndedUntil { network: 0, time: 550 }
        550 asks 0 => Dial { network: 0 }
        550 lost 0 => EndedUntil { network: 0, time: 800 }
        799 asks 0 => RestUntil(800)
        800 asks 0 => Dial { network: 0 }
        800 connected 0 => Register { network: 0 }
        801 registered 0 => Welcome { network: 0 }
        850 lost 0 7 => EndedUntil { network: 0, time: 950 }
    ";
    check(&rt, &mut steward, rows)
}

/// A network whose address changes is dialled at once if it rests; if it is online it is sent QUIT,
/// keeps its clients, and rests as after any connection that stood.
#[test]
fn a_changed_network_is_dialled_anew(rt: HostRuntime) -> Result<(), Fail> {
    let mut steward = steward(rt.alloc());
    let rows = "
        0 settings net => Reloaded
        0 asks 0 => Dial { network: 0 }
        10 lost 0 => EndedUntil { network: 0, time: 110 }
        20 asks 0 => RestUntil(110)
        30 settings moved => Reloaded
        30 parts 0 => Nothing
        30 asks 0 => Dial { network: 0 }
        30 connected 0 => Register { network: 0 }
        31 registered 0 => Welcome { network: 0 }
        32 came 1 => Serve { client: 0 }
        32 right 0 2 7 => LetIn { client: 0, network: 0 }
        40 settings moved => Reloaded
        40 parts 0 => Nothing
        50 settings net => Reloaded
        50 parts 0 => Quit { network: 0, why: Changed }
        50 parts 0 => Nothing
        60 lost 0 => EndedUntil { network: 0, time: 160 }
    ";
    check(&rt, &mut steward, rows)
}

/// A removed network: its client gets its last line and has 50 ms to go, and then the network is
/// sent QUIT; a dial that completes meanwhile is given up. The client of one that rests gets its
/// last line too.
#[test]
fn a_removed_network_parts(rt: HostRuntime) -> Result<(), Fail> {
    let mut steward = steward(rt.alloc());
    check(&rt, &mut steward, ONLINE)?;
    let rows = "
        2 came 1 => Serve { client: 0 }
        2 right 0 1 7 => LetIn { client: 0, network: 0 }
        10 settings => Reloaded
        10 parts 0 => Tell { client: 0, why: Removed }
        59 parts 0 => Wait
        60 parts 0 => Quit { network: 0, why: Removed }
        60 parts 0 => Nothing
        70 lost 0 => EndedOver { network: 0 }
        80 settings net => Reloaded
        80 asks 1 => Dial { network: 1 }
        81 settings => Reloaded
        82 connected 1 => GiveUp
        83 lost 1 => EndedOver { network: 1 }
        84 settings net => Reloaded
        84 came 1 => Serve { client: 1 }
        84 right 1 5 7 => LetIn { client: 1, network: 2 }
        85 settings => Reloaded
        85 asks 2 => Over
        86 parts 2 => Tell { client: 1, why: Removed }
        86 parts 2 => Nothing
    ";
    check(&rt, &mut steward, rows)
}

/// A network whose threads could not be started is begun again by the next settings.
#[test]
fn a_network_without_threads(rt: HostRuntime) -> Result<(), Fail> {
    let mut steward = steward(rt.alloc());
    let rows = "
        0 settings net => Reloaded
        0 unstarted 0 => Forgotten { network: 0 }
        0 unstarted 0 => Nothing
        1 settings net => Reloaded
        1 asks 1 => Dial { network: 1 }
        1 unstarted 1 => Nothing
    ";
    check(&rt, &mut steward, rows)
}

/// A network is begun anew once it keeps more than it may, after its client got its last line.
#[test]
fn a_network_that_keeps_too_much(rt: HostRuntime) -> Result<(), Fail> {
    let mut steward = steward(rt.alloc());
    check(&rt, &mut steward, ONLINE)?;
    let rows = "
        2 came 1 => Serve { client: 0 }
        2 right 0 1 7 => LetIn { client: 0, network: 0 }
        5 keeps 0 1000 => Nothing
        5 keeps 0 1001 => Tell { client: 0, why: Anew }
        5 keeps 0 1001 => BeginAnew { network: 0 }
        6 lost 0 => EndedUntil { network: 0, time: 106 }
    ";
    check(&rt, &mut steward, rows)
}

/// At a stop the client gets its last line, then the network is sent QUIT, and it is over at its
/// time whoever stays; nobody comes in, and nothing is dialled, reloaded or begun anew.
#[test]
fn a_stop_comes_to_its_end(rt: HostRuntime) -> Result<(), Fail> {
    let mut steward = steward(rt.alloc());
    check(&rt, &mut steward, ONLINE)?;
    let rows = "
        2 came 1 => Serve { client: 0 }
        3 ends => Nothing
        10 stop => Nothing
        11 came 1 => TurnAway
        11 right 0 1 7 => Nothing
        11 settings => Nothing
        11 keeps 0 1001 => Nothing
        11 asks 0 => Over
        12 ends => Tell { client: 0, why: Stops }
        12 ends => Wait
        60 ends => Quit { network: 0, why: Stops }
        109 ends => Wait
        110 ends => Exit
    ";
    check(&rt, &mut steward, rows)
}

/// Without clients and connections a stop is over at once.
#[test]
fn a_stop_with_nobody_there(rt: HostRuntime) -> Result<(), Fail> {
    let mut steward = steward(rt.alloc());
    let rows = "
        0 settings net => Reloaded
        10 stop => Nothing
        10 ends => Exit
    ";
    check(&rt, &mut steward, rows)
}

/// Of networks at one address the first is dialled at once, and the next 10 later.
#[test]
fn networks_at_one_address_are_dialled_apart(rt: HostRuntime) -> Result<(), Fail> {
    let mut steward = steward(rt.alloc());
    let rows = "
        0 settings net other => Reloaded
        0 asks 0 => Dial { network: 0 }
        0 asks 1 => RestUntil(10)
        10 asks 1 => Dial { network: 1 }
        10 lost 1 29 => EndedUntil { network: 1, time: 113 }
    ";
    check(&rt, &mut steward, rows)
}

/// A removed network holds up its successor only while there is a connection; it is sent QUIT while
/// it registers.
#[test]
fn a_network_that_is_removed_before_it_is_served(rt: HostRuntime) -> Result<(), Fail> {
    let mut steward = steward(rt.alloc());
    let rows = "
        0 settings net => Reloaded
        0 asks 0 => Dial { network: 0 }
        5 settings renamed => Reloaded
        5 parts 0 => Nothing
        20 asks 1 => Dial { network: 1 }
        21 connected 0 => GiveUp
        22 lost 0 => EndedOver { network: 0 }
        23 connected 1 => Register { network: 1 }
        24 settings => Reloaded
        25 parts 1 => Quit { network: 1, why: Removed }
        26 registered 1 => GiveUp
    ";
    check(&rt, &mut steward, rows)
}

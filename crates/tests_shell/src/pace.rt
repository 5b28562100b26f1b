//! What lines cost, and how long their speaker waits.

use shell::{Debt, Pace, Toll, full_cost, toll_of};
use std::test::Fail;
use std::time::Duration;

#[test]
fn what_a_line_costs(rt: HostRuntime) -> Result<(), Fail> {
    let rows: [(&[u8], usize, bool); 9] = [
        (b"WHO\n", 30, false),
        (b"PRIVMSG #c :hello to all of you\r\n", 33, false),
        (b"ping x\r\n", 0, false),
        (b"@a=b :x PONG y\r\n", 0, false),
        (b"CAP REQ batch\r\n", 0, true),
        (b"cap req :-batch\r\n", 0, true),
        (b"CAP LS 302\r\n", 0, false),
        (b"QUIT\r\n", 0, false),
        (b"PRIVMSG #c :PING\r\n", 30, false),
    ];
    for (line, cost, is_request) in rows {
        assert_eq!(rt; toll_of(rt.alloc(), line)?, Toll { cost, is_request });
    }
    assert_eq!(rt; full_cost(31), 31);
    Ok(())
}

/// 200 bytes at once and 1,000 a second: 30 bytes more wait 30 ms.
#[test]
fn how_long_a_speaker_waits(rt: HostRuntime) -> Result<(), Fail> {
    let owed = Debt { parts: 0 }.with(200);
    assert_eq!(rt; owed.wait(200, 1_000, 30), 30_000);
    assert_eq!(rt; owed.made_up(10_000, 1_000).wait(200, 1_000, 30), 20_000);
    assert_eq!(rt; owed.without(30).wait(200, 1_000, 30), 0);
    Ok(())
}

#[test]
fn the_first_to_speak_does_not_wait_and_the_next_does(rt: HostRuntime) -> Result<(), Fail> {
    let pace = Pace::new(30, 1);
    assert!(rt; pace.take(&rt, 30) == Duration::ZERO);
    assert!(rt; pace.take(&rt, 30) > Duration::from_secs(20));
    pace.give_back(&rt, 60);
    assert!(rt; pace.take(&rt, 30) == Duration::ZERO);
    Ok(())
}

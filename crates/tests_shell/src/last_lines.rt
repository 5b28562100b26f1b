//! The writer that counts, and the last line after it.

use shell::{Counted, ends_within, say_last};
use std::io::Write;
use std::test::Fail;
use test_streams::Sink;

#[test]
fn a_last_line_is_not_said_after_half_a_line(rt: HostRuntime) -> Result<(), Fail> {
    let alloc = rt.alloc();
    let mut sink = Sink::new(alloc);
    sink.in_all = 20;
    let (mut out, count) = Counted::new(alloc, sink)?;
    out.write_all(b":s PING x\r\n")?;
    assert!(rt; !count.is_within_line());
    count.begin();
    assert!(rt; out.write_all(b":s PRIVMSG #c :hi\r\n").is_err());
    assert_eq!(rt; count.so_far(), 9);
    assert!(rt; count.is_within_line());
    let mut last = Sink::new(alloc);
    say_last(&mut last, count.is_within_line(), b"ERROR :bnc stops\r\n")?;
    assert!(rt; last.bytes.is_empty());
    say_last(&mut last, ends_within(true, b"\n"), b"ERROR :bnc stops\r\n")?;
    assert!(rt; last.bytes.as_slice() == b"ERROR :bnc stops\r\n".as_slice());
    Ok(())
}

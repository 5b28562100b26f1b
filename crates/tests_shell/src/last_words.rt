//! Why a network ends a connection, by what it said last.

use shell::Recalling;
use std::alloc::Global;
use std::io::Read;
use std::test::Fail;

/// What was sent, the text of the last line that does not let us in, and the text of the ERROR at the
/// end.
type Row = (&'static [u8], Option<&'static [u8]>, Option<&'static [u8]>);

static ROWS: [Row; 8] = [
    (
        b":s 376 a :end\r\nERROR :Closing Link: h (Ping timeout)\r\n",
        None,
        Some(b"Closing Link: h (Ping timeout)"),
    ),
    (
        b":s 465 a :You are banned\r\n",
        Some(b"You are banned"),
        None,
    ),
    (
        b":s 465 a :You are banned\r\nERROR :Closing Link: h (G-lined: spam)\r\n",
        Some(b"You are banned"),
        Some(b"Closing Link: h (G-lined: spam)"),
    ),
    (
        b":s 463 a :Your host isn't among the privileged\r\n",
        Some(b"Your host isn't among the privileged"),
        None,
    ),
    (
        b":s 463 a :no\r\n:s 465 a :You are banned\r\n",
        Some(b"You are banned"),
        None,
    ),
    (b":s ERROR bye\r\n", None, Some(b"bye")),
    (b"ERROR :bye\r\n:s PING x\r\n", None, None),
    (b":b PRIVMSG a :ERROR 465\r\n", None, None),
];

/// A reader that has read all of this, ten bytes at a time.
fn read_all(alloc: Global, text: &[u8]) -> Result<Recalling<&[u8]>, Fail> {
    let mut reader = Recalling::new(alloc, text);
    let mut buffer = [0u8; 10];
    for _ in 0..text.len() {
        if reader.read(&mut buffer)? == 0 {
            break;
        }
    }
    Ok(reader)
}

#[test]
fn a_refusal_and_an_error_are_told_apart(rt: HostRuntime) -> Result<(), Fail> {
    let alloc = rt.alloc();
    for (text, refusal, error) in ROWS {
        let reader = read_all(alloc, text)?;
        assert!(rt; reader.no_entry(alloc)?.as_deref() == refusal);
        assert!(rt; reader.parting(alloc)?.as_deref() == error);
    }
    Ok(())
}

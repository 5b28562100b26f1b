//! Lines to a writer, in one write.

ghost use Rattle.std.specs.Prelude.{◌≡◌, ◌≤◌, IfErr, IfOk, OnOk, length, take};
ghost use Rattle.std.specs.Io.KnownBytes.{Appends, Keeps};
ghost use Rattle.irc_line.specs.Writing.{bytes_of};
ghost use Rattle.upstream.specs.Handshake.{Begins, IsSendCause};
ghost use Rattle.upstream.specs.declared.handshake.DialFault.TheVariants as fault;

use crate::handshake::DialFault;
use irc_line::Line;
use std::alloc::Global;
use std::io::{ErrorKind, Write};

/// How many write calls there are at most. A writer that has not taken all bytes by then counts as
/// one that can't be written to.
const WRITE_LIMIT: u64 = 1_000_000_000;

/// Writes bytes in one call; answers how many it took, none if it was interrupted. Another call that
/// takes no byte is a fault.
fn write_some<W: Write>(writer: &mut W, bytes: &[u8]) -> Result<usize, DialFault>
    ensures took { IfOk result (λ count. (count ≤ length bytes.now)
        × Appends (W.contents writer.old) (W.contents writer.new) (take count bytes.now)) }
    ensures fault { IfErr result (λ f. (f ≡ fault.Write)
        × Keeps (W.contents writer.old) (W.contents writer.new)) }
{
    match writer.write(bytes) {
        Ok(0) => Err(DialFault::Write),
        Ok(count) => Ok(count),
        Err(error) if error.kind() == ErrorKind::Interrupted => Ok(0),
        Err(_) => Err(DialFault::Write),
    }
}

/// Writes bytes, all of them, or after a fault a beginning of them.
fn write_whole<W: Write>(writer: &mut W, bytes: &[u8]) -> Result<(), DialFault>
    ensures whole { OnOk result (Appends (W.contents writer.old) (W.contents writer.new) bytes.now) }
    ensures begun { Begins (W.contents writer.old) (W.contents writer.new) bytes.now }
    ensures fault { IfErr result (λ f. f ≡ fault.Write) }
{
    let mut done = 0;
    for _ in 0..WRITE_LIMIT {
        if done == bytes.len() {
            return Ok(());
        }
        done += write_some(writer, &bytes[done..])?;
    }
    Err(DialFault::Write)
}

/// Sends lines, in one write. After a fault a beginning of them was sent.
pub(crate) fn send<W: Write>(alloc: Global, lines: &[Line], writer: &mut W) -> Result<(), DialFault>
    ensures sent { OnOk result
        (Appends (W.contents writer.old) (W.contents writer.new) (bytes_of lines.now)) }
    ensures begun { Begins (W.contents writer.old) (W.contents writer.new) (bytes_of lines.now) }
    ensures err { IfErr result IsSendCause }
{
    let mut bytes = Vec::new(alloc);
    for line in lines {
        line.write(&mut bytes)?;
    }
    write_whole(writer, bytes.as_slice())?;
    if writer.flush().is_err() {
        return Err(DialFault::Write);
    }
    Ok(())
}

/// Sends lines, in one write, if there are any. After a fault a beginning of them was sent.
pub(crate) fn send_any<W: Write>(
    alloc: Global,
    lines: &[Line],
    writer: &mut W,
) -> Result<(), DialFault>
    ensures sent { OnOk result
        (Appends (W.contents writer.old) (W.contents writer.new) (bytes_of lines.now)) }
    ensures begun { Begins (W.contents writer.old) (W.contents writer.new) (bytes_of lines.now) }
    ensures err { IfErr result IsSendCause }
{
    match lines {
        [] => Ok(()),
        [_, ..] => send(alloc, lines, writer),
    }
}

//! What is written to a client that has no session, or gets none.

ghost use Rattle.std.specs.Prelude.{◌≡◌, IfErr, OnOk};
ghost use Rattle.std.specs.Io.KnownBytes.{Appends};
ghost use Rattle.irc_line.specs.Writing.{written, bytes_of};
ghost use Rattle.sessions.specs.Admission.{refusal_line};
ghost use Rattle.sessions.specs.Answers.{password_incorrect};
ghost use Rattle.sessions.specs.Logins.{IsSendCause};

use crate::fault::LoginFault;
use hub_core::AttachError;
use hub_threads::WriteFault;
use irc_line::Line;
use std::alloc::Global;
use std::io::Write;

/// Sends lines, in one write.
pub(crate) fn send<W: Write>(
    alloc: Global,
    lines: &[Line],
    writer: &mut W,
) -> Result<(), LoginFault>
    ensures sent { OnOk result
        (Appends (W.contents writer.old) (W.contents writer.new) (bytes_of lines.now)) }
    ensures err { IfErr result IsSendCause }
{
    let mut bytes = Vec::new(alloc);
    for line in lines {
        line.write(&mut bytes)?;
    }
    if writer.write_all(bytes.as_slice()).is_err() || writer.flush().is_err() {
        return Err(LoginFault::Write);
    }
    Ok(())
}

/// Writes bytes, all of them, and flushes.
fn write_text<W: Write>(writer: &mut W, text: &[u8]) -> Result<(), WriteFault>
    ensures { OnOk result (Appends (W.contents writer.old) (W.contents writer.new) text.now) }
{
    if writer.write_all(text).is_err() || writer.flush().is_err() {
        return Err(WriteFault);
    }
    Ok(())
}

/// Tells a client whose claim is not let in: `:bnc 464 * :Password incorrect`. It takes no memory.
pub fn deny<W: Write>(writer: &mut W) -> Result<(), WriteFault>
    ensures { OnOk result (Appends (W.contents writer.old) (W.contents writer.new)
        (written password_incorrect)) }
{
    write_text(writer, b":bnc 464 * :Password incorrect\r\n")
}

/// The line that says why a client was not attached, as `ERROR :not ready`, with CR LF.
fn refusal_text(error: AttachError) -> &'static [u8]
    ensures { result.now ≡ written (refusal_line error) }
{
    match error {
        AttachError::NotReady => b"ERROR :not ready\r\n",
        AttachError::Full => b"ERROR :too many sessions\r\n",
        AttachError::NamesFull => b"ERROR :too many client names\r\n",
        AttachError::Spent => b"ERROR :numbers spent\r\n",
        AttachError::OutOfMemory => b"ERROR :no memory\r\n",
        AttachError::OutletFull => b"ERROR :session is full\r\n",
    }
}

/// Tells a client why it was not attached: `ERROR :not ready`, `ERROR :too many sessions`,
/// `ERROR :too many client names`, `ERROR :numbers spent`, `ERROR :no memory` or
/// `ERROR :session is full`. It takes no memory.
pub fn refuse<W: Write>(writer: &mut W, error: AttachError) -> Result<(), WriteFault>
    ensures { OnOk result (Appends (W.contents writer.old) (W.contents writer.new)
        (written (refusal_line error))) }
{
    write_text(writer, refusal_text(error))
}

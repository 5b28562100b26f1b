//! One call of a writer.

ghost use Rattle.std.specs.Prelude.{◌≤◌, length, take};
ghost use Rattle.std.specs.Io.KnownBytes.{Appends};

use std::io::{ErrorKind, Write};

/// What became of a write call.
#[derive(Clone, Copy, Debug, PartialEq, Eq)]
pub(crate) enum Call {
    /// It took all that it was given.
    Whole,
    /// It took a part.
    Part,
    /// It took nothing in its time.
    Blocked,
    /// A signal interrupted it before it took something.
    Interrupted,
    /// It failed, or answered that it took no byte.
    Failed,
}

/// What became of a call that answered an error of this kind.
fn refused(kind: ErrorKind) -> Call {
    match kind {
        ErrorKind::WouldBlock | ErrorKind::TimedOut => Call::Blocked,
        ErrorKind::Interrupted => Call::Interrupted,
        _ => Call::Failed,
    }
}

/// Writes bytes in one call. Answers how many it took, and what became of the call.
pub(crate) fn write_call<W: Write>(out: &mut W, bytes: &[u8]) -> (usize, Call)
    ensures took { Appends (W.contents out.old) (W.contents out.new) (take result.0 bytes.now) }
    ensures within { result.0 ≤ length bytes.now }
{
    match out.write(bytes) {
        Ok(0) => (0, Call::Failed),
        Ok(count) if count < bytes.len() => (count, Call::Part),
        Ok(count) => (count, Call::Whole),
        Err(error) => (0, refused(error.kind())),
    }
}

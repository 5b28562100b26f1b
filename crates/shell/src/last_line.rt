//! The last line of a connection.

ghost use Rattle.std.specs.Prelude.{◌≡◌, OnOk, false, true};
ghost use Rattle.std.specs.Io.KnownBytes.{Appends};
ghost use Rattle.shell.specs.Held.{ends_within};

use std::io;
use std::io::Write;

/// Whether a stream is within a line after this piece; `before` says whether it was before.
pub fn ends_within(before: bool, piece: &[u8]) -> bool
    ensures { result ≡ ends_within before piece.now }
{
    match piece {
        [.., last] => *last != b'\n',
        [] => before,
    }
}

/// Says a last line, unless the stream is within a line: half a line is not to be taken for
/// the beginning of this one.
pub fn say_last<W: Write>(out: &mut W, is_within_line: bool, line: &[u8]) -> io::Result<()>
    ensures glued { is_within_line ≡ true → W.contents out.new ≡ W.contents out.old }
    ensures said { is_within_line ≡ false →
        OnOk result (Appends (W.contents out.old) (W.contents out.new) line.now) }
{
    if is_within_line {
        return Ok(());
    }
    out.write_all(line)
}

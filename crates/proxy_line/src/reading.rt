//! Reading a proxy's line, and nothing after it.

ghost use Rattle.std.specs.Prelude.{◌≡◌, ◌==◌, ℕ, List, IfErr, IfOk, false};
ghost use Rattle.std.specs.List.{list_any};
ghost use Rattle.std.specs.Io.KnownBytes.{Consumes};
ghost use Rattle.proxy_line.specs.ProxyLine.{IsCauseOf, IsProxyLine, bytes_in};

use crate::line::{LIMIT, Origin, origin_of};
use std::alloc::Global;
use std::io::Read;

/// Why a connection names no client.
#[derive(Clone, Copy, Debug, PartialEq, Eq)]
pub enum ProxyFault {
    /// It ended, or could not be read, before its first byte.
    Silent,
    /// It ended, or could not be read, before its line was there.
    Cut,
    /// Its first 107 bytes have no LF.
    TooLong,
    /// Its first line is no PROXY line of version 1.
    Bad,
    /// An allocation was refused.
    OutOfMemory,
}

/// The next byte; `None` if the input has ended, or can't be read.
fn next_byte<R: Read>(input: &mut R) -> Option<u8>
    ensures { Consumes (R.remaining input.old) (R.remaining input.new) (bytes_in result) }
{
    let mut byte = [0u8];
    match input.read(&mut byte) {
        Ok(0) | Err(_) => None,
        Ok(_) => Some(byte[0]),
    }
}

/// Why an input names no client that has ended within its first line, after these bytes.
fn cause_of_end(line: &[u8]) -> ProxyFault
    ensures { list_any (λ b. b == 10) line.now ≡ false → IsCauseOf line.now result }
{
    match line {
        [] => ProxyFault::Silent,
        [_, ..] => ProxyFault::Cut,
    }
}

/// The client that a whole line names.
fn named_by(line: &[u8]) -> Result<Origin, ProxyFault>
    ensures ok { IfOk result (IsProxyLine line.now) }
    ensures err { IfErr result (IsCauseOf line.now) }
{
    match origin_of(line) {
        Some(origin) => Ok(origin),
        None => Err(ProxyFault::Bad),
    }
}

/// The client that the line at the front of an input names. It is read byte by byte: what follows
/// its LF is left.
pub fn read_origin<R: Read>(alloc: Global, input: &mut R) -> Result<Origin, ProxyFault>
    ensures ok { IfOk result (λ client. (line : List ℕ)
        × Consumes (R.remaining input.old) (R.remaining input.new) line
        × IsProxyLine line client) }
    ensures err { IfErr result (λ fault. (bytes : List ℕ)
        × Consumes (R.remaining input.old) (R.remaining input.new) bytes
        × IsCauseOf bytes fault) }
{
    let mut line = Vec::new(alloc);
    for _ in 0..LIMIT {
        let byte = match next_byte(input) {
            Some(byte) => byte,
            None => return Err(cause_of_end(&line)),
        };
        if line.push(byte).is_err() {
            return Err(ProxyFault::OutOfMemory);
        }
        if byte == b'\n' {
            return named_by(&line);
        }
    }
    Err(ProxyFault::TooLong)
}

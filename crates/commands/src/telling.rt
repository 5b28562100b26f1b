//! What is printed on standard error if the program does not do what it was asked for, and the
//! status that it ends with then.

ghost use Rattle.std.specs.Prelude.{◌≡◌};
ghost use Rattle.std.specs.Process.{exit_status};

use crate::fault::Fault;
use crate::words::WordsFault;
use std::process::ExitCode;

/// Reports a fault of what the program was given, as `bnc: TEXT`. The status is 1.
pub fn tell_fault(rt: &impl Eprint, fault: &Fault) -> ExitCode
    ensures { exit_status result ≡ 1 }
{
    let _ = eprintln!(rt; "bnc: {fault}");
    ExitCode::from(1)
}

/// Reports that the words after the program's name ask for nothing, as `bnc: bad command line`,
/// then what is wrong with them, if that is known, and the way to help. The status is 2.
pub fn tell_bad_words(rt: &impl Eprint, what: Option<&str>) -> ExitCode
    ensures { exit_status result ≡ 2 }
{
    let bad = WordsFault::Bad;
    let _ = eprintln!(rt; "bnc: {bad}");
    if let Some(text) = what {
        let _ = eprintln!(rt; "{text}");
    }
    let _ = eprintln!(rt; "try 'bnc --help'");
    ExitCode::from(2)
}

//! What the program reports about a fault.

ghost use Rattle.std.specs.Prelude.{◌≡◌};
ghost use Rattle.std.specs.IoError.{error_kind};
ghost use Rattle.commands.specs.Faults.{IsFileFault, reading_fault};

use bnc_config::{ConfigFault, FaultPlace, place_of_fault};
use std::alloc::{AllocError, Global};
use std::error::Error;
use std::io::ErrorKind;
use std::{fmt, io};

/// A fault of what the program was given, printed on stderr as `bnc: TEXT`; its status is 1.
#[derive(Debug, Drop)]
pub enum Fault {
    /// The address for clients can't be listened at.
    CannotListen,
    /// An address of the settings can't be listened at: which, and why.
    CannotListenAt(String),
    /// An input can't be read.
    CannotRead,
    /// The output can't be written.
    CannotWrite,
    /// The settings file can't be read: its path, and why.
    CannotReadFile(String),
    /// This many bytes at the end of a journal count for nothing.
    Damaged(usize),
    /// A file is there that was to be new: its path.
    Exists(String),
    /// A journal is of a later version than this program reads.
    LaterVersion,
    /// More than 16,384 bytes of the input come without LF.
    LineTooLong,
    /// The input ended before a good answer to each question, or an answer was bad four times.
    NoAnswer,
    /// No program reads the FIFO at this path.
    NobodyReads(String),
    /// A file does not begin as a journal does.
    NotAJournal,
    /// The network that the input describes is not ready: no 376, 422 or JOIN came after its
    /// welcome.
    NotReady,
    /// An allocation was refused.
    OutOfMemory,
    /// The settings file has a fault, or memory for it was refused.
    Settings(ConfigFault),
    /// The settings file has a fault: the file, and where it is there.
    SettingsAt(ConfigFault, String),
}

/// Where a fault is in the settings file with this path and this text, in words that count from 1.
fn place_text(alloc: Global, path: &str, text: &[u8], fault: &ConfigFault) -> Option<String> {
    let written = match place_of_fault(alloc, text, fault)? {
        FaultPlace::Line(line) => format!(in alloc; "{path}: line {line}"),
        FaultPlace::User(user) => {
            format!(in alloc; "{path}: [[user]] number {}", user.saturating_add(1))
        }
        FaultPlace::Network(user, network) => format!(in alloc;
            "{path}: [[user]] number {}, its [[user.network]] number {}",
            user.saturating_add(1),
            network.saturating_add(1)
        ),
    };
    written.ok()
}

impl Fault {
    /// The fault of an input that was not read.
    pub fn of_reading(error: &io::Error) -> Fault
        ensures { result ≡ reading_fault (error_kind error.now) }
    {
        match error.kind() {
            ErrorKind::OutOfMemory => Fault::OutOfMemory,
            _ => Fault::CannotRead,
        }
    }

    /// The fault of a settings file with this path and this text; if that can be said, with a second
    /// line that says where in the file it is.
    pub fn of_settings(alloc: Global, path: &str, text: &[u8], fault: ConfigFault) -> Fault {
        match place_text(alloc, path, text, &fault) {
            Some(place) => Fault::SettingsAt(fault, place),
            None => Fault::Settings(fault),
        }
    }

    /// The fault of an address that can't be listened at.
    pub fn of_listening(alloc: Global, address: &str, error: &io::Error) -> Fault {
        match format!(in alloc; "{address}: {error}") {
            Ok(why) => Fault::CannotListenAt(why),
            Err(_) => Fault::CannotListen,
        }
    }

    /// The fault of a settings file that was not read, in two lines: `cannot read`, and
    /// `bnc: FILE: REASON`.
    pub fn of_file(alloc: Global, path: &str, error: &io::Error) -> Fault
        ensures { IsFileFault (error_kind error.now) result }
    {
        match error.kind() {
            ErrorKind::OutOfMemory => Fault::OutOfMemory,
            _ => match format!(in alloc; "{path}: {error}") {
                Ok(why) => Fault::CannotReadFile(why),
                Err(_) => Fault::CannotRead,
            },
        }
    }
}

impl From<AllocError> for Fault {
    ghost use Rattle.std.specs.Prelude.{◌≡◌};
    ghost use Rattle.commands.specs.declared.fault.Fault.TheVariants.{OutOfMemory as out_of_memory};

    ghost from_gives = { λ _ fault. fault ≡ out_of_memory };

    fn from(_refused: AllocError) -> Fault {
        Fault::OutOfMemory
    }
}

impl fmt::Display for Fault {
    ghost use Rattle.std.specs.Prelude.{Some};
    ghost use Rattle.commands.specs.Faults.{text_of};

    ghost output = { λ fault. Some (text_of fault) };

    fn fmt<W: fmt::Write>(&self, f: &mut fmt::Formatter<W>) -> fmt::Result {
        match self {
            Fault::CannotListen => write!(f, "cannot listen"),
            Fault::CannotListenAt(why) => write!(f, "cannot listen\nbnc: {why}"),
            Fault::CannotRead => write!(f, "cannot read"),
            Fault::CannotReadFile(why) => write!(f, "cannot read\nbnc: {why}"),
            Fault::CannotWrite => write!(f, "cannot write"),
            Fault::Damaged(count) => write!(f, "{count} bytes at the end are damaged"),
            Fault::Exists(path) => write!(f, "{path} exists"),
            Fault::LaterVersion => write!(f, "a journal of a later version"),
            Fault::LineTooLong => write!(f, "line too long"),
            Fault::NoAnswer => write!(f, "no answer"),
            Fault::NobodyReads(path) => write!(f, "nobody reads {path}"),
            Fault::NotAJournal => write!(f, "not a journal"),
            Fault::NotReady => write!(f, "not ready"),
            Fault::OutOfMemory => write!(f, "out of memory"),
            Fault::Settings(fault) => write!(f, "{fault}"),
            Fault::SettingsAt(fault, place) => write!(f, "{fault}\nbnc: {place}"),
        }
    }
}

impl Error for Fault {}

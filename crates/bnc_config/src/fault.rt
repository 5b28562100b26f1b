//! Why a settings file is refused.

ghost use Rattle.std.specs.Prelude.{◌≡◌};

use crate::{Key, OutOfMemory, Text};
use std::alloc::AllocFailed;
use std::error::Error;
use std::fmt;

/// Why a settings file is refused: its first fault, or an allocation refused before it was found.
#[derive(Debug, Drop)]
pub enum ConfigFault {
    /// The file is not UTF-8, not of TOML's grammar, or gives a key twice.
    NotToml,
    /// A key that must be there is not.
    Missing(Key),
    /// A key's value is of another type, or not one that the key allows.
    BadValue(Key),
    /// A user, or a network of one user, has the name of an earlier one.
    Twice(Text),
    /// An allocation was refused.
    OutOfMemory,
}

impl fmt::Display for ConfigFault {
    ghost use Rattle.std.specs.Prelude.{Some};
    ghost use Rattle.bnc_config.specs.ConfigFault.{text_of};

    ghost output = { λ fault. Some (text_of fault) };

    fn fmt<W: fmt::Write>(&self, f: &mut fmt::Formatter<W>) -> fmt::Result {
        match self {
            ConfigFault::NotToml => write!(f, "not TOML"),
            ConfigFault::Missing(key) => write!(f, "missing {key}"),
            ConfigFault::BadValue(key) => write!(f, "bad value {key}"),
            ConfigFault::Twice(name) => write!(f, "twice {}", name.as_str()),
            ConfigFault::OutOfMemory => write!(f, "out of memory"),
        }
    }
}

impl Error for ConfigFault {}

impl From<OutOfMemory> for ConfigFault {
    ghost use Rattle.bnc_config.specs.declared.fault.ConfigFault.TheVariants as fault;

    ghost from_gives = { λ _ made. made ≡ fault.OutOfMemory };

    fn from(_refused: OutOfMemory) -> ConfigFault {
        ConfigFault::OutOfMemory
    }
}

impl<T: Drop> From<AllocFailed<T>> for ConfigFault {
    ghost use Rattle.bnc_config.specs.declared.fault.ConfigFault.TheVariants as fault;

    ghost from_gives = { λ _ made. made ≡ fault.OutOfMemory };

    fn from(_refused: AllocFailed<T>) -> ConfigFault {
        ConfigFault::OutOfMemory
    }
}

//! Why a login over streams fails.

use crate::OutOfMemory;
use thiserror::Error;

/// Why a login over streams failed.
#[derive(Clone, Copy, Debug, PartialEq, Eq, Error)]
pub enum LoginFault {
    /// An allocation was refused.
    #[error("out of memory")]
    OutOfMemory,
    /// A read failed, or the input ended before the login did.
    #[error("cannot read")]
    Read,
    /// A write failed.
    #[error("cannot write")]
    Write,
    /// More than 16,384 bytes came without LF.
    #[error("line too long")]
    TooLong,
}

impl From<OutOfMemory> for LoginFault {
    ghost use Rattle.std.specs.Prelude.{◌≡◌};
    ghost use Rattle.sessions.specs.declared.fault.LoginFault.TheVariants as fault;

    ghost from_gives = { λ _ made. made ≡ fault.OutOfMemory };

    fn from(_refused: OutOfMemory) -> LoginFault {
        LoginFault::OutOfMemory
    }
}

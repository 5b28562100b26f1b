//! What is wrong with a journal.

ghost use Rattle.std.specs.Prelude.{◌≡◌};

use irc_line::OutOfMemory;
use thiserror::Error;

/// Why a batch in a sound frame does not count.
#[derive(Clone, Copy, Debug, PartialEq, Eq, Error)]
pub enum Damage {
    /// Its text is that of no records, as they are written.
    #[error("no record")]
    NoRecord,
    /// A number is lower than one before it, or no number is left after it.
    #[error("bad number")]
    BadNumber,
    /// More than 64 client names are admitted.
    #[error("too many names")]
    TooManyNames,
}

/// Why records were not done again.
#[derive(Clone, Copy, Debug, PartialEq, Eq)]
pub enum RedoError {
    /// They don't count.
    Damaged(Damage),
    /// An allocation was refused.
    OutOfMemory,
}

impl From<OutOfMemory> for RedoError {
    ghost use Rattle.journal.specs.declared.damage.RedoError.TheVariants as fault;

    ghost from_gives = { λ _ e. e ≡ fault.OutOfMemory };

    fn from(_e: OutOfMemory) -> RedoError {
        RedoError::OutOfMemory
    }
}

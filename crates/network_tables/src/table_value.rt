//! What a table keeps under a key, and how many bytes that is.

ghost use Rattle.std.specs.Prelude.{ℕ, ◌≡◌, ◌%◌, ◌^◌};
ghost use Rattle.network_tables.specs.Weights.{no_bytes, ranks_bytes};

use irc_support::Ranks;
use weights::MEMBER;

/// What a table keeps under a key.
pub trait TableValue {
    ghost weight: { Self → ℕ };

    /// How many bytes it keeps, modulo 2^64.
    fn weight(&self) -> u64
        ensures { result ≡ weight self.now % 2 ^ 64 };
}

// The number of a cell is counted with what is in the cell.
impl TableValue for usize {
    ghost weight = { no_bytes };

    fn weight(&self) -> u64 {
        0
    }
}

// The ranks of a member stand for the member.
impl TableValue for Ranks {
    ghost weight = { ranks_bytes };

    fn weight(&self) -> u64 {
        MEMBER
    }
}

//! What tells how many bytes it keeps.

ghost use Rattle.std.specs.Prelude.{ℕ, ◌≡◌, ◌%◌, ◌^◌};

/// What tells how many bytes it keeps.
pub trait Weighed {
    ghost weight: { Self → ℕ };

    /// How many bytes it keeps, modulo 2^64. One step, unless its type says otherwise.
    fn weight(&self) -> u64
        ensures { result ≡ weight self.now % 2 ^ 64 };
}

//! Sums of bytes, modulo 2^64.

ghost use Rattle.std.specs.Prelude.{ℕ, ◌≡◌, ◌+◌, ◌%◌, ◌^◌};

/// A sum after this many bytes came.
pub fn more(sum: u64, bytes: u64) -> u64
    ensures { (x y : ℕ) → sum ≡ x % 2 ^ 64 → bytes ≡ y % 2 ^ 64 → result ≡ (x + y) % 2 ^ 64 }
{
    sum.wrapping_add(bytes)
}

/// A sum after this many of its bytes went.
pub fn less(sum: u64, bytes: u64) -> u64
    ensures { (x y : ℕ) → sum ≡ (x + y) % 2 ^ 64 → bytes ≡ y % 2 ^ 64 → result ≡ x % 2 ^ 64 }
{
    sum.wrapping_sub(bytes)
}

//! The bytes that kept lines take.

ghost use Rattle.std.specs.Prelude.{ℕ, ◌≡◌, ◌+◌, ◌%◌, ◌^◌, length, option_map};
ghost use Rattle.tape_view.specs.Kept.{tape_of};
ghost use Rattle.tape_view.specs.Weights.{line_bytes, arrivals_bytes};
ghost use Rattle.weights.specs.Sums.{maybe_bytes};

use crate::kept::Kept;
use irc_line::Line;
use std::alloc::Allocator;
use weights::more;

/// What a kept line takes beside its texts: about what the program needs for it.
const LINE: u64 = 192;

/// A sum with those of a text.
fn with_text(sum: u64, text: &[u8]) -> u64
    ensures { (x : ℕ) → sum ≡ x % 2 ^ 64 → result ≡ (x + length text.now) % 2 ^ 64 }
{
    more(sum, text.len() as u64)
}

/// A sum with those of a part that may be missing.
fn with_part(sum: u64, part: Option<&[u8]>) -> u64
    ensures { (x : ℕ) → sum ≡ x % 2 ^ 64 →
        result ≡ (x + maybe_bytes (option_map (λ text. text.now) part.entry)) % 2 ^ 64 }
{
    match part {
        Some(text) => with_text(sum, text),
        None => sum,
    }
}

/// Those of a line's texts.
fn line_bytes<A: Allocator>(line: &Line<A>) -> u64
    ensures { result ≡ line_bytes line.now % 2 ^ 64 }
{
    let mut bytes = with_part(0, line.tags());
    bytes = with_part(bytes, line.source());
    bytes = with_text(bytes, line.command());
    for param in line.params() {
        bytes = with_text(bytes, param);
    }
    bytes
}

/// Those of all kept lines.
pub(crate) fn kept_bytes<A: Allocator>(kept: &[Kept<A>]) -> u64
    ensures { result ≡ arrivals_bytes (tape_of kept.now) % 2 ^ 64 }
{
    let mut bytes = 0;
    for k in kept {
        bytes = more(bytes, more(LINE, line_bytes(&k.line)));
    }
    bytes
}

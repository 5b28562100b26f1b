//! What is owed for what was said, by plain numbers.

ghost use Rattle.std.specs.Prelude.{◌≡◌, ◌+◌, ◌-◌, ◌*◌, ◌^◌, ◌≤◌, ◌<◌, min, max};
ghost use Rattle.shell.specs.Pacing.{room_for};

/// Into how many parts a byte is counted: with a pace in bytes a second, each microsecond frees
/// one of these for each byte of the pace.
const PARTS: u64 = 1_000_000;

/// What was said and is not yet made up for, in millionths of a byte.
#[derive(Clone, Copy, Debug, PartialEq, Eq)]
pub struct Debt {
    /// The parts.
    pub parts: u64,
}

impl Debt {
    /// What is still owed after this many microseconds, at this many bytes a second.
    pub fn made_up(self, micros: u64, rate: u32) -> Debt
        ensures { result.parts ≡ self.parts - micros * rate }
    {
        let freed = micros.saturating_mul(u64::from(rate));
        Debt {
            parts: self.parts.saturating_sub(freed),
        }
    }

    /// What is owed once this many bytes more were said; at most what the number can hold.
    pub fn with(self, bytes: u32) -> Debt
        ensures { result.parts ≡ min (self.parts + bytes * 1000000) (2 ^ 64 - 1) }
    {
        Debt {
            parts: self.parts.saturating_add(u64::from(bytes) * PARTS),
        }
    }

    /// What is owed if this many bytes are not said after all.
    pub fn without(self, bytes: u32) -> Debt
        ensures { result.parts ≡ self.parts - bytes * 1000000 }
    {
        Debt {
            parts: self.parts.saturating_sub(u64::from(bytes) * PARTS),
        }
    }

    /// How many microseconds somebody waits who now says this many bytes, if `burst` may be said at
    /// once and then `rate` a second (0 counts as 1): the fewest after which there is room for
    /// them. More bytes than may be said at once wait until nothing is owed.
    pub fn wait(self, burst: u32, rate: u32, bytes: u32) -> u64
        ensures enough { self.parts ≤ room_for burst bytes + result * max rate 1 }
        ensures least { 0 < result → room_for burst bytes + (result - 1) * max rate 1 < self.parts }
    {
        let room = u64::from(burst - bytes.min(burst)) * PARTS;
        self.parts
            .saturating_sub(room)
            .div_ceil(u64::from(rate.max(1)))
    }
}

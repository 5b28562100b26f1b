//! How often a worker does something.

ghost use Rattle.std.specs.Prelude.{◌≡◌};
ghost use Rattle.hub_threads.specs.Turns.{are_over};

/// How many turns a worker makes.
#[derive(Clone, Copy, Debug, PartialEq, Eq)]
pub enum Turns {
    /// There is no limit, so between two turns it may sleep until it is woken.
    Endless,
    /// At most this many.
    AtMost(u64),
}

impl Turns {
    /// Whether none is left after this many.
    pub fn are_over(self, made: u64) -> bool
        ensures { result ≡ are_over self made }
    {
        match self {
            Turns::Endless => false,
            Turns::AtMost(limit) => made >= limit,
        }
    }
}

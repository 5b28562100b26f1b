//! Sets of ranks.

ghost use Rattle.std.specs.Prelude.{◌≡◌, ◌<◌, ◌≤◌, ◌||◌, ◌&&◌, ◌==◌, not, [], ◌↔◌, ℕ, IsNone};
ghost use Rattle.std.specs.Prelude.{IfSome, IsTrue, MatchOption, All, ◌∷◌, slice_get};
ghost use Rattle.std.specs.Iterator.{YieldsFirst, item_count};
ghost use Rattle.irc_support.specs.Ranks.{ranks_that, has_rank};

use std::marker::Model;

/// A set of ranks, from 0, the highest, to 15. A rank is what a letter of `PREFIX` gives to a
/// member of a channel, as `o` to an operator.
#[tactic(auto, using(crate::proofs::RankSets::bits_back))]
#[derive(Clone, Copy, Debug, PartialEq, Eq)]
pub struct Ranks {
    // bit r represents rank r
    bits: u16,
}

impl Model for Ranks {
    ghost use Rattle.std.specs.Prelude.{List, ℕ, ◌<◌, ◌^◌};
    ghost use Rattle.irc_support.specs.RankBits.{ranks_at_bits, bits_of, bits_of-ranks_at_bits};

    ghost Value = { List ℕ };

    ghost view = { λ r. ranks_at_bits r.bits };

    ghost invariant = { λ r. r.bits < 2 ^ 16 };

    ghost inverse = { λ ranks. record { bits = bits_of ranks } };

    ghost inverse_ok = { λ r small i. record { bits = bits_of-ranks_at_bits r.bits small i } };
}

impl Ranks {
    /// No rank.
    #[tactic(auto, using(crate::proofs::RankSets::no_bits))]
    pub const fn none() -> Ranks
        ensures { result ≡ [] }
    {
        Ranks { bits: 0 }
    }

    /// Whether the rank is in the set; never from 16 on.
    #[tactic(auto, using(crate::proofs::RankSets::has_rank_bits, crate::proofs::RankSets::has_rank_past, crate::proofs::RankSets::set_of_bits))]
    pub fn has(self, rank: u8) -> bool
        ensures value { result ≡ has_rank self rank }
        ensures small { IsTrue result → rank < 16 }
        // A set is known by what it answers.
        ensures set { self ≡ ranks_that (has_rank self) }
    {
        rank < 16 && self.bits >> rank & 1 == 1
    }

    /// The highest rank of the set, which is the least number; `None` if the set is empty.
    #[tactic(auto, using(crate::proofs::RankSets::no_bits))]
    pub fn top(self) -> Option<u8>
        ensures value { result ≡ slice_get self 0 }
        ensures empty { IsNone result ↔ (self ≡ []) }
        ensures within { IfSome result (λ top. IsTrue (has_rank self top)) }
        ensures highest { IfSome result (λ top. All (λ rank. top ≤ rank) self) }
    {
        if self.bits == 0 {
            return None;
        }
        Some(self.bits.trailing_zeros() as u8)
    }

    /// The set with this rank, below 16, put in.
    #[tactic(auto, using(crate::proofs::RankSets::ranks_at_set))]
    pub fn with(self, rank: u8) -> Ranks
        requires { rank < 16 }
        ensures { result ≡ ranks_that (λ r. r == rank || has_rank self r) }
    {
        Ranks {
            bits: self.bits | 1 << rank,
        }
    }

    /// The set with this rank, below 16, taken out.
    #[tactic(auto, using(crate::proofs::RankSets::ranks_at_clear))]
    pub fn without(self, rank: u8) -> Ranks
        requires { rank < 16 }
        ensures { result ≡ ranks_that (λ r. not (r == rank) && has_rank self r) }
    {
        Ranks {
            bits: self.bits & !(1 << rank),
        }
    }

    /// The ranks of the set, one after another, highest first.
    pub fn iter(self) -> RankIter
        ensures { result ≡ self }
    {
        RankIter { left: self }
    }

    /// The highest rank, and the set without it; `None` if the set is empty.
    #[tactic(auto, using(crate::proofs::RankSets::no_bits))]
    fn split_top(self) -> Option<(u8, Ranks)>
        ensures { MatchOption result (self ≡ []) (λ s. self ≡ s.0 ∷ s.1) }
    {
        if self.bits == 0 {
            return None;
        }
        let top = self.bits.trailing_zeros() as u8;
        Some((top, self.without(top)))
    }
}

/// The ranks of a set that are left, highest first. See [`Ranks::iter`].
#[derive(Clone, Drop)]
pub struct RankIter {
    left: Ranks,
}

impl Model for RankIter {
    ghost use Rattle.std.specs.Prelude.{List, ℕ};

    ghost Value = { List ℕ };

    ghost view = { λ s. s.left };
}

impl Iterator for RankIter {
    type Item = u8;

    ghost next_gives = { YieldsFirst (λ left. left) };

    ghost remaining = { item_count (λ left. left) };

    fn next(&mut self) -> Option<u8> {
        let (top, left) = self.left.split_top()?;
        self.left = left;
        Some(top)
    }
}

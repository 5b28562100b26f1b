//! Laws of names, for the crates above.

ghost use Rattle.std.specs.Prelude.{◌≡◌, ◌↔◌, ℕ, List};
ghost use Rattle.std.specs.declared.cmp.Ordering.TheVariants.{Equal};
ghost use Rattle.std.specs.Ordering.{nat_cmp, on};
ghost use Rattle.std.specs.Cmp.{IsTotalOrder};
ghost use Rattle.std.specs.Cmp.Lexicographic.{slice_cmp};
ghost use Rattle.irc_names.specs.declared.case_mapping.CaseMapping.{CaseMapping};
ghost use Rattle.irc_names.specs.CaseMapping.{key_of, AreOneName};

/// To be one name, as `CaseMapping::same` tests it, is an equivalence; and a name's key is that
/// name too, so it is its own key.
pub fn names_are_equivalent()
    ensures reflexive { (m : CaseMapping) (a : List ℕ) → AreOneName m a a }
    ensures symmetric { (m : CaseMapping) (a b : List ℕ) → AreOneName m a b → AreOneName m b a }
    ensures transitive { (m : CaseMapping) (a b c : List ℕ) → AreOneName m a b → AreOneName m b c →
        AreOneName m a c }
    ensures key { (m : CaseMapping) (a : List ℕ) → AreOneName m (key_of m a) a }
{}

/// The order that `CaseMapping::order` answers is total, and two names tie in it exactly if they
/// are one name.
pub fn order_is_total()
    ensures total { (m : CaseMapping) → IsTotalOrder (on (key_of m) (slice_cmp nat_cmp)) }
    ensures ties { (m : CaseMapping) (a b : List ℕ) →
        (slice_cmp nat_cmp (key_of m a) (key_of m b) ≡ Equal) ↔ AreOneName m a b }
{}

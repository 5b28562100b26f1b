//! Figures of the program for one that watches it, in the text form of Prometheus (exposition format
//! 0.0.4).
#![tactic(auto)]

ghost use Rattle.std.specs.Prelude.{◌≡◌, ◌++◌, ◌∷◌, ℕ, List, Some};
ghost use Rattle.std.specs.List.{flat_map};
ghost use Rattle.figures.specs.Labels.{escaped, value_read};

mod labels;
mod text;

pub use text::{NetworkFigures, Totals, figures_text};

/// What a label's value is written as is read back as that value, and the reader goes on right
/// after the quotation mark that ends it, whatever bytes the value has.
#[tactic(auto, using(crate::proofs::LabelLemmas::read_back))]
pub fn a_value_stays_in_its_quotes()
    ensures { (value rest : List ℕ) →
        value_read (flat_map escaped value ++ 34 ∷ rest) ≡ Some (value, rest) }
{}

//! Numbers that stand for texts: names of networks, addresses and nicks, settings.

ghost use Rattle.std.specs.Prelude.{ℕ, ◌≡◌, List, None, Some, IfOk, OnErr};
ghost use Rattle.steward.specs.Numbers.{number_in};

use indexmap::IndexSet;
use std::alloc::{AllocError, Global};
use std::hash::{BuildHasherDefault, FoldHasher};

/// Texts by number. A text keeps its number for good, and no text is forgotten: each network that the
/// settings ever had has three.
#[derive(Drop)]
pub struct Names {
    texts: IndexSet<Vec<u8>, BuildHasherDefault<FoldHasher>>,
}

impl Names {
    /// No text has a number.
    pub fn new(alloc: Global) -> Names
        ensures { (text : List ℕ) → number_in text result.texts.keys ≡ None }
    {
        Names {
            texts: IndexSet::new(alloc),
        }
    }

    /// The number of a text; one that has none gets the next. If an allocation fails, nothing has
    /// changed.
    pub fn number_of(&mut self, alloc: Global, text: &[u8]) -> Result<u64, AllocError>
        ensures numbered { IfOk result (λ number.
            number_in text.now self.new.texts.keys ≡ Some number) }
        ensures stays { (other : List ℕ) → (number : ℕ) →
            number_in other self.old.texts.keys ≡ Some number →
            number_in other self.new.texts.keys ≡ Some number }
        ensures err { OnErr result (self.new.texts.keys ≡ self.old.texts.keys) }
    {
        if let Some(place) = self.texts.get_index_of(text) {
            return Ok(place as u64);
        }
        let text = Vec::from_slice(alloc, text)?;
        let Ok((place, _)) = self.texts.insert_full(text) else {
            return Err(AllocError);
        };
        Ok(place as u64)
    }

    /// Two texts have the same number only if they are the same.
    pub fn numbers_are_apart(&self)
        ensures { (a b : List ℕ) → (number : ℕ) → number_in a self.now.texts.keys ≡ Some number →
            number_in b self.now.texts.keys ≡ Some number → a ≡ b }
    {}
}

//! The names that come earlier in a list.

ghost use Rattle.std.specs.Prelude.{◌≡◌, ◌++◌, ◌∷◌, [], List, ℕ, not, IfOk, OnOk};
ghost use Rattle.std.specs.List.{list_any};
ghost use Rattle.std.specs.Str.{bytes_eq};
ghost use Rattle.bnc_config.specs.Names.{AreNames};
ghost use Rattle.bnc_config.specs.Document.{Reads, twice_fault};

use crate::{ConfigFault, OutOfMemory, Text};
use std::alloc::Global;
use std::collections::HashMap;

/// The names that come earlier in a list, by which a name that comes again is found at once.
#[derive(Drop)]
pub(crate) struct Names<'t> {
    seen: HashMap<&'t str, ()>,
}

impl<'t> Names<'t> {
    /// No names.
    pub fn new(alloc: Global) -> Names<'t>
        ensures { AreNames result [] }
    {
        Names {
            seen: HashMap::new(alloc),
        }
    }

    /// Adds a name, and says whether it is new.
    pub fn add(&mut self, name: &'t str) -> Result<bool, OutOfMemory>
        ensures new { IfOk result (λ is_new. (earlier : List (List ℕ)) → AreNames self.old earlier
            → is_new ≡ not (list_any (bytes_eq name.now) earlier)) }
        ensures added { OnOk result ((earlier : List (List ℕ)) → AreNames self.old earlier
            → AreNames self.new (earlier ++ name.now ∷ [])) }
    {
        let earlier = self.seen.insert(name, ())?;
        Ok(earlier.is_none())
    }

    /// Adds a name that is to be new. One that comes earlier is a fault.
    pub fn add_new(&mut self, alloc: Global, name: &'t str) -> Result<(), ConfigFault>
        ensures read { (earlier : List (List ℕ)) → AreNames self.old earlier
            → Reads (λ none. none) result (twice_fault earlier name.now) tt }
        ensures added { OnOk result ((earlier : List (List ℕ)) → AreNames self.old earlier
            → AreNames self.new (earlier ++ name.now ∷ [])) }
    {
        if self.add(name)? {
            Ok(())
        } else {
            Err(ConfigFault::Twice(Text::copy(alloc, name)?))
        }
    }
}

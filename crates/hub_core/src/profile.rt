//! Which messages a hub keeps, and how it plays them back.

ghost use Rattle.std.specs.Prelude.{◌≡◌};
ghost use Rattle.hub_core.specs.States.{profile_of, whole_profile};

use history::Keeping;
use std::alloc::Global;
use welcome::Playing;

/// Which messages a hub keeps, and how it plays them back to a client that missed them.
#[derive(Drop)]
pub struct Profile {
    /// Which messages are kept. What is not kept takes no number.
    pub keeping: Keeping,
    /// How they are played back.
    pub playing: Playing,
}

impl Profile {
    /// All messages are kept, and played back as they came. It takes no memory.
    pub fn whole(alloc: Global) -> Profile
        ensures { profile_of result ≡ whole_profile }
    {
        Profile {
            keeping: Keeping::whole(alloc),
            playing: Playing::whole(),
        }
    }
}

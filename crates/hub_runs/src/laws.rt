//! What holds of all lists of events.

ghost use Rattle.std.specs.Prelude.{◌≡◌, ◌++◌, ◌∷◌, List, Vec, ℕ};
ghost use Rattle.std.specs.declared.alloc.Global.{Global};
ghost use Rattle.client_caps.specs.declared.moment.Moment.{Moment};
ghost use Rattle.hub_runs.specs.declared.event.Event.{Event};
ghost use Rattle.hub_runs.specs.declared.event.Event.TheVariants as on;
ghost use Rattle.hub_runs.specs.Replies.{Limits, deeds_of};

/// A piece of the network's bytes may as well come in two: what happened is the same. So is all that
/// `run` says by what happened: what each session and the network were sent, which messages are kept,
/// and what each name has seen.
#[tactic(auto, using(crate::proofs::Halves::two_halves))]
pub fn any_cutting()
    ensures { (limits : Limits) (before later : List Event) (whole left right : Vec ℕ Global)
        (moment : Moment) → whole.items ≡ left.items ++ right.items →
        deeds_of limits (before ++ on.Up whole moment ∷ later)
        ≡ deeds_of limits (before ++ on.Up left moment ∷ on.Up right moment ∷ later) }
{}

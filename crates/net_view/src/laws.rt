//! Laws of network views, for the crates above.

ghost use Rattle.std.specs.Prelude.{◌≡◌, ◌∷◌, ◌++◌, [], IsTrue, List, false};
ghost use Rattle.std.specs.List.{list_any};
ghost use Rattle.irc_line.specs.Line.{Parts, has_command};
ghost use Rattle.irc_support.specs.Text.{Text};
ghost use Rattle.net_view.specs.Arrival.{Arrival, Lost};
ghost use Rattle.net_view.specs.StateCommands.{is_state_command, other_commands};
ghost use Rattle.net_view.specs.StateLines.{is_state_item, is_state_line};
ghost use Rattle.net_view.specs.View.{view_of, empty_view, lost_view};
ghost use Rattle.net_view.specs.Step.{after};

/// A view is a state: whatever comes next, two transcripts that had one view have one view.
#[tactic(auto, using(crate::proofs::StepLaw::same_more))]
pub fn a_view_is_a_state()
    ensures { (items others more : List Arrival) → view_of items ≡ view_of others →
        view_of (items ++ more) ≡ view_of (others ++ more) }
{}

/// The view goes step by step: it begins empty, and the view after an item is a function of the
/// view before it and that item.
#[tactic(auto, using(crate::proofs::StepLaw::view_start, crate::proofs::StepLaw::view_step))]
pub fn views_go_by_steps()
    ensures start { view_of [] ≡ empty_view }
    ensures step { (items : List Arrival) (x : Arrival)
        → view_of (items ++ x ∷ []) ≡ after (view_of items) x }
{}

/// What is no state line changes nothing.
#[tactic(auto, using(crate::proofs::StepLaw::view_unchanged))]
pub fn only_state_items_count()
    ensures { (items : List Arrival) (x : Arrival) → is_state_item x ≡ false →
        view_of (items ++ x ∷ []) ≡ view_of items }
{}

/// Whether a line is a state line is read off any spelling of its command: it is if that is one
/// of the seventeen. So no message, no `PING`, `PONG`, `ERROR`, `CAP`, `BATCH` and `AUTHENTICATE`,
/// and none of the replies `002`, `003`, `004` and `366` is one.
#[tactic(auto, using(crate::proofs::Commands::is_state_by_name, crate::proofs::Commands::no_state_line))]
pub fn other_commands_tell_nothing()
    ensures named { (line : Parts) (name : Text) → IsTrue (has_command line name) →
        is_state_line line ≡ is_state_command name }
    ensures others { (line : Parts) → IsTrue (list_any (has_command line) other_commands) →
        is_state_line line ≡ false }
{}

/// A loss leaves own nick and settings, no channel and nobody known.
#[tactic(auto, using(crate::proofs::Emptied::view_lost))]
pub fn a_loss_empties_the_view()
    ensures { (items : List Arrival) → view_of (items ++ Lost ∷ []) ≡ lost_view (view_of items) }
{}

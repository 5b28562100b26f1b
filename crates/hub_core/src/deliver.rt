//! How packets reach sessions.

ghost use Rattle.std.specs.Prelude.{◌≡◌, ◌+◌, None, Option, List, IfOk, map, length};
ghost use Rattle.std.specs.List.{AllByRecursion};
ghost use Rattle.irc_line.specs.Line.{Parts};
ghost use Rattle.hub_core.specs.Given.{Delivered};
ghost use Rattle.hub_core.specs.Insides.{state_of};
ghost use Rattle.hub_core.specs.States.{SessionState};

use crate::session::Session;
use hub_ends::Outlet;

/// Sends each session what is to be sent to it. A session whose outlet has no room for it is cut:
/// it is removed, and its outlet is closed and dropped. Answers how many were cut.
pub fn deliver<O: Outlet>(sessions: &mut Vec<Session<O>>) -> usize
    ensures all { (give : SessionState → Option (List Parts)) →
        AllByRecursion (λ s. s.coming ≡ give (state_of O.state s)) sessions.old.items →
        Delivered O.alone give (map (state_of O.state) sessions.old.items)
        (map (state_of O.state) sessions.new.items) }
    ensures done { AllByRecursion (λ s. s.coming ≡ None) sessions.new.items }
    ensures count { result + length sessions.new.items ≡ length sessions.old.items }
{
    let mut cut = 0;
    let mut place = sessions.len();
    while place > 0 {
        place -= 1;
        if !sessions[place].send_coming() {
            let mut gone = sessions.remove(place);
            gone.outlet.close(gone.id);
            cut += 1;
        }
    }
    cut
}

//! A session that goes.

ghost use Rattle.std.specs.Prelude.{◌≡◌, IfOk, OnErr, option_map};
ghost use Rattle.hub_core.specs.Attaching.{Detaches, Goes, Lacks, Leaves, left_by, mark_at, marked};
ghost use Rattle.hub_core.specs.Attaching.{reached};

use crate::attach::NoSession;
use crate::hub::Hub;
use crate::session::{Session, place_of};
use history::Marks;
use hub_ends::{Inlet, Outlet, SessionId};
use net_view::NetworkView;

/// What the client of a session that goes has surely seen.
#[derive(Clone, Copy, Debug, PartialEq, Eq)]
pub enum Seen {
    /// All messages up to now.
    All,
    /// Those up to the message of this number, if one is known.
    UpTo(Option<u64>),
}

/// The number up to which a client has seen the messages whose name has this mark, if any, and which
/// has seen those up to another number: the largest of both, at most the last number.
fn reached(mark: Option<u64>, number: u64, last: u64) -> u64
    ensures { result ≡ reached mark number last }
{
    match mark {
        Some(mark) => mark.max(number).min(last),
        None => number.min(last),
    }
}

/// The mark that a session leaves to its client's name, by the mark of that name and the number of
/// the last message. `None` if the name keeps the mark that it has.
fn left_by(seen: Seen, last: Option<u64>, mark: Option<u64>) -> Option<u64>
    ensures { result ≡ left_by seen last mark }
{
    match (seen, last) {
        (Seen::All, last) => last,
        (Seen::UpTo(Some(number)), Some(last)) => Some(reached(mark, number, last)),
        (Seen::UpTo(Some(_)), None) | (Seen::UpTo(None), _) => None,
    }
}

/// The mark of a client's name, if it has one.
fn mark_at(marks: &Marks, name: &Option<Vec<u8>>) -> Option<u64>
    ensures { result ≡ mark_at (option_map (λ n. n.items) name.now) marks.now }
{
    match name {
        Some(name) => marks.mark(name),
        None => None,
    }
}

/// Gives a client's name, if there is one, a mark, if there is one.
fn set_mark(marks: &mut Marks, name: &Option<Vec<u8>>, mark: Option<u64>)
    ensures { marks.new ≡ marked (option_map (λ n. n.items) name.now) mark marks.old }
{
    match (name, mark) {
        (Some(name), Some(mark)) => marks.set_mark(name, mark),
        (Some(_), None) | (None, _) => {}
    }
}

impl<V: NetworkView + Drop, I: Inlet, O: Outlet> Hub<V, I, O> {
    /// Ends a session; its client has seen this. Its outlet is handed back closed with its number.
    fn let_go(&mut self, id: SessionId, seen: Seen) -> Result<O, NoSession>
        ensures ok { IfOk result (λ o.
            Goes seen self.old id (O.state o) (O.told o) self.new) }
        ensures err { OnErr result ((self.new ≡ self.old) × Lacks id self.old.sessions) }
    {
        let Some(place) = place_of(&self.sessions, id) else {
            return Err(NoSession);
        };
        let mut gone = self.sessions.remove(place);
        gone.outlet.close(id);
        let before = mark_at(&self.marks, &gone.name);
        let mark = left_by(seen, self.history.last_number(), before);
        set_mark(&mut self.marks, &gone.name, mark);
        let Session {
            outlet,
            id: _,
            name: _,
            caps: _,
            coming: _,
        } = gone;
        Ok(outlet)
    }

    /// Ends a session: its client's name has seen all messages up to now, and its outlet is handed
    /// closed with its number. `NoSession` if no session has the number; then nothing has
    /// changed.
    pub fn detach(&mut self, id: SessionId) -> Result<O, NoSession>
        ensures ok { IfOk result (λ o.
            Detaches self.old id (O.state o) (O.told o) self.new) }
        ensures err { OnErr result ((self.new ≡ self.old) × Lacks id self.old.sessions) }
    {
        self.let_go(id, Seen::All)
    }

    /// Ends a session whose client vanished: as `detach`, except that its client's name has surely
    /// seen the messages up to this number, and maybe no more. Its mark becomes the largest of that
    /// number and the mark that it has, at most the number of the last message. Without a number, or
    /// if no message is kept, the name keeps its mark, or stays without one.
    pub fn leave(&mut self, id: SessionId, number: Option<u64>) -> Result<O, NoSession>
        ensures ok { IfOk result (λ o.
            Leaves number self.old id (O.state o) (O.told o) self.new) }
        ensures err { OnErr result ((self.new ≡ self.old) × Lacks id self.old.sessions) }
    {
        self.let_go(id, Seen::UpTo(number))
    }
}

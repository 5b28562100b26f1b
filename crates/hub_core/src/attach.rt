//! Sessions that come and go.

ghost use Rattle.std.specs.Prelude.{◌≡◌, ◌&&◌, ◌⊎◌, ◌<◌, ◌≤◌, [], None, Some, true, not, nat_le};
ghost use Rattle.std.specs.Prelude.{IfOk, IfErr, OnErr, if◌then◌else◌};
ghost use Rattle.std.specs.Prelude.{false, OnOk, option_map};
ghost use Rattle.std.specs.FinMap as map;
ghost use Rattle.std.specs.Option.{option_and_then};
ghost use Rattle.std.specs.Vec.{vec_len, vec_capacity};
ghost use Rattle.history.specs.Messages.{AreWrittenMessages, missed_by, number_after};
ghost use Rattle.history.specs.Marks.{mark_of};
ghost use Rattle.welcome.specs.Playing.{burst_by};
ghost use Rattle.hub_ends.specs.Outlets.{FindsRoom};
ghost use Rattle.hub_core.specs.Attaching.{Attaches, Refuses, names_full, refusal_of};
ghost use Rattle.hub_core.specs.Attaching.{is_new_name, missed, with_name, without_name};
ghost use Rattle.hub_core.specs.StateParts.{AreStateParts};
ghost use Rattle.hub_core.specs.States.{view_now};
ghost use Rattle.hub_core.specs.declared.attach.AttachError.TheVariants as refused;

use crate::hub::Hub;
use crate::outlets::put_into_room;
use crate::session::Session;
use crate::state_parts::{StatePart, state_part_for};
use client_caps::Caps;
use history::{AdmitError, History, Marks};
use hub_ends::{Inlet, Outlet, SessionId};
use net_view::{NetworkView, OutOfMemory};
use network_tables::copy_of;
use std::alloc::Global;
use thiserror::Error;
use welcome::{Packet, Playing, burst_from_by};

/// Why a session was not attached, in the order in which the reasons are looked for.
#[derive(Clone, Copy, Debug, PartialEq, Eq, Error)]
pub enum AttachError {
    /// The network has not said all that a client needs first: no `376`, `422` or JOIN came
    /// after its welcome.
    #[error("not ready")]
    NotReady,
    /// There are 64 sessions.
    #[error("too many sessions")]
    Full,
    /// The client's name is new, and 64 names are known.
    #[error("too many client names")]
    NamesFull,
    /// The session number 18446744073709551615 was given.
    #[error("numbers spent")]
    Spent,
    /// An allocation was refused.
    #[error("no memory")]
    OutOfMemory,
    /// The outlet has no room for the burst.
    #[error("session is full")]
    OutletFull,
}

impl From<OutOfMemory> for AttachError {
    ghost from_gives = { λ _ e. e ≡ refused.OutOfMemory };

    fn from(_e: OutOfMemory) -> AttachError {
        AttachError::OutOfMemory
    }
}

/// No session has the number.
#[derive(Clone, Copy, Debug, PartialEq, Eq, Error)]
#[error("no such session")]
pub struct NoSession;

/// How many sessions a network has at most.
const SESSION_LIMIT: usize = 64;

/// Whether there is no room for a client's name.
fn are_names_full(marks: &Marks, name: Option<&[u8]>) -> bool
    ensures { result ≡ names_full (option_map (λ n. n.now) name.entry) marks.now }
{
    match name {
        Some(name) => marks.is_full_for(name),
        None => false,
    }
}

/// Admits a client's name, if it has one; true for a new name.
fn admit(marks: &mut Marks, name: Option<&[u8]>) -> Result<bool, OutOfMemory>
    requires { names_full (option_map (λ n. n.now) name) marks.old ≡ false }
    ensures ok { IfOk result (λ is_new.
        (is_new ≡ is_new_name (option_map (λ n. n.now) name.entry) marks.old) ×
        (marks.new ≡ with_name (option_map (λ n. n.now) name.entry) marks.old)) }
    ensures err { OnErr result (marks.new ≡ marks.old) }
{
    let Some(name) = name else {
        return Ok(false);
    };
    match marks.admit(name) {
        Ok(is_new) => Ok(is_new),
        Err(AdmitError::OutOfMemory) => Err(OutOfMemory),
        Err(AdmitError::NamesFull) => unreachable!(),
    }
}

/// Takes a client's name away again, if it has one that was admitted just now.
fn withdraw(marks: &mut Marks, name: Option<&[u8]>, is_new: bool)
    ensures { marks.new ≡ (if is_new then
        without_name (option_map (λ n. n.now) name.entry) marks.old else marks.old) }
{
    match name {
        Some(name) if is_new => marks.withdraw(name),
        Some(_) | None => {}
    }
}

/// The mark of a client's name.
fn mark_of(marks: &Marks, name: Option<&[u8]>) -> Option<u64>
    ensures { result ≡ option_and_then (λ n. mark_of n marks.now)
        (option_map (λ n. n.now) name.entry) }
{
    marks.mark(name?)
}

/// The burst for a client with this mark, over the state part that is kept for its capabilities,
/// or is made now and kept.
fn burst_over<V: NetworkView>(
    alloc: Global,
    view: &V,
    history: &History,
    mark: Option<u64>,
    caps: Caps,
    playing: Playing,
    parts: &mut Vec<StatePart>,
) -> Result<Packet, OutOfMemory>
    requires ready { (V.view view.now).ready ≡ true }
    requires written { AreWrittenMessages history.now }
    requires parts { AreStateParts (V.view view.now) parts.old.items }
    ensures burst { IfOk result (λ packet.
        packet ≡ burst_by playing (V.view view.now) caps (missed_by mark history.now)) }
    ensures parts { AreStateParts (V.view view.now) parts.new.items }
{
    let missed = history.missed(alloc, mark)?;
    let state = state_part_for(alloc, view, caps, parts)?;
    burst_from_by(alloc, playing, &state, view, caps, &missed)
}

/// The burst for a client with this mark. If an allocation is refused, the state parts that are
/// kept are dropped, and it is tried once more.
fn burst_for<V: NetworkView>(
    alloc: Global,
    view: &V,
    history: &History,
    mark: Option<u64>,
    caps: Caps,
    playing: Playing,
    parts: &mut Vec<StatePart>,
) -> Result<Packet, OutOfMemory>
    requires ready { (V.view view.now).ready ≡ true }
    requires written { AreWrittenMessages history.now }
    requires parts { AreStateParts (V.view view.now) parts.old.items }
    ensures burst { IfOk result (λ packet.
        packet ≡ burst_by playing (V.view view.now) caps (missed_by mark history.now)) }
    ensures parts { AreStateParts (V.view view.now) parts.new.items }
{
    match burst_over(alloc, view, history, mark, caps, playing, parts) {
        Err(_) if !parts.is_empty() => {
            parts.clear();
            burst_over(alloc, view, history, mark, caps, playing, parts)
        }
        made => made,
    }
}

/// Makes room for one more session and for its client's name, and ensures that its outlet has
/// room for a packet. After a refusal all is as it was: a name that was admitted for this session
/// is withdrawn again. Only its outlet may have found more room.
fn make_room<O: Outlet>(
    sessions: &mut Vec<Session<O>>,
    marks: &mut Marks,
    name: Option<&[u8]>,
    outlet: &mut O,
) -> Result<(), AttachError>
    requires { names_full (option_map (λ n. n.now) name) marks.old ≡ false }
    ensures sessions { sessions.new.items ≡ sessions.old.items }
    ensures found { FindsRoom O.alone (O.state outlet.old) (O.state outlet.new) }
    ensures ok { OnOk result ((vec_len sessions.new < vec_capacity sessions.new) ×
        (marks.new ≡ with_name (option_map (λ n. n.now) name.entry) marks.old) ×
        (0 < (O.state outlet.new).free)) }
    ensures err { IfErr result (λ e. (marks.new ≡ marks.old) × ((e ≡ refused.OutOfMemory)
        ⊎ ((e ≡ refused.OutletFull) × ((O.state outlet.old).free ≡ 0)))) }
{
    match sessions.reserve(1) {
        Ok(()) => {}
        Err(_) => return Err(AttachError::OutOfMemory),
    }
    let is_new = admit(marks, name)?;
    if !outlet.room() {
        withdraw(marks, name, is_new);
        return Err(AttachError::OutletFull);
    }
    Ok(())
}

/// The number after this one; `None` after the last one.
fn number_after(number: u64) -> Option<u64>
    ensures { result ≡ number_after number }
{
    number.checked_add(1)
}

impl<V: NetworkView + Drop, I: Inlet, O: Outlet> Hub<V, I, O> {
    /// The number of a session to attach, or the first reason for which there can be none.
    fn admission(&self, name: Option<&[u8]>) -> Result<SessionId, AttachError>
        ensures ok { IfOk result (λ id. (self.now.next ≡ Some id) ×
            (refusal_of self.now (option_map (λ n. n.now) name.entry) ≡ None)) }
        ensures err { IfErr result (λ e.
            refusal_of self.now (option_map (λ n. n.now) name.entry) ≡ Some e) }
    {
        if !self.view.ready() {
            return Err(AttachError::NotReady);
        }
        if self.sessions.len() >= SESSION_LIMIT {
            return Err(AttachError::Full);
        }
        if are_names_full(&self.marks, name) {
            return Err(AttachError::NamesFull);
        }
        match self.next {
            Some(id) => Ok(id),
            None => Err(AttachError::Spent),
        }
    }

    /// The number of a session to attach, a copy of its client's name, and its burst; or why there
    /// can be none, as far as it is known before anything changes.
    fn parts_for(
        &mut self,
        caps: Caps,
        name: Option<&[u8]>,
    ) -> Result<(SessionId, Option<Vec<u8>>, Packet), AttachError>
        ensures ok { IfOk result (λ parts. (self.old.next ≡ Some parts.0) ×
            (refusal_of self.old (option_map (λ n. n.now) name.entry) ≡ None) ×
            (option_map (λ c. c.items) parts.1 ≡ option_map (λ n. n.now) name.entry) ×
            (parts.2 ≡ burst_by self.old.profile.playing (view_now self.old) caps
            (missed self.old (option_map (λ n. n.now) name.entry)))) }
        ensures refused { IfErr result (λ e. (refusal_of self.old
            (option_map (λ n. n.now) name.entry) ≡ Some e) ⊎ ((refusal_of self.old
            (option_map (λ n. n.now) name.entry) ≡ None) × (e ≡ refused.OutOfMemory))) }
        ensures same { self.new ≡ self.old }
    {
        let id = self.admission(name)?;
        let mark = mark_of(&self.marks, name);
        let own_name = copy_of(self.alloc, name)?;
        let (view, history, playing) = (&self.view, &self.history, self.profile.playing);
        let burst = burst_for(
            self.alloc,
            view,
            history,
            mark,
            caps,
            playing,
            &mut self.parts,
        )?;
        Ok((id, own_name, burst))
    }

    /// Attaches a session of these capabilities, of a client with this name or none, to an outlet
    /// that was sent nothing: the outlet is sent the burst, of the view and of the messages that
    /// the name missed. Answers its number.
    ///
    /// After a refusal nothing has changed, and the outlet is handed back. The reasons come in the
    /// order of [`AttachError`]; `OutOfMemory` if an allocation was refused. So the name
    /// is admitted before the outlet is asked for room, and withdrawn again if there is none.
    pub fn attach(
        &mut self,
        caps: Caps,
        name: Option<&[u8]>,
        outlet: O,
    ) -> Result<SessionId, (AttachError, O)>
        requires { ((O.state outlet).sent ≡ []) × ((O.state outlet).closed ≡ None) }
        ensures ok { IfOk result (λ id. Attaches O.alone self.old caps
            (option_map (λ n. n.now) name.entry) (O.state outlet) id self.new) }
        ensures refused { IfErr result (λ e. Refuses self.old (option_map (λ n. n.now) name.entry)
            (O.state outlet) e.0) }
        ensures kept { IfErr result (λ e. (self.new ≡ self.old) ×
            FindsRoom O.alone (O.state outlet) (O.state e.1)) }
    {
        let mut outlet = outlet;
        let (id, own_name, burst) = match self.parts_for(caps, name) {
            Ok(parts) => parts,
            Err(e) => return Err((e, outlet)),
        };
        match make_room(&mut self.sessions, &mut self.marks, name, &mut outlet) {
            Ok(()) => {}
            Err(e) => return Err((e, outlet)),
        }
        put_into_room(&mut outlet, burst);
        self.next = number_after(id);
        self.sessions.push_reserved(Session {
            id,
            name: own_name,
            caps,
            outlet,
            coming: None,
        });
        Ok(id)
    }
}

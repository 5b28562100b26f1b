//! What clients say.

ghost use Rattle.std.specs.Prelude.{◌≡◌, ◌∷◌, ◌<◌, [], true, IsSome, IfErr, IfOk};
ghost use Rattle.std.specs.List.{list_any};
ghost use Rattle.irc_line.specs.Line.{has_command};
ghost use Rattle.hub_core.specs.Online.{is_online};
ghost use Rattle.history.specs.Keeping.{kept_by};
ghost use Rattle.hub_core.specs.Saying.{Forwards, Says, Sent, is_spread, is_spread_by, meaning, meant_by};
ghost use Rattle.hub_core.specs.Saying.{own_line, sent_up};
ghost use Rattle.hub_core.specs.States.{heard};
ghost use Rattle.hub_core.specs.Saying.{unheard_commands};

use crate::deliver::deliver;
use crate::hub::{Hub, HubError};
use crate::image_table::images_of;
use crate::incoming::Incoming;
use crate::messages::keep;
use crate::outlets::put_into_room;
use crate::prepare::prepare_item;
use crate::respond::respond;
use crate::session::place_of;
use crate::wishes::wish_of;
use client_caps::{Asked, Moment, answers_tell_nothing};
use history::Keeping;
use hub_ends::{Inlet, Outlet, SessionId};
use irc_line::Line;
use net_view::{Item, NetworkView, OutOfMemory};
use std::alloc::Global;
use welcome::Packet;

/// What was done of a line that a client said.
#[derive(Clone, Copy, Debug, PartialEq, Eq)]
pub enum Said {
    /// No session has the number.
    NoSession,
    /// It is QUIT: the caller detaches the session.
    Quit,
    /// It was answered, or needs no answer.
    Answered,
    /// It was to be answered, and the session was cut, since its outlet was full.
    Cut,
    /// It is for the network, which has not taken us in, or the connection is lost.
    Offline,
    /// The outlet to the network is full.
    Busy,
    /// It went to the network, and a message to the other sessions.
    Forwarded,
}

/// What a client's line means for its hub.
#[derive(Clone, Copy, Debug, PartialEq, Eq)]
pub enum Meant {
    /// The session ends: QUIT.
    Quits,
    /// Nothing: PASS, USER, PONG, AUTHENTICATE, CAP END.
    Nothing,
    /// It is answered by us: PING, and CAP except END.
    Asks,
    /// It is for the network.
    Forwards,
}

/// Whether this is what only two neighbours say to each other, or of a login.
fn is_unheard(line: &Line) -> bool
    ensures { result ≡ list_any (has_command line.now) unheard_commands }
{
    line.is(b"PASS") || line.is(b"USER") || line.is(b"PONG") || line.is(b"AUTHENTICATE")
}

/// What a line means by what it asks of us.
fn meant_by(asked: Asked) -> Meant
    ensures { result ≡ meant_by asked }
{
    match asked {
        Asked::Nothing => Meant::Forwards,
        Asked::End => Meant::Nothing,
        Asked::Offered | Asked::Held | Asked::Change | Asked::Unknown | Asked::Ping => Meant::Asks,
    }
}

/// What a line means.
fn meaning(line: &Line) -> Meant
    ensures { result ≡ meaning line.now }
{
    if line.is(b"QUIT") {
        Meant::Quits
    } else if is_unheard(line) {
        Meant::Nothing
    } else {
        meant_by(Asked::of(line))
    }
}

/// The packet of a line as the network is sent it.
pub fn upward(alloc: Global, line: &Line) -> Result<Packet, OutOfMemory>
    ensures { IfOk result (λ packet. packet ≡ sent_up line.now ∷ []) }
{
    let bare = line.copy_as_in(alloc, None, line.command())?;
    Packet::one(alloc, &bare)
}

/// A line as from us.
fn from_us<V: NetworkView>(alloc: Global, view: &V, line: &Line) -> Result<Line, OutOfMemory>
    ensures { IfOk result (λ own. own ≡ own_line (V.view view.now) line.now) }
{
    view.comes_from_lines();
    line.copy_as_in(alloc, view.own(), line.command())
}

/// Whether a line is a message that is kept, and so one for the other sessions.
fn is_spread<V: NetworkView>(keeping: &Keeping, view: &V, line: &Line) -> bool
    ensures { result ≡ is_spread_by (kept_by keeping.now) (V.view view.now) line.now }
{
    keeping.is_kept_said(view.own(), view.support().mapping(), line)
}

impl<V: NetworkView + Drop, I: Inlet, O: Outlet> Hub<V, I, O> {
    /// Sends a message of ours to the network, and to the sessions but the speaker's.
    fn spread(
        &mut self,
        id: SessionId,
        packet: Packet,
        line: &Line,
        moment: Moment,
    ) -> Result<Said, HubError>
        requires online { is_online (heard self.old) ≡ true }
        requires packet { packet ≡ sent_up line.now ∷ [] }
        requires message { is_spread self.old line.now ≡ true }
        requires number { IsSome self.old.history.next }
        requires room { 0 < self.old.upstream.free }
        ensures ok { IfOk result (λ said. (said ≡ Said.Forwarded) ×
            Forwards O.alone self.old id line.now moment.0 self.new) }
        ensures err { IfErr result (λ e. (e ≡ HubError.OutOfMemory) × (self.new ≡ self.old)) }
    {
        let own = Item::Line(from_us(self.alloc, &self.view, line)?);
        let incoming = Incoming {
            alloc: self.alloc,
            view: &self.view,
            item: &own,
            moment,
        };
        let ring = self.profile.keeping.ring_said(line);
        let entry = prepare_item(
            &incoming,
            &mut self.sessions,
            &self.history,
            Some(id),
            true,
            ring,
            &mut self.made,
        )?;
        keep(&mut self.history, entry)?;
        put_into_room(&mut self.upstream, packet);
        self.images = self.images.saturating_add(images_of(&own, &self.made));
        deliver(&mut self.sessions);
        Ok(Said::Forwarded)
    }

    /// Sends a line to the network, and a message to the other sessions.
    fn forward(&mut self, id: SessionId, line: &Line, moment: Moment) -> Result<Said, HubError>
        ensures { Sent O.alone self.old id line.now moment.0 result self.new }
    {
        if !self.online {
            return Ok(Said::Offline);
        }
        let is_for_all = is_spread(&self.profile.keeping, &self.view, line);
        if is_for_all && self.history.next_number().is_none() {
            return Err(HubError::Spent);
        }
        if !self.upstream.room() {
            return Ok(Said::Busy);
        }
        let packet = match upward(self.alloc, line) {
            Ok(packet) => packet,
            Err(_) => return Err(HubError::OutOfMemory),
        };
        if is_for_all {
            return self.spread(id, packet, line, moment);
        }
        let wish = match wish_of(self.alloc, &self.view, &self.wishes, line) {
            Ok(wish) => wish,
            Err(_) => return Err(HubError::OutOfMemory),
        };
        put_into_room(&mut self.upstream, packet);
        self.wishes.say(wish);
        Ok(Said::Forwarded)
    }

    /// Does what a line that the session's client said asks for. PING and CAP are answered to the
    /// session, except CAP END; it is cut if its outlet has no room for the answer. A CAP REQ is
    /// granted if it can be taken; if the capabilities are others then, the catch-up comes
    /// after the answer, in one packet. What is for
    /// the network goes there without tags and source; a message, which is PRIVMSG or NOTICE with
    /// two parameters, goes to each other session too, as its client reads it, and is kept, in the
    /// ring of its target: if the profile keeps it.
    ///
    /// After `Quit` the caller detaches the session. After `NoSession`, `Offline` and `Busy`, and
    /// after an error, nothing has changed. `Spent` comes exactly if we are online and the line
    /// is a message to be kept for which there is no number, and before memory is asked for.
    /// `OutOfMemory` is reported if an allocation was refused.
    pub fn said(&mut self, id: SessionId, line: &Line, moment: Moment) -> Result<Said, HubError>
        ensures { Says O.alone self.old id line.now moment.0 result self.new }
    {
        let Some(place) = place_of(&self.sessions, id) else {
            return Ok(Said::NoSession);
        };
        match meaning(line) {
            Meant::Quits => Ok(Said::Quit),
            Meant::Nothing => Ok(Said::Answered),
            Meant::Asks => {
                answers_tell_nothing();
                let view = &self.view;
                Ok(respond(self.alloc, view, &mut self.sessions, place, line)?)
            }
            Meant::Forwards => self.forward(id, line, moment),
        }
    }
}

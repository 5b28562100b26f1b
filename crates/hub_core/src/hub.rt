//! The hub of one network.

ghost use Rattle.std.specs.Prelude.{ℕ, ◌≡◌, ◌↔◌, [], None, Some, false, IfOk, IsErrOf, map};
ghost use Rattle.std.specs.Prelude.{option_map};
ghost use Rattle.net_view.specs.View.{empty_view};
ghost use Rattle.history.specs.Messages.{AreKeptBefore, is_capacity};

use crate::image_table::Made;
use crate::lost::{LostChannel, LostChannels};
use crate::profile::Profile;
use crate::session::{Session, place_of};
use crate::state_parts::StatePart;
use crate::wishes::Wishes;
use client_caps::{Caps, Moment};
use history::{CapacityError, History, Marks};
use hub_ends::{Inlet, Outlet, SessionId};
use net_view::{Item, NetworkView, OutOfMemory};
use network_tables::Table;
use std::alloc::Global;
use std::marker::Model;
use thiserror::Error;

/// What a hub starts with.
#[derive(Clone, Copy, Debug, PartialEq, Eq)]
pub struct Setup {
    /// How many messages are kept: 1 to 10,000.
    pub history: usize,
    /// The number of the first message.
    pub first_number: u64,
    /// The number of the first session.
    pub first_session: SessionId,
}

/// What a hub goes on from, of before it began.
#[derive(Drop)]
pub struct Past {
    /// The messages that were kept.
    pub history: History,
    /// What each client name had seen of them.
    pub marks: Marks,
    /// The channels that we were on, with their keys.
    pub channels: Vec<LostChannel>,
}

/// What a pump did.
#[derive(Clone, Copy, Debug, PartialEq, Eq)]
pub enum Pumped {
    /// There was no item.
    Nothing,
    /// An item was taken.
    Taken {
        /// How many sessions were cut, since their outlets were full.
        cut: usize,
    },
}

/// Why a hub refused an item or a line.
#[derive(Clone, Copy, Debug, PartialEq, Eq, Error)]
pub enum HubError {
    /// It is a message, and the number 18446744073709551615 was given: there is none for it.
    #[error("numbers spent")]
    Spent,
    /// An allocation was refused.
    #[error("out of memory")]
    OutOfMemory,
}

impl From<OutOfMemory> for HubError {
    ghost use Rattle.hub_core.specs.declared.hub.HubError.TheVariants as fault;

    ghost from_gives = { λ _ e. e ≡ fault.OutOfMemory };

    fn from(_e: OutOfMemory) -> HubError {
        HubError::OutOfMemory
    }
}

/// The hub of one network: what comes from the network goes to each session as its client reads
/// it, and what clients say goes to the network.
///
/// A hub waits for nobody. Its inlet and its outlets are handed in, so it runs over memory or
/// between threads.
#[derive(Drop)]
pub struct Hub<V: NetworkView + Drop, I: Inlet, O: Outlet> {
    pub(crate) alloc: Global,
    pub(crate) profile: Profile,
    pub(crate) view: V,
    pub(crate) inlet: I,
    // what was taken and could not be dealt with
    pub(crate) held: Option<(Item, Moment)>,
    pub(crate) sessions: Vec<Session<O>>,
    // the number of the next session; `None` if the last one was given
    pub(crate) next: Option<SessionId>,
    pub(crate) upstream: O,
    pub(crate) online: bool,
    pub(crate) history: History,
    pub(crate) first: u64,
    pub(crate) marks: Marks,
    pub(crate) images: u64,
    // what was made for the sets of capabilities of the last item
    pub(crate) made: Vec<Made>,
    // the channels that losses took from us, to be joined again
    pub(crate) lost: LostChannels,
    // those of before it began that are still to be joined
    pub(crate) recalled: Vec<LostChannel>,
    // the state parts of the view, for the sets of capabilities that were asked for since it changed
    pub(crate) parts: Vec<StatePart>,
    // what clients asked for that outlives a connection
    pub(crate) wishes: Wishes,
}

impl<V: NetworkView + Drop, I: Inlet, O: Outlet> Model for Hub<V, I, O> {
    ghost use Rattle.hub_core.specs.States.{HubState};
    ghost use Rattle.hub_core.specs.Running.{IsRunning};
    ghost use Rattle.hub_core.specs.Insides.{hub_of};
    ghost use Rattle.hub_core.specs.Codes.{hub_code};
    ghost use Rattle.hub_core.specs.LostChannels.{joining};
    ghost use Rattle.hub_core.specs.StateParts.{AreStateParts};
    ghost use Rattle.network_tables.specs.Shown.{shown};

    ghost Value = { HubState };

    ghost coded = { hub_code };

    ghost view = { hub_of I.taken I.ahead O.state };

    ghost invariant = { λ h. IsRunning (hub_of I.taken I.ahead O.state h)
        (V.view h.view) h.online (shown joining h.lost.all) ×
        AreStateParts (V.view h.view) h.parts.items };
}

impl<V: NetworkView + Drop, I: Inlet, O: Outlet> Hub<V, I, O> {
    ghost use Rattle.hub_core.specs.States.{view_now, heard, profile_of, started, started_by};
    ghost use Rattle.hub_core.specs.States.{started_from, started_new};
    ghost use Rattle.hub_core.specs.Bounds.{IsBounded};
    ghost use Rattle.hub_core.specs.Online.{is_online};
    ghost use Rattle.hub_core.specs.Running.{EachAgrees, IsRunning};
    ghost use Rattle.hub_core.specs.LostChannels.{joining, lost_channels};
    ghost use Rattle.std.specs.FinMap as fin;
    ghost use Rattle.std.specs.Prelude.{length, slice_get};
    ghost use Rattle.std.specs.Option.{option_and_then};
    ghost use Rattle.hub_core.specs.Upkeep.{LendsOutlet, TellsCaps};

    /// A hub of these parts, without sessions, messages or client names. `BadCapacity` comes
    /// exactly if the setup's history is 0 or above 10,000, and before memory is asked for.
    /// After a refusal the parts are dropped.
    pub fn start(
        alloc: Global,
        view: V,
        inlet: I,
        upstream: O,
        setup: Setup,
    ) -> Result<Hub<V, I, O>, CapacityError>
        requires view { V.view view ≡ empty_view }
        requires inlet { I.taken inlet ≡ [] }
        requires upstream { (O.state upstream).sent ≡ [] }
        ensures ok { IfOk result (λ hub. hub ≡ started (I.ahead inlet)
            (O.state upstream) setup.history setup.first_number setup.first_session) }
        ensures bad { IsErrOf result CapacityError.BadCapacity
            ↔ (is_capacity setup.history ≡ false) }
    {
        Hub::start_by(alloc, view, inlet, upstream, setup, Profile::whole(alloc))
    }

    /// A hub of these parts, as `start` makes it, which keeps messages and plays them back by this
    /// profile. A hub that is started without one keeps each message.
    pub fn start_by(
        alloc: Global,
        view: V,
        inlet: I,
        upstream: O,
        setup: Setup,
        profile: Profile,
    ) -> Result<Hub<V, I, O>, CapacityError>
        requires view { V.view view ≡ empty_view }
        requires inlet { I.taken inlet ≡ [] }
        requires upstream { (O.state upstream).sent ≡ [] }
        ensures ok { IfOk result (λ hub. hub ≡ started_new (profile_of profile) (I.ahead inlet)
            (O.state upstream) setup.history setup.first_number setup.first_session) }
        ensures bad { IsErrOf result CapacityError.BadCapacity
            ↔ (is_capacity setup.history ≡ false) }
    {
        let history = History::new(alloc, setup.history, setup.first_number)?;
        let marks = Marks::new(alloc)?;
        let first = setup.first_number;
        Ok(Hub::begin(
            alloc,
            view,
            inlet,
            upstream,
            first,
            Past {
                history,
                marks,
                channels: Vec::new(alloc),
            },
            setup.first_session,
            profile,
        ))
    }

    /// A hub of these parts, without sessions, that goes on from what was before.
    fn begin(
        alloc: Global,
        view: V,
        inlet: I,
        upstream: O,
        first: u64,
        past: Past,
        first_session: SessionId,
        profile: Profile,
    ) -> Hub<V, I, O>
        requires view { V.view view ≡ empty_view }
        requires inlet { I.taken inlet ≡ [] }
        requires upstream { (O.state upstream).sent ≡ [] }
        requires kept { AreKeptBefore first past.history }
        ensures { result ≡ started_by (profile_of profile) (I.ahead inlet) (O.state upstream)
            past.history first past.marks (map joining past.channels.items) first_session }
    {
        let Past {
            history,
            marks,
            channels,
        } = past;
        Hub {
            alloc,
            profile,
            view,
            inlet,
            held: None,
            sessions: Vec::new(alloc),
            next: Some(first_session),
            upstream,
            online: false,
            history,
            first,
            marks,
            images: 0,
            made: Vec::new(alloc),
            lost: Table::new(alloc),
            recalled: channels,
            parts: Vec::new(alloc),
            wishes: Wishes::none(alloc),
        }
    }

    /// A hub of these parts, without sessions, that goes on from the messages that were kept before
    /// and what each client name had seen of them: the next message gets the number that is next
    /// there.
    pub fn start_from(
        alloc: Global,
        view: V,
        inlet: I,
        upstream: O,
        history: History,
        marks: Marks,
        first_session: SessionId,
    ) -> Hub<V, I, O>
        requires view { V.view view ≡ empty_view }
        requires inlet { I.taken inlet ≡ [] }
        requires upstream { (O.state upstream).sent ≡ [] }
        requires kept { (first : ℕ) × AreKeptBefore first history }
        ensures { (first : ℕ) → history.next ≡ Some first → result
            ≡ started_from (I.ahead inlet) (O.state upstream) history first marks first_session }
    {
        let past = Past {
            history,
            marks,
            channels: Vec::new(alloc),
        };
        let profile = Profile::whole(alloc);
        Hub::start_again(alloc, view, inlet, upstream, past, first_session, profile)
    }

    /// A hub of these parts, without sessions, that goes on from what was before: as `start_from`,
    /// and the channels that we were on then are to be joined again, as those that a loss took. It
    /// keeps messages and plays them back by this profile; what was kept before stays.
    pub fn start_again(
        alloc: Global,
        view: V,
        inlet: I,
        upstream: O,
        past: Past,
        first_session: SessionId,
        profile: Profile,
    ) -> Hub<V, I, O>
        requires view { V.view view ≡ empty_view }
        requires inlet { I.taken inlet ≡ [] }
        requires upstream { (O.state upstream).sent ≡ [] }
        requires kept { (first : ℕ) × AreKeptBefore first past.history }
        ensures { (first : ℕ) → past.history.next ≡ Some first → result
            ≡ started_by (profile_of profile) (I.ahead inlet) (O.state upstream) past.history first
            past.marks (map joining past.channels.items) first_session }
    {
        match past.history.next_number() {
            Some(first) => {
                Hub::begin(
                    alloc,
                    view,
                    inlet,
                    upstream,
                    first,
                    past,
                    first_session,
                    profile,
                )
            }
            None => unreachable!(),
        }
    }

    /// The view of the items taken, except a held one.
    pub fn view(&self) -> &V
        ensures { V.view result.now ≡ view_now self.now }
    {
        &self.view
    }

    /// Whether the network has taken us in and the connection was not lost since.
    pub fn is_online(&self) -> bool
        ensures { result ≡ is_online (heard self.now) }
    {
        self.online
    }

    /// Says what holds of every hub between calls. It does nothing.
    pub fn is_running(&self)
        ensures running { IsRunning self.now (view_now self.now) (is_online (heard self.now))
            (lost_channels (heard self.now)) }
        ensures agree { EachAgrees (view_now self.now) self.now.sessions }
        ensures bounded { IsBounded self.now }
    {
        let _names = self.marks.count();
        let _targets = self.history.target_count();
        let _persons = self.history.person_count();
        self.history.can_come_again();
    }

    /// The outlet to the network.
    pub fn upstream_outlet(&self) -> &O
        ensures { O.state result.now ≡ self.now.upstream }
    {
        &self.upstream
    }

    /// The outlet of a session; `None` exactly if no session has the number.
    pub fn outlet(&self, id: SessionId) -> Option<&O>
        ensures { LendsOutlet self.now id
            (option_map (λ o. O.state o.now) result) }
    {
        let Some(place) = place_of(&self.sessions, id) else {
            return None;
        };
        Some(&self.sessions[place].outlet)
    }

    /// The capabilities that the client of a session holds now; `None` exactly if no session has
    /// the number.
    pub fn caps(&self, id: SessionId) -> Option<Caps>
        ensures { TellsCaps self.now id result }
    {
        let Some(place) = place_of(&self.sessions, id) else {
            return None;
        };
        Some(self.sessions[place].caps)
    }

    /// The number of the session at place `i`, in the order in which they attached, and the name of
    /// its client, if it gave one; `None` from the number of sessions on.
    pub fn session_at(&self, i: usize) -> Option<(SessionId, Option<&[u8]>)>
        ensures number { option_map (λ s. s.0) result
            ≡ option_map (λ s. s.id) (slice_get self.now.sessions i) }
        ensures name { option_and_then (λ s. option_map (λ n. n.now) s.1) result
            ≡ option_and_then (λ s. s.name) (slice_get self.now.sessions i) }
    {
        match self.sessions.get(i) {
            Some(session) => Some((session.id, session.name.as_deref())),
            None => None,
        }
    }

    /// The messages that are kept, with their numbers.
    pub fn history(&self) -> &History
        ensures { result.now ≡ self.now.history }
    {
        &self.history
    }

    /// What each client name has seen.
    pub fn marks(&self) -> &Marks
        ensures { result.now ≡ self.now.marks }
    {
        &self.marks
    }

    /// How many channels are to be joined again: those that we were on when a connection was lost,
    /// without those that we have joined or left since then.
    pub fn lost_channel_count(&self) -> usize
        ensures { result ≡ length (fin.entries (lost_channels (heard self.now))) }
    {
        self.lost.len()
    }

    /// The channel to be joined again at place `i`, in the order of the keys of their names, with
    /// its own key as it was at the loss; `None` from `lost_channel_count` on.
    pub fn lost_channel_at(&self, i: usize) -> Option<&LostChannel>
        ensures { option_map (λ channel. joining channel.now) result
            ≡ option_map (λ e. e.1) (slice_get (fin.entries (lost_channels (heard self.now))) i) }
    {
        match self.lost.at(i) {
            Some((_key, channel)) => Some(channel),
            None => None,
        }
    }

    /// The channels of before the hub began that are still to be joined, in the order in which it
    /// got them, each with its key: those that we have not joined or left since then.
    pub fn recalled_channels(&self) -> &[LostChannel]
        ensures { map joining result.now ≡ self.now.recalled }
    {
        &self.recalled
    }

    /// The text by which we are away: that of the last AWAY that was forwarded before a 306, unless
    /// a 305 came since. It outlives a loss, so that it can be said again (RFC 2812, section 4.1).
    pub fn away_text(&self) -> Option<&[u8]>
        ensures { option_map (λ text. text.now) result ≡ self.now.wishes.away.text }
    {
        self.wishes.away.text.as_deref()
    }

    /// Whether a client has asked for a nick, by a NICK that was forwarded, since the connection was
    /// lost last (RFC 2812, section 3.1.2).
    pub fn is_nick_chosen(&self) -> bool
        ensures { result ≡ self.now.wishes.nick }
    {
        self.wishes.nick
    }

    /// How many images were made: for each line pumped, and for each message forwarded, one for
    /// each different set of capabilities of the sessions that it was for. It stays at its greatest
    /// value once that is reached.
    pub fn images_made(&self) -> u64
        ensures { result ≡ self.now.images }
    {
        self.images
    }
}

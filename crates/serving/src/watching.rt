//! What the shell adds to a client's way from its login to the end of its session: who is let in,
//! late answers, last lines, the pace, and the log.

ghost use Rattle.std.specs.Prelude.{◌≡◌, IsSome};

use crate::claimed::Claimed;
use crate::client_input::{ClientInput, Others, unsaid};
use crate::connection::Farewell;
use crate::guest::{Guest, LastLine, Turn};
use crate::judging::{Judged, TurnedAway};
use crate::leaving::seen_by;
use crate::session_event::SessionEvent;
use crate::station::Station;
use client_caps::Caps;
use hub_core::{AttachError, Seen};
use hub_ends::SessionId;
use hub_threads::{Ended, Network};
use quick_view::QuickView;
use sessions::{Claim, Leave, LoginFault, OutOfMemory, Refusal, Served, Watcher};
use shell::Count;
use std::io::{Read, Write};
use std::rt::Clock;
use std::sync::atomic::{AtomicBool, Ordering};
use std::sync::{Arc, Wait};

/// Why a login ended whose seat another took.
const GAVE_WAY: &str = "gave way, too many connections";

/// What a client is sent whose time for a login is up, and that sent no PASS.
const SEND_PASS: &[u8] = b"ERROR :send PASS user@client/network:password\r\n";

/// What a client is sent whose login was complete only after the service had begun to end.
const STOPS: &[u8] = b"ERROR :bnc stops\r\n";

/// Why a login ended before it was complete.
fn cause_of_login(fault: LoginFault) -> &'static str {
    match fault {
        LoginFault::OutOfMemory => "out of memory",
        LoginFault::Read => "gone, or too late",
        LoginFault::Write => "cannot write",
        LoginFault::TooLong => "line too long",
    }
}

/// Why a session ended.
fn cause_of_leave(leave: Leave) -> &'static str {
    match leave {
        Leave::Quit => "quit",
        Leave::Cut => "cut, it took too little",
        Leave::EndOfInput => "gone",
        Leave::ReadFault => "cannot read, or gone before its last lines",
        Leave::TooLong => "line too long",
        Leave::OutOfMemory => "out of memory",
    }
}

/// Whether what was written to a client ends with a whole line.
fn is_whole<W: Write>(served: &Result<Served<W>, OutOfMemory>) -> bool {
    match served {
        Ok(Served::Ended(ended)) => ended.written.is_ok(),
        Ok(Served::Cut) => false,
        Ok(Served::NoLogin | Served::Refused(_)) | Err(_) => true,
    }
}

/// Watches one client.
#[derive(Drop)]
pub(crate) struct Watching<'a, R: Wait + Clock + Copy + Drop> {
    guest: Guest<'a, R>,
    // how many bytes were written to the client
    count: Count,
    // who the client claims to be
    claimed: Option<Claimed>,
    // why it is not served although its login is complete
    turned_away: Option<TurnedAway>,
    // why it has no session
    refusal: Option<Refusal>,
    // whose its last line is, once that was asked
    last: Option<LastLine>,
    // why its session ended
    why: Option<Leave>,
    session: Option<SessionId>,
    // whether its capabilities were changed, as what reads it asks
    changed: Option<Arc<AtomicBool>>,
}

impl<'a, R: Wait + Clock + Copy + Drop> Watching<'a, R> {
    /// Watches a client from its login on.
    pub(crate) fn start(guest: Guest<'a, R>, count: Count) -> Watching<'a, R> {
        Watching {
            guest,
            count,
            claimed: None,
            turned_away: None,
            refusal: None,
            last: None,
            why: None,
            session: None,
            changed: None,
        }
    }

    /// Writes a line of the log about this client.
    fn tell(&self, event: &SessionEvent) {
        match &self.claimed {
            Some(claimed) => self.guest.tell(Some(claimed.who()), event),
            None => self.guest.tell(None, event),
        }
    }

    /// Logs that its password was wrong, or that its user has no such network.
    fn tell_wrong(&self) {
        if let Some(claimed) = &self.claimed {
            self.guest
                .tell_wrong(claimed.who(), self.guest.decision.lacks_network());
        }
    }

    /// Who writes the last line. Unless this thread may write its own, nothing more can be written.
    fn last_line(&mut self) -> LastLine
        ensures { self.new.session ≡ self.old.session }
    {
        let last = match self.last {
            Some(last) => last,
            None => self.guest.last_line(),
        };
        self.last = Some(last);
        last
    }

    /// Notes who logs in by this claim, which was judged; answers why it is turned away, if it is.
    fn note(&mut self, claim: &Claim) -> Option<TurnedAway>
        ensures { self.new.session ≡ self.old.session }
    {
        let Ok(claimed) = Claimed::of(self.guest.alloc, claim) else {
            return Some(TurnedAway::NoMemory);
        };
        self.claimed = Some(claimed);
        match self.guest.decision.judged() {
            Some(Judged::TurnedAway(why)) => Some(*why),
            Some(Judged::Refused(_, _)) => {
                self.last = Some(LastLine::Own);
                None
            }
            _ => None,
        }
    }

    /// Sends a client its last line for whose burst there was no place in time, unless another line was
    /// ordered.
    fn refuse_burst(&mut self)
        ensures { self.new.session ≡ self.old.session }
    {
        if self.last_line() == LastLine::Own {
            let farewell = Farewell::TooMuch;
            let time = self.guest.shared.limits().stop;
            self.guest.connection.say_last("ERROR", farewell, time);
            self.last = Some(LastLine::Said(farewell));
        }
    }

    /// Waits until the client may attach: while channels are joined, and for its turn if its burst may
    /// be long.
    fn wait_to_attach(&mut self, station: &Station) -> Result<(), AttachError>
        ensures { self.new.session ≡ self.old.session }
    {
        if self.guest.waits_for_channels(station) {
            match self.guest.waits_for_burst(station) {
                Turn::Now => return Ok(()),
                Turn::TooLate => {
                    self.refuse_burst();
                    return Err(AttachError::OutOfMemory);
                }
                Turn::Over => {}
            }
        }
        // it ends as a session
        self.why = Some(Leave::EndOfInput);
        Err(AttachError::NotReady)
    }

    /// The network that the client may enter, at the pace of its clients.
    fn enter(
        &mut self,
        reader: &mut ClientInput<'a, R>,
    ) -> Result<Arc<Network<QuickView>>, AttachError>
        ensures kept { ⟦<ClientInput<'a, R> as Read>⟧.remaining reader.new
            ≡ ⟦<ClientInput<'a, R> as Read>⟧.remaining reader.old }
        ensures session { self.new.session ≡ self.old.session }
    {
        let decision = self.guest.decision;
        let station = match decision.judged() {
            Some(Judged::LetIn(station)) => station,
            Some(Judged::Refused(_, error)) => return Err(*error),
            Some(Judged::Wrong(_) | Judged::TurnedAway(_)) | None => {
                return Err(AttachError::NotReady);
            }
        };
        self.wait_to_attach(station)?;
        let network = station.slot().network(self.guest.rt);
        let network = network.ok_or(AttachError::OutOfMemory)?;
        if self.guest.set_timeouts().is_err() {
            return Err(AttachError::OutOfMemory);
        }
        let Ok(changed) = Arc::new(self.guest.alloc, AtomicBool::new(false)) else {
            return Err(AttachError::OutOfMemory);
        };
        let others = Others {
            rt: self.guest.rt,
            network: Arc::try_clone(&network)?,
            changed: Arc::try_clone(&changed)?,
        };
        self.changed = Some(changed);
        self.guest.ear.enter(Arc::try_clone(&network)?);
        reader.begin_session(others, station.pace());
        self.count.begin();
        Ok(network)
    }

    /// Why a login ended to which no other thread wrote a last line: PASS is missing, or the service
    /// ends.
    fn cause_of_no_login(&self, input: &ClientInput<'a, R>) -> Option<&'static str> {
        if self.turned_away == Some(TurnedAway::Closed) {
            self.guest.say(STOPS);
            return Some(Farewell::Stops.text());
        }
        match self.refusal {
            None => Some("out of memory"),
            Some(Refusal::Login(LoginFault::Read)) if input.lacks_pass() => {
                self.guest.say(SEND_PASS);
                Some("too late, no PASS came")
            }
            Some(Refusal::Login(fault)) => Some(cause_of_login(fault)),
            Some(Refusal::Closed) => Some("closed"),
            Some(Refusal::Denied | Refusal::NotAttached(_)) => None,
        }
    }

    /// Logs why a login ended before it was complete, unless the log has that already.
    fn end_login(&self, input: &ClientInput<'a, R>, last: LastLine) {
        let is_logged = self.refusal == Some(Refusal::Denied);
        if is_logged || self.turned_away == Some(TurnedAway::Wrong) {
            return;
        }
        let cause = match last {
            LastLine::Said(farewell) => Some(farewell.text()),
            LastLine::Closed => Some(GAVE_WAY),
            LastLine::Own => self.cause_of_no_login(input),
        };
        if let Some(cause) = cause {
            self.guest.tell_no_login(cause);
        }
    }

    /// Why a session ended that its client left, or that ended with its network.
    fn cause_of_end(&self, last: LastLine) -> &'static str {
        match (last, self.why) {
            (LastLine::Said(farewell), Some(Leave::EndOfInput | Leave::ReadFault)) =>
                farewell.text(),
            (_, Some(why)) => cause_of_leave(why),
            (_, None) => "gone",
        }
    }

    /// Logs the lines that the client had sent and that were not said, unless it said QUIT.
    fn tell_unsaid(&self, input: &ClientInput<'a, R>) {
        if self.why == Some(Leave::Quit) {
            return;
        }
        let lines = unsaid(input, self.guest.connection);
        if lines > 0 {
            self.tell(&SessionEvent::Unsaid { lines });
        }
    }

    /// Logs how the session of a client ended that had waited for it.
    fn tell_waited(&self, last: LastLine) {
        self.tell(&SessionEvent::Ended {
            cause: self.cause_of_end(last),
            whole: true,
            bytes: self.count.so_far(),
        });
    }

    /// Logs why the client was not attached: for the line that it was sent, if that was ordered.
    fn tell_refused(&self, error: AttachError, last: LastLine) {
        self.guest.shared.metrics().note_refusal();
        match last {
            LastLine::Said(farewell) => self.tell(&SessionEvent::NoSession(farewell)),
            LastLine::Own | LastLine::Closed => self.tell(&SessionEvent::NotAttached(error)),
        }
    }

    /// Logs how a session ended.
    fn tell_ended<W: Write>(&self, ended: &Ended<W>, last: LastLine) {
        if self.why == Some(Leave::Cut) {
            self.guest.shared.metrics().note_cut();
        }
        self.tell(&SessionEvent::Ended {
            cause: self.cause_of_end(last),
            whole: ended.written.is_ok(),
            bytes: self.count.so_far(),
        });
    }

    /// Writes the client's last line, if one is to be written, and logs how it was served, after its
    /// writer has ended.
    pub(crate) fn finish<W: Write + Drop>(
        self,
        input: &ClientInput<'a, R>,
        served: &Result<Served<W>, OutOfMemory>,
    ) {
        let mut watching = self;
        watching.guest.end_burst();
        watching.guest.shared.journals().ring();
        if !is_whole(served) {
            // nothing is to be glued to half a line
            watching.guest.connection.hang_up();
        }
        let last = watching.last_line();
        match served {
            Ok(Served::NoLogin) => watching.end_login(input, last),
            Ok(Served::Refused(_)) if watching.why.is_some() => watching.tell_waited(last),
            Ok(Served::Refused(error)) => watching.tell_refused(*error, last),
            Ok(Served::Cut) => {
                let bytes = watching.count.so_far();
                watching.guest.shared.metrics().note_cut();
                watching.tell(&SessionEvent::Cut { bytes });
                watching.tell_unsaid(input);
            }
            Ok(Served::Ended(ended)) => {
                watching.tell_ended(ended, last);
                watching.tell_unsaid(input);
            }
            Err(_) if watching.guest.decision.judged().is_some() => watching.tell(
                &SessionEvent::NoMeans,
            ),
            Err(_) => watching.guest.tell_no_login("out of memory"),
        }
    }
}

impl<'a, R: Wait + Clock + Copy + Drop> Watcher<QuickView, Arc<Station>, ClientInput<'a, R>>
    for Watching<'a, R> {
    // why is noted
    ghost turns_away = { λ w _. IsSome w.turned_away };

    ghost session = { λ w. w.session };

    fn logged_in(&mut self, claim: &Claim) -> bool {
        self.turned_away = self.note(claim);
        if self.turned_away == Some(TurnedAway::Wrong) {
            self.tell_wrong();
        }
        self.turned_away.is_none()
    }

    fn let_in(
        &mut self,
        reader: &mut ClientInput<'a, R>,
        claim: &Claim,
        _network: &Arc<Station>,
    ) -> Result<Arc<Network<QuickView>>, AttachError> {
        self.tell(&SessionEvent::LoggedIn {
            peer: self.guest.peer,
            caps: claim.caps,
        });
        let entered = self.enter(reader);
        if entered.is_err() {
            // the reason is sent after this, if the last line is this thread's own
            let _ = self.last_line();
        }
        entered
    }

    fn refused(&mut self, refusal: Refusal) {
        self.refusal = Some(refusal);
        if let (Refusal::Denied, Some(Judged::Wrong(time))) = (
            refusal,
            self.guest.decision.judged(),
        ) {
            self.tell_wrong();
            self.guest.wait_until(*time);
        }
        if let Refusal::Denied | Refusal::NotAttached(_) = refusal {
            // the reason is sent after this, if the last line is this thread's own
            let _ = self.last_line();
        }
    }

    fn attached(&mut self, id: SessionId) {
        self.session = Some(id);
        self.guest.ear.attached(id);
        self.guest.note_burst();
        self.guest.shared.journals().ring();
    }

    fn caps_changed(&mut self, caps: Caps) {
        if let Some(changed) = &self.changed {
            changed.store(true, Ordering::SeqCst);
        }
        self.tell(&SessionEvent::CapsChanged { caps });
    }

    fn ended(&mut self, why: Leave) -> Seen {
        self.why = Some(why);
        seen_by(&self.guest, why)
    }
}

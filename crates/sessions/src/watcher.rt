//! Who watches how a client is served, and lends it its network.

ghost use Rattle.std.specs.Prelude.{ℕ, ◌≡◌, Option, Some, false};
ghost use Rattle.sessions.specs.Claims.{ClaimParts, parts_of};

use crate::attending::Leave;
use crate::claim::Claim;
use crate::fault::LoginFault;
use client_caps::Caps;
use hub_core::{AttachError, Seen};
use hub_ends::SessionId;
use hub_threads::Network;
use net_view::NetworkView;
use std::io::Read;
use std::sync::Arc;

/// Why a client has no session.
#[derive(Clone, Copy, Debug, PartialEq, Eq)]
pub enum Refusal {
    /// Its login failed.
    Login(LoginFault),
    /// Its login was closed.
    Closed,
    /// Its password is wrong, or it claims a network that is not served.
    Denied,
    /// It was not attached.
    NotAttached(AttachError),
}

/// Who watches how a client is served: a program's limits and log. `N` stands for a network that is
/// served, `I` is the client's reader. No lock is held during these calls.
///
/// What [`serve_by`](crate::serve_by) promises holds whatever a watcher answers: it can
/// turn a client away, and can't let one in.
pub trait Watcher<V: NetworkView + Drop, N, I: Read> {
    // It has turned away a client that claims this.
    ghost turns_away: { Self → ClaimParts → Type 0 };

    // The number of the session that its client got last, if any.
    ghost session: { Self → Option ℕ };

    /// The login is complete, and its claim was judged. If the answer is `false`, the client is not
    /// served and gets no answer, whether it is right or not.
    fn logged_in(&mut self, claim: &Claim) -> bool
        ensures turned { result ≡ false → turns_away self.new (parts_of claim.now) }
        ensures kept { session self.new ≡ session self.old };

    /// The client may attach to this network. Lends the network for the session, or says why there
    /// is none now; the client then gets that. From here on the reader reads for a session; it must
    /// not have read anything in this call.
    fn let_in(
        &mut self,
        reader: &mut I,
        claim: &Claim,
        network: &N,
    ) -> Result<Arc<Network<V>>, AttachError>
        ensures unread { I.remaining reader.new ≡ I.remaining reader.old }
        ensures kept { session self.new ≡ session self.old };

    /// The client gets no session. It hears why after this call returns, unless its login failed
    /// or was closed, or no thread could be started for its session.
    fn refused(&mut self, refusal: Refusal)
        ensures kept { session self.new ≡ session self.old };

    /// The client has a session with this number.
    fn attached(&mut self, id: SessionId)
        ensures { session self.new ≡ Some id };

    /// The client holds these capabilities now, and held others before.
    fn caps_changed(&mut self, caps: Caps)
        ensures kept { session self.new ≡ session self.old };

    /// The session ended, for this reason; its writer may still write. Answers what its client has
    /// seen: all messages, unless it ended by a fault.
    fn ended(&mut self, why: Leave) -> Seen
        ensures kept { session self.new ≡ session self.old };
}

/// A watcher that turns nobody away, and knows of its client only the number of its session. A
/// network that is served is one that threads share.
#[derive(Clone, Copy)]
pub struct Unwatched {
    session: Option<SessionId>,
}

impl Unwatched {
    /// A watcher of a client that has no session yet.
    pub fn new() -> Unwatched {
        Unwatched { session: None }
    }
}

impl<V: NetworkView + Drop, I: Read> Watcher<V, Arc<Network<V>>, I> for Unwatched {
    ghost turns_away = { λ _ _. ⊥ };

    ghost session = { λ w. w.session };

    fn logged_in(&mut self, _claim: &Claim) -> bool {
        true
    }

    fn let_in(
        &mut self,
        _reader: &mut I,
        _claim: &Claim,
        network: &Arc<Network<V>>,
    ) -> Result<Arc<Network<V>>, AttachError> {
        match Arc::try_clone(network) {
            Ok(network) => Ok(network),
            Err(_) => Err(AttachError::OutOfMemory),
        }
    }

    fn refused(&mut self, _refusal: Refusal) {}

    fn attached(&mut self, id: SessionId) {
        self.session = Some(id);
    }

    fn caps_changed(&mut self, _caps: Caps) {}

    fn ended(&mut self, _why: Leave) -> Seen {
        Seen::All
    }
}

//! A client name that is to be forgotten.

ghost use Rattle.std.specs.Prelude.{◌≡◌, ◌↔◌, IsErrOf, OnErr, OnOk, false, true};
ghost use Rattle.std.specs.List.{list_any};
ghost use Rattle.std.specs.FinMap as fin;
ghost use Rattle.hub_core.specs.Forgetting.{forgotten, has_name, is_in_use};
ghost use Rattle.hub_core.specs.Insides.{state_of};

use crate::hub::Hub;
use crate::session::Session;
use hub_ends::{Inlet, Outlet};
use net_view::NetworkView;
use thiserror::Error;

/// Why a client name was not forgotten.
#[derive(Clone, Copy, Debug, PartialEq, Eq, Error)]
pub enum ForgetFault {
    /// A session is of a client with this name.
    #[error("in use")]
    InUse,
    /// No client with this name has attached.
    #[error("not known")]
    Unknown,
}

/// Whether a session is of a client with this name.
fn has_name<O: Outlet>(session: &Session<O>, name: &[u8]) -> bool
    ensures { result ≡ has_name name.now (state_of O.state session.now) }
{
    match &session.name {
        Some(own) => own.as_slice() == name,
        None => false,
    }
}

/// Whether one of them is.
fn is_in_use<O: Outlet>(sessions: &Vec<Session<O>>, name: &[u8]) -> bool
    ensures { result
        ≡ list_any (λ s. has_name name.now (state_of O.state s)) sessions.now.items }
{
    sessions.iter().any(|session| has_name(session, name))
}

impl<V: NetworkView + Drop, I: Inlet, O: Outlet> Hub<V, I, O> {
    /// Forgets a client name, and what it has seen: the client that attaches by it next gets all
    /// messages that are kept. `InUse` exactly if a session is of a client with this name, else
    /// `Unknown` exactly if the name is not known. After a refusal nothing has changed.
    #[tactic(auto, using(crate::proofs::Each::any_of))]
    pub fn forget(&mut self, name: &[u8]) -> Result<(), ForgetFault>
        ensures ok { OnOk result (self.new ≡ forgotten name.now self.old) }
        ensures in_use { IsErrOf result ForgetFault.InUse
            ↔ (is_in_use name.now self.old.sessions ≡ true) }
        ensures unknown { IsErrOf result ForgetFault.Unknown
            ↔ ((is_in_use name.now self.old.sessions ≡ false) ×
            (fin.contains_key self.old.marks name.now ≡ false)) }
        ensures err { OnErr result (self.new ≡ self.old) }
    {
        if is_in_use(&self.sessions, name) {
            return Err(ForgetFault::InUse);
        }
        if !self.marks.knows(name) {
            return Err(ForgetFault::Unknown);
        }
        self.marks.forget(name);
        Ok(())
    }
}

//! What a client has done at the hub of its network.

ghost use Rattle.std.specs.Prelude.{◌≡◌, [], None, IfErr, IfOk, Result, option_map};
ghost use Rattle.hub_core.specs.Attaching.{Attaches, Refuses};
ghost use Rattle.hub_core.specs.Saying.{Says};
ghost use Rattle.hub_core.specs.declared.hub.HubError as error;
ghost use Rattle.hub_core.specs.declared.said.Said as said;
ghost use Rattle.sessions.specs.Claims.{parts_of};
ghost use Rattle.sessions.specs.Leaving.{LeavesBy, leave_by};

use crate::claim::Claim;
use client_caps::Moment;
use hub_core::{AttachError, Hub, HubError, Said};
use hub_ends::{Inlet, Outlet, SessionId};
use irc_line::Line;
use net_view::NetworkView;

/// Why a session ended.
#[derive(Clone, Copy, Debug, PartialEq, Eq)]
pub enum Leave {
    /// Its client said QUIT.
    Quit,
    /// The hub has the session no more: its outlet was full.
    Cut,
    /// The input ended.
    EndOfInput,
    /// A read failed, or there were 1,000,000,000 reads.
    ReadFault,
    /// More than 16,384 bytes came without LF.
    TooLong,
    /// An allocation was refused for what was read.
    OutOfMemory,
}

/// Attaches a client by its claim: with the capabilities that it holds and under the name that it
/// gave. The outlet was sent nothing.
pub fn attach_claim<V: NetworkView + Drop, I: Inlet, O: Outlet>(
    hub: &mut Hub<V, I, O>,
    claim: &Claim,
    outlet: O,
) -> Result<SessionId, (AttachError, O)>
    requires { ((O.state outlet).sent ≡ []) × ((O.state outlet).closed ≡ None) }
    ensures ok { IfOk result (λ id. Attaches O.alone hub.old (parts_of claim.now).caps
        (parts_of claim.now).client (O.state outlet) id hub.new) }
    ensures refused { IfErr result (λ e. Refuses hub.old (parts_of claim.now).client
        (O.state outlet) e.0) }
    ensures kept { IfErr result (λ e. hub.new ≡ hub.old) }
{
    hub.attach(claim.caps, claim.client.as_deref(), outlet)
}

/// Why a session ends by what was done about its line, if it does. What could not be done because
/// there was no room, memory, number or network is left out, and the session goes on.
fn leave_by(answer: Result<Said, HubError>) -> Option<Leave>
    ensures { result ≡ leave_by answer }
{
    match answer {
        Ok(Said::Quit) => Some(Leave::Quit),
        Ok(Said::NoSession | Said::Cut) => Some(Leave::Cut),
        Ok(Said::Answered | Said::Offline | Said::Busy | Said::Forwarded) => None,
        Err(HubError::Spent | HubError::OutOfMemory) => None,
    }
}

/// Says a line of a client to its hub, once; answers why the session ends, if it does.
pub fn say<V: NetworkView + Drop, I: Inlet, O: Outlet>(
    hub: &mut Hub<V, I, O>,
    id: SessionId,
    line: &Line,
    moment: Moment,
) -> Option<Leave>
    ensures said { (answer : Result said.Said error.HubError)
        × Says O.alone hub.old id line.now moment.0 answer hub.new × (result ≡ leave_by answer) }
    ensures quit { LeavesBy line.now result }
{
    leave_by(hub.said(id, line, moment))
}

//! The end of a session.

ghost use Rattle.std.specs.Prelude.{◌≡◌, ◌↔◌, ℕ, IfOk, IsOk, IsTrue, List, Option, Some, true};
ghost use Rattle.hub_threads.specs.Queues.{closed_in};
ghost use Rattle.hub_threads.specs.Rings.{items_of};
ghost use Rattle.hub_threads.specs.declared.queued.Queued.{Queued};
ghost use Rattle.hub_threads.specs.Writes.{IsOver, IsWhole, IsWritten, KeepsWritten};

use crate::network::{Network, RingHub};
use crate::outlet_end::OutletEnd;
use crate::outlet_ring::RingOutlet;
use crate::writer::Given;
use crate::writing::{WriteFault, Written};
use hub_core::{NoSession, Seen};
use hub_ends::SessionId;
use net_view::NetworkView;
use std::io::Write;
use std::sync::Wait;
use std::thread::{PromisedHandle, Threads};

/// What the writer of a session handed back, and whether the session's end was seen whole. Its type
/// keeps what was written of the packets that were taken.
#[derive(Drop)]
pub struct Ended<W: Write> {
    /// Whether all that the session's outlet was sent has been taken, and written if no write
    /// failed: the end was fresh, and took the closing item of this session.
    pub token: bool,
    /// The end that the packets were taken from.
    pub end: OutletEnd,
    /// What they were written to.
    pub out: W,
    /// Whether the packets that the writer took are all that the end ever took.
    pub fresh: bool,
    /// How many bytes were written, at most 18446744073709551615.
    pub written: Result<u64, WriteFault>,
    ghost kept: { ∥ KeepsWritten (items_of end) (W.contents out) fresh written ∥₁ },
}

/// Takes a session out of a hub; its client has seen this.
fn take_out<V: NetworkView + Drop>(
    hub: &mut RingHub<V>,
    id: SessionId,
    seen: Seen,
) -> Result<RingOutlet, NoSession> {
    match seen {
        Seen::All => hub.detach(id),
        Seen::UpTo(number) => hub.leave(id, number),
    }
}

/// Takes a session out of its hub, and drops its outlet once the lock is free.
fn detach<V: NetworkView + Drop, R: Wait>(
    rt: &R,
    network: &Network<V>,
    id: SessionId,
    seen: Seen,
) -> Result<(), NoSession> {
    let outlet = take_out(&mut network.lock(rt), id, seen)?;
    drop(outlet);
    Ok(())
}

/// What is known of a session's end: what its writer handed back, if the hub had the session.
fn told<W: Write + Drop>(
    detached: Result<(), NoSession>,
    id: SessionId,
    written: Written<W>,
) -> Result<Ended<W>, NoSession>
    ensures missing { IsOk result ↔ IsOk detached }
    ensures token { IfOk result (λ e. IsTrue e.token
        ↔ ((e.fresh ≡ true) × (closed_in (items_of e.end) ≡ Some id))) }
    ensures parts { IfOk result (λ e. (e.end ≡ written.end) × (e.out ≡ written.out)
        × (e.fresh ≡ written.fresh) × (e.written ≡ written.outcome)) }
    ensures whole { (was : List Queued) (began : Option (List ℕ)) → IsWritten was
        (items_of written.end) began (W.contents written.out) written.fresh written.outcome →
        IfOk result (λ e. e.token ≡ true → IfOk e.written
        (IsWhole id (items_of e.end) began (W.contents e.out))) }
{
    detached?;
    let Written {
        end,
        out,
        fresh,
        outcome,
    } = written;
    let token = fresh && end.closed() == Some(id);
    Ok(Ended {
        token,
        end,
        out,
        fresh,
        written: outcome,
    })
}

/// Ends a session; its client has seen this.
fn end_by<V: NetworkView + Drop, W: Write + Drop, R: Threads + Wait>(
    rt: &R,
    network: &Network<V>,
    id: SessionId,
    seen: Seen,
    writer: PromisedHandle<Written<W>, Given<W>>,
) -> Result<Ended<W>, NoSession>
    ensures token { IfOk result (λ e. IsTrue e.token
        ↔ ((e.fresh ≡ true) × (closed_in (items_of e.end) ≡ Some id))) }
    ensures written { IfOk result (λ e. IsWritten (items_of writer.promise.0.value) (items_of e.end)
        (W.contents writer.promise.1.value) (W.contents e.out) e.fresh e.written) }
    ensures over { IfOk result (λ e. IfOk e.written
        (λ count. IsOver e.end writer.promise.2.value)) }
    ensures whole { IfOk result (λ e. e.token ≡ true → IfOk e.written
        (IsWhole id (items_of e.end) (W.contents writer.promise.1.value) (W.contents e.out))) }
{
    let detached = detach(rt, network, id, seen);
    told(detached, id, writer.join(rt))
}

/// Ends a session: detaches it, drops its outlet, and waits for its writer, outside the lock.
/// `NoSession` if the hub had no session of this number when its lock was taken: it waits for the
/// writer then too, and drops what that hands back. The writer of a session that was cut ends by
/// itself, after at most 30 s.
pub fn end_session<V: NetworkView + Drop, W: Write + Drop, R: Threads + Wait>(
    rt: &R,
    network: &Network<V>,
    id: SessionId,
    writer: PromisedHandle<Written<W>, Given<W>>,
) -> Result<Ended<W>, NoSession>
    ensures token { IfOk result (λ e. IsTrue e.token
        ↔ ((e.fresh ≡ true) × (closed_in (items_of e.end) ≡ Some id))) }
    ensures written { IfOk result (λ e. IsWritten (items_of writer.promise.0.value) (items_of e.end)
        (W.contents writer.promise.1.value) (W.contents e.out) e.fresh e.written) }
    ensures over { IfOk result (λ e. IfOk e.written
        (λ count. IsOver e.end writer.promise.2.value)) }
    ensures whole { IfOk result (λ e. e.token ≡ true → IfOk e.written
        (IsWhole id (items_of e.end) (W.contents writer.promise.1.value) (W.contents e.out))) }
{
    end_by(rt, network, id, Seen::All, writer)
}

/// Ends a session whose client vanished, as `end_session` does, except that its name is left at the
/// last message that the client surely received: the one of this number, if it is known, as
/// `Hub::leave` has it.
pub fn end_session_at<V: NetworkView + Drop, W: Write + Drop, R: Threads + Wait>(
    rt: &R,
    network: &Network<V>,
    id: SessionId,
    number: Option<u64>,
    writer: PromisedHandle<Written<W>, Given<W>>,
) -> Result<Ended<W>, NoSession>
    ensures token { IfOk result (λ e. IsTrue e.token
        ↔ ((e.fresh ≡ true) × (closed_in (items_of e.end) ≡ Some id))) }
    ensures written { IfOk result (λ e. IsWritten (items_of writer.promise.0.value) (items_of e.end)
        (W.contents writer.promise.1.value) (W.contents e.out) e.fresh e.written) }
    ensures over { IfOk result (λ e. IfOk e.written
        (λ count. IsOver e.end writer.promise.2.value)) }
    ensures whole { IfOk result (λ e. e.token ≡ true → IfOk e.written
        (IsWhole id (items_of e.end) (W.contents writer.promise.1.value) (W.contents e.out))) }
{
    end_by(rt, network, id, Seen::UpTo(number), writer)
}

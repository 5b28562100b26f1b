//! A writer in a thread of its own.

ghost use Rattle.std.specs.Prelude.{◌≡◌, IfOk};

use crate::OutOfMemory;
use crate::gate::Gate;
use crate::outlet_end::{OutletEnd, Stopper};
use crate::stack::small_thread;
use crate::turns::Turns;
use crate::writing::{Written, write_out};
use std::alloc::AllocError;
use std::io::Write;
use std::snapshot::Snapshot;
use std::sync::Wait;
use std::thread::{Promise, PromisedHandle, Threads};

/// What a writer was given: its end, what it writes to, and after how many takes that give nothing
/// it ends. Its thread promises what `write_out` says of them. It has no bytes.
pub struct Given<W>(Snapshot<OutletEnd>, Snapshot<W>, Snapshot<Turns>);

impl<W> Drop for Given<W> {
    fn drop(self) {
        let Given(end, out, idle) = self;
        drop(end);
        drop(out);
        drop(idle);
    }
}

impl<W: Write> Promise<Written<W>> for Given<W> {
    ghost use Rattle.std.specs.Prelude.{IfOk};
    ghost use Rattle.hub_threads.specs.Rings.{items_of};
    ghost use Rattle.hub_threads.specs.Writes.{IsOver, IsWritten};

    ghost kept_by = { λ p r. IsWritten (items_of p.0.value) (items_of r.end)
        (W.contents p.1.value) (W.contents r.out) r.fresh r.outcome
        × IfOk r.outcome (λ count. IsOver r.end p.2.value) };
}

/// The thread of a writer.
pub type Writer<W> = PromisedHandle<Written<W>, Given<W>>;

/// Starts a thread that does `write_out`. `OutOfMemory` if no thread could be started; what was
/// handed in is dropped then.
pub fn spawn_writer<
    W: Write + Send + Drop + 'static,
    G: Gate + Send + Drop + 'static,
    R: Threads + Wait + Send + Copy + 'static,
>(
    rt: R,
    end: OutletEnd,
    out: W,
    gate: G,
    idle: Turns,
) -> Result<PromisedHandle<Written<W>, Given<W>>, OutOfMemory>
    ensures { IfOk result (λ h. (h.promise.0.value ≡ end) × (h.promise.1.value ≡ out) ×
        (h.promise.2.value ≡ idle)) }
{
    end.note_begun(true);
    let given = Given(Snapshot::of(&end), Snapshot::of(&out), Snapshot::of(&idle));
    match small_thread().spawn_with(&rt, given, move || write_out(&rt, end, out, &gate, idle)) {
        Ok(handle) => Ok(handle),
        Err(_) => Err(AllocError),
    }
}

/// Starts a thread that does `write_out`, until asked to stop, however long nothing comes. If no
/// thread could be started it is asked to stop, and hands everything back.
pub fn spawn_stoppable<
    W: Write + Send + Drop + 'static,
    G: Gate + Send + Drop + 'static,
    R: Threads + Wait + Send + Copy + 'static,
>(
    rt: R,
    end: OutletEnd,
    out: W,
    gate: G,
    stopper: &Stopper,
) -> Result<PromisedHandle<Written<W>, Given<W>>, Written<W>>
    ensures { IfOk result (λ h. (h.promise.0.value ≡ end) × (h.promise.1.value ≡ out)) }
{
    let idle = Turns::Endless;
    let given = Given(Snapshot::of(&end), Snapshot::of(&out), Snapshot::of(&idle));
    let write = move || {
        let (end, out) = (end, out);
        write_out(&rt, end, out, &gate, idle)
    };
    match small_thread().spawn_with(&rt, given, write) {
        Ok(handle) => Ok(handle),
        Err(refused) => {
            stopper.stop();
            let write = refused.value;
            Err(write())
        }
    }
}

//! What a client says in its session.

ghost use Rattle.std.specs.Prelude.{◌≡◌};
ghost use Rattle.sessions.specs.Leaving.{LeavesBy, WasHeard, WereSaid, leave_at};

use crate::arrival::Unread;
use crate::attending::{Leave, say};
use crate::watcher::Watcher;
use client_caps::{Caps, Moment};
use hub_ends::SessionId;
use hub_threads::{Clock, Gate, Network};
use irc_line::{InputEnd, Line, LineTaker, ReadPoint, read_lines};
use net_view::NetworkView;
use std::alloc::Global;
use std::io::Read;
use std::marker::PhantomData;
use std::sync::Wait;

/// How many bytes one read asks for.
const PIECE: usize = 4_096;

/// Tells which capabilities a client holds now, if they are others than before.
fn tell_change<V: NetworkView + Drop, N, I: Read, X: Watcher<V, N, I>>(
    watcher: &mut X,
    before: Option<Caps>,
    after: Option<Caps>,
)
    ensures { X.session watcher.new ≡ X.session watcher.old }
{
    match after {
        Some(caps) if before != after => watcher.caps_changed(caps),
        _ => {}
    }
}

/// What says the lines of a client to the hub of its network.
#[derive(Drop)]
pub(crate) struct Talking<'a, V: NetworkView + Drop, N, I, G, C, X, R> {
    rt: &'a R,
    network: &'a Network<V>,
    id: SessionId,
    gate: &'a G,
    clock: &'a C,
    watcher: &'a mut X,
    // the network and the reader that the watcher knows
    watched: PhantomData<(N, I)>,
}

impl<
    'a,
    V: NetworkView + Drop,
    N,
    I: Read,
    G: Gate,
    C: Clock,
    X: Watcher<V, N, I>,
    R: Wait,
> Talking<'a, V, N, I, G, C, X, R> {
    pub(crate) fn new(
        rt: &'a R,
        network: &'a Network<V>,
        id: SessionId,
        gate: &'a G,
        clock: &'a C,
        watcher: &'a mut X,
    ) -> Self
        ensures reference { result.watcher.ghost_name ≡ watcher.entry.ghost_name }
        ensures session { X.session result.watcher.now ≡ X.session watcher.old }
    {
        Talking {
            rt,
            network,
            id,
            gate,
            clock,
            watcher,
            watched: PhantomData,
        }
    }

    /// Says a CAP line, and reports whether it changed the client's capabilities; answers why the
    /// session ends, if it does.
    fn say_cap(&mut self, line: &Line, moment: Moment) -> Option<Leave>
        ensures said { LeavesBy line.now result }
        ensures reference { self.new.watcher.ghost_name ≡ self.old.watcher.ghost_name }
        ensures session { X.session self.new.watcher.now ≡ X.session self.old.watcher.now }
    {
        let mut hub = self.network.lock(self.rt);
        let before = hub.caps(self.id);
        let leave = say(&mut hub, self.id, line, moment);
        let after = hub.caps(self.id);
        drop(hub);
        tell_change(self.watcher, before, after);
        leave
    }

    /// Says a line; answers why the session ends, if it does.
    fn say_line(&mut self, line: &Line) -> Option<Leave>
        ensures said { LeavesBy line.now result }
        ensures reference { self.new.watcher.ghost_name ≡ self.old.watcher.ghost_name }
        ensures session { X.session self.new.watcher.now ≡ X.session self.old.watcher.now }
    {
        let moment = self.clock.now();
        if line.is(b"CAP") {
            return self.say_cap(line, moment);
        }
        say(&mut self.network.lock(self.rt), self.id, line, moment)
    }

    /// Says lines, in order, up to one that ends the session; answers why, if one does. The lock
    /// is taken again for each.
    fn say_all(&mut self, lines: &[Line]) -> Option<Leave>
        ensures said { WereSaid lines.now result }
        ensures reference { self.new.watcher.ghost_name ≡ self.old.watcher.ghost_name }
        ensures session { X.session self.new.watcher.now ≡ X.session self.old.watcher.now }
    {
        for line in lines {
            if let Some(why) = self.say_line(line) {
                return Some(why);
            }
        }
        None
    }
}

impl<V: NetworkView + Drop, N, I: Read, G: Gate, C: Clock, X: Watcher<V, N, I>, R: Wait> LineTaker<
    Leave,
> for Talking<'_, V, N, I, G, C, X, R> {
    ghost use Rattle.std.specs.Prelude.{None, Some};
    ghost use Rattle.sessions.specs.Leaving.{WereSaid};

    ghost is_after = { λ began lines now. WereSaid lines None
        × ((now.watcher.ghost_name ≡ began.watcher.ghost_name)
        × (X.session now.watcher.now ≡ X.session began.watcher.now)) };

    ghost ends = { λ began lines why now. WereSaid lines (Some why)
        × ((now.watcher.ghost_name ≡ began.watcher.ghost_name)
        × (X.session now.watcher.now ≡ X.session began.watcher.now)) };

    fn take_lines(&mut self, lines: Vec<Line>) -> Option<Leave> {
        self.say_all(lines.as_slice())
    }

    fn pass(&self, point: ReadPoint) {
        self.gate.pass(point.into());
    }
}

/// Why a session ends, by why its input is read no further.
fn leave_at(end: InputEnd<Leave>) -> Leave
    ensures { result ≡ leave_at end }
{
    match end {
        InputEnd::Answered(why) => why,
        InputEnd::EndOfInput => Leave::EndOfInput,
        InputEnd::ReadFault(_) | InputEnd::ReadsSpent => Leave::ReadFault,
        InputEnd::TooLong => Leave::TooLong,
        InputEnd::OutOfMemory => Leave::OutOfMemory,
    }
}

/// Reads what a client says and says it to its hub, what is unread first, until the session ends;
/// answers why.
pub(crate) fn talk<
    V: NetworkView + Drop,
    N,
    I: Read,
    G: Gate,
    C: Clock,
    X: Watcher<V, N, I>,
    R: Wait,
>(
    alloc: Global,
    talking: &mut Talking<'_, V, N, I, G, C, X, R>,
    reader: &mut I,
    unread: Unread,
) -> Leave
    ensures heard { WasHeard unread.splitter unread.lines.items (I.remaining reader.old)
        (I.remaining reader.new) result }
    ensures reference { talking.new.watcher.ghost_name ≡ talking.old.watcher.ghost_name }
    ensures session { X.session talking.new.watcher.now ≡ X.session talking.old.watcher.now }
{
    let Unread { splitter, lines } = unread;
    let mut splitter = splitter;
    if let Some(why) = talking.say_all(lines.as_slice()) {
        return why;
    }
    let Ok(mut buffer) = vec![in alloc; 0; PIECE] else {
        return Leave::OutOfMemory;
    };
    leave_at(read_lines(alloc, &mut splitter, talking, reader, &mut buffer))
}

//! `bnc attach`: reads what a network sent, and writes what a client that attaches then receives.

ghost use Rattle.std.specs.Prelude.{◌≡◌, ◌≢◌, ◌++◌, ◌∷◌, [], ℕ, List, false, true};
ghost use Rattle.std.specs.Prelude.{IfErr, IfOk, IfSome, OnOk, map, option_map};
ghost use Rattle.std.specs.Io.KnownBytes.{Appends, Consumes, IsAtEnd};
ghost use Rattle.std.specs.List.{AllByRecursion};
ghost use Rattle.history.specs.Entry.{IsWrittenEntry, in_ring};
ghost use Rattle.history.specs.Messages.{no_messages};
ghost use Rattle.irc_line.specs.Lines.{is_too_long};
ghost use Rattle.net_view.specs.Arrival.{Arrival, Received};
ghost use Rattle.net_view.specs.View.{view_of};
ghost use Rattle.history.specs.Keeping.{Kept, kept_by};
ghost use Rattle.commands.specs.Attach.{IsAttachFault, IsKept, last_messages_by, message_by};
ghost use Rattle.commands.specs.Attach.{message_in, room_of, stream_burst, stream_burst_by};
ghost use Rattle.commands.specs.Stream.{transcript_of};

use crate::fault::Fault;
use crate::input::{Taker, read_all};
use client_caps::{Caps, Moment, time_text};
use history::{Entry, History, Keeping};
use irc_line::Line;
use net_view::{Item, NetworkView, OutOfMemory};
use quick_view::QuickView;
use std::alloc::Global;
use std::io::{Read, Write};
use std::num::NonZeroUsize;
use welcome::{Playing, burst_by};

/// The message that a line is, in the ring of a person of this name, or in that of its target; `None`
/// if it is none. A line without a time of its own came at 1970-01-01T00:00:00Z.
fn message_of(alloc: Global, ring: Option<&[u8]>, line: &Line) -> Result<Option<Entry>, OutOfMemory>
    ensures made { IfOk result (λ entry. entry
        ≡ option_map (in_ring (option_map (λ name. name.now) ring.entry))
        (message_in (Received line.now))) }
    ensures written { IfOk result (λ entry. IfSome entry IsWrittenEntry) }
{
    let _command = line.command();
    match line.time_tag() {
        Some(time) => Entry::of_message_in(alloc, ring, time, line),
        None => Entry::of_message_in(alloc, ring, &time_text(Moment(0)), line),
    }
}

/// The message that a line is, if it is one that is kept, in its ring.
fn kept_message(alloc: Global, keeping: &Keeping, line: &Line) -> Result<Option<Entry>, OutOfMemory>
    ensures made { IfOk result (λ entry.
        entry ≡ message_by (kept_by keeping.now) (Received line.now)) }
    ensures written { IfOk result (λ entry. IfSome entry IsWrittenEntry) }
{
    if !keeping.is_kept_heard(line) {
        return Ok(None);
    }
    message_of(alloc, keeping.ring_heard(line), line)
}

/// Keeps a message, if there is one and any are retained. No input has so many messages that
/// their numbers are spent.
fn keep_in(recent: &mut Option<History>, entry: Option<Entry>) -> Result<(), OutOfMemory>
    requires { IfSome entry IsWrittenEntry }
    ensures kept { (k : Kept) → (items : List Arrival) → (x : Arrival) → message_by k x ≡ entry →
        IsKept k recent.old items → OnOk result (IsKept k recent.new (items ++ x ∷ [])) }
    ensures room { OnOk result (room_of recent.new ≡ room_of recent.old) }
{
    let Some(recent) = recent else {
        return Ok(());
    };
    let Some(entry) = entry else {
        return Ok(());
    };
    match recent.add(entry) {
        Ok(_) => Ok(()),
        Err(_) => Err(OutOfMemory),
    }
}

/// A view that takes the lines of an input, with the messages of them that are kept and retained,
/// if any are.
#[derive(Drop)]
pub struct Attaching<V> {
    pub view: V,
    recent: Option<History>,
    keeping: Keeping,
    alloc: Global,
}

impl<V: NetworkView> Taker for Attaching<V> {
    ghost use Rattle.std.specs.Prelude.{◌≡◌};
    ghost use Rattle.net_view.specs.View.{view_of};
    ghost use Rattle.history.specs.Keeping.{kept_by};
    ghost use Rattle.commands.specs.Attach.{IsKept, room_of};

    ghost is_after = { λ attaching items. (V.view attaching.view ≡ view_of items)
        × IsKept (kept_by attaching.keeping) attaching.recent items };

    ghost room = { λ attaching. (kept_by attaching.keeping, room_of attaching.recent) };

    fn take_line(&mut self, line: Line) -> Result<(), OutOfMemory> {
        let entry = kept_message(self.alloc, &self.keeping, &line)?;
        self.view.take(&Item::Line(line))?;
        keep_in(&mut self.recent, entry)
    }
}

/// The messages that are retained, the oldest first.
#[tactic(auto, using(crate::proofs::AttachLemmas::retained_then))]
fn retained(alloc: Global, recent: &Option<History>) -> Result<Vec<&Entry>, OutOfMemory>
    ensures missed { (k : Kept) → (items : List Arrival) → IsKept k recent.now items →
        IfOk result (λ entries. map (λ entry. entry.now) entries.items
        ≡ last_messages_by k (room_of recent.now) items) }
    ensures written { (k : Kept) → (items : List Arrival) → IsKept k recent.now items →
        IfOk result (λ entries. AllByRecursion (λ entry. IsWrittenEntry entry.now) entries.items) }
{
    match recent {
        Some(recent) => recent.missed(alloc, None),
        None => Ok(Vec::new(alloc)),
    }
}

/// Reads what a network sent to its end, and writes what a client that attaches then with these
/// capabilities receives: the burst, with the messages that are retained, played back so, each line
/// with CR LF.
///
/// Except when out of memory, a fault comes if over 16,384 bytes come without LF, if a read
/// fails or 1,000,000,000 reads did not reach the end, if the network is not ready, and if
/// the burst is not taken. After a fault other than `CannotWrite` nothing is written. Bytes after
/// the last LF are no line.
pub fn attach_input<V: NetworkView, R: Read, W: Write>(
    alloc: Global,
    attaching: &mut Attaching<V>,
    reader: &mut R,
    out: &mut W,
    caps: Caps,
    playing: Playing,
) -> Result<(), Fault>
    requires new_view { V.view attaching.old.view ≡ view_of [] }
    requires no_messages { IfSome attaching.old.recent (λ recent.
        recent ≡ no_messages recent.capacity 1) }
    ensures written { OnOk result ((bytes : List ℕ)
        × Consumes (R.remaining reader.old) (R.remaining reader.new) bytes
        × IsAtEnd (R.remaining reader.new)
        × (is_too_long bytes ≡ false)
        × ((view_of (transcript_of bytes)).ready ≡ true)
        × Appends (W.contents out.old) (W.contents out.new)
        (stream_burst_by (kept_by attaching.old.keeping) playing caps
        (room_of attaching.old.recent) bytes)) }
    ensures refused { IfErr result (λ fault. (bytes : List ℕ)
        × Consumes (R.remaining reader.old) (R.remaining reader.new) bytes
        × IsAttachFault bytes (R.remaining reader.new) fault) }
    ensures unwritten { IfErr result (λ fault. fault ≢ Fault.CannotWrite → out.new ≡ out.old) }
{
    let _skipped = read_all(alloc, attaching, reader)?;
    if !attaching.view.ready() {
        return Err(Fault::NotReady);
    }
    let entries = retained(alloc, &attaching.recent)?;
    let burst = burst_by(alloc, playing, &attaching.view, caps, &entries)?;
    match out.write_all(burst.bytes()) {
        Ok(()) => Ok(()),
        Err(_) => Err(Fault::CannotWrite),
    }
}

/// Reads what a network sent to its end, and writes what a client that attaches then with these
/// capabilities receives, with the last `history` messages to each target, as `attach_input` has it
/// of a new view:
///
/// ```text
/// :s 001 Me :hi               :bnc 001 Me :Welcome to the bouncer
/// :Me!m@h JOIN #c             :bnc 002 Me :Your host is bnc, running version 1
///                             :bnc 003 Me :This server was created for you
///                             :bnc 004 Me bnc 1 i biklmnopstv
///                             :bnc 422 Me :MOTD File is missing
///                             :Me JOIN #c
///                             :bnc 353 Me = #c Me
///                             :bnc 366 Me #c :End of NAMES list
/// ```
#[tactic(auto, using(crate::proofs::AttachLemmas::whole_burst))]
pub fn run_attach<R: Read, W: Write>(
    alloc: Global,
    reader: &mut R,
    out: &mut W,
    caps: Caps,
    history: usize,
) -> Result<(), Fault>
    ensures written { OnOk result ((bytes : List ℕ)
        × Consumes (R.remaining reader.old) (R.remaining reader.new) bytes
        × IsAtEnd (R.remaining reader.new)
        × (is_too_long bytes ≡ false)
        × ((view_of (transcript_of bytes)).ready ≡ true)
        × Appends (W.contents out.old) (W.contents out.new) (stream_burst caps history bytes)) }
    ensures refused { IfErr result (λ fault. (bytes : List ℕ)
        × Consumes (R.remaining reader.old) (R.remaining reader.new) bytes
        × IsAttachFault bytes (R.remaining reader.new) fault) }
    ensures unwritten { IfErr result (λ fault. fault ≢ Fault.CannotWrite → out.new ≡ out.old) }
{
    let keeping = Keeping::whole(alloc);
    run_attach_by(alloc, reader, out, caps, history, keeping, Playing::whole())
}

/// Reads and writes as [`run_attach`] does, by a profile: only the messages that it keeps count,
/// and they are played back as it says. By the whole one it is [`run_attach`]'s.
#[tactic(auto, using(net_view::proofs::StepLaw::view_start))]
pub fn run_attach_by<R: Read, W: Write>(
    alloc: Global,
    reader: &mut R,
    out: &mut W,
    caps: Caps,
    history: usize,
    keeping: Keeping,
    playing: Playing,
) -> Result<(), Fault>
    ensures written { OnOk result ((bytes : List ℕ)
        × Consumes (R.remaining reader.old) (R.remaining reader.new) bytes
        × IsAtEnd (R.remaining reader.new)
        × (is_too_long bytes ≡ false)
        × ((view_of (transcript_of bytes)).ready ≡ true)
        × Appends (W.contents out.old) (W.contents out.new)
        (stream_burst_by (kept_by keeping) playing caps history bytes)) }
    ensures refused { IfErr result (λ fault. (bytes : List ℕ)
        × Consumes (R.remaining reader.old) (R.remaining reader.new) bytes
        × IsAttachFault bytes (R.remaining reader.new) fault) }
    ensures unwritten { IfErr result (λ fault. fault ≢ Fault.CannotWrite → out.new ≡ out.old) }
{
    let recent = match NonZeroUsize::new(history) {
        Some(capacity) => Some(History::keeping(alloc, capacity, 1)?),
        None => None,
    };
    let view = QuickView::new(alloc)?;
    let mut attaching = Attaching {
        view,
        recent,
        keeping,
        alloc,
    };
    attach_input(alloc, &mut attaching, reader, out, caps, playing)
}

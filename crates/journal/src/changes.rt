//! What changed since the last batch.

ghost use Rattle.std.specs.Prelude.{◌≡◌, ◌↔◌, ◌<◌, ◌+◌, ◌++◌, IfNone, IfOk, IfSome, List, OnOk, Some, drop, map, true, ℕ};
ghost use Rattle.std.specs.FinMap as fin;
ghost use Rattle.std.specs.List.{AllByRecursion, flat_map};
ghost use Rattle.history.specs.Entry.{EntryParts};
ghost use Rattle.journal.specs.Changes.{Follows, IsUnchanged, Tells, TellsAt, WasWritten, can_follow, changed_of};
ghost use Rattle.journal.specs.Changes.{gone_of, grown, is_changed, is_gone, kept_now, messages_from};
ghost use Rattle.journal.specs.Changes.{name_changes, rises};
ghost use Rattle.journal.specs.Kept.{KeptParts, channel_parts};
ghost use Rattle.journal.specs.Records.{parts_of_all};
ghost use Rattle.journal.specs.Snapshots.{channel_records, have_rings, message_records};

use crate::kept::Channel;
use crate::record::Record;
use crate::snapshotting::{message_records, name_record, push_channels, push_seen};
use history::{Entry, History, Marks, OutOfMemory};
use std::alloc::Global;

/// What a journal says of its network: what is kept after its last batch.
#[derive(Drop)]
pub struct Written {
    /// The number of the next message.
    pub next: u64,
    /// The client names, each with its last mark.
    pub marks: Marks,
    /// Of a name whose last `SEEN` came after its last `MARK`, the number of that `SEEN`.
    pub latest: Marks,
    /// The channels that we are on.
    pub channels: Vec<Channel>,
    /// Whether messages with rings may be in its file, by its header.
    pub rings: bool,
}

/// What is to be written.
#[derive(Drop)]
pub enum Changes {
    /// Nothing has changed.
    Nothing,
    /// A batch of these records.
    Batch(Vec<Record>),
    /// All of it, in a new file: a message was forgotten before it was written, or has a ring, and the
    /// file can have none.
    Snapshot,
    /// Nothing more: the last number was given, after which no journal can go on.
    Spent,
}

/// The messages that have this number or a higher one.
fn messages_from(
    alloc: Global,
    history: &History,
    number: u64,
) -> Result<Vec<(u64, &Entry)>, OutOfMemory>
    ensures { IfOk result (λ r. map (λ m. (m.0, m.1.now)) r.items
        ≡ messages_from number history.now) }
{
    let before = if number == 0 { None } else { Some(number - 1) };
    history.numbered_above(alloc, before)
}

/// Whether one of these messages has a ring.
fn have_rings(messages: &[(u64, &Entry)]) -> bool
    ensures { result ≡ have_rings (map (λ m. (m.0, m.1.now)) messages.now) }
{
    let mut rest = messages;
    while let [message, after @ ..] = rest {
        if message.1.ring().is_some() {
            return true;
        }
        rest = after;
    }
    false
}

/// Whether a mark may come after another one.
fn rises(before: Option<u64>, mark: Option<u64>) -> bool
    ensures { result ≡ rises before mark }
{
    match (before, mark) {
        (None, _) => true,
        (Some(_), None) => false,
        (Some(before), Some(mark)) => before <= mark,
    }
}

/// Whether the records of a name say what it has now, if it had other numbers before.
fn can_follow(
    before: Option<u64>,
    given_before: Option<u64>,
    mark: Option<u64>,
    given: Option<u64>,
) -> bool
    ensures { result ≡ can_follow before given_before mark given }
{
    rises(before, mark) && (mark.is_some() || given_before.is_none() || given.is_some())
}

/// Whether a name that was written is to be taken out first.
fn is_gone(
    written: &Written,
    name: &[u8],
    before: Option<u64>,
    marks: &Marks,
    latest: &Marks,
) -> bool
    ensures { result ≡ is_gone written.now.latest marks.now latest.now (name.now, before) }
{
    let given_before = written.latest.mark(name);
    let (mark, given) = (marks.mark(name), latest.mark(name));
    !(marks.knows(name) && can_follow(before, given_before, mark, given))
}

/// Adds that a name was forgotten, if it is to be taken out.
fn push_gone(
    alloc: Global,
    records: &mut Vec<Record>,
    written: &Written,
    name: &[u8],
    before: Option<u64>,
    marks: &Marks,
    latest: &Marks,
) -> Result<(), OutOfMemory>
    ensures { OnOk result (parts_of_all records.new.items ≡ parts_of_all records.old.items
        ++ gone_of written.now.latest marks.now latest.now (name.now, before)) }
{
    if is_gone(written, name, before, marks, latest) {
        records.push(Record::Gone(Vec::from_slice(alloc, name)?))?;
    }
    Ok(())
}

/// The same for the name at a place, if there is one.
fn push_gone_at(
    alloc: Global,
    records: &mut Vec<Record>,
    written: &Written,
    marks: &Marks,
    latest: &Marks,
    i: usize,
) -> Result<(), OutOfMemory>
    ensures { OnOk result (parts_of_all records.new.items
        ++ flat_map (gone_of written.now.latest marks.now latest.now)
        (drop (i + 1) (fin.entries written.now.marks))
        ≡ parts_of_all records.old.items
        ++ flat_map (gone_of written.now.latest marks.now latest.now)
        (drop i (fin.entries written.now.marks))) }
{
    match written.marks.at(i) {
        Some((name, before)) => {
            push_gone(alloc, records, written, name, before, marks, latest)?;
            Ok(())
        }
        None => Ok(()),
    }
}

/// Adds the names that are to be taken out.
fn push_all_gone(
    alloc: Global,
    records: &mut Vec<Record>,
    written: &Written,
    marks: &Marks,
    latest: &Marks,
) -> Result<(), OutOfMemory>
    ensures { OnOk result (parts_of_all records.new.items ≡ parts_of_all records.old.items
        ++ flat_map (gone_of written.now.latest marks.now latest.now)
        (fin.entries written.now.marks)) }
{
    let count = written.marks.count();
    let mut i: usize = 0;
    while i < count {
        push_gone_at(alloc, records, written, marks, latest, i)?;
        i += 1;
    }
    Ok(())
}

/// Whether a name is new, or has other numbers than were written.
fn is_changed(written: &Written, name: &[u8], mark: Option<u64>, latest: &Marks) -> bool
    ensures { result ≡ is_changed written.now.marks written.now.latest latest.now
        (name.now, mark) }
{
    !(written.marks.knows(name)
        && written.marks.mark(name) == mark
        && written.latest.mark(name) == latest.mark(name))
}

/// Adds the records of a name, if it has changed.
fn push_changed(
    alloc: Global,
    records: &mut Vec<Record>,
    written: &Written,
    name: &[u8],
    mark: Option<u64>,
    latest: &Marks,
) -> Result<(), OutOfMemory>
    ensures { OnOk result (parts_of_all records.new.items ≡ parts_of_all records.old.items
        ++ changed_of written.now.marks written.now.latest latest.now (name.now, mark)) }
{
    if is_changed(written, name, mark, latest) {
        records.push(name_record(alloc, name, mark)?)?;
        push_seen(alloc, records, name, latest)?;
    }
    Ok(())
}

/// The same for the name at a place, if there is one.
fn push_changed_at(
    alloc: Global,
    records: &mut Vec<Record>,
    written: &Written,
    marks: &Marks,
    latest: &Marks,
    i: usize,
) -> Result<(), OutOfMemory>
    ensures { OnOk result (parts_of_all records.new.items
        ++ flat_map (changed_of written.now.marks written.now.latest latest.now)
        (drop (i + 1) (fin.entries marks.now))
        ≡ parts_of_all records.old.items
        ++ flat_map (changed_of written.now.marks written.now.latest latest.now)
        (drop i (fin.entries marks.now))) }
{
    match marks.at(i) {
        Some((name, mark)) => {
            push_changed(alloc, records, written, name, mark, latest)?;
            Ok(())
        }
        None => Ok(()),
    }
}

/// Adds the names that have changed.
fn push_all_changed(
    alloc: Global,
    records: &mut Vec<Record>,
    written: &Written,
    marks: &Marks,
    latest: &Marks,
) -> Result<(), OutOfMemory>
    ensures { OnOk result (parts_of_all records.new.items ≡ parts_of_all records.old.items
        ++ flat_map (changed_of written.now.marks written.now.latest latest.now)
        (fin.entries marks.now)) }
{
    let count = marks.count();
    let mut i: usize = 0;
    while i < count {
        push_changed_at(alloc, records, written, marks, latest, i)?;
        i += 1;
    }
    Ok(())
}

/// Whether two channels have the same name and the same key.
fn same_channel(a: &Channel, b: &Channel) -> bool
    ensures { (result ≡ true) ↔ (channel_parts a.now ≡ channel_parts b.now) }
{
    let same_key = match (&a.key, &b.key) {
        (Some(one), Some(other)) => one.as_slice() == other.as_slice(),
        (None, None) => true,
        _ => false,
    };
    a.name.as_slice() == b.name.as_slice() && same_key
}

/// Whether these are the same channels, in the same order.
fn same_channels(a: &[Channel], b: &[Channel]) -> bool
    ensures { (result ≡ true) ↔ (map channel_parts a.now ≡ map channel_parts b.now) }
{
    let mut left = a;
    let mut right = b;
    while let [one, later @ ..] = left {
        let [other, others @ ..] = right else {
            return false;
        };
        if !same_channel(one, other) {
            return false;
        }
        left = later;
        right = others;
    }
    right.is_empty()
}

/// The batch of these messages and of what else changed; `None` if nothing has.
fn batch(
    alloc: Global,
    written: &Written,
    messages: Vec<(u64, &Entry)>,
    last: u64,
    marks: &Marks,
    latest: &Marks,
    channels: &[Channel],
) -> Result<Option<Vec<Record>>, OutOfMemory>
    requires below { AllByRecursion (λ (m : ℕ × EntryParts). m.0 < last)
        (map (λ m. (m.0, m.1.now)) messages.items) }
    ensures batch { IfOk result (λ r. IfSome r (λ records. parts_of_all records.items
        ≡ message_records (map (λ m. (m.0, m.1.now)) messages.entry.items) last
        ++ (name_changes written.now.marks written.now.latest marks.now latest.now
        ++ channel_records (map channel_parts channels.now)))) }
    ensures some { IfOk result (λ r. IfSome r (λ _.
        IsUnchanged written.now last marks.now latest.now (map channel_parts channels.now) → ⊥)) }
    ensures none { IfOk result (λ r. IfNone r
        (IsUnchanged written.now last marks.now latest.now (map channel_parts channels.now))) }
{
    let mut records = message_records(alloc, messages, last)?;
    let before = records.len();
    push_all_gone(alloc, &mut records, written, marks, latest)?;
    push_all_changed(alloc, &mut records, written, marks, latest)?;
    let names_changed = records.len() != before;
    if last == written.next && !names_changed && same_channels(&written.channels, channels) {
        return Ok(None);
    }
    push_channels(alloc, &mut records, channels)?;
    Ok(Some(records))
}

/// The same if the next message has this number.
fn changes_at(
    alloc: Global,
    written: &Written,
    history: &History,
    marks: &Marks,
    latest: &Marks,
    channels: &[Channel],
    last: u64,
) -> Result<Changes, OutOfMemory>
    requires { history.now.next ≡ Some last }
    ensures { IfOk result (λ r. TellsAt r written.now last history.now marks.now latest.now
        (map channel_parts channels.now)) }
{
    history.can_come_again();
    let messages = messages_from(alloc, history, written.next)?;
    if last < written.next || (messages.len() as u64) != last - written.next {
        return Ok(Changes::Snapshot);
    }
    if !written.rings && have_rings(&messages) {
        return Ok(Changes::Snapshot);
    }
    match batch(alloc, written, messages, last, marks, latest, channels)? {
        Some(records) => Ok(Changes::Batch(records)),
        None => Ok(Changes::Nothing),
    }
}

/// What is to be written after what a journal says: a batch with the messages since, the names that
/// changed, and all channels; or a new file, exactly if a message since was forgotten by its ring,
/// so that a batch could not say which others went for it, or has the ring of a person, and the file
/// can have none.
#[tactic(auto, using(crate::proofs::Batches::tells_then))]
pub fn what_changed(
    alloc: Global,
    written: &Written,
    history: &History,
    marks: &Marks,
    latest: &Marks,
    channels: &[Channel],
) -> Result<Changes, OutOfMemory>
    ensures tells { IfOk result (λ r. Tells r written.now history.now marks.now latest.now
        (map channel_parts channels.now)) }
    // So what is kept after all batches is what there is now, if it was after those before, and the
    // history has grown by messages.
    ensures follows { (k : KeptParts) (es : List EntryParts) → WasWritten written.now k →
        history.now ≡ grown written.now.next es k.history → IfOk result (λ r. Follows r k
        (kept_now history.now marks.now latest.now (map channel_parts channels.now))) }
{
    let _few = marks.count();
    match history.next_number() {
        Some(last) => changes_at(alloc, written, history, marks, latest, channels, last),
        None => Ok(Changes::Spent),
    }
}

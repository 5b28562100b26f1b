//! The records that say all that is kept.

ghost use Rattle.std.specs.Prelude.{◌≡◌, ◌<◌, ◌≤◌, ◌+◌, ◌++◌, IfNone, IfOk, IfSome, None, OnOk, Some, drop, ℕ};
ghost use Rattle.std.specs.Prelude.{map, option_map};
ghost use Rattle.std.specs.List.{AllByRecursion};
ghost use Rattle.std.specs.FinMap as fin;
ghost use Rattle.history.specs.Entry.{EntryParts};
ghost use Rattle.history.specs.Marks.{mark_of};
ghost use Rattle.history.specs.Messages.{CanComeAgain};
ghost use Rattle.journal.specs.Kept.{channel_parts};
ghost use Rattle.journal.specs.Records.{on, parts_of_all, record_parts, text_of};
ghost use Rattle.journal.specs.Snapshots.{GivesBack, channel_records, first_of, have_rings, in_capacity};
ghost use Rattle.journal.specs.Snapshots.{message_records, name_record, name_records, next_to};
ghost use Rattle.journal.specs.Snapshots.{seen_records, snapshot_of};

use crate::kept::Channel;
use crate::record::Record;
use history::{Entry, History, Marks, OutOfMemory};
use std::alloc::Global;

/// A copy of a message.
fn copied(alloc: Global, entry: &Entry) -> Result<Entry, OutOfMemory>
    ensures { IfOk result (λ e. e ≡ entry.now) }
{
    let (time, source, command) = (entry.time(), entry.source(), entry.command());
    Entry::make_in(
        alloc,
        entry.ring(),
        time,
        source,
        command,
        entry.target(),
        entry.text(),
    )
}

/// Whether a message is in a person's ring, so that the file of a snapshot begins with the header for
/// rings (see [`push_header`](crate::push_header)).
#[tactic(auto, using(crate::proofs::RingsHeld::rings_held))]
pub fn has_rings(history: &History) -> bool
    ensures { result ≡ have_rings history.now.kept }
{
    history.person_count() != 0
}

/// Adds the number of the next message, if it is not the one that is expected.
fn push_next(records: &mut Vec<Record>, expected: u64, number: u64) -> Result<(), OutOfMemory>
    ensures { OnOk result (parts_of_all records.new.items
        ≡ parts_of_all records.old.items ++ next_to expected number) }
{
    if expected != number {
        records.push(Record::Next(number))?;
    }
    Ok(())
}

/// The number of the first message, or the next number if there is none.
fn first_number(messages: &[(u64, &Entry)], last: u64) -> u64
    ensures { result ≡ first_of (map (λ m. (m.0, m.1.now)) messages.now) last }
{
    match messages {
        [message, ..] => message.0,
        [] => last,
    }
}

/// The records of messages.
pub fn message_records(
    alloc: Global,
    messages: Vec<(u64, &Entry)>,
    last: u64,
) -> Result<Vec<Record>, OutOfMemory>
    requires { AllByRecursion (λ (m : ℕ × EntryParts). m.0 < last)
        (map (λ m. (m.0, m.1.now)) messages.items) }
    ensures { IfOk result (λ r. parts_of_all r.items
        ≡ message_records (map (λ m. (m.0, m.1.now)) messages.entry.items) last) }
{
    let mut expected = first_number(&messages, last);
    let mut records = Vec::new(alloc);
    records.push(Record::Next(expected))?;
    for item in messages {
        push_next(&mut records, expected, item.0)?;
        records.push(Record::Message(copied(alloc, item.1)?))?;
        expected = item.0 + 1;
    }
    push_next(&mut records, expected, last)?;
    Ok(records)
}

/// The record of a client name.
pub fn name_record(alloc: Global, name: &[u8], mark: Option<u64>) -> Result<Record, OutOfMemory>
    ensures { IfOk result (λ r. record_parts r ≡ name_record name.now mark) }
{
    let name = Vec::from_slice(alloc, name)?;
    match mark {
        Some(number) => Ok(Record::Mark(name, number)),
        None => Ok(Record::Name(name)),
    }
}

/// Adds what the sessions of a client name were given, if it is known.
pub fn push_seen(
    alloc: Global,
    records: &mut Vec<Record>,
    name: &[u8],
    latest: &Marks,
) -> Result<(), OutOfMemory>
    ensures { OnOk result (parts_of_all records.new.items ≡ parts_of_all records.old.items
        ++ seen_records name.now (mark_of name.now latest.now)) }
{
    if let Some(number) = latest.mark(name) {
        records.push(Record::Seen(Vec::from_slice(alloc, name)?, number))?;
    }
    Ok(())
}

/// Adds the records of the client name at a place, if there is one.
#[tactic(auto, using(crate::proofs::Snapshots::no_name_here))]
fn push_name(
    alloc: Global,
    records: &mut Vec<Record>,
    marks: &Marks,
    latest: &Marks,
    i: usize,
) -> Result<(), OutOfMemory>
    ensures { OnOk result (parts_of_all records.new.items
        ++ name_records latest.now (drop (i + 1) (fin.entries marks.now))
        ≡ parts_of_all records.old.items
        ++ name_records latest.now (drop i (fin.entries marks.now))) }
{
    match marks.at(i) {
        Some((name, mark)) => {
            records.push(name_record(alloc, name, mark)?)?;
            push_seen(alloc, records, name, latest)?;
            Ok(())
        }
        None => Ok(()),
    }
}

/// Adds the records of client names.
fn push_names(
    alloc: Global,
    records: &mut Vec<Record>,
    marks: &Marks,
    latest: &Marks,
) -> Result<(), OutOfMemory>
    ensures { OnOk result (parts_of_all records.new.items ≡ parts_of_all records.old.items
        ++ name_records latest.now (fin.entries marks.now)) }
{
    let count = marks.count();
    let mut i: usize = 0;
    while i < count {
        push_name(alloc, records, marks, latest, i)?;
        i += 1;
    }
    Ok(())
}

/// The record of a channel.
fn channel_record(alloc: Global, channel: &Channel) -> Result<Record, OutOfMemory>
    ensures { IfOk result (λ r. record_parts r
        ≡ on channel.now.name.items (option_map text_of channel.now.key)) }
{
    let name = Vec::from_slice(alloc, &channel.name)?;
    match &channel.key {
        Some(key) => {
            let key = Vec::from_slice(alloc, key)?;
            Ok(Record::On(name, Some(key)))
        }
        None => Ok(Record::On(name, None)),
    }
}

/// Adds the records of channels.
pub fn push_channels(
    alloc: Global,
    records: &mut Vec<Record>,
    channels: &[Channel],
) -> Result<(), OutOfMemory>
    ensures { OnOk result (parts_of_all records.new.items
        ≡ parts_of_all records.old.items ++ channel_records (map channel_parts channels.now)) }
{
    let mut rest = channels;
    while let [channel, after @ ..] = rest {
        records.push(channel_record(alloc, channel)?)?;
        rest = after;
    }
    Ok(())
}

/// The records of all of it, if the next message has this number.
#[tactic(auto, using(crate::proofs::Snapshots::all_below))]
fn all_records(
    alloc: Global,
    history: &History,
    marks: &Marks,
    latest: &Marks,
    channels: &[Channel],
    last: u64,
) -> Result<Vec<Record>, OutOfMemory>
    requires { history.now.next ≡ Some last }
    ensures records { IfOk result (λ r. parts_of_all r.items ≡ snapshot_of last history.now
        marks.now latest.now (map channel_parts channels.now)) }
    ensures again { IfOk result (λ r. CanComeAgain history.now) }
    ensures few { fin.len marks.now ≤ 64 }
{
    let _few = marks.count();
    let messages = history.numbered(alloc)?;
    let mut records = message_records(alloc, messages, last)?;
    push_names(alloc, &mut records, marks, latest)?;
    push_channels(alloc, &mut records, channels)?;
    Ok(records)
}

/// The records that say all that is kept, to be written after a header, which is that for rings if
/// [`has_rings`] says so: the messages, each with its number, the client names with their marks and
/// with what their sessions were given since (`latest`; a name has a mark there if its last `SEEN`
/// came after its last `MARK`), and the channels that we are on. `None` comes exactly if the last
/// number was given, after which no journal can go on. It takes the memory of the messages once
/// more.
#[tactic(auto, using(crate::proofs::Snapshots::given_back, crate::proofs::Capacities::all_fit))]
pub fn snapshot(
    alloc: Global,
    history: &History,
    marks: &Marks,
    latest: &Marks,
    channels: &[Channel],
) -> Result<Option<Vec<Record>>, OutOfMemory>
    ensures records { IfOk result (λ r. IfSome r (λ records. IfSome history.now.next (λ last.
        parts_of_all records.items ≡ snapshot_of last history.now marks.now latest.now
        (map channel_parts channels.now)))) }
    // They give all of it back: what is kept after them from nothing. A history of any capacity has
    // the messages that it retains of these,
    ensures again { IfOk result (λ r. IfSome r (λ records. IfSome history.now.next (λ last.
        GivesBack (parts_of_all records.items) last history.now marks.now latest.now
        (map channel_parts channels.now)))) }
    // which are all for the same capacity and for a larger one.
    ensures whole { (capacity : ℕ) → history.now.capacity ≤ capacity → IfOk result (λ r. IfSome r
        (λ records. in_capacity capacity history.now
        ≡ record history.now { capacity = capacity })) }
    ensures spent { IfOk result (λ r. IfNone r (history.now.next ≡ None)) }
{
    match history.next_number() {
        Some(last) => {
            let records = all_records(alloc, history, marks, latest, channels, last)?;
            Ok(Some(records))
        }
        None => Ok(None),
    }
}

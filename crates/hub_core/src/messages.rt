//! Which items are messages, and how these are kept.

ghost use Rattle.std.specs.Prelude.{ℕ, ◌≡◌, IfErr, IfOk, IfSome, IsSome, OnErr, OnOk, is_some};
ghost use Rattle.std.specs.Prelude.{option_map};
ghost use Rattle.std.specs.Option.{option_and_then};
ghost use Rattle.net_view.specs.Arrival.{arrival_of};
ghost use Rattle.history.specs.Entry.{IsWrittenEntry, in_ring};
ghost use Rattle.history.specs.Keeping.{kept_by, ring_heard};
ghost use Rattle.hub_core.specs.Pumping.{entry_for, entry_kept, with_entry};

use crate::hub::HubError;
use client_caps::{Moment, shown_time};
use history::{Entry, History, Keeping, PushError};
use net_view::{Item, OutOfMemory};
use std::alloc::Global;

/// Whether an item that was heard is a message that is kept.
pub fn is_kept(keeping: &Keeping, item: &Item) -> bool
    ensures { (moment : ℕ) → result
        ≡ is_some (entry_kept (kept_by keeping.now) (arrival_of item.now, moment)) }
{
    match item {
        Item::Line(line) => keeping.is_kept_heard(line),
        Item::Lost => false,
    }
}

/// The name of the person in whose ring an item is kept that was heard, if it is a message; `None` if
/// that is the ring of its target.
pub fn ring_heard<'i>(keeping: &Keeping, item: &'i Item) -> Option<&'i [u8]>
    ensures { (moment : ℕ) → option_map (λ name. name.now) result ≡ option_and_then
        (ring_heard (kept_by keeping.now)) (entry_for (arrival_of item.now, moment)) }
{
    match item {
        Item::Line(line) => keeping.ring_heard(line),
        Item::Lost => None,
    }
}

/// The entry of an item, if it is a message, in the ring of a person of this name, or in that of its
/// target.
pub fn entry_of(
    alloc: Global,
    ring: Option<&[u8]>,
    item: &Item,
    moment: Moment,
) -> Result<Option<Entry>, OutOfMemory>
    ensures made { IfOk result (λ entry. entry
        ≡ option_map (in_ring (option_map (λ name. name.now) ring.entry))
        (entry_for (arrival_of item.now, moment.0))) }
    ensures written { IfOk result (λ entry. IfSome entry IsWrittenEntry) }
{
    match item {
        Item::Line(line) => {
            let time = shown_time(line, moment);
            Entry::of_message_in(alloc, ring, &time, line)
        }
        Item::Lost => Ok(None),
    }
}

/// Keeps a message, if there is one. The caller ensures that there is a number for it.
/// After an error nothing has changed.
pub fn keep(history: &mut History, entry: Option<Entry>) -> Result<(), HubError>
    requires { IsSome entry → IsSome history.old.next }
    ensures ok { OnOk result (history.new ≡ with_entry history.old entry) }
    ensures err { IfErr result (λ e. e ≡ HubError.OutOfMemory) }
    ensures same { OnErr result (history.new ≡ history.old) }
{
    let Some(entry) = entry else {
        return Ok(());
    };
    match history.add(entry) {
        Ok(_) => Ok(()),
        Err(PushError::OutOfMemory) => Err(HubError::OutOfMemory),
        Err(PushError::Spent) => unreachable!(),
    }
}

//! What a journal reads of a hub.

use history::{AdmitError, Marks};
use hub_core::channel_key;
use hub_threads::RingHub;
use journal::Channel;
use net_view::NetworkView;
use std::alloc::{AllocError, Global};

/// Adds a channel.
fn push_channel(
    alloc: Global,
    channels: &mut Vec<Channel>,
    name: &[u8],
    key: Option<&[u8]>,
) -> Result<(), AllocError> {
    let key = match key {
        Some(key) => Some(Vec::from_slice(alloc, key)?),
        None => None,
    };
    let name = Vec::from_slice(alloc, name)?;
    channels.push(Channel { name, key })?;
    Ok(())
}

/// The key that the network gave for a channel, or else the one by which a client joined it.
fn key_or_joined<'a, V: NetworkView + Drop>(
    hub: &'a RingHub<V>,
    name: &[u8],
    told: Option<&'a [u8]>,
) -> Option<&'a [u8]> {
    match told {
        Some(key) => Some(key),
        None => hub.joined_key(name),
    }
}

/// The channels that are to be joined after a restart, each with its key: those that we are on, those
/// that a loss took and those of before, which are not joined again yet.
pub fn channels_of<V: NetworkView + Drop>(
    alloc: Global,
    hub: &RingHub<V>,
) -> Result<Vec<Channel>, AllocError> {
    let mut channels = Vec::new(alloc);
    let view = hub.view();
    for i in 0..view.channel_count() {
        if let Some(channel) = view.channel_at(i) {
            let key = key_or_joined(hub, channel.name, channel_key(view, i));
            push_channel(alloc, &mut channels, channel.name, key)?;
        }
    }
    for i in 0..hub.lost_channel_count() {
        if let Some(channel) = hub.lost_channel_at(i) {
            let key = key_or_joined(hub, &channel.name, channel.key.as_deref());
            push_channel(alloc, &mut channels, &channel.name, key)?;
        }
    }
    for channel in hub.recalled_channels() {
        push_channel(alloc, &mut channels, &channel.name, channel.key.as_deref())?;
    }
    Ok(channels)
}

/// How far the sessions of a client name are.
#[derive(Clone, Copy, PartialEq, Eq)]
enum Progress {
    /// It has none.
    Absent,
    /// The writer of each has written all that it was sent.
    Written,
    /// One has not.
    Behind,
}

/// How far the sessions of a name are, as far as is known.
fn progress_of<V: NetworkView + Drop>(hub: &RingHub<V>, name: &[u8]) -> Progress {
    let mut progress = Progress::Absent;
    for i in 0..usize::MAX {
        let Some((id, of)) = hub.session_at(i) else {
            break;
        };
        if of != Some(name) {
            continue;
        }
        match hub.outlet(id) {
            Some(outlet) if !outlet.is_written() => return Progress::Behind,
            _ => progress = Progress::Written,
        }
    }
    progress
}

/// Notes that a name was given all up to a number.
fn note(latest: &mut Marks, name: &[u8], number: u64) -> Result<(), AllocError> {
    match latest.admit(name) {
        Ok(_) => {
            latest.set_mark(name, number);
            Ok(())
        }
        // a hub has no more names
        Err(AdmitError::NamesFull) => Ok(()),
        Err(AdmitError::OutOfMemory) => Err(AllocError),
    }
}

/// What was given to the sessions of each client name that has some: the number of the last message,
/// if the writer of each has written all that it was sent, and else what was given before, unless the
/// name's mark is above that. And whether one is behind.
pub fn latest_of<V: NetworkView + Drop>(
    alloc: Global,
    hub: &RingHub<V>,
    before: &Marks,
) -> Result<(Marks, bool), AllocError> {
    let mut latest = Marks::new(alloc)?;
    let mut is_behind = false;
    for i in 0..hub.marks().count() {
        let Some((name, mark)) = hub.marks().at(i) else {
            break;
        };
        let given = match progress_of(hub, name) {
            Progress::Absent => None,
            Progress::Written => hub.history().last_number(),
            Progress::Behind => {
                is_behind = true;
                before.mark(name)
            }
        };
        match given {
            Some(number) if Some(number) >= mark => note(&mut latest, name, number)?,
            _ => {}
        }
    }
    Ok((latest, is_behind))
}

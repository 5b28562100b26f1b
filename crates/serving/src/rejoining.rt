//! The channels of lost connections, joined again on the next one.

use crate::dialling::Dialling;
use bnc_config::NetworkConfig;
use hub_core::LostChannel;
use hub_threads::RingHub;
use irc_line::{Line, MakeError};
use irc_names::CaseMapping;
use irc_support::Support;
use net_view::{NetworkView, is_word};
use quick_view::QuickView;
use std::alloc::{AllocError, Global};
use std::io;
use std::io::Write;
use std::sync::Wait;
use upstream::channel_lines_by;

/// How long a line may be without CR LF, in bytes. One channel alone may take more.
const LINE_LIMIT: usize = 400;

/// JOIN lines, each with all the channels that it has room for: `JOIN #a,#b,#c keya,keyb`. The
/// first key is for the first channel, and so on (RFC 2812, section 3.2.1), so the fewest lines
/// come of channels that are added with keys first.
#[derive(Drop)]
pub struct JoinLines {
    alloc: Global,
    // the lines that are whole
    written: Vec<u8>,
    // the channels and the keys of the next line
    channels: Vec<u8>,
    keys: Vec<u8>,
    // whether a channel of the next line has no key, so that no other can have one
    is_open: bool,
}

/// Whether a text can be in a list of a line: a word without a comma.
fn can_be_listed(text: &[u8]) -> bool {
    is_word(text) && !text.contains(&b',')
}

/// Whether a channel can be asked for.
fn can_be_asked_for(name: &[u8], key: Option<&[u8]>) -> bool {
    match key {
        Some(key) => can_be_listed(name) && can_be_listed(key),
        None => can_be_listed(name),
    }
}

/// How long a list is with one more item.
fn length_with(list: &[u8], item: &[u8]) -> usize {
    let comma = usize::from(!list.is_empty());
    list.len().saturating_add(comma).saturating_add(item.len())
}

/// Adds an item to a list.
fn push_item(list: &mut Vec<u8>, item: &[u8]) -> Result<(), AllocError> {
    if !list.is_empty() {
        list.push(b',')?;
    }
    list.extend_from_slice(item)
}

impl JoinLines {
    /// No lines.
    pub fn new(alloc: Global) -> JoinLines {
        JoinLines {
            alloc,
            written: Vec::new(alloc),
            channels: Vec::new(alloc),
            keys: Vec::new(alloc),
            is_open: false,
        }
    }

    /// Whether the next line has room for a channel.
    fn has_room_for(&self, name: &[u8], key: Option<&[u8]>) -> bool {
        if self.is_open && key.is_some() {
            return false;
        }
        let channels = length_with(&self.channels, name);
        let keys = match key {
            Some(key) => length_with(&self.keys, key),
            None => self.keys.len(),
        };
        let space = usize::from(keys > 0);
        let lists = channels.saturating_add(space).saturating_add(keys);
        lists.saturating_add(b"JOIN ".len()) <= LINE_LIMIT
    }

    /// Writes the next line, if it has a channel.
    fn end_line(&mut self) -> Result<(), AllocError> {
        if self.channels.is_empty() {
            return Ok(());
        }
        let made = if self.keys.is_empty() {
            Line::make(self.alloc, None, b"JOIN", &[self.channels.as_slice()])
        } else {
            Line::make(
                self.alloc,
                None,
                b"JOIN",
                &[self.channels.as_slice(), self.keys.as_slice()],
            )
        };
        match made {
            Ok(line) => line.write(&mut self.written)?,
            Err(MakeError::NotALine) => {}
            Err(MakeError::OutOfMemory) => return Err(AllocError),
        }
        self.channels.clear();
        self.keys.clear();
        self.is_open = false;
        Ok(())
    }

    /// Adds a channel, with its key if it has one. What can't be in a list is left out. After an
    /// error nothing is known about the lines.
    pub fn add(&mut self, name: &[u8], key: Option<&[u8]>) -> Result<(), AllocError> {
        if !can_be_asked_for(name, key) {
            return Ok(());
        }
        if !self.has_room_for(name, key) {
            self.end_line()?;
        }
        push_item(&mut self.channels, name)?;
        match key {
            Some(key) => push_item(&mut self.keys, key),
            None => {
                self.is_open = true;
                Ok(())
            }
        }
    }

    /// The bytes of all lines.
    pub fn finish(self) -> Result<Vec<u8>, AllocError> {
        let mut lines = self;
        lines.end_line()?;
        Ok(lines.written)
    }
}

/// Whether the settings join the channel of this name by themselves.
fn is_in_settings(settings: &NetworkConfig, name: &[u8]) -> bool {
    let mut names = settings.join().iter();
    names.any(|joined| joined.as_bytes() == name)
}

/// The key of a channel that we were on: the one that it had when the connection was lost, or else
/// the one by which a client had joined it.
fn known_key<'a>(hub: &'a RingHub<QuickView>, channel: &'a LostChannel) -> Option<&'a [u8]> {
    match &channel.key {
        Some(key) => Some(key.as_slice()),
        None => hub.joined_key(&channel.name),
    }
}

/// By which mapping a network compares names, once it has sent a 005. Before that `ascii` is taken.
pub(crate) fn mapping_told(support: &Support<Global>) -> Option<CaseMapping> {
    if support.token_count() == 0 {
        return None;
    }
    Some(support.mapping())
}

/// Adds a channel with its key that is known, or else that of the settings, if it has one, or if it has
/// none. A channel with no key known is left out if the settings join it.
fn add_lost(
    lines: &mut JoinLines,
    settings: &NetworkConfig,
    mapping: CaseMapping,
    name: &[u8],
    known: Option<&[u8]>,
    has_key: bool,
) -> Result<(), AllocError> {
    let key = match known {
        Some(key) => Some(key),
        None => settings.key_by(mapping, name),
    };
    if key.is_some() != has_key || known.is_none() && is_in_settings(settings, name) {
        return Ok(());
    }
    lines.add(name, key)
}

/// Adds a channel with its key, if one is known.
fn push_known(
    alloc: Global,
    known: &mut Vec<(Vec<u8>, Vec<u8>)>,
    name: &[u8],
    key: Option<&[u8]>,
) -> Result<(), AllocError> {
    if let Some(key) = key {
        known.push((Vec::from_slice(alloc, name)?, Vec::from_slice(alloc, key)?))?;
    }
    Ok(())
}

/// Notes the keys by which these channels are asked for, so that they are known after the next loss too.
fn expect_keys(alloc: Global, hub: &mut RingHub<QuickView>) -> Result<(), AllocError> {
    let mut known = Vec::new(alloc);
    for i in 0..hub.lost_channel_count() {
        let Some(channel) = hub.lost_channel_at(i) else {
            break;
        };
        push_known(alloc, &mut known, &channel.name, known_key(hub, channel))?;
    }
    for channel in hub.recalled_channels() {
        push_known(alloc, &mut known, &channel.name, channel.key.as_deref())?;
    }
    for (name, key) in &known {
        if hub.expect_key(name, key).is_err() {
            return Err(AllocError);
        }
    }
    Ok(())
}

/// The JOIN lines of the channels that we were on when a connection was lost, or before a restart,
/// except those that the settings join. Names are compared by the mapping that the network
/// announced, or else by what its hub has of it. From then on the hub expects their keys.
fn joins<R: Wait>(
    dialling: &Dialling<'_, R>,
    settings: &NetworkConfig,
    told: Option<CaseMapping>,
) -> Result<Vec<u8>, AllocError> {
    let mut lines = JoinLines::new(dialling.alloc);
    let Some(network) = dialling.station.slot().network(dialling.rt) else {
        return lines.finish();
    };
    let mut hub = network.lock(dialling.rt);
    let told = told.or(mapping_told(hub.view().support()));
    let mapping = told.unwrap_or(CaseMapping::Ascii);
    for has_key in [true, false] {
        for i in 0..hub.lost_channel_count() {
            let Some(channel) = hub.lost_channel_at(i) else {
                break;
            };
            let key = known_key(&hub, channel);
            add_lost(&mut lines, settings, mapping, &channel.name, key, has_key)?;
        }
        for channel in hub.recalled_channels() {
            let key = channel.key.as_deref();
            add_lost(&mut lines, settings, mapping, &channel.name, key, has_key)?;
        }
    }
    expect_keys(dialling.alloc, &mut *hub)?;
    lines.finish()
}

/// The JOIN lines of all channels: those of the settings, and those that we were on when a connection
/// was lost, or before a restart. Names are compared by the mapping that the network announced, so
/// a channel has its key in the settings also if it has other letters there that the network takes
/// for the same.
pub(crate) fn all_joins<R: Wait>(
    dialling: &Dialling<'_, R>,
    settings: &NetworkConfig,
    told: Option<CaseMapping>,
) -> Result<Vec<u8>, AllocError> {
    let mapping = told.unwrap_or(CaseMapping::Ascii);
    let mut bytes = Vec::new(dialling.alloc);
    for line in &channel_lines_by(dialling.alloc, settings, mapping)? {
        line.write(&mut bytes)?;
    }
    bytes.extend_from_slice(&joins(dialling, settings, told)?)?;
    Ok(bytes)
}

/// Adds a channel to names, if it can be asked for.
fn push_name(
    alloc: Global,
    names: &mut Vec<Vec<u8>>,
    name: &[u8],
    key: Option<&[u8]>,
) -> Result<(), AllocError> {
    if !can_be_asked_for(name, key) {
        return Ok(());
    }
    Ok(names.push(Vec::from_slice(alloc, name)?)?)
}

/// The names of all these channels.
pub(crate) fn all_names<R: Wait>(
    dialling: &Dialling<'_, R>,
    settings: &NetworkConfig,
) -> Result<Vec<Vec<u8>>, AllocError> {
    let alloc = dialling.alloc;
    let mut names = Vec::new(alloc);
    for list in settings.join() {
        for name in list.as_bytes().split(|byte| *byte == b',') {
            push_name(alloc, &mut names, name, None)?;
        }
    }
    let Some(network) = dialling.station.slot().network(dialling.rt) else {
        return Ok(names);
    };
    let hub = network.lock(dialling.rt);
    for i in 0..hub.lost_channel_count() {
        if let Some(channel) = hub.lost_channel_at(i) {
            push_name(alloc, &mut names, &channel.name, known_key(&hub, channel))?;
        }
    }
    for channel in hub.recalled_channels() {
        push_name(alloc, &mut names, &channel.name, channel.key.as_deref())?;
    }
    Ok(names)
}

/// Asks a network for the channels that we were on when a connection was lost, or before a restart,
/// each with its key, except those that the settings join. An error if not all of them could be asked for.
pub(crate) fn rejoin<R: Wait, W: Write>(
    dialling: &Dialling<'_, R>,
    settings: &NetworkConfig,
    writer: &mut W,
) -> io::Result<()> {
    let bytes = joins(dialling, settings, None)?;
    writer.write_all(bytes.as_slice())
}

//! The channels that we were on when a connection was lost, to be joined again.

ghost use Rattle.std.specs.Prelude.{◌≡◌, ◌≤◌, ◌+◌, ◌++◌, IfOk, OnOk, IfSome, map, option_map};
ghost use Rattle.std.specs.Prelude.{None, T, filter, length, not, option_to_list};
ghost use Rattle.std.specs.List.{slice_get};
ghost use Rattle.std.specs.Option.{option_and_then};
ghost use Rattle.std.specs.FinMap as fin;
ghost use Rattle.irc_support.specs.Settings.{key_by};
ghost use Rattle.irc_support.specs.Text.{Text};
ghost use Rattle.net_view.specs.Arrival.{Received, arrival_of};
ghost use Rattle.net_view.specs.Names.{bytes_cmp};
ghost use Rattle.net_view.specs.Readers.{channel_shown};
ghost use Rattle.net_view.specs.Step.{standing_of};
ghost use Rattle.net_view.specs.Transcript.{is_us};
ghost use Rattle.network_tables.specs.Shown.{shown};
ghost use Rattle.hub_core.specs.LostChannels.{channels_of_view, is_settled, joining, keyed};
ghost use Rattle.hub_core.specs.LostChannels.{key_of_channel, lost_by, lost_then, put_all};
ghost use Rattle.hub_core.specs.LostChannels.{is_named, settles, still};
ghost use Rattle.hub_core.specs.Weights.{joining_bytes};

use irc_line::Line;
use irc_names::CaseMapping;
use net_view::{Item, NetworkView, OutOfMemory, Telling, told};
use network_tables::{Entry, Sought, Table, TableValue, copy_of, text_weight};
use std::alloc::Global;
use weights::{NAME, more};

/// A channel that we were on when a connection was lost.
#[derive(Drop)]
pub struct LostChannel {
    /// Its name.
    pub name: Vec<u8>,
    /// Its key, the parameter of its mode `k`, if it had one (RFC 2811, section 4.2.10).
    pub key: Option<Vec<u8>>,
}

impl TableValue for LostChannel {
    ghost weight = { λ channel. joining_bytes (joining channel) };

    fn weight(&self) -> u64 {
        let named = more(NAME, self.name.len() as u64);
        more(named, text_weight(&self.key))
    }
}

/// The channels that are to be joined again, by the keys of their names.
pub type LostChannels = Table<LostChannel, Global>;

/// One of them, as it is to be kept.
pub type LostEntry = Box<Entry<LostChannel, Global>>;

/// Which of the channels to be joined again a line takes off: it is our own JOIN, PART or QUIT, or
/// a KICK of us.
#[derive(Clone, Copy)]
pub enum Settled<'a> {
    Nothing,
    One(CaseMapping, &'a [u8]),
    All,
}

/// The place after `j`, where this letter is: letters rise, so it is no greater than 256.
fn place_after(j: usize, letter: u8) -> usize
    requires { j ≤ letter }
    ensures next { result ≡ j + 1 }
    ensures few { result ≤ 256 }
{
    j + 1
}

/// The key of the channel at place `i` of a view, the parameter of its mode `k` (RFC 2811, section
/// 4.2.10); `None` if it has no key, and from the number of channels on.
pub fn channel_key<V: NetworkView>(view: &V, i: usize) -> Option<&[u8]>
    ensures { option_map (λ key. key.now) result
        ≡ option_and_then key_of_channel (channel_shown (V.view view.now) i) }
{
    let mut j = 0;
    while let Some((letter, param)) = view.mode_at(i, j) {
        if letter == b'k' {
            return param;
        }
        j = place_after(j, letter);
    }
    None
}

/// Adds the channel at place `i`, if there is one.
fn push_channel<V: NetworkView>(
    alloc: Global,
    channels: &mut Vec<LostEntry>,
    view: &V,
    i: usize,
) -> Result<(), OutOfMemory>
    ensures { OnOk result (map (λ e. keyed e.value) channels.new.items
        ≡ map (λ e. keyed e.value) channels.old.items
        ++ option_to_list (slice_get (channels_of_view (V.view view.now)) i)) }
{
    view.comes_from_lines();
    if let Some(channel) = view.channel_at(i) {
        let folded = view.support().mapping().key(alloc, channel.name)?;
        let name = channel.name.to_vec(alloc)?;
        let key = copy_of(alloc, channel_key(view, i))?;
        let entry = Entry {
            key: folded,
            value: LostChannel { name, key },
            near: 0,
        };
        channels.push(Box::new(alloc, entry)?)?;
    }
    Ok(())
}

/// The channels of a view.
#[tactic(auto, using(crate::proofs::LostChannels::channel_steps))]
fn channels_of<V: NetworkView>(alloc: Global, view: &V) -> Result<Vec<LostEntry>, OutOfMemory>
    ensures { IfOk result (λ channels. map (λ e. keyed e.value) channels.items
        ≡ channels_of_view (V.view view.now)) }
{
    let mut channels = Vec::new(alloc);
    for i in 0..view.channel_count() {
        push_channel(alloc, &mut channels, view, i)?;
    }
    Ok(channels)
}

/// The channels that an item takes from us, with room made for them: of a loss those of the view
/// before it.
pub fn lost_by<V: NetworkView>(
    alloc: Global,
    view: &V,
    item: &Item,
    lost: &mut LostChannels,
) -> Result<Option<Vec<LostEntry>>, OutOfMemory>
    ensures all { lost.new.all ≡ lost.old.all }
    ensures new { IfOk result (λ new.
        option_map (λ channels. map (λ e. keyed e.value) channels.items) new
        ≡ lost_by (V.view view.now) (arrival_of item.now)) }
    ensures room { IfOk result (λ new.
        IfSome new (λ channels. length channels.items ≤ lost.new.spare)) }
{
    match item {
        Item::Line(_) => Ok(None),
        Item::Lost => {
            let channels = channels_of(alloc, view)?;
            lost.reserve(channels.len())?;
            Ok(Some(channels))
        }
    }
}

/// Whether the nick is ours.
pub fn is_us<V: NetworkView>(view: &V, nick: &[u8]) -> bool
    ensures { result ≡ is_us (standing_of (V.view view.now))
        (key_by (V.view view.now).settings nick.now) }
{
    match view.own() {
        Some(own) => view.support().mapping().order(own, nick).is_eq(),
        None => false,
    }
}

/// Which channels a line takes off.
fn settled_by_line<'a, V: NetworkView>(view: &V, line: &'a Line) -> Settled<'a>
    ensures lost { (c : Text) →
        is_settled result c ≡ settles (V.view view.now) (Received line.now) c }
    ensures named { (name : Text) → is_named result name
        ≡ settles (V.view view.now) (Received line.now) (key_by (V.view view.now).settings name) }
{
    let mapping = view.support().mapping();
    match told(line) {
        Telling::Joined { channel, who, .. } => {
            if is_us(view, who) && view.support().is_channel(channel) {
                Settled::One(mapping, channel)
            } else {
                Settled::Nothing
            }
        }
        Telling::Parted { channel, who } | Telling::Kicked { channel, who } => {
            if is_us(view, who) {
                Settled::One(mapping, channel)
            } else {
                Settled::Nothing
            }
        }
        Telling::Quits { who } => {
            if is_us(view, who) {
                Settled::All
            } else {
                Settled::Nothing
            }
        }
        _ => Settled::Nothing,
    }
}

/// Which of these channels, and of those of before, an item takes off, by the view before it.
pub fn settled_by<'a, V: NetworkView>(
    view: &V,
    item: &'a Item,
    lost: &LostChannels,
    recalled: &Vec<LostChannel>,
) -> Settled<'a>
    ensures lost { (c : Text) →
        lost_then None (is_settled result c) c (fin.get (shown joining lost.now.all) c)
        ≡ lost_then None (settles (V.view view.now) (arrival_of item.now) c) c
        (fin.get (shown joining lost.now.all) c) }
    ensures recalled { filter (λ channel. not (is_named result channel.0))
        (map joining recalled.now.items)
        ≡ still (V.view view.now) (arrival_of item.now) (map joining recalled.now.items) }
{
    if lost.len() == 0 && recalled.is_empty() {
        return Settled::Nothing;
    }
    match item {
        Item::Line(line) => settled_by_line(view, line),
        Item::Lost => Settled::Nothing,
    }
}

/// Takes channels off.
fn forget(lost: &mut LostChannels, settled: Settled<'_>)
    ensures { (c : Text) → fin.get (shown joining lost.new.all) c
        ≡ lost_then None (is_settled settled.entry c) c
        (fin.get (shown joining lost.old.all) c) }
{
    match settled {
        Settled::Nothing => {}
        Settled::One(mapping, channel) => {
            let _ = lost.remove(Sought::Name(mapping, channel));
        }
        Settled::All => lost.clear(),
    }
}

/// Whether the channel of this name is taken off.
fn is_named(settled: Settled<'_>, name: &[u8]) -> bool
    ensures { result ≡ is_named settled.entry name.now }
{
    match settled {
        Settled::Nothing => false,
        Settled::One(mapping, channel) => mapping.order(name, channel).is_eq(),
        Settled::All => true,
    }
}

/// Takes channels of before off.
pub fn drop_named(recalled: &mut Vec<LostChannel>, settled: Settled<'_>)
    ensures { map joining recalled.new.items ≡ filter
        (λ channel. not (is_named settled.entry channel.0)) (map joining recalled.old.items) }
{
    recalled.retain(|channel| !is_named(settled, &channel.name));
}

/// Adds channels, for which there is room, each in the place of one of the same key.
fn add(lost: &mut LostChannels, new: Vec<LostEntry>)
    requires { length new.items ≤ lost.old.spare }
    ensures { shown joining lost.new.all ≡ put_all (shown joining lost.old.all)
        (map (λ e. keyed e.value) new.items) }
{
    for channel in new {
        lost.insert(channel);
    }
}

/// Takes channels off, or else adds these, for which there is room.
#[tactic(auto, using(crate::proofs::LostChannels::put_in))]
pub fn renew(lost: &mut LostChannels, settled: Settled<'_>, new: Option<Vec<LostEntry>>)
    requires room { IfSome new (λ channels. length channels.items ≤ lost.old.spare) }
    requires order { IfSome new (λ channels. T (fin.is_sorted bytes_cmp
        (map (λ e. keyed e.value) channels.items))) }
    ensures { (c : Text) → fin.get (shown joining lost.new.all) c
        ≡ lost_then (option_map (λ channels. map (λ e. keyed e.value) channels.items) new)
        (is_settled settled.entry c) c (fin.get (shown joining lost.old.all) c) }
{
    match new {
        Some(new) => add(lost, new),
        None => forget(lost, settled),
    }
}

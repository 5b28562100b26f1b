//! The messages for no channel that we are on, by channels and persons.

ghost use Rattle.std.specs.Prelude.{◌≡◌, ◌<◌, ◌≤◌, ◌+◌, ◌^◌, ◌++◌, ◌∷◌, [], IfOk, OnOk, length, map};
ghost use Rattle.std.specs.Prelude.{filter};
ghost use Rattle.std.specs.List.{flat_map};
ghost use Rattle.irc_line.specs.Line.{is_line_byte, nick_of};
ghost use Rattle.irc_line.specs.Writing.{is_clean, written};
ghost use Rattle.welcome.specs.Arranged.{put_at};
ghost use Rattle.welcome.specs.Playing.{group_key, group_lines, groups_by, groups_lines};
ghost use Rattle.welcome.specs.declared.others.Sort.TheVariants.{Visits};
ghost use Rattle.welcome.specs.Playback.{backlog_of};
ghost use Rattle.welcome.specs.Playing.{apart_groups, apart_lines, around, can_name, is_for_us, is_of};
ghost use Rattle.welcome.specs.Playing.{is_visiting, name_by, other_groups, partner_of};
ghost use Rattle.welcome.specs.Playing.{sort_of_channels, visit_lines};
ghost use Rattle.welcome.specs.Times.{stamped};

use crate::backlog::{push_backlog, push_group_entries};
use crate::channel::push_join_from;
use crate::playing::{Offset, Playing};
use crate::visits::{own_spelled, push_visit_part};
use client_caps::Caps;
use history::Entry;
use indexmap::IndexSet;
use irc_line::place_of;
use irc_names::CaseMapping;
use net_view::{NetworkView, OutOfMemory, is_word};
use std::alloc::Allocator;
use std::hash::{BuildHasherDefault, FoldHasher};

/// What messages are grouped by.
#[derive(Clone, Copy, Debug, PartialEq, Eq)]
pub enum Sort {
    /// The channel that they are for.
    Channels,
    /// The person with whom they were exchanged.
    Persons,
    /// The channel that they are for, between a JOIN and a PART of ours.
    Visits,
}

/// Keys, in the order in which they came first.
type Keys<A> = IndexSet<Vec<u8, A>, BuildHasherDefault<FoldHasher>, A>;

/// The nick of a source.
fn nick_of(source: &[u8]) -> &[u8]
    ensures { result.now ≡ nick_of source.now }
{
    match (place_of(b'!', source), place_of(b'@', source)) {
        (Some(end), _) | (None, Some(end)) => &source[..end],
        (None, None) => source,
    }
}

/// Whether a message is for us.
fn is_for_us<V: NetworkView, B: Allocator>(view: &V, entry: &Entry<B>) -> bool
    ensures { result ≡ is_for_us (V.view view.now) entry.now }
{
    match view.own() {
        Some(own) => view.support().mapping().order(entry.target(), own).is_eq(),
        None => false,
    }
}

/// With whom a message was exchanged: the person in whose ring it is kept; without one, who said it to
/// us, else its target.
fn partner_of<'e, V: NetworkView, B: Allocator>(view: &V, entry: &'e Entry<B>) -> &'e [u8]
    ensures { result.now ≡ partner_of (V.view view.now) entry.now }
{
    match entry.ring() {
        Some(name) => name,
        None if is_for_us(view, entry) => nick_of(entry.source()),
        None => entry.target(),
    }
}

/// What the batch of a message is named after.
fn name_by<'e, V: NetworkView, B: Allocator>(sort: Sort, view: &V, entry: &'e Entry<B>) -> &'e [u8]
    ensures { result.now ≡ name_by sort (V.view view.now) entry.now }
{
    match sort {
        Sort::Channels | Sort::Visits => entry.target(),
        Sort::Persons => partner_of(view, entry),
    }
}

/// What a message is grouped by: the key of its channel, or of its person.
fn key_by<V: NetworkView, A: Allocator, B: Allocator>(
    alloc: A,
    sort: Sort,
    view: &V,
    entry: &Entry<B>,
) -> Result<Vec<u8, A>, OutOfMemory>
    ensures { IfOk result (λ key. key.items ≡ group_key sort (V.view view.now) entry.now) }
{
    match sort {
        Sort::Channels | Sort::Visits => view.support().mapping().key(alloc, entry.target()),
        Sort::Persons => CaseMapping::Ascii.key(alloc, partner_of(view, entry)),
    }
}

/// Adds an entry to the group at a place, or to a new one at the end.
#[tactic(auto, using(crate::proofs::OthersGrouped::put_steps))]
fn put_at<'e, A: Allocator + Copy, B: Allocator>(
    alloc: A,
    groups: &mut Vec<Vec<&'e Entry<B>, A>, A>,
    place: usize,
    entry: &'e Entry<B>,
) -> Result<(), OutOfMemory>
    ensures { OnOk result (map (λ group. map (λ entry. entry.now) group.items) groups.new.items
        ≡ put_at place entry.now
        (map (λ group. map (λ entry. entry.now) group.items) groups.old.items)) }
{
    if place < groups.len() {
        groups[place].push(entry)?;
    } else {
        let group = Vec::from_slice(alloc, &[entry])?;
        groups.push(group)?;
    }
    Ok(())
}

/// The messages by their keys, each group where its first one is.
fn grouped_by<'e, V: NetworkView, A: Allocator + Copy, B: Allocator>(
    alloc: A,
    sort: Sort,
    view: &V,
    entries: &[&'e Entry<B>],
) -> Result<Vec<Vec<&'e Entry<B>, A>, A>, OutOfMemory>
    ensures { IfOk result (λ groups. map (λ group. map (λ entry. entry.now) group.items)
        groups.items ≡ groups_by (group_key sort (V.view view.now))
        (map (λ entry. entry.now) entries.now)) }
{
    let mut keys: Keys<A> = IndexSet::new(alloc);
    let mut groups = Vec::new(alloc);
    for entry in entries {
        let key = key_by(alloc, sort, view, entry)?;
        let Ok((place, _)) = keys.insert_full(key) else {
            return Err(OutOfMemory);
        };
        put_at(alloc, &mut groups, place, entry)?;
    }
    Ok(groups)
}

/// Whether a message is for a channel, by its name, or for anybody else.
fn is_of<V: NetworkView, B: Allocator>(sort: Sort, view: &V, entry: &Entry<B>) -> bool
    ensures { result ≡ is_of sort (V.view view.now) entry.now }
{
    match sort {
        Sort::Channels | Sort::Visits => view.support().is_channel(entry.target()),
        Sort::Persons => !view.support().is_channel(entry.target()),
    }
}

/// The messages for channels, or those for anybody else.
#[tactic(auto, using(crate::proofs::OthersGrouped::chosen_steps))]
fn chosen<'e, V: NetworkView, A: Allocator, B: Allocator>(
    alloc: A,
    sort: Sort,
    view: &V,
    entries: &[&'e Entry<B>],
) -> Result<Vec<&'e Entry<B>, A>, OutOfMemory>
    ensures { IfOk result (λ those. map (λ entry. entry.now) those.items
        ≡ filter (is_of sort (V.view view.now)) (map (λ entry. entry.now) entries.now)) }
{
    let mut those = Vec::new(alloc);
    for entry in entries {
        if is_of(sort, view, entry) {
            those.push(*entry)?;
        }
    }
    Ok(those)
}

/// The groups of the channels that we are not on, or those of everybody else.
fn other_groups<'e, V: NetworkView, A: Allocator + Copy, B: Allocator>(
    alloc: A,
    sort: Sort,
    view: &V,
    others: &[&'e Entry<B>],
) -> Result<Vec<Vec<&'e Entry<B>, A>, A>, OutOfMemory>
    ensures { IfOk result (λ groups. map (λ group. map (λ entry. entry.now) group.items)
        groups.items ≡ other_groups sort (V.view view.now)
        (map (λ entry. entry.now) others.now)) }
{
    let those = chosen(alloc, sort, view, others)?;
    grouped_by(alloc, sort, view, &those)
}

/// Adds the messages of a channel that we are not on, between a JOIN and a PART of ours.
fn push_visit<V: NetworkView, A: Allocator + Copy, B: Allocator>(
    text: &mut Vec<u8, A>,
    times: Option<Offset>,
    view: &V,
    caps: Caps,
    place: usize,
    name: &[u8],
    group: &[&Entry<B>],
) -> Result<(), OutOfMemory>
    ensures { OnOk result (text.new.items ≡ text.old.items ++ flat_map written
        (around Visits (V.view view.now) caps name.now (backlog_of caps place name.now
        (stamped times caps (map (λ entry. entry.now) group.now))))) }
{
    let nick = own_spelled(view);
    push_join_from(text, nick, view, caps, name)?;
    push_backlog(text, times, caps, place, name, group)?;
    push_visit_part(text, nick, name)
}

/// Adds a group that has a name, in a batch of that name, and in a visit of it.
fn push_named_group<V: NetworkView, A: Allocator + Copy, B: Allocator>(
    text: &mut Vec<u8, A>,
    times: Option<Offset>,
    sort: Sort,
    view: &V,
    caps: Caps,
    place: usize,
    name: &[u8],
    group: &[&Entry<B>],
) -> Result<(), OutOfMemory>
    ensures { OnOk result (text.new.items ≡ text.old.items ++ flat_map written
        (around sort (V.view view.now) caps name.now (backlog_of caps place name.now
        (stamped times caps (map (λ entry. entry.now) group.now))))) }
{
    match sort {
        Sort::Visits => push_visit(text, times, view, caps, place, name, group),
        Sort::Channels | Sort::Persons => push_backlog(text, times, caps, place, name, group),
    }
}

/// Whether a line may have this byte.
fn is_line_byte(byte: u8) -> bool
    ensures { result ≡ is_line_byte byte }
{
    !matches!(byte, 0 | b'\n' | b'\r')
}

/// Whether a line may have each of these bytes.
fn is_clean(text: &[u8]) -> bool
    ensures { result ≡ is_clean text.now }
{
    text.iter().all(|byte| is_line_byte(*byte))
}

/// Whether a batch can have this name: a word that can be written.
#[tactic(auto, using(client_caps::proofs::PartsWritten::same_words))]
fn can_name(name: &[u8]) -> bool
    ensures { result ≡ can_name name.now }
{
    is_word(name) && is_clean(name)
}

/// Adds a group, in a batch of its name if it can have one.
#[tactic(auto, using(crate::proofs::OthersGrouped::no_group))]
fn push_group<V: NetworkView, A: Allocator + Copy, B: Allocator>(
    text: &mut Vec<u8, A>,
    times: Option<Offset>,
    sort: Sort,
    view: &V,
    caps: Caps,
    place: usize,
    group: &[&Entry<B>],
) -> Result<(), OutOfMemory>
    ensures { OnOk result (text.new.items ≡ text.old.items ++ flat_map written
        (group_lines sort (V.view view.now) caps place
        (stamped times caps (map (λ entry. entry.now) group.now)))) }
{
    let Some(first) = group.first() else {
        return Ok(());
    };
    let name = name_by(sort, view, first);
    if can_name(name) {
        push_named_group(text, times, sort, view, caps, place, name, group)
    } else {
        push_group_entries(text, times, caps, None, group)
    }
}

/// Adds groups, whose batches are numbered from a place on.
#[tactic(auto, using(crate::proofs::PlaybackWhole::backlog_steps))]
fn push_groups_from<V: NetworkView, A: Allocator + Copy, B: Allocator>(
    text: &mut Vec<u8, A>,
    times: Option<Offset>,
    sort: Sort,
    view: &V,
    caps: Caps,
    first: usize,
    groups: &[Vec<&Entry<B>, A>],
) -> Result<(), OutOfMemory>
    requires { first + length groups.now < 2 ^ 64 }
    ensures { OnOk result (text.new.items ≡ text.old.items ++ flat_map written
        (groups_lines sort (V.view view.now) caps first
        (map (λ group. stamped times caps (map (λ entry. entry.now) group.items)) groups.now))) }
{
    for place in 0..groups.len() {
        push_group(text, times, sort, view, caps, first + place, &groups[place])?;
    }
    Ok(())
}

/// Whether the messages for channels that we are not on come between a JOIN and a PART of ours.
pub fn is_visiting<V: NetworkView>(playing: Playing, view: &V) -> bool
    ensures { result ≡ is_visiting playing (V.view view.now) }
{
    playing.visits && view.welcomed()
}

/// How the messages for channels that we are not on come in batches.
fn sort_of_channels<V: NetworkView>(playing: Playing, view: &V) -> Sort
    ensures { result ≡ sort_of_channels playing (V.view view.now) }
{
    if is_visiting(playing, view) {
        Sort::Visits
    } else {
        Sort::Channels
    }
}

/// Adds the messages for no channel that we are on, each in the batch of its channel or its person.
/// The first batch has this number.
#[tactic(auto, using(crate::proofs::PlaybackWhole::last_steps))]
pub fn push_apart<V: NetworkView, A: Allocator + Copy, B: Allocator>(
    text: &mut Vec<u8, A>,
    playing: Playing,
    view: &V,
    caps: Caps,
    first: usize,
    others: &[&Entry<B>],
) -> Result<(), OutOfMemory>
    ensures said { OnOk result (text.new.items ≡ text.old.items ++ flat_map written
        (apart_lines playing (V.view view.now) caps first
        (map (λ entry. entry.now) others.now))) }
    ensures few { OnOk result (first + length (apart_groups (V.view view.now)
        (map (λ entry. entry.now) others.now)) < 2 ^ 64) }
{
    let alloc = *text.allocator();
    let channels = other_groups(alloc, Sort::Channels, view, others)?;
    let persons = other_groups(alloc, Sort::Persons, view, others)?;
    let count = channels.len() + persons.len();
    if count > usize::MAX - first {
        return Err(OutOfMemory);
    }
    let times = playing.times;
    let sort = sort_of_channels(playing, view);
    push_groups_from(text, times, sort, view, caps, first, &channels)?;
    let next = first + channels.len();
    push_groups_from(text, times, Sort::Persons, view, caps, next, &persons)
}

/// Adds the messages for channels that we are not on, each channel's in a visit, and then those for
/// nobody's channel by time; none in batches.
#[tactic(auto, using(crate::proofs::PlaybackWhole::last_steps))]
pub fn push_visits<V: NetworkView, A: Allocator + Copy, B: Allocator>(
    text: &mut Vec<u8, A>,
    playing: Playing,
    view: &V,
    caps: Caps,
    others: &[&Entry<B>],
) -> Result<(), OutOfMemory>
    ensures { OnOk result (text.new.items ≡ text.old.items ++ flat_map written
        (visit_lines playing (V.view view.now) caps (map (λ entry. entry.now) others.now))) }
{
    let alloc = *text.allocator();
    let times = playing.times;
    let channels = other_groups(alloc, Sort::Channels, view, others)?;
    let persons = chosen(alloc, Sort::Persons, view, others)?;
    let plain = Caps {
        batch: false,
        ..caps
    };
    push_groups_from(text, times, Sort::Visits, view, plain, 0, &channels)?;
    push_group_entries(text, times, caps, None, &persons)
}

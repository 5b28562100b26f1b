//! The playback: the messages that a client missed, arranged by channels (IRCv3 batch,
//! server-time).

ghost use Rattle.std.specs.Prelude.{◌≡◌, ◌<◌, ◌≤◌, ◌+◌, ◌^◌, ◌++◌, ◌∷◌, [], IfOk, OnOk, length, map};
ghost use Rattle.std.specs.Prelude.{option_to_list, codes, false, if◌then◌else◌, None, Some};
ghost use Rattle.std.specs.List.{AllByRecursion, flat_map};
ghost use Rattle.std.specs.Option.{option_map};
ghost use Rattle.irc_line.specs.Writing.{line_of_parts, written};
ghost use Rattle.history.specs.Entry.{IsWrittenEntry};
ghost use Rattle.welcome.specs.Arranged.{arranged_by, backlogs_of, batch_of, batch_tag};
ghost use Rattle.welcome.specs.Arranged.{places_among, time_tag};
ghost use Rattle.welcome.specs.Playing.{apart_groups, is_private, others_lines, places_of};
ghost use Rattle.welcome.specs.Playing.{playback_by};
ghost use Rattle.client_caps.specs.Answers.{from_bouncer};
ghost use Rattle.welcome.specs.Playback.{backlog_of, batch_name, entry_line, playback_of};
ghost use Rattle.welcome.specs.Playback.{tags_text};
ghost use Rattle.welcome.specs.Times.{stamped, stamped_entry, stamped_from};

use crate::greeting::push_reply;
use crate::groups::{channel_names, grouped};
use crate::others::{is_visiting, push_apart, push_visits};
use crate::playing::{Offset, Playing};
use crate::times::{Day, Minute, day_of, push_with_stamp, shown_at};
use client_caps::Caps;
use history::Entry;
use hub_ends::Packet;
use irc_line::write_line;
use net_view::{NetworkView, OutOfMemory};
use std::alloc::Allocator;

/// The tags of a message: that of its batch, and that of its time, as
/// `batch=h0;time=2020-01-02T03:04:05.678Z`. `text` is room for them.
fn tags_in<'t, A: Allocator>(
    text: &'t mut Vec<u8, A>,
    batch: Option<&'t [u8]>,
    time: Option<&[u8]>,
) -> Result<Option<&'t [u8]>, OutOfMemory>
    ensures { IfOk result (λ tags. option_map (λ t. t.now) tags
        ≡ tags_text (option_to_list (option_map (λ t. t.now) batch.entry)
        ++ option_to_list (option_map (λ t. time_tag t.now) time.entry))) }
{
    let Some(time) = time else {
        return Ok(batch);
    };
    text.clear();
    if let Some(batch) = batch {
        text.extend_from_slice(batch)?;
        text.push(b';')?;
    }
    text.extend_from_slice(b"time=")?;
    text.extend_from_slice(time)?;
    Ok(Some(text))
}

/// When the message came, for a client that holds server-time.
fn shown_time<B: Allocator>(caps: Caps, entry: &Entry<B>) -> Option<&[u8]>
    ensures { option_to_list (option_map (λ t. time_tag t.now) result)
        ≡ (if caps.server_time then time_tag entry.now.time ∷ [] else []) }
{
    if caps.server_time {
        Some(entry.time())
    } else {
        None
    }
}

/// Adds a message, as `@batch=h0 :bob!b@h PRIVMSG #c :hi all`. `tags` is room for its tags.
fn push_entry<A: Allocator, B: Allocator>(
    text: &mut Vec<u8, A>,
    tags: &mut Vec<u8, A>,
    caps: Caps,
    batch: Option<&[u8]>,
    entry: &Entry<B>,
) -> Result<(), OutOfMemory>
    ensures { OnOk result (text.new.items ≡ text.old.items ++ written
        (entry_line caps (option_to_list (option_map (λ t. t.now) batch.entry)) entry.now)) }
{
    let tags = tags_in(tags, batch, shown_time(caps, entry))?;
    write_line(
        tags,
        Some(entry.source()),
        entry.command(),
        &[entry.target(), entry.text()],
        text,
    )
}

/// Adds these messages, as they are.
fn push_entries<A: Allocator + Copy, B: Allocator>(
    text: &mut Vec<u8, A>,
    caps: Caps,
    batch: Option<&[u8]>,
    entries: &[&Entry<B>],
) -> Result<(), OutOfMemory>
    ensures { OnOk result (text.new.items ≡ text.old.items ++ flat_map written
        (map (λ entry. entry_line caps (option_to_list (option_map (λ t. t.now) batch.entry))
        entry.now) entries.now)) }
{
    let mut tags = Vec::new(*text.allocator());
    for entry in entries {
        push_entry(text, &mut tags, caps, batch, entry)?;
    }
    Ok(())
}

/// Adds a line of a message with this text.
fn push_text<A: Allocator>(
    text: &mut Vec<u8, A>,
    batch: Option<&[u8]>,
    source: &[u8],
    command: &[u8],
    target: &[u8],
    said: &[u8],
) -> Result<(), OutOfMemory>
    ensures { OnOk result (text.new.items ≡ text.old.items ++ written
        (line_of_parts (option_map (λ t. t.now) batch.entry) (Some source.now) command.now
        (target.now ∷ said.now ∷ []))) }
{
    write_line(batch, Some(source), command, &[target, said], text)
}

/// Adds a message of a group with its time in its text. `said` is room for the text.
#[tactic(auto, using(crate::proofs::Stamps::line_steps))]
fn push_stamped_entry<A: Allocator, B: Allocator>(
    text: &mut Vec<u8, A>,
    said: &mut Vec<u8, A>,
    caps: Caps,
    batch: Option<&[u8]>,
    before: Option<Day>,
    at: Minute,
    entry: &Entry<B>,
) -> Result<(), OutOfMemory>
    requires { caps.server_time ≡ false }
    ensures { OnOk result (text.new.items ≡ text.old.items ++ written
        (entry_line caps (option_to_list (option_map (λ t. t.now) batch.entry))
        (stamped_entry before (Some at) entry.now))) }
{
    said.clear();
    push_with_stamp(said, before, at, entry.text())?;
    push_text(
        text,
        batch,
        entry.source(),
        entry.command(),
        entry.target(),
        said,
    )
}

/// The same of a message whose time may be none; such a text stays as it is.
fn push_timed_entry<A: Allocator, B: Allocator>(
    text: &mut Vec<u8, A>,
    said: &mut Vec<u8, A>,
    caps: Caps,
    batch: Option<&[u8]>,
    before: Option<Day>,
    at: Option<Minute>,
    entry: &Entry<B>,
) -> Result<(), OutOfMemory>
    requires { caps.server_time ≡ false }
    ensures { OnOk result (text.new.items ≡ text.old.items ++ written
        (entry_line caps (option_to_list (option_map (λ t. t.now) batch.entry))
        (stamped_entry before at entry.now))) }
{
    match at {
        Some(at) => push_stamped_entry(text, said, caps, batch, before, at, entry),
        None => push_entry(text, said, caps, batch, entry),
    }
}

/// Adds the messages of a group with their times in their texts.
#[tactic(auto, using(crate::proofs::Stamps::entry_steps))]
fn push_stamped<A: Allocator + Copy, B: Allocator>(
    text: &mut Vec<u8, A>,
    offset: Offset,
    caps: Caps,
    batch: Option<&[u8]>,
    entries: &[&Entry<B>],
) -> Result<(), OutOfMemory>
    requires { caps.server_time ≡ false }
    ensures { OnOk result (text.new.items ≡ text.old.items ++ flat_map written
        (map (entry_line caps (option_to_list (option_map (λ t. t.now) batch.entry)))
        (stamped_from offset None (map (λ entry. entry.now) entries.now)))) }
{
    let mut said = Vec::new(*text.allocator());
    let mut before = None;
    for entry in entries {
        let at = shown_at(offset, entry.time());
        push_timed_entry(text, &mut said, caps, batch, before, at, entry)?;
        before = day_of(at);
    }
    Ok(())
}

/// Adds the messages of a group, with their times in their texts for a client without server-time.
#[tactic(auto, using(crate::proofs::Stamps::group_steps))]
pub fn push_group_entries<A: Allocator + Copy, B: Allocator>(
    text: &mut Vec<u8, A>,
    times: Option<Offset>,
    caps: Caps,
    batch: Option<&[u8]>,
    entries: &[&Entry<B>],
) -> Result<(), OutOfMemory>
    ensures { OnOk result (text.new.items ≡ text.old.items ++ flat_map written
        (map (entry_line caps (option_to_list (option_map (λ t. t.now) batch.entry)))
        (stamped times caps (map (λ entry. entry.now) entries.now)))) }
{
    if caps.server_time {
        return push_entries(text, caps, batch, entries);
    }
    match times {
        Some(offset) => push_stamped(text, offset, caps, batch, entries),
        None => push_entries(text, caps, batch, entries),
    }
}

/// Adds the beginning of a batch, as `:bnc BATCH +h0 chathistory #c`.
fn push_begin<'x, A: Allocator>(
    text: &mut Vec<u8, A>,
    reference: &'x [u8],
    name: &'x [u8],
) -> Result<(), OutOfMemory>
    ensures { OnOk result (text.new.items ≡ text.old.items ++ written
        (from_bouncer (codes "BATCH") (reference.now ∷ codes "chathistory" ∷ name.now ∷ []))) }
{
    push_reply(text, b"BATCH", &[reference, b"chathistory", name])
}

/// Adds the end of a batch, as `:bnc BATCH -h0`.
fn push_end<A: Allocator>(text: &mut Vec<u8, A>, reference: &[u8]) -> Result<(), OutOfMemory>
    ensures { OnOk result (text.new.items ≡ text.old.items ++ written
        (from_bouncer (codes "BATCH") (reference.now ∷ []))) }
{
    push_reply(text, b"BATCH", &[reference])
}

/// Begins the batch of the channel at a place.
fn begin_batch<A: Allocator + Copy>(
    text: &mut Vec<u8, A>,
    place: usize,
    name: &[u8],
) -> Result<(), OutOfMemory>
    ensures { OnOk result (text.new.items ≡ text.old.items ++ written (from_bouncer (codes "BATCH")
        ((codes "+" ++ batch_name place) ∷ codes "chathistory" ∷ name.now ∷ []))) }
{
    let reference = format!(in *text.allocator(); "+h{place}")?;
    push_begin(text, reference.as_bytes(), name)
}

/// Ends the batch of the channel at a place.
fn end_batch<A: Allocator + Copy>(text: &mut Vec<u8, A>, place: usize) -> Result<(), OutOfMemory>
    ensures { OnOk result (text.new.items ≡ text.old.items ++ written
        (from_bouncer (codes "BATCH") ((codes "-" ++ batch_name place) ∷ []))) }
{
    let reference = format!(in *text.allocator(); "-h{place}")?;
    push_end(text, reference.as_bytes())
}

/// Adds these messages with the tag of the batch of the channel at a place.
fn push_tagged<A: Allocator + Copy, B: Allocator>(
    text: &mut Vec<u8, A>,
    times: Option<Offset>,
    caps: Caps,
    place: usize,
    entries: &[&Entry<B>],
) -> Result<(), OutOfMemory>
    ensures { OnOk result (text.new.items ≡ text.old.items ++ flat_map written
        (map (entry_line caps (batch_tag place ∷ []))
        (stamped times caps (map (λ entry. entry.now) entries.now)))) }
{
    let tag = format!(in *text.allocator(); "batch=h{place}")?;
    push_group_entries(text, times, caps, Some(tag.as_bytes()), entries)
}

/// Adds these messages as the batch of the channel at a place.
fn push_batch<A: Allocator + Copy, B: Allocator>(
    text: &mut Vec<u8, A>,
    times: Option<Offset>,
    caps: Caps,
    place: usize,
    name: &[u8],
    entries: &[&Entry<B>],
) -> Result<(), OutOfMemory>
    ensures { OnOk result (text.new.items ≡ text.old.items ++ flat_map written
        (batch_of caps place name.now
        (stamped times caps (map (λ entry. entry.now) entries.now)))) }
{
    begin_batch(text, place, name)?;
    push_tagged(text, times, caps, place, entries)?;
    end_batch(text, place)
}

/// Adds the messages of the channel at a place, with batch between `:bnc BATCH +h0 chathistory #c`
/// and `:bnc BATCH -h0`; nothing if there are none.
#[tactic(auto, using(crate::proofs::Stamps::backlog_cases))]
pub fn push_backlog<A: Allocator + Copy, B: Allocator>(
    text: &mut Vec<u8, A>,
    times: Option<Offset>,
    caps: Caps,
    place: usize,
    name: &[u8],
    entries: &[&Entry<B>],
) -> Result<(), OutOfMemory>
    ensures { OnOk result (text.new.items ≡ text.old.items ++ flat_map written
        (backlog_of caps place name.now
        (stamped times caps (map (λ entry. entry.now) entries.now)))) }
{
    if entries.is_empty() {
        return Ok(());
    }
    if caps.batch {
        push_batch(text, times, caps, place, name, entries)
    } else {
        push_group_entries(text, times, caps, None, entries)
    }
}

/// Adds the messages of all channels, by the names of the channels and the groups of messages.
#[tactic(auto, using(crate::proofs::PlaybackWhole::backlog_steps))]
fn push_backlogs<A: Allocator + Copy, B: Allocator>(
    text: &mut Vec<u8, A>,
    times: Option<Offset>,
    caps: Caps,
    names: &[&[u8]],
    groups: &[Vec<&Entry<B>, A>],
) -> Result<(), OutOfMemory>
    requires { length names.now ≤ length groups.now }
    ensures { OnOk result (text.new.items ≡ text.old.items ++ flat_map written
        (backlogs_of caps 0 (map (λ name. name.now) names.now)
        (map (λ group. stamped times caps (map (λ entry. entry.now) group.items)) groups.now))) }
{
    for place in 0..names.len() {
        push_backlog(text, times, caps, place, names[place], &groups[place])?;
    }
    Ok(())
}

/// Adds the messages for no channel that we are on: each in the batch of its channel or its person,
/// the first of which has this number, or all of them by time.
#[tactic(auto, using(crate::proofs::PlaybackWhole::last_steps))]
fn push_others<V: NetworkView, A: Allocator + Copy, B: Allocator>(
    text: &mut Vec<u8, A>,
    playing: Playing,
    view: &V,
    caps: Caps,
    first: usize,
    others: &[&Entry<B>],
) -> Result<(), OutOfMemory>
    ensures said { OnOk result (text.new.items ≡ text.old.items ++ flat_map written (others_lines
        playing (V.view view.now) caps first (map (λ entry. entry.now) others.now))) }
    ensures few { OnOk result (first + (if is_private playing caps then length (apart_groups
        (V.view view.now) (map (λ entry. entry.now) others.now)) else 0) < 2 ^ 64) }
{
    if playing.private_batches && caps.batch {
        push_apart(text, playing, view, caps, first, others)
    } else if is_visiting(playing, view) {
        push_visits(text, playing, view, caps, others)
    } else {
        push_group_entries(text, playing.times, caps, None, others)
    }
}

/// Adds the messages of all groups: those of the channels, and then the last group.
#[tactic(auto, using(crate::proofs::PlaybackWhole::last_steps))]
fn push_groups<V: NetworkView, A: Allocator + Copy, B: Allocator>(
    text: &mut Vec<u8, A>,
    playing: Playing,
    view: &V,
    caps: Caps,
    names: &[&[u8]],
    groups: &[Vec<&Entry<B>, A>],
) -> Result<(), OutOfMemory>
    requires { length names.now < length groups.now }
    ensures said { OnOk result (text.new.items ≡ text.old.items ++ flat_map written
        (arranged_by playing (V.view view.now) caps (map (λ name. name.now) names.now)
        (map (λ group. map (λ entry. entry.now) group.items) groups.now))) }
    ensures few { OnOk result (places_among playing (V.view view.now) caps
        (map (λ name. name.now) names.now)
        (map (λ group. map (λ entry. entry.now) group.items) groups.now) < 2 ^ 64) }
{
    push_backlogs(text, playing.times, caps, names, groups)?;
    push_others(text, playing, view, caps, names.len(), &groups[names.len()])
}

/// Adds the messages: per channel in key order, then all others, each the oldest first.
pub fn push_playback<V: NetworkView, A: Allocator + Copy, B: Allocator>(
    text: &mut Vec<u8, A>,
    playing: Playing,
    view: &V,
    caps: Caps,
    entries: &[&Entry<B>],
) -> Result<(), OutOfMemory>
    ensures said { OnOk result (text.new.items ≡ text.old.items ++ flat_map written
        (playback_by playing (V.view view.now) caps (map (λ entry. entry.now) entries.now))) }
    ensures few { OnOk result (places_of playing (V.view view.now) caps
        (map (λ entry. entry.now) entries.now) < 2 ^ 64) }
{
    let alloc = *text.allocator();
    view.comes_from_lines();
    let names = channel_names(alloc, view)?;
    let groups = grouped(alloc, view.support().mapping(), &names, entries)?;
    push_groups(text, playing, view, caps, &names, &groups)
}

/// The packet of the playback, from its bytes. That its lines can be written follows from where the
/// view and the messages come from.
#[tactic(auto, using(crate::proofs::WrittenLaw::lines_back, crate::proofs::OthersWritten::playback_by_written, crate::proofs::WrittenLaw::state_is_packet))]
fn packet_of_playback<V: NetworkView, A: Allocator + Clone, B: Allocator>(
    text: Vec<u8, A>,
    playing: Playing,
    view: &V,
    caps: Caps,
    entries: &[&Entry<B>],
) -> Result<Packet<A>, OutOfMemory>
    requires whole { text.items ≡ flat_map written
        (playback_by playing (V.view view.now) caps (map (λ entry. entry.now) entries.now)) }
    requires written { AllByRecursion (λ entry. IsWrittenEntry entry.now) entries.now }
    requires few { places_of playing (V.view view.now) caps
        (map (λ entry. entry.now) entries.now) < 2 ^ 64 }
    ensures { IfOk result (λ packet. packet
        ≡ playback_by playing (V.view view.now) caps (map (λ entry. entry.now) entries.now)) }
{
    view.comes_from_lines();
    Packet::of_lines(text)
}

/// The messages that a client missed, as [`playback`] has them, by a profile.
///
/// With `private_batches` and the capability batch, the messages for no channel that we are on
/// come in batches too: those for each other channel, then those exchanged with each person or for
/// each other target, both where their first one is (our own choice). References are numbered
/// on from the channels that we are on:
///
/// ```text
/// :bnc BATCH +h1 chathistory bob
/// @batch=h1 :bob!b@h PRIVMSG Me hello
/// @batch=h1 :Me PRIVMSG bob :hello yourself
/// :bnc BATCH -h1
/// ```
///
/// With `times` and without the capability server-time each text begins with its time in that zone:
/// `[03:04] `, and for the first message of a channel or a group, and for one that came on another
/// day than the one before it there, `[2020-01-02 03:04] `. In an ACTION it comes after that word;
/// other CTCP, and a message whose time is none, stay as they are. So a line can be longer by up to
/// 20 bytes:
///
/// ```text
/// :bob!b@h PRIVMSG #c :[2020-01-02 03:04] hi all
/// :bob!b@h PRIVMSG #c :\u{1}ACTION [03:05] waves\u{1}
/// ```
///
/// With `visits` the messages for a channel that we are not on come between a JOIN and a PART of
/// ours, so that a client has a window for them; a batch is inside. Without batches the other
/// channels come before all that is for no channel. Both lines have our nick as it was spelled
/// last; to find it, the members of our first channel are searched once for each of these
/// channels:
///
/// ```text
/// :Me JOIN #gone
/// :bob!b@h PRIVMSG #gone :we have moved
/// :Me PART #gone
/// ```
///
/// A message to us comes with those of its sender's nick. Nicks are compared by `ascii`, our own
/// nick and channels as the network compares names. If the nick is no word, there is no batch.
pub fn playback_by<V: NetworkView, A: Allocator + Copy, B: Allocator>(
    alloc: A,
    playing: Playing,
    view: &V,
    caps: Caps,
    entries: &[&Entry<B>],
) -> Result<Packet<A>, OutOfMemory>
    requires { AllByRecursion (λ entry. IsWrittenEntry entry.now) entries.now }
    ensures { IfOk result (λ packet. packet
        ≡ playback_by playing (V.view view.now) caps (map (λ entry. entry.now) entries.now)) }
{
    let mut text = Vec::new(alloc);
    push_playback(&mut text, playing, view, caps, entries)?;
    packet_of_playback(text, playing, view, caps, entries)
}

/// The messages that a client missed, arranged by channels: per channel in key order its messages,
/// and then those that are for no channel that we are on, each the oldest first.
///
/// With batch those of a channel are in a batch of the type `chathistory`, whose reference is `h`
/// and the channel's place, counted from 0 (IRCv3 batch):
///
/// ```text
/// :bnc BATCH +h0 chathistory #c
/// @batch=h0 :bob!b@h PRIVMSG #c :hi all
/// :bnc BATCH -h0
/// ```
///
/// With server-time each has its time, as `@batch=h0;time=2020-01-02T03:04:05.678Z` (IRCv3
/// server-time). Each target is looked up once among the channels; else the time is that of
/// writing. The entries are those of messages from lines, so they can be written.
#[tactic(auto, using(crate::proofs::PlaybackWhole::whole_played))]
pub fn playback<V: NetworkView, A: Allocator + Copy, B: Allocator>(
    alloc: A,
    view: &V,
    caps: Caps,
    entries: &[&Entry<B>],
) -> Result<Packet<A>, OutOfMemory>
    requires { AllByRecursion (λ entry. IsWrittenEntry entry.now) entries.now }
    ensures { IfOk result (λ packet.
        packet ≡ playback_of (V.view view.now) caps (map (λ entry. entry.now) entries.now)) }
{
    playback_by(alloc, Playing::whole(), view, caps, entries)
}

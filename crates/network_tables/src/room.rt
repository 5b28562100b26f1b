//! Channels that we are on.

ghost use Rattle.std.specs.Prelude.{◌≡◌, [], None, map, is_some, OnOk, OnErr, IfOk};
ghost use Rattle.std.specs.Option.{option_map};
ghost use Rattle.std.specs.List.{list_any};
ghost use Rattle.std.specs.FinMap as fin;
ghost use Rattle.net_view.specs.Step.{is_seen, old_member};
ghost use Rattle.net_view.specs.Changes.{with_topic, with_ranks, without_member, fresh_channel};
ghost use Rattle.irc_names.specs.CaseMapping.{key_of};
ghost use Rattle.network_tables.specs.Shown.{shown};
ghost use Rattle.network_tables.specs.Head.{head_of, AreBytesTo};
ghost use Rattle.network_tables.specs.Sought.{sought_key};
ghost use Rattle.network_tables.specs.People.{changed_at};
ghost use Rattle.network_tables.specs.Rooms.{channel_of, rooms_of, with_modes, room_entry};
ghost use Rattle.network_tables.specs.Rooms.{each_changed, is_in, moved_in, moved_channel};
ghost use Rattle.network_tables.specs.Rooms.{copy_for, copies_of};
ghost use Rattle.network_tables.specs.Weights.{channel_bytes};

use crate::OutOfMemory;
use crate::modes::Modes;
use crate::slot::{Entry, Slot, new_entry};
use crate::sought::{Sought, head};
use crate::table::{Table, slots_weight};
use crate::table_value::TableValue;
use crate::text::{copy_of, text_weight};
use block_list::Blocks;
use irc_names::CaseMapping;
use irc_support::Ranks;
use std::alloc::Allocator;
use std::collections::VecDeque;
use weights::{CHANNEL, more};

/// The members of a channel, by the keys of their nicks, each with the ranks held there.
pub type Members<A> = Table<Ranks, A>;

/// A channel that we are on.
pub struct Room<A: Allocator> {
    /// As spelled in our own last JOIN.
    pub name: Vec<u8, A>,
    pub topic: Option<Vec<u8, A>>,
    pub modes: Modes<A>,
    pub members: Members<A>,
}

// By hand, so that whoever owns a channel proves one call where it goes, and not the way of each
// field.
impl<A: Allocator> Drop for Room<A> {
    fn drop(self) {
        let Room {
            name: _name,
            topic: _topic,
            modes: _modes,
            members: _members,
        } = self;
    }
}

impl<A: Allocator> TableValue for Room<A> {
    ghost weight = { λ room. channel_bytes (channel_of room) };

    fn weight(&self) -> u64 {
        let named = more(CHANNEL, self.name.len() as u64);
        let titled = more(named, text_weight(&self.topic));
        more(more(titled, self.modes.bytes()), self.members.bytes())
    }
}

/// The channels that we are on, by the keys of their names.
pub type Rooms<A> = Table<Room<A>, A>;

/// For each of the channels, in the order of their keys, a copy of a member's key or none.
pub type Copies<A> = VecDeque<Option<Vec<u8, A>>, A>;

/// A channel without a name, a mode or a member, in place of one that is being changed.
pub fn no_room<A: Allocator + Copy>(alloc: A) -> Room<A>
    ensures name { result.name.items ≡ [] }
    ensures topic { result.topic ≡ None }
    ensures modes { result.modes ≡ fin.empty }
    ensures members { result.members.all ≡ fin.empty }
{
    Room {
        name: Vec::new(alloc),
        topic: None,
        modes: Modes::new(alloc),
        members: Table::new(alloc),
    }
}

/// A member of this name who holds these ranks, as it is to be kept.
pub fn new_member<A: Allocator + Copy>(
    alloc: A,
    mapping: CaseMapping,
    name: &[u8],
    ranks: Ranks,
) -> Result<Box<Entry<Ranks, A>, A>, OutOfMemory>
    ensures key { IfOk result (λ entry. entry.value.key.items ≡ key_of mapping name.now) }
    ensures ranks { IfOk result (λ entry. entry.value.value ≡ ranks) }
{
    let key = mapping.key(alloc, name)?;
    new_entry(alloc, key, ranks)
}

/// A channel of this name with somebody as the one member, as it is to be kept.
pub fn fresh_room<A: Allocator + Copy>(
    alloc: A,
    mapping: CaseMapping,
    name: &[u8],
    who: &[u8],
) -> Result<Box<Entry<Room<A>, A>, A>, OutOfMemory>
    ensures key { IfOk result (λ entry. entry.value.key.items ≡ key_of mapping name.now) }
    ensures room { IfOk result (λ entry. channel_of entry.value.value
        ≡ fresh_channel name.now (key_of mapping who.now)) }
{
    let key = mapping.key(alloc, name)?;
    let name = Vec::from_slice(alloc, name)?;
    let member = new_member(alloc, mapping, who, Ranks::none())?;
    let mut members = Table::new(alloc);
    members.reserve(1)?;
    members.insert(member);
    let value = Room {
        name,
        topic: None,
        modes: Modes::new(alloc),
        members,
    };
    new_entry(alloc, key, value)
}

/// Changes a channel's topic, if we are on it.
#[tactic(auto, using(crate::proofs::SwapLemmas::swaps))]
pub fn set_topic<A: Allocator + Copy>(
    alloc: A,
    rooms: &mut Rooms<A>,
    channel: Sought<'_>,
    topic: Option<Vec<u8, A>>,
)
    ensures { rooms_of rooms.new.all ≡ changed_at (rooms_of rooms.old.all) (sought_key
        channel.entry)
        (with_topic (option_map (λ t. t.items) topic)) }
{
    let mut near = None;
    let mut room = no_room(alloc);
    if rooms.swap(&mut near, channel, &mut room) {
        room.topic = topic;
        rooms.swap(&mut near, channel, &mut room);
    }
}

/// Changes a channel's modes, if we are on it.
#[tactic(auto, using(crate::proofs::SwapLemmas::swaps))]
pub fn set_modes<A: Allocator + Copy>(
    alloc: A,
    rooms: &mut Rooms<A>,
    channel: Sought<'_>,
    modes: Modes<A>,
)
    ensures { rooms_of rooms.new.all ≡ changed_at (rooms_of rooms.old.all) (sought_key
        channel.entry)
        (with_modes modes) }
{
    let mut near = None;
    let mut room = no_room(alloc);
    if rooms.swap(&mut near, channel, &mut room) {
        room.modes = modes;
        rooms.swap(&mut near, channel, &mut room);
    }
}

/// Makes somebody a member.
fn add_member<A: Allocator + Copy>(
    members: &mut Members<A>,
    member: Box<Entry<Ranks, A>, A>,
) -> Result<(), OutOfMemory>
    ensures added { OnOk result (members.new.all
        ≡ fin.insert members.old.all member.value.key.items member.value.value) }
    ensures kept { OnErr result (members.new.all ≡ members.old.all) }
{
    members.reserve(1)?;
    members.insert(member);
    Ok(())
}

/// Makes somebody a member of a channel, near the place where it was last, if we are on it.
#[tactic(auto, using(crate::proofs::SwapLemmas::swaps))]
pub fn seat<A: Allocator + Copy>(
    alloc: A,
    rooms: &mut Rooms<A>,
    near: Option<usize>,
    channel: Sought<'_>,
    member: Box<Entry<Ranks, A>, A>,
) -> Result<(), OutOfMemory>
    ensures added { OnOk result (rooms_of rooms.new.all ≡ changed_at (rooms_of rooms.old.all)
        (sought_key channel.entry) (with_ranks member.value.key.items member.value.value)) }
    ensures kept { OnErr result (rooms_of rooms.new.all ≡ rooms_of rooms.old.all) }
{
    let mut near = near;
    let mut room = no_room(alloc);
    if rooms.swap(&mut near, channel, &mut room) {
        let added = add_member(&mut room.members, member);
        rooms.swap(&mut near, channel, &mut room);
        added
    } else {
        Ok(())
    }
}

/// Takes a member off a channel; whether somebody was a member.
#[tactic(auto, using(crate::proofs::SwapLemmas::swaps))]
pub fn unseat<A: Allocator + Copy>(
    alloc: A,
    rooms: &mut Rooms<A>,
    channel: Sought<'_>,
    who: Sought<'_>,
) -> bool
    ensures left { rooms_of rooms.new.all ≡ changed_at (rooms_of rooms.old.all)
        (sought_key channel.entry) (without_member (sought_key who.entry)) }
    ensures was { result ≡ is_some (old_member
        (fin.get (rooms_of rooms.old.all) (sought_key channel.entry)) (sought_key who.entry)) }
{
    let mut near = None;
    let mut room = no_room(alloc);
    if rooms.swap(&mut near, channel, &mut room) {
        let was = room.members.remove(who);
        rooms.swap(&mut near, channel, &mut room);
        was.is_some()
    } else {
        false
    }
}

/// Takes a member off each of the channels.
fn unseat_each<A: Allocator>(rooms: &mut Blocks<Slot<Room<A>, A>, A>, who: Sought<'_>)
    ensures { map room_entry rooms.new.items
        ≡ each_changed (without_member (sought_key who.entry)) (map room_entry rooms.old.items) }
{
    let head = head(who);
    for place in 0..rooms.len() {
        let room = rooms.at_mut(place);
        let _ = room.entry.value.members.remove_by(head, who);
    }
}

/// Gives a member another key, of which this is a copy if there is the member. Whoever had
/// that key is gone, if it may be taken.
fn rename_member<A: Allocator>(
    members: &mut Members<A>,
    head: u64,
    old: Sought<'_>,
    taken: bool,
    new: &[u8],
    copy: Option<Vec<u8, A>>,
)
    requires head { head ≡ head_of (sought_key old) }
    requires bytes { AreBytesTo 8 (sought_key old) }
    requires copy { option_map (λ k. k.items) copy
        ≡ copy_for new.now (sought_key old) members.old.all }
    ensures { members.new.all
        ≡ moved_in taken (sought_key old.entry) new.now members.old.all }
{
    if let Some(new) = copy {
        if let Some(mut member) = members.remove_by(head, old) {
            member.key = new;
            members.insert(member);
        }
    } else if taken {
        members.forget(new);
    }
}

/// Makes copies of a key, one for each of the channels in which somebody is a member.
fn copies_in<A: Allocator + Copy>(
    alloc: A,
    rooms: &Blocks<Slot<Room<A>, A>, A>,
    who: Sought<'_>,
    key: &[u8],
    copies: &mut Copies<A>,
) -> Result<(), OutOfMemory>
    ensures { OnOk result (map (option_map (λ k. k.items)) copies.new.items
        ≡ copies_of key.now (sought_key who.entry) (map room_entry rooms.now.items)) }
{
    let head = head(who);
    copies.clear();
    for place in 0..rooms.len() {
        let is_member = rooms.at(place).entry.value.members.contains_by(head, who);
        let copy = copy_of(alloc, is_member.then_some(key))?;
        copies.push_back(copy)?;
    }
    Ok(())
}

/// Gives a member another key in each of the channels, by these copies of it.
fn rename_each<A: Allocator>(
    rooms: &mut Blocks<Slot<Room<A>, A>, A>,
    old: Sought<'_>,
    taken: bool,
    new: &[u8],
    copies: &mut Copies<A>,
)
    requires { map (option_map (λ k. k.items)) copies.old.items
        ≡ copies_of new.now (sought_key old) (map room_entry rooms.old.items) }
    ensures { map room_entry rooms.new.items
        ≡ each_changed (moved_channel taken (sought_key old.entry) new.now)
        (map room_entry rooms.old.items) }
{
    let head = head(old);
    for place in 0..rooms.len() {
        let room = rooms.at_mut(place);
        match copies.pop_front() {
            Some(copy) => {
                rename_member(&mut room.entry.value.members, head, old, taken, new, copy);
            }
            None => unreachable!(),
        }
    }
}

/// Whether somebody is a member of one of the channels.
fn is_member_of_any<A: Allocator>(rooms: &Blocks<Slot<Room<A>, A>, A>, who: Sought<'_>) -> bool
    ensures { result ≡ list_any (is_in (sought_key who.entry)) (map room_entry rooms.now.items) }
{
    let head = head(who);
    for place in 0..rooms.len() {
        if rooms.at(place).entry.value.members.contains_by(head, who) {
            return true;
        }
    }
    false
}

impl<A: Allocator> Table<Room<A>, A> {
    ghost use Rattle.std.specs.Prelude.{◌≡◌, OnOk, map};
    ghost use Rattle.std.specs.Option.{option_map};
    ghost use Rattle.std.specs.FinMap as fin;
    ghost use Rattle.net_view.specs.Step.{is_seen};
    ghost use Rattle.net_view.specs.Changes.{without_member};
    ghost use Rattle.network_tables.specs.Shown.{shown};
    ghost use Rattle.network_tables.specs.Sought.{sought_key};
    ghost use Rattle.network_tables.specs.Rooms.{rooms_of, moved_channel, copies_of};

    /// Takes a member off all channels.
    pub fn unseat_all(&mut self, who: Sought<'_>)
        ensures { rooms_of self.new.all
            ≡ shown (without_member (sought_key who.entry)) (rooms_of self.old.all) }
    {
        unseat_each(&mut self.entries, who);
        self.bytes = slots_weight(&self.entries);
    }

    /// Makes copies of a key, one for each of the channels in which somebody is a member, in this
    /// list, whose room is used again. At `OutOfMemory` nothing is said of what it holds.
    #[tactic(auto, using(crate::proofs::EachLemmas::entries_are))]
    pub fn copies_for(
        &self,
        alloc: A,
        who: Sought<'_>,
        key: &[u8],
        copies: &mut Copies<A>,
    ) -> Result<(), OutOfMemory>
    where
        A: Copy,
        ensures { OnOk result (map (option_map (λ k. k.items)) copies.new.items
            ≡ copies_of key.now (sought_key who.entry) (fin.entries (rooms_of self.now.all))) }
    {
        copies_in(alloc, &self.entries, who, key, copies)
    }

    /// Gives a member another key in all channels, by the copies of it that are for them. If the
    /// other key may be taken, whoever had it is gone.
    pub fn rename_all(&mut self, old: Sought<'_>, taken: bool, new: &[u8], copies: &mut Copies<A>)
        requires { map (option_map (λ k. k.items)) copies.old.items
            ≡ copies_of new.now (sought_key old) (fin.entries (rooms_of self.old.all)) }
        ensures { rooms_of self.new.all
            ≡ shown (moved_channel taken (sought_key old.entry) new.now) (rooms_of self.old.all) }
    {
        rename_each(&mut self.entries, old, taken, new, copies);
        self.bytes = slots_weight(&self.entries);
    }

    /// Whether somebody is a member of one of the channels.
    #[tactic(auto, using(crate::proofs::EachLemmas::rooms_are, crate::proofs::EachLemmas::rooms_sorted, crate::proofs::EachLemmas::seen_is))]
    pub fn is_seen(&self, who: Sought<'_>) -> bool
        ensures { result ≡ is_seen (rooms_of self.now.all) (sought_key who.entry) }
    {
        is_member_of_any(&self.entries, who)
    }
}

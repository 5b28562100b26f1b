//! Persons in sight.

ghost use Rattle.std.specs.Prelude.{◌≡◌, ℕ, ◌+◌, ◌<◌, ◌≤◌, [], Some, None, IfOk, false, not};
ghost use Rattle.slab.specs.Slab.{HasRoomFor, get as cell};
ghost use Rattle.irc_names.specs.CaseMapping.{key_of};
ghost use Rattle.std.specs.Option.{option_map, option_map_or};
ghost use Rattle.std.specs.FinMap as fin;
ghost use Rattle.net_view.specs.Changes.{told_person, with_account, with_away, renamed_in};
ghost use Rattle.net_view.specs.Changes.{spelled_as};
ghost use Rattle.network_tables.specs.Sought.{sought_key};
ghost use Rattle.std.specs.List.{filter};
ghost use Rattle.net_view.specs.Step.{is_seen};
ghost use Rattle.network_tables.specs.Rooms.{rooms_of};
ghost use Rattle.network_tables.specs.People.{people_of, changed_at, known_of};
ghost use Rattle.network_tables.specs.Weights.{person_bytes};
ghost use Rattle.network_tables.specs.Numbered.{seen_in};

use crate::OutOfMemory;
use crate::numbered::{Fresh, Keyed, Numbered, cells_weight};
use crate::room::Rooms;
use crate::slot::{Slot, new_entry};
use crate::sought::Sought;
use crate::table::{Table, slots_weight};
use crate::table_value::TableValue;
use crate::text::text_weight;
use block_list::Blocks;
use irc_names::CaseMapping;
use slab::Slab;
use std::alloc::Allocator;
use weights::{PERSON, more};

/// What is known of a person in sight.
#[derive(Drop)]
pub struct Person<A: Allocator> {
    /// As spelled last.
    pub nick: Vec<u8, A>,
    pub account: Option<Vec<u8, A>>,
    pub away: Option<Vec<u8, A>>,
}

impl<A: Allocator> TableValue for Person<A> {
    ghost weight = { λ p. person_bytes (known_of p) };

    fn weight(&self) -> u64 {
        let named = more(PERSON, self.nick.len() as u64);
        more(
            more(named, text_weight(&self.account)),
            text_weight(&self.away),
        )
    }
}

/// The persons in sight, by the keys of their nicks.
pub type People<A> = Numbered<Person<A>, A>;

/// Nobody, with nothing known.
pub fn nobody<A: Allocator>(alloc: A) -> Person<A>
    ensures account { result.account ≡ None }
    ensures away { result.away ≡ None }
{
    Person {
        nick: Vec::new(alloc),
        account: None,
        away: None,
    }
}

/// A person of this name with nothing else known, as it is to be kept.
pub fn new_person<A: Allocator + Copy>(
    alloc: A,
    mapping: CaseMapping,
    name: &[u8],
) -> Result<Fresh<Person<A>, A>, OutOfMemory>
    ensures key { IfOk result (λ person. person.known.key.items ≡ key_of mapping name.now) }
    ensures nick { IfOk result (λ person. person.known.value.nick.items ≡ name.now) }
{
    let key = mapping.key(alloc, name)?;
    let again = mapping.key(alloc, name)?;
    let nick = Vec::from_slice(alloc, name)?;
    let number = new_entry(alloc, again, 0)?;
    let value = Person {
        nick,
        account: None,
        away: None,
    };
    Ok(Fresh {
        known: Keyed { key, value },
        number,
    })
}

/// Names a person, who may come into sight, and gives the account, if one is known. What else is
/// known of the person stays. The person is first looked for in the cell `near`, if that is known.
/// Answers the number of the person's cell.
#[tactic(auto, using(crate::proofs::SwapLemmas::swaps))]
pub fn name_person<A: Allocator + Copy>(
    alloc: A,
    people: &mut People<A>,
    near: Option<usize>,
    person: Fresh<Person<A>, A>,
    account: Option<Option<Vec<u8, A>>>,
) -> usize
    requires { 0 < people.old.spare }
    ensures named { people_of people.new.all ≡ fin.insert (people_of people.old.all)
        person.known.key.items
        (told_person (Some (Some person.known.value.nick.items))
        (option_map (option_map (λ t. t.items)) account) None
        (fin.get (people_of people.old.all) person.known.key.items)) }
    ensures room { people.old.spare ≤ people.new.spare + 1 }
{
    let Fresh { mut known, number } = person;
    let mut near = near;
    let mut old = nobody(alloc);
    let in_sight = people.swap(&mut near, Sought::Key(&known.key), &mut old);
    known.value.account = account.unwrap_or(old.account);
    known.value.away = old.away;
    if in_sight {
        people.swap(&mut near, Sought::Key(&known.key), &mut known.value);
        // where it was found
        near.unwrap_or(0)
    } else {
        people.put(Fresh { known, number })
    }
}

/// Changes a person's account, if the person is in sight.
#[tactic(auto, using(crate::proofs::SwapLemmas::swaps))]
pub fn set_account<A: Allocator + Copy>(
    alloc: A,
    people: &mut People<A>,
    who: Sought<'_>,
    account: Option<Vec<u8, A>>,
)
    ensures { people_of people.new.all ≡ changed_at (people_of people.old.all) (sought_key
        who.entry)
        (with_account (option_map (λ t. t.items) account)) }
{
    let mut near = None;
    let mut person = nobody(alloc);
    if people.swap(&mut near, who, &mut person) {
        person.account = account;
        people.swap(&mut near, who, &mut person);
    }
}

/// Changes a person's away text, if the person is in sight.
#[tactic(auto, using(crate::proofs::SwapLemmas::swaps))]
pub fn set_away<A: Allocator + Copy>(
    alloc: A,
    people: &mut People<A>,
    who: Sought<'_>,
    away: Option<Vec<u8, A>>,
)
    ensures { people_of people.new.all ≡ changed_at (people_of people.old.all) (sought_key
        who.entry)
        (with_away (option_map (λ t. t.items) away)) }
{
    let mut near = None;
    let mut person = nobody(alloc);
    if people.swap(&mut near, who, &mut person) {
        person.away = away;
        people.swap(&mut near, who, &mut person);
    }
}

/// Gives a person another key, of which there are two copies, and another nick. Whoever had
/// that key is gone.
#[tactic(auto, using(crate::proofs::SwapLemmas::renames))]
pub fn rename_person<A: Allocator>(
    people: &mut People<A>,
    old: Sought<'_>,
    new: Vec<u8, A>,
    again: Vec<u8, A>,
    nick: Vec<u8, A>,
)
    requires { again.items ≡ new.items }
    ensures { people_of people.new.all
        ≡ renamed_in (spelled_as nick.items) (sought_key old.entry) new.items
        (people_of people.old.all) }
{
    match people.take(old) {
        Some((mut known, mut number)) => {
            people.remove(Sought::Key(&new));
            known.key = new;
            known.value.nick = nick;
            number.key = again;
            people.put(Fresh { known, number });
        }
        None => people.remove(Sought::Key(&new)),
    }
}

/// Keeps those persons alone who are members of one of the channels.
pub fn retain_seen<A: Allocator>(people: &mut People<A>, rooms: &Rooms<A>)
    ensures { people_of people.new.all
        ≡ fin.retain_keys (people_of people.old.all) (is_seen (rooms_of rooms.now.all)) }
{
    people.spare = 0;
    retain_numbers(&mut people.index, rooms);
    retain_cells(&mut people.cells, rooms);
    people.bytes = cells_weight(&people.index, &people.cells);
}

/// Keeps the numbers of those persons.
fn retain_numbers<A: Allocator>(index: &mut Table<usize, A>, rooms: &Rooms<A>)
    ensures { index.new.all ≡ fin.retain_keys index.old.all (is_seen (rooms_of rooms.now.all)) }
{
    retain_in(&mut index.entries, rooms);
    index.bytes = slots_weight(&index.entries);
}

/// The same of the slots.
fn retain_in<A: Allocator>(slots: &mut Blocks<Slot<usize, A>, A>, rooms: &Rooms<A>)
    ensures { slots.new.items
        ≡ filter (λ slot. is_seen (rooms_of rooms.now.all) slot.entry.value.key.items)
        slots.old.items }
{
    let mut place = slots.len();
    while place > 0 {
        place -= 1;
        if !rooms.is_seen(Sought::Key(&slots.at(place).entry.key)) {
            let _ = slots.remove(place);
        }
    }
}

/// Keeps the cells of those persons.
fn retain_cells<A: Allocator>(cells: &mut Slab<Keyed<Person<A>, A>, A>, rooms: &Rooms<A>)
    ensures cells { (n : ℕ) → cell cells.new n
        ≡ seen_in (is_seen (rooms_of rooms.now.all)) (cell cells.old n) }
    ensures room { HasRoomFor cells.new 0 }
{
    for number in 0..cells.capacity() {
        if is_unseen(cells.get(number), rooms) {
            let _ = cells.remove(number);
        }
    }
}

/// Whether a cell holds a person who is a member of none of the channels.
fn is_unseen<A: Allocator>(known: Option<&Keyed<Person<A>, A>>, rooms: &Rooms<A>) -> bool
    ensures { result ≡ option_map_or
        (λ k. not (is_seen (rooms_of rooms.now.all) k.now.key.items)) known.entry false }
{
    match known {
        Some(known) => !rooms.is_seen(Sought::Key(&known.key)),
        None => false,
    }
}

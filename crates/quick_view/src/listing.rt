//! `353`, name lists (RFC 2812, section 5.1).

ghost use Rattle.std.specs.Prelude.{◌≡◌, ◌≤◌, ◌<◌, ◌+◌, map, length, Some, None, IfOk, OnOk, OnErr};
ghost use Rattle.std.specs.FinMap as fin;
ghost use Rattle.net_view.specs.Changes.{told_person};
ghost use Rattle.network_tables.specs.People.{people_of};
ghost use Rattle.quick_view.specs.Listing.{listings_in, listing_of, members_listed, people_listed};

use crate::OutOfMemory;
use crate::listed::Listed;
use irc_line::Line;
use irc_names::is_nameable;
use irc_support::{Support, names};
use network_tables::{Members, People, name_person, new_member, new_person};
use std::alloc::Allocator;

/// The members that a line lists, as they are to be kept.
pub(crate) fn listed_in<A: Allocator + Copy, B: Allocator, C: Allocator>(
    alloc: A,
    support: &Support<B>,
    line: &Line<C>,
) -> Result<Vec<Listed<A>, A>, OutOfMemory>
    ensures { IfOk result (λ listed. map listing_of listed.items ≡ listings_in support.now
        line.now) }
{
    let mapping = support.mapping();
    let mut listed = Vec::new(alloc);
    for (ranks, name) in names(support, line) {
        if is_nameable(name) {
            let member = new_member(alloc, mapping, name, ranks)?;
            let person = new_person(alloc, mapping, name)?;
            listed.push(Listed { member, person })?;
        }
    }
    Ok(listed)
}

/// Keeps a member that is listed.
fn keep_listed<A: Allocator + Copy>(
    alloc: A,
    members: &mut Members<A>,
    people: &mut People<A>,
    listed: Listed<A>,
)
    requires members { 0 < members.old.spare }
    requires people { 0 < people.old.spare }
    ensures member { members.new.all
        ≡ fin.insert members.old.all listed.person.known.key.items listed.member.value.value }
    ensures person { people_of people.new.all ≡ fin.insert (people_of people.old.all)
        listed.person.known.key.items
        (told_person (Some (Some listed.person.known.value.nick.items)) None None
        (fin.get (people_of people.old.all) listed.person.known.key.items)) }
    ensures member_room { members.old.spare ≤ members.new.spare + 1 }
    ensures person_room { people.old.spare ≤ people.new.spare + 1 }
{
    let Listed { mut member, person } = listed;
    member.near = name_person(alloc, people, None, person, None);
    members.insert(member);
}

/// Keeps all members that are listed; for the persons there is room.
pub(crate) fn keep_all<A: Allocator + Copy>(
    alloc: A,
    members: &mut Members<A>,
    people: &mut People<A>,
    listed: Vec<Listed<A>, A>,
)
    requires members { length listed.items ≤ members.old.spare }
    requires people { length listed.items ≤ people.old.spare }
    ensures members { members.new.all ≡ members_listed members.old.all (map listing_of
        listed.items) }
    ensures people { people_of people.new.all
        ≡ people_listed (people_of people.old.all) (map listing_of listed.items) }
{
    for one in listed {
        keep_listed(alloc, members, people, one);
    }
}

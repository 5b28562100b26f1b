//! The messages of a playback, each with those of its channel.

ghost use Rattle.std.specs.Prelude.{◌≡◌, ◌<◌, ◌≤◌, ◌+◌, ◌++◌, ◌∷◌, [], IfOk, OnOk, length, map};
ghost use Rattle.std.specs.Prelude.{option_to_list};
ghost use Rattle.std.specs.Option.{option_map};
ghost use Rattle.net_view.specs.Readers.{channel_shown};
ghost use Rattle.irc_names.specs.CaseMapping.{key_of};
ghost use Rattle.net_view.specs.Names.{bytes_cmp};
ghost use Rattle.welcome.specs.Arranged.{AreInKeyOrder, channel_names_of, grouped_by};
ghost use Rattle.welcome.specs.Arranged.{place_among, push_at};

use history::Entry;
use irc_names::CaseMapping;
use net_view::{NetworkView, OutOfMemory};
use std::alloc::Allocator;
use std::cmp::Ordering;

/// Adds the name of the channel at place `i`; nothing from `channel_count` on.
fn push_name<'v, V: NetworkView, A: Allocator>(
    names: &mut Vec<&'v [u8], A>,
    view: &'v V,
    i: usize,
) -> Result<(), OutOfMemory>
    ensures { OnOk result (map (λ name. name.now) names.new.items
        ≡ map (λ name. name.now) names.old.items
        ++ option_to_list (option_map (λ ch. ch.name) (channel_shown (V.view view.now) i))) }
{
    if let Some(channel) = view.channel_at(i) {
        names.push(channel.name)?;
    }
    Ok(())
}

/// The names of the channels, in key order.
#[tactic(auto, using(crate::proofs::PlaybackWhole::name_steps))]
pub fn channel_names<'v, V: NetworkView, A: Allocator>(
    alloc: A,
    view: &'v V,
) -> Result<Vec<&'v [u8], A>, OutOfMemory>
    ensures { IfOk result (λ names. map (λ name. name.now) names.items
        ≡ channel_names_of (V.view view.now)) }
{
    let mut names = Vec::new(alloc);
    for i in 0..view.channel_count() {
        push_name(&mut names, view, i)?;
    }
    Ok(names)
}

/// The place of the channel that the target names, counted from 0; the count of the names if it is
/// none of them. The names are in key order, so it is searched for in time of order log N.
fn place_of(mapping: CaseMapping, names: &[&[u8]], target: &[u8]) -> usize
    requires { AreInKeyOrder mapping (map (λ name. name.now) names.now) }
    ensures place { result ≡ place_among mapping target.now (map (λ name. name.now) names.now) }
    ensures within { result ≤ length names.now }
{
    let found = names.binary_search_by(
        |name: &&[u8]| -> Ordering
            ensures { result
                ≡ bytes_cmp (key_of mapping name.now.now) (key_of mapping target.entry.now) }
        { mapping.order(name, target) },
    );
    match found {
        Ok(place) => place,
        Err(_) => names.len(),
    }
}

/// A group without entries for each name, and one more.
#[tactic(auto, using(crate::proofs::PlaybackWhole::group_steps))]
fn empty_groups<'e, A: Allocator + Copy, B: Allocator>(
    alloc: A,
    names: &[&[u8]],
) -> Result<Vec<Vec<&'e Entry<B>, A>, A>, OutOfMemory>
    ensures { IfOk result (λ groups. map (λ group. map (λ entry. entry.now) group.items)
        groups.items ≡ map (λ name. []) names.now ++ [] ∷ []) }
{
    let mut groups = Vec::with_capacity(alloc, names.len() + 1)?;
    for _ in names {
        groups.push_reserved(Vec::new(alloc));
    }
    groups.push_reserved(Vec::new(alloc));
    Ok(groups)
}

/// Adds an entry to the group at a place.
#[tactic(auto, using(crate::proofs::PlaybackWhole::push_steps))]
fn push_at<'e, A: Allocator, B: Allocator>(
    groups: &mut Vec<Vec<&'e Entry<B>, A>, A>,
    place: usize,
    entry: &'e Entry<B>,
) -> Result<(), OutOfMemory>
    requires { place < length groups.old.items }
    ensures { OnOk result (map (λ group. map (λ entry. entry.now) group.items) groups.new.items
        ≡ push_at place entry.now
        (map (λ group. map (λ entry. entry.now) group.items) groups.old.items)) }
{
    groups[place].push(entry)?;
    Ok(())
}

/// The entries by the channels that they are for, in the order of the names and each group oldest
/// first, and last those that are for none of them. Each target is looked up once among the names,
/// which are in key order.
#[tactic(auto, using(crate::proofs::PlaybackWhole::grouped_steps))]
pub fn grouped<'e, A: Allocator + Copy, B: Allocator>(
    alloc: A,
    mapping: CaseMapping,
    names: &[&[u8]],
    entries: &[&'e Entry<B>],
) -> Result<Vec<Vec<&'e Entry<B>, A>, A>, OutOfMemory>
    requires { AreInKeyOrder mapping (map (λ name. name.now) names.now) }
    ensures { IfOk result (λ groups. map (λ group. map (λ entry. entry.now) group.items)
        groups.items ≡ grouped_by mapping (map (λ name. name.now) names.now)
        (map (λ entry. entry.now) entries.now)) }
{
    let mut groups = empty_groups(alloc, names)?;
    for entry in entries {
        let place = place_of(mapping, names, entry.target());
        push_at(&mut groups, place, entry)?;
    }
    Ok(groups)
}

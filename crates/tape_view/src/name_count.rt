//! How many names of channels and persons the kept lines bring up.

ghost use Rattle.std.specs.Prelude.{◌+◌, ◌<◌, ◌^◌, length, SomeIff};
ghost use Rattle.std.specs.List.{filter_map};
ghost use Rattle.irc_support.specs.Line.{words_in};
ghost use Rattle.tape_view.specs.NameCount.{name_count};
ghost use Rattle.net_view.specs.StateLines.{listing};
ghost use Rattle.net_view.specs.Tells.{meant};

use irc_line::Line;
use irc_names::is_nameable;
use irc_support::{Support, names};
use net_view::Telling;
use std::alloc::Allocator;

/// The number of names with those of a 353; `None` if a `usize` can't hold it.
#[tactic(auto, using(crate::proofs::LineParts::listed_count))]
fn with_listed<S: Allocator, A: Allocator>(
    support: &Support<S>,
    line: &Line<A>,
    count: usize,
) -> Option<usize>
    ensures { SomeIff result (count + length (filter_map (listing support.now)
        (words_in support.now line.now)) < 2 ^ 64) (count + length (filter_map
        (listing support.now) (words_in support.now line.now))) }
{
    let mut sum = count;
    for (_ranks, name) in names(support, line) {
        if is_nameable(name) {
            sum = sum.checked_add(1)?;
        }
    }
    Some(sum)
}

/// The number of names with those that a line brings up; `None` if a `usize` can't hold it.
pub(crate) fn with_named<S: Allocator, A: Allocator>(
    support: &Support<S>,
    telling: &Telling<'_, A>,
    count: usize,
) -> Option<usize>
    ensures { SomeIff result (count + name_count (meant support.now telling.now) < 2 ^ 64)
        (count + name_count (meant support.now telling.now)) }
{
    match telling {
        Telling::Joined { .. } | Telling::Renamed { .. } => count.checked_add(1),
        Telling::Present { line, .. } => with_listed(support, line, count),
        _ => Some(count),
    }
}

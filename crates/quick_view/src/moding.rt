//! MODE and `324` (RFC 2812, sections 3.2.3 and 5.1).

ghost use Rattle.std.specs.Prelude.{◌≡◌, ◌<◌, ◌==◌, ◌||◌, ◌&&◌, not, if◌then◌else◌, ℕ, IfOk};
ghost use Rattle.std.specs.Prelude.{OnOk, OnErr, option_map};
ghost use Rattle.std.specs.Option.{option_and_then, unwrap_or, ForSome};
ghost use Rattle.std.specs.FinMap as fin;
ghost use Rattle.irc_support.specs.Text.{Text};
ghost use Rattle.irc_support.specs.Ranks.{ranks_that, has_rank};
ghost use Rattle.irc_support.specs.ChangeShown.{shown_change};
ghost use Rattle.net_view.specs.StateLines.{letter_change, mode_change, setting_by};
ghost use Rattle.net_view.specs.LookBack.{last_in};
ghost use Rattle.net_view.specs.Modes.{setting_of};
ghost use Rattle.net_view.specs.MemberSets.{AreSets, ranks_changed};
ghost use Rattle.quick_view.specs.Moding.{modes_in, letters_in, rank_after, IsModed};
ghost use Rattle.network_tables.specs.Rooms.{channel_of};

use crate::OutOfMemory;
use irc_line::Line;
use irc_names::is_nameable;
use irc_support::{Change, Kind, Ranks, Support, changes};
use net_view::is_word;
use network_tables::{Members, Modes, Room, Sought, copy_of};
use std::alloc::Allocator;

/// A mode: `None` if it is off, else on, with its parameter, if it has one.
type Setting<'a> = Option<Option<&'a [u8]>>;

/// What a change of a letter of this kind sets; `None` if that is not kept.
fn setting_by<'a>(kind: Kind, plus: bool, param: Option<&'a [u8]>) -> Option<Setting<'a>>
    ensures { option_map (option_map (option_map (λ text. text.now))) result
        ≡ setting_by kind plus (option_map (λ text. text.now) param.entry) }
{
    match kind {
        Kind::D => Some(if plus { Some(None) } else { None }),
        Kind::C if !plus => Some(None),
        Kind::B | Kind::C => match param {
            Some(text) if is_word(text) => Some(if plus { Some(Some(text)) } else { None }),
            _ => None,
        },
        Kind::Prefix | Kind::A | Kind::Unknown => None,
    }
}

/// Makes one change of the modes.
#[tactic(auto, using(crate::proofs::LastLemmas::letter_maps))]
fn change_mode<A: Allocator + Copy, B: Allocator>(
    alloc: A,
    modes: &mut Modes<A>,
    support: &Support<B>,
    change: Change<'_>,
) -> Result<(), OutOfMemory>
    ensures { OnOk result ((letter : ℕ) → fin.get modes.new letter ≡ unwrap_or
        (option_and_then (setting_of letter) (mode_change support.now (shown_change change.entry)))
        (fin.get modes.old letter)) }
{
    match setting_by(support.kind(change.letter), change.plus, change.param) {
        Some(Some(param)) => {
            let param = copy_of(alloc, param)?;
            modes.set(change.letter, param)
        }
        Some(None) => {
            modes.unset(change.letter);
            Ok(())
        }
        None => Ok(()),
    }
}

/// Makes all changes of the modes.
pub(crate) fn change_modes<A: Allocator + Copy, B: Allocator, C: Allocator>(
    alloc: A,
    modes: &mut Modes<A>,
    support: &Support<B>,
    line: &Line<C>,
) -> Result<(), OutOfMemory>
    ensures { OnOk result ((letter : ℕ) → fin.get modes.new letter ≡ unwrap_or
        (last_in (setting_of letter) (modes_in support.now line.now)) (fin.get modes.old letter)) }
{
    for change in changes(support, line) {
        change_mode(alloc, modes, support, change)?;
    }
    Ok(())
}

/// The ranks after a change of one.
fn with_change(ranks: Ranks, plus: bool, rank: u8) -> Ranks
    requires { rank < 16 }
    ensures { result ≡ (if plus then ranks_that (λ r. r == rank || has_rank ranks r)
        else ranks_that (λ r. not (r == rank) && has_rank ranks r)) }
{
    if plus {
        ranks.with(rank)
    } else {
        ranks.without(rank)
    }
}

/// Makes one change of the ranks.
fn change_rank<A: Allocator, B: Allocator>(
    members: &mut Members<A>,
    support: &Support<B>,
    change: Change<'_>,
)
    ensures { (n : Text) → fin.get members.new.all n ≡ option_map
        (rank_after (letter_change support.now (shown_change change.entry)) n)
        (fin.get members.old.all n) }
{
    let Some(rank) = support.rank_of_letter(change.letter) else {
        return;
    };
    let Some(nick) = change.param else {
        return;
    };
    if !is_nameable(nick) {
        return;
    }
    let who = Sought::Name(support.mapping(), nick);
    let mut near = None;
    let Some(ranks) = members.get_near(&mut near, who) else {
        return;
    };
    let mut changed = with_change(*ranks, change.plus, rank);
    members.swap(&mut near, who, &mut changed);
}

/// Makes all changes of the ranks.
pub(crate) fn change_ranks<A: Allocator, B: Allocator, C: Allocator>(
    members: &mut Members<A>,
    support: &Support<B>,
    line: &Line<C>,
)
    ensures { ((n : Text) → ForSome (fin.get members.old.all n)
        (λ ranks. ranks_that (has_rank ranks) ≡ ranks)) →
        (n : Text) → fin.get members.new.all n ≡ option_map
        (ranks_changed (letters_in support.now line.now) n) (fin.get members.old.all n) }
{
    for change in changes(support, line) {
        change_rank(members, support, change);
    }
}

/// Makes all changes of a MODE; after a refusal the channel is as it was.
pub(crate) fn change_room<A: Allocator + Copy, B: Allocator, C: Allocator>(
    alloc: A,
    room: &mut Room<A>,
    support: &Support<B>,
    line: &Line<C>,
) -> Result<(), OutOfMemory>
    ensures changed { OnOk result (AreSets (channel_of room.old) →
        IsModed support.now line.now (channel_of room.old) (channel_of room.new)) }
    ensures kept { OnErr result (channel_of room.new ≡ channel_of room.old) }
{
    let mut modes = room.modes.copy(alloc)?;
    change_modes(alloc, &mut modes, support, line)?;
    change_ranks(&mut room.members, support, line);
    room.modes = modes;
    Ok(())
}

//! The kept state lines: each with what it says about us, and about the settings.

ghost use Rattle.std.specs.Prelude.{◌≡◌, Bool, false, List, OnOk, OnErr, option_map};
ghost use Rattle.std.specs.Option.{option_map_or};
ghost use Rattle.irc_support.specs.Text.{Text};
ghost use Rattle.irc_support.specs.Tokens.{Token};
ghost use Rattle.irc_support.specs.Settings.{key_by};
ghost use Rattle.net_view.specs.Names.{same};
ghost use Rattle.net_view.specs.Arrival.{Received};
ghost use Rattle.net_view.specs.StateLines.{told};
ghost use Rattle.net_view.specs.Transcript.{own_nick, is_ready, ready_after, standing};
ghost use Rattle.net_view.specs.Transcript.{settings_of, settings_after};
ghost use Rattle.net_view.specs.Tells.{meant};
ghost use Rattle.tape_view.specs.Marks.{doer, own_said, person_named, us_of, IsMarked};
ghost use Rattle.tape_view.specs.Kept.{tape_of, IsMarkedTape};

use irc_line::Line;
use irc_support::Support;
use net_view::{OutOfMemory, StateCommand, Telling, told_as};
use std::alloc::Allocator;

/// Whether a line comes from us, and whether it names us, by our nick before it.
#[derive(Clone, Copy)]
pub(crate) struct Marks {
    pub(crate) by_us: bool,
    pub(crate) names_us: bool,
}

/// A state line with its command, whether it comes from us or names us, whether the settings are
/// fixed after it, and whether the connection was lost before the next one.
#[derive(Drop)]
pub(crate) struct Kept<A: Allocator> {
    pub(crate) command: StateCommand,
    pub(crate) line: Line<A>,
    pub(crate) marks: Marks,
    pub(crate) fixed: bool,
    pub(crate) lost: bool,
}

/// Whether the two are one name.
#[tactic(auto, using(net_view::proofs::Keys::is_same, net_view::proofs::Keys::same_refl, net_view::proofs::Tests::both_or_neither))]
pub(crate) fn is_same<S: Allocator>(support: &Support<S>, a: &[u8], b: &[u8]) -> bool
    ensures { result ≡ same (key_by support.now a.now) (key_by support.now b.now) }
{
    support.mapping().same(a, b)
}

/// Whether this is a nick of ours.
fn is_us<S: Allocator>(support: &Support<S>, own: Option<&[u8]>, nick: Option<&[u8]>) -> bool
    ensures { result
        ≡ option_map_or (us_of support.now (option_map (λ o. o.now) own.entry)) (option_map
        (λ n. key_by support.now n.now) nick.entry) false }
{
    match (own, nick) {
        (Some(own), Some(nick)) => is_same(support, own, nick),
        _ => false,
    }
}

/// The person that the line comes from, if the line depends on that.
fn doer<'a, A: Allocator>(telling: &Telling<'a, A>) -> Option<&'a [u8]>
    ensures { (settings : List Token) →
        option_map (λ nick. key_by settings nick.now) result ≡ doer (meant settings telling.now) }
{
    match telling {
        Telling::Joined { who, .. }
        | Telling::Parted { who, .. }
        | Telling::Quits { who }
        | Telling::Renamed { old: who, .. } => Some(*who),
        _ => None,
    }
}

/// The person that the line names, if the line depends on that.
fn person_named<'a, A: Allocator>(telling: &Telling<'a, A>) -> Option<&'a [u8]>
    ensures { (settings : List Token) →
        option_map (λ nick. key_by settings nick.now) result
        ≡ person_named (meant settings telling.now) }
{
    match telling {
        Telling::Kicked { who, .. } | Telling::Renamed { new: who, .. } => Some(*who),
        _ => None,
    }
}

/// Whether what a line says comes from us, and whether it names us, if this was our nick before
/// it.
pub(crate) fn marks_of<S: Allocator, A: Allocator>(
    support: &Support<S>,
    telling: &Telling<'_, A>,
    own: Option<&[u8]>,
) -> Marks
    ensures { IsMarked (us_of support.now (option_map (λ o. o.now) own.entry))
        (meant support.now telling.now) result }
{
    Marks {
        by_us: is_us(support, own, doer(telling)),
        names_us: is_us(support, own, person_named(telling)),
    }
}

/// Whether the settings are fixed after a line that says this, if this was our nick before it.
pub(crate) fn fixed_after<A: Allocator>(
    telling: &Telling<'_, A>,
    own: Option<&[u8]>,
    ready: bool,
) -> bool
    ensures { (settings : List Token) → result
        ≡ ready_after (meant settings telling.now)
        (record { own = option_map (λ o. o.now) own.entry; ready = ready; settings = settings }) }
{
    match telling {
        Telling::Welcomed { .. } => false,
        Telling::Joined { .. } | Telling::Settles => own.is_some(),
        _ => ready,
    }
}

/// The nick that is ours from here on, if the line says one.
fn own_told<'a, A: Allocator>(telling: &Telling<'a, A>, marks: Marks) -> Option<&'a [u8]>
    ensures { (settings : List Token) (us : Text → Bool) →
        IsMarked us (meant settings telling.now) marks →
        option_map (λ nick. nick.now) result ≡ own_said us (meant settings telling.now) }
{
    match telling {
        Telling::Welcomed { nick } => Some(*nick),
        Telling::Renamed { new, .. } if marks.by_us => Some(*new),
        _ => None,
    }
}

/// Our nick after these lines.
#[tactic(auto, using(crate::proofs::TapeLast::command_last, crate::proofs::TapeLast::no_lines, crate::proofs::TapeLast::tape_none))]
pub(crate) fn own_in<A: Allocator>(kept: &[Kept<A>]) -> Option<&[u8]>
    requires { IsMarkedTape kept.now }
    ensures { option_map (λ nick. nick.now) result ≡ own_nick (tape_of kept.now) }
{
    let mut left = kept;
    while let [older @ .., last] = left {
        if let Some(nick) = own_told(&told_as(last.command, &last.line), last.marks) {
            return Some(nick);
        }
        left = older;
    }
    None
}

/// Whether the settings are fixed after these lines.
#[tactic(auto, using(crate::proofs::TapeLast::no_lines, crate::proofs::TapeLast::ready_last, crate::proofs::TapeLast::tape_none))]
pub(crate) fn ready_in<A: Allocator>(kept: &[Kept<A>]) -> bool
    requires { IsMarkedTape kept.now }
    ensures { result ≡ is_ready (tape_of kept.now) }
{
    match kept {
        [_older @ .., last] => last.fixed,
        [] => false,
    }
}

/// Makes these settings, which were in force after these lines, the ones after a line that says
/// this. `OutOfMemory` comes before a change.
pub(crate) fn take_settings<A: Allocator + Copy, B: Allocator>(
    alloc: A,
    support: &mut Support<A>,
    kept: &[Kept<A>],
    telling: &Telling<'_, B>,
    line: &Line<B>,
) -> Result<(), OutOfMemory>
    requires marked { IsMarkedTape kept.now }
    requires told { (settings : List Token) →
        meant settings telling.now ≡ told settings (Received line.now) }
    requires in_force { settings_of (tape_of kept.now) ≡ support.old }
    ensures taken { OnOk result (support.new
        ≡ settings_after (meant support.old telling.now) (standing (tape_of kept.now))) }
    ensures kept { OnErr result (support.new ≡ support.old) }
{
    match telling {
        Telling::Welcomed { .. } => *support = Support::new(alloc)?,
        Telling::Supports { .. } if own_in(kept).is_some() && !ready_in(kept) => {
            support.take(line)?
        }
        _ => (),
    }
    Ok(())
}

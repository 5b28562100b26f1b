//! Our JOIN and our PART around the messages for a channel that we are not on.

ghost use Rattle.std.specs.Prelude.{◌≡◌, ◌++◌, ◌∷◌, [], None, OnOk, codes};
ghost use Rattle.std.specs.List.{find};
ghost use Rattle.std.specs.Option.{option_map};
ghost use Rattle.irc_line.specs.Writing.{line_of_parts, written};
ghost use Rattle.irc_support.specs.Settings.{key_by};
ghost use Rattle.net_view.specs.Names.{same};
ghost use Rattle.net_view.specs.Walks.{member_parts_at};
ghost use Rattle.welcome.specs.Playing.{own_spelled};

use irc_line::write_line;
use net_view::{Members, NetworkView, OutOfMemory};
use std::alloc::Allocator;

/// How this nick of ours was spelled last on the first of our channels; `None` if we are on none.
fn spelled_there<'v, V: NetworkView>(view: &'v V, own: &[u8]) -> Option<&'v [u8]>
    ensures { option_map (λ nick. nick.now) result
        ≡ option_map (λ m. m.nick) (find (λ m. same (key_by (V.view view.now).settings m.nick)
        (key_by (V.view view.now).settings own.now)) (member_parts_at (V.view view.now) 0)) }
{
    let mapping = view.support().mapping();
    let mut members = Members::of(view, 0);
    while let Some(member) = members.next() {
        if mapping.order(member.nick, own).is_eq() {
            return Some(member.nick);
        }
    }
    None
}

/// Our nick as it was spelled last, if somebody sees us, and else as it is. We are a member of each
/// channel that we are on.
pub fn own_spelled<V: NetworkView>(view: &V) -> Option<&[u8]>
    ensures { option_map (λ nick. nick.now) result ≡ own_spelled (V.view view.now) }
{
    view.comes_from_lines();
    let own = view.own()?;
    Some(spelled_there(view, own).unwrap_or(own))
}

/// Adds our PART of it, as `:Me PART #c`.
pub fn push_visit_part<A: Allocator>(
    text: &mut Vec<u8, A>,
    nick: Option<&[u8]>,
    name: &[u8],
) -> Result<(), OutOfMemory>
    ensures { OnOk result (text.new.items ≡ text.old.items ++ written
        (line_of_parts None (option_map (λ n. n.now) nick.entry) (codes "PART")
        (name.now ∷ []))) }
{
    write_line(None, nick, b"PART", &[name], text)
}

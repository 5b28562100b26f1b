//! 353 RPL_NAMREPLY: the members of a channel, each line with all that it has room for.

ghost use Rattle.std.specs.Prelude.{◌≡◌, ◌++◌, ◌+◌, ◌∷◌, OnOk, map, nat_le, length, if◌then◌else◌};
ghost use Rattle.std.specs.Prelude.{true, codes, take, []};
ghost use Rattle.std.specs.List.{flat_map};
ghost use Rattle.irc_line.specs.Writing.{written};
ghost use Rattle.client_caps.specs.Answers.{from_bouncer};
ghost use Rattle.irc_support.specs.Written.{symbols_of};
ghost use Rattle.client_caps.specs.Images.{ranks_shown};
ghost use Rattle.welcome.specs.Burst.{member_word};
ghost use Rattle.welcome.specs.Lent.{members_at};
ghost use Rattle.welcome.specs.Rows.{is_short, rows_of};
ghost use Rattle.welcome.specs.Filling.{name_row};

use crate::greeting::{own_nick, push_reply};
use client_caps::Caps;
use irc_support::Ranks;
use net_view::{Member, Members, NetworkView, OutOfMemory};
use std::alloc::Allocator;

/// How many bytes the words of a line take at most, with the spaces between them (our own choice).
pub const ROW_LIMIT: usize = 400;

/// Whether the word goes onto a row of this many bytes, after a space. A word goes onto a row that
/// is not begun.
pub fn has_room(is_begun: bool, len: usize, word: &[u8]) -> bool
    ensures { result ≡ (if is_begun then nat_le (len + 1 + length word.now) 400 else true) }
{
    !is_begun || word.len() < ROW_LIMIT && len < ROW_LIMIT - word.len()
}

/// Adds the symbol of a rank, if it has one.
fn push_symbol<V: NetworkView, A: Allocator>(
    word: &mut Vec<u8, A>,
    view: &V,
    rank: u8,
) -> Result<(), OutOfMemory>
    ensures { OnOk result (word.new.items ≡ word.old.items
        ++ symbols_of (V.view view.now).settings (rank ∷ [])) }
{
    if let Some(symbol) = view.support().symbol(rank) {
        word.push(symbol)?;
    }
    Ok(())
}

/// Adds the symbols of ranks, highest first.
fn push_symbols<V: NetworkView, A: Allocator>(
    word: &mut Vec<u8, A>,
    view: &V,
    ranks: Ranks,
) -> Result<(), OutOfMemory>
    ensures { OnOk result (word.new.items ≡ word.old.items
        ++ symbols_of (V.view view.now).settings ranks) }
{
    for rank in ranks.iter() {
        push_symbol(word, view, rank)?;
    }
    Ok(())
}

/// Adds the symbol of the highest of these ranks.
fn push_highest<V: NetworkView, A: Allocator>(
    word: &mut Vec<u8, A>,
    view: &V,
    ranks: Ranks,
) -> Result<(), OutOfMemory>
    ensures { OnOk result (word.new.items ≡ word.old.items
        ++ symbols_of (V.view view.now).settings (take 1 ranks)) }
{
    match ranks.top() {
        Some(rank) => push_symbol(word, view, rank),
        None => Ok(()),
    }
}

/// Adds a member as a client is shown it: the symbols of all ranks with multi-prefix, else of the
/// highest alone, and the nick.
fn push_member<V: NetworkView, A: Allocator>(
    word: &mut Vec<u8, A>,
    view: &V,
    caps: Caps,
    member: &Member<'_>,
) -> Result<(), OutOfMemory>
    ensures { OnOk result (word.new.items ≡ word.old.items
        ++ (symbols_of (V.view view.now).settings
        (ranks_shown caps.multi_prefix member.now.ranks) ++ member.now.nick.now)) }
{
    if caps.multi_prefix {
        push_symbols(word, view, member.ranks)?;
    } else {
        push_highest(word, view, member.ranks)?;
    }
    word.extend_from_slice(member.nick)?;
    Ok(())
}

/// Adds a 353 of the channel of this name with a row of words, if the row is begun.
fn push_row<A: Allocator>(
    text: &mut Vec<u8, A>,
    nick: &[u8],
    name: &[u8],
    is_begun: bool,
    row: &[u8],
) -> Result<(), OutOfMemory>
    ensures { OnOk result (text.new.items ≡ text.old.items ++ (if is_begun then written
        (from_bouncer (codes "353") (nick.now ∷ codes "=" ∷ name.now ∷ row.now ∷ [])) else [])) }
{
    if is_begun {
        push_reply(text, b"353", &[nick, b"=", name, row])?;
    }
    Ok(())
}

/// Adds a word to a row, with a space before it if the row is begun.
fn push_word<A: Allocator>(
    row: &mut Vec<u8, A>,
    is_begun: bool,
    word: &[u8],
) -> Result<(), OutOfMemory>
    ensures { OnOk result (row.new.items
        ≡ row.old.items ++ (if is_begun then 32 ∷ word.now else word.now)) }
{
    if is_begun {
        row.push(b' ')?;
    }
    row.extend_from_slice(word)?;
    Ok(())
}

/// Adds the 353 lines of the channel at place `i`, which has this name: as
/// `:bnc 353 Me = #c :@+bob Me`. Members come in key order.
pub fn push_names<V: NetworkView, A: Allocator + Copy>(
    text: &mut Vec<u8, A>,
    view: &V,
    caps: Caps,
    i: usize,
    name: &[u8],
) -> Result<(), OutOfMemory>
    ensures { OnOk result (text.new.items ≡ text.old.items
        ++ flat_map written (map (name_row (V.view view.now) name.now)
        (rows_of is_short (map (member_word (V.view view.now) caps.multi_prefix)
        (members_at (V.view view.now) i))))) }
{
    let nick = own_nick(view);
    let alloc = *text.allocator();
    let mut row = Vec::new(alloc);
    let mut word = Vec::new(alloc);
    let mut is_begun = false;
    let mut members = Members::of(view, i);
    while let Some(member) = members.next() {
        word.clear();
        push_member(&mut word, view, caps, &member)?;
        if !has_room(is_begun, row.len(), &word) {
            push_row(text, nick, name, is_begun, &row)?;
            row.clear();
            is_begun = false;
        }
        push_word(&mut row, is_begun, &word)?;
        is_begun = true;
    }
    push_row(text, nick, name, is_begun, &row)
}

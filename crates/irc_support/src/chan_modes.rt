//! The lists of `CHANMODES` (isupport draft, section 3.3).

ghost use Rattle.std.specs.Prelude.{◌≡◌, ◌<◌, ℕ, [], if◌then◌else◌, slice_index_or, unwrap_or};
ghost use Rattle.irc_support.specs.Text.{cut_at, has_byte};
ghost use Rattle.irc_support.specs.ChanModes.{kind_in, lists_in};
ghost use Rattle.irc_support.specs.declared.kind.Kind.TheVariants.{Prefix};

use crate::Kind;
use crate::cuts::cut;

/// How many letters there are: each byte can be one.
pub const LETTERS: usize = 256;

/// Gives these letters a kind; each other letter keeps its own.
fn set_kind(kinds: &mut [Kind; LETTERS], letters: &[u8], kind: Kind)
    ensures { (letter : ℕ) → letter < 256 →
        slice_index_or kinds.new letter Prefix
        ≡ (if has_byte letters.now letter then kind
        else slice_index_or kinds.old letter Prefix) }
{
    for letter in letters {
        kinds[*letter as usize] = kind;
    }
}

/// The list before the first comma, and the lists after it.
fn first_list(value: &[u8]) -> (&[u8], &[u8])
    ensures list { result.0.now ≡ (cut_at 44 value.now).0 }
    ensures rest { result.1.now ≡ unwrap_or (cut_at 44 value.now).1 [] }
{
    match cut(b',', value) {
        (list, Some(rest)) => (list, rest),
        (list, None) => (list, &[]),
    }
}

/// The kind of each letter by the lists that a value of `CHANMODES` names, with commas between
/// them, in one pass.
pub fn kinds_by_lists(value: &[u8]) -> [Kind; LETTERS]
    ensures { (letter : ℕ) → letter < 256 →
        slice_index_or result letter Prefix ≡ kind_in (lists_in value.now) letter }
{
    let (first, rest) = first_list(value);
    let (second, rest) = first_list(rest);
    let (third, rest) = first_list(rest);
    let (fourth, _) = first_list(rest);
    let mut kinds = [Kind::Unknown; LETTERS];
    // a letter is of the first list that has it, so that one comes last
    set_kind(&mut kinds, fourth, Kind::D);
    set_kind(&mut kinds, third, Kind::C);
    set_kind(&mut kinds, second, Kind::B);
    set_kind(&mut kinds, first, Kind::A);
    kinds
}

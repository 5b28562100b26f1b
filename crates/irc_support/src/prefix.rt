//! The ranks that `PREFIX` names (isupport draft, section 3.14).

ghost use Rattle.std.specs.Prelude.{◌≡◌, ◌<◌, ◌≤◌, ◌==◌, ℕ, List, ◌∷◌, IfNone, IfSome, length};
ghost use Rattle.std.specs.Prelude.{option_map, position, slice_get, take};
ghost use Rattle.std.specs.List.{list_all};
ghost use Rattle.std.specs.Char.{is_ascii_alphabetic};
ghost use Rattle.irc_support.specs.Text.{is_distinct};
ghost use Rattle.irc_support.specs.Ranking.{is_ranking, is_symbol, spelled_by, ranking_in};

use crate::cuts::has;
use irc_line::place_of;
use std::marker::Model;

/// How many ranks `PREFIX` can name: a rank is less. The limit is our own.
pub const RANK_COUNT: u8 = 16;

const RANKS: usize = RANK_COUNT as usize;

/// The letters and the symbols of the ranks, highest first.
#[derive(Drop)]
pub struct Prefix {
    letters: [u8; RANKS],
    symbols: [u8; RANKS],
    count: usize,
}

impl Model for Prefix {
    ghost use Rattle.std.specs.Prelude.{◌≤◌, take};
    ghost use Rattle.irc_support.specs.Ranking.{Ranking};

    ghost Value = { Ranking };

    ghost view = { λ p.
        record { letters = take p.count p.letters; symbols = take p.count p.symbols } };

    ghost invariant = { λ p. p.count ≤ 16 };
}

fn is_a_symbol(byte: u8) -> bool
    ensures { result ≡ is_symbol byte }
{
    byte.is_ascii_punctuation() && !b"[]\\`_^{|}:,".contains(&byte)
}

fn are_letters(text: &[u8]) -> bool
    ensures { result ≡ list_all is_ascii_alphabetic text.now }
{
    text.iter().all(|b| b.is_ascii_alphabetic())
}

fn are_symbols(text: &[u8]) -> bool
    ensures { result ≡ list_all is_symbol text.now }
{
    text.iter().all(|b| is_a_symbol(*b))
}

fn are_distinct(text: &[u8]) -> bool
    ensures { result ≡ is_distinct text.now }
{
    let mut rest = text;
    while let [byte, more @ ..] = rest {
        if has(more, *byte) {
            return false;
        }
        rest = more;
    }
    true
}

fn is_a_ranking(letters: &[u8], symbols: &[u8]) -> bool
    ensures { result ≡ is_ranking (record { letters = letters.now; symbols = symbols.now }) }
{
    letters.len() == symbols.len()
        && letters.len() <= RANKS
        && are_letters(letters)
        && are_distinct(letters)
        && are_symbols(symbols)
        && are_distinct(symbols)
}

/// What follows the byte that a text begins with; `None` if it does not begin with this
/// byte.
fn behind(byte: u8, text: &[u8]) -> Option<&[u8]>
    ensures found { IfSome result (λ rest. text.now ≡ byte ∷ rest.now) }
    ensures none { IfNone result ((rest : List ℕ) → text.now ≡ byte ∷ rest → ⊥) }
{
    match text {
        [first, rest @ ..] if *first == byte => Some(rest),
        _ => None,
    }
}

/// The letters and the symbols of a value of the form `(letters)symbols`, if it spells ranks.
fn halves(value: &[u8]) -> Option<(&[u8], &[u8])>
    ensures value { option_map (λ h. record { letters = h.0.now; symbols = h.1.now }) result
        ≡ spelled_by value.now }
    ensures fits { IfSome result (λ h. (length h.0.now ≤ 16) × (length h.1.now ≡ length h.0.now)) }
{
    let rest = behind(b'(', value)?;
    let (letters, rest) = rest.split_at(rest.len().saturating_sub(1) / 2);
    let symbols = behind(b')', rest)?;
    if is_a_ranking(letters, symbols) {
        Some((letters, symbols))
    } else {
        None
    }
}

fn filled(bytes: &[u8]) -> [u8; RANKS]
    requires { length bytes.now ≤ 16 }
    ensures { take (length bytes.now) result ≡ bytes.now }
{
    let mut array = [0; RANKS];
    array[..bytes.len()].copy_from_slice(bytes);
    array
}

impl Prefix {
    fn of(letters: &[u8], symbols: &[u8]) -> Prefix
        requires few { length letters.now ≤ 16 }
        requires paired { length symbols.now ≡ length letters.now }
        ensures { result ≡ record { letters = letters.now; symbols = symbols.now } }
    {
        Prefix {
            letters: filled(letters),
            symbols: filled(symbols),
            count: letters.len(),
        }
    }

    /// The ranks that a value of `PREFIX` names: none if it is empty, and `(ov)@+` if it has
    /// another form or names more than 16.
    pub fn read(value: &[u8]) -> Prefix
        ensures { result ≡ ranking_in value.now }
    {
        if value.is_empty() {
            return Prefix::of(&[], &[]);
        }
        match halves(value) {
            Some((letters, symbols)) => Prefix::of(letters, symbols),
            None => Prefix::of(b"ov", b"@+"),
        }
    }

    /// The rank that a letter gives.
    pub fn rank_of_letter(&self, letter: u8) -> Option<u8>
        ensures value { result ≡ position (λ b. b == letter) self.now.letters }
        ensures small { IfSome result (λ rank. rank < 16) }
    {
        rank_at(letter, &self.letters[..self.count])
    }

    /// The rank that a symbol shows.
    pub fn rank_of_symbol(&self, symbol: u8) -> Option<u8>
        ensures value { result ≡ position (λ b. b == symbol) self.now.symbols }
        ensures small { IfSome result (λ rank. rank < 16) }
    {
        rank_at(symbol, &self.symbols[..self.count])
    }

    /// The symbol of a rank.
    pub fn symbol(&self, rank: u8) -> Option<u8>
        ensures { result ≡ slice_get self.now.symbols rank }
    {
        self.symbols[..self.count].get(rank as usize).copied()
    }
}

fn rank_at(byte: u8, bytes: &[u8]) -> Option<u8>
    requires { length bytes.now ≤ 16 }
    ensures value { result ≡ position (λ b. b == byte) bytes.now }
    ensures small { IfSome result (λ rank. rank < 16) }
{
    let place = place_of(byte, bytes)?;
    Some(place as u8)
}

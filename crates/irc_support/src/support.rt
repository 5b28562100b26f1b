//! The settings of a network.

ghost use Rattle.std.specs.Prelude.{◌≡◌, ◌<◌, ◌==◌, ℕ, List, [], false, IfSome, IsNone, IsOk};
ghost use Rattle.std.specs.Prelude.{IsOkAnd, slice_index_or};
ghost use Rattle.std.specs.Prelude.{OnErr, OnOk, codes, length, option_map, slice_get};
ghost use Rattle.std.specs.List.{list_any};
ghost use Rattle.irc_line.specs.Line.{has_command};
ghost use Rattle.irc_support.specs.Text.{has_byte};
ghost use Rattle.irc_support.specs.Tokens.{Token};
ghost use Rattle.irc_support.specs.Edits.{tokens_in};
ghost use Rattle.irc_support.specs.Ranking.{ranking_of, rank_of_letter, rank_of_symbol, symbol_of};
ghost use Rattle.irc_support.specs.ChanModes.{kind_of, kind_in, mode_lists};
ghost use Rattle.irc_support.specs.declared.kind.Kind.TheVariants.{Prefix as FirstKind};
ghost use Rattle.irc_support.specs.Settings.{mapping_named, mapping_of, is_channel};
ghost use Rattle.irc_support.specs.Settings.{is_outside_channel};
ghost use Rattle.irc_support.specs.Ranks.{ranks_that};
ghost use Rattle.irc_support.specs.NamesReply.{shows_rank, symbols_before, after_symbols};
ghost use Rattle.irc_support.specs.Line.{settings_after};
ghost use Rattle.irc_support.specs.Shown.{shown_token};
ghost use Rattle.irc_support.specs.Weights.{settings_bytes};

use crate::chan_modes::{LETTERS, kinds_by_lists};
use crate::cuts::has;
use crate::pending::Pending;
use crate::prefix::Prefix;
use crate::tokens::{Table, edits, value_or};
use crate::{Kind, OutOfMemory, Ranks};
use indexmap::IndexMap;
use irc_line::Line;
use irc_names::CaseMapping;
use std::alloc::{Allocator, Global};
use std::marker::Model;
use weights::Weighed;

/// What a network said of itself by 005 RPL_ISUPPORT, as in
/// `:s 005 Me PREFIX=(ov)@+ CHANTYPES=# :are supported by this server`: its tokens, in order.
///
/// A name that is set again keeps its place; one that is set again after it was removed goes last.
pub struct Support<A: Allocator = Global> {
    tokens: Table<A>,
    // what the tokens take, modulo 2^64
    bytes: u64,
    // what PREFIX and CASEMAPPING mean, and the kind that CHANMODES gives each letter
    prefix: Prefix,
    mapping: CaseMapping,
    kinds: [Kind; LETTERS],
}

// By hand, so that whoever owns settings proves one call where they go, and not the way of each
// field of a map.
impl<A: Allocator> Drop for Support<A> {
    fn drop(self) {
        let Support {
            tokens: _tokens,
            bytes: _,
            prefix: _prefix,
            mapping: _,
            kinds: _,
        } = self;
    }
}

impl<A: Allocator> Model for Support<A> {
    ghost use Rattle.std.specs.Prelude.{◌≡◌, ◌<◌, ◌%◌, ◌^◌, ℕ, List, slice_index_or};
    ghost use Rattle.irc_support.specs.Tokens.{Token};
    ghost use Rattle.irc_support.specs.Edits.{tokens_in, AreApart};
    ghost use Rattle.irc_support.specs.Weights.{settings_bytes};
    ghost use Rattle.irc_support.specs.Ranking.{ranking_of};
    ghost use Rattle.irc_support.specs.ChanModes.{kind_in, mode_lists};
    ghost use Rattle.irc_support.specs.declared.kind.Kind.TheVariants.{Prefix as FirstKind};
    ghost use Rattle.irc_support.specs.Settings.{mapping_of};

    ghost Value = { List Token };

    ghost view = { λ s. tokens_in s.tokens.entries };

    ghost invariant = { λ s.
        (s.prefix ≡ ranking_of (tokens_in s.tokens.entries)) ×
        (s.mapping ≡ mapping_of (tokens_in s.tokens.entries)) ×
        AreApart (tokens_in s.tokens.entries) ×
        (s.bytes ≡ settings_bytes (tokens_in s.tokens.entries) % 2 ^ 64) ×
        ((letter : ℕ) → letter < 256 → slice_index_or s.kinds letter FirstKind
        ≡ kind_in (mode_lists (tokens_in s.tokens.entries)) letter) };
}

fn mapping_by_name(name: &[u8]) -> CaseMapping
    ensures { result ≡ mapping_named name.now }
{
    if name == b"rfc1459".as_slice() {
        CaseMapping::Rfc1459
    } else if name == b"strict-rfc1459".as_slice() {
        CaseMapping::Strict
    } else {
        CaseMapping::Ascii
    }
}

#[tactic(auto, unfolding(crate::specs::Settings::mapping_of))]
fn mapping_in<A: Allocator>(tokens: &Table<A>) -> CaseMapping
    ensures { result ≡ mapping_of (tokens_in tokens.now.entries) }
{
    mapping_by_name(value_or(tokens, b"CASEMAPPING", b"rfc1459"))
}

#[tactic(auto, unfolding(crate::specs::Ranking::ranking_of))]
fn prefix_in<A: Allocator>(tokens: &Table<A>) -> Prefix
    ensures { result ≡ ranking_of (tokens_in tokens.now.entries) }
{
    Prefix::read(value_or(tokens, b"PREFIX", b"(ov)@+"))
}

fn kinds_in<A: Allocator>(tokens: &Table<A>) -> [Kind; LETTERS]
    ensures { (letter : ℕ) → letter < 256 → slice_index_or result letter FirstKind
        ≡ kind_in (mode_lists (tokens_in tokens.now.entries)) letter }
{
    kinds_by_lists(value_or(tokens, b"CHANMODES", b"b,k,l,imnpst"))
}

fn has_outside(name: &[u8]) -> bool
    ensures { result ≡ list_any is_outside_channel name.now }
{
    name.iter().any(|byte| matches!(*byte, b' ' | b',' | 7))
}

impl<A: Allocator + Copy> Support<A> {
    /// No token: each setting has its default. Takes no memory yet.
    #[tactic(auto, unfolding(crate::specs::Weights::settings_bytes))]
    pub fn new(alloc: A) -> Result<Support<A>, OutOfMemory>
        ensures { IsOkAnd result (λ settings. settings ≡ []) }
    {
        let tokens = IndexMap::new(alloc);
        let prefix = prefix_in(&tokens);
        let mapping = mapping_in(&tokens);
        let kinds = kinds_in(&tokens);
        Ok(Support {
            tokens,
            bytes: 0,
            prefix,
            mapping,
            kinds,
        })
    }

    /// Takes a 005 line. Its tokens are the parameters between the first and the last: `NAME` and
    /// `NAME=value` set, `-NAME` removes, and one without a name says nothing (our own choice). Any
    /// other line changes nothing and takes no memory. `OutOfMemory` comes before the first
    /// change.
    pub fn take<B: Allocator>(&mut self, line: &Line<B>) -> Result<(), OutOfMemory>
        ensures taken { OnOk result (self.new ≡ settings_after self.old line.now) }
        ensures kept { OnErr result (self.new ≡ self.old) }
        ensures free { has_command line.now (codes "005") ≡ false → IsOk result }
    {
        if !line.is(b"005") {
            return Ok(());
        }
        let alloc = *self.tokens.allocator();
        let pending = Pending::of(alloc, edits(alloc, line)?)?;
        self.tokens.reserve(pending.set_count())?;
        self.bytes = pending.make(&mut self.tokens, self.bytes);
        self.prefix = prefix_in(&self.tokens);
        self.mapping = mapping_in(&self.tokens);
        self.kinds = kinds_in(&self.tokens);
        Ok(())
    }
}

impl<A: Allocator> Support<A> {
    /// How many tokens there are.
    pub fn token_count(&self) -> usize
        ensures { result ≡ length self.now }
    {
        self.tokens.len()
    }

    /// The name of the token at this place, counted from 0, and its value: `None` if no `=`
    /// followed the name, which is read as an empty value and written as it came. `None` from
    /// `token_count` on.
    #[tactic(auto, using(crate::proofs::TokenTable::token_places))]
    pub fn token(&self, place: usize) -> Option<(&[u8], Option<&[u8]>)>
        ensures { option_map shown_token result ≡ slice_get self.now place }
    {
        let (name, value) = self.tokens.get_index(place)?;
        match value {
            Some(value) => Some((name.as_slice(), Some(value.as_slice()))),
            None => Some((name.as_slice(), None)),
        }
    }

    /// What `CASEMAPPING` says (isupport draft, section 3.1): without it `rfc1459`, and `ascii` for
    /// a mapping that is not known (our own choice).
    pub fn mapping(&self) -> CaseMapping
        ensures { result ≡ mapping_of self.now }
    {
        self.mapping
    }

    /// The rank that a letter of `PREFIX` gives, from 0, the highest, to 15 (isupport draft,
    /// section 3.14). `PREFIX` names no rank if it is empty, and `(ov)@+` if it is not there,
    /// is of another form or names more than 16 ranks (our own choice).
    pub fn rank_of_letter(&self, letter: u8) -> Option<u8>
        ensures value { result ≡ rank_of_letter self.now letter }
        ensures small { IfSome result (λ rank. rank < 16) }
    {
        self.prefix.rank_of_letter(letter)
    }

    /// The rank that a symbol of `PREFIX` shows, from 0, the highest, to 15.
    pub fn rank_of_symbol(&self, symbol: u8) -> Option<u8>
        ensures value { result ≡ rank_of_symbol self.now symbol }
        ensures small { IfSome result (λ rank. rank < 16) }
    {
        self.prefix.rank_of_symbol(symbol)
    }

    /// The symbol of a rank, as `@` for rank 0 of `(ov)@+`.
    pub fn symbol(&self, rank: u8) -> Option<u8>
        ensures { result ≡ symbol_of self.now rank }
    {
        self.prefix.symbol(rank)
    }

    /// The ranks whose symbols are at the front of a word of a name list, and what follows
    /// the symbols: of `@+bob!b@h` with `PREFIX=(ov)@+` the ranks 0 and 1, and `bob!b@h`.
    pub fn split_symbols<'b>(&self, word: &'b [u8]) -> (Ranks, &'b [u8])
        ensures ranks { result.0
            ≡ ranks_that (shows_rank self.now (symbols_before self.now word.now)) }
        ensures rest { result.1.now ≡ after_symbols self.now word.now }
    {
        let mut ranks = Ranks::none();
        let mut rest = word;
        while let [symbol, more @ ..] = rest {
            let Some(rank) = self.rank_of_symbol(*symbol) else {
                break;
            };
            ranks = ranks.with(rank);
            rest = more;
        }
        (ranks, rest)
    }

    /// The kind of a mode letter: a letter of `PREFIX`, else the list of `CHANMODES` that has
    /// it (isupport draft, section 3.3). Without `CHANMODES` the lists are `b,k,l,imnpst`; missing
    /// lists are empty, and further ones say nothing (our own choices).
    pub fn kind(&self, letter: u8) -> Kind
        ensures { result ≡ kind_of self.now letter }
    {
        if self.rank_of_letter(letter).is_some() {
            return Kind::Prefix;
        }
        self.kinds[letter as usize]
    }

    /// Whether this is a channel's name: it begins with a byte of `CHANTYPES` (isupport draft,
    /// section 3.5), `#` or `&` without it, not with a colon, and holds no space, no comma and no
    /// byte 7 (RFC 2812, section 1.3).
    #[tactic(auto, unfolding(crate::specs::Settings::is_channel))]
    pub fn is_channel(&self, name: &[u8]) -> bool
        ensures { result ≡ is_channel self.now name.now }
    {
        match name {
            [] => false,
            [first, ..] => {
                let types = value_or(&self.tokens, b"CHANTYPES", b"#&");
                has(types, *first) && *first != b':' && !has_outside(name)
            }
        }
    }
}

impl<A: Allocator> Weighed for Support<A> {
    ghost weight = { settings_bytes };

    fn weight(&self) -> u64 {
        self.bytes
    }
}

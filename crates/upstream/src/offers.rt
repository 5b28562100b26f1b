//! Which capabilities a network offers.

ghost use Rattle.std.specs.Prelude.{◌≡◌, ◌==◌, ◌++◌, ◌∷◌, [], List, IfOk, OnOk, codes, map};
ghost use Rattle.std.specs.List.{list_any, slice_split};
ghost use Rattle.irc_line.specs.Line.{Parts};
ghost use Rattle.upstream.specs.Registration.{is_word_for, named, names_of, offered_by};
ghost use Rattle.upstream.specs.Said.{said};

use crate::OutOfMemory;
use crate::said::Said;
use irc_line::{Line, place_of, split_byte};
use sasl::last_param;
use std::alloc::Global;

/// Which of the capabilities that we can use were offered.
#[derive(Clone, Copy)]
pub struct Offered {
    multi_prefix: bool,
    extended_join: bool,
    account_notify: bool,
    away_notify: bool,
    server_time: bool,
}

/// Whether the word of a list offers the capability of this name: `sasl=PLAIN` offers `sasl`.
fn is_word_for(name: &[u8], word: &[u8]) -> bool
    ensures { result ≡ is_word_for name.now word.now }
{
    match place_of(b'=', word) {
        Some(end) => &word[..end] == name,
        None => word == name,
    }
}

/// Whether the capability of this name is offered in a list.
fn has_word_for(name: &[u8], list: &[u8]) -> bool
    ensures { result ≡ list_any (is_word_for name.now) (slice_split (λ b. b == 32) list.now) }
{
    let mut rest = list;
    while let Some((word, after)) = split_byte(b' ', rest) {
        if is_word_for(name, word) {
            return true;
        }
        rest = after;
    }
    is_word_for(name, rest)
}

/// Adds the name of a capability, if it was offered.
fn push_offered<'a>(
    names: &mut Vec<&'a str>,
    name: &'a str,
    is_offered: bool,
) -> Result<(), OutOfMemory>
    ensures { OnOk result (map (λ n. n.now) names.new.items
        ≡ map (λ n. n.now) names.old.items ++ named is_offered name.now) }
{
    if is_offered {
        names.push(name)?;
    }
    Ok(())
}

impl Offered {
    /// None were offered.
    pub fn none() -> Offered
        ensures { result ≡ offered_by [] }
    {
        Offered {
            multi_prefix: false,
            extended_join: false,
            account_notify: false,
            away_notify: false,
            server_time: false,
        }
    }

    /// With those that a line offers, which says this.
    pub fn with(self, says: Said, line: &Line) -> Offered
        requires { says ≡ said line.now }
        ensures { (before : List Parts) → self ≡ offered_by before →
            result ≡ offered_by (before ++ line.now ∷ []) }
    {
        match says {
            Said::List | Said::LastList => {
                let list = last_param(line);
                Offered {
                    multi_prefix: self.multi_prefix | has_word_for(b"multi-prefix", list),
                    extended_join: self.extended_join | has_word_for(b"extended-join", list),
                    account_notify: self.account_notify | has_word_for(b"account-notify", list),
                    away_notify: self.away_notify | has_word_for(b"away-notify", list),
                    server_time: self.server_time | has_word_for(b"server-time", list),
                }
            }
            _ => self,
        }
    }

    /// The names of those that were offered, in the order of a request, and of `sasl` if we log in.
    pub fn names(self, alloc: Global, logs_in: bool) -> Result<Vec<&'static str>, OutOfMemory>
        ensures { IfOk result (λ names.
            map (λ n. n.now) names.items ≡ names_of self ++ named logs_in (codes "sasl")) }
    {
        let mut names = Vec::with_capacity(alloc, 6)?;
        push_offered(&mut names, "multi-prefix", self.multi_prefix)?;
        push_offered(&mut names, "extended-join", self.extended_join)?;
        push_offered(&mut names, "account-notify", self.account_notify)?;
        push_offered(&mut names, "away-notify", self.away_notify)?;
        push_offered(&mut names, "server-time", self.server_time)?;
        push_offered(&mut names, "sasl", logs_in)?;
        Ok(names)
    }
}

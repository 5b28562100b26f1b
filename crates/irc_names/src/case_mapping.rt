//! Case mappings (RFC 2812, section 2.2; `CASEMAPPING`, isupport draft, section 3.1).

ghost use Rattle.std.specs.Prelude.{◌≡◌, ◌↔◌, IfOk, IsTrue};
ghost use Rattle.std.specs.Ordering.{nat_cmp};
ghost use Rattle.std.specs.Cmp.Lexicographic.{slice_cmp};
ghost use Rattle.irc_names.specs.CaseMapping.{key_byte, key_of, AreOneName};

use crate::OutOfMemory;
use std::alloc::Allocator;
use std::cmp::Ordering;

/// Which bytes of a name count as one letter. It is a network's `CASEMAPPING`.
#[derive(Clone, Copy, Debug, PartialEq, Eq)]
pub enum CaseMapping {
    /// `ascii`: `A` to `Z` are `a` to `z`.
    Ascii,
    /// `rfc1459`: also `[` is `{`, `]` is `}`, `\` is `|` and `~` is `^`.
    Rfc1459,
    /// `strict-rfc1459`: as `rfc1459`, but `~` is not `^`.
    Strict,
}

impl CaseMapping {
    /// The byte that represents `byte` in the key of a name. A key's own bytes represent
    /// themselves.
    pub fn fold_byte(self, byte: u8) -> u8
        ensures { result ≡ key_byte self byte }
    {
        match (self, byte) {
            (CaseMapping::Rfc1459 | CaseMapping::Strict, b'['..=b']') => byte + 32,
            (CaseMapping::Rfc1459, b'~') => b'^',
            _ => byte.to_ascii_lowercase(),
        }
    }

    /// The key of a name, as long as the name: what the name is compared by, and kept under in a
    /// map.
    pub fn key<A: Allocator>(self, alloc: A, name: &[u8]) -> Result<Vec<u8, A>, OutOfMemory>
        ensures { IfOk result (λ key. key.items ≡ key_of self name.now) }
    {
        name.iter().map(|byte| self.fold_byte(*byte)).collect(alloc)
    }

    /// Whether `a` and `b` are one name: whether their keys are equal. Takes no memory.
    pub fn same(self, a: &[u8], b: &[u8]) -> bool
        ensures { IsTrue result ↔ AreOneName self a.now b.now }
    {
        let (mut a, mut b) = (a, b);
        while let ([x, xs @ ..], [y, ys @ ..]) = (a, b) {
            if self.fold_byte(*x) != self.fold_byte(*y) {
                return false;
            }
            (a, b) = (xs, ys);
        }
        a.is_empty() && b.is_empty()
    }

    /// The order of the two names' keys, byte by byte, a shorter one first. Takes no memory.
    pub fn order(self, a: &[u8], b: &[u8]) -> Ordering
        ensures { result ≡ slice_cmp nat_cmp (key_of self a.now) (key_of self b.now) }
    {
        let (mut a, mut b) = (a, b);
        while let [x, xs @ ..] = a {
            let [y, ys @ ..] = b else {
                return Ordering::Greater;
            };
            let first = self.fold_byte(*x).cmp(&self.fold_byte(*y));
            if first != Ordering::Equal {
                return first;
            }
            (a, b) = (xs, ys);
        }
        if b.is_empty() {
            Ordering::Equal
        } else {
            Ordering::Less
        }
    }

    /// The order of a name's key and a key that is at hand, byte by byte, a shorter one first. The
    /// name is folded on the way, so it needs no key of its own; takes no memory.
    pub fn order_to_key(self, name: &[u8], key: &[u8]) -> Ordering
        ensures { result ≡ slice_cmp nat_cmp (key_of self name.now) key.now }
    {
        let (mut name, mut key) = (name, key);
        while let [x, xs @ ..] = name {
            let [y, ys @ ..] = key else {
                return Ordering::Greater;
            };
            let first = self.fold_byte(*x).cmp(y);
            if first != Ordering::Equal {
                return first;
            }
            (name, key) = (xs, ys);
        }
        if key.is_empty() {
            Ordering::Equal
        } else {
            Ordering::Less
        }
    }
}

//! Names as RFC 2812, section 2.2, and the isupport draft have them.

use irc_names::{CaseMapping, is_nameable};
use std::alloc::Global;
use std::cmp::Ordering;
use std::process::Abort;
use std::test::Fail;

const KEYS_OF_EACH_MAPPING: [(CaseMapping, &[u8], &[u8]); 5] = [
    (CaseMapping::Ascii, b"aZ[]\\~{}|^", b"az[]\\~{}|^"),
    (CaseMapping::Rfc1459, b"aZ[]\\~{}|^", b"az{}|^{}|^"),
    (CaseMapping::Strict, b"aZ[]\\~{}|^", b"az{}|~{}|^"),
    (CaseMapping::Rfc1459, b"\xC4@`#9", b"\xC4@`#9"),
    (CaseMapping::Rfc1459, b"", b""),
];

/// Whether a name is at the place of this key.
fn is_at_key(mapping: CaseMapping, name: &[u8], key: &[u8]) -> bool {
    mapping.same(name, key)
        && mapping.order(name, key) == Ordering::Equal
        && mapping.order_to_key(name, key) == Ordering::Equal
}

/// Whether a name has this key, and is at its place.
fn has_key(alloc: Global, mapping: CaseMapping, name: &[u8], key: &[u8]) -> Result<bool, Fail> {
    let made = mapping.key(alloc, name)?;
    Ok(made.as_slice() == key && is_at_key(mapping, name, &made))
}

/// Each row holds.
fn check_keys_of_each_mapping<R: AllocGlobal + Abort>(
    rt: &R,
    rows: &[(CaseMapping, &[u8], &[u8])],
) -> Result<(), Fail> {
    for row in rows {
        let (mapping, name, want) = *row;
        assert!(rt; has_key(rt.alloc(), mapping, name, want)?);
    }
    Ok(())
}

#[test]
fn keys_of_each_mapping(rt: HostRuntime) -> Result<(), Fail> {
    check_keys_of_each_mapping(&rt, &KEYS_OF_EACH_MAPPING)
}

const NAMES_THAT_ARE_THE_SAME: [(&[u8], &[u8], [bool; 3]); 5] = [
    (b"a[b", b"A{B", [false, true, true]),
    (b"x~", b"X^", [false, true, false]),
    (b"bob", b"BOB", [true, true, true]),
    (b"bob", b"bo", [false, false, false]),
    (b"#c", b"#c ", [false, false, false]),
];

/// Whether two names are the same and are at one place, or neither.
fn are_the_same(mapping: CaseMapping, a: &[u8], b: &[u8], same: bool) -> bool {
    mapping.same(a, b) == same && (mapping.order(a, b) == Ordering::Equal) == same
}

/// Whether two names are the same by each mapping: ASCII's, RFC 1459's and the strict one.
fn are_the_same_by_each(a: &[u8], b: &[u8], [ascii, rfc1459, strict]: [bool; 3]) -> bool {
    are_the_same(CaseMapping::Ascii, a, b, ascii)
        && are_the_same(CaseMapping::Rfc1459, a, b, rfc1459)
        && are_the_same(CaseMapping::Strict, a, b, strict)
}

/// Each row holds.
fn check_names_that_are_the_same<R: AllocGlobal + Abort>(
    rt: &R,
    rows: &[(&[u8], &[u8], [bool; 3])],
) {
    for row in rows {
        let (a, b, same) = *row;
        assert!(rt; are_the_same_by_each(a, b, same));
    }
}

#[test]
fn names_that_are_the_same(rt: HostRuntime) {
    check_names_that_are_the_same(&rt, &NAMES_THAT_ARE_THE_SAME);
}

/// A mapping, two names, and the order of the first to the second.
type InOrder = (CaseMapping, &'static [u8], &'static [u8], Ordering);

const NAMES_IN_THEIR_ORDER: [InOrder; 4] = [
    (CaseMapping::Ascii, b"bo", b"BOB", Ordering::Less),
    (CaseMapping::Ascii, b"c", b"Bob", Ordering::Greater),
    (CaseMapping::Rfc1459, b"[", b"z", Ordering::Greater),
    (CaseMapping::Ascii, b"[", b"z", Ordering::Less),
];

#[test]
fn names_in_their_order(rt: HostRuntime) {
    for row in &NAMES_IN_THEIR_ORDER {
        let (mapping, a, b, order) = *row;
        assert!(rt; mapping.order(a, b) == order);
    }
}

const NAMES_BEFORE_AND_BEHIND_A_KEY: [InOrder; 3] = [
    (CaseMapping::Ascii, b"BO", b"bob", Ordering::Less),
    (CaseMapping::Ascii, b"C", b"bob", Ordering::Greater),
    (CaseMapping::Rfc1459, b"[", b"z", Ordering::Greater),
];

#[test]
fn names_before_and_behind_a_key(rt: HostRuntime) {
    for row in &NAMES_BEFORE_AND_BEHIND_A_KEY {
        let (mapping, name, key, order) = *row;
        assert!(rt; mapping.order_to_key(name, key) == order);
    }
}

/// A mapping, a byte, and the byte that represents it in a key.
const FOLDED_BYTES: [(CaseMapping, u8, u8); 4] = [
    (CaseMapping::Ascii, b'Z', b'z'),
    (CaseMapping::Rfc1459, b'~', b'^'),
    (CaseMapping::Strict, b'~', b'~'),
    (CaseMapping::Strict, b'^', b'^'),
];

#[test]
fn folded_bytes(rt: HostRuntime) {
    for row in &FOLDED_BYTES {
        let (mapping, byte, folded) = *row;
        assert!(rt; mapping.fold_byte(byte) == folded);
    }
}

const NAMEABLE: [&[u8]; 8] = [
    b"bob",
    b"9lives",
    b"[x]\\`_^{|}",
    b"`",
    b"\xC3\xA4nne",
    b"b~b",
    b"a-b",
    b"a:b,c",
];

const NOT_NAMEABLE: [&[u8]; 12] = [
    b"", b"~x", b"-x", b"@x", b":x", b"#c", b"b b", b"b!b", b"b@b", b"b\x07", b"b\x7F", b"\x1F",
];

#[test]
fn nameable_nicks(rt: HostRuntime) {
    for nick in &NAMEABLE {
        assert!(rt; is_nameable(nick));
    }
    for nick in &NOT_NAMEABLE {
        assert!(rt; !is_nameable(nick));
    }
}

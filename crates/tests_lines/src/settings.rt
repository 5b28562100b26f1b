//! Settings and modes as networks send them: what the worked rows of irc_support's proofs do not
//! compute, and one row for each of its readers.

mod name_lists;

use irc_line::Line;
use irc_names::CaseMapping;
use irc_support::{Change, Kind, Support, changes};
use std::alloc::Global;
use std::process::Abort;
use std::test::Fail;
use test_texts::line;

/// The settings after a line.
fn settings(alloc: Global, text: &[u8]) -> Result<Support, Fail> {
    let mut settings = Support::new(alloc)?;
    settings.take(&line(alloc, text)?)?;
    Ok(settings)
}

/// Appends the tokens as they came, each with a space after it.
fn push_tokens(text: &mut Vec<u8>, settings: &Support) -> Result<(), Fail> {
    for place in 0..settings.token_count() {
        let (name, value) = settings.token(place).ok_or("no such token")?;
        text.extend_from_slice(name)?;
        if let Some(value) = value {
            text.push(b'=')?;
            text.extend_from_slice(value)?;
        }
        text.push(b' ')?;
    }
    Ok(())
}

/// Takes lines.
fn take_lines(alloc: Global, settings: &mut Support, texts: &[&[u8]]) -> Result<(), Fail> {
    for text in texts {
        settings.take(&line(alloc, text)?)?;
    }
    Ok(())
}

/// The tokens after these lines.
fn tokens_after(alloc: Global, texts: &[&[u8]]) -> Result<Vec<u8>, Fail> {
    let mut settings = Support::new(alloc)?;
    take_lines(alloc, &mut settings, texts)?;
    let mut tokens = Vec::new(alloc);
    push_tokens(&mut tokens, &settings)?;
    Ok(tokens)
}

const TOKENS_IN_ORDER: [(&[u8], &[u8]); 4] = [
    (b":s 005 Me A=1 B -A A=2 C= =x :text", b"B A=2 C= "),
    (
        b":s 005 Me A B=1 -A C A=3 -A A=4 D A=5 -C :text",
        b"B=1 A=5 D ",
    ),
    (b":s 005 Me A -B B -A A -A -C B=2 :text", b"B=2 "),
    (b":s 004 Me A B :text", b""),
];

/// Each row holds.
fn check_tokens_in_order<R: AllocGlobal + Abort>(
    rt: &R,
    rows: &[(&[u8], &[u8])],
) -> Result<(), Fail> {
    for (text, wanted) in rows {
        assert!(rt; tokens_after(rt.alloc(), &[*text])?.as_slice() == *wanted);
    }
    Ok(())
}

#[test]
fn tokens_in_order(rt: HostRuntime) -> Result<(), Fail> {
    check_tokens_in_order(&rt, &TOKENS_IN_ORDER)
}

const TOKENS_OVER_TWO_LINES: [&[u8]; 2] = [
    b":s 005 Me A=1 B C=x :are supported",
    b":s 005 Me A=2 -B D B :are supported",
];

const TOKENS_OF_BOTH: &[u8] = b"A=2 C=x D B ";

#[test]
fn tokens_over_two_lines(rt: HostRuntime) -> Result<(), Fail> {
    assert!(rt; tokens_after(rt.alloc(), &TOKENS_OVER_TWO_LINES)?.as_slice() == TOKENS_OF_BOTH);
    Ok(())
}

/// Whether a rank has this letter and this symbol, or neither if there is no such rank.
fn is_rank(settings: &Support, rank: u8, letter: Option<u8>, symbol: Option<u8>) -> bool {
    let (Some(letter), Some(byte)) = (letter, symbol) else {
        return symbol.is_none() && settings.symbol(rank).is_none();
    };
    settings.symbol(rank) == symbol
        && settings.rank_of_letter(letter) == Some(rank)
        && settings.rank_of_symbol(byte) == Some(rank)
        && settings.kind(letter) == Kind::Prefix
}

/// Lines, and the letters and symbols of the ranks after each, the highest first.
const PREFIXES: [(&[u8], &[u8], &[u8]); 8] = [
    (b":s 005 Me PREFIX=(ov)@+ :text", b"ov", b"@+"),
    (
        b":s 005 Me PREFIX=(Yqaohv)!~&@%+ :text",
        b"Yqaohv",
        b"!~&@%+",
    ),
    (b":s 005 Me PREFIX=(ov)@+% :text", b"ov", b"@+"),
    (b":s 005 Me PREFIX=ov@+ :text", b"ov", b"@+"),
    (b":s 005 Me PREFIX=(oo)@+ :text", b"ov", b"@+"),
    (b":s 005 Me PREFIX=(a1)!$ :text", b"ov", b"@+"),
    (b":s 005 Me PREFIX=(ab)!_ :text", b"ov", b"@+"),
    (
        b":s 005 Me PREFIX=(abcdefghijklmnop)!\"#$%&'()*+-./;< :text",
        b"abcdefghijklmnop",
        b"!\"#$%&'()*+-./;<",
    ),
];

/// Whether ranks have these letters and symbols, and there are no others.
fn has_ranks(settings: &Support, letters: &[u8], symbols: &[u8]) -> bool {
    let mut has = settings.rank_of_letter(b'z').is_none()
        && settings.rank_of_symbol(b'^').is_none();
    for rank in 0..20 {
        let place = usize::from(rank);
        let letter = letters.get(place).copied();
        has = has && is_rank(settings, rank, letter, symbols.get(place).copied());
    }
    has
}

/// Each row holds.
fn check_ranks_of_a_prefix<R: AllocGlobal + Abort>(
    rt: &R,
    rows: &[(&[u8], &[u8], &[u8])],
) -> Result<(), Fail> {
    for (text, letters, symbols) in rows {
        assert!(rt; has_ranks(&settings(rt.alloc(), text)?, letters, symbols));
    }
    Ok(())
}

#[test]
fn ranks_of_a_prefix(rt: HostRuntime) -> Result<(), Fail> {
    check_ranks_of_a_prefix(&rt, &PREFIXES)
}

/// Lines, letters, and their kind after each.
const KINDS: [(&[u8], &[u8], Kind); 8] = [
    (b":s 005 Me A :text", b"b", Kind::A),
    (b":s 005 Me A :text", b"k", Kind::B),
    (b":s 005 Me A :text", b"imnpst", Kind::D),
    (
        b":s 005 Me CHANMODES=beI,k,l,imnpstr :text",
        b"beI",
        Kind::A,
    ),
    (
        b":s 005 Me CHANMODES=beIqa,kfL,lHj,psmntirzMQNRTOVKDdGPZSCc :text",
        b"qa",
        Kind::A,
    ),
    (
        b":s 005 Me CHANMODES=beIqa,kfL,lHj,psmntirzMQNRTOVKDdGPZSCc :text",
        b"lHj",
        Kind::C,
    ),
    (
        b":s 005 Me CHANMODES=beIqa,kfL,lHj,psmntirzMQNRTOVKDdGPZSCc :text",
        b"zMQNRTOVKDdGPZSCc",
        Kind::D,
    ),
    (b":s 005 Me CHANMODES=b :text", b"klimnpst", Kind::Unknown),
];

/// Whether all these letters are of a kind.
fn are_of_kind(settings: &Support, letters: &[u8], kind: Kind) -> bool {
    let mut are = true;
    for letter in letters {
        are = are && settings.kind(*letter) == kind;
    }
    are
}

/// Each row holds.
fn check_kinds_of_letters<R: AllocGlobal + Abort>(
    rt: &R,
    rows: &[(&[u8], &[u8], Kind)],
) -> Result<(), Fail> {
    for (text, letters, kind) in rows {
        assert!(rt; are_of_kind(&settings(rt.alloc(), text)?, letters, *kind));
    }
    Ok(())
}

#[test]
fn kinds_of_letters(rt: HostRuntime) -> Result<(), Fail> {
    check_kinds_of_letters(&rt, &KINDS)
}

const MAPPINGS_BY_THEIR_NAMES: [(&[u8], CaseMapping); 3] = [
    (b":s 005 Me CASEMAPPING=ascii :text", CaseMapping::Ascii),
    (b":s 005 Me CASEMAPPING=rfc1459 :text", CaseMapping::Rfc1459),
    (b":s 005 Me CASEMAPPING :text", CaseMapping::Ascii),
];

/// Each row holds.
fn check_mappings_by_their_names<R: AllocGlobal + Abort>(
    rt: &R,
    rows: &[(&[u8], CaseMapping)],
) -> Result<(), Fail> {
    for row in rows {
        let (text, mapping) = *row;
        assert!(rt; settings(rt.alloc(), text)?.mapping() == mapping);
    }
    Ok(())
}

#[test]
fn mappings_by_their_names(rt: HostRuntime) -> Result<(), Fail> {
    check_mappings_by_their_names(&rt, &MAPPINGS_BY_THEIR_NAMES)
}

const NAMES_OF_CHANNELS: [(&[u8], &[u8], bool); 8] = [
    (b":s 005 Me A :text", b"#c", true),
    (b":s 005 Me A :text", b"&c", true),
    (b":s 005 Me A :text", b"+c", false),
    (b":s 005 Me A :text", b"", false),
    (b":s 005 Me A :text", b"#a b", false),
    (b":s 005 Me A :text", b"#\x07", false),
    (b":s 005 Me CHANTYPES=+: STATUSMSG=@+ :text", b":c", false),
    (b":s 005 Me CHANTYPES :text", b"#c", false),
];

/// Each row holds.
fn check_names_of_channels<R: AllocGlobal + Abort>(
    rt: &R,
    rows: &[(&[u8], &[u8], bool)],
) -> Result<(), Fail> {
    for row in rows {
        let (text, name, is_channel) = *row;
        assert!(rt; settings(rt.alloc(), text)?.is_channel(name) == is_channel);
    }
    Ok(())
}

#[test]
fn names_of_channels(rt: HostRuntime) -> Result<(), Fail> {
    check_names_of_channels(&rt, &NAMES_OF_CHANNELS)
}

/// Appends the changes of a line, each with its sign and its letter, and `=` before what it took.
fn push_changes(text: &mut Vec<u8>, settings: &Support, line: &Line) -> Result<(), Fail> {
    for change in changes(settings, line) {
        push_change(text, change)?;
    }
    Ok(())
}

/// Appends one change.
fn push_change(text: &mut Vec<u8>, change: Change<'_>) -> Result<(), Fail> {
    text.push(if change.plus { b'+' } else { b'-' })?;
    text.push(change.letter)?;
    if let Some(param) = change.param {
        text.push(b'=')?;
        text.extend_from_slice(param)?;
    }
    Ok(text.push(b' ')?)
}

/// The changes of the line of a text.
fn changes_text(alloc: Global, settings: &Support, text: &[u8]) -> Result<Vec<u8>, Fail> {
    let line = line(alloc, text)?;
    let mut shown = Vec::new(alloc);
    push_changes(&mut shown, settings, &line)?;
    Ok(shown)
}

/// Each row holds.
fn check_changes<R: AllocGlobal + Abort>(
    rt: &R,
    settings: &Support,
    rows: &[(&[u8], &[u8])],
) -> Result<(), Fail> {
    for (text, wanted) in rows {
        assert!(rt; changes_text(rt.alloc(), settings, text)?.as_slice() == *wanted);
    }
    Ok(())
}

const CHANGES_OF_A_LINE: [(&[u8], &[u8]); 11] = [
    (b":s MODE #c +lo 5 bob", b"+l=5 +o=bob "),
    (b":s mode #c m-k+b-b x y z", b"+m -k=x +b=y -b=z "),
    (b":s MODE #c -o", b"-o "),
    (b":s MODE #c +ok bob :a b", b"+o=bob +k=a b "),
    (b":s MODE #c +zZ x", b"+z +Z "),
    (b":s MODE #c +-+", b""),
    (b":s MODE #c", b""),
    (b":s MODE", b""),
    (b":s 324 Me #c +kl key 9", b"+k=key +l=9 "),
    (b":s 324 Me #c", b""),
    (b":s 329 Me #c +kl key 9", b""),
];

#[test]
fn changes_of_a_line(rt: HostRuntime) -> Result<(), Fail> {
    check_changes(&rt, &Support::new(rt.alloc())?, &CHANGES_OF_A_LINE)
}

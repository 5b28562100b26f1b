//! The channels that a registration joins, with their keys.

use super::registers;
use crate::settings::{network_of, text_with};
use bnc_config::Config;
use irc_names::CaseMapping;
use std::test::Fail;
use test_texts::texts_of;
use upstream::{channel_lines, channel_lines_by};

/// Keys of a network with a password and channels, one of which has a key.
const MORE: &str = "password = \"secret\"\njoin = [\"#c\", \"#d key\", \"&x\"]\n";

/// The same, with channels that are words.
const CHANNELS: &str = "password = \"secret\"\njoin = [\"#c\", \"&x\"]\n";

/// What comes first with a password and channels.
const WITH_CHANNELS: [(&str, &str); 3] = [
    (
        "",
        "CAP LS 302 / PASS secret / NICK ann / USER ann 0 * :Ann A",
    ),
    (":s 001 ann :hi", "done: JOIN #c / JOIN &x"),
    (":s 001 ann :hi", ""),
];

#[test]
fn a_password_and_channels(rt: HostRuntime) -> Result<(), Fail> {
    registers(&rt, rt.alloc(), CHANNELS, &WITH_CHANNELS)
}

/// Keys of channels, under names in other letters.
const KEYED: &str = "join = [\"#c\", \"#D\", \"&x\"]\n\
    keys = { \"#C\" = \"first\", \"#c\" = \"second\", \"#d\" = \"k\", \"&y\" = \"z\" }\n";

/// The same with lines that come before the channels.
const LINES_FIRST: &str = "join = [\"#c\"]\nkeys = { \"#c\" = \"k\" }\n\
    on_connect = [\"MODE ann +x\"]\n";

const WITH_KEYS: [(&str, &str); 1] = [(
    ":s 001 ann :hi",
    "done: JOIN #c first / JOIN #D k / JOIN &x",
)];

const WITH_LINES_FIRST: [(&str, &str); 1] = [(":s 001 ann :hi", "done: ")];

#[test]
fn channels_with_keys(rt: HostRuntime) -> Result<(), Fail> {
    registers(&rt, rt.alloc(), KEYED, &WITH_KEYS)?;
    registers(&rt, rt.alloc(), LINES_FIRST, &WITH_LINES_FIRST)?;
    let config = Config::read(
        rt.alloc(),
        text_with(rt.alloc(), LINES_FIRST)?.as_str().as_bytes(),
    )?;
    let lines = channel_lines(rt.alloc(), network_of(&config)?)?;
    assert!(rt; texts_of(rt.alloc(), lines.as_slice())?.as_slice() == b"JOIN #c k".as_slice());
    Ok(())
}

/// Channels whose names are spelled in other letters among the keys.
const SPELLED: &str = "join = [\"#a{B\", \"#x~\", \"#y\"]\n\
    keys = { \"#A[b\" = \"k\", \"#x^\" = \"l\", \"#Y\" = \"m\" }\n";

/// A mapping, and the lines.
const BY_MAPPING: [(CaseMapping, &str); 3] = [
    (CaseMapping::Ascii, "JOIN #a{B / JOIN #x~ / JOIN #y m"),
    (CaseMapping::Rfc1459, "JOIN #a{B k / JOIN #x~ l / JOIN #y m"),
    (CaseMapping::Strict, "JOIN #a{B k / JOIN #x~ / JOIN #y m"),
];

#[test]
fn keys_by_the_network_s_mapping(rt: HostRuntime) -> Result<(), Fail> {
    let config = Config::read(
        rt.alloc(),
        text_with(rt.alloc(), SPELLED)?.as_str().as_bytes(),
    )?;
    for (mapping, want) in &BY_MAPPING {
        let lines = channel_lines_by(rt.alloc(), network_of(&config)?, *mapping)?;
        let found = texts_of(rt.alloc(), lines.as_slice())?;
        assert!(rt; found.as_slice() == want.as_bytes(), "at {want}");
    }
    Ok(())
}

/// A key after a channel's name is refused.
#[test]
fn channels_that_are_no_words(rt: HostRuntime) -> Result<(), Fail> {
    let settings = text_with(rt.alloc(), MORE)?;
    assert!(rt; Config::read(rt.alloc(), settings.as_str().as_bytes()).is_err());
    Ok(())
}

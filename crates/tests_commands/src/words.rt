//! What the words of the command line are read as.

use client_caps::{Caps, read_request};
use commands::{Command, explain_caps, explain_words, read_words};
use std::process::Abort;
use std::test::Fail;

/// Whether a command is an attach with these capabilities, this number of messages, and the profile
/// of this file, if there is one.
fn is_attach(command: &Command, caps: Caps, history: usize, file: Option<&str>) -> bool {
    match (command, file) {
        (Command::Attach(with, last), None) => *with == caps && *last == history,
        (Command::AttachBy(with, last, by), Some(file)) => {
            *with == caps && *last == history && by.as_str() == file
        }
        _ => false,
    }
}

/// Words, and the capabilities, the number of messages and the profile that they ask for.
static ATTACHES: [(&[&str], &[u8], usize, Option<&str>); 10] = [
    (&["attach"], b"", 500, None),
    (&["attach", "--caps", ""], b"", 500, None),
    (&["attach", "--caps", "batch"], b"batch", 500, None),
    (
        &["attach", "--caps", "batch,server-time"],
        b"server-time batch",
        500,
        None,
    ),
    (
        &["attach", "--caps", "multi-prefix,-multi-prefix"],
        b"",
        500,
        None,
    ),
    (&["attach", "--history=1"], b"", 1, None),
    (
        &["attach", "--history", "10000", "--caps", "batch"],
        b"batch",
        10_000,
        None,
    ),
    (
        &["attach", "--caps", "batch", "--history", "3"],
        b"batch",
        3,
        None,
    ),
    (
        &["attach", "--profile", "bnc.toml"],
        b"",
        500,
        Some("bnc.toml"),
    ),
    (
        &[
            "attach",
            "--profile=a b",
            "--history",
            "3",
            "--caps",
            "batch",
        ],
        b"batch",
        3,
        Some("a b"),
    ),
];

/// Each row holds.
fn check_attaches<R: AllocGlobal + Abort>(
    rt: &R,
    rows: &[(&[&str], &[u8], usize, Option<&str>)],
) -> Result<(), Fail> {
    for (words, names, history, file) in rows {
        let caps = read_request(Caps::none(), names);
        let command = read_words(rt.alloc(), words)?;
        assert!(rt; caps.is_some_and(|caps| is_attach(&command, caps, *history, *file)));
    }
    Ok(())
}

#[test]
fn capabilities_numbers_of_messages_and_profiles(rt: HostRuntime) -> Result<(), Fail> {
    check_attaches(&rt, &ATTACHES)
}

/// Whether a command is for the file of this name: to check its settings, or else to serve them.
fn is_for(command: &Command, is_check: bool, name: &str) -> bool {
    match command {
        Command::Check(file) => is_check && file.as_str() == name,
        Command::Serve(file) => !is_check && file.as_str() == name,
        _ => false,
    }
}

#[test]
fn files_and_commands_without_words(rt: HostRuntime) -> Result<(), Fail> {
    let alloc = rt.alloc();
    assert!(rt;
        is_for(
            &read_words(alloc, &["check", "bnc.toml"])?,
            true,
            "bnc.toml"
        )
    );
    assert!(rt; is_for(&read_words(alloc, &["serve", "a b"])?, false, "a b"));
    assert!(rt; matches!(read_words(alloc, &["view"]), Ok(Command::View)));
    Ok(())
}

/// Whether a command sends `forget ann/net phone` to the program that serves `bnc.toml`.
fn is_forget(command: &Command) -> bool {
    match command {
        Command::Control(control) => {
            control.file.as_str() == "bnc.toml"
                && control.word.as_str() == "forget"
                && control
                    .network
                    .as_ref()
                    .is_some_and(|network| network.as_str() == "ann/net")
                && control
                    .name
                    .as_ref()
                    .is_some_and(|name| name.as_str() == "phone")
        }
        _ => false,
    }
}

#[test]
fn setup_password_and_control(rt: HostRuntime) -> Result<(), Fail> {
    let alloc = rt.alloc();
    assert!(rt; matches!(read_words(alloc, &["setup", "a"]), Ok(Command::Setup(_))));
    assert!(rt; matches!(read_words(alloc, &["password"]), Ok(Command::Password)));
    let words = ["control", "bnc.toml", "forget", "ann/net", "phone"];
    assert!(rt; is_forget(&read_words(alloc, &words)?));
    Ok(())
}

/// Words with which nothing is wrong.
static GOOD_WORDS: [&[&str]; 4] = [&["check", "a"], &["--help"], &["--version"], &["-V"]];

/// Nothing is wrong with the words of each row.
fn check_good_words<R: AllocGlobal + Abort>(rt: &R, rows: &[&[&str]]) {
    for words in rows {
        assert!(rt; matches!(explain_words(rt.alloc(), words), Ok(None)));
    }
}

#[test]
fn nothing_is_wrong_with_good_words(rt: HostRuntime) {
    check_good_words(&rt, &GOOD_WORDS);
}

/// Words that have no unknown capability, or that are at fault in another way.
static KNOWN_CAPS: [&[&str]; 5] = [
    &["attach", "--caps", "batch,-batch, server-time"],
    &["attach", "--caps", ",,"],
    &["attach"],
    &["attach", "--caps"],
    &["check", "sasl"],
];

/// Words, and the name that no capability has.
static UNKNOWN_CAPS: [(&[&str], &str); 3] = [
    (&["attach", "--caps", "sasl"], "sasl"),
    (&["attach", "--caps", "batch,-x,y"], "x"),
    (&["attach", "--history=1", "--caps=Batch"], "Batch"),
];

#[test]
fn which_capability_is_unknown(rt: HostRuntime) -> Result<(), Fail> {
    let alloc = rt.alloc();
    for words in KNOWN_CAPS {
        assert!(rt; explain_caps(alloc, words)?.is_none());
    }
    for (words, name) in UNKNOWN_CAPS {
        let want = format!(in alloc;
            "error: unknown capability '{name}': there are multi-prefix, extended-join, \
             account-notify, away-notify, server-time, batch"
        )?;
        let found = explain_caps(alloc, words)?;
        assert!(rt; found.is_some_and(|text| text.as_str() == want.as_str()));
    }
    Ok(())
}

//! What the readers of both views answer, and those of one line.

use crate::views::{Rows, check_after};
use irc_line::Line;
use net_view::{NetworkView, StateCommand, Telling, is_state_line, is_word, told};
use quick_view::QuickView;
use std::process::Abort;
use std::test::Fail;
use tape_view::TapeView;
use test_texts::line;
use test_views::item;

/// Lines, and after each whether the view is ready and how many tokens are in force.
const FIXED: [(&[u8], bool, usize); 8] = [
    (b":s 005 Me A B :before the welcome", false, 0),
    (b":s 376 Me :end", false, 0),
    (b":s 001 Me :hi", false, 0),
    (b":s 005 Me A B :are supported", false, 2),
    (b":s 422 Me :none", true, 2),
    (b":s 005 Me C :are supported", true, 2),
    (b"lost", true, 2),
    (b":s 001 You :hi", false, 0),
];

/// Takes these lines into a view.
fn check_fixed<R: AllocGlobal + Abort, V: NetworkView>(rt: &R, view: &mut V) -> Result<(), Fail> {
    for (text, ready, tokens) in &FIXED {
        view.take(&item(rt.alloc(), text)?)?;
        assert!(rt; view.ready() == *ready && view.support().token_count() == *tokens);
    }
    Ok(())
}

#[test]
fn when_settings_are_fixed(rt: HostRuntime) -> Result<(), Fail> {
    check_fixed(&rt, &mut TapeView::new(rt.alloc())?)
}

#[test]
fn when_settings_are_fixed_by_tables(rt: HostRuntime) -> Result<(), Fail> {
    check_fixed(&rt, &mut QuickView::new(rt.alloc())?)
}

/// How far a view is, how many channels it shows, and how many members of the first.
#[derive(Clone, Copy)]
struct Counts {
    welcomed: bool,
    ready: bool,
    channels: usize,
    members: usize,
}

impl Rows for Counts {
    fn check<R: AllocGlobal + Abort, V: NetworkView>(&self, rt: &R, view: &V) -> Result<(), Fail> {
        assert!(rt; view.welcomed() == self.welcomed && view.ready() == self.ready);
        assert!(rt; view.channel_count() == self.channels);
        assert!(rt; view.member_count(0) == self.members);
        assert!(rt; view.channel_at(self.channels).is_none());
        assert!(rt; view.member_count(self.channels) == 0);
        assert!(rt; view.member_at(0, self.members).is_none());
        assert!(rt; view.member_at(self.channels, 0).is_none());
        Ok(())
    }
}

#[test]
fn what_readers_answer(rt: HostRuntime) -> Result<(), Fail> {
    let mut counts = Counts {
        welcomed: false,
        ready: false,
        channels: 0,
        members: 0,
    };
    check_after(&rt, &[], &counts)?;
    counts.welcomed = true;
    check_after(&rt, &[b":s 001 Me :hi"], &counts)?;
    counts.ready = true;
    counts.channels = 1;
    counts.members = 1;
    check_after(&rt, &[b":s 001 Me :hi", b":Me!m@h JOIN #c"], &counts)
}

/// Nicks, and the accounts that are known of them.
#[derive(Clone, Copy)]
struct Accounts<'a>(&'a [(&'a [u8], Option<&'a [u8]>)]);

impl Rows for Accounts<'_> {
    fn check<R: AllocGlobal + Abort, V: NetworkView>(&self, rt: &R, view: &V) -> Result<(), Fail> {
        for (nick, account) in self.0 {
            assert!(rt; view.account_of(nick) == *account);
        }
        Ok(())
    }
}

const ACCOUNTS_BY_NICK: [&[u8]; 3] = [
    b":s 001 Me :hi",
    b":Me!m@h JOIN #c",
    b":bob!b@h JOIN #c bobacc :Bob",
];

static ACCOUNTS_BY_NICK_THEN: [(&[u8], Option<&[u8]>); 3] = [
    (b"BOB", Some(b"bobacc")),
    (b"Me", None),
    (b"eve", None),
];

#[test]
fn accounts_by_nick(rt: HostRuntime) -> Result<(), Fail> {
    check_after(&rt, &ACCOUNTS_BY_NICK, &Accounts(&ACCOUNTS_BY_NICK_THEN))
}

const NO_ACCOUNT_OF_WHAT_IS_NO_NICK: [&[u8]; 4] = [
    b":s 001 Me :hi",
    b":Me!m@h JOIN #c",
    b":^x!u@h JOIN #c xacc :X",
    b":^x!u@h AWAY :gone",
];

const NO_ACCOUNT_OF_WHAT_IS_NO_NICK_SHOWN: [(&[u8], Option<&[u8]>); 2] = [
    (b"^x", Some(b"xacc")),
    (b"~x", None),
];

/// The account of a nick that is none, but has the key of one.
#[test]
fn no_account_of_what_is_no_nick(rt: HostRuntime) -> Result<(), Fail> {
    check_after(
        &rt,
        &NO_ACCOUNT_OF_WHAT_IS_NO_NICK,
        &Accounts(&NO_ACCOUNT_OF_WHAT_IS_NO_NICK_SHOWN),
    )
}

/// Whether a line says that bob left a channel.
fn tells_of_a_part(line: &Line) -> bool {
    match told(line) {
        Telling::Parted { channel, who } => {
            channel == b"#c".as_slice() && who == b"bob".as_slice()
        }
        _ => false,
    }
}

/// The command of a line, and what the line says.
#[test]
fn what_one_line_tells(rt: HostRuntime) -> Result<(), Fail> {
    let part = line(rt.alloc(), b":bob!b@h part #c")?;
    assert!(&rt; is_state_line(&part) && tells_of_a_part(&part));
    let command = StateCommand::of(&part);
    assert!(&rt; command == Some(StateCommand::Part));
    assert!(&rt; StateCommand::Part.text() == b"PART".as_slice());
    Ok(())
}

#[test]
fn a_message_is_no_state_line(rt: HostRuntime) -> Result<(), Fail> {
    let message = line(rt.alloc(), b":bob!b@h PRIVMSG #c :PART #c")?;
    assert!(&rt; !is_state_line(&message) && StateCommand::of(&message).is_none());
    Ok(())
}

#[test]
fn words_of_lines(rt: HostRuntime) {
    assert!(&rt; is_word(b"a:b") && !is_word(b":a") && !is_word(b"") && !is_word(b"a b"));
}

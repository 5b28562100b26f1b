//! Logins in the words of clients.

use super::logs_in;
use std::test::Fail;
use test_texts::OFFER;

const OF_IRSSI: [(&str, &str); 7] = [
    ("CAP LS 302", OFFER),
    ("JOIN :", ":bnc 451 * :You have not registered"),
    ("PASS ann@irssi/net:secret", ""),
    ("NICK ann", ""),
    ("USER ann ann bouncer.example :Ann A", ""),
    (
        "CAP REQ :multi-prefix extended-join account-notify away-notify server-time batch",
        ":bnc CAP * ACK :multi-prefix extended-join account-notify away-notify server-time \
         batch",
    ),
    (
        "CAP END",
        "done: ann@irssi/net secret multi-prefix extended-join account-notify away-notify \
         server-time batch",
    ),
];

#[test]
fn of_irssi(rt: HostRuntime) -> Result<(), Fail> {
    logs_in(&rt, rt.alloc(), &OF_IRSSI)
}

const OF_WEECHAT: [(&str, &str); 6] = [
    ("PASS ann@weechat/net:secret", ""),
    ("CAP LS 302", OFFER),
    ("NICK ann", ""),
    ("USER ann 0 * :Ann A", ""),
    (
        "CAP REQ :account-notify away-notify batch extended-join multi-prefix server-time",
        ":bnc CAP * ACK :account-notify away-notify batch extended-join multi-prefix \
         server-time",
    ),
    (
        "CAP END",
        "done: ann@weechat/net secret multi-prefix extended-join account-notify away-notify \
         server-time batch",
    ),
];

#[test]
fn of_weechat(rt: HostRuntime) -> Result<(), Fail> {
    logs_in(&rt, rt.alloc(), &OF_WEECHAT)
}

const OF_HEXCHAT: [(&str, &str); 6] = [
    ("CAP LS 302", OFFER),
    ("PASS ann/net:secret", ""),
    ("NICK ann", ""),
    ("USER ann 0 * :realname", ""),
    (
        "CAP REQ :away-notify account-notify extended-join multi-prefix server-time ",
        ":bnc CAP * ACK :away-notify account-notify extended-join multi-prefix server-time ",
    ),
    (
        "CAP END",
        "done: ann/net secret multi-prefix extended-join account-notify away-notify \
         server-time",
    ),
];

#[test]
fn of_hexchat(rt: HostRuntime) -> Result<(), Fail> {
    logs_in(&rt, rt.alloc(), &OF_HEXCHAT)
}

const OF_II: [(&str, &str); 3] = [
    ("PASS ann@ii/net:secret", ""),
    ("NICK ann", ""),
    (
        "USER ann localhost bouncer.example :ann",
        "done: ann@ii/net secret",
    ),
];

#[test]
fn of_ii(rt: HostRuntime) -> Result<(), Fail> {
    logs_in(&rt, rt.alloc(), &OF_II)
}

const OF_SENPAI: [(&str, &str); 9] = [
    ("CAP LS 302", OFFER),
    ("NICK ann", ""),
    ("USER ann@senpai/net 0 * :Ann A", ""),
    ("CAP REQ away-notify", ":bnc CAP * ACK away-notify"),
    ("CAP REQ batch", ":bnc CAP * ACK batch"),
    ("CAP REQ sasl", ":bnc CAP * NAK sasl"),
    ("CAP REQ server-time", ":bnc CAP * ACK server-time"),
    ("CAP END", ""),
    (
        "PASS secret",
        "done: ann@senpai/net secret away-notify server-time batch",
    ),
];

#[test]
fn of_senpai(rt: HostRuntime) -> Result<(), Fail> {
    logs_in(&rt, rt.alloc(), &OF_SENPAI)
}

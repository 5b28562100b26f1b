//! Registrations in the words of servers.

use super::registers;
use std::test::Fail;

const AT_NGIRCD: [(&str, &str); 4] = [
    (
        ":irc.example.net CAP * LS :multi-prefix",
        "CAP REQ multi-prefix",
    ),
    (":irc.example.net CAP ann ACK :multi-prefix", "CAP END"),
    ("PING :irc.example.net", "PONG irc.example.net"),
    (
        ":irc.example.net 001 ann :Welcome to the Internet Relay Network ann!~ann@h",
        "done: ",
    ),
];

#[test]
fn at_ngircd(rt: HostRuntime) -> Result<(), Fail> {
    registers(&rt, rt.alloc(), "", &AT_NGIRCD)
}

const AT_INSPIRCD: [(&str, &str); 5] = [
    (
        ":irc.island.example NOTICE * :*** Looking up your hostname...",
        "",
    ),
    (
        ":irc.island.example CAP 483AAAAAA LS :account-notify away-notify extended-join \
         multi-prefix server-time sts=port=6697 userhost-in-names",
        "CAP REQ :multi-prefix extended-join account-notify away-notify server-time",
    ),
    (
        ":irc.island.example CAP ann ACK :multi-prefix extended-join account-notify \
         away-notify server-time",
        "CAP END",
    ),
    (
        ":irc.island.example 433 * ann :Nickname is already in use.",
        "NICK ann_",
    ),
    (
        ":irc.island.example 001 ann_ :Welcome to the Island IRC Network",
        "done: ",
    ),
];

#[test]
fn at_inspircd(rt: HostRuntime) -> Result<(), Fail> {
    registers(&rt, rt.alloc(), "", &AT_INSPIRCD)
}

const AT_SOLANUM: [(&str, &str); 5] = [
    (":silver.example NOTICE * :*** Checking Ident", ""),
    (":silver.example NOTICE * :*** No Ident response", ""),
    (
        ":silver.example CAP * LS :account-notify away-notify chghost extended-join \
         multi-prefix sasl=PLAIN,EXTERNAL tls account-tag cap-notify echo-message server-time",
        "CAP REQ :multi-prefix extended-join account-notify away-notify server-time",
    ),
    (
        ":silver.example CAP ann NAK :multi-prefix extended-join account-notify away-notify \
         server-time",
        "CAP END",
    ),
    (":silver.example 432 * ann :Erroneous Nickname", "bad nick"),
];

#[test]
fn at_solanum(rt: HostRuntime) -> Result<(), Fail> {
    registers(&rt, rt.alloc(), "", &AT_SOLANUM)
}

const AT_UNREALIRCD: [(&str, &str); 6] = [
    (":irc.green.example NOTICE * :*** Found your hostname", ""),
    (
        ":irc.green.example CAP * LS * :unrealircd.org/plaintext-policy=user=allow sasl=PLAIN \
         away-notify multi-prefix",
        "",
    ),
    (
        ":irc.green.example CAP * LS :extended-join server-time message-tags",
        "CAP REQ :multi-prefix extended-join away-notify server-time",
    ),
    ("PING :8F2C1A", "PONG 8F2C1A"),
    (
        ":irc.green.example CAP ann ACK :multi-prefix extended-join away-notify server-time",
        "CAP END",
    ),
    (
        ":irc.green.example 001 ann :Welcome to the Green IRC Network ann!ann@h",
        "done: ",
    ),
];

#[test]
fn at_unrealircd(rt: HostRuntime) -> Result<(), Fail> {
    registers(&rt, rt.alloc(), "", &AT_UNREALIRCD)
}

const AT_A_SERVER_WITHOUT_CAPABILITIES: [(&str, &str); 4] = [
    (
        ":irc.old.example 020 * :Please wait while we process your connection.",
        "",
    ),
    ("NOTICE AUTH :*** Looking up your hostname", ""),
    (":irc.old.example 451 * CAP :You have not registered", ""),
    (":irc.old.example 001 ann :Welcome", "done: "),
];

#[test]
fn at_a_server_without_capabilities(rt: HostRuntime) -> Result<(), Fail> {
    registers(&rt, rt.alloc(), "", &AT_A_SERVER_WITHOUT_CAPABILITIES)
}

//! Settings as the program sees them: every key, what is left out, passwords and places.

use bnc_config::{Config, Key, NetworkConfig, Place, Text, UserConfig};
use std::alloc::Global;
use std::process::Abort;
use std::test::Fail;

/// Ann with all keys, whose password is `bc`, and bob without a network. Bob's password is by
/// `printf '%s%s' 12345678 'correct horse' | sha256sum`.
const ANN_AND_BOB: &[u8] = b"listen = \"127.0.0.1:6667\"
history = 400
retry = 20
[[user]]
name = \"ann\"
salt = \"61\"
password = \"ba7816bf8f01cfea414140de5dae2223b00361a396177a9cb410ff61f20015ad\"
[[user.network]]
name = \"net\"
address = \"127.0.0.1:6660\"
nick = \"anna\"
user = \"annb\"
realname = \"Ann A\"
password = \"secret\"
join = [\"#c\"]
[[user]]
name = \"bob\"
salt = \"3132333435363738\"
password = \"65c30cc1f89ab7117b28c4825ac5de892bc6ac97b1f7d7b070441fc025f3641f\"
";

/// Whether settings have the keys at the top, and the numbers of users and networks.
fn has_the_top(config: &Config) -> bool {
    config.listen() == "127.0.0.1:6667"
        && config.history() == 400
        && config.retry() == 20
        && config.user_count() == 2
        && config.network_count(0) == 1
        && config.network_count(1) == 0
        && config.network_count(2) == 0
}

/// Whether a user is ann.
fn is_ann(user: &UserConfig) -> bool {
    user.name() == b"ann".as_slice()
        && user.salt() == b"a".as_slice()
        && user.digest()[..2] == [0xba, 0x78]
        && user.networks().len() == 1
}

/// Whether a network has the texts of ann's.
fn has_the_texts(network: &NetworkConfig) -> bool {
    network.name() == b"net".as_slice()
        && network.address() == "127.0.0.1:6660"
        && network.nick() == b"anna".as_slice()
        && network.user() == b"annb".as_slice()
        && network.realname() == b"Ann A".as_slice()
        && network.password() == Some(b"secret".as_slice())
}

/// Whether a network has the one channel of ann's.
fn has_the_channel(network: &NetworkConfig) -> bool {
    match network.join() {
        [channel] => channel.as_str() == "#c" && channel.as_bytes() == b"#c".as_slice(),
        _ => false,
    }
}

/// The place of ann's network.
const PLACE: Place = Place {
    user: 0,
    network: 0,
};

#[test]
fn every_key_is_read(rt: HostRuntime) -> Result<(), Fail> {
    let config = Config::read(rt.alloc(), ANN_AND_BOB)?;
    assert!(rt; has_the_top(&config));
    assert!(rt; config.users().first().is_some_and(is_ann));
    let network = config.network(PLACE).ok_or("a network")?;
    assert!(rt; has_the_texts(network) && has_the_channel(network));
    assert!(rt; config.networks(0).iter().all(has_the_texts));
    Ok(())
}

/// Only what a user and a network must have, and a key that there is not.
const LEAST: &[u8] = b"listen = \"host:1\"
other = 1
[[user]]
name = \"ann\"
salt = \"\"
password = \"ba7816bf8f01cfea414140de5dae2223b00361a396177a9cb410ff61f20015ad\"
[[user.network]]
name = \"net\"
address = \"h:1\"
nick = \"a\"
user = \"a\"
realname = \"\"
";

#[test]
fn settings_may_have_no_user(rt: HostRuntime) -> Result<(), Fail> {
    let config = Config::read(rt.alloc(), b"listen = \"host:1\"")?;
    assert!(rt; config.user_count() == 0 && config.networks(0).is_empty());
    assert!(rt; config.network(PLACE).is_none());
    Ok(())
}

/// What is left out has its default.
fn have_defaults<R: AllocGlobal + Abort>(rt: &R, config: &Config) -> Result<(), Fail> {
    assert!(rt; config.history() == 500 && config.retry() == 30);
    let network = config.network(PLACE).ok_or("a network")?;
    assert!(rt; network.password().is_none() && network.join().is_empty());
    assert!(rt; network.on_connect().is_empty() && network.join_after() == 3);
    assert!(rt; network.keys().is_empty() && network.nicks().is_none() && !network.away());
    assert!(rt; config.listens().len() == 1 && config.listen_proxy().is_empty());
    assert!(rt; config.proxies().is_none() && config.metrics().is_none());
    let (messages, playback) = (config.messages(), config.playback());
    assert!(rt; messages.ctcp() && messages.server_notices() && messages.to_self());
    assert!(rt; !messages.by_person() && messages.never().is_empty());
    assert!(rt; !playback.private_batches() && playback.times().is_none());
    assert!(rt; !playback.visits() && playback.wait() == 0);
    Ok(())
}

#[test]
fn what_is_left_out_has_its_default(rt: HostRuntime) -> Result<(), Fail> {
    let config = Config::read(rt.alloc(), LEAST)?;
    have_defaults(&rt, &config)
}

/// All keys that came later, after what there must be.
const LATER: &[u8] = b"listen = [\"host:1\", \"[::1]:2\"]
metrics = \"a b.prom\"
listen_proxy = \"host:3\"
proxies = [\"192.0.2.1\", \"::1\"]
[[user]]
name = \"ann\"
salt = \"\"
password = \"ba7816bf8f01cfea414140de5dae2223b00361a396177a9cb410ff61f20015ad\"
[[user.network]]
name = \"net\"
address = \"h:1\"
nick = \"a\"
user = \"a\"
realname = \"\"
on_connect = [\"MODE a +x\", \" motd\"]
join_after = 0
keys = { \"#d\" = \"k\", \"#C\" = \"l\" }
nicks = []
away = true
";

/// The texts of some, each with a space after it.
fn spaced(alloc: Global, texts: &[Text]) -> Result<String, Fail> {
    let mut out = String::new(alloc);
    for text in texts {
        out.push_str(text.as_str())?;
        out.push_str(" ")?;
    }
    Ok(out)
}

/// The settings have what `LATER` says.
fn have_later_keys<R: AllocGlobal + Abort>(rt: &R, config: &Config) -> Result<(), Fail> {
    assert!(rt; config.listen() == "host:1" && config.metrics() == Some("a b.prom"));
    assert!(rt; spaced(rt.alloc(), config.listens())?.as_str() == "host:1 [::1]:2 ");
    assert!(rt; spaced(rt.alloc(), config.listen_proxy())?.as_str() == "host:3 ");
    let proxies = config.proxies().ok_or("proxies")?;
    assert!(rt; spaced(rt.alloc(), proxies)?.as_str() == "192.0.2.1 ::1 ");
    let network = config.network(PLACE).ok_or("a network")?;
    assert!(rt; spaced(rt.alloc(), network.on_connect())?.as_str() == "MODE a +x  motd ");
    assert!(rt; network.join_after() == 0 && network.away());
    assert!(rt; network.nicks().is_some_and(|nicks| nicks.is_empty()));
    Ok(())
}

#[test]
fn the_later_keys_are_read(rt: HostRuntime) -> Result<(), Fail> {
    let config = Config::read(rt.alloc(), LATER)?;
    have_later_keys(&rt, &config)
}

/// Channels, and the keys that they have by `LATER`.
const KEYS: [(&[u8], Option<&[u8]>); 5] = [
    (b"#d", Some(b"k")),
    (b"#D", Some(b"k")),
    (b"#c", Some(b"l")),
    (b"#e", None),
    (b"d", None),
];

#[test]
fn channels_have_their_keys(rt: HostRuntime) -> Result<(), Fail> {
    let config = Config::read(rt.alloc(), LATER)?;
    let network = config.network(PLACE).ok_or("a network")?;
    for (channel, key) in &KEYS {
        assert!(rt; network.key_of(channel) == *key);
    }
    let first = network.keys().first().ok_or("a pair")?;
    assert!(rt; first.channel() == b"#C".as_slice() && first.key() == b"l".as_slice());
    Ok(())
}

/// Names, passwords, and whether they match.
const PASSWORDS: [(&[u8], &[u8], bool); 10] = [
    (b"ann", b"bc", true),
    (b"ann", b"bd", false),
    (b"ann", b"b", false),
    (b"ann", b"bcd", false),
    (b"ann", b"", false),
    (b"ann", b"abc", false),
    (b"Ann", b"bc", false),
    (b"an", b"bc", false),
    (b"bob", b"correct horse", true),
    (b"bob", b"correct horsf", false),
];

/// Each row holds.
fn check_passwords<R: AllocGlobal + Abort>(rt: &R, config: &Config, rows: &[(&[u8], &[u8], bool)]) {
    for (user, password, is_right) in rows {
        assert!(rt; config.password_matches(user, password) == *is_right);
    }
}

#[test]
fn passwords_are_compared_byte_for_byte(rt: HostRuntime) -> Result<(), Fail> {
    let config = Config::read(rt.alloc(), ANN_AND_BOB)?;
    check_passwords(&rt, &config, &PASSWORDS);
    Ok(())
}

/// Names of a user and a network, and where they are.
const PLACES: [(&[u8], &[u8], Option<Place>); 5] = [
    (b"ann", b"net", Some(PLACE)),
    (b"ann", b"Net", None),
    (b"Ann", b"net", None),
    (b"net", b"ann", None),
    (b"bob", b"net", None),
];

/// Each row holds.
fn check_places<R: AllocGlobal + Abort>(
    rt: &R,
    config: &Config,
    rows: &[(&[u8], &[u8], Option<Place>)],
) {
    for (user, network, place) in rows {
        assert!(rt; config.find(user, network) == *place);
    }
}

#[test]
fn networks_are_found_by_both_names(rt: HostRuntime) -> Result<(), Fail> {
    let config = Config::read(rt.alloc(), ANN_AND_BOB)?;
    check_places(&rt, &config, &PLACES);
    Ok(())
}

const PATHS: [(Key, &str); 3] = [
    (Key::Listen, "listen"),
    (Key::UserName, "user.name"),
    (Key::NetworkJoin, "user.network.join"),
];

#[test]
fn each_key_has_its_path(rt: HostRuntime) {
    for (key, path) in &PATHS {
        assert!(rt; key.path() == *path);
    }
}

//! Words that control the bouncer, and settings that are read again while it runs.

use bnc_config::Config;
use serving::{Limits, Shared, Source, Unread, go_by, obey, stop};
use std::alloc::Global;
use std::net::{Net, TcpListener, TcpStream};
use std::process::Abort;
use std::sync::Arc;
use std::test::Fail;
use std::time::Duration;
use test_bouncer::bouncer::{Bouncer, limits, settings, settle, start_unlogged};
use test_bouncer::host::Host;
use test_bouncer::refusal::turned_away;
use test_bouncer::room::{PHONE, PLAIN, come, leave, let_in};
use test_stage::peer::{Peer, same};
use test_stage::settings::{BC, BD, Named, settings_of};

/// Settings that can't be read.
#[derive(Clone, Copy)]
struct Gone {
    alloc: Global,
}

impl Source for Gone {
    fn read(&self) -> Result<Config, Unread> {
        match String::from_str(self.alloc, "cannot read\nbnc: bnc.toml: not found") {
            Ok(fault) => Err(Unread::Fault(fault)),
            Err(_) => Err(Unread::OutOfMemory),
        }
    }
}

/// The log's lines without their times.
pub(crate) fn untimed(alloc: Global, log: &[u8]) -> Result<Vec<u8>, Fail> {
    let mut text = Vec::new(alloc);
    for line in log.split(|byte| *byte == b'\n') {
        if let Some(line) = line.get(25..) {
            text.extend_from_slice(line)?;
            text.push(b'\n')?;
        }
    }
    Ok(text)
}

/// The log of a bouncer that serves no client and obeys these words, and whether one asked it to
/// stop.
fn logged_of<R: Host + Net<Listener = TcpListener, Stream = TcpStream>>(
    rt: R,
    alloc: Global,
    words: &[u8],
) -> Result<(bool, Vec<u8>), Fail> {
    let settings = settings(alloc, "127.0.0.1:1".parse()?)?;
    let (shared, _begun) = Shared::new(&rt, alloc, settings, limits(0, 0))?;
    let shared = Arc::new(alloc, shared)?;
    let mut words = words;
    let is_asked = obey(rt, alloc, &shared, &mut words, &Gone { alloc });
    shared.log().end(&rt);
    let mut log = Vec::new(alloc);
    shared.log().write_to(&rt, &mut log);
    Ok((is_asked, untimed(alloc, log.as_slice())?))
}

/// What each word does, and lines that are none.
#[test]
fn words_one_a_line(rt: HostRuntime) -> Result<(), Fail> {
    let rows: [(&[u8], bool, &str); 7] = [
        (
            b"status\n",
            false,
            "ann/net: offline; sessions 0; messages 0, 0 bytes\n",
        ),
        (
            b"reload\n",
            false,
            "bnc: not reloaded: cannot read\nbnc: not reloaded: bnc.toml: not found\n",
        ),
        (
            b"metrics\n",
            false,
            "bnc: control: metrics: the settings have no key `metrics`\n",
        ),
        (b"stop\nstatus\n", true, ""),
        (b"st\x1bop\nstop", false, "bnc: control: ignored st?op\n"),
        (
            b"1234567890123456789012345678901234567890123456789012345678901234\n",
            false,
            "bnc: control: ignored \
             1234567890123456789012345678901234567890123456789012345678901234\n",
        ),
        (
            b"12345678901234567890123456789012345678901234567890123456789012345\nstop\n",
            true,
            "bnc: control: ignored a line of more than 64 bytes\n",
        ),
    ];
    for (words, want, log) in rows {
        let (is_asked, found) = logged_of(rt, rt.alloc(), words)?;
        assert!(rt; is_asked == want);
        same(rt.alloc(), found.as_slice(), log)?;
    }
    Ok(())
}

/// Has the bouncer go by these settings.
fn reload<R: Host + Net<Listener = TcpListener, Stream = TcpStream>>(
    rt: R,
    alloc: Global,
    bouncer: &Bouncer,
    digest: &str,
    networks: &[Named<'_>],
) -> Result<(), Fail> {
    let config = settings_of(alloc, digest, networks)?;
    Ok(go_by(rt, alloc, &bouncer.shared, config)?)
}

/// A client hears what bob says.
fn hears_bob(alloc: Global, network: &mut Peer, client: &mut Peer) -> Result<(), Fail> {
    network.say(":bob!b@h PRIVMSG #c :one\r\n")?;
    client.hears(alloc, ":bob!b@h PRIVMSG #c one\r\n")
}

/// What a network hears first of a bouncer with the nick bea.
const FROM_BEA: &str = "CAP LS 302\r\nNICK bea\r\nUSER ann 0 * :Ann A\r\n";

/// The answer to a wrong password, and to a network that is not there.
const WRONG: &str = ":bnc 464 * :Password incorrect\r\n";

/// A network is added, and the session at the other one goes on. Then that one is removed, and it
/// and its client get the reason.
fn added_and_removed<R: Host + Net<Listener = TcpListener, Stream = TcpStream>>(
    rt: R,
    alloc: Global,
    bouncer: &Bouncer,
    other: &TcpListener,
    (network, phone): (&mut Peer, &mut Peer),
) -> Result<(), Fail> {
    let here = ("net", bouncer.network.local_addr()?, "ann");
    let there = ("other", other.local_addr()?, "bea");
    reload(rt, alloc, bouncer, BC, &[there, here])?;
    let mut second = Peer::accept(other)?;
    second.hears(alloc, FROM_BEA)?;
    hears_bob(alloc, network, phone)?;
    reload(rt, alloc, bouncer, BC, &[there])?;
    phone.ends_with(alloc, "ERROR :removed\r\n")?;
    network.ends_with(alloc, "QUIT :removed\r\n")
}

/// A network is added and the other one is removed, which then takes no more logins.
fn one_more_and_one_less<R: Host + Net<Listener = TcpListener, Stream = TcpStream>>(
    rt: R,
    alloc: Global,
    bouncer: &Bouncer,
    other: &TcpListener,
) -> Result<(), Fail> {
    let mut network = let_in(alloc, bouncer)?;
    let mut phone = come(&rt, alloc, bouncer, PHONE, PLAIN)?;
    added_and_removed(rt, alloc, bouncer, other, (&mut network, &mut phone))?;
    turned_away(&rt, alloc, bouncer.address, PHONE, WRONG)
}

#[test]
fn a_network_is_added_and_one_removed(rt: HostRuntime) -> Result<(), Fail> {
    let alloc = rt.alloc();
    let other = TcpListener::bind(&rt, "127.0.0.1:0")?;
    let bouncer = start_unlogged(rt, alloc, limits(2, 1))?;
    one_more_and_one_less(rt, alloc, &bouncer, &other)?;
    bouncer.join(&rt);
    Ok(())
}

/// The network is left with a reason, its client hears so, and the network is dialled again.
fn dialled_anew(
    alloc: Global,
    bouncer: &Bouncer,
    network: &mut Peer,
    phone: &mut Peer,
) -> Result<(), Fail> {
    network.ends_with(alloc, "QUIT :settings changed\r\n")?;
    phone.hears(alloc, ":ann PART #c\r\n")?;
    let mut again = Peer::accept(&bouncer.network)?;
    again.hears(alloc, FROM_BEA)?;
    leave(alloc, phone)
}

/// Our nick changes: the network is dialled anew, and the session stays.
fn another_nick<R: Host + Net<Listener = TcpListener, Stream = TcpStream>>(
    rt: R,
    alloc: Global,
    bouncer: &Bouncer,
) -> Result<(), Fail> {
    let mut network = let_in(alloc, bouncer)?;
    let mut phone = come(&rt, alloc, bouncer, PHONE, PLAIN)?;
    let here = ("net", bouncer.network.local_addr()?, "bea");
    reload(rt, alloc, bouncer, BC, &[here])?;
    dialled_anew(alloc, bouncer, &mut network, &mut phone)
}

#[test]
fn a_network_is_dialled_by_other_settings(rt: HostRuntime) -> Result<(), Fail> {
    let alloc = rt.alloc();
    let bouncer = start_unlogged(rt, alloc, limits(1, 2))?;
    another_nick(rt, alloc, &bouncer)?;
    bouncer.join(&rt);
    Ok(())
}

/// The login of the phone with the password `bd`.
const BY_BD: &str = "PASS ann@phone/net:bd\r\nNICK x\r\nUSER x 0 * :x\r\n";

/// The password changes while a client logs in: the client is judged by the new one.
fn late_login<R: Host + Net<Listener = TcpListener, Stream = TcpStream>>(
    rt: R,
    alloc: Global,
    bouncer: &Bouncer,
) -> Result<(), Fail> {
    let mut late = Peer::dial(&rt, bouncer.address)?;
    late.say("PING x\r\nPASS ann@pc/net:bc\r\n")?;
    late.hears(alloc, ":bnc PONG bnc x\r\n")?;
    let here = ("net", bouncer.network.local_addr()?, "ann");
    reload(rt, alloc, bouncer, BD, &[here])?;
    late.say("NICK x\r\nUSER x 0 * :x\r\n")?;
    late.ends_with(alloc, ":bnc 464 * :Password incorrect\r\n")
}

/// Two clients hear what bob says, and quit.
fn hear_and_leave(
    alloc: Global,
    network: &mut Peer,
    phone: &mut Peer,
    pad: &mut Peer,
) -> Result<(), Fail> {
    hears_bob(alloc, network, phone)?;
    pad.hears(alloc, ":bob!b@h PRIVMSG #c one\r\n")?;
    leave(alloc, pad)?;
    leave(alloc, phone)
}

/// The password changes: a login that began before needs the new one, as later ones do, and a session
/// stays.
fn another_password<R: Host + Net<Listener = TcpListener, Stream = TcpStream>>(
    rt: R,
    alloc: Global,
    bouncer: &Bouncer,
) -> Result<(), Fail> {
    let mut network = let_in(alloc, bouncer)?;
    let mut phone = come(&rt, alloc, bouncer, PHONE, PLAIN)?;
    late_login(rt, alloc, bouncer)?;
    turned_away(&rt, alloc, bouncer.address, PHONE, WRONG)?;
    let mut pad = come(&rt, alloc, bouncer, BY_BD, PLAIN)?;
    hear_and_leave(alloc, &mut network, &mut phone, &mut pad)
}

#[test]
fn a_password_that_changes(rt: HostRuntime) -> Result<(), Fail> {
    let alloc = rt.alloc();
    let bouncer = start_unlogged(rt, alloc, limits(4, 1))?;
    another_password(rt, alloc, &bouncer)?;
    bouncer.join(&rt);
    Ok(())
}

/// The words ask for the status of a network with a message, and for the bouncer to stop; the
/// network and its client get the reason.
fn status_and_stop<R: Host + Net<Listener = TcpListener, Stream = TcpStream>>(
    rt: R,
    alloc: Global,
    bouncer: &Bouncer,
    (network, phone): (&mut Peer, &mut Peer),
) -> Result<bool, Fail> {
    hears_bob(alloc, network, phone)?;
    settle(alloc, network)?;
    let mut words = b"status\nstop\n".as_slice();
    let is_asked = obey(rt, alloc, &bouncer.shared, &mut words, &Gone { alloc });
    bouncer.shared.begin_stop(&rt);
    stop(&rt, alloc, &bouncer.shared);
    phone.ends_with(alloc, "ERROR :bnc stops\r\n")?;
    network.ends_with(alloc, "QUIT :bnc stops\r\n")?;
    Ok(is_asked)
}

/// A client comes, and the words are obeyed.
fn obeyed<R: Host + Net<Listener = TcpListener, Stream = TcpStream>>(
    rt: R,
    alloc: Global,
    bouncer: &Bouncer,
) -> Result<bool, Fail> {
    let mut network = let_in(alloc, bouncer)?;
    let mut phone = come(&rt, alloc, bouncer, PHONE, PLAIN)?;
    status_and_stop(rt, alloc, bouncer, (&mut network, &mut phone))
}

/// Whether a text contains another.
pub(crate) fn stands_in(text: &[u8], part: &[u8]) -> bool {
    for start in 0..text.len() {
        if text[start..].starts_with(part) {
            return true;
        }
    }
    false
}

#[test]
fn the_status_and_the_end(rt: HostRuntime) -> Result<(), Fail> {
    let alloc = rt.alloc();
    let limits = Limits {
        stop: Duration::from_secs(1),
        ..limits(1, 1)
    };
    let bouncer = start_unlogged(rt, alloc, limits)?;
    assert!(rt; obeyed(rt, alloc, &bouncer)?);
    let log = bouncer.logged(&rt, alloc)?;
    assert!(rt; stands_in(log.as_slice(), b"; sessions 1; messages 1, 43 bytes\n"));
    assert!(rt; stands_in(log.as_slice(), b"session ended: bnc stops; "));
    assert!(rt; stands_in(log.as_slice(), b"connection ended: bnc stops\n"));
    Ok(())
}

/// Settings without a network, with this key at the top.
fn settings_with(alloc: Global, key: &str) -> Result<Config, Fail> {
    let text = format!(in alloc; "listen = \"127.0.0.1:6667\"\n{key}\n")?;
    Ok(Config::read(alloc, text.as_str().as_bytes())?)
}

/// What each of these reloads logs, one after another, of a key that the settings of the start have as
/// `history = 9`.
static RESTARTS: [(&str, &str); 5] = [
    ("history = 9", ""),
    (
        "history = 9\nmemory = 9",
        "bnc: reloaded: memory needs a restart\n",
    ),
    ("history = 8", "bnc: reloaded: history needs a restart\n"),
    ("history = 8", "bnc: reloaded: history needs a restart\n"),
    ("history = 9", ""),
];

/// A setting that needs a restart is compared with that of the start, and not with the last one.
#[test]
fn a_setting_that_is_changed_back_needs_no_restart(rt: HostRuntime) -> Result<(), Fail> {
    let alloc = rt.alloc();
    let first = settings_with(alloc, "history = 9")?;
    let (shared, _begun) = Shared::new(&rt, alloc, first, limits(0, 0))?;
    let shared = Arc::new(alloc, shared)?;
    let mut want = Vec::new(alloc);
    for (key, log) in RESTARTS {
        go_by(rt, alloc, &shared, settings_with(alloc, key)?)?;
        want.extend_from_slice(b"bnc: reloaded: networks new 0, removed 0, dialled anew 0\n")?;
        want.extend_from_slice(log.as_bytes())?;
    }
    shared.log().end(&rt);
    let mut log = Vec::new(alloc);
    shared.log().write_to(&rt, &mut log);
    assert!(rt; untimed(alloc, log.as_slice())?.as_slice() == want.as_slice());
    Ok(())
}

//! What clients ask for, and the images of lines that they get.

use crate::views::{Rows, check_after, check_by_tables};
use client_caps::{Cap, Caps, Moment, image, part_lines, read_request};
use irc_line::Line;
use net_view::NetworkView;
use std::alloc::Global;
use std::process::Abort;
use std::test::Fail;
use test_texts::line;
use welcome::Packet;

/// A welcome, our JOIN, and that of a person with an account.
const JOINED: [&[u8]; 5] = [
    b":s 001 Me :hi",
    b":s 005 Me PREFIX=(ov)@+ CHANTYPES=# :are supported",
    b":s 376 Me :end",
    b":Me!m@h JOIN #c",
    b":bob!b@h JOIN #c bobacc :Bob",
];

/// The capabilities that a request asks for, from none.
pub(crate) fn asked(text: &[u8]) -> Result<Caps, Fail> {
    Ok(read_request(Caps::none(), text).ok_or("the request is taken")?)
}

/// The text of the image of a line that came at the beginning of 1970; `-` if there is none.
fn image_text<V: NetworkView>(
    alloc: Global,
    view: &V,
    caps: Caps,
    text: &[u8],
) -> Result<Vec<u8>, Fail> {
    let mut out = Vec::new(alloc);
    match image(alloc, view, caps, &line(alloc, text)?, Moment(0))? {
        Some(image) => image.write(&mut out)?,
        None => out.push(b'-')?,
    }
    Ok(out)
}

/// Capabilities, a line, and what is sent.
#[derive(Clone, Copy)]
struct Images<'a>(&'a [(&'a [u8], &'a [u8], &'a [u8])]);

impl Rows for Images<'_> {
    fn check<R: AllocGlobal + Abort, V: NetworkView>(&self, rt: &R, view: &V) -> Result<(), Fail> {
        for (names, text, wanted) in self.0 {
            let sent = image_text(rt.alloc(), view, asked(names)?, text)?;
            assert!(rt; sent.as_slice() == *wanted);
        }
        Ok(())
    }
}

/// Images of lines, after these texts.
pub(crate) fn check_images<R: AllocGlobal + Abort>(
    rt: &R,
    texts: &[&[u8]],
    rows: &[(&[u8], &[u8], &[u8])],
) -> Result<(), Fail> {
    check_by_tables(rt, texts, &Images(rows))
}

/// The names of these capabilities, each with a space after it; `-` if a request was refused.
fn names_held(alloc: Global, caps: Option<Caps>) -> Result<Vec<u8>, Fail> {
    let mut text = Vec::new(alloc);
    let Some(caps) = caps else {
        text.push(b'-')?;
        return Ok(text);
    };
    for cap in Cap::ALL {
        if caps.holds(cap) {
            text.extend_from_slice(cap.name())?;
            text.push(b' ')?;
        }
    }
    Ok(text)
}

const CAPABILITIES_ASKED_FOR: [(&[u8], &[u8]); 8] = [
    (b"", b"multi-prefix "),
    (b"  ", b"multi-prefix "),
    (b"batch", b"multi-prefix batch "),
    (b"-multi-prefix", b""),
    (b"-batch  batch -multi-prefix", b"batch "),
    (b"batch -batch", b"multi-prefix "),
    (b"batch sasl", b"-"),
    (
        b"away-notify server-time extended-join account-notify batch",
        b"multi-prefix extended-join account-notify away-notify server-time batch ",
    ),
];

/// Requests, and the names held after them.
#[test]
fn capabilities_asked_for(rt: HostRuntime) -> Result<(), Fail> {
    let before = asked(b"multi-prefix")?;
    for (text, wanted) in &CAPABILITIES_ASKED_FOR {
        let held = names_held(rt.alloc(), read_request(before, text))?;
        assert!(&rt; held.as_slice() == *wanted);
    }
    assert!(&rt; Caps::name(5).ok_or("six names")? == Cap::Batch.name());
    assert!(&rt; Caps::name(6).is_none());
    Ok(())
}

/// Images of lines of persons.
const OF_PERSONS: [(&[u8], &[u8], &[u8]); 10] = [
    (b"", b":bob!b@h ACCOUNT x", b"-"),
    (
        b"account-notify",
        b":bob!b@h ACCOUNT x",
        b":bob!b@h ACCOUNT x\r\n",
    ),
    (b"account-notify", b":bob!b@h AWAY :x y", b"-"),
    (
        b"away-notify",
        b":bob!b@h AWAY :x y",
        b":bob!b@h AWAY :x y\r\n",
    ),
    (
        b"",
        b":eve!e@h JOIN #d eveacc :Eve",
        b":eve!e@h JOIN #d\r\n",
    ),
    (
        b"",
        b":eve!e@h JOIN d eveacc :Eve",
        b":eve!e@h JOIN d eveacc Eve\r\n",
    ),
    (
        b"extended-join",
        b":eve!e@h JOIN #d eveacc :Eve E",
        b":eve!e@h JOIN #d eveacc :Eve E\r\n",
    ),
    (
        b"extended-join",
        b":eve!e@h JOIN #d eveacc",
        b":eve!e@h JOIN #d eveacc :\r\n",
    ),
    (
        b"extended-join",
        b":eve!e@h JOIN #d",
        b":eve!e@h JOIN #d * :\r\n",
    ),
    (
        b"extended-join",
        b":BOB!b@h JOIN #d",
        b":BOB!b@h JOIN #d bobacc :\r\n",
    ),
];

#[test]
fn lines_of_persons_as_clients_are_sent_them(rt: HostRuntime) -> Result<(), Fail> {
    check_images(&rt, &JOINED, &OF_PERSONS)
}

const OTHER_LINES: [(&[u8], &[u8], &[u8]); 8] = [
    (
        b"",
        b"@a=1 :bob!b@h PRIVMSG #c :hi all",
        b":bob!b@h PRIVMSG #c :hi all\r\n",
    ),
    (b"", b"PING x", b"-"),
    (b"", b"batch +a", b"-"),
    (
        b"",
        b":s 353 Me = #c :Me  @+bob!b@h +eve @",
        b":s 353 Me = #c :Me @bob!b@h +eve @\r\n",
    ),
    (
        b"multi-prefix",
        b":s 353 Me = #c :Me  @+bob",
        b":s 353 Me = #c :Me  @+bob\r\n",
    ),
    (b"", b":bob!b@h NICK Me", b":bob!b@h NICK Me\r\n"),
    (b"", b":@x!u@h JOIN #c", b":@x!u@h JOIN #c\r\n"),
    (b"", b":s MODE #c +k :a b", b":s MODE #c +k :a b\r\n"),
];

/// Messages, name lists, changes of names, and lines that no client is sent.
#[test]
fn other_lines_as_clients_are_sent_them(rt: HostRuntime) -> Result<(), Fail> {
    check_images(&rt, &JOINED, &OTHER_LINES)
}

const A_JOIN_OF_A_PERSON_WHO_LEFT_TEXTS: [&[u8]; 4] = [
    b":s 001 Me :hi",
    b":Me!m@h JOIN #c",
    b":bob!b@h JOIN #c bobacc :Bob",
    b":bob!b@h PART #c",
];

const A_JOIN_OF_A_PERSON_WHO_LEFT: [(&[u8], &[u8], &[u8]); 2] = [
    (
        b"extended-join",
        b":bob!b@h JOIN #c",
        b":bob!b@h JOIN #c * :\r\n",
    ),
    (b"", b":bob!b@h JOIN #c", b":bob!b@h JOIN #c\r\n"),
];

/// The JOIN of a person whose account was forgotten with the last shared channel, by both views.
#[test]
fn a_join_of_a_person_who_left(rt: HostRuntime) -> Result<(), Fail> {
    check_after(
        &rt,
        &A_JOIN_OF_A_PERSON_WHO_LEFT_TEXTS,
        &Images(&A_JOIN_OF_A_PERSON_WHO_LEFT),
    )
}

const NAME_LISTS_BY_OTHER_RANKS: [(&[u8], &[u8], &[u8]); 2] = [
    (
        b"",
        b":s 353 Me = #c :~&@%+bob!b@h +%eve Me",
        b":s 353 Me = #c :~bob!b@h %eve Me\r\n",
    ),
    (
        b"multi-prefix",
        b":s 353 Me = #c :~&@%+bob!b@h +%eve Me",
        b":s 353 Me = #c :~&@%+bob!b@h +%eve Me\r\n",
    ),
];

const NAME_LISTS_BY_OTHER_RANKS_THEN: [(&[u8], &[u8], &[u8]); 2] = [
    (
        b"",
        b":s 353 Me = #c :@+bob!b@h  +eve Me",
        b":s 353 Me = #c :@+bob!b@h +eve Me\r\n",
    ),
    (
        b"multi-prefix",
        b":s 353 Me = #c :@+bob!b@h  +eve Me",
        b":s 353 Me = #c :@+bob!b@h  +eve Me\r\n",
    ),
];

/// The names of a 353, by five ranks and by none.
#[test]
fn name_lists_by_other_ranks(rt: HostRuntime) -> Result<(), Fail> {
    check_images(
        &rt,
        &[
            b":s 001 Me :hi",
            b":s 005 Me PREFIX=(qaohv)~&@%+ :are supported",
        ],
        &NAME_LISTS_BY_OTHER_RANKS,
    )?;
    check_images(
        &rt,
        &[b":s 001 Me :hi", b":s 005 Me PREFIX= :are supported"],
        &NAME_LISTS_BY_OTHER_RANKS_THEN,
    )
}

/// What is sent for a loss.
#[derive(Clone, Copy)]
struct Parts<'a>(&'a [u8]);

impl Rows for Parts<'_> {
    fn check<R: AllocGlobal + Abort, V: NetworkView>(&self, rt: &R, view: &V) -> Result<(), Fail> {
        let mut text = Vec::new(rt.alloc());
        for line in part_lines(rt.alloc(), view)? {
            line.write(&mut text)?;
        }
        assert!(rt; text.as_slice() == self.0);
        Ok(())
    }
}

const CHANNELS_LEFT_FOR_A_LOSS: [&[u8]; 4] = [
    b":s 001 Me :hi",
    b":Me!m@h JOIN #c",
    b":Me!m@h JOIN #b",
    b":Me!m@h JOIN #A",
];

/// Three channels are left for a loss.
#[test]
fn channels_left_for_a_loss(rt: HostRuntime) -> Result<(), Fail> {
    check_by_tables(
        &rt,
        &CHANNELS_LEFT_FOR_A_LOSS,
        &Parts(b":Me PART #A\r\n:Me PART #b\r\n:Me PART #c\r\n"),
    )
}

/// The one line of a packet.
fn is_of_one_line<R: AllocGlobal + Abort>(rt: &R, packet: &Packet) -> Result<(), Fail> {
    assert!(rt; packet.bytes() == b"PRIVMSG #c :m 1\r\n".as_slice());
    assert!(rt; packet.line_count() == 1);
    let line: Line = packet.line(rt.alloc(), 0)?;
    assert!(rt; line.param(1) == Some(b"m 1".as_slice()));
    Ok(())
}

/// A packet, and one that shares its bytes.
#[test]
fn a_packet_and_its_share(rt: HostRuntime) -> Result<(), Fail> {
    let packet = Packet::one(rt.alloc(), &line(rt.alloc(), b"PRIVMSG #c :m 1")?)?;
    is_of_one_line(&rt, &packet)?;
    is_of_one_line(&rt, &packet.share()?)
}

//! What is made of lines and views: images and packets.

ghost use Rattle.std.specs.List.{AllByRecursion};
ghost use Rattle.history.specs.Entry.{IsWrittenEntry};

use super::{Heap, MANY};
use crate::clients::asked;
use crate::said::SaidLines;
use crate::views::{Rows, check_after};
use client_caps::{Caps, Moment, image};
use history::Entry;
use irc_line::Line;
use net_view::NetworkView;
use std::alloc::{AllocError, Allocator, Global};
use std::process::Abort;
use std::test::Fail;
use test_texts::line;
use welcome::{Packet, burst, catchup, playback};

/// What is made.
#[derive(Clone, Copy, PartialEq, Eq)]
enum Made {
    Image,
    One,
    Burst,
    Playback,
    Catchup,
}

/// The bytes of an image; `-` if there is none.
fn image_text<V: NetworkView, A: Allocator + Copy + Drop>(
    plain: Global,
    alloc: A,
    view: &V,
    caps: Caps,
    line: &Line,
) -> Result<Vec<u8>, AllocError> {
    let mut text = Vec::new(plain);
    match image(alloc, view, caps, line, Moment(0))? {
        Some(image) => image.write(&mut text)?,
        None => text.push(b'-')?,
    }
    Ok(text)
}

/// The bytes of a burst.
fn burst_text<V: NetworkView, A: Allocator + Copy>(
    plain: Global,
    alloc: A,
    view: &V,
    caps: Caps,
    missed: &[&Entry],
) -> Result<Vec<u8>, AllocError>
    requires { AllByRecursion (λ entry. IsWrittenEntry entry.now) missed.now }
{
    if view.ready() {
        Vec::from_slice(plain, burst(alloc, view, caps, missed)?.bytes())
    } else {
        Vec::from_slice(plain, b"not ready")
    }
}

/// The bytes of what is made of a view, of a line, or of messages that were missed.
fn made_text<V: NetworkView, A: Allocator + Copy + Drop>(
    plain: Global,
    alloc: A,
    view: &V,
    made: Made,
    caps: Caps,
    line: &Line,
    missed: &[&Entry],
) -> Result<Vec<u8>, AllocError>
    requires { AllByRecursion (λ entry. IsWrittenEntry entry.now) missed.now }
{
    match made {
        Made::Image => image_text(plain, alloc, view, caps, line),
        Made::One => Vec::from_slice(plain, Packet::one(alloc, line)?.bytes()),
        Made::Burst => burst_text(plain, alloc, view, caps, missed),
        Made::Playback => Vec::from_slice(plain, playback(alloc, view, caps, missed)?.bytes()),
        Made::Catchup => Vec::from_slice(plain, catchup(alloc, view, caps, line)?.bytes()),
    }
}

/// Makes something after each of its allocations was refused; how many were.
fn make_refused<R: AllocGlobal + Abort, V: NetworkView>(
    rt: &R,
    view: &V,
    made: Made,
    caps: Caps,
    line: &Line,
    missed: &[&Entry],
) -> Result<u64, Fail>
    requires { AllByRecursion (λ entry. IsWrittenEntry entry.now) missed.now }
{
    let heap = Heap::none(rt.alloc());
    let wanted = made_text(rt.alloc(), rt.alloc(), view, made, caps, line, missed)?;
    for nth in 1..MANY {
        heap.refuse(nth);
        match made_text(rt.alloc(), &heap, view, made, caps, line, missed) {
            Ok(text) => {
                assert!(rt; !heap.has_refused() && text == wanted);
                return Ok(nth - 1);
            }
            Err(_) => assert!(rt; heap.has_refused()),
        }
    }
    Err(Fail::new(format_args!("it is refused on and on")))
}

/// Messages that were missed; what is made, for which capabilities, and of which line.
#[derive(Clone, Copy)]
struct Makings<'a> {
    said: &'a SaidLines,
    rows: &'a [(Made, &'a [u8], &'a [u8])],
}

impl Rows for Makings<'_> {
    fn check<R: AllocGlobal + Abort, V: NetworkView>(&self, rt: &R, view: &V) -> Result<(), Fail> {
        let missed = self.said.missed(rt.alloc(), None)?;
        for (made, names, text) in self.rows {
            let line = line(rt.alloc(), text)?;
            let caps = asked(names)?;
            assert!(rt; make_refused(rt, view, *made, caps, &line, &missed)? > 0);
        }
        Ok(())
    }
}

const TOLD: [&[u8]; 10] = [
    b":s 001 Me :hi",
    b":s 005 Me PREFIX=(ov)@+ CHANTYPES=# :are supported",
    b":s 376 Me :end",
    b":Me!m@h JOIN #c",
    b":s 332 Me #c :Hello all",
    b":s 324 Me #c +kl key 9",
    b":s 353 Me = #c :Me @+bob +eve",
    b":s 366 Me #c :End",
    b":bob!b@h ACCOUNT bobacc",
    b":bob!b@h AWAY :gone fishing",
];

const SAID: [&[u8]; 3] = [
    b":bob!b@h PRIVMSG #c m1",
    b":bob!b@h PRIVMSG Me :hi there",
    b":eve!e@h NOTICE #C m3",
];

const ALL: &[u8] = b"multi-prefix extended-join account-notify away-notify server-time batch";

static MAKINGS: [(Made, &[u8], &[u8]); 11] = [
    (Made::Image, b"", b":bob!b@h JOIN #c bobacc :Bob"),
    (Made::Image, ALL, b":bob!b@h JOIN #c"),
    (Made::Image, b"", b":s 353 Me = #c :Me @+bob"),
    (Made::Image, ALL, b":bob!b@h PRIVMSG #c hi"),
    (Made::One, b"", b":bob!b@h PRIVMSG #c hi"),
    (Made::Burst, b"", b"PING"),
    (Made::Burst, ALL, b"PING"),
    (Made::Playback, b"", b"PING"),
    (Made::Playback, ALL, b"PING"),
    (Made::Catchup, b"", b":bnc CAP Me ACK :batch"),
    (Made::Catchup, ALL, b":bnc CAP Me ACK :batch"),
];

/// Images, packets, bursts, playbacks and what clients are sent whose capabilities change.
#[test]
fn images_and_packets(rt: HostRuntime) -> Result<(), Fail> {
    let said = SaidLines::of(rt.alloc(), &SAID)?;
    let makings = Makings {
        said: &said,
        rows: &MAKINGS,
    };
    check_after(&rt, &TOLD, &makings)
}

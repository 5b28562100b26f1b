//! Attaches that are made again, and the names of clients whose attach was refused.

use super::hubs::{QuickHub, hub_after, is_sent};
use crate::hub_rows::messages::{MESSAGES_THAT_WERE_MISSED, MESSAGES_THAT_WERE_MISSED_WANTED};
use client_caps::{Caps, read_request};
use hub_core::AttachError;
use hub_ends::{MemoryOutlet, Outlet, SessionId};
use std::process::Abort;
use std::test::Fail;
use test_texts::again;

/// No session was attached, and the outlet that was handed back was sent nothing.
fn nothing_has_changed(rt: &impl Abort, hub: &QuickHub, error: AttachError, outlet: &MemoryOutlet) {
    assert!(rt; error == AttachError::OutOfMemory);
    assert!(rt; hub.outlet(0).is_none() && hub.outlet(1).is_none() && hub.caps(1).is_none());
    assert!(rt; outlet.sent_count() == 0 && outlet.capacity() == 8);
}

/// A client attaches, and once more if that was refused; the number of its session.
fn attach_again<R: AllocGlobal + Abort>(
    rt: &R,
    hub: &mut QuickHub,
    caps: Caps,
) -> Result<SessionId, Fail> {
    let outlet = MemoryOutlet::new(rt.alloc(), 8)?;
    match hub.attach(caps, Some(b"pc"), outlet) {
        Ok(id) => Ok(id),
        Err((error, outlet)) => {
            nothing_has_changed(rt, hub, error, &outlet);
            Ok(again(hub.attach(caps, Some(b"pc"), outlet))?)
        }
    }
}

/// A client that missed three messages gets its session, and its burst with the playback.
fn gets_its_session<R: AllocGlobal + Abort>(rt: &R, hub: &mut QuickHub) -> Result<(), Fail> {
    let caps = read_request(Caps::none(), b"batch multi-prefix").ok_or("two names")?;
    let id = attach_again(rt, hub, caps)?;
    assert!(rt; id == 1 && hub.caps(1) == Some(caps));
    is_sent(rt, hub.outlet(1), &MESSAGES_THAT_WERE_MISSED_WANTED[2..13])
}

/// After a refused attach nothing has changed; made again it answers as if it had not been refused.
#[test]
fn an_attach_that_is_made_again(rt: HostRuntime) -> Result<(), Fail> {
    let alloc = rt.alloc();
    let before = &MESSAGES_THAT_WERE_MISSED[..7];
    let mut hub = hub_after(alloc, before)?;
    gets_its_session(&rt, &mut hub)
}

/// The names of 64 clients.
const NAMES: &[u8; 64] = b"0123456789abcdefghijklmnopqrstuvwxyzABCDEFGHIJKLMNOPQRSTUVWXYZ-_";

/// A client of this name attaches.
fn another_attaches<R: AllocGlobal + Abort>(
    rt: &R,
    hub: &mut QuickHub,
    name: &[u8],
) -> Result<(), Fail> {
    let outlet = MemoryOutlet::new(rt.alloc(), 1)?;
    let id = again(hub.attach(Caps::none(), Some(name), outlet))?;
    assert!(rt; hub.outlet(id).is_some());
    Ok(())
}

/// 64 clients with other names attach, the most that a network has names and sessions for.
fn all_others_attach<R: AllocGlobal + Abort>(rt: &R, hub: &mut QuickHub) -> Result<(), Fail> {
    for name in NAMES.chunks(1) {
        another_attaches(rt, hub, name)?;
    }
    let outlet = MemoryOutlet::new(rt.alloc(), 1)?;
    match hub.attach(Caps::none(), None, outlet) {
        Err((AttachError::Full, _)) => Ok(()),
        _ => Err("there is room for one more".into()),
    }
}

/// A client attaches; if that is refused, 64 with other names do.
fn attach_or_others<R: AllocGlobal + Abort>(rt: &R, hub: &mut QuickHub) -> Result<(), Fail> {
    let outlet = MemoryOutlet::new(rt.alloc(), 8)?;
    match hub.attach(Caps::none(), Some(b"pc"), outlet) {
        Ok(id) => {
            assert!(rt; id == 0);
            Ok(())
        }
        Err((error, outlet)) => {
            nothing_has_changed(rt, hub, error, &outlet);
            all_others_attach(rt, hub)
        }
    }
}

/// The name of a client whose attach was refused takes no place among the names.
#[test]
fn the_name_of_an_attach_that_was_refused(rt: HostRuntime) -> Result<(), Fail> {
    let alloc = rt.alloc();
    let mut hub = hub_after(alloc, &[])?;
    attach_or_others(&rt, &mut hub)
}

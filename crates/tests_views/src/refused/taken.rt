//! Lines that views take.

use super::{Heap, MANY};
use net_view::{Item, NetworkView};
use quick_view::TableView;
use std::alloc::Global;
use std::process::Abort;
use std::test::Fail;
use tape_view::TapeView;
use test_views::{item, quick_of, shown, tape_of};

/// What a view shows, and what it knows besides: its stage, the settings, and the account of bob.
fn all_shown<V: NetworkView>(alloc: Global, view: &V) -> Result<Vec<u8>, Fail> {
    let mut text = shown(alloc, view)?;
    text.push(u8::from(view.welcomed()))?;
    text.push(u8::from(view.ready()))?;
    for place in 0..100 {
        let Some((name, value)) = view.support().token(place) else {
            break;
        };
        text.extend_from_slice(name)?;
        text.extend_from_slice(value.unwrap_or(b"-"))?;
    }
    text.extend_from_slice(view.account_of(b"bob").unwrap_or(b"-"))?;
    Ok(text)
}

/// Takes an item. If that is refused, the view shows what it showed, and takes it then.
fn take<R: AllocGlobal + Abort, V: NetworkView>(
    rt: &R,
    view: &mut V,
    item: &Item,
) -> Result<(), Fail> {
    let before = all_shown(rt.alloc(), &*view)?;
    match view.take(item) {
        Ok(()) => Ok(()),
        Err(_) => {
            assert!(rt; all_shown(rt.alloc(), &*view)? == before);
            Ok(view.take(item)?)
        }
    }
}

/// Takes items, one of which is refused, into a view, which shows in the end what it shows with
/// memory.
fn take_all<R: AllocGlobal + Abort, V: NetworkView>(
    rt: &R,
    view: &mut V,
    wanted: &[u8],
) -> Result<(), Fail> {
    for text in &TEXTS {
        take(rt, view, &item(rt.alloc(), text)?)?;
    }
    assert!(rt; all_shown(rt.alloc(), &*view)?.as_slice() == wanted);
    Ok(())
}

const TEXTS: [&[u8]; 17] = [
    b":s 001 Me :hi",
    b":s 005 Me PREFIX=(ov)@+ CHANTYPES=# :are supported",
    b":s 376 Me :end",
    b":Me!m@h JOIN #c",
    b":s 332 Me #c :Hello all",
    b":s 324 Me #c +kl key 9",
    b":s 353 Me = #c :Me @+bob +eve",
    b":s 366 Me #c :End",
    b":bob!b@h ACCOUNT bobacc",
    b":bob!b@h AWAY :gone fishing",
    b":bob!b@h PRIVMSG #c :hi",
    b":bob!b@h NICK rob",
    b":s MODE #c -o rob",
    b":rob!b@h NICK bob",
    b":eve!e@h PART #c",
    b"lost",
    b":s 001 Me :hi",
];

/// The nth allocation of the view that searches is refused; whether one was.
fn by_tape<R: AllocGlobal + Abort>(rt: &R, nth: u64, wanted: &[u8]) -> Result<bool, Fail> {
    let heap = Heap::none(rt.alloc());
    let mut view = TapeView::new(&heap)?;
    heap.refuse(nth);
    take_all(rt, &mut view, wanted)?;
    Ok(heap.has_refused())
}

/// The nth allocation of the view by tables is refused; whether one was.
fn by_tables<R: AllocGlobal + Abort>(rt: &R, nth: u64, wanted: &[u8]) -> Result<bool, Fail> {
    let heap = Heap::none(rt.alloc());
    let mut view = TableView::new(&heap)?;
    heap.refuse(nth);
    take_all(rt, &mut view, wanted)?;
    Ok(heap.has_refused())
}

/// The view that searches keeps each state line, or nothing of it.
#[test]
fn lines_that_the_searching_view_takes(rt: HostRuntime) -> Result<(), Fail> {
    let wanted = all_shown(rt.alloc(), &tape_of(rt.alloc(), &TEXTS)?)?;
    for nth in 1..MANY {
        if !by_tape(&rt, nth, &wanted)? {
            assert!(&rt; nth > 20);
            return Ok(());
        }
    }
    Err(Fail::new(format_args!("refused on and on")))
}

/// The view by tables enters all that a line says, or nothing.
#[test]
fn lines_that_the_view_by_tables_takes(rt: HostRuntime) -> Result<(), Fail> {
    let wanted = all_shown(rt.alloc(), &quick_of(rt.alloc(), &TEXTS)?)?;
    for nth in 1..MANY {
        if !by_tables(&rt, nth, &wanted)? {
            assert!(&rt; nth > 20);
            return Ok(());
        }
    }
    Err(Fail::new(format_args!("refused on and on")))
}

//! Nicks that take one another's places, and a channel of three hundred, whose tables have several
//! blocks.

use crate::views::check_rows;
use net_view::NetworkView;
use std::alloc::Global;
use std::process::Abort;
use std::test::Fail;
use test_views::{item, quick_of, shown};

const A_RENAME_ONTO_A_PERSON_WHO_IS_THERE: [(&[u8], &[u8]); 7] = [
    (b":s 001 Me :hi", b"Me"),
    (b":Me!m@h JOIN #c", b"Me / #c Me"),
    (b":bob!b@h JOIN #c", b"Me / #c bob Me"),
    (b":eve!e@h JOIN #c", b"Me / #c bob eve Me"),
    (b":s MODE #c +o eve", b"Me / #c bob @eve Me"),
    (b":bob!b@h NICK eve", b"Me / #c eve Me"),
    (b":eve!b@h NICK EVE", b"Me / #c EVE Me"),
];

#[test]
fn a_rename_onto_a_person_who_is_there(rt: HostRuntime) -> Result<(), Fail> {
    check_rows(&rt, &A_RENAME_ONTO_A_PERSON_WHO_IS_THERE)
}

/// What the persons of a crowd do, one after the other: all three hundred, or those whose number
/// leaves this rest, divided by three. A new nick has the number after its letter too.
#[derive(Clone, Copy)]
struct Deed<'a> {
    letter: &'a str,
    third: Option<usize>,
    what: &'a str,
    is_renamed: bool,
}

const THEY_COME: Deed<'static> = Deed {
    letter: "n",
    third: None,
    what: "JOIN #c",
    is_renamed: false,
};

const A_THIRD_GOES: Deed<'static> = Deed {
    letter: "n",
    third: Some(0),
    what: "PART #c",
    is_renamed: false,
};

const A_THIRD_IS_RENAMED: Deed<'static> = Deed {
    letter: "n",
    third: Some(1),
    what: "NICK o",
    is_renamed: true,
};

/// The number of a crowd, from 100 to 399, that acts after this one: 77 places further, round and
/// round.
fn number_behind(number: usize) -> usize {
    if number < 323 {
        number + 77
    } else {
        number - 223
    }
}

/// The line of one of a crowd.
fn line_of(alloc: Global, deed: &Deed<'_>, number: usize) -> Result<String, Fail> {
    let Deed { letter, what, .. } = deed;
    if deed.is_renamed {
        return Ok(format!(in alloc; ":{letter}{number}!u@h {what}{number}")?);
    }
    Ok(format!(in alloc; ":{letter}{number}!u@h {what}")?)
}

/// A crowd does this.
fn act<V: NetworkView>(alloc: Global, view: &mut V, deed: &Deed<'_>) -> Result<(), Fail> {
    let mut number = 100;
    for _ in 0..300 {
        number = number_behind(number);
        if deed.third.is_none_or(|third| number % 3 == third) {
            let text = line_of(alloc, deed, number)?;
            view.take(&item(alloc, text.as_str().as_bytes())?)?;
        }
    }
    Ok(())
}

/// The nick of one of a crowd.
fn nick_of(alloc: Global, letter: u8, number: usize) -> Result<Vec<u8>, Fail> {
    let number = format!(in alloc; "{number}")?;
    let mut nick = Vec::new(alloc);
    nick.push(letter)?;
    nick.extend_from_slice(number.as_str().as_bytes())?;
    Ok(nick)
}

/// Adds those of a crowd whose numbers leave this rest, divided by three, in order.
fn push_crowd(alloc: Global, text: &mut Vec<u8>, letter: u8, third: usize) -> Result<(), Fail> {
    for number in 100..400 {
        if number % 3 == third {
            text.push(b' ')?;
            text.extend_from_slice(nick_of(alloc, letter, number)?.as_slice())?;
        }
    }
    Ok(())
}

/// What the view shows once three hundred persons came, a third of them went, and another third
/// took other nicks.
fn check_crowd<R: AllocGlobal + Abort, V: NetworkView>(rt: &R, view: &mut V) -> Result<(), Fail> {
    let alloc = rt.alloc();
    act(alloc, view, &THEY_COME)?;
    act(alloc, view, &A_THIRD_GOES)?;
    act(alloc, view, &A_THIRD_IS_RENAMED)?;
    let mut want = Vec::from_slice(alloc, b"Me / #c Me")?;
    push_crowd(alloc, &mut want, b'n', 2)?;
    push_crowd(alloc, &mut want, b'o', 1)?;
    assert!(rt; shown(alloc, &*view)? == want);
    Ok(())
}

#[test]
fn a_channel_of_three_hundred(rt: HostRuntime) -> Result<(), Fail> {
    let mut view = quick_of(rt.alloc(), &[b":s 001 Me :hi", b":Me!m@h JOIN #c"])?;
    check_crowd(&rt, &mut view)
}

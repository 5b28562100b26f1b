//! Journals: the text of a batch, and what is recalled of whole, cut and damaged files.

use frames::push_frame;
use history::{Entry, Marks};
use journal::{
    Damage, PushError, RecallError, Recalled, Record, has_rings, push_batch, push_header, recall,
    snapshot,
};
use std::alloc::Global;
use std::process::Abort;
use std::test::Fail;
use test_texts::line;

/// A batch with each kind of record.
const EACH_KIND: &str = "NEXT 1234\r\n\
    @time=2020-01-02T03:04:05.678Z :bob!b@h PRIVMSG #c :hi all\r\n\
    NAME laptop\r\n\
    MARK laptop 1233\r\n\
    SEEN laptop 1240\r\n\
    GONE phone\r\n\
    ON #c\r\n\
    ON #d secret\r\n";

fn bytes(alloc: Global, text: &str) -> Result<Vec<u8>, Fail> {
    Ok(Vec::from_slice(alloc, text.as_bytes())?)
}

/// The records of that batch.
fn each_kind(alloc: Global) -> Result<Vec<Record>, Fail> {
    let said = line(alloc, b":bob!b@h PRIVMSG #c :hi all")?;
    let entry = Entry::of_message(alloc, b"2020-01-02T03:04:05.678Z", &said)?;
    let mut records = Vec::new(alloc);
    records.push(Record::Next(1234))?;
    records.push(Record::Message(entry.ok_or("a message")?))?;
    records.push(Record::Name(bytes(alloc, "laptop")?))?;
    records.push(Record::Mark(bytes(alloc, "laptop")?, 1233))?;
    records.push(Record::Seen(bytes(alloc, "laptop")?, 1240))?;
    records.push(Record::Gone(bytes(alloc, "phone")?))?;
    records.push(Record::On(bytes(alloc, "#c")?, None))?;
    records.push(Record::On(bytes(alloc, "#d")?, Some(bytes(alloc, "secret")?)))?;
    Ok(records)
}

fn is_its_text<R: AllocGlobal + Abort>(rt: &R, records: &[Record]) -> Result<(), Fail> {
    let mut out = Vec::new(rt.alloc());
    push_batch(rt.alloc(), &mut out, records)?;
    assert!(rt; out.len() == 36 + EACH_KIND.len());
    assert!(rt; out.starts_with(&[0, 0, 0, 153]) && out.ends_with(EACH_KIND.as_bytes()));
    Ok(())
}

/// A batch is its length, a digest, and a line of IRC for each record.
#[test]
fn a_batch_is_lines(rt: HostRuntime) -> Result<(), Fail> {
    is_its_text(&rt, &each_kind(rt.alloc())?)
}

fn is_refused<R: AllocGlobal + Abort>(rt: &R, name: &str) -> Result<(), Fail> {
    let mut records = Vec::new(rt.alloc());
    records.push(Record::Mark(bytes(rt.alloc(), name)?, 7))?;
    let mut out = Vec::new(rt.alloc());
    assert!(rt; push_batch(rt.alloc(), &mut out, &records) == Err(PushError::NoRecord));
    assert!(rt; out.is_empty());
    Ok(())
}

/// A name that no line can hold before its number.
#[test]
fn names_that_can_not_be_written(rt: HostRuntime) -> Result<(), Fail> {
    for name in ["", "two words", ":pc", "p\nc", "p\rc", "p\0c"] {
        is_refused(&rt, name)?;
    }
    Ok(())
}

/// Appends a frame, of a text that is not too long for one.
pub(crate) fn push(file: &mut Vec<u8>, text: &[u8]) -> Result<(), Fail> {
    if text.len() > 0xFFFF_FFFF {
        return Err("too long".into());
    }
    Ok(push_frame(file, text)?)
}

/// A journal with a frame for each text after its header, which is that for rings or not.
pub(crate) fn file_with(alloc: Global, rings: bool, texts: &[&str]) -> Result<Vec<u8>, Fail> {
    let mut file = Vec::new(alloc);
    push_header(&mut file, rings)?;
    for text in texts {
        push(&mut file, text.as_bytes())?;
    }
    Ok(file)
}

/// A journal without rings.
pub(crate) fn file_of(alloc: Global, texts: &[&str]) -> Result<Vec<u8>, Fail> {
    file_with(alloc, false, texts)
}

pub(crate) fn recalled(alloc: Global, file: &[u8]) -> Result<Recalled, Fail> {
    Ok(recall(alloc, 500, 1, file)?)
}

/// Files with a batch a text; how many of them count, and why the next one does not.
const FILES: &[(&[&str], usize, Option<Damage>)] = &[
    (&[], 0, None),
    (&[""], 1, None),
    (&[EACH_KIND, "NEXT 1235\r\n"], 2, None),
    (&[EACH_KIND, "NEXT 1234\r\n"], 1, Some(Damage::BadNumber)),
    (&["NEXT 18446744073709551615\r\n"], 1, None),
    (
        &["NEXT 18446744073709551616\r\n"],
        0,
        Some(Damage::NoRecord),
    ),
    (
        &["NEXT 18446744073709551615\r\n@time= :b PRIVMSG #c :hi all\r\n"],
        0,
        Some(Damage::BadNumber),
    ),
    (&["NEXT 007\r\n"], 0, Some(Damage::NoRecord)),
    (&["NEXT 7\n"], 0, Some(Damage::NoRecord)),
    (&["NEXT 7"], 0, Some(Damage::NoRecord)),
    (&["next 7\r\n"], 0, Some(Damage::NoRecord)),
    (&["NAME  pc\r\n"], 0, Some(Damage::NoRecord)),
    (&["SEEK 7\r\n"], 0, Some(Damage::NoRecord)),
    (&[":bob PRIVMSG #c :hi all\r\n"], 0, Some(Damage::NoRecord)),
    (
        &["MARK pc 7\r\n", "MARK pc 7\r\n", "MARK pc 6\r\n"],
        2,
        Some(Damage::BadNumber),
    ),
    (&["MARK pc 7\r\n", "GONE pc\r\n", "MARK pc 6\r\n"], 3, None),
    (
        &["MARK pc 7\r\n", "SEEN pc 9\r\n", "MARK pc 8\r\n"],
        3,
        None,
    ),
    (&["SEEN pc 9\r\n", "SEEN pc 8\r\nMARK pc 7\r\n"], 2, None),
    (
        &["MARK pc 7\r\n", "SEEN pc 5\r\n", "MARK pc 6\r\n"],
        2,
        Some(Damage::BadNumber),
    ),
    (&["SEEN pc\r\n"], 0, Some(Damage::NoRecord)),
    (
        &["@time=7;ring=bob :bob!b@h PRIVMSG Me :hi all\r\n"],
        1,
        None,
    ),
    (
        &["@time=7;ring=a\\:\\\\b :bob!b@h PRIVMSG Me :hi all\r\n"],
        1,
        None,
    ),
    // a name that is escaped otherwise, or not to its end; other tags; a time after the ring
    (
        &["@time=7;ring=a;b :bob!b@h PRIVMSG Me :hi all\r\n"],
        0,
        Some(Damage::NoRecord),
    ),
    (
        &["@time=7;ring=a\\s :bob!b@h PRIVMSG Me :hi all\r\n"],
        0,
        Some(Damage::NoRecord),
    ),
    (
        &["@time=7;ring=a\\ :bob!b@h PRIVMSG Me :hi all\r\n"],
        0,
        Some(Damage::NoRecord),
    ),
    (
        &["@time=7;ring :bob!b@h PRIVMSG Me :hi all\r\n"],
        0,
        Some(Damage::NoRecord),
    ),
    (
        &["@time=7;to=bob :bob!b@h PRIVMSG Me :hi all\r\n"],
        0,
        Some(Damage::NoRecord),
    ),
    (
        &["@ring=bob;time=7 :bob!b@h PRIVMSG Me :hi all\r\n"],
        0,
        Some(Damage::NoRecord),
    ),
];

fn ends_so<R: AllocGlobal + Abort>(
    rt: &R,
    texts: &[&str],
    batches: usize,
    damage: Option<Damage>,
) -> Result<(), Fail> {
    let file = file_of(rt.alloc(), texts)?;
    let recalled = recalled(rt.alloc(), &file)?;
    assert!(rt; recalled.batches == batches && recalled.damage == damage);
    Ok(())
}

#[test]
fn files_of_batches(rt: HostRuntime) -> Result<(), Fail> {
    for (texts, batches, damage) in FILES {
        ends_so(&rt, texts, *batches, *damage)?;
    }
    Ok(())
}

fn has_each_kind<R: AllocGlobal + Abort>(rt: &R, file: &[u8]) -> Result<(), Fail> {
    let kept = recalled(rt.alloc(), file)?.kept;
    assert!(rt; kept.history.len() == 1 && kept.history.number_of(0) == Some(1234));
    assert!(rt; kept.history.next_number() == Some(1235));
    assert!(rt; kept.marks.count() == 1 && kept.marks.at(1).is_none());
    assert!(rt; kept.marks.at(0) == Some((b"laptop".as_slice(), Some(1240))));
    assert!(rt; kept.marked.at(0) == Some((b"laptop".as_slice(), Some(1233))));
    assert!(rt; kept.channels.len() == 2);
    Ok(())
}

/// All that a batch says is there again.
#[test]
fn what_a_batch_says(rt: HostRuntime) -> Result<(), Fail> {
    has_each_kind(
        &rt,
        &file_of(rt.alloc(), &["NAME phone\r\nON #e\r\n", EACH_KIND])?,
    )
}

/// A file of two batches that is cut after this many bytes.
fn is_cut<R: AllocGlobal + Abort>(
    rt: &R,
    file: &[u8],
    header: usize,
    front: usize,
) -> Result<(), Fail> {
    let whole = file.len();
    for cut in 0..=whole {
        let (batches, used) = if cut == whole {
            (2, whole)
        } else if cut >= front {
            (1, front)
        } else if cut >= header {
            (0, header)
        } else {
            (0, 0)
        };
        let left = file.get(..cut).ok_or("a beginning")?;
        let recalled = recalled(rt.alloc(), left)?;
        assert!(rt; recalled.batches == batches && recalled.damage.is_none());
        assert!(rt; recalled.used == used);
    }
    Ok(())
}

/// Of a file that was cut anywhere, the whole batches count.
#[test]
fn files_that_are_cut(rt: HostRuntime) -> Result<(), Fail> {
    let header = file_of(rt.alloc(), &[])?;
    let front = file_of(rt.alloc(), &["NEXT 7\r\n"])?;
    let file = file_of(rt.alloc(), &["NEXT 7\r\n", "NAME pc\r\n"])?;
    is_cut(&rt, &file, header.len(), front.len())
}

fn is_a_header<R: AllocGlobal + Abort>(rt: &R, file: &[u8], text: &[u8]) -> Result<(), Fail> {
    assert!(rt; file.len() == 36_usize.saturating_add(text.len()));
    assert!(rt; file.starts_with(&[0, 0, 0]) && file.ends_with(text));
    assert!(rt; file.get(3).map(|byte| usize::from(*byte)) == Some(text.len()));
    Ok(())
}

/// A file begins with the format's name and its version, which is a later one if messages with rings
/// may be in it.
#[test]
fn the_headers_of_files(rt: HostRuntime) -> Result<(), Fail> {
    is_a_header(&rt, &file_with(rt.alloc(), false, &[])?, b"bnc 1\r\n")?;
    is_a_header(&rt, &file_with(rt.alloc(), true, &[])?, b"bnc 1.1\r\n")
}

/// Texts of a first frame that is not ours, and as what that is refused.
const OTHER_HEADERS: &[(&str, RecallError)] = &[
    ("bnc 2\r\n", RecallError::LaterVersion),
    ("bnc 10\r\n", RecallError::LaterVersion),
    ("bnc 1.2\r\n", RecallError::LaterVersion),
    ("bnc 1.1\n", RecallError::LaterVersion),
    ("bnc 1\n", RecallError::LaterVersion),
    ("BNC 1\r\n", RecallError::NotAJournal),
    ("NEXT 1\r\n", RecallError::NotAJournal),
    ("", RecallError::NotAJournal),
];

/// Other files.
const OTHER_FILES: &[&str] = &["\0\0\0\u{8}", "[network]\nhost = \"irc.example\"\n"];

fn is_refused_as<R: AllocGlobal + Abort>(
    rt: &R,
    file: &[u8],
    error: RecallError,
) -> Result<(), Fail> {
    match recall(rt.alloc(), 500, 1, file) {
        Ok(_) => Err("a refusal".into()),
        Err(e) => {
            assert!(rt; e == error);
            Ok(())
        }
    }
}

#[test]
fn files_that_begin_otherwise(rt: HostRuntime) -> Result<(), Fail> {
    for (text, error) in OTHER_HEADERS {
        let mut file = Vec::new(rt.alloc());
        push(&mut file, text.as_bytes())?;
        is_refused_as(&rt, &file, *error)?;
    }
    for text in OTHER_FILES {
        is_refused_as(&rt, text.as_bytes(), RecallError::NotAJournal)?;
    }
    Ok(())
}

/// A batch with all that is kept, as a snapshot says it.
const ALL_KEPT: &str = "NEXT 7\r\n\
    @time=2020-01-02T03:04:05.678Z :bob!b@h PRIVMSG #c :hi all\r\n\
    @time=2020-01-02T03:04:06.678Z :bob!b@h PRIVMSG #c :hi again\r\n\
    NEXT 12\r\n\
    @time=2020-01-02T03:04:07.678Z :bob!b@h NOTICE Me :hi you\r\n\
    NEXT 14\r\n\
    NAME laptop\r\n\
    SEEN laptop 12\r\n\
    MARK pc 8\r\n\
    MARK phone 7\r\n\
    SEEN phone 13\r\n\
    ON #c\r\n\
    ON #d secret\r\n";

/// The same with messages in the rings of persons, one with a name that is escaped.
const RINGS_KEPT: &str = "NEXT 7\r\n\
    @time=2020-01-02T03:04:05.678Z;ring=bob :bob!b@h PRIVMSG Me :hi you\r\n\
    @time=2020-01-02T03:04:06.678Z;ring=a\\:\\\\b :Me!m@h PRIVMSG a;\\b :hi all\r\n\
    @time=2020-01-02T03:04:07.678Z :bob!b@h PRIVMSG #c :hi all\r\n";

fn is_said_again<R: AllocGlobal + Abort>(rt: &R, rings: bool, text: &str) -> Result<(), Fail> {
    let file = file_with(rt.alloc(), rings, &[text])?;
    let kept = recalled(rt.alloc(), &file)?.kept;
    let mut latest = Marks::new(rt.alloc())?;
    for (name, number) in [(b"laptop".as_slice(), 12), (b"phone".as_slice(), 13)] {
        latest.admit(name)?;
        latest.set_mark(name, number);
    }
    let (history, channels) = (&kept.history, &kept.channels);
    let records = snapshot(rt.alloc(), history, &kept.marked, &latest, channels)?;
    let mut again = file_with(rt.alloc(), has_rings(history), &[])?;
    push_batch(rt.alloc(), &mut again, &records.ok_or("a number is left")?)?;
    assert!(rt; again.as_slice() == file.as_slice());
    Ok(())
}

#[test]
fn snapshots(rt: HostRuntime) -> Result<(), Fail> {
    for text in ["NEXT 1\r\n", "NEXT 9\r\nNAME pc\r\n", ALL_KEPT] {
        is_said_again(&rt, false, text)?;
    }
    is_said_again(&rt, true, RINGS_KEPT)
}

/// The messages of that text, each with its time and the name of its ring.
fn has_its_rings<R: AllocGlobal + Abort>(rt: &R, file: &[u8]) -> Result<(), Fail> {
    let kept = recalled(rt.alloc(), file)?.kept;
    let rings = [Some(b"bob".as_slice()), Some(b"a;\\b".as_slice()), None];
    let times: [&[u8]; 3] = [
        b"2020-01-02T03:04:05.678Z",
        b"2020-01-02T03:04:06.678Z",
        b"2020-01-02T03:04:07.678Z",
    ];
    assert!(rt; kept.history.len() == 3 && kept.history.person_count() == 2);
    for i in 0..3 {
        let entry = kept.history.entry(i).ok_or("a message")?;
        assert!(rt; entry.ring() == rings[i] && entry.time() == times[i]);
    }
    Ok(())
}

/// A ring is read again with its name, and is no part of the time.
#[test]
fn rings_of_persons(rt: HostRuntime) -> Result<(), Fail> {
    has_its_rings(&rt, &file_with(rt.alloc(), true, &[RINGS_KEPT])?)
}

fn tells_of_rings<R: AllocGlobal + Abort>(rt: &R, rings: bool) -> Result<(), Fail> {
    let file = file_with(rt.alloc(), rings, &["NEXT 7\r\n"])?;
    assert!(rt; recalled(rt.alloc(), &file)?.rings == rings);
    Ok(())
}

/// A file's header says whether messages with rings may be in it.
#[test]
fn files_for_rings(rt: HostRuntime) -> Result<(), Fail> {
    tells_of_rings(&rt, false)?;
    tells_of_rings(&rt, true)
}

/// The text that admits this many names.
fn names(alloc: Global, count: usize) -> Result<Vec<u8>, Fail> {
    let mut text = Vec::new(alloc);
    for i in 0..count {
        text.extend_from_slice(format!(in alloc; "NAME n{i}\r\n")?.as_bytes())?;
    }
    Ok(text)
}

fn one_name_too_many<R: AllocGlobal + Abort>(rt: &R) -> Result<(), Fail> {
    let mut file = file_of(rt.alloc(), &[])?;
    push(&mut file, &names(rt.alloc(), 64)?)?;
    assert!(rt; recalled(rt.alloc(), &file)?.kept.marks.count() == 64);
    push(&mut file, b"NAME other\r\n")?;
    let recalled = recalled(rt.alloc(), &file)?;
    assert!(rt; recalled.batches == 1 && recalled.damage == Some(Damage::TooManyNames));
    assert!(rt; recalled.kept.marks.count() == 64);
    Ok(())
}

#[test]
fn sixty_four_names_and_one_more(rt: HostRuntime) -> Result<(), Fail> {
    one_name_too_many(&rt)
}

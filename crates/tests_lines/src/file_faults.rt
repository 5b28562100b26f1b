//! The file of a journal on a disk that fails: what is reported, what is done next, and what the
//! file holds then.

use crate::journals::push;
use journal::recall;
use journal_files::{Beginning, Deed, Disk, JournalFile, Wanted};
use std::alloc::Global;
use std::cell::RefCell;
use std::process::Abort;
use std::test::Fail;
use test_disks::{SmallDisk, Trouble, disk};

/// Moments in milliseconds, at which a batch `b` is to be written, or all in a new file `all`: what is
/// wrong with the disk then, what comes of it, and what the file holds.
const STEPS: &[(u64, Trouble, &str, &str)] = &[
    (0, Trouble::Full, "not written anew: no storage space", ""),
    (29_999, Trouble::Nothing, "rests", ""),
    (30_000, Trouble::Nothing, "replaced", "all"),
    (30_001, Trouble::Nothing, "appended", "all b"),
    (
        30_002,
        Trouble::Full,
        "not written: no storage space",
        "all b",
    ),
    (60_001, Trouble::Nothing, "rests", "all b"),
    (60_002, Trouble::Nothing, "appended", "all b b"),
    (
        60_003,
        Trouble::Unsynced,
        "not synced: other error",
        "all b b b",
    ),
    (
        90_003,
        Trouble::Unsynced,
        "not written anew: other error",
        "all b b b",
    ),
    (120_003, Trouble::Nothing, "replaced", "all"),
    (
        120_004,
        Trouble::FullForGood,
        "not cut: no storage space",
        "all b",
    ),
    (150_003, Trouble::Nothing, "rests", "all b"),
    (150_004, Trouble::Nothing, "replaced", "all"),
];

/// What comes of a step, in words.
fn step(alloc: Global, file: &mut JournalFile, disk: &SmallDisk, now: u64) -> Result<String, Fail> {
    let (done, word) = match file.next(Wanted::Batch, now) {
        Deed::Rest => (Ok(()), "rests"),
        Deed::Append => (file.append(disk, b" b", now), "appended"),
        Deed::Replace => (file.replace(disk, b"all", Wanted::Batch, now), "replaced"),
    };
    match done {
        Ok(()) => Ok(String::from_str(alloc, word)?),
        Err(fault) => Ok(format!(in alloc; "{fault}")?),
    }
}

fn steps_are_so<R: AllocGlobal + Abort>(rt: &R, disk: &SmallDisk) -> Result<(), Fail> {
    let (mut file, bytes) = JournalFile::open(disk, rt.alloc(), "kept", "ann@net")?;
    assert!(rt; file.begin(disk, &bytes, 0)? == Beginning::Fresh);
    for (now, trouble, wanted, holds) in STEPS {
        disk.trouble.set(*trouble);
        let told = step(rt.alloc(), &mut file, disk, *now)?;
        assert!(rt; told.as_str() == *wanted, "at {now}");
        let held = disk.read(rt.alloc(), file.path())?.ok_or("a file")?;
        assert!(rt; held.as_slice() == holds.as_bytes(), "at {now}");
    }
    Ok(())
}

#[test]
fn a_disk_that_fails(rt: HostRuntime) -> Result<(), Fail> {
    steps_are_so(
        &rt,
        &disk(rt.alloc(), Vec::new(rt.alloc()), Trouble::Nothing),
    )
}

/// A file of frames with these texts and of more bytes: what is wrong with its disk, what comes of its
/// opening, how many bytes it has then, and how many that of its damaged ends.
type Opened<'a> = (&'a [&'a str], &'a [u8], Trouble, &'a str, [usize; 2]);

/// A frame has 36 bytes beside its text.
const OPENED: &[Opened<'static>] = &[
    (
        &["bnc 1\r\n", "NEXT 7\r\n"],
        b"",
        Trouble::Nothing,
        "whole",
        [87, 0],
    ),
    (
        &["bnc 1\r\n", "NEXT 7\r\n"],
        b"torn",
        Trouble::Nothing,
        "cut by 4",
        [87, 4],
    ),
    (
        &["bnc 1\r\n", "NEXT x\r\n"],
        b"",
        Trouble::Nothing,
        "cut by 44",
        [43, 44],
    ),
    (
        &["bnc 1\r\n"],
        b"\0\0\0",
        Trouble::Nothing,
        "cut by 3",
        [43, 3],
    ),
    (
        &["bnc 1\r\n"],
        b"torn",
        Trouble::Full,
        "no storage space",
        [47, 2],
    ),
    (
        &["bnc 1\r\n"],
        b"torn",
        Trouble::Unsynced,
        "other error",
        [47, 4],
    ),
    (
        &["bnc 1\r\n"],
        b"",
        Trouble::Locked,
        "another program has it",
        [43, 0],
    ),
    (&[], b"", Trouble::Nothing, "fresh", [0, 0]),
    (&[], b"\0\0\0\x07", Trouble::Nothing, "fresh", [4, 0]),
    (
        &["bnc 2\r\n"],
        b"torn",
        Trouble::Nothing,
        "a later version",
        [47, 0],
    ),
    (
        &["NEXT 7\r\n"],
        b"torn",
        Trouble::Nothing,
        "not a journal",
        [48, 0],
    ),
    (
        &[],
        b"history = 500\n",
        Trouble::Nothing,
        "not a journal",
        [14, 0],
    ),
];

/// What comes of an opening, in words.
fn opening(alloc: Global, disk: &SmallDisk) -> Result<String, Fail> {
    let (mut file, bytes) = match JournalFile::open(disk, alloc, "kept", "ann@net") {
        Ok(opened) => opened,
        Err(e) => return Ok(format!(in alloc; "{e}")?),
    };
    let used = match recall(alloc, 500, 1, &bytes) {
        Ok(recalled) => recalled.used,
        Err(e) => return Ok(format!(in alloc; "{e}")?),
    };
    match file.begin(disk, &bytes, used) {
        Ok(Beginning::Fresh) => Ok(String::from_str(alloc, "fresh")?),
        Ok(Beginning::Whole) => Ok(String::from_str(alloc, "whole")?),
        Ok(Beginning::Cut(damaged)) => Ok(format!(in alloc; "cut by {damaged}")?),
        Err(e) => Ok(format!(in alloc; "{e}")?),
    }
}

/// How many bytes a file has.
fn size(file: &RefCell<Vec<u8>>) -> Result<usize, Fail> {
    match file.try_borrow() {
        Ok(file) => Ok(file.len()),
        Err(_) => Err("the file is in use".into()),
    }
}

fn opens_so<R: AllocGlobal + Abort>(rt: &R, row: Opened<'_>) -> Result<(), Fail> {
    let (texts, more, trouble, wanted, sizes) = row;
    let mut bytes = Vec::new(rt.alloc());
    for text in texts {
        push(&mut bytes, text.as_bytes())?;
    }
    bytes.extend_from_slice(more)?;
    let disk = disk(rt.alloc(), bytes, trouble);
    assert!(rt; opening(rt.alloc(), &disk)?.as_str() == wanted);
    assert!(rt;
        [size(&disk.file)?, size(&disk.damaged)?] == sizes,
        "{wanted}"
    );
    Ok(())
}

#[test]
fn files_that_are_opened(rt: HostRuntime) -> Result<(), Fail> {
    for row in OPENED {
        opens_so(&rt, *row)?;
    }
    Ok(())
}

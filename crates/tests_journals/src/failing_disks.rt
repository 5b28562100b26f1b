//! A journal on a disk that fails: what comes of each write, and what its file holds then.

use crate::written::{CAPACITY, bytes_of, held, talk, write_now};
use journal_writer::{Journal, Opened, open};
use quick_view::QuickView;
use std::process::Abort;
use std::sync::Wait;
use std::test::Fail;
use test_disks::{SmallDisk, Trouble, disk};
use test_stage::stage::{JOINED, Stage, stage_after};

/// A moment in milliseconds, and what is said before it; what is wrong with the disk then; why not
/// all was written, if so; and what the file holds.
type Step<'a> = (u64, &'a str, Trouble, &'a str, &'a str);

/// What was not written is cut off, and written 30 seconds later with all that came since. A file
/// that could not be synced or cut is written anew.
const STEPS: &[Step<'static>] = &[
    (0, "a", Trouble::Nothing, "", "longer a, torn 0"),
    (200, "b", Trouble::Nothing, "", "longer ab, torn 0"),
    (
        400,
        "c",
        Trouble::Full,
        "not written: no storage space",
        "still ab, torn 0",
    ),
    (30_399, "d", Trouble::Nothing, "", "still ab, torn 0"),
    (30_400, "", Trouble::Nothing, "", "longer abcd, torn 0"),
    (
        30_600,
        "e",
        Trouble::Unsynced,
        "not synced: other error",
        "longer abcde, torn 0",
    ),
    (
        60_600,
        "f",
        Trouble::Full,
        "not written anew: no storage space",
        "still abcde, torn 0",
    ),
    (90_600, "", Trouble::Nothing, "", "anew abcdef, torn 0"),
    (
        90_800,
        "g",
        Trouble::FullForGood,
        "not cut: no storage space",
        "longer abcdef, torn 2",
    ),
    (120_800, "", Trouble::Nothing, "", "anew abcdefg, torn 0"),
    (
        121_000,
        "h",
        Trouble::Nothing,
        "",
        "longer abcdefgh, torn 0",
    ),
];

fn is_so<R: AllocGlobal + Wait + Abort>(
    rt: &R,
    stage: &mut Stage<QuickView>,
    journal: &mut Journal,
    disk: &SmallDisk,
    step: &Step<'_>,
) -> Result<(), Fail> {
    let (now, said, trouble, why, holds) = *step;
    talk(rt, stage, said)?;
    disk.trouble.set(trouble);
    let before = bytes_of(rt.alloc(), disk)?;
    let told = write_now(rt, &stage.network, journal, disk, now)?;
    assert!(rt; told.as_str() == why, "at {now}: {told}");
    let after = bytes_of(rt.alloc(), disk)?;
    let held = held(rt.alloc(), &before, &after)?;
    assert!(rt; held.as_str() == holds, "at {now}: {held}");
    Ok(())
}

fn all_are_so<R: AllocGlobal + Wait + Abort>(
    rt: &R,
    stage: &mut Stage<QuickView>,
    journal: &mut Journal,
    disk: &SmallDisk,
) -> Result<(), Fail> {
    for step in STEPS {
        is_so(rt, stage, journal, disk, step)?;
    }
    Ok(())
}

#[test]
fn writes_that_fail(rt: HostRuntime) -> Result<(), Fail> {
    let disk = disk(rt.alloc(), Vec::new(rt.alloc()), Trouble::Nothing);
    let Opened { journal, .. } = open(&disk, rt.alloc(), "kept", "ann@net", CAPACITY)?;
    let mut journal = journal.begin(&disk)?;
    let mut stage = stage_after(&rt, rt.alloc(), 1, &JOINED)?;
    all_are_so(&rt, &mut stage, &mut journal, &disk)
}

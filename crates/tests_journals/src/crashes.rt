//! A program that ends at once after a write failed, and what it goes on from at its next start.

use crate::written::{CAPACITY, bytes_of, held, talk, write_now};
use journal_writer::{Journal, Opened, open};
use quick_view::QuickView;
use std::process::Abort;
use std::sync::Wait;
use std::test::Fail;
use test_disks::{SmallDisk, Trouble, disk};
use test_stage::stage::{JOINED, Stage, stage_after};

/// What is wrong with the disk when `b` is to be written after `a`; why it was not, if so; how many
/// messages the next start finds then, and how many damaged bytes after them.
type Crash<'a> = (Trouble, &'a str, [usize; 2]);

/// What was written stays, also if the sync failed and the disk dropped nothing.
const CRASHES: &[Crash<'static>] = &[
    (Trouble::Nothing, "", [2, 0]),
    (Trouble::Full, "not written: no storage space", [1, 0]),
    (Trouble::FullForGood, "not cut: no storage space", [1, 2]),
    (Trouble::Unsynced, "not synced: other error", [2, 0]),
];

/// Opens the journal, whose file stays as it is, and begins it; answers how many messages and damaged
/// bytes were found.
fn opened<R: AllocGlobal + Abort>(rt: &R, disk: &SmallDisk) -> Result<(Journal, [usize; 2]), Fail> {
    let before = bytes_of(rt.alloc(), disk)?;
    let Opened { journal, found, .. } = open(disk, rt.alloc(), "kept", "ann@net", CAPACITY)?;
    assert!(rt; bytes_of(rt.alloc(), disk)?.as_slice() == before.as_slice());
    Ok((
        journal.begin(disk)?,
        [found.messages, found.damaged as usize],
    ))
}

/// Writes `a`, and then `b` to a disk that has a fault.
fn fails<R: AllocGlobal + Wait + Abort>(
    rt: &R,
    stage: &mut Stage<QuickView>,
    disk: &SmallDisk,
    crash: &Crash<'_>,
) -> Result<(), Fail> {
    let (trouble, why, _) = *crash;
    let (mut journal, _) = opened(rt, disk)?;
    talk(rt, stage, "a")?;
    write_now(rt, &stage.network, &mut journal, disk, 0)?;
    talk(rt, stage, "b")?;
    disk.trouble.set(trouble);
    let told = write_now(rt, &stage.network, &mut journal, disk, 200)?;
    assert!(rt; told.as_str() == why, "{told}");
    disk.trouble.set(Trouble::Nothing);
    Ok(())
}

/// The next start finds what was written, sets aside what is damaged, and goes on after the rest: all
/// is there after the next write.
fn goes_on<R: AllocGlobal + Wait + Abort>(
    rt: &R,
    stage: &mut Stage<QuickView>,
    disk: &SmallDisk,
    crash: &Crash<'_>,
) -> Result<(), Fail> {
    let (_, why, wanted) = *crash;
    let (mut journal, found) = opened(rt, disk)?;
    assert!(rt; found == wanted, "{why}");
    let before = bytes_of(rt.alloc(), disk)?;
    talk(rt, stage, "c")?;
    write_now(rt, &stage.network, &mut journal, disk, 400)?;
    let after = bytes_of(rt.alloc(), disk)?;
    let held = held(rt.alloc(), &before, &after)?;
    assert!(rt; held.as_str() == "longer abc, torn 0", "{why}: {held}");
    Ok(())
}

#[test]
fn starts_after_a_failed_write(rt: HostRuntime) -> Result<(), Fail> {
    for crash in CRASHES {
        let disk = disk(rt.alloc(), Vec::new(rt.alloc()), Trouble::Nothing);
        let mut stage = stage_after(&rt, rt.alloc(), 1, &JOINED)?;
        fails(&rt, &mut stage, &disk, crash)?;
        goes_on(&rt, &mut stage, &disk, crash)?;
    }
    Ok(())
}

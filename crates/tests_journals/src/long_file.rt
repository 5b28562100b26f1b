//! A file that is only too long, on a disk that is full for a moment: batches are appended to it until
//! it is tried again to write it anew.

use crate::written::{CAPACITY, bytes_of, held, talk, write_now};
use journal_writer::{Due, Journal, Opened, Wanted, open};
use quick_view::QuickView;
use std::process::Abort;
use std::sync::Wait;
use std::test::Fail;
use test_disks::{SmallDisk, Trouble, disk};
use test_stage::stage::{JOINED, Stage, stage_after};

/// Whether a batch would do for the file that could not be written anew at the moment 0, a later
/// moment in milliseconds, and what the file holds once that moment's messages are written.
type Row<'a> = (Wanted, u64, &'a str);

const ROWS: &[Row<'static>] = &[
    (Wanted::Batch, 200, "longer ab, torn 0"),
    (Wanted::Snapshot, 200, "still a, torn 0"),
    (Wanted::Snapshot, 29_999, "still a, torn 0"),
    (Wanted::Snapshot, 30_000, "longer ab, torn 0"),
];

/// Takes what is due, and writes the file anew for it on a full disk.
fn fails<R: AllocGlobal + Wait + Abort>(
    rt: &R,
    stage: &Stage<QuickView>,
    journal: &mut Journal,
    disk: &SmallDisk,
    wanted: Wanted,
) -> Result<(), Fail> {
    let taken = {
        let hub = stage.network.lock(rt);
        journal.take(rt.alloc(), &*hub, 0)
    };
    let (due, _is_behind) = taken?;
    let Due::Append(records, then) = due else {
        return Err("nothing to append".into());
    };
    disk.trouble.set(Trouble::Full);
    let due = Due::Replace(records, then, wanted);
    assert!(rt; journal.write(disk, rt.alloc(), due, 0).is_err());
    disk.trouble.set(Trouble::Nothing);
    Ok(())
}

/// Writes `a`, and then `b` in vain; what the file holds later.
fn is_so<R: AllocGlobal + Wait + Abort>(rt: &R, row: &Row<'_>) -> Result<(), Fail> {
    let (wanted, now, holds) = *row;
    let disk = disk(rt.alloc(), Vec::new(rt.alloc()), Trouble::Nothing);
    let Opened { journal, .. } = open(&disk, rt.alloc(), "kept", "ann@net", CAPACITY)?;
    let mut journal = journal.begin(&disk)?;
    let mut stage = stage_after(rt, rt.alloc(), 1, &JOINED)?;
    talk(rt, &mut stage, "a")?;
    write_now(rt, &stage.network, &mut journal, &disk, 0)?;
    talk(rt, &mut stage, "b")?;
    fails(rt, &stage, &mut journal, &disk, wanted)?;
    let before = bytes_of(rt.alloc(), &disk)?;
    write_now(rt, &stage.network, &mut journal, &disk, now)?;
    let after = bytes_of(rt.alloc(), &disk)?;
    let held = held(rt.alloc(), &before, &after)?;
    assert!(rt; held.as_str() == holds, "at {now}: {held}");
    Ok(())
}

#[test]
fn a_long_file_on_a_full_disk(rt: HostRuntime) -> Result<(), Fail> {
    for row in ROWS {
        is_so(&rt, row)?;
    }
    Ok(())
}

//! A journal that is opened again after an allocation was refused. In a plain run of the tests none
//! is refused. `contrib/refuse_memory.sh` runs each test once for each of its allocations and refuses
//! that one. If it belongs to a call that is tried here, the file must be as it was, and the call is
//! made again; then all ends as in a plain run. If it belongs to the test itself, the test ends at
//! once, and says only that memory was refused.

use crate::written::CAPACITY;
use frames::push_frame;
use journal::push_header;
use journal_writer::{FoundJournal, NoJournal, Opened, open};
use std::alloc::Global;
use std::cell::RefCell;
use std::process::Abort;
use std::test::Fail;
use test_disks::{SmallDisk, Trouble, disk};
use test_texts::again;

/// A batch with something of each kind that is made anew for a hub.
const BATCH: &[u8] = b"NEXT 7\r\n\
    @time=2020-01-02T03:04:05.678Z :bob!b@h PRIVMSG #c :hi all\r\n\
    MARK pc 7\r\nNAME phone\r\nON #c key\r\nON #d\r\n";

/// A damaged end.
const TORN: &[u8] = b"torn";

/// A file of that batch.
fn whole_file(alloc: Global) -> Result<Vec<u8>, Fail> {
    let mut file = Vec::new(alloc);
    push_header(&mut file, false)?;
    push_frame(&mut file, BATCH)?;
    Ok(file)
}

/// Whether a file has these bytes.
fn has(file: &RefCell<Vec<u8>>, bytes: &[u8]) -> bool {
    match file.try_borrow() {
        Ok(file) => file.as_slice() == bytes,
        Err(_) => false,
    }
}

/// The journal of a disk, as it is found.
fn found(alloc: Global, disk: &SmallDisk) -> Result<FoundJournal, NoJournal> {
    let Opened { journal, .. } = open(disk, alloc, "kept", "ann@net", CAPACITY)?;
    Ok(journal)
}

/// Finds it, if need be again. The file is as it was.
fn is_found<R: AllocGlobal + Abort>(
    rt: &R,
    disk: &SmallDisk,
    file: &[u8],
) -> Result<FoundJournal, Fail> {
    let first = found(rt.alloc(), disk);
    assert!(rt; has(&disk.file, file) && has(&disk.damaged, b""));
    match first {
        Ok(journal) => Ok(journal),
        Err(_) => again(found(rt.alloc(), disk)),
    }
}

/// Begins it, if need be again: nothing is cut before its damaged end is kept beside it.
fn is_begun<R: AllocGlobal + Abort>(
    rt: &R,
    disk: &SmallDisk,
    file: &[u8],
    whole: &[u8],
) -> Result<(), Fail> {
    if is_found(rt, disk, file)?.begin(disk).is_err() {
        let second = is_found(rt, disk, file)?;
        again(second.begin(disk))?;
    }
    assert!(rt; has(&disk.file, whole) && has(&disk.damaged, TORN));
    Ok(())
}

/// A damaged end is cut off once all memory is there.
#[test]
fn a_file_with_a_damaged_end(rt: HostRuntime) -> Result<(), Fail> {
    let whole = whole_file(rt.alloc())?;
    let mut file = Vec::from_slice(rt.alloc(), &whole)?;
    file.extend_from_slice(TORN)?;
    let held = Vec::from_slice(rt.alloc(), &file)?;
    let disk = disk(rt.alloc(), held, Trouble::Nothing);
    is_begun(&rt, &disk, &file, &whole)
}

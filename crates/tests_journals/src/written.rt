//! A journal that is written, and what its file holds then.

use history::History;
use hub_threads::Network;
use journal::recall;
use journal_writer::{Disk, Journal};
use quick_view::QuickView;
use std::alloc::Global;
use std::sync::Wait;
use std::test::Fail;
use test_disks::SmallDisk;
use test_stage::stage::{Stage, put_and_take};

/// How many messages are recalled of a target at most, as the hub of a stage keeps them.
pub const CAPACITY: usize = 10;

/// Somebody says a text in the channel, unless it is empty.
pub fn talk<R: AllocGlobal + Wait>(
    rt: &R,
    stage: &mut Stage<QuickView>,
    text: &str,
) -> Result<(), Fail> {
    if !text.is_empty() {
        let line = format!(in rt.alloc(); ":bob!b@h PRIVMSG #c :{text}")?;
        put_and_take(rt, rt.alloc(), stage, &[line.as_bytes()])?;
    }
    Ok(())
}

/// Writes what is due at a moment in milliseconds. Answers why that failed, or nothing.
pub fn write_now<R: AllocGlobal + Wait>(
    rt: &R,
    network: &Network<QuickView>,
    journal: &mut Journal,
    disk: &SmallDisk,
    now: u64,
) -> Result<String, Fail> {
    let taken = {
        let hub = network.lock(rt);
        journal.take(rt.alloc(), &*hub, now)
    };
    let (due, _is_behind) = taken?;
    match journal.write(disk, rt.alloc(), due, now) {
        Ok(()) => Ok(String::new(rt.alloc())),
        Err(why) => Ok(format!(in rt.alloc(); "{why}")?),
    }
}

/// The bytes of the file.
pub fn bytes_of(alloc: Global, disk: &SmallDisk) -> Result<Vec<u8>, Fail> {
    Ok(disk.read(alloc, "")?.ok_or("a file")?)
}

/// The texts of all messages, one after another.
fn texts(alloc: Global, history: &History) -> Result<Vec<u8>, Fail> {
    let mut texts = Vec::new(alloc);
    for item in history.numbered(alloc)? {
        texts.extend_from_slice(item.1.text())?;
    }
    Ok(texts)
}

/// What a file holds, in words: whether it goes on after what it held before, the texts that are
/// recalled, and how many bytes after these are torn.
pub fn held(alloc: Global, before: &[u8], bytes: &[u8]) -> Result<String, Fail> {
    let recalled = recall(alloc, CAPACITY, 1, bytes)?;
    let word = if bytes == before {
        "still"
    } else if bytes.starts_with(before) {
        "longer"
    } else {
        "anew"
    };
    let texts = texts(alloc, &recalled.kept.history)?;
    let texts = String::from_utf8_lossy(alloc, &texts)?;
    let torn = bytes.len().saturating_sub(recalled.used);
    Ok(format!(in alloc; "{word} {texts}, torn {torn}")?)
}

//! Journals: what is to be written after what was written, and a snapshot in several frames.

use crate::journals::{file_of, file_with, recalled};
use history::Entry;
use journal::{
    Changes, Kept, Record, Written, push_batch, push_batches, push_header, recall, what_changed,
};
use std::alloc::Global;
use std::process::Abort;
use std::test::Fail;

/// How many bytes a frame has before its text (ours: four of the length, and a SHA-256).
const FRAME: usize = 36;

/// What was written, what there is now, and what is to be written. The sessions of a name were given
/// what counts for it.
const CHANGES: &[(&str, &str, &str)] = &[
    ("NEXT 7\r\n", "NEXT 7\r\n", "nothing"),
    (
        "NEXT 7\r\nMARK pc 6\r\nON #c key\r\n",
        "NEXT 7\r\nMARK pc 6\r\nON #c key\r\n",
        "nothing",
    ),
    (
        "NEXT 7\r\n",
        "NEXT 6\r\n@time= :b PRIVMSG #c :hi all\r\n@time= :b NOTICE Me :hi you\r\n",
        "NEXT 7\r\n@time= :b NOTICE Me :hi you\r\n",
    ),
    (
        "NEXT 7\r\n",
        "NEXT 8\r\n@time= :b PRIVMSG #c :hi all\r\n",
        "snapshot",
    ),
    ("NEXT 9\r\n", "NEXT 7\r\n", "snapshot"),
    (
        "NEXT 7\r\nNAME pc\r\nMARK phone 5\r\nNAME tablet\r\n",
        "NEXT 7\r\nNAME desk\r\nNAME pc\r\nMARK phone 6\r\n",
        "NEXT 7\r\nGONE tablet\r\nNAME desk\r\nMARK phone 6\r\nSEEN phone 6\r\n",
    ),
    (
        "NEXT 7\r\nMARK pc 6\r\n",
        "NEXT 7\r\nMARK pc 5\r\n",
        "NEXT 7\r\nGONE pc\r\nMARK pc 5\r\nSEEN pc 5\r\n",
    ),
    (
        "NEXT 7\r\nMARK pc 4\r\nSEEN pc 5\r\n",
        "NEXT 7\r\nMARK pc 4\r\nSEEN pc 6\r\n",
        "NEXT 7\r\nMARK pc 4\r\nSEEN pc 6\r\n",
    ),
    // a client that vanished leaves a mark that is no higher than the old one
    (
        "NEXT 7\r\nMARK pc 4\r\nSEEN pc 6\r\n",
        "NEXT 7\r\nMARK pc 4\r\n",
        "NEXT 7\r\nMARK pc 4\r\nSEEN pc 4\r\n",
    ),
    (
        "NEXT 7\r\nNAME pc\r\nSEEN pc 6\r\n",
        "NEXT 7\r\nNAME pc\r\n",
        "NEXT 7\r\nGONE pc\r\nNAME pc\r\n",
    ),
    (
        "NEXT 7\r\nON #c\r\n",
        "NEXT 7\r\nON #c key\r\n",
        "NEXT 7\r\nON #c key\r\n",
    ),
    ("NEXT 7\r\nON #c\r\nON #d\r\n", "NEXT 7\r\n", "NEXT 7\r\n"),
];

/// What is kept after a batch of this text.
fn kept(alloc: Global, text: &str) -> Result<Kept, Fail> {
    Ok(recalled(alloc, &file_of(alloc, &[text])?)?.kept)
}

/// What a journal says that has this batch, after a header for rings or not.
fn written(alloc: Global, rings: bool, text: &str) -> Result<Written, Fail> {
    let recalled = recalled(alloc, &file_with(alloc, rings, &[text])?)?;
    let Kept {
        history,
        marks,
        marked,
        channels,
    } = recalled.kept;
    Ok(Written {
        rings: recalled.rings,
        next: history.next_number().ok_or("a number is left")?,
        marks: marked,
        latest: marks,
        channels,
    })
}

/// Changes in words, or the text of their batch.
fn change_text(alloc: Global, changes: &Changes) -> Result<Vec<u8>, Fail> {
    let mut out = Vec::new(alloc);
    match changes {
        Changes::Nothing => out.extend_from_slice(b"nothing")?,
        Changes::Snapshot => out.extend_from_slice(b"snapshot")?,
        Changes::Spent => out.extend_from_slice(b"spent")?,
        Changes::Batch(records) => {
            push_batch(alloc, &mut out, records)?;
            out.drain(..FRAME.min(out.len()));
        }
    }
    Ok(out)
}

fn changes_so<R: AllocGlobal + Abort>(
    rt: &R,
    rings: bool,
    before: &str,
    now: &str,
    wanted: &str,
) -> Result<(), Fail> {
    let (before, now) = (written(rt.alloc(), rings, before)?, kept(rt.alloc(), now)?);
    let (marks, latest, channels) = (&now.marked, &now.marks, &now.channels);
    let changes = what_changed(rt.alloc(), &before, &now.history, marks, latest, channels)?;
    assert!(rt; change_text(rt.alloc(), &changes)?.as_slice() == wanted.as_bytes());
    Ok(())
}

#[test]
fn what_is_to_be_written(rt: HostRuntime) -> Result<(), Fail> {
    for (before, now, wanted) in CHANGES {
        changes_so(&rt, false, before, now, wanted)?;
    }
    Ok(())
}

/// A message with a ring, after which the next has number 8.
const WITH_RING: &str = "NEXT 7\r\n@time=7;ring=bob :bob!b@h PRIVMSG Me :hi all\r\n";

/// A message with a ring is appended to a file that may have some, and else there is a new file.
#[test]
fn a_first_message_with_a_ring(rt: HostRuntime) -> Result<(), Fail> {
    changes_so(&rt, false, "NEXT 7\r\n", WITH_RING, "snapshot")?;
    changes_so(&rt, true, "NEXT 7\r\n", WITH_RING, WITH_RING)?;
    changes_so(&rt, true, WITH_RING, WITH_RING, "nothing")
}

/// How many messages the large snapshot has; the line of each has 565 bytes.
const MANY: usize = 2_000;

/// Records of this many messages, numbered from 1, and of a channel.
fn many_records(alloc: Global) -> Result<Vec<Record>, Fail> {
    let text = vec![in alloc; b'x'; 512]?;
    let mut records = Vec::new(alloc);
    records.push(Record::Next(1))?;
    for _ in 0..MANY {
        let entry = Entry::make(
            alloc,
            b"2020-01-02T03:04:05.678Z",
            b"bob!b@h",
            b"PRIVMSG",
            b"#c",
            &text,
        )?;
        records.push(Record::Message(entry))?;
    }
    let name = Vec::from_slice(alloc, b"#c")?;
    records.push(Record::On(name, None))?;
    Ok(records)
}

/// How many bytes the text of the first frame has.
fn first_size(file: &[u8]) -> usize {
    let mut size: usize = 0;
    for byte in file.iter().take(4) {
        size = size.saturating_mul(256).saturating_add(*byte as usize);
    }
    size
}

/// The frames hold all, and the first has no room for one more message.
fn is_in_two_frames<R: AllocGlobal + Abort>(rt: &R, frames: &[u8]) -> Result<(), Fail> {
    let size = first_size(frames);
    assert!(rt; 1_000_000 < size && size <= 1_048_576);
    let second = frames.get(size.saturating_add(2 * FRAME)..);
    assert!(rt; second.ok_or("a second frame")?.starts_with(b"NEXT 1"));
    let mut file = Vec::new(rt.alloc());
    push_header(&mut file, false)?;
    file.extend_from_slice(frames)?;
    let recalled = recall(rt.alloc(), 10_000, 1, &file)?;
    assert!(rt; recalled.batches == 2 && recalled.kept.history.len() == MANY);
    assert!(rt; recalled.kept.history.next_number() == Some(2_001));
    assert!(rt; recalled.kept.channels.len() == 1);
    Ok(())
}

#[test]
fn a_large_snapshot(rt: HostRuntime) -> Result<(), Fail> {
    let mut frames = Vec::new(rt.alloc());
    push_batches(rt.alloc(), &mut frames, many_records(rt.alloc())?)?;
    is_in_two_frames(&rt, &frames)
}

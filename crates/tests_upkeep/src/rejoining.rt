//! The JOIN lines of channels.

use serving::JoinLines;
use std::alloc::Global;
use std::test::Fail;

/// The lines of channels, each a name and its key; an empty key is none.
fn lines_of(alloc: Global, channels: &[(&str, &str)]) -> Result<Vec<u8>, Fail> {
    let mut lines = JoinLines::new(alloc);
    for (name, key) in channels {
        let key = if key.is_empty() {
            None
        } else {
            Some(key.as_bytes())
        };
        lines.add(name.as_bytes(), key)?;
    }
    Ok(lines.finish()?)
}

/// Three channels, and their lines.
const ROWS: [([(&str, &str); 3], &str); 5] = [
    (
        [("#a", "keya"), ("#b", "keyb"), ("#c", "")],
        "JOIN #a,#b,#c keya,keyb\r\n",
    ),
    ([("#a", ""), ("#b", ""), ("#c", "")], "JOIN #a,#b,#c\r\n"),
    (
        [("#a", ""), ("#b", "keyb"), ("#c", "keyc")],
        "JOIN #a\r\nJOIN #b,#c keyb,keyc\r\n",
    ),
    ([("#a", "two words"), ("#b,#c", ""), (":d", "")], ""),
    (
        [("#a", "k,ey"), ("#b", "keyb"), ("", "")],
        "JOIN #b keyb\r\n",
    ),
];

#[test]
fn channels_share_lines(rt: HostRuntime) -> Result<(), Fail> {
    for (channels, wanted) in ROWS {
        assert!(rt; lines_of(rt.alloc(), &channels)?.as_slice() == wanted.as_bytes());
    }
    Ok(())
}

/// A name of `length` bytes.
fn name(alloc: Global, length: usize) -> Result<Vec<u8>, Fail> {
    let mut name = Vec::new(alloc);
    name.push(b'#')?;
    for _ in 1..length {
        name.push(b'x')?;
    }
    Ok(name)
}

/// How long the lines of channels with names of these lengths are, CR LF with them.
fn lengths(alloc: Global, names: [usize; 3], key: Option<&[u8]>) -> Result<Vec<usize>, Fail> {
    let mut lines = JoinLines::new(alloc);
    for length in names {
        lines.add(&name(alloc, length)?, key)?;
    }
    let mut lengths = Vec::new(alloc);
    for line in lines.finish()?.split_inclusive(|byte| *byte == b'\n') {
        lengths.push(line.len())?;
    }
    Ok(lengths)
}

/// A line has 400 bytes before CR LF, or one channel.
#[test]
fn lines_are_short(rt: HostRuntime) -> Result<(), Fail> {
    let alloc = rt.alloc();
    let whole = lengths(alloc, [197, 197, 2], None)?;
    assert!(rt; whole.as_slice() == [402, 9].as_slice());
    let short = lengths(alloc, [197, 198, 2], None)?;
    assert!(rt; short.as_slice() == [204, 208].as_slice());
    let keys = lengths(alloc, [193, 193, 2], Some(b"abc"))?;
    assert!(rt; keys.as_slice() == [402, 13].as_slice());
    let alone = lengths(alloc, [2, 500, 2], None)?;
    assert!(rt; alone.as_slice() == [9, 507, 9].as_slice());
    Ok(())
}

//! Records as lines.

ghost use Rattle.std.specs.Prelude.{◌≡◌, ◌<◌, ◌++◌, IfOk, IfSome, IsErrOf, IsTrue, OnOk, false, length, map, option_map};
ghost use Rattle.std.specs.List.{list_all};
ghost use Rattle.irc_line.specs.Tags.{is_tag_byte};
ghost use Rattle.irc_line.specs.Writing.{is_writable};
ghost use Rattle.journal.specs.Records.{IsSound, bare, line_for, message, record_parts, tags_of};
ghost use Rattle.journal.specs.Records.{escaped, escaped_byte, is_one_tag};
ghost use Rattle.journal.specs.Reading.{message_at, message_by, message_in, note_in, one_in, record_of};
ghost use Rattle.journal.specs.Reading.{two_in, unescaped, unescaped_byte};

use crate::number::number_in;
use crate::record::Record;
use history::{Entry, is_message};
use irc_line::{Line, MakeError, OutOfMemory, place_of};
use itoa::Buffer;
use std::alloc::Global;

/// Whether the byte may be in a tag's value.
fn is_tag_byte(byte: u8) -> bool
    ensures { result ≡ is_tag_byte byte }
{
    !matches!(byte, 0 | b'\n' | b'\r' | b' ')
}

fn are_tag_bytes(text: &[u8]) -> bool
    ensures { result ≡ list_all is_tag_byte text.now }
{
    text.iter().all(|byte| is_tag_byte(*byte))
}

/// Whether a text is no more than one tag.
fn is_one_tag(text: &[u8]) -> bool
    ensures { result ≡ is_one_tag text.now }
{
    place_of(b';', text).is_none()
}

/// A line of this command and these parameters.
fn bare(alloc: Global, command: &[u8], params: &[&[u8]]) -> Result<Line, MakeError>
    ensures made { IfOk result (λ line. line ≡ bare command.now (map (λ p. p.now) params.now)) }
    ensures written { IfOk result (λ line. IsTrue (is_writable line)) }
    ensures not_a_line { IsErrOf result MakeError.NotALine
        → is_writable (bare command.now (map (λ p. p.now) params.now)) ≡ false }
{
    let line = Line::make(alloc, None, command, params)?;
    let _command = line.command();
    Ok(line)
}

/// Adds a byte of a name to a tag's value, in which `;` and `\` are escaped.
fn push_escaped(tags: &mut Vec<u8>, byte: u8) -> Result<(), OutOfMemory>
    ensures { OnOk result (tags.new.items ≡ tags.old.items ++ escaped_byte byte) }
{
    match byte {
        b';' => tags.extend_from_slice(b"\\:")?,
        b'\\' => tags.extend_from_slice(b"\\\\")?,
        _ => tags.push(byte)?,
    }
    Ok(())
}

/// Adds a name to a tag's value.
fn push_name(tags: &mut Vec<u8>, name: &[u8]) -> Result<(), OutOfMemory>
    ensures { OnOk result (tags.new.items ≡ tags.old.items ++ escaped name.now) }
{
    let mut rest = name;
    while let [byte, after @ ..] = rest {
        push_escaped(tags, *byte)?;
        rest = after;
    }
    Ok(())
}

/// The tags of a message: its time, and the name of the person in whose ring it is, if it is in one.
fn tags_of(alloc: Global, entry: &Entry) -> Result<Vec<u8>, OutOfMemory>
    ensures { IfOk result (λ tags. tags.items ≡ tags_of entry.now) }
{
    let mut tags = Vec::from_slice(alloc, b"time=")?;
    tags.extend_from_slice(entry.time())?;
    if let Some(name) = entry.ring() {
        tags.extend_from_slice(b";ring=")?;
        push_name(&mut tags, name)?;
    }
    Ok(tags)
}

/// The line of a message.
fn message_line(alloc: Global, entry: &Entry) -> Result<Line, MakeError>
    ensures made { IfOk result (λ line. line ≡ line_for (message entry.now)) }
    ensures sound { IfOk result (λ line. IsSound (message entry.now)) }
    ensures not_a_line { IsErrOf result MakeError.NotALine → IsSound (message entry.now) → ⊥ }
{
    let params = &[entry.target(), entry.text()];
    let mut line = Line::make(alloc, Some(entry.source()), entry.command(), params)?;
    let _bare = line.command();
    if !is_message(&line) || !are_tag_bytes(entry.time()) {
        return Err(MakeError::NotALine);
    }
    if !is_one_tag(entry.time()) {
        return Err(MakeError::NotALine);
    }
    let tags = tags_of(alloc, entry)?;
    line.set_tags(Some(&tags))?;
    let _tagged = line.command();
    Ok(line)
}

/// The line that a record is written as. `NotALine` comes exactly if it can't be written: a name
/// or a text that no line can hold there, an entry that is no message, a time with a `;`, or a ring
/// whose name has a space.
pub fn line_for(alloc: Global, item: &Record) -> Result<Line, MakeError>
    ensures made { IfOk result (λ line. line ≡ line_for (record_parts item.now)) }
    ensures sound { IfOk result (λ line. IsSound (record_parts item.now)) }
    ensures not_a_line { IsErrOf result MakeError.NotALine
        → IsSound (record_parts item.now) → ⊥ }
{
    let mut digits = Buffer::new();
    match item {
        Record::Next(number) => bare(alloc, b"NEXT", &[digits.format(*number).as_bytes()]),
        Record::Message(entry) => message_line(alloc, entry),
        Record::Name(name) => bare(alloc, b"NAME", &[name.as_slice()]),
        Record::Mark(name, number) => bare(
            alloc,
            b"MARK",
            &[name.as_slice(), digits.format(*number).as_bytes()],
        ),
        Record::Seen(name, number) => bare(
            alloc,
            b"SEEN",
            &[name.as_slice(), digits.format(*number).as_bytes()],
        ),
        Record::Gone(name) => bare(alloc, b"GONE", &[name.as_slice()]),
        Record::On(channel, None) => bare(alloc, b"ON", &[channel.as_slice()]),
        Record::On(channel, Some(key)) => {
            bare(alloc, b"ON", &[channel.as_slice(), key.as_slice()])
        }
    }
}

/// The byte that comes after a `\` for another one, or for itself.
fn unescaped_byte(byte: u8) -> u8
    ensures { result ≡ unescaped_byte byte }
{
    if byte == b':' { b';' } else { byte }
}

/// The name that a tag's value is.
fn unescaped(alloc: Global, text: &[u8]) -> Result<Vec<u8>, OutOfMemory>
    ensures { IfOk result (λ name. name.items ≡ unescaped text.now) }
{
    let mut name = Vec::new(alloc);
    let mut is_escape = false;
    let mut rest = text;
    while let [byte, after @ ..] = rest {
        if is_escape {
            name.push(unescaped_byte(*byte))?;
            is_escape = false;
        } else if *byte == b'\\' {
            is_escape = true;
        } else {
            name.push(*byte)?;
        }
        rest = after;
    }
    Ok(name)
}

/// The message of a line, of this time and in the ring of a person, or in that of its target.
fn message_at(
    alloc: Global,
    time: &[u8],
    ring: Option<&[u8]>,
    line: &Line,
) -> Result<Option<Record>, OutOfMemory>
    ensures { IfOk result (λ r. option_map record_parts r
        ≡ message_at time.now (option_map (λ name. name.now) ring.entry) line.now) }
{
    if !are_tag_bytes(time) {
        return Ok(None);
    }
    match Entry::of_message_in(alloc, ring, time, line)? {
        Some(entry) => Ok(Some(Record::Message(entry))),
        None => Ok(None),
    }
}

/// The message of a line with these tags after `time=`: the time, which ends at this place, and after
/// it the name of a ring; or the time alone.
fn message_by(
    alloc: Global,
    end: Option<usize>,
    tags: &[u8],
    line: &Line,
) -> Result<Option<Record>, OutOfMemory>
    requires within { IfSome end (λ place. place < length tags.now) }
    ensures { IfOk result (λ r. option_map record_parts r ≡ message_by end tags.now line.now) }
{
    let Some(end) = end else {
        return message_at(alloc, tags, None, line);
    };
    let after = &tags[end + 1..];
    if !after.starts_with(b"ring=") {
        return Ok(None);
    }
    let name = unescaped(alloc, &after[5..])?;
    message_at(alloc, &tags[..end], Some(name.as_slice()), line)
}

/// The message of a line with tags.
fn read_message(alloc: Global, tags: &[u8], line: &Line) -> Result<Option<Record>, OutOfMemory>
    ensures { IfOk result (λ r. option_map record_parts r ≡ message_in tags.now line.now) }
{
    if !tags.starts_with(b"time=") {
        return Ok(None);
    }
    let after = &tags[5..];
    message_by(alloc, place_of(b';', after), after, line)
}

/// The record of a line with one parameter.
fn read_one(alloc: Global, line: &Line, text: &[u8]) -> Result<Option<Record>, OutOfMemory>
    ensures { IfOk result (λ r. option_map record_parts r ≡ one_in line.now text.now) }
{
    if line.is(b"NEXT") {
        return match number_in(text) {
            Some(number) => Ok(Some(Record::Next(number))),
            None => Ok(None),
        };
    }
    if line.is(b"NAME") {
        return Ok(Some(Record::Name(Vec::from_slice(alloc, text)?)));
    }
    if line.is(b"GONE") {
        return Ok(Some(Record::Gone(Vec::from_slice(alloc, text)?)));
    }
    if line.is(b"ON") {
        return Ok(Some(Record::On(Vec::from_slice(alloc, text)?, None)));
    }
    Ok(None)
}

/// The record of a line with two parameters.
fn read_two(
    alloc: Global,
    line: &Line,
    text: &[u8],
    other: &[u8],
) -> Result<Option<Record>, OutOfMemory>
    ensures { IfOk result (λ r. option_map record_parts r ≡ two_in line.now text.now other.now) }
{
    if line.is(b"MARK") {
        return match number_in(other) {
            Some(number) => Ok(Some(Record::Mark(Vec::from_slice(alloc, text)?, number))),
            None => Ok(None),
        };
    }
    if line.is(b"SEEN") {
        return match number_in(other) {
            Some(number) => Ok(Some(Record::Seen(Vec::from_slice(alloc, text)?, number))),
            None => Ok(None),
        };
    }
    if line.is(b"ON") {
        let key = Vec::from_slice(alloc, other)?;
        return Ok(Some(Record::On(Vec::from_slice(alloc, text)?, Some(key))));
    }
    Ok(None)
}

/// The record of a line without tags.
fn read_note(alloc: Global, line: &Line) -> Result<Option<Record>, OutOfMemory>
    ensures { IfOk result (λ r. option_map record_parts r ≡ note_in line.now) }
{
    match (line.param(0), line.param(1)) {
        (Some(text), Some(other)) => read_two(alloc, line, text, other),
        (Some(text), None) => read_one(alloc, line, text),
        (None, _) => Ok(None),
    }
}

/// The record that a line is read as, if it is one.
pub fn read_record(alloc: Global, line: &Line) -> Result<Option<Record>, OutOfMemory>
    ensures { IfOk result (λ r. option_map record_parts r ≡ record_of line.now) }
{
    match line.tags() {
        Some(tags) => read_message(alloc, tags, line),
        None => read_note(alloc, line),
    }
}

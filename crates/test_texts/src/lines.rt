//! Lines of texts, and back.

use irc_line::Line;
use std::alloc::Global;
use std::test::Fail;

/// The line of a text, which fails if the text is none.
pub fn line(alloc: Global, text: &[u8]) -> Result<Line, Fail> {
    Ok(Line::<Global>::read(alloc, text)?.ok_or("the text is a line")?)
}

/// The texts of lines, with ` / ` between them.
pub fn texts_of(alloc: Global, lines: &[Line]) -> Result<Vec<u8>, Fail> {
    let mut out = Vec::new(alloc);
    for line in lines {
        if !out.is_empty() {
            out.extend_from_slice(b" / ")?;
        }
        line.write(&mut out)?;
        out.truncate(out.len().saturating_sub(2));
    }
    Ok(out)
}

//! What a file begins with.

ghost use Rattle.std.specs.Prelude.{◌≡◌, ◌<◌, ◌^◌, ◌++◌, IfNone, IfOk, IfSome, IsErrOf, OnErr, OnOk};
ghost use Rattle.std.specs.Prelude.{length, nat_eq, Bool};
ghost use Rattle.std.specs.List.{starts_with};
ghost use Rattle.frames.specs.Frames.{frame};
ghost use Rattle.journal.specs.Header.{IsForeign, IsOfAnotherVersion, IsPart, header_for};

use crate::replaying::RecallError;
use frames::{front, push_frame};
use history::OutOfMemory;
use std::alloc::Global;

/// The text of the first frame of a file that may have messages with rings, or of one that has none.
#[tactic(auto, unfolding(crate::specs::Header::header_for))]
fn header_for(rings: bool) -> &'static [u8]
    ensures text { result.now ≡ header_for rings }
    ensures short { length (header_for rings) < 2 ^ 32 }
{
    if rings { b"bnc 1.1\r\n" } else { b"bnc 1\r\n" }
}

/// Appends the first frame of a file, which has the format's name and version: `bnc 1`, or `bnc 1.1`
/// if messages with rings are to be in it (`rings`), which a program that knows none refuses.
/// After an error `out` is unchanged.
pub fn push_header(out: &mut Vec<u8>, rings: bool) -> Result<(), OutOfMemory>
    ensures ok { OnOk result (out.new.items ≡ out.old.items ++ frame (header_for rings)) }
    ensures err { OnErr result (out.new.items ≡ out.old.items) }
{
    push_frame(out, header_for(rings))
}

/// Whether a file may have messages with rings, if this is the text of its first frame.
fn version_of(text: &[u8]) -> Option<bool>
    ensures some { IfSome result (λ rings. text.now ≡ header_for rings) }
    ensures none { IfNone result ((rings : Bool) → text.now ≡ header_for rings → ⊥) }
{
    let (with, without) = (header_for(true), header_for(false));
    if text == without {
        Some(false)
    } else if text == with {
        Some(true)
    } else {
        None
    }
}

/// Whether these bytes are a part of the first frame of such a file.
fn is_part(alloc: Global, bytes: &[u8], rings: bool) -> Result<bool, OutOfMemory>
    ensures { IfOk result (λ r. r ≡ starts_with nat_eq (frame (header_for rings)) bytes.now) }
{
    let mut whole = Vec::new(alloc);
    push_header(&mut whole, rings)?;
    Ok(whole.starts_with(bytes))
}

/// Whether the file may have messages with rings, and the bytes after its header; `None` if they end
/// within it. `NotAJournal` comes if no file begins so, and `LaterVersion` if the first frame has the
/// format's name and another version.
#[tactic(auto, using(crate::proofs::Headers::either_part))]
pub fn behind_header(alloc: Global, bytes: &[u8]) -> Result<Option<(bool, &[u8])>, RecallError>
    ensures found { IfOk result (λ r. IfSome r (λ x.
        bytes.now ≡ frame (header_for x.0) ++ x.1.now)) }
    ensures part { IfOk result (λ r. IfNone r (IsPart bytes.now)) }
    ensures not_a_journal { IsErrOf result RecallError.NotAJournal → IsForeign bytes.now }
    ensures later { IsErrOf result RecallError.LaterVersion → IsOfAnotherVersion bytes.now }
    ensures bad { IsErrOf result RecallError.BadCapacity → ⊥ }
{
    match front(bytes) {
        Some((text, more)) => match version_of(text) {
            Some(rings) => Ok(Some((rings, more))),
            None if text.starts_with(b"bnc ") => Err(RecallError::LaterVersion),
            None => Err(RecallError::NotAJournal),
        },
        None => {
            let without = is_part(alloc, bytes, false)?;
            let with = is_part(alloc, bytes, true)?;
            if without || with {
                Ok(None)
            } else {
                Err(RecallError::NotAJournal)
            }
        }
    }
}

//! What a network said at the end of a connection, as the log has it.

use crate::shown::Words;
use std::fmt;

/// What comes between a refusal and the ERROR after it.
pub(crate) const THEN: &str = "; then: ";

/// What a network said at the end of a connection.
#[derive(Drop)]
pub struct LastWords {
    /// The text of the last line by which it refused us, our login or our nick.
    pub refusal: Option<Vec<u8>>,
    /// The text of its ERROR, if that was its last line.
    pub error: Option<Vec<u8>>,
}

/// Whether a text has another one within it.
fn has_within(text: &[u8], part: &[u8]) -> bool {
    if part.is_empty() {
        return true;
    }
    for piece in text.windows(part.len()) {
        if piece == part {
            return true;
        }
    }
    false
}

/// A text, unless it has this password within it.
fn without_secret(text: Option<Vec<u8>>, secret: &[u8]) -> Option<Vec<u8>> {
    match text {
        Some(text) if has_within(&text, secret) => None,
        text => text,
    }
}

impl LastWords {
    /// These, except what has a password of ours within it.
    pub fn without(self, secret: Option<&[u8]>) -> LastWords {
        match secret {
            Some(secret) if !secret.is_empty() => LastWords {
                refusal: without_secret(self.refusal, secret),
                error: without_secret(self.error, secret),
            },
            _ => self,
        }
    }

    /// What is logged of the refusal, and of the ERROR. Of two texts, one within the other, the longer
    /// one alone is.
    fn shown(&self) -> (Option<&[u8]>, Option<&[u8]>) {
        match (self.refusal.as_deref(), self.error.as_deref()) {
            (Some(refusal), Some(error)) if has_within(refusal, error) => (Some(refusal), None),
            (Some(refusal), Some(error)) if has_within(error, refusal) => (None, Some(error)),
            both => both,
        }
    }
}

impl fmt::Display for LastWords {
    /// As `; it said: You're banned!; then: Closing link: h (spam)`.
    fn fmt<W: fmt::Write>(&self, f: &mut fmt::Formatter<W>) -> fmt::Result {
        match self.shown() {
            (None, None) => Ok(()),
            (Some(text), None) | (None, Some(text)) => write!(f, "; it said: {}", Words(text)),
            (Some(refusal), Some(error)) => {
                write!(f, "; it said: {}{THEN}{}", Words(refusal), Words(error))
            }
        }
    }
}

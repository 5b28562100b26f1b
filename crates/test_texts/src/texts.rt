//! Texts that are compared.

use std::alloc::{AllocError, Global};

/// The first four lines of each burst, to `Me`.
pub const GREETING: &[u8] = b":bnc 001 Me :Welcome to the bouncer\r\n\
    :bnc 002 Me :Your host is bnc, running version 1\r\n\
    :bnc 003 Me :This server was created for you\r\n\
    :bnc 004 Me bnc 1 i biklmnopstv\r\n";

/// The answer to `CAP LS` before a login is done, without its CR LF.
pub const OFFER: &str =
    ":bnc CAP * LS :multi-prefix extended-join account-notify away-notify server-time batch";

/// These texts, one after another.
pub fn joined(alloc: Global, texts: &[&[u8]]) -> Result<Vec<u8>, AllocError> {
    let mut joined = Vec::new(alloc);
    for text in texts {
        joined.extend_from_slice(text)?;
    }
    Ok(joined)
}

/// Whether `text` is a beginning of `whole`.
pub fn begins(text: &[u8], whole: &[u8]) -> bool {
    whole.starts_with(text)
}

//! The lines of a password.

ghost use Rattle.std.specs.Prelude.{◌≡◌, ◌++◌, IfOk, OnOk};
ghost use Rattle.first_settings.specs.Written.{password_lines};

use crate::writing::push_line;
use sha2::{Digest, Sha256};
use std::alloc::{AllocError, Global};

/// Adds a user's lines `salt` and `password`.
#[tactic(auto, unfolding(crate::specs::Written::password_lines))]
pub(crate) fn push_password(
    alloc: Global,
    out: &mut Vec<u8>,
    salt: &[u8],
    password: &[u8],
) -> Result<(), AllocError>
    ensures { OnOk result (out.new.items ≡ out.old.items ++ password_lines salt.now password.now) }
{
    let mut hasher = Sha256::new();
    hasher.update(salt);
    hasher.update(password);
    let digest = hasher.finalize();
    let salt = hex::encode(alloc, salt)?;
    let digest = hex::encode(alloc, digest.as_slice())?;
    push_line(out, b"salt", salt.as_bytes())?;
    push_line(out, b"password", digest.as_bytes())
}

/// A user's lines `salt` and `password` in the settings file, each with LF: the salt in hexadecimal
/// digits, and the SHA-256 digest (FIPS 180-4) of its bytes and then the password's.
///
/// ```text
/// salt = "61"
/// password = "ba7816bf8f01cfea414140de5dae2223b00361a396177a9cb410ff61f20015ad"
/// ```
pub fn password_lines(alloc: Global, salt: &[u8], password: &[u8]) -> Result<Vec<u8>, AllocError>
    ensures { IfOk result (λ lines. lines.items ≡ password_lines salt.now password.now) }
{
    let mut lines = Vec::new(alloc);
    push_password(alloc, &mut lines, salt, password)?;
    Ok(lines)
}

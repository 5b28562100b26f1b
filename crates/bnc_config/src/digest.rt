//! Digests of passwords.

ghost use Rattle.std.specs.Prelude.{◌≡◌, ◌↔◌, ◌++◌, IsTrue};
ghost use Rattle.bnc_config.specs.Digest.{difference_of};
ghost use Rattle.sha2.specs.Sha256.{sha256};

use sha2::{Digest, Sha256};

/// The SHA-256 digest (FIPS 180-4) of the salt's bytes followed by the password's.
pub(crate) fn digest_of(salt: &[u8], password: &[u8]) -> [u8; 32]
    ensures { result ≡ sha256 (salt.now ++ password.now) }
{
    let mut hasher = Sha256::new();
    hasher.update(salt);
    hasher.update(password);
    hasher.finalize()
}

/// The bits at which the two digests differ. All bytes are looked at, whatever differs first.
fn difference(a: &[u8; 32], b: &[u8; 32]) -> u8
    ensures { result ≡ difference_of a.now b.now }
{
    a.iter()
        .zip(b.iter())
        .fold(0, |difference, (x, y)| difference | (*x ^ *y))
}

/// Whether the two digests are equal, in a time that does not reveal where they differ.
#[tactic(auto, using(crate::proofs::DigestLemmas::none_more, crate::proofs::DigestLemmas::same_from_difference))]
pub(crate) fn are_equal(a: &[u8; 32], b: &[u8; 32]) -> bool
    ensures { IsTrue result ↔ (a.now ≡ b.now) }
{
    difference(a, b) == 0
}

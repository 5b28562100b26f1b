//! What a client claims in its login, in words.

use client_caps::{Cap, Caps};
use sessions::Claim;
use std::alloc::AllocError;

/// Adds the names of capabilities, each after a space.
pub fn push_caps(out: &mut Vec<u8>, caps: Caps) -> Result<(), AllocError> {
    for cap in Cap::ALL {
        if caps.holds(cap) {
            out.push(b' ')?;
            out.extend_from_slice(cap.name())?;
        }
    }
    Ok(())
}

/// Adds a claim as `ann@pc/net bc batch`: user, client, network, password and capabilities. A claim
/// without a client has no `@` either.
pub fn push_claim(out: &mut Vec<u8>, claim: &Claim) -> Result<(), AllocError> {
    out.extend_from_slice(claim.user.as_slice())?;
    if let Some(client) = &claim.client {
        out.push(b'@')?;
        out.extend_from_slice(client.as_slice())?;
    }
    out.push(b'/')?;
    out.extend_from_slice(claim.network.as_slice())?;
    out.push(b' ')?;
    out.extend_from_slice(claim.password.as_slice())?;
    push_caps(out, claim.caps)
}

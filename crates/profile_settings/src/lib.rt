//! Which messages are kept, and how they are played back, as the settings say it.
#![tactic(auto)]

ghost use Rattle.std.specs.Prelude.{◌≡◌, IfOk, map};
ghost use Rattle.history.specs.Keeping.{kept_by};
ghost use Rattle.profile_settings.specs.Profiles.{kept_of, played_of};

use bnc_config::{MessagesConfig, PlaybackConfig, Text};
use history::Keeping;
use std::alloc::{AllocError, Global};
use welcome::{Offset, Playing};

/// Copies of names.
fn copies_of(alloc: Global, names: &[Text]) -> Result<Vec<Vec<u8>>, AllocError>
    ensures { IfOk result (λ copies. map (λ copy. copy.items) copies.items ≡ names.now) }
{
    let mut copies = Vec::with_capacity(alloc, names.len())?;
    for name in names {
        copies.push(Vec::from_slice(alloc, name.as_bytes())?)?;
    }
    Ok(copies)
}

/// Which messages are kept, and in whose rings.
pub fn keeping_of(alloc: Global, messages: &MessagesConfig) -> Result<Keeping, AllocError>
    ensures { IfOk result (λ keeping. kept_by keeping ≡ kept_of messages.now) }
{
    Ok(Keeping {
        ctcp: messages.ctcp(),
        server_notices: messages.server_notices(),
        to_self: messages.to_self(),
        by_person: messages.by_person(),
        never: copies_of(alloc, messages.never())?,
    })
}

/// How they are played back.
pub fn playing_of(playback: &PlaybackConfig) -> Playing
    ensures { result ≡ played_of playback.now }
{
    let times = match playback.times() {
        Some(offset) => Offset::apart(offset.is_behind, offset.minutes),
        None => None,
    };
    Playing {
        private_batches: playback.private_batches(),
        times,
        visits: playback.visits(),
    }
}

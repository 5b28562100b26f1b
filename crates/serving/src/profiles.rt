//! Which messages networks keep, and how they play them back, by the settings.

use bnc_config::Config;
use hub_core::Profile;
use profile_settings::{keeping_of, playing_of};
use std::alloc::{AllocError, Global};

/// What the settings say of both.
pub(crate) fn profile_of(alloc: Global, config: &Config) -> Result<Profile, AllocError> {
    Ok(Profile {
        keeping: keeping_of(alloc, config.messages())?,
        playing: playing_of(config.playback()),
    })
}

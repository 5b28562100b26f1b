//! What is kept and how it is played back, read from the whole settings or by itself.

ghost use Rattle.std.specs.Prelude.{◌≡◌, MatchResult};
ghost use Rattle.toml.specs.View.{table_view};
ghost use Rattle.bnc_config.specs.Document.{IsProfileFaultOf, MeansProfile, Reads, profile_fault};
ghost use Rattle.bnc_config.specs.Document.{profile_in};

use crate::{ConfigFault, MessagesConfig, PlaybackConfig};
use std::alloc::Global;
use std::marker::Model;
use toml::Table;

/// What is kept and how it is played back.
#[derive(Debug, Drop)]
pub struct ProfileConfig {
    messages: MessagesConfig,
    playback: PlaybackConfig,
}

impl Model for ProfileConfig {
    ghost use Rattle.bnc_config.specs.Settings.{ProfileSettings};

    ghost Value = { ProfileSettings };

    ghost view = { λ profile. record {
      messages = profile.messages;
      playback = profile.playback;
    } };
}

impl ProfileConfig {
    /// The profile that the top of a file means.
    pub(crate) fn of_table(alloc: Global, table: &Table) -> Result<ProfileConfig, ConfigFault>
        ensures { Reads (λ profile. profile) result (profile_fault (table_view table.now))
            (profile_in (table_view table.now)) }
    {
        let messages = MessagesConfig::read(alloc, table)?;
        let playback = PlaybackConfig::read(table)?;
        Ok(ProfileConfig { messages, playback })
    }

    /// Reads the tables `[messages]` and `[playback]` of a settings file, which may both be left
    /// out: what they mean, else their first fault. Nothing else is looked at, except that the file
    /// is TOML.
    #[tactic(auto, using(crate::proofs::FaultLemmas::profile_fault_of_tree))]
    pub fn read(alloc: Global, text: &[u8]) -> Result<ProfileConfig, ConfigFault>
        ensures { MatchResult result (MeansProfile text.now) (IsProfileFaultOf text.now) }
    {
        let table = match toml::table_from_slice(alloc, text) {
            Ok(table) => table,
            Err(error) if error.is_memory() => return Err(ConfigFault::OutOfMemory),
            Err(_) => return Err(ConfigFault::NotToml),
        };
        ProfileConfig::of_table(alloc, &table)
    }

    /// What is kept.
    pub fn messages(&self) -> &MessagesConfig
        ensures { result.now ≡ self.now.messages }
    {
        &self.messages
    }

    /// How it is played back.
    pub fn playback(&self) -> &PlaybackConfig
        ensures { result.now ≡ self.now.playback }
    {
        &self.playback
    }
}

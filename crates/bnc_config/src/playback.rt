//! How what was kept is played back: the table `[playback]`.

ghost use Rattle.std.specs.Prelude.{◌≡◌, ◌≤◌, IfOk, IfSome};
ghost use Rattle.toml.specs.View.{table_view};
ghost use Rattle.bnc_config.specs.Document.{Reads, key_fault, keys_fault, offset_at, playback_in};
ghost use Rattle.bnc_config.specs.Document.{playback_keys, table_at, table_fault};
ghost use Rattle.bnc_config.specs.declared.key.Key.TheVariants.{Playback, PlaybackTimes};

use crate::table::{flag_or, number_or, table_or_none, text_or_none};
use crate::utc_offset::offset_of;
use crate::{ConfigFault, Key, UtcOffset};
use std::marker::Model;
use toml::Table;

/// How a client that attaches is played back what was kept.
#[derive(Debug, Drop)]
pub struct PlaybackConfig {
    private_batches: bool,
    times: Option<UtcOffset>,
    visits: bool,
    wait: u32,
}

impl Model for PlaybackConfig {
    ghost use Rattle.bnc_config.specs.Settings.{IsPlayback, PlaybackSettings};

    ghost Value = { PlaybackSettings };

    ghost view = { λ playback. record {
      private_batches = playback.private_batches;
      times = playback.times;
      visits = playback.visits;
      wait = playback.wait;
    } };

    ghost invariant = { λ playback. IsPlayback (record {
      private_batches = playback.private_batches;
      times = playback.times;
      visits = playback.visits;
      wait = playback.wait;
    }) };
}

/// The offset of a table, which may have none.
fn offset_at(table: &Table) -> Result<Option<UtcOffset>, ConfigFault>
    ensures within { IfOk result (λ found. IfSome found (λ offset. offset.minutes ≤ 840)) }
    ensures read { Reads (λ found. found) result (key_fault (table_view table.now) PlaybackTimes)
        (offset_at (table_view table.now)) }
{
    match text_or_none(table, Key::PlaybackTimes)? {
        Some(text) => Ok(offset_of(text)),
        None => Ok(None),
    }
}

impl PlaybackConfig {
    /// What the table `[playback]` says.
    fn of_table(table: &Table) -> Result<PlaybackConfig, ConfigFault>
        ensures { Reads (λ playback. playback) result
            (keys_fault playback_keys (table_view table.now))
            (playback_in (table_view table.now)) }
    {
        let private_batches = flag_or(table, Key::PlaybackPrivateBatches, false)?;
        let times = offset_at(table)?;
        let visits = flag_or(table, Key::PlaybackVisits, false)?;
        let wait = number_or(table, Key::PlaybackWait, 0, 0, 60)?;
        Ok(PlaybackConfig {
            private_batches,
            times,
            visits,
            wait,
        })
    }

    /// What the table `[playback]` of a file's top says, which may be left out.
    pub(crate) fn read(top: &Table) -> Result<PlaybackConfig, ConfigFault>
        ensures { Reads (λ playback. playback) result
            (table_fault Playback playback_keys (table_view top.now))
            (playback_in (table_at Playback (table_view top.now))) }
    {
        match table_or_none(top, Key::Playback)? {
            Some(table) => PlaybackConfig::of_table(table),
            None => Ok(PlaybackConfig {
                private_batches: false,
                times: None,
                visits: false,
                wait: 0,
            }),
        }
    }
}

impl PlaybackConfig {
    /// Whether the messages with each person come in a batch of their own; not if the file does
    /// not say.
    pub fn private_batches(&self) -> bool
        ensures { result ≡ self.now.private_batches }
    {
        self.private_batches
    }

    /// From which offset times are written into the texts, for clients that get none beside them.
    /// None are if the file does not say.
    pub fn times(&self) -> Option<UtcOffset>
        ensures value { result ≡ self.now.times }
        ensures within { IfSome result (λ offset. offset.minutes ≤ 840) }
    {
        self.times
    }

    /// Whether messages of a channel that we are not on come between a JOIN and a PART of ours;
    /// not if the file does not say.
    pub fn visits(&self) -> bool
        ensures { result ≡ self.now.visits }
    {
        self.visits
    }

    /// How many seconds a login waits until the channels have been joined: 0 to 60, and 0 if the
    /// file does not say.
    pub fn wait(&self) -> u64
        ensures value { result ≡ self.now.wait }
        ensures within { result ≤ 60 }
    {
        u64::from(self.wait)
    }
}

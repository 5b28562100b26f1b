//! How messages are played back, by a profile.

ghost use Rattle.std.specs.Prelude.{◌≡◌};
ghost use Rattle.welcome.specs.Playing.{playing_whole};
ghost use Rattle.welcome.specs.Offset.{offset_apart, utc};

/// How far a zone's time is from UTC: at most 14 hours, to the minute.
#[derive(Clone, Copy, Debug, PartialEq, Eq)]
pub struct Offset {
    /// Whether the zone's time is before that of UTC.
    pub(crate) is_before: bool,
    /// By how many minutes it is apart.
    pub(crate) minutes: u16,
}

impl Offset {
    /// That of UTC.
    pub fn utc() -> Offset
        ensures { result ≡ utc }
    {
        Offset {
            is_before: false,
            minutes: 0,
        }
    }

    /// The offset of this many minutes, before UTC or after it; `None` of more than 840.
    pub fn apart(is_before: bool, minutes: u32) -> Option<Offset>
        ensures { result ≡ offset_apart is_before minutes }
    {
        if minutes > 840 {
            return None;
        }
        Some(Offset {
            is_before,
            minutes: minutes as u16,
        })
    }
}

/// How messages are played back to a client that missed them.
#[derive(Clone, Copy, Debug, PartialEq, Eq)]
pub struct Playing {
    /// With the capability batch, messages for no channel that we are on come in a batch for each
    /// person or target, and not all together.
    pub private_batches: bool,
    /// Without the capability server-time, each message's text begins with its time in this zone.
    pub times: Option<Offset>,
    /// Messages for a channel that we are not on come between a JOIN and a PART of ours.
    pub visits: bool,
}

impl Playing {
    /// Messages as they came, those for no channel that we are on all together.
    pub fn whole() -> Playing
        ensures { result ≡ playing_whole }
    {
        Playing {
            private_batches: false,
            times: None,
            visits: false,
        }
    }
}

//! The capabilities that a client can hold.

ghost use Rattle.std.specs.Prelude.{◌≡◌, option_map, slice_get};
ghost use Rattle.client_caps.specs.Caps.{cap_name, cap_named, cap_names, holds, no_caps, with_cap};

/// A capability (IRCv3 capability negotiation).
#[derive(Clone, Copy, Debug, PartialEq, Eq)]
pub enum Cap {
    /// `multi-prefix`.
    MultiPrefix,
    /// `extended-join`.
    ExtendedJoin,
    /// `account-notify`.
    AccountNotify,
    /// `away-notify`.
    AwayNotify,
    /// `server-time`.
    ServerTime,
    /// `batch`.
    Batch,
}

impl Cap {
    /// The six, in the order in which they are offered.
    pub const ALL: [Cap; 6] = [
        Cap::MultiPrefix,
        Cap::ExtendedJoin,
        Cap::AccountNotify,
        Cap::AwayNotify,
        Cap::ServerTime,
        Cap::Batch,
    ];

    /// The name, as in `CAP LS`.
    pub fn name(self) -> &'static [u8]
        ensures { result.now ≡ cap_name self }
    {
        match self {
            Cap::MultiPrefix => b"multi-prefix",
            Cap::ExtendedJoin => b"extended-join",
            Cap::AccountNotify => b"account-notify",
            Cap::AwayNotify => b"away-notify",
            Cap::ServerTime => b"server-time",
            Cap::Batch => b"batch",
        }
    }

    /// The capability of this name, in lower case; `None` if it is none of the six.
    pub(crate) fn named(name: &[u8]) -> Option<Cap>
        ensures { result ≡ cap_named name.now }
    {
        for cap in Cap::ALL {
            if name == cap.name() {
                return Some(cap);
            }
        }
        None
    }
}

/// Which capabilities a client holds.
#[derive(Clone, Copy, Debug, PartialEq, Eq)]
pub struct Caps {
    /// All symbols of a member in a name list, and not the highest alone (IRCv3 multi-prefix).
    pub multi_prefix: bool,
    /// JOIN with the account and the real name (IRCv3 extended-join).
    pub extended_join: bool,
    /// ACCOUNT, when a person logs in or out (IRCv3 account-notify).
    pub account_notify: bool,
    /// AWAY, when a person goes away or comes back (IRCv3 away-notify).
    pub away_notify: bool,
    /// The tag `time` on each line of the network that is passed on, and on each message that is
    /// played back (IRCv3 server-time).
    pub server_time: bool,
    /// Playback between BATCH lines (IRCv3 batch, of the type `chathistory`).
    pub batch: bool,
}

impl Caps {
    /// No capability.
    pub const fn none() -> Caps
        ensures { result ≡ no_caps }
    {
        Caps {
            multi_prefix: false,
            extended_join: false,
            account_notify: false,
            away_notify: false,
            server_time: false,
            batch: false,
        }
    }

    /// The name of the capability at this place of [`Cap::ALL`]; `None` from 6 on.
    pub fn name(place: usize) -> Option<&'static [u8]>
        ensures { option_map (λ name. name.now) result ≡ slice_get cap_names place }
    {
        Some(Cap::ALL.get(place)?.name())
    }

    /// Whether the capability is held.
    pub fn holds(self, cap: Cap) -> bool
        ensures { result ≡ holds self cap }
    {
        match cap {
            Cap::MultiPrefix => self.multi_prefix,
            Cap::ExtendedJoin => self.extended_join,
            Cap::AccountNotify => self.account_notify,
            Cap::AwayNotify => self.away_notify,
            Cap::ServerTime => self.server_time,
            Cap::Batch => self.batch,
        }
    }

    /// The same with the capability held, or not held.
    pub fn with(mut self, cap: Cap, held: bool) -> Caps
        ensures { result ≡ with_cap self cap held }
    {
        match cap {
            Cap::MultiPrefix => self.multi_prefix = held,
            Cap::ExtendedJoin => self.extended_join = held,
            Cap::AccountNotify => self.account_notify = held,
            Cap::AwayNotify => self.away_notify = held,
            Cap::ServerTime => self.server_time = held,
            Cap::Batch => self.batch = held,
        }
        self
    }
}

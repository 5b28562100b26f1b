//! The keys of a settings file.

ghost use Rattle.std.specs.Prelude.{◌≡◌, Some};
ghost use Rattle.bnc_config.specs.Key.{path_of, word_of};

use std::fmt;

/// A key of the settings file, by the table that it is in: the top of the file, `[messages]`,
/// `[playback]`, a `[[user]]` table or a `[[user.network]]` table.
#[derive(Clone, Copy, Debug, PartialEq, Eq)]
pub enum Key {
    /// `listen`: the address for clients, `HOST:PORT` or `[IPV6]:PORT`, or a list of 1 to 8.
    Listen,
    /// `history`: how many messages a network keeps, 1 to 10,000.
    History,
    /// `retry`: the seconds between two dials after a loss, 1 to 3600.
    Retry,
    /// `kept`: the folder in which messages are kept.
    Kept,
    /// `memory`: how many MiB a network may take, 8 to 65,536.
    Memory,
    /// `metrics`: the file in which figures are written.
    Metrics,
    /// `listen_proxy`: the address for proxies, as `listen`.
    ListenProxy,
    /// `proxies`: the addresses that may connect to `listen_proxy`.
    Proxies,
    /// `messages`: the table of what is kept.
    Messages,
    /// `messages.ctcp`: whether CTCP is kept.
    MessagesCtcp,
    /// `messages.server_notices`: whether notices of servers are kept.
    MessagesServerNotices,
    /// `messages.never`: the names whose messages are not kept.
    MessagesNever,
    /// `messages.to_self`: whether what a client says to our own nick is kept.
    MessagesToSelf,
    /// `messages.by_person`: whether each person has a history of their own.
    MessagesByPerson,
    /// `playback`: the table of how it is played back.
    Playback,
    /// `playback.private_batches`: whether each person's messages come in a batch.
    PlaybackPrivateBatches,
    /// `playback.times`: from which offset from UTC times are written into texts.
    PlaybackTimes,
    /// `playback.visits`: whether channels that we are not on are entered and left.
    PlaybackVisits,
    /// `playback.wait`: the seconds that a login waits for the channels, 0 to 60.
    PlaybackWait,
    /// `user`: the list of users.
    User,
    /// `user.name`: what a client logs in as.
    UserName,
    /// `user.salt`: hexadecimal digits of the bytes that are hashed before the password.
    UserSalt,
    /// `user.password`: the 64 hexadecimal digits of the SHA-256 digest.
    UserPassword,
    /// `user.network`: the list of the user's networks.
    UserNetwork,
    /// `user.network.name`: what a client asks for when it logs in.
    NetworkName,
    /// `user.network.address`: the IRC server, `HOST:PORT` or `[IPV6]:PORT`.
    NetworkAddress,
    /// `user.network.nick`: the nick that is asked for first.
    NetworkNick,
    /// `user.network.user`: the user name of the USER line.
    NetworkUser,
    /// `user.network.realname`: the real name of the USER line.
    NetworkRealname,
    /// `user.network.password`: the password of the PASS line.
    NetworkPassword,
    /// `user.network.join`: the channels to join.
    NetworkJoin,
    /// `user.network.sasl`: how an account is logged in to, `PLAIN` or `EXTERNAL`.
    NetworkSasl,
    /// `user.network.sasl_user`: the account's name.
    NetworkSaslUser,
    /// `user.network.sasl_password`: the account's password.
    NetworkSaslPassword,
    /// `user.network.on_connect`: the lines that are sent before the channels are joined.
    NetworkOnConnect,
    /// `user.network.join_after`: the seconds from these lines to the channels, 0 to 60.
    NetworkJoinAfter,
    /// `user.network.keys`: the channels' keys, a table.
    NetworkKeys,
    /// `user.network.nicks`: further nicks, and that the wanted one is asked for again.
    NetworkNicks,
    /// `user.network.away`: whether an AWAY is sent again after a loss.
    NetworkAway,
}

impl Key {
    /// All keys, in the order of the tables above.
    pub(crate) const ALL: [Key; 39] = [
        Key::Listen,
        Key::History,
        Key::Retry,
        Key::Kept,
        Key::Memory,
        Key::Metrics,
        Key::ListenProxy,
        Key::Proxies,
        Key::Messages,
        Key::MessagesCtcp,
        Key::MessagesServerNotices,
        Key::MessagesNever,
        Key::MessagesToSelf,
        Key::MessagesByPerson,
        Key::Playback,
        Key::PlaybackPrivateBatches,
        Key::PlaybackTimes,
        Key::PlaybackVisits,
        Key::PlaybackWait,
        Key::User,
        Key::UserName,
        Key::UserSalt,
        Key::UserPassword,
        Key::UserNetwork,
        Key::NetworkName,
        Key::NetworkAddress,
        Key::NetworkNick,
        Key::NetworkUser,
        Key::NetworkRealname,
        Key::NetworkPassword,
        Key::NetworkJoin,
        Key::NetworkSasl,
        Key::NetworkSaslUser,
        Key::NetworkSaslPassword,
        Key::NetworkOnConnect,
        Key::NetworkJoinAfter,
        Key::NetworkKeys,
        Key::NetworkNicks,
        Key::NetworkAway,
    ];

    /// The key with the tables that it is in, as faults name it: `user.network.nick`.
    pub fn path(self) -> &'static str
        ensures { result.now ≡ path_of self }
    {
        match self {
            Key::Listen => "listen",
            Key::History => "history",
            Key::Retry => "retry",
            Key::Kept => "kept",
            Key::Memory => "memory",
            Key::Metrics => "metrics",
            Key::ListenProxy => "listen_proxy",
            Key::Proxies => "proxies",
            Key::Messages => "messages",
            Key::MessagesCtcp => "messages.ctcp",
            Key::MessagesServerNotices => "messages.server_notices",
            Key::MessagesNever => "messages.never",
            Key::MessagesToSelf => "messages.to_self",
            Key::MessagesByPerson => "messages.by_person",
            Key::Playback => "playback",
            Key::PlaybackPrivateBatches => "playback.private_batches",
            Key::PlaybackTimes => "playback.times",
            Key::PlaybackVisits => "playback.visits",
            Key::PlaybackWait => "playback.wait",
            Key::User => "user",
            Key::UserName => "user.name",
            Key::UserSalt => "user.salt",
            Key::UserPassword => "user.password",
            Key::UserNetwork => "user.network",
            Key::NetworkName => "user.network.name",
            Key::NetworkAddress => "user.network.address",
            Key::NetworkNick => "user.network.nick",
            Key::NetworkUser => "user.network.user",
            Key::NetworkRealname => "user.network.realname",
            Key::NetworkPassword => "user.network.password",
            Key::NetworkJoin => "user.network.join",
            Key::NetworkSasl => "user.network.sasl",
            Key::NetworkSaslUser => "user.network.sasl_user",
            Key::NetworkSaslPassword => "user.network.sasl_password",
            Key::NetworkOnConnect => "user.network.on_connect",
            Key::NetworkJoinAfter => "user.network.join_after",
            Key::NetworkKeys => "user.network.keys",
            Key::NetworkNicks => "user.network.nicks",
            Key::NetworkAway => "user.network.away",
        }
    }

    /// The key's own word, as it is in its table.
    pub(crate) fn word(self) -> &'static str
        ensures { result.now ≡ word_of self }
    {
        match self {
            Key::Listen => "listen",
            Key::History => "history",
            Key::Retry => "retry",
            Key::Kept => "kept",
            Key::Memory => "memory",
            Key::Metrics => "metrics",
            Key::ListenProxy => "listen_proxy",
            Key::Proxies => "proxies",
            Key::Messages => "messages",
            Key::MessagesCtcp => "ctcp",
            Key::MessagesServerNotices => "server_notices",
            Key::MessagesNever => "never",
            Key::MessagesToSelf => "to_self",
            Key::MessagesByPerson => "by_person",
            Key::Playback => "playback",
            Key::PlaybackPrivateBatches => "private_batches",
            Key::PlaybackTimes => "times",
            Key::PlaybackVisits => "visits",
            Key::PlaybackWait => "wait",
            Key::User | Key::NetworkUser => "user",
            Key::UserName | Key::NetworkName => "name",
            Key::UserSalt => "salt",
            Key::UserPassword | Key::NetworkPassword => "password",
            Key::UserNetwork => "network",
            Key::NetworkAddress => "address",
            Key::NetworkNick => "nick",
            Key::NetworkRealname => "realname",
            Key::NetworkJoin => "join",
            Key::NetworkSasl => "sasl",
            Key::NetworkSaslUser => "sasl_user",
            Key::NetworkSaslPassword => "sasl_password",
            Key::NetworkOnConnect => "on_connect",
            Key::NetworkJoinAfter => "join_after",
            Key::NetworkKeys => "keys",
            Key::NetworkNicks => "nicks",
            Key::NetworkAway => "away",
        }
    }
}

impl fmt::Display for Key {
    ghost output = { λ key. Some (path_of key) };

    fn fmt<W: fmt::Write>(&self, f: &mut fmt::Formatter<W>) -> fmt::Result {
        f.write_str(self.path())
    }
}

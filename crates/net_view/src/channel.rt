//! What the readers of a network view lend of a channel and of a member.

use irc_support::Ranks;

/// A channel that we are on.
#[derive(Clone, Copy)]
pub struct Channel<'a> {
    /// The name, as spelled in our own last JOIN.
    pub name: &'a [u8],
    /// The topic, not empty; `None` if there is none.
    pub topic: Option<&'a [u8]>,
}

/// A member of a channel that we are on.
#[derive(Clone, Copy)]
pub struct Member<'a> {
    /// The nick, as spelled last.
    pub nick: &'a [u8],
    /// The ranks held on this channel, as that of an operator.
    pub ranks: Ranks,
    /// The account, if one is known; never empty, and not `*` (IRCv3 extended-join,
    /// account-notify).
    pub account: Option<&'a [u8]>,
    /// The away text, if the person is known to be away; never empty (IRCv3 away-notify).
    pub away: Option<&'a [u8]>,
}

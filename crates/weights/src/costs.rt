//! The bytes that each thing takes beside its texts: about what the program needs for it.

/// A message that is kept.
pub const ENTRY: u64 = 192;

/// The name of a client, with its mark, or that of a channel that is to be joined again.
pub const NAME: u64 = 128;

/// A channel.
pub const CHANNEL: u64 = 512;

/// A person in sight.
pub const PERSON: u64 = 320;

/// A member of a channel.
pub const MEMBER: u64 = 128;

/// A mode of a channel that is on.
pub const MODE: u64 = 64;

/// A setting of the network (`005`).
pub const SETTING: u64 = 128;

/// The lines that tell a client where it stands, as made for a set of capabilities.
pub const STATE_PART: u64 = 128;

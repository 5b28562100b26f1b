//! One record.

use history::Entry;

/// What a batch says, one a line.
#[derive(Drop)]
pub enum Record {
    /// The next message has this number, as `NEXT 1234`.
    Next(u64),
    /// A message was kept, as `@time=2020-01-02T03:04:05.678Z :bob!b@h PRIVMSG #c :hi all`, or in a
    /// person's ring, as `@time=2020-01-02T03:04:05.678Z;ring=bob :bob!b@h PRIVMSG me :hi you`.
    Message(Entry),
    /// A client name was admitted, as `NAME laptop`.
    Name(Vec<u8>),
    /// A client name has seen all up to this number, as `MARK laptop 1233`.
    Mark(Vec<u8>, u64),
    /// The last number that every session of a client name was given and its writer had written, as
    /// `SEEN laptop 1240`. The last `MARK` or `SEEN` of a name counts.
    Seen(Vec<u8>, u64),
    /// A client name was forgotten, as `GONE laptop`.
    Gone(Vec<u8>),
    /// We are on a channel, with this key if it has one, as `ON #c secret`.
    On(Vec<u8>, Option<Vec<u8>>),
}

//! When a client was heard last.

ghost use Rattle.std.specs.Prelude.{◌≡◌, None};
ghost use Rattle.receipts.specs.Hearing.{heard_at};

/// When a client was heard last, if it asks for signs of life. Nothing is known of a client
/// that never sends a PING: it may send nothing for hours, and be there.
#[derive(Clone, Copy, Debug, PartialEq, Eq)]
pub struct Hearing {
    heard: Option<u64>,
}

impl Hearing {
    /// A client that was not heard.
    pub fn new() -> Hearing
        ensures { result.heard ≡ None }
    {
        Hearing { heard: None }
    }

    /// The client was heard at this moment, in milliseconds since any other, by a PING or by anything
    /// else. Before its first PING nothing counts.
    pub fn hear(&mut self, is_ping: bool, now: u64)
        ensures { self.new.heard ≡ heard_at is_ping now self.old.heard }
    {
        if is_ping || self.heard.is_some() {
            self.heard = Some(now);
        }
    }

    /// When the client was heard last, if it has sent a PING.
    pub fn last(&self) -> Option<u64>
        ensures { result ≡ self.now.heard }
    {
        self.heard
    }
}

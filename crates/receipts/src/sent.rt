//! What a session was sent.

ghost use Rattle.std.specs.Prelude.{◌≡◌};
ghost use Rattle.receipts.specs.Notes.{settled, unwritten_of, waiting_after, written_of};

/// What a session was sent, at a moment at which no message was half sent.
#[derive(Clone, Copy, Debug, PartialEq, Eq)]
pub struct Sent {
    /// The number of the last message of its network.
    pub number: u64,
    /// How many packets it was sent, with all messages up to that one.
    pub count: u64,
}

/// The number up to which all messages have been written, if that much was sent and this many
/// packets have been written.
fn written_of(sent: Option<Sent>, written: u64) -> Option<u64>
    ensures { result ≡ written_of sent written }
{
    match sent {
        Some(sent) if sent.count <= written => Some(sent.number),
        _ => None,
    }
}

/// What was sent, if it is still to be written.
fn unwritten_of(sent: Option<Sent>, written: u64) -> Option<Sent>
    ensures { result ≡ unwritten_of sent written }
{
    match sent {
        Some(sent) if sent.count > written => Some(sent),
        _ => None,
    }
}

/// The number up to which all messages are seen to be written: those that were just sent, or else
/// those that were waited for.
pub(crate) fn settled(waiting: Option<Sent>, offered: Option<Sent>, written: u64) -> Option<u64>
    ensures { result ≡ settled waiting offered written }
{
    written_of(offered, written).or(written_of(waiting, written))
}

/// What is waited for then.
pub(crate) fn waiting_after(
    waiting: Option<Sent>,
    offered: Option<Sent>,
    written: u64,
) -> Option<Sent>
    ensures { result ≡ waiting_after waiting offered written }
{
    if written_of(offered, written).is_some() {
        return None;
    }
    unwritten_of(waiting, written).or(offered)
}

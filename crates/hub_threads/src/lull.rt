//! How long a writer rests.

/// The rest after two or three packets, and the shortest after more, in microseconds.
const USUAL: u64 = 1_000;

/// The longest rest, in microseconds.
const LONGEST: u64 = 4_000;

/// No rest is shorter, in microseconds: it would cost more than it spares.
const SHORTEST: u64 = 125;

/// How long a writer rests after it has written all, so that what comes meanwhile goes out in one
/// write: 1 ms after two or three packets; after more twice as long as before, from 1 ms to 4 ms; and
/// after one packet half as long as before, and not at all below 125 µs. So a client that waits for
/// the answer to what it said gets it at once, and one that is sent line after line gets them in few
/// writes.
#[derive(Drop)]
pub(crate) struct Lull {
    // packets since the last rest, at most the greatest count
    packets: u64,
    // the last rest, in microseconds
    micros: u64,
}

impl Lull {
    /// That of a writer that has written nothing.
    pub(crate) fn new() -> Lull {
        Lull {
            packets: 0,
            micros: 0,
        }
    }

    /// Counts a packet.
    pub(crate) fn count_packet(&mut self) {
        self.packets = self.packets.saturating_add(1);
    }

    /// The rest after all that was counted is written, in microseconds; it counts anew then.
    pub(crate) fn after_write(&mut self) -> u64 {
        let micros = match self.packets {
            0 | 1 => self.micros / 2,
            2 | 3 => USUAL,
            _ => self.micros.saturating_mul(2).clamp(USUAL, LONGEST),
        };
        self.micros = if micros < SHORTEST { 0 } else { micros };
        self.packets = 0;
        self.micros
    }
}

//! The time that steps are given: milliseconds since the program began.

use std::rt::Clock;
use std::time::Instant;

/// A moment from which milliseconds are counted, by the monotonic clock.
#[derive(Clone, Copy)]
pub(crate) struct Ticks {
    // `None` if the clock could not be read
    start: Option<Instant>,
}

impl Ticks {
    /// Counts from now on.
    pub(crate) fn begin<C: Clock>(clock: &C) -> Ticks {
        Ticks {
            start: Instant::now(clock).ok(),
        }
    }

    /// How many milliseconds have gone by; 0 if the clock can't be read.
    pub(crate) fn now<C: Clock>(&self, clock: &C) -> u64 {
        let Some(start) = self.start else {
            return 0;
        };
        match start.elapsed(clock) {
            Ok(since) => u64::try_from(since.as_millis()).unwrap_or(u64::MAX),
            Err(_) => 0,
        }
    }
}

//! The system's time, as hubs get it.

use client_caps::Moment;
use std::rt::Clock;
use std::time::{Instant, SystemTime, UNIX_EPOCH};

/// The system's time.
#[derive(Clone, Copy)]
pub struct SystemClock<'a, C> {
    clock: &'a C,
    // when it was made; `None` if the clock could not be read
    start: Option<Instant>,
}

impl<'a, C: Clock> SystemClock<'a, C> {
    /// The clock of this runtime.
    pub fn of(clock: &'a C) -> SystemClock<'a, C> {
        SystemClock {
            clock,
            start: Instant::now(clock).ok(),
        }
    }
}

impl<C: Clock> hub_threads::Clock for SystemClock<'_, C> {
    /// The present moment, or 0 if the clock can't be read.
    fn now(&self) -> Moment {
        let Ok(now) = SystemTime::now(self.clock) else {
            return Moment(0);
        };
        match now.duration_since(UNIX_EPOCH) {
            Ok(since) => Moment(u64::try_from(since.as_millis()).unwrap_or(u64::MAX)),
            Err(_) => Moment(0),
        }
    }

    /// How many milliseconds have gone by since it was made, by the monotonic clock; 0 if that
    /// can't be read.
    fn ticks(&self) -> u64 {
        let Some(start) = self.start else {
            return 0;
        };
        match start.elapsed(self.clock) {
            Ok(since) => u64::try_from(since.as_millis()).unwrap_or(u64::MAX),
            Err(_) => 0,
        }
    }
}

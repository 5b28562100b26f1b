//! The pace at which the clients of a network may speak.

use crate::debt::Debt;
use std::rt::Clock;
use std::sync::{Mutex, Wait};
use std::time::{Duration, Instant};

/// What was said and is not yet made up for.
#[derive(Clone, Copy)]
struct Spent {
    debt: Debt,
    // when that was so; none if nobody has said anything
    at: Option<Instant>,
}

/// How many bytes the clients of one network may say, all together: this many at once, and then
/// this many a second.
#[derive(Drop)]
pub struct Pace {
    // how many bytes at once
    burst: u32,
    // how many bytes a second
    rate: u32,
    spent: Mutex<Spent>,
}

/// A number of bytes; more than fit count as the most that fit.
fn narrow(bytes: u64) -> u32 {
    u32::try_from(bytes).unwrap_or(u32::MAX)
}

impl Spent {
    /// Makes up for what was said by the time that has gone by since.
    fn make_up(&mut self, now: Instant, rate: u32) {
        if let Some(at) = self.at {
            let passed = now.saturating_duration_since(at).as_micros();
            let passed = u64::try_from(passed).unwrap_or(u64::MAX);
            self.debt = self.debt.made_up(passed, rate);
        }
        self.at = Some(now);
    }
}

impl Pace {
    /// This many bytes at once, and then this many a second; 0 counts as 1.
    pub fn new(burst: u64, rate: u64) -> Pace {
        let spent = Spent {
            debt: Debt { parts: 0 },
            at: None,
        };
        Pace {
            burst: narrow(burst),
            rate: narrow(rate).max(1),
            spent: Mutex::new(spent),
        }
    }

    /// Counts this many bytes; answers how long their speaker waits before it says them. A speaker
    /// that comes later waits for those before it too. More bytes than may be said at once wait
    /// until nothing is left to make up for. If the clock can't be read nobody waits.
    pub fn take<R: Wait + Clock>(&self, rt: &R, bytes: u64) -> Duration {
        let Ok(now) = Instant::now(rt) else {
            return Duration::ZERO;
        };
        let bytes = narrow(bytes);
        let mut spent = self.spent.lock(rt);
        spent.make_up(now, self.rate);
        let wait = spent.debt.wait(self.burst, self.rate, bytes);
        spent.debt = spent.debt.with(bytes);
        Duration::from_micros(wait)
    }

    /// Takes back this many bytes that were counted, and are not said.
    pub fn give_back<R: Wait>(&self, rt: &R, bytes: u64) {
        let mut spent = self.spent.lock(rt);
        spent.debt = spent.debt.without(narrow(bytes));
    }
}

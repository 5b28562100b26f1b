//! Gates that hold a worker or count its steps, and clocks that tests move.

use client_caps::Moment;
use hub_threads::{Clock, Gate, Point};
use std::alloc::Global;
use std::sync::Arc;
use std::sync::atomic::{AtomicBool, AtomicU64, Ordering};
use std::test::Fail;
use std::time::Duration;
use std::{thread, time};

/// How often a test looks for what another thread is to do: it sleeps 1 ms each time.
const TURNS: u64 = 10_000;

/// Waits until a flag is up, at most for those turns. Whether it is.
fn comes_to_be<R: time::Clock>(rt: &R, flag: &AtomicBool) -> bool {
    for _ in 0..TURNS {
        if flag.load(Ordering::SeqCst) {
            return true;
        }
        thread::sleep(rt, Duration::from_millis(1));
    }
    false
}

/// A door that holds a writer before it writes: whether the writer has come to it, whether the test
/// has opened it, and whether the writer waited in vain.
#[derive(Drop)]
pub struct Door {
    reached: AtomicBool,
    opened: AtomicBool,
    given_up: AtomicBool,
}

/// A door that the test and the writer's gate share.
pub type SharedDoor = Arc<Door, Global>;

/// A door that is shut.
pub fn shut_door(alloc: Global) -> Result<SharedDoor, Fail> {
    Ok(Arc::new(
        alloc,
        Door {
            reached: AtomicBool::new(false),
            opened: AtomicBool::new(false),
            given_up: AtomicBool::new(false),
        },
    )?)
}

impl Door {
    /// Opens the door.
    pub fn let_go(&self) {
        self.opened.store(true, Ordering::SeqCst);
    }

    /// Waits until the writer has come to the door. Whether it has.
    pub fn is_reached<R: time::Clock>(&self, rt: &R) -> bool {
        comes_to_be(rt, &self.reached)
    }

    /// Whether the door is open.
    pub fn is_open(&self) -> bool {
        self.opened.load(Ordering::SeqCst)
    }

    /// Whether a writer went on before the door was open.
    pub fn was_forced(&self) -> bool {
        self.given_up.load(Ordering::SeqCst)
    }
}

/// The gate of a writer that stands before a door.
#[derive(Drop)]
pub struct Held<R: time::Clock> {
    pub rt: R,
    pub door: SharedDoor,
}

impl<R: time::Clock> Gate for Held<R> {
    fn pass(&self, point: Point) {
        if point != Point::BeforeWrite {
            return;
        }
        self.door.reached.store(true, Ordering::SeqCst);
        if !comes_to_be(&self.rt, &self.door.opened) {
            self.door.given_up.store(true, Ordering::SeqCst);
        }
    }
}

/// A gate that holds no worker, and counts the steps of a pump.
#[derive(Drop)]
pub struct Steps(AtomicU64);

impl Steps {
    /// One that has counted none.
    pub fn new() -> Steps {
        Steps(AtomicU64::new(0))
    }

    /// How many steps there were.
    pub fn count(&self) -> u64 {
        self.0.load(Ordering::SeqCst)
    }
}

impl Gate for Steps {
    fn pass(&self, point: Point) {
        if point == Point::BeforeStep {
            self.0.fetch_add(1, Ordering::SeqCst);
        }
    }
}

/// A clock whose ticks go on by 1 ms each time that they are asked for. Its moment stands still.
#[derive(Drop)]
pub struct Stepping(AtomicU64);

impl Stepping {
    /// One that was never asked.
    pub fn new() -> Stepping {
        Stepping(AtomicU64::new(0))
    }

    /// How often its ticks were asked for.
    pub fn looks(&self) -> u64 {
        self.0.load(Ordering::SeqCst)
    }
}

impl Clock for Stepping {
    fn now(&self) -> Moment {
        Moment(0)
    }

    fn ticks(&self) -> u64 {
        self.0.fetch_add(1, Ordering::SeqCst)
    }
}

/// A clock whose ticks go on by 1 ms each twentieth time that they are asked for: by it a pump is
/// patient for a second, on a busy machine too.
#[derive(Drop)]
pub struct Dragging(AtomicU64);

impl Dragging {
    /// One that was never asked.
    pub fn new() -> Dragging {
        Dragging(AtomicU64::new(0))
    }
}

impl Clock for Dragging {
    fn now(&self) -> Moment {
        Moment(0)
    }

    fn ticks(&self) -> u64 {
        self.0.fetch_add(1, Ordering::SeqCst) / 20
    }
}

/// A clock that stands still.
#[derive(Clone, Copy)]
pub struct Still;

impl Clock for Still {
    fn now(&self) -> Moment {
        Moment(0)
    }

    fn ticks(&self) -> u64 {
        0
    }
}

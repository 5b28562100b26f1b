//! What tells a writer to stop.

use crate::OutOfMemory;
use std::alloc::Global;
use std::sync::Arc;
use std::sync::atomic::{AtomicBool, Ordering};

/// A sign that tells one writer to stop. Putting it up wakes nobody.
#[derive(Drop)]
pub(crate) struct StopSign {
    is_up: AtomicBool,
}

/// A sign, shared by any number of hands.
pub(crate) type SharedSign = Arc<StopSign, Global>;

/// A sign that is down.
pub(crate) fn shared_sign(alloc: Global) -> Result<SharedSign, OutOfMemory> {
    Ok(Arc::new(
        alloc,
        StopSign {
            is_up: AtomicBool::new(false),
        },
    )?)
}

impl StopSign {
    /// Puts it up.
    pub(crate) fn put_up(&self) {
        self.is_up.store(true, Ordering::SeqCst);
    }

    /// Takes it down.
    pub(crate) fn take_down(&self) {
        self.is_up.store(false, Ordering::SeqCst);
    }

    /// Whether it is up.
    pub(crate) fn is_up(&self) -> bool {
        self.is_up.load(Ordering::SeqCst)
    }
}

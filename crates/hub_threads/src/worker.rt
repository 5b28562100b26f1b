//! What a worker works with.

use std::alloc::Global;

/// What a worker works with: the runtime, the allocator, what it passes at each point, and what
/// gives it the time.
#[derive(Drop)]
pub struct Worker<'a, R, G, C> {
    pub rt: R,
    pub alloc: Global,
    pub gate: &'a G,
    pub clock: &'a C,
}

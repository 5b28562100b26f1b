//! Calls that are made again after an allocation failed. In a plain run of the tests none fails;
//! `contrib/refuse_memory.sh` runs each test once for each of its allocations, which fails in that
//! run. If it is one of a call that is tried here, the test looks at what is promised of a refusal
//! and makes the call again; then all ends as in a plain run. If it is one of the test's own, the
//! test ends at once, and says only that memory was refused.

mod attaching;
mod hubs;
mod items;
mod runs;
mod talking;

//! Calls that are made again after an allocation was refused. In a plain run of the tests none is
//! refused. `contrib/refuse_memory.sh` runs each test once for each of its allocations and refuses
//! that one. If it belongs to a call that is tried here, the test looks at what the call promises,
//! and makes it again; then all ends as in a plain run. If it belongs to the test itself, the test
//! ends at once, and says only that memory was refused.

mod clients;

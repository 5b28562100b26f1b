//! When a writer gives up.

use crate::write_call::Call;

/// How many milliseconds one write call of a session's writer lasts at most, by the write timeout
/// that its connection is given after the login: less than the pump's patience, so a client that
/// reads is seen to read in time.
pub const WRITE_CALL: u64 = 40;

/// How many such calls are 30 s.
const CALLS: u32 = 750;

/// How long a writer has waited for a reader that is slow, in calls that each took their time.
#[derive(Drop)]
pub(crate) struct Slowness {
    // calls in succession that took nothing
    idle: u32,
    // calls since the session was cut; what is left for it then takes less than half of those
    late: u32,
}

impl Slowness {
    /// It has not waited.
    pub(crate) fn none() -> Slowness {
        Slowness { idle: 0, late: 0 }
    }

    /// Counts a call. Whether the writer gives up: after a call that failed, after 30 s in which no
    /// byte was taken, and once the session is cut, after 30 s whatever was taken.
    pub(crate) fn is_too_much(&mut self, call: Call, is_cut: bool) -> bool {
        match call {
            Call::Failed => return true,
            Call::Interrupted => {}
            Call::Whole | Call::Part => self.idle = 0,
            Call::Blocked => self.idle = self.idle.saturating_add(1),
        }
        if is_cut {
            self.late = self.late.saturating_add(1);
        }
        self.idle >= CALLS || self.late >= CALLS
    }
}

//! When a journal is looked at again, although nothing rings.

/// After how many milliseconds a client's writer is looked at again that had not written everything
/// when it rang: it says so only a moment after it has rung.
const BEHIND: u64 = 1_000;

/// When a journal is looked at again, although nothing rings.
#[derive(Clone, Copy)]
pub(crate) struct LookingAgain {
    // after how many milliseconds, if it is
    time: Option<u64>,
    is_behind: bool,
}

impl LookingAgain {
    /// Only if something rings; a client's writer may be behind, which then does.
    pub(crate) fn if_rung(is_behind: bool) -> LookingAgain {
        LookingAgain {
            time: None,
            is_behind,
        }
    }

    /// After this many milliseconds, because something was not written.
    pub(crate) fn after(time: u64) -> LookingAgain {
        LookingAgain {
            time: Some(time),
            is_behind: true,
        }
    }

    /// The sooner of this and that of another journal.
    pub(crate) fn or(self, other: LookingAgain) -> LookingAgain {
        let time = match (self.time, other.time) {
            (Some(one), Some(other)) => Some(one.min(other)),
            (Some(time), None) | (None, Some(time)) => Some(time),
            (None, None) => None,
        };
        LookingAgain {
            time,
            is_behind: self.is_behind || other.is_behind,
        }
    }

    /// Whether a client's writer may be behind.
    pub(crate) fn is_behind(self) -> bool {
        self.is_behind
    }

    /// After how many milliseconds all is looked at again. A writer that is behind is looked at once
    /// more after a ring, and from then on only if something rings.
    pub(crate) fn time(self, was_rung: bool) -> Option<u64> {
        if !self.is_behind || !was_rung {
            return self.time;
        }
        match self.time {
            Some(time) => Some(time.min(BEHIND)),
            None => Some(BEHIND),
        }
    }
}

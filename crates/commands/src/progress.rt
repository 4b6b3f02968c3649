//! When a long task reports its progress.

use std::rt::Clock;
use std::time::Instant;

/// Seconds before the first message, and between two of them.
const SECONDS: u64 = 2;

/// The progress messages of a task that may take long.
#[derive(Drop)]
pub struct Progress {
    start: Option<Instant>,
    due: u64,
}

impl Progress {
    /// The progress messages of a task that begins now; none if they are not shown, or if there is no clock.
    pub fn new<C: Clock>(is_shown: bool, clock: &C) -> Progress {
        Progress {
            start: if is_shown {
                Instant::now(clock).ok()
            } else {
                None
            },
            due: SECONDS,
        }
    }

    /// The seconds since the task began, if a message is due, which then counts as written; otherwise none.
    pub fn due<C: Clock>(&mut self, clock: &C) -> Option<u64> {
        let seconds = self.start?.elapsed(clock).ok()?.as_secs();
        if seconds < self.due {
            return None;
        }
        self.due = seconds.saturating_add(SECONDS);
        Some(seconds)
    }
}

//! Since when a thread has had work under way, as others see it.
use std::alloc::Global;
use std::sync::Arc;
use std::sync::atomic::{AtomicU64, Ordering};

/// What others see of a thread that waits, for as long as it likes, until there is work: since when it has had some under way, by a monotonic clock. Of a thread that looks for work
/// in rounds it is when the last one began.
pub struct WorkSince {
    since: AtomicU64,
}

impl Drop for WorkSince {
    fn drop(self) {
        let WorkSince { since: _ } = self;
    }
}

/// The same, shared by threads.
pub type SharedWork = Arc<WorkSince, Global>;

impl WorkSince {
    /// Of a thread that waits.
    pub fn new() -> WorkSince {
        WorkSince {
            since: AtomicU64::new(u64::MAX),
        }
    }

    /// Shows that the thread starts work, at a time in milliseconds.
    pub fn start_work(&self, now: u64) {
        self.since.store(now, Ordering::SeqCst);
    }

    /// Shows that the thread waits.
    pub fn end(&self) {
        self.since.store(u64::MAX, Ordering::SeqCst);
    }

    /// Since when the thread has had work under way, in milliseconds; 2^64 - 1 while it waits.
    pub fn since(&self) -> u64 {
        self.since.load(Ordering::SeqCst)
    }
}

/// Shows that a thread begins a round, at a time in milliseconds, where others see that.
pub fn show_round(work: &Option<SharedWork>, now: u64) {
    if let Some(work) = work {
        work.start_work(now);
    }
}

/// Shows that a thread goes round no more, where others see that.
pub fn end_rounds(work: &Option<SharedWork>) {
    if let Some(work) = work {
        work.end();
    }
}

//! How much a worker may do, and when its threads are to end.
ghost use Rattle.std.specs.Prelude.{◌≡◌};

use crossbeam_utils::CachePadded;
use server_control::Shutdown;
use std::sync::atomic::{AtomicU64, Ordering};

/// Shared by the threads of a worker: how much it may do, and how much it has done.
pub struct WorkLimit {
    most: u64,
    done: CachePadded<AtomicU64>,
}

impl Drop for WorkLimit {
    fn drop(self) {
        let WorkLimit { most: _, done: _ } = self;
    }
}

impl WorkLimit {
    /// The limit of a worker: how many requests it may receive over UDP, and connections it may end, in all.
    pub fn new(most: u64) -> WorkLimit
        ensures { result.most ≡ most }
    {
        WorkLimit {
            most,
            done: CachePadded::new(AtomicU64::new(0)),
        }
    }

    /// Counts `count` more as done.
    pub(crate) fn add(&self, count: u64) {
        self.done.fetch_add(count, Ordering::SeqCst);
    }

    /// How many are done.
    pub(crate) fn done(&self) -> u64 {
        self.done.load(Ordering::SeqCst)
    }

    /// Whether the limit is reached.
    pub(crate) fn is_done(&self) -> bool {
        self.done() >= self.most
    }
}

/// Tells a thread whether to end, from the limit of its worker and the shutdown of the server.
#[derive(Clone, Copy)]
pub struct StopFlag<'a> {
    pub(crate) shutdown: &'a Shutdown,
    pub(crate) limit: &'a WorkLimit,
}

impl<'a> StopFlag<'a> {
    /// For a thread of a worker.
    pub fn new(shutdown: &'a Shutdown, limit: &'a WorkLimit) -> StopFlag<'a> {
        StopFlag { shutdown, limit }
    }

    /// Whether the thread is to end: its worker has reached its limit, or the server is to end.
    pub(crate) fn is_over(self) -> bool {
        self.limit.is_done() || self.shutdown.is_ending()
    }
}

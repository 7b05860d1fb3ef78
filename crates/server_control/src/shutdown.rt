//! What the threads of a server share: when they have begun, and when they are to end.
ghost use Rattle.std.specs.Prelude.{◌≡◌};

use std::sync::atomic::{AtomicBool, AtomicUsize, Ordering};

/// Shared by all threads of a server: how many have begun and have ended, whether the server is to end, and whether the update thread judges updates.
pub struct Shutdown {
    threads: usize,
    begun: AtomicUsize,
    ended: AtomicUsize,
    is_ending: AtomicBool,
    is_judging: AtomicBool,
}

impl Drop for Shutdown {
    fn drop(self) {
        let Shutdown {
            threads: _,
            begun: _,
            ended: _,
            is_ending: _,
            is_judging: _,
        } = self;
    }
}

impl Shutdown {
    /// For this number of threads, of which none has begun.
    pub fn new(threads: usize) -> Shutdown
        ensures { result.threads ≡ threads }
    {
        Shutdown {
            threads,
            begun: AtomicUsize::new(0),
            ended: AtomicUsize::new(0),
            is_ending: AtomicBool::new(false),
            is_judging: AtomicBool::new(false),
        }
    }

    /// Counts a thread that has begun. True where all have begun with this one.
    pub fn thread_started(&self) -> bool {
        self.begun.fetch_add(1, Ordering::SeqCst).saturating_add(1) == self.threads
    }

    /// Counts a thread that has ended.
    pub fn leave(&self) {
        self.ended.fetch_add(1, Ordering::SeqCst);
    }

    /// From now on the update thread judges updates.
    pub fn judge(&self) {
        self.is_judging.store(true, Ordering::SeqCst);
    }

    /// From now on the update thread judges no updates.
    pub fn judged(&self) {
        self.is_judging.store(false, Ordering::SeqCst);
    }

    /// Whether all threads but one have ended, and the update thread judges no updates.
    pub fn has_one_left(&self) -> bool {
        self.ended.load(Ordering::SeqCst).saturating_add(1) >= self.threads
            && !self.is_judging.load(Ordering::SeqCst)
    }

    /// Whether all threads but so many have ended.
    pub fn has_left(&self, left: usize) -> bool {
        self.ended.load(Ordering::SeqCst).saturating_add(left) >= self.threads
    }

    /// How many threads have ended.
    pub(crate) fn ended(&self) -> usize {
        self.ended.load(Ordering::SeqCst)
    }

    /// From now on the server is to end, because a thread has ended for a reason of its own.
    pub fn end(&self) {
        self.is_ending.store(true, Ordering::SeqCst);
    }

    /// Whether the server is to end.
    pub fn is_ending(&self) -> bool {
        self.is_ending.load(Ordering::SeqCst)
    }
}

//! What an operator sees of a store while updates are written to it (own).
use std::alloc::{AllocError, Global};
use std::mem;
use std::sync::atomic::{AtomicU64, Ordering};
use std::sync::{Arc, Mutex, Wait};

/// What the update thread shows of its store to other threads.
pub struct StoreState {
    /// Why the last batch could not be written; none if it was written.
    fault: Mutex<Option<String>>,
    /// The octets of the journal.
    journal: AtomicU64,
    /// The number of the zone text that the journal continues.
    text: AtomicU64,
}

impl Drop for StoreState {
    fn drop(self) {
        let StoreState {
            fault: _,
            journal: _,
            text: _,
        } = self;
    }
}

/// The same, shared by threads.
pub type SharedStoreState = Arc<StoreState, Global>;

impl StoreState {
    /// The state of a store to which no batch was written yet, and whose journal isn't known yet.
    pub fn new() -> StoreState {
        StoreState {
            fault: Mutex::new(None),
            journal: AtomicU64::new(0),
            text: AtomicU64::new(0),
        }
    }

    /// Shows a journal's octets, and the number of the zone text that it continues.
    pub fn show_journal(&self, octets: u64, text: u64) {
        self.journal.store(octets, Ordering::SeqCst);
        self.text.store(text, Ordering::SeqCst);
    }

    /// Shows why a batch could not be written, or, with none, that it was written.
    pub fn show_fault<R: Wait>(&self, rt: &R, fault: Option<String>) {
        let before = mem::replace(&mut *self.fault.lock(rt), fault);
        mem::drop(before);
    }

    /// The journal's octets.
    pub fn journal(&self) -> u64 {
        self.journal.load(Ordering::SeqCst)
    }

    /// The number of the zone text that the journal continues.
    pub fn text(&self) -> u64 {
        self.text.load(Ordering::SeqCst)
    }

    /// Why the last batch could not be written. None if it was written.
    pub fn fault<R: Wait>(&self, rt: &R, alloc: Global) -> Result<Option<String>, AllocError> {
        match &*self.fault.lock(rt) {
            Some(reason) => Ok(Some(format!(in alloc; "{reason}")?)),
            None => Ok(None),
        }
    }
}

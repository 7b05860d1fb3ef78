//! Keys that wait for their turn.
ghost use Rattle.std.specs.Prelude.{◌↔◌, IfOk, IsTrue};
ghost use Rattle.tcp_loop.specs.Tallies.{IsNew, NoneWaits};

use std::alloc::{AllocError, Global};
use std::mem;

/// How many keys of connections that could go on get a turn beside those reported ready (own).
const OTHERS: usize = 16;

/// Keys that wait for their turn, each once. All those reported ready get the next turn; of those that had a turn and could go on, at most
/// [`OTHERS`] do, round robin, so that a client with a new request waits for few of the clients that send requests without end.
pub(crate) struct RunQueue {
    ready: Vec<usize>,
    /// Keys of connections that could go on: in this round, and in the next one.
    others: Vec<usize>,
    after: Vec<usize>,
    /// For each key, whether it waits.
    is_in: Vec<bool>,
}

impl Drop for RunQueue {
    fn drop(self) {
        let RunQueue {
            ready: _,
            others: _,
            after: _,
            is_in: _,
        } = self;
    }
}

impl RunQueue {
    /// No keys; each is to be below `most`.
    pub(crate) fn new(alloc: Global, most: usize) -> Result<RunQueue, AllocError>
        ensures { IfOk result (λ queue. IsNew most queue) }
    {
        Ok(RunQueue {
            ready: Vec::with_capacity(alloc, most)?,
            others: Vec::with_capacity(alloc, most)?,
            after: Vec::with_capacity(alloc, most)?,
            is_in: vec![in alloc; false; most]?,
        })
    }

    /// Whether none waits.
    pub(crate) fn is_empty(&self) -> bool
        ensures { IsTrue result ↔ NoneWaits self.now }
    {
        self.ready.is_empty() && self.others.is_empty() && self.after.is_empty()
    }

    /// Whether a key is to be added, in which case it is marked as waiting: not if it waits already, or isn't below the most, since then it
    /// belongs to no connection.
    fn enters(&mut self, key: usize) -> bool {
        let Some(is_in) = self.is_in.get_mut(key) else {
            return false;
        };
        !mem::replace(is_in, true)
    }

    /// Adds a key that was reported ready, after the others, if it doesn't wait already.
    pub(crate) fn put(&mut self, key: usize) {
        // There is room for as many as may wait.
        if self.enters(key) {
            let _ = self.ready.push(key);
        }
    }

    /// Adds keys of connections that could go on to the next round, each if it doesn't wait already.
    pub(crate) fn put_after(&mut self, keys: &[usize]) {
        for key in keys {
            if self.enters(*key) {
                let _ = self.after.push(*key);
            }
        }
    }

    /// The next key of those that could go on.
    fn next_other(&mut self) -> Option<usize> {
        if self.others.is_empty() {
            mem::swap(&mut self.others, &mut self.after);
        }
        self.others.pop()
    }

    /// Moves the keys whose turn it is to `taken`, which has to be empty; they then wait no more.
    pub(crate) fn take(&mut self, taken: &mut Vec<usize>) {
        mem::swap(&mut self.ready, taken);
        for _other in 0..OTHERS {
            let Some(key) = self.next_other() else {
                break;
            };
            let _ = taken.push(key);
        }
        for key in taken.iter() {
            if let Some(is_in) = self.is_in.get_mut(*key) {
                *is_in = false;
            }
        }
    }
}

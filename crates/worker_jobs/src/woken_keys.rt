//! Woken keys.
ghost use Rattle.std.specs.Prelude.{◌≡◌, ◌++◌, [], ◌∷◌, IfOk, MatchOption};
ghost use Rattle.worker_jobs.specs.WokenKeys.{woken_with};

use std::alloc::{AllocError, Global};
use std::marker::Model;

/// The keys of woken connections, each at most once. There is room for all that there may be.
pub(crate) struct WokenKeys {
    keys: Vec<usize>,
    most: usize,
}

impl Drop for WokenKeys {
    fn drop(self) {
        let WokenKeys { keys: _, most: _ } = self;
    }
}

impl Model for WokenKeys {
    ghost use Rattle.std.specs.Prelude.{◌≤◌, vec_capacity};
    ghost use Rattle.worker_jobs.specs.WokenKeys.{WokenState, AreWoken};

    ghost Value = { WokenState };

    ghost view = { λ t. record { keys = t.keys.items; most = t.most } };

    ghost invariant = { λ t. AreWoken t.most t.keys.items × (t.most ≤ vec_capacity t.keys) };
}

impl WokenKeys {
    /// No key is woken yet. Keys are less than `most`. `AllocError` where there is no memory for as many.
    pub(crate) fn new(alloc: Global, most: usize) -> Result<WokenKeys, AllocError>
        ensures { IfOk result (λ reported. reported ≡ record { keys = []; most = most }) }
    {
        let keys = Vec::with_capacity(alloc, most)?;
        Ok(WokenKeys { keys, most })
    }

    /// Adds a key after the others, unless it is there already, or isn't less than `most`. It allocates nothing.
    pub(crate) fn put(&mut self, key: usize)
        ensures { self.new ≡ woken_with self.old key }
    {
        if key < self.most && !self.keys.contains(&key) {
            self.keys.push_reserved(key);
        }
    }

    /// Removes the last key, and gives it. None where there is none.
    pub(crate) fn take(&mut self) -> Option<usize>
        ensures most { self.new.most ≡ self.old.most }
        ensures keys { MatchOption result ((self.old.keys ≡ []) × (self.new.keys ≡ [])) (λ key. self.old.keys ≡ self.new.keys ++ key ∷ []) }
    {
        self.keys.pop()
    }
}

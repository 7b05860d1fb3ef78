//! Lists of owners.
ghost use Rattle.std.specs.Prelude.{◌≡◌, ◌++◌, ◌∷◌, [], length, IfOk, IfErr, OnOk, MatchOption};

use crate::fault::WorldFault;
use std::alloc::Global;
use std::marker::Model;

/// Owners, each by its index in the words. Contracts see the list of them.
#[derive(Drop)]
pub struct OwnerList {
    items: Vec<usize>,
}

impl Model for OwnerList {
    ghost use Rattle.std.specs.Prelude.{List, ℕ};

    ghost Value = { List ℕ };

    ghost view = { λ a. a.items.items };
}

impl OwnerList {
    /// No owners yet.
    pub fn new(alloc: Global) -> OwnerList
        ensures { result ≡ [] }
    {
        OwnerList {
            items: Vec::new(alloc),
        }
    }

    /// Adds an owner at the end.
    pub fn push(&mut self, owner: usize) -> Result<(), WorldFault>
        ensures ok { OnOk result (self.new ≡ self.old ++ owner ∷ []) }
        ensures refused { IfErr result (λ fault. fault ≡ WorldFault.NoMemory) }
    {
        match self.items.push(owner) {
            Ok(()) => Ok(()),
            Err(_) => Err(WorldFault::NoMemory),
        }
    }

    /// The number of owners.
    pub fn len(&self) -> usize
        ensures { result ≡ length self.now }
    {
        self.items.len()
    }

    /// Removes the first owner and gives it; None where there is none.
    pub fn take_first(&mut self) -> Option<usize>
        ensures { MatchOption result ((self.old ≡ []) × (self.new ≡ [])) (λ owner. self.old ≡ owner ∷ self.new) }
    {
        if self.items.is_empty() {
            return None;
        }
        Some(self.items.remove(0))
    }
}

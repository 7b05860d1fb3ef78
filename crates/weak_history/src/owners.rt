//! Owners of versions, in no memory of their own.
ghost use Rattle.std.specs.Prelude.{◌≡◌, ◌<◌, ◌≤◌, [], ◌∷◌, ◌++◌, length, MatchOption};

use crate::history::ENTRIES;
use arrayvec::ArrayVec;
use snapshot_cell::{NamedStrong, Names, Naming};
use std::marker::Model;

/// Owners of versions, the oldest first, to be taken one after the other. Contracts see the versions.
#[derive(Drop)]
pub struct Owners<'a, T: Drop, C: Names<T>, N: Naming> {
    places: ArrayVec<Option<NamedStrong<'a, T, C, N>>, ENTRIES>,
}

impl<'a, T: Drop, C: Names<T>, N: Naming> Model for Owners<'a, T, C, N> {
    ghost use Rattle.std.specs.Prelude.{List};
    ghost use Rattle.cell_core.specs.declared.words.Version.{Version};
    ghost use Rattle.weak_history.specs.Places.{placed, IsFull};

    ghost Value = { List (Version T) };

    ghost view = { λ a. placed a.places.items };

    ghost invariant = { λ a. IsFull a.places.items };
}

impl<'a, T: Drop, C: Names<T>, N: Naming> Owners<'a, T, C, N> {
    /// No owner.
    pub(crate) fn new() -> Owners<'a, T, C, N>
        ensures { result ≡ [] }
    {
        Owners {
            places: ArrayVec::new(),
        }
    }

    /// How many owners are left.
    pub fn len(&self) -> usize
        ensures len { result ≡ length self.now }
        ensures most { result ≤ ENTRIES }
    {
        self.places.len()
    }

    /// Puts an owner after the others.
    pub(crate) fn push(&mut self, owner: NamedStrong<'a, T, C, N>)
        requires { length self.old < ENTRIES }
        ensures { self.new ≡ self.old ++ owner.entry ∷ [] }
    {
        self.places.push(Some(owner));
    }

    /// Takes the oldest of them; None where all are taken.
    pub fn take_first(&mut self) -> Option<NamedStrong<'a, T, C, N>>
        ensures { MatchOption result ((self.old ≡ []) × (self.new ≡ [])) (λ owner. self.old ≡ owner ∷ self.new) }
    {
        if self.places.is_empty() {
            return None;
        }
        self.places.remove(0)
    }
}

//! Versions that are owned beside the cell, in no memory of their own.
ghost use Rattle.std.specs.Prelude.{◌≡◌, ◌<◌, ◌≤◌, [], ◌∷◌, ◌++◌, length};
ghost use Rattle.std.specs.List.{slice_get};
ghost use Rattle.std.specs.Option.{option_copied};

use crate::shared::SharedVersion;
use arrayvec::ArrayVec;
use std::marker::Model;
use transfer_core::WINDOW;
use zone_tree::Version;

/// Versions that are owned beside the cell, the oldest first. Contracts see the versions.
#[derive(Drop)]
pub(crate) struct Copies {
    places: ArrayVec<Option<SharedVersion>, WINDOW>,
}

impl Model for Copies {
    ghost use Rattle.std.specs.Prelude.{List};
    ghost use Rattle.zone_tree.specs.Version.{Version};
    ghost use Rattle.weak_history.specs.Places.{placed, IsFull};

    ghost Value = { List Version };

    ghost view = { λ a. placed a.places.items };

    ghost invariant = { λ a. IsFull a.places.items };
}

impl Copies {
    /// No version.
    pub(crate) fn new() -> Copies
        ensures { result ≡ [] }
    {
        Copies {
            places: ArrayVec::new(),
        }
    }

    /// How many versions they are.
    pub(crate) fn len(&self) -> usize
        ensures len { result ≡ length self.now }
        ensures most { result ≤ WINDOW }
    {
        self.places.len()
    }

    /// The version at a place, counted from 0, the oldest; None where there are no more.
    pub(crate) fn version(&self, at: usize) -> Option<&Version>
        ensures { option_copied result ≡ slice_get self.now at }
    {
        match self.places.get(at) {
            Some(Some(shared)) => Some(shared.get()),
            Some(None) => None,
            None => None,
        }
    }

    /// Puts a version after the others.
    pub(crate) fn push(&mut self, version: SharedVersion)
        requires { length self.old < WINDOW }
        ensures { self.new ≡ self.old ++ version ∷ [] }
    {
        self.places.push(Some(version));
    }
}

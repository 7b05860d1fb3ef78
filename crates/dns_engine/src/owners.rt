//! Owners of versions, in no memory of their own.
ghost use Rattle.std.specs.Prelude.{◌≡◌, ◌-◌, ◌<◌, ◌≤◌, [], ◌∷◌, ◌++◌, length};
ghost use Rattle.dns_engine.specs.Held.{newest};

use crate::versions::{FirstZone, VersionOwner};
use arrayvec::ArrayVec;
use snapshot_cell::Naming;
use std::marker::Model;
use transfer_core::KEPT;

/// Owners of versions, the oldest first. Contracts see the versions.
#[derive(Drop)]
pub(crate) struct Owners<'a, Z: FirstZone, N: Naming> {
    places: ArrayVec<Option<VersionOwner<'a, Z, N>>, KEPT>,
}

impl<'a, Z: FirstZone, N: Naming> Model for Owners<'a, Z, N> {
    ghost use Rattle.std.specs.Prelude.{List};
    ghost use Rattle.zone_tree.specs.Version.{Version};
    ghost use Rattle.weak_history.specs.Places.{placed, IsFull};
    ghost use Rattle.dns_engine.specs.Owned.{versions_of};

    ghost Value = { List Version };

    ghost view = { λ a. versions_of (placed a.places.items) };

    ghost invariant = { λ a. IsFull a.places.items };
}

impl<'a, Z: FirstZone, N: Naming> Owners<'a, Z, N> {
    /// No owner.
    pub(crate) fn new() -> Owners<'a, Z, N>
        ensures { result ≡ [] }
    {
        Owners {
            places: ArrayVec::new(),
        }
    }

    /// Puts an owner of the next version after the others, of which the newest stay, so many in all.
    pub(crate) fn keep_newest(&mut self, keep: usize, owner: VersionOwner<'a, Z, N>)
        requires most { keep ≤ KEPT }
        requires kept { length self.old ≤ keep }
        ensures { self.new ≡ newest keep (self.old ++ owner.entry.value ∷ []) }
    {
        if keep == 0 {
            return;
        }
        self.make_room(keep);
        self.places.push(Some(owner));
    }

    /// Lets the oldest owner go where there are so many.
    fn make_room(&mut self, keep: usize)
        requires some { 0 < keep }
        requires kept { length self.old ≤ keep }
        ensures { self.new ≡ newest (keep - 1) self.old }
    {
        if self.places.len() == keep {
            self.places.remove(0);
        }
    }
}

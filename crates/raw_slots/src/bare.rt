//! The memory of a row that is all cut into places, between the making of a table and its end.
ghost use Rattle.core.specs.Prelude.{◌≡◌, List, []};
ghost use Rattle.core.specs.Mem.Slots.{lease_ptr, lease_len};
ghost use denote.Memory.{mem};
ghost use Rattle.raw_slots.specs.Chains.{after, spots_from, AreAlong};
ghost use Rattle.raw_slots.specs.declared.place.Spot.{Spot};
ghost use Rattle.raw_slots.specs.Bare.{bare_owns};

use crate::place::Spot;
use crate::row::Row;
use core::slots::Lease;
use std::alloc::Allocator;
use std::marker::Model;

/// What is left of a row when all its values are cut off, the right to free its memory, and where its first place lies.
pub struct Bare<T, A: Allocator> {
    pub row: Row<T>,
    pub lease: Lease<T, A>,
    pub first: Spot<T>,
    pub ghost spots: { List (Spot T) },
}

impl<T, A: Allocator> Model for Bare<T, A> {
    ghost also_owns = { λ s. bare_owns T.row s.row.at s.row.total s.row.values s.first.at (lease_ptr s.lease) (lease_len s.lease) s.spots };
}

impl<T, A: Allocator> Bare<T, A> {
    /// Keeps the row, of which all values are cut off, with its lease and the spot of its first place.
    pub fn of(row: Row<T>, lease: Lease<T, A>, first: Spot<T>) -> Bare<T, A>
        requires { (row.at ≡ after T.row first.at row.total) × (row.values ≡ []) × (lease_ptr lease ≡ first.at) × (lease_len lease ≡ row.total) }
        ensures { (result.row ≡ row) × (result.lease ≡ lease) × (result.first ≡ first) × (result.spots ≡ spots_from (mem T.row).size first.at 0 row.total) }
    {
        Bare { row, lease, first }
    }

    /// What it was made of, with what `of` asked.
    pub fn into_parts(self) -> (Row<T>, Lease<T, A>, Spot<T>)
        ensures parts { (result.0 ≡ self.row) × (result.1 ≡ self.lease) × (result.2 ≡ self.first) }
        ensures facts { (self.row.at ≡ after T.row self.first.at self.row.total) × (self.row.values ≡ []) × (lease_ptr self.lease ≡ self.first.at) × (lease_len self.lease ≡ self.row.total) × AreAlong (mem T.row).size self.first.at self.row.total self.spots }
    {
        let Bare { row, lease, first } = self;
        (row, lease, first)
    }
}

// SAFETY: the right to free a block is of no thread where its allocator is of none.
unsafe impl<T: Send, A: Allocator + Send> Send for Bare<T, A> {}

// SAFETY: nothing is read through a `&` to a bare row, and it may go to another thread.
unsafe impl<T: Send, A: Allocator + Send> Sync for Bare<T, A> {}

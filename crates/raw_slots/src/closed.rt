//! The way back of a row whose places are the slots of a table, when the table is closed.
ghost use Rattle.std.specs.Prelude.{◌≡◌, ◌+◌, ◌<◌, ◌≤◌, ℕ, false, [], length, slice_index_or};
ghost use Rattle.core.specs.Mem.Slots.{slots_items, slots_filled, slots_len, lease_ptr, lease_len, lease_heap, IsFull};
ghost use Rattle.raw_slots.specs.Chains.{after, IsChain, AreAt};

use crate::bare::Bare;
use crate::place::{Place, Spot};
use crate::row::Row;
use atomic_table::Closed;
use core::slots::{Lease, release};
use std::alloc::{Allocator, Global};

// Joins the places of a closed table, which lie side by side from `first` on, to their row.
fn join_closed<T, V, A: Allocator>(
    row: &mut Row<T>,
    closed: &mut Closed<Place<T, V>, A>,
    first: Spot<T>,
    count: usize,
)
    requires full { IsFull closed.old.slots × (slots_len closed.old.slots ≡ count) }
    requires row { IsChain T.row first.at (slots_items closed.old.slots) × (row.old.at ≡ after T.row first.at count) × (row.old.values ≡ []) × (row.old.total ≡ count) }
    ensures row { (row.new.at ≡ first.at) × (length row.new.values ≡ count) }
    ensures taken { (k : ℕ) → k < slots_len closed.new.slots → slice_index_or (slots_filled closed.new.slots) k false ≡ false }
{
    let mut left = count;
    while left > 0 {
        left -= 1;
        row.join(closed.take(left));
    }
}

// Drops the values of a whole row, and frees its memory.
fn clear<T: Drop>(alloc: Global, row: Row<T>, lease: Lease<T, Global>, count: usize)
    requires { (count ≡ length row.values) × (lease_ptr lease ≡ row.at) × (lease_len lease ≡ count) × (lease_heap lease ≡ alloc) }
{
    let mut slots = row.into_slots(count);
    let mut i = 0;
    while i < count {
        drop(slots.take(i));
        i += 1;
    }
    release(&alloc, slots, lease);
}

/// Joins the places, which are the slots of a closed table, to what is left of their row, drops the values, and frees the memory
/// of both.
pub fn gather_closed<T: Drop, V, A: Allocator>(
    alloc: Global,
    bare: Bare<T, Global>,
    mut closed: Closed<Place<T, V>, A>,
)
    requires { IsFull closed.slots × AreAt bare.spots (slots_items closed.slots) }
{
    let count = closed.slot_count();
    let (mut row, lease, first) = bare.into_parts();
    join_closed(&mut row, &mut closed, first, count);
    closed.free();
    clear(alloc, row, lease, count);
}

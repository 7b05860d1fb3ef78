//! A row of values in memory of its own, all cut into places, and its way back.
ghost use Rattle.std.specs.Prelude.{◌≡◌, ◌+◌, ◌<◌, ◌≤◌, [], ◌++◌, length, map, IfOk, IfErr};
ghost use Rattle.core.specs.Mem.Slots.{slots_items, slots_len, slots_ptr, lease_ptr, lease_len, lease_heap, IsFull};
ghost use Rattle.std.specs.Vec.{vec_capacity};
ghost use Rattle.raw_slots.specs.Chains.{after, IsCut, IsChain, AreAt, HaveValues};

use crate::bare::Bare;
use crate::place::{Place, Spot};
use crate::row::Row;
use core::slots::{Lease, Slots, release, reserve};
use std::alloc::Global;

fn fill<T>(slots: &mut Slots<T>, mut values: Vec<T>)
    requires { slots_len slots.old ≡ length values.items }
    ensures { IsFull slots.new × (slots_items slots.new ≡ values.items) × (slots_ptr slots.new ≡ slots_ptr slots.old) × (slots_len slots.new ≡ slots_len slots.old) }
{
    while let Some(x) = values.pop() {
        slots.put(values.len(), x);
    }
    values.destroy_empty();
}

/// Moves the values into a row of their own. They come back where there is no memory.
pub fn lay<T>(alloc: Global, values: Vec<T>) -> Result<(Row<T>, Lease<T, Global>), Vec<T>>
    ensures ok { IfOk result (λ l. (l.0.values ≡ values.items) × (l.0.total ≡ length values.items) × (lease_ptr l.1 ≡ l.0.at) × (lease_len l.1 ≡ length values.items) × (lease_heap l.1 ≡ alloc)) }
    ensures err { IfErr result (λ v. v.items ≡ values.items) }
{
    // SAFETY: each value that is put is one that the row had no other of, so none is forgotten.
    let Ok((mut slots, lease)) = (unsafe { reserve(&alloc, values.as_slice()) }) else {
        return Err(values);
    };
    fill(&mut slots, values);
    Ok((Row::of(slots), lease))
}

/// Cuts the whole row, of `count` values, into places, and says where each lies.
pub fn cut_all<T, V>(
    row: &mut Row<T>,
    places: &mut Vec<Place<T, V>>,
    spots: &mut Vec<Spot<T>>,
    count: usize,
)
    requires { (length row.old.values ≡ count) × (places.old.items ≡ []) × (spots.old.items ≡ []) × (count ≤ vec_capacity places.old) × (count ≤ vec_capacity spots.old) }
    ensures cut { IsCut T.row row.old.at row.old.values places.new.items spots.new.items × (length places.new.items ≡ count) }
    ensures rest { (row.new.at ≡ after T.row row.old.at count) × (row.new.values ≡ []) × (row.new.total ≡ row.old.total) }
{
    let mut i = 0;
    while i < count {
        let mut place = row.cut();
        spots.push_reserved(place.spot());
        places.push_reserved(place);
        i += 1;
    }
}

/// Joins whole places, which lie side by side from `first` on, to the row after them.
pub fn join_all<T, V>(row: &mut Row<T>, mut places: Vec<Place<T, V>>, first: Spot<T>)
    requires { IsChain T.row first.at places.items × (row.old.at ≡ after T.row first.at (length places.items)) × (length places.items + length row.old.values ≤ row.old.total) }
    ensures { (row.new.values ≡ map (λ (y : Place T V). y.value) places.items ++ row.old.values) × (row.new.at ≡ first.at) × (row.new.total ≡ row.old.total) }
{
    while let Some(place) = places.pop() {
        row.join(place);
    }
    places.destroy_empty();
}

/// Moves the values out of a whole row, and frees its memory.
pub fn unlay<T>(
    alloc: Global,
    row: Row<T>,
    lease: Lease<T, Global>,
    count: usize,
    values: &mut Vec<T>,
)
    requires { (count ≡ length row.values) × (lease_ptr lease ≡ row.at) × (lease_len lease ≡ count) × (lease_heap lease ≡ alloc) × (values.old.items ≡ []) × (count ≤ vec_capacity values.old) }
    ensures { values.new.items ≡ row.values }
{
    let mut slots = row.into_slots(count);
    let mut i = 0;
    while i < count {
        values.push_reserved(slots.take(i));
        i += 1;
    }
    release(&alloc, slots, lease);
}

/// Moves the values into a row of their own, and cuts it into places. What is left of the row comes back; where there is no
/// memory, the values.
pub fn lay_places<T, V>(
    alloc: Global,
    values: Vec<T>,
    places: &mut Vec<Place<T, V>>,
    spots: &mut Vec<Spot<T>>,
) -> Result<Bare<T, Global>, Vec<T>>
    requires some { 0 < length values.items }
    requires room { (places.old.items ≡ []) × (spots.old.items ≡ []) × (length values.items ≤ vec_capacity places.old) × (length values.items ≤ vec_capacity spots.old) }
    ensures laid { IfOk result (λ bare. (bare.spots ≡ spots.new.items) × AreAt spots.new.items places.new.items × HaveValues values.items places.new.items × (length places.new.items ≡ length values.items)) }
    ensures refused { IfErr result (λ left. (left.items ≡ values.items) × (places.new ≡ places.old) × (spots.new ≡ spots.old)) }
{
    let count = values.len();
    let (mut row, lease) = lay(alloc, values)?;
    cut_all(&mut row, places, spots, count);
    let first = Spot { at: spots[0].at };
    Ok(Bare::of(row, lease, first))
}

/// Joins the places to what is left of their row, moves the values out, and frees the memory.
pub fn gather<T, V>(
    alloc: Global,
    bare: Bare<T, Global>,
    places: Vec<Place<T, V>>,
    values: &mut Vec<T>,
)
    requires places { AreAt bare.spots places.items }
    requires room { (values.old.items ≡ []) × (length places.items ≤ vec_capacity values.old) }
    ensures { values.new.items ≡ map (λ (y : Place T V). y.value) places.items }
{
    let count = places.len();
    let (mut row, lease, first) = bare.into_parts();
    join_all(&mut row, places, first);
    unlay(alloc, row, lease, count, values);
}

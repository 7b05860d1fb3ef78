//! The end of a cell's table, and of its places' memory.
ghost use Rattle.std.specs.Prelude.{◌≡◌, [], ◌∷◌};
ghost use Rattle.counted_handles.specs.declared.view.View.TheVariants.{Gone};
ghost use Rattle.counted_handles.specs.Calls.{AreSpots};

use crate::names::Names;
use crate::rule::{Room, Rule, Spots};
use crate::view::View;
use atomic_table::{Badge, Table};
use cell_core::Version;
use raw_slots::{Bare, gather_closed};
use std::alloc::Global;

/// Frees the memory of a cell that [`end`](crate::end) has ended, by the token that it left spent.
pub fn unmake<T: Drop, C: Names<T>>(
    alloc: Global,
    table: Table<Room<T>, View<T>, Spots<T>, Rule<C>, Global>,
    badge: Badge<View<T>>,
    spots: &Spots<T>,
    bare: Bare<Option<Version<T>>, Global>,
)
    requires spots { AreSpots table.shared.table_id table.shared.key spots.now × (bare.spots ≡ spots.now.places.items) }
    requires ended { (badge.table_id ≡ table.shared.table_id) × (badge.id ≡ 0) × (badge.views ≡ Gone ∷ []) }
{
    let closed = table.close_with(badge.into_seat());
    gather_closed(alloc, bare, closed);
}

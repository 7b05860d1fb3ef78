//! The making of a cell's table.
ghost use Rattle.std.specs.Prelude.{◌≡◌, [], ◌∷◌, ◌<◌, Some, None, IfSome, replicate, length, vec_len};
ghost use Rattle.cell_core.specs.Words.{slots};
ghost use Rattle.counted_handles.specs.declared.view.View.TheVariants.{Begin, Publishes};
ghost use Rattle.counted_handles.specs.Calls.{Fits, AreSpots};
ghost use Rattle.counted_handles.specs.Opens.{IsLaid, IsBegun};
ghost use Rattle.counted_handles.specs.Ruled.{first_words, first_version};
ghost use Rattle.counted_handles.specs.Tells.{IsOpened};
ghost use Rattle.raw_slots.specs.Chains.{AreAt};

use crate::calls::{BULK, FREE, Words, offer, open};
use crate::names::Names;
use crate::plays::{About, Puts};
use crate::rule::{Room, Rule, Spots};
use crate::view::View;
use atomic_table::{Badge, Refused, Seat, Table};
use cell_core::{SLOTS, Version};
use raw_slots::{Bare, gather, lay_places};
use std::alloc::Global;
use std::snapshot::Snapshot;

/// The table of a new cell.
pub struct Made<T, C: Names<T>> {
    /// The table.
    pub table: Table<Room<T>, View<T>, Spots<T>, Rule<C>, Global>,
    /// The publisher's token, which has all grants.
    pub badge: Badge<View<T>>,
    /// Where the places lie.
    pub spots: Spots<T>,
    /// The places' memory.
    pub bare: Bare<Option<Version<T>>, Global>,
}

// The places of a new cell, whole, of which the first has the first version.
struct Laid<T> {
    rooms: Vec<Room<T>>,
    spots: Spots<T>,
    bare: Bare<Option<Version<T>>, Global>,
    version: Snapshot<Version<T>>,
}

// The words of a new cell: slot 0 is in W, and the other slots are free.
fn begun_words(alloc: Global) -> Option<Vec<u64>>
    ensures { IfSome result (λ words. words.items ≡ first_words) }
{
    let mut words = Vec::with_capacity(alloc, SLOTS + SLOTS + 1).ok()?;
    words.push_reserved(0);
    words.push_reserved(BULK);
    words.push_reserved(1);
    let mut slot = 0;
    while slot + 1 < SLOTS {
        words.push_reserved(FREE);
        words.push_reserved(1);
        slot += 1;
    }
    Some(words)
}

// What lies in the slots of a new cell: the first version, and nothing in the others.
fn begun_slots<T: Drop>(alloc: Global, version: Version<T>) -> Option<Vec<Option<Version<T>>>>
    ensures { IfSome result (λ values. values.items ≡ Some version ∷ replicate 63 None) }
{
    let mut values = Vec::with_capacity(alloc, SLOTS).ok()?;
    values.push_reserved(Some(version));
    let mut slot = 0;
    while slot + 1 < SLOTS {
        values.push_reserved(None);
        slot += 1;
    }
    Some(values)
}

// The places of a new cell.
fn lay_out<T: Drop>(alloc: Global, first: T) -> Option<Laid<T>>
    ensures { IfSome result (λ laid. IsLaid laid.spots.places.items first laid.rooms.items × (laid.spots.first.value ≡ first) × AreAt laid.bare.spots laid.rooms.items × (laid.bare.spots ≡ laid.spots.places.items) × (vec_len laid.spots.places ≡ slots) × (laid.version.value ≡ first_version first)) }
{
    let begun = Version {
        number: 0,
        value: first,
    };
    let version = Snapshot::of(&begun);
    let seen = Snapshot::of(&begun.value);
    let values = begun_slots(alloc, begun)?;
    let mut places = Vec::with_capacity(alloc, SLOTS).ok()?;
    let Ok(mut rooms) = Vec::with_capacity(alloc, SLOTS) else {
        return None;
    };
    match lay_places(alloc, values, &mut rooms, &mut places) {
        Ok(bare) => Some(Laid {
            rooms,
            spots: Spots {
                places,
                first: seen,
            },
            bare,
            version,
        }),
        Err(_) => {
            rooms.destroy_empty();
            None
        }
    }
}

// The first seat's two looks at W, between which the first place is shared: the publisher's token.
fn make_publisher<T, C: Names<T>>(
    words: &Words<T, C>,
    mut seat: Seat<Room<T>, View<T>>,
    version: Snapshot<Version<T>>,
) -> Badge<View<T>>
    requires fits { Fits words.now.table_id × (seat.table_id ≡ words.now.table_id) × (seat.id ≡ 0) }
    requires first { (seat.me ≡ (Begin version.value.value, [])) × (version.value ≡ first_version version.value.value) × C.begins version.value.value }
    ensures badge { (result.table_id ≡ words.now.table_id) × (result.id ≡ 0) }
    ensures begun { IsBegun version.value.value words.now.table_id.views_name result.views }
{
    open(words, &mut seat);
    let about = About { slot: 0, version };
    let room = seat.slot_mut(words, 0);
    room.share::<Spots<T>, Rule<C>, About<T>, Puts>(words, &about);
    offer(words, &mut seat);
    seat.into_badge()
}

/// The table of a cell whose first version has number 0 and this value, which may be the first. None where a growth was refused:
/// the value is then dropped.
pub fn make<T: Drop, C: Names<T>>(alloc: Global, first: T) -> Option<Made<T, C>>
    requires { C.begins first }
    ensures { IfSome result (λ made. AreSpots made.table.shared.table_id made.table.shared.key made.spots × (made.bare.spots ≡ made.spots.places.items) × (made.badge.table_id ≡ made.table.shared.table_id) × (made.badge.id ≡ 0) × IsBegun first made.table.shared.table_id.views_name made.badge.views) }
{
    let words = begun_words(alloc)?;
    let mut back = Vec::with_capacity(alloc, SLOTS).ok()?;
    let Laid {
        rooms,
        spots,
        bare,
        version,
    } = lay_out(alloc, first)?;
    match Table::new(alloc, words.as_slice(), rooms, &spots) {
        Ok((table, seat)) => {
            let badge = make_publisher(&table.shared, seat, version);
            Some(Made {
                table,
                badge,
                spots,
                bare,
            })
        }
        Err(Refused { slots }) => {
            gather(alloc, bare, slots, &mut back);
            None
        }
    }
}

//! Publications.
ghost use Rattle.std.specs.Prelude.{◌≡◌, ◌+◌, ◌-◌, ◌^◌, ◌<◌, [], ◌∷◌, ◌++◌, length, IfOk, IfErr};
ghost use Rattle.cell_core.specs.Words.{slots};
ghost use Rattle.counted_handles.specs.declared.view.Publishing.{Publishing};
ghost use Rattle.counted_handles.specs.declared.view.Reading.{Reading};
ghost use Rattle.counted_handles.specs.History.{IsHistory};
ghost use Rattle.counted_handles.specs.Tells.{IsTaken};
ghost use Rattle.counted_handles.specs.Calls.{Fits, AreSpots, IsPut, CanPublish, IsOld, IsNewer, IsAtRest, CanMeet, HasMet, HasNone};

use crate::calls::{Words, greet, shelve, swap_in, take};
use crate::names::Names;
use crate::owner::{Strong, own};
use crate::plays::{About, Puts};
use crate::probed::Probed;
use crate::rule::{Room, Rule, Spots};
use crate::view::View;
use atomic_table::{Badge, Seat};
use cell_core::Version;
use std::mem;
use std::snapshot::Snapshot;

/// There was no free slot: the value comes back, with the probes of all 64 slots, each of which saw another word than FREE.
#[derive(Drop)]
pub struct NoSlot<T> {
    /// The value that wasn't published.
    pub value: T,
    /// The probes.
    pub probed: Probed,
}

// The version goes into the place that the publisher has taken, which is shared and then lies in the slot.
fn put<T: Drop, C: Names<T>>(
    words: &Words<T, C>,
    seat: &mut Seat<Room<T>, View<T>>,
    slot: usize,
    version: Version<T>,
)
    requires fits { Fits words.now.table_id × (seat.old.table_id ≡ words.now.table_id) × (seat.old.id ≡ 0) × (slot < slots) }
    requires taken { (p : Publishing T) × IsTaken p slot seat.old.me × (p.name ≡ words.now.table_id.views_name) × (length p.published ≡ version.number) }
    ensures seat { (seat.new.table_id ≡ seat.old.table_id) × (seat.new.id ≡ seat.old.id) }
    ensures lies { (p : Publishing T) → IsTaken p slot seat.old.me → p.name ≡ words.now.table_id.views_name → length p.published ≡ version.number → IsPut p slot version.value seat.new.me }
{
    let about = About {
        slot,
        version: Snapshot::of(&version),
    };
    let room = seat.slot_mut(words, slot);
    let _ = room.replace(Some(version));
    room.share::<Spots<T>, Rule<C>, About<T>, Puts>(words, &about);
    shelve(words, seat, slot);
}

/// Publishes a value that may follow the last one, which has this number, and gives the old version's owner. [`NoSlot`] with
/// the value where this call saw none of the 64 slots free: nothing is then published. It waits for nobody.
pub fn publish<'a, T: Drop, C: Names<T>>(
    words: &'a Words<T, C>,
    spots: &'a Spots<T>,
    badge: &mut Badge<View<T>>,
    number: u64,
    value: T,
) -> Result<Strong<'a, T, C>, NoSlot<T>>
    requires spots { AreSpots words.now.table_id words.now.key spots.now }
    requires fits { (badge.old.table_id ≡ words.now.table_id) × (badge.old.id ≡ 0) }
    requires room { number < 2 ^ 64 - 1 }
    requires due { (p : Publishing T) × CanPublish p badge.old.views × (length p.published ≡ number + 1) × (p.name ≡ words.now.table_id.views_name) × IsHistory C.begins C.follows (p.published ++ value ∷ []) }
    ensures badge { (badge.new.table_id ≡ badge.old.table_id) × (badge.new.id ≡ badge.old.id) }
    ensures old { IfOk result (λ strong. (strong.table ≡ words.now.table_id) × ((p : Publishing T) → CanPublish p badge.old.views → IsOld p strong.version)) }
    ensures published { IfOk result (λ _. (p : Publishing T) → CanPublish p badge.old.views → IsNewer p value badge.new.views) }
    ensures refused { IfErr result (λ refused. (refused.value ≡ value) × (refused.probed ≡ slots) × (badge.new.views ≡ badge.old.views)) }
    ensures none_found { IfErr result (λ _. (p : Publishing T) → CanPublish p badge.old.views → HasNone p) }
{
    let mut seat = mem::replace(badge, Badge::blank()).into_seat();
    let mut probed = Probed::none();
    let Some(slot) = take(words, &mut seat, &mut probed) else {
        *badge = seat.into_badge();
        return Err(NoSlot { value, probed });
    };
    let number = number + 1;
    put(words, &mut seat, slot, Version { number, value });
    let (share, old) = swap_in(words, &mut seat, slot);
    *badge = seat.into_badge();
    Ok(own(words, spots, share, old))
}

/// The reader sees all that this publisher has published, of which it had seen a beginning, for no grant: one look at W. It waits
/// for nobody.
pub fn meet<T, C: Names<T>>(
    words: &Words<T, C>,
    badge: &mut Badge<View<T>>,
    reader: &mut Badge<View<T>>,
)
    requires fits { Fits words.now.table_id × (badge.old.table_id ≡ words.now.table_id) × (badge.old.id ≡ 0) × (reader.old.table_id ≡ words.now.table_id) }
    requires can { (p : Publishing T) × (r : Reading T) × IsAtRest p badge.old.views × CanMeet r reader.old.views }
    ensures badges { (badge.new.table_id ≡ badge.old.table_id) × (badge.new.id ≡ badge.old.id) × (reader.new.table_id ≡ words.now.table_id) }
    ensures met { (p : Publishing T) (r : Reading T) → IsAtRest p badge.old.views → CanMeet r reader.old.views → HasMet p r badge.new.views reader.new.views }
{
    let mut seat = mem::replace(badge, Badge::blank()).into_seat();
    let guest = mem::replace(reader, Badge::blank()).into_seat();
    let rest = greet(words, &mut seat, guest);
    *badge = seat.into_badge();
    *reader = rest.into_badge();
}

//! How the publisher of a new cell hands its grants out.
ghost use Rattle.std.specs.Prelude.{◌≡◌, ◌≤◌, List, [], ◌∷◌, None};
ghost use Rattle.counted_handles.specs.declared.view.Publishing.{Publishing};
ghost use Rattle.counted_handles.specs.declared.view.Reading.{Reading};
ghost use Rattle.counted_handles.specs.declared.view.View.TheVariants.{Publishes, Reads};
ghost use Rattle.counted_handles.specs.Calls.{Fits, IsHost};
ghost use Rattle.counted_handles.specs.Cuts.{with_reader, reader_of, lodged, without_guest};

use crate::calls::Words;
use crate::names::Names;
use crate::plays::{self, GrantCount};
use crate::view::View;
use atomic_table::Badge;
use std::marker::Brand;
use std::mem;

// A reader with the grants that a type names goes off the publisher's token.
fn deal_grants<T, C: Names<T>, H: GrantCount>(
    words: &Words<T, C>,
    badge: &mut Badge<View<T>>,
    grants: u64,
) -> Badge<View<T>>
    requires count { grants ≡ H.grants }
    requires fits { Fits words.now.table_id × (badge.old.table_id ≡ words.now.table_id) }
    requires enough { (p : Publishing T) × (badge.old.views ≡ Publishes p ∷ []) × (p.share ≡ None) × (H.grants ≤ p.left) }
    ensures badges { (badge.new.table_id ≡ badge.old.table_id) × (badge.new.id ≡ badge.old.id) × (result.table_id ≡ badge.old.table_id) }
    ensures dealt { (p : Publishing T) → badge.old.views ≡ Publishes p ∷ [] → (badge.new.views ≡ Publishes (with_reader p H.grants) ∷ []) × (result.views ≡ reader_of p H.grants ∷ []) }
{
    let mut seat = mem::replace(badge, Badge::blank()).into_seat();
    let reader = words.split_seat::<plays::Deals<H>>(&mut seat);
    *badge = seat.into_badge();
    reader.into_badge()
}

/// A reader with so many grants goes off the publisher's token.
pub fn deal<T, C: Names<T>>(
    words: &Words<T, C>,
    badge: &mut Badge<View<T>>,
    grants: u64,
) -> Badge<View<T>>
    requires fits { Fits words.now.table_id × (badge.old.table_id ≡ words.now.table_id) }
    requires enough { (p : Publishing T) × (badge.old.views ≡ Publishes p ∷ []) × (p.share ≡ None) × (grants ≤ p.left) }
    ensures badges { (badge.new.table_id ≡ badge.old.table_id) × (badge.new.id ≡ badge.old.id) × (result.table_id ≡ badge.old.table_id) }
    ensures dealt { (p : Publishing T) → badge.old.views ≡ Publishes p ∷ [] → (badge.new.views ≡ Publishes (with_reader p grants) ∷ []) × (result.views ≡ reader_of p grants ∷ []) }
{
    deal_grants::<T, C, Brand>(words, badge, grants)
}

/// A reader with all grants that are left goes off the publisher's token.
pub fn deal_rest<T, C: Names<T>>(words: &Words<T, C>, badge: &mut Badge<View<T>>) -> Badge<View<T>>
    requires fits { Fits words.now.table_id × (badge.old.table_id ≡ words.now.table_id) }
    requires whole { (p : Publishing T) × (badge.old.views ≡ Publishes p ∷ []) × (p.share ≡ None) }
    ensures badges { (badge.new.table_id ≡ badge.old.table_id) × (badge.new.id ≡ badge.old.id) × (result.table_id ≡ badge.old.table_id) }
    ensures dealt { (p : Publishing T) → badge.old.views ≡ Publishes p ∷ [] → (badge.new.views ≡ Publishes (with_reader p p.left) ∷ []) × (result.views ≡ reader_of p p.left ∷ []) }
{
    let mut seat = mem::replace(badge, Badge::blank()).into_seat();
    let reader = words.split_seat::<plays::Rests>(&mut seat);
    *badge = seat.into_badge();
    reader.into_badge()
}

/// The publisher's token takes a reader in, which [`give_back`] gives back.
pub fn take_in<T, C: Names<T>>(
    words: &Words<T, C>,
    badge: &mut Badge<View<T>>,
    guest: Badge<View<T>>,
)
    requires fits { Fits words.now.table_id × (badge.old.table_id ≡ words.now.table_id) × (guest.table_id ≡ words.now.table_id) }
    requires whole { (p : Publishing T) × (r : Reading T) × (badge.old.views ≡ Publishes p ∷ []) × (guest.views ≡ Reads r ∷ []) × (r.share ≡ None) }
    ensures badge { (badge.new.table_id ≡ badge.old.table_id) × (badge.new.id ≡ badge.old.id) }
    ensures taken { (p : Publishing T) (r : Reading T) → badge.old.views ≡ Publishes p ∷ [] → guest.views ≡ Reads r ∷ [] → badge.new.views ≡ Publishes (lodged p r) ∷ [] }
{
    let mut seat = mem::replace(badge, Badge::blank()).into_seat();
    words.join_seat::<plays::Lodges>(&mut seat, guest.into_seat());
    *badge = seat.into_badge();
}

/// The reader that the publisher's token took in last.
pub fn give_back<T, C: Names<T>>(words: &Words<T, C>, badge: &mut Badge<View<T>>) -> Badge<View<T>>
    requires fits { Fits words.now.table_id × (badge.old.table_id ≡ words.now.table_id) }
    requires guest { (p : Publishing T) × (r : Reading T) × (rest : List (Reading T)) × IsHost p r rest badge.old.views }
    ensures badges { (badge.new.table_id ≡ badge.old.table_id) × (badge.new.id ≡ badge.old.id) × (result.table_id ≡ badge.old.table_id) }
    ensures back { (p : Publishing T) (r : Reading T) (rest : List (Reading T)) → IsHost p r rest badge.old.views → (badge.new.views ≡ Publishes (without_guest p r rest) ∷ []) × (result.views ≡ Reads r ∷ []) }
{
    let mut seat = mem::replace(badge, Badge::blank()).into_seat();
    let guest = words.split_seat::<plays::Returns>(&mut seat);
    *badge = seat.into_badge();
    guest.into_badge()
}

//! To claim a shared place that is at home in its slot, to give the claim back, and to have a place whole again.
ghost use Rattle.core.specs.Prelude.{◌≡◌, ◌<◌, [], ◌∷◌};
ghost use Rattle.atomic_table.specs.Table.{rest};
ghost use Rattle.raw_slots.specs.Places.{Stake, Claimable, Returnable, Alone, first_with};

use crate::place::{Held, Place, Spot};
use atomic_table::{Badge, Seat, Shared, TableRule};
use std::marker::{Brand, PhantomData};
use std::sync::atomic::Ordering::SeqCst;
use std::sync::atomic::raw;

/// What a claim tells of the value that it reads.
pub trait Tells<T, V> {
    // Of the view that claims, the place's stake and its value.
    ghost tells: { V → Stake V → T → Type 0 };
}

/// Claims the place at `spot`, in the slot `slot`. The seat's view stays with the claim until `unclaim`.
pub fn claim<T, V, K, P: TableRule<Place<T, V>, V, K>, M: Tells<T, V>>(
    shared: &Shared<Place<T, V>, V, K, P>,
    badge: &mut Badge<V>,
    spot: Spot<T>,
    slot: usize,
) -> Held<T, V>
    requires { (badge.old.table_id ≡ shared.now.table_id) × (slot < shared.now.table_id.slots) × ((v : V) × (badge.old.views ≡ v ∷ []) × Claimable (λ (y : Place T V). y.at) (λ y. y.value) (λ y. y.stake) (P.holds shared.now.key) (M.tells v) shared.now.table_id.views_name badge.old.id v slot spot.at) }
    ensures { (badge.new.views ≡ []) × (result.at ≡ spot.at) × (badge.old.views ≡ result.stake.key ∷ []) × (result.stake.views ≡ shared.now.table_id.views_name) × (result.id ≡ badge.old.id) × M.tells result.stake.key result.stake result.value }
{
    claim_at::<T, V, K, P, M>(shared, badge, spot.at, slot)
}

fn claim_at<T, V, K, P: TableRule<Place<T, V>, V, K>, M: Tells<T, V>>(
    shared: &Shared<Place<T, V>, V, K, P>,
    badge: &mut Badge<V>,
    at: *const T,
    slot: usize,
) -> Held<T, V>
    requires { (badge.old.table_id ≡ shared.now.table_id) × (slot < shared.now.table_id.slots) × ((v : V) × (badge.old.views ≡ v ∷ []) × Claimable (λ (y : Place T V). y.at) (λ y. y.value) (λ y. y.stake) (P.holds shared.now.key) (M.tells v) shared.now.table_id.views_name badge.old.id v slot at) }
    ensures { (badge.new.views ≡ []) × (result.at ≡ at) × (badge.old.views ≡ result.stake.key ∷ []) × (result.stake.views ≡ shared.now.table_id.views_name) × (result.id ≡ badge.old.id) × M.tells result.stake.key result.stake result.value }
{
    let word: u64 = 0;
    // SAFETY: the word is a local of this call, so it may be loaded; the claim is made beside that step.
    unsafe { raw::load::<Brand>(&raw const word, SeqCst) };
    Held {
        at,
        marker: PhantomData,
    }
}

/// Gives a claim of the place in the slot `slot` back, and the seat's view with it.
pub fn unclaim<T, V, K, P: TableRule<Place<T, V>, V, K>>(
    shared: &Shared<Place<T, V>, V, K, P>,
    held: Held<T, V>,
    badge: &mut Badge<V>,
    slot: usize,
)
    requires { (slot < shared.now.table_id.slots) × (held.stake.views ≡ shared.now.table_id.views_name) × Returnable (λ (y : Place T V). y.stake) (P.holds shared.now.key) held.id held.stake slot }
    ensures { (badge.new.table_id ≡ shared.now.table_id) × (badge.new.id ≡ held.id) × (badge.new.views ≡ held.stake.key ∷ []) }
{
    let Held { at: _, marker: _ } = held;
    let step: u64 = 0;
    // SAFETY: the word is a local of this call, so it may be loaded; the claim goes back beside that step.
    unsafe { raw::load::<Brand>(&raw const step, SeqCst) };
}

/// Makes the place that the seat took last whole, where no view can have a claim of it.
pub fn collect<T, V, K, P: TableRule<Place<T, V>, V, K>>(
    shared: &Shared<Place<T, V>, V, K, P>,
    seat: &mut Seat<Place<T, V>, V>,
    slot: usize,
)
    requires { (seat.old.table_id ≡ shared.now.table_id) × ((y : Place T V) × (s : Stake V) × (seat.old.me.1 ≡ (slot, y) ∷ rest seat.old.me.1) × (y.stake ≡ s ∷ []) × (s.views ≡ shared.now.table_id.views_name) × Alone (P.holds shared.now.key) seat.old.id seat.old.me.0 s.key) }
    ensures { (seat.new.table_id ≡ seat.old.table_id) × (seat.new.id ≡ seat.old.id) × (seat.new.me ≡ (seat.old.me.0, first_with (λ (y : Place T V). record y { stake = [] }) seat.old.me.1)) }
{
    let look: u64 = 0;
    // SAFETY: the word is a local of this call, so it may be loaded; the pieces are collected beside that step.
    unsafe { raw::load::<Brand>(&raw const look, SeqCst) };
}

//! A place for a value, whole or shared, what a claim of it reads by, and where it lies.
ghost use Rattle.core.specs.Prelude.{◌≡◌, ℕ, List, [], ◌∷◌};
ghost use base.Stored.{coded_list};
ghost use Rattle.raw_slots.specs.Places.{Stake, stake_coded, place_owns, held_owns, held_shares};

use atomic_table::{Shared, TableRule};
use std::marker::{Model, PhantomData};

/// The right to a place and its value. It is whole where it has no stake, and shared where it has one.
pub struct Place<T, V> {
    pub at: *mut T,
    pub(crate) marker: PhantomData<V>,
    pub ghost value: { T },
    pub ghost stake: { List (Stake V) } by { coded_list (stake_coded V.code) },
}

impl<T, V> Model for Place<T, V> {
    ghost also_owns = { λ y. place_owns T.row V.row.coded.code y.at y.value y.stake };
}

/// A claim of a shared place: the right to read its value until `unclaim`.
pub struct Held<T, V> {
    pub(crate) at: *const T,
    pub(crate) marker: PhantomData<V>,
    pub ghost value: { T },
    pub ghost stake: { Stake V } by { stake_coded V.code },
    pub ghost id: { ℕ },
}

impl<T, V> Model for Held<T, V> {
    ghost also_owns = { λ h. held_owns T.row V.row.coded.code h.at h.value h.stake h.id };

    ghost also_shares = { λ h _ κ. held_shares T.row V.row.coded.code h.at h.value h.stake.life κ };
}

/// Where a place lies. It owns nothing.
#[derive(Clone, Copy)]
pub struct Spot<T> {
    pub at: *const T,
}

/// Which view may claim a place that is shared.
pub trait Keys<V, A> {
    // Of what the call is told, the name of the table's views, and the place's lifetime and tally.
    ghost key: { A → ℕ → ℕ → ℕ → V };
}

impl<T, V> Place<T, V> {
    /// Where the place lies.
    pub fn spot(&mut self) -> Spot<T>
        ensures { (result.at ≡ self.old.at) × (self.new ≡ self.old) }
    {
        Spot { at: self.at }
    }

    /// Writes the place, which is whole, and gives back what it held.
    pub fn replace(&mut self, new: T) -> T
        requires { self.old.stake ≡ [] }
        ensures { (result ≡ self.old.value) × (self.new.value ≡ new) × (self.new.at ≡ self.old.at) × (self.new.stake ≡ []) }
    {
        unsafe {
            // SAFETY: a whole place owns the value that lies at `at`, and nothing else reads it.
            let old = self.at.read();
            self.at.write(new);
            old
        }
    }

    /// Shares the place, which is whole, with the seats of the table that have the view `M::key`. No code runs.
    pub fn share<K, P: TableRule<Place<T, V>, V, K>, A, M: Keys<V, A>>(
        &mut self,
        table: &Shared<Place<T, V>, V, K, P>,
        about: &A,
    )
        requires { self.old.stake ≡ [] }
        ensures same { (self.new.at ≡ self.old.at) × (self.new.value ≡ self.old.value) }
        ensures shared { (s : Stake V) × (self.new.stake ≡ s ∷ []) × (s.views ≡ table.now.table_id.views_name) × (s.key ≡ M.key about.now s.views s.life s.tally) }
    {}
}

impl<T, V> Held<T, V> {
    /// The value that was claimed.
    pub fn get(&self) -> &T
        ensures { result.now ≡ self.now.value }
    {
        // SAFETY: the claim owns a piece of the token of the lifetime for which the value at `at` is lent.
        unsafe { &*self.at }
    }
}

// SAFETY: a whole place owns its value, and a shared one lends it to readers on other threads.
unsafe impl<T: Send + Sync, V> Send for Place<T, V> {}

// SAFETY: a claim reads its value and no more, on whichever thread has it.
unsafe impl<T: Sync, V> Send for Held<T, V> {}

// SAFETY: a `&` to a claim reads its value and no more.
unsafe impl<T: Sync, V> Sync for Held<T, V> {}

// SAFETY: a spot owns nothing and reads nothing.
unsafe impl<T> Send for Spot<T> {}

// SAFETY: a spot owns nothing and reads nothing.
unsafe impl<T> Sync for Spot<T> {}

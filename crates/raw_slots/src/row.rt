//! Values side by side in one block, of which places are cut off at the front and joined again.
ghost use Rattle.core.specs.Prelude.{◌≡◌, ℕ, ◌<◌, ◌≤◌, List, [], ◌∷◌, length};
ghost use Rattle.core.specs.Mem.Slots.{slots_items, slots_ptr, slots_len, IsFull};
ghost use Rattle.raw_slots.specs.Rows.{row_owns, next_to};

use crate::place::Place;
use core::slots::Slots;
use std::marker::{Model, PhantomData};

/// What is left of a row of `total` values: `values`, which lie from `at` on.
pub struct Row<T> {
    pub(crate) at: *mut T,
    pub ghost total: { ℕ },
    pub ghost values: { List T },
}

impl<T> Model for Row<T> {
    ghost also_owns = { λ r. row_owns T.row r.at r.total r.values };
}

impl<T> Row<T> {
    /// The values of a full row.
    pub fn of(slots: Slots<T>) -> Row<T>
        requires { IsFull slots }
        ensures { (result.at ≡ slots_ptr slots) × (result.total ≡ slots_len slots) × (result.values ≡ slots_items slots) }
    {
        // SAFETY: the places of a full row are its values, which `Row` owns from here on.
        let parts = unsafe { slots.into_raw_parts() };
        Row { at: parts.0 }
    }

    /// The full row again, which has `len` values.
    pub fn into_slots(self, len: usize) -> Slots<T>
        requires { len ≡ length self.values }
        ensures { (slots_ptr result ≡ self.at) × (slots_len result ≡ len) × (slots_items result ≡ self.values) × IsFull result }
    {
        let Row { at } = self;
        // SAFETY: the row owns `len` values from `at` on, and gives them up here.
        unsafe { Slots::from_raw_parts(at, len) }
    }

    /// Cuts the first value off, as a whole place.
    pub fn cut<V>(&mut self) -> Place<T, V>
        requires { 0 < length self.old.values }
        ensures { (self.old.values ≡ result.value ∷ self.new.values) × (result.stake ≡ []) × (result.at ≡ self.old.at) × (self.new.at ≡ next_to T.row self.old.at) × (self.new.total ≡ self.old.total) }
    {
        let at = self.at;
        // SAFETY: the row has a value at `at`, so the place after it is in or at the end of its block.
        self.at = unsafe { at.add(1) };
        Place {
            at,
            marker: PhantomData,
        }
    }

    /// Takes in a whole place that lies right before the row.
    pub fn join<V>(&mut self, place: Place<T, V>)
        requires { (place.stake ≡ []) × (self.old.at ≡ next_to T.row place.at) × (length self.old.values < self.old.total) }
        ensures { (self.new.values ≡ place.value ∷ self.old.values) × (self.new.at ≡ place.at) × (self.new.total ≡ self.old.total) }
    {
        let Place { at, marker: _ } = place;
        self.at = at;
    }
}

// SAFETY: a row owns its values and nothing else.
unsafe impl<T: Send> Send for Row<T> {}

//! The slots that the publisher finds free, before it publishes.
ghost use Rattle.std.specs.Prelude.{◌≡◌, ◌<◌, ◌≤◌, [], ◌∷◌, MatchBool};
ghost use Rattle.cell_core.specs.Words.{slots};
ghost use Rattle.cell_core.specs.declared.words.Publisher.TheVariants.{Probing};
ghost use Rattle.counted_handles.specs.declared.view.Publishing.{Publishing};
ghost use Rattle.counted_handles.specs.declared.view.View.TheVariants.{Publishes};
ghost use Rattle.counted_handles.specs.Calls.{Fits, IsProbing, CanPublish, HasScanned, HasFound};
ghost use Rattle.counted_handles.specs.Found.{found_before};
ghost use Rattle.counted_handles.specs.Tells.{beyond};

use crate::calls::{FREE, Words};
use crate::names::Names;
use crate::plays;
use crate::rule::Room;
use crate::view::View;
use atomic_table::{Badge, Seat};
use cell_core::SLOTS;
use std::marker::Model;
use std::mem;

/// How many slots one load of each found free. Contracts see the number. Only [`find_free`] gives one.
#[derive(Debug, Drop)]
pub struct FreeCount {
    count: usize,
}

impl Model for FreeCount {
    ghost use Rattle.std.specs.Prelude.{ℕ};

    ghost Value = { ℕ };

    ghost view = { λ a. a.count };
}

impl FreeCount {
    /// The number.
    pub fn number(&self) -> usize
        ensures { result ≡ self.now }
    {
        self.count
    }
}

// One load of a slot's S: whether it is free. Its place stays where it is.
fn scan<T, C: Names<T>>(words: &Words<T, C>, seat: &mut Seat<Room<T>, View<T>>, slot: usize) -> bool
    requires fits { Fits words.now.table_id × (seat.old.table_id ≡ words.now.table_id) × (seat.old.id ≡ 0) × (slot < slots) }
    requires due { (p : Publishing T) × IsProbing p slot seat.old.me }
    ensures seat { (seat.new.table_id ≡ seat.old.table_id) × (seat.new.id ≡ seat.old.id) }
    ensures scanned { (p : Publishing T) → IsProbing p slot seat.old.me → MatchBool result (seat.new.me ≡ (Publishes (record p { how = Probing (beyond slot); found = slot ∷ found_before slot p.found }), [])) (seat.new.me ≡ (Publishes (record p { how = Probing (beyond slot); found = found_before slot p.found }), [])) }
{
    words.load::<plays::Scans>(seat, slot + slot + 1) == FREE
}

// A look at each slot: how many are free.
fn scan_all<T, C: Names<T>>(words: &Words<T, C>, seat: &mut Seat<Room<T>, View<T>>) -> usize
    requires fits { Fits words.now.table_id × (seat.old.table_id ≡ words.now.table_id) × (seat.old.id ≡ 0) }
    requires due { (p : Publishing T) × IsProbing p 0 seat.old.me }
    ensures seat { (seat.new.table_id ≡ seat.old.table_id) × (seat.new.id ≡ seat.old.id) }
    ensures scanned { (p : Publishing T) → IsProbing p 0 seat.old.me → HasScanned p result seat.new.me }
    ensures most { result ≤ slots }
{
    let mut slot = 0;
    let mut count = 0;
    while slot < SLOTS {
        if scan(words, seat, slot) {
            count += 1;
        }
        slot += 1;
    }
    count
}

/// How many slots are free. Nobody but this publisher takes one, so it can publish as often, whatever else happens. It waits for nobody.
pub fn find_free<T, C: Names<T>>(words: &Words<T, C>, badge: &mut Badge<View<T>>) -> FreeCount
    requires fits { Fits words.now.table_id × (badge.old.table_id ≡ words.now.table_id) × (badge.old.id ≡ 0) }
    requires due { (p : Publishing T) × CanPublish p badge.old.views }
    ensures badge { (badge.new.table_id ≡ badge.old.table_id) × (badge.new.id ≡ badge.old.id) }
    ensures found { (p : Publishing T) → CanPublish p badge.old.views → HasFound p result badge.new.views }
    ensures most { result ≤ slots }
{
    let mut seat = mem::replace(badge, Badge::blank()).into_seat();
    let count = scan_all(words, &mut seat);
    *badge = seat.into_badge();
    FreeCount { count }
}

//! What the probes of one publication saw.
ghost use Rattle.std.specs.Prelude.{◌≡◌, ℕ, ◌+◌, ◌<◌, [], MatchBool};
ghost use Rattle.cell_core.specs.Words.{slots};
ghost use Rattle.cell_core.specs.declared.words.Publisher.TheVariants.{Probing};
ghost use Rattle.counted_handles.specs.declared.view.Publishing.{Publishing};
ghost use Rattle.counted_handles.specs.declared.view.View.TheVariants.{Publishes};
ghost use Rattle.counted_handles.specs.Calls.{Fits, IsProbing};
ghost use Rattle.counted_handles.specs.Found.{IsAbsent};
ghost use Rattle.counted_handles.specs.Tells.{IsTaken, beyond};

use crate::calls::{FREE, Words};
use crate::names::Names;
use crate::plays;
use crate::rule::Room;
use crate::view::View;
use atomic_table::Seat;
use std::marker::Model;

/// How many slots, from the first one on, the probes of one publication saw with another word than FREE. Contracts see the
/// number. Nothing but a probe counts on, so who has one with all 64 slots has made 64 probes.
#[derive(Drop)]
pub struct Probed {
    tried: usize,
}

impl Model for Probed {
    ghost Value = { ℕ };

    ghost view = { λ a. a.tried };
}

impl Probed {
    /// None is probed yet.
    pub fn none() -> Probed
        ensures { result ≡ 0 }
    {
        Probed { tried: 0 }
    }

    // One load of the next slot's S: whether the slot was free, so that the seat has its place.
    pub(crate) fn probe<T, C: Names<T>>(
        &mut self,
        words: &Words<T, C>,
        seat: &mut Seat<Room<T>, View<T>>,
    ) -> bool
        requires fits { Fits words.now.table_id × (seat.old.table_id ≡ words.now.table_id) × (seat.old.id ≡ 0) }
        requires due { (self.old < slots) × ((p : Publishing T) × IsProbing p self.old seat.old.me) }
        ensures seat { (seat.new.table_id ≡ seat.old.table_id) × (seat.new.id ≡ seat.old.id) }
        ensures seen { (p : Publishing T) → IsProbing p self.old seat.old.me → MatchBool result (IsTaken p self.old seat.new.me) ((seat.new.me ≡ (Publishes (record p { how = Probing (beyond self.old) }), [])) × IsAbsent self.old p.found) }
        ensures counted { MatchBool result (self.new ≡ self.old) (self.new ≡ self.old + 1) }
    {
        let free = words.load::<plays::Probes>(seat, self.tried + self.tried + 1) == FREE;
        if !free {
            self.tried += 1;
        }
        free
    }
}

//! What an owner's release did, by what its steps saw.
ghost use Rattle.std.specs.Prelude.{◌≡◌, ◌↔◌, ℕ, ◌<◌, [], true, MatchBool};
ghost use Rattle.cell_core.specs.Words.{slots};
ghost use Rattle.cell_core.specs.declared.words.Version.{Version};
ghost use Rattle.counted_handles.specs.declared.released.Steps.TheVariants.{Lowered, Won, Buried, Faded, Restored, Freed};
ghost use Rattle.counted_handles.specs.declared.view.Mark.{Mark};
ghost use Rattle.counted_handles.specs.declared.view.View.TheVariants.{Has, Buries, Resets, Frees, Gone};
ghost use Rattle.counted_handles.specs.Calls.{Fits, IsOut, IsEmptied};
ghost use Rattle.counted_handles.specs.Releases.{IsReleased, IsLowered, HasLost, LiesIn, IsOutlived, buried_in};

use crate::calls::{Words, bury, fade, free, lower, reset};
use crate::names::Names;
use crate::rule::Room;
use crate::view::View;
use atomic_table::Seat;
use cell_core::Version;
use raw_slots::collect;
use std::marker::Model;

/// How far a release has come, by what its steps saw.
#[derive(Clone, Copy, Debug, PartialEq, Eq)]
pub enum Steps {
    /// Its share is subtracted from S, where it found so many shares, its own among them.
    Lowered(u64),
    /// It found its own alone, so it tried to bury what lies in the slot: its exchange of S, 0 for DEAD, found this in place of 0.
    Lost(u64),
    /// It found its own alone, and the exchange found 0: the slot's place is its own, with the version that lies there.
    Won,
    /// And that version, which has this number, is taken out of there.
    Buried(u64),
    /// And its fade is made.
    Faded {
        /// The version's number.
        number: u64,
        /// The fade found this in K: its own 1, and weak owners. Where there is one, the last of them gives the slot free.
        found: u64,
    },
    /// It was the last: K is set to 1.
    Restored(u64),
    /// And the slot is free again.
    Freed(u64),
}

/// What an owner's release did. Contracts see its steps. Nothing but a release that has made all its steps makes one.
#[derive(Debug, Drop)]
pub struct Released {
    steps: Steps,
}

impl Model for Released {
    ghost use Rattle.counted_handles.specs.declared.released.Steps.{Steps};

    ghost Value = { Steps };

    ghost view = { λ a. a.steps };
}

/// A release that is under way. Contracts see its steps. Nothing but a subtraction begins one, nothing but the exchange and the stores
/// after it carry it on, and it can't be dropped, so who has begun one makes all its steps.
pub(crate) struct Releasing {
    steps: Steps,
}

impl Model for Releasing {
    ghost use Rattle.counted_handles.specs.declared.released.Steps.{Steps};

    ghost Value = { Steps };

    ghost view = { λ a. a.steps };
}

impl Released {
    /// The number of the version that the release buried: it lay in the owner's slot. None where the owner is gone and its version
    /// isn't: another owns it, or it is the last, or another call buries it.
    pub fn buried(&self) -> Option<u64>
        ensures { result ≡ buried_in self.now }
    {
        match self.steps {
            Steps::Lowered(_) | Steps::Lost(_) | Steps::Won => None,
            Steps::Buried(number)
            | Steps::Faded { number, .. }
            | Steps::Restored(number)
            | Steps::Freed(number) => Some(number),
        }
    }
}

impl Releasing {
    // The share goes back.
    pub(crate) fn lower<T, C: Names<T>>(
        words: &Words<T, C>,
        seat: &mut Seat<Room<T>, View<T>>,
        slot: usize,
    ) -> Releasing
        requires fits { Fits words.now.table_id × (seat.old.table_id ≡ words.now.table_id) }
        requires has { (mark : Mark T) × (seat.old.me ≡ (Has mark, [])) × (mark.slot ≡ slot) × (slot < slots) }
        ensures seat { (seat.new.table_id ≡ seat.old.table_id) × (seat.new.id ≡ seat.old.id) }
        ensures lowered { (mark : Mark T) → seat.old.me ≡ (Has mark, []) → IsLowered mark result seat.new.me }
    {
        let found = lower(words, seat, slot);
        Releasing {
            steps: Steps::Lowered(found),
        }
    }

    // Whether a bury is to be tried.
    pub(crate) fn is_due(&self) -> bool
        ensures { result ≡ true ↔ self.now ≡ Lowered 1 }
    {
        self.steps == Steps::Lowered(1)
    }

    // A bury: whether it won. Then the seat has the slot's place, with the version that lies there.
    pub(crate) fn bury<T, C: Names<T>>(
        &mut self,
        words: &Words<T, C>,
        seat: &mut Seat<Room<T>, View<T>>,
        slot: usize,
    ) -> bool
        requires fits { Fits words.now.table_id × (seat.old.table_id ≡ words.now.table_id) }
        requires due { (self.old ≡ Lowered 1) × (seat.old.me ≡ (Buries slot words.now.table_id.views_name, [])) × (slot < slots) }
        ensures seat { (seat.new.table_id ≡ seat.old.table_id) × (seat.new.id ≡ seat.old.id) }
        ensures tried { MatchBool result ((self.new ≡ Won) × IsOut C.begins C.follows slot seat.new.me) (HasLost self.new seat.new.me) }
    {
        let found = bury(words, seat, slot);
        if found != 0 {
            self.steps = Steps::Lost(found);
            return false;
        }
        collect(words, seat, slot);
        self.steps = Steps::Won;
        true
    }

    // The version that lies in the seat's place is taken out, and dropped.
    pub(crate) fn empty<T: Drop, C: Names<T>>(
        &mut self,
        words: &Words<T, C>,
        seat: &mut Seat<Room<T>, View<T>>,
        slot: usize,
    )
        requires won { (self.old ≡ Won) × (seat.old.table_id ≡ words.now.table_id) × IsOut C.begins C.follows slot seat.old.me }
        ensures seat { (seat.new.table_id ≡ seat.old.table_id) × (seat.new.id ≡ seat.old.id) }
        ensures number { (version : Version T) → LiesIn slot version seat.old.me → self.new ≡ Buried version.number }
        ensures emptied { IsEmptied slot seat.new.me }
    {
        match seat.slot_mut(words, slot).replace(None) {
            Some(version) => self.steps = Steps::Buried(version.number),
            None => unreachable!(),
        }
    }

    // Who buried the version gives the slot's place back, and stands for nobody in K: whether nobody else does.
    pub(crate) fn fade<T, C: Names<T>>(
        &mut self,
        words: &Words<T, C>,
        seat: &mut Seat<Room<T>, View<T>>,
        slot: usize,
    ) -> bool
        requires fits { Fits words.now.table_id × (seat.old.table_id ≡ words.now.table_id) × (slot < slots) }
        requires buried { (number : ℕ) × (self.old ≡ Buried number) × IsEmptied slot seat.old.me }
        ensures seat { (seat.new.table_id ≡ seat.old.table_id) × (seat.new.id ≡ seat.old.id) }
        ensures faded { (number : ℕ) → self.old ≡ Buried number → MatchBool result ((self.new ≡ Faded number 1) × (seat.new.me ≡ (Resets slot, []))) (IsOutlived number self.new) }
    {
        let found = fade(words, seat, slot);
        match self.steps {
            Steps::Buried(number) => self.steps = Steps::Faded { number, found },
            _ => unreachable!(),
        }
        found == 1
    }

    // K is 1 again.
    pub(crate) fn reset<T, C: Names<T>>(
        &mut self,
        words: &Words<T, C>,
        seat: &mut Seat<Room<T>, View<T>>,
        slot: usize,
    )
        requires fits { Fits words.now.table_id × (seat.old.table_id ≡ words.now.table_id) × (slot < slots) }
        requires faded { (number : ℕ) × (self.old ≡ Faded number 1) × (seat.old.me ≡ (Resets slot, [])) }
        ensures seat { (seat.new.table_id ≡ seat.old.table_id) × (seat.new.id ≡ seat.old.id) × (seat.new.me ≡ (Frees slot, [])) }
        ensures restored { (number : ℕ) → self.old ≡ Faded number 1 → self.new ≡ Restored number }
    {
        reset(words, seat, slot);
        match self.steps {
            Steps::Faded { number, .. } => self.steps = Steps::Restored(number),
            _ => unreachable!(),
        }
    }

    // The slot is free again.
    pub(crate) fn free<T, C: Names<T>>(
        &mut self,
        words: &Words<T, C>,
        seat: &mut Seat<Room<T>, View<T>>,
        slot: usize,
    )
        requires fits { Fits words.now.table_id × (seat.old.table_id ≡ words.now.table_id) × (slot < slots) }
        requires restored { (number : ℕ) × (self.old ≡ Restored number) × (seat.old.me ≡ (Frees slot, [])) }
        ensures seat { (seat.new.table_id ≡ seat.old.table_id) × (seat.new.id ≡ seat.old.id) × (seat.new.me ≡ (Gone, [])) }
        ensures freed { (number : ℕ) → self.old ≡ Restored number → self.new ≡ Freed number }
    {
        free(words, seat, slot);
        match self.steps {
            Steps::Restored(number) => self.steps = Steps::Freed(number),
            _ => unreachable!(),
        }
    }

    // All steps are made.
    pub(crate) fn end<T, C: Names<T>>(self) -> Released
        requires { IsReleased C.begins C.follows self }
        ensures { IsReleased C.begins C.follows result }
    {
        let Releasing { steps } = self;
        Released { steps }
    }
}

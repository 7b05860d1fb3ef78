//! What a weak owner's release did, by what its steps saw.
ghost use Rattle.std.specs.Prelude.{◌≡◌, ◌↔◌, ◌<◌, [], ◌∷◌, true};
ghost use Rattle.cell_core.specs.Words.{slots};
ghost use Rattle.counted_handles.specs.declared.lapsed.Lapse.TheVariants.{Faded, Restored, Freed};
ghost use Rattle.counted_handles.specs.declared.view.Tie.{Tie};
ghost use Rattle.counted_handles.specs.declared.view.View.TheVariants.{HasWeakly, Resets, Frees, Gone};
ghost use Rattle.counted_handles.specs.Calls.{Fits};
ghost use Rattle.counted_handles.specs.Lapses.{IsLapsed, HasFaded};

use crate::calls::{Words, free, reset};
use crate::names::Names;
use crate::plays;
use crate::rule::Room;
use crate::view::View;
use atomic_table::{Badge, Seat};
use std::marker::Model;
use std::mem;

/// How far a weak owner's release has come, by what its steps saw.
#[derive(Clone, Copy, Debug, PartialEq, Eq)]
pub enum Lapse {
    /// It counts in K no more, where it found this.
    Faded(u64),
    /// It was the last that could know the version: K is set to 1.
    Restored,
    /// And the slot is free again.
    Freed,
}

/// What a weak owner's release did. Contracts see its steps. Nothing but a release that has made all its steps makes one.
#[derive(Debug, Drop)]
pub struct Lapsed {
    steps: Lapse,
}

impl Model for Lapsed {
    ghost use Rattle.counted_handles.specs.declared.lapsed.Lapse.{Lapse};

    ghost Value = { Lapse };

    ghost view = { λ a. a.steps };
}

/// A weak owner's release that is under way. Contracts see its steps. Nothing but a subtraction begins one, nothing but the two stores
/// after it carry it on, and it can't be dropped, so who has begun one makes all its steps.
struct Lapsing {
    steps: Lapse,
}

impl Model for Lapsing {
    ghost use Rattle.counted_handles.specs.declared.lapsed.Lapse.{Lapse};

    ghost Value = { Lapse };

    ghost view = { λ a. a.steps };
}

/// The token of a weak owner. It can't be dropped: who has one gives it to a release.
pub(crate) struct WeakToken<T> {
    badge: Badge<View<T>>,
}

impl<T> WeakToken<T> {
    // The token that a seat is made into.
    pub(crate) fn of(seat: Seat<Room<T>, View<T>>) -> WeakToken<T>
        requires { seat.me.1 ≡ [] }
        ensures { (result.badge.table_id ≡ seat.table_id) × (result.badge.views ≡ seat.me.0 ∷ []) }
    {
        WeakToken {
            badge: seat.into_badge(),
        }
    }

    // The seat, which goes back at the end of a call.
    pub(crate) fn lend(&mut self) -> Seat<Room<T>, View<T>>
        requires { (view : View T) × (self.old.badge.views ≡ view ∷ []) }
        ensures { (result.table_id ≡ self.old.badge.table_id) × (self.old.badge.views ≡ result.me.0 ∷ []) × (result.me.1 ≡ []) }
    {
        mem::replace(&mut self.badge, Badge::blank()).into_seat()
    }

    // The seat is back.
    pub(crate) fn keep(&mut self, seat: Seat<Room<T>, View<T>>)
        requires { seat.me.1 ≡ [] }
        ensures { (self.new.badge.table_id ≡ seat.table_id) × (self.new.badge.views ≡ seat.me.0 ∷ []) }
    {
        self.badge = seat.into_badge();
    }
}

impl Lapsed {
    /// Whether the release made the slot free: nobody else could know the version.
    pub fn freed(&self) -> bool
        ensures { result ≡ true ↔ self.now ≡ Freed }
    {
        self.steps == Lapse::Freed
    }

    // All steps of a weak owner's release.
    pub(crate) fn of<T, C: Names<T>>(
        words: &Words<T, C>,
        token: WeakToken<T>,
        slot: usize,
    ) -> Lapsed
        requires fits { Fits words.now.table_id × (token.badge.table_id ≡ words.now.table_id) × (slot < slots) }
        requires has { (tie : Tie T) × (token.badge.views ≡ HasWeakly tie ∷ []) × (tie.slot ≡ slot) }
        ensures { IsLapsed result }
    {
        let WeakToken { badge } = token;
        let mut seat = badge.into_seat();
        let mut lapsing = Lapsing::fade(words, &mut seat, slot);
        if !lapsing.is_last() {
            return lapsing.end();
        }
        lapsing.make_free(words, &mut seat, slot);
        lapsing.end()
    }
}

impl Lapsing {
    // The weak owner is one no more.
    fn fade<T, C: Names<T>>(
        words: &Words<T, C>,
        seat: &mut Seat<Room<T>, View<T>>,
        slot: usize,
    ) -> Lapsing
        requires fits { Fits words.now.table_id × (seat.old.table_id ≡ words.now.table_id) × (slot < slots) }
        requires has { (tie : Tie T) × (seat.old.me ≡ (HasWeakly tie, [])) × (tie.slot ≡ slot) }
        ensures seat { (seat.new.table_id ≡ seat.old.table_id) × (seat.new.id ≡ seat.old.id) }
        ensures faded { HasFaded slot result seat.new.me }
    {
        let found = words.fetch_sub::<plays::Fades>(seat, slot + slot + 2, 1);
        Lapsing {
            steps: Lapse::Faded(found),
        }
    }

    // Whether nobody else can know the version.
    fn is_last(&self) -> bool
        ensures { result ≡ true ↔ self.now ≡ Faded 1 }
    {
        self.steps == Lapse::Faded(1)
    }

    // K is 1 again, and the slot is free.
    fn make_free<T, C: Names<T>>(
        &mut self,
        words: &Words<T, C>,
        seat: &mut Seat<Room<T>, View<T>>,
        slot: usize,
    )
        requires fits { Fits words.now.table_id × (seat.old.table_id ≡ words.now.table_id) × (slot < slots) }
        requires last { (self.old ≡ Faded 1) × (seat.old.me ≡ (Resets slot, [])) }
        ensures seat { (seat.new.table_id ≡ seat.old.table_id) × (seat.new.id ≡ seat.old.id) × (seat.new.me ≡ (Gone, [])) }
        ensures freed { self.new ≡ Freed }
    {
        reset(words, seat, slot);
        self.steps = Lapse::Restored;
        free(words, seat, slot);
        self.steps = Lapse::Freed;
    }

    // All steps are made.
    fn end(self) -> Lapsed
        requires { IsLapsed self }
        ensures { IsLapsed result }
    {
        let Lapsing { steps } = self;
        Lapsed { steps }
    }
}

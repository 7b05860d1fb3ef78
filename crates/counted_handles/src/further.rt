//! Further owners of an owner's version, weak or strong, and whether it is there still.
ghost use Rattle.std.specs.Prelude.{◌≡◌, ◌+◌, ◌<◌, [], ◌∷◌, Contains, None};
ghost use Rattle.cell_core.specs.Words.{slots, notes};
ghost use Rattle.counted_handles.specs.declared.view.Mark.{Mark};
ghost use Rattle.counted_handles.specs.declared.view.Publishing.{Publishing};
ghost use Rattle.counted_handles.specs.declared.view.Reading.{Reading};
ghost use Rattle.counted_handles.specs.declared.view.View.TheVariants.{Publishes, Reads, Has};
ghost use Rattle.counted_handles.specs.Calls.{AreSpots, CanRead, CanMeet, CanNote, with_grant_less, with_note};
ghost use Rattle.counted_handles.specs.Owned.{IsHeld};

use crate::calls::{Words, hold};
use crate::guests::{clone_share, find, note};
use crate::names::Names;
use crate::owner::{Strong, own, stand};
use crate::rule::{Room, Spots};
use crate::view::View;
use crate::weak::{Weak, keep_weak};
use atomic_table::{Badge, Seat};
use cell_core::Version;
use raw_slots::Held;
use std::mem;

// The owner's claim, for the seat of its share.
fn sit<T: Drop, C: Names<T>>(
    words: &Words<T, C>,
    spots: &Spots<T>,
    held: &mut Option<Held<Option<Version<T>>, View<T>>>,
    seat: Seat<Room<T>, View<T>>,
    slot: usize,
)
    requires spots { AreSpots words.now.table_id words.now.key spots.now }
    requires fits { seat.table_id ≡ words.now.table_id }
    requires has { (mark : Mark T) × (seat.me ≡ (Has mark, [])) × (mark.slot ≡ slot) × (mark.name ≡ words.now.table_id.views_name) × (slot < slots) }
    requires none { held.old ≡ None }
    ensures { (mark : Mark T) → seat.me ≡ (Has mark, []) → IsHeld mark held.new }
{
    let claim = hold(words, spots, seat, slot);
    match mem::replace(held, Some(claim)) {
        None => {}
        Some(_) => unreachable!(),
    }
}

impl<'a, T: Drop, C: Names<T>> Strong<'a, T, C> {
    /// Another owner of the version, for a grant of the reader. It waits for nobody.
    pub fn clone_strong(&mut self, reader: &mut Badge<View<T>>) -> Strong<'a, T, C>
        requires fits { reader.old.table_id ≡ self.old.table }
        requires can { (r : Reading T) × CanRead r reader.old.views }
        ensures same { self.new ≡ self.old }
        ensures owner { result ≡ self.old }
        ensures reader { (reader.new.table_id ≡ reader.old.table_id) × (reader.new.id ≡ reader.old.id) }
        ensures grant { (r : Reading T) → CanRead r reader.old.views → reader.new.views ≡ Reads (with_grant_less r) ∷ [] }
    {
        let owner = stand(self.words, mem::replace(&mut self.held, None), self.slot);
        let mut seat = mem::replace(reader, Badge::blank()).into_seat();
        let (share, owner) = clone_share(self.words, &mut seat, owner, self.slot);
        *reader = seat.into_badge();
        sit(self.words, self.spots, &mut self.held, owner, self.slot);
        own(self.words, self.spots, share, self.slot)
    }

    /// Looks whether the version is there still, and it is: it isn't one of those that the reader has seen buried. It costs no grant
    /// and waits for nobody.
    pub fn alive(&mut self, reader: &mut Badge<View<T>>)
        requires fits { reader.old.table_id ≡ self.old.table }
        requires can { (r : Reading T) × CanMeet r reader.old.views }
        ensures same { self.new ≡ self.old }
        ensures reader { (reader.new.table_id ≡ reader.old.table_id) × (reader.new.id ≡ reader.old.id) × (reader.new.views ≡ reader.old.views) }
        ensures alive { (r : Reading T) → CanMeet r reader.old.views → Contains r.gone self.old.version.number → ⊥ }
    {
        let owner = stand(self.words, mem::replace(&mut self.held, None), self.slot);
        let mut seat = mem::replace(reader, Badge::blank()).into_seat();
        let owner = find(self.words, &mut seat, owner, self.slot);
        *reader = seat.into_badge();
        sit(self.words, self.spots, &mut self.held, owner, self.slot);
    }

    /// A weak owner of the version, which the publisher counts. It waits for nobody.
    pub fn downgrade(&mut self, publisher: &mut Badge<View<T>>) -> Weak<'a, T, C>
        requires fits { (publisher.old.table_id ≡ self.old.table) × (publisher.old.id ≡ 0) }
        requires can { (p : Publishing T) × CanNote p publisher.old.views }
        ensures same { self.new ≡ self.old }
        ensures weak { result ≡ self.old }
        ensures publisher { (publisher.new.table_id ≡ publisher.old.table_id) × (publisher.new.id ≡ publisher.old.id) }
        ensures noted { (p : Publishing T) → CanNote p publisher.old.views → publisher.new.views ≡ Publishes (with_note p) ∷ [] }
    {
        let owner = stand(self.words, mem::replace(&mut self.held, None), self.slot);
        let mut seat = mem::replace(publisher, Badge::blank()).into_seat();
        let (owner, weak) = note(self.words, &mut seat, owner, self.slot);
        *publisher = seat.into_badge();
        sit(self.words, self.spots, &mut self.held, owner, self.slot);
        keep_weak(self.words, self.spots, weak, self.slot, self.version())
    }
}

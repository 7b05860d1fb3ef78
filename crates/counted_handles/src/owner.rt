//! Owners of versions.
ghost use Rattle.std.specs.Prelude.{◌≡◌, ◌<◌, [], Some};
ghost use Rattle.cell_core.specs.Words.{slots};
ghost use Rattle.counted_handles.specs.declared.view.Mark.{Mark};
ghost use Rattle.cell_core.specs.declared.words.Version.{Version};
ghost use Rattle.counted_handles.specs.declared.view.Reading.{Reading};
ghost use Rattle.counted_handles.specs.declared.view.View.TheVariants.{Has};
ghost use Rattle.counted_handles.specs.Calls.{Fits, AreSpots, CanRead, IsOwned};
ghost use Rattle.counted_handles.specs.Owned.{IsHeld};
ghost use Rattle.counted_handles.specs.Releases.{IsReleased};
ghost use Rattle.counted_handles.specs.Ruled.{stake_of, version_of};

use crate::calls::{Words, give_up, hold, load_last};
use crate::names::Names;
use crate::released::{Released, Releasing};
use crate::rule::{Room, Spots};
use crate::view::View;
use atomic_table::{Badge, Seat};
use cell_core::Version;
use raw_slots::Held;
use std::marker::Model;
use std::snapshot::Snapshot;

/// An owner of a version, which stays as it is until its last owner is gone. Contracts see the version, and the table of its cell.
pub struct Strong<'a, T: Drop, C: Names<T>> {
    pub(crate) words: &'a Words<T, C>,
    pub(crate) spots: &'a Spots<T>,
    pub(crate) held: Option<Held<Option<Version<T>>, View<T>>>,
    pub(crate) slot: usize,
    version: Snapshot<Version<T>>,
}

impl<'a, T: Drop, C: Names<T>> Model for Strong<'a, T, C> {
    ghost use Rattle.counted_handles.specs.Owned.{Owned, owned_coded, IsOwner};

    ghost Value = { Owned T };

    ghost coded = { owned_coded T.code };

    ghost view = { λ a. record { version = a.version.value; table = a.words.now.table_id } };

    ghost invariant = { λ a. IsOwner a.words.now.table_id a.words.now.key a.spots.now a.held a.slot a.version.value };
}

// The claim goes back: the seat of the share.
pub(crate) fn stand<T: Drop, C: Names<T>>(
    words: &Words<T, C>,
    held: Option<Held<Option<Version<T>>, View<T>>>,
    slot: usize,
) -> Seat<Room<T>, View<T>>
    requires fits { Fits words.now.table_id × (slot < slots) }
    requires has { (mark : Mark T) × IsHeld mark held × (mark.slot ≡ slot) × (mark.name ≡ words.now.table_id.views_name) }
    ensures table { result.table_id ≡ words.now.table_id }
    ensures has { (mark : Mark T) → IsHeld mark held → result.me ≡ (Has mark, []) }
{
    match held {
        Some(held) => give_up(words, held, slot),
        None => unreachable!(),
    }
}

// All steps of a release, by what each saw. The value of the version that it buries is dropped before its slot is free.
fn let_go<T: Drop, C: Names<T>>(
    words: &Words<T, C>,
    held: Option<Held<Option<Version<T>>, View<T>>>,
    slot: usize,
) -> Released
    requires fits { Fits words.now.table_id × (slot < slots) }
    requires has { (mark : Mark T) × IsHeld mark held × (mark.slot ≡ slot) × (mark.name ≡ words.now.table_id.views_name) }
    ensures { IsReleased C.begins C.follows result }
{
    let mut seat = stand(words, held, slot);
    let mut releasing = Releasing::lower(words, &mut seat, slot);
    if !releasing.is_due() {
        return releasing.end::<T, C>();
    }
    if !releasing.bury(words, &mut seat, slot) {
        return releasing.end::<T, C>();
    }
    releasing.empty(words, &mut seat, slot);
    if !releasing.fade(words, &mut seat, slot) {
        return releasing.end::<T, C>();
    }
    releasing.reset(words, &mut seat, slot);
    releasing.free(words, &mut seat, slot);
    releasing.end::<T, C>()
}

// The version that is claimed.
fn claimed<T>(held: &Held<Option<Version<T>>, View<T>>) -> &Version<T>
    requires { (version : Version T) × (held.now.value ≡ Some version) }
    ensures { held.now.value ≡ Some result.now }
{
    match held.get() {
        Some(version) => version,
        None => unreachable!(),
    }
}

// The owner of a version that is held, for a share of its slot.
fn keep<'a, T: Drop, C: Names<T>>(
    words: &'a Words<T, C>,
    spots: &'a Spots<T>,
    held: Held<Option<Version<T>>, View<T>>,
    slot: usize,
) -> Strong<'a, T, C>
    requires spots { AreSpots words.now.table_id words.now.key spots.now }
    requires has { (mark : Mark T) × (held.stake ≡ stake_of mark) × (held.value ≡ Some (version_of mark)) × (mark.slot ≡ slot) × (mark.name ≡ words.now.table_id.views_name) × (slot < slots) }
    ensures { (version : Version T) → held.value ≡ Some version → result ≡ record { version = version; table = words.now.table_id } }
{
    let version = Snapshot::of(claimed(&held));
    Strong {
        words,
        spots,
        held: Some(held),
        slot,
        version,
    }
}

// The owner of the version that a share is of.
pub(crate) fn own<'a, T: Drop, C: Names<T>>(
    words: &'a Words<T, C>,
    spots: &'a Spots<T>,
    share: Seat<Room<T>, View<T>>,
    slot: usize,
) -> Strong<'a, T, C>
    requires spots { AreSpots words.now.table_id words.now.key spots.now }
    requires fits { share.table_id ≡ words.now.table_id }
    requires has { (mark : Mark T) × (share.me ≡ (Has mark, [])) × (mark.slot ≡ slot) × (mark.name ≡ words.now.table_id.views_name) × (slot < slots) }
    ensures { (mark : Mark T) → share.me ≡ (Has mark, []) → result ≡ record { version = version_of mark; table = words.now.table_id } }
{
    let held = hold(words, spots, share, slot);
    keep(words, spots, held, slot)
}

/// An owner of the version published last, by one addition to W. The reader has then seen all that is published, and has one
/// grant less.
pub fn load<'a, T: Drop, C: Names<T>>(
    words: &'a Words<T, C>,
    spots: &'a Spots<T>,
    badge: &mut Badge<View<T>>,
) -> Strong<'a, T, C>
    requires spots { AreSpots words.now.table_id words.now.key spots.now }
    requires fits { badge.old.table_id ≡ words.now.table_id }
    requires can { (reading : Reading T) × CanRead reading badge.old.views × (reading.name ≡ words.now.table_id.views_name) }
    ensures badge { (badge.new.table_id ≡ badge.old.table_id) × (badge.new.id ≡ badge.old.id) }
    ensures table { result.table ≡ words.now.table_id }
    ensures loaded { (reading : Reading T) → CanRead reading badge.old.views → IsOwned C.begins C.follows reading badge.new.views result.version }
{
    let (held, slot) = load_last(words, spots, badge);
    keep(words, spots, held, slot)
}

impl<'a, T: Drop, C: Names<T>> Strong<'a, T, C> {
    /// The version's number.
    pub fn number(&self) -> u64
        ensures { result ≡ self.now.version.number }
    {
        self.version().number
    }

    // The version.
    pub(crate) fn version(&self) -> &Version<T>
        ensures { result.now ≡ self.now.version }
    {
        match &self.held {
            Some(held) => claimed(held),
            None => unreachable!(),
        }
    }

    /// The version's value.
    pub fn get(&self) -> &T
        ensures { result.now ≡ self.now.version.value }
    {
        &self.version().value
    }

    /// Gives the owner up, and tells what its steps saw: it subtracts its share from S, tries to bury what lies in its slot exactly
    /// where it was the last to do so, and makes the slot free where it has buried and no weak owner is left. It waits for nobody.
    pub fn release(self) -> Released
        ensures { IsReleased C.begins C.follows result }
    {
        let Strong {
            words,
            spots: _,
            held,
            slot,
            version: _,
        } = self;
        let_go(words, held, slot)
    }
}

impl<'a, T: Drop, C: Names<T>> Drop for Strong<'a, T, C> {
    fn drop(self) {
        let Strong {
            words,
            spots: _,
            held,
            slot,
            version: _,
        } = self;
        let_go(words, held, slot);
    }
}

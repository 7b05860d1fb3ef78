//! Weak owners of versions.
ghost use Rattle.std.specs.Prelude.{◌≡◌, ◌+◌, ◌<◌, [], ◌∷◌, IfOk, IfErr};
ghost use Rattle.cell_core.specs.Words.{slots, notes};
ghost use Rattle.cell_core.specs.declared.words.Version.{Version};
ghost use Rattle.counted_handles.specs.declared.view.Publishing.{Publishing};
ghost use Rattle.counted_handles.specs.declared.view.Reading.{Reading};
ghost use Rattle.counted_handles.specs.declared.view.Tie.{Tie};
ghost use Rattle.counted_handles.specs.declared.view.View.TheVariants.{Reads, HasWeakly};
ghost use Rattle.counted_handles.specs.Calls.{AreSpots, CanRead, IsAtRest, IsNewestNoted, with_grant_less, sunk_by};
ghost use Rattle.counted_handles.specs.Lapses.{IsLapsed};
ghost use Rattle.counted_handles.specs.Owned.{tied_version};

use crate::calls::{SPAN, Words, draw_newest};
use crate::guests::{lift, note};
use crate::lapsed::{Lapsed, WeakToken};
use crate::names::Names;
use crate::owner::{Strong, own};
use crate::rule::{Room, Spots};
use crate::view::View;
use atomic_table::{Badge, Seat};
use cell_core::Version;
use std::marker::Model;
use std::mem;
use std::snapshot::Snapshot;

/// A weak owner of a version: it lets its version go, and can tell later whether it has gone. While it is there its slot isn't used
/// again. Contracts see the version, and the table of its cell.
pub struct Weak<'a, T: Drop, C: Names<T>> {
    words: &'a Words<T, C>,
    spots: &'a Spots<T>,
    token: WeakToken<T>,
    number: u64,
    slot: usize,
    version: Snapshot<Version<T>>,
}

impl<'a, T: Drop, C: Names<T>> Model for Weak<'a, T, C> {
    ghost use Rattle.counted_handles.specs.Owned.{Owned, owned_coded, IsWeak};

    ghost Value = { Owned T };

    ghost coded = { owned_coded T.code };

    ghost view = { λ a. record { version = a.version.value; table = a.words.now.table_id } };

    ghost invariant = { λ a. IsWeak a.words.now.table_id a.words.now.key a.spots.now a.token.badge.table_id a.token.badge.views a.number a.slot a.version.value };
}

/// An upgrade gave no owner: the version is buried.
#[derive(Clone, Copy, Debug, PartialEq, Eq)]
pub struct Sunk {
    /// Whether a grant was spent on a raise, which came too late.
    pub raised: bool,
}

// The weak owner that a seat is of.
pub(crate) fn keep_weak<'a, T: Drop, C: Names<T>>(
    words: &'a Words<T, C>,
    spots: &'a Spots<T>,
    seat: Seat<Room<T>, View<T>>,
    slot: usize,
    version: &Version<T>,
) -> Weak<'a, T, C>
    requires spots { AreSpots words.now.table_id words.now.key spots.now }
    requires fits { (seat.table_id ≡ words.now.table_id) × (slot < slots) }
    requires has { (tie : Tie T) × (seat.me ≡ (HasWeakly tie, [])) × (tie.slot ≡ slot) × (tie.name ≡ words.now.table_id.views_name) × (tied_version tie ≡ version.now) }
    ensures { result ≡ record { version = version.now; table = words.now.table_id } }
{
    let number = version.number;
    let version = Snapshot::of(version);
    Weak {
        words,
        spots,
        token: WeakToken::of(seat),
        number,
        slot,
        version,
    }
}

/// An owner and a weak owner of the version that its publisher published last, for a grant of the reader, which has then seen all
/// that is published. It waits for nobody.
pub fn newest_with_weak<'a, T: Drop, C: Names<T>>(
    words: &'a Words<T, C>,
    spots: &'a Spots<T>,
    badge: &mut Badge<View<T>>,
    reader: &mut Badge<View<T>>,
) -> (Strong<'a, T, C>, Weak<'a, T, C>)
    requires spots { AreSpots words.now.table_id words.now.key spots.now }
    requires fits { (badge.old.table_id ≡ words.now.table_id) × (badge.old.id ≡ 0) × (reader.old.table_id ≡ words.now.table_id) }
    requires can { (p : Publishing T) × (r : Reading T) × IsAtRest p badge.old.views × CanRead r reader.old.views × (p.name ≡ words.now.table_id.views_name) × (p.noted < notes) }
    ensures badges { (badge.new.table_id ≡ badge.old.table_id) × (badge.new.id ≡ badge.old.id) × (reader.new.table_id ≡ words.now.table_id) }
    ensures newest { (p : Publishing T) (r : Reading T) → IsAtRest p badge.old.views → CanRead r reader.old.views → IsNewestNoted p r badge.new.views reader.new.views result.0.version }
    ensures table { result.0.table ≡ words.now.table_id }
    ensures weak { result.1 ≡ result.0 }
{
    let mut seat = mem::replace(badge, Badge::blank()).into_seat();
    let guest = mem::replace(reader, Badge::blank()).into_seat();
    let (found, share, rest) = draw_newest(words, &mut seat, guest);
    let slot = (found / SPAN) as usize;
    let (owner, weak) = note(words, &mut seat, share, slot);
    *badge = seat.into_badge();
    *reader = rest.into_badge();
    let strong = own(words, spots, owner, slot);
    let weak = keep_weak(words, spots, weak, slot, strong.version());
    (strong, weak)
}

impl<'a, T: Drop, C: Names<T>> Weak<'a, T, C> {
    /// The version's number.
    pub fn number(&self) -> u64
        ensures { result ≡ self.now.version.number }
    {
        self.number
    }

    /// An owner of the very version, for a grant of the reader; or none, and then the version is buried, which the reader has then
    /// seen. It looks first, so that a version that went long ago costs no grant. It waits for nobody.
    pub fn upgrade(&mut self, reader: &mut Badge<View<T>>) -> Result<Strong<'a, T, C>, Sunk>
        requires fits { reader.old.table_id ≡ self.old.table }
        requires can { (r : Reading T) × CanRead r reader.old.views }
        ensures same { self.new ≡ self.old }
        ensures reader { (reader.new.table_id ≡ reader.old.table_id) × (reader.new.id ≡ reader.old.id) }
        ensures owner { IfOk result (λ strong. (strong ≡ self.old) × ((r : Reading T) → CanRead r reader.old.views → reader.new.views ≡ Reads (with_grant_less r) ∷ [])) }
        ensures buried { IfErr result (λ sunk. (r : Reading T) → CanRead r reader.old.views → reader.new.views ≡ Reads (sunk_by r self.old.version.number sunk.raised) ∷ []) }
    {
        let weak = self.token.lend();
        let mut seat = mem::replace(reader, Badge::blank()).into_seat();
        let (share, weak) = lift(self.words, &mut seat, weak, self.slot);
        *reader = seat.into_badge();
        self.token.keep(weak);
        match share {
            Ok(share) => Ok(own(self.words, self.spots, share, self.slot)),
            Err(raised) => Err(Sunk { raised }),
        }
    }

    /// Gives the weak owner up, and tells what its steps saw: it subtracts itself from K, and where it was the last that could know
    /// the version makes the slot free. It waits for nobody.
    pub fn release(self) -> Lapsed
        ensures { IsLapsed result }
    {
        let Weak {
            words,
            spots: _,
            token,
            number: _,
            slot,
            version: _,
        } = self;
        Lapsed::of(words, token, slot)
    }
}

impl<'a, T: Drop, C: Names<T>> Drop for Weak<'a, T, C> {
    fn drop(self) {
        let Weak {
            words,
            spots: _,
            token,
            number: _,
            slot,
            version: _,
        } = self;
        Lapsed::of(words, token, slot);
    }
}

//! The steps as calls, over the table alone.
ghost use Rattle.std.specs.Prelude.{◌≡◌, ℕ, ◌+◌, ◌<◌, ◌≤◌, List, [], ◌∷◌, ◌++◌, None, Some, MatchBool, MatchOption, IfSome, length};
ghost use Rattle.cell_core.specs.Words.{slots};
ghost use Rattle.cell_core.specs.declared.words.Publisher.TheVariants.{Preparing, Swapping, Settling};
ghost use Rattle.counted_handles.specs.declared.view.Mark.{Mark};
ghost use Rattle.counted_handles.specs.declared.view.Publishing.{Publishing};
ghost use Rattle.counted_handles.specs.declared.view.View.TheVariants.{Begin, Publishes, Has, Buries, Fades, Resets, Frees, Gone};
ghost use Rattle.counted_handles.specs.Ruled.{RoomSpot, stake_of, mark_of, version_of};
ghost use Rattle.counted_handles.specs.Shown.{Room};
ghost use Rattle.counted_handles.specs.Tells.{IsTaken, Released, Tried, Faded, IsSettled, Swapped, Prepared, Looked, IsOpened, Offered};
ghost use Rattle.counted_handles.specs.declared.view.Reading.{Reading};
ghost use Rattle.counted_handles.specs.Calls.{CanRead, Fits, AreSpots, Drawn, IsProbing, IsReady, IsSwapping, IsSettling, IsSwappedIn, IsIdle, IsGuest, IsWhole, IsNewest, IsGreeted, IsOffering, IsLoaded, HasNone};

use crate::names::Names;
use crate::plays;
use crate::plays::{Loads, Shares};
use crate::probed::Probed;
use crate::rule::{Room, Rule, Spots};
use crate::view::View;
use atomic_table::{Badge, Seat, Shared};
use cell_core::{SLOTS, Version};
use raw_slots::{Held, Spot, claim, unclaim};
use std::mem;

/// S of a slot whose version is buried.
pub(crate) const DEAD: u64 = 1 << 63;

/// S of a slot that is free.
pub(crate) const FREE: u64 = (1 << 63) - 1;

/// The shares of a version that is about to be published.
pub(crate) const BULK: u64 = 1 << 62;

/// What a slot's number counts for in W.
pub(crate) const SPAN: u64 = 1 << 48;

/// The table of a cell.
pub type Words<T, C> = Shared<Room<T>, View<T>, Spots<T>, Rule<C>>;

// A load: W as it was, and the seat of the share. The reader keeps its own seat, with one grant less.
fn draw<T, C: Names<T>>(
    words: &Words<T, C>,
    badge: &mut Badge<View<T>>,
) -> (u64, Seat<Room<T>, View<T>>)
    requires fits { Fits words.now.table_id × (badge.old.table_id ≡ words.now.table_id) }
    requires can { (reading : Reading T) × CanRead reading badge.old.views }
    ensures seats { (badge.new.table_id ≡ badge.old.table_id) × (badge.new.id ≡ badge.old.id) × (result.1.table_id ≡ badge.old.table_id) }
    ensures drawn { (reading : Reading T) → CanRead reading badge.old.views → Drawn C.begins C.follows reading result.0 badge.new.views result.1.me }
{
    let mut seat = mem::replace(badge, Badge::blank()).into_seat();
    let found = words.fetch_add::<Loads<C>>(&mut seat, 0, 1);
    let share = words.split_seat::<Shares>(&mut seat);
    *badge = seat.into_badge();
    (found, share)
}

// A release: the share goes back. It gives S as it was.
pub(crate) fn lower<T, C: Names<T>>(
    words: &Words<T, C>,
    seat: &mut Seat<Room<T>, View<T>>,
    slot: usize,
) -> u64
    requires fits { Fits words.now.table_id × (seat.old.table_id ≡ words.now.table_id) }
    requires has { (mark : Mark T) × (seat.old.me ≡ (Has mark, [])) × (mark.slot ≡ slot) × (slot < slots) }
    ensures seat { (seat.new.table_id ≡ seat.old.table_id) × (seat.new.id ≡ seat.old.id) }
    ensures lowered { (mark : Mark T) → seat.old.me ≡ (Has mark, []) → Released mark result seat.new.me }
{
    words.fetch_sub::<plays::Releases>(seat, slot + slot + 1, 1)
}

// A bury. It gives S as it was: it has won where that is 0, and then the seat has the slot's place, with the version in it.
pub(crate) fn bury<T, C: Names<T>>(
    words: &Words<T, C>,
    seat: &mut Seat<Room<T>, View<T>>,
    slot: usize,
) -> u64
    requires fits { Fits words.now.table_id × (seat.old.table_id ≡ words.now.table_id) }
    requires due { (name : ℕ) × (seat.old.me ≡ (Buries slot name, [])) × (slot < slots) }
    ensures seat { (seat.new.table_id ≡ seat.old.table_id) × (seat.new.id ≡ seat.old.id) }
    ensures tried { (name : ℕ) → seat.old.me ≡ (Buries slot name, []) → Tried C.begins C.follows slot name result seat.new.me }
{
    words.compare_exchange::<plays::Buries<C>>(seat, slot + slot + 1, 0, DEAD)
}

// A fade: the seat gives the slot's place back, whole and empty. It gives K as it was: where that is 1 nobody else is left.
pub(crate) fn fade<T, C: Names<T>>(
    words: &Words<T, C>,
    seat: &mut Seat<Room<T>, View<T>>,
    slot: usize,
) -> u64
    requires fits { Fits words.now.table_id × (seat.old.table_id ≡ words.now.table_id) }
    requires whole { (spot : RoomSpot T) × (room : Room T) × (seat.old.me ≡ (Fades slot spot, (slot, room) ∷ [])) × (slot < slots) × (room.at ≡ spot.at) × (room.value ≡ None) × (room.stake ≡ []) }
    ensures seat { (seat.new.table_id ≡ seat.old.table_id) × (seat.new.id ≡ seat.old.id) }
    ensures faded { Faded slot result seat.new.me }
{
    words.fetch_sub::<plays::Fades>(seat, slot + slot + 2, 1)
}

// A reset: K of a slot that nobody else has is 1 again.
pub(crate) fn reset<T, C: Names<T>>(
    words: &Words<T, C>,
    seat: &mut Seat<Room<T>, View<T>>,
    slot: usize,
)
    requires fits { Fits words.now.table_id × (seat.old.table_id ≡ words.now.table_id) }
    requires due { (seat.old.me ≡ (Resets slot, [])) × (slot < slots) }
    ensures seat { (seat.new.table_id ≡ seat.old.table_id) × (seat.new.id ≡ seat.old.id) × (seat.new.me ≡ (Frees slot, [])) }
{
    words.store::<plays::Resets>(seat, slot + slot + 2, 1);
}

// A free: the slot may be used again.
pub(crate) fn free<T, C: Names<T>>(
    words: &Words<T, C>,
    seat: &mut Seat<Room<T>, View<T>>,
    slot: usize,
)
    requires fits { Fits words.now.table_id × (seat.old.table_id ≡ words.now.table_id) }
    requires due { (seat.old.me ≡ (Frees slot, [])) × (slot < slots) }
    ensures seat { (seat.new.table_id ≡ seat.old.table_id) × (seat.new.id ≡ seat.old.id) × (seat.new.me ≡ (Gone, [])) }
{
    words.store::<plays::Frees>(seat, slot + slot + 1, FREE);
}

// A prepare: the seat gives its slot's place back, with the next version in it.
pub(crate) fn shelve<T, C: Names<T>>(
    words: &Words<T, C>,
    seat: &mut Seat<Room<T>, View<T>>,
    slot: usize,
)
    requires fits { Fits words.now.table_id × (seat.old.table_id ≡ words.now.table_id) × (seat.old.id ≡ 0) }
    requires ready { (p : Publishing T) × (value : T) × (room : Room T) × IsReady slot p value room seat.old.me }
    ensures seat { (seat.new.table_id ≡ seat.old.table_id) × (seat.new.id ≡ seat.old.id) }
    ensures lies { (p : Publishing T) (value : T) (room : Room T) → IsReady slot p value room seat.old.me → Prepared p slot value seat.new.me }
{
    words.store::<plays::Prepares>(seat, slot + slot + 1, BULK);
}

// A swap: the version in the slot is published. It gives W as it was.
fn swap<T, C: Names<T>>(words: &Words<T, C>, seat: &mut Seat<Room<T>, View<T>>, slot: usize) -> u64
    requires fits { Fits words.now.table_id × (seat.old.table_id ≡ words.now.table_id) × (seat.old.id ≡ 0) }
    requires prepared { (p : Publishing T) × (value : T) × IsSwapping C.begins C.follows slot p value seat.old.me }
    ensures seat { (seat.new.table_id ≡ seat.old.table_id) × (seat.new.id ≡ seat.old.id) }
    ensures published { (p : Publishing T) (value : T) → IsSwapping C.begins C.follows slot p value seat.old.me → Swapped p value result seat.new.me }
{
    words.swap::<plays::Swaps>(seat, 0, slot as u64 * SPAN)
}

// A settle: the shares that weren't given out go back, all but one.
fn settle<T, C: Names<T>>(
    words: &Words<T, C>,
    seat: &mut Seat<Room<T>, View<T>>,
    slot: usize,
    given: u64,
)
    requires fits { Fits words.now.table_id × (seat.old.table_id ≡ words.now.table_id) × (seat.old.id ≡ 0) }
    requires settling { (p : Publishing T) × (number : ℕ) × IsSettling slot given p number seat.old.me }
    ensures seat { (seat.new.table_id ≡ seat.old.table_id) × (seat.new.id ≡ seat.old.id) }
    ensures settled { (p : Publishing T) (number : ℕ) → IsSettling slot given p number seat.old.me → IsSettled p number slot seat.new.me }
{
    words.fetch_sub::<plays::Settles>(seat, slot + slot + 1, BULK - given - 1);
}

// The probes of one publication: the first free slot, whose place the seat then has. None where each was seen taken.
pub(crate) fn take<T, C: Names<T>>(
    words: &Words<T, C>,
    seat: &mut Seat<Room<T>, View<T>>,
    probed: &mut Probed,
) -> Option<usize>
    requires fits { Fits words.now.table_id × (seat.old.table_id ≡ words.now.table_id) × (seat.old.id ≡ 0) }
    requires due { (probed.old ≡ 0) × ((p : Publishing T) × IsProbing p 0 seat.old.me) }
    ensures seat { (seat.new.table_id ≡ seat.old.table_id) × (seat.new.id ≡ seat.old.id) }
    ensures taken { (p : Publishing T) → IsProbing p 0 seat.old.me → MatchOption result ((probed.new ≡ slots) × (seat.new.me ≡ (Publishes p, [])) × HasNone p) (λ slot. (slot < slots) × IsTaken p slot seat.new.me) }
{
    let mut slot = 0;
    while slot < SLOTS {
        if probed.probe(words, seat) {
            return Some(slot);
        }
        slot += 1;
    }
    None
}

// A swap and its settle: the version in the slot is published, and a seat has the old version's share, of this slot.
pub(crate) fn swap_in<T, C: Names<T>>(
    words: &Words<T, C>,
    seat: &mut Seat<Room<T>, View<T>>,
    slot: usize,
) -> (Seat<Room<T>, View<T>>, usize)
    requires fits { Fits words.now.table_id × (seat.old.table_id ≡ words.now.table_id) × (seat.old.id ≡ 0) }
    requires prepared { (p : Publishing T) × (value : T) × IsSwapping C.begins C.follows slot p value seat.old.me × (p.share ≡ None) }
    ensures seats { (seat.new.table_id ≡ seat.old.table_id) × (seat.new.id ≡ seat.old.id) × (result.0.table_id ≡ seat.old.table_id) }
    ensures published { (p : Publishing T) (value : T) → IsSwapping C.begins C.follows slot p value seat.old.me → p.share ≡ None → IsSwappedIn p value result.1 seat.new.me result.0.me }
{
    let found = swap(words, seat, slot);
    let old = (found / SPAN) as usize;
    settle(words, seat, old, found % SPAN);
    (words.split_seat::<Shares>(seat), old)
}

// A load by the publisher, with the grants of a reader that it takes in: W as it was, the seat of the share, and that of a
// reader with the grants that are left.
pub(crate) fn draw_newest<T, C: Names<T>>(
    words: &Words<T, C>,
    seat: &mut Seat<Room<T>, View<T>>,
    guest: Seat<Room<T>, View<T>>,
) -> (u64, Seat<Room<T>, View<T>>, Seat<Room<T>, View<T>>)
    requires fits { Fits words.now.table_id × (seat.old.table_id ≡ words.now.table_id) × (seat.old.id ≡ 0) × (guest.table_id ≡ words.now.table_id) }
    requires idle { (p : Publishing T) × (r : Reading T) × IsIdle p seat.old.me × IsGuest r guest.me }
    ensures seats { (seat.new.table_id ≡ seat.old.table_id) × (seat.new.id ≡ seat.old.id) × (result.1.table_id ≡ seat.old.table_id) × (result.2.table_id ≡ seat.old.table_id) }
    ensures newest { (p : Publishing T) (r : Reading T) → IsIdle p seat.old.me → IsGuest r guest.me → IsNewest C.begins C.follows p r result.0 seat.new.me result.1.me result.2.me }
{
    words.join_seat::<plays::Lodges>(seat, guest);
    let found = words.fetch_add::<plays::Newests<C>>(seat, 0, 1);
    let share = words.split_seat::<Shares>(seat);
    let reader = words.split_seat::<plays::Meets>(seat);
    (found, share, reader)
}

// The publisher's look at W for a reader that it takes in: the reader's seat, which has then seen all that is published.
pub(crate) fn greet<T, C: Names<T>>(
    words: &Words<T, C>,
    seat: &mut Seat<Room<T>, View<T>>,
    guest: Seat<Room<T>, View<T>>,
) -> Seat<Room<T>, View<T>>
    requires fits { Fits words.now.table_id × (seat.old.table_id ≡ words.now.table_id) × (seat.old.id ≡ 0) × (guest.table_id ≡ words.now.table_id) }
    requires idle { (p : Publishing T) × (r : Reading T) × IsIdle p seat.old.me × IsWhole r guest.me }
    ensures seats { (seat.new.table_id ≡ seat.old.table_id) × (seat.new.id ≡ seat.old.id) × (result.table_id ≡ seat.old.table_id) }
    ensures greeted { (p : Publishing T) (r : Reading T) → IsIdle p seat.old.me → IsWhole r guest.me → IsGreeted p r seat.new.me result.me }
{
    words.join_seat::<plays::Lodges>(seat, guest);
    words.load::<plays::Greets>(seat, 0);
    words.split_seat::<plays::Meets>(seat)
}

// The publisher's look at W while no reader is about: nobody else changes W then.
pub(crate) fn look<T, C: Names<T>>(words: &Words<T, C>, seat: &mut Seat<Room<T>, View<T>>) -> u64
    requires fits { Fits words.now.table_id × (seat.old.table_id ≡ words.now.table_id) × (seat.old.id ≡ 0) }
    requires alone { (p : Publishing T) × (seat.old.me ≡ (Publishes p, [])) × (p.readers ≡ 0) }
    ensures seat { (seat.new.table_id ≡ seat.old.table_id) × (seat.new.id ≡ seat.old.id) }
    ensures looked { (p : Publishing T) → seat.old.me ≡ (Publishes p, []) → Looked p result seat.new.me }
{
    words.load::<plays::Looks>(seat, 0)
}

// The first look at W: the first seat has slot 0's place.
pub(crate) fn open<T, C: Names<T>>(words: &Words<T, C>, seat: &mut Seat<Room<T>, View<T>>)
    requires fits { Fits words.now.table_id × (seat.old.table_id ≡ words.now.table_id) × (seat.old.id ≡ 0) }
    requires first { (value : T) × (seat.old.me ≡ (Begin value, [])) }
    ensures seat { (seat.new.table_id ≡ seat.old.table_id) × (seat.new.id ≡ seat.old.id) }
    ensures opened { (value : T) → seat.old.me ≡ (Begin value, []) → IsOpened value seat.new.me }
{
    words.load::<plays::Opens>(seat, 0);
}

// The second look at W: the first seat gives the place back, shared, and is the publisher with all grants.
pub(crate) fn offer<T, C: Names<T>>(words: &Words<T, C>, seat: &mut Seat<Room<T>, View<T>>)
    requires fits { Fits words.now.table_id × (seat.old.table_id ≡ words.now.table_id) × (seat.old.id ≡ 0) }
    requires shared { (value : T) × (name : ℕ) × (spot : RoomSpot T) × IsOffering C.begins value name spot seat.old.me }
    ensures seat { (seat.new.table_id ≡ seat.old.table_id) × (seat.new.id ≡ seat.old.id) }
    ensures offered { (value : T) (name : ℕ) (spot : RoomSpot T) → IsOffering C.begins value name spot seat.old.me → Offered value name spot seat.new.me }
{
    words.load::<plays::Offers>(seat, 0);
}

// The claim of the version that a share is of, for the share's seat.
pub(crate) fn hold<T, C: Names<T>>(
    words: &Words<T, C>,
    spots: &Spots<T>,
    share: Seat<Room<T>, View<T>>,
    slot: usize,
) -> Held<Option<Version<T>>, View<T>>
    requires spots { AreSpots words.now.table_id words.now.key spots.now }
    requires fits { share.table_id ≡ words.now.table_id }
    requires has { (mark : Mark T) × (share.me ≡ (Has mark, [])) × (mark.slot ≡ slot) × (mark.name ≡ words.now.table_id.views_name) × (slot < slots) }
    ensures seat { result.id ≡ share.id }
    ensures held { (mark : Mark T) → share.me ≡ (Has mark, []) → (result.stake ≡ stake_of mark) × (result.value ≡ Some (version_of mark)) }
{
    let at = spots.places[slot].at;
    claim::<Option<Version<T>>, View<T>, Spots<T>, Rule<C>, plays::Claims>(
        words,
        &mut share.into_badge(),
        Spot { at },
        slot,
    )
}

// The claim goes back: the seat of the share.
pub(crate) fn give_up<T, C: Names<T>>(
    words: &Words<T, C>,
    held: Held<Option<Version<T>>, View<T>>,
    slot: usize,
) -> Seat<Room<T>, View<T>>
    requires fits { Fits words.now.table_id × (slot < slots) }
    requires has { (mark : Mark T) × (held.stake ≡ stake_of mark) × (mark.slot ≡ slot) × (mark.name ≡ words.now.table_id.views_name) }
    ensures table { result.table_id ≡ words.now.table_id }
    ensures has { (mark : Mark T) → held.stake ≡ stake_of mark → result.me ≡ (Has mark, []) }
{
    let mut badge = Badge::blank();
    unclaim(words, held, &mut badge, slot);
    badge.into_seat()
}

// A load with its claim: the version published last, and its slot.
pub(crate) fn load_last<T, C: Names<T>>(
    words: &Words<T, C>,
    spots: &Spots<T>,
    badge: &mut Badge<View<T>>,
) -> (Held<Option<Version<T>>, View<T>>, usize)
    requires spots { AreSpots words.now.table_id words.now.key spots.now }
    requires fits { badge.old.table_id ≡ words.now.table_id }
    requires can { (reading : Reading T) × CanRead reading badge.old.views × (reading.name ≡ words.now.table_id.views_name) }
    ensures badge { (badge.new.table_id ≡ badge.old.table_id) × (badge.new.id ≡ badge.old.id) }
    ensures loaded { (reading : Reading T) → CanRead reading badge.old.views → IsLoaded C.begins C.follows reading badge.new.views result.0.stake result.0.value result.1 }
{
    let (found, share) = draw(words, badge);
    let slot = (found / SPAN) as usize;
    (hold(words, spots, share, slot), slot)
}

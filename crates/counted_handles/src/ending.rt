//! The end of a cell: the publisher takes the last version out where nobody else has a share of any version or may take one.
ghost use Rattle.std.specs.Prelude.{◌≡◌, ℕ, ◌+◌, ◌<◌, [], ◌∷◌, Some, true, MatchBool, MatchOption, IfOk, IfErr};
ghost use Rattle.cell_core.specs.Words.{slots, given_of};
ghost use Rattle.cell_core.specs.declared.words.Version.{Version};
ghost use Rattle.counted_handles.specs.declared.view.Publishing.{Publishing};
ghost use Rattle.counted_handles.specs.declared.view.View.TheVariants.{Publishes, Gone};
ghost use Rattle.counted_handles.specs.Calls.{Fits, IsSweeping, IsAlone, HasLooked, IsParted, IsVacant, CanEnd, IsLike, IsLastValue};
ghost use Rattle.counted_handles.specs.Tells.{IsEnding};

use crate::calls::{BULK, FREE, SPAN, Words, look};
use crate::names::Names;
use crate::plays;
use crate::rule::Room;
use crate::view::View;
use atomic_table::{Badge, Seat};
use cell_core::{SLOTS, Version};
use raw_slots::collect;
use std::mem;

// A look at the next slot while no reader is about: whether it is free by S, or is the one in W and has no weak owner by K.
fn pass<T, C: Names<T>>(
    words: &Words<T, C>,
    seat: &mut Seat<Room<T>, View<T>>,
    slot: usize,
    last: usize,
) -> bool
    requires fits { Fits words.now.table_id × (seat.old.table_id ≡ words.now.table_id) × (seat.old.id ≡ 0) × (slot < slots) }
    requires due { (p : Publishing T) × (word : ℕ) × IsSweeping p word last slot seat.old.me }
    ensures seat { (seat.new.table_id ≡ seat.old.table_id) × (seat.new.id ≡ seat.old.id) }
    ensures passed { (p : Publishing T) (word : ℕ) → IsSweeping p word last slot seat.old.me → MatchBool result (seat.new.me ≡ (Publishes (record p { swept = p.swept + 1 }), [])) (seat.new.me ≡ (Publishes (record p { busy = true }), [])) }
{
    if slot == last {
        return words.load::<plays::Skips>(seat, slot + slot + 2) == 1;
    }
    words.load::<plays::Sweeps>(seat, slot + slot + 1) == FREE
}

// A look at each slot: whether all are free but for the one in W, and that one has no weak owner.
fn sweep<T, C: Names<T>>(
    words: &Words<T, C>,
    seat: &mut Seat<Room<T>, View<T>>,
    last: usize,
) -> bool
    requires fits { Fits words.now.table_id × (seat.old.table_id ≡ words.now.table_id) × (seat.old.id ≡ 0) }
    requires due { (p : Publishing T) × (word : ℕ) × IsSweeping p word last 0 seat.old.me }
    ensures seat { (seat.new.table_id ≡ seat.old.table_id) × (seat.new.id ≡ seat.old.id) }
    ensures swept { (p : Publishing T) (word : ℕ) → IsSweeping p word last 0 seat.old.me → MatchBool result (seat.new.me ≡ (Publishes (record p { swept = slots }), [])) ((swept : ℕ) × (seat.new.me ≡ (Publishes (record p { swept = swept; busy = true }), []))) }
{
    let mut slot = 0;
    while slot < SLOTS {
        if !pass(words, seat, slot, last) {
            return false;
        }
        slot += 1;
    }
    true
}

// A look at S of the slot in W when all others are free: whether nobody has a share of the last version. Then the seat has its
// place.
fn part<T, C: Names<T>>(
    words: &Words<T, C>,
    seat: &mut Seat<Room<T>, View<T>>,
    last: usize,
    given: u64,
) -> bool
    requires fits { Fits words.now.table_id × (seat.old.table_id ≡ words.now.table_id) × (seat.old.id ≡ 0) × (last < slots) }
    requires due { (p : Publishing T) × (word : ℕ) × IsSweeping p word last slots seat.old.me × (given_of word ≡ given) }
    ensures seat { (seat.new.table_id ≡ seat.old.table_id) × (seat.new.id ≡ seat.old.id) }
    ensures parted { (p : Publishing T) (word : ℕ) → IsSweeping p word last slots seat.old.me → given_of word ≡ given → MatchBool result (IsEnding p last seat.new.me) (seat.new.me ≡ (Publishes (record p { busy = true }), [])) }
{
    words.load::<plays::Ends>(seat, last + last + 1) == BULK - given
}

// Looks at all words: the slot of the last version where nobody has a share of a version. The seat then has its place, whole.
fn part_last<T, C: Names<T>>(
    words: &Words<T, C>,
    seat: &mut Seat<Room<T>, View<T>>,
) -> Option<usize>
    requires fits { Fits words.now.table_id × (seat.old.table_id ≡ words.now.table_id) × (seat.old.id ≡ 0) }
    requires alone { (p : Publishing T) × IsAlone p seat.old.me × (p.name ≡ words.now.table_id.views_name) }
    ensures seat { (seat.new.table_id ≡ seat.old.table_id) × (seat.new.id ≡ seat.old.id) }
    ensures parted { (p : Publishing T) → IsAlone p seat.old.me → MatchOption result (HasLooked p seat.new.me) (λ last. IsParted p last seat.new.me) }
{
    let found = look(words, seat);
    let last = (found / SPAN) as usize;
    if !sweep(words, seat, last) {
        return None;
    }
    if !part(words, seat, last, found % SPAN) {
        return None;
    }
    collect(words, seat, last);
    Some(last)
}

// The last version, out of its place.
fn vacate<T, C: Names<T>>(
    words: &Words<T, C>,
    seat: &mut Seat<Room<T>, View<T>>,
    last: usize,
) -> Option<Version<T>>
    requires fits { seat.old.table_id ≡ words.now.table_id }
    requires parted { (p : Publishing T) × IsParted p last seat.old.me }
    ensures seat { (seat.new.table_id ≡ seat.old.table_id) × (seat.new.id ≡ seat.old.id) }
    ensures version { (p : Publishing T) → IsParted p last seat.old.me → (version : Version T) × (result ≡ Some version) × IsLastValue p.published version.value }
    ensures vacant { IsVacant last seat.new.me }
{
    seat.slot_mut(words, last).replace(None)
}

// The last version's place is given back, and the seat is spent.
fn shut<T, C: Names<T>>(words: &Words<T, C>, seat: &mut Seat<Room<T>, View<T>>, last: usize)
    requires fits { Fits words.now.table_id × (seat.old.table_id ≡ words.now.table_id) × (seat.old.id ≡ 0) }
    requires vacant { IsVacant last seat.old.me }
    ensures seat { (seat.new.table_id ≡ seat.old.table_id) × (seat.new.id ≡ seat.old.id) × (seat.new.me ≡ (Gone, [])) }
{
    words.load::<plays::Shuts>(seat, 0);
}

/// A receipt: a load of a cell's word has shown that somebody has a version, weakly or not. Only an attempt to end the cell gives one.
#[derive(Drop)]
pub struct InUse(());

/// The value published last, where nobody has a version: the publisher's token is then spent. [`InUse`] where a load has shown that
/// somebody has one.
pub fn end<T, C: Names<T>>(words: &Words<T, C>, badge: &mut Badge<View<T>>) -> Result<T, InUse>
    requires fits { Fits words.now.table_id × (badge.old.table_id ≡ words.now.table_id) × (badge.old.id ≡ 0) }
    requires alone { (p : Publishing T) × CanEnd p badge.old.views × (p.name ≡ words.now.table_id.views_name) }
    ensures badge { (badge.new.table_id ≡ badge.old.table_id) × (badge.new.id ≡ badge.old.id) }
    ensures ended { IfOk result (λ value. (p : Publishing T) → CanEnd p badge.old.views → IsLastValue p.published value × (badge.new.views ≡ Gone ∷ [])) }
    ensures in_use { IfErr result (λ _. (p : Publishing T) → CanEnd p badge.old.views → IsLike p badge.new.views) }
{
    let mut seat = mem::replace(badge, Badge::blank()).into_seat();
    let Some(last) = part_last(words, &mut seat) else {
        *badge = seat.into_badge();
        return Err(InUse(()));
    };
    let version = vacate(words, &mut seat, last);
    shut(words, &mut seat, last);
    *badge = seat.into_badge();
    match version {
        Some(version) => Ok(version.value),
        None => unreachable!(),
    }
}

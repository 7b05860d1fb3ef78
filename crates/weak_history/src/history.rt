//! Histories.
ghost use Rattle.std.specs.Prelude.{◌≡◌, ◌<◌, ◌≤◌, ◌^◌, ◌&&◌, ◌==◌, true, false, [], ◌∷◌, ◌++◌, length, drop, nat_lt, nat_le, Some, None, IfOk, IfErr, IfSome, MatchOption};
ghost use Rattle.std.specs.List.{slice_get};
ghost use Rattle.std.specs.Option.{option_map, option_copied};
ghost use Rattle.transfer_core.specs.Window.{fits};
ghost use Rattle.weak_history.specs.History.{Entered, serials_in, span_in, longest_run, numbered_to, later_entries};
ghost use Rattle.snapshot_cell.specs.Tokens.{IsUpgraded};
ghost use Rattle.weak_history.specs.Places.{placed, IsFull};
ghost use Rattle.weak_history.specs.Owned.{AreOwned, IsOwnedAt, IsLost, IsLostAt, IsChain};

use crate::chain::{Chain, Lost};
use crate::entry::Entry;
use crate::owners::Owners;
use arrayvec::ArrayVec;
use dns_rdata::Serial;
use snapshot_cell::{NamedReader, NamedStrong, NamedWeak, Names, Naming, Spent};
use std::marker::Model;

/// How many entries a history has at most (own).
pub const ENTRIES: usize = 16;

/// The newest versions that it was told, as far as its window reaches, each owned weakly. Contracts see how many entries it has at most,
/// and the entries, the oldest first.
#[derive(Drop)]
pub struct History<'a, T: Drop, C: Names<T>, N: Naming> {
    size: usize,
    places: ArrayVec<Option<Entry<'a, T, C, N>>, ENTRIES>,
}

impl<'a, T: Drop, C: Names<T>, N: Naming> Model for History<'a, T, C, N> {
    ghost use Rattle.std.specs.Prelude.{◌≤◌, length};
    ghost use Rattle.weak_history.specs.History.{HistoryState};
    ghost use Rattle.weak_history.specs.Places.{placed, IsFull};
    ghost use Rattle.weak_history.specs.declared.history.TheConstants.{ENTRIES};

    ghost Value = { HistoryState T };

    ghost view = { λ a. record { size = a.size; entries = placed a.places.items } };

    ghost invariant = { λ a. IsFull a.places.items × (length a.places.items ≤ a.size) × (a.size ≤ ENTRIES) };
}

impl<'a, T: Drop, C: Names<T>, N: Naming> History<'a, T, C, N> {
    /// A history that is told no version yet, of so many entries at most; one of none stays empty.
    pub fn new(size: usize) -> History<'a, T, C, N>
        requires { size ≤ ENTRIES }
        ensures { result ≡ record { size = size; entries = [] } }
    {
        History {
            size,
            places: ArrayVec::new(),
        }
    }

    /// How many entries it has.
    pub fn len(&self) -> usize
        ensures len { result ≡ length self.now.entries }
        ensures most { result ≤ ENTRIES }
    {
        self.places.len()
    }

    /// Tells a version by its weak owner, with its serial. The entries that no longer fit the window with it leave, the oldest first, and
    /// their weak owners are given up (RFC 1995, 5; RFC 1982, 3.2; own).
    pub fn push(&mut self, serial: Serial, weak: NamedWeak<'a, T, C, N>)
        ensures { self.new ≡ record self.old { entries = longest_run self.old.size (self.old.entries ++ (record { version = weak.entry; serial = serial.0 }) ∷ []) } }
    {
        if self.size == 0 {
            return;
        }
        self.make_room(serial);
        self.places.push(Some(Entry::new(serial, weak)));
    }

    /// Lets entries go, the oldest first, until the others fit the window with one of a serial.
    fn make_room(&mut self, serial: Serial)
        requires { 0 < self.old.size }
        ensures size { self.new.size ≡ self.old.size }
        ensures room { length self.new.entries < self.new.size }
        ensures run { (entry : Entered T) → entry.serial ≡ serial.0 → self.new.entries ++ entry ∷ [] ≡ longest_run self.old.size (self.old.entries ++ entry ∷ []) }
    {
        while !self.has_room(serial) {
            self.places.remove(0);
        }
    }

    /// Whether the entries fit the window together with one of a serial.
    fn has_room(&self, serial: Serial) -> bool
        ensures { result ≡ fits self.now.size (serials_in self.now.entries ++ serial.0 ∷ []) }
    {
        self.len() < self.size && self.spans_less_than_half(serial)
    }

    /// Whether it is less than half the ring from the first of the entries through the others to a serial (RFC 1982, 3.2).
    fn spans_less_than_half(&self, serial: Serial) -> bool
        ensures { result ≡ nat_lt (span_in (serials_in self.now.entries ++ serial.0 ∷ [])) (2 ^ 31) }
    {
        let Some(first) = self.entry(0) else {
            return true;
        };
        let mut last = first.serial();
        let mut sum = 0u64;
        for at in 1..self.len() {
            let Some(entry) = self.entry(at) else {
                unreachable!()
            };
            sum += u64::from(last.distance(entry.serial()));
            if sum >= u64::from(Serial::HALF_RING) {
                return false;
            }
            last = entry.serial();
        }
        sum + u64::from(last.distance(serial)) < u64::from(Serial::HALF_RING)
    }

    /// The entry at a place, counted from 0, the oldest; None where there are no more.
    fn entry(&self, at: usize) -> Option<&Entry<'a, T, C, N>>
        ensures { option_copied result ≡ slice_get self.now.entries at }
    {
        match self.places.get(at) {
            Some(Some(entry)) => Some(entry),
            Some(None) => None,
            None => None,
        }
    }

    /// What is told of the versions after the one of a serial, up to a number: owners of all of them, where none has gone, for a grant each;
    /// or the number of one that has gone. It waits for nobody.
    pub fn chain(
        &mut self,
        from: Serial,
        upto: u64,
        reader: &mut NamedReader<T, N>,
    ) -> Chain<'a, T, C, N>
        ensures same { self.new ≡ self.old }
        ensures chain { IsChain self.old.entries from.0 upto reader.old reader.new result }
    {
        let Some(first) = self.place_after(from, upto) else {
            return Chain::Unknown;
        };
        match self.own_from(first, upto, reader) {
            Ok(owners) => Chain::Whole(owners),
            Err(Lost::Gone(number)) => Chain::Gone(number),
            Err(Lost::Spent) => Chain::Spent,
        }
    }

    /// The place after the newest entry of a serial, of those up to a number.
    fn place_after(&self, from: Serial, upto: u64) -> Option<usize>
        ensures { option_map (λ at. numbered_to upto (drop at self.now.entries)) result ≡ later_entries from.0 upto self.now.entries }
    {
        let mut at = self.len();
        while at > 0 {
            at -= 1;
            if self.is_met_at(at, from, upto) {
                return Some(at + 1);
            }
        }
        None
    }

    /// Whether the entry at a place has a serial and is numbered up to a number.
    fn is_met_at(&self, at: usize, from: Serial, upto: u64) -> bool
        ensures { (entry : Entered T) → slice_get self.now.entries at ≡ Some entry → result ≡ (nat_le entry.version.number upto && (entry.serial == from.0)) }
    {
        match self.entry(at) {
            Some(entry) => entry.number() <= upto && entry.serial() == from,
            None => false,
        }
    }

    /// Owners of the versions from a place on, of those up to a number.
    fn own_from(
        &mut self,
        first: usize,
        upto: u64,
        reader: &mut NamedReader<T, N>,
    ) -> Result<Owners<'a, T, C, N>, Lost>
        ensures same { self.new ≡ self.old }
        ensures owned { IfOk result (λ owners. AreOwned (numbered_to upto (drop first self.old.entries)) reader.old reader.new owners) }
        ensures lost { IfErr result (λ lost. IsLost (numbered_to upto (drop first self.old.entries)) reader.old reader.new lost) }
    {
        let mut owners = Owners::new();
        for at in first..self.len() {
            let found = match self.own_at(at, upto, reader) {
                Ok(found) => found,
                Err(lost) => return Err(lost),
            };
            if let Some(owner) = found {
                owners.push(owner);
            }
        }
        Ok(owners)
    }

    /// An owner of the version at a place, for a grant of the reader; none where it is numbered beyond a number.
    fn own_at(
        &mut self,
        at: usize,
        upto: u64,
        reader: &mut NamedReader<T, N>,
    ) -> Result<Option<NamedStrong<'a, T, C, N>>, Lost>
        requires { at < length self.old.entries }
        ensures same { self.new ≡ self.old }
        ensures owned { IfOk result (λ found. (entry : Entered T) → slice_get self.old.entries at ≡ Some entry → IsOwnedAt entry upto reader.old reader.new found) }
        ensures lost { IfErr result (λ lost. (entry : Entered T) → slice_get self.old.entries at ≡ Some entry → IsLostAt entry upto reader.old reader.new lost) }
    {
        let Some(entry) = self.entry(at) else {
            unreachable!()
        };
        let number = entry.number();
        if number > upto {
            return Ok(None);
        }
        match self.upgrade_at(at, reader) {
            Ok(Some(owner)) => Ok(Some(owner)),
            Ok(None) => Err(Lost::Gone(number)),
            Err(Spent) => Err(Lost::Spent),
        }
    }

    /// An owner of the version at a place, for a grant of the reader; None where it is buried.
    fn upgrade_at(
        &mut self,
        at: usize,
        reader: &mut NamedReader<T, N>,
    ) -> Result<Option<NamedStrong<'a, T, C, N>>, Spent>
        requires { at < length self.old.entries }
        ensures same { self.new ≡ self.old }
        ensures upgraded { IfOk result (λ found. (entry : Entered T) → slice_get self.old.entries at ≡ Some entry → IsUpgraded reader.old reader.new entry.version found × (0 < reader.old.left)) }
        ensures spent { IfErr result (λ _. (reader.old.left ≡ 0) × (reader.new ≡ reader.old)) }
    {
        upgrade_in(self.places.as_mut_slice(), at, reader)
    }
}

/// An owner of the version at one of full places, for a grant of the reader; None where it is buried.
fn upgrade_in<'a, T: Drop, C: Names<T>, N: Naming>(
    places: &mut [Option<Entry<'a, T, C, N>>],
    at: usize,
    reader: &mut NamedReader<T, N>,
) -> Result<Option<NamedStrong<'a, T, C, N>>, Spent>
    requires within { at < length places.old }
    requires full { IsFull places.old }
    ensures same { places.new ≡ places.old }
    ensures upgraded { IfOk result (λ found. (entry : Entered T) → slice_get (placed places.old) at ≡ Some entry → IsUpgraded reader.old reader.new entry.version found × (0 < reader.old.left)) }
    ensures spent { IfErr result (λ _. (reader.old.left ≡ 0) × (reader.new ≡ reader.old)) }
{
    match &mut places[at] {
        Some(entry) => entry.upgrade(reader),
        None => unreachable!(),
    }
}

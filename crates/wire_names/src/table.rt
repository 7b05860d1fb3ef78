//! The names of a message that pointers can name.
ghost use Rattle.std.specs.Prelude.{◌≡◌, ℕ, ◌+◌, ◌-◌, ◌*◌, ◌/◌, ◌%◌, ◌<◌, ◌≤◌, ◌^◌, ◌↔◌, ◌⊎◌, ◌++◌, ◌∷◌, ◌&&◌, [], nat_lt, nat_le, List, length, take, drop, IsTrue, IfSome, IsNone, MatchOption, slice_index_or};
ghost use Rattle.std.specs.Bool.{OnTrue};
ghost use Rattle.dns_name.specs.Labels.{labels_in, IsWhole};
ghost use Rattle.wire_names.specs.Chains.{parent_at};
ghost use Rattle.wire_names.specs.Place.{IsKnown};
ghost use Rattle.wire_names.specs.Entry.{long_octets};
ghost use Rattle.wire_names.specs.Long.{head_of};
ghost use Rattle.wire_names.specs.Spells.{Spells};
ghost use Rattle.wire_names.specs.Table.{Entry, Table, IsTable, IsLabelAt, IsSpelt, HasNoChild, IsChild, first_key, spelt_at, keyed, entered};
ghost use Rattle.wire_names.specs.Written.{starts_of, CanEnter};

use crate::chains::{Chains, ROOT, UNKNOWN};
use crate::key::first_key;
use crate::long::{FEW_OCTETS, Long};
use crate::part::{Part, differ, label_at, part_at};
use arrayvec::ArrayVec;
use dns_name::first_label;
use std::marker::Model;

/// The most positions that a table has (own).
pub(crate) const MAX_POSITIONS: usize = 256;

/// The highest position that a pointer can name, of 14 bits (RFC 1035, 4.1.4).
const MAX_TARGET: usize = 16383;

/// Up to how many entries no mark is looked at.
const FEW: usize = 24;

/// How many marks there are for keys (own).
const MARKS: usize = 8192;

/// An odd number, near 2 ^ 32 over the golden ratio: the high bits of what is multiplied by it depend on all of its bits.
const SPREAD: u32 = 2_654_435_761;

/// How many keys in a row have one mark.
const KEYS_OF_A_MARK: u32 = 524_288;

/// The head of an entry: a position of a message where a name begins, the key of the name's first label, and its parent: the index of the
/// entry that spells the name after that label, or the root, or what no entry spells.
#[derive(Clone, Copy, Default)]
pub(crate) struct Head {
    pub(crate) key: u32,
    pub(crate) position: u16,
    pub(crate) parent: u16,
}

/// The entries of a table, in the order in which they were entered, chained by their parents: their heads, and their octets where these are
/// many. Contracts see the list of them. The key of each is marked, so that most often one mark tells that no entry has a label.
#[derive(Drop)]
pub(crate) struct Positions {
    heads: ArrayVec<Head, MAX_POSITIONS>,
    longs: [Long; MAX_POSITIONS],
    chains: Chains,
    marks: [bool; MARKS],
}

impl Model for Positions {
    ghost use Rattle.std.specs.Prelude.{List};
    ghost use Rattle.wire_names.specs.Entry.{Entry};
    ghost use Rattle.wire_names.specs.Chains.{AreChained};
    ghost use Rattle.wire_names.specs.Long.{entries_with};
    ghost use Rattle.wire_names.specs.Table.{AreMarked};

    ghost Value = { List Entry };

    ghost view = { λ a. entries_with a.heads.items a.longs };

    ghost invariant = { λ a. AreChained (entries_with a.heads.items a.longs) a.chains.newest a.chains.older × AreMarked (entries_with a.heads.items a.longs) a.marks };
}

impl Positions {
    /// No entry.
    pub(crate) fn new() -> Positions
        ensures { result ≡ [] }
    {
        Positions {
            heads: ArrayVec::new(),
            longs: [Long::NONE; MAX_POSITIONS],
            chains: Chains::new(),
            marks: [false; MARKS],
        }
    }

    /// Forgets all entries. The marks of few stay: they are looked at among many alone, where a mark too many costs a search.
    pub(crate) fn clear(&mut self)
        ensures { self.new ≡ [] }
    {
        if self.heads.len() > FEW {
            unmark(&mut self.marks);
        }
        self.heads.clear();
        self.chains.clear();
    }

    /// How many entries there are.
    #[tactic(auto, using(crate::proofs::LongLemmas::entries_many))]
    pub(crate) fn count(&self) -> usize
        ensures is { result ≡ length self.now }
        ensures few { result ≤ MAX_POSITIONS }
    {
        self.heads.len()
    }

    /// The head of the entry at an index.
    #[tactic(auto, using(crate::proofs::LongLemmas::entries_many))]
    pub(crate) fn head(&self, i: usize) -> Head
        requires { i < length self.now }
        ensures { (d : Entry) → result ≡ head_of (slice_index_or self.now i d) }
    {
        self.heads[i]
    }

    /// The octets of the name that the entry at an index spells, where they are many; else, or where there is no such entry, none.
    #[tactic(auto, using(crate::proofs::LongLemmas::entries_many))]
    pub(crate) fn long(&self, index: usize) -> &[u8]
        ensures { index < length self.now → (d : Entry) → result.now ≡ (slice_index_or self.now index d).octets }
    {
        if index < self.heads.len() {
            return self.longs[index].octets();
        }
        &[]
    }

    /// How many octets the name takes after the first label of the last entry, where no entry spells it.
    #[tactic(auto, using(crate::proofs::LongLemmas::entries_many))]
    pub(crate) fn part(&self) -> Option<usize>
        ensures none { IsNone result → 0 < length self.now → parent_at self.now (length self.now - 1) < 258 }
        ensures some { IfSome result (λ size. (0 < length self.now) × (parent_at self.now (length self.now - 1) ≡ 258 + size)) }
    {
        let index = self.heads.len().checked_sub(1)?;
        usize::from(self.head(index).parent).checked_sub(UNKNOWN)
    }

    /// The index of the newest entry that has this parent, where it begins with the first label of the name in these octets.
    #[tactic(auto, using(crate::proofs::LongLemmas::entries_many))]
    pub(crate) fn newest_child(&self, msg: &[u8], octets: &[u8], parent: usize) -> Option<usize>
        requires table { IsTable msg.now self.now }
        requires whole { IsWhole octets.now }
        requires some { 1 < length octets.now }
        requires parent { (parent < length self.now) ⊎ (parent ≡ 257) }
        ensures { IfSome result (IsChild msg.now self.now parent (labels_in octets.now)) }
    {
        let i = self.chains.newest_of(parent);
        if i < self.heads.len() && begins_with(msg, usize::from(self.head(i).position), octets) {
            return Some(i);
        }
        None
    }

    /// The index of the entry that has this parent, and begins with the first label of the name in these octets.
    #[tactic(auto, using(crate::proofs::LongLemmas::entries_many))]
    pub(crate) fn child(&self, msg: &[u8], octets: &[u8], parent: usize) -> Option<usize>
        requires table { IsTable msg.now self.now }
        requires whole { IsWhole octets.now }
        requires some { 1 < length octets.now }
        requires parent { (parent < length self.now) ⊎ (parent ≡ 257) }
        ensures { MatchOption result (HasNoChild msg.now self.now parent (labels_in octets.now)) (IsChild msg.now self.now parent (labels_in octets.now)) }
    {
        let key = first_key(octets);
        if self.heads.len() > FEW && !self.marks[mark_of(key)] {
            return None;
        }
        let mut i = self.chains.newest_of(parent);
        while i < self.heads.len() {
            let head = self.head(i);
            if head.key == key && begins_with(msg, usize::from(head.position), octets) {
                return Some(i);
            }
            i = self.chains.older_than(i);
        }
        None
    }

    /// The index of the last entry, where it spells the name in these octets.
    #[tactic(auto, using(crate::proofs::LongLemmas::entries_many))]
    pub(crate) fn last_spells(&self, msg: &[u8], octets: &[u8]) -> Option<usize>
        requires table { IsTable msg.now self.now }
        requires whole { IsWhole octets.now }
        ensures some { IfSome result (IsSpelt msg.now self.now (labels_in octets.now)) }
        ensures none { IsNone result → IsSpelt msg.now self.now (labels_in octets.now) (length self.now - 1) → ⊥ }
    {
        let index = self.heads.len().checked_sub(1)?;
        if spells(msg, usize::from(self.head(index).position), octets) {
            return Some(index);
        }
        None
    }

    /// Whether these very octets stand at the position at an index, or, where pointers are followed, the name in them is spelt there.
    #[tactic(auto, using(crate::proofs::LongLemmas::entries_many))]
    pub(crate) fn is_present(&self, msg: &[u8], octets: &[u8], index: usize, follows: bool) -> bool
        requires table { IsTable msg.now self.now }
        requires whole { IsWhole octets.now }
        ensures { OnTrue result (IsSpelt msg.now self.now (labels_in octets.now) index) }
    {
        if index >= self.heads.len() {
            return false;
        }
        is_there(msg, usize::from(self.head(index).position), octets, follows)
    }

    /// The parent of the entry at an index; where there is no such entry, one that is none either.
    #[tactic(auto, using(crate::proofs::LongLemmas::entries_many))]
    pub(crate) fn parent_of(&self, index: usize) -> usize {
        if index < self.heads.len() {
            return usize::from(self.head(index).parent);
        }
        UNKNOWN
    }

    /// Whether the entry at an index spells the name in these octets, which are many: its own are kept.
    #[tactic(auto, using(crate::proofs::LongLemmas::entries_many))]
    pub(crate) fn is_long(&self, octets: &[u8], index: usize) -> bool
        requires whole { IsWhole octets.now }
        ensures { (msg : List ℕ) → IsTable msg self.now → OnTrue result (IsKnown msg self.now (labels_in octets.now) index) }
    {
        if index >= self.heads.len() || octets.len() <= FEW_OCTETS {
            return false;
        }
        !differ(self.longs[index].octets(), octets)
    }

    /// Enters the positions of so many labels of a name whose octets stand at a position: as long as there is room, and none that a
    /// pointer can't name (RFC 1035, 4.1.4). This is the parent of the last of these labels.
    pub(crate) fn enter(&mut self, at: usize, octets: &[u8], count: usize, last: usize)
        requires whole { IsWhole octets.now }
        requires within { at + length octets.now < 2 ^ 64 }
        requires few { count ≤ length (labels_in octets.now) }
        requires short { length octets.now ≤ 255 }
        requires parent { 0 < count → (last < length self.old) ⊎ (last ≡ 257) }
        ensures { (table : Table) → CanEnter self.old table at (labels_in octets.now) count last → self.new ≡ keyed (entered (λ named. named.0) table (take count (starts_of at (labels_in octets.now)))) }
    {
        let mut rest = octets;
        let mut place = at;
        for i in 0..count {
            let Some((label, behind)) = first_label(rest) else {
                return;
            };
            let next = place + 1 + label.len();
            if !self.has_room(0, place) {
                return;
            }
            let parent = if i + 1 == count {
                last
            } else if self.has_room(1, next) {
                self.count() + 1
            } else {
                UNKNOWN + behind.len()
            };
            self.push(place, rest, parent);
            place = next;
            rest = behind;
        }
    }

    /// Whether there is room for so many labels of a name of so many octets at a position, and pointers can name them.
    pub(crate) fn has_room_for(&self, at: usize, size: usize, labels: usize) -> bool {
        labels <= MAX_POSITIONS - self.heads.len() && size <= MAX_TARGET && at <= MAX_TARGET - size
    }

    /// Whether there is room for one more position, after so many that are yet to be entered, and a pointer can name it.
    #[tactic(auto, using(crate::proofs::LongLemmas::entries_many))]
    fn has_room(&self, more: usize, position: usize) -> bool
        requires { more < 2 }
        ensures { result ≡ (nat_lt (length self.now + more) 256 && nat_le position 16383) }
    {
        self.heads.len() + more < MAX_POSITIONS && position <= MAX_TARGET
    }

    /// Enters a position after all others, where the name in these octets begins.
    #[tactic(auto, using(crate::proofs::LongLemmas::entries_many))]
    fn push(&mut self, position: usize, octets: &[u8], parent: usize)
        requires whole { IsWhole octets.now }
        requires short { length octets.now ≤ 255 }
        requires room { length self.old < 256 }
        requires low { position ≤ 16383 }
        requires parent { (parent ≤ length self.old + 1) ⊎ ((257 ≤ parent) × (parent < 2 ^ 16)) }
        ensures { self.new ≡ self.old ++ record { key = first_key (labels_in octets.now); position = position; parent = parent; octets = long_octets octets.now } ∷ [] }
    {
        let index = self.heads.len();
        let key = first_key(octets);
        self.heads.push(Head {
            key,
            position: position as u16,
            parent: parent as u16,
        });
        self.longs[index].keep(octets);
        self.chains.push(index, parent);
        self.marks[mark_of(key)] = true;
    }
}

/// The index of a key's mark.
fn mark_of(key: u32) -> usize
    ensures is { result ≡ key * 2654435761 % 2 ^ 32 / 524288 }
    ensures within { result < MARKS }
{
    (key.wrapping_mul(SPREAD) / KEYS_OF_A_MARK) as usize
}

/// Takes all marks away. It is a function of its own, since it is seldom called.
#[inline(never)]
fn unmark(marks: &mut [bool; MARKS]) {
    for i in 0..MARKS {
        marks[i] = false;
    }
}

/// Whether the name at a position begins with the first label of the name in these octets. Its length and its first two octets are
/// compared before the others: most labels are short, or differ there.
#[inline(always)]
fn begins_with(msg: &[u8], at: usize, octets: &[u8]) -> bool
    requires label { IsLabelAt msg.now at }
    requires whole { IsWhole octets.now }
    requires some { 1 < length octets.now }
    ensures { IsTrue result ↔ (take 1 (spelt_at msg.now at) ≡ take 1 (labels_in octets.now)) }
{
    let len = usize::from(octets[0]);
    if usize::from(msg[at]) != len {
        return false;
    }
    if msg[at + 1] != octets[1] {
        return false;
    }
    if len == 1 {
        return true;
    }
    if msg[at + 2] != octets[2] {
        return false;
    }
    if len == 2 {
        return true;
    }
    !differ(label_at(octets, 0, len), label_at(msg, at, len))
}

/// Whether these very octets stand at a position. The first is compared before the others: most names differ there.
fn stands_at(msg: &[u8], at: usize, octets: &[u8]) -> bool
    ensures { OnTrue result (drop at msg.now ≡ octets.now ++ drop (length octets.now) (drop at msg.now)) }
{
    match msg.get(at..) {
        Some(rest) => rest.first() == octets.first() && rest.starts_with(octets),
        None => false,
    }
}

/// Whether these very octets stand at a position, or, where pointers are followed, the name in them is spelt there.
fn is_there(msg: &[u8], place: usize, octets: &[u8], follows: bool) -> bool
    requires { IsWhole octets.now }
    ensures { OnTrue result ((next : ℕ) × Spells msg.now place place (labels_in octets.now) next) }
{
    if stands_at(msg, place, octets) {
        return true;
    }
    if !follows {
        return false;
    }
    spells(msg, place, octets)
}

/// Whether the octets at a position spell the name in these octets, label by label.
#[inline(never)]
pub(crate) fn spells(msg: &[u8], at: usize, octets: &[u8]) -> bool
    requires { IsWhole octets.now }
    ensures { IsTrue result ↔ ((next : ℕ) × Spells msg.now at at (labels_in octets.now) next) }
{
    let mut rest = octets;
    let mut run = at;
    let mut place = at;
    loop {
        let others = behind_same(msg, place, rest);
        place += rest.len() - others.len();
        rest = others;
        match part_at(msg, place) {
            Ok(Part::Closing) => return first_label(rest).is_none(),
            Ok(Part::Label(len)) => {
                let Some((label, behind)) = first_label(rest) else {
                    return false;
                };
                if differ(label, label_at(msg, place, len)) {
                    return false;
                }
                rest = behind;
                place += 1 + len;
            }
            Ok(Part::Pointer(target)) if target < run => {
                run = target;
                place = target;
            }
            _ => return false,
        }
    }
}

/// The octets after the first labels of the name in these octets that stand at a position, one after the other, as far as they are short.
#[inline(always)]
fn behind_same<'a>(msg: &[u8], at: usize, octets: &'a [u8]) -> &'a [u8]
    requires { IsWhole octets.now }
    ensures whole { IsWhole result.now }
    ensures few { length result.now ≤ length octets.now }
    ensures within { length octets.now - length result.now ≤ length msg.now - at }
    ensures same { (run : ℕ) → ((next : ℕ) × Spells msg.now run at (labels_in octets.now) next) ↔ ((next : ℕ) × Spells msg.now run (at + (length octets.now - length result.now)) (labels_in result.now) next) }
{
    let Some(mut there) = msg.get(at..) else {
        return octets;
    };
    let mut rest = octets;
    while let Some((label, behind)) = first_label(rest) {
        if !begin_alike(rest, there, label.len()) {
            return rest;
        }
        there = &there[1 + label.len()..];
        rest = behind;
    }
    rest
}

/// Whether octets begin alike: with their first, and so many after it. Where these are more than two, it isn't told.
#[inline(always)]
fn begin_alike(octets: &[u8], others: &[u8], len: usize) -> bool
    ensures { OnTrue result ((take (1 + len) octets.now ≡ take (1 + len) others.now) × (len < length others.now)) }
{
    if len == 1 {
        if let (Some(own), Some(same)) = (octets.first_chunk::<2>(), others.first_chunk::<2>()) {
            return own == same;
        }
    }
    if len == 2 {
        if let (Some(own), Some(same)) = (octets.first_chunk::<3>(), others.first_chunk::<3>()) {
            return own == same;
        }
    }
    false
}

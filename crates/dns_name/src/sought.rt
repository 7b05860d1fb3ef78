//! Names that are sought, lent from the room in which they are put in lower case.
ghost use Rattle.std.specs.Prelude.{true, ◌≡◌, ◌≢◌, ◌⊎◌, ◌+◌, ◌-◌, ◌*◌, ◌<◌, ◌≤◌, ◌||◌, ℕ, [], ◌∷◌, ◌++◌, length, map, take, drop, reverse, find, unwrap_or, slice_index};
ghost use Rattle.std.specs.Char.{to_ascii_lowercase};
ghost use Rattle.std.specs.List.{flat_map};
ghost use Rattle.std.specs.Option.{option_copied};
ghost use Rattle.dns_name.specs.Labels.{labels_in, IsWhole};
ghost use Rattle.dns_name.specs.Name.{IsName, wire_of, fold_name, is_one_under, is_same, is_under, canonical_cmp, parent_of, self_and_ancestors, asterisk};
ghost use Rattle.dns_name.specs.Sought.{IsCommonWith};
ghost use Rattle.dns_name.specs.Stored.{stored_octet, stored_label, stored_of, name_stored, IsStored};

use crate::name::{MAX_BELOW_ASTERISK, MAX_NAME, Name};
use crate::octets::first_label;
use crate::stored::{CLOSING, ESCAPE, MAX_STORED, StoredName, put_octet};
use arrayvec::ArrayVec;
use std::cmp::Ordering;
use std::marker::Model;

/// Room in which a name is put in the form in which it is sought.
pub type SoughtRoom = ArrayVec<u8, MAX_STORED>;

/// What stands for a label in lower case, after the others.
fn put_folded(to: &mut SoughtRoom, label: &[u8])
    requires { length to.old.items + 2 * length label.now + 1 ≤ MAX_STORED }
    ensures octets { to.new.items ≡ to.old.items ++ stored_label (map to_ascii_lowercase label.now) }
    ensures len { length to.new.items ≤ length to.old.items + 2 * length label.now + 1 }
{
    for octet in label {
        put_octet(to, octet.to_ascii_lowercase());
    }
    to.push(CLOSING);
}

/// Writes what stands for an octet before a place, and gives the place where that begins.
fn write_octet(out: &mut [u8], at: usize, octet: u8) -> usize
    requires room { 2 ≤ at }
    requires within { at ≤ length out.old }
    ensures octets { drop result out.new ≡ stored_octet octet ++ drop at out.old }
    ensures len { length out.new ≡ length out.old }
    ensures most { at ≤ result + 2 }
    ensures within { result ≤ at }
{
    if octet > ESCAPE {
        out[at - 1] = octet;
        return at - 1;
    }
    out[at - 1] = octet + 1;
    out[at - 2] = ESCAPE;
    at - 2
}

/// Writes what stands for a label in lower case before a place, and gives the place where that begins.
fn write_label(out: &mut [u8], end: usize, label: &[u8]) -> usize
    requires room { 2 * length label.now + 1 ≤ end }
    requires within { end ≤ length out.old }
    ensures octets { drop result out.new ≡ stored_label (map to_ascii_lowercase label.now) ++ drop end out.old }
    ensures len { length out.new ≡ length out.old }
    ensures most { end ≤ result + 2 * length label.now + 1 }
    ensures within { result ≤ end }
{
    out[end - 1] = CLOSING;
    let mut at = end - 1;
    let mut left = label.len();
    while left > 0 {
        left -= 1;
        at = write_octet(out, at, label[left].to_ascii_lowercase());
    }
    at
}

/// What stands for a name in lower case, where nothing is yet. It is written from the leftmost label on, each before those before it.
pub(crate) fn put_name(to: &mut SoughtRoom, octets: &[u8])
    requires whole { IsWhole octets.now }
    requires short { length octets.now ≤ MAX_NAME }
    requires empty { to.old.items ≡ [] }
    ensures { to.new.items ≡ flat_map stored_label (reverse (fold_name (labels_in octets.now))) }
{
    let mut out = [0_u8; MAX_STORED];
    let mut start = MAX_STORED;
    let mut rest = octets;
    while let Some((label, behind)) = first_label(rest) {
        start = write_label(&mut out, start, label);
        rest = behind;
    }
    let (_, own) = out.split_at(start);
    let _ = to.try_extend_from_slice(own);
}

/// How many octets both begin with.
fn common_len(own: &[u8], other: &[u8]) -> usize
    ensures within { result ≤ length own.now }
    ensures others { result ≤ length other.now }
    ensures same { take result own.now ≡ take result other.now }
    ensures apart { result < length own.now → result < length other.now → slice_index own.now result ≢ slice_index other.now result }
{
    let most = own.len().min(other.len());
    for at in 0..most {
        if own[at] != other[at] {
            return at;
        }
    }
    most
}

/// How many octets a stored name begins with, where there is one, of those that octets begin with.
fn common_with(own: &[u8], other: Option<&StoredName>) -> usize
    ensures common { IsCommonWith own.now (option_copied other.entry) result }
    ensures within { result ≤ length own.now }
{
    match other {
        Some(name) => common_len(own, name.octets()),
        None => 0,
    }
}

/// How many of the first so many octets are whole labels: up to the last that closes one.
fn whole_len(octets: &[u8], len: usize) -> usize
    requires { len ≤ length octets.now }
    ensures most { result ≤ len }
    ensures closed { (j : ℕ) → result ≡ j + 1 → slice_index octets.now j ≡ 0 }
    ensures rest { (j : ℕ) → result ≤ j → j < len → slice_index octets.now j ≢ 0 }
{
    let mut at = len;
    while at > 0 {
        if octets[at - 1] == CLOSING {
            return at;
        }
        at -= 1;
    }
    0
}

/// These octets in place of those that are there.
fn put_octets(to: &mut SoughtRoom, octets: &[u8])
    requires { length octets.now ≤ MAX_STORED }
    ensures { to.new.items ≡ octets.now }
{
    to.clear();
    let _ = to.try_extend_from_slice(octets);
}

/// What stands for a name in lower case, in place of what stands for a name that it is under: only the labels before that are put.
fn put_below(to: &mut SoughtRoom, octets: &[u8], base: &[u8])
    requires whole { IsWhole octets.now }
    requires short { length octets.now ≤ MAX_NAME }
    requires others { IsWhole base.now }
    requires under { is_under (labels_in octets.now) (labels_in base.now) ≡ true }
    requires stored { to.old.items ≡ stored_of (labels_in base.now) }
    ensures { to.new.items ≡ stored_of (labels_in octets.now) }
{
    if octets.len() <= base.len() {
        return;
    }
    if let Some((label, behind)) = first_label(octets) {
        put_below(to, behind, base);
        put_folded(to, label);
    }
}

/// A name in lower case, in the form in which it is sought among stored names: from the rightmost label on, so that its ancestors
/// are the fronts of its octets. It is lent from where it stands. Contracts see the list of its labels.
#[derive(Drop)]
pub struct Sought<'r> {
    octets: &'r [u8],
}

impl<'r> Model for Sought<'r> {
    ghost use Rattle.std.specs.Prelude.{ℕ, List};
    ghost use Rattle.dns_name.specs.Stored.{name_stored, IsStored};

    ghost Value = { List (List ℕ) };

    ghost view = { λ a. name_stored a.octets.now };

    ghost invariant = { λ a. IsStored a.octets.now };
}

impl<'r> Sought<'r> {
    /// The name in lower case, which is put in the room in place of what is there.
    pub fn new(name: &Name, room: &'r mut SoughtRoom) -> Sought<'r>
        ensures { result ≡ fold_name name.now }
    {
        Sought::of_wire(name.wire(), room)
    }

    /// The name in lower case that is written in full in these octets, which is put in the room in place of what is there (RFC 1035, 3.1).
    pub fn of_wire(octets: &[u8], room: &'r mut SoughtRoom) -> Sought<'r>
        requires whole { IsWhole octets.now }
        requires lawful { IsName (labels_in octets.now) }
        ensures { result ≡ fold_name (labels_in octets.now) }
    {
        room.clear();
        put_name(room, octets);
        Sought {
            octets: room.as_slice(),
        }
    }

    /// The name in lower case, where it is under an apex that is sought in that form and spelt here: only the labels before the apex
    /// are put after its octets, in place of what is in the room.
    pub fn below(top: &Sought<'_>, apex: &Name, name: &Name, room: &'r mut SoughtRoom) -> Sought<'r>
        requires top { top.now ≡ fold_name apex.now }
        requires under { is_under name.now apex.now ≡ true }
        ensures { result ≡ fold_name name.now }
    {
        Sought::below_of_wire(top, apex, name.wire(), room)
    }

    /// The same of a name that is written in full in these octets (RFC 1035, 3.1).
    pub fn below_of_wire(
        top: &Sought<'_>,
        apex: &Name,
        octets: &[u8],
        room: &'r mut SoughtRoom,
    ) -> Sought<'r>
        requires top { top.now ≡ fold_name apex.now }
        requires whole { IsWhole octets.now }
        requires lawful { IsName (labels_in octets.now) }
        requires under { is_under (labels_in octets.now) apex.now ≡ true }
        ensures { result ≡ fold_name (labels_in octets.now) }
    {
        let base = apex.wire();
        put_octets(room, top.octets());
        put_below(room, octets, base);
        Sought {
            octets: room.as_slice(),
        }
    }

    /// A name that a zone keeps.
    pub fn stored(name: &'r StoredName) -> Sought<'r>
        ensures { result ≡ name.now }
    {
        Sought {
            octets: name.octets(),
        }
    }

    /// The same name once more.
    pub fn same(&self) -> Sought<'r>
        ensures { result ≡ self.now }
    {
        Sought {
            octets: self.octets,
        }
    }

    /// The label `*` before the name, put in the room in place of what is there (RFC 4592, 2.1.1).
    pub fn with_asterisk<'s>(&self, room: &'s mut SoughtRoom) -> Sought<'s>
        requires { length (wire_of self.now) ≤ MAX_BELOW_ASTERISK }
        ensures { result ≡ asterisk ∷ self.now }
    {
        put_octets(room, self.octets());
        room.push(b'*');
        room.push(CLOSING);
        Sought {
            octets: room.as_slice(),
        }
    }

    /// The octets that stand for the name.
    pub(crate) fn octets(&self) -> &[u8]
        ensures stored { IsStored result.now }
        ensures name { name_stored result.now ≡ self.now }
    {
        self.octets
    }

    /// The name without its leftmost label; None of the root.
    pub fn parent(&self) -> Option<Sought<'r>>
        ensures { result ≡ parent_of self.now }
    {
        if self.octets.is_empty() {
            return None;
        }
        let len = whole_len(self.octets, self.octets.len() - 1);
        Some(Sought {
            octets: &self.octets[..len],
        })
    }

    /// Of the name and its ancestors, the one with most labels that one of two stored names is under; the root where there are none
    /// (RFC 4592, 3.3.1).
    pub fn closest(&self, before: Option<&StoredName>, behind: Option<&StoredName>) -> Sought<'r>
        ensures { result ≡ unwrap_or (find (λ a. is_one_under (option_copied before.entry) a || is_one_under (option_copied behind.entry) a) (self_and_ancestors self.now)) [] }
    {
        let common = common_with(self.octets, before).max(common_with(self.octets, behind));
        let len = whole_len(self.octets, common);
        Sought {
            octets: &self.octets[..len],
        }
    }

    /// The canonical order against a stored name, in one pass over the octets (RFC 4034, 6.1).
    pub fn order(&self, other: &StoredName) -> Ordering
        ensures { result ≡ canonical_cmp self.now other.now }
    {
        self.octets().cmp(&other.octets())
    }

    /// Whether another name is this one or has it among its ancestors (RFC 1034, 3.1).
    pub fn is_above(&self, other: &Sought<'_>) -> bool
        ensures { result ≡ is_under other.now self.now }
    {
        other.octets().starts_with(self.octets())
    }

    /// Whether a name that this one is under is this one itself: then it has as many octets.
    pub fn is_level(&self, other: &Sought<'_>) -> bool
        requires { is_under self.now other.now ≡ true }
        ensures { result ≡ is_same self.now other.now }
    {
        self.octets().len() == other.octets().len()
    }
}

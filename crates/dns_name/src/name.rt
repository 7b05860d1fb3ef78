//! The name itself.
ghost use Rattle.std.specs.Prelude.{All, IsTrue, ◌≡◌, ◌+◌, ◌<◌, ◌≤◌, List, [], ◌∷◌, ◌++◌, length, drop, take, IsNone, None, Some, IfSome, ◌↔◌, Option, option_map, MatchOption};
ghost use Rattle.std.specs.Bool.{OnFalse, OnTrue};
ghost use Rattle.dns_name.specs.Labels.{labels_in, IsWhole};
ghost use Rattle.dns_name.specs.Name.{wire_of, IsName, fold_name, parent_of, name_in, asterisk, is_under, canonical_cmp};
ghost use Rattle.dns_name.specs.Stored.{name_stored, IsStored};

use crate::beside::plain_front;
use crate::compare::names_order;
use crate::labels::Labels;
use crate::octets::{append, ends_in, first_label, first_name, name_len};
use crate::stored::{StoredName, put_name_front};
use arrayvec::ArrayVec;
use std::cmp::Ordering;
use std::marker::Model;

/// The most octets of a name on the wire, with its length octets and the zero octet (RFC 1035, 2.3.4).
pub const MAX_NAME: usize = 255;

/// The most octets of a label (RFC 1035, 2.3.4).
pub const MAX_LABEL: usize = 63;

/// The most octets of a name that the label `*` still fits before.
pub const MAX_BELOW_ASTERISK: usize = 253;

/// A domain name, in the spelling that it was given (RFC 1034, 3.1). It lies in the value itself.
#[derive(Drop)]
pub struct Name {
    octets: ArrayVec<u8, MAX_NAME>,
}

impl Model for Name {
    ghost use Rattle.std.specs.Prelude.{ℕ, List, length, ◌≤◌};
    ghost use Rattle.dns_name.specs.declared.name.TheConstants.{MAX_NAME};
    ghost use Rattle.dns_name.specs.Labels.{labels_in, IsWhole};

    ghost Value = { List (List ℕ) };

    ghost view = { λ a. labels_in a.octets.items };

    ghost invariant = { λ a. IsWhole a.octets.items × (length a.octets.items ≤ MAX_NAME) };
}

impl Name {
    /// The root, which has no label.
    pub fn root() -> Name
        ensures { result ≡ [] }
    {
        let mut octets = ArrayVec::new();
        octets.push(0);
        Name { octets }
    }

    /// The octets, of which the name's labels are.
    pub(crate) fn octets(&self) -> &[u8]
        ensures whole { IsWhole result.now }
        ensures short { length result.now ≤ MAX_NAME }
        ensures labels { labels_in result.now ≡ self.now }
    {
        self.octets.as_slice()
    }

    /// The name whose octets these are, written in full with the closing zero octet (RFC 1035, 3.1). It takes no memory.
    pub fn from_octets(octets: ArrayVec<u8, MAX_NAME>) -> Name
        requires whole { IsWhole octets.items }
        requires short { length octets.items ≤ MAX_NAME }
        ensures { result ≡ labels_in octets.items }
    {
        Self { octets }
    }

    /// The name's octets on the wire, written in full with the closing zero octet (RFC 1035, 3.1).
    pub fn wire(&self) -> &[u8]
        ensures octets { result.now ≡ wire_of self.now }
        ensures lawful { IsName self.now }
        ensures bytes { All (All (λ octet. octet < 256)) self.now }
    {
        let octets = self.octets();
        octets
    }

    /// The same name, spelt the same. It takes no memory.
    pub fn copy(&self) -> Name
        ensures { result ≡ self.now }
    {
        let mut octets = ArrayVec::new();
        append(&mut octets, self.octets());
        Name { octets }
    }

    /// The name in lower case (RFC 4343, 3).
    pub fn fold(&self) -> Name
        ensures folded { result ≡ fold_name self.now }
        ensures lawful { IsName result }
        ensures bytes { All (All (λ octet. octet < 256)) result }
    {
        let mut octets = ArrayVec::new();
        append(&mut octets, self.wire());
        octets.as_mut_slice().make_ascii_lowercase();
        Name { octets }
    }

    /// Whether this is the root.
    pub fn is_root(&self) -> bool
        ensures { IsTrue result ↔ (self.now ≡ []) }
    {
        self.octets.len() == 1
    }

    /// The labels, the leftmost first (RFC 1034, 3.1): at most 127, since each takes two octets or more.
    pub fn labels(&self) -> Labels<'_>
        ensures labels { result ≡ self.now }
        ensures few { length result < 128 }
    {
        Labels::new(self.octets.as_slice())
    }

    /// The name without its leftmost label; None of the root.
    pub fn parent(&self) -> Option<Name>
        ensures { result ≡ parent_of self.now }
    {
        let (_, rest) = first_label(self.octets.as_slice())?;
        let mut octets = ArrayVec::new();
        append(&mut octets, rest);
        Some(Name { octets })
    }

    /// The name that the octets begin with, written in full, and how many octets it takes. None where they begin
    /// with no name: a length octet over 63 (pointers too), more than 255 octets, or the octets end inside it
    /// (RFC 1035, 3.1).
    pub fn from_wire(octets: &[u8]) -> Option<(Name, usize)>
        ensures name { option_map (λ r. r.0) result ≡ name_in octets.now }
        ensures octets { IfSome result (λ r. (r.1 ≡ length (wire_of r.0)) × (octets.now ≡ wire_of r.0 ++ drop r.1 octets.now)) }
    {
        let len = name_len(octets)?;
        let mut own = ArrayVec::new();
        append(&mut own, &octets[..len]);
        Some((Name { octets: own }, len))
    }

    /// Becomes the name that the octets begin with, as [`from_wire`](Name::from_wire) gives it, and gives how many octets it takes.
    /// None where they begin with no name: it stays as it is then (RFC 1035, 3.1).
    pub fn set_from_wire(&mut self, octets: &[u8]) -> Option<usize>
        ensures name { IfSome result (λ _. name_in octets.now ≡ Some self.new) }
        ensures lawful { IfSome result (λ _. IsName self.new) }
        ensures octets { IfSome result (λ len. (len ≡ length (wire_of self.new)) × (octets.now ≡ wire_of self.new ++ drop len octets.now)) }
        ensures none { IsNone result → (name_in octets.now ≡ None) × (self.new ≡ self.old) }
    {
        let (own, _) = first_name(octets)?;
        self.octets.clear();
        append(&mut self.octets, own);
        Some(own.len())
    }

    /// Becomes a name that a zone keeps, in lower case.
    pub fn set_stored(&mut self, name: &StoredName)
        ensures name { self.new ≡ name.now }
        ensures folded { self.new ≡ fold_name self.new }
        ensures lawful { IsName self.new }
    {
        self.octets.clear();
        put_name_front(&mut self.octets, name.octets());
        self.octets.push(0);
    }

    /// Becomes a name that a zone keeps, in lower case, where this is the one of another that it keeps. Where both differ in their first label
    /// alone, and those are as long as each other, that label alone is written.
    pub fn set_stored_behind(&mut self, before: &StoredName, name: &StoredName)
        requires { self.old ≡ before.now }
        ensures name { self.new ≡ name.now }
        ensures folded { self.new ≡ fold_name self.new }
        ensures lawful { IsName self.new }
    {
        if !self.set_first_label(before.octets(), name.octets()) {
            self.set_stored(name);
        }
    }

    /// Becomes the name that octets stand for, where this is the one that others stand for, and both differ in their first label alone, of as
    /// many octets, each of which stands for itself; else it stays.
    fn set_first_label(&mut self, before: &[u8], octets: &[u8]) -> bool
        requires own { IsStored before.now }
        requires others { IsStored octets.now }
        requires name { self.old ≡ name_stored before.now }
        ensures set { OnTrue result (self.new ≡ name_stored octets.now) }
        ensures stays { OnFalse result (self.new ≡ self.old) }
    {
        let Some(front) = plain_front(octets) else {
            return false;
        };
        let at = front.len();
        let len = octets.len() - at - 1;
        if before.len() != octets.len()
            || usize::from(self.octets[0]) != len
            || &before[..at] != front
        {
            return false;
        }
        self.octets.as_mut_slice()[1..len + 1].copy_from_slice(&octets[at..at + len]);
        true
    }

    /// The label `*` before the name; None where that has more than 255 octets (RFC 4592, 2.1.1).
    pub fn with_asterisk(&self) -> Option<Name>
        ensures found { IfSome result (λ n. n ≡ asterisk ∷ self.now) }
        ensures none { IsNone result ↔ (MAX_BELOW_ASTERISK < length (wire_of self.now)) }
    {
        let behind = self.wire();
        if behind.len() > MAX_BELOW_ASTERISK {
            return None;
        }
        let mut octets = ArrayVec::new();
        octets.push(1);
        octets.push(b'*');
        append(&mut octets, behind);
        Some(Name { octets })
    }

    /// Whether the name is the other or has it among its ancestors, without regard to case (RFC 1034, 3.1).
    pub fn is_under(&self, other: &Name) -> bool
        ensures { result ≡ is_under self.now other.now }
    {
        ends_in(self.octets.as_slice(), other.octets.as_slice())
    }

    /// The canonical order: by the labels from the rightmost on, without regard to case (RFC 4034, 6.1).
    pub fn order(&self, other: &Name) -> Ordering
        ensures { result ≡ canonical_cmp self.now other.now }
    {
        names_order(self.octets.as_slice(), other.octets.as_slice())
    }
}

impl Default for Name {
    ghost is_default = { λ name. name ≡ [] };

    /// The root.
    fn default() -> Name {
        Name::root()
    }
}

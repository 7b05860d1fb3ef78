//! Names as a zone keeps them: in as many octets as they take.
ghost use Rattle.std.specs.Prelude.{◌≡◌, ◌==◌, ◌+◌, ◌*◌, ◌<◌, ◌≤◌, [], ◌∷◌, ◌++◌, length, map, reverse, flat_map, position, All, IfOk, IfSome, MatchOption, Some};
ghost use Rattle.dns_name.specs.Gather.{front_of};
ghost use Rattle.dns_name.specs.Labels.{labels_in, IsWhole};
ghost use Rattle.dns_name.specs.Name.{Name, IsName, fold_name, is_under, canonical_cmp};
ghost use Rattle.dns_name.specs.Stored.{stored_octet, stored_label, octets_stored, labels_stored, name_stored, IsStored, IsClosed, IsFirstPiece, IsLastPiece, IsPlain};
ghost use Rattle.dns_name.specs.Text.{text_of};

use crate::kept::KeptOctets;
use crate::name::{MAX_LABEL, MAX_NAME, Name};
use crate::octets::{append, first_label};
use crate::sought::put_name;
use arrayvec::ArrayVec;
use std::alloc::{AllocError, Global};
use std::cmp::Ordering;
use std::fmt;
use std::marker::Model;

/// The most octets that stand for a name: two for each that it has on the wire.
pub const MAX_STORED: usize = 510;

/// The octet that closes a label.
pub(crate) const CLOSING: u8 = 0;

/// The octet before one that stands for another.
pub(crate) const ESCAPE: u8 = 1;

/// What stands for an octet of a label, after the others.
pub(crate) fn put_octet(to: &mut ArrayVec<u8, MAX_STORED>, octet: u8)
    requires { length to.old.items + 2 ≤ MAX_STORED }
    ensures octets { to.new.items ≡ to.old.items ++ stored_octet octet }
    ensures len { length to.new.items ≤ length to.old.items + 2 }
{
    if octet > ESCAPE {
        to.push(octet);
    } else {
        to.push(ESCAPE);
        to.push(octet + 1);
    }
}

/// The place of the octet that closes the first label.
#[inline(never)]
fn first_closing(octets: &[u8]) -> Option<usize>
    ensures { result ≡ position (λ octet. octet == 0) octets.now }
{
    let mut at = 0;
    while let Some(octet) = octets.get(at) {
        if *octet == CLOSING {
            return Some(at);
        }
        at += 1;
    }
    None
}

/// What stands for the first label, and the octets after the one that closes it; None where there is no label.
fn first_piece(octets: &[u8]) -> Option<(&[u8], &[u8])>
    requires { IsClosed octets.now }
    ensures { MatchOption result (labels_stored octets.now ≡ []) (λ parts. IsFirstPiece octets.now parts.0.now parts.1.now) }
{
    let at = first_closing(octets)?;
    Some((&octets[..at], &octets[at + 1..]))
}

/// The first octet that a piece stands for, and the rest of the piece.
fn first_octet(piece: &[u8]) -> Option<(u8, &[u8])>
    ensures octet { MatchOption result (octets_stored piece.now ≡ []) (λ parts. octets_stored piece.now ≡ parts.0 ∷ octets_stored parts.1.now) }
    ensures shorter { IfSome result (λ parts. length parts.1.now < length piece.now) }
{
    let (first, rest) = piece.split_first()?;
    if *first != ESCAPE {
        return Some((*first, rest));
    }
    match rest.split_first() {
        Some((octet, behind)) => Some((octet.saturating_sub(1), behind)),
        None => Some((*first, rest)),
    }
}

/// How many octets others stand for.
fn octet_count(octets: &[u8]) -> usize
    requires { length (octets_stored octets.now) < MAX_NAME }
    ensures { result ≡ length (octets_stored octets.now) }
{
    let mut at = 0;
    let mut count = 0;
    while let Some(octet) = octets.get(at) {
        at += if *octet == ESCAPE { 2 } else { 1 };
        count += 1;
    }
    count
}

/// Writes octets over as many; a single one, as many labels of a long name are, without a call.
fn write_over(out: &mut [u8], octets: &[u8])
    requires { length out.old ≡ length octets.now }
    ensures { out.new ≡ octets.now }
{
    if octets.len() == 1 {
        out[0] = octets[0];
    } else {
        out.copy_from_slice(octets);
    }
}

/// Writes a label after its length over as many octets.
fn write_label(out: &mut [u8], label: &[u8])
    requires room { length out.old ≡ length label.now + 1 }
    requires short { length label.now ≤ MAX_LABEL }
    ensures { out.new ≡ length label.now ∷ label.now }
{
    out[0] = label.len() as u8;
    write_over(&mut out[1..], label);
}

/// Writes the labels that octets without an escape stand for over as many octets, each after its length, as they stand on the wire: the
/// first that is stored is the last there.
fn write_front(out: &mut [u8], octets: &[u8])
    requires closed { IsClosed octets.now }
    requires plain { IsPlain octets.now }
    requires room { length out.old ≡ length octets.now }
    requires short { All (λ label. length label < 64) (labels_stored octets.now) }
    ensures { out.new ≡ front_of (reverse (labels_stored octets.now)) }
{
    if let Some((piece, behind)) = first_piece(octets) {
        let (front, own) = out.split_at_mut(behind.len());
        write_label(own, piece);
        write_front(front, behind);
    }
}

/// What stands for the last label, and the octets before it; None where there is no label.
fn last_piece(octets: &[u8]) -> Option<(&[u8], &[u8])>
    requires { IsClosed octets.now }
    ensures { MatchOption result (labels_stored octets.now ≡ []) (λ parts. IsLastPiece octets.now parts.0.now parts.1.now) }
{
    let (_, labels) = octets.split_last()?;
    let mut start = labels.len();
    while start > 0 && labels[start - 1] != CLOSING {
        start -= 1;
    }
    Some(labels.split_at(start))
}

/// Puts the octets that a piece stands for after the others.
fn put_octets(to: &mut ArrayVec<u8, MAX_NAME>, piece: &[u8])
    requires { length to.old.items + length (octets_stored piece.now) ≤ MAX_NAME }
    ensures { to.new.items ≡ to.old.items ++ octets_stored piece.now }
{
    let mut rest = piece;
    while let Some((octet, behind)) = first_octet(rest) {
        to.push(octet);
        rest = behind;
    }
}

/// Puts the label that a piece stands for after the others, after its length; one octet that stands for another, as many labels of a
/// long name can be, without a pass over it.
fn put_piece(to: &mut ArrayVec<u8, MAX_NAME>, piece: &[u8])
    requires room { length to.old.items + length (octets_stored piece.now) < MAX_NAME }
    requires short { length (octets_stored piece.now) ≤ MAX_LABEL }
    ensures { to.new.items ≡ to.old.items ++ length (octets_stored piece.now) ∷ octets_stored piece.now }
{
    if let [ESCAPE, octet] = piece {
        to.push(1);
        to.push(octet.saturating_sub(1));
        return;
    }
    to.push(octet_count(piece) as u8);
    put_octets(to, piece);
}

/// The labels of a stored name, as [`put_name_front`] puts them, where some octet stands for another: the last that is stored is the first
/// on the wire.
fn put_escaped_front(to: &mut ArrayVec<u8, MAX_NAME>, octets: &[u8])
    requires stored { IsStored octets.now }
    requires empty { to.old.items ≡ [] }
    ensures { to.new.items ≡ front_of (name_stored octets.now) }
{
    let mut rest = octets;
    while let Some((front, piece)) = last_piece(rest) {
        put_piece(to, piece);
        rest = front;
    }
}

/// The labels of a stored name, each after its length, as they stand on the wire, where nothing is yet. Where no octet stands for
/// another, which is so of most names, they are as many octets as are stored.
pub(crate) fn put_name_front(to: &mut ArrayVec<u8, MAX_NAME>, octets: &[u8])
    requires stored { IsStored octets.now }
    requires empty { to.old.items ≡ [] }
    ensures { to.new.items ≡ front_of (name_stored octets.now) }
{
    if octets.contains(&ESCAPE) {
        put_escaped_front(to, octets);
        return;
    }
    append(to, octets);
    write_front(to.as_mut_slice(), octets);
}

/// A name in lower case, in the form in which it is sought among stored names. It lies in the value itself.
#[derive(Drop)]
pub struct SoughtName {
    octets: ArrayVec<u8, MAX_STORED>,
}

impl Model for SoughtName {
    ghost use Rattle.std.specs.Prelude.{ℕ, List};
    ghost use Rattle.dns_name.specs.Stored.{name_stored, IsStored};

    ghost Value = { List (List ℕ) };

    ghost view = { λ a. name_stored a.octets.items };

    ghost invariant = { λ a. IsStored a.octets.items };
}

impl SoughtName {
    /// The name in lower case, which stands to each name as the name itself does.
    pub fn new(name: &Name) -> SoughtName
        ensures folded { result ≡ fold_name name.now }
        ensures order { (other : Name) → canonical_cmp result other ≡ canonical_cmp name.now other }
        ensures above { (other : Name) → is_under other result ≡ is_under other name.now }
    {
        let mut octets = ArrayVec::new();
        put_name(&mut octets, name.wire());
        SoughtName { octets }
    }

    /// The octets that stand for the name.
    pub(crate) fn octets(&self) -> &[u8]
        ensures stored { IsStored result.now }
        ensures name { name_stored result.now ≡ self.now }
    {
        self.octets.as_slice()
    }

    /// The canonical order against a stored name, in one pass over the octets (RFC 4034, 6.1).
    pub fn order(&self, other: &StoredName) -> Ordering
        ensures { result ≡ canonical_cmp self.now other.now }
    {
        self.octets().cmp(&other.octets())
    }

    /// Whether a stored name is this one or has it among its ancestors (RFC 1034, 3.1).
    pub fn is_above(&self, other: &StoredName) -> bool
        ensures { result ≡ is_under other.now self.now }
    {
        other.octets().starts_with(self.octets())
    }
}

/// A name in lower case, in as many octets as it takes: as a zone keeps it. Contracts see the list of its labels.
#[derive(Drop)]
pub struct StoredName {
    octets: KeptOctets,
}

impl Model for StoredName {
    ghost use Rattle.std.specs.Prelude.{ℕ, List};
    ghost use Rattle.dns_name.specs.Stored.{name_stored, IsStored};

    ghost Value = { List (List ℕ) };

    ghost view = { λ a. name_stored a.octets };

    ghost invariant = { λ a. IsStored a.octets };
}

impl StoredName {
    /// The root (RFC 1034, 3.1). It takes no memory.
    pub fn root() -> StoredName
        ensures { result ≡ [] }
    {
        StoredName {
            octets: KeptOctets::none(),
        }
    }

    /// The name in lower case. `AllocError` where a growth was refused.
    pub fn new(alloc: Global, name: &Name) -> Result<StoredName, AllocError>
        ensures folded { IfOk result (λ stored. stored ≡ fold_name name.now) }
        ensures lawful { IfOk result (λ stored. IsName stored) }
        ensures bytes { IfOk result (λ stored. All (All (λ octet. octet < 256)) stored) }
    {
        let sought = SoughtName::new(name);
        let octets = KeptOctets::new(alloc, sought.octets())?;
        Ok(StoredName { octets })
    }

    /// The same name once more. `AllocError` where a growth was refused.
    pub fn copy(&self, alloc: Global) -> Result<StoredName, AllocError>
        ensures { IfOk result (λ stored. stored ≡ self.now) }
    {
        let octets = self.octets.copy(alloc)?;
        Ok(StoredName { octets })
    }

    /// The octets that stand for the name: those of two names compare as the names do (RFC 4034, 6.1; own).
    pub fn octets(&self) -> &[u8]
        ensures stored { IsStored result.now }
        ensures name { name_stored result.now ≡ self.now }
    {
        KeptOctets::as_slice(&self.octets)
    }

    /// The name itself, in lower case. It takes no memory.
    pub fn to_name(&self) -> Name
        ensures name { result ≡ self.now }
        ensures folded { result ≡ fold_name result }
    {
        let mut octets = ArrayVec::new();
        put_name_front(&mut octets, self.octets());
        octets.push(0);
        Name::from_octets(octets)
    }

    /// The canonical order: by the labels from the rightmost on, without regard to case (RFC 4034, 6.1). To seek one
    /// name among many, make a [`SoughtName`] of it once.
    pub fn order(&self, other: &Name) -> Ordering
        ensures { result ≡ canonical_cmp self.now other.now }
    {
        let sought = SoughtName::new(other);
        self.octets().cmp(&sought.octets())
    }

    /// Whether the name is the other or has it among its ancestors, without regard to case (RFC 1034, 3.1).
    pub fn is_under(&self, other: &Name) -> bool
        ensures { result ≡ is_under self.now other.now }
    {
        let sought = SoughtName::new(other);
        self.octets().starts_with(sought.octets())
    }
}

impl fmt::Display for StoredName {
    ghost output = { λ name. Some (text_of name) };

    fn fmt<W: fmt::Write>(&self, f: &mut fmt::Formatter<W>) -> fmt::Result {
        f.pad(self.to_name().to_text().as_str())
    }
}

//! The sets of the prerequisites of class IN, compared with the zone's through an order of the prerequisites (RFC 2136, 3.2.3).
ghost use Rattle.std.specs.Prelude.{◌≡◌, ◌≤◌, ◌<◌, false, [], All, Any, bytes_eq, length, map, slice_index_or, MatchBool, MatchOption};
ghost use Rattle.std.specs.Char.{to_ascii_lowercase};
ghost use Rattle.std.specs.Cmp.Lexicographic.{slice_cmp};
ghost use Rattle.std.specs.List.{AllPairs, list_any};
ghost use Rattle.std.specs.List.Sorted.{IsPermutation, IsSorted};
ghost use Rattle.std.specs.Ordering.{nat_cmp};
ghost use Rattle.dns_rdata.specs.Data.{Data};
ghost use Rattle.dns_rdata.specs.Record.{IsBefore, has_data};
ghost use Rattle.zone_tree.specs.Zone.{rrset_of};
ghost use Rattle.update_core.specs.Verdict.{are_met};
ghost use Rattle.update_core.specs.Ordered.{of_class_IN, sought_cmp, record_of, is_sought, place_behind, LeadsOn, is_of_whole};

use arrayvec::ArrayVec;
use dns_name::Name;
use dns_rdata::{Class, RData, RRset, RType, RawRecord};
use std::cmp::Ordering;
use std::default::MadeWith;
use std::marker::Model;
use zone_tree::ZoneRead;

/// The most prerequisites that are put in order. A message has no more: of its 65,535 octets 12 are its head, and each
/// record takes 11 or more (RFC 1035, 4.1.1, 4.1.3 and 4.2.2).
pub(crate) const MOST: usize = 5_956;

/// How many octets of two names are compared at a time.
const AT_ONCE: usize = 8;

/// A prerequisite among others in order. Contracts see the record.
#[derive(Drop)]
struct Sought<'a> {
    raw: &'a RawRecord,
}

impl<'a> Model for Sought<'a> {
    ghost use Rattle.dns_rdata.specs.Raw.{RawRecord as Raw};

    ghost Value = { Raw };

    ghost view = { λ a. a.raw.now };
}

impl<'a> MadeWith<&'a RawRecord> for Sought<'a> {
    /// What an unused place holds.
    fn made_with(raw: &'a RawRecord) -> Sought<'a> {
        Sought { raw }
    }
}

/// Prerequisites in order, on the stack: to compare them takes no memory.
type InOrder<'a> = ArrayVec<Sought<'a>, MOST, &'a RawRecord>;

/// Whether the prerequisites of class IN, gathered by owner and type, are the zone's sets, TTLs apart (RFC 2136, 3.2.3). It
/// takes no memory.
///
/// Each of them is looked up in the zone once, and the data next to it in its set is sought among the others by halves. So
/// the time grows as their number, but for the sorting.
pub(crate) fn are_met_in_order<Z: ZoneRead>(zone: &Z, raws: &[RawRecord]) -> bool
    requires { length raws.now ≤ MOST }
    ensures { result ≡ are_met (Z.records zone.now) raws.now }
{
    let Some(first) = raws.first() else {
        return true;
    };
    let mut list: InOrder<'_> = ArrayVec::new_in(first);
    gather(&mut list, raws);
    sort(list.as_mut_slice());
    do_all_lead_on(zone, list.as_slice())
}

/// Puts the records of class IN into an empty list.
fn gather<'a>(list: &mut InOrder<'a>, raws: &'a [RawRecord])
    requires few { length raws.now ≤ MOST }
    requires empty { list.old.items ≡ [] }
    ensures { list.new.items ≡ of_class_IN raws.now }
{
    for raw in raws {
        if raw.class == Class::IN {
            list.push(Sought { raw });
        }
    }
}

/// Sorts prerequisites by type, data and owner.
fn sort(list: &mut [Sought<'_>])
    ensures same { IsPermutation list.old list.new }
    ensures sorted { IsSorted sought_cmp list.new }
{
    list.sort_unstable_by(|one, other| {
        let beside = other.raw;
        order(one.raw, &beside.owner, beside.rtype, &beside.octets)
    });
}

/// The order of a record and one of this owner, type and data.
fn order(raw: &RawRecord, owner: &Name, rtype: RType, octets: &[u8]) -> Ordering
    ensures { result ≡ sought_cmp raw.now (record_of owner.now rtype.0 octets.now) }
{
    // The owner comes last, by its octets: names of many labels, most of which are the same, are often compared.
    match raw.rtype.cmp(&rtype) {
        Ordering::Equal => {}
        unequal => return unequal,
    }
    match raw.octets.as_slice().cmp(octets) {
        Ordering::Equal => lower_order(raw.owner.wire(), owner.wire()),
        unequal => unequal,
    }
}

/// The order of octets in lower case. Those in front that are the same are passed over, some at a time.
fn lower_order(own: &[u8], other: &[u8]) -> Ordering
    ensures { result ≡ slice_cmp nat_cmp (map to_ascii_lowercase own.now) (map to_ascii_lowercase other.now) }
{
    let mut rest = own;
    let mut others = other;
    while let (Some((some, behind)), Some((same, after))) = (
        rest.split_first_chunk::<AT_ONCE>(),
        others.split_first_chunk::<AT_ONCE>(),
    ) {
        if some != same {
            return lower_order_singly(rest, others);
        }
        rest = behind;
        others = after;
    }
    lower_order_singly(rest, others)
}

/// The order of octets in lower case, one by one.
fn lower_order_singly(own: &[u8], other: &[u8]) -> Ordering
    ensures { result ≡ slice_cmp nat_cmp (map to_ascii_lowercase own.now) (map to_ascii_lowercase other.now) }
{
    own.iter()
        .map(|octet| octet.to_ascii_lowercase())
        .cmp(other.iter().map(|octet| octet.to_ascii_lowercase()))
}

/// Whether each of these leads to the next of its set: round the set, then, all of it was sent.
fn do_all_lead_on<Z: ZoneRead>(zone: &Z, list: &[Sought<'_>]) -> bool
    requires { IsSorted sought_cmp list.now }
    ensures { MatchBool result
        (All (λ r. LeadsOn (rrset_of (Z.records zone.now) r.owner r.rtype) list.now r) list.now)
        (Any (λ r. is_of_whole (rrset_of (Z.records zone.now) r.owner r.rtype) list.now r ≡ false) list.now) }
{
    for one in list {
        if !leads_on(zone, list, one.raw) {
            return false;
        }
    }
    true
}

/// Whether a record's data is in the zone's set of its owner and type, and the data after it there, round from the last to
/// the first, was sent too.
fn leads_on<Z: ZoneRead>(zone: &Z, list: &[Sought<'_>], raw: &RawRecord) -> bool
    requires { IsSorted sought_cmp list.now }
    ensures { MatchBool result
        (LeadsOn (rrset_of (Z.records zone.now) raw.now.owner raw.now.rtype) list.now raw.now)
        (is_of_whole (rrset_of (Z.records zone.now) raw.now.owner raw.now.rtype) list.now raw.now ≡ false) }
{
    let Some(set) = zone.rrset(&raw.owner, raw.rtype) else {
        return false;
    };
    let all = set.data();
    let Some(at) = place_of(all, &raw.octets) else {
        return false;
    };
    let next = &all[place_behind(all.len(), at)];
    is_sent(list, &raw.owner, raw.rtype, next.octets())
}

/// The place after a place of so many, the first after the last.
fn place_behind(count: usize, at: usize) -> usize
    requires { at < count }
    ensures value { result ≡ place_behind count at }
    ensures within { result < count }
{
    if at + 1 < count { at + 1 } else { 0 }
}

/// Whether a record of these data is in a set, searched by halves.
pub(crate) fn is_among(set: &RRset, octets: &[u8]) -> bool
    ensures { result ≡ has_data set.now octets.now }
{
    place_of(set.data(), octets).is_some()
}

/// Where data stands among a set's data; None where it isn't there.
fn place_of(all: &[RData], octets: &[u8]) -> Option<usize>
    requires { AllPairs IsBefore all.now }
    ensures { MatchOption result (list_any (λ d. bytes_eq octets.now d.octets) all.now ≡ false)
        (λ at. (at < length all.now) × ((d : Data) → (slice_index_or all.now at d).octets ≡ octets.now)) }
{
    all.binary_search_by(|own| own.octets().cmp(octets)).ok()
}

/// Whether one of these has this owner, type and data.
fn is_sent(list: &[Sought<'_>], owner: &Name, rtype: RType, octets: &[u8]) -> bool
    requires { IsSorted sought_cmp list.now }
    ensures { result ≡ list_any (is_sought owner.now rtype.0 octets.now) list.now }
{
    list.binary_search_by(|one| order(one.raw, owner, rtype, octets))
        .is_ok()
}

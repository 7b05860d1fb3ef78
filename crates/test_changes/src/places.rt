//! Transfers that go on from each place of their lists.
use crate::made::{RawRow, SetRow, update_of, zone_anew};
use dns_rdata::{Class, RType};
use std::alloc::Global;
use transfer_core::{ChainView, LentRecord, Place, Reach, chain_since, records_at};
use update_core::{Outcome, apply};
use zone_tree::{Version, Zone};

const NS: &[u8] = b"\x03ns1\x07example\x04test\0";

const SOA: &[u8] = b"\0\0\0\0\0\x01\0\0\x1c\x20\0\0\x03\x84\0\x12\x75\0\0\0\x01\x2c";

const MX: &[u8] = b"\0\x0a\x01a\x07example\x04test\0";

/// A zone of 7 records: two of its own, and five at `a` and `c`.
const ZONE: [SetRow; 7] = [
    ("@", RType::NS, NS),
    ("@", RType::SOA, SOA),
    ("a", RType::A, &[192, 0, 2, 1]),
    ("a", RType::MX, MX),
    ("a", RType::TXT, b"\x02hi"),
    ("c", RType::A, &[192, 0, 2, 7]),
    ("c", RType::TXT, b"\x02ho"),
];

/// Two addresses more at `a`, a text at `b`, and `c` gone.
const FIRST: [RawRow; 4] = [
    ("a", RType::A, Class::IN, 3600, &[192, 0, 2, 2]),
    ("a", RType::A, Class::IN, 3600, &[192, 0, 2, 3]),
    ("b", RType::TXT, Class::IN, 3600, b"\x02hu"),
    ("c", RType::ANY, Class::ANY, 0, &[]),
];

/// The exchange of `a` gone, and an address of `c` there.
const SECOND: [RawRow; 2] = [
    ("a", RType::MX, Class::ANY, 0, &[]),
    ("c", RType::A, Class::IN, 3600, &[192, 0, 2, 8]),
];

/// The version after one.
fn next_of(alloc: Global, version: &Version, updates: &[RawRow]) -> Option<Version> {
    if version.number() > 9 {
        return None;
    }
    let asked = update_of(alloc, &[], updates)?;
    match apply(alloc, version, &asked, true) {
        Outcome::Next(next) => Some(next),
        _ => None,
    }
}

/// Three versions, each with what it changed.
fn versions_of(alloc: Global) -> Option<Vec<Version>> {
    let first = Version::first(zone_anew(alloc, &ZONE)?);
    let second = next_of(alloc, &first, &FIRST)?;
    let third = next_of(alloc, &second, &SECOND)?;
    let mut versions = Vec::new(alloc);
    versions.push(first).ok()?;
    versions.push(second).ok()?;
    versions.push(third).ok()?;
    Some(versions)
}

/// Whether two records are the same; none is the same as none.
fn is_same(one: Option<LentRecord<'_>>, other: Option<LentRecord<'_>>) -> bool {
    match (one, other) {
        (Some(one), Some(other)) => {
            one.owner() == other.owner()
                && one.rtype() == other.rtype()
                && one.rdata().octets() == other.rdata().octets()
        }
        (None, None) => true,
        _ => false,
    }
}

/// Whether the list at a place is that at another after so many records.
fn goes_on<C: ChainView>(zone: &Zone, chain: &C, place: &Place, start: &Place, sent: u16) -> bool {
    let mut whole = records_at(zone, chain, start);
    for _ in 0..sent {
        let _ = whole.next_record();
    }
    let mut left = records_at(zone, chain, place);
    for _ in 0..40 {
        if !is_same(whole.next_record(), left.next_record()) {
            return false;
        }
    }
    true
}

/// How many records are left at a place, of forty at most.
fn count_at<C: ChainView>(zone: &Zone, chain: &C, place: &Place) -> u16 {
    let mut list = records_at(zone, chain, place);
    let mut count = 0u16;
    for _ in 0..40 {
        if list.next_record().is_some() {
            count = count.saturating_add(1);
        }
    }
    count
}

/// Whether a list goes on from each of its places, told at once and told step by step, after one record and after three.
fn goes_on_everywhere<C: ChainView>(zone: &Zone, chain: &C, start: &Place) -> bool {
    let mut by_one = start.behind(zone, chain, 0);
    let mut by_three = start.behind(zone, chain, 0);
    for sent in 0..30u16 {
        let three = sent.saturating_mul(3);
        let whole = goes_on(zone, chain, &start.behind(zone, chain, sent), start, sent)
            && goes_on(zone, chain, &by_one, start, sent)
            && goes_on(zone, chain, &by_three, start, three);
        if !whole {
            return false;
        }
        by_one = by_one.behind(zone, chain, 1);
        by_three = by_three.behind(zone, chain, 3);
    }
    true
}

// RFC 5936, 2.2: the SOA, the seven other records of the newest version (two of a set were added, and three sets went), the SOA. RFC 1995, 4:
// the SOA, of each version the old SOA, what went, its SOA and what came, the SOA: 1 + (1 + 2 + 1 + 3) + (1 + 1 + 1 + 1) + 1.
#[test]
fn lists_go_on_from_each_place(rt: HostRuntime) -> Result<(), &'static str> {
    let versions = versions_of(rt.alloc()).ok_or("no versions")?;
    let reach = Reach {
        upto: versions.len(),
        window: 16,
    };
    let held = versions.first().ok_or("no version")?.serial();
    let served = versions.last().ok_or("no version")?.zone();
    let chain = chain_since(&versions, reach, Some(held));
    if !chain.is_whole() {
        return Err("no chain");
    }
    let starts = [
        (Place::ZoneStart, 9),
        (Place::ChangesStart, 13),
        (Place::LastSoa, 1),
        (Place::End, 0),
    ];
    for (start, count) in &starts {
        if count_at(served, &chain, start) != *count {
            return Err("another list");
        }
        if !goes_on_everywhere(served, &chain, start) {
            return Err("another place");
        }
    }
    Ok(())
}

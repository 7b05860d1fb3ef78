//! Zones and octets from tables.
ghost use Rattle.std.specs.Prelude.{◌≡◌, IfSome};

use dns_name::Name;
use dns_rdata::{RData, RRset, RType, Ttl};
use std::alloc::Global;
use zone_tree::{Version, Zone};

/// The octets that a hexadecimal text stands for.
pub fn octets_of(alloc: Global, text: &str) -> Option<Vec<u8>> {
    hex::decode(alloc, text.as_bytes()).ok()
}

/// The RDATA of a type, from its octets in hexadecimal.
fn data_of(alloc: Global, rtype: RType, text: &str) -> Option<RData> {
    let octets = octets_of(alloc, text)?;
    RData::from_wire(alloc, rtype, &octets).ok()
}

/// An RRset of one record: its owner, absolute or relative to `example.test.`, the number of its type, and its RDATA in hexadecimal.
pub type SetRow = (&'static str, u16, &'static str);

/// The RRset of a row.
fn set_of(alloc: Global, row: &SetRow) -> Option<RRset> {
    let origin = Name::from_text(b"example.test.", &Name::root()).ok()?;
    let owner = Name::from_text(row.0.as_bytes(), &origin).ok()?;
    let data = data_of(alloc, RType(row.1), row.2)?;
    RRset::new(alloc, &owner, Ttl(3600), data).ok()
}

/// The RRsets of rows.
fn sets_of(alloc: Global, rows: &[SetRow]) -> Option<Vec<RRset>> {
    let mut sets = Vec::new(alloc);
    for row in rows {
        sets.push(set_of(alloc, row)?).ok()?;
    }
    Some(sets)
}

/// The zone of rows in canonical order, each of them an RRset.
pub fn zone_of(alloc: Global, rows: &[SetRow]) -> Option<Zone> {
    let sets = sets_of(alloc, rows)?;
    Zone::new(alloc, sets).ok()
}

/// The first version of the zone of rows.
pub fn version_of(alloc: Global, rows: &[SetRow]) -> Option<Version>
    ensures { IfSome result (λ version. version.number ≡ 0) }
{
    let zone = zone_of(alloc, rows)?;
    Some(Version::first(zone))
}

/// A zone of five RRsets, in canonical order.
const ZONE: &[SetRow] = &[
    ("example.test.", 2, "036e7331076578616d706c65047465737400"),
    (
        "example.test.",
        6,
        "036e7331076578616d706c650474657374000561646d696e076578616d706c650474657374000000000100001c2000000384001275000000012c",
    ),
    ("ns1.example.test.", 1, "c0000201"),
    ("web.example.test.", 1, "c000020a"),
    (
        "www.example.test.",
        5,
        "03776562076578616d706c65047465737400",
    ),
];

/// The zone of five RRsets; None if memory allocation fails.
pub fn zone(alloc: Global) -> Option<Zone> {
    zone_of(alloc, ZONE)
}

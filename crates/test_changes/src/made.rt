//! What the tests are made of: a set of one record, zones, and updates as lists of records.
use dns_message::{Head, RawRecords, Update, ZoneEntry};
use dns_name::Name;
use dns_rdata::{Class, RData, RRset, RType, RawRecord, Ttl};
use std::alloc::Global;
use zone_tree::{Zone, ZoneRead};

/// A set's owner, its type and the data octets of its one record.
pub(crate) type SetRow = (&'static str, RType, &'static [u8]);

/// A record as it is sent: its owner, type, class and TTL, and its data octets.
pub(crate) type RawRow = (&'static str, RType, Class, u32, &'static [u8]);

/// A name below `example.test.`; a whole one where the text ends in a dot.
pub(crate) fn name(text: &str) -> Option<Name> {
    let origin = Name::from_text(b"example.test.", &Name::root()).ok()?;
    Name::from_text(text.as_bytes(), &origin).ok()
}

/// A set with a TTL of an hour.
pub(crate) fn set_of(alloc: Global, row: &SetRow) -> Option<RRset> {
    let owner = name(row.0)?;
    let data = RData::from_wire(alloc, row.1, row.2).ok()?;
    RRset::new(alloc, &owner, Ttl(3600), data).ok()
}

/// A zone; None where memory is refused.
fn zone_of(alloc: Global, rows: &[SetRow]) -> Option<Zone> {
    let mut sets = Vec::new(alloc);
    for row in rows {
        sets.push(set_of(alloc, row)?).ok()?;
    }
    Zone::new(alloc, sets).ok()
}

/// A zone, made anew where memory is refused.
pub(crate) fn zone_anew(alloc: Global, rows: &[SetRow]) -> Option<Zone> {
    match zone_of(alloc, rows) {
        Some(zone) => Some(zone),
        None => zone_of(alloc, rows),
    }
}

/// How many sets a zone has. It takes no memory.
pub(crate) fn sets_in(zone: &Zone) -> u64 {
    let mut sets = 0u64;
    for _set in zone.walk() {
        sets = sets.saturating_add(1);
    }
    sets
}

/// Records as they are sent; None where memory is refused.
fn raws(alloc: Global, rows: &[RawRow]) -> Option<RawRecords> {
    let mut records = Vec::new(alloc);
    for (owner, rtype, class, ttl, octets) in rows {
        let record = RawRecord {
            owner: name(owner)?,
            rtype: *rtype,
            class: *class,
            ttl: *ttl,
            octets: octets.to_vec(alloc).ok()?,
        };
        records.push(record).ok()?;
    }
    Some(RawRecords::new(records))
}

/// An update of `example.test.` by its prerequisites and its updates; None where memory is refused.
pub(crate) fn update_of(
    alloc: Global,
    prerequisites: &[RawRow],
    updates: &[RawRow],
) -> Option<Update> {
    Some(Update {
        head: Head {
            id: 1,
            opcode: 5,
            rd: false,
        },
        edns: None,
        zone: ZoneEntry {
            name: name("@")?,
            rtype: RType::SOA,
            class: Class::IN,
        },
        prerequisites: raws(alloc, prerequisites)?,
        updates: raws(alloc, updates)?,
    })
}

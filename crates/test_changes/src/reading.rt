//! An update that is read where memory is refused (RFC 2136, 2).
use dns_message::{Parsed, RawRecords, Update, parse};
use std::alloc::Global;

/// An update of the zone `example.test.` (RFC 2136, 2): the address 192.0.2.10 of `www` is to be there, a mail exchange `mx` is
/// added to it, and the apex's texts are to go.
const UPDATE: &[u8; 81] =
    b"\x12\x34\x28\x00\x00\x01\x00\x01\x00\x02\x00\x00\x07example\x04test\x00\x00\x06\x00\x01\
      \x03www\xc0\x0c\x00\x01\x00\x01\x00\x00\x00\x00\x00\x04\xc0\x00\x02\x0a\
      \xc0\x1e\x00\x0f\x00\x01\x00\x00\x0e\x10\x00\x07\x00\x0a\x02mx\xc0\x0c\
      \xc0\x0c\x00\x10\x00\xff\x00\x00\x00\x00\x00\x00";

const APEX: &[u8] = b"\x07example\x04test\x00";

const WWW: &[u8] = b"\x03www\x07example\x04test\x00";

/// A record: the octets of its owner, its type, class and TTL, and its data octets.
type Row = (&'static [u8], (u16, u16, u32), &'static [u8]);

/// The prerequisite of that update, and its updates.
const PREREQUISITES: [Row; 1] = [(WWW, (1, 1, 0), b"\xc0\x00\x02\x0a")];

const UPDATES: [Row; 2] = [
    (WWW, (15, 1, 3600), b"\x00\x0a\x02mx\x07example\x04test\x00"),
    (APEX, (16, 255, 0), b""),
];

/// Whether records are these.
fn are(records: &RawRecords, rows: &[Row]) -> bool {
    let records = records.as_slice();
    for (record, (owner, fields, octets)) in records.iter().zip(rows) {
        let outcome = (record.rtype.0, record.class.0, record.ttl);
        if record.owner.wire() != *owner
            || outcome != *fields
            || record.octets.as_slice() != *octets
        {
            return false;
        }
    }
    records.len() == rows.len()
}

/// Whether an update has the zone and the records of its sections.
fn is_whole(update: &Update) -> bool {
    update.zone.name.wire() == APEX
        && are(&update.prerequisites, &PREREQUISITES)
        && are(&update.updates, &UPDATES)
}

/// Whether the octets are read as that update; None where want of memory is told, of its header.
fn is_read(alloc: Global) -> Option<bool> {
    match parse(alloc, UPDATE) {
        Parsed::Update(update) => Some(is_whole(&update)),
        Parsed::NoMemory(head) if head.id == 0x1234 => None,
        _ => Some(false),
    }
}

// With any one growth refused, an update is told as that alone, and is read in whole from the same octets once more.
#[test]
fn refused_growth(rt: HostRuntime) {
    let read = match is_read(rt.alloc()) {
        Some(read) => Some(read),
        None => is_read(rt.alloc()),
    };
    assert_eq!(rt; read, Some(true));
}

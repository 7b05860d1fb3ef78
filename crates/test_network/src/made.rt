//! What the tests are made of: zones, and versions of them.
use dns_name::Name;
use dns_rdata::{RData, RRset, RType, Ttl};
use std::alloc::Global;
use zone_tree::{Version, Zone};

/// The names of a zone: its apex, its server and its mailbox.
pub(crate) const NAMES: [&str; 3] = ["example.test.", "ns1.example.test.", "admin.example.test."];

/// The data of an SOA after its serial: refresh, retry, expire and minimum (RFC 1035, 3.3.13).
const TIMES: [u8; 16] = [
    0, 0, 0x1c, 0x20, 0, 0, 3, 0x84, 0, 0x12, 0x75, 0, 0, 0, 1, 0x2c,
];

/// A name.
pub(crate) fn name(text: &str) -> Option<Name> {
    Name::from_text(text.as_bytes(), &Name::root()).ok()
}

/// The data of an SOA: the names of the server and of the mailbox, and the serial.
fn soa_octets(alloc: Global, server: &Name, mailbox: &Name, serial: u32) -> Option<Vec<u8>> {
    let mut octets = server.wire().to_vec(alloc).ok()?;
    octets.extend_from_slice(mailbox.wire()).ok()?;
    octets.extend_from_slice(&serial.to_be_bytes()).ok()?;
    octets.extend_from_slice(&TIMES).ok()?;
    Some(octets)
}

/// A set of one record, with a TTL of an hour.
fn set_of(alloc: Global, owner: &Name, rtype: RType, octets: &[u8]) -> Option<RRset> {
    let data = RData::from_wire(alloc, rtype, octets).ok()?;
    RRset::new(alloc, owner, Ttl(3600), data).ok()
}

/// The zone of an SOA and a name server, by their names in text: the apex, the server and the mailbox; and the serial.
pub(crate) fn zone_of(alloc: Global, names: &[&str; 3], serial: u32) -> Option<Zone> {
    let [apex, server, mailbox] = *names;
    let (apex, server, mailbox) = (name(apex)?, name(server)?, name(mailbox)?);
    let soa = soa_octets(alloc, &server, &mailbox, serial)?;
    let servers = set_of(alloc, &apex, RType::NS, server.wire())?;
    let soa = set_of(alloc, &apex, RType::SOA, &soa)?;
    Zone::new(alloc, Vec::from_array(alloc, [servers, soa]).ok()?).ok()
}

/// A version of the zone at `example.test.`, by its number and its serial.
pub(crate) fn version_of(alloc: Global, number: u64, serial: u32) -> Option<Version> {
    let mut version = Version::first(zone_of(alloc, &NAMES, serial)?);
    version.renumber(number);
    Some(version)
}

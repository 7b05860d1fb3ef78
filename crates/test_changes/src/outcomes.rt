//! What becomes of updates of a small zone where no reply shows it: from whom they come, and refused memory.
ghost use Rattle.std.specs.Prelude.{◌+◌, ◌<◌, ◌^◌};

use crate::made::{RawRow, SetRow, name, sets_in, update_of, zone_anew};
use dns_message::Update;
use dns_rdata::{Class, RType};
use std::alloc::Global;
use update_core::{Outcome, apply, verdict};
use zone_tree::{Version, ZoneRead};

const NS: &[u8] = b"\x03ns1\x07example\x04test\0";

const SOA: &[u8] = b"\0\0\0\0\0\x01\0\0\x1c\x20\0\0\x03\x84\0\x12\x75\0\0\0\x01\x2c";

/// A zone of three sets, an address at `web` beside those of the apex.
const ZONE: [SetRow; 3] = [
    ("@", RType::NS, NS),
    ("@", RType::SOA, SOA),
    ("web", RType::A, &[192, 0, 2, 1]),
];

const NEW: RawRow = ("new", RType::A, Class::IN, 0, &[192, 0, 2, 1]);

const OUTSIDE: RawRow = ("test.", RType::A, Class::IN, 0, &[192, 0, 2, 1]);

const IN_USE: RawRow = ("new", RType::ANY, Class::ANY, 0, &[]);

/// Prerequisites and updates of a peer that may not update, and the number of the code: REFUSED, a prerequisite before the permission, and
/// the permission before the prescan.
const NOT_PERMITTED: [(&[RawRow], &[RawRow], u8); 4] = [
    (&[], &[NEW], 5),
    (&[IN_USE], &[NEW], 3),
    (&[], &[OUTSIDE], 5),
    (&[], &[NEW, OUTSIDE], 5),
];

/// The number of the code with which an update of a peer that may not update is refused (RFC 2136, 2.2), as `apply` and as `verdict` tell
/// it; None where either doesn't refuse it.
fn codes(alloc: Global, version: &Version, asked: &Update) -> Option<(u8, u8)>
    requires { version.now.number + 1 < 2 ^ 64 }
{
    let Outcome::Refused(outcome) = apply(alloc, version, asked, false) else {
        return None;
    };
    match verdict(version.zone(), asked, false) {
        Ok(()) => None,
        Err(code) => Some((outcome.number(), code.number())),
    }
}

// RFC 2136, 3: the first rule that is broken is told.
#[test]
fn not_permitted(rt: HostRuntime) {
    let version = Version::first(zone_anew(rt.alloc(), &ZONE).expect(&rt, "a zone"));
    for (prerequisites, updates, want) in NOT_PERMITTED {
        let asked = update_of(rt.alloc(), prerequisites, updates).expect(&rt, "an update");
        assert_eq!(rt; codes(rt.alloc(), &version, &asked), Some((want, want)));
    }
}

/// Whether a zone has a set of one record, with this TTL and this data.
fn has_one(version: &Version, owner: &str, rtype: RType, ttl: u32, octets: &[u8]) -> bool {
    let Some(owner) = name(owner) else {
        return false;
    };
    match version.zone().rrset(&owner, rtype) {
        None => false,
        Some(set) => {
            set.ttl().0 == ttl && set.data().len() == 1 && set.data()[0].octets() == octets
        }
    }
}

/// Whether a version has the zone's three sets, and no other. It takes no memory.
fn is_first(version: &Version) -> bool {
    sets_in(version.zone()) == 3
        && has_one(version, "@", RType::NS, 3600, NS)
        && has_one(version, "@", RType::SOA, 3600, SOA)
        && has_one(version, "web", RType::A, 3600, &[192, 0, 2, 1])
}

/// Whether a version is the second, of serial 2, with another address at `web`, and tells that it deleted a set and added one.
fn is_second(version: &Version) -> bool {
    let Some(delta) = version.delta() else {
        return false;
    };
    let outcome = (version.number(), version.serial().0);
    let changed = (delta.deletions().len(), delta.additions().len());
    outcome == (1, 2) && changed == (1, 1) && has_one(version, "web", RType::A, 60, &[192, 0, 2, 3])
}

/// An address in place of another.
const REPLACES: [RawRow; 2] = [
    ("web", RType::A, Class::IN, 60, &[192, 0, 2, 3]),
    ("web", RType::A, Class::NONE, 0, &[192, 0, 2, 1]),
];

/// Whether this update makes the second version; None where memory is refused and the version stayed as it was.
fn makes_second(alloc: Global, version: &Version) -> Option<bool>
    requires { version.now.number + 1 < 2 ^ 64 }
{
    let asked = update_of(alloc, &[], &REPLACES)?;
    match apply(alloc, version, &asked, true) {
        Outcome::Next(next) => Some(is_second(&next) && is_first(version)),
        Outcome::NoMemory if is_first(version) => None,
        _ => Some(false),
    }
}

// With any one growth refused, the version stays as it was, and the same update makes the next one once it is sent anew, which tells
// what it changed.
#[test]
fn refused_growth(rt: HostRuntime) {
    let version = Version::first(zone_anew(rt.alloc(), &ZONE).expect(&rt, "a zone"));
    let made = match makes_second(rt.alloc(), &version) {
        Some(made) => Some(made),
        None => makes_second(rt.alloc(), &version),
    };
    assert_eq!(rt; made, Some(true));
}

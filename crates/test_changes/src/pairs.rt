//! Random pairs of zones: the update that takes the one to the other is accepted, and makes of it the zone that it is to become.
ghost use Rattle.std.specs.Prelude.{◌≡◌, IfSome};

use crate::made::name;
use dns_rdata::{RData, RRset, RType, Ttl};
use std::alloc::Global;
use update_core::{Outcome, apply};
use zone_change::change_to;
use zone_tree::{Version, Zone, ZoneRead};

/// How many pairs there are.
const PAIRS: u32 = 1_000;

/// The owners of a zone, in canonical order (RFC 4034, 6.1).
const OWNERS: [&str; 7] = ["@", "*", "a", "x.a", "b", "deep.ent", "web"];

/// Serials at the ends of the number space, and half of it apart (RFC 1982, 3.2).
const SERIALS: [u32; 6] = [0, 1, 2, 2_147_483_647, 2_147_483_649, 4_294_967_295];

/// Numbers that follow from their seed (a linear congruential generator).
#[derive(Drop)]
struct Random {
    state: u64,
}

impl Random {
    /// The next number, which is below 256.
    fn octet(&mut self) -> u8 {
        self.state = self
            .state
            .wrapping_mul(6_364_136_223_846_793_005)
            .wrapping_add(1_442_695_040_888_963_407);
        self.state.to_be_bytes()[1]
    }

    /// One of the serials.
    fn serial(&mut self) -> u32 {
        let at = usize::from(self.octet()) % SERIALS.len();
        SERIALS[at]
    }
}

/// What a zone is made from: an octet for each owner, which says what the owner has, its serial, and an octet of its SOA.
#[derive(Clone, Copy)]
struct Seeds {
    owners: [u8; 7],
    serial: u32,
    minimum: u8,
}

impl Seeds {
    /// Seeds that are all new.
    fn new(random: &mut Random) -> Seeds {
        let mut owners = [0u8; 7];
        for octet in &mut owners {
            *octet = random.octet();
        }
        Seeds {
            owners,
            serial: random.serial(),
            minimum: random.octet() % 2,
        }
    }

    /// The same, of which about a third are drawn anew.
    fn changed(&self, random: &mut Random) -> Seeds {
        let mut owners = self.owners;
        for octet in &mut owners {
            if random.octet() % 3 == 0 {
                *octet = random.octet();
            }
        }
        Seeds {
            owners,
            serial: random.serial(),
            minimum: if random.octet() % 4 == 0 {
                1
            } else {
                self.minimum
            },
        }
    }

    /// The same with another serial.
    fn at(&self, serial: u32) -> Seeds {
        Seeds {
            owners: self.owners,
            serial,
            minimum: self.minimum,
        }
    }

    /// The zone. None where it is none, or memory is refused.
    fn zone(&self, alloc: Global) -> Option<Zone> {
        let mut sets = Vec::new(alloc);
        for (owner, seed) in OWNERS.iter().zip(self.owners.iter()) {
            if *owner == "@" {
                self.put_apex(alloc, &mut sets, *seed)?;
            } else {
                put_owner(alloc, &mut sets, owner, *seed)?;
            }
        }
        Zone::new(alloc, sets).ok()
    }

    /// Adds the sets of the apex: one to three servers, the SOA, and more.
    fn put_apex(&self, alloc: Global, sets: &mut Vec<RRset>, seed: u8) -> Option<()> {
        put_set(alloc, sets, ("@", RType::NS), seed % 3 + 1)?;
        let mut soa = Vec::new(alloc);
        soa.extend_from_slice(&[0, 0]).ok()?;
        soa.extend_from_slice(&self.serial.to_be_bytes()).ok()?;
        soa.extend_from_slice(&[0; 15]).ok()?;
        soa.push(self.minimum).ok()?;
        let data = RData::from_wire(alloc, RType::SOA, &soa).ok()?;
        let set = RRset::new(alloc, &name("@")?, Ttl(3600), data).ok()?;
        sets.push(set).ok()?;
        put_set(alloc, sets, ("@", RType::MX), seed / 3 % 2)?;
        put_set(alloc, sets, ("@", RType::TXT), seed / 6 % 4)
    }
}

/// Adds the sets of an owner below the apex: none, an alias, or data.
fn put_owner(alloc: Global, sets: &mut Vec<RRset>, owner: &str, seed: u8) -> Option<()> {
    let left = seed / 5;
    match seed % 5 {
        0 => Some(()),
        1 => put_set(alloc, sets, (owner, RType::CNAME), left % 2 + 1),
        _ => {
            put_set(alloc, sets, (owner, RType::A), left % 4)?;
            put_set(alloc, sets, (owner, RType::TXT), left / 4 % 4)?;
            put_set(alloc, sets, (owner, RType::AAAA), left / 16 % 4)
        }
    }
}

/// Adds the set that has a record for each bit of a number of two bits; no set for 0. Its TTL follows from it.
fn put_set(alloc: Global, sets: &mut Vec<RRset>, place: (&str, RType), bits: u8) -> Option<()> {
    let (owner, rtype) = place;
    let ttl = if bits == 3 { Ttl(300) } else { Ttl(3600) };
    let first = if bits % 2 == 1 { 1 } else { 2 };
    if bits == 0 {
        return Some(());
    }
    let mut set = RRset::new(alloc, &name(owner)?, ttl, data_of(alloc, rtype, first)?).ok()?;
    if bits == 3 {
        set.insert(data_of(alloc, rtype, 2)?).ok()?;
    }
    sets.push(set).ok()
}

/// Data of a type with this octet in it.
fn data_of(alloc: Global, rtype: RType, octet: u8) -> Option<RData>
    ensures { IfSome result (λ d. d.rtype ≡ rtype.0) }
{
    let (before, after): (&[u8], &[u8]) = match rtype {
        RType::A => (&[192, 0, 2], &[]),
        RType::NS | RType::CNAME => (&[1], &[0]),
        RType::MX => (&[0], b"\x02mx\0"),
        RType::AAAA => (&[0; 15], &[]),
        _ => (&[1], &[]),
    };
    let mut octets = Vec::new(alloc);
    octets.extend_from_slice(before).ok()?;
    octets.push(octet).ok()?;
    octets.extend_from_slice(after).ok()?;
    RData::from_wire(alloc, rtype, &octets).ok()
}

/// Whether two zones have the same records.
fn is_same_zone(one: &Zone, other: &Zone) -> bool {
    one.count() == other.count() && one.walk().zip(other.walk()).all(|(a, b)| a.is_same(b))
}

/// Whether a serial is greater than another (RFC 1982, 3.2).
fn is_greater(serial: u32, than: u32) -> bool {
    let distance = serial.wrapping_sub(than);
    distance != 0 && distance < 2_147_483_648
}

/// The zone that a zone is to become by the change to another: that one, where its serial is greater; and else that one at the serial after,
/// unless they differ in nothing but the serial.
fn expected(alloc: Global, old: &Seeds, next: &Seeds) -> Option<Zone> {
    if is_greater(next.serial, old.serial) {
        return next.zone(alloc);
    }
    let before = old.zone(alloc)?;
    if is_same_zone(&before, &next.at(old.serial).zone(alloc)?) {
        return Some(before);
    }
    next.at(old.serial.wrapping_add(1)).zone(alloc)
}

/// The zone that the update from a zone to another makes of it. None where it isn't accepted, or memory is refused.
fn made(alloc: Global, old: &Seeds, next: &Seeds) -> Option<Zone> {
    let before = old.zone(alloc)?;
    let Some(update) = change_to(alloc, &before, &next.zone(alloc)?).ok()? else {
        return Some(before);
    };
    match apply(alloc, &Version::first(before), &update, true) {
        Outcome::Next(version) => Some(version.into_zone()),
        _ => None,
    }
}

/// How many of so many pairs become what they are to become.
fn right_pairs(alloc: Global, pairs: u32) -> u32 {
    let mut random = Random { state: 1 };
    let mut right = 0u32;
    for _pair in 0..pairs {
        let old = Seeds::new(&mut random);
        let next = old.changed(&mut random);
        if is_right(alloc, &old, &next) {
            right = right.saturating_add(1);
        }
    }
    right
}

/// Whether a pair becomes what it is to become.
fn is_right(alloc: Global, old: &Seeds, next: &Seeds) -> bool {
    match (made(alloc, old, next), expected(alloc, old, next)) {
        (Some(zone), Some(wanted)) => is_same_zone(&zone, &wanted),
        _ => false,
    }
}

#[test]
fn each_pair_of_zones_is_changed(rt: HostRuntime) {
    assert!(rt; right_pairs(rt.alloc(), PAIRS) == PAIRS);
}

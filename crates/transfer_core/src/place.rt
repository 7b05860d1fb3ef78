//! Places in the lists of a transfer, from which it goes on (RFC 1995, 2 and 4; RFC 5936, 2.2).
ghost use Rattle.std.specs.Prelude.{◌≡◌, ◌≤◌, List, length, drop};
ghost use Rattle.zone_tree.specs.Version.{Version};
ghost use Rattle.zone_tree.specs.Zone.{soa_of};
ghost use Rattle.dns_rdata.specs.Record.{Record};
ghost use Rattle.transfer_core.specs.Chain.{reported};
ghost use Rattle.transfer_core.specs.Lists.{full, beside_soa};
ghost use Rattle.transfer_core.specs.Places.{zone_left, left_at};

use crate::chain::ChainView;
use crate::step::in_changes;
use dns_name::Name;
use dns_rdata::{RRset, RType};
use zone_tree::{Zone, ZoneRead};

/// A part of a version's difference sequence (RFC 1995, 4).
#[derive(Clone, Copy)]
pub enum Part {
    /// The old SOA and the deletions; of a version that knows of no change its SOA alone.
    Old,
    /// Its own SOA and the additions.
    New,
}

/// A place in a version's difference sequence.
#[derive(Clone, Copy)]
pub struct StepPlace {
    /// The part.
    pub(crate) part: Part,
    /// The set that is begun: 0 is the part's SOA.
    pub(crate) set: usize,
    /// How many of its records are sent.
    pub(crate) sent: u16,
}

/// A place in the list of what changed (RFC 1995, 4).
#[derive(Clone, Copy)]
pub struct ChangesPlace {
    /// Which of the versions, 0 the oldest.
    pub(crate) version: usize,
    /// The place in its difference sequence.
    pub(crate) step: StepPlace,
}

/// A place in the list of a zone in whole, after the SOA that opens it (RFC 5936, 2.2).
#[derive(Drop)]
pub struct ZonePlace {
    /// The owner of the set that is begun.
    pub(crate) owner: Name,
    /// Its type.
    pub(crate) rtype: RType,
    /// How many of its records are sent.
    pub(crate) sent: u16,
}

/// Where a transfer stands: what of its list is left (RFC 1995, 2 and 4; RFC 5936, 2.2). It owns what it tells.
#[derive(Drop)]
pub enum Place {
    /// All of a zone in whole is left.
    ZoneStart,
    /// A part of a zone in whole is left.
    InZone(ZonePlace),
    /// All of what changed is left.
    ChangesStart,
    /// A part of what changed is left.
    InChanges(ChangesPlace),
    /// The SOA is left, which closes a list, or is all of it.
    LastSoa,
    /// Nothing is left.
    End,
}

impl Place {
    /// The place after so many more records of the list of a zone, or of what changed up to it through the versions of a chain. It
    /// takes no memory, and no more steps than these records have sets, after a search for the owner.
    pub fn behind<C: ChainView>(&self, zone: &Zone, chain: &C, count: u16) -> Place
        ensures { left_at zone.now (C.versions chain.now) result ≡ drop count (left_at zone.now (C.versions chain.now) self.now) }
    {
        match self {
            Place::ZoneStart => in_full(zone, count),
            Place::InZone(at) => {
                let passed = sum(at.sent, count);
                in_zone(zone, &at.owner, at.rtype, passed)
            }
            Place::ChangesStart => in_list(zone, chain, count),
            Place::InChanges(at) => {
                let sent = sum(at.step.sent, count);
                in_changes(zone, chain, at.version, at.step.part, at.step.set, sent)
            }
            Place::LastSoa => at_close(zone, usize::from(count)),
            Place::End => Place::End,
        }
    }
}

/// How many records are sent with so many more.
fn sum(sent: u16, count: u16) -> usize
    ensures { (list : List Record) → drop result list ≡ drop count (drop sent list) }
{
    usize::from(sent) + usize::from(count)
}

/// The place after so many records of the list of a zone in whole.
fn in_full(zone: &Zone, count: u16) -> Place
    ensures { (versions : List Version) → left_at zone.now versions result ≡ drop count (full zone.now) }
{
    if count == 0 {
        return Place::ZoneStart;
    }
    // The first of them is the SOA, which is one record.
    let _soa = zone.soa();
    let more = usize::from(count) - 1;
    in_zone(zone, &Name::root(), RType(0), more)
}

/// The place after so many records of the list of what changed.
fn in_list<C: ChainView>(zone: &Zone, chain: &C, count: u16) -> Place
    ensures { left_at zone.now (C.versions chain.now) result ≡ drop count (reported (soa_of zone.now) (C.versions chain.now)) }
{
    if count == 0 {
        return Place::ChangesStart;
    }
    // The first of them is the SOA, which is one record.
    let _soa = zone.soa();
    let more = usize::from(count) - 1;
    in_changes(zone, chain, 0, Part::Old, 0, more)
}

/// The place after so many records of the list of a zone in whole from an owner and a type on.
fn in_zone(zone: &Zone, owner: &Name, rtype: RType, sent: usize) -> Place
    ensures { (versions : List Version) → left_at zone.now versions result ≡ drop sent (zone_left zone.now owner.now rtype.0) }
{
    let mut walk = zone.walk_from(owner, rtype);
    let mut left = sent;
    while let Some(set) = walk.next() {
        let count = count_others(set);
        if left < count {
            return Place::InZone(ZonePlace {
                owner: set.owner(),
                rtype: set.rtype(),
                sent: left as u16,
            });
        }
        left -= count;
    }
    at_close(zone, left)
}

/// The place after so many records of a list of which the SOA is left.
pub(crate) fn at_close(zone: &Zone, sent: usize) -> Place
    ensures { (versions : List Version) → left_at zone.now versions result ≡ drop sent (soa_of zone.now) }
{
    // It is one record.
    let _soa = zone.soa();
    let is_left = sent == 0;
    if is_left { Place::LastSoa } else { Place::End }
}

/// How many records a set has, but for the SOA's, which have a place of their own.
fn count_others(set: &RRset) -> usize
    ensures count { result ≡ length (beside_soa set.now) }
    ensures few { result ≤ 256 }
{
    if set.rtype() == RType::SOA {
        return 0;
    }
    set.data().len()
}

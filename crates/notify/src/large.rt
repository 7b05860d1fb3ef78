//! What of a zone BIND takes as a secondary only where it is configured so.
ghost use Rattle.std.specs.Prelude.{◌≡◌, ◌<◌, ◌≤◌, ◌↔◌, IsTrue, length};
ghost use Rattle.dns_rdata.specs.Record.{owner_of, rtype_of};
ghost use Rattle.zone_tree.specs.Zone.{rrset_of, rrsets_of};
ghost use Rattle.zone_tree.specs.Sets.{sets_in};
ghost use Rattle.notify.specs.Large.{most, HasPassed, IsTold, IsFound, IsLarge};

use dns_name::Name;
use dns_rdata::{RRset, RType};
use std::fmt::{self, Display, Formatter};
use zone_tree::{Zone, ZoneRead};

/// How many records of a set, and how many types of an owner, BIND takes of a transfer where nothing else is configured
/// (`max-records-per-type`, `max-types-per-name`; BIND 9.18.28, 9.20.0 and later).
pub const BIND_MOST: usize = 100;

/// Of what there is more than [`BIND_MOST`].
#[derive(Clone, Copy, Debug, PartialEq, Eq)]
pub enum Many {
    /// Records of a set of the owner.
    Records,
    /// Types of the owner.
    Types,
}

/// An owner that has more than BIND takes as a secondary where nothing else is configured.
pub struct Large {
    /// The owner.
    pub owner: Name,
    /// Of what it has more.
    pub many: Many,
}

impl Drop for Large {
    fn drop(self) {
        let Large { owner: _, many: _ } = self;
    }
}

impl Display for Large {
    fn fmt<W: fmt::Write>(&self, f: &mut Formatter<W>) -> fmt::Result {
        let owner = self.owner.to_text();
        let many = match self.many {
            Many::Records => "a set of more than 100 records",
            Many::Types => "more than 100 types",
        };
        write!(
            f,
            "{owner} has {many}: BIND as a secondary takes the zone only with 'max-records-per-type 256; max-types-per-name 0;'"
        )
    }
}

/// Whether the set of an owner and a type has more than [`BIND_MOST`] records.
fn has_many_records<Z: ZoneRead>(zone: &Z, owner: &Name, rtype: RType) -> bool
    ensures { IsTrue result ↔ (most < length (rrset_of (Z.records zone.now) owner.now rtype.0)) }
{
    match zone.rrset(owner, rtype) {
        Some(set) => set.data().len() > BIND_MOST,
        None => false,
    }
}

/// Whether an owner has more than [`BIND_MOST`] types.
fn has_many_types<Z: ZoneRead>(zone: &Z, owner: &Name) -> bool
    ensures { IsTrue result ↔ (most < length (sets_in (rrsets_of (Z.records zone.now) owner.now))) }
{
    zone.rrsets_at(owner).len() > BIND_MOST
}

/// Of what a set, or its owner, has more than [`BIND_MOST`], of a zone's sets.
fn many_of(zone: &Zone, set: &RRset) -> Option<Many>
    ensures { IsTold (IsLarge zone.now set.now) result }
{
    let (owner, rtype) = (set.owner(), set.rtype());
    if has_many_records(zone, &owner, rtype) {
        return Some(Many::Records);
    }
    if usize::from(rtype.0) >= BIND_MOST && has_many_types(zone, &owner) {
        return Some(Many::Types);
    }
    None
}

/// The first owner of a zone, in canonical order, that has more than BIND takes as a secondary where nothing else is configured; None where none has. It takes no memory.
pub fn large_in(zone: &Zone) -> Option<Large>
    ensures { IsFound (sets_in zone.now) (IsLarge zone.now) result }
{
    for set in zone.walk() {
        if let Some(many) = many_of(zone, set) {
            let owner = set.owner();
            return Some(Large { owner, many });
        }
    }
    None
}

/// Of what an owner has more than [`BIND_MOST`] in a zone, of records of a type or of types, and hadn't in the zone before.
fn passed_at(before: &Zone, after: &Zone, owner: &Name, rtype: RType) -> Option<Many>
    ensures { IsTold (HasPassed before.now after.now owner.now rtype.0) result }
{
    if has_many_records(after, owner, rtype) && !has_many_records(before, owner, rtype) {
        return Some(Many::Records);
    }
    if has_many_types(after, owner) && !has_many_types(before, owner) {
        return Some(Many::Types);
    }
    None
}

/// The first owner, in canonical order, to which records were added and which then has more than BIND takes as a secondary where nothing else is configured, and hadn't
/// before; None where there is none. It takes no memory.
pub fn passed_by(before: &Zone, after: &Zone, added: &[RRset]) -> Option<Large>
    ensures { IsFound added.now (λ set. HasPassed before.now after.now (owner_of set) (rtype_of set)) result }
{
    for set in added {
        let owner = set.owner();
        if let Some(many) = passed_at(before, after, &owner, set.rtype()) {
            return Some(Large { owner, many });
        }
    }
    None
}

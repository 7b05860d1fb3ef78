//! What a record that tells of a deletion changes (RFC 2136, 3.4.2.3 and 3.4.2.4).
ghost use Rattle.std.specs.Prelude.{◌≡◌, ◌≢◌, ◌==◌, true, false, [], None, filter, IfOk, MatchOption};
ghost use Rattle.std.specs.List.{AllByRecursion};
ghost use Rattle.dns_rdata.specs.Numbers.{class_ANY, class_NONE, type_ANY};
ghost use Rattle.dns_rdata.specs.Record.{without_data, has_data};
ghost use Rattle.zone_tree.specs.Zone.{IsZone, rrset_of};
ghost use Rattle.update_core.specs.Verdict.{has_rrset};
ghost use Rattle.update_core.specs.Act.{is_apex_set, is_last_apex_record};
ghost use Rattle.update_core.specs.Overlay.{IsChangeAt, IsRow};
ghost use Rattle.update_core.specs.Applied.{AreOf, removals, may_go};

use crate::ordered::is_among;
use crate::place::Place;
use crate::rows::Row;
use dns_name::Name;
use dns_rdata::{RRset, RType, RawRecord};
use std::alloc::{AllocError, Global};
use zone_tree::Change;

/// The changes that a record of class ANY and type ANY makes: all sets of its owner go, at the apex all but SOA and NS.
pub(crate) fn changes_of_name(
    alloc: Global,
    zone: &Place<'_>,
    raw: &RawRecord,
) -> Result<Vec<Change>, AllocError>
    requires lawful { IsZone zone.now.made }
    requires at { zone.now.owner ≡ raw.now.owner }
    requires class { raw.now.class ≡ class_ANY }
    requires rtype { raw.now.rtype ≡ type_ANY }
    ensures of { IfOk result (λ changes. AreOf zone.now.made raw.now changes.items) }
    ensures at { IfOk result (λ changes. AllByRecursion (IsChangeAt raw.now.owner) changes.items) }
{
    removals(alloc, zone, &raw.owner, zone.rrsets())
}

/// The removals of an owner's sets, but for those that the apex keeps.
fn removals(
    alloc: Global,
    zone: &Place<'_>,
    owner: &Name,
    sets: &[RRset],
) -> Result<Vec<Change>, AllocError>
    ensures { IfOk result (λ changes. changes.items ≡ removals owner.now (filter (may_go zone.now.made owner.now) sets.now)) }
{
    let mut changes = Vec::with_capacity(alloc, sets.len())?;
    for set in sets {
        if !is_apex_set(zone, owner, set.rtype()) {
            changes.push(Change::Remove(owner.copy(), set.rtype()))?;
        }
    }
    Ok(changes)
}

/// What a record of class ANY and another type does: its set goes, but not the apex's SOA or NS.
pub(crate) fn row_of_set(zone: &Place<'_>, raw: &RawRecord) -> Row
    requires lawful { IsZone zone.now.made }
    requires at { zone.now.owner ≡ raw.now.owner }
    requires class { raw.now.class ≡ class_ANY }
    requires rtype { (raw.now.rtype == type_ANY) ≡ false }
    ensures { IsRow zone.now.made raw.now result }
{
    if is_apex_set(zone, &raw.owner, raw.rtype) {
        return Row::Nothing;
    }
    if !has_set(zone, raw) {
        return Row::Nothing;
    }
    Row::OneSet(None)
}

/// What a record of class NONE does: the record of its data goes, but not the apex's SOA or last NS.
pub(crate) fn row_of_record(zone: &Place<'_>, raw: &RawRecord) -> Row
    requires lawful { IsZone zone.now.made }
    requires at { zone.now.owner ≡ raw.now.owner }
    requires class { raw.now.class ≡ class_NONE }
    ensures { IsRow zone.now.made raw.now result }
{
    if is_last_apex_record(zone, &raw.owner, raw.rtype) {
        return Row::Nothing;
    }
    if !has_record(zone, raw) {
        return Row::Nothing;
    }
    Row::OneSet(None)
}

/// Whether a record's set stands in a zone.
fn has_set(zone: &Place<'_>, raw: &RawRecord) -> bool
    requires { zone.now.owner ≡ raw.now.owner }
    ensures { result ≡ has_rrset zone.now.made raw.now.owner raw.now.rtype }
{
    zone.rrset(raw.rtype).is_some()
}

/// Whether the record of these data stands in a zone. Its set is searched by halves, and not copied.
fn has_record(zone: &Place<'_>, raw: &RawRecord) -> bool
    requires { zone.now.owner ≡ raw.now.owner }
    ensures { result ≡ has_data (rrset_of zone.now.made raw.now.owner raw.now.rtype) raw.now.octets }
{
    match zone.rrset(raw.rtype) {
        Some(set) => is_among(set, &raw.octets),
        None => false,
    }
}

/// Whether a name and a type are those of the apex's SOA or NS.
fn is_apex_set(zone: &Place<'_>, owner: &Name, rtype: RType) -> bool
    ensures { result ≡ is_apex_set zone.now.made owner.now rtype.0 }
{
    *owner == *zone.apex() && (rtype == RType::SOA || rtype == RType::NS)
}

/// Whether a name and a type are those of the apex's SOA, or of its NS where that is one record.
fn is_last_apex_record(zone: &Place<'_>, owner: &Name, rtype: RType) -> bool
    requires { zone.now.owner ≡ owner.now }
    ensures { result ≡ is_last_apex_record zone.now.made owner.now rtype.0 }
{
    if *owner != *zone.apex() {
        return false;
    }
    match zone.rrset(RType::NS) {
        Some(servers) => rtype == RType::SOA || (rtype == RType::NS && servers.data().len() == 1),
        None => rtype == RType::SOA,
    }
}

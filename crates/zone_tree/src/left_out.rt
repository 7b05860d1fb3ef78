//! What a zone has that another hasn't, found at the owners where they differ (RFC 1995, 4).
ghost use Rattle.std.specs.Prelude.{◌≡◌, ◌++◌, true, not, map, filter, bytes_eq, All, IfOk, OnOk};
ghost use Rattle.std.specs.List.{list_any};
ghost use Rattle.std.specs.List.Sorted.{IsStrictlySortedBy};
ghost use Rattle.std.specs.Option.{option_to_list};
ghost use Rattle.dns_name.specs.Name.{Name, canonical_cmp, is_same, fold_name};
ghost use Rattle.dns_rdata.specs.Record.{owner_of, rtype_of};
ghost use Rattle.zone_tree.specs.Sets.{records_in, IsRRset, AreAscending};
ghost use Rattle.zone_tree.specs.Change.{left_out};
ghost use Rattle.zone_tree.specs.Delta.{DifferOnlyAt, lacking, some_set, sets_left_out};

use crate::read::ZoneRead;
use crate::zone::Zone;
use dns_name::{Name, StoredName};
use dns_rdata::{RData, RRset, RType};
use std::alloc::{AllocError, Global};

/// Names in canonical order, those that are the same once: as a zone keeps them, in which form names of many labels are compared at
/// once. `AllocError` where a growth was refused.
pub(crate) fn in_order(alloc: Global, names: &[Name]) -> Result<Vec<StoredName>, AllocError>
    ensures ascending { IfOk result (λ owners. IsStrictlySortedBy canonical_cmp owners.items) }
    ensures same { IfOk result (λ owners. (name : Name) → list_any (is_same name) owners.items ≡ list_any (is_same name) names.now) }
{
    let mut owners = all_stored(alloc, names)?;
    owners.sort_unstable();
    owners.dedup();
    Ok(owners)
}

// Names as a zone keeps them, in their order.
fn all_stored(alloc: Global, names: &[Name]) -> Result<Vec<StoredName>, AllocError>
    ensures { IfOk result (λ owners. owners.items ≡ map fold_name names.now) }
{
    let mut owners = Vec::with_capacity(alloc, names.len())?;
    for name in names {
        owners.push(StoredName::new(alloc, name)?)?;
    }
    Ok(owners)
}

// A set without the records of these data; None where no other is left.
fn without_all(set: RRset, absent: &[RData]) -> Option<RRset>
    requires { IsRRset set }
    ensures { option_to_list result ≡ some_set (filter (λ r. not (list_any (λ d. bytes_eq d.octets r.rdata) absent.now)) set) }
{
    let mut left = set;
    for rdata in absent {
        left = left.without(rdata.octets())?;
    }
    Some(left)
}

// The records of a set that another of its owner and type hasn't: all where the TTLs differ. None where it has them all.
fn set_lacking(alloc: Global, set: &RRset, other: &RRset) -> Result<Option<RRset>, AllocError>
    requires lawful { IsRRset set.now }
    requires owner { is_same (owner_of set.now) (owner_of other.now) ≡ true }
    requires rtype { rtype_of set.now ≡ rtype_of other.now }
    ensures { IfOk result (λ left. option_to_list left ≡ some_set (lacking set.now other.now)) }
{
    let copy = set.copy(alloc)?;
    if set.ttl() != other.ttl() {
        return Ok(Some(copy));
    }
    Ok(without_all(copy, other.data()))
}

// The records of a set that a zone hasn't; None where it has them all, and of the SOA.
fn set_left_out(alloc: Global, set: &RRset, other: &Zone) -> Result<Option<RRset>, AllocError>
    requires { IsRRset set.now }
    ensures { IfOk result (λ left. option_to_list left ≡ some_set (left_out set.now other.now)) }
{
    if set.rtype() == RType::SOA {
        return Ok(None);
    }
    match other.rrset(&set.owner(), set.rtype()) {
        Some(there) => set_lacking(alloc, set, there),
        None => Ok(Some(set.copy(alloc)?)),
    }
}

// What sets have that a zone hasn't, set by set, after others.
fn put_left_out(
    alloc: Global,
    to: &mut Vec<RRset>,
    sets: &[RRset],
    other: &Zone,
) -> Result<(), AllocError>
    requires { All IsRRset sets.now }
    ensures { OnOk result (to.new.items ≡ to.old.items ++ sets_left_out sets.now other.now) }
{
    for set in sets {
        if let Some(left) = set_left_out(alloc, set, other)? {
            to.push(left)?;
        }
    }
    Ok(())
}

/// What a zone has that another hasn't, SOA apart, in canonical order, where they differ only at these owners, which are
/// in canonical order. `AllocError` where a growth was refused.
pub(crate) fn left_out_sets(
    alloc: Global,
    zone: &Zone,
    other: &Zone,
    owners: &[StoredName],
) -> Result<Vec<RRset>, AllocError>
    requires ascending { IsStrictlySortedBy canonical_cmp owners.now }
    requires apart { DifferOnlyAt owners.now zone.now other.now }
    ensures ascending { IfOk result (λ sets. AreAscending sets.items) }
    ensures records { IfOk result (λ sets. records_in sets.items ≡ left_out zone.now other.now) }
{
    // Its records are a zone.
    let _soa = zone.soa();
    let mut sets = Vec::new(alloc);
    for owner in owners {
        put_left_out(alloc, &mut sets, zone.stored_sets(owner), other)?;
    }
    Ok(sets)
}

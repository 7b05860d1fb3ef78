//! The owners of a text's records that are in conflict, and the records at these alone.
ghost use Rattle.std.specs.Prelude.{◌≡◌, not, IfOk};
ghost use Rattle.std.specs.List.{filter};
ghost use Rattle.dns_rdata.specs.Record.{owner_of};
ghost use Rattle.master_file.specs.FaultyLine.{is_among};

use crate::kept::KeptRecord;
use dns_name::StoredName;
use dns_rdata::{RRset, RType};
use std::alloc::{AllocError, Global};
use std::collections::BTreeSet;
use zone_tree::has_asterisk;

/// The owners of sets in their order that likely are in conflict. Those who use them try the sets of all others.
pub(crate) fn likely_owners(
    alloc: Global,
    sets: &[RRset],
) -> Result<BTreeSet<StoredName>, AllocError> {
    let mut owners = BTreeSet::new(alloc);
    let mut last: Option<&RRset> = None;
    for set in sets {
        if is_likely(set, last) {
            owners.insert(set.stored_owner().copy(alloc)?)?;
        }
        last = Some(set);
    }
    Ok(owners)
}

/// Whether a set is an NS at `*`, has two aliases, or is beside the one before it at an owner that has an alias.
fn is_likely(set: &RRset, last: Option<&RRset>) -> bool {
    let is_alias = set.rtype() == RType::CNAME;
    if set.rtype() == RType::NS && has_asterisk(&set.owner()) || is_alias && set.data().len() > 1 {
        return true;
    }
    match last {
        Some(other) => (is_alias || other.rtype() == RType::CNAME)
            && set.stored_owner() == other.stored_owner(),
        None => false,
    }
}

/// Whether a set's owner is among others.
fn is_set_at(set: &RRset, owners: &BTreeSet<StoredName>) -> bool
    ensures { result ≡ is_among owners.now.keys (owner_of set.now) }
{
    owners.contains(set.stored_owner())
}

/// Keeps of sets those alone whose owners aren't among others.
pub(crate) fn keep_others(sets: &mut Vec<RRset>, owners: &BTreeSet<StoredName>)
    ensures { sets.new.items ≡ filter (λ set. not (is_among owners.now.keys (owner_of set))) sets.old.items }
{
    sets.retain(|set| !is_set_at(set, owners));
}

/// The records whose owners are among others, in their order.
pub(crate) fn records_at(
    alloc: Global,
    records: &[KeptRecord],
    owners: &BTreeSet<StoredName>,
) -> Result<Vec<KeptRecord>, AllocError>
    ensures { IfOk result (λ found. found.items ≡ filter (λ rr. is_among owners.now.keys rr.owner) records.now) }
{
    let mut found = Vec::new(alloc);
    for kept in records {
        if kept.is_at(owners) {
            found.push(kept.copy(alloc)?)?;
        }
    }
    Ok(found)
}

//! The sets of the records that are held (RFC 2181, 5).
ghost use Rattle.std.specs.Prelude.{◌≡◌, ◌<◌, ◌≤◌, ◌++◌, ◌∷◌, [], length, true, false, IfOk, OnOk, IfSome};
ghost use Rattle.std.specs.Bool.{OnFalse, OnTrue};
ghost use Rattle.std.specs.List.{AllByRecursion, list_all};
ghost use Rattle.std.specs.Option.{IfNone};
ghost use Rattle.std.specs.Ordering.{nat_cmp};
ghost use Rattle.std.specs.declared.cmp.Ordering.TheVariants.{Greater};
ghost use Rattle.std.specs.Cmp.Lexicographic.{slice_cmp};
ghost use Rattle.dns_rdata.specs.Limits.{max_data, max_set};
ghost use Rattle.dns_name.specs.Name.{Name};
ghost use Rattle.dns_rdata.specs.Record.{Record, owner_of, rtype_of, ttl_of};
ghost use Rattle.zone_tree.specs.Zone.{rrset_of, share_ttl};
ghost use Rattle.zone_tree.specs.Sets.{records_in};
ghost use Rattle.transfer_core.specs.Take.{is_zone};
ghost use Rattle.transfer_in.specs.ListState.{AreHeld};
ghost use Rattle.transfer_in.specs.Grouped.{IsBehindAll, AreInOrder};

use crate::held::HeldRecord;
use crate::holding::Holding;
use dns_name::Name;
use dns_rdata::{RData, RRset, SetFault};
use std::alloc::{AllocError, Global};

/// A set with one more record, whose data comes after that of all others. An `Err` only where a growth was refused.
fn with_last(mut set: RRset, rdata: RData) -> Result<RRset, AllocError>
    requires typed { rdata.rtype ≡ rtype_of set }
    requires room { length set < max_set }
    requires behind { AllByRecursion (λ (r : Record). slice_cmp nat_cmp rdata.octets r.rdata ≡ Greater) set }
    ensures { IfOk result (λ next. next ≡ set ++ record { owner = owner_of set; rtype = rdata.rtype; ttl = ttl_of set; rdata = rdata.octets } ∷ []) }
{
    match set.insert(rdata) {
        Ok(_) => Ok(set),
        Err(SetFault::NoMemory) => Err(AllocError),
        Err(SetFault::Limit) => unreachable!(),
    }
}

/// Puts a record that comes after all others into the last of the sets where that is of its owner and type, and else
/// after them. Whether it has the TTL of its set. An `Err` only where a growth was refused.
fn put(alloc: Global, sets: &mut Vec<RRset>, held: HeldRecord) -> Result<bool, AllocError>
    requires behind { IsBehindAll held (records_in sets.old.items) }
    requires rising { AreInOrder sets.old.items }
    requires short { length held.rdata ≤ max_data }
    requires room { length (rrset_of (records_in sets.old.items ++ held ∷ []) held.owner held.rtype) ≤ max_set }
    ensures records { IfOk result (λ shares. OnTrue shares (records_in sets.new.items ≡ records_in sets.old.items ++ held ∷ [])) }
    ensures rising { IfOk result (λ shares. OnTrue shares (AreInOrder sets.new.items)) }
    ensures other { IfOk result (λ shares. OnFalse shares (list_all (λ r. share_ttl r held) (records_in sets.old.items) ≡ false)) }
{
    let Some(last) = sets.pop() else {
        put_alone(alloc, sets, held)?;
        return Ok(true);
    };
    if held.is_of(&last) {
        return put_in(alloc, sets, last, &held);
    }
    // That the set has a record is known of it from here on.
    let _data = last.data();
    sets.push(last)?;
    put_alone(alloc, sets, held)?;
    Ok(true)
}

/// Puts the set of a record alone after all others. An `Err` only where a growth was refused.
fn put_alone(alloc: Global, sets: &mut Vec<RRset>, held: HeldRecord) -> Result<(), AllocError>
    requires { length held.rdata ≤ max_data }
    ensures { OnOk result (sets.new.items ≡ sets.old.items ++ (held ∷ []) ∷ []) }
{
    sets.push(held.into_set(alloc)?)?;
    Ok(())
}

/// Puts a record that comes after all others into its set, the last one, where it has that one's TTL. Whether it has. An `Err`
/// only where a growth was refused.
fn put_in(
    alloc: Global,
    sets: &mut Vec<RRset>,
    last: RRset,
    held: &HeldRecord,
) -> Result<bool, AllocError>
    requires owner { held.now.owner ≡ owner_of last }
    requires rtype { held.now.rtype ≡ rtype_of last }
    requires behind { IsBehindAll held.now (records_in (sets.old.items ++ last ∷ [])) }
    requires rising { AreInOrder (sets.old.items ++ last ∷ []) }
    requires short { length held.now.rdata ≤ max_data }
    requires room { length (rrset_of (records_in (sets.old.items ++ last ∷ []) ++ held.now ∷ []) held.now.owner held.now.rtype) ≤ max_set }
    ensures records { IfOk result (λ shares. OnTrue shares (records_in sets.new.items ≡ records_in (sets.old.items ++ last ∷ []) ++ held.now ∷ [])) }
    ensures rising { IfOk result (λ shares. OnTrue shares (AreInOrder sets.new.items)) }
    ensures other { IfOk result (λ shares. OnFalse shares (list_all (λ r. share_ttl r held.now) (records_in (sets.old.items ++ last ∷ [])) ≡ false)) }
{
    // That the set's records share their owner, type and TTL is known of it from here on.
    let _records = last.data();
    if held.ttl().0 != last.ttl().0 {
        return Ok(false);
    }
    sets.push(with_last(last, held.data(alloc)?)?)?;
    Ok(true)
}

/// The sets of records that are held in a zone of this apex; None where two records of a set differ in their TTL (RFC 2181,
/// 5.2). An `Err` only where a growth was refused.
pub(crate) fn sets_of(
    alloc: Global,
    apex: &Name,
    records: Holding,
) -> Result<Option<Vec<RRset>>, AllocError>
    requires { AreHeld apex.now records }
    ensures records { IfOk result (λ found. IfSome found (λ sets. records_in sets.items ≡ records)) }
    ensures rising { IfOk result (λ found. IfSome found (λ sets. AreInOrder sets.items)) }
    ensures none { IfOk result (λ found. IfNone found (is_zone apex.now records ≡ false)) }
{
    let mut sets = Vec::new(alloc);
    for held in records.into_records() {
        if !put(alloc, &mut sets, held)? {
            return Ok(None);
        }
    }
    Ok(Some(sets))
}

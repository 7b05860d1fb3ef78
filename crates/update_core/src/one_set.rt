//! What a record of an update makes of the set of its type: it joins it, replaces it, leaves it, or takes it away (RFC 2136,
//! 3.4.2.2 to 3.4.2.4). The set is changed where it stands.
ghost use Rattle.std.specs.Prelude.{◌≡◌, ◌≢◌, ◌<◌, ◌^◌, ◌==◌, true, [], length, List, IfOk, OnOk, IfSome, if◌then◌else◌};
ghost use Rattle.std.specs.Result.{IsErrOf};
ghost use Rattle.dns_name.specs.Name.{fold_name};
ghost use Rattle.dns_rdata.specs.Limits.{max_set};
ghost use Rattle.dns_rdata.specs.Numbers.{class_IN, class_NONE};
ghost use Rattle.dns_rdata.specs.Record.{Record, rtype_of, without_data};
ghost use Rattle.zone_tree.specs.Zone.{IsZone, rrset_of, rrsets_of};
ghost use Rattle.zone_tree.specs.Sets.{records_in};
ghost use Rattle.zone_tree.specs.Edit.{AreOwn};
ghost use Rattle.update_core.specs.Act.{entered};
ghost use Rattle.update_core.specs.Applied.{joined, set_behind};
ghost use Rattle.update_core.specs.Overlay.{set_or_none, set_left, IsDataOf, IsChanged};

use crate::own_sets::{count_of, put_set, remove_set};
use crate::rows::ActFault;
use dns_name::StoredName;
use dns_rdata::{Class, RData, RRset, RType, RawRecord, Ttl};
use std::alloc::{AllocError, Global};

/// Changes the set of a record's type among the sets of its owner, and tells how many records it had and has.
pub(crate) fn change_set(
    alloc: Global,
    own: &mut Vec<RRset>,
    owner: &StoredName,
    raw: &RawRecord,
    rdata: Option<RData>,
) -> Result<(usize, usize), ActFault>
    requires key { owner.now ≡ fold_name raw.now.owner }
    requires own { AreOwn raw.now.owner own.old.items }
    requires given { IsDataOf raw.now rdata }
    ensures each { (zone : List Record) → IsZone zone → records_in own.old.items ≡ rrsets_of zone raw.now.owner → OnOk result (IsChanged zone raw.now own.old.items own.new.items) }
    ensures counts { (zone : List Record) → IsZone zone → records_in own.old.items ≡ rrsets_of zone raw.now.owner → IfOk result (λ counts. (counts.0 ≡ length (rrset_of zone raw.now.owner raw.now.rtype)) × (counts.1 ≡ length (set_left zone raw.now))) }
    ensures limit { (zone : List Record) → IsZone zone → records_in own.old.items ≡ rrsets_of zone raw.now.owner → IsErrOf result ActFault.Limit → ((raw.now.class == class_IN) ≡ true) × (max_set < length (set_left zone raw.now)) }
{
    let old = remove_set(own, raw.rtype);
    let before = count_of(&old);
    let new = set_after(alloc, owner, old, raw, rdata)?;
    let after = count_of(&new);
    if let Some(set) = new {
        put_set(own, set)?;
    }
    Ok((before, after))
}

/// The set that stands after a record where another stood, or none.
fn set_after(
    alloc: Global,
    owner: &StoredName,
    old: Option<RRset>,
    raw: &RawRecord,
    rdata: Option<RData>,
) -> Result<Option<RRset>, ActFault>
    requires key { owner.now ≡ fold_name raw.now.owner }
    requires old { IfSome old (λ set. (set ≢ []) × (rtype_of set ≡ raw.now.rtype)) }
    requires given { IsDataOf raw.now rdata }
    ensures set { (zone : List Record) → IsZone zone → set_or_none old ≡ rrset_of zone raw.now.owner raw.now.rtype → IfOk result (λ new. set_or_none new ≡ set_left zone raw.now) }
    ensures limit { (zone : List Record) → IsZone zone → set_or_none old ≡ rrset_of zone raw.now.owner raw.now.rtype → IsErrOf result ActFault.Limit → ((raw.now.class == class_IN) ≡ true) × (max_set < length (set_left zone raw.now)) }
{
    match rdata {
        Some(rdata) => {
            let set = set_with(alloc, owner, old, raw, rdata)?;
            Ok(Some(set))
        }
        None => Ok(set_without(old, raw)),
    }
}

/// The set that stands where a record is added: an alias and an SOA replace what stood there, any other record joins it.
fn set_with(
    alloc: Global,
    owner: &StoredName,
    old: Option<RRset>,
    raw: &RawRecord,
    rdata: RData,
) -> Result<RRset, ActFault>
    requires key { owner.now ≡ fold_name raw.now.owner }
    requires old { IfSome old (λ set. (set ≢ []) × (rtype_of set ≡ raw.now.rtype)) }
    requires rtype { rdata.rtype ≡ raw.now.rtype }
    requires data { rdata.octets ≡ (entered raw.now).rdata }
    ensures set { (zone : List Record) → IsZone zone → set_or_none old ≡ rrset_of zone raw.now.owner raw.now.rtype → IfOk result (λ set. set ≡ set_behind zone raw.now) }
    ensures limit { (zone : List Record) → IsZone zone → set_or_none old ≡ rrset_of zone raw.now.owner raw.now.rtype → IsErrOf result ActFault.Limit → max_set < length (set_behind zone raw.now) }
{
    let ttl = Ttl::received(raw.ttl);
    if raw.rtype != RType::CNAME && raw.rtype != RType::SOA {
        if let Some(own) = old {
            return joined(own, ttl, rdata);
        }
    }
    let set = RRset::with_owner(alloc, owner.copy(alloc)?, ttl, rdata)?;
    Ok(set)
}

/// A set with one more record, each with its TTL (RFC 2136, 3.4.2.2; RFC 2181, 5.2).
fn joined(own: RRset, ttl: Ttl, rdata: RData) -> Result<RRset, ActFault>
    requires lasts { ttl.0 < 2 ^ 31 }
    requires rtype { rdata.rtype ≡ rtype_of own }
    ensures set { IfOk result (λ set. set ≡ joined own ttl.0 rdata.octets) }
    ensures limit { IsErrOf result ActFault.Limit → max_set < length (joined own ttl.0 rdata.octets) }
{
    let mut set = own;
    set.set_ttl(ttl);
    set.insert(rdata)?;
    Ok(set)
}

/// What is left of a set where the record of some data goes, or all of them.
fn set_without(old: Option<RRset>, raw: &RawRecord) -> Option<RRset>
    ensures { set_or_none result ≡ (if raw.now.class == class_NONE then without_data (set_or_none old) raw.now.octets else []) }
{
    match old {
        Some(set) if raw.class == Class::NONE => set.without(&raw.octets),
        _ => None,
    }
}

//! The sets of one owner, changed where they stand: they are in order of their types, and sought by halves.
ghost use Rattle.std.specs.Prelude.{◌≡◌, ◌≤◌, ◌<◌, ◌+◌, ◌==◌, true, false, not, [], ◌∷◌, length, filter, OnOk, IfOk, IfSome};
ghost use Rattle.std.specs.List.{find, AllByRecursion};
ghost use Rattle.std.specs.List.Sorted.{IsPartitionPoint};
ghost use Rattle.std.specs.Option.{option_copied};
ghost use Rattle.std.specs.Ordering.{nat_cmp, is_lt};
ghost use Rattle.std.specs.Result.{IsErrOf};
ghost use Rattle.dns_rdata.specs.Limits.{max_set};
ghost use Rattle.dns_rdata.specs.Record.{rtype_of};
ghost use Rattle.zone_tree.specs.Limits.{max_records};
ghost use Rattle.zone_tree.specs.From.{DoTypesAscend};
ghost use Rattle.zone_tree.specs.Sets.{records_in, IsRRset};
ghost use Rattle.zone_tree.specs.Edit.{put_at, AreOwn};
ghost use Rattle.update_core.specs.Overlay.{IsChangeAt, changed_sets, edited_sets, set_or_none};

use crate::rows::ActFault;
use dns_name::Name;
use dns_rdata::{RRset, RType};
use std::alloc::{AllocError, Global};
use zone_tree::{Change, MAX_RECORDS};

/// How many sets have a lower type.
fn count_lower(sets: &[RRset], rtype: RType) -> usize
    requires { DoTypesAscend sets.now }
    ensures bound { result ≤ length sets.now }
    ensures place { IsPartitionPoint (λ set. is_lt (nat_cmp (rtype_of set) rtype.0) ≡ true) (λ set. is_lt (nat_cmp (rtype_of set) rtype.0) ≡ false) sets.now result }
{
    sets.partition_point(
        |set: &RRset| -> bool
            ensures { result ≡ is_lt (nat_cmp (rtype_of set.now) rtype.0) }
        { set.rtype().cmp(&rtype).is_lt() },
    )
}

/// The set of a type among the sets of an owner.
pub(crate) fn set_of_type(sets: &[RRset], rtype: RType) -> Option<&RRset>
    requires { DoTypesAscend sets.now }
    ensures { option_copied result ≡ find (λ set. rtype_of set == rtype.0) sets.now }
{
    let at = count_lower(sets, rtype);
    if at < sets.len() && sets[at].rtype() == rtype {
        return Some(&sets[at]);
    }
    None
}

/// Takes the set of a type out.
pub(crate) fn remove_set(own: &mut Vec<RRset>, rtype: RType) -> Option<RRset>
    requires { DoTypesAscend own.old.items }
    ensures set { result ≡ find (λ set. rtype_of set == rtype.0) own.old.items }
    ensures left { own.new.items ≡ filter (λ s. not (rtype_of s == rtype.0)) own.old.items }
{
    let at = count_lower(own, rtype);
    if at < own.len() && own[at].rtype() == rtype {
        return Some(own.remove(at));
    }
    None
}

/// Puts a set into its place; one of its type goes.
pub(crate) fn put_set(own: &mut Vec<RRset>, set: RRset) -> Result<(), AllocError>
    requires { DoTypesAscend own.old.items }
    ensures { OnOk result (own.new.items ≡ put_at (λ s. nat_cmp (rtype_of s) (rtype_of set)) (set ∷ []) own.old.items) }
{
    let _ = remove_set(own, set.rtype());
    let place = count_lower(own, set.rtype());
    own.insert(place, set)?;
    Ok(())
}

/// Changes an owner's sets, which are in order of their types.
fn change_sets(own: &mut Vec<RRset>, change: Change) -> Result<(), AllocError>
    requires { DoTypesAscend own.old.items }
    ensures { OnOk result (own.new.items ≡ changed_sets own.old.items change) }
{
    match change {
        Change::Put(set) => put_set(own, set),
        Change::Remove(_, rtype) => {
            let _ = remove_set(own, rtype);
            Ok(())
        }
    }
}

/// Changes an owner's sets, one change after the other.
pub(crate) fn change_all(
    own: &mut Vec<RRset>,
    owner: &Name,
    changes: Vec<Change>,
) -> Result<(), AllocError>
    requires own { AreOwn owner.now own.old.items }
    requires at { AllByRecursion (IsChangeAt owner.now) changes.items }
    ensures { OnOk result (own.new.items ≡ edited_sets own.old.items changes.items) }
{
    for change in changes {
        change_sets(own, change)?;
    }
    Ok(())
}

/// How many records a set has, or none. A set is one.
pub(crate) fn count_of(set: &Option<RRset>) -> usize
    ensures count { result ≡ length (set_or_none set.now) }
    ensures lawful { IfSome set.now (λ set. IsRRset set × (length set ≤ max_set)) }
{
    match set {
        Some(set) => set.data().len(),
        None => 0,
    }
}

/// How many records sets have. `AllocError` where they are more than memory holds.
pub(crate) fn count_records(sets: &[RRset]) -> Result<usize, AllocError>
    ensures { IfOk result (λ count. count ≡ length (records_in sets.now)) }
{
    let mut count = 0_usize;
    for set in sets {
        count = count.checked_add(set.data().len()).ok_or(AllocError)?;
    }
    Ok(count)
}

/// How many records a zone has with so many in place of some of them; `Limit` where these are more than 1,000,000 (own).
pub(crate) fn count_with(count: usize, before: usize, after: usize) -> Result<usize, ActFault>
    requires { before ≤ count }
    ensures counted { IfOk result (λ next. (next + before ≡ count + after) × (next ≤ max_records)) }
    ensures limit { IsErrOf result ActFault.Limit → max_records + before < count + after }
{
    let left = count - before;
    let Some(next) = left.checked_add(after) else {
        return Err(ActFault::NoMemory);
    };
    if next > MAX_RECORDS {
        return Err(ActFault::Limit);
    }
    Ok(next)
}

/// Copies of an owner's sets.
pub(crate) fn copies(alloc: Global, sets: &[RRset]) -> Result<Vec<RRset>, AllocError>
    ensures { IfOk result (λ own. own.items ≡ sets.now) }
{
    let mut own = Vec::with_capacity(alloc, sets.len() + 1)?;
    for set in sets {
        own.push(set.copy(alloc)?)?;
    }
    Ok(own)
}

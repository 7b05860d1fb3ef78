//! The owners of a zone with their sets, while changes are made.
ghost use Rattle.std.specs.Prelude.{◌≡◌, ◌+◌, ◌*◌, ◌<◌, ◌≤◌, length, IfOk, IfSome};
ghost use Rattle.std.specs.List.{AllByRecursion};
ghost use Rattle.std.specs.Option.{option_copied, option_to_list};
ghost use Rattle.dns_name.specs.Name.{canonical_cmp, fold_name};
ghost use Rattle.shared_tree.specs.Pairs.{pairs_with, pairs_without};
ghost use Rattle.zone_tree.specs.Change.{changed, edited};
ghost use Rattle.zone_tree.specs.Edit.{put_at, set_beside, with_owner, with_owners, IsFor, AreOwn, IsDraft};
ghost use Rattle.zone_tree.specs.Filed.{sets_under, records_under, AreFiled};
ghost use Rattle.zone_tree.specs.Sets.{records_in, IsRRset};

use crate::change::Change;
use crate::key::OwnerKey;
use crate::look::set_of_type;
use crate::own::{count_of, sets_with};
use crate::owners::{Own, Owners, own_of};
use crate::zone::sets_at;
use dns_name::{Name, SoughtName, StoredName};
use dns_rdata::{RRset, RType};
use shared_tree::NoMemory;
use std::alloc::Global;

/// Owners with their sets, which needn't be a zone, and how many records they have.
#[derive(Drop)]
pub(crate) struct Draft {
    pub(crate) owners: Owners,
    pub(crate) count: usize,
}

// The owners with these sets for an owner's, which leaves where there are none, and how many nodes were made.
fn with_own(
    alloc: Global,
    owners: &Owners,
    owner: &Name,
    own: Own,
) -> Result<(Owners, u64), NoMemory>
    ensures kept { 0 < length own.items → IfOk result (λ next. next.0.pairs ≡ pairs_with canonical_cmp (fold_name owner.now) own owners.now.pairs) }
    ensures gone { length own.items ≡ 0 → IfOk result (λ next. next.0.pairs ≡ pairs_without canonical_cmp (fold_name owner.now) owners.now.pairs) }
    ensures made { IfOk result (λ next. next.1 ≤ 4 * (owners.now.height + 1)) }
{
    if own.is_empty() {
        return owners.without(alloc, &SoughtName::new(owner));
    }
    owners.with(alloc, OwnerKey::new(alloc, owner)?, own)
}

// The owners with these sets for an owner's, which leaves where there are none. Its name is moved into its key.
fn with_kept(
    alloc: Global,
    owners: &Owners,
    owner: StoredName,
    own: Own,
) -> Result<Owners, NoMemory>
    ensures kept { 0 < length own.items → IfOk result (λ next. next.pairs ≡ pairs_with canonical_cmp owner own owners.now.pairs) }
    ensures gone { length own.items ≡ 0 → IfOk result (λ next. next.pairs ≡ pairs_without canonical_cmp owner owners.now.pairs) }
{
    if own.is_empty() {
        let (next, _) = owners.without(alloc, &owner)?;
        return Ok(next);
    }
    let (next, _) = owners.with(alloc, OwnerKey::of(owner), own)?;
    Ok(next)
}

// The owners with these sets for an owner's, which are all in order.
fn with_sets(
    alloc: Global,
    owners: &Owners,
    owner: StoredName,
    own: Own,
) -> Result<Owners, NoMemory>
    requires filed { AreFiled owners.now.pairs }
    requires own { AreOwn owner own.items }
    ensures filed { IfOk result (λ next. AreFiled next.pairs) }
    ensures records { IfOk result (λ next. records_under next.pairs ≡ with_owner owner (records_in own.items) (records_under owners.now.pairs)) }
{
    // That it is in lower case is known of a stored name from here on.
    let _octets = owner.octets();
    let next = with_kept(alloc, owners, owner, own)?;
    Ok(next)
}

/// The owners with other sets for those of several owners, one after the other. No set is copied, and no name.
pub(crate) fn with_owned(
    alloc: Global,
    owners: Owners,
    owned: Vec<(StoredName, Vec<RRset>)>,
) -> Result<Owners, NoMemory>
    requires filed { AreFiled owners.pairs }
    requires each { AllByRecursion (λ own. AreOwn own.0 own.1.items) owned.items }
    ensures filed { IfOk result (λ next. AreFiled next.pairs) }
    ensures records { IfOk result (λ next. records_under next.pairs ≡ with_owners (records_under owners.pairs) owned.items) }
{
    let mut owners = owners;
    for (owner, own) in owned {
        owners = with_sets(alloc, &owners, owner, own_of(alloc, own))?;
    }
    Ok(owners)
}

// How many records there are with a set, or none, in place of one of them. `NoMemory` where it would be more than memory
// holds.
fn count_with(count: usize, old: Option<&RRset>, new: Option<&RRset>) -> Result<usize, NoMemory>
    requires { length (records_in (option_to_list (option_copied old))) ≤ count }
    ensures count { IfOk result (λ next. next + length (records_in (option_to_list (option_copied old.entry))) ≡ count + length (records_in (option_to_list (option_copied new.entry)))) }
    ensures lawful { IfSome (option_copied new.entry) IsRRset }
{
    let left = count - count_of(old);
    left.checked_add(count_of(new)).ok_or(NoMemory)
}

// A draft with a set, or none, in place of that of an owner and a type, and how many nodes were made.
fn with_set(
    alloc: Global,
    draft: &Draft,
    owner: &Name,
    rtype: RType,
    new: Option<&RRset>,
) -> Result<(Draft, u64), NoMemory>
    requires { IsDraft draft.now.owners.pairs draft.now.count }
    ensures kept { IfSome (option_copied new.entry) (IsFor owner.now rtype.0) → IfOk result (λ next. IsDraft next.0.owners.pairs next.0.count) }
    ensures sets { IfSome (option_copied new.entry) (IsFor owner.now rtype.0) → IfOk result (λ next. sets_under next.0.owners.pairs ≡ put_at (set_beside owner.now rtype.0) (option_to_list (option_copied new.entry)) (sets_under draft.now.owners.pairs)) }
    ensures made { IfOk result (λ next. next.1 ≤ 4 * (draft.now.owners.height + 1)) }
{
    let own = sets_at(&draft.owners, owner);
    let count = count_with(draft.count, set_of_type(own, rtype), new)?;
    let next = sets_with(alloc, own, rtype, new)?;
    let (owners, made) = with_own(alloc, &draft.owners, owner, next)?;
    Ok((Draft { owners, count }, made))
}

/// The draft that a change makes of another, and how many nodes were made: at most four for each level of the tree and
/// four more.
pub(crate) fn with_change(
    alloc: Global,
    draft: &Draft,
    change: &Change,
) -> Result<(Draft, u64), NoMemory>
    requires { IsDraft draft.now.owners.pairs draft.now.count }
    ensures kept { IfOk result (λ next. IsDraft next.0.owners.pairs next.0.count) }
    ensures records { IfOk result (λ next. records_under next.0.owners.pairs ≡ changed (records_under draft.now.owners.pairs) change.now) }
    ensures made { IfOk result (λ next. next.1 ≤ 4 * (draft.now.owners.height + 1)) }
{
    match change {
        Change::Put(set) => with_set(alloc, draft, &set.owner(), set.rtype(), Some(set)),
        Change::Remove(owner, rtype) => with_set(alloc, draft, owner, *rtype, None),
    }
}

/// The draft that changes make of another, one after the other.
pub(crate) fn with_changes(
    alloc: Global,
    draft: Draft,
    changes: &[Change],
) -> Result<Draft, NoMemory>
    requires { IsDraft draft.owners.pairs draft.count }
    ensures kept { IfOk result (λ next. IsDraft next.owners.pairs next.count) }
    ensures records { IfOk result (λ next. records_under next.owners.pairs ≡ edited (records_under draft.owners.pairs) changes.now) }
{
    let mut draft = draft;
    for change in changes {
        let (next, _) = with_change(alloc, &draft, change)?;
        draft = next;
    }
    Ok(draft)
}

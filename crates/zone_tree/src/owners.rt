//! Sets put under their owners.
ghost use Rattle.std.specs.Prelude.{◌≡◌, List, [], ◌∷◌, ◌++◌, IfOk, OnOk};
ghost use Rattle.dns_rdata.specs.Record.{Record, owner_of};
ghost use Rattle.zone_tree.specs.Filed.{sets_under, AreFiled, AreGathered, AreBefore, IsBehind};
ghost use Rattle.zone_tree.specs.Sets.{AreAscending};

use crate::key::OwnerKey;
use dns_rdata::RRset;
use shared_tree::Tree;
use smallvec::SmallVec;
use std::alloc::{AllocError, Global};

/// An owner's sets. Most owners have one, which lies in the value.
pub(crate) type Own = SmallVec<RRset, 1>;

/// An owner and its sets.
pub(crate) type Owned = (OwnerKey, Own);

/// A zone's owners with their sets.
pub(crate) type Owners = Tree<OwnerKey, Own>;

/// The sets of a list.
pub(crate) fn own_of(alloc: Global, sets: Vec<RRset>) -> Own
    ensures { result.items ≡ sets.items }
{
    let mut sets = sets;
    if sets.len() != 1 {
        return SmallVec::from(sets);
    }
    match sets.pop() {
        Some(set) => SmallVec::from_buf(alloc, [set]),
        None => unreachable!(),
    }
}

/// Sets in ascending order, under their owners.
pub(crate) fn under_owners(alloc: Global, sets: Vec<RRset>) -> Result<Vec<Owned>, AllocError>
    requires { AreAscending sets.items }
    ensures filed { IfOk result (λ pairs. AreFiled pairs.items) }
    ensures sets { IfOk result (λ pairs. sets_under pairs.items ≡ sets.items) }
{
    let mut pairs = Vec::new(alloc);
    for set in sets {
        put_behind(alloc, &mut pairs, set)?;
    }
    Ok(pairs)
}

/// Puts a set that comes after all others under its owner, which is the last one or a new one.
fn put_behind(alloc: Global, pairs: &mut Vec<Owned>, set: RRset) -> Result<(), AllocError>
    ensures { OnOk result ((sets : List (List Record)) → AreGathered pairs.old.items sets → IsBehind set sets → AreGathered pairs.new.items (sets ++ set ∷ [])) }
{
    match pairs.pop() {
        None => put_new(alloc, pairs, set),
        Some((key, mut own)) => {
            if key.is_of(set.stored_owner()) {
                own.push(set)?;
                pairs.push((key, own))?;
                return Ok(());
            }
            pairs.push((key, own))?;
            put_new(alloc, pairs, set)
        }
    }
}

/// Puts a set under a new owner, which comes after all others.
fn put_new(alloc: Global, pairs: &mut Vec<Owned>, set: RRset) -> Result<(), AllocError>
    ensures { OnOk result ((sets : List (List Record)) → AreGathered pairs.old.items sets → AreBefore (owner_of set) pairs.old.items → AreGathered pairs.new.items (sets ++ set ∷ [])) }
{
    let key = OwnerKey::copied(alloc, set.stored_owner())?;
    pairs.push((key, SmallVec::from_buf(alloc, [set])))?;
    Ok(())
}

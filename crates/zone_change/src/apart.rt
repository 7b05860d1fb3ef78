//! The owners at which two zones differ, by a walk over both side by side.
ghost use Rattle.std.specs.Prelude.{◌≡◌, ◌++◌, List, IfOk, OnOk};
ghost use Rattle.std.specs.Option.{option_copied};
ghost use Rattle.std.specs.Ordering.{is_lt};
ghost use Rattle.dns_rdata.specs.Record.{Record};
ghost use Rattle.zone_tree.specs.Delta.{DifferOnlyAt};
ghost use Rattle.zone_tree.specs.Sets.{records_in, set_cmp};
ghost use Rattle.zone_change.specs.Apart.{records_left};

use dns_name::Name;
use dns_rdata::RRset;
use std::alloc::{AllocError, Global};
use std::cmp::Ordering;
use zone_tree::{Walk, Zone, ZoneRead};

/// The owners at which two zones differ: where a set of the one isn't the other's. It costs a walk over both zones, side by side,
/// and memory for these owners alone. `AllocError` where a growth was refused.
pub(crate) fn owners_apart(
    alloc: Global,
    zone: &Zone,
    other: &Zone,
) -> Result<Vec<Name>, AllocError>
    ensures { IfOk result (λ owners. DifferOnlyAt owners.items zone.now other.now) }
{
    let mut owners = Vec::new(alloc);
    let mut others = other.walk();
    let mut next = others.next();
    for set in zone.walk() {
        next = pass_before(&mut owners, &mut others, next, set)?;
        next = pass_beside(&mut owners, &mut others, next, set)?;
    }
    pass_all(&mut owners, &mut others, next)?;
    Ok(owners)
}

/// Whether a set comes before another in canonical order: by owner, then type number (RFC 4034, 6.1).
fn is_before(set: &RRset, other: &RRset) -> bool
    ensures { result ≡ is_lt (set_cmp set.now other.now) }
{
    match set.stored_owner().cmp(other.stored_owner()) {
        Ordering::Less => true,
        Ordering::Equal => set.rtype().0 < other.rtype().0,
        Ordering::Greater => false,
    }
}

/// Passes the sets of a walk that come before a set, and notes their owners. The first that doesn't come before it.
fn pass_before<'a>(
    owners: &mut Vec<Name>,
    others: &mut Walk<'a>,
    next: Option<&'a RRset>,
    set: &RRset,
) -> Result<Option<&'a RRset>, AllocError>
    ensures { (front other : List Record) → DifferOnlyAt owners.old.items (front ++ records_left (option_copied next.entry) others.old) other
        → IfOk result (λ left. DifferOnlyAt owners.new.items (front ++ records_left (option_copied left) others.new) other) }
{
    let mut left = next;
    while let Some(there) = left {
        if !is_before(there, set) {
            return Ok(Some(there));
        }
        owners.push(there.owner())?;
        left = others.next();
    }
    Ok(None)
}

/// Passes a set beside the walk: with the set that is next in the walk where that is the same, and else its owner is noted. The set
/// that is next then.
fn pass_beside<'a>(
    owners: &mut Vec<Name>,
    others: &mut Walk<'a>,
    next: Option<&'a RRset>,
    set: &RRset,
) -> Result<Option<&'a RRset>, AllocError>
    ensures { (front other : List Record) → DifferOnlyAt owners.old.items (front ++ records_left (option_copied next.entry) others.old) other
        → IfOk result (λ left. DifferOnlyAt owners.new.items ((front ++ set.now) ++ records_left (option_copied left) others.new) other) }
{
    if let Some(there) = next {
        if set.is_same(there) {
            return Ok(others.next());
        }
    }
    owners.push(set.owner())?;
    Ok(next)
}

/// Passes all sets that a walk has left after one that was taken from it, and notes their owners.
fn pass_all<'a>(
    owners: &mut Vec<Name>,
    others: &mut Walk<'a>,
    next: Option<&'a RRset>,
) -> Result<(), AllocError>
    ensures { (front other : List Record) → DifferOnlyAt owners.old.items (front ++ records_left (option_copied next.entry) others.old) other
        → OnOk result (DifferOnlyAt owners.new.items front other) }
{
    let Some(there) = next else {
        return pass_rest(owners, others);
    };
    owners.push(there.owner())?;
    pass_rest(owners, others)
}

/// Passes all sets that a walk has left, and notes their owners.
fn pass_rest(owners: &mut Vec<Name>, others: &mut Walk<'_>) -> Result<(), AllocError>
    ensures { (front other : List Record) → DifferOnlyAt owners.old.items (front ++ records_in others.old) other
        → OnOk result (DifferOnlyAt owners.new.items front other) }
{
    while let Some(there) = others.next() {
        owners.push(there.owner())?;
    }
    Ok(())
}

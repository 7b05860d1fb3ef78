//! The sets of one owner, with another in place of one.
ghost use Rattle.std.specs.Prelude.{◌≡◌, ◌++◌, length, filter, IfOk, OnOk, IfSome};
ghost use Rattle.std.specs.Option.{option_copied, option_to_list};
ghost use Rattle.std.specs.Ordering.{nat_cmp, is_lt, is_gt};
ghost use Rattle.dns_rdata.specs.Record.{rtype_of};
ghost use Rattle.zone_tree.specs.Edit.{put_at};
ghost use Rattle.zone_tree.specs.Sets.{records_in, IsRRset};

use crate::check::len_of;
use crate::owners::Own;
use dns_rdata::{RRset, RType};
use smallvec::SmallVec;
use std::alloc::{AllocError, Global};

/// How many records a set has; 0 where there is none.
pub(crate) fn count_of(set: Option<&RRset>) -> usize
    ensures count { result ≡ length (records_in (option_to_list (option_copied set.entry))) }
    ensures lawful { IfSome (option_copied set.entry) IsRRset }
{
    match set {
        Some(set) => len_of(set),
        None => 0,
    }
}

// Copies of the sets of lower types, after others.
fn put_lower(alloc: Global, to: &mut Own, own: &[RRset], rtype: RType) -> Result<(), AllocError>
    ensures { OnOk result (to.new.items ≡ to.old.items ++ filter (λ set. is_lt (nat_cmp (rtype_of set) rtype.0)) own.now) }
{
    for set in own {
        if set.rtype().cmp(&rtype).is_lt() {
            to.push(set.copy(alloc)?)?;
        }
    }
    Ok(())
}

// Copies of the sets of higher types, after others.
fn put_higher(alloc: Global, to: &mut Own, own: &[RRset], rtype: RType) -> Result<(), AllocError>
    ensures { OnOk result (to.new.items ≡ to.old.items ++ filter (λ set. is_gt (nat_cmp (rtype_of set) rtype.0)) own.now) }
{
    for set in own {
        if set.rtype().cmp(&rtype).is_gt() {
            to.push(set.copy(alloc)?)?;
        }
    }
    Ok(())
}

/// Copies of an owner's sets, with another, or none, in place of that of a type.
pub(crate) fn sets_with(
    alloc: Global,
    own: &[RRset],
    rtype: RType,
    new: Option<&RRset>,
) -> Result<Own, AllocError>
    ensures { IfOk result (λ sets. sets.items ≡ put_at (λ set. nat_cmp (rtype_of set) rtype.0) (option_to_list (option_copied new.entry)) own.now) }
{
    let mut sets = SmallVec::new(alloc);
    put_lower(alloc, &mut sets, own, rtype)?;
    if let Some(set) = new {
        sets.push(set.copy(alloc)?)?;
    }
    put_higher(alloc, &mut sets, own, rtype)?;
    Ok(sets)
}

//! Look-ups by binary search over sets in ascending order.
ghost use Rattle.std.specs.Prelude.{◌≡◌, ◌≤◌, ◌==◌, true, false, length, filter};
ghost use Rattle.std.specs.List.{find};
ghost use Rattle.std.specs.List.Sorted.{IsPartitionPoint};
ghost use Rattle.std.specs.Option.{option_copied};
ghost use Rattle.std.specs.Ordering.{nat_cmp, is_lt, is_le};
ghost use Rattle.dns_name.specs.Name.{canonical_cmp, is_same};
ghost use Rattle.dns_rdata.specs.Record.{owner_of, rtype_of};
ghost use Rattle.zone_tree.specs.From.{DoTypesAscend};
ghost use Rattle.zone_tree.specs.Sets.{AreAscending};

use dns_name::StoredName;
use dns_rdata::{RRset, RType};

// How many sets have an owner before the name.
fn count_before(sets: &[RRset], name: &StoredName) -> usize
    requires { AreAscending sets.now }
    ensures bound { result ≤ length sets.now }
    ensures place { IsPartitionPoint (λ set. is_lt (canonical_cmp (owner_of set) name.now) ≡ true) (λ set. is_lt (canonical_cmp (owner_of set) name.now) ≡ false) sets.now result }
{
    sets.partition_point(
        |set: &RRset| -> bool
            ensures { result ≡ is_lt (canonical_cmp (owner_of set.now) name.entry.now) }
        { set.stored_owner().cmp(name).is_lt() },
    )
}

// How many sets have an owner that isn't after the name.
fn count_upto(sets: &[RRset], name: &StoredName) -> usize
    requires { AreAscending sets.now }
    ensures bound { result ≤ length sets.now }
    ensures place { IsPartitionPoint (λ set. is_le (canonical_cmp (owner_of set) name.now) ≡ true) (λ set. is_le (canonical_cmp (owner_of set) name.now) ≡ false) sets.now result }
{
    sets.partition_point(
        |set: &RRset| -> bool
            ensures { result ≡ is_le (canonical_cmp (owner_of set.now) name.entry.now) }
        { set.stored_owner().cmp(name).is_le() },
    )
}

/// The sets of an owner.
pub(crate) fn sets_at<'a>(sets: &'a [RRset], name: &StoredName) -> &'a [RRset]
    requires { AreAscending sets.now }
    ensures { result.now ≡ filter (λ set. is_same (owner_of set) name.now) sets.now }
{
    let low = count_before(sets, name);
    let high = count_upto(sets, name);
    &sets[low..high]
}

/// The set of a type among the sets of an owner.
pub(crate) fn set_of_type<'a>(sets: &'a [RRset], rtype: RType) -> Option<&'a RRset>
    ensures { option_copied result ≡ find (λ set. rtype_of set == rtype.0) sets.now }
{
    sets.iter().find(|set| set.rtype() == rtype)
}

// How many sets have a lower type.
fn count_lower(sets: &[RRset], rtype: RType) -> usize
    requires { DoTypesAscend sets.now }
    ensures bound { result ≤ length sets.now }
    ensures place { IsPartitionPoint (λ set. is_lt (nat_cmp (rtype_of set) rtype.0) ≡ true) (λ set. is_lt (nat_cmp (rtype_of set) rtype.0) ≡ false) sets.now result }
{
    sets.partition_point(
        |set: &RRset| -> bool
            ensures { result ≡ is_lt (nat_cmp (rtype_of set.now) rtype.0) }
        { set.rtype().cmp(&rtype).is_lt() },
    )
}

/// The sets of an owner from a type on.
pub(crate) fn sets_from(sets: &[RRset], rtype: RType) -> &[RRset]
    requires { DoTypesAscend sets.now }
    ensures { result.now ≡ filter (λ set. is_le (nat_cmp rtype.0 (rtype_of set))) sets.now }
{
    let low = count_lower(sets, rtype);
    &sets[low..]
}

//! Zones that changes make, beside a plain list of sets that the same changes are made of.
ghost use Rattle.std.specs.Prelude.{◌≡◌, ◌++◌, filter, IfOk, OnOk, IfSome};
ghost use Rattle.std.specs.Option.{option_copied, option_to_list};
ghost use Rattle.std.specs.Ordering.{is_lt, is_gt};
ghost use Rattle.zone_tree.specs.Change.{changed, edited};
ghost use Rattle.zone_tree.specs.Edit.{put_at, set_beside};
ghost use Rattle.zone_tree.specs.Sets.{records_in, IsRRset, AreAscending};
ghost use Rattle.zone_tree.specs.Zone.{KeepsRules};

use crate::made::{data_of, gives, name, set_of};
use dns_name::Name;
use dns_rdata::{RRset, RType, Ttl};
use std::alloc::{AllocError, Global};
use std::cmp::Ordering;
use zone_tree::{Change, NewFault, Zone, ZoneRead, edit};

/// Where a set stands beside an owner and a type.
fn beside(set: &RRset, owner: &Name, rtype: RType) -> Ordering
    ensures { result ≡ set_beside owner.now rtype.0 set.now }
{
    set.stored_owner()
        .order(owner)
        .then(set.rtype().cmp(&rtype))
}

/// Copies of the sets that come before an owner and a type, after others.
fn put_before(
    alloc: Global,
    to: &mut Vec<RRset>,
    sets: &[RRset],
    owner: &Name,
    rtype: RType,
) -> Result<(), AllocError>
    ensures { OnOk result (to.new.items ≡ to.old.items ++ filter (λ set. is_lt (set_beside owner.now rtype.0 set)) sets.now) }
{
    for set in sets {
        if beside(set, owner, rtype).is_lt() {
            to.push(set.copy(alloc)?)?;
        }
    }
    Ok(())
}

/// Copies of the sets that come after an owner and a type, after others.
fn put_after(
    alloc: Global,
    to: &mut Vec<RRset>,
    sets: &[RRset],
    owner: &Name,
    rtype: RType,
) -> Result<(), AllocError>
    ensures { OnOk result (to.new.items ≡ to.old.items ++ filter (λ set. is_gt (set_beside owner.now rtype.0 set)) sets.now) }
{
    for set in sets {
        if beside(set, owner, rtype).is_gt() {
            to.push(set.copy(alloc)?)?;
        }
    }
    Ok(())
}

/// How many records a set has.
fn len_of(set: &RRset) -> usize
    ensures { IsRRset set.now }
{
    set.data().len()
}

/// How many records a set has; 0 where there is none.
fn count_of(set: Option<&RRset>) -> usize
    ensures { IfSome (option_copied set.entry) IsRRset }
{
    match set {
        Some(set) => len_of(set),
        None => 0,
    }
}

/// A plain list with a set, or none, in place of that of an owner and a type.
fn put_plainly(
    alloc: Global,
    sets: &[RRset],
    owner: &Name,
    rtype: RType,
    new: Option<&RRset>,
) -> Result<Vec<RRset>, AllocError>
    ensures lawful { IfSome (option_copied new.entry) IsRRset }
    ensures sets { IfOk result (λ next. next.items ≡ put_at (set_beside owner.now rtype.0) (option_to_list (option_copied new.entry)) sets.now) }
{
    let mut next = Vec::with_capacity(alloc, count_of(new))?;
    put_before(alloc, &mut next, sets, owner, rtype)?;
    if let Some(set) = new {
        next.push(set.copy(alloc)?)?;
    }
    put_after(alloc, &mut next, sets, owner, rtype)?;
    Ok(next)
}

/// What a change makes of a plain list.
fn changed_plainly(alloc: Global, sets: &[RRset], change: &Change) -> Result<Vec<RRset>, AllocError>
    requires { AreAscending sets.now }
    ensures ascending { IfOk result (λ next. AreAscending next.items) }
    ensures records { IfOk result (λ next. records_in next.items ≡ changed (records_in sets.now) change.now) }
{
    match change {
        Change::Put(set) => put_plainly(alloc, sets, &set.owner(), set.rtype(), Some(set)),
        Change::Remove(owner, rtype) => put_plainly(alloc, sets, owner, *rtype, None),
    }
}

/// What changes make of a plain list.
fn edited_plainly(
    alloc: Global,
    sets: Vec<RRset>,
    changes: &[Change],
) -> Result<Vec<RRset>, AllocError>
    requires { AreAscending sets.items }
    ensures ascending { IfOk result (λ next. AreAscending next.items) }
    ensures records { IfOk result (λ next. records_in next.items ≡ edited (records_in sets.items) changes.now) }
{
    let mut sets = sets;
    for change in changes {
        sets = changed_plainly(alloc, &sets, change)?;
    }
    Ok(sets)
}

/// A list of these sets once more.
fn copies(alloc: Global, sets: &[RRset]) -> Result<Vec<RRset>, AllocError>
    ensures { IfOk result (λ next. next.items ≡ sets.now) }
{
    let mut next = Vec::with_capacity(alloc, sets.len())?;
    for set in sets {
        next.push(set.copy(alloc)?)?;
    }
    Ok(next)
}

/// What changes make of a zone, asked for once more where memory is refused.
fn edit_anew(alloc: Global, zone: &Zone, changes: &[Change]) -> Option<Zone>
    requires { KeepsRules (edited zone.now changes.now) }
{
    match edit(alloc, zone, changes) {
        Ok(next) => Some(next),
        Err(_) => edit(alloc, zone, changes).ok(),
    }
}

/// That changes make a zone of the plain list of these sets, where they do.
fn keep_rules(alloc: Global, sets: &[RRset], changes: &[Change]) -> Result<(), NewFault>
    requires { AreAscending sets.now }
    ensures { OnOk result (KeepsRules (edited (records_in sets.now) changes.now)) }
{
    let plain = edited_plainly(alloc, copies(alloc, sets)?, changes)?;
    let _ = Zone::new(alloc, plain)?;
    Ok(())
}

/// Whether changes make of the zone of these sets a zone of the rows, whose apex stands where its SOA does, below the root, and the zone before
/// is as it was; they are made anew where memory is refused, and None is told where it is refused elsewhere.
fn is_edited(alloc: Global, sets: Vec<RRset>, changes: &[Change], want: &str) -> Option<bool>
    requires { AreAscending sets.items }
{
    keep_rules(alloc, &sets, changes).ok()?;
    let zone = Zone::new(alloc, sets).ok()?;
    let new = edit_anew(alloc, &zone, changes)?;
    let apex = *new.apex() == new.soa().owner() && new.exists(&Name::root());
    Some(apex && gives(new.walk(), want)? && gives(zone.walk(), ROWS)?)
}

/// The change that takes a row away, whose owner is as it is spelt.
fn removal(row: &str) -> Option<Change> {
    let (owner, word) = row.split_once(' ')?;
    let (rtype, _) = data_of(word)?;
    Some(Change::Remove(name(owner)?, rtype))
}

/// The change of a step: a row held or put, or one removed; None where memory is refused.
fn change_of(alloc: Global, step: &str) -> Option<Change> {
    let (verb, row) = step.split_once(' ')?;
    match verb {
        "hold" => Some(Change::Put(set_of(alloc, row, Ttl(3600))?)),
        "put" => Some(Change::Put(set_of(alloc, row, Ttl(60))?)),
        _ => removal(row),
    }
}

/// The changes of steps, with commas between them; None where memory is refused.
fn changes_of(alloc: Global, steps: &str) -> Option<Vec<Change>> {
    let mut changes = Vec::new(alloc);
    for step in steps.split_terminator(", ") {
        changes.push(change_of(alloc, step)?).ok()?;
    }
    Some(changes)
}

/// The zone that all cases begin with, and the steps that make its list.
const ROWS: &str = "@ NS, @ SOA, a A, a TXT, x.sub TXT";

const HELD: &str = "hold @ NS, hold @ SOA, hold a A, hold a TXT, hold x.sub TXT";

/// Steps, and the rows of the zone that they make: a set of another type between two, of another owner, and in place of one; one of
/// two sets removed, the last one of an owner, and one that isn't there; several of these; an alias that stands beside other data on the
/// way; and an SOA and an NS that move down.
const CASES: &str = "\
put a MX: @ NS, @ SOA, a A, a MX, a TXT, x.sub TXT\n\
put sub A: @ NS, @ SOA, a A, a TXT, sub A, x.sub TXT\n\
put a TXT: @ NS, @ SOA, a A, a TXT, x.sub TXT\n\
remove A.EXAMPLE. A: @ NS, @ SOA, a TXT, x.sub TXT\n\
remove x.sub TXT: @ NS, @ SOA, a A, a TXT\n\
remove sub A: @ NS, @ SOA, a A, a TXT, x.sub TXT\n\
put sub TXT, remove x.sub TXT, remove a A: @ NS, @ SOA, a TXT, sub TXT\n\
put a CNAME, remove a A, remove a TXT: @ NS, @ SOA, a CNAME, x.sub TXT\n\
put sub SOA, remove @ SOA, put sub NS, remove @ NS, remove a A, remove a TXT: sub NS, sub SOA, x.sub TXT\n";

/// Whether the steps of a row make a zone of the rows after them; None where memory is refused.
fn is_made(alloc: Global, row: &str) -> Option<bool> {
    let (steps, want) = row.split_once(": ")?;
    let held = changes_of(alloc, HELD)?;
    let sets = edited_plainly(alloc, Vec::new(alloc), &held).ok()?;
    is_edited(alloc, sets, &changes_of(alloc, steps)?, want)
}

/// The first row whose steps make another zone, asked for anew where memory is refused.
fn made_otherwise(alloc: Global) -> Option<&'static str> {
    for row in CASES.lines() {
        let made = match is_made(alloc, row) {
            Some(made) => Some(made),
            None => is_made(alloc, row),
        };
        if made != Some(true) {
            return Some(row);
        }
    }
    None
}

// With one request for memory refused, whichever it is, the zone before is as it was, and the same changes are made anew.
#[test]
fn changes_anew_where_memory_is_refused(rt: HostRuntime) {
    assert_eq!(rt; made_otherwise(rt.alloc()), None);
}

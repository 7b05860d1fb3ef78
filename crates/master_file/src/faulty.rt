//! The fault that is told of a text which is no zone, and the line that shows it.
ghost use Rattle.std.specs.Prelude.{◌≡◌, ◌≢◌, ◌+◌, ◌<◌, ◌≤◌, ◌==◌, ◌&&◌, ◌||◌, not, nat_lt, List, [], length, take, get_or, Some, None, Ok, Err, IfOk, IfSome};
ghost use Rattle.std.specs.Bool.{OnFalse, OnTrue};
ghost use Rattle.std.specs.List.{list_any};
ghost use Rattle.std.specs.Option.{IfNone};
ghost use Rattle.zone_tree.specs.Limits.{max_records};
ghost use Rattle.dns_rdata.specs.Numbers.{type_NS};
ghost use Rattle.dns_rdata.specs.Record.{Record};
ghost use Rattle.zone_tree.specs.Sets.{records_in, AreAscending};
ghost use Rattle.zone_tree.specs.Zone.{soa_of, is_alone, is_wild};
ghost use Rattle.master_file.specs.declared.record_entry.RecordEntry.{RecordEntry};
ghost use Rattle.master_file.specs.FaultyLine.{shows};
ghost use Rattle.master_file.specs.Records.{records_of};
ghost use Rattle.master_file.specs.ZoneText.{first_line, is_conflict, is_too_many, outside_line, zone_of_read, zone_of_text, zone_records};

use crate::crowded::{keep_others, likely_owners, records_at};
use crate::fault::FileFault;
use crate::kept::KeptRecord;
use crate::likely::Likely;
use crate::records::Records;
use crate::sorted::sets_of;
use dns_name::Name;
use dns_rdata::RRset;
use record_text::Cause;
use std::alloc::{AllocError, Global};
use zone_tree::{BrokenRule, find_apex, has_conflict};

/// What is sought among the records of a text.
#[derive(Clone, Copy)]
pub(crate) enum Sought {
    /// A record too many, of its set or in all.
    Limit,
    /// An SOA beside another.
    SecondSoa,
    /// An alias beside other data, or an NS at an owner whose first label is `*`.
    Conflict,
}

/// The records of a text, in its order, and the fault after them.
pub(crate) fn read_all(
    alloc: Global,
    text: &[u8],
    origin: &Name,
) -> Result<(Vec<KeptRecord>, Option<FileFault>), AllocError>
    ensures records { IfOk result (λ read. read.0.items ≡ (records_of origin.now text.now).rrs) }
    ensures fault { IfOk result (λ read. read.1 ≡ (records_of origin.now text.now).fault) }
{
    let mut records = Records::new(alloc, text, origin);
    let mut kept = Vec::new(alloc);
    loop {
        match records.next(alloc) {
            Ok(Some(rr)) => kept.push(KeptRecord::new(alloc, rr)?)?,
            Ok(None) => return Ok((kept, None)),
            Err(fault) => match fault.cause {
                Cause::NoMemory => return Err(AllocError),
                _ => return Ok((kept, Some(fault))),
            },
        }
    }
}

/// The first of records, so many.
pub(crate) fn first_of(
    alloc: Global,
    records: &[KeptRecord],
    count: usize,
) -> Result<Vec<KeptRecord>, AllocError>
    requires { count ≤ length records.now }
    ensures { IfOk result (λ first. first.items ≡ take count records.now) }
{
    let mut first = Vec::with_capacity(alloc, count)?;
    for kept in &records[..count] {
        first.push(kept.copy(alloc)?)?;
    }
    Ok(first)
}

/// The sets of records; None where there are too many, of one set or in all. Where that is asked, it is told as well where faults are likely.
fn within_limits(
    alloc: Global,
    records: Vec<KeptRecord>,
    likely: Option<&mut Likely>,
) -> Result<Option<Vec<RRset>>, AllocError>
    ensures sets { IfOk result (λ found. IfSome found (λ sets. records_in sets.items ≡ zone_records records.items)) }
    ensures rising { IfOk result (λ found. IfSome found (λ sets. AreAscending sets.items)) }
    ensures small { IfOk result (λ found. IfSome found (λ sets. length (records_in sets.items) ≤ max_records)) }
    ensures few { IfOk result (λ found. IfSome found (λ sets. first_line is_too_many [] records.items ≡ None)) }
    ensures many { IfOk result (λ found. IfNone found (first_line is_too_many [] records.items ≡ None → ⊥)) }
{
    let Some(sets) = sets_of(alloc, records, likely)? else {
        return Ok(None);
    };
    // The rules that are tried before a conflict.
    match has_conflict(&sets) {
        Ok(_) => Ok(Some(sets)),
        Err(_) => Ok(None),
    }
}

/// Whether sets have more than one SOA.
fn has_second_soa(sets: &[RRset]) -> bool
    requires rising { AreAscending sets.now }
    requires small { length (records_in sets.now) ≤ max_records }
    ensures { result ≡ nat_lt 1 (length (soa_of (records_in sets.now))) }
{
    let Err(rule) = find_apex(sets) else {
        return false;
    };
    rule == BrokenRule::SecondSoa
}

/// Whether an alias stands beside another record of sets, or an NS at an owner whose first label is `*`.
fn is_crowded(sets: &[RRset]) -> bool
    requires rising { AreAscending sets.now }
    requires small { length (records_in sets.now) ≤ max_records }
    ensures { result ≡ (list_any (λ r. not (is_alone (records_in sets.now) r)) (records_in sets.now)
        || list_any (λ r. is_wild r.owner && r.rtype == type_NS) (records_in sets.now)) }
{
    has_conflict(sets).unwrap_or(false)
}

/// Whether one of the first of records shows what is sought.
fn is_shown(
    alloc: Global,
    records: &[KeptRecord],
    sought: Sought,
    count: usize,
) -> Result<bool, AllocError>
    requires count { count ≤ length records.now }
    requires few { sought ≢ Sought.Limit → first_line is_too_many [] records.now ≡ None }
    ensures shown { IfOk result (λ shown. OnTrue shown (first_line (shows sought) [] (take count records.now) ≡ None → ⊥)) }
    ensures none { IfOk result (λ shown. OnFalse shown (first_line (shows sought) [] (take count records.now) ≡ None)) }
{
    let first = first_of(alloc, records, count)?;
    let Some(sets) = within_limits(alloc, first, None)? else {
        return Ok(true);
    };
    match sought {
        Sought::Limit => Ok(false),
        Sought::SecondSoa => Ok(has_second_soa(&sets)),
        Sought::Conflict => Ok(is_crowded(&sets)),
    }
}

/// A place between two: the likely one, or the one after it, or else the middle.
fn place_between(low: usize, high: usize, likely: usize) -> usize
    requires { low + 1 < high }
    ensures low { low < result }
    ensures high { result < high }
{
    if low < likely && likely < high {
        return likely;
    }
    if low == likely {
        return low + 1;
    }
    low + (high - low) / 2
}

/// The line of a record, by its place.
fn line_at(records: &[KeptRecord], at: usize) -> u64
    requires { at < length records.now }
    ensures { (rr : RecordEntry) → result ≡ (get_or records.now at rr).line }
{
    records[at].line()
}

/// The line of the first of records that shows what is sought, where one does. The likely place is tried first, and where it
/// isn't that one the others are tried by halves.
fn first_shown(
    alloc: Global,
    records: &[KeptRecord],
    sought: Sought,
    likely: &Likely,
) -> Result<u64, AllocError>
    requires few { sought ≢ Sought.Limit → first_line is_too_many [] records.now ≡ None }
    requires shown { first_line (shows sought) [] records.now ≡ None → ⊥ }
    ensures { IfOk result (λ line. first_line (shows sought) [] records.now ≡ Some line) }
{
    let likely = likely.place(records, sought);
    let mut low = 0;
    let mut high = records.len();
    while low + 1 < high {
        let middle = place_between(low, high, likely);
        if is_shown(alloc, records, sought, middle)? {
            high = middle;
        } else {
            low = middle;
        }
    }
    Ok(line_at(records, low))
}

/// The line of the first of records that is in conflict. It is sought among those whose owners are in conflict in the whole, where
/// the sets at all other owners have none.
fn first_conflict(
    alloc: Global,
    records: &[KeptRecord],
    mut sets: Vec<RRset>,
    likely: &Likely,
) -> Result<u64, AllocError>
    requires few { first_line is_too_many [] records.now ≡ None }
    requires sets { records_in sets.items ≡ zone_records records.now }
    requires rising { AreAscending sets.items }
    requires shown { first_line is_conflict [] records.now ≡ None → ⊥ }
    ensures { IfOk result (λ line. first_line is_conflict [] records.now ≡ Some line) }
{
    let owners = likely_owners(alloc, &sets)?;
    keep_others(&mut sets, &owners);
    let Ok(false) = has_conflict(&sets) else {
        drop(sets);
        return first_shown(alloc, records, Sought::Conflict, likely);
    };
    drop(sets);
    let crowded = records_at(alloc, records, &owners)?;
    first_shown(alloc, &crowded, Sought::Conflict, likely)
}

/// The line of the first of records that isn't at or below the apex.
fn first_outside(records: &[KeptRecord], apex: &Name) -> Option<u64>
    ensures { result ≡ outside_line apex.now records.now }
{
    for kept in records {
        if !kept.is_under(apex) {
            return Some(kept.line());
        }
    }
    None
}

/// The fault that is told of a text which is no zone.
pub(crate) fn fault_of(alloc: Global, text: &[u8], origin: &Name) -> Result<FileFault, AllocError>
    requires { (zone : List Record) → zone_of_text origin.now text.now ≡ Ok zone → ⊥ }
    ensures { IfOk result (λ fault. zone_of_text origin.now text.now ≡ Err fault) }
{
    let (records, fault) = read_all(alloc, text, origin)?;
    let all = first_of(alloc, &records, records.len())?;
    let mut likely = Likely::last();
    let Some(sets) = within_limits(alloc, all, Some(&mut likely))? else {
        let line = first_shown(alloc, &records, Sought::Limit, &likely)?;
        return Ok(fault_at(line, Cause::Limit));
    };
    match fault {
        Some(fault) => Ok(fault),
        None => judge(alloc, &records, sets, &likely),
    }
}

/// The fault of records that is told after the whole of their text: a second SOA, no SOA, no NS at the apex, an owner
/// outside the apex and a conflict are tried in this order.
fn judge(
    alloc: Global,
    records: &[KeptRecord],
    sets: Vec<RRset>,
    likely: &Likely,
) -> Result<FileFault, AllocError>
    requires refused { (zone : List Record) → zone_of_read (record { rrs = records.now; fault = None }) ≡ Ok zone → ⊥ }
    requires few { first_line is_too_many [] records.now ≡ None }
    requires sets { records_in sets.items ≡ zone_records records.now }
    requires rising { AreAscending sets.items }
    requires small { length (records_in sets.items) ≤ max_records }
    ensures { IfOk result (λ fault. zone_of_read (record { rrs = records.now; fault = None }) ≡ Err fault) }
{
    if has_second_soa(&sets) {
        drop(sets);
        let line = first_shown(alloc, records, Sought::SecondSoa, likely)?;
        return Ok(fault_at(line, Cause::Apex));
    }
    let apex = match find_apex(&sets) {
        Ok(apex) => apex,
        Err(_) => return Ok(fault_at(0, Cause::Apex)),
    };
    if !apex.has_name_server {
        return Ok(fault_at(0, Cause::Apex));
    }
    if let Some(line) = first_outside(records, &apex.name) {
        return Ok(fault_at(line, Cause::Outside));
    }
    let line = first_conflict(alloc, records, sets, likely)?;
    Ok(fault_at(line, Cause::Conflict))
}

/// A fault, at its line.
fn fault_at(line: u64, cause: Cause) -> FileFault
    ensures { result ≡ record { line = line; cause = cause } }
{
    FileFault { line, cause }
}

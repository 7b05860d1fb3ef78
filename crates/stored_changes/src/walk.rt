//! The updates of a journal, applied one after another, and what each changed.
ghost use Rattle.std.specs.Prelude.{◌≡◌, ◌≤◌, ◌++◌, map, length, string_bytes, IfOk, IfErr, OnOk};
ghost use Rattle.zone_tree.specs.Limits.{max_records};
ghost use Rattle.zone_tree.specs.Sets.{records_in};
ghost use Rattle.zone_tree.specs.Version.{AreChanges, KnowsChanges};
ghost use Rattle.store_recovery.specs.Replay.{IsReplayFault};
ghost use Rattle.store_recovery.specs.Start.{IsStartFault};
ghost use Rattle.stored_changes.specs.StoredChanges.{change_of, counts_told, head_line, serials_told, AreTold, IsToldOf};

use change_command::{put_set, put_sets};
use dns_name::Name;
use dns_rdata::{RRset, Serial};
use journal::recover;
use master_file::read_zone;
use std::alloc::{AllocError, Global};
use store_recovery::{StartFault, next_version};
use zone_tree::{Delta, Version, Zone, ZoneRead};

/// What the updates of a zone text's journal changed, in their order: of each a line with the serials before and after it and how many records it
/// deleted and added, and then these records, one per line, after `- ` and `+ `, the SOA first in both.
///
/// The fault is that of a start from both.
pub fn write_changes(alloc: Global, text: &[u8], journal: &[u8]) -> Result<String, StartFault>
    ensures reported { IfOk result (λ reported. IsToldOf text.now journal.now (string_bytes reported)) }
    ensures refused { IfErr result (λ fault. IsStartFault text.now journal.now fault) }
{
    let found = recover(alloc, text, journal)?;
    let zone = read_zone(alloc, text, &Name::root())?;
    if zone.serial().0 != found.head.serial {
        return Err(StartFault::OtherSerial);
    }
    let reported = walk(alloc, zone, &found.updates)?;
    Ok(reported)
}

/// What requests change of a zone, applied one after another.
fn walk(alloc: Global, zone: Zone, requests: &[Vec<&[u8]>]) -> Result<String, StartFault>
    ensures reported { IfOk result (λ reported. AreTold zone (map (λ request. map (λ message. message.now) request.items) requests.now) (string_bytes reported)) }
    ensures refused { IfErr result (λ fault. IsReplayFault zone (map (λ request. map (λ message. message.now) request.items) requests.now) fault) }
{
    let mut reported = String::new(alloc);
    let mut last = Version::first(zone);
    for (place, request) in requests.iter().enumerate() {
        match next_version(alloc, &last, request)? {
            Ok(next) => {
                put_version(&mut reported, &last, &next)?;
                last = next;
            }
            Err(fault) => return Err(StartFault::Update(place as u64, fault)),
        }
    }
    Ok(reported)
}

/// Puts what a version changed of the one before it after a text.
fn put_version(reported: &mut String, last: &Version, next: &Version) -> Result<(), AllocError>
    requires { KnowsChanges last.now.zone next.now }
    ensures { OnOk result (string_bytes reported.new ≡ string_bytes reported.old ++ change_of last.now.zone next.now.zone) }
{
    match next.delta() {
        Some(delta) => put_change(reported, last.zone(), delta, next.zone()),
        None => Ok(()),
    }
}

/// Puts what a zone changed of the one before it after a text.
fn put_change(
    reported: &mut String,
    before: &Zone,
    delta: &Delta,
    after: &Zone,
) -> Result<(), AllocError>
    requires { AreChanges delta.now before.now after.now }
    ensures { OnOk result (string_bytes reported.new ≡ string_bytes reported.old ++ change_of before.now after.now) }
{
    let (old_soa, soa) = (before.soa(), after.soa());
    let deleted = count_in(delta.deletions());
    let added = count_in(delta.additions());
    put_head(reported, before.serial(), after.serial(), deleted, added)?;
    put_set(reported, "- ", old_soa)?;
    put_sets(reported, "- ", delta.deletions())?;
    put_set(reported, "+ ", soa)?;
    put_sets(reported, "+ ", delta.additions())?;
    Ok(())
}

/// Puts the first line of a change after a text.
fn put_head(
    reported: &mut String,
    from: Serial,
    to: Serial,
    deleted: usize,
    added: usize,
) -> Result<(), AllocError>
    ensures { OnOk result (string_bytes reported.new ≡ string_bytes reported.old ++ head_line from.0 to.0 deleted added) }
{
    put_serials(reported, from.0, to.0)?;
    put_counts(reported, deleted, added)
}

/// Puts the serials before and after a change after a text.
fn put_serials(reported: &mut String, from: u32, to: u32) -> Result<(), AllocError>
    ensures { OnOk result (string_bytes reported.new ≡ string_bytes reported.old ++ serials_told from to) }
{
    write!(reported, "serial {from} to {to}, ")
}

/// Puts how many records a change deleted and added, and a line's end, after a text.
fn put_counts(reported: &mut String, deleted: usize, added: usize) -> Result<(), AllocError>
    ensures { OnOk result (string_bytes reported.new ≡ string_bytes reported.old ++ counts_told deleted added) }
{
    write!(reported, "{deleted} deleted, {added} added")?;
    reported.push('\n')
}

/// How many records sets have.
fn count_in(sets: &[RRset]) -> usize
    requires { length (records_in sets.now) ≤ max_records }
    ensures { result ≡ length (records_in sets.now) }
{
    let mut count = 0;
    for set in sets {
        count += len_of(set);
    }
    count
}

/// How many records a set has.
fn len_of(set: &RRset) -> usize
    ensures { result ≡ length set.now }
{
    set.data().len()
}

//! The octets of an update as messages, one or more (RFC 1035, 4.1; RFC 2136, 2).
ghost use Rattle.std.specs.Prelude.{◌≡◌, ◌≤◌, ◌<◌, ◌+◌, ◌-◌, ◌^◌, ◌++◌, ◌⊎◌, List, [], ◌∷◌, length, map, min, take, flat_map, All, IfOk, OnOk, MatchOption};
ghost use Rattle.std.specs.Result.{IsErrOf};
ghost use Rattle.dns_rdata.specs.Raw.{RawRecord as Raw};
ghost use Rattle.zone_change.specs.Message.{most_octets, record_octets};
ghost use Rattle.zone_change.specs.Messages.{part_octets, octets_in, AreMessages, HasLongRecord, IsTooLong};

use crate::fault::ChangeFault;
use crate::message::{MAX_MESSAGE, head_of, put_records, put_zone};
use dns_message::{Update, ZoneEntry};
use dns_name::Name;
use dns_rdata::RawRecord;
use std::alloc::{AllocError, Global};

/// How many octets a message has beside the zone's name and the records: the header, and the zone section's type and class.
const FIXED: usize = 16;

/// How many octets a record has beside its owner's labels and its data: a pointer, type, class, TTL and the data's length (RFC 1035, 4.1.3).
const RECORD: usize = 12;

/// An update as messages of at most 65,535 octets: one where it fits, and else more, of which the first has the prerequisites and as many of
/// the records as fit, and each other one as many of those that are left.
///
/// `TooLong` where the prerequisites alone have more octets, or a record alone, and `NoMemory` where a growth was refused.
pub fn messages_of(alloc: Global, update: &Update) -> Result<Vec<Vec<u8>>, ChangeFault>
    ensures messages { IfOk result (λ messages. AreMessages update.now (map (λ message. message.items) messages.items)) }
    ensures long { IsErrOf result ChangeFault.TooLong → IsTooLong update.now }
    ensures other { IsErrOf result ChangeFault.OtherApex → ⊥ }
    ensures room { IsErrOf result ChangeFault.NoRoom → ⊥ }
{
    let prerequisites = update.prerequisites.as_slice();
    let records = update.updates.as_slice();
    let Some(room) = room_beside(&update.zone, prerequisites) else {
        return Err(ChangeFault::TooLong);
    };
    let count = fitting(&update.zone.name, room, records);
    let first = part_of(alloc, &update.zone, prerequisites, &records[..count])?;
    let mut messages = only(alloc, first)?;
    put_rest(alloc, &mut messages, &update.zone, &records[count..])?;
    Ok(messages)
}

/// Puts the messages of an update's further records at the end of those that it has. `TooLong` where a record alone has too many octets.
fn put_rest(
    alloc: Global,
    messages: &mut Vec<Vec<u8>>,
    zone: &ZoneEntry,
    records: &[RawRecord],
) -> Result<(), ChangeFault>
    ensures rest { OnOk result ((parts : List (List Raw)) × (flat_map (λ part. part) parts ≡ records.now) × All (λ part. 0 < length part) parts
        × All (λ part. length (part_octets zone.now [] part) ≤ most_octets) parts
        × (map (λ message. message.items) messages.new.items ≡ map (λ message. message.items) messages.old.items ++ map (part_octets zone.now []) parts)) }
    ensures long { IsErrOf result ChangeFault.TooLong → HasLongRecord zone.now records.now }
    ensures other { IsErrOf result ChangeFault.OtherApex → ⊥ }
    ensures room { IsErrOf result ChangeFault.NoRoom → ⊥ }
{
    let room = room_beside(zone, &[]).unwrap_or(0);
    let mut rest = records;
    while !rest.is_empty() {
        let count = fitting(&zone.name, room, rest);
        if count == 0 {
            return Err(ChangeFault::TooLong);
        }
        put_part(alloc, messages, zone, &rest[..count])?;
        rest = &rest[count..];
    }
    Ok(())
}

/// One message alone.
fn only(alloc: Global, message: Vec<u8>) -> Result<Vec<Vec<u8>>, AllocError>
    ensures { IfOk result (λ messages. map (λ one. one.items) messages.items ≡ message.items ∷ []) }
{
    let mut messages = Vec::new(alloc);
    messages.push(message)?;
    Ok(messages)
}

/// Puts a message with these records, and without prerequisites, at the end of others.
fn put_part(
    alloc: Global,
    messages: &mut Vec<Vec<u8>>,
    zone: &ZoneEntry,
    records: &[RawRecord],
) -> Result<(), AllocError>
    ensures { OnOk result (map (λ one. one.items) messages.new.items ≡ map (λ one. one.items) messages.old.items ++ part_octets zone.now [] records.now ∷ []) }
{
    let message = part_of(alloc, zone, &[], records)?;
    messages.push(message)?;
    Ok(())
}

/// A message with these prerequisites and records.
fn part_of(
    alloc: Global,
    zone: &ZoneEntry,
    prerequisites: &[RawRecord],
    records: &[RawRecord],
) -> Result<Vec<u8>, AllocError>
    ensures { IfOk result (λ message. message.items ≡ part_octets zone.now prerequisites.now records.now) }
{
    let mut message = head_of(alloc, prerequisites.len(), records.len())?;
    put_zone(&mut message, zone)?;
    put_records(&mut message, &zone.name, prerequisites)?;
    put_records(&mut message, &zone.name, records)?;
    Ok(message)
}

/// How many octets of records a message has room for beside these prerequisites; None where they are too many.
#[tactic(auto, using(crate::proofs::MessagesLemmas::part_long))]
fn room_beside(zone: &ZoneEntry, prerequisites: &[RawRecord]) -> Option<usize>
    ensures { MatchOption result (most_octets < length (part_octets zone.now prerequisites.now []))
        (λ room. length (part_octets zone.now prerequisites.now []) + room ≡ most_octets) }
{
    let mut len = zone.name.wire().len().saturating_add(FIXED);
    for raw in prerequisites {
        len = len.saturating_add(record_len(&zone.name, raw));
    }
    MAX_MESSAGE.checked_sub(len)
}

/// How many of the first of these records have room among so many octets.
fn fitting(zone: &Name, room: usize, records: &[RawRecord]) -> usize
    requires { room ≤ most_octets }
    ensures count { result ≤ length records.now }
    ensures room { octets_in zone.now (take result records.now) ≤ room }
    ensures most { (result ≡ length records.now) ⊎ (room < octets_in zone.now (take (result + 1) records.now)) }
{
    let mut left = room;
    for (count, raw) in records.iter().enumerate() {
        let len = record_len(zone, raw);
        if len > left {
            return count;
        }
        left -= len;
    }
    records.len()
}

/// How many octets a record has in a message, at most 2^64 - 1.
#[tactic(auto, using(crate::proofs::MessagesLemmas::record_long))]
fn record_len(zone: &Name, raw: &RawRecord) -> usize
    ensures { result ≡ min (length (record_octets zone.now raw.now)) (2 ^ 64 - 1) }
{
    let labels = raw.owner.wire().len().saturating_sub(zone.wire().len());
    labels
        .saturating_add(RECORD)
        .saturating_add(raw.octets.len())
}

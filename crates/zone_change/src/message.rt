//! The octets of an update.
ghost use Rattle.std.specs.Prelude.{◌≡◌, ◌<◌, ◌≤◌, ◌++◌, length, flat_map, IfOk, OnOk};
ghost use Rattle.std.specs.Int.{w16, to_be_bytes};
ghost use Rattle.std.specs.Result.{IsErrOf};
ghost use Rattle.zone_change.specs.Message.{most_octets, owner_octets, record_octets, zone_octets, head_octets, message_octets};

use crate::fault::ChangeFault;
use dns_message::{Update, ZoneEntry};
use dns_name::Name;
use dns_rdata::RawRecord;
use std::alloc::{AllocError, Global};

/// The most octets of a message (RFC 1035, 4.2.2).
pub(crate) const MAX_MESSAGE: usize = 65535;

/// The octets of an update whose id is 0 and that has no OPT, as one message. Each owner is its labels before the zone's name, and a
/// pointer to that name in the zone section; the names in data are in full (RFC 1035, 4.1.3 and 4.1.4; RFC 2136, 2).
///
/// `TooLong` where they are more than 65,535, and `NoMemory` where a growth was refused.
pub fn message_of(alloc: Global, update: &Update) -> Result<Vec<u8>, ChangeFault>
    ensures octets { IfOk result (λ message. message.items ≡ message_octets update.now) }
    ensures short { IfOk result (λ message. length message.items ≤ most_octets) }
    ensures long { IsErrOf result ChangeFault.TooLong → most_octets < length (message_octets update.now) }
    ensures other { IsErrOf result ChangeFault.OtherApex → ⊥ }
    ensures room { IsErrOf result ChangeFault.NoRoom → ⊥ }
{
    let message = octets_of(alloc, update)?;
    if message.len() > MAX_MESSAGE {
        return Err(ChangeFault::TooLong);
    }
    Ok(message)
}

/// The octets of an update, as many as they are.
fn octets_of(alloc: Global, update: &Update) -> Result<Vec<u8>, AllocError>
    ensures { IfOk result (λ message. message.items ≡ message_octets update.now) }
{
    let prerequisites = update.prerequisites.as_slice();
    let updates = update.updates.as_slice();
    let mut message = head_of(alloc, prerequisites.len(), updates.len())?;
    put_zone(&mut message, &update.zone)?;
    put_records(&mut message, &update.zone.name, prerequisites)?;
    put_records(&mut message, &update.zone.name, updates)?;
    Ok(message)
}

/// The header, with these counts of prerequisites and of updates, the last 16 bits of each: a message of more is too long.
pub(crate) fn head_of(
    alloc: Global,
    prerequisites: usize,
    updates: usize,
) -> Result<Vec<u8>, AllocError>
    ensures { IfOk result (λ head. head.items ≡ head_octets prerequisites updates) }
{
    let mut head = b"\0\0\x28\0\0\x01".to_vec(alloc)?;
    head.extend_from_slice(&two_octets(prerequisites))?;
    head.extend_from_slice(&two_octets(updates))?;
    head.extend_from_slice(b"\0\0")?;
    Ok(head)
}

/// The last 16 bits of a number, high octet first.
fn two_octets(number: usize) -> [u8; 2]
    ensures { result ≡ to_be_bytes w16 number }
{
    [(number / 256 % 256) as u8, (number % 256) as u8]
}

/// Puts the zone section at the end of a message.
pub(crate) fn put_zone(to: &mut Vec<u8>, zone: &ZoneEntry) -> Result<(), AllocError>
    ensures { OnOk result (to.new.items ≡ to.old.items ++ zone_octets zone.now) }
{
    to.extend_from_slice(zone.name.wire())?;
    to.extend_from_slice(&zone.rtype.0.to_be_bytes())?;
    to.extend_from_slice(&zone.class.0.to_be_bytes())
}

/// Puts records at the end of a message.
pub(crate) fn put_records(
    to: &mut Vec<u8>,
    zone: &Name,
    raws: &[RawRecord],
) -> Result<(), AllocError>
    ensures { OnOk result (to.new.items ≡ to.old.items ++ flat_map (record_octets zone.now) raws.now) }
{
    for raw in raws {
        put_record(to, zone, raw)?;
    }
    Ok(())
}

/// Puts a record at the end of a message, with the last 16 bits of its data's length: a message with longer data is too long.
fn put_record(to: &mut Vec<u8>, zone: &Name, raw: &RawRecord) -> Result<(), AllocError>
    ensures { OnOk result (to.new.items ≡ to.old.items ++ record_octets zone.now raw.now) }
{
    put_owner(to, zone, &raw.owner)?;
    to.extend_from_slice(&raw.rtype.0.to_be_bytes())?;
    to.extend_from_slice(&raw.class.0.to_be_bytes())?;
    to.extend_from_slice(&raw.ttl.to_be_bytes())?;
    to.extend_from_slice(&two_octets(raw.octets.len()))?;
    to.extend_from_slice(&raw.octets)
}

/// Puts an owner at the end of a message: its labels before the zone's name, and a pointer to that (RFC 1035, 4.1.4).
fn put_owner(to: &mut Vec<u8>, zone: &Name, owner: &Name) -> Result<(), AllocError>
    ensures { OnOk result (to.new.items ≡ to.old.items ++ owner_octets zone.now owner.now) }
{
    let wire = owner.wire();
    let before = wire.len().saturating_sub(zone.wire().len());
    to.extend_from_slice(&wire[..before])?;
    to.extend_from_slice(b"\xc0\x0c")
}

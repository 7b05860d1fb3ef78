//! Reading an update from one message or more (RFC 2136, 2).
ghost use Rattle.std.specs.Prelude.{◌≡◌, ◌++◌, [], List, map, flat_map, IfOk, MatchOption};
ghost use Rattle.dns_message.specs.Request.{reads};
ghost use Rattle.dns_message.specs.declared.query.Parsed.TheVariants.{Update as Asks};
ghost use Rattle.dns_message.specs.declared.update.Update.{Update as DynamicUpdate};
ghost use Rattle.update_messages.specs.Joined.{AreParts, IsRead};

use dns_message::{Parsed, RawRecords, Update, parse};
use dns_rdata::RawRecord;
use std::alloc::{AllocError, Global};
use std::mem;

/// The update that a message is read as; None where it isn't an update (RFC 2136, 2).
fn read_message(alloc: Global, octets: &[u8]) -> Result<Option<Update>, AllocError>
    ensures { IfOk result (λ found. MatchOption found ((update : DynamicUpdate) → reads octets.now ≡ Asks update → ⊥) (λ update. reads octets.now ≡ Asks update)) }
{
    match parse(alloc, octets) {
        Parsed::Update(update) => Ok(Some(update)),
        Parsed::NoMemory(_) => Err(AllocError),
        Parsed::Query(_) | Parsed::Silent | Parsed::Fault(_, _) | Parsed::BadOpt(_, _, _, _) => Ok(
            None,
        ),
    }
}

/// The update that a request's messages are read as; None where one of them isn't an update, or there are none. It allocates memory.
pub fn read_request(alloc: Global, messages: &[&[u8]]) -> Result<Option<Update>, AllocError>
    ensures { IfOk result (λ found. MatchOption found
        ((update : DynamicUpdate) → IsRead (map (λ message. message.now) messages.now) update → ⊥)
        (λ update. IsRead (map (λ message. message.now) messages.now) update)) }
{
    let Some((first, more)) = messages.split_first() else {
        return Ok(None);
    };
    match read_message(alloc, first)? {
        Some(update) => read_more(alloc, update, more),
        None => Ok(None),
    }
}

/// An update with the records of those that further messages are read as; None where one of these isn't an update. It allocates memory.
fn read_more(alloc: Global, first: Update, more: &[&[u8]]) -> Result<Option<Update>, AllocError>
    ensures { IfOk result (λ found. MatchOption found
        ((parts : List DynamicUpdate) → AreParts (map (λ message. message.now) more.now) parts → ⊥)
        (λ update. (parts : List DynamicUpdate) × AreParts (map (λ message. message.now) more.now) parts
        × (update ≡ record first { updates = first.updates ++ flat_map (λ part. part.updates) parts }))) }
{
    let mut update = first;
    let mut records = taken_records(alloc, &mut update);
    for message in more {
        let Some(mut part) = read_message(alloc, message)? else {
            return Ok(None);
        };
        let mut further = taken_records(alloc, &mut part);
        records.append(&mut further)?;
    }
    update.updates = RawRecords::new(records);
    Ok(Some(update))
}

/// The records of an update, which has none then.
fn taken_records(alloc: Global, update: &mut Update) -> Vec<RawRecord>
    ensures records { result.items ≡ update.old.updates }
    ensures others { update.new ≡ record update.old { updates = [] } }
{
    let none = RawRecords::new(Vec::new(alloc));
    mem::replace(&mut update.updates, none).into_vec()
}

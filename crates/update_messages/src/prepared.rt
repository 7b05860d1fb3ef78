//! The update that takes a zone to another one, as it is stored and submitted (RFC 2136; own).
ghost use Rattle.std.specs.Prelude.{◌≡◌, ◌≤◌, length, map, IfOk, IfErr};
ghost use Rattle.journal.specs.Batch.{request_octets, IsRequest};
ghost use Rattle.update_messages.specs.Prepared.{IsPreparedFrom, IsMessagesFault, IsPrepareFault};
ghost use Rattle.zone_change.specs.Messages.{AreMessages, IsTooLong};

use crate::prepare_fault::PrepareFault;
use dns_message::Update;
use dns_rdata::Serial;
use journal::RequestMessages;
use std::alloc::Global;
use zone_change::{ChangeSummary, change_to, messages_of, summary_of};
use zone_tree::{Zone, ZoneRead};

/// The most octets that an update may have in a frame of a journal, so that 63 more of one message each find room beside it (own).
const MOST: usize = 12_582_912;

/// An update that takes a zone to another one.
#[derive(Drop)]
pub struct PreparedChange {
    /// The update.
    pub update: Update,
    /// Its messages, which are read as the update.
    pub messages: RequestMessages,
    /// What it changes.
    pub summary: ChangeSummary,
}

/// What another zone makes of a zone.
#[derive(Drop)]
pub enum Prepared {
    /// Nothing: it is that zone, which has this serial.
    Unchanged(Serial),
    /// Another zone, by this update.
    Change(PreparedChange),
}

/// The update that takes a zone to another one of its apex. It allocates memory.
///
/// Fails where no update does, see [`zone_change::change_to`], and with `TooLarge` where its messages have more than 12,582,912 octets in a batch.
pub fn prepare_change(alloc: Global, served: &Zone, next: &Zone) -> Result<Prepared, PrepareFault>
    ensures prepared { IfOk result (λ prepared. IsPreparedFrom served.now next.now prepared) }
    ensures refused { IfErr result (λ fault. IsPrepareFault served.now next.now fault) }
{
    let Some(update) = change_to(alloc, served, next)? else {
        return Ok(Prepared::Unchanged(served.serial()));
    };
    let summary = summary_of(served, next, &update);
    let messages = short_messages(alloc, &update)?;
    Ok(Prepared::Change(PreparedChange {
        update,
        messages,
        summary,
    }))
}

/// An update's messages, if they have room in a frame. It allocates memory.
fn short_messages(alloc: Global, update: &Update) -> Result<RequestMessages, PrepareFault>
    requires fits { IsTooLong update.now → ⊥ }
    ensures messages { IfOk result (λ messages. AreMessages update.now messages) }
    ensures short { IfOk result (λ messages. length (request_octets messages) ≤ 12582912) }
    ensures refused { IfErr result (λ fault. IsMessagesFault update.now fault) }
{
    let messages = request_of(messages_of(alloc, update)?);
    if messages.batch_len() > MOST {
        return Err(PrepareFault::TooLarge);
    }
    Ok(messages)
}

/// A request of these messages.
fn request_of(messages: Vec<Vec<u8>>) -> RequestMessages
    requires { IsRequest (map (λ message. message.items) messages.items) }
    ensures { result ≡ map (λ message. message.items) messages.items }
{
    match RequestMessages::of(messages) {
        Some(request) => request,
        None => unreachable!(),
    }
}

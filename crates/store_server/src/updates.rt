//! Recovery, with the updates of the recovered versions (own).
ghost use Rattle.std.specs.Prelude.{◌≡◌, ◌-◌, length, drop, map, All, IfOk, IfErr};
ghost use Rattle.journal.specs.Batch.{IsRequest};
ghost use Rattle.store_recovery.specs.Start.{IsStarted};
ghost use Rattle.store_server.specs.Started.{AreLastUpdates, IsNoStore};

use crate::refusal::Refusal;
use journal::{RequestMessages, recover};
use std::alloc::{AllocError, Global};
use store_recovery::{Recovery, StartFault, start_of};

/// Recovers a zone file and its journal, which is read once, with the updates that made the recovered versions after the oldest one, each as the messages of its request. It
/// allocates memory.
pub(crate) fn start_with_updates(
    alloc: Global,
    text: &[u8],
    journal: &[u8],
) -> Result<(Recovery, Vec<RequestMessages>), Refusal>
    ensures started { IfOk result (λ r. IsStarted text.now journal.now r.0) }
    ensures updates { IfOk result (λ r. AreLastUpdates text.now journal.now (length r.0.newest.older.items) r.1.items) }
    ensures refused { IfErr result (λ refusal. IsNoStore text.now journal.now refusal) }
{
    let found = match recover(alloc, text, journal) {
        Ok(found) => found,
        Err(why) => return Err(Refusal::from(StartFault::from(why))),
    };
    let start = start_of(alloc, text, journal, &found)?;
    let updates = last_updates(alloc, &found.updates, start.newest.older.len())?;
    Ok((start, updates))
}

/// The last `count` of these requests, each of which stands in a batch. It allocates memory.
fn last_updates(
    alloc: Global,
    all: &[Vec<&[u8]>],
    count: usize,
) -> Result<Vec<RequestMessages>, AllocError>
    requires { All IsRequest (map (λ request. map (λ message. message.now) request.items) all.now) }
    ensures { IfOk result (λ last. last.items ≡ drop (length all.now - count) (map (λ request. map (λ message. message.now) request.items) all.now)) }
{
    let first = all.len().saturating_sub(count);
    owned(alloc, &all[first..])
}

/// A copy of each of these requests, each of which stands in a batch. It allocates memory.
fn owned(alloc: Global, found: &[Vec<&[u8]>]) -> Result<Vec<RequestMessages>, AllocError>
    requires { All IsRequest (map (λ request. map (λ message. message.now) request.items) found.now) }
    ensures { IfOk result (λ owned. owned.items ≡ map (λ request. map (λ message. message.now) request.items) found.now) }
{
    let mut all = Vec::new(alloc);
    for request in found {
        match RequestMessages::copied(alloc, request)? {
            Some(copy) => all.push(copy)?,
            None => unreachable!(),
        }
    }
    Ok(all)
}

//! New stores in directories, and updates that are appended to them.
ghost use Rattle.std.specs.Prelude.{◌≡◌, ◌≤◌, ◌<◌, true, length, IfOk, IfSome};
ghost use Rattle.journal.specs.Batch.{batch_of};
ghost use Rattle.journal.specs.Frame.{body_limit};
ghost use Rattle.update_batches.specs.Batch.{updates_of as messages_of};

use crate::journals::{ADD_A, ZONE};
use crate::published::Published;
use dns_engine::{KEPT, SharedVersion};
use dns_message::{Parsed, parse};
use dns_name::Name;
use journal::{Log, TextSum, write_head};
use master_file::read_zone;
use std::alloc::Global;
use std::fs;
use std::net::SocketAddr;
use std::sync::Wait;
use std::test::Fail;
use store_compaction::{RecentUpdates, StoreWriter};
use store_files::{FileDisk, begin_pair};
use store_recovery::create_store;
use update_batches::{MOST, QueuedUpdate, ReplyTo, UpdateRequest, VersionUpdate, judge_batch};
use zone_tree::Version;

/// Fails with a message if a condition does not hold.
pub(crate) fn check(holds: bool, words: &str) -> Result<(), Fail> {
    if holds {
        Ok(())
    } else {
        Err(Fail::from(words))
    }
}

/// A store that is written, and the versions that it is to have.
#[derive(Drop)]
pub(crate) struct WrittenStore {
    pub(crate) writer: StoreWriter<FileDisk>,
    pub(crate) published: Published,
}

/// The first version of the zone of these tests.
fn first_version(alloc: Global) -> Result<SharedVersion, Fail> {
    let zone = read_zone(alloc, ZONE.as_bytes(), &Name::root())?;
    match SharedVersion::new(alloc, Version::first(zone)) {
        Some(first) => Ok(first),
        None => Err(Fail::from("no memory for a version")),
    }
}

/// The writer of a new store in a directory. Its recent updates keep as many versions as they may.
fn begin_writer(rt: &HostRuntime, dir: &str) -> Result<StoreWriter<FileDisk>, Fail> {
    let alloc = rt.alloc();
    let first = first_version(alloc)?;
    let origin = TextSum::of(ZONE.as_bytes());
    let (text, head) = create_store(alloc, first.get().zone(), 0, [7; 16], origin)?;
    let (octets, salt) = write_head(alloc, &head)?;
    let disk = begin_pair(rt, alloc, dir, text.as_bytes(), &octets)?;
    let log = Log::resume(disk, &salt, 0, octets.len() as u64)?;
    let recent = RecentUpdates::of(alloc, first, KEPT)?;
    Ok(StoreWriter::of(head, log, recent))
}

/// A new store in a directory of its own.
pub(crate) fn new_store(rt: &HostRuntime, dir: &str) -> Result<WrittenStore, Fail> {
    let _ = fs::remove_dir_all(rt, dir);
    fs::create_dir(rt, dir)?;
    let published = Published {
        last: first_version(rt.alloc())?,
        older: Vec::new(rt.alloc()),
    };
    Ok(WrittenStore {
        writer: begin_writer(rt, dir)?,
        published,
    })
}

/// The update that octets hold, of a peer that may update. None if they hold none, or memory allocation fails.
fn request_of(alloc: Global, octets: Vec<u8>) -> Option<UpdateRequest>
    ensures { IfSome result (λ request. request.may ≡ true) }
{
    match parse(alloc, &octets) {
        Parsed::Update(update) => UpdateRequest::of(alloc, update, octets, true),
        _ => None,
    }
}

/// The update that adds the address of a number at a.example: 192.0 followed by the two octets of the number.
fn update_of(alloc: Global, number: u16) -> Result<QueuedUpdate, Fail> {
    let mut octets = hex::decode(alloc, ADD_A.as_bytes())?;
    octets.truncate(octets.len().saturating_sub(2));
    octets.extend_from_slice(&number.to_be_bytes())?;
    let Some(request) = request_of(alloc, octets) else {
        return Err(Fail::from("an update isn't read"));
    };
    let reply_to = ReplyTo::Datagram {
        worker: 0,
        to: SocketAddr::from(([192, 0, 2, 7], 4711)),
        tsig: None,
    };
    Ok(QueuedUpdate { request, reply_to })
}

/// The updates that add the addresses of the numbers from `from` up to, but not including, `to`.
fn queued_of(alloc: Global, from: u16, to: u16) -> Result<Vec<QueuedUpdate>, Fail> {
    let mut requests = Vec::new(alloc);
    for number in from..to {
        requests.push(update_of(alloc, number)?)?;
    }
    Ok(requests)
}

/// The updates that add the addresses of the numbers from `from` up to, but not including, `to`, judged in a version. Each makes a version.
pub(crate) fn updates_of(
    alloc: Global,
    last: &SharedVersion,
    from: u16,
    to: u16,
) -> Result<Vec<VersionUpdate>, Fail>
    ensures count { IfOk result (λ updates. length updates.items ≤ 64) }
    ensures short { IfOk result (λ updates. length (batch_of (messages_of updates.items)) < body_limit) }
{
    let requests = queued_of(alloc, from, to)?;
    let mut verdicts = Vec::with_capacity(alloc, requests.len())?;
    let updates = judge_batch(alloc, last, &requests, MOST, &mut verdicts);
    check(
        updates.len() == requests.len(),
        "an update makes no version",
    )?;
    Ok(updates)
}

/// Appends them to a store as one batch. Returns whether the batch is stored.
pub(crate) fn send<R: Wait>(
    rt: &R,
    alloc: Global,
    store: &mut WrittenStore,
    from: u16,
    to: u16,
) -> Result<bool, Fail> {
    let updates = updates_of(alloc, &store.published.last, from, to)?;
    let kept = store.writer.append(rt, alloc, &updates).is_ok();
    if kept {
        store.published.add(updates)?;
    }
    Ok(kept)
}

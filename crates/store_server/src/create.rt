//! Creating a store (own).
ghost use Rattle.std.specs.Prelude.{◌≡◌, [], IfOk, IfErr};
ghost use Rattle.journal.specs.Head.{head_of, salt_of};
ghost use Rattle.journal.specs.Log.{Holds};
ghost use Rattle.store_files.specs.File.{written, synced};
ghost use Rattle.store_recovery.specs.Replay.{first_version};
ghost use Rattle.store_server.specs.Started.{IsCreatedStore, IsOwnFault};

use crate::refusal::Refusal;
use crate::resume::OpenStore;
use journal::{Head, Log, SUM, TextSum, write_head};
use std::alloc::Global;
use std::fs::{File, Files};
use store_files::{FIRST_TEXT, FileDisk, begin_pair};
use store_recovery::create_store;
use zone_tree::{Version, Zone};

/// Creates the first store of a directory that has none, with a zone: its zone file of number 0, and a journal without batches. `random` are bytes unknown to anyone else, and
/// `given` is the text that the zone was read from. It allocates memory.
pub(crate) fn create_first<R: Files<File = File>>(
    rt: &R,
    alloc: Global,
    dir: &str,
    zone: Zone,
    random: [u8; 16],
    given: &[u8],
) -> Result<OpenStore, Refusal>
    ensures begun { IfOk result (λ store. IsCreatedStore zone 0 random given.now store) }
    ensures refused { IfErr result IsOwnFault }
{
    let (text, head) = create_store(alloc, &zone, FIRST_TEXT, random, TextSum::of(given))?;
    let (octets, salt) = write_head(alloc, &head)?;
    let disk = begin_pair(rt, alloc, dir, text.as_bytes(), &octets)?;
    let log = empty_log(&head, &salt, &octets, disk)?;
    Ok(new_store(alloc, zone, head, log))
}

/// The log of a journal without batches, on a disk that has only the bytes of its head.
fn empty_log(
    head: &Head,
    salt: &[u8; SUM],
    octets: &[u8],
    disk: FileDisk,
) -> Result<Log<FileDisk>, Refusal>
    requires salt { salt.now ≡ salt_of head.now }
    requires octets { octets.now ≡ head_of head.now }
    requires written { written disk ≡ octets.now }
    ensures empty { IfOk result (λ log. Holds written synced head.now log []) }
    ensures refused { IfErr result IsOwnFault }
{
    Ok(Log::resume(disk, salt, 0, octets.len() as u64)?)
}

/// A store with a zone, and with a journal without batches.
fn new_store(alloc: Global, zone: Zone, head: Head, log: Log<FileDisk>) -> OpenStore
    ensures head { result.head ≡ head }
    ensures log { result.log ≡ log }
    ensures first { result.first ≡ first_version zone }
    ensures later { result.later.items ≡ [] }
    ensures updates { result.updates.items ≡ [] }
{
    OpenStore {
        head,
        log,
        first: Version::first(zone),
        later: Vec::new(alloc),
        updates: Vec::new(alloc),
    }
}

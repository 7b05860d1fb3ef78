//! Journals for the tests, and the results of starts from octets.
use journal::{
    Head, HeadFault, Log, Recovered, Refused, RequestMessages, SUM, TextSum, put_request, recover,
    write_frame, write_head,
};
use memory_devices::MemoryDisk;
use std::alloc::{AllocError, Global};

/// A zone text.
pub(crate) const ZONE: &[u8] = b"example. 3600 IN SOA ns.example. host.example. 7 1 1 1 1\n";

/// The head of its journal.
pub(crate) fn head_of_zone() -> Head {
    Head {
        number: 3,
        random: *b"sixteen octets..",
        text: TextSum::of(ZONE),
        serial: 7,
        origin: TextSum::of(b"as it was given"),
    }
}

/// The salt of its frames.
pub(crate) fn salt(alloc: Global) -> Result<[u8; SUM], AllocError> {
    let (_, salt) = write_head(alloc, &head_of_zone())?;
    Ok(salt)
}

/// The updates of the batches of the tests, as octets that are not parsed.
pub(crate) const BATCHES: [&[&[u8]]; 3] = [&[b"first"], &[b"two", b"third one"], &[b"fourth"]];

/// The length of a head, in octets.
pub(crate) const HEAD: usize = 156;

/// The number of octets of a frame without its body.
pub(crate) const FRAME: usize = 52;

/// The end of the first batch: a head, and the frame of a body of 7 octets.
pub(crate) const FIRST: usize = HEAD + (FRAME + 7);

/// The start of the last batch: the body before it has 16 octets.
pub(crate) const LAST: usize = FIRST + (FRAME + 16);

/// The end of the last batch: its body has 8 octets.
pub(crate) const END: usize = LAST + (FRAME + 8);

/// A batch of these updates.
pub(crate) fn batch_of(alloc: Global, updates: &[&[u8]]) -> Result<Vec<u8>, AllocError> {
    let mut batch = Vec::new(alloc);
    for update in updates {
        if let Some(request) = RequestMessages::copied(alloc, &[update])? {
            put_request(alloc, &mut batch, &request)?;
        }
    }
    Ok(batch)
}

/// The journal of these batches, the first of which has number 0.
pub(crate) fn journal_of(alloc: Global, batches: &[&[&[u8]]]) -> Result<Vec<u8>, AllocError> {
    let (mut octets, salt) = write_head(alloc, &head_of_zone())?;
    for (number, updates) in batches.iter().enumerate() {
        let batch = batch_of(alloc, updates)?;
        if batch.len() < 1 << 24 {
            octets.extend_from_slice(&write_frame(alloc, &salt, number as u64, &batch)?)?;
        }
    }
    Ok(octets)
}

/// A log without a batch, on a disk whose next calls give the results of a plan. None if one of the first two calls fails.
pub(crate) fn empty_log(
    alloc: Global,
    plan: Vec<u8>,
) -> Result<Option<Log<MemoryDisk>>, AllocError> {
    let (head, salt) = write_head(alloc, &head_of_zone())?;
    let disk = MemoryDisk::of(alloc, &head)?.planned(plan);
    Ok(Log::resume(disk, &salt, 0, head.len() as u64).ok())
}

/// Their updates, in order.
const UPDATES: [&[u8]; 4] = [b"first", b"two", b"third one", b"fourth"];

/// The number of batches that these updates make, from the first batch on. None if they are not the updates of the first batches.
fn batches_in(updates: &[Vec<&[u8]>]) -> Option<u64> {
    for (place, update) in updates.iter().enumerate() {
        if update.as_slice() != [*UPDATES.get(place)?].as_slice() {
            return None;
        }
    }
    match updates.len() {
        0 => Some(0),
        1 => Some(1),
        3 => Some(2),
        4 => Some(3),
        _ => None,
    }
}

/// What a start recovers from octets, with the zone text of the tests.
pub(crate) fn recovered(alloc: Global, octets: &[u8]) -> Result<Recovered<'_>, Refused> {
    recover(alloc, ZONE, octets)
}

/// What a start recovers from a journal of the tests.
#[derive(Clone, Copy, Debug, PartialEq, Eq)]
pub(crate) struct Found {
    /// The number of batches whose updates it has.
    pub(crate) batches: Option<u64>,
    /// The number of the next batch.
    pub(crate) number: u64,
    /// The position of the end of the last batch.
    pub(crate) end: usize,
    /// Whether there is a torn batch after it.
    pub(crate) torn: bool,
}

/// The result with `number` batches, up to the octet at `end`.
pub(crate) fn recovers(number: u64, end: usize, torn: bool) -> Result<Found, Refused> {
    let batches = Some(number);
    Ok(Found {
        batches,
        number,
        end,
        torn,
    })
}

/// The result of a start from octets.
pub(crate) fn outcome(alloc: Global, octets: &[u8]) -> Result<Found, Refused> {
    let found = recovered(alloc, octets)?;
    Ok(Found {
        batches: batches_in(&found.updates),
        number: found.number,
        end: found.end,
        torn: found.torn,
    })
}

/// The result for a head with a fault.
pub(crate) fn bad_head(fault: HeadFault) -> Result<Found, Refused> {
    Err(Refused::BadHead(fault))
}

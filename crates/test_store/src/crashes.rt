//! Crashes of a disk held in memory.
use crate::journals::{batch_of, empty_log, recovered};
use journal::{Log, LogFault, Recovered, RequestMessages, put_request};
use memory_devices::MemoryDisk;
use std::alloc::{AllocError, Global};

/// Pseudorandom numbers: Knuth's generator of 64 bits (The Art of Computer Programming, 3.3.4), of which the high bits are used.
#[derive(Drop)]
struct Random(u64);

impl Random {
    /// A number below `most`; 0 if `most` is 0.
    fn below(&mut self, most: u64) -> u64 {
        self.0 = self
            .0
            .wrapping_mul(6_364_136_223_846_793_005)
            .wrapping_add(1_442_695_040_888_963_407);
        if most == 0 { 0 } else { (self.0 >> 33) % most }
    }

    /// An octet.
    fn octet(&mut self) -> u8 {
        (self.below(256) & 255) as u8
    }
}

/// Pseudorandom octets, fewer than `most`.
fn octets_of(alloc: Global, random: &mut Random, most: u64) -> Result<Vec<u8>, AllocError> {
    let len = random.below(most);
    let mut octets = Vec::new(alloc);
    for _ in 0..len {
        octets.push(random.octet())?;
    }
    Ok(octets)
}

/// The results of the calls of a disk: one in six fails.
fn plan_of(alloc: Global, random: &mut Random) -> Result<Vec<u8>, AllocError> {
    let mut plan = Vec::new(alloc);
    for _ in 0..random.below(40) {
        let call = if random.below(6) == 0 {
            random.octet()
        } else {
            0
        };
        plan.push(call)?;
    }
    Ok(plan)
}

/// What a crash does to octets that were not synced, in pages of up to 40 octets: it loses a page, keeps it, or flips bits of it; and it may
/// lose all octets from some position on.
fn fates_of(alloc: Global, random: &mut Random) -> Result<Vec<u8>, AllocError> {
    let mut fates = Vec::new(alloc);
    for _ in 0..random.below(12) {
        let fate = match random.below(4) {
            0 => 0,
            1 => random.octet(),
            _ => 1,
        };
        for _ in 0..random.below(40) {
            fates.push(fate)?;
        }
    }
    Ok(fates)
}

/// The updates that were sent, in the form of batches: those reported to be on the disk, and those of the batch after them, if the disk refused
/// it.
#[derive(Drop)]
struct Sent {
    outcome: Vec<u8>,
    refused: Vec<u8>,
}

/// A batch of up to three updates.
fn some_batch(alloc: Global, random: &mut Random) -> Result<Vec<u8>, AllocError> {
    let mut batch = Vec::new(alloc);
    for _ in 0..=random.below(3) {
        let update = octets_of(alloc, random, 60)?;
        if let Some(request) = RequestMessages::one(alloc, update) {
            put_request(alloc, &mut batch, &request)?;
        }
    }
    Ok(batch)
}

/// The batch of requests that were read.
fn read_again(alloc: Global, requests: &[Vec<&[u8]>]) -> Result<Vec<u8>, AllocError> {
    let mut batch = Vec::new(alloc);
    for messages in requests {
        if let Some(request) = RequestMessages::copied(alloc, messages)? {
            put_request(alloc, &mut batch, &request)?;
        }
    }
    Ok(batch)
}

/// Appends a batch, and notes the result.
fn append(
    alloc: Global,
    log: &mut Log<MemoryDisk>,
    sent: &mut Sent,
    batch: Vec<u8>,
) -> Result<(), AllocError> {
    if batch.len() >= 1 << 24 {
        return Ok(());
    }
    match log.append(alloc, &batch) {
        Ok(()) => {
            sent.outcome.extend_from_slice(&batch)?;
            sent.refused.clear();
        }
        Err(LogFault::Disk(_)) => sent.refused = batch,
        Err(_) => {}
    }
    Ok(())
}

/// The octets that a crash leaves of a log to which some batches were appended.
fn crashed(
    alloc: Global,
    random: &mut Random,
    log: &mut Log<MemoryDisk>,
    sent: &mut Sent,
) -> Result<Vec<u8>, AllocError> {
    for _ in 0..random.below(8) {
        append(alloc, log, sent, some_batch(alloc, random)?)?;
    }
    log.disk().crashed(alloc, &fates_of(alloc, random)?)
}

/// Whether these are the updates that were reported to be on the disk, and after them none, or the whole batch that the disk refused last.
fn is_sent(alloc: Global, found: &Recovered<'_>, sent: &Sent) -> Result<bool, AllocError> {
    let updates = read_again(alloc, &found.updates)?;
    Ok(match updates.split_at_checked(sent.outcome.len()) {
        Some((outcome, rest)) => {
            outcome == sent.outcome.as_slice()
                && (rest.is_empty() || rest == sent.refused.as_slice())
        }
        None => false,
    })
}

/// A log on a disk that fails, and a crash of it. Whether a start recovers the updates that were reported to be on the disk, and no updates
/// that were not sent. Another log continues from there, and crashes too.
fn crashes_once(alloc: Global, seed: u64) -> Result<bool, AllocError> {
    let mut random = Random(seed);
    let plan = plan_of(alloc, &mut random)?;
    let Some(mut log) = empty_log(alloc, plan)? else {
        return Ok(true);
    };
    let mut sent = Sent {
        outcome: Vec::new(alloc),
        refused: Vec::new(alloc),
    };
    let image = crashed(alloc, &mut random, &mut log, &mut sent)?;
    match recovered(alloc, &image) {
        Ok(found) => {
            Ok(is_sent(alloc, &found, &sent)? && goes_on(alloc, &mut random, &image, &found)?)
        }
        Err(_) => Ok(false),
    }
}

/// Continues from what a crash has left, and crashes again.
fn goes_on(
    alloc: Global,
    random: &mut Random,
    image: &[u8],
    found: &Recovered<'_>,
) -> Result<bool, AllocError> {
    let mut sent = Sent {
        outcome: read_again(alloc, &found.updates)?,
        refused: Vec::new(alloc),
    };
    let disk = MemoryDisk::of(alloc, image)?;
    let Ok(mut log) = Log::resume(disk, &found.salt, found.number, found.end as u64) else {
        return Ok(false);
    };
    let image = crashed(alloc, random, &mut log, &mut sent)?;
    match recovered(alloc, &image) {
        Ok(again) => is_sent(alloc, &again, &sent),
        Err(_) => Ok(false),
    }
}

// A thousand crashes: the updates that were reported to be on the disk are there, in order, and no updates that were not sent.
#[test]
fn a_thousand_crashes(rt: HostRuntime) -> Result<(), AllocError> {
    let alloc: Global = rt.alloc();
    for seed in 0..1_000 {
        assert!(rt; crashes_once(alloc, seed)?, "{seed}");
    }
    Ok(())
}

//! Logs that stop, and continue with another journal.
use crate::journals::{
    BATCHES, END, FIRST, batch_of, empty_log, journal_of, outcome, recovers, salt,
};
use journal::{Log, LogFault};
use memory_devices::MemoryDisk;
use std::alloc::{AllocError, Global};
use std::test::Fail;

/// Appends a batch. Returns whether it is on the disk.
fn append(alloc: Global, log: &mut Log<MemoryDisk>, updates: &[&[u8]]) -> Result<bool, AllocError> {
    let batch = batch_of(alloc, updates)?;
    Ok(batch.len() < 1 << 24 && log.append(alloc, &batch).is_ok())
}

/// A log of the tests, without a batch.
fn begun(alloc: Global) -> Result<Log<MemoryDisk>, Fail> {
    match empty_log(alloc, Vec::new(alloc))? {
        Some(log) => Ok(log),
        None => Err("no log".into()),
    }
}

// A log that has stopped appends nothing more. Its disk has what it had.
#[test]
fn stopped(rt: HostRuntime) -> Result<(), Fail> {
    let alloc: Global = rt.alloc();
    let mut log = begun(alloc)?;
    let first = append(alloc, &mut log, BATCHES[0])?;
    log.stop();
    let is_stuck = matches!(log.append(alloc, b""), Err(LogFault::Stuck));
    assert_eq!(rt; [first, log.is_stuck(), is_stuck], [true; 3]);
    let image = log.disk().crashed(alloc, b"")?;
    assert_eq!(rt; outcome(alloc, &image), recovers(1, FIRST, false));
    Ok(())
}

// It continues with another journal, after the batches of that journal.
#[test]
fn switched(rt: HostRuntime) -> Result<(), Fail> {
    let alloc: Global = rt.alloc();
    let mut log = begun(alloc)?;
    log.stop();
    let octets = journal_of(alloc, &BATCHES[..2])?;
    let len = octets.len() as u64;
    log.switch(MemoryDisk::of(alloc, &octets)?, &salt(alloc)?, 2, len);
    let goes_on = [!log.is_stuck(), log.len() == len];
    let last = append(alloc, &mut log, BATCHES[2])?;
    assert_eq!(rt; (goes_on, last), ([true; 2], true));
    let image = log.disk().crashed(alloc, b"")?;
    let whole = journal_of(alloc, &BATCHES)?;
    assert_eq!(rt; image.as_slice(), whole.as_slice());
    assert_eq!(rt; outcome(alloc, &image), recovers(3, END, false));
    Ok(())
}

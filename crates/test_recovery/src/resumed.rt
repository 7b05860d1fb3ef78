//! The state with which a server continues.
use crate::journals::{ADD_A, ADD_B, ZONE, head_of, journal_of};
use dns_name::Name;
use std::alloc::Global;
use std::fs;
use std::test::Fail;
use store_recovery::Take;
use store_server::{Given, Started, start_store};

/// A start from a directory, which chooses the store.
fn started(rt: &HostRuntime, dir: &str) -> Result<Started, Fail> {
    let origin = Name::root();
    let given = Given {
        text: ZONE.as_bytes(),
        origin: &origin,
        taken: Some(Take::Store),
    };
    match start_store(rt, rt.alloc(), dir, given, [7; 16]) {
        Ok(started) => Ok(started),
        Err(_) => Err(Fail::from("nothing is served")),
    }
}

/// Writes a store to a directory, with two batches, and octets after them that are no frame. Returns the octets of its journal before these.
fn lay_torn(rt: &HostRuntime, dir: &str) -> Result<Vec<u8>, Fail> {
    let _ = fs::remove_dir_all(rt, dir);
    fs::create_dir(rt, dir)?;
    fs::write(rt, "test_recovery_torn/zone-3", ZONE)?;
    let whole = journal_of(rt.alloc(), ZONE, &[&[ADD_A], &[ADD_B]])?;
    let mut torn = whole.to_vec(rt.alloc())?;
    torn.extend_from_slice(b"torn")?;
    fs::write(rt, "test_recovery_torn/journal", torn.as_slice())?;
    Ok(whole)
}

/// The state with which a server starts, in one line: which is served, the file with a torn end, the serials of the versions, and the updates
/// that made them.
fn line_of(alloc: Global, started: &Started) -> Result<String, Fail> {
    let store = &started.store;
    let (served, torn, serial) = (&started.served, &started.torn, store.first.serial().0);
    let mut line = format!(in alloc; "{served:?}, {torn:?}, {serial}")?;
    for version in &store.later {
        line.push_str(format!(in alloc; ", {}", version.serial().0)?.as_str())?;
    }
    for update in &store.updates {
        line.push_str(", ")?;
        line.push_str(hex::encode(alloc, update.first())?.as_str())?;
    }
    Ok(line)
}

// A server continues with the versions of a journal, and the updates that made them, as they were received. The torn end after the last batch
// is cut off, and kept in a file.
#[test]
fn a_torn_journal_is_gone_on_with(rt: HostRuntime) -> Result<(), Fail> {
    let dir = "test_recovery_torn";
    let whole = lay_torn(&rt, dir)?;
    let started = started(&rt, dir)?;
    let right = format!(in rt.alloc();
        "Store, Some(\"test_recovery_torn/torn-1\"), 7, 8, 9, {ADD_A}, {ADD_B}"
    )?;
    assert_eq!(rt; line_of(rt.alloc(), &started)?, right);
    assert!(rt; started.store.head == head_of(rt.alloc(), ZONE)?);
    let kept = fs::read(&rt, "test_recovery_torn/torn-1")?;
    let left = fs::read(&rt, "test_recovery_torn/journal")?;
    assert!(rt; kept.as_slice() == b"torn".as_slice() && left == whole);
    fs::remove_dir_all(&rt, dir)?;
    Ok(())
}

//! A store that is compacted between two batches, when it is tended.
use crate::found::{expect, is_there, is_writing};
use crate::texts::{Store, create_store};
use crate::updates::check;
use std::fs;
use std::sync::Wait;
use std::test::Fail;

/// The directory of the test.
const DIR: &str = "test_recovery_tended";

/// The directory that it is moved to.
const MOVED: &str = "test_recovery_moved";

/// The store's new journal, before it is renamed.
const NEW_JOURNAL: &str = "test_recovery_tended/journal.new";

/// Appends the updates with the numbers from `from` up to, but not including, `to` to a store, and tends it. Checks what a start recovers, and
/// whether a text is being written.
fn send<R: Wait>(
    rt: &R,
    files: &HostRuntime,
    store: &mut Store,
    (from, to): (u16, u16),
    line: &'static str,
    writes: bool,
) -> Result<(), Fail> {
    check(store.append(rt, files.alloc(), from, to)?, line)?;
    tend(rt, files, store, line, writes)
}

/// Tends a store. Checks what a start recovers after that, and whether a text is being written.
fn tend<R: Wait>(
    rt: &R,
    files: &HostRuntime,
    store: &mut Store,
    line: &'static str,
    writes: bool,
) -> Result<(), Fail> {
    store.tend(rt, files.alloc());
    expect(files, DIR, &store.published, line)?;
    check(is_writing(files, DIR)? == writes, line)
}

/// Two texts are started, each when the journal has more than 400 octets, and twice as many as after the last compaction. The journal starts
/// with 156 octets, and a batch has 52, and 52 for each of its updates; a compaction makes a batch of each update that it keeps, up to eight.
fn begin_texts<R: Wait>(rt: &R, files: &HostRuntime, store: &mut Store) -> Result<(), Fail> {
    let line = "text 0, batches 1, serials 7 to 10";
    send(rt, files, store, (1, 4), line, false)?;
    let line = "text 0, batches 2, serials 7 to 11";
    send(rt, files, store, (4, 5), line, true)?;
    let line = "text 1, batches 4, serials 7 to 11";
    tend(rt, files, store, line, false)?;
    let line = "text 1, batches 5, serials 7 to 15";
    send(rt, files, store, (5, 9), line, false)?;
    let line = "text 1, batches 6, serials 13 to 21";
    send(rt, files, store, (9, 15), line, true)
}

/// The journal of the second text cannot be put in place: the old journal stays, that text is removed, and the next one is written when it is
/// asked for the second time.
fn fail_to_lay<R: Wait>(rt: &R, files: &HostRuntime, store: &mut Store) -> Result<(), Fail> {
    let line = "text 1, batches 6, serials 13 to 21";
    fs::create_dir(files, NEW_JOURNAL)?;
    tend(rt, files, store, line, true)?;
    fs::remove_dir(files, NEW_JOURNAL)?;
    check(!is_there(files, DIR, "zone-2")?, "the text stays")?;
    tend(rt, files, store, line, true)?;
    let line = "text 3, batches 8, serials 13 to 21";
    tend(rt, files, store, line, false)?;
    check(!is_there(files, DIR, "zone-1")?, "the text before stays")
}

/// The directory is moved: no batch is stored, and no directory is created in its place. Once it is back, the next batch is stored after those
/// before.
fn move_away<R: Wait>(rt: &R, files: &HostRuntime, store: &mut Store) -> Result<(), Fail> {
    fs::rename(files, DIR, MOVED)?;
    let kept = store.append(rt, files.alloc(), 15, 16)?;
    check(!kept, "a batch is kept in a folder that was moved")?;
    store.tend(rt, files.alloc());
    check(!fs::exists(files, DIR)?, "a folder is made in its place")?;
    fs::rename(files, MOVED, DIR)?;
    let line = "text 3, batches 9, serials 14 to 22";
    send(rt, files, store, (15, 16), line, false)
}

#[test]
fn a_store_is_tended(rt: HostRuntime) -> Result<(), Fail> {
    let mut store = create_store(&rt, DIR, 0)?;
    begin_texts(&rt, &rt, &mut store)?;
    fail_to_lay(&rt, &rt, &mut store)?;
    move_away(&rt, &rt, &mut store)?;
    fs::remove_dir_all(&rt, DIR)?;
    Ok(())
}

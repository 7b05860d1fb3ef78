//! A store whose text is written slowly, while batches are appended.
use crate::found::{expect, is_writing};
use crate::texts::{Store, create_store};
use crate::updates::check;
use std::fs;
use std::sync::Wait;
use std::test::Fail;

/// The directory of the test.
const DIR: &str = "test_recovery_slow";

/// Appends the updates with the numbers from `from` up to, but not including, `to` to a store as one batch, and tends it. Checks what a start
/// recovers, and whether a text is being written.
fn send<R: Wait>(
    rt: &R,
    files: &HostRuntime,
    store: &mut Store,
    (from, to): (u16, u16),
    line: &'static str,
    writes: bool,
) -> Result<(), Fail> {
    check(store.append(rt, files.alloc(), from, to)?, line)?;
    store.tend(rt, files.alloc());
    expect(files, DIR, &store.published, line)?;
    check(is_writing(files, DIR)? == writes, line)
}

// A text gives no result at three tends, and is waited for at none of them: a batch is appended before each, and a start recovers it. At the
// fourth its journal is put in place, with a batch for each of the four updates before, and the batches that came meanwhile. The journal starts with 156 octets, and a batch has 52, and 52 for
// each of its updates: the second one makes it longer than 400.
#[test]
fn updates_go_on_while_a_text_is_written(rt: HostRuntime) -> Result<(), Fail> {
    let mut store = create_store(&rt, DIR, 3)?;
    for (numbers, line, writes) in [
        ((1, 4), "text 0, batches 1, serials 7 to 10", false),
        ((4, 5), "text 0, batches 2, serials 7 to 11", true),
        ((5, 6), "text 0, batches 3, serials 7 to 12", true),
        ((6, 7), "text 0, batches 4, serials 7 to 13", true),
        ((7, 8), "text 0, batches 5, serials 7 to 14", true),
        ((8, 9), "text 1, batches 8, serials 7 to 15", false),
    ] {
        send(&rt, &rt, &mut store, numbers, line, writes)?;
    }
    fs::remove_dir_all(&rt, DIR)?;
    Ok(())
}

//! The steps of compactions, in order.
use crate::found::{expect, is_there};
use crate::updates::{WrittenStore, check, new_store, send};
use journal::Head;
use std::alloc::Global;
use std::fs;
use std::sync::Wait;
use std::test::Fail;
use store_compaction::{
    NextText, create_next_text, drop_old_texts, replace_with_next, write_next_text,
};

/// The directory of the test.
const DIR: &str = "test_recovery_steps";

/// The starts before and after the updates that are sent while a text is written.
#[derive(Drop)]
struct Lines {
    front: &'static str,
    behind: &'static str,
}

/// Starts a compaction.
fn begin_text<R: Wait>(rt: &R, alloc: Global, store: &mut WrittenStore) -> Result<NextText, Fail> {
    match store.writer.begin_compaction(rt, alloc)? {
        Some(next) => Ok(next),
        None => Err(Fail::from("no number is left")),
    }
}

/// Sends two updates, with the numbers from `number` on.
fn send_two<R: Wait>(
    rt: &R,
    alloc: Global,
    store: &mut WrittenStore,
    number: u16,
) -> Result<(), Fail> {
    let kept = send(rt, alloc, store, number, number.saturating_add(2))?;
    check(kept, "two updates")
}

/// A compaction up to its text, while two updates are sent, with the numbers from `number` on.
fn write_text<R: Wait>(
    rt: &R,
    files: &HostRuntime,
    store: &mut WrittenStore,
    number: u16,
    lines: Lines,
) -> Result<Head, Fail> {
    let alloc = files.alloc();
    let next = begin_text(rt, alloc, store)?;
    let file = create_next_text(files, alloc, DIR, &next)?;
    expect(files, DIR, &store.published, lines.front)?;
    send_two(rt, alloc, store, number)?;
    expect(files, DIR, &store.published, lines.behind)?;
    let head = write_next_text(alloc, file, &next, store.writer.head(), [9; 16])?;
    let done = drop_old_texts(files, DIR, &store.writer)?;
    check(!done, "texts go while one is written")?;
    expect(files, DIR, &store.published, lines.behind)?;
    Ok(head)
}

/// Puts the journal of a text in place, and removes the texts that are not needed any more. Checks what a start recovers after that.
fn put_in_place(
    files: &HostRuntime,
    store: &mut WrittenStore,
    head: Head,
    line: &'static str,
) -> Result<(), Fail> {
    let done = replace_with_next(files, files.alloc(), DIR, &mut store.writer, head)?;
    check(done, "no journal is in place")?;
    expect(files, DIR, &store.published, line)?;
    let done = replace_with_next(files, files.alloc(), DIR, &mut store.writer, head)?;
    check(!done, "a journal is in place again")?;
    check(drop_old_texts(files, DIR, &store.writer)?, "texts stay")?;
    expect(files, DIR, &store.published, line)
}

/// A first compaction, with updates before each step.
fn compact_first<R: Wait>(
    rt: &R,
    files: &HostRuntime,
    store: &mut WrittenStore,
) -> Result<(), Fail> {
    expect(
        files,
        DIR,
        &store.published,
        "text 0, batches 0, serials 7 to 7",
    )?;
    check(send(rt, files.alloc(), store, 1, 4)?, "three updates")?;
    let lines = Lines {
        front: "text 0, batches 1, serials 7 to 10",
        behind: "text 0, batches 2, serials 7 to 12",
    };
    let head = write_text(rt, files, store, 4, lines)?;
    put_in_place(files, store, head, "text 1, batches 4, serials 7 to 12")?;
    check(is_there(files, DIR, "zone-0")?, "the text before goes")
}

/// A second compaction, and an update after it. A start keeps eight older versions: the text holds the oldest of these, with serial 10.
fn compact_again<R: Wait>(
    rt: &R,
    files: &HostRuntime,
    store: &mut WrittenStore,
) -> Result<(), Fail> {
    check(send(rt, files.alloc(), store, 6, 12)?, "six updates")?;
    let lines = Lines {
        front: "text 1, batches 5, serials 10 to 18",
        behind: "text 1, batches 6, serials 12 to 20",
    };
    let head = write_text(rt, files, store, 12, lines)?;
    put_in_place(files, store, head, "text 2, batches 9, serials 12 to 20")?;
    check(send(rt, files.alloc(), store, 14, 15)?, "an update")?;
    expect(
        files,
        DIR,
        &store.published,
        "text 2, batches 10, serials 13 to 21",
    )
}

// Two compactions: a start after each step recovers the updates that were sent. At the end the store's text and the one before it are there,
// and no other file of the compactions.
#[test]
fn each_step_keeps_the_versions(rt: HostRuntime) -> Result<(), Fail> {
    let mut store = new_store(&rt, DIR)?;
    compact_first(&rt, &rt, &mut store)?;
    compact_again(&rt, &rt, &mut store)?;
    for (name, stays) in [
        ("zone-0", false),
        ("zone-1", true),
        ("zone-2", true),
        ("journal.new", false),
    ] {
        assert_eq!(rt; is_there(&rt, DIR, name)?, stays, "{name}");
    }
    fs::remove_dir_all(&rt, DIR)?;
    Ok(())
}

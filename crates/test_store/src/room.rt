//! Room after the batches of a journal, which is allocated ahead.
use crate::folders::{append, begun_log};
use crate::journals::batch_of;
use journal::{Log, SUM, read_all, write_frame};
use std::alloc::{Allocator, Global};
use std::fs::{self, File, Files, Metadata, OpenOptions};
use std::io::{self, Seek, SeekFrom, Write};
use std::sync::atomic::{AtomicU64, Ordering};
use std::test::Fail;
use store_files::{OpenedFolder, open_store, read_store};

/// The number of batches of a journal, and the number of zeros after them. Fails if there are other octets after them.
fn batches_and_zeros(
    alloc: Global,
    salt: &[u8; SUM],
    journal: &[u8],
) -> Result<(usize, usize), Fail> {
    let (batches, behind) = read_all(alloc, salt, &mut 0, journal.get(156..).unwrap_or(&[]))?;
    for octet in behind {
        if *octet != 0 {
            return Err(Fail::from("no zeros are behind the batches"));
        }
    }
    Ok((batches.len(), behind.len()))
}

// The file that is written with a pair is the store's journal: batches that are appended to it are read under the journal's name. Room is made
// after the first batch. The next batch is written over the start of the room, so that the file keeps its length, and if a batch finds too
// little room, more is made. A log that continues with the journal that the next start finds has cut off the room, and makes it again.
#[test]
fn batches_stand_in_room(rt: HostRuntime) -> Result<(), Fail> {
    let alloc = rt.alloc();
    let dir = "test_store_room";
    let (mut log, salt) = begun_log(&rt, dir)?;
    let mut outcome = Vec::new(alloc);
    for len in [9, 11, 65_000, 600] {
        append(alloc, &mut log, &vec![in alloc; b'x'; len]?)?;
        let (_, journal) = read_store(&rt, alloc, dir)?;
        outcome.push(batches_and_zeros(alloc, &salt, &journal)?)?;
    }
    drop(log);
    let OpenedFolder::Found(_, pair) = open_store(&rt, alloc, dir)? else {
        return Err(Fail::from("no pair is found"));
    };
    outcome.push(batches_and_zeros(alloc, &salt, &pair.journal)?)?;
    // The head and four frames, each with 54 octets more than its update.
    let mut next = Log::resume(pair.disk, &salt, 4, 156 + 4 * 54 + 65_620)?;
    for _ in 0..2 {
        let journal = fs::read(&rt, "test_store_room/journal")?;
        outcome.push(batches_and_zeros(alloc, &salt, &journal)?)?;
        append(alloc, &mut next, b"an update")?;
    }
    let right = [
        (1, 65_536),
        (2, 65_471),
        (3, 417),
        (4, 65_536),
        (4, 65_536),
        (4, 0),
        (5, 65_536),
    ];
    assert_eq!(rt; outcome.as_slice(), right.as_slice());
    fs::remove_dir_all(&rt, dir)?;
    Ok(())
}

/// Files, one of which is a journal with one batch and room after it. Each time the text of its store is opened, one more batch is written to
/// the journal.
#[derive(Drop)]
struct Beside<'a> {
    rt: &'a HostRuntime,
    salt: [u8; SUM],
    number: AtomicU64,
}

impl Beside<'_> {
    /// Writes the frame of the next batch, of 63 octets.
    fn write_next(&self) -> io::Result<()> {
        let number = self.number.fetch_add(1, Ordering::SeqCst);
        let batch = batch_of(self.rt.alloc(), &[b"an update"])?;
        if batch.len() != 11 {
            return Ok(());
        }
        let frame = write_frame(self.rt.alloc(), &self.salt, number, &batch)?;
        let mut journal = OpenOptions::new()
            .write(true)
            .open(self.rt, "test_store_beside/journal")?;
        journal.seek(SeekFrom::Start(number.saturating_mul(63).saturating_add(156)))?;
        journal.write_all(&frame)
    }
}

impl Files for Beside<'_> {
    type File = File;

    type Dir = <HostRuntime as Files>::Dir;

    fn open_file(&self, how: &OpenOptions, path: &str) -> io::Result<File> {
        if path == "test_store_beside/zone-5" {
            self.write_next()?;
        }
        self.rt.open_file(how, path)
    }

    fn open_dir(&self, path: &str) -> io::Result<Self::Dir> {
        self.rt.open_dir(path)
    }

    fn metadata(&self, path: &str) -> io::Result<Metadata> {
        self.rt.metadata(path)
    }

    fn symlink_metadata(&self, path: &str) -> io::Result<Metadata> {
        self.rt.symlink_metadata(path)
    }

    fn copy(&self, from: &str, to: &str) -> io::Result<u64> {
        self.rt.copy(from, to)
    }

    fn rename(&self, from: &str, to: &str) -> io::Result<()> {
        self.rt.rename(from, to)
    }

    fn remove_file(&self, path: &str) -> io::Result<()> {
        self.rt.remove_file(path)
    }

    fn create_dir(&self, path: &str) -> io::Result<()> {
        self.rt.create_dir(path)
    }

    fn remove_dir(&self, path: &str) -> io::Result<()> {
        self.rt.remove_dir(path)
    }

    fn remove_dir_all<B: Allocator>(&self, alloc: B, path: &str) -> io::Result<()> {
        self.rt.remove_dir_all(alloc, path)
    }
}

// A reader of a store, while a batch is written over the start of the room, reads what was there before, at the first attempt: between two
// reads of it, the journal may always grow.
#[test]
fn a_store_is_read_beside_an_append(rt: HostRuntime) -> Result<(), Fail> {
    let alloc = rt.alloc();
    let dir = "test_store_beside";
    let (mut log, salt) = begun_log(&rt, dir)?;
    append(alloc, &mut log, b"an update")?;
    let beside = Beside {
        rt: &rt,
        salt,
        number: AtomicU64::new(1),
    };
    let mut outcome = Vec::new(alloc);
    for _ in 0..3 {
        let (text, journal) = read_store(&beside, alloc, dir)?;
        if text.as_slice() == b"a text".as_slice() {
            outcome.push(batches_and_zeros(alloc, &salt, &journal)?)?;
        }
    }
    assert_eq!(rt;
        outcome.as_slice(),
        [(1, 65_536), (2, 65_473), (3, 65_410)].as_slice()
    );
    fs::remove_dir_all(&rt, dir)?;
    Ok(())
}

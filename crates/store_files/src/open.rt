//! Opening and locking a store (own).
ghost use Rattle.std.specs.Prelude.{IfOk};
ghost use Rattle.store_files.specs.Store.{IsAsNoted};

use crate::file::FileDisk;
use crate::files::there;
use crate::names::{JOURNAL, LOCK, path_of};
use crate::read::{Text, read_text};
use crate::unbegun::lost_journal;
use std::alloc::Global;
use std::fs::{File, Files, OpenOptions, TryLockError};
use std::io;

/// The lock on a store, which this process has until it is dropped.
#[derive(Drop)]
pub struct StoreLock {
    file: File,
}

/// A zone text, and the journal of the updates since.
#[derive(Drop)]
pub struct Pair {
    /// The zone text that the journal names; no octets where the journal doesn't begin with a head, which a start then reports.
    pub text: Vec<u8>,
    /// The journal's octets, as the disk has them.
    pub journal: Vec<u8>,
    /// The journal's file.
    pub disk: FileDisk,
}

/// What is found when a store is opened.
#[derive(Drop)]
pub enum OpenedFolder {
    /// Another process has the lock.
    Locked,
    /// No store was created in the directory, or a crash has left a part of a first one, over which it can be created (`begin_pair`).
    Empty(StoreLock),
    /// The directory has zone texts, of which this is the greatest number, and no journal: it is lost, with the updates since.
    NoJournal(u64),
    /// The directory has a journal, but the zone text of the number that it names isn't there.
    NoText(u64),
    /// The directory has a journal, and the zone text that it names.
    Found(StoreLock, Pair),
}

/// Locks the store of an existing directory, and reads it: its journal as the disk has it (`store_files`). It allocates memory.
pub fn open_store<R: Files<File = File> + Alloc + Clone + Drop>(
    rt: &R,
    alloc: Global,
    dir: &str,
) -> io::Result<OpenedFolder>
    ensures { IfOk result (λ opened. IsAsNoted opened) }
{
    let Some(lock) = take_lock(rt, alloc, dir)? else {
        return Ok(OpenedFolder::Locked);
    };
    let Some(file) = open_journal(rt, alloc, dir)? else {
        return match lost_journal(rt, alloc, dir)? {
            Some(number) => Ok(OpenedFolder::NoJournal(number)),
            None => Ok(OpenedFolder::Empty(lock)),
        };
    };
    let (disk, journal) = FileDisk::read(alloc, file)?;
    match read_text(rt, alloc, dir, &journal)? {
        Text::Gone(number) => Ok(OpenedFolder::NoText(number)),
        Text::There(text) => {
            let pair = Pair {
                text,
                journal,
                disk,
            };
            Ok(OpenedFolder::Found(lock, pair))
        }
    }
}

/// Locks a store; None where another process has the lock (flock(2)).
fn take_lock<R: Files<File = File>>(
    rt: &R,
    alloc: Global,
    dir: &str,
) -> io::Result<Option<StoreLock>> {
    let path = path_of(alloc, dir, LOCK)?;
    let file = OpenOptions::new()
        .read(true)
        .write(true)
        .create(true)
        .open(rt, path.as_str())?;
    match file.try_lock() {
        Ok(()) => Ok(Some(StoreLock { file })),
        Err(TryLockError::WouldBlock) => Ok(None),
        Err(TryLockError::Error(error)) => Err(error),
    }
}

/// The journal's file, open to be read and written; None where there is none.
fn open_journal<R: Files<File = File>>(
    rt: &R,
    alloc: Global,
    dir: &str,
) -> io::Result<Option<File>> {
    let path = path_of(alloc, dir, JOURNAL)?;
    there(
        OpenOptions::new()
            .read(true)
            .write(true)
            .open(rt, path.as_str()),
    )
}

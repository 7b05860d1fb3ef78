//! Directories, pairs of files that are written to them, and what is found there.
use crate::journals::batch_of;
use journal::{Head, Log, SUM, TextSum, write_head};
use std::alloc::{AllocError, Global};
use std::io::ErrorKind;
use std::test::Fail;
use std::{fs, io};
use store_files::{
    FileDisk, NewText, OpenedFolder, PairFault, open_store, read_store, replace_journal,
};

/// Makes a directory without files.
pub fn make_folder(rt: &HostRuntime, dir: &str) -> io::Result<()> {
    let _ = fs::remove_dir_all(rt, dir);
    fs::create_dir(rt, dir)
}

/// A journal without updates, for a zone text with a number, and the salt of its frames.
pub fn begun(alloc: Global, number: u64, text: &[u8]) -> Result<(Vec<u8>, [u8; SUM]), AllocError> {
    let head = Head {
        number,
        random: [7; 16],
        text: TextSum::of(text),
        serial: 1,
        origin: TextSum::of(text),
    };
    write_head(alloc, &head)
}

/// Writes a zone text with a journal without updates.
pub fn put_pair(rt: &HostRuntime, dir: &str, number: u64, text: &[u8]) -> Result<FileDisk, Fail> {
    let (journal, _) = begun(rt.alloc(), number, text)?;
    NewText::create(rt, rt.alloc(), dir, number)?.write(text)?;
    match replace_journal(rt, rt.alloc(), dir, &journal) {
        Ok(disk) => Ok(disk),
        Err(PairFault::Before(_)) => Err(Fail::from("the pair before stays")),
        Err(PairFault::Unknown(_)) => Err(Fail::from("either pair may be there")),
    }
}

/// A zone text followed by a journal.
pub fn joined(alloc: Global, text: &[u8], journal: &[u8]) -> Result<Vec<u8>, AllocError> {
    let mut octets = text.to_vec(alloc)?;
    octets.extend_from_slice(journal)?;
    Ok(octets)
}

/// A zone text followed by the journal without updates that names it by a number.
pub fn pair_of(alloc: Global, number: u64, text: &[u8]) -> Result<Vec<u8>, AllocError> {
    let (journal, _) = begun(alloc, number, text)?;
    joined(alloc, text, &journal)
}

/// What opening a store finds: its zone text followed by its journal, or a word for each other result.
fn octets_of(alloc: Global, opened: &OpenedFolder) -> Result<Vec<u8>, AllocError> {
    match opened {
        OpenedFolder::Found(_, pair) => joined(alloc, &pair.text, &pair.journal),
        OpenedFolder::Empty(_) => b"empty".to_vec(alloc),
        OpenedFolder::Locked => b"locked".to_vec(alloc),
        OpenedFolder::NoJournal(0) => b"no journal 0".to_vec(alloc),
        OpenedFolder::NoJournal(_) => b"no other journal".to_vec(alloc),
        OpenedFolder::NoText(3) => b"no text 3".to_vec(alloc),
        OpenedFolder::NoText(_) => b"no other text".to_vec(alloc),
    }
}

/// The same for a directory, which may not exist.
pub fn found(rt: &HostRuntime, dir: &str) -> io::Result<Vec<u8>> {
    match open_store(rt, rt.alloc(), dir) {
        Ok(opened) => Ok(octets_of(rt.alloc(), &opened)?),
        Err(error) if error.kind() == ErrorKind::NotFound => Ok(b"not there".to_vec(rt.alloc())?),
        Err(error) => Err(error),
    }
}

/// What a reader of a store finds: its zone text followed by its journal, or that one of them does not exist.
pub fn read(rt: &HostRuntime, dir: &str) -> io::Result<Vec<u8>> {
    match read_store(rt, rt.alloc(), dir) {
        Ok((text, journal)) => Ok(joined(rt.alloc(), &text, &journal)?),
        Err(error) if error.kind() == ErrorKind::NotFound => Ok(b"not there".to_vec(rt.alloc())?),
        Err(error) => Err(error),
    }
}

/// Makes a new store, whose text of six octets has number 5. Returns the log of its journal, and the salt of its frames.
pub fn begun_log(rt: &HostRuntime, dir: &str) -> Result<(Log<FileDisk>, [u8; SUM]), Fail> {
    make_folder(rt, dir)?;
    let (head, salt) = begun(rt.alloc(), 5, b"a text")?;
    let disk = put_pair(rt, dir, 5, b"a text")?;
    Ok((Log::resume(disk, &salt, 0, head.len() as u64)?, salt))
}

/// Appends the batch of one update.
pub fn append(alloc: Global, log: &mut Log<FileDisk>, update: &[u8]) -> Result<(), Fail> {
    let batch = batch_of(alloc, &[update])?;
    if batch.len() < 1 << 24 && log.append(alloc, &batch).is_ok() {
        return Ok(());
    }
    Err(Fail::from("no batch is appended"))
}

//! Writing a zone text and a journal that replace those before them (own).
ghost use Rattle.std.specs.Prelude.{◌≡◌, ◌≢◌, [], ◌∷◌, Err, IfOk, IfErr};
ghost use Rattle.store_files.specs.declared.pair.PairFault.TheVariants.{Before};
ghost use Rattle.store_files.specs.File.{written, synced, history};
ghost use Rattle.store_files.specs.Placed.{IsUnknown};

use crate::file::FileDisk;
use crate::files::sync_folder;
use crate::names::{FIRST_TEXT, JOURNAL, NEW_JOURNAL, path_of, text_path};
use journal::{Disk, Head};
use std::alloc::Global;
use std::fs::{self, File, Files, OpenOptions};
use std::io::{self, ErrorKind, Write};

/// Why a journal isn't the store's.
#[derive(Debug, Drop)]
pub enum PairFault {
    /// The store has the journal that it had before, even after a crash.
    Before(io::Error),
    /// It is unknown which of the two journals is there after a crash: what is appended to either may be lost.
    Unknown(io::Error),
}

/// Creates the first store of a directory in which [`open_store`](crate::open_store) finds none: a zone text of number 0, and a journal that names it, which becomes the
/// store's. The journal is on the disk as `journal.new` before the text is created, and is renamed last: so a crash leaves no text without either, and the next start
/// can distinguish that from a store whose journal is lost. At an error no store was created, or it is unknown whether it is there after a crash. It allocates memory.
pub fn begin_pair<R: Files<File = File>>(
    rt: &R,
    alloc: Global,
    dir: &str,
    text: &[u8],
    journal: &[u8],
) -> Result<FileDisk, PairFault>
    ensures { IfOk result (λ disk. (written disk ≡ journal.now) × (synced disk ≡ journal.now)) }
{
    let paths = match Paths::of(alloc, dir) {
        Ok(paths) => paths,
        Err(fault) => return Err(PairFault::Before(fault)),
    };
    let laid = lay_first(rt, alloc, dir, &paths, text, journal);
    put_laid(rt, dir, &paths, laid)
}

/// Syncs a journal and its name to the disk, and then the first zone text, which it names. It allocates memory.
fn lay_first<R: Files<File = File>>(
    rt: &R,
    alloc: Global,
    dir: &str,
    paths: &Paths,
    text: &[u8],
    journal: &[u8],
) -> io::Result<FileDisk>
    ensures { IfOk result (λ disk. (written disk ≡ journal.now) × (synced disk ≡ journal.now)) }
{
    remove_first(rt, alloc, dir)?;
    let disk = lay_journal(rt, paths, journal)?;
    sync_folder(rt, dir)?;
    NewText::create(rt, alloc, dir, FIRST_TEXT)?.write(text)?;
    Ok(disk)
}

/// Removes the first zone text, if a crash has left it, before the journal that names it is overwritten: so the directory has no text then, even after a crash. It allocates memory.
fn remove_first<R: Files>(rt: &R, alloc: Global, dir: &str) -> io::Result<()> {
    match unlink_text(rt, alloc, dir, FIRST_TEXT) {
        Err(error) if error.kind() != ErrorKind::NotFound => Err(error),
        // Also where there was none: one may have been removed before, while its name is still on the disk.
        _ => sync_folder(rt, dir),
    }
}

/// Removes a zone text of a number that the store's journal, which has this head, doesn't name. It allocates memory.
pub fn remove_text<R: Files>(
    rt: &R,
    alloc: Global,
    dir: &str,
    number: u64,
    _head: &Head,
) -> io::Result<()>
    requires apart { number ≢ _head.now.number }
{
    unlink_text(rt, alloc, dir, number)
}

/// Removes the file of a zone text. It allocates memory.
fn unlink_text<R: Files>(rt: &R, alloc: Global, dir: &str, number: u64) -> io::Result<()> {
    fs::remove_file(rt, text_path(alloc, dir, number)?.as_str())
}

/// The open file of a zone text that is to be written, and its directory: the thread that writes them needs no names.
#[derive(Drop)]
pub struct NewText {
    file: File,
    folder: File,
}

impl NewText {
    /// Creates the file of a zone text of a number that the store's journal doesn't name. It allocates memory.
    pub fn create<R: Files<File = File>>(
        rt: &R,
        alloc: Global,
        dir: &str,
        number: u64,
    ) -> io::Result<NewText> {
        let path = text_path(alloc, dir, number)?;
        let folder = File::open(rt, dir)?;
        let file = File::create(rt, path.as_str())?;
        Ok(NewText { file, folder })
    }

    /// Writes the text: at Ok it and its name are on the disk. At an error what was written is cut off, so that it takes no space of a full disk.
    pub fn write(self, text: &[u8]) -> io::Result<()> {
        let NewText { mut file, folder } = self;
        let written = write_all_synced(&mut file, text);
        if written.is_err() {
            let _ = file.set_len(0);
            return written;
        }
        folder.sync_all()
    }
}

/// Writes octets to a file, and syncs them to the disk.
fn write_all_synced(file: &mut File, octets: &[u8]) -> io::Result<()> {
    file.write_all(octets)?;
    file.sync_all()
}

/// Makes a journal the store's, whose zone text is on the disk: its octets are synced before the one rename, and its name after it. It allocates memory.
pub fn replace_journal<R: Files<File = File>>(
    rt: &R,
    alloc: Global,
    dir: &str,
    journal: &[u8],
) -> Result<FileDisk, PairFault>
    ensures { IfOk result (λ disk. (written disk ≡ journal.now) × (synced disk ≡ journal.now) × (history disk ≡ journal.now ∷ [])) }
{
    let paths = match Paths::of(alloc, dir) {
        Ok(paths) => paths,
        Err(fault) => return Err(PairFault::Before(fault)),
    };
    let laid = lay_journal(rt, &paths, journal);
    put_laid(rt, dir, &paths, laid)
}

/// Whether the journal in a directory is this very file: false where the directory has no journal, or another one, because this one was moved, removed or replaced. It
/// allocates memory.
pub fn is_in_place<R: Files>(
    rt: &R,
    alloc: Global,
    dir: &str,
    journal: &FileDisk,
) -> io::Result<bool> {
    journal.is_at(rt, path_of(alloc, dir, JOURNAL)?.as_str())
}

/// The paths of a journal, before and after its rename.
#[derive(Drop)]
struct Paths {
    laid: String,
    in_place: String,
}

impl Paths {
    /// The paths in a directory.
    fn of(alloc: Global, dir: &str) -> io::Result<Paths> {
        Ok(Paths {
            laid: path_of(alloc, dir, NEW_JOURNAL)?,
            in_place: path_of(alloc, dir, JOURNAL)?,
        })
    }
}

/// Writes a journal that isn't the store's yet, and syncs it to the disk.
fn lay_journal<R: Files<File = File>>(rt: &R, paths: &Paths, journal: &[u8]) -> io::Result<FileDisk>
    ensures { IfOk result (λ disk. (written disk ≡ journal.now) × (synced disk ≡ journal.now)) }
{
    let file = OpenOptions::new()
        .read(true)
        .write(true)
        .create(true)
        .open(rt, paths.laid.as_str())?;
    let mut disk = FileDisk::empty(file)?;
    disk.append(journal)?;
    disk.sync()?;
    Ok(disk)
}

/// Makes a journal the store's, if it is laid. Where it isn't, the store has the journal that it had before; at a later error it is unknown which of the two is there after a crash.
fn put_laid<R: Files>(
    rt: &R,
    dir: &str,
    paths: &Paths,
    laid: io::Result<FileDisk>,
) -> Result<FileDisk, PairFault>
    ensures same { IfOk result (λ disk. IfOk laid (λ before. (written disk ≡ written before) × (synced disk ≡ synced before) × (history disk ≡ synced before ∷ []))) }
    ensures before { IfErr laid (λ fault. result ≡ Err (Before fault)) }
    ensures unknown { IfOk laid (λ disk. IfErr result IsUnknown) }
{
    let mut disk = match laid {
        Ok(disk) => disk,
        Err(fault) => return Err(PairFault::Before(fault)),
    };
    match put_in_place(rt, dir, paths, &mut disk) {
        Ok(()) => Ok(disk),
        Err(fault) => Err(PairFault::Unknown(fault)),
    }
}

/// Makes a journal the store's: renames it, and syncs its name to the disk.
fn put_in_place<R: Files>(rt: &R, dir: &str, paths: &Paths, disk: &mut FileDisk) -> io::Result<()>
    ensures same { (written disk.new ≡ written disk.old) × (synced disk.new ≡ synced disk.old) }
    ensures history { history disk.new ≡ synced disk.new ∷ [] }
{
    disk.rename(rt, paths.laid.as_str(), paths.in_place.as_str())?;
    sync_folder(rt, dir)
}

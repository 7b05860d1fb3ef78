//! The other files in a store's directory (own).
ghost use Rattle.std.specs.Prelude.{◌≡◌, ◌≢◌, ◌↔◌, IsTrue, ℕ, [], IfOk, MatchOption, string_bytes};
ghost use Rattle.store_files.specs.Names.{IsTextName, IsLaid, IsLeftOver, path_of as path_in, torn_name};

use crate::files::{read_there, sync_folder, write_synced};
use crate::names::{NEW_JOURNAL, NEW_TORN, path_of, torn_path};
use std::alloc::Global;
use std::fs::{self, File, Files};
use std::io::{self, ErrorKind};

/// Keeps the octets after the last whole batch of a journal, before they are cut off, in a file of their own, and gives its path, `torn-N`, of the first number
/// that is free. A file of such a name that has these octets keeps them already, and one without octets is replaced. They are on the disk before the file has
/// its name, and where they can't be written no file is left. It allocates memory.
pub fn keep_torn<R: Files<File = File>>(
    rt: &R,
    alloc: Global,
    dir: &str,
    octets: &[u8],
) -> io::Result<String>
    requires some { octets.now ≢ [] }
    ensures named { IfOk result (λ path. (number : ℕ) × (string_bytes path ≡ path_in dir.now (torn_name number))) }
{
    for number in 1..=u64::MAX {
        let path = torn_path(alloc, dir, number)?;
        match kept_at(rt, alloc, &path, octets)? {
            KeptThere::Others => {}
            KeptThere::These => return Ok(path),
            KeptThere::Nothing => {
                keep_as(rt, alloc, dir, &path, octets)?;
                return Ok(path);
            }
        }
    }
    Err(io::Error::from(ErrorKind::StorageFull))
}

/// What a file has of octets that are to be kept.
#[derive(Clone, Copy)]
enum KeptThere {
    /// Nothing: the file doesn't exist, or has no octets.
    Nothing,
    /// These octets.
    These,
    /// Other octets.
    Others,
}

/// What the file of this path has. It allocates memory where the file is as long as the octets.
fn kept_at<R: Files>(rt: &R, alloc: Global, path: &str, octets: &[u8]) -> io::Result<KeptThere> {
    let about = match fs::metadata(rt, path) {
        Ok(about) => about,
        Err(error) if error.kind() == ErrorKind::NotFound => return Ok(KeptThere::Nothing),
        Err(error) => return Err(error),
    };
    if about.is_file() && about.len() == 0 {
        return Ok(KeptThere::Nothing);
    }
    if !about.is_file() || about.len() != octets.len() as u64 {
        return Ok(KeptThere::Others);
    }
    match read_there(rt, alloc, path)? {
        Some(found) if found.as_slice() == octets => Ok(KeptThere::These),
        _ => Ok(KeptThere::Others),
    }
}

/// Keeps octets in a file of this path; where they can't be written, no file is left. It allocates memory.
fn keep_as<R: Files<File = File>>(
    rt: &R,
    alloc: Global,
    dir: &str,
    path: &str,
    octets: &[u8],
) -> io::Result<()> {
    let laid = path_of(alloc, dir, NEW_TORN)?;
    let kept = write_renamed(rt, &laid, path, octets);
    if kept.is_err() {
        let _ = fs::remove_file(rt, laid.as_str());
        return kept;
    }
    sync_folder(rt, dir)
}

/// Writes the octets of a file, syncs them to the disk, and renames it to its path.
fn write_renamed<R: Files<File = File>>(
    rt: &R,
    laid: &str,
    path: &str,
    octets: &[u8],
) -> io::Result<()> {
    write_synced(File::create(rt, laid)?, octets)?;
    fs::rename(rt, laid, path)
}

/// Removes what a crash has left of a pair that isn't the store's, and the zone texts of other numbers than the store's own and the one before it: a backup
/// that copied the journal before still finds its text. The directory's names are synced to the disk first: a rename that isn't on the disk yet could leave a
/// journal whose text is gone; at an error of that sync nothing is removed. It allocates memory.
pub fn drop_others<R: Files + Alloc + Clone + Drop>(
    rt: &R,
    dir: &str,
    number: u64,
) -> io::Result<()> {
    sync_folder(rt, dir)?;
    for entry in fs::read_dir(rt, dir)? {
        match entry {
            Ok(entry) => {
                if is_left_over(entry.file_name(), number) {
                    fs::remove_file(rt, entry.path())?;
                }
            }
            // A name that isn't UTF-8 isn't the store's.
            Err(error) if error.kind() == ErrorKind::InvalidFilename => {}
            Err(error) => return Err(error),
        }
    }
    Ok(())
}

/// Whether a file of this name is removed where the store's text has this number.
fn is_left_over(name: &str, number: u64) -> bool
    ensures { IsTrue result ↔ IsLeftOver name.now number }
{
    if is_laid(name) {
        return true;
    }
    match number_of(name) {
        Some(other) => other > number || number - other > 1,
        None => false,
    }
}

/// Whether a file of this name hasn't been renamed yet.
fn is_laid(name: &str) -> bool
    ensures { IsTrue result ↔ IsLaid name.now }
{
    name == NEW_JOURNAL || name == NEW_TORN
}

/// The number in the name of a zone text; None where the name isn't a zone text's.
pub(crate) fn number_of(name: &str) -> Option<u64>
    ensures { MatchOption result ((n : ℕ) → IsTextName name.now n → ⊥) (λ n. IsTextName name.now n) }
{
    let digits = name.strip_prefix("zone-")?;
    if matches!(digits.as_bytes(), [b'+', ..]) {
        return None;
    }
    match digits.parse::<u64>() {
        Ok(number) => Some(number),
        Err(_) => None,
    }
}

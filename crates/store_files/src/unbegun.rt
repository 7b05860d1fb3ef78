//! Directories without a journal (own).
ghost use Rattle.std.specs.Prelude.{◌↔◌, IsTrue};
ghost use Rattle.store_files.specs.Names.{IsGreatestOf, IsUnbegun, Names};

use crate::files::read_there;
use crate::kept::number_of;
use crate::names::{FIRST_TEXT, NEW_JOURNAL, path_of};
use crate::read::number_in;
use std::alloc::Global;
use std::fs::{self, Files};
use std::io::{self, ErrorKind};

/// The greatest number of the zone texts of a directory whose journal is lost; None where no store was created in it, or a crash has left a part of a first one.
/// It allocates memory.
pub(crate) fn lost_journal<R: Files + Alloc + Clone + Drop>(
    rt: &R,
    alloc: Global,
    dir: &str,
) -> io::Result<Option<u64>> {
    let greatest = greatest_text(rt, dir)?;
    let laid = read_laid(rt, alloc, dir, greatest)?;
    if is_unbegun(greatest, &laid) {
        return Ok(None);
    }
    Ok(greatest)
}

/// The octets of `journal.new`, where a directory has no zone text but the first; else none, as where there is no such file. It allocates memory.
fn read_laid<R: Files>(
    rt: &R,
    alloc: Global,
    dir: &str,
    greatest: Option<u64>,
) -> io::Result<Vec<u8>> {
    if greatest != Some(FIRST_TEXT) {
        return Ok(Vec::new(alloc));
    }
    match read_there(rt, alloc, &path_of(alloc, dir, NEW_JOURNAL)?)? {
        Some(laid) => Ok(laid),
        None => Ok(Vec::new(alloc)),
    }
}

/// The greatest number of a directory's zone texts.
fn greatest_text<R: Files + Alloc + Clone + Drop>(rt: &R, dir: &str) -> io::Result<Option<u64>> {
    let mut greatest = None;
    for entry in fs::read_dir(rt, dir)? {
        match entry {
            Ok(entry) => greatest = greatest_of(greatest, entry.file_name()),
            // A name that isn't UTF-8 isn't the store's.
            Err(error) if error.kind() == ErrorKind::InvalidFilename => {}
            Err(error) => return Err(error),
        }
    }
    Ok(greatest)
}

/// The greatest number of the zone texts of some names and one more; `before` is that of the names without this one.
fn greatest_of(before: Option<u64>, name: &str) -> Option<u64>
    ensures { IsGreatestOf before name.now result }
{
    let Some(number) = number_of(name) else {
        return before;
    };
    match before {
        None => Some(number),
        Some(other) => { if number > other { Some(number) } else { before } }
    }
}

/// Whether no store was created in a directory without a journal, whose zone texts have this greatest number, and whose `journal.new` has these octets.
fn is_unbegun(greatest: Option<u64>, laid: &[u8]) -> bool
    ensures { IsTrue result ↔ IsUnbegun greatest laid.now }
{
    match greatest {
        None => true,
        Some(number) => number == FIRST_TEXT && names_first(laid),
    }
}

/// Whether octets begin with the head of a journal that names the first zone text.
fn names_first(octets: &[u8]) -> bool
    ensures { IsTrue result ↔ Names octets.now 0 }
{
    match number_in(octets) {
        None => false,
        Some(number) => number == FIRST_TEXT,
    }
}

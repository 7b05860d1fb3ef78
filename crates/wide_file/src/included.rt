//! The files that a zone file includes (RFC 1035, 5.1).
ghost use Rattle.std.specs.Prelude.{◌≡◌, map, IfOk, IfSome, option_map};
ghost use Rattle.wide_file.specs.Included.{found_in, text_at};
ghost use Rattle.wide_file.specs.IncludedPaths.{path_named, paths_in};
ghost use Rattle.zone_lexing.specs.Entries.{entries_of};
ghost use Rattle.zone_lexing.specs.Word.{written};

use crate::context::{directive, path_of};
use crate::file_path::FilePath;
use crate::records::next_entry;
use std::alloc::{AllocError, Global};
use zone_lexing::{Entries, Word};

/// A file that is included.
#[derive(Drop)]
pub struct IncludedFile {
    /// Its path.
    pub path: FilePath,
    /// What it has.
    pub text: Vec<u8>,
}

/// The first of the files that has this path.
fn file_at<'f>(files: &'f [IncludedFile], path: &FilePath) -> Option<&'f IncludedFile>
    ensures path { IfSome result (λ file. file.now.path ≡ path.now) }
    ensures text { option_map (λ file. file.now.text.items) result ≡ text_at files.now path.now }
{
    for file in files {
        if file.path.as_bytes() == path.as_bytes() {
            return Some(file);
        }
    }
    None
}

/// The file that a file of this path includes by a path.
pub(crate) fn found_in<'f>(
    alloc: Global,
    files: &'f [IncludedFile],
    file: &FilePath,
    path: &[u8],
) -> Result<Option<&'f IncludedFile>, AllocError>
    ensures { IfOk result (λ found. option_map (λ f. (f.now.path, f.now.text.items)) found ≡ found_in (text_at files.now) file.now path.now) }
{
    match file.resolved(alloc, path)? {
        Some(name) => Ok(file_at(files, &name)),
        None => Ok(None),
    }
}

/// The paths of the files that a file of this path and text includes, in order; a path that leads out of the zone file's directory is no file's. So a
/// caller knows which files to read before the text is.
///
/// Fails where a growth was refused.
pub fn included_paths(
    alloc: Global,
    file: &FilePath,
    text: &[u8],
) -> Result<Vec<FilePath>, AllocError>
    ensures { IfOk result (λ paths. paths.items ≡ paths_in file.now (entries_of text.now)) }
{
    let mut entries = Entries::new(text);
    let mut words = Vec::new(alloc);
    let mut paths = Vec::new(alloc);
    while let Some(head) = next_entry(&mut entries, &mut words)? {
        if let Some(path) = path_named(alloc, file, head.indented, &words)? {
            let Ok(()) = paths.push(path) else {
                return Err(AllocError);
            };
        }
    }
    Ok(paths)
}

/// The path of the file that an entry includes.
fn path_named(
    alloc: Global,
    file: &FilePath,
    indented: bool,
    words: &[Word<'_>],
) -> Result<Option<FilePath>, AllocError>
    ensures { IfOk result (λ found. found ≡ path_named file.now indented (map written words.now)) }
{
    let Some((directive, arguments)) = directive(indented, words) else {
        return Ok(None);
    };
    if !directive.eq_ignore_ascii_case(b"$INCLUDE") {
        return Ok(None);
    }
    let [word, ..] = arguments else {
        return Ok(None);
    };
    match path_of(*word) {
        Ok(path) => file.resolved(alloc, path),
        Err(_) => Ok(None),
    }
}

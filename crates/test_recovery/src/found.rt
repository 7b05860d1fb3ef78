//! What a start recovers from a directory.
use crate::published::Published;
use crate::updates::check;
use master_file::write_zone;
use std::alloc::{AllocError, Global};
use std::fs;
use std::test::Fail;
use store_files::read_store;
use store_recovery::{RecentVersions, Recovery, recover_zone};

/// A start from a directory.
pub(crate) fn found_in(files: &HostRuntime, dir: &str) -> Result<Recovery, Fail> {
    let (text, journal) = read_store(files, files.alloc(), dir)?;
    Ok(recover_zone(files.alloc(), &text, &journal)?)
}

/// A start in one line: the number of its zone text, the number of batches after it, and the serials of its versions.
fn line_of(alloc: Global, start: &Recovery) -> Result<String, AllocError> {
    let newest = &start.newest;
    let first = newest.older.first().unwrap_or(&newest.last);
    format!(in alloc;
        "text {}, batches {}, serials {} to {}",
        start.head.number,
        start.number,
        first.serial().0,
        newest.last.serial().0
    )
}

/// The zones of the versions that a start recovers, one after the other, as text.
fn text_of_start(alloc: Global, newest: &RecentVersions) -> Result<String, AllocError> {
    let mut text = String::new(alloc);
    for version in &newest.older {
        text.push_str(&write_zone(alloc, version.zone())?)?;
    }
    text.push_str(&write_zone(alloc, newest.last.zone())?)?;
    Ok(text)
}

/// The zones of the newest published versions, as text.
fn text_of_published(alloc: Global, published: &Published) -> Result<String, AllocError> {
    let mut text = String::new(alloc);
    for version in published.kept() {
        text.push_str(&write_zone(alloc, version.get().zone())?)?;
    }
    text.push_str(&write_zone(alloc, published.last.get().zone())?)?;
    Ok(text)
}

/// Whether a start recovers the newest published versions, and none after them.
pub(crate) fn has_published(
    alloc: Global,
    start: &Recovery,
    published: &Published,
) -> Result<bool, AllocError> {
    let text = text_of_start(alloc, &start.newest)?;
    Ok(text.ends_with(text_of_published(alloc, published)?.as_str()))
}

/// Fails if a start from a directory is not this one, or does not recover the newest published versions.
pub(crate) fn expect(
    files: &HostRuntime,
    dir: &str,
    published: &Published,
    line: &'static str,
) -> Result<(), Fail> {
    let start = found_in(files, dir)?;
    let outcome = line_of(files.alloc(), &start)?;
    check(outcome.as_str() == line, line)?;
    check(has_published(files.alloc(), &start, published)?, line)
}

/// Whether a file with this name is in a directory.
pub(crate) fn is_there(files: &HostRuntime, dir: &str, name: &str) -> Result<bool, Fail> {
    let path = format!(in files.alloc(); "{dir}/{name}")?;
    Ok(fs::exists(files, path.as_str())?)
}

/// Whether a directory has the file of a zone text with one of the three numbers after that of the store's: such a text is being written.
pub(crate) fn is_writing(files: &HostRuntime, dir: &str) -> Result<bool, Fail> {
    let start = found_in(files, dir)?;
    for later in 1..4 {
        let number = start.head.number.saturating_add(later);
        let name = format!(in files.alloc(); "zone-{number}")?;
        if is_there(files, dir, name.as_str())? {
            return Ok(true);
        }
    }
    Ok(false)
}

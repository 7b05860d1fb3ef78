//! The thread that reads the zone file again while its zone is served.
use crate::file_report::words_of;
use crate::includes::Includes;
use crate::lines::LogLine;
use crate::writer::{Entries, Entry};
use crate::zone_text::ZoneText;
use commands::Source;
use dns_engine::SharedVersion;
use dns_name::Name;
use server_control::{ReloadOrder, ReloadResult, ReloadSlot, Reloads, file_zone};
use std::alloc::{AllocError, Global};
use std::fs::{self, Files};
use std::io;
use std::sync::{Arc, Wait};
use update_messages::PrepareFault;
use zone_tree::Zone;

/// Reads the zone file again whenever a reload is ordered. It is for a thread of its own.
pub struct FileReader {
    slot: Reloads,
    file: ZoneFile,
    /// The queue of the log's thread.
    entries: Entries,
}

impl Drop for FileReader {
    fn drop(self) {
        let FileReader {
            slot: _,
            file: _,
            entries: _,
        } = self;
    }
}

/// What is read.
struct ZoneFile {
    /// Where it is.
    path: String,
    /// The origin of its relative names.
    origin: Name,
    /// Whether it is read as other servers read zone files.
    is_wide: bool,
}

impl Drop for ZoneFile {
    fn drop(self) {
        let ZoneFile {
            path: _,
            origin: _,
            is_wide: _,
        } = self;
    }
}

/// Where reloads of the zone file at a path are ordered, and what reads it, with this origin; `is_wide` is whether it is read as other servers read zone
/// files. What is to be said of its records is queued for the log's thread, so that a blocked standard error stops no reload. Fails if there is not enough
/// memory.
pub fn prepare_reloads(
    alloc: Global,
    path: &str,
    origin: &Name,
    is_wide: bool,
    entries: &Entries,
) -> Result<(Reloads, FileReader), AllocError> {
    let slot = Arc::new(alloc, ReloadSlot::new())?;
    let (own, entries) = (Arc::try_clone(&slot)?, Arc::try_clone(entries)?);
    let file = ZoneFile {
        path: format!(in alloc; "{path}")?,
        origin: origin.copy(),
        is_wide,
    };
    let reader = FileReader {
        slot: own,
        file,
        entries,
    };
    Ok((slot, reader))
}

impl FileReader {
    /// Does what is ordered, until nothing is any more.
    pub fn run<R: Files + AllocGlobal + Wait>(self, rt: &R) {
        let mut read: Option<Zone> = None;
        for _ in rt.forever() {
            let Some(order) = self.slot.wait(rt) else {
                return;
            };
            self.obey(rt, order, &mut read);
        }
        unreachable!()
    }

    /// Does what is ordered. The zone that was read last stays until it is to be dropped.
    fn obey<R: Files + AllocGlobal + Wait>(
        &self,
        rt: &R,
        order: ReloadOrder,
        read: &mut Option<Zone>,
    ) {
        match order {
            ReloadOrder::Drop => {
                *read = None;
                self.slot.rest(rt);
            }
            ReloadOrder::Read(served) => {
                *read = None;
                let made = read_anew(rt, &self.file, &self.entries, &served, read);
                self.slot.put(rt, made);
            }
            ReloadOrder::Again(served) => {
                let made = made_of(rt.alloc(), &served, read);
                self.slot.put(rt, made);
            }
        }
    }
}

/// Reads the file, and makes its update of the zone that is served.
fn read_anew<R: Files + AllocGlobal + Wait>(
    rt: &R,
    file: &ZoneFile,
    entries: &Entries,
    served: &SharedVersion,
    read: &mut Option<Zone>,
) -> ReloadResult {
    let alloc = rt.alloc();
    let source = match fs::read(rt, file.path.as_str()) {
        Ok(source) => source,
        Err(fault) => return Err(unread(alloc, &file.path, &fault)),
    };
    match zone_of(rt, source, file, entries) {
        Ok(zone) => *read = Some(zone),
        Err(reason) => return Err(reason.unwrap_or(String::new(alloc))),
    }
    made_of(alloc, served, read)
}

/// The zone of the file's text, with the files that it includes, or why it is refused. The log gets what is to be said of its records.
fn zone_of<R: Files + AllocGlobal + Wait>(
    rt: &R,
    source: Vec<u8>,
    file: &ZoneFile,
    entries: &Entries,
) -> Result<Zone, Result<String, AllocError>> {
    let alloc = rt.alloc();
    let includes = match includes_of(rt, file, &source) {
        Ok(includes) => includes,
        Err(fault) => return Err(Err(fault)),
    };
    let text = match ZoneText::of(alloc, source, includes, &file.origin, file.is_wide) {
        Ok(text) => text,
        Err(refused) => return Err(words_of(alloc, &refused.fault)),
    };
    match text.zone(alloc, &file.origin) {
        Ok(zone) => {
            log_notes(rt, entries, Source::File(file.path.as_str()), &text);
            Ok(zone)
        }
        Err(fault) => Err(text.words(alloc, fault)),
    }
}

/// Logs how many records are left out of a text, and how many have no effect, if there are any.
fn log_notes<R: AllocGlobal + Wait>(
    rt: &R,
    entries: &Entries,
    source: Source<'_>,
    text: &ZoneText,
) {
    if let Some(said) = text.left_out(rt.alloc(), source) {
        entries.queue.add(rt, Entry::Line(LogLine::LeftOut(said)));
    }
    if let Some(said) = text.has_dnames(rt.alloc(), source) {
        entries.queue.add(rt, Entry::Line(LogLine::NoEffect(said)));
    }
}

/// The files that the file includes.
fn includes_of<R: Files + AllocGlobal>(
    rt: &R,
    file: &ZoneFile,
    source: &[u8],
) -> Result<Includes, AllocError> {
    if file.is_wide {
        Includes::read(rt, file.path.as_str(), source)
    } else {
        Ok(Includes::none(rt.alloc()))
    }
}

/// What the zone that was read makes of the zone that is served, or why it is refused.
fn made_of(alloc: Global, served: &SharedVersion, read: &Option<Zone>) -> ReloadResult {
    let Some(zone) = read else {
        return Err(String::new(alloc));
    };
    match file_zone(alloc, served.get().zone(), zone) {
        Ok(made) => Ok(made),
        Err(fault) => Err(reason_of(alloc, fault).unwrap_or(String::new(alloc))),
    }
}

/// That a file can't be read.
fn unread(alloc: Global, path: &str, fault: &io::Error) -> String {
    format!(in alloc; "the zone's file '{path}' can't be read: {fault}").unwrap_or(String::new(
        alloc,
    ))
}

/// Why no update is made of a file's zone, in words.
fn reason_of(alloc: Global, fault: PrepareFault) -> Result<String, AllocError> {
    match fault {
        PrepareFault::Change(fault) => format!(in alloc; "{fault}"),
        PrepareFault::TooLarge => format!(in alloc;
            "the change has more records than one update may have: stop the server, and start it anew, with --store a new directory where there is a store"
        ),
        PrepareFault::NoMemory => format!(in alloc; "out of memory"),
    }
}

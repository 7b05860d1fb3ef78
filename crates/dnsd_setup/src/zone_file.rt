//! Reading the zone's text.
ghost use Rattle.std.specs.Prelude.{IfOk};
ghost use Rattle.dnsd_setup.specs.Starts.{CanStart};

use crate::file_report::report_file;
use crate::includes::Includes;
use crate::started_zone::StartedZone;
use crate::zone_text::{RefusedFile, ZoneText};
use command_line::Serve;
use commands::{FAILED, Source, read_zone_text};
use dns_name::Name;
use log_lines::Level;
use master_file::{Cause, FileFault};
use std::io::{BufRead, BufReader};
use std::rt::{Env, Files};
use std::{fs, io};
use store_recovery::Take;
use wide_file::WideCause;

/// The text in a zone's file. None if it cannot be read; standard error then has the reason.
pub fn read_zone_file<R: Files + Eprint + AllocGlobal>(
    rt: &R,
    path: &str,
) -> io::Result<Option<Vec<u8>>> {
    match fs::read(rt, path) {
        Ok(text) => Ok(Some(text)),
        Err(fault) => {
            eprintln!(rt; "error: the zone's file '{path}' can't be read: {fault}")?;
            Ok(None)
        }
    }
}

/// The text of a source: a file, or standard input up to a line `%`. None if it cannot be read; standard error then has the reason.
fn text_from<R: Files + Eprint + AllocGlobal, I: BufRead>(
    rt: &R,
    source: Source<'_>,
    reader: &mut I,
) -> io::Result<Option<Vec<u8>>> {
    match source {
        Source::Input => Ok(Some(read_zone_text(rt.alloc(), reader)?)),
        Source::File(path) => read_zone_file(rt, path),
    }
}

/// The text of a source; `is_wide` is whether it is read as other servers read zone files, its names relative to the origin. If it cannot be read, or
/// a file of that kind is refused, returns the program's status, and standard error has the reason.
pub(crate) fn zone_text_from<R: Files + Eprint + AllocGlobal, I: BufRead>(
    rt: &R,
    source: Source<'_>,
    origin: &Name,
    is_wide: bool,
    reader: &mut I,
) -> io::Result<Result<ZoneText, u8>> {
    let Some(text) = text_from(rt, source, reader)? else {
        return Ok(Err(FAILED));
    };
    let includes = includes_of(rt, source, &text, is_wide)?;
    match ZoneText::of(rt.alloc(), text, includes, origin, is_wide) {
        Ok(text) => {
            tell_notes(rt, ("", ""), source, &text)?;
            Ok(Ok(text))
        }
        Err(refused) => Ok(Err(tell_wide(rt, "", source, &refused)?)),
    }
}

/// The files that a text of a source includes: none of standard input, and where the text isn't read as other servers read zone files.
fn includes_of<R: Files + AllocGlobal>(
    rt: &R,
    source: Source<'_>,
    text: &[u8],
    is_wide: bool,
) -> io::Result<Includes> {
    match source {
        Source::File(path) if is_wide => Ok(Includes::read(rt, path, text)?),
        _ => Ok(Includes::none(rt.alloc())),
    }
}

/// Reports on standard error why a zone file as other servers read it is refused, and returns the program's status.
fn tell_wide<R: Eprint + AllocGlobal>(
    rt: &R,
    mark: &str,
    source: Source<'_>,
    file: &RefusedFile,
) -> io::Result<u8> {
    let alloc = rt.alloc();
    let mut errors = Vec::new(alloc);
    let text = file.source.as_slice();
    let status = report_file(
        alloc,
        source,
        text,
        &file.includes,
        &file.fault,
        &mut errors,
    )?;
    rt.eprint(mark)?;
    rt.eprint(String::from_utf8_lossy(alloc, errors.as_slice())?)?;
    Ok(status)
}

/// Reports on standard error how many records are left out of a text, and how many have no effect, if there are any: a line each, after its mark.
fn tell_notes<R: Eprint + AllocGlobal>(
    rt: &R,
    marks: (&str, &str),
    source: Source<'_>,
    text: &ZoneText,
) -> io::Result<()> {
    let (notice, warning) = marks;
    if let Some(said) = text.left_out(rt.alloc(), source) {
        eprintln!(rt; "{notice}{said}")?;
    }
    if let Some(said) = text.has_dnames(rt.alloc(), source) {
        eprintln!(rt; "{warning}{said}")?;
    }
    Ok(())
}

/// The text of the zone that is served. If it cannot be read, or a zone file as other servers read it is refused, returns the program's status, and
/// standard error has the reason.
pub fn text_for<R: Env + Files + Eprint + Input + AllocGlobal>(
    rt: &R,
    serve: &Serve<'_>,
) -> io::Result<Result<ZoneText, u8>> {
    let alloc = rt.alloc();
    let read = match serve.zone {
        Source::Input => {
            let text = read_zone_text(alloc, &mut BufReader::new(alloc, rt.reader())?)?;
            Some(text)
        }
        Source::File(path) => read_zone_file(rt, path)?,
    };
    let Some(text) = read else {
        return Ok(Err(FAILED));
    };
    let includes = includes_of(rt, serve.zone, &text, serve.is_wide)?;
    taken_text(rt, serve, text, includes)
}

/// The text of the zone that is served. Where a zone file as other servers read it is refused, but the store is chosen, it is taken as it is: it is no
/// zone, and the store is served.
fn taken_text<R: Env + Eprint + AllocGlobal>(
    rt: &R,
    serve: &Serve<'_>,
    text: Vec<u8>,
    includes: Includes,
) -> io::Result<Result<ZoneText, u8>> {
    match ZoneText::of(rt.alloc(), text, includes, &serve.origin, serve.is_wide) {
        Ok(text) => {
            let marks = (Level::Notice.mark_for(rt), Level::Warning.mark_for(rt));
            tell_notes(rt, marks, serve.zone, &text)?;
            Ok(Ok(text))
        }
        Err(refused) => {
            if is_store_chosen(serve) && refused.fault.cause != WideCause::Text(Cause::NoMemory) {
                return Ok(Ok(ZoneText::refused(refused)));
            }
            let mark = Level::Error.mark_for(rt);
            Ok(Err(tell_wide(rt, mark, Source::Input, &refused)?))
        }
    }
}

/// Whether there is a store, and it is chosen whatever the zone's text is.
fn is_store_chosen(serve: &Serve<'_>) -> bool {
    match serve.store {
        Some(plan) => plan.taken == Some(Take::Store),
        None => false,
    }
}

/// Reads the zone of a text. If the text is refused, returns the program's status, and standard error has the reason.
pub fn read_text_for<R: Env + Eprint + AllocGlobal>(
    rt: &R,
    serve: &Serve<'_>,
    text: ZoneText,
) -> io::Result<Result<StartedZone, u8>>
    ensures { IfOk result (λ r. IfOk r CanStart) }
{
    match text.zone(rt.alloc(), &serve.origin) {
        Ok(zone) => Ok(Ok(StartedZone::Zone(zone))),
        Err(fault) => Ok(Err(tell_zone(rt, &text, fault)?)),
    }
}

/// Reports on standard error why a zone's text is refused, and returns the program's status.
pub(crate) fn tell_zone<R: Env + Eprint + AllocGlobal>(
    rt: &R,
    text: &ZoneText,
    fault: FileFault,
) -> io::Result<u8> {
    let mark = Level::Error.mark_for(rt);
    let alloc = rt.alloc();
    let mut errors = Vec::new(alloc);
    let status = text.report(alloc, Source::Input, fault, &mut errors)?;
    rt.eprint(mark)?;
    rt.eprint(String::from_utf8_lossy(alloc, errors.as_slice())?)?;
    Ok(status)
}

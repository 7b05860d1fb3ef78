//! Printing what changes from one zone to another.
use crate::zone_file::zone_text_from;
use crate::zone_text::ZoneText;
use change_command::{write_change, write_message};
use command_line::Change;
use commands::{DONE, FAILED, REFUSED, Source};
use dns_name::Name;
use std::alloc::Global;
use std::io::{self, BufReader};
use std::rt::Files;
use zone_change::ChangeFault;
use zone_tree::Zone;

/// Prints what changes from one zone to another on standard output, and returns the program's status. Errors go to standard error.
pub fn run_change<R: Files + Print + Eprint + Input + AllocGlobal>(
    rt: &R,
    change: &Change<'_>,
) -> io::Result<u8> {
    let alloc = rt.alloc();
    let mut reader = BufReader::new(alloc, rt.reader())?;
    let (origin, is_wide) = (&change.origin, change.is_wide);
    let old_text = match zone_text_from(rt, change.old, origin, is_wide, &mut reader)? {
        Ok(text) => text,
        Err(status) => return Ok(status),
    };
    let next_text = match zone_text_from(rt, change.next, origin, is_wide, &mut reader)? {
        Ok(text) => text,
        Err(status) => return Ok(status),
    };
    let old = match zone_from(alloc, &old_text, change.old, origin) {
        Ok(zone) => zone,
        Err(refused) => return tell_refused(rt, &refused),
    };
    let next = match zone_from(alloc, &next_text, change.next, origin) {
        Ok(zone) => zone,
        Err(refused) => return tell_refused(rt, &refused),
    };
    print_change(rt, &old, &next, change.is_hex)
}

/// A zone's text that is refused: the program's status, and what is to be said of it.
#[derive(Drop)]
struct RefusedText {
    status: u8,
    errors: Vec<u8>,
}

/// The zone of a text, or what is to be said where it is refused.
fn zone_from(
    alloc: Global,
    text: &ZoneText,
    source: Source<'_>,
    origin: &Name,
) -> Result<Zone, RefusedText> {
    match text.zone(alloc, origin) {
        Ok(zone) => Ok(zone),
        Err(fault) => {
            let mut errors = Vec::new(alloc);
            let status = text
                .report(alloc, source, fault, &mut errors)
                .unwrap_or(FAILED);
            Err(RefusedText { status, errors })
        }
    }
}

/// Writes on standard error why a text is refused, and returns the program's status.
fn tell_refused<R: Eprint + AllocGlobal>(rt: &R, refused: &RefusedText) -> io::Result<u8> {
    rt.eprint(String::from_utf8_lossy(rt.alloc(), refused.errors.as_slice())?)?;
    Ok(refused.status)
}

/// Prints what changes, or the update as a message in hexadecimal, and returns the program's status.
fn print_change<R: Print + Eprint + AllocGlobal>(
    rt: &R,
    old: &Zone,
    next: &Zone,
    is_hex: bool,
) -> io::Result<u8> {
    let alloc = rt.alloc();
    let written = if is_hex {
        write_message(alloc, old, next)
    } else {
        write_change(alloc, old, next)
    };
    match written {
        Ok(text) => {
            print!(rt; "{text}")?;
            Ok(DONE)
        }
        Err(fault) => {
            eprintln!(rt; "error: {fault}")?;
            Ok(status_of(fault))
        }
    }
}

/// The program's status where nothing is printed.
fn status_of(fault: ChangeFault) -> u8 {
    match fault {
        ChangeFault::NoMemory => FAILED,
        _ => REFUSED,
    }
}

//! Printing the zone of a store, and what its updates changed.
use crate::streams::write_in_words;
use command_line::{Part, PrintFault, PrintedFault, Stored, print_store};
use commands::{DONE, FAILED, REFUSED};
use std::alloc::Global;
use std::io::{self, BufWriter, Write};
use std::rt::Files;
use store_files::read_store;
use store_recovery::StartFault;
use stored_changes::write_changes;

/// Prints the zone of a store on standard output, and returns the program's status. Errors go to standard error.
pub fn run_stored<R: Files + Print + Eprint + AllocGlobal>(
    rt: &R,
    stored: Stored<'_>,
) -> io::Result<u8> {
    let alloc = rt.alloc();
    let dir = stored.dir;
    let Some((text, journal)) = store_from(rt, dir)? else {
        return Ok(FAILED);
    };
    let mut writer = BufWriter::new(alloc, io::writer(rt))?;
    let printed = if stored.in_words {
        print_in_words(alloc, &text, &journal, stored.part, &mut writer)
    } else {
        print_store(alloc, &text, &journal, stored.part, &mut writer)
    };
    match printed {
        Ok(()) => Ok(DONE),
        Err(PrintFault::Device(fault)) => Err(fault),
        Err(PrintFault::NoStart(fault)) => tell_no_start(rt, dir, fault),
    }
}

/// Prints the zone of a store in words.
fn print_in_words<O: Write + Drop>(
    alloc: Global,
    text: &[u8],
    journal: &[u8],
    part: Part,
    writer: &mut BufWriter<O>,
) -> Result<(), PrintFault> {
    let mut lines = BufWriter::new(alloc, Vec::new(alloc))?;
    print_store(alloc, text, journal, part, &mut lines)?;
    write_in_words(alloc, lines.get_ref().as_slice(), writer)?;
    Ok(())
}

/// Prints on standard output what the updates of a store changed, and returns the program's status. Errors go to standard error.
pub fn run_journal<R: Files + Print + Eprint + AllocGlobal>(rt: &R, dir: &str) -> io::Result<u8> {
    let Some((text, journal)) = store_from(rt, dir)? else {
        return Ok(FAILED);
    };
    match write_changes(rt.alloc(), &text, &journal) {
        Ok(reported) => {
            print!(rt; "{reported}")?;
            Ok(DONE)
        }
        Err(fault) => tell_no_start(rt, dir, fault),
    }
}

/// The zone text and the journal of a store. None if they cannot be read; standard error then has the reason.
fn store_from<R: Files + Eprint + AllocGlobal>(
    rt: &R,
    dir: &str,
) -> io::Result<Option<(Vec<u8>, Vec<u8>)>> {
    match read_store(rt, rt.alloc(), dir) {
        Ok(pair) => Ok(Some(pair)),
        Err(fault) => {
            eprintln!(rt; "error: the store '{dir}' can't be read: {fault}")?;
            Ok(None)
        }
    }
}

/// Reports on standard error why a store cannot be started from, and returns the program's status.
fn tell_no_start<R: Eprint + AllocGlobal>(rt: &R, dir: &str, fault: StartFault) -> io::Result<u8> {
    let status = status_of(&fault);
    let reported = PrintedFault { dir, fault };
    eprintln!(rt; "error: {reported}")?;
    Ok(status)
}

/// The status with which the program exits if the store cannot be started from.
fn status_of(fault: &StartFault) -> u8 {
    match fault {
        StartFault::NoMemory => FAILED,
        _ => REFUSED,
    }
}

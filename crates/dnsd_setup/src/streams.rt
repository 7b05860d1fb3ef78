//! Commands over a zone's text, standard input and standard output.
use crate::zone_file::zone_text_from;
use crate::zone_text::ZoneText;
use commands::{
    Command, DONE, Ended, Fault, Outcome, Source, report_fault_of, run_text, run_with_zone,
};
use master_file::FileFault;
use std::alloc::{AllocError, Global};
use std::io::{self, BufRead, BufReader, BufWriter, Write};
use std::rt::Files;
use wide_file::in_words;
use zone_warnings::write_warnings;

/// How a zone's text is read, and what is printed of it.
#[derive(Clone, Copy, Debug, PartialEq, Eq)]
pub struct Ways {
    /// Whether warnings of it are requested.
    pub has_warnings: bool,
    /// Whether it is read as other servers read zone files.
    pub is_wide: bool,
    /// Whether the zone is printed in words.
    pub in_words: bool,
}

/// Runs a command over standard input and output. Its error messages are appended to `errors`, and where it succeeds and warnings are requested,
/// those of its zone's text.
pub fn run_on_streams<R: Files + Print + Eprint + Input + AllocGlobal>(
    rt: &R,
    command: &Command<'_>,
    ways: Ways,
    errors: &mut Vec<u8>,
) -> io::Result<Ended> {
    let alloc = rt.alloc();
    let mut reader = BufReader::new(alloc, rt.reader())?;
    let mut writer = BufWriter::new(alloc, io::writer(rt))?;
    match command.zone() {
        Source::Input if is_plain(ways) => Ok(run_text(
            alloc,
            command,
            &mut reader,
            &mut writer,
            errors,
        )),
        source => {
            match zone_text_from(rt, source, command.origin(), ways.is_wide, &mut reader)? {
                Ok(text) => run_over_text(
                    alloc,
                    command,
                    &text,
                    ways,
                    &mut reader,
                    &mut writer,
                    errors,
                ),
                Err(status) => Ok(Ended {
                    status,
                    at_root: false,
                    large: None,
                }),
            }
        }
    }
}

/// What is wrong with the zone's text, where a command failed for that.
fn zone_fault(done: &Result<(), Fault>) -> Option<FileFault> {
    match done {
        Err(Fault::Zone(fault)) => Some(*fault),
        _ => None,
    }
}

/// Whether a text is read as it is, and nothing is printed beside the command's own lines.
fn is_plain(ways: Ways) -> bool {
    !ways.has_warnings && !ways.is_wide && !ways.in_words
}

/// Runs a command that prints a zone's text, with the zone in words to `output`.
fn run_in_words<I: BufRead, O: Write + Drop>(
    alloc: Global,
    command: &Command<'_>,
    text: &[u8],
    input: &mut I,
    output: &mut BufWriter<O>,
) -> io::Result<Outcome> {
    let mut lines = BufWriter::new(alloc, Vec::new(alloc))?;
    let outcome = run_with_zone(alloc, command, text, input, &mut lines);
    if outcome.done.is_ok() {
        write_in_words(alloc, lines.get_ref().as_slice(), output)?;
    }
    Ok(outcome)
}

/// Writes a zone's canonical text in words. An error is an I/O error or lack of memory.
pub(crate) fn write_in_words<O: Write + Drop>(
    alloc: Global,
    text: &[u8],
    output: &mut BufWriter<O>,
) -> io::Result<()> {
    let Ok(words) = in_words(alloc, text) else {
        return Err(io::Error::from(AllocError));
    };
    write!(output, "{words}")?;
    output.flush()
}

/// Runs a command over the zone of a text, with requests from `input` and replies to `output`.
fn run_over_text<I: BufRead, O: Write + Drop>(
    alloc: Global,
    command: &Command<'_>,
    text: &ZoneText,
    ways: Ways,
    input: &mut I,
    output: &mut BufWriter<O>,
    errors: &mut Vec<u8>,
) -> io::Result<Ended> {
    let Outcome {
        done,
        at_root,
        large,
    } = if ways.in_words {
        run_in_words(alloc, command, text.octets(), input, output)?
    } else {
        run_with_zone(alloc, command, text.octets(), input, output)
    };
    let mut status = match zone_fault(&done) {
        Some(fault) => text.report(alloc, command.zone(), fault, errors)?,
        None => report_fault_of(alloc, done, command.zone(), &[], errors),
    };
    if ways.has_warnings && status == DONE {
        status = tell_warnings(alloc, command, text, errors)?;
    }
    Ok(Ended {
        status,
        at_root,
        large,
    })
}

/// Appends the warnings of a zone's text to `errors`, and returns the program's status.
fn tell_warnings(
    alloc: Global,
    command: &Command<'_>,
    text: &ZoneText,
    errors: &mut Vec<u8>,
) -> io::Result<u8> {
    match write_warnings(alloc, text.octets(), command.origin()) {
        Ok(lines) => {
            let lines = text.placed(alloc, lines)?;
            errors.extend_from_slice(lines.as_bytes())?;
            Ok(DONE)
        }
        Err(fault) => text.report(alloc, command.zone(), fault, errors),
    }
}

//! Reports of what is wrong with a zone file as other servers read it, or with a file that it includes.
use crate::includes::Includes;
use commands::{Fault, REFUSED, Source, report_fault_of, report_wide_fault};
use master_file::FileFault;
use std::alloc::{AllocError, Global};
use std::io::{self, Write};
use wide_file::{FilePath, PlainText, WideCause, WideFault};

/// The path of a file, as it is shown.
fn shown(path: &FilePath) -> &str {
    str::from_utf8(path.as_bytes()).unwrap_or("(not UTF-8)")
}

/// Appends why a zone file is refused to `errors`, and returns the program's status. A file that it includes is named before the line.
pub(crate) fn report_file(
    alloc: Global,
    source: Source<'_>,
    text: &[u8],
    includes: &Includes,
    fault: &WideFault,
    errors: &mut Vec<u8>,
) -> io::Result<u8> {
    let line = fault.line;
    let (source, text) = file_of(&fault.file, source, text, includes);
    push_file(&fault.file, errors)?;
    match fault.cause {
        WideCause::Text(cause) => {
            let fault = FileFault { line, cause };
            Ok(report_wide_fault(alloc, fault, source, text, errors))
        }
        WideCause::Include => {
            writeln!(errors, "line {line}: M16 Include")?;
            push_include(source, line, includes, errors)?;
            Ok(REFUSED)
        }
    }
}

/// Appends why the plain text of a zone file is no zone, for this fault by its line there, to `errors`, and returns the program's status.
pub(crate) fn report_at(
    alloc: Global,
    source: Source<'_>,
    text: &[u8],
    includes: &Includes,
    plain: &PlainText,
    fault: FileFault,
    errors: &mut Vec<u8>,
) -> io::Result<u8> {
    let Some((file, line)) = plain.place(fault.line) else {
        return Ok(report_fault_of(alloc, Err(Fault::Zone(fault)), source, text, errors));
    };
    let cause = fault.cause;
    let (source, text) = file_of(file, source, text, includes);
    push_file(file, errors)?;
    let fault = Err(Fault::Zone(FileFault { line, cause }));
    Ok(report_fault_of(alloc, fault, source, text, errors))
}

/// The source and the text of a file: those of the zone file, which are given, or those of a file that it includes.
fn file_of<'a>(
    path: &'a FilePath,
    source: Source<'a>,
    text: &'a [u8],
    includes: &'a Includes,
) -> (Source<'a>, &'a [u8]) {
    match includes.text_of(path) {
        Some(own) => (Source::File(shown(path)), own),
        None => (source, text),
    }
}

/// Appends the path of a file that is included.
fn push_file(path: &FilePath, errors: &mut Vec<u8>) -> io::Result<()> {
    if path.as_bytes().is_empty() {
        return Ok(());
    }
    write!(errors, "{}: ", shown(path))
}

/// Appends why a file can't be included.
fn push_include(
    source: Source<'_>,
    line: u64,
    includes: &Includes,
    errors: &mut Vec<u8>,
) -> io::Result<()> {
    if let Source::File(path) = source {
        write!(errors, "{path}:{line}: ")?;
    }
    match &includes.unread {
        Some(reason) => writeln!(errors, "{reason}"),
        None => writeln!(
            errors,
            "a file is included from a file, by a path below its directory, and at most 20 are between: this one isn't"
        ),
    }
}

/// Appends a line that begins with `line N: ` for a line of a plain text, with the file and the line of it there.
pub(crate) fn push_placed(
    to: &mut String,
    plain: &PlainText,
    line: &str,
) -> Result<(), AllocError> {
    match place_of(plain, line) {
        Some((file, own, rest)) => {
            if !file.as_bytes().is_empty() {
                write!(to, "{}: ", shown(file))?;
            }
            write!(to, "line {own}: {rest}")
        }
        None => to.push_str(line),
    }
}

/// The file and the line of it of a line that begins with `line N: `, and what it says.
fn place_of<'a>(plain: &'a PlainText, line: &'a str) -> Option<(&'a FilePath, u64, &'a str)> {
    let (number, rest) = line.strip_prefix("line ")?.split_once(": ")?;
    let (file, own) = plain.place(number.parse::<u64>().ok()?)?;
    Some((file, own, rest))
}

/// How many records are left out of a zone file, and where the first is, if there are any and there is memory for the words.
pub(crate) fn left_out_in(alloc: Global, plain: &PlainText) -> Option<String> {
    let first = plain.first_left_out()?;
    let (count, line) = (plain.left_out(), first.line);
    let mut said = String::new(alloc);
    write!(
        said,
        "records left out (RRSIG, NSEC, NSEC3, NSEC3PARAM): {count}, the first on line {line}"
    )
    .ok()?;
    if !first.file.as_bytes().is_empty() {
        write!(said, " of {}", shown(&first.file)).ok()?;
    }
    Some(said)
}

/// A fault of a zone file in brief: the file where it is one that is included, the line, and the code.
pub(crate) fn words_of(alloc: Global, fault: &WideFault) -> Result<String, AllocError> {
    let mut words = String::new(alloc);
    if !fault.file.as_bytes().is_empty() {
        write!(words, "{}: ", shown(&fault.file))?;
    }
    let line = fault.line;
    match fault.cause {
        WideCause::Text(cause) => write!(words, "line {line}: {cause}")?,
        WideCause::Include => write!(words, "line {line}: M16 Include")?,
    }
    Ok(words)
}

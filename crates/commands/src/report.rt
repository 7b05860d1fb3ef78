//! How the program reports a fault, and the status for it.
ghost use Rattle.std.specs.Prelude.{◌≡◌, OnOk, IfErr};
ghost use Rattle.commands.specs.Run.{EndsBy};
ghost use Rattle.commands.specs.Report.{IsReported, AppendsSome};

use crate::command::Source;
use crate::fault::{DONE, FAILED, Fault};
use crate::reason::{reason, reason_of, reason_of_transfer, wide_reason, wide_reason_of};
use crate::whole::write_whole;
use master_file::FileFault;
use std::alloc::Global;
use std::io::{self, Write};

/// The status of a command over a zone's text. A fault is first written to `errors` as one line, followed by its meaning if it is a fault of the
/// zone's text or of a transfer; for a fault of the text with the faulty word and the line of the text. If the fault cannot be written, the status is
/// that of an I/O error.
pub fn report_fault<E: Write>(
    alloc: Global,
    done: Result<(), Fault>,
    text: &[u8],
    errors: &mut E,
) -> u8
    ensures done { OnOk done ((result ≡ 0) × (E.contents errors.new ≡ E.contents errors.old)) }
    ensures fault { IfErr done (λ fault. EndsBy fault result (E.contents errors.old) (E.contents errors.new)) }
{
    report_fault_of(alloc, done, Source::Input, text, errors)
}

/// The same for a text from a given source, which is named if it is a file.
pub fn report_fault_of<E: Write>(
    alloc: Global,
    done: Result<(), Fault>,
    source: Source<'_>,
    text: &[u8],
    errors: &mut E,
) -> u8
    ensures done { OnOk done ((result ≡ 0) × (E.contents errors.new ≡ E.contents errors.old)) }
    ensures fault { IfErr done (λ fault. EndsBy fault result (E.contents errors.old) (E.contents errors.new)) }
{
    let Err(fault) = done else {
        return DONE;
    };
    let status = fault.status();
    match write_fault(alloc, &fault, source, text, errors) {
        Ok(()) => status,
        Err(_) => FAILED,
    }
}

/// Writes a fault of a zone file that is read as other servers read them to `errors` as one line, followed by its meaning with the line of the text, and
/// returns the status. If it cannot be written, the status is that of an I/O error.
pub fn report_wide_fault<E: Write>(
    alloc: Global,
    fault: FileFault,
    source: Source<'_>,
    text: &[u8],
    errors: &mut E,
) -> u8
    ensures { EndsBy (Fault.Zone fault) result (E.contents errors.old) (E.contents errors.new) }
{
    let reported = Fault::Zone(fault);
    let status = reported.status();
    match write_wide_fault(alloc, &reported, fault, source, text, errors) {
        Ok(()) => status,
        Err(_) => FAILED,
    }
}

/// Writes a fault of a zone file as one line, followed by its meaning.
fn write_wide_fault<E: Write>(
    alloc: Global,
    reported: &Fault,
    fault: FileFault,
    source: Source<'_>,
    text: &[u8],
    errors: &mut E,
) -> io::Result<()>
    ensures { OnOk result (IsReported reported.now (E.contents errors.old) (E.contents errors.new)) }
{
    writeln!(errors, "{reported}")?;
    match wide_reason(alloc, fault, source, text) {
        Ok(reason) => write_line(reason.as_str(), errors),
        Err(_) => write_line(wide_reason_of(fault), errors),
    }
}

/// Writes a fault as one line, followed by its meaning if it is a fault of a zone's text or of a transfer.
fn write_fault<E: Write>(
    alloc: Global,
    fault: &Fault,
    source: Source<'_>,
    text: &[u8],
    errors: &mut E,
) -> io::Result<()>
    ensures { OnOk result (IsReported fault.now (E.contents errors.old) (E.contents errors.new)) }
{
    writeln!(errors, "{fault}")?;
    match fault {
        Fault::Zone(fault) => write_reason(alloc, *fault, source, text, errors),
        Fault::Transfer(fault) => write_line(reason_of_transfer(*fault), errors),
        _ => Ok(()),
    }
}

/// Writes the meaning of a fault of a zone's text as one line, in brief if there is no memory for more.
fn write_reason<E: Write>(
    alloc: Global,
    fault: FileFault,
    source: Source<'_>,
    text: &[u8],
    errors: &mut E,
) -> io::Result<()>
    ensures { OnOk result (AppendsSome (E.contents errors.old) (E.contents errors.new)) }
{
    match reason(alloc, fault, source, text) {
        Ok(reason) => write_line(reason.as_str(), errors),
        Err(_) => write_line(reason_of(fault), errors),
    }
}

/// Writes a text and a line end.
fn write_line<E: Write>(text: &str, errors: &mut E) -> io::Result<()>
    ensures { OnOk result (AppendsSome (E.contents errors.old) (E.contents errors.new)) }
{
    write_whole(errors, text.as_bytes())?;
    write_whole(errors, b"\n")
}

//! The meaning of a fault, in words.
use crate::command::Source;
use crate::hint::{Hint, hint_of};
use crate::seen::{Seen, seen_at};
use crate::shown::{push_octets, push_quoted};
use master_file::{Cause, FileFault};
use std::alloc::{AllocError, Global};
use transfer_core::TransferFault;

/// The meaning of a fault of a zone's text: the file and the line, if the text is from a file; what is wrong; the faulty word or owner, if it is
/// known; and the line of the text.
///
/// An error is an allocation that was refused.
pub fn reason(
    alloc: Global,
    fault: FileFault,
    source: Source<'_>,
    text: &[u8],
) -> Result<String, AllocError> {
    let mut reason = String::new(alloc);
    push_place(&mut reason, source, fault.line)?;
    let found = seen_at(alloc, fault, text)?;
    if is_by_order_mark(fault, text) {
        reason.push_str("the file begins with a byte order mark")?;
    } else {
        push_meaning(&mut reason, fault, found.as_ref())?;
    }
    if let Some(found) = &found {
        push_seen(&mut reason, found)?;
    }
    Ok(reason)
}

/// The meaning of a fault of a zone file that is read as other servers read them: the file and the line, if the text is from a file; what is wrong; and
/// the line of the text.
///
/// An error is an allocation that was refused.
pub fn wide_reason(
    alloc: Global,
    fault: FileFault,
    source: Source<'_>,
    text: &[u8],
) -> Result<String, AllocError> {
    let mut reason = String::new(alloc);
    push_place(&mut reason, source, fault.line)?;
    reason.push_str(wide_reason_of(fault))?;
    if let Some(found) = seen_at(alloc, fault, text)? {
        reason.push_str(": ")?;
        push_quoted(&mut reason, found.line)?;
    }
    Ok(reason)
}

/// Appends the name of a file, and a line number if there is one.
fn push_place(to: &mut String, source: Source<'_>, line: u64) -> Result<(), AllocError> {
    match source {
        Source::Input => Ok(()),
        Source::File(path) if line == 0 => write!(to, "{path}: "),
        Source::File(path) => write!(to, "{path}:{line}: "),
    }
}

/// Whether a fault may be caused by a byte order mark at the start of a text, which is read as part of its first word.
fn is_by_order_mark(fault: FileFault, text: &[u8]) -> bool {
    text.starts_with(b"\xef\xbb\xbf")
        && (fault.line == 1 || matches!(fault.cause, Cause::Outside | Cause::Apex))
}

/// Appends what is wrong, and what would be right if that is known.
fn push_meaning(
    to: &mut String,
    fault: FileFault,
    found: Option<&Seen<'_>>,
) -> Result<(), AllocError> {
    let Some(hint) = found.and_then(|found| hint_of(fault.cause, found)) else {
        return to.push_str(reason_of(fault));
    };
    match hint {
        Hint::Ttl(word, seconds) => {
            write!(to, "TTLs are in seconds here: {seconds} for ")?;
            push_octets(to, word)
        }
        Hint::Time(word, seconds) => {
            write!(to, "times are in seconds here: {seconds} for ")?;
            push_octets(to, word)
        }
        Hint::Numbered(name, number) => {
            write!(
                to,
                "{name} is TYPE{number} here, and its data \\# LENGTH HEX (RFC 3597, 5); contrib/convert converts a file (named-compilezone | ldns-read-zone)"
            )
        }
        Hint::NoType => to.push_str("the type is missing"),
        Hint::LongString => to.push_str(
            "a string has at most 255 octets; a longer text is written as several strings",
        ),
        Hint::Missing(name, line) => write!(to, "the {name} is missing ({line})"),
    }
}

/// Appends the faulty word or owner, if it is known, and the line.
fn push_seen(to: &mut String, found: &Seen<'_>) -> Result<(), AllocError> {
    to.push_str(": ")?;
    if let Some(word) = found.word {
        push_quoted(to, word)?;
        to.push_str(", in ")?;
    }
    push_quoted(to, found.line)
}

/// The meaning of a fault of a zone's text, in words.
pub fn reason_of(fault: FileFault) -> &'static str {
    match fault.cause {
        Cause::Directive => "a directive is due, $ORIGIN or $TTL with its argument",
        Cause::BadName => "a name is due, and this is none",
        Cause::Number => "a number is due, and this is none, or too great for its field",
        Cause::BadClass => "the class isn't IN",
        Cause::UnknownType => {
            "a type is due, by a name that is known here or by its number (CAA is written TYPE257 \\# ..)"
        }
        Cause::BadData => "the data isn't of its type's form, or a word is missing or too many",
        Cause::Unclosed =>
            "a quote or a parenthesis has no other one, or stands within parentheses",
        Cause::NoTtl => "no TTL is in force; write $TTL before the first record",
        Cause::NoOwner => "an owner is due, and no record before this one has one",
        Cause::Outside => "the owner is neither the apex nor below it",
        Cause::Apex if fault.line == 0 => "the zone has no SOA, or no NS at the owner of its SOA",
        Cause::Apex => "the zone has an SOA already, and this is another",
        Cause::Conflict => {
            "a CNAME stands beside other data or another CNAME, or an NS at a wildcard"
        }
        Cause::Limit => {
            "more than 1000000 records, 256 records of an owner and type, or 4096 octets of data"
        }
        Cause::NoMemory => "the zone needs more memory than there is",
    }
}

/// The meaning of a fault of a zone file that is read as other servers read them, in words.
pub fn wide_reason_of(fault: FileFault) -> &'static str {
    match fault.cause {
        Cause::Directive => {
            "a directive is due, $ORIGIN or $TTL with its argument; named-compilezone -q -o - ZONE FILE writes out the others"
        }
        Cause::UnknownType => "a type is due, by a name that is known here or by its number",
        _ => reason_of(fault),
    }
}

/// The meaning of a fault of a transfer, in words.
pub fn reason_of_transfer(fault: TransferFault) -> &'static str {
    match fault {
        TransferFault::Broken => {
            "a message can't be read, or the records aren't a list that begins and is closed by an SOA"
        }
        TransferFault::WrongBase => {
            "the records begin at another serial, delete what isn't there, or add what is"
        }
        TransferFault::NotInZone => {
            "a record is outside the zone or over a limit, or the records are no zone"
        }
        TransferFault::NoMemory => "the transfer needs more memory than there is",
    }
}

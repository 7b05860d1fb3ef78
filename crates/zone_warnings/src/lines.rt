//! The lines of warnings.
ghost use Rattle.std.specs.Prelude.{◌≡◌, ◌⊎◌, ◌++◌, List, Ok, Err, IfOk, IfErr, OnOk, Some, string_bytes};
ghost use Rattle.dns_rdata.specs.Record.{Record};
ghost use Rattle.master_file.specs.Fault.{no_memory};
ghost use Rattle.master_file.specs.Records.{records_of};
ghost use Rattle.master_file.specs.ZoneText.{record_in, zone_of_text};
ghost use Rattle.zone_warnings.specs.Warnings.{type_and_name, words_of, warning_line, line_shown, record_warnings, warnings_text};

use crate::hosts::name_in;
use crate::shown::{Warning, is_shown, ttl_in};
use dns_name::Name;
use master_file::{FileFault, RecordEntry, Records, read_zone};
use record_text::write_type;
use std::alloc::{AllocError, Global};
use zone_tree::Zone;

/// The warnings of a zone's text, its names relative to the origin: a line for each record of the text and each warning that it shows in the
/// zone, in the order of the text. No line where there is none.
///
/// The fault is that of a text that is no zone, or want of memory. The text is read twice: as a zone, and then record by record.
pub fn write_warnings(alloc: Global, text: &[u8], origin: &Name) -> Result<String, FileFault>
    ensures lines { IfOk result (λ lines. (zone : List Record) × (zone_of_text origin.now text.now ≡ Ok zone)
        × (string_bytes lines ≡ warnings_text zone (records_of origin.now text.now).rrs)) }
    ensures fault { IfErr result (λ fault. (fault ≡ no_memory) ⊎ (zone_of_text origin.now text.now ≡ Err fault)) }
{
    let zone = read_zone(alloc, text, origin)?;
    write_all(alloc, text, origin, &zone)
}

/// The lines of a text's records in a zone.
fn write_all(alloc: Global, text: &[u8], origin: &Name, zone: &Zone) -> Result<String, FileFault>
    requires { zone_of_text origin.now text.now ≡ Ok zone.now }
    ensures lines { IfOk result (λ lines. string_bytes lines ≡ warnings_text zone.now (records_of origin.now text.now).rrs) }
    ensures fault { IfErr result (λ fault. fault ≡ no_memory) }
{
    let mut lines = String::new(alloc);
    let mut records = Records::new(alloc, text, origin);
    while let Some(rr) = records.next(alloc)? {
        put_warnings(alloc, &mut lines, zone, &rr)?;
    }
    Ok(lines)
}

/// Puts the lines of a record after others.
fn put_warnings(
    alloc: Global,
    lines: &mut String,
    zone: &Zone,
    rr: &RecordEntry,
) -> Result<(), AllocError>
    ensures { OnOk result (string_bytes lines.new ≡ string_bytes lines.old ++ record_warnings zone.now rr.now) }
{
    put_shown(alloc, lines, zone, rr, Warning::NoAddress)?;
    put_shown(alloc, lines, zone, rr, Warning::NoGlue)?;
    put_shown(alloc, lines, zone, rr, Warning::Alias)?;
    put_shown(alloc, lines, zone, rr, Warning::NameTwice)?;
    put_shown(alloc, lines, zone, rr, Warning::OwnerTwice)?;
    put_shown(alloc, lines, zone, rr, Warning::OtherTtl)?;
    Ok(())
}

/// Puts the line of a warning after others, where the record shows it.
fn put_shown(
    alloc: Global,
    lines: &mut String,
    zone: &Zone,
    rr: &RecordEntry,
    warning: Warning,
) -> Result<(), AllocError>
    ensures { OnOk result (string_bytes lines.new ≡ string_bytes lines.old ++ line_shown zone.now rr.now warning) }
{
    if !is_shown(alloc, zone, rr, warning)? {
        return Ok(());
    }
    put_line(lines, zone, rr, warning)
}

/// Puts the line of a warning after others.
fn put_line(
    lines: &mut String,
    zone: &Zone,
    rr: &RecordEntry,
    warning: Warning,
) -> Result<(), AllocError>
    ensures { OnOk result (string_bytes lines.new ≡ string_bytes lines.old ++ warning_line zone.now rr.now warning) }
{
    let line = rr.line;
    write!(lines, "line {line}: warning: ")?;
    put_words(lines, zone, rr, warning)?;
    lines.push('\n')
}

/// Puts the words of a warning after others.
fn put_words(
    lines: &mut String,
    zone: &Zone,
    rr: &RecordEntry,
    warning: Warning,
) -> Result<(), AllocError>
    ensures { OnOk result (string_bytes lines.new ≡ string_bytes lines.old ++ words_of zone.now (record_in rr.now) warning) }
{
    match warning {
        Warning::NoAddress => put_of_name(lines, rr, " has no address in the zone"),
        Warning::NoGlue => put_of_name(lines, rr, " has no glue in the zone"),
        Warning::Alias => put_of_name(lines, rr, " is an alias"),
        Warning::NameTwice => put_of_name(lines, rr, " ends with the zone's name twice"),
        Warning::OwnerTwice => {
            let owner = &rr.owner;
            write!(lines, "{owner} ends with the zone's name twice")
        }
        Warning::OtherTtl => put_ttls(lines, zone, rr),
    }
}

/// Puts a record's type, the name in its data and words after others.
fn put_of_name(lines: &mut String, rr: &RecordEntry, words: &str) -> Result<(), AllocError>
    ensures { OnOk result (string_bytes lines.new ≡ string_bytes lines.old ++ (type_and_name (record_in rr.now) ++ words.now)) }
{
    write_type(lines, rr.rdata.rtype())?;
    let name = name_in(&rr.rdata).unwrap_or(Name::root());
    write!(lines, " {name}{words}")
}

/// Puts a record's owner and type, its TTL and that of its set after others.
fn put_ttls(lines: &mut String, zone: &Zone, rr: &RecordEntry) -> Result<(), AllocError>
    ensures { OnOk result (string_bytes lines.new ≡ string_bytes lines.old ++ words_of zone.now (record_in rr.now) Warning.OtherTtl) }
{
    let owner = &rr.owner;
    let own = rr.ttl.0;
    let set = ttl_in(zone, rr).0;
    write!(lines, "{owner} ")?;
    write_type(lines, rr.rdata.rtype())?;
    write!(lines, " has TTL {own}, and its set {set}")
}

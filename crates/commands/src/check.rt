//! Printing a zone's text in its canonical form.
ghost use Rattle.std.specs.Prelude.{filter, flat_map};
ghost use Rattle.commands.specs.Lines.{Writes};
ghost use Rattle.master_file.specs.WrittenZone.{is_other, record_line, zone_text};

use crate::whole::write_whole;
use dns_rdata::{RRset, RType};
use master_file::write_set;
use std::alloc::Global;
use std::io::{self, Write};
use zone_tree::{Zone, ZoneRead};

/// Writes a zone as text: one record per line, first the SOA and then the others in canonical order (RFC 1035, 5.1). At most one RRset's lines are
/// held at a time.
///
/// An `Err` is an I/O error or lack of memory. What has been written by then is a prefix of the text.
pub fn run_check<W: Write>(alloc: Global, zone: &Zone, writer: &mut W) -> io::Result<()>
    ensures { Writes result (W.contents writer.old) (W.contents writer.new) (zone_text zone.now) }
{
    let mut lines = String::new(alloc);
    put_set(&mut lines, zone.soa(), writer)?;
    put_others(&mut lines, zone, writer)
}

/// Writes the lines of all records except the SOA.
fn put_others<W: Write>(lines: &mut String, zone: &Zone, writer: &mut W) -> io::Result<()>
    ensures { Writes result (W.contents writer.old) (W.contents writer.new) (flat_map record_line (filter is_other zone.now)) }
{
    for set in zone.walk() {
        if set.rtype() != RType::SOA {
            put_set(lines, set, writer)?;
        }
    }
    Ok(())
}

/// Writes the lines of an RRset's records, which are assembled first.
fn put_set<W: Write>(lines: &mut String, set: &RRset, writer: &mut W) -> io::Result<()>
    ensures { Writes result (W.contents writer.old) (W.contents writer.new) (flat_map record_line set.now) }
{
    lines.clear();
    write_set(lines, set)?;
    write_whole(writer, lines.as_bytes())
}

//! A zone as text, one record a line (RFC 1035, 5.1).
ghost use Rattle.std.specs.Prelude.{◌≡◌, ◌++◌, OnOk, IfOk, string_bytes, filter, flat_map};
ghost use Rattle.dns_rdata.specs.Record.{Record};
ghost use Rattle.master_file.specs.WrittenZone.{record_line, is_other, zone_text};

use dns_name::Name;
use dns_rdata::{RData, RRset, RType, Ttl};
use record_text::{write_data, write_type};
use std::alloc::{AllocError, Global};
use zone_tree::ZoneRead;

/// A zone as text: one record a line, the SOA first and then the others in canonical order. A line has the owner whole
/// with a final dot, the TTL in seconds, the class IN, the type and the words of the data, with one space between, and
/// ends in an LF (RFC 1035, 5.1).
///
/// The fault is a growth that was refused.
pub fn write_zone<Z: ZoneRead>(alloc: Global, zone: &Z) -> Result<String, AllocError>
    ensures { IfOk result (λ text. string_bytes text ≡ zone_text (Z.records zone.now)) }
{
    let mut text = String::new(alloc);
    write_set(&mut text, zone.soa())?;
    write_others(&mut text, zone)?;
    Ok(text)
}

/// Writes the lines of the records that are no SOA.
fn write_others<Z: ZoneRead>(text: &mut String, zone: &Z) -> Result<(), AllocError>
    ensures { OnOk result (string_bytes text.new ≡ string_bytes text.old ++ flat_map record_line (filter is_other (Z.records zone.now))) }
{
    for set in zone.walk() {
        if set.rtype() != RType::SOA {
            write_set(text, set)?;
        }
    }
    Ok(())
}

/// Writes the lines of a set's records after a text, as [`write_zone`] writes them.
///
/// The fault is a growth that was refused.
pub fn write_set(text: &mut String, set: &RRset) -> Result<(), AllocError>
    ensures { OnOk result (string_bytes text.new ≡ string_bytes text.old ++ flat_map record_line set.now) }
{
    let owner = set.owner();
    let ttl = set.ttl();
    for rdata in set.data() {
        write_record(text, &owner, ttl, rdata)?;
    }
    Ok(())
}

/// Writes a record's line.
fn write_record(text: &mut String, owner: &Name, ttl: Ttl, rdata: &RData) -> Result<(), AllocError>
    ensures { OnOk result (string_bytes text.new ≡ string_bytes text.old
        ++ record_line (record { owner = owner.now; rtype = rdata.now.rtype; ttl = ttl.0; rdata = rdata.now.octets })) }
{
    let seconds = ttl.0;
    write!(text, "{owner} {seconds} IN ")?;
    write_type(text, rdata.rtype())?;
    write_data(text, rdata)?;
    text.push('\n')
}

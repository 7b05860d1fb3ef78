//! The records of an update, with their data read (RFC 2136, 2.4 and 2.5).
ghost use Rattle.std.specs.Prelude.{◌≡◌, ◌+◌, ◌<◌, ◌≤◌, ◌^◌, length, true, Some, IfOk};
ghost use Rattle.std.specs.Option.{option_map, option_and_then};
ghost use Rattle.dns_rdata.specs.Data.{data_of};
ghost use Rattle.dns_message.specs.Expanded.{octets_from, expanded_by, expanded_data};
ghost use Rattle.dns_message.specs.Updates.{is_looked_at, octets_of, raw_at, raws_at};

use crate::entry::{Entry, entry_at, octets_from};
use crate::update::{RawRecords, Section};
use dns_rdata::{Class, Layout, RawRecord};
use std::alloc::{AllocError, Global};
use wire_names::Message;

/// So many records of a section, and the position after the last; None where one can't be read, or its data haven't their
/// type's form (RFC 2136, 2.4 and 2.5). An `Err` only where a growth was refused.
pub(crate) fn raw_records(
    alloc: Global,
    octets: &Message<'_>,
    section: Section,
    at: usize,
    count: u16,
) -> Result<Option<(RawRecords, usize)>, AllocError>
    ensures { IfOk result (λ found. found ≡ raws_at section count octets.now at) }
{
    let mut records = Vec::new(alloc);
    let mut place = at;
    for _ in 0..count {
        let Some((record, next)) = raw_record(alloc, octets, section, place)? else {
            return Ok(None);
        };
        records.push(record)?;
        place = next;
    }
    Ok(Some((RawRecords::new(records), place)))
}

/// The record of a section at a position, and the position after it, as [`raw_records`] gives them.
fn raw_record(
    alloc: Global,
    octets: &Message<'_>,
    section: Section,
    at: usize,
) -> Result<Option<(RawRecord, usize)>, AllocError>
    ensures { IfOk result (λ found. found ≡ raw_at section octets.now at) }
{
    let Some((entry, next)) = entry_at(octets, at) else {
        return Ok(None);
    };
    let Some(octets) = data_octets(alloc, octets, section, &entry)? else {
        return Ok(None);
    };
    let record = RawRecord {
        owner: entry.owner.fold(),
        rtype: entry.rtype,
        class: entry.class,
        ttl: entry.ttl,
        octets,
    };
    Ok(Some((record, next)))
}

/// The octets of a record's data: those that are read have the names in them in full and in lower case, and are None where
/// they haven't their type's form (RFC 1035, 3.3 and 4.1.4; RFC 3597, 4; RFC 4343, 3).
fn data_octets(
    alloc: Global,
    octets: &Message<'_>,
    section: Section,
    entry: &Entry,
) -> Result<Option<Vec<u8>>, AllocError>
    requires { entry.now.at + entry.now.size ≤ length octets.now }
    ensures { IfOk result (λ found. option_map (λ own. own.items) found ≡ octets_of section octets.now entry.now) }
{
    if !is_looked_at(section, entry) {
        return as_it_stands(alloc, octets, entry);
    }
    match expanded(alloc, octets, entry)? {
        None => Ok(None),
        Some(octets) => entry.rtype.data_octets(alloc, &octets),
    }
}

/// Whether a record's data are read: those of class IN and of class NONE are, of the types that a record of a zone can have; but a
/// prerequisite of class NONE may have none, and says so that a set doesn't exist (RFC 2136, 2.4 and 2.5).
fn is_looked_at(section: Section, entry: &Entry) -> bool
    ensures { result ≡ is_looked_at section entry.now }
{
    if entry.rtype.layout().is_none() {
        return false;
    }
    match section {
        Section::Prerequisites => {
            entry.class == Class::IN || (entry.class == Class::NONE && entry.size != 0)
        }
        Section::Updates => entry.class == Class::IN || entry.class == Class::NONE,
    }
}

/// A record's data with the names in it in full; None where a name has a fault, or the octets after the names don't end with
/// the data (RFC 1035, 4.1.4).
pub(crate) fn expanded(
    alloc: Global,
    octets: &Message<'_>,
    entry: &Entry,
) -> Result<Option<Vec<u8>>, AllocError>
    requires { entry.now.at + entry.now.size ≤ length octets.now }
    ensures { IfOk result (λ found. option_map (λ own. own.items) found ≡ expanded_data octets.now entry.now) }
{
    let Some(layout) = entry.rtype.layout() else {
        return as_it_stands(alloc, octets, entry);
    };
    match layout {
        Layout::Fields {
            front,
            names,
            back,
            ..
        } => expanded_fields(alloc, octets, entry, front, names, back),
        Layout::Strings => as_it_stands(alloc, octets, entry),
        Layout::Opaque => as_it_stands(alloc, octets, entry),
    }
}

/// A record's data as they stand.
fn as_it_stands(
    alloc: Global,
    octets: &Message<'_>,
    entry: &Entry,
) -> Result<Option<Vec<u8>>, AllocError>
    ensures { IfOk result (λ found. option_map (λ own. own.items) found ≡ Some (octets_from octets.now entry.now.at entry.now.size)) }
{
    let own = octets_from(octets, entry.at, entry.size).to_vec(alloc)?;
    Ok(Some(own))
}

/// Data of so many octets in front, so many names and so many octets after, with the names in full, as [`expanded`] gives it.
fn expanded_fields(
    alloc: Global,
    octets: &Message<'_>,
    entry: &Entry,
    front: usize,
    names: usize,
    back: usize,
) -> Result<Option<Vec<u8>>, AllocError>
    requires within { entry.now.at + entry.now.size ≤ length octets.now }
    requires short { front < 2 ^ 16 }
    ensures { IfOk result (λ found. option_map (λ own. own.items) found
        ≡ expanded_by (Layout.Fields front names back true) octets.now entry.now.at entry.now.size) }
{
    let mut own = octets_from(octets, entry.at, front).to_vec(alloc)?;
    let mut place = entry.at + front;
    for _ in 0..names {
        let Ok((name, next)) = octets.read_name(place) else {
            return Ok(None);
        };
        own.extend_from_slice(name.wire())?;
        place = next;
    }
    let end = entry.at + entry.size;
    if place > end || end - place != back {
        return Ok(None);
    }
    own.extend_from_slice(octets_from(octets, place, back))?;
    Ok(Some(own))
}

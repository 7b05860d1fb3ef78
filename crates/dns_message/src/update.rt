//! What an update says (RFC 2136, 2).
ghost use Rattle.std.specs.Prelude.{◌≡◌, ◌≤◌, length, option_map, IfOk};
ghost use Rattle.dns_message.specs.Request.{update_read};
ghost use Rattle.dns_message.specs.Updates.{zone_question, zone_at, update_made, update_in};

use crate::edns::{Edns, OptFault, opt_at};
use crate::query::{Head, Parsed, Question};
use crate::read::{ADCOUNT, HEADER, MAX_PLAIN, PRCOUNT, UPCOUNT, ZOCOUNT, count_at, question_at};
use crate::sent::raw_records;
use dns_name::Name;
use dns_rdata::{Class, RType, RawRecord};
use std::alloc::{AllocError, Global};
use std::marker::Model;
use wire_names::{MAX_TARGETS, Message};

/// Which records of an update are read.
#[derive(Clone, Copy)]
pub(crate) enum Section {
    /// What is to hold of the zone before (RFC 2136, 2.4).
    Prerequisites,
    /// What is to be done to the zone (RFC 2136, 2.5).
    Updates,
}

/// The entry of the zone section: the zone that is to be updated (RFC 2136, 2.3).
#[derive(Drop)]
pub struct ZoneEntry {
    /// The name of the zone, as it is spelt.
    pub name: Name,
    /// The type: SOA, where the entry has its form (RFC 2136, 3.1.1).
    pub rtype: RType,
    /// The class of the zone.
    pub class: Class,
}

impl ZoneEntry {
    /// The entry as a question, which has the same form (RFC 2136, 2.3). It takes no memory.
    pub fn to_question(&self) -> Question
        ensures { result ≡ zone_question self.now }
    {
        Question {
            name: self.name.copy(),
            rtype: self.rtype,
            class: self.class,
        }
    }
}

/// Records as they were sent, in their order.
pub struct RawRecords {
    records: Vec<RawRecord>,
}

impl Drop for RawRecords {
    fn drop(self) {
        let RawRecords { records: _ } = self;
    }
}

impl Model for RawRecords {
    ghost use Rattle.std.specs.Prelude.{List};
    ghost use Rattle.dns_rdata.specs.Raw.{RawRecord as Raw};

    ghost Value = { List Raw };

    ghost view = { λ a. a.records.items };
}

impl RawRecords {
    /// The records of a vector. It takes no memory.
    pub fn new(records: Vec<RawRecord>) -> RawRecords
        ensures { result ≡ records.items }
    {
        RawRecords { records }
    }

    /// The records.
    pub fn as_slice(&self) -> &[RawRecord]
        ensures { result.now ≡ self.now }
    {
        &self.records
    }

    /// The vector of the records. It takes no memory.
    pub fn into_vec(self) -> Vec<RawRecord>
        ensures { result.items ≡ self }
    {
        let RawRecords { records } = self;
        records
    }
}

/// A dynamic update (RFC 2136, 2).
pub struct Update {
    /// What the reply copies from its header.
    pub head: Head,
    /// What its OPT says; None where it has none (RFC 6891, 6.1.1).
    pub edns: Option<Edns>,
    /// The zone that is to be updated.
    pub zone: ZoneEntry,
    /// What is to hold of the zone before (RFC 2136, 2.4).
    pub prerequisites: RawRecords,
    /// What is to be done to the zone (RFC 2136, 2.5).
    pub updates: RawRecords,
}

impl Drop for Update {
    fn drop(self) {
        let Update {
            head: _,
            edns: _,
            zone: _,
            prerequisites: _,
            updates: _,
        } = self;
    }
}

/// The update after a header, which the update has as its head, or that its OPT isn't obeyed; None where none can be read: where
/// the zone section has other than one entry, where a record of another section can't be read,
/// and where the data of one haven't their type's form (RFC 2136, 2; RFC 6891, 7; own). An `Err` only where a growth was refused.
pub(crate) fn read_update(
    alloc: Global,
    octets: &[u8],
    head: Head,
) -> Result<Option<Parsed>, AllocError>
    requires { HEADER ≤ length octets.now }
    ensures { IfOk result (λ found. found ≡ option_map (update_read head) (update_in head octets.now)) }
{
    if octets.len() > MAX_PLAIN {
        return read_long_update(alloc, octets, head);
    }
    sections_read(alloc, &Message::new(octets), head)
}

/// What [`read_update`] tells of many octets: no pointer among them is followed twice.
#[inline(never)]
fn read_long_update(alloc: Global, octets: &[u8], head: Head) -> Result<Option<Parsed>, AllocError>
    requires { HEADER ≤ length octets.now }
    ensures { IfOk result (λ found. found ≡ option_map (update_read head) (update_in head octets.now)) }
{
    let mut ends = [0; MAX_TARGETS];
    let mut sizes = [0; MAX_TARGETS];
    let message = Message::with_room(octets, &mut ends, &mut sizes);
    sections_read(alloc, &message, head)
}

/// What [`read_update`] tells of a message, by its four sections.
fn sections_read(
    alloc: Global,
    octets: &Message<'_>,
    head: Head,
) -> Result<Option<Parsed>, AllocError>
    requires { HEADER ≤ length octets.now }
    ensures { IfOk result (λ found. found ≡ option_map (update_read head) (update_in head octets.now)) }
{
    let Some((zone, at)) = zone_at(octets) else {
        return Ok(None);
    };
    let section = Section::Prerequisites;
    let Some((prerequisites, at)) = raw_records(
        alloc,
        octets,
        section,
        at,
        count_at(octets, PRCOUNT),
    )?
    else {
        return Ok(None);
    };
    let section = Section::Updates;
    let Some((updates, at)) = raw_records(alloc, octets, section, at, count_at(octets, UPCOUNT))?
    else {
        return Ok(None);
    };
    let Some(said) = opt_at(octets, at, count_at(octets, ADCOUNT)) else {
        return Ok(None);
    };
    Ok(Some(update_made(head, zone, prerequisites, updates, said)))
}

/// What an update of these sections says: the update, or its zone entry where its OPT isn't obeyed (RFC 6891, 7).
fn update_made(
    head: Head,
    zone: ZoneEntry,
    prerequisites: RawRecords,
    updates: RawRecords,
    said: Result<Option<Edns>, OptFault>,
) -> Parsed
    ensures { result ≡ update_read head (update_made head zone prerequisites updates said) }
{
    match said {
        Ok(edns) => Parsed::Update(Update {
            head,
            edns,
            zone,
            prerequisites,
            updates,
        }),
        Err(fault) => Parsed::BadOpt(head, zone.to_question(), fault.rcode, fault.dnssec_ok),
    }
}

/// The entry of the zone section, of whatever type, and the position after it; None of another number of entries than one, and
/// where it can't be read (RFC 2136, 2.3).
fn zone_at(octets: &Message<'_>) -> Option<(ZoneEntry, usize)>
    requires { HEADER ≤ length octets.now }
    ensures { result ≡ zone_at octets.now }
{
    if count_at(octets, ZOCOUNT) != 1 {
        return None;
    }
    let (entry, at) = question_at(octets, HEADER)?;
    let zone = ZoneEntry {
        name: entry.name,
        rtype: entry.rtype,
        class: entry.class,
    };
    Some((zone, at))
}

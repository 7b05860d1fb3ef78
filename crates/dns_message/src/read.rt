//! How a request is read (RFC 1035, 4.1 and 4.2).
ghost use Rattle.std.specs.Prelude.{◌≡◌, ◌⊎◌, ◌+◌, ◌≤◌, ◌∷◌, [], false, length, Ok, option_map, option_and_then};
ghost use Rattle.dns_message.specs.Message.{number_at};
ghost use Rattle.dns_message.specs.Reads.{header_of, is_reply, question_of, question_at, record_at, records_at, body_in, seen, serial_held, serial_in, serial_at};
ghost use Rattle.dns_message.specs.Request.{is_update, query_of, update_of, reads, said_in, Tells};
ghost use Rattle.dns_message.specs.Updates.{update_in};

use crate::edns::{Edns, OptFault, opt_at};
use crate::entry::{Entry, entry_at, long_number_at, number_at, type_at};
use crate::query::{Head, Parsed, Query, Question, Said};
use crate::update::read_update;
use dns_name::Name;
use dns_rdata::{Class, RType, Rcode, Serial};
use std::alloc::Global;
use wire_names::{MAX_TARGETS, Message};

/// The octets of a header (RFC 1035, 4.1.1).
pub const HEADER: usize = 12;

/// Where a header counts its questions (RFC 1035, 4.1.1).
pub(crate) const QDCOUNT: usize = 4;

/// Where a header counts the records of the answer section (RFC 1035, 4.1.1).
pub(crate) const ANCOUNT: usize = 6;

/// Where a header counts the records of the authority section (RFC 1035, 4.1.1).
pub(crate) const NSCOUNT: usize = 8;

/// Where a header counts the records of the additional section (RFC 1035, 4.1.1).
pub(crate) const ARCOUNT: usize = 10;

/// Where an update counts the entries of its zone section (RFC 2136, 2.2).
pub(crate) const ZOCOUNT: usize = QDCOUNT;

/// Where an update counts its prerequisites (RFC 2136, 2.2).
pub(crate) const PRCOUNT: usize = ANCOUNT;

/// Where an update counts its updates (RFC 2136, 2.2).
pub(crate) const UPCOUNT: usize = NSCOUNT;

/// Where an update counts its additional records (RFC 2136, 2.2).
pub(crate) const ADCOUNT: usize = ARCOUNT;

/// QR, by its place in the third octet: set in a reply (RFC 1035, 4.1.1).
pub const QR: u8 = 128;

/// OPCODE's lowest bit, by its place in the third octet (RFC 1035, 4.1.1).
pub(crate) const OPCODE: u8 = 8;

/// How many OPCODEs four bits tell (RFC 1035, 4.1.1).
const OPCODES: u8 = 16;

/// The most octets of a message whose pointers are followed anew for each name (own).
pub(crate) const MAX_PLAIN: usize = 512;

/// The octets of the five numbers that end an SOA's data (RFC 1035, 3.3.13).
const SOA_NUMBERS: usize = 20;

/// The OPCODE of a standard query (RFC 1035, 4.1.1).
const QUERY: u8 = 0;

/// The OPCODE of a dynamic update (RFC 2136, 1.3).
pub const OPCODE_UPDATE: u8 = 5;

/// What octets say: a query; an update; nothing that is answered, where they are fewer than twelve or a reply; or a request
/// that gets a code alone (RFC 1035, 4.1; RFC 2136, 2).
///
/// The code is NOTIMP of an OPCODE other than QUERY and UPDATE, and FORMERR of other than one question and where the question or a
/// record can't be read; the first of these that holds is told (own). Of an update it is FORMERR as well where the data of a
/// prerequisite or of an update haven't their type's form (RFC 2136, 2.4 and 2.5; own). Of what can be read `BadOpt` is told, with FORMERR, of an OPT in the additional section whose owner isn't the root, and of
/// two; and else, with BADVERS, of a version above 0 (RFC 6891, 6.1.1 and 6.1.3). Names are read through pointers, of a query's
/// records only an IXFR's SOA has its data looked at, and octets after the last record are ignored.
///
/// Only an update takes memory: `NoMemory` is told only of one, where a growth was refused.
pub fn parse(alloc: Global, octets: &[u8]) -> Parsed
    ensures { Tells octets.now result }
{
    if is_update(octets) {
        return parse_update(alloc, octets, header_of(octets));
    }
    parse_other(octets)
}

/// Whether octets ask for an update, by their header alone, whether they can be read as one or not: twelve or more, which are no reply,
/// of OPCODE UPDATE (RFC 1035, 4.1.1; RFC 2136, 1.3 and 2.2).
pub fn is_update(octets: &[u8]) -> bool
    ensures { result ≡ is_update octets.now }
{
    octets.len() >= HEADER && !is_reply(octets) && header_of(octets).opcode == OPCODE_UPDATE
}

/// What octets say that don't ask for an update, as [`parse`] tells it. It takes no memory.
pub fn parse_other(octets: &[u8]) -> Parsed
    requires { is_update octets.now ≡ false }
    ensures { result ≡ reads octets.now }
{
    let mut query = Query::blank();
    match parse_into(octets, &mut query) {
        Said::Query => Parsed::Query(query),
        Said::Silent => Parsed::Silent,
        Said::Fault(head, code) => Parsed::Fault(head, code),
        Said::BadOpt(head, code, dnssec_ok) => {
            Parsed::BadOpt(head, query.question, code, dnssec_ok)
        }
    }
}

/// What octets say that don't ask for an update, as [`parse`] tells it: the query, or the question of one whose OPT isn't obeyed, is
/// read into one that is kept; of any other octets that query is of no matter then. It takes no memory.
pub fn parse_into(octets: &[u8], query: &mut Query) -> Said
    requires { is_update octets.now ≡ false }
    ensures { said_in query.new result ≡ reads octets.now }
{
    if octets.len() < HEADER || is_reply(octets) {
        return Said::Silent;
    }
    let head = header_of(octets);
    if head.opcode == QUERY {
        return query_into(octets, head, query);
    }
    Said::Fault(head, Rcode::NotImp)
}

/// What a header of a query and what stands after it say, as [`parse_into`] tells it (RFC 1035, 4.1; RFC 6891, 7; own).
fn query_into(octets: &[u8], head: Head, query: &mut Query) -> Said
    requires { HEADER ≤ length octets.now }
    ensures { said_in query.new result ≡ query_of head (option_and_then (seen octets.now) (body_in octets.now)) }
{
    let Some(said) = seen_in(octets, query) else {
        return Said::Fault(head, Rcode::FormErr);
    };
    query.head = head;
    match said {
        Ok(edns) => {
            query.edns = edns;
            Said::Query
        }
        Err(fault) => Said::BadOpt(head, fault.rcode, fault.dnssec_ok),
    }
}

/// What a header of an update and what stands after it say, or that a growth was refused (RFC 2136, 2).
fn parse_update(alloc: Global, octets: &[u8], head: Head) -> Parsed
    requires { HEADER ≤ length octets.now }
    ensures { (result ≡ update_of head (update_in head octets.now)) ⊎ (result ≡ Parsed.NoMemory head) }
{
    match read_update(alloc, octets, head) {
        Ok(Some(read)) => read,
        Ok(None) => Parsed::Fault(head, Rcode::FormErr),
        Err(_) => Parsed::NoMemory(head),
    }
}

/// Whether a header is of a reply (RFC 1035, 4.1.1).
pub(crate) fn is_reply(octets: &[u8]) -> bool
    requires { HEADER ≤ length octets.now }
    ensures { result ≡ is_reply octets.now }
{
    octets[2] >= QR
}

/// What a reply copies from a header: ID, OPCODE, and RD but for an UPDATE, where that bit has no meaning
/// (RFC 1035, 4.1.1; RFC 2136, 2.2; own).
fn header_of(octets: &[u8]) -> Head
    requires { HEADER ≤ length octets.now }
    ensures { result ≡ header_of octets.now }
{
    let opcode = octets[2] / OPCODE % OPCODES;
    Head {
        id: u16::from_be_bytes([octets[0], octets[1]]),
        opcode,
        rd: octets[2] % 2 == 1 && opcode != OPCODE_UPDATE,
    }
}

/// The count at a position of a header (RFC 1035, 4.1.1).
pub(crate) fn count_at(octets: &Message<'_>, at: usize) -> u16
    requires { at + 2 ≤ length octets.now }
    ensures { result ≡ number_at octets.now at }
{
    let octets = octets.octets();
    u16::from_be_bytes([octets[at], octets[at + 1]])
}

/// Reads what [`seen_into`] does of octets.
fn seen_in(octets: &[u8], query: &mut Query) -> Option<Result<Option<Edns>, OptFault>>
    requires { HEADER ≤ length octets.now }
    ensures { option_map (λ said. (query.new.question, query.new.serial, said)) result ≡ option_and_then (seen octets.now) (body_in octets.now) }
{
    if octets.len() > MAX_PLAIN {
        return seen_in_long(octets, query);
    }
    let message = Message::new(octets);
    seen_into(&message, query)
}

/// Reads what [`seen_into`] does of many octets: no pointer among them is followed twice.
#[inline(never)]
fn seen_in_long(octets: &[u8], query: &mut Query) -> Option<Result<Option<Edns>, OptFault>>
    requires { HEADER ≤ length octets.now }
    ensures { option_map (λ said. (query.new.question, query.new.serial, said)) result ≡ option_and_then (seen octets.now) (body_in octets.now) }
{
    let mut ends = [0; MAX_TARGETS];
    let mut sizes = [0; MAX_TARGETS];
    let message = Message::with_room(octets, &mut ends, &mut sizes);
    seen_into(&message, query)
}

/// Reads the question after a header into a query, and the serial of the zone that one who asks for an IXFR holds, and gives what the
/// OPTs among the additional records say; None of another QDCOUNT than one, and where the question or a record can't be read
/// (RFC 1035, 4.1; RFC 1995, 3; RFC 6891, 6.1.1; own).
fn seen_into(octets: &Message<'_>, query: &mut Query) -> Option<Result<Option<Edns>, OptFault>>
    requires { HEADER ≤ length octets.now }
    ensures { option_map (λ said. (query.new.question, query.new.serial, said)) result ≡ option_and_then (seen octets.now) (body_in octets.now) }
{
    if count_at(octets, QDCOUNT) != 1 {
        return None;
    }
    let place = question_into(octets, HEADER, &mut query.question)?;
    let at = behind_records(octets, place, count_at(octets, ANCOUNT))?;
    let (serial, at) = authority_at(octets, &query.question, at, count_at(octets, NSCOUNT))?;
    query.serial = serial;
    opt_at(octets, at, count_at(octets, ARCOUNT))
}

/// The serial of the zone that one who asks for an IXFR holds, by the so many records of the authority section at a
/// position, and the position after the last; None where one of them can't be read (RFC 1995, 3).
fn authority_at(
    octets: &Message<'_>,
    question: &Question,
    at: usize,
    count: u16,
) -> Option<(Option<Serial>, usize)>
    ensures { result ≡ option_map (λ r. (serial_held octets.now question.now r.0, r.1)) (records_at count octets.now at) }
{
    let next = behind_records(octets, at, count)?;
    if question.rtype != RType::IXFR {
        return Some((None, next));
    }
    if count != 1 {
        return Some((None, next));
    }
    Some((serial_of_first(octets, &question.name, at), next))
}

/// The serial of the record at a position, where it is an SOA at a name; None of any other, and where its data haven't
/// the form of an SOA's (RFC 1995, 3).
fn serial_of_first(octets: &Message<'_>, name: &Name, at: usize) -> Option<Serial>
    ensures { result ≡ option_and_then (λ r. serial_in octets.now name.now (r.0 ∷ [])) (record_at octets.now at) }
{
    let (entry, _) = entry_at(octets, at)?;
    if entry.rtype != RType::SOA || entry.class != Class::IN || entry.owner != *name {
        return None;
    }
    serial_at(octets, &entry)
}

/// The serial in the data of an SOA; None where these haven't its form (RFC 1035, 3.3.13).
#[tactic(auto, unfolding(crate::specs::Expanded::names_at))]
fn serial_at(octets: &Message<'_>, entry: &Entry) -> Option<Serial>
    requires { entry.now.at + entry.now.size ≤ length octets.now }
    ensures { result ≡ serial_at octets.now entry.now }
{
    let Ok((_, at)) = octets.read_name(entry.at) else {
        return None;
    };
    let Ok((_, at)) = octets.read_name(at) else {
        return None;
    };
    let end = entry.at + entry.size;
    if at > end || end - at != SOA_NUMBERS {
        return None;
    }
    Some(Serial(long_number_at(octets.octets(), at)?))
}

/// Reads the question at a position into one, and gives the position after it; None where it can't be read (RFC 1035, 4.1.2).
fn question_into(octets: &Message<'_>, at: usize, question: &mut Question) -> Option<usize>
    ensures { option_map (λ next. (question.new, next)) result ≡ question_at octets.now at }
{
    let Ok(at) = octets.read_name_into(at, &mut question.name) else {
        return None;
    };
    type_into(octets.octets(), at, question)
}

/// Reads the type and the class at a position, where the name of a question ends, into it, and gives the position after them; None
/// where the octets end before (RFC 1035, 4.1.2).
fn type_into(octets: &[u8], at: usize, question: &mut Question) -> Option<usize>
    ensures { option_map (λ next. (question.new, next)) result ≡ question_of octets.now (Ok (question.old.name, at)) }
{
    question.rtype = RType(number_at(octets, at)?);
    question.class = Class(number_at(octets, at + 2)?);
    Some(at + 4)
}

/// The question at a position, and the position after it; None where it can't be read (RFC 1035, 4.1.2).
pub(crate) fn question_at(octets: &Message<'_>, at: usize) -> Option<(Question, usize)>
    ensures { result ≡ question_at octets.now at }
{
    let mut question = Question::blank();
    let next = question_into(octets, at, &mut question)?;
    Some((question, next))
}

/// The position after so many records; None where one of them can't be read (RFC 1035, 4.1.3).
pub(crate) fn behind_records(octets: &Message<'_>, at: usize, count: u16) -> Option<usize>
    ensures { result ≡ option_map (λ r. r.1) (records_at count octets.now at) }
{
    // Most requests have none, and pay for no room for one.
    if count == 0 {
        return Some(at);
    }
    behind_some(octets, at, count)
}

/// The position after so many records, as [`behind_records`] gives it.
fn behind_some(octets: &Message<'_>, at: usize, count: u16) -> Option<usize>
    ensures { result ≡ option_map (λ r. r.1) (records_at count octets.now at) }
{
    let mut place = at;
    for _ in 0..count {
        let (_, next) = type_at(octets, place)?;
        place = next;
    }
    Some(place)
}

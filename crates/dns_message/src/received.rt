//! The messages of a transfer as they are received (RFC 5936, 2.2; RFC 1995, 4).
ghost use Rattle.std.specs.Prelude.{◌≡◌, ◌≢◌, ◌+◌, ◌<◌, ◌≤◌, [], length, map, IfOk, OnErr, MatchOption, Some, None, Ok, unwrap_or};
ghost use Rattle.std.specs.Option.{option_map};
ghost use Rattle.dns_message.specs.Expanded.{expanded_data};
ghost use Rattle.dns_name.specs.Name.{Name as Labels};
ghost use Rattle.dns_message.specs.Reads.{is_reply, question_of, question_at, questions_at, records_at, body_in};
ghost use Rattle.dns_message.specs.Received.{rcode_of, received, received_records, HasAnswerAt};

use crate::entry::{Entry, entry_at};
use crate::read::{
    ANCOUNT, ARCOUNT, HEADER, MAX_PLAIN, NSCOUNT, QDCOUNT, behind_records, count_at, is_reply,
};
use crate::sent::expanded;
use crate::update::RawRecords;
use dns_rdata::RawRecord;
use std::alloc::{AllocError, Global};
use wire_names::{MAX_TARGETS, Message};

/// How many RCODEs four bits tell (RFC 1035, 4.1.1).
const RCODES: u8 = 16;

/// The records of the answer section of a message that was received, in their order, each with its owner in lower case and
/// the names in its data in full; a record whose data can't be read has none, which is the form of no type that has names.
/// None where the octets are no reply of RCODE NOERROR, or a question or a record of any section can't be read; octets after
/// the last record are ignored (RFC 1035, 4.1; RFC 5936, 2.2; own). An `Err` only where a growth was refused; none is asked for
/// where there is no such record.
pub fn received_records(alloc: Global, octets: &[u8]) -> Result<Option<RawRecords>, AllocError>
    ensures found { IfOk result (λ found. found ≡ received_records octets.now) }
    ensures some { OnErr result (received_records octets.now ≢ Some []) }
{
    if octets.len() < HEADER || !is_reply(octets) || rcode_of(octets) != 0 {
        return Ok(None);
    }
    if octets.len() > MAX_PLAIN {
        return read_long_answer(alloc, octets);
    }
    let message = Message::new(octets);
    read_answer(alloc, &message)
}

/// What [`read_answer`] tells of many octets: no pointer among them is followed twice.
#[inline(never)]
fn read_long_answer(alloc: Global, octets: &[u8]) -> Result<Option<RawRecords>, AllocError>
    requires { HEADER ≤ length octets.now }
    ensures found { IfOk result (λ found. found ≡ option_map (λ body. map (received octets.now) body.answer) (body_in octets.now)) }
    ensures some { OnErr result (option_map (λ body. map (received octets.now) body.answer) (body_in octets.now) ≢ Some []) }
{
    let mut ends = [0; MAX_TARGETS];
    let mut sizes = [0; MAX_TARGETS];
    let message = Message::with_room(octets, &mut ends, &mut sizes);
    read_answer(alloc, &message)
}

/// The records of the answer section of a message, as [`received_records`] gives them of a reply of RCODE NOERROR.
fn read_answer(alloc: Global, octets: &Message<'_>) -> Result<Option<RawRecords>, AllocError>
    requires { HEADER ≤ length octets.now }
    ensures found { IfOk result (λ found. found ≡ option_map (λ body. map (received octets.now) body.answer) (body_in octets.now)) }
    ensures some { OnErr result (option_map (λ body. map (received octets.now) body.answer) (body_in octets.now) ≢ Some []) }
{
    match answer_at(octets) {
        None => Ok(None),
        Some(at) => all_received(alloc, octets, at, count_at(octets, ANCOUNT)),
    }
}

/// The RCODE of a header (RFC 1035, 4.1.1).
fn rcode_of(octets: &[u8]) -> u8
    requires { HEADER ≤ length octets.now }
    ensures { result ≡ rcode_of octets.now }
{
    octets[3] % RCODES
}

/// Where the answer section of a message begins; None where a question or a record of any section can't be read.
fn answer_at(octets: &Message<'_>) -> Option<usize>
    requires { HEADER ≤ length octets.now }
    ensures { MatchOption result (body_in octets.now ≡ None) (HasAnswerAt octets.now) }
{
    let answer = behind_questions(octets, HEADER, count_at(octets, QDCOUNT))?;
    let authority = behind_records(octets, answer, count_at(octets, ANCOUNT))?;
    let additional = behind_records(octets, authority, count_at(octets, NSCOUNT))?;
    let _ = behind_records(octets, additional, count_at(octets, ARCOUNT))?;
    Some(answer)
}

/// The position after so many questions; None where one of them can't be read (RFC 1035, 4.1.2).
pub(crate) fn behind_questions(octets: &Message<'_>, at: usize, count: u16) -> Option<usize>
    ensures { result ≡ option_map (λ r. r.1) (questions_at count octets.now at) }
{
    let mut place = at;
    for _ in 0..count {
        place = behind_question(octets, place)?;
    }
    Some(place)
}

/// The position after the question at a position, which is passed over; None where it can't be read (RFC 1035, 4.1.2).
fn behind_question(octets: &Message<'_>, at: usize) -> Option<usize>
    ensures { result ≡ option_map (λ q. q.1) (question_at octets.now at) }
{
    let at = octets.behind_name(at)?;
    question_end(octets.octets(), at)
}

/// The position after the question whose name ends at a position; None where the octets end before.
fn question_end(octets: &[u8], at: usize) -> Option<usize>
    ensures { (name : Labels) → result ≡ option_map (λ q. q.1) (question_of octets.now (Ok (name, at))) }
{
    let _ = octets.get(at..)?.get(..4)?;
    Some(at + 4)
}

/// So many records from a position on as they are received; None where one of them can't be read.
fn all_received(
    alloc: Global,
    octets: &Message<'_>,
    at: usize,
    count: u16,
) -> Result<Option<RawRecords>, AllocError>
    ensures found { IfOk result (λ found. found ≡ option_map (λ r. map (received octets.now) r.0) (records_at count octets.now at)) }
    ensures some { OnErr result (0 < count) }
{
    let mut records = Vec::new(alloc);
    let mut place = at;
    for _ in 0..count {
        let Some((entry, next)) = entry_at(octets, place) else {
            return Ok(None);
        };
        records.push(one_received(alloc, octets, &entry)?)?;
        place = next;
    }
    Ok(Some(RawRecords::new(records)))
}

/// A record as it is received.
fn one_received(alloc: Global, octets: &Message<'_>, entry: &Entry) -> Result<RawRecord, AllocError>
    requires { entry.now.at + entry.now.size ≤ length octets.now }
    ensures { IfOk result (λ own. own ≡ received octets.now entry.now) }
{
    let octets = expanded(alloc, octets, entry)?.unwrap_or(Vec::new(alloc));
    Ok(RawRecord {
        owner: entry.owner.fold(),
        rtype: entry.rtype,
        class: entry.class,
        ttl: entry.ttl,
        octets,
    })
}

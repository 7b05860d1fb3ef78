//! A NOTIFY in octets, and the octets that answer it.
ghost use Rattle.std.specs.Prelude.{◌≡◌, ◌≤◌, ◌+◌, length, take, map};
ghost use Rattle.dns_rdata.specs.Record.{shown_as};
ghost use Rattle.dns_message.specs.Answers.{answers};
ghost use Rattle.dns_message.specs.Message.{number_at};
ghost use Rattle.dns_message.specs.Octets.{fit};
ghost use Rattle.notify.specs.Notify.{notify_octets, is_answer, is_notify_reply, asks_no_other, is_read_as};
ghost use Rattle.wire_names.specs.NameAt.{name_at};

use dns_message::{HEADER, Head, QR, Question, Reply, write_reply};
use dns_name::Name;
use dns_rdata::{Class, LentName, RRset, RType, Rcode, Shown};
use std::slice;
use wire_names::read_name;
use zone_tree::ZoneRead;

/// The most octets of a NOTIFY, which goes over UDP (RFC 1035, 4.2.1; RFC 1996, 3.4).
pub const MAX_NOTIFY: usize = 512;

/// The OPCODE of a NOTIFY (RFC 1996, 3.1).
const OPCODE_NOTIFY: u8 = 4;

/// OPCODE's lowest bit, by its place in the third octet (RFC 1035, 4.1.1).
const OPCODE: u8 = 8;

/// How many OPCODEs four bits tell (RFC 1035, 4.1.1).
const OPCODES: u8 = 16;

/// Where a header counts its questions (RFC 1035, 4.1.1).
const QDCOUNT: usize = 4;

/// AA, by its place in the third octet (RFC 1035, 4.1.1).
const AA: u8 = 4;

/// The third octet of a NOTIFY: QR 0, its OPCODE, AA 1, TC 0 and RD 0 (RFC 1035, 4.1.1; RFC 1996, 3.2 and 3.3).
const NOTIFY_FLAGS: u8 = OPCODE * OPCODE_NOTIFY + AA;

/// Writes the NOTIFY of a zone to the front of `out`, and gives how many octets it has: the zone's apex and type SOA as question, and
/// the zone's SOA in the answer section, which is empty where the SOA doesn't fit into [`MAX_NOTIFY`] octets (RFC 1996, 3.7). It takes
/// no memory.
pub fn write_notify<Z: ZoneRead>(zone: &Z, id: u16, out: &mut [u8]) -> usize
    requires { MAX_NOTIFY ≤ length out.old }
    ensures octets { take result out.new ≡ notify_octets id (Z.records zone.now) }
    ensures len { result ≤ MAX_NOTIFY }
{
    let question = Question {
        name: zone.apex().copy(),
        rtype: RType::SOA,
        class: Class::IN,
    };
    let head = Head {
        id,
        opcode: OPCODE_NOTIFY,
        rd: false,
    };
    let len = write_as_reply(head, &question, zone.soa(), out);
    // A request, and whole as it is: the writer of replies sets QR, and TC where it cuts (RFC 1996, 3.2 and 3.3).
    out[2] = NOTIFY_FLAGS;
    len
}

/// Writes an authoritative reply of a header and a question, with an SOA as answer, to the front of `out`, cut to [`MAX_NOTIFY`] octets.
fn write_as_reply(head: Head, question: &Question, soa: &RRset, out: &mut [u8]) -> usize
    requires { MAX_NOTIFY ≤ length out.old }
    ensures octets { take result out.new ≡ fit (answers head (Some question.now) None (map (shown_as question.now.name None) soa.now)) MAX_NOTIFY }
    ensures len { result ≤ MAX_NOTIFY }
{
    let shown = Shown {
        owner: LentName::spelt(&question.name),
        ttl: None,
        sets: slice::from_ref(soa),
    };
    let reply = Reply {
        head,
        rcode: Rcode::NoError,
        aa: true,
        question: Some(question),
        answer: slice::from_ref(&shown),
        authority: &[],
        additional: &[],
        opt: None,
        below_cut: false,
    };
    write_reply(&reply, MAX_NOTIFY, out)
}

/// Whether octets answer the NOTIFY of an ID for the zone at an apex: a reply of its OPCODE and that ID, of whichever RCODE, which has
/// no question, or one of that name (RFC 1996, 3.3, 3.6 and 3.12).
pub fn is_answer(apex: &Name, id: u16, octets: &[u8]) -> bool
    ensures { result ≡ is_answer apex.now id octets.now }
{
    if octets.len() < HEADER {
        return false;
    }
    is_notify_reply(octets) && number_at(octets, 0) == id && asks_no_other(apex, octets)
}

/// Whether a header is of a NOTIFY's reply (RFC 1035, 4.1.1; RFC 1996, 3.3).
fn is_notify_reply(octets: &[u8]) -> bool
    requires { HEADER ≤ length octets.now }
    ensures { result ≡ is_notify_reply octets.now }
{
    octets[2] >= QR && octets[2] / OPCODE % OPCODES == OPCODE_NOTIFY
}

/// Whether a header has no question after it, or the name after it is this one (RFC 1996, 3.6).
fn asks_no_other(apex: &Name, octets: &[u8]) -> bool
    requires { HEADER ≤ length octets.now }
    ensures { result ≡ asks_no_other apex.now octets.now }
{
    number_at(octets, QDCOUNT) == 0 || is_read_as(apex, octets)
}

/// The number of 16 bits at a position of a header (RFC 1035, 2.3.2).
fn number_at(octets: &[u8], at: usize) -> u16
    requires { at + 2 ≤ length octets.now }
    ensures { result ≡ number_at octets.now at }
{
    u16::from_be_bytes([octets[at], octets[at + 1]])
}

/// Whether the name after a header can be read, and is this one.
fn is_read_as(name: &Name, octets: &[u8]) -> bool
    ensures { result ≡ is_read_as name.now (name_at octets.now 12) }
{
    match read_name(octets, HEADER) {
        Ok((read, _)) => read == *name,
        Err(_) => false,
    }
}

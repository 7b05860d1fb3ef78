//! What deploying a zone writes to a server, and what it makes of the octets that it reads: without a server.
use crate::made::{SetRow, sets_in, zone_anew};
use dns_rdata::RType;
use std::alloc::Global;
use std::time::Clock;
use transfer_core::TransferFault;
use zone_deploy::{DeployFault, Request, ServerFault, send_update, zone_of_server};
use zone_tree::{Zone, ZoneRead};

/// A zone of the name that is asked for.
const OTHER: [SetRow; 2] = [
    ("example.", RType::NS, b"\x01h\x07example\0"),
    (
        "example.",
        RType::SOA,
        b"\0\0\0\0\0\x09\0\0\0\x02\0\0\0\x03\0\0\0\x04\0\0\0\x05",
    ),
];

/// The query for the whole zone after its length, put together by hand from RFC 1035, 4.1 and 4.2.2, and RFC 5936, 2.1.
const QUERY: &[u8] = b"\0\x19\0\0\0\0\0\x01\0\0\0\0\0\0\x07example\0\0\xfc\0\x01";

/// Records, put together by hand from RFC 1035, 3.3 and 4.1.3: the SOA of serial 1, an NS and an address.
const SOA: &[u8] =
    b"\x07example\0\0\x06\0\x01\0\0\x0e\x10\0\x16\0\0\0\0\0\x01\0\0\0\x02\0\0\0\x03\0\0\0\x04\0\0\0\x05";

const NS: &[u8] = b"\x07example\0\0\x02\0\x01\0\0\x0e\x10\0\x0b\x01h\x07example\0";

const A: &[u8] = b"\x01h\x07example\0\0\x01\0\x01\0\0\x0e\x10\0\x04\xc0\0\x02\x01";

/// The head of a reply to that query but for its code and its counts, and what comes after these.
const REPLY: &[u8] = b"\0\0\x84";

/// A message that is read: its first three octets, its code, and the records of its answer section.
type Message = (&'static [u8], u8, &'static [&'static [u8]]);

/// What comes of the messages: the serial of the zone, and how many sets it has, or the sentence of the fault.
type Outcome = (u32, u64, &'static str);

/// Messages, each after its length; None where memory is refused.
fn octets_of(alloc: Global, messages: &[Message]) -> Option<Vec<u8>> {
    let mut octets = Vec::new(alloc);
    for (head, code, records) in messages {
        let mut len = 12usize;
        for record in *records {
            len = len.checked_add(record.len())?;
        }
        octets
            .extend_from_slice(&u16::try_from(len).ok()?.to_be_bytes())
            .ok()?;
        octets.extend_from_slice(head).ok()?;
        let count = u8::try_from(records.len()).ok()?;
        octets
            .extend_from_slice(&[*code, 0, 0, 0, count, 0, 0, 0, 0])
            .ok()?;
        for record in *records {
            octets.extend_from_slice(record).ok()?;
        }
    }
    Some(octets)
}

/// The words of a fault; None of want of memory.
fn word_of(fault: &DeployFault) -> Option<&'static str> {
    match fault {
        DeployFault::Refused(Request::Transfer, 5) => Some("refused"),
        DeployFault::Refused(_, _) => Some("refused otherwise"),
        DeployFault::BadTsig(_, _) => Some("bad TSIG"),
        DeployFault::NotSigned(_) => Some("not signed"),
        DeployFault::NoReply(Request::Transfer) => Some("no reply"),
        DeployFault::NoReply(Request::Update) => Some("no reply to an update"),
        DeployFault::Transfer(TransferFault::NoMemory) => None,
        DeployFault::Transfer(_) => Some("no transfer"),
        DeployFault::TooLong => Some("too long"),
        DeployFault::NoMemory => None,
        DeployFault::Io(_) => Some("the end"),
    }
}

/// What comes of a transfer, if the query was written as it must be; None where memory is refused.
fn outcome_of<C: Clock>(
    alloc: Global,
    clock: &C,
    other: &Zone,
    messages: &[Message],
) -> Option<Outcome> {
    let octets = octets_of(alloc, messages)?;
    let mut reader = octets.as_slice();
    let mut writer = Vec::new(alloc);
    match zone_of_server(alloc, clock, None, &mut reader, &mut writer, other) {
        Ok(zone) if writer.as_slice() == QUERY && reader.is_empty() => {
            Some((zone.serial().0, sets_in(&zone), ""))
        }
        Ok(_) => Some((0, 0, "other octets")),
        Err(fault) => Some((0, 0, word_of(&fault)?)),
    }
}

/// Transfers, and what comes of them.
const ROWS: [(&[Message], Outcome); 8] = [
    (&[(REPLY, 0, &[SOA, NS, A, SOA])], (1, 3, "")),
    (
        &[(REPLY, 0, &[SOA]), (REPLY, 0, &[NS, A]), (REPLY, 0, &[SOA])],
        (1, 3, ""),
    ),
    (&[(REPLY, 0, &[SOA, NS, A])], (0, 0, "the end")),
    (
        &[(b"\0\x01\x84", 0, &[SOA, NS, A, SOA])],
        (0, 0, "no reply"),
    ),
    (&[(b"\0\0\x04", 0, &[SOA, NS, A, SOA])], (0, 0, "no reply")),
    (&[(b"\0\0\xa8", 0, &[SOA, NS, A, SOA])], (0, 0, "no reply")),
    (&[(REPLY, 5, &[])], (0, 0, "refused")),
    (&[(REPLY, 0, &[NS, SOA])], (0, 0, "no transfer")),
];

/// The first of them of which something else comes, tried anew where memory is refused.
fn comes_otherwise<C: Clock>(alloc: Global, clock: &C, other: &Zone) -> Option<&'static str> {
    for (messages, want) in ROWS {
        let outcome = match outcome_of(alloc, clock, other, messages) {
            Some(outcome) => Some(outcome),
            None => outcome_of(alloc, clock, other, messages),
        };
        if outcome != Some(want) {
            return Some(match outcome {
                Some((_, _, word)) => word,
                None => "no memory twice",
            });
        }
    }
    None
}

// With any one growth refused too: the same messages, read anew, make the same zone, or have the same fault.
#[test]
fn deployed_refused_growth(rt: HostRuntime) {
    let other = zone_anew(rt.alloc(), &OTHER).expect(&rt, "a zone");
    assert_eq!(rt; comes_otherwise(rt.alloc(), &rt, &other), None);
}

/// An update's octets, of which only the header counts, and the replies to it, with the number of the code, or 99 for a fault.
const UPDATE: &[u8] = b"\x12\x34\x28\0\0\0\0\0\0\0\0\0";

const REPLIES: [(&[u8], u8); 5] = [
    (b"\0\x0c\x12\x34\xa8\0\0\0\0\0\0\0\0\0", 0),
    (b"\0\x0c\x12\x34\xa8\x08\0\0\0\0\0\0\0\0", 8),
    (b"\0\x0c\x12\x35\xa8\0\0\0\0\0\0\0\0\0", 99),
    (b"\0\x0c\x12\x34\x80\0\0\0\0\0\0\0\0\0", 99),
    (b"\0\x0c\x12\x34\xa8\0\0\0\0\0\0\0\0", 99),
];

/// The first reply whose code is told otherwise.
fn told_otherwise<C: Clock>(alloc: Global, clock: &C) -> Option<u8> {
    for (reply, want) in REPLIES {
        let mut reader = reply;
        let mut writer = Vec::new(alloc);
        let code = match send_update(alloc, clock, None, &mut reader, &mut writer, UPDATE) {
            Ok(code) if writer.len() == UPDATE.len() + 2 && writer.ends_with(UPDATE) => code,
            Ok(_) => 98,
            Err(_) => 99,
        };
        if code != want {
            return Some(code);
        }
    }
    None
}

#[test]
fn codes_of_updates(rt: HostRuntime) {
    assert_eq!(rt; told_otherwise(rt.alloc(), &rt), None);
}

// A fault's sentence has the server and the request.
#[test]
fn sentence_of_a_refusal(rt: HostRuntime) {
    let server = "192.0.2.1:53".parse().expect(&rt, "an address");
    let refused = ServerFault {
        server,
        fault: DeployFault::Refused(Request::Update, 5),
    };
    let text = format!(in rt.alloc(); "{refused}").expect(&rt, "memory");
    assert_eq!(rt; text.as_str(), "192.0.2.1:53 refused the update: REFUSED");
}

//! Transfers that are taken in where memory is refused.
use crate::made::{SetRow, sets_in, zone_anew};
use dns_rdata::RType;
use std::alloc::Global;
use transfer_core::TransferFault;
use transfer_in::apply;
use zone_tree::Zone;

/// The zone that is held.
const HELD: [SetRow; 3] = [
    ("example.", RType::NS, b"\x01h\x07example\0"),
    (
        "example.",
        RType::SOA,
        b"\0\0\0\0\0\x01\0\0\0\x02\0\0\0\x03\0\0\0\x04\0\0\0\x05",
    ),
    ("h.example.", RType::A, &[192, 0, 2, 1]),
];

/// Its records, the SOA of serial 2 and another address, put together by hand from RFC 1035, 3.3 and 4.1.3.
const S1: &[u8] =
    b"\x07example\0\0\x06\0\x01\0\0\x0e\x10\0\x16\0\0\0\0\0\x01\0\0\0\x02\0\0\0\x03\0\0\0\x04\0\0\0\x05";

const S2: &[u8] =
    b"\x07example\0\0\x06\0\x01\0\0\x0e\x10\0\x16\0\0\0\0\0\x02\0\0\0\x02\0\0\0\x03\0\0\0\x04\0\0\0\x05";

const NS: &[u8] = b"\x07example\0\0\x02\0\x01\0\0\x0e\x10\0\x0b\x01h\x07example\0";

const A1: &[u8] = b"\x01h\x07example\0\0\x01\0\x01\0\0\x0e\x10\0\x04\xc0\0\x02\x01";

const A2: &[u8] = b"\x01h\x07example\0\0\x01\0\x01\0\0\x0e\x10\0\x04\xc0\0\x02\x02";

/// The records of each message of a transfer.
type Transfer = &'static [&'static [&'static [u8]]];

/// A reply without a question, with these records in its answer section; None where memory is refused.
fn message_of(alloc: Global, records: &[&[u8]]) -> Option<Vec<u8>> {
    let mut message = b"\x12\x34\x84\0\0\0\0\0\0\0\0\0".to_vec(alloc).ok()?;
    *message.get_mut(7)? = u8::try_from(records.len()).ok()?;
    for record in records {
        message.extend_from_slice(record).ok()?;
    }
    Some(message)
}

/// The end of a transfer: the serial of the zone that its messages make, and how many sets it has, or the word of the fault.
type End = (u32, u64, &'static str);

/// The end that a transfer has; None where memory is refused.
fn end_of(alloc: Global, zone: &Zone, transfer: Transfer) -> Option<End> {
    let mut messages = Vec::new(alloc);
    for records in transfer {
        messages.push(message_of(alloc, records)?).ok()?;
    }
    match apply(alloc, zone, &messages) {
        Ok(next) => Some((next.serial().0, sets_in(&next), "")),
        Err(TransferFault::NoMemory) => None,
        Err(TransferFault::WrongBase) => Some((0, 0, "WrongBase")),
        Err(_) => Some((0, 0, "another fault")),
    }
}

/// Transfers that are taken anew, and their ends: the zone in whole in two messages, what changed, the SOA alone, and another base.
const ANEW: [(Transfer, End); 4] = [
    (&[&[S2, NS, A1], &[A2, S2]], (2, 3, "")),
    (&[&[S2, S1, A1, S2, A2, S2]], (2, 3, "")),
    (&[&[S1]], (1, 3, "")),
    (&[&[S2, S1, A2, S2, S2]], (0, 0, "WrongBase")),
];

/// The first of them that has another end, taken anew where memory is refused.
fn ends_otherwise(alloc: Global, zone: &Zone) -> Option<Transfer> {
    for (transfer, want) in ANEW {
        let end = match end_of(alloc, zone, transfer) {
            Some(end) => Some(end),
            None => end_of(alloc, zone, transfer),
        };
        if end != Some(want) {
            return Some(transfer);
        }
    }
    None
}

// With any one growth refused, the zone that is held stays as it was, and the same messages give the zone after them, or their fault, once
// they are taken anew.
#[test]
fn refused_growth(rt: HostRuntime) {
    let zone = zone_anew(rt.alloc(), &HELD).expect(&rt, "a zone");
    assert_eq!(rt; ends_otherwise(rt.alloc(), &zone), None);
    assert_eq!(rt; (zone.serial().0, sets_in(&zone)), (1, 3));
}

// The word of the fault that no refusal of the program shows.
#[test]
fn word_of_no_memory(rt: HostRuntime) {
    let text = format!(in rt.alloc(); "{}", TransferFault::NoMemory).expect(&rt, "memory");
    assert_eq!(rt; text.as_str(), "X4 NoMemory");
}

//! The two messages of a transfer, of which the first is cut at each of its octets (RFC 5936, 2.2).
use crate::made::{SetRow, sets_in, zone_anew};
use dns_rdata::RType;
use std::alloc::{AllocError, Global};
use std::process::Abort;
use transfer_core::TransferFault;
use transfer_in::apply;
use zone_tree::Zone;

/// The zone that is held.
const HELD: [SetRow; 2] = [
    ("@", RType::NS, b"\x03ns1\x07example\x04test\0"),
    (
        "@",
        RType::SOA,
        b"\x03ns1\x07example\x04test\0\x05admin\x07example\x04test\0\0\0\0\x01\0\0\x1c\x20\0\0\x03\x84\0\x12\x75\0\0\0\x01\x2c",
    ),
];

/// A reply of six answers with the question `example.test. IN AXFR`, the zone's SOA, and its NS.
const FRONT: &[u8] = b"\x12\x34\x84\0\0\x01\0\x06\0\0\0\0\x07example\x04test\0\0\xfc\0\x01\
      \xc0\x0c\0\x06\0\x01\0\0\x0e\x10\0\x22\x03ns1\xc0\x0c\x05admin\xc0\x0c\0\0\0\x01\0\0\x1c\x20\0\0\x03\x84\0\x12\x75\0\0\0\x01\x2c\
      \xc0\x0c\0\x02\0\x01\0\0\x0e\x10\0\x02\xc0\x2a";

/// A reply of one answer without a question: the SOA again.
const CLOSE: &[u8] =
    b"\x12\x34\x84\0\0\0\0\x01\0\0\0\0\x07example\x04test\0\0\x06\0\x01\0\0\x0e\x10\
      \0\x22\x03ns1\xc0\x0c\x05admin\xc0\x0c\0\0\0\x01\0\0\x1c\x20\0\0\x03\x84\0\x12\x75\0\0\0\x01\x2c";

/// How many octets the first message has.
const FIRST: usize = 16_349;

/// Into how many parts its lengths fall, by what is left over.
const PARTS: usize = 8;

/// Four texts at `t.example.test.`: owner, type, class, TTL and length of the data, and a letter and how many of it the last string has. Of
/// the owners the first has its own octets; of the data the first three have 4,052 octets, and the last 4,053.
const TEXTS: [(&[u8], u8, u8); 4] = [
    (b"\x01t\xc0\x0c\0\x10\0\x01\0\0\x0e\x10\x0f\xd4", b'a', 211),
    (b"\xc0\x5a\0\x10\0\x01\0\0\x0e\x10\x0f\xd4", b'b', 211),
    (b"\xc0\x5a\0\x10\0\x01\0\0\x0e\x10\x0f\xd4", b'c', 211),
    (b"\xc0\x5a\0\x10\0\x01\0\0\x0e\x10\x0f\xd5", b'd', 212),
];

/// Puts a text: fifteen strings of 255 of a letter, and one of so many (RFC 1035, 3.3).
fn put_text(message: &mut Vec<u8>, front: &[u8], letter: u8, last: u8) -> Result<(), AllocError> {
    let letters = [letter; 255];
    message.extend_from_slice(front)?;
    for _ in 0..15u8 {
        message.push(255)?;
        message.extend_from_slice(&letters)?;
    }
    message.push(last)?;
    message.extend_from_slice(&letters[..usize::from(last)])
}

/// Both messages.
fn messages(alloc: Global) -> Result<Vec<Vec<u8>>, AllocError> {
    let mut first = FRONT.to_vec(alloc)?;
    for (front, letter, last) in TEXTS {
        put_text(&mut first, front, letter, last)?;
    }
    let mut messages = Vec::new(alloc);
    messages.push(first)?;
    messages.push(CLOSE.to_vec(alloc)?)?;
    Ok(messages)
}

/// Whether both are taken as a zone of three sets where the first message has this length, which is that of the whole, and where it is cut to
/// fewer octets the transfer is broken.
fn is_judged(alloc: Global, zone: &Zone, messages: &[Vec<u8>], len: usize) -> bool {
    match apply(alloc, zone, messages) {
        Ok(next) => len == FIRST && (next.serial().0, sets_in(&next)) == (1, 3),
        Err(TransferFault::Broken) => len < FIRST,
        Err(_) => false,
    }
}

/// The greatest length of a part, or of the whole, to which the first message is cut and judged otherwise.
fn judged_otherwise(
    alloc: Global,
    zone: &Zone,
    messages: &mut [Vec<u8>],
    part: usize,
) -> Option<usize> {
    for len in (0..FIRST + 1).rev() {
        if len != FIRST && len % PARTS != part {
            continue;
        }
        let Some(first) = messages.first_mut() else {
            return Some(len);
        };
        first.truncate(len);
        if !is_judged(alloc, zone, messages, len) {
            return Some(len);
        }
    }
    None
}

/// In whole the transfer is taken; with the first message cut to any length of a part it is broken, and the zone that is held stays.
fn tries<R: Abort>(rt: &R, alloc: Global, part: usize) {
    let zone = zone_anew(alloc, &HELD).expect(rt, "a zone");
    let mut messages = messages(alloc).expect(rt, "memory");
    assert_eq!(rt; judged_otherwise(alloc, &zone, &mut messages, part), None);
    assert_eq!(rt; (zone.serial().0, sets_in(&zone)), (1, 2));
}

// Each of these tests has an eighth of the lengths.
#[test]
fn a_first_message_of_8_n_and_0_octets_is_broken(rt: HostRuntime) {
    tries(&rt, rt.alloc(), 0);
}

#[test]
fn a_first_message_of_8_n_and_1_octets_is_broken(rt: HostRuntime) {
    tries(&rt, rt.alloc(), 1);
}

#[test]
fn a_first_message_of_8_n_and_2_octets_is_broken(rt: HostRuntime) {
    tries(&rt, rt.alloc(), 2);
}

#[test]
fn a_first_message_of_8_n_and_3_octets_is_broken(rt: HostRuntime) {
    tries(&rt, rt.alloc(), 3);
}

#[test]
fn a_first_message_of_8_n_and_4_octets_is_broken(rt: HostRuntime) {
    tries(&rt, rt.alloc(), 4);
}

#[test]
fn a_first_message_of_8_n_and_5_octets_is_broken(rt: HostRuntime) {
    tries(&rt, rt.alloc(), 5);
}

#[test]
fn a_first_message_of_8_n_and_6_octets_is_broken(rt: HostRuntime) {
    tries(&rt, rt.alloc(), 6);
}

#[test]
fn a_first_message_of_8_n_and_7_octets_is_broken(rt: HostRuntime) {
    tries(&rt, rt.alloc(), 7);
}

//! The content of a head and of frames, as built by another program, whose sums are those of sha256sum.
use crate::journals::{BATCHES, END, bad_head, journal_of, outcome, recovers, salt};
use journal::{
    HeadFault, Refused, RequestMessages, put_request, read_all, read_batch, read_frame, read_head,
    recover, write_frame,
};
use std::alloc::{AllocError, Global};
use std::test::Fail;

/// The journal of the tests, in hexadecimal. Its head: the name; number 3; the random octets; the length of the zone text, and its sum; serial
/// 7; the same of the text from which the store was created; the sum of the head. Three frames: the mark, the length of the body, the number,
/// the body, the sum.
const JOURNAL: &str = "\
    646e7364206a6f75726e616c2c20320a\
    0000000000000003\
    7369787465656e206f63746574732e2e\
    0000000000000039\
    ba1bbb4578845c9e8fb94aedf8fae2d7dd4a2540a058fa68f33beef02aadde56\
    00000007\
    000000000000000f\
    278032eeecbdc02092f0ecada9e54ea83a4035196c8e09db8bae8234e8ff7413\
    ce878244bc21dd78da89f89d5abef1e4747d9b23586d6a29c0698d0d2ed5bcc5\
    ce878244bc21dd78\
    00000007\
    0000000000000000\
    00056669727374\
    3d56921a09ef2b876bbf1549b1c9d604e81c4baac3b2f735c68f67b124c0587e\
    ce878244bc21dd78\
    00000010\
    0000000000000001\
    000374776f00097468697264206f6e65\
    644ac73e8b9496cba8ea54d596ced6c28b611acac4d1379909c06ccabdf6c50c\
    ce878244bc21dd78\
    00000008\
    0000000000000002\
    0006666f75727468\
    bf6d4992d8d358fe5759e162378f5b6f9023fc661938bc90b5608e924964d924";

/// The number and the serial of a head, and the lengths of its texts in octets. None if the octets are no head.
fn numbers_in(octets: &[u8]) -> Option<[u64; 4]> {
    let (head, _, _) = read_head(octets).ok()?;
    Some([
        head.number,
        u64::from(head.serial),
        head.text.len,
        head.origin.len,
    ])
}

// A journal is written as the other program wrote it, and is read from its octets.
#[test]
fn as_by_hand(rt: HostRuntime) -> Result<(), Fail> {
    let hand = hex::decode(rt.alloc(), JOURNAL)?;
    let octets = journal_of(rt.alloc(), &BATCHES)?;
    assert_eq!(rt; octets.as_slice(), hand.as_slice());
    assert_eq!(rt; numbers_in(&hand), Some([3, 7, 57, 15]));
    assert_eq!(rt; outcome(rt.alloc(), &hand), recovers(3, END, false));
    Ok(())
}

/// Whether a frame with number 5 is read with its own salt and number, and is not read with another number, with another salt, or as a first
/// frame.
fn reads(alloc: Global) -> Result<[bool; 5], AllocError> {
    let salt = [7; 32];
    let mut octets = write_frame(alloc, &salt, 5, b"a body")?;
    octets.extend_from_slice(b"after")?;
    let (bodies, left) = read_all(alloc, &salt, &mut 0, &octets)?;
    let own = (b"a body".as_slice(), b"after".as_slice());
    Ok([
        read_frame(&salt, &mut 0, 5, &octets) == Some(own),
        read_frame(&salt, &mut 0, 4, &octets).is_none(),
        read_frame(&salt, &mut 0, 6, &octets).is_none(),
        read_frame(&[8; 32], &mut 0, 5, &octets).is_none(),
        bodies.is_empty() && left.len() == octets.len(),
    ])
}

#[test]
fn one_salt_and_number(rt: HostRuntime) -> Result<(), AllocError> {
    assert_eq!(rt; reads(rt.alloc())?, [true; 5]);
    Ok(())
}

/// The journal with one more frame, whose body is no batch: its second update has fewer octets than its length says.
fn with_no_batch(alloc: Global) -> Result<Vec<u8>, AllocError> {
    let mut octets = journal_of(alloc, &BATCHES)?;
    let salt = salt(alloc)?;
    let mut body = Vec::new(alloc);
    if let Some(whole) = RequestMessages::copied(alloc, &[b"whole"])? {
        put_request(alloc, &mut body, &whole)?;
    }
    body.extend_from_slice(&[0, 6, b's', b'h', b'o', b'r', b't'])?;
    if body.len() < 1 << 24 {
        octets.extend_from_slice(&write_frame(alloc, &salt, 3, &body)?)?;
    }
    Ok(octets)
}

// Such a journal, a journal with another zone text, and octets that are no journal.
#[test]
fn refused_by_name(rt: HostRuntime) -> Result<(), AllocError> {
    let octets = with_no_batch(rt.alloc())?;
    let other = recover(rt.alloc(), b"other", &octets);
    assert!(rt; matches!(&other, Err(Refused::OtherText)));
    let refused = [
        outcome(rt.alloc(), &octets),
        outcome(rt.alloc(), &[0; 200]),
        outcome(rt.alloc(), b"dnsd journal, 2\n"),
    ];
    let wanted = [
        Err(Refused::NoBatch(3)),
        bad_head(HeadFault::Foreign),
        bad_head(HeadFault::Short),
    ];
    assert_eq!(rt; refused, wanted);
    Ok(())
}

// If memory allocation fails, exactly this is reported.
#[test]
fn memory_is_refused(rt: HostRuntime) {
    if let Ok(octets) = journal_of(rt.alloc(), &BATCHES) {
        let outcome = outcome(rt.alloc(), &octets);
        assert!(rt; outcome == recovers(3, END, false) || outcome == Err(Refused::NoMemory));
    }
}

/// The octets of a batch of two requests: the first has two messages, the second one.
const JOINED: &[u8] = b"\x00\x03one\x00\x00\x00\x03two\x00\x05third";

/// Whether the octets of a batch are read as these two requests.
fn are_joined(requests: &[Vec<&[u8]>]) -> bool {
    match requests {
        [first, second] => {
            first.as_slice() == [b"one".as_slice(), b"two".as_slice()].as_slice()
                && second.as_slice() == [b"third".as_slice()].as_slice()
        }
        _ => false,
    }
}

// A request of two messages has no octets, after their number, between them; and it is read as one request.
#[test]
fn joined_messages(rt: HostRuntime) -> Result<(), Fail> {
    let alloc = rt.alloc();
    let mut batch = Vec::new(alloc);
    for messages in [
        [b"one".as_slice(), b"two".as_slice()].as_slice(),
        [b"third".as_slice()].as_slice(),
    ] {
        match RequestMessages::copied(alloc, messages)? {
            Some(request) => put_request(alloc, &mut batch, &request)?,
            None => return Err(Fail::from("a request can't stand in a batch")),
        }
    }
    assert_eq!(rt; batch.as_slice(), JOINED);
    let read = read_batch(alloc, JOINED)?;
    assert!(rt; read.is_some_and(|requests| are_joined(requests.as_slice())));
    Ok(())
}

// No octets at the start of a batch, at its end, or twice are no batch; nor are messages without octets.
#[test]
fn joints_at_wrong_places(rt: HostRuntime) -> Result<(), AllocError> {
    let alloc = rt.alloc();
    for octets in [
        b"\x00\x00\x00\x03one".as_slice(),
        b"\x00\x03one\x00\x00".as_slice(),
        b"\x00\x03one\x00\x00\x00\x00\x00\x03two".as_slice(),
        b"\x00\x03one\x00".as_slice(),
    ] {
        assert!(rt; read_batch(alloc, octets)?.is_none());
    }
    assert!(rt; RequestMessages::copied(alloc, &[b"one".as_slice(), b"".as_slice()])?.is_none());
    assert!(rt; RequestMessages::copied(alloc, &[])?.is_none());
    Ok(())
}

//! Journals with flipped bits, journals that are cut short, and journals whose frames are out of place.
use crate::journals::{
    BATCHES, END, FIRST, Found, HEAD, LAST, bad_head, journal_of, outcome, recovers,
};
use journal::{HeadFault, Refused};
use std::alloc::{AllocError, Global};

/// The expected result if bits of the octet at `at` are flipped. In the head, the fault of the head is reported. In a batch before another one
/// it is damage, reported at the octet where the next whole frame starts. In the last batch the result is as after a crash.
fn of_turned(at: usize) -> Result<Found, Refused> {
    match at {
        0..16 => bad_head(HeadFault::Foreign),
        16..HEAD => bad_head(HeadFault::WrongSum),
        HEAD..FIRST => Err(Refused::Damaged(FIRST)),
        FIRST..LAST => Err(Refused::Damaged(LAST)),
        _ => recovers(2, LAST, true),
    }
}

/// Flips bits of an octet.
fn turn(octets: &mut [u8], at: usize, bits: u8) {
    if let Some(octet) = octets.get_mut(at) {
        *octet ^= bits;
    }
}

/// The first octet of the journal for which the result is another one, if one bit of it, or each bit, is flipped.
fn first_wrong_turn(alloc: Global, octets: &mut [u8]) -> Option<usize> {
    for at in 0..END {
        for bits in [1, 2, 4, 8, 16, 32, 64, 128, 255] {
            turn(octets, at, bits);
            if outcome(alloc, octets) != of_turned(at) {
                return Some(at);
            }
            turn(octets, at, bits);
        }
    }
    None
}

#[test]
fn each_octet_turned(rt: HostRuntime) -> Result<(), AllocError> {
    let mut octets = journal_of(rt.alloc(), &BATCHES)?;
    assert_eq!(rt; first_wrong_turn(rt.alloc(), &mut octets), None);
    Ok(())
}

/// The expected result of the first `len` octets. Within the head they are too short. Otherwise the whole batches are recovered, and the octets
/// after them are torn.
fn of_cut(len: usize) -> Result<Found, Refused> {
    let mut wanted = bad_head(HeadFault::Short);
    for (number, end) in [(0, HEAD), (1, FIRST), (2, LAST), (3, END)] {
        if end <= len {
            wanted = recovers(number, end, len > end);
        }
    }
    wanted
}

/// The first length of the journal for which the result is another one.
fn first_wrong_cut(alloc: Global, octets: &[u8]) -> Option<usize> {
    for len in 0..=octets.len() {
        if outcome(alloc, &octets[..len]) != of_cut(len) {
            return Some(len);
        }
    }
    None
}

#[test]
fn each_length(rt: HostRuntime) -> Result<(), AllocError> {
    let octets = journal_of(rt.alloc(), &BATCHES)?;
    assert_eq!(rt; first_wrong_cut(rt.alloc(), &octets), None);
    assert_eq!(rt; octets.len(), END);
    Ok(())
}

/// The mark of the journal's frames, and its first seven octets.
const MARK: [u8; 8] = [0xce, 0x87, 0x82, 0x44, 0xbc, 0x21, 0xdd, 0x78];

const FRONT: [u8; 7] = [0xce, 0x87, 0x82, 0x44, 0xbc, 0x21, 0xdd];

/// Lengths of a body: 16 octets, and 17.
const SIZE: [u8; 4] = [0, 0, 0, 16];

const LONG: [u8; 4] = [0, 0, 0, 17];

/// The number of the next frame, and a later one.
const NEXT: [u8; 8] = [0, 0, 0, 0, 0, 0, 0, 3];

const LATER: [u8; 8] = [0, 0, 0, 0, 0, 0, 0, 4];

/// The number of octets of a body of 16 and its sum without a mark, and one more.
const NEAR: [u8; 40] = [0; 40];

const FAR: [u8; 41] = [0; 41];

/// The result of a start from parts of a journal, one after another.
fn told_of(alloc: Global, parts: &[&[u8]]) -> Result<Found, Refused> {
    let mut octets = Vec::new(alloc);
    for part in parts {
        octets.extend_from_slice(part)?;
    }
    outcome(alloc, &octets)
}

/// The index of the first case with another result. Zeros after the last batch are no damage, and other octets after it are torn. A batch that
/// is left out before another one is damage. If the first batch occurs again, it is torn, since its number is not later.
fn first_wrong_part(alloc: Global, octets: &[u8]) -> Option<usize> {
    let (Some(front), Some(first), Some(last)) = (
        octets.get(..FIRST),
        octets.get(HEAD..FIRST),
        octets.get(LAST..),
    ) else {
        return Some(0);
    };
    let cases: [(&[&[u8]], Result<Found, Refused>); 4] = [
        (&[octets, &[0; 100]], recovers(3, END, false)),
        (&[octets, &[0; 100], b"x"], recovers(3, END, true)),
        (&[front, last], Err(Refused::Damaged(FIRST))),
        (&[octets, first], recovers(3, END, true)),
    ];
    for (at, (parts, wanted)) in cases.iter().enumerate() {
        if told_of(alloc, parts) != *wanted {
            return Some(at);
        }
    }
    None
}

/// The index of the first case with another result. After the last batch a frame starts, with the mark, a length and a number. If its other
/// octets have the mark again, it is damage, provided that the number is later. It is no damage if there is no second mark in the frame, or
/// only a part of it, since the sum is wrong; nor if the number is the next one, or if the first mark or the frame is incomplete.
fn first_wrong_mark(alloc: Global, octets: &[u8]) -> Option<usize> {
    let cases: [(&[&[u8]], Result<Found, Refused>); 7] = [
        (
            &[octets, &MARK, &SIZE, &LATER, &NEAR, &MARK],
            Err(Refused::Damaged(END)),
        ),
        (
            &[octets, b"y", &MARK, &SIZE, &LATER, &MARK, &NEAR],
            Err(Refused::Damaged(END + 1)),
        ),
        (
            &[octets, &MARK, &SIZE, &LATER, &NEAR, &FRONT, b"y"],
            recovers(3, END, true),
        ),
        (
            &[octets, &MARK, &SIZE, &LATER, &FAR, &MARK],
            recovers(3, END, true),
        ),
        (
            &[octets, &MARK, &SIZE, &NEXT, &NEAR, &MARK],
            recovers(3, END, true),
        ),
        (
            &[octets, &FRONT, b"y", &SIZE, &LATER, &NEAR, &MARK],
            recovers(3, END, true),
        ),
        (
            &[octets, &MARK, &LONG, &LATER, &NEAR, &MARK],
            recovers(3, END, true),
        ),
    ];
    for (at, (parts, wanted)) in cases.iter().enumerate() {
        if told_of(alloc, parts) != *wanted {
            return Some(at);
        }
    }
    None
}

#[test]
fn marks_after_the_last_batch(rt: HostRuntime) -> Result<(), AllocError> {
    let octets = journal_of(rt.alloc(), &BATCHES)?;
    assert_eq!(rt; first_wrong_mark(rt.alloc(), &octets), None);
    Ok(())
}

#[test]
fn octets_after_the_last_batch_and_frames_out_of_place(rt: HostRuntime) -> Result<(), AllocError> {
    let octets = journal_of(rt.alloc(), &BATCHES)?;
    assert_eq!(rt; first_wrong_part(rt.alloc(), &octets), None);
    Ok(())
}

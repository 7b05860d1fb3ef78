//! NOTIFYs in octets, written by hand after RFC 1996 and RFC 1035, 4.1.
use crate::made::{NAMES, zone_of};
use notify::{MAX_NOTIFY, write_notify};
use std::alloc::Global;

/// The NOTIFY of `example.test.`, ID 1234 and serial 1: AA 1, one question, one answer.
const SHORT: &str =
    "123424000001000100000000076578616d706c6504746573740000060001c00c0006000100000e100022036e7331c00c0561646d696ec00c0000000100001c2000000384001275000000012c";

/// An apex of 255 octets.
const LONG: &str =
    "aaaaaaaaaaaaaaaaaaaaaaaaaaaaaaaaaaaaaaaaaaaaaaaaaaaaaaaaaaaaaaa.bbbbbbbbbbbbbbbbbbbbbbbbbbbbbbbbbbbbbbbbbbbbbbbbbbbbbbbbbbbbbbb.ccccccccccccccccccccccccccccccccccccccccccccccccccccccccccccccc.ddddddddddddddddddddddddddddddddddddddddddddddddddddddddddddd.";

/// A server's name of 208 octets, with which an SOA at [`LONG`] just fits, and one of an octet more.
const FITS: &str =
    "eeeeeeeeeeeeeeeeeeeeeeeeeeeeeeeeeeeeeeeeeeeeeeeeeeeeeeeeeeeeeee.fffffffffffffffffffffffffffffffffffffffffffffffffffffffffffffff.ggggggggggggggggggggggggggggggggggggggggggggggggggggggggggggggg.hhhhhhhhhhhhhh.";

const IS_LONGER: &str =
    "eeeeeeeeeeeeeeeeeeeeeeeeeeeeeeeeeeeeeeeeeeeeeeeeeeeeeeeeeeeeeee.fffffffffffffffffffffffffffffffffffffffffffffffffffffffffffffff.ggggggggggggggggggggggggggggggggggggggggggggggggggggggggggggggg.hhhhhhhhhhhhhhh.";

/// A zone's names, an ID, the octets with which the NOTIFY of serial 1 begins, in hexadecimal, and how many it has: 512 at most (RFC 1035, 4.2.1), and where the SOA
/// doesn't fit, the answer section is empty (RFC 1996, 3.7).
const ROWS: [([&str; 3], u16, &str, usize); 3] = [
    (NAMES, 0x1234, SHORT, 76),
    ([LONG, FITS, "."], 1, "000124000001000100000000", 512),
    ([LONG, IS_LONGER, "."], 1, "000124000001000000000000", 271),
];

/// Whether the NOTIFY of a zone at serial 1 has so many octets and begins with these; None where there is no memory.
fn is_written(
    alloc: Global,
    names: &[&str; 3],
    id: u16,
    front: &str,
    count: usize,
) -> Option<bool> {
    let zone = zone_of(alloc, names, 1)?;
    let front = hex::decode(alloc, front.as_bytes()).ok()?;
    let mut out = [0xffu8; MAX_NOTIFY];
    let len = write_notify(&zone, id, &mut out);
    Some(len == count && out.starts_with(&front))
}

#[test]
fn octets(rt: HostRuntime) {
    for (names, id, front, count) in ROWS {
        let outcome = is_written(rt.alloc(), &names, id, front, count);
        assert!(rt; outcome == Some(true), "of {count}");
    }
}

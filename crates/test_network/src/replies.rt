//! Which octets answer a NOTIFY (RFC 1996, 3.3, 3.6 and 3.12).
use crate::made::name;
use notify::is_answer;
use std::alloc::Global;

/// Octets, and whether they answer the NOTIFY of ID 1234 for `example.test.`.
const REPLIES: [(&str, &str, bool); 17] = [
    (
        "the whole reply of a secondary",
        "1234a4000001000000000000076578616d706c6504746573740000060001",
        true,
    ),
    (
        "with an answer, and in another case",
        "1234a4000001000100000000074558414d504c6504746573740000060001c00c0006000100000e10",
        true,
    ),
    (
        "AA 0",
        "1234a0000001000000000000076578616d706c6504746573740000060001",
        true,
    ),
    ("the header alone, NOTIMP", "1234a0040000000000000000", true),
    (
        "the header alone, REFUSED",
        "1234a0050000000000000000",
        true,
    ),
    (
        "NOTAUTH with the question",
        "1234a0090001000000000000076578616d706c6504746573740000060001",
        true,
    ),
    (
        "another ID",
        "1235a4000001000000000000076578616d706c6504746573740000060001",
        false,
    ),
    (
        "an ID whose upper octet differs",
        "0234a4000001000000000000076578616d706c6504746573740000060001",
        false,
    ),
    (
        "QR 0: our own NOTIFY",
        "123424000001000000000000076578616d706c6504746573740000060001",
        false,
    ),
    (
        "OPCODE QUERY",
        "123484000001000000000000076578616d706c6504746573740000060001",
        false,
    ),
    (
        "OPCODE UPDATE",
        "1234a8000001000000000000076578616d706c6504746573740000060001",
        false,
    ),
    (
        "OPCODE 12",
        "1234e4000001000000000000076578616d706c6504746573740000060001",
        false,
    ),
    ("eleven octets", "1234a400000100000000", false),
    ("no octets", "", false),
    (
        "another name",
        "1234a4000001000000000000076578616d706c6504746573750000060001",
        false,
    ),
    (
        "a question that ends inside its name",
        "1234a4000001000000000000076578616d70",
        false,
    ),
    (
        "a question whose name is a loop",
        "1234a4000001000000000000c00c00060001",
        false,
    ),
];

/// Whether octets in hexadecimal answer the NOTIFY.
fn answers(alloc: Global, text: &str) -> Option<bool> {
    let octets = hex::decode(alloc, text.as_bytes()).ok()?;
    let apex = name("example.test.")?;
    Some(is_answer(&apex, 0x1234, &octets))
}

#[test]
fn replies(rt: HostRuntime) {
    for (outcome, text, want) in REPLIES {
        assert!(rt; answers(rt.alloc(), text) == Some(want), "{outcome}");
    }
}

//! Devices that fail.
use crate::made::{Device, Kind, ZONE, run_over, text_of};
use std::alloc::Global;

/// A command, what stands after the zone, and what is written for it: a query and its reply, and the same in a script.
const CASES: [(Kind, &str, &str); 2] = [
    (
        Kind::Answer,
        "%\n12340100000100000000000003777777076578616d706c6504746573740000010001\n",
        "12348500000100020000000003777777076578616d706c6504746573740000010001c00c0005000100000e10000603776562c010c02e0001000100000e100004c000020a\n",
    ),
    (
        Kind::Steps,
        "%\nload a\nask a 12340100000100000000000003777777076578616d706c6504746573740000010001\n",
        "a 0\n12348500000100020000000003777777076578616d706c6504746573740000010001c00c0005000100000e10000603776562c010c02e0001000100000e100004c000020a\n",
    ),
];

/// How many octets of the output a device doesn't take, whether it can be flushed, and the status: a command is done where its output was
/// flushed, and else that is a fault of the device.
const ENDS: [(usize, bool, u8); 3] = [(0, true, 0), (0, false, 3), (1, true, 3)];

/// The status of a case with such a device; None where it wrote something else than the device takes, or told no fault, or one that is none.
fn status_of(
    alloc: Global,
    case: (Kind, &'static str, &str),
    missing: usize,
    flushes: bool,
) -> Option<u8> {
    let text = text_of(alloc, (ZONE, 0, case.1)).ok()?;
    let part = case
        .2
        .as_bytes()
        .get(..case.2.len().saturating_sub(missing))?;
    let output = Device::new(alloc, part.len(), flushes);
    let errors = Device::new(alloc, 1000, true);
    let result = run_over(alloc, case.0, text.as_str().as_bytes(), output, errors)?;
    if result.written.as_slice() != part || result.errors.is_empty() != (result.status == 0) {
        return None;
    }
    Some(result.status)
}

#[test]
fn devices(rt: HostRuntime) {
    for case in CASES {
        for (missing, flushes, status) in ENDS {
            assert!(rt; status_of(rt.alloc(), case, missing, flushes) == Some(status));
        }
    }
}

/// What is told of a text without records.
const NOTHING: &[u8] = b"line 0: M11 Apex\nthe zone has no SOA, or no NS at the owner of its SOA\n";

/// The status of a refusal where the device of errors has so much room; None where some of it is left.
fn status_unreported(alloc: Global, room: usize) -> Option<u8> {
    let output = Device::new(alloc, 0, true);
    let errors = Device::new(alloc, room, true);
    let result = run_over(alloc, Kind::Steps, b"%\n", output, errors)?;
    if Some(result.errors.as_slice()) != NOTHING.get(..room) {
        return None;
    }
    Some(result.status)
}

// A refusal that can't be told is a device's fault.
#[test]
fn unreported_refusal(rt: HostRuntime) {
    for (room, want) in [(71, 1), (70, 3), (17, 3), (16, 3), (0, 3)] {
        assert_eq!(rt; status_unreported(rt.alloc(), room), Some(want));
    }
}

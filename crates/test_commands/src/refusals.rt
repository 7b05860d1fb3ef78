//! Runs where memory is refused: with one request refused, whichever it is, the run says so, and the other of two is as ever;
//! with two in a row refused, one of three.
use crate::made::{CommandResult, Device, Kind, Parts, ZONE, run_over, text_of};
use dns_name::Name;
use master_file::{read_zone, write_zone};
use std::alloc::Global;

/// What a command over a text tells.
#[derive(Clone, Copy)]
struct Case {
    kind: Kind,
    text: Parts,
    /// What it writes; its text, where this is none.
    writes: Option<&'static str>,
    /// What it writes where there is no memory for an update, if it has one.
    without: Option<&'static str>,
    /// What begins what it says where it is refused; nothing where it isn't.
    says: &'static str,
}

/// A command that writes its own text.
const ITSELF: Case = Case {
    kind: Kind::Check,
    text: (SETS, 0, ""),
    writes: None,
    without: None,
    says: "",
};

/// A zone that is refused.
const FAULTY: Case = Case {
    writes: Some(""),
    ..ITSELF
};

/// Whether a run had no memory, said so, and wrote a part of what it writes at most, or all that it writes without an update.
fn is_starved(ended: &CommandResult, writes: &str, without: Option<&str>) -> bool {
    let errors = ended.errors.as_slice();
    let says = ended.status == 3
        || errors.starts_with(b"line 0: M14 NoMemory\n")
        || errors.starts_with(b"V1 NoMemory\n")
        || errors.starts_with(b"X4 NoMemory\n");
    if says {
        return writes.as_bytes().starts_with(&ended.written);
    }
    match without {
        Some(text) => ended.status == 0 && ended.written.as_slice() == text.as_bytes(),
        None => false,
    }
}

/// Whether a run of a case tells what it has to; None where it, or the test itself, had no memory.
fn run(alloc: Global, case: &Case) -> Option<bool> {
    let text = text_of(alloc, case.text).ok()?;
    let writes = case.writes.unwrap_or(text.as_str());
    let output = Device::new(alloc, usize::MAX, true);
    let errors = Device::new(alloc, usize::MAX, true);
    let result = run_over(alloc, case.kind, text.as_str().as_bytes(), output, errors)?;
    let is_refused = !case.says.is_empty();
    if result.status == u8::from(is_refused)
        && result.errors.as_slice().starts_with(case.says.as_bytes())
        && result.written.as_slice() == writes.as_bytes()
    {
        return Some(true);
    }
    if is_starved(&result, writes, case.without) {
        return None;
    }
    Some(false)
}

/// Whether of so many runs one is whole, and none wrong.
fn goes_on(alloc: Global, runs: u8, case: &Case) -> bool {
    let mut is_whole = false;
    for _ in 0..runs {
        match run(alloc, case) {
            Some(true) => is_whole = true,
            Some(false) => return false,
            None => {}
        }
    }
    is_whole
}

/// A query, an update that adds an address at `new`, and the query for it.
const REQUESTS: &str = "%\n\
    12340100000100000000000003776562076578616d706c6504746573740000010001\n\
    432128000001000000010000076578616d706c6504746573740000060001036e6577c00c0001000100000e100004c000024d\n\
    123401000001000000000000036e6577076578616d706c6504746573740000010001\n";

/// What is written where the update is taken, and where there is no memory for it.
const UPDATED: &str = "\
    12348500000100010000000003776562076578616d706c6504746573740000010001c00c0001000100000e100004c000020a\n\
    4321a8000000000000000000\n\
    123485000001000100000000036e6577076578616d706c6504746573740000010001c00c0001000100000e100004c000024d\n";

const REFUSED: &str = "\
    12348500000100010000000003776562076578616d706c6504746573740000010001c00c0001000100000e100004c000020a\n\
    4321a8020000000000000000\n\
    123485030001000000010000036e6577076578616d706c6504746573740000010001c010000600010000012c0022036e7331c0100561646d696ec0100000000100001c2000000384001275000000012c\n";

/// A zone with a set of two records and one of two strings.
const SETS: &str = "\
    t. 60 IN SOA a.t. b.t. 1 2 3 4 5\n\
    t. 60 IN NS a.t.\n\
    a.t. 60 IN A 192.0.2.1\n\
    a.t. 60 IN A 192.0.2.2\n\
    b.t. 60 IN TXT \"x\" \"y\"\n";

/// A script, and what is written for it.
const SCRIPT: &str = "%\nload a\nask a 00\ndrop a\n";

const OF_SCRIPT: &str = "a 0\n-\nleft\n";

/// A transfer of another zone in whole, of the next serial (RFC 5936, 2.2), and that zone.
const TRANSFER: &str = "%\n12348400000100040000000001740000fc0001\
    c00c000600010000003c001e016101740001620174000000000200000002000000030000000400000005\
    c00c000200010000003c00050161017400\
    0161c00c000100010000003c0004c0000201\
    c00c000600010000003c001e016101740001620174000000000200000002000000030000000400000005\n";

const TRANSFERRED: &str = "\
    t. 60 IN SOA a.t. b.t. 2 2 3 4 5\n\
    t. 60 IN NS a.t.\n\
    a.t. 60 IN A 192.0.2.1\n";

/// Requests, a script and a transfer; a zone; and the faults of an entry, told for want of an SOA or an NS, outside, and sought by halves,
/// of which the last is a record too many, at the line of the 257th.
const CASES: [Case; 9] = [
    Case {
        kind: Kind::Answer,
        text: (ZONE, 0, REQUESTS),
        writes: Some(UPDATED),
        without: Some(REFUSED),
        ..ITSELF
    },
    Case {
        kind: Kind::Steps,
        text: (ZONE, 0, SCRIPT),
        writes: Some(OF_SCRIPT),
        ..ITSELF
    },
    Case {
        kind: Kind::Apply,
        text: (SETS, 0, TRANSFER),
        writes: Some(TRANSFERRED),
        ..ITSELF
    },
    ITSELF,
    Case {
        text: ("t. 6 NS a.t.\n\nt. 6 A 1.2.3\n", 0, ""),
        says: "line 3: M6 BadData\n",
        ..FAULTY
    },
    Case {
        text: (
            "t. 6 SOA a.t. b.t. 1 2 3 4 5\nt. 6 SOA a.t. b.t. 2 2 3 4 5\n",
            0,
            "",
        ),
        says: "line 2: M11 Apex\n",
        ..FAULTY
    },
    Case {
        text: (
            "t. 6 SOA a.t. b.t. 1 2 3 4 5\nt. 6 NS a.t.\na. 6 NS a.t.\n",
            0,
            "",
        ),
        says: "line 3: M10 Outside\n",
        ..FAULTY
    },
    Case {
        text: (
            "t. 6 SOA a.t. b.t. 1 2 3 4 5\nt. 6 NS a.t.\n*.t. 6 NS a.t.\n",
            0,
            "",
        ),
        says: "line 3: M12 Conflict\n",
        ..FAULTY
    },
    Case {
        text: ("", 257, ""),
        says: "line 257: M13 Limit\n",
        ..FAULTY
    },
];

#[test]
fn commands_go_on_where_memory_is_refused(rt: HostRuntime) {
    for (at, case) in CASES.iter().enumerate() {
        assert!(rt; goes_on(rt.alloc(), 2, case), "{at}");
    }
}

/// A set of 256 records.
const FILLED: Case = Case {
    text: (
        "t. 6 IN SOA a.t. b.t. 1 2 3 4 5\n",
        256,
        "t. 6 IN NS a.t.\n",
    ),
    ..ITSELF
};

// A growth of a set of 256 records isn't told as one record too many where it is refused and tried again, and refused again.
#[test]
fn fills_a_set_where_memory_is_refused_twice(rt: HostRuntime) {
    assert!(rt; goes_on(rt.alloc(), 3, &FILLED));
}

/// Whether a text is read as a zone and written as it was; None where there is no memory.
fn is_rewritten(alloc: Global, text: &str) -> Option<bool> {
    let zone = read_zone(alloc, text.as_bytes(), &Name::root()).ok()?;
    let written = write_zone(alloc, &zone).ok()?;
    Some(written.as_str() == text)
}

#[test]
fn writes_a_zone_where_memory_is_refused(rt: HostRuntime) {
    let first = is_rewritten(rt.alloc(), SETS);
    let second = is_rewritten(rt.alloc(), SETS);
    assert!(rt; first.or(second) == Some(true) && second.or(first) == Some(true));
}

//! A small zone through each call, and lists that are no zone.
use crate::made::{gives, name, sets_of, zone_anew};
use dns_rdata::RType;
use std::alloc::Global;
use std::fmt::Display;
use zone_tree::{BrokenRule, NewFault, Zone, ZoneFault, ZoneRead};

// With one request for memory refused, whichever it is, the zone is made anew.
#[test]
fn is_made_anew_where_memory_is_refused(rt: HostRuntime) {
    let zone = zone_anew(rt.alloc(), "@ NS, @ SOA, a TXT, b A").expect(&rt, "a zone");
    assert_eq!(rt; gives(zone.walk(), "@ NS, @ SOA, a TXT, b A"), Some(true));
}

/// A zone, and for names and types what it has from there on.
const SETS: &str = "@ NS, @ SOA, a A, a MX, a TXT, c A, c AAAA";

const FROM: [(&str, RType, &str); 9] = [
    (".", RType(0), SETS),
    ("@", RType::SOA, "@ SOA, a A, a MX, a TXT, c A, c AAAA"),
    ("a", RType::A, "a A, a MX, a TXT, c A, c AAAA"),
    ("A", RType::CNAME, "a MX, a TXT, c A, c AAAA"),
    ("a", RType::TXT, "a TXT, c A, c AAAA"),
    ("a", RType::AAAA, "c A, c AAAA"),
    ("b", RType::TXT, "c A, c AAAA"),
    ("c", RType::AAAA, "c AAAA"),
    ("x.c", RType(0), ""),
];

/// Whether a zone has these rows from a name and a type on.
fn has_from(zone: &Zone, owner: &str, rtype: RType, rows: &str) -> Option<bool> {
    gives(zone.walk_from(&name(owner)?, rtype), rows)
}

// RFC 4034, 6.1: by owner, then type; from one that isn't there on what stands after it.
#[test]
fn walks_from(rt: HostRuntime) {
    let zone = zone_anew(rt.alloc(), SETS).expect(&rt, "a zone");
    for (owner, rtype, rows) in FROM {
        assert_eq!(rt; has_from(&zone, owner, rtype, rows), Some(true));
    }
}

/// Rows that are no zone, and the rule that is told. The last breaks several: an owner outside, no NS at the apex, and an
/// NS at an asterisk.
const REFUSED: &str = "\
@ SOA, @ NS: Z2 NotAscending\n\
@ NS, @ SOA, @ SOA: Z2 NotAscending\n\
: Z3 NoSoa\n\
@ NS: Z3 NoSoa\n\
@ NS, @ SOA, www SOA: Z4 SecondSoa\n\
. NS, @ NS, @ SOA: Z5 Outside\n\
@ SOA, www A: Z6 NoNameServer\n\
@ NS, @ SOA, www A, www CNAME: Z7 AliasNotAlone\n\
@ NS, @ SOA, @ CNAME: Z2 NotAscending\n\
@ NS, @ SOA, * NS: Z8 WildCut\n\
. A, @ SOA, * NS: Z5 Outside\n";

/// Whether a fault is printed so.
fn is_printed<D: Display>(alloc: Global, fault: &D, want: &str) -> bool {
    match format!(in alloc; "{fault}") {
        Ok(text) => text.as_str() == want,
        Err(_) => false,
    }
}

/// Whether a row's sets are refused by the rule that it names.
fn is_refused(alloc: Global, row: &str) -> Option<bool> {
    let (rows, word) = row.split_once(": ")?;
    match Zone::new(alloc, sets_of(alloc, rows)?) {
        Ok(_zone) => Some(false),
        Err(fault) => Some(is_printed(alloc, &fault, word)),
    }
}

// Each rule broken, and which is told.
#[test]
fn refuses(rt: HostRuntime) {
    for row in REFUSED.lines() {
        assert_eq!(rt; is_refused(rt.alloc(), row), Some(true), "{row}");
    }
}

// The printed text of the faults that no row has.
#[test]
fn faults(rt: HostRuntime) {
    let many = NewFault::Broken(BrokenRule::TooManyRecords);
    assert!(rt; is_printed(rt.alloc(), &many, "Z1 TooManyRecords"));
    assert!(rt; is_printed(rt.alloc(), &NewFault::NoMemory, "NoMemory"));
    assert!(rt; is_printed(rt.alloc(), &ZoneFault::NoMemory, "B1 NoMemory"));
    assert!(rt; is_printed(rt.alloc(), &ZoneFault::Limit, "B2 Limit"));
}

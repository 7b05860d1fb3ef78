//! Which names are the same, which come first, and which are under which.
use crate::made::{name, stored};
use dns_name::{Name, SoughtName, StoredName};
use dns_rdata::LentName;
use std::alloc::Global;
use std::cmp::Ordering;

/// The names of RFC 4034, 6.1, in their order, with the root in front, octets that are stored as two, and a name of more octets
/// than a stored name has without memory of its own.
const ASCENDING: [&[u8]; 15] = [
    b".",
    b"example",
    b"a.example",
    b"yljkjljk.a.example",
    b"Z.a.example",
    b"zABC.a.EXAMPLE",
    b"z.example",
    b"\\000.z.example",
    b"\\000\\001.z.example",
    b"\\001.z.example",
    b"\\001\\000.z.example",
    b"\\002.z.example",
    b"*.z.example",
    b"A-label-of-more-than-thirty-octets.z.example",
    b"\\200.z.example",
];

/// Whether a stored name is the same as a name, and reads as that in lower case.
fn is_kept(kept: &StoredName, name: &Name) -> bool {
    kept.order(name).is_eq() && kept.to_name().wire() == name.fold().wire()
}

/// Whether the name of one text comes before that of another, by each call that orders names.
fn is_ascending(alloc: Global, first: &[u8], second: &[u8]) -> Option<bool> {
    let (before, after) = (name(first), name(second));
    let (kept, next) = (stored(alloc, &before)?, stored(alloc, &after)?);
    let orders = [
        before.cmp(&after),
        before.order(&after),
        kept.cmp(&next),
        kept.order(&after),
        SoughtName::new(&before).order(&next),
    ];
    Some(orders == [Ordering::Less; 5] && kept != next && is_kept(&next, &after))
}

/// The first of the names that doesn't come after the one before it.
fn out_of_order(alloc: Global) -> Option<&'static [u8]> {
    let mut last = ASCENDING[0];
    for text in &ASCENDING[1..] {
        if is_ascending(alloc, last, text) != Some(true) {
            return Some(text);
        }
        last = text;
    }
    None
}

/// Names, and whether they are the same: those that differ in case alone are, and an escape stands for its octet (RFC 4343, 2.1
/// and 3).
const CASES: [(&[u8], &[u8], bool); 5] = [
    (b"Foo.ExamPLE.net.", b"foo.example.NET.", true),
    (
        b"69.2.0.192.in-addr.arpa.",
        b"69.2.0.192.IN-ADDR.arpa.",
        true,
    ),
    (b"\\097.", b"A.", true),
    (b"[.", b"{.", false),
    (b"a.b.", b"a\\.b.", false),
];

/// Whether the names of two texts are the same, by each call that tells it.
fn are_same(first: &[u8], second: &[u8]) -> Option<[bool; 4]> {
    let (own, other) = (name(first), name(second));
    let lent = LentName::spelt(&other);
    Some([
        own == other,
        own.fold().wire() == other.fold().wire(),
        own.is_spelt_by(lent.octets()?),
        lent.is_same(&own),
    ])
}

/// The first of these names that is told otherwise.
fn wrong_case() -> Option<&'static [u8]> {
    for (first, second, same) in CASES {
        if are_same(first, second) != Some([same; 4]) {
            return Some(first);
        }
    }
    None
}

/// Names, and whether `www.Example.` is under each, by whole labels (RFC 1034, 3.1).
const ABOVE: [(&[u8], bool); 6] = [
    (b".", true),
    (b"EXAMPLE.", true),
    (b"www.example.", true),
    (b"w.example.", false),
    (b"a.www.example.", false),
    (b"ample.", false),
];

/// Whether a name is under that of a text, by each call that tells it.
fn is_under(own: &Name, kept: &StoredName, text: &[u8]) -> [bool; 3] {
    let other = name(text);
    [
        own.is_under(&other),
        kept.is_under(&other),
        SoughtName::new(&other).is_above(kept),
    ]
}

/// The first of these names that is told otherwise.
fn wrong_above(alloc: Global) -> Option<&'static [u8]> {
    let own = name(b"www.Example.");
    let kept = stored(alloc, &own)?;
    for (text, under) in ABOVE {
        if is_under(&own, &kept, text) != [under; 3] {
            return Some(text);
        }
    }
    None
}

#[test]
fn same_names_and_names_above(rt: HostRuntime) {
    assert_eq!(rt; wrong_case().or(wrong_above(rt.alloc())), None);
}

// With any one growth refused, a stored name is made anew.
#[test]
fn canonical_order_with_refused_growth(rt: HostRuntime) {
    assert_eq!(rt; out_of_order(rt.alloc()), None);
}

//! Sets of records that grow.
use crate::made::read;
use dns_name::Name;
use dns_rdata::{RRset, RType, SetFault, Ttl};
use std::alloc::Global;

/// The set of one address, made once more where memory was refused.
fn set_of(alloc: Global, octets: [u8; 4]) -> Option<RRset> {
    let owner = Name::root();
    let first = read(alloc, RType::A, &octets).ok()?;
    if let Ok(set) = RRset::new(alloc, &owner, Ttl(60), first) {
        return Some(set);
    }
    let again = read(alloc, RType::A, &octets).ok()?;
    RRset::new(alloc, &owner, Ttl(60), again).ok()
}

/// What the set says to one more address; None where that has no memory.
fn put(alloc: Global, set: &mut RRset, low: u8) -> Option<Result<bool, SetFault>> {
    let data = read(alloc, RType::A, &[10, 0, 0, low]).ok()?;
    if data.rtype() != set.rtype() {
        return None;
    }
    Some(set.insert(data))
}

/// How many addresses a set of one has after nine more, of which each is tried again where there was no memory, and the set was as
/// before; None where one isn't taken.
fn len_with_nine(alloc: Global) -> Option<usize> {
    let mut set = set_of(alloc, [10, 0, 0, 0])?;
    for low in 1..10u8 {
        let mut outcome = put(alloc, &mut set, low);
        if outcome == Some(Err(SetFault::NoMemory)) && set.data().len() == usize::from(low) {
            outcome = put(alloc, &mut set, low);
        }
        if outcome != Some(Ok(true)) {
            return None;
        }
    }
    Some(set.data().len())
}

// With any one growth refused, the fault is NoMemory, the set stays as it was, and the same call works once more.
#[test]
fn refused_growth(rt: HostRuntime) {
    assert_eq!(rt; len_with_nine(rt.alloc()), Some(10));
}

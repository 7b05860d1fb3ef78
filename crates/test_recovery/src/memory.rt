//! Starts when memory allocation fails.
use dns_name::Name;
use journal::TextSum;
use master_file::{Cause, FileFault, read_zone};
use std::alloc::Global;
use std::test::Fail;
use store_recovery::{Choice, Take, choose, create_store};
use zone_tree::Zone;

/// A zone text, with serial 11.
const GIVEN: &[u8] = b"example. 60 IN SOA ns.example. host.example. 11 1 1 1 1
example. 60 IN NS ns.example.
";

/// The zone text of a store, with serial 10.
const LAST: &[u8] = b"example. 60 IN SOA ns.example. host.example. 10 1 1 1 1
example. 60 IN NS ns.example.
";

/// Failed memory allocation, which is reported without a line number.
const NO_MEMORY: FileFault = FileFault {
    line: 0,
    cause: Cause::NoMemory,
};

/// The choice between a store that was created from a text, and the zone text of the tests.
fn choice_of(alloc: Global, begun: &[u8], taken: Option<Take>) -> Result<Choice, FileFault> {
    let begun = TextSum::of(begun);
    let last = read_zone(alloc, LAST, &Name::root())?;
    choose(alloc, &begun, &last, GIVEN, &Name::root(), taken)
}

/// Whether a store of a zone is created as it is with ample memory. None if memory allocation fails.
fn is_begun(alloc: Global, zone: Zone) -> Option<bool> {
    let (text, head) = create_store(alloc, &zone, 2, [7; 16], TextSum::of(GIVEN)).ok()?;
    Some(text.as_bytes() == GIVEN && head.text.is_of(GIVEN) && head.serial == 11)
}

/// Whether a zone is chosen, and a store created of it. None if memory allocation fails.
fn is_zone(alloc: Global, choice: Result<Choice, FileFault>) -> Option<bool> {
    match choice {
        Ok(Choice::Zone(zone)) => is_begun(alloc, zone),
        Ok(other) => {
            drop(other);
            Some(false)
        }
        Err(fault) => (fault != NO_MEMORY).then_some(false),
    }
}

/// Whether the choices of a start, and a new store, are as they are with ample memory. None if memory allocation fails.
fn begun_and_chosen(alloc: Global) -> Option<bool> {
    let same = choice_of(alloc, GIVEN, None);
    let store = choice_of(alloc, b"", Some(Take::Store));
    match (same, store) {
        (Ok(Choice::Same), Ok(Choice::Store)) => is_zone(
            alloc,
            choice_of(alloc, b"", Some(Take::Zone)),
        ),
        (Err(NO_MEMORY), _) | (_, Err(NO_MEMORY)) => None,
        _ => Some(false),
    }
}

// If memory allocation fails, exactly this is reported.
#[test]
fn memory_is_refused(rt: HostRuntime) -> Result<(), Fail> {
    let outcome = begun_and_chosen(rt.alloc());
    assert!(rt; outcome != Some(false));
    Ok(())
}

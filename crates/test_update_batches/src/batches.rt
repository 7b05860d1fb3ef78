//! Batches that are written, or cannot be, and batches where memory is refused.
use crate::cases::{CASES, LASTING, Rest};
use crate::version_list::Outcome;
use std::alloc::Global;
use std::sync::Wait;
use std::test::Fail;

/// The first case that leaves something else than it is to. None if there is none.
fn wrong_case<R: Wait>(rt: &R, alloc: Global) -> Option<&'static str> {
    for case in CASES {
        match case.run(rt, alloc) {
            Some(rest) if case.leaves(&rest) => {}
            _ => return Some(case.name),
        }
    }
    None
}

// The results of updates, what is published, and what a start recovers, where batches last, have no room, fail, or are served to the end of the
// queue.
#[test]
fn updates_are_judged_in_batches(rt: HostRuntime) -> Result<(), Fail> {
    assert_eq!(rt; wrong_case(&rt, rt.alloc()), None);
    Ok(())
}

/// Whether each update of the lasting batch has its result or SERVFAIL, and those with NOERROR have serials that go on from each other; and
/// whether the versions that these make are published, and a start recovers exactly the updates that make them.
fn is_sound(rest: &Rest) -> bool {
    let mut serial = 7u32;
    let mut stored = rest.recovered.iter();
    let mut sound = ids_of(rest.list.results()) == [1, 4, 2, 3, 6];
    for (_, id, code, serials) in rest.list.results() {
        let Some((before, after)) = serials else {
            sound = *code != 0 && sound;
            continue;
        };
        sound = *code == 0 && *before == serial && sound;
        if after != before {
            sound = stored.next() == Some(id) && sound;
        }
        serial = *after;
    }
    let published = serial.wrapping_sub(6) as usize;
    sound
        && stored.next().is_none()
        && rest.list.serial() == serial
        && rest.list.published() == published
}

/// The IDs of five updates.
fn ids_of(results: &[Outcome]) -> [u8; 5] {
    match results {
        [a, b, c, d, e] => [a.1, b.1, c.1, d.1, e.1],
        _ => [0; 5],
    }
}

/// Whether what the lasting batch leaves is sound; None if there is no memory to run it.
fn is_lasting_sound<R: Wait>(rt: &R, alloc: Global) -> Option<bool> {
    Some(is_sound(&LASTING.run(rt, alloc)?))
}

// If any one allocation fails, an update gets SERVFAIL or the batch does, and what is published and recovered is what the others make; or the
// batch isn't begun, and then it is the next time.
#[test]
fn a_batch_where_memory_is_refused(rt: HostRuntime) {
    let sound = match is_lasting_sound(&rt, rt.alloc()) {
        Some(sound) => Some(sound),
        None => is_lasting_sound(&rt, rt.alloc()),
    };
    assert!(rt; sound == Some(true));
}

//! A server that runs out of memory while it starts, runs or ends, and one whose threads cannot all be started.
use crate::ending::{BEGUN, DEVICE, DONE, NOT_STARTED, served_by_two};

// If any one allocation fails, a server ends as expected, or does not start or ends for lack of memory; then another server can start in its
// place.
#[test]
fn a_server_begins_anew_where_memory_is_refused(rt: HostRuntime) {
    let mut sum = served_by_two(&rt, rt.alloc(), 0, false).unwrap_or(NOT_STARTED);
    if sum >= NOT_STARTED && sum < DEVICE {
        sum = served_by_two(&rt, rt.alloc(), 0, false).unwrap_or(NOT_STARTED);
    }
    assert!(rt; sum == BEGUN + 4 * DONE);
}

// If any one thread cannot be started, the others do nothing, all have ended when this is reported, and another server can start in its place.
#[test]
fn a_server_begins_anew_where_a_thread_is_refused(rt: HostRuntime) {
    let mut sum = served_by_two(&rt, rt.alloc(), 0, false).unwrap_or(DEVICE);
    if sum == NOT_STARTED {
        sum = served_by_two(&rt, rt.alloc(), 0, false).unwrap_or(DEVICE);
    }
    assert!(rt; sum == BEGUN + 4 * DONE);
}

//! The time of a monotonic clock in milliseconds.
use std::time::Clock;

/// The time that a clock shows, in milliseconds. 0 where it can't be read.
pub(crate) fn millis_of<C: Clock>(clock: &C) -> u64 {
    match clock.monotonic() {
        Ok(time) => u64::try_from(time.as_millis()).unwrap_or(u64::MAX),
        Err(_) => 0,
    }
}

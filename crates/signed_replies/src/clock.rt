//! The time, by which requests are judged and replies are signed (RFC 8945, 5.2.3).
use std::rt::Clock;
use std::time::{SystemTime, UNIX_EPOCH};

/// A clock. A test has one that stands still.
pub trait UnixClock: Drop {
    /// The seconds since 1970; 0 where the clock can't be read, so that each signed request is out of time.
    fn now(&self) -> u64;
}

/// The system's clock.
#[derive(Drop)]
pub struct SystemClock<'a, R> {
    rt: &'a R,
}

impl<'a, R: Clock> SystemClock<'a, R> {
    /// The clock of a handle.
    pub fn new(rt: &'a R) -> SystemClock<'a, R> {
        SystemClock { rt }
    }
}

impl<'a, R: Clock> UnixClock for SystemClock<'a, R> {
    fn now(&self) -> u64 {
        let Ok(now) = SystemTime::now(self.rt) else {
            return 0;
        };
        match now.duration_since(UNIX_EPOCH) {
            Ok(since) => since.as_secs(),
            Err(_) => 0,
        }
    }
}

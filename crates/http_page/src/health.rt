//! Whether the server is healthy.
ghost use Rattle.std.specs.Prelude.{◌≡◌, ◌++◌, OnOk};
ghost use Rattle.http_page.specs.Health.{health_of, health_text, health_status, first_stuck, is_stuck};

use crate::reply::Status;
use metrics_text::{put_decimal, put_text};
use std::alloc::AllocError;

/// How long a thread may be busy without waiting, in milliseconds (own).
pub const MAX_BUSY: u64 = 10_000;

/// Whether a server is healthy.
#[derive(Clone, Copy, Debug, PartialEq, Eq)]
pub enum Health {
    /// It is.
    Healthy,
    /// It is ending.
    Ending,
    /// The store did not take the last write.
    StoreFailing,
    /// This thread, by its place from 0, does not go round.
    Stuck(usize),
}

/// Whether a server is healthy: whether it isn't ending, the last write of its store succeeded, and each thread goes round. Of each thread
/// `busy_since` has the time in milliseconds at which it waited last, and 2^64 - 1 while it waits.
pub fn health_of(is_ending: bool, is_store_failing: bool, busy_since: &[u64], now: u64) -> Health
    ensures { result ≡ health_of is_ending is_store_failing busy_since.now now }
{
    if is_ending {
        return Health::Ending;
    }
    if is_store_failing {
        return Health::StoreFailing;
    }
    match first_stuck(busy_since, now) {
        Some(place) => Health::Stuck(place),
        None => Health::Healthy,
    }
}

/// The place of the first thread that has been busy for too long.
fn first_stuck(busy_since: &[u64], now: u64) -> Option<usize>
    ensures { result ≡ first_stuck 0 now busy_since.now }
{
    for (place, since) in busy_since.iter().enumerate() {
        if is_stuck(*since, now) {
            return Some(place);
        }
    }
    None
}

/// Whether a thread that has been busy since a time has been for too long.
fn is_stuck(since: u64, now: u64) -> bool
    ensures { result ≡ is_stuck now since }
{
    now.saturating_sub(since) > MAX_BUSY
}

impl Health {
    /// The status of the reply.
    pub fn status(self) -> Status
        ensures { result ≡ health_status self }
    {
        match self {
            Health::Healthy => Status::Ok,
            Health::Ending | Health::StoreFailing | Health::Stuck(_) => Status::Unavailable,
        }
    }

    /// Puts its line at the end of a text. The fault is a growth that was refused.
    pub fn write(self, text: &mut Vec<u8>) -> Result<(), AllocError>
        ensures { OnOk result (text.new.items ≡ text.old.items ++ health_text self) }
    {
        match self {
            Health::Healthy => put_text(text, "ok\n"),
            Health::Ending => put_text(text, "ending\n"),
            Health::StoreFailing => put_text(text, "store failing\n"),
            Health::Stuck(place) => {
                put_text(text, "thread ")?;
                put_decimal(text, place as u64)?;
                put_text(text, " is stuck\n")
            }
        }
    }
}

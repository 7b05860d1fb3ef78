//! How fast a peer takes what is written to it.
ghost use Rattle.std.specs.Prelude.{◌≡◌};
ghost use Rattle.tcp_connections.specs.Rate.{is_taking, slow_by, window_by};

use crate::waiting::Waiting;

/// The least length of a window, in nanoseconds (own).
const SPAN: u64 = 10_000_000_000;

/// Since when the octets that a peer takes are counted, in nanoseconds of a worker thread's clock, and how many it had taken by then.
#[derive(Clone, Copy, Debug)]
pub struct Window {
    pub(crate) since: u64,
    pub(crate) taken: u64,
}

/// Whether something waits to be taken.
fn is_taking(awaited: Waiting) -> bool
    ensures { result ≡ is_taking awaited }
{
    match awaited {
        Waiting::Request => false,
        Waiting::Rest => false,
        Waiting::Answer => false,
        Waiting::Taking => true,
    }
}

impl Window {
    /// Whether something waits to be taken at a time, and the ten seconds of the window are over, in which fewer octets than the rate were
    /// taken. At a rate of 0 that is never so.
    pub(crate) fn is_slow(self, rate: u64, now: u64, awaited: Waiting, taken: u64) -> bool
        ensures { result ≡ slow_by rate now self awaited taken }
    {
        is_taking(awaited)
            && SPAN <= now.saturating_sub(self.since)
            && taken.saturating_sub(self.taken) < rate
    }

    /// The window at a time: this one while something waits to be taken and its ten seconds aren't over; otherwise one that begins then.
    pub(crate) fn at(self, now: u64, awaited: Waiting, taken: u64) -> Window
        ensures { result ≡ window_by now self awaited taken }
    {
        if is_taking(awaited) && now.saturating_sub(self.since) < SPAN {
            return self;
        }
        Window { since: now, taken }
    }
}

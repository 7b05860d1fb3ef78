//! The next step for a zone's secondaries, by the version published last (RFC 1996, 3.1).
ghost use Rattle.std.specs.Prelude.{◌≡◌, ◌≤◌, length, IfOk, OnErr};
ghost use Rattle.notify.specs.Notify.{notify_limit};
ghost use Rattle.requests.specs.Served.{Grows};
ghost use Rattle.zone_server.specs.Notified.{GoesOnBy};

use notify::{Due, Notifier};
use requests::Handler;
use snapshot_cell::Spent;

/// The next step for a zone's secondaries.
#[derive(Clone, Copy)]
pub enum NextTurn {
    /// This is due.
    Due(Due),
    /// Nothing is due. The caller checks again after so many milliseconds. None if nothing is due before a newer version is published.
    Look(Option<u64>),
}

/// A handler that also does what is due to a zone's secondaries.
pub trait Notifying: Handler {
    /// The next step for the secondaries, while the version published last is served. A NOTIFY is written to the front of `out`. Fails with [`Spent`] if no version can be
    /// loaded. The secondaries' state is then unchanged.
    fn next_turn(
        &mut self,
        notifier: &mut Notifier,
        id: u16,
        out: &mut [u8],
    ) -> Result<NextTurn, Spent>
        requires { notify_limit ≤ length out.old }
        ensures grows { Grows (Self.seen self.new) (Self.seen self.old) }
        ensures next { IfOk result (λ next. GoesOnBy (Self.seen self.new).published id notifier.old next out.new notifier.new) }
        ensures none { OnErr result (notifier.new ≡ notifier.old) };
}

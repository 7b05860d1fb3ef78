//! Handlers of connections that are notified when their thread is to wait.
ghost use Rattle.std.specs.Prelude.{◌≡◌};

use dns_engine::FirstZone;
use signed_replies::{KeyRing, SignedConnections, SignedMessages, UnixClock};
use tcp_connections::{Handler, Messages};
use tcp_loop::Tally;
use zone_replies::{ConnectionHandler, Transfer};
use zone_server::{ServerName, ServiceLog, TsigLog};

/// A handler of connections that is notified when its thread is to wait.
pub trait Resting<M: Messages>: Handler<M> {
    /// The thread is to wait, or may be. This has become of its connections so far.
    fn rest(&mut self, tally: Tally)
        ensures same { Self.seen self.new ≡ Self.seen self.old };
}

impl<'a, 's, Z: FirstZone, N: ServerName, L: ServiceLog> Resting<Transfer>
    for ConnectionHandler<'a, 's, Z, N, L> {
    fn rest(&mut self, _tally: Tally) {}
}

impl<'r, 'k, K: KeyRing, M: Messages, A: Handler<M>, C: UnixClock, O: TsigLog + Drop> Resting<
    SignedMessages<'k, M>,
> for SignedConnections<'r, 'k, K, M, A, C, O> {
    fn rest(&mut self, _tally: Tally) {}
}

//! Sending the replies to updates that waited.
ghost use Rattle.std.specs.Prelude.{◌≡◌, List, [], ◌∷◌, Option};
ghost use Rattle.zone_server.specs.Brought.{Brought, brought_after, key_to, sent_by};

use crate::pending_replies::AtTicket;
use std::net::SocketAddr;
use std::sync::Wait;
use tsig::RequestTsig;

/// Sends the replies to updates that waited. An implementation that keeps what it was given may give it to contracts.
pub trait ReplySender {
    /// What it was given, oldest first, if it is kept.
    ghost brought: { Self → Option (List Brought) };

    /// Gives a worker the key of a connection whose result is at its ticket, and wakes the worker.
    fn tell<R: Wait>(&mut self, rt: &R, worker: usize, key: usize, reported: AtTicket)
        ensures { brought self.new ≡ brought_after (brought self.old) (key_to worker key ∷ []) };

    /// Sends a datagram from a worker's socket, signed as the reply to a request with this TSIG, if there is one. A datagram that cannot be sent is lost.
    fn send(&mut self, worker: usize, to: SocketAddr, tsig: Option<RequestTsig>, octets: &[u8])
        ensures { brought self.new ≡ brought_after (brought self.old) (sent_by worker to tsig octets.now ∷ []) };
}

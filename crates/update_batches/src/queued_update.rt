//! Queued updates (RFC 2136, 3).
ghost use Rattle.std.specs.Prelude.{◌≡◌, true};

use crate::update_request::UpdateRequest;
use std::net::SocketAddr;
use tsig::RequestTsig;

/// The destination of the reply to a queued update.
#[derive(Drop)]
pub enum ReplyTo {
    /// A connection: the result is put at a ticket, and the worker gets the connection's key.
    Connection {
        /// The number of the worker.
        worker: usize,
        /// The connection's key.
        key: usize,
        /// The ticket.
        ticket: usize,
    },
    /// A datagram.
    Datagram {
        /// The number of the worker whose socket received the update.
        worker: usize,
        /// The address it came from.
        to: SocketAddr,
        /// Its TSIG, whose MAC is digested with the reply (RFC 8945, 5.3). None if it is not signed.
        tsig: Option<RequestTsig>,
    },
}

/// A queued update, of a peer that may update.
#[derive(Drop)]
pub struct QueuedUpdate {
    /// The update.
    pub request: UpdateRequest,
    /// The destination of its reply.
    pub reply_to: ReplyTo,
    ghost may: { request.may ≡ true },
}

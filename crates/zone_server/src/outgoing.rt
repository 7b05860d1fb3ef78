//! Replies to queued updates that are sent once the lock is free (own).
use crate::pending_replies::AtTicket;
use crate::update_result::UpdateResult;
use std::net::SocketAddr;
use tsig::RequestTsig;

/// What is left to be done for the reply to a queued update.
#[derive(Drop)]
pub enum Outgoing {
    /// A worker is woken: the result is at its ticket.
    Wake {
        /// The number of the worker.
        worker: usize,
        /// The connection's key.
        key: usize,
        /// The receipt of the ticket.
        at: AtTicket,
    },
    /// A datagram is sent.
    Send {
        /// The number of the worker from whose socket it is sent.
        worker: usize,
        /// Its destination.
        to: SocketAddr,
        /// The update's TSIG, whose MAC is digested with the reply. None if the update was not signed.
        tsig: Option<RequestTsig>,
        /// The result.
        done: UpdateResult,
    },
}

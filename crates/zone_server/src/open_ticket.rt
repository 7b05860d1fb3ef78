//! Tickets that have an owner: of updates that are not queued yet, and of those that wait (own).
ghost use Rattle.std.specs.Prelude.{◌≡◌};
ghost use Rattle.zone_server.specs.Tickets.{fetched_by};

use crate::update_result::{Poll, UpdateResult};
use update_batches::Put;

/// A ticket that was opened for an update, which is not queued yet. It cannot be dropped: either the update waits ([`OpenTicket::waits`]), or the ticket is closed
/// ([`Server::close`](crate::Server::close)).
pub struct OpenTicket {
    ticket: usize,
}

impl OpenTicket {
    /// This ticket.
    pub(crate) fn new(ticket: usize) -> OpenTicket
        ensures { result.ticket ≡ ticket }
    {
        OpenTicket { ticket }
    }

    /// Its number, for the destination of the update's reply.
    pub fn number(&self) -> usize
        ensures { result ≡ self.now.ticket }
    {
        self.ticket
    }

    /// The ticket of the update once it waits in the queue, of which this is the receipt.
    pub fn waits(self, _put: &Put) -> WaitingTicket
        ensures { result.ticket ≡ self.ticket }
    {
        let OpenTicket { ticket } = self;
        WaitingTicket { ticket }
    }

    /// Its number, for the state that closes it.
    pub(crate) fn into_closed(self) -> usize
        ensures { result ≡ self.ticket }
    {
        let OpenTicket { ticket } = self;
        ticket
    }
}

/// The ticket of an update that waits in the queue. It cannot be dropped nor copied: its result is fetched ([`Server::fetch`](crate::Server::fetch)), or it is abandoned
/// ([`Server::leave`](crate::Server::leave)).
pub struct WaitingTicket {
    ticket: usize,
}

/// What a waiting ticket gives when its result is fetched.
pub enum TicketPoll {
    /// No reply is pending at it.
    Unknown,
    /// The result is not there yet: the ticket waits on.
    Pending(WaitingTicket),
    /// The result.
    Ready(UpdateResult),
}

impl WaitingTicket {
    /// Its number, for the state that keeps its result.
    pub(crate) fn number(&self) -> usize
        ensures { result ≡ self.now.ticket }
    {
        self.ticket
    }

    /// Its number, for the state that abandons it.
    pub(crate) fn into_left(self) -> usize
        ensures { result ≡ self.ticket }
    {
        let WaitingTicket { ticket } = self;
        ticket
    }

    /// What the state gave when it was polled, with the ticket if that waits on.
    pub(crate) fn fetched(self, poll: Poll) -> TicketPoll
        ensures { result ≡ fetched_by self poll }
    {
        let WaitingTicket { ticket } = self;
        match poll {
            Poll::Unknown => TicketPoll::Unknown,
            Poll::Pending => TicketPoll::Pending(WaitingTicket { ticket }),
            Poll::Ready(done) => TicketPoll::Ready(done),
        }
    }
}

//! Tickets for pending replies (own).
ghost use Rattle.std.specs.Prelude.{◌≡◌, ◌<◌, [], Some, length, slice_get};
ghost use Rattle.zone_server.specs.PendingReplies.{IsFreed, IsOpened, FetchesOf, LeavesOf, ClosesOf, TellsOf, receipt_for};

use crate::answer::UpdateOutcome;
use crate::update_result::{Poll, UpdateResult};
use std::alloc::Global;
use std::mem;

/// The state of a ticket.
#[derive(Drop)]
pub(crate) enum Ticket {
    /// Free, with the next free ticket.
    Free(Option<usize>),
    /// Its reply is pending.
    Pending,
    /// It was abandoned, and its result is still to come.
    Abandoned,
    /// Its result is there, and not fetched yet.
    Ready(UpdateResult),
}

/// A receipt that a result was put at a ticket: the ticket, and the outcome of the result. Only the server's state gives one, once it has put the result there, so that a function that
/// takes one may wake the worker that is to fetch it.
pub struct AtTicket {
    ticket: usize,
    outcome: UpdateOutcome,
}

impl Drop for AtTicket {
    fn drop(self) {
        let AtTicket {
            ticket: _,
            outcome: _,
        } = self;
    }
}

/// Tickets, each free or with a reply that is pending, abandoned or ready.
pub(crate) struct PendingReplies {
    pub tickets: Vec<Ticket>,
    /// The first free ticket.
    free: Option<usize>,
}

impl Drop for PendingReplies {
    fn drop(self) {
        let PendingReplies {
            tickets: _,
            free: _,
        } = self;
    }
}

impl PendingReplies {
    /// No ticket.
    pub fn new(alloc: Global) -> PendingReplies
        ensures { result.tickets.items ≡ [] }
    {
        PendingReplies {
            tickets: Vec::new(alloc),
            free: None,
        }
    }

    /// A ticket for a pending reply: a free one, or else a new one. None if there is no memory for it.
    pub fn open(&mut self) -> Option<usize>
        ensures { IsOpened self.old.tickets.items result self.new.tickets.items }
    {
        if let Some(at) = self.take_free() {
            return Some(at);
        }
        let at = self.tickets.len();
        match self.tickets.push(Ticket::Pending) {
            Ok(()) => Some(at),
            Err(_) => None,
        }
    }

    /// Takes the first free ticket, for a pending reply.
    fn take_free(&mut self) -> Option<usize>
        ensures { IsOpened self.old.tickets.items result self.new.tickets.items }
    {
        let at = self.free?;
        let ticket = self.tickets.get(at)?;
        let Ticket::Free(next) = ticket else {
            return None;
        };
        self.free = *next;
        self.tickets[at] = Ticket::Pending;
        Some(at)
    }

    /// Frees a ticket, and gives the state that it had.
    fn put_free(&mut self, at: usize) -> Ticket
        requires { at < length self.old.tickets.items }
        ensures had { slice_get self.old.tickets.items at ≡ Some result }
        ensures freed { IsFreed self.old.tickets.items at self.new.tickets.items }
    {
        let ticket = mem::replace(&mut self.tickets[at], Ticket::Free(self.free));
        self.free = Some(at);
        ticket
    }

    /// The result at a ticket, if it is there yet. The ticket is then free.
    pub fn fetch(&mut self, at: usize) -> Poll
        ensures { FetchesOf (slice_get self.old.tickets.items at) self.old.tickets.items at result self.new.tickets.items }
    {
        let Some(ticket) = self.tickets.get(at) else {
            return Poll::Unknown;
        };
        match ticket {
            Ticket::Ready(_) => {}
            Ticket::Pending => return Poll::Pending,
            Ticket::Abandoned => return Poll::Unknown,
            Ticket::Free(_) => return Poll::Unknown,
        }
        match self.put_free(at) {
            Ticket::Ready(done) => Poll::Ready(done),
            _ => unreachable!(),
        }
    }

    /// Abandons a ticket. If its result is still to come, the ticket becomes free when it comes.
    pub fn leave(&mut self, at: usize)
        ensures { LeavesOf (slice_get self.old.tickets.items at) self.old.tickets.items at self.new.tickets.items }
    {
        let Some(ticket) = self.tickets.get(at) else {
            return;
        };
        match ticket {
            Ticket::Pending => self.tickets[at] = Ticket::Abandoned,
            Ticket::Ready(_) => {
                self.put_free(at);
            }
            Ticket::Abandoned => {}
            Ticket::Free(_) => {}
        }
    }

    /// Frees a ticket that is to get no result.
    pub fn close(&mut self, at: usize)
        ensures { ClosesOf (slice_get self.old.tickets.items at) self.old.tickets.items at self.new.tickets.items }
    {
        let Some(ticket) = self.tickets.get(at) else {
            return;
        };
        match ticket {
            Ticket::Pending => {
                self.put_free(at);
            }
            Ticket::Ready(_) => {}
            Ticket::Abandoned => {}
            Ticket::Free(_) => {}
        }
    }

    /// Puts a result at a ticket whose reply is pending, and gives the receipt for it. A ticket that was abandoned becomes free instead.
    pub fn tell(&mut self, at: usize, done: UpdateResult) -> AtTicket
        ensures reported { TellsOf (slice_get self.old.tickets.items at) self.old.tickets.items at done self.new.tickets.items }
        ensures receipt { result ≡ receipt_for at done }
    {
        let outcome = UpdateOutcome::of(&done);
        self.put(at, done);
        AtTicket {
            ticket: at,
            outcome,
        }
    }

    /// Puts a result at a ticket whose reply is pending, or frees one that was abandoned.
    fn put(&mut self, at: usize, done: UpdateResult)
        ensures { TellsOf (slice_get self.old.tickets.items at) self.old.tickets.items at done self.new.tickets.items }
    {
        let Some(ticket) = self.tickets.get(at) else {
            return;
        };
        match ticket {
            Ticket::Pending => self.tickets[at] = Ticket::Ready(done),
            Ticket::Abandoned => {
                self.put_free(at);
            }
            Ticket::Ready(_) => {}
            Ticket::Free(_) => {}
        }
    }
}

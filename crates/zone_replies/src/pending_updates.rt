//! Updates submitted on connections, which are still pending.
ghost use Rattle.std.specs.Prelude.{◌≡◌, ◌<◌, ◌++◌, ℕ, [], None, Some, IfSome, length, option_map, replicate, slice_get, slice_set};
ghost use Rattle.std.specs.Bool.{OnTrue};
ghost use Rattle.zone_server.specs.QueuedUpdate.{MeetsAt};
ghost use Rattle.zone_server.specs.UpdateResult.{IsFetched};
ghost use Rattle.zone_replies.specs.PendingUpdates.{after_first, entry_in, left_in, left_of, more_of, place_in, IsToldAt};

use dns_engine::{FirstZone, VersionReader};
use dns_rdata::Rcode;
use snapshot_cell::Naming;
use std::alloc::Global;
use std::marker::Model;
use std::mem;
use std::net::SocketAddr;
use std::snapshot::Snapshot;
use std::sync::Wait;
use zone_server::{
    Poll, Server, ServerName, TicketPoll, UpdateOutcome, UpdateResult, WaitingTicket,
};

/// The pending updates of a connection. They wait together: each was submitted while one before it was pending. Their tickets can't be dropped, so
/// neither can they.
pub(crate) struct PendingUpdate<N: Naming> {
    /// The address of its connection's peer.
    pub from: SocketAddr,
    /// The ticket for the first one's result.
    pub ticket: WaitingTicket,
    /// The tickets for the results of those after it, in the order in which they were submitted.
    pub more: Vec<WaitingTicket>,
    /// The number of the last version that was published when the first of those that wait together was submitted.
    pub number: u64,
    /// What the reader knew before that.
    pub known: Snapshot<VersionReader<N>>,
}

impl<N: Naming> Model for PendingUpdate<N> {
    ghost use Rattle.zone_replies.specs.State.{PendingState};

    ghost Value = { PendingState };

    ghost view = { λ t. record { from = t.from; ticket = t.ticket; more = t.more.items; number = t.number; known = t.known.value } };
}

/// The updates that are pending once the first one has its reply: those with these tickets, if there are any.
#[tactic(auto, using(crate::proofs::PendingLemmas::after_is, crate::proofs::PendingLemmas::after_none))]
fn after_first<N: Naming>(
    from: SocketAddr,
    tickets: Vec<WaitingTicket>,
    number: u64,
    known: Snapshot<VersionReader<N>>,
) -> Option<PendingUpdate<N>>
    ensures { result ≡ after_first from number known.value tickets.items }
{
    let mut more = tickets;
    if more.is_empty() {
        more.destroy_empty();
        return None;
    }
    let ticket = more.remove(0);
    Some(PendingUpdate {
        from,
        ticket,
        more,
        number,
        known,
    })
}

/// Abandons tickets.
fn leave_each<R: Wait, Z: FirstZone, N: ServerName>(
    rt: &R,
    server: &Server<'_, Z, N>,
    tickets: Vec<WaitingTicket>,
) {
    let mut left = tickets;
    while let Some(ticket) = left.pop() {
        server.leave(rt, ticket);
    }
    left.destroy_empty();
}

impl<N: ServerName> PendingUpdate<N> {
    /// Abandons their tickets.
    fn leave<R: Wait, Z: FirstZone>(self, rt: &R, server: &Server<'_, Z, N>) {
        let PendingUpdate {
            from: _,
            ticket,
            more,
            number: _,
            known: _,
        } = self;
        server.leave(rt, ticket);
        leave_each(rt, server, more);
    }

    /// Fetches the result of the first one, as [`Server::fetch`] does, and gives what is pending then: all of them while that isn't there yet, otherwise those after it.
    fn fetch<R: Wait, Z: FirstZone>(
        self,
        rt: &R,
        server: &Server<'_, Z, N>,
        reader: &mut VersionReader<N>,
    ) -> (Poll, Option<PendingUpdate<N>>)
        ensures met { (number : ℕ) × MeetsAt Z.zone reader.old reader.new number }
        ensures fetched { IsFetched Z.zone reader.new.seen result.0 }
        ensures left { result.1 ≡ left_of result.0 self }
    {
        let PendingUpdate {
            from,
            ticket,
            more,
            number,
            known,
        } = self;
        let (_, fetched) = server.fetch(rt, reader, ticket);
        match fetched {
            TicketPoll::Unknown => (Poll::Unknown, after_first(from, more, number, known)),
            TicketPoll::Pending(ticket) => {
                let all = PendingUpdate {
                    from,
                    ticket,
                    more,
                    number,
                    known,
                };
                (Poll::Pending, Some(all))
            }
            TicketPoll::Ready(done) => (Poll::Ready(done), after_first(from, more, number, known)),
        }
    }
}

/// Where the reply to a pending update will be.
#[derive(Clone, Copy)]
pub(crate) struct ReplyPlace {
    /// The address of its connection's peer.
    pub from: SocketAddr,
    /// The number of the last version that was published when the first of those that wait together was submitted.
    pub number: u64,
}

/// The outcome of a pending update: that of its result, or SERVFAIL where it was judged in a version older than the last that was published when the
/// first of those that wait together was submitted, which never happens.
pub(crate) fn outcome_at(place: ReplyPlace, done: &UpdateResult) -> UpdateOutcome
    ensures { IsToldAt place done.now result }
{
    if place.number <= done.least {
        return UpdateOutcome::of(done);
    }
    UpdateOutcome::code(Rcode::ServFail)
}

/// The pending updates, indexed by the keys of their connections. Contracts see them in the order of the keys. They can't be dropped: their tickets are
/// abandoned ([`PendingUpdates::leave_all`]).
pub(crate) struct PendingUpdates<N: Naming> {
    entries: Vec<Option<PendingUpdate<N>>>,
}

impl<N: Naming> Model for PendingUpdates<N> {
    ghost use Rattle.std.specs.Prelude.{List, Option};
    ghost use Rattle.zone_replies.specs.State.{PendingState};

    ghost Value = { List (Option PendingState) };

    ghost view = { λ t. t.entries.items };
}

impl<N: Naming> PendingUpdates<N> {
    /// No update is pending.
    pub fn new(alloc: Global) -> PendingUpdates<N>
        ensures { result ≡ [] }
    {
        PendingUpdates {
            entries: Vec::new(alloc),
        }
    }

    /// Where the reply to the first pending update under a key will be. None where no update is pending.
    pub fn at(&self, key: usize) -> Option<ReplyPlace>
        ensures { result ≡ place_in self.now key }
    {
        match self.entries.get(key)? {
            Some(taken) => Some(ReplyPlace {
                from: taken.from,
                number: taken.number,
            }),
            None => None,
        }
    }

    /// How many updates are pending under a key after the first one. None where no update is pending.
    pub fn more(&self, key: usize) -> Option<usize>
        ensures { result ≡ option_map length (more_of (slice_get self.now key)) }
    {
        match self.entries.get(key)? {
            Some(taken) => Some(taken.more.len()),
            None => None,
        }
    }

    /// Makes room for an entry under a key. False where there is no memory for it.
    pub fn make_room(&mut self, key: usize) -> bool
        ensures room { OnTrue result (key < length self.new) }
        ensures none { (more : ℕ) × (self.new ≡ self.old ++ replicate more None) }
    {
        let Some(count) = key.checked_add(1) else {
            return false;
        };
        for _entry in self.entries.len()..count {
            let Ok(()) = self.entries.try_reserve(1) else {
                return false;
            };
            self.entries.push_reserved(None);
        }
        true
    }

    /// Puts updates under a key for which there is room, and under which none are.
    pub fn put(&mut self, key: usize, taken: PendingUpdate<N>)
        requires room { key < length self.old }
        requires none { entry_in self.old key ≡ None }
        ensures { self.new ≡ slice_set self.old key (Some taken) }
    {
        match mem::replace(&mut self.entries[key], Some(taken)) {
            None => {}
            Some(_) => unreachable!(),
        }
    }

    /// Takes the updates under a key out, if there are any.
    pub fn take(&mut self, key: usize) -> Option<PendingUpdate<N>>
        ensures taken { result ≡ entry_in self.old key }
        ensures rest { self.new ≡ slice_set self.old key None }
    {
        mem::replace(self.entries.get_mut(key)?, None)
    }
}

impl<N: ServerName> PendingUpdates<N> {
    /// Removes the updates under a key, if there are any, and abandons their tickets.
    pub fn leave<R: Wait, Z: FirstZone>(&mut self, rt: &R, server: &Server<'_, Z, N>, key: usize)
        ensures { self.new ≡ slice_set self.old key None }
    {
        if let Some(pending) = self.take(key) {
            pending.leave(rt, server);
        }
    }

    /// Abandons the tickets of all.
    pub fn leave_all<R: Wait, Z: FirstZone>(self, rt: &R, server: &Server<'_, Z, N>) {
        let PendingUpdates { mut entries } = self;
        while let Some(entry) = entries.pop() {
            match entry {
                Some(pending) => pending.leave(rt, server),
                None => {}
            }
        }
        entries.destroy_empty();
    }

    /// Fetches the result of the first update under a key, as [`Server::fetch`] does. It stays while its result isn't there yet; otherwise it is removed, and the next one is
    /// the first then.
    pub fn fetch<R: Wait, Z: FirstZone>(
        &mut self,
        rt: &R,
        server: &Server<'_, Z, N>,
        reader: &mut VersionReader<N>,
        key: usize,
    ) -> Poll
        requires some { (place : ReplyPlace) × (place_in self.old key ≡ Some place) }
        ensures met { (number : ℕ) × MeetsAt Z.zone reader.old reader.new number }
        ensures fetched { IsFetched Z.zone reader.new.seen result }
        ensures rest { self.new ≡ slice_set self.old key (left_in result (slice_get self.old key)) }
    {
        let Some(pending) = self.take(key) else {
            unreachable!();
        };
        let (poll, left) = pending.fetch(rt, server, reader);
        match left {
            Some(left) => self.put(key, left),
            None => {}
        }
        poll
    }
}

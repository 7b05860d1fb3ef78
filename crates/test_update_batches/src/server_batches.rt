//! Batches of updates over a server's publisher.
use crate::sent_replies::SentReplies;
use crate::servers::{not_played, passes};
use crate::store::Store;
use crate::updates::{ADD_1, ADD_2, NOERROR_1, NOTZONE_3, OUTSIDE, is_spelt, put};
use dns_engine::{FirstZone, KEPT, VersionCell, VersionPublisher, VersionReader};
use dns_rdata::{Rcode, Serial};
use memory_devices::{Kept, Play, Played, asker};
use std::alloc::Global;
use std::sync::Wait;
use std::test::Fail;
use update_batches::{Most, Put, Queue, UpdateThread};
use zone_server::{
    PublishRight, QueuedUpdate, ReplyTo, Serials, Server, ServerLedgers, ServerName,
    ServerPublisher, TicketPoll, UpdateResult,
};

/// What is run over a server.
#[derive(Clone, Copy)]
enum Run {
    /// A batch of three updates: the first came in a datagram, the second on a connection, the third in a datagram, and it is refused.
    ThreeUpdates,
    /// A publisher that begins, and ends.
    Publisher,
    /// Tickets that are closed, or abandoned, and opened again.
    Tickets,
}

/// The result of the batch.
#[derive(Drop)]
struct Outcome {
    /// What the publisher sent.
    sent: SentReplies,
    /// The number of the version published last.
    number: u64,
    /// The result at the ticket of the second update.
    fetched: Option<UpdateResult>,
}

/// Queues the updates, of which the second gets a ticket. None if memory allocation fails.
fn put_three<R: Wait>(
    rt: &R,
    alloc: Global,
    queue: &Queue<QueuedUpdate>,
    ticket: usize,
) -> Option<Put> {
    let first = ReplyTo::Datagram {
        worker: 3,
        to: asker(4711),
        tsig: None,
    };
    let second = ReplyTo::Connection {
        worker: 1,
        key: 70,
        ticket,
    };
    let third = ReplyTo::Datagram {
        worker: 2,
        to: asker(4712),
        tsig: None,
    };
    put(rt, alloc, queue, ADD_1, first)?;
    put(rt, alloc, queue, ADD_2, second)?;
    put(rt, alloc, queue, OUTSIDE, third)
}

/// Whether each reply datagram went to the address of its client, by the socket that received the request, and only the connection's key was
/// given to its worker thread.
fn are_sent(alloc: Global, sent: &SentReplies) -> Option<bool> {
    let [first, third] = sent.datagrams.as_slice() else {
        return Some(false);
    };
    let are_addressed = first.worker == 3
        && first.to == asker(4711)
        && third.worker == 2
        && third.to == asker(4712);
    let are_spelt = is_spelt(alloc, &first.octets, NOERROR_1)?
        && is_spelt(alloc, &third.octets, NOTZONE_3)?;
    Some(
        are_addressed
            && are_spelt
            && sent.keys.len() == 1
            && sent.keys.first().copied() == Some((1, 70)),
    )
}

/// Whether the result of the second update is ready at its ticket: NOERROR, in the version in which the batch started or a later one, with its
/// own serials.
fn is_ready(alloc: Global, fetched: &Option<UpdateResult>) -> Option<bool> {
    let Some(done) = fetched else {
        return Some(false);
    };
    let are_own = matches!(
        done.serials,
        Some(Serials {
            before: Serial(8),
            after: Serial(9)
        })
    );
    let is_right = done.code == Rcode::NoError && done.least == 0 && are_own;
    Some(is_right && is_spelt(alloc, done.asked.messages().first(), ADD_2)?)
}

/// Whether all results are as expected.
fn is_right<R: Wait>(rt: &R, alloc: Global, outcome: &Outcome, log: &Kept) -> Option<bool> {
    // The update that came on a connection is logged by the connection's worker thread.
    let lines =
        "update from 192.0.2.7:4711: NOERROR, serial 7 to 8;update from 192.0.2.7:4712: NOTZONE;";
    let replied = are_sent(alloc, &outcome.sent)? && is_ready(alloc, &outcome.fetched)?;
    Some(replied && outcome.number == 2 && log.has(rt, lines))
}

/// Makes a publisher with the reader, and has its update thread do one turn: the reader, and what was sent. On an error, what the test comes to: None if memory
/// allocation fails.
fn turn_once<R: Wait, Z: FirstZone, N: ServerName>(
    rt: &R,
    alloc: Global,
    server: &Server<'_, Z, N>,
    reader: VersionReader<N>,
    right: PublishRight<N>,
    queue: &Queue<QueuedUpdate>,
    log: &Kept,
) -> Result<(VersionReader<N>, SentReplies), (Option<bool>, Option<VersionReader<N>>)> {
    let sent = SentReplies::new(alloc);
    let publisher = match ServerPublisher::new(rt, alloc, server, reader, right, log, sent) {
        Ok(publisher) => publisher,
        Err(reader) => return Err((None, Some(reader))),
    };
    let mut thread = match UpdateThread::new(alloc, publisher, Store::Nowhere, queue) {
        Ok(thread) => thread,
        Err((publisher, _)) => return Err((None, Some(publisher.into_parts().0))),
    };
    if !matches!(thread.turn(rt), Ok(None)) {
        return Err((Some(false), None));
    }
    let (publisher, _) = thread.into_parts();
    Ok(publisher.into_parts())
}

/// Whether a batch of three updates has the expected results, and the reader. None if memory allocation fails.
fn judge_three<R: Wait, Z: FirstZone, N: ServerName>(
    rt: &R,
    alloc: Global,
    server: &Server<'_, Z, N>,
    mut reader: VersionReader<N>,
    right: PublishRight<N>,
) -> (Option<bool>, Option<VersionReader<N>>) {
    let log = Kept::new(alloc);
    let most = Most {
        items: 8,
        octets: 8,
    };
    let Ok(queue) = Queue::<QueuedUpdate>::new(alloc, most) else {
        return (None, Some(reader));
    };
    let (_, Some(opened)) = server.open(rt, &mut reader) else {
        return (None, Some(reader));
    };
    let Some(put) = put_three(rt, alloc, &queue, opened.number()) else {
        server.close(rt, opened);
        return (None, Some(reader));
    };
    let ticket = opened.waits(&put);
    let (mut reader, sent) = match turn_once(rt, alloc, server, reader, right, &queue, &log) {
        Ok(turned) => turned,
        Err(outcome) => {
            server.leave(rt, ticket);
            return outcome;
        }
    };
    let (number, fetched) = server.fetch(rt, &mut reader, ticket);
    let fetched = match fetched {
        TicketPoll::Ready(done) => Some(done),
        TicketPoll::Unknown => None,
        TicketPoll::Pending(ticket) => {
            server.leave(rt, ticket);
            None
        }
    };
    let outcome = Outcome {
        sent,
        number,
        fetched,
    };
    (is_right(rt, alloc, &outcome, &log), Some(reader))
}

/// Begins a publisher and ends it. Gives None if memory allocation fails, and the reader.
fn begin_publisher<R: Wait, Z: FirstZone, N: ServerName>(
    rt: &R,
    alloc: Global,
    server: &Server<'_, Z, N>,
    reader: VersionReader<N>,
    right: PublishRight<N>,
) -> (Option<bool>, Option<VersionReader<N>>) {
    let log = Kept::new(alloc);
    let sent = SentReplies::new(alloc);
    match ServerPublisher::new(rt, alloc, server, reader, right, &log, sent) {
        Ok(publisher) => (Some(true), Some(publisher.into_parts().0)),
        Err(reader) => (None, Some(reader)),
    }
}

/// Whether a ticket that was closed is opened again, and so is one that was abandoned, once the result of its update has come; and the reader.
/// None if memory allocation fails.
fn open_again<R: Wait, Z: FirstZone, N: ServerName>(
    rt: &R,
    alloc: Global,
    server: &Server<'_, Z, N>,
    mut reader: VersionReader<N>,
    right: PublishRight<N>,
) -> (Option<bool>, Option<VersionReader<N>>) {
    let log = Kept::new(alloc);
    let most = Most {
        items: 8,
        octets: 8,
    };
    let Ok(queue) = Queue::<QueuedUpdate>::new(alloc, most) else {
        return (None, Some(reader));
    };
    let Some(first) = next_ticket(rt, server, &mut reader) else {
        return (None, Some(reader));
    };
    let (_, Some(opened)) = server.open(rt, &mut reader) else {
        return (None, Some(reader));
    };
    let ticket = opened.number();
    let reply_to = ReplyTo::Connection {
        worker: 1,
        key: 70,
        ticket,
    };
    let Some(put) = put(rt, alloc, &queue, ADD_1, reply_to) else {
        server.close(rt, opened);
        return (None, Some(reader));
    };
    server.leave(rt, opened.waits(&put));
    let (mut reader, _) = match turn_once(rt, alloc, server, reader, right, &queue, &log) {
        Ok(turned) => turned,
        Err(outcome) => return outcome,
    };
    let last = next_ticket(rt, server, &mut reader);
    (Some(ticket == first && last == Some(first)), Some(reader))
}

/// The number of the ticket that is opened next, which is closed. None if there is none.
fn next_ticket<R: Wait, Z: FirstZone, N: ServerName>(
    rt: &R,
    server: &Server<'_, Z, N>,
    reader: &mut VersionReader<N>,
) -> Option<usize> {
    let (_, opened) = server.open(rt, reader);
    let opened = opened?;
    let ticket = opened.number();
    server.close(rt, opened);
    Some(ticket)
}

impl Run {
    /// Runs it. Gives whether it passes, None if memory allocation fails, and the reader.
    fn run<R: Wait, Z: FirstZone, N: ServerName>(
        self,
        rt: &R,
        alloc: Global,
        server: &Server<'_, Z, N>,
        reader: VersionReader<N>,
        right: PublishRight<N>,
    ) -> (Option<bool>, Option<VersionReader<N>>) {
        match self {
            Run::ThreeUpdates => judge_three(rt, alloc, server, reader, right),
            Run::Publisher => begin_publisher(rt, alloc, server, reader, right),
            Run::Tickets => open_again(rt, alloc, server, reader, right),
        }
    }
}

impl Play for Run {
    fn play<R: Wait, Z: FirstZone, N: ServerName>(
        &self,
        rt: &R,
        alloc: Global,
        cell: &VersionCell<Z, N>,
        publisher: VersionPublisher<Z, N>,
        readers: Vec<VersionReader<N>>,
        ledgers: ServerLedgers,
    ) -> Played<Z, N> {
        let mut readers = readers;
        let Some(own) = readers.pop() else {
            return not_played(publisher, readers);
        };
        let Some(reader) = readers.pop() else {
            let _ = readers.push(own);
            return not_played(publisher, readers);
        };
        let later = Vec::new(alloc);
        match Server::resume(alloc, cell, publisher, own, KEPT, later, ledgers) {
            Ok((server, right)) => {
                let (outcome, reader) = self.run(rt, alloc, &server, reader, right);
                if let Some(reader) = reader {
                    let _ = readers.push(reader);
                }
                let (publisher, own) = server.finish();
                let _ = readers.push(own);
                Played {
                    outcome,
                    publisher,
                    readers,
                }
            }
            Err(refused) => {
                let _ = readers.push(reader);
                let _ = readers.push(refused.reader);
                not_played(refused.publisher, readers)
            }
        }
    }
}

// Each update of a batch gets its reply: in a datagram, with a log line, or at its ticket, with the key of its connection.
#[test]
fn updates_get_their_replies(rt: HostRuntime) -> Result<(), Fail> {
    assert!(rt; passes(&rt, rt.alloc(), Run::ThreeUpdates) == Some(true));
    Ok(())
}

// If any one allocation fails, there is no publisher and the reader comes back, without which the cell could not be closed; and the next
// publisher begins.
#[test]
fn a_publisher_where_memory_is_refused(rt: HostRuntime) {
    let passed = match passes(&rt, rt.alloc(), Run::Publisher) {
        Some(passed) => Some(passed),
        None => passes(&rt, rt.alloc(), Run::Publisher),
    };
    assert!(rt; passed == Some(true));
}

// A ticket that is closed, or abandoned, is free again.
#[test]
fn tickets_are_opened_again(rt: HostRuntime) {
    assert!(rt; passes(&rt, rt.alloc(), Run::Tickets) == Some(true));
}

//! Updates that are submitted to the update thread. A queued update is submitted once, the same update from another client under the same key
//! is another update, an update that would make the queue exceed its limit of octets is answered at once, and those that come after one that
//! waits are submitted with it.
use dns_engine::{FirstZone, VersionCell, VersionPublisher, VersionReader};
use memory_devices::{Kept, Play, Played, asker, is_played, octets_of, server_of, zone};
use serve_core::{Peer, Transport};
use std::alloc::Global;
use std::sync::Wait;
use tcp_connections::{Handler, Reply};
use update_batches::{Most, Queue};
use zone_replies::ConnectionHandler;
use zone_server::{QueuedUpdate, ReplyTo, Server, ServerLedgers, ServerName, UpdateSender};

/// An update that adds an address at `new` (RFC 2136, 2).
const UPDATE: &str =
    "432128000001000000010000076578616d706c6504746573740000060001036e6577c00c0001000100000e100004c000020b";

/// The limits of the queue: it has room for one such update, of 50 octets and one record.
pub(crate) const MOST: Most = Most {
    items: 8,
    octets: 739,
};

/// The limits of a queue with room for eight such updates.
const ROOMY: Most = Most {
    items: 8,
    octets: 10_000,
};

/// A query for the zone's SOA.
const QUERY: &str = "123401000001000000000000076578616d706c6504746573740000060001";

/// A peer that is allowed to update.
fn updater() -> Peer {
    Peer {
        may_update: true,
        may_transfer: true,
        transport: Transport::Tcp,
    }
}

/// Whether the reply to a request is made later. The request is from a port, on the connection with a key.
fn is_later<R: Wait, Z: FirstZone, N: ServerName>(
    rt: &R,
    replies: &mut ConnectionHandler<'_, '_, Z, N, Kept>,
    port: u16,
    key: usize,
    request: &[u8],
) -> Option<bool> {
    let mut out = [0u8; 65_535];
    replies.turn_to(asker(port), key);
    replies.set_peer(updater());
    match replies.reply(rt, request, &mut out) {
        Ok(Reply::One(_)) => Some(false),
        Ok(Reply::Later) => Some(true),
        _ => None,
    }
}

/// The key of the connection of the one queued update. None if more are queued.
fn one_key<R: Wait>(rt: &R, alloc: Global, queue: &Queue<QueuedUpdate>) -> Option<usize> {
    let mut taken = Vec::with_capacity(alloc, 2).ok()?;
    if !queue.take(rt, &mut taken) || taken.len() > 1 {
        return None;
    }
    let waiting = taken.pop()?;
    match &waiting.reply_to {
        ReplyTo::Connection { worker: 1, key, .. } => Some(*key),
        _ => None,
    }
}

/// Whether an update is submitted once while it is queued, and again for another client, on another connection, and after a query; and whether,
/// while the queue has no room, it is not submitted until the queued update is taken. If one update were submitted twice, the second would find
/// no room, and would be answered at once.
fn is_submitted_once<R: Wait, Z: FirstZone, N: ServerName>(
    rt: &R,
    alloc: Global,
    queue: &Queue<QueuedUpdate>,
    replies: &mut ConnectionHandler<'_, '_, Z, N, Kept>,
) -> Option<bool> {
    let (update, query) = (octets_of(alloc, UPDATE)?, octets_of(alloc, QUERY)?);
    let first = is_later(rt, replies, 4711, 0, &update)?;
    let again = is_later(rt, replies, 4711, 0, &update)? && one_key(rt, alloc, queue) == Some(0);
    let other = is_later(rt, replies, 4712, 0, &update)? && one_key(rt, alloc, queue) == Some(0);
    let beside = is_later(rt, replies, 4711, 1, &update)? && one_key(rt, alloc, queue) == Some(1);
    let asked = !is_later(rt, replies, 4712, 0, &query)?;
    let behind = is_later(rt, replies, 4712, 0, &update)? && one_key(rt, alloc, queue) == Some(0);
    let full = is_later(rt, replies, 4711, 2, &update)?
        && !is_later(rt, replies, 4711, 3, &update)?
        && one_key(rt, alloc, queue) == Some(2);
    let room = is_later(rt, replies, 4711, 3, &update)? && one_key(rt, alloc, queue) == Some(3);
    Some(first && again && other && beside && asked && behind && full && room)
}

/// How many updates are queued. None if one came from elsewhere than the connection with the key 0.
fn queued<R: Wait>(rt: &R, alloc: Global, queue: &Queue<QueuedUpdate>) -> Option<usize> {
    let mut taken = Vec::with_capacity(alloc, 8).ok()?;
    if !queue.take(rt, &mut taken) {
        return None;
    }
    let is_own = taken.as_slice().iter().all(|update| {
        matches!(
            update.reply_to,
            ReplyTo::Connection {
                worker: 1,
                key: 0,
                ..
            }
        )
    });
    if is_own { Some(taken.len()) } else { None }
}

/// Whether the updates after one that waits are queued with it, each once and in its turn, while a query isn't; and whether another client under
/// the same key begins anew.
fn wait_together<R: Wait, Z: FirstZone, N: ServerName>(
    rt: &R,
    alloc: Global,
    queue: &Queue<QueuedUpdate>,
    replies: &mut ConnectionHandler<'_, '_, Z, N, Kept>,
) -> Option<bool> {
    let (update, query) = (octets_of(alloc, UPDATE)?, octets_of(alloc, QUERY)?);
    let mut out = [0u8; 65_535];
    replies.turn_to(asker(4711), 0);
    replies.set_peer(updater());
    let early = !replies.prepare(rt, 0, &update, &mut out);
    let first = is_later(rt, replies, 4711, 0, &update)?;
    let later = !replies.prepare(rt, 1, &update, &mut out);
    let second = replies.prepare(rt, 0, &update, &mut out)
        && replies.prepare(rt, 0, &update, &mut out);
    let asked = !replies.prepare(rt, 1, &query, &mut out);
    let third = replies.prepare(rt, 1, &update, &mut out);
    let together = queued(rt, alloc, queue) == Some(3);
    let waits = is_later(rt, replies, 4711, 0, &update)?;
    let other = is_later(rt, replies, 4712, 0, &update)? && queued(rt, alloc, queue) == Some(1);
    let anew = replies.prepare(rt, 0, &update, &mut out) && queued(rt, alloc, queue) == Some(1);
    Some(early && first && later && second && asked && third && together && waits && other && anew)
}

/// The same, with one of the readers, which is put back.
fn is_submitted<R: Wait, Z: FirstZone, N: ServerName>(
    rt: &R,
    alloc: Global,
    server: &Server<'_, Z, N>,
    readers: &mut Vec<VersionReader<N>>,
    together: bool,
) -> Option<bool> {
    let queue = Queue::new(alloc, if together { ROOMY } else { MOST }).ok()?;
    let log = Kept::new(alloc);
    let replies = ConnectionHandler::new(
        alloc,
        server,
        readers.pop()?,
        &log,
        updater(),
        asker(4711),
    );
    let mut replies = replies.with_sender(UpdateSender {
        queue: &queue,
        worker: 1,
    });
    let is_submitted = if together {
        wait_together(rt, alloc, &queue, &mut replies)
    } else {
        is_submitted_once(rt, alloc, &queue, &mut replies)
    };
    readers.push(replies.into_reader(rt)).ok()?;
    is_submitted
}

/// The test of updates that are submitted, or of those that wait together.
struct Submitting {
    together: bool,
}

impl Play for Submitting {
    fn play<R: Wait, Z: FirstZone, N: ServerName>(
        &self,
        rt: &R,
        alloc: Global,
        cell: &VersionCell<Z, N>,
        publisher: VersionPublisher<Z, N>,
        mut readers: Vec<VersionReader<N>>,
        ledgers: ServerLedgers,
    ) -> Played<Z, N> {
        let Some(reader) = readers.pop() else {
            return Played {
                outcome: None,
                publisher,
                readers,
            };
        };
        let (outcome, publisher, reader) = match server_of(
            alloc, cell, publisher, reader, ledgers,
        ) {
            Ok(server) => {
                let outcome = is_submitted(rt, alloc, &server, &mut readers, self.together);
                let (publisher, reader) = server.finish();
                (outcome, publisher, reader)
            }
            Err(refused) => (None, refused.publisher, refused.reader),
        };
        let _ = readers.push(reader);
        Played {
            outcome,
            publisher,
            readers,
        }
    }
}

#[test]
fn a_queued_update_is_submitted_once(rt: HostRuntime) {
    let passed = match zone(rt.alloc()) {
        Some(zone) => is_played(&rt, rt.alloc(), zone, &Submitting { together: false }),
        None => None,
    };
    assert_eq!(rt; passed, Some(true));
}

#[test]
fn updates_of_a_connection_wait_together(rt: HostRuntime) {
    let passed = match zone(rt.alloc()) {
        Some(zone) => is_played(&rt, rt.alloc(), zone, &Submitting { together: true }),
        None => None,
    };
    assert_eq!(rt; passed, Some(true));
}

//! Brings the replies of updates that waited back to their threads (RFC 2136, 3.8).
ghost use Rattle.std.specs.Prelude.{None};

use crate::signed_jobs::SharedKeys;
use crate::thread_spec::{Sockets, ThreadSpec};
use crate::updates::Updates;
use counters::{Rcode, ServerCounters};
use message_counts::{id_of, nanos_of, rcode_of};
use signed_replies::{QueuedSigner, SystemClock};
use std::alloc::Global;
use std::io;
use std::net::{SocketAddr, UdpSocket};
use std::sync::Wait;
use std::time::Clock;
use tsig::RequestTsig;
use worker_jobs::{WakeList, is_sent};
use zone_server::{AtTicket, ReplySender};

/// How replies get to a thread.
#[derive(Drop)]
enum Path<'a> {
    /// The thread gets the keys of its connections whose replies are ready, and fetches the replies.
    Keys(&'a WakeList),
    /// The replies are sent by its UDP socket.
    Socket(UdpSocket),
    /// The thread gets no replies: it gets no updates, or looks for their results itself.
    Nowhere,
}

/// The routes by which replies get to threads, by the threads' places.
#[derive(Drop)]
pub(crate) struct ReplyRoutes<'a, C> {
    paths: Vec<Path<'a>>,
    /// Signs the replies to updates that were signed, where there are keys.
    signer: Option<QueuedSigner<'a, SystemClock<'a, C>>>,
    /// Where the replies by datagram are counted, if they are.
    counters: Option<&'a ServerCounters>,
    clock: &'a C,
}

/// What signs the replies by these keys, if there are any. An error where an allocation fails.
fn signer_of<'a, C: Clock>(
    alloc: Global,
    keys: Option<SharedKeys<'a>>,
    clock: &'a C,
) -> io::Result<Option<QueuedSigner<'a, SystemClock<'a, C>>>> {
    match keys {
        None => Ok(None),
        Some(keys) => Ok(Some(QueuedSigner::new(alloc, keys.keys, SystemClock::new(clock))?)),
    }
}

/// How replies get to the thread of a spec at a place. An error where its socket can't be shared.
fn path_to<'a>(spec: &ThreadSpec<'_>, updates: &'a Updates, place: usize) -> io::Result<Path<'a>> {
    match &spec.sockets {
        Sockets::Datagrams(socket) => Ok(Path::Socket(socket.try_clone()?)),
        Sockets::Connections(_) => match updates.wake_list_at(place) {
            Some(keys) => Ok(Path::Keys(keys)),
            None => Ok(Path::Nowhere),
        },
        // The thread that takes commands looks for the result of its update itself.
        Sockets::Secondaries(_) | Sockets::Control(_) | Sockets::Metrics(_) => Ok(Path::Nowhere),
    }
}

impl<'a, C: Clock> ReplyRoutes<'a, C> {
    /// Makes the routes to the threads of these specs, which submit their updates to `updates`. Replies are signed by these keys, if there are any, with the time of a clock, and
    /// are counted here, if they are. An error where a socket can't be shared, or an allocation fails.
    pub(crate) fn new(
        alloc: Global,
        specs: &[ThreadSpec<'_>],
        updates: &'a Updates,
        keys: Option<SharedKeys<'a>>,
        counters: Option<&'a ServerCounters>,
        clock: &'a C,
    ) -> io::Result<ReplyRoutes<'a, C>> {
        let mut paths = Vec::new(alloc);
        let mut place = 0usize;
        for spec in specs {
            let path = path_to(spec, updates, place)?;
            paths.push(path)?;
            place = place.saturating_add(1);
        }
        let signer = signer_of(alloc, keys, clock)?;
        Ok(ReplyRoutes {
            paths,
            signer,
            counters,
            clock,
        })
    }
}

/// Counts a reply to an update, which is sent as so many octets by the thread at a place, and how long the update took.
fn count<C: Clock>(
    counters: Option<&ServerCounters>,
    clock: &C,
    (worker, to): (usize, SocketAddr),
    reply: &[u8],
    octets: usize,
) {
    let Some(counters) = counters else {
        return;
    };
    let rcode = Rcode::of(rcode_of(reply));
    counters.updates().stream_update(rcode, octets as u64);
    if let Some(thread) = counters.thread(worker) {
        thread.end_update(to, id_of(reply), nanos_of(clock));
    }
}

impl<C: Clock> ReplySender for ReplyRoutes<'_, C> {
    ghost brought = { λ _. None };

    fn tell<R: Wait>(&mut self, rt: &R, worker: usize, key: usize, _told: AtTicket) {
        if let Some(Path::Keys(keys)) = self.paths.get(worker) {
            keys.tell(rt, key);
        }
    }

    fn send(&mut self, worker: usize, to: SocketAddr, tsig: Option<RequestTsig>, octets: &[u8]) {
        let Some(Path::Socket(socket)) = self.paths.get(worker) else {
            return;
        };
        let Some(tsig) = tsig else {
            count(
                self.counters,
                self.clock,
                (worker, to),
                octets,
                octets.len(),
            );
            let _ = is_sent(socket, octets, to);
            return;
        };
        if let Some(signer) = &mut self.signer {
            if let Some(signed) = signer.sign(tsig, octets) {
                count(
                    self.counters,
                    self.clock,
                    (worker, to),
                    octets,
                    signed.len(),
                );
                let _ = is_sent(socket, signed, to);
            }
        }
    }
}

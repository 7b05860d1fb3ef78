//! Two workers, one of which waits in the gate for the other: first on a datagram each, then on a stream each that reads and writes one octet
//! at a time.
ghost use Rattle.std.specs.Prelude.{◌≡◌};
ghost use Rattle.std.specs.List.{All};
ghost use Rattle.zone_server.specs.Right.{AreNamed};

use crate::frames::{QUERY, REPLY, frame_of};
use dns_engine::{FirstZone, SharedVersion, VersionReader, ZoneVersions};
use memory_devices::{
    Datagram, MemoryDatagrams, MemoryStream, NamedParts, NoLog, answer_datagrams, answer_stream,
    asker, end, named_parts, parts_of, server_of, zone,
};
use requests::{Allowed, Gate, Handler};
use serve_core::{Peer, Transport};
use snapshot_cell::Parts;
use std::alloc::Global;
use std::marker::Brand;
use std::process::Abort;
use std::sync::Wait;
use std::sync::atomic::{AtomicU64, Ordering};
use std::thread::{self, Threads};
use worker_jobs::{Job, run_workers};
use zone_replies::ConnectionHandler;
use zone_server::{Server, ServerLedgers, ServerName, ServiceLog};
use zone_tree::Zone;

/// The number of iterations after which a call that is held gives up.
const TURNS: u64 = 10_000_000;

/// The number of octets that can be written on a stream.
const ROOM: usize = 9_999;

/// A gate for the calls of two workers: the first call that enters is held until the other one leaves, and so is the first of the next two.
#[derive(Drop)]
struct HoldingGate {
    entered: AtomicU64,
    left: AtomicU64,
    gave_up: AtomicU64,
}

impl Gate for HoldingGate {
    fn enter(&self) {
        let before = self.entered.fetch_add(1, Ordering::SeqCst);
        if before & 1 != 0 {
            return;
        }
        for _ in 0..TURNS {
            if self.left.load(Ordering::SeqCst) > before {
                return;
            }
            thread::yield_now();
        }
        self.gave_up.store(1, Ordering::SeqCst);
    }

    fn leave(&self) {
        self.left.fetch_add(1, Ordering::SeqCst);
    }
}

/// A gate that is entered at each request, and not left.
#[derive(Drop)]
struct Entrance<'g, G> {
    gate: &'g G,
}

impl<G: Gate> Gate for Entrance<'_, G> {
    fn enter(&self) {
        self.gate.enter();
    }

    fn leave(&self) {}
}

/// The job of a worker, by its number: one datagram, then one stream, which is answered with a reader of its own.
#[derive(Drop)]
struct BothJob<'g, 's, Z: FirstZone, N: ServerName> {
    number: u16,
    alloc: Global,
    gate: &'g HoldingGate,
    server: &'g Server<'s, Z, N>,
    reader: Option<VersionReader<N>>,
    stream: Option<MemoryStream>,
    datagrams: Option<MemoryDatagrams>,
}

impl<'g, 's, Z: FirstZone + Send + Sync, N: ServerName + Send + Sync> Job
    for BothJob<'g, 's, Z, N> {
    ghost number = { λ job. job.number };

    ghost is_done = { λ _. Unit {0} };

    // For the stream, the gate is left after the reply is written.
    #[tactic(auto, using(requests::proofs::TurnLemmas::grows_itself))]
    fn run<R: Wait, A: Handler, L: ServiceLog>(&mut self, rt: &R, handler: &mut A, _log: &L) {
        let gate = self.gate;
        let Some(reader) = self.reader.take() else {
            return;
        };
        let Some(stream) = self.stream.take() else {
            return;
        };
        let Some(datagrams) = self.datagrams.take() else {
            return;
        };
        let mut request = [0u8; 65_535];
        let mut reply = [0u8; 65_535];
        let (_end, datagrams) = answer_datagrams(
            rt,
            handler,
            datagrams,
            Allowed::new(self.alloc, &[]),
            1,
            gate,
            &mut request,
            &mut reply,
        );
        let log = NoLog;
        let peer = Peer::over(Transport::Tcp, false);
        let mut replies = ConnectionHandler::new(
            self.alloc,
            self.server,
            reader,
            &log,
            peer,
            asker(4711),
        );
        let entrance = Entrance { gate };
        let mut room = [0u8; 4_096];
        let mut out = [0u8; 65_535];
        let (_end, stream) = answer_stream(
            rt,
            self.alloc,
            &mut replies,
            Allowed::new(self.alloc, &[]),
            asker(4711),
            stream,
            &entrance,
            &mut room,
            &mut out,
        );
        gate.leave();
        self.reader = Some(replies.into_reader(rt));
        self.stream = Some(stream);
        self.datagrams = Some(datagrams);
    }
}

impl<Z: FirstZone, N: ServerName> BothJob<'_, '_, Z, N> {
    /// Whether the one datagram sent, which must go to the client that sent the request, and the stream have exactly the message of a frame.
    fn has(&self, frame: &[u8]) -> bool {
        let (Some(datagrams), Some(stream)) = (&self.datagrams, &self.stream) else {
            return false;
        };
        let [datagram] = datagrams.sent() else {
            return false;
        };
        stream.written() == frame
            && Some(datagram.octets()) == frame.get(2..)
            && datagram.address() == asker(4711)
    }
}

/// A datagram with the message of a frame, to be received. None if memory allocation fails or the message is too long.
fn datagrams_of(alloc: Global, frame: &[u8]) -> Option<MemoryDatagrams> {
    let octets = frame.get(2..)?.to_vec(alloc).ok()?;
    if octets.len() > 65_535 {
        return None;
    }
    let mut datagrams = Vec::new(alloc);
    datagrams.push(Datagram::new(octets, asker(4711))).ok()?;
    Some(MemoryDatagrams::new(alloc, datagrams, Vec::new(alloc)))
}

/// The jobs of workers 1 and 2, each with a reader, and with one more for its stream. Each has a datagram and a stream with the query, whose ID
/// is the worker's number.
fn pairs_of<'g, 's, Z: FirstZone, N: ServerName>(
    alloc: Global,
    server: &'g Server<'s, Z, N>,
    gate: &'g HoldingGate,
    mut readers: Vec<VersionReader<N>>,
) -> Option<Vec<(VersionReader<N>, BothJob<'g, 's, Z, N>)>> {
    let mut pairs = Vec::new(alloc);
    for number in 1..3u16 {
        let frame = frame_of(alloc, number, QUERY).ok()?;
        let datagrams = Some(datagrams_of(alloc, &frame)?);
        let stream = Some(MemoryStream::new(alloc, frame, ROOM, 1).ok()?);
        let reader = readers.pop();
        let job = BothJob {
            number,
            alloc,
            gate,
            server,
            reader,
            stream,
            datagrams,
        };
        pairs.push((readers.pop()?, job)).ok()?;
    }
    Some(pairs)
}

/// Whether the jobs are 1 and 2, in this order, and each has the reply to its own request.
fn are_replied<Z: FirstZone, N: ServerName>(
    alloc: Global,
    pairs: &[(VersionReader<N>, BothJob<'_, '_, Z, N>)],
) -> Option<bool> {
    let mut number = 0u16;
    for (_, job) in pairs {
        number = number.saturating_add(1);
        let frame = frame_of(alloc, number, REPLY).ok()?;
        if job.number != number || !job.has(&frame) {
            return Some(false);
        }
    }
    Some(number == 2)
}

/// The readers of jobs that have ended.
fn readers_of<Z: FirstZone, N: ServerName>(
    alloc: Global,
    pairs: Vec<(VersionReader<N>, BothJob<'_, '_, Z, N>)>,
) -> Option<Vec<VersionReader<N>>> {
    let mut readers = Vec::new(alloc);
    for (reader, job) in pairs {
        let mut job = job;
        readers.push(reader).ok()?;
        readers.push(job.reader.take()?).ok()?;
    }
    Some(readers)
}

/// Answers all requests by two workers, of which the first to get a request waits for the other. Returns their readers.
fn serve<R: Wait + Threads + Sync + Abort, Z: FirstZone + Send + Sync, N: ServerName + Send + Sync>(
    rt: &R,
    alloc: Global,
    server: &Server<'_, Z, N>,
    readers: Vec<VersionReader<N>>,
) -> Vec<VersionReader<N>> {
    let gate = HoldingGate {
        entered: AtomicU64::new(0),
        left: AtomicU64::new(0),
        gave_up: AtomicU64::new(0),
    };
    let pairs = pairs_of(alloc, server, &gate, readers).expect(rt, "memory");
    let Ok(pairs) = run_workers(rt, alloc, server, pairs, &NoLog) else {
        panic!(rt; "a thread is refused");
    };
    let is_well = gate.gave_up.load(Ordering::SeqCst) == 0;
    assert!(rt; is_well && are_replied(alloc, &pairs) == Some(true));
    readers_of(alloc, pairs).expect(rt, "memory")
}

/// The same over a cell in which only the first version of a zone is published. The cell is then closed.
fn serve_in<
    R: Wait + Threads + Sync + Abort,
    Z: FirstZone + Send + Sync,
    N: ServerName + Send + Sync,
>(rt: &R, alloc: Global, parts: Parts<SharedVersion, ZoneVersions<Z>>, ledgers: ServerLedgers)
    requires cell { (parts.cell ≡ N.cell) × (parts.publisher.cell ≡ N.cell) }
    requires readers { All (λ r. r.cell ≡ N.cell) parts.readers.items }
    requires first { parts.publisher.number ≡ 0 }
    requires named { AreNamed N.published N.reserved ledgers }
{
    let Some(
        NamedParts {
            cell,
            publisher,
            mut readers,
        },
    ) = named_parts::<R, Z, N>(rt, alloc, parts)
    else {
        panic!(rt; "there is no memory");
    };
    let reader = readers.pop().expect(rt, "a reader");
    let Ok(server) = server_of(alloc, &cell, publisher, reader, ledgers) else {
        panic!(rt; "there is no server");
    };
    let mut readers = serve(rt, alloc, &server, readers);
    let (publisher, reader) = server.finish();
    readers.push(reader).ok().expect(rt, "memory");
    end(
        rt,
        NamedParts {
            cell,
            publisher,
            readers,
        },
    );
}

/// The same over a cell that starts with the zone, with a reader for the server and two for each worker.
fn serve_from<R: Wait + Threads + Sync + Abort, Z: FirstZone + Send + Sync>(
    rt: &R,
    alloc: Global,
    zone: Zone,
)
    requires { zone ≡ Z.zone }
{
    let Some(parts) = parts_of::<Z>(alloc, zone, 5) else {
        panic!(rt; "there is no memory");
    };
    let ledgers = ServerLedgers::new();
    serve_in::<R, Z, Brand>(rt, alloc, parts, ledgers);
}

// The query of the first datagram waits in the gate until the other one has been answered, and that of the first stream until the reply on the
// other one is written: each worker has a thread of its own, however slow its stream is.
#[test]
fn gate_two_workers(rt: HostRuntime) {
    let zone = zone(rt.alloc()).expect(&rt, "a zone");
    serve_from::<HostRuntime, Brand>(&rt, rt.alloc(), zone);
}

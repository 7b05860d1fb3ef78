//! What the threads of a server do: each has a job on sockets, and answers its requests by a handler.
ghost use Rattle.std.specs.Prelude.{◌≡◌, Some, map};
ghost use Rattle.requests.specs.Served.{BeginsWith};
ghost use Rattle.serve_workers.specs.Numbers.{number_of, end_of};
ghost use Rattle.tcp_connections.specs.Requests.{EachGrows};
ghost use Rattle.zone_tree.specs.Version.{Version};

use crate::counted_jobs::CountedJob;
use crate::signed_jobs::SignedJob;
use crate::updates::Updates;
use counted_requests::{CountedMessages, CountingConnections};
use dns_engine::{FirstZone, VersionReader};
use message_counts::{DatagramCounts, NoCounts, ThreadCounts};
use serve_core::{Peer, Transport};
use server_control::{ControlJob, MetricsJob};
use signed_replies::{
    KeyRing, PlainRoom, RingKeys, SignedConnections, SignedDatagrams, SignedMessages, SystemClock,
};
use sockets::{TcpPeer, TcpPlace, Watch};
use std::alloc::Global;
use std::marker::Brand;
use std::sync::Wait;
use std::time::Clock;
use tcp_connections::{Handler, Messages};
use worker_jobs::{ConnectionsJob, DatagramsJob, NotifyJob, WorkerSocket, nobody};
use zone_replies::{ConnectionHandler, Transfer};
use zone_server::{
    DatagramHandler, Event, JobEnd, Server, ServerName, ServiceLog, TsigLines, UpdateSender,
};

/// A job on the system's TCP connections, whose replies of several messages are made by an `M`.
pub type TcpJob<'a, M, C> = ConnectionsJob<'a, TcpPeer, Watch<'a, C>, TcpPlace, M, C>;

/// A job on UDP datagrams, which a `T` counts.
pub type UdpJob<'a, T> = DatagramsJob<'a, WorkerSocket<'a, T>>;

/// A job on the system's TCP connections whose requests are counted.
type CountedTcpJob<'a, M, C> = CountedJob<'a, TcpJob<'a, CountedMessages<'a, M>, C>, C>;

/// A job on TCP connections whose requests may be signed.
type SignedTcpJob<'a, C> = SignedJob<'a, TcpJob<'a, SignedMessages<'a, Transfer>, C>, C>;

/// The same, whose requests are counted.
type CountedSignedTcpJob<'a, C> = SignedJob<
    'a,
    CountedTcpJob<'a, SignedMessages<'a, Transfer>, C>,
    C,
>;

/// A thread's job on sockets.
#[derive(Drop)]
pub enum SocketJob<'a, C> {
    /// Answers requests by UDP.
    Datagrams(UdpJob<'a, NoCounts>),
    /// Serves TCP connections.
    Connections(TcpJob<'a, Transfer, C>),
    /// Answers requests by UDP, which may be signed.
    SignedDatagrams(SignedJob<'a, UdpJob<'a, NoCounts>, C>),
    /// Serves TCP connections, whose requests may be signed.
    SignedConnections(SignedTcpJob<'a, C>),
    /// Answers requests by UDP, and counts them.
    CountedDatagrams(UdpJob<'a, ThreadCounts<'a, C>>),
    /// Serves TCP connections, and counts their requests.
    CountedConnections(CountedTcpJob<'a, Transfer, C>),
    /// Answers requests by UDP, which may be signed, and counts them.
    CountedSignedDatagrams(SignedJob<'a, UdpJob<'a, ThreadCounts<'a, C>>, C>),
    /// Serves TCP connections, whose requests may be signed, and counts these.
    CountedSignedConnections(CountedSignedTcpJob<'a, C>),
    /// Notifies the secondaries of each version.
    Secondaries(NotifyJob<'a, C>),
    /// Takes the operator's commands.
    Control(ControlJob<'a, C>),
    /// Tells what is counted.
    Metrics(MetricsJob<'a, C>),
}

/// Does a job on a UDP socket, with a handler that answers its requests by a reader, and submits updates by a sender. Gives the reader back, and how the job ended.
fn serve_datagrams<'g, 's, R: Wait, Z: FirstZone, N: ServerName, L: ServiceLog, T: DatagramCounts>(
    rt: &R,
    alloc: Global,
    server: &'g Server<'s, Z, N>,
    log: &'g L,
    sender: UpdateSender<'g>,
    reader: VersionReader<N>,
    job: &mut UdpJob<'g, T>,
) -> (VersionReader<N>, JobEnd)
    ensures number { job.new.number ≡ job.old.number }
    ensures seen { BeginsWith result.0.seen reader.seen }
    ensures end { job.new.end ≡ Some result.1 }
{
    let peer = Peer::over(Transport::Udp, false);
    let handler = DatagramHandler::new(alloc, server, reader, log, peer, nobody());
    let handler = handler.with_rules(job.allowed());
    let mut handler = handler.with_sender(sender);
    let end = job.serve(rt, &mut handler);
    (handler.into_reader(), end)
}

/// Does a job on connections, with a handler that answers their requests by a reader, and submits updates by a sender. Gives the reader back, and how the job ended.
fn serve_connections<'g, 's, R: Wait, Z: FirstZone, N: ServerName, L: ServiceLog, C: Clock>(
    rt: &R,
    alloc: Global,
    server: &'g Server<'s, Z, N>,
    log: &'g L,
    sender: UpdateSender<'g>,
    reader: VersionReader<N>,
    job: &mut TcpJob<'g, Transfer, C>,
) -> (VersionReader<N>, JobEnd)
    ensures number { job.new.number ≡ job.old.number }
    ensures seen { BeginsWith result.0.seen reader.seen }
    ensures end { job.new.end ≡ Some result.1 }
{
    let peer = Peer::over(Transport::Udp, false);
    let handler = ConnectionHandler::new(alloc, server, reader, log, peer, nobody());
    let handler = handler.with_rules(job.allowed());
    let mut handler = handler.with_sender(sender);
    let end = job.serve(rt, &mut handler, log);
    (handler.into_reader(rt), end)
}

/// Does a job on connections with a handler, and counts the requests. Gives the handler back, and how the job ended.
fn serve_counting<'g, R: Wait, M: Messages, A: Handler<M>, L: ServiceLog, C: Clock>(
    rt: &R,
    log: &'g L,
    handler: A,
    counts: ThreadCounts<'g, C>,
    job: &mut TcpJob<'g, CountedMessages<'g, M>, C>,
) -> (A, JobEnd)
    ensures number { job.new.number ≡ job.old.number }
    ensures grows { EachGrows {T = Version} (A.seen result.0) (A.seen handler) }
    ensures end { job.new.end ≡ Some result.1 }
{
    let mut counting = CountingConnections::new(handler, counts, nobody());
    let end = job.serve(rt, &mut counting, log);
    (counting.into_inner(), end)
}

/// Does a job on connections whose requests are counted, as [`serve_connections`] does.
fn serve_counted_connections<'g, 's, R: Wait, Z: FirstZone, N: ServerName, L: ServiceLog, C: Clock>(
    rt: &R,
    alloc: Global,
    server: &'g Server<'s, Z, N>,
    log: &'g L,
    sender: UpdateSender<'g>,
    reader: VersionReader<N>,
    counted: &mut CountedTcpJob<'g, Transfer, C>,
) -> (VersionReader<N>, JobEnd)
    ensures number { counted.new.job.number ≡ counted.old.job.number }
    ensures seen { BeginsWith result.0.seen reader.seen }
    ensures end { counted.new.job.end ≡ Some result.1 }
{
    let peer = Peer::over(Transport::Udp, false);
    let handler = ConnectionHandler::new(alloc, server, reader, log, peer, nobody());
    let handler = handler.with_rules(counted.job.allowed());
    let handler = handler.with_sender(sender);
    let counts = ThreadCounts::new(counted.shown, counted.clock);
    let (handler, end) = serve_counting(rt, log, handler, counts, &mut counted.job);
    (handler.into_reader(rt), end)
}

/// Does a job on a UDP socket whose requests may be signed, as [`serve_datagrams`] does.
fn serve_signed_datagrams<
    'g,
    's,
    R: Wait,
    Z: FirstZone,
    N: ServerName,
    L: ServiceLog,
    C: Clock,
    K: KeyRing,
    T: DatagramCounts,
>(
    rt: &R,
    alloc: Global,
    server: &'g Server<'s, Z, N>,
    log: &'g L,
    sender: UpdateSender<'g>,
    reader: VersionReader<N>,
    signed: &mut SignedJob<'g, UdpJob<'g, T>, C>,
) -> (VersionReader<N>, JobEnd)
    requires keys { signed.old.keys.keys.now ≡ K.keys }
    requires rights { map (λ own. own.rules.now) signed.old.keys.rights.now ≡ K.rights }
    ensures number { signed.new.job.number ≡ signed.old.job.number }
    ensures seen { BeginsWith result.0.seen reader.seen }
    ensures end { signed.new.job.end ≡ Some result.1 }
{
    let Ok(room) = PlainRoom::new(alloc) else {
        signed.job.give_up(JobEnd::NoMemory);
        return (reader, JobEnd::NoMemory);
    };
    let peer = Peer::over(Transport::Udp, false);
    let handler = DatagramHandler::new(alloc, server, reader, log, peer, nobody());
    let handler = handler.with_sender(sender);
    let ring: RingKeys<'g, K> = RingKeys::new(alloc, signed.keys.keys, signed.keys.rights);
    let mut handler = SignedDatagrams::new(
        handler,
        &ring,
        SystemClock::new(signed.clock),
        TsigLines::new(log),
        room,
        peer,
        nobody(),
    );
    let end = signed.job.serve(rt, &mut handler);
    (handler.into_inner().into_reader(), end)
}

/// Does a job on connections whose requests may be signed, as [`serve_connections`] does.
fn serve_signed_connections<
    'g,
    's,
    R: Wait,
    Z: FirstZone,
    N: ServerName,
    L: ServiceLog,
    C: Clock,
    K: KeyRing,
>(
    rt: &R,
    alloc: Global,
    server: &'g Server<'s, Z, N>,
    log: &'g L,
    sender: UpdateSender<'g>,
    reader: VersionReader<N>,
    signed: &mut SignedTcpJob<'g, C>,
) -> (VersionReader<N>, JobEnd)
    requires keys { signed.old.keys.keys.now ≡ K.keys }
    requires rights { map (λ own. own.rules.now) signed.old.keys.rights.now ≡ K.rights }
    ensures number { signed.new.job.number ≡ signed.old.job.number }
    ensures seen { BeginsWith result.0.seen reader.seen }
    ensures end { signed.new.job.end ≡ Some result.1 }
{
    let Ok(room) = PlainRoom::new(alloc) else {
        signed.job.give_up(JobEnd::NoMemory);
        return (reader, JobEnd::NoMemory);
    };
    let peer = Peer::over(Transport::Udp, false);
    let handler = ConnectionHandler::new(alloc, server, reader, log, peer, nobody());
    let handler = handler.with_sender(sender);
    let ring: RingKeys<'g, K> = RingKeys::new(alloc, signed.keys.keys, signed.keys.rights);
    let mut handler = SignedConnections::new(
        alloc,
        handler,
        &ring,
        SystemClock::new(signed.clock),
        TsigLines::new(log),
        room,
        peer,
        nobody(),
    );
    let end = signed.job.serve(rt, &mut handler, log);
    (handler.into_inner().into_reader(rt), end)
}

/// Does a job on connections whose requests may be signed and are counted, as [`serve_signed_connections`] does.
fn serve_counted_signed<
    'g,
    's,
    R: Wait,
    Z: FirstZone,
    N: ServerName,
    L: ServiceLog,
    C: Clock,
    K: KeyRing,
>(
    rt: &R,
    alloc: Global,
    server: &'g Server<'s, Z, N>,
    log: &'g L,
    sender: UpdateSender<'g>,
    reader: VersionReader<N>,
    signed: &mut CountedSignedTcpJob<'g, C>,
) -> (VersionReader<N>, JobEnd)
    requires keys { signed.old.keys.keys.now ≡ K.keys }
    requires rights { map (λ own. own.rules.now) signed.old.keys.rights.now ≡ K.rights }
    ensures number { signed.new.job.job.number ≡ signed.old.job.job.number }
    ensures seen { BeginsWith result.0.seen reader.seen }
    ensures end { signed.new.job.job.end ≡ Some result.1 }
{
    let Ok(room) = PlainRoom::new(alloc) else {
        signed.job.job.give_up(JobEnd::NoMemory);
        return (reader, JobEnd::NoMemory);
    };
    let peer = Peer::over(Transport::Udp, false);
    let handler = ConnectionHandler::new(alloc, server, reader, log, peer, nobody());
    let handler = handler.with_sender(sender);
    let ring: RingKeys<'g, K> = RingKeys::new(alloc, signed.keys.keys, signed.keys.rights);
    let handler = SignedConnections::new(
        alloc,
        handler,
        &ring,
        SystemClock::new(signed.clock),
        TsigLines::new(log),
        room,
        peer,
        nobody(),
    );
    let counts = ThreadCounts::new(signed.job.shown, signed.job.clock);
    let (handler, end) = serve_counting(rt, log, handler, counts, &mut signed.job.job);
    (handler.into_inner().into_reader(rt), end)
}

/// Does a job that notifies secondaries, with a handler that loads versions for it by a reader. Gives the reader back, and how the job ended.
fn serve_secondaries<'g, 's, R: Wait, Z: FirstZone, N: ServerName, L: ServiceLog, C: Clock>(
    rt: &R,
    alloc: Global,
    server: &'g Server<'s, Z, N>,
    log: &'g L,
    reader: VersionReader<N>,
    job: &mut NotifyJob<'g, C>,
) -> (VersionReader<N>, JobEnd)
    ensures number { job.new.number ≡ job.old.number }
    ensures seen { BeginsWith result.0.seen reader.seen }
    ensures end { job.new.end ≡ Some result.1 }
{
    let peer = Peer::over(Transport::Udp, false);
    let mut handler = DatagramHandler::new(alloc, server, reader, log, peer, nobody());
    let end = job.serve(rt, &mut handler, log);
    (handler.into_reader(), end)
}

/// Does a job that takes the operator's commands, with a handler that loads versions for it by a reader, and submits updates by a sender. Gives the reader back, and how the job
/// ended.
fn serve_control<'g, 's, R: Wait, Z: FirstZone, N: ServerName, L: ServiceLog, C: Clock>(
    rt: &R,
    alloc: Global,
    server: &'g Server<'s, Z, N>,
    log: &'g L,
    sender: UpdateSender<'g>,
    reader: VersionReader<N>,
    job: &mut ControlJob<'g, C>,
) -> (VersionReader<N>, JobEnd)
    ensures number { job.new.number ≡ job.old.number }
    ensures seen { BeginsWith result.0.seen reader.seen }
    ensures end { job.new.end ≡ Some result.1 }
{
    let peer = Peer::over(Transport::Udp, false);
    let handler = DatagramHandler::new(alloc, server, reader, log, peer, nobody());
    let mut handler = handler.with_sender(sender);
    let end = job.serve(rt, &mut handler, log);
    (handler.into_reader(), end)
}

/// Does a job that tells what is counted, with a handler that loads versions for it by a reader. Gives the reader back, and how the job ended.
fn serve_metrics<'g, 's, R: Wait, Z: FirstZone, N: ServerName, L: ServiceLog, C: Clock>(
    rt: &R,
    alloc: Global,
    server: &'g Server<'s, Z, N>,
    log: &'g L,
    reader: VersionReader<N>,
    job: &mut MetricsJob<'g, C>,
) -> (VersionReader<N>, JobEnd)
    ensures number { job.new.number ≡ job.old.number }
    ensures seen { BeginsWith result.0.seen reader.seen }
    ensures end { job.new.end ≡ Some result.1 }
{
    let peer = Peer::over(Transport::Udp, false);
    let mut handler = DatagramHandler::new(alloc, server, reader, log, peer, nobody());
    let end = job.serve(rt, &mut handler);
    (handler.into_reader(), end)
}

impl<'g, C: Clock> SocketJob<'g, C> {
    /// Does the job, with a handler that answers requests by a reader, and submits updates by a sender. A job that notifies secondaries submits none. Gives the reader back,
    /// and how the job ended.
    pub(crate) fn serve<'s, R: Wait, Z: FirstZone, N: ServerName, L: ServiceLog>(
        &mut self,
        rt: &R,
        alloc: Global,
        server: &'g Server<'s, Z, N>,
        log: &'g L,
        sender: UpdateSender<'g>,
        reader: VersionReader<N>,
    ) -> (VersionReader<N>, JobEnd)
        ensures number { number_of self.new ≡ number_of self.old }
        ensures seen { BeginsWith result.0.seen reader.seen }
        ensures end { end_of self.new ≡ Some result.1 }
    {
        match self {
            SocketJob::Datagrams(job) => {
                serve_datagrams(rt, alloc, server, log, sender, reader, job)
            }
            SocketJob::Connections(job) => {
                serve_connections(rt, alloc, server, log, sender, reader, job)
            }
            SocketJob::SignedDatagrams(signed) => {
                serve_signed_datagrams::<R, Z, N, L, C, Brand, NoCounts>(
                    rt, alloc, server, log, sender, reader, signed,
                )
            }
            SocketJob::SignedConnections(signed) => {
                serve_signed_connections::<R, Z, N, L, C, Brand>(
                    rt, alloc, server, log, sender, reader, signed,
                )
            }
            SocketJob::CountedDatagrams(job) => {
                serve_datagrams(rt, alloc, server, log, sender, reader, job)
            }
            SocketJob::CountedConnections(counted) => {
                serve_counted_connections(rt, alloc, server, log, sender, reader, counted)
            }
            SocketJob::CountedSignedDatagrams(signed) => {
                serve_signed_datagrams::<R, Z, N, L, C, Brand, ThreadCounts<'g, C>>(
                    rt, alloc, server, log, sender, reader, signed,
                )
            }
            SocketJob::CountedSignedConnections(signed) => {
                serve_counted_signed::<R, Z, N, L, C, Brand>(
                    rt, alloc, server, log, sender, reader, signed,
                )
            }
            SocketJob::Secondaries(job) => serve_secondaries(rt, alloc, server, log, reader, job),
            SocketJob::Metrics(job) => serve_metrics(rt, alloc, server, log, reader, job),
            SocketJob::Control(job) => {
                serve_control(rt, alloc, server, log, sender, reader, job)
            }
        }
    }

    /// The event that is logged when the job has ended so.
    pub(crate) fn event_of(&self, end: JobEnd) -> Event {
        let worker = self.number();
        let transport = match self {
            SocketJob::Datagrams(_)
            | SocketJob::SignedDatagrams(_)
            | SocketJob::CountedDatagrams(_)
            | SocketJob::CountedSignedDatagrams(_) => Transport::Udp,
            SocketJob::Connections(_)
            | SocketJob::SignedConnections(_)
            | SocketJob::CountedConnections(_)
            | SocketJob::CountedSignedConnections(_) => Transport::Tcp,
            SocketJob::Secondaries(_) => return Event::Unlogged { end },
            SocketJob::Control(_) => return Event::ControlEnd { end },
            SocketJob::Metrics(_) => return Event::MetricsEnd { end },
        };
        Event::End {
            worker,
            transport,
            end,
        }
    }

    /// Notes that its thread submits no more updates. Nothing is noted for a job that gets no updates.
    pub(crate) fn leave<R: Wait>(&self, rt: &R, updates: &Updates) {
        match self {
            SocketJob::Datagrams(_) => updates.leave(rt),
            SocketJob::Connections(_) => updates.leave(rt),
            SocketJob::SignedDatagrams(_) => updates.leave(rt),
            SocketJob::SignedConnections(_) => updates.leave(rt),
            SocketJob::CountedDatagrams(_) => updates.leave(rt),
            SocketJob::CountedConnections(_) => updates.leave(rt),
            SocketJob::CountedSignedDatagrams(_) => updates.leave(rt),
            SocketJob::CountedSignedConnections(_) => updates.leave(rt),
            SocketJob::Control(_) => updates.leave(rt),
            SocketJob::Secondaries(_) => {}
            SocketJob::Metrics(_) => {}
        }
    }

    /// The job's number.
    fn number(&self) -> usize
        ensures { result ≡ number_of self.now }
    {
        match self {
            SocketJob::Datagrams(job) => job.number,
            SocketJob::Connections(job) => job.number,
            SocketJob::SignedDatagrams(signed) => signed.job.number,
            SocketJob::SignedConnections(signed) => signed.job.number,
            SocketJob::CountedDatagrams(job) => job.number,
            SocketJob::CountedConnections(counted) => counted.job.number,
            SocketJob::CountedSignedDatagrams(signed) => signed.job.number,
            SocketJob::CountedSignedConnections(signed) => signed.job.job.number,
            SocketJob::Secondaries(job) => job.number,
            SocketJob::Control(job) => job.number,
            SocketJob::Metrics(job) => job.number,
        }
    }
}

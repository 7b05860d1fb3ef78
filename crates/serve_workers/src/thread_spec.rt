//! What a thread serves, and the job that is made of it.
ghost use Rattle.std.specs.Prelude.{◌≡◌, true, false, IfOk};
ghost use Rattle.serve_workers.specs.Numbers.{number_of, takes_datagrams, are_datagrams, HasRights};

use crate::counted_jobs::CountedJob;
use crate::jobs::tcp_job;
use crate::service::Plan;
use crate::signed_jobs::SignedJob;
use crate::threads::{SocketJob, UdpJob};
use counters::SharedCounters;
use message_counts::{DatagramCounts, NoCounts, ThreadCounts};
use server_control::{ControlJob, ControlPlan, MetricsJob, MetricsPlan};
use std::alloc::Global;
use std::io;
use std::net::{Net, TcpListener, UdpSocket};
use std::sync::Wait;
use std::time::Clock;
use worker_jobs::{
    DatagramsJob, NotifyJob, Scratch, Secondaries, StopFlag, WakeList, WorkLimit, WorkerSocket,
};

/// What one thread serves.
pub enum Sockets {
    /// A UDP socket.
    Datagrams(UdpSocket),
    /// Nonblocking TCP listeners.
    Connections(Vec<TcpListener>),
    /// The secondaries that are notified of each version.
    Secondaries(Secondaries),
    /// The operator, by a socket for commands.
    Control(ControlPlan),
    /// Who asks for metrics.
    Metrics(MetricsPlan),
}

impl Drop for Sockets {
    fn drop(self) {
        match self {
            Sockets::Datagrams(_) => {}
            Sockets::Connections(_) => {}
            Sockets::Secondaries(_) => {}
            Sockets::Control(_) => {}
            Sockets::Metrics(_) => {}
        }
    }
}

impl Sockets {
    /// The job of the worker with a number on these sockets. It learns of ready connections by `wakes`, if it has one, and shows what it counts at `shown`, if there is that. An error where its sockets can't be polled, or an
    /// allocation fails.
    fn into_job<'a, R: Clock + Net + Wait>(
        self,
        rt: &'a R,
        alloc: Global,
        worker: usize,
        stop: StopFlag<'a>,
        plan: Plan<'a>,
        wakes: Option<&'a WakeList>,
        shown: Option<&'a SharedCounters>,
        scratch: Scratch,
    ) -> io::Result<SocketJob<'a, R>>
        ensures number { IfOk result (λ job. number_of job ≡ worker) }
        ensures kind { IfOk result (λ job. takes_datagrams job ≡ are_datagrams self) }
        ensures rights { IfOk result (λ job. HasRights plan.entry.connections.allowed.rules.now job) }
    {
        match self {
            Sockets::Datagrams(socket) => match shown {
                None => plain_udp_job(rt, alloc, worker, socket, stop, plan, scratch),
                Some(shown) => {
                    counted_udp_job(rt, alloc, worker, socket, stop, plan, shown, scratch)
                }
            },
            Sockets::Connections(listeners) => match shown {
                None => plain_tcp_job(rt, alloc, worker, listeners, plan, stop, wakes, scratch),
                Some(shown) => {
                    counted_tcp_job(
                        rt, alloc, worker, listeners, plan, stop, wakes, shown, scratch,
                    )
                }
            },
            Sockets::Secondaries(secondaries) => {
                let keys = plan.keys.map(|shared| shared.keys);
                let (shutdown, counters) = (plan.shutdown, plan.counters);
                match NotifyJob::new(alloc, worker, secondaries, rt, shutdown, keys, counters) {
                    Ok(job) => Ok(SocketJob::Secondaries(job)),
                    Err(fault) => Err(io::Error::from(fault)),
                }
            }
            Sockets::Control(control) => {
                let counters = plan.counters;
                match ControlJob::new(alloc, worker, control, counters, rt, plan.shutdown) {
                    Ok(job) => Ok(SocketJob::Control(job)),
                    Err(fault) => Err(io::Error::from(fault)),
                }
            }
            Sockets::Metrics(metrics) => {
                let counters = plan.counters;
                match MetricsJob::new(alloc, worker, metrics, counters, rt, plan.shutdown) {
                    Ok(job) => Ok(SocketJob::Metrics(job)),
                    Err(fault) => Err(io::Error::from(fault)),
                }
            }
        }
    }
}

/// The job on a socket, whose datagrams are counted so. An error where its timeout can't be set, or an allocation fails.
fn udp_job<'a, T: DatagramCounts>(
    alloc: Global,
    worker: usize,
    socket: UdpSocket,
    stop: StopFlag<'a>,
    plan: Plan<'a>,
    counts: T,
    scratch: Scratch,
) -> io::Result<UdpJob<'a, T>>
    ensures number { IfOk result (λ job. job.number ≡ worker) }
    ensures rights { IfOk result (λ job. job.job.allowed.rules.now ≡ plan.entry.connections.allowed.rules.now) }
{
    let allowed = plan.connections.allowed;
    match WorkerSocket::new(alloc, socket, stop, counts) {
        Ok(socket) => Ok(DatagramsJob::new(worker, socket, allowed, stop, scratch)),
        Err(fault) => Err(fault),
    }
}

/// The job on a socket, whose requests may be signed if there are keys. An error as of [`udp_job`].
fn plain_udp_job<'a, R: Clock>(
    rt: &'a R,
    alloc: Global,
    worker: usize,
    socket: UdpSocket,
    stop: StopFlag<'a>,
    plan: Plan<'a>,
    scratch: Scratch,
) -> io::Result<SocketJob<'a, R>>
    ensures number { IfOk result (λ job. number_of job ≡ worker) }
    ensures kind { IfOk result (λ job. takes_datagrams job ≡ true) }
    ensures rights { IfOk result (λ job. HasRights plan.entry.connections.allowed.rules.now job) }
{
    match udp_job(alloc, worker, socket, stop, plan, NoCounts, scratch) {
        Ok(job) => match plan.keys {
            None => Ok(SocketJob::Datagrams(job)),
            Some(keys) => Ok(SocketJob::SignedDatagrams(SignedJob::new(job, keys, rt))),
        },
        Err(fault) => Err(fault),
    }
}

/// The same, whose datagrams are counted.
fn counted_udp_job<'a, R: Clock>(
    rt: &'a R,
    alloc: Global,
    worker: usize,
    socket: UdpSocket,
    stop: StopFlag<'a>,
    plan: Plan<'a>,
    shown: &'a SharedCounters,
    scratch: Scratch,
) -> io::Result<SocketJob<'a, R>>
    ensures number { IfOk result (λ job. number_of job ≡ worker) }
    ensures kind { IfOk result (λ job. takes_datagrams job ≡ true) }
    ensures rights { IfOk result (λ job. HasRights plan.entry.connections.allowed.rules.now job) }
{
    let counts = ThreadCounts::new(shown, rt);
    match udp_job(alloc, worker, socket, stop, plan, counts, scratch) {
        Ok(job) => match plan.keys {
            None => Ok(SocketJob::CountedDatagrams(job)),
            Some(keys) => Ok(SocketJob::CountedSignedDatagrams(SignedJob::new(job, keys, rt))),
        },
        Err(fault) => Err(fault),
    }
}

/// The job on nonblocking listeners, whose requests may be signed if there are keys. An error where they can't be polled, or an allocation fails.
fn plain_tcp_job<'a, R: Clock + Net + Wait>(
    rt: &'a R,
    alloc: Global,
    worker: usize,
    listeners: Vec<TcpListener>,
    plan: Plan<'a>,
    stop: StopFlag<'a>,
    wakes: Option<&'a WakeList>,
    scratch: Scratch,
) -> io::Result<SocketJob<'a, R>>
    ensures number { IfOk result (λ job. number_of job ≡ worker) }
    ensures kind { IfOk result (λ job. takes_datagrams job ≡ false) }
    ensures rights { IfOk result (λ job. HasRights plan.entry.connections.allowed.rules.now job) }
{
    let Some(keys) = plan.keys else {
        return match tcp_job(rt, alloc, worker, listeners, plan, stop, wakes, scratch) {
            Ok(job) => Ok(SocketJob::Connections(job)),
            Err(fault) => Err(fault),
        };
    };
    match tcp_job(rt, alloc, worker, listeners, plan, stop, wakes, scratch) {
        Ok(job) => Ok(SocketJob::SignedConnections(SignedJob::new(job, keys, rt))),
        Err(fault) => Err(fault),
    }
}

/// The same, whose requests are counted.
fn counted_tcp_job<'a, R: Clock + Net + Wait>(
    rt: &'a R,
    alloc: Global,
    worker: usize,
    listeners: Vec<TcpListener>,
    plan: Plan<'a>,
    stop: StopFlag<'a>,
    wakes: Option<&'a WakeList>,
    shown: &'a SharedCounters,
    scratch: Scratch,
) -> io::Result<SocketJob<'a, R>>
    ensures number { IfOk result (λ job. number_of job ≡ worker) }
    ensures kind { IfOk result (λ job. takes_datagrams job ≡ false) }
    ensures rights { IfOk result (λ job. HasRights plan.entry.connections.allowed.rules.now job) }
{
    let Some(keys) = plan.keys else {
        return match tcp_job(rt, alloc, worker, listeners, plan, stop, wakes, scratch) {
            Ok(job) => Ok(SocketJob::CountedConnections(CountedJob::new(job, shown, rt))),
            Err(fault) => Err(fault),
        };
    };
    match tcp_job(rt, alloc, worker, listeners, plan, stop, wakes, scratch) {
        Ok(job) => {
            let counted = CountedJob::new(job, shown, rt);
            Ok(SocketJob::CountedSignedConnections(SignedJob::new(counted, keys, rt)))
        }
        Err(fault) => Err(fault),
    }
}

/// What one thread of a worker does.
pub struct ThreadSpec<'a> {
    /// The worker's number, from 1.
    pub worker: usize,
    /// The worker's limit, which its threads share.
    pub limit: &'a WorkLimit,
    /// What the thread serves.
    pub sockets: Sockets,
}

impl<'a> Drop for ThreadSpec<'a> {
    fn drop(self) {
        let ThreadSpec {
            worker: _,
            limit: _,
            sockets: _,
        } = self;
    }
}

impl<'a> ThreadSpec<'a> {
    /// The job of the thread, which learns of ready connections by `wakes`, if it has one, and shows what it counts at `shown`, if there is that. An error where its sockets can't be polled, or an allocation fails.
    pub(crate) fn into_job<R: Clock + Net + Wait>(
        self,
        rt: &'a R,
        alloc: Global,
        plan: Plan<'a>,
        wakes: Option<&'a WakeList>,
        shown: Option<&'a SharedCounters>,
        scratch: Scratch,
    ) -> io::Result<SocketJob<'a, R>>
        ensures number { IfOk result (λ job. number_of job ≡ self.entry.worker) }
        ensures kind { IfOk result (λ job. takes_datagrams job ≡ are_datagrams self.entry.sockets) }
        ensures rights { IfOk result (λ job. HasRights plan.entry.connections.allowed.rules.now job) }
    {
        let ThreadSpec {
            worker,
            limit,
            sockets,
        } = self;
        let stop = StopFlag::new(plan.shutdown, limit);
        sockets.into_job(rt, alloc, worker, stop, plan, wakes, shown, scratch)
    }
}

//! Serves a zone on sockets, by workers.
ghost use Rattle.std.specs.Prelude.{◌≡◌, ◌+◌, ◌<◌, ◌≤◌, [], true, false, vec_len, vec_capacity, None, Some, MatchOption};
ghost use Rattle.std.specs.List.{All, Any};
ghost use Rattle.dns_engine.specs.Held.{KEPT};
ghost use Rattle.dns_engine.specs.Versions.{IsFirst, AreNext};
ghost use Rattle.snapshot_cell.specs.declared.tokens.TheConstants.{READERS};
ghost use Rattle.zone_server.specs.Right.{AreNamed};
ghost use Rattle.serve_workers.specs.Numbers.{end_of, fault_by};

use crate::ending::{end_cell, end_named};
use crate::jobs::{fault_of, jobs_of};
use crate::judge::{Judge, RoutedPublisher, UpdateConfig, UpdateContext, judge_for, reader_of};
use crate::server_thread::{ServerThread, put_readers, run_threads};
use crate::signed_jobs::SharedKeys;
use crate::thread_spec::ThreadSpec;
use crate::threads::SocketJob;
use crate::updates::Updates;
use counters::ServerCounters;
use dns_engine::{
    EngineFault, FirstZone, NoEngine, SharedVersion, VersionCell, VersionPublisher, VersionReader,
    ZoneVersions,
};
use server_control::{ServeFault, Shutdown};
use snapshot_cell::{
    Cell, NamedCell, NamedPublisher, NamedReader, Naming, NewFault, Parts, Reader,
};
use std::alloc::Global;
use std::marker::Brand;
use std::net::Net;
use std::sync::Wait;
use std::thread::Threads;
use std::time::Clock;
use tcp_loop::Plan as ConnectionPlan;
use update_batches::{Most, UpdateStore};
use worker_jobs::MainTask;
use zone_server::{JobEnd, PublishRight, Server, ServerLedgers, ServerName, ServiceLog};

/// How a zone is served.
#[derive(Clone, Copy)]
pub struct Plan<'a> {
    /// The state of the server's shutdown, which all threads share.
    pub shutdown: &'a Shutdown,
    /// How many versions older than the last are kept. At most `dns_engine::KEPT`.
    pub keep: usize,
    /// How many connections a worker may have open at most.
    pub places: usize,
    /// How long connections may wait for their peers, and the rules by which peers may update and transfer.
    pub connections: ConnectionPlan<'a>,
    /// The keys by which requests are verified. None where signatures aren't checked.
    pub keys: Option<SharedKeys<'a>>,
    /// Where the threads show what they count. None where nothing is counted.
    pub counters: Option<&'a ServerCounters>,
}

impl<C: Clock> SocketJob<'_, C> {
    /// Why it failed. None where it ended without a failure, or hasn't ended.
    fn fault(&self) -> Option<ServeFault>
        ensures { result ≡ fault_by (end_of self.now) }
    {
        let end = match self {
            SocketJob::Datagrams(job) => job.end(),
            SocketJob::Connections(job) => job.end(),
            SocketJob::SignedDatagrams(signed) => signed.job.end(),
            SocketJob::SignedConnections(signed) => signed.job.end(),
            SocketJob::CountedDatagrams(job) => job.end(),
            SocketJob::CountedConnections(counted) => counted.job.end(),
            SocketJob::CountedSignedDatagrams(signed) => signed.job.end(),
            SocketJob::CountedSignedConnections(signed) => signed.job.job.end(),
            SocketJob::Secondaries(job) => job.end(),
            SocketJob::Control(job) => job.end(),
            SocketJob::Metrics(job) => job.end(),
        };
        match end {
            Some(JobEnd::Device) => Some(ServeFault::Device),
            Some(JobEnd::Spent) => Some(ServeFault::Spent),
            Some(JobEnd::NoMemory) => Some(ServeFault::NoMemory),
            Some(JobEnd::Done(_)) => None,
            None => None,
        }
    }
}

/// The updates that the threads of these specs submit. At most `most` of them wait. Fails where an allocation fails.
fn updates_for<R: Wait>(
    rt: &R,
    alloc: Global,
    most: Most,
    specs: &[ThreadSpec<'_>],
    places: usize,
) -> Result<Updates, ServeFault> {
    match Updates::of(rt, alloc, most, specs, places) {
        Ok(updates) => Ok(updates),
        Err(_) => Err(ServeFault::NoMemory),
    }
}

/// What is needed to judge the updates that the threads of these specs submit. Fails where a socket can't be shared, or an allocation fails.
fn context_for<'a, C: Clock, S: UpdateStore>(
    alloc: Global,
    config: UpdateConfig<S>,
    specs: &[ThreadSpec<'_>],
    updates: &'a Updates,
    plan: Plan<'a>,
    clock: &'a C,
) -> Result<UpdateContext<'a, C, S>, ServeFault> {
    let (keys, counters) = (plan.keys, plan.counters);
    match UpdateContext::new(alloc, config, specs, updates, keys, counters, clock) {
        Ok(context) => Ok(context),
        Err(fault) => Err(fault_of(&fault)),
    }
}

/// Serves a zone on sockets. Its cell begins with `first`, and then the versions of `later`. The threads answer queries from the version published last, and submit updates,
/// each of which publishes the next version (RFC 1035, 4.2; RFC 2136, 3). The calling thread judges the updates in batches, and no other thread waits for a disk.
/// Returns once each worker has reached its limit, or a thread has failed, and each submitted update has its reply. Then the cell is ended too. The log gets an event
/// once all threads have begun, at each change, for each lost connection, and at the end of each thread.
pub fn serve_zone<
    R: Net + Threads + Wait + Clock + Sync,
    Z: FirstZone + Send + Sync,
    L: ServiceLog + Sync,
    S: UpdateStore,
>(
    rt: &R,
    alloc: Global,
    first: SharedVersion,
    later: Vec<SharedVersion>,
    specs: Vec<ThreadSpec<'_>>,
    plan: Plan<'_>,
    config: UpdateConfig<S>,
    log: &L,
) -> Result<(), ServeFault>
    requires first { IsFirst Z.zone first }
    requires follow { AreNext first later.items }
    requires threads { vec_len specs + 2 ≤ READERS }
    requires kept { plan.keep ≤ KEPT }
{
    let updates = match updates_for(rt, alloc, config.most, &specs, plan.places) {
        Ok(updates) => updates,
        Err(fault) => return Err(fault),
    };
    serve_specs::<R, Z, L, S>(rt, alloc, first, later, specs, plan, config, &updates, log)
}

/// Serves a zone on sockets, as [`serve_zone`] does. The threads submit their updates to `updates`.
fn serve_specs<
    R: Net + Threads + Wait + Clock + Sync,
    Z: FirstZone + Send + Sync,
    L: ServiceLog + Sync,
    S: UpdateStore,
>(
    rt: &R,
    alloc: Global,
    first: SharedVersion,
    later: Vec<SharedVersion>,
    specs: Vec<ThreadSpec<'_>>,
    plan: Plan<'_>,
    config: UpdateConfig<S>,
    updates: &Updates,
    log: &L,
) -> Result<(), ServeFault>
    requires first { IsFirst Z.zone first }
    requires follow { AreNext first later.items }
    requires threads { vec_len specs + 2 ≤ READERS }
    requires kept { plan.keep ≤ KEPT }
{
    let threads = specs.len();
    let context = match context_for(alloc, config, &specs, updates, plan, rt) {
        Ok(context) => context,
        Err(fault) => return Err(fault),
    };
    let parts = match Cell::<SharedVersion, ZoneVersions<Z>>::new(alloc, threads + 2, first) {
        Ok(parts) => parts,
        Err(NewFault::TooManyReaders) => unreachable!(),
        Err(NewFault::NoMemory) => return Err(ServeFault::NoMemory),
    };
    let ledgers = ServerLedgers::new();
    serve_with_readers::<R, Z, Brand, L, S>(
        rt, alloc, parts, later, ledgers, specs, plan, context, log,
    )
}

/// Serves the versions of a cell in which only the first is published, and ends the cell. The versions of `later` are to be published after the first. Each thread gets
/// a reader, and so do the engine and the update thread. Fails with `NoMemory` where an allocation fails, and else as [`serve_with_engine`] does.
fn serve_with_readers<
    R: Net + Threads + Wait + Clock + Sync,
    Z: FirstZone + Send + Sync,
    N: ServerName + Send + Sync,
    L: ServiceLog + Sync,
    S: UpdateStore,
>(
    rt: &R,
    alloc: Global,
    parts: Parts<SharedVersion, ZoneVersions<Z>>,
    later: Vec<SharedVersion>,
    ledgers: ServerLedgers,
    specs: Vec<ThreadSpec<'_>>,
    plan: Plan<'_>,
    context: UpdateContext<'_, R, S>,
    log: &L,
) -> Result<(), ServeFault>
    requires named { parts.cell ≡ N.cell }
    requires ledgers { AreNamed N.published N.reserved ledgers }
    requires publisher { (parts.publisher.cell ≡ parts.cell) × (parts.publisher.number ≡ 0) }
    requires notes { parts.publisher.noted ≡ 0 }
    requires readers { All (λ r. (r.cell ≡ parts.cell) × (0 < r.left)) parts.readers.items }
    requires count { vec_len parts.readers ≡ vec_len specs + 2 }
    requires follow { AreNext parts.publisher.value later.items }
    requires kept { plan.keep ≤ KEPT }
{
    let Parts {
        cell,
        publisher,
        mut readers,
    } = parts;
    let Ok(mut named) = Vec::with_capacity(alloc, readers.len()) else {
        end_cell(rt, cell, publisher, readers);
        return Err(ServeFault::NoMemory);
    };
    let Some(own) = readers.pop() else {
        unreachable!()
    };
    let Some(reader) = readers.pop() else {
        unreachable!()
    };
    let own = NamedReader::of(own);
    let reader = NamedReader::of(reader);
    name_readers(readers, &mut named);
    let cell = NamedCell::of(cell);
    let publisher = NamedPublisher::of(publisher);
    let (served, publisher) = serve_with_engine::<R, Z, N, L, S>(
        rt, alloc, &cell, publisher, own, reader, later, ledgers, &mut named, specs, plan, context,
        log,
    );
    end_named(rt, cell, publisher, named);
    served
}

/// Serves the versions of a cell in which only the first is published, by threads with `readers`, an engine with its reader `own`, and the update thread with `reader`.
/// The versions of `later` are to be published after the first. The cell's tokens come back: the publisher, and all readers in `readers`, which has room for them.
/// Fails with `Spent` where the versions of `later` can't be published, and else as [`serve_with_server`] does.
fn serve_with_engine<
    R: Net + Threads + Wait + Clock + Sync,
    Z: FirstZone + Send + Sync,
    N: ServerName + Send + Sync,
    L: ServiceLog + Sync,
    S: UpdateStore,
>(
    rt: &R,
    alloc: Global,
    cell: &VersionCell<Z, N>,
    publisher: VersionPublisher<Z, N>,
    own: VersionReader<N>,
    reader: VersionReader<N>,
    later: Vec<SharedVersion>,
    ledgers: ServerLedgers,
    readers: &mut Vec<VersionReader<N>>,
    specs: Vec<ThreadSpec<'_>>,
    plan: Plan<'_>,
    context: UpdateContext<'_, R, S>,
    log: &L,
) -> (Result<(), ServeFault>, VersionPublisher<Z, N>)
    requires first { publisher.number ≡ 0 }
    requires named { AreNamed N.published N.reserved ledgers }
    requires notes { publisher.noted ≡ 0 }
    requires grant { 0 < own.left }
    requires follow { AreNext publisher.value later.items }
    requires kept { plan.keep ≤ KEPT }
    requires count { vec_len readers.old ≡ vec_len specs }
    requires room { vec_len readers.old + 1 < vec_capacity readers.old }
    ensures { vec_len readers.new ≡ vec_len readers.old + 2 }
{
    let count = later.len();
    match Server::resume(alloc, cell, publisher, own, plan.keep, later, ledgers) {
        Ok((server, right)) => serve_with_server(
            rt, alloc, server, right, plan, context, reader, readers, specs, log,
        ),
        Err(
            NoEngine {
                fault,
                publisher,
                reader: own,
            },
        ) => {
            // At most `KEPT` versions are kept, and a zone with only its first version never fails.
            let EngineFault::Spent = fault else {
                unreachable!()
            };
            prove!(0 < count);
            readers.push_reserved(reader);
            readers.push_reserved(own);
            return (Err(ServeFault::Spent), publisher);
        }
    }
}

/// Makes the jobs of the threads, serves the versions of a server's cell, as [`serve_with_updates`] does, and takes the server apart. The cell's publisher comes back, and all
/// readers in `readers`, which has room for two more. Fails with `NoMemory` or `Device` where a job can't be made.
fn serve_with_server<
    R: Net + Threads + Wait + Clock + Sync,
    Z: FirstZone + Send + Sync,
    N: ServerName + Send + Sync,
    L: ServiceLog + Sync,
    S: UpdateStore,
>(
    rt: &R,
    alloc: Global,
    server: Server<'_, Z, N>,
    right: PublishRight<N>,
    plan: Plan<'_>,
    context: UpdateContext<'_, R, S>,
    reader: VersionReader<N>,
    readers: &mut Vec<VersionReader<N>>,
    specs: Vec<ThreadSpec<'_>>,
    log: &L,
) -> (Result<(), ServeFault>, VersionPublisher<Z, N>)
    requires count { vec_len readers.old ≡ vec_len specs }
    requires room { vec_len readers.old + 1 < vec_capacity readers.old }
    ensures { vec_len readers.new ≡ vec_len readers.old + 2 }
{
    let shutdown = plan.shutdown;
    let served = match jobs_of(rt, alloc, specs, plan, context.updates) {
        Ok(jobs) => serve_with_updates(
            rt, alloc, &server, shutdown, context, reader, right, readers, jobs, log,
        ),
        Err(fault) => {
            readers.push_reserved(reader);
            Err(fault)
        }
    };
    let (publisher, own) = server.finish();
    readers.push_reserved(own);
    (served, publisher)
}

/// Serves the versions of a server's cell, by jobs with `readers`, and the update thread with `reader`. All readers come back in `readers`, which has room for one more.
/// Fails with `NoMemory` where the update thread can't be made, and else as [`serve_on_threads`] does.
fn serve_with_updates<
    'g,
    's,
    R: Threads + Wait + Clock + Sync,
    Z: FirstZone + Send + Sync,
    N: ServerName + Send + Sync,
    L: ServiceLog + Sync,
    S: UpdateStore,
>(
    rt: &R,
    alloc: Global,
    server: &'g Server<'s, Z, N>,
    shutdown: &'g Shutdown,
    context: UpdateContext<'g, R, S>,
    reader: VersionReader<N>,
    right: PublishRight<N>,
    readers: &mut Vec<VersionReader<N>>,
    jobs: Vec<SocketJob<'g, R>>,
    log: &'g L,
) -> Result<(), ServeFault>
    requires count { vec_len readers.old ≡ vec_len jobs }
    requires room { vec_len readers.old < vec_capacity readers.old }
    ensures count { vec_len readers.new ≡ vec_len readers.old + 1 }
    ensures room { vec_capacity readers.new ≡ vec_capacity readers.old }
{
    let updates = context.updates;
    match judge_for(rt, alloc, server, shutdown, context, reader, right, log) {
        Ok(judge) => serve_with_judge(
            rt, alloc, server, shutdown, updates, judge, readers, jobs, log,
        ),
        Err(reader) => {
            readers.push_reserved(reader);
            return Err(ServeFault::NoMemory);
        }
    }
}

/// Serves the versions of a server's cell, by jobs with `readers`, while `judge` judges the updates that they submit to `updates`. All readers come back in `readers`, which
/// has room for one more. Fails as [`serve_on_threads`] does.
fn serve_with_judge<
    'g,
    's,
    R: Threads + Wait + Clock + Sync,
    Z: FirstZone + Send + Sync,
    N: ServerName + Send + Sync,
    L: ServiceLog + Sync,
    S: UpdateStore,
>(
    rt: &R,
    alloc: Global,
    server: &'g Server<'s, Z, N>,
    shutdown: &'g Shutdown,
    updates: &'g Updates,
    judge: Judge<'_, '_, RoutedPublisher<'_, '_, Z, N, L, R>, S>,
    readers: &mut Vec<VersionReader<N>>,
    jobs: Vec<SocketJob<'g, R>>,
    log: &'g L,
) -> Result<(), ServeFault>
    requires count { vec_len readers.old ≡ vec_len jobs }
    requires room { vec_len readers.old < vec_capacity readers.old }
    ensures count { vec_len readers.new ≡ vec_len readers.old + 1 }
    ensures room { vec_capacity readers.new ≡ vec_capacity readers.old }
{
    shutdown.judge();
    let (served, judge) = serve_on_threads(
        rt, alloc, server, shutdown, updates, judge, readers, jobs, log,
    );
    readers.push_reserved(reader_of(judge));
    served
}

/// Serves the versions of a server's cell, by jobs with readers, and does the main task at the same time. The jobs submit their updates to `updates`. The readers come back in
/// `readers`. Fails with `NotStarted` where not all threads could be started, and else with the fault of the first job that failed.
fn serve_on_threads<
    'g,
    's,
    R: Threads + Wait + Clock + Sync,
    Z: FirstZone + Send + Sync,
    N: ServerName + Send + Sync,
    L: ServiceLog + Sync,
    M: MainTask,
>(
    rt: &R,
    alloc: Global,
    server: &'g Server<'s, Z, N>,
    shutdown: &'g Shutdown,
    updates: &'g Updates,
    main_task: M,
    readers: &mut Vec<VersionReader<N>>,
    jobs: Vec<SocketJob<'g, R>>,
    log: &'g L,
) -> (Result<(), ServeFault>, M)
    requires count { vec_len readers.old ≡ vec_len jobs }
    requires room { vec_len readers.old < vec_capacity readers.old }
    ensures count { vec_len readers.new ≡ vec_len readers.old }
    ensures room { vec_capacity readers.new ≡ vec_capacity readers.old }
{
    let Ok(threads) = Vec::with_capacity(alloc, jobs.len()) else {
        return (Err(ServeFault::NotStarted), main_task);
    };
    let (started, threads, main_task) = run_threads(
        rt, alloc, server, shutdown, updates, main_task, readers, jobs, threads, log,
    );
    (end_threads(started, threads, readers), main_task)
}

/// The fault of the first job that failed, of threads that were all started; else `NotStarted`. The readers come back in `readers`, which is empty and has room for them.
fn end_threads<Z: FirstZone, N: ServerName, L: ServiceLog, C: Clock>(
    started: bool,
    threads: Vec<ServerThread<'_, '_, Z, N, L, C>>,
    readers: &mut Vec<VersionReader<N>>,
) -> Result<(), ServeFault>
    requires room { vec_len threads ≤ vec_capacity readers.old }
    requires empty { readers.old.items ≡ [] }
    ensures count { vec_len readers.new ≡ vec_len threads.entry }
    ensures capacity { vec_capacity readers.new ≡ vec_capacity readers.old }
{
    let fault = if started {
        fault_in(&threads)
    } else {
        Some(ServeFault::NotStarted)
    };
    put_readers(threads, readers);
    match fault {
        Some(fault) => Err(fault),
        None => Ok(()),
    }
}

/// Why the first failed job has failed. None where no job has failed.
fn fault_in<Z: FirstZone, N: ServerName, L: ServiceLog, C: Clock>(
    threads: &[ServerThread<'_, '_, Z, N, L, C>],
) -> Option<ServeFault>
    ensures { MatchOption result
        (All (λ thread. fault_by (end_of thread.job) ≡ None) threads.now)
        (λ fault. Any (λ thread. fault_by (end_of thread.job) ≡ Some fault) threads.now) }
{
    for thread in threads {
        if let Some(fault) = thread.job.fault() {
            return Some(fault);
        }
    }
    None
}

/// Names the readers of a cell, and puts them into `named`, which is empty and has room for them.
fn name_readers<N: Naming>(readers: Vec<Reader<SharedVersion>>, named: &mut Vec<VersionReader<N>>)
    requires named { All (λ r. r.cell ≡ N.cell) readers.items }
    requires room { vec_len readers ≤ vec_capacity named.old }
    requires empty { named.old.items ≡ [] }
    ensures readers { named.new.items ≡ readers.items }
    ensures count { vec_len named.new ≡ vec_len readers }
    ensures room { vec_capacity named.new ≡ vec_capacity named.old }
{
    for reader in readers {
        named.push_reserved(NamedReader::of(reader));
    }
}

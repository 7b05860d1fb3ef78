//! The threads of a server: each does its job with a reader.
ghost use Rattle.std.specs.Prelude.{◌≡◌, ◌≤◌, [], true, false, is_some, All, map, vec_len, vec_capacity, Some, IsSome};
ghost use Rattle.requests.specs.Served.{BeginsWith};
ghost use Rattle.worker_jobs.specs.GivenBack.{Each};
ghost use Rattle.serve_workers.specs.Numbers.{number_of, end_of};
ghost use Rattle.serve_workers.specs.Readers.{seen_by};

use crate::threads::SocketJob;
use crate::updates::Updates;
use dns_engine::{FirstZone, VersionReader};
use server_control::Shutdown;
use std::alloc::Global;
use std::mem;
use std::sync::Wait;
use std::thread::Threads;
use std::time::Clock;
use worker_jobs::{MainTask, Task, run_tasks};
use zone_server::{Event, JobEnd, Server, ServerName, ServiceLog, UpdateSender};

/// A thread of a server.
#[derive(Drop)]
pub(crate) struct ServerThread<'g, 's, Z: FirstZone, N: ServerName, L, C> {
    /// None only while the job is done, since its handler has the reader then.
    reader: Option<VersionReader<N>>,
    pub(crate) job: SocketJob<'g, C>,
    /// Replies to its updates are routed to the thread by its place.
    place: usize,
    alloc: Global,
    server: &'g Server<'s, Z, N>,
    shutdown: &'g Shutdown,
    log: &'g L,
    updates: &'g Updates,
    ghost has_reader: { is_some reader ≡ true },
}

/// The sender by which the thread at a place submits updates. Replies are routed to the thread by its place.
fn sender_at(updates: &Updates, place: usize) -> UpdateSender<'_> {
    UpdateSender {
        queue: updates.queue(),
        worker: place,
    }
}

/// Whether a job ended without a failure.
fn is_done(end: JobEnd) -> bool {
    match end {
        JobEnd::Done(_) => true,
        JobEnd::Device => false,
        JobEnd::Spent => false,
        JobEnd::NoMemory => false,
    }
}

impl<'g, 's, Z: FirstZone, N: ServerName, L, C: Clock> ServerThread<'g, 's, Z, N, L, C> {
    /// Gives its reader back. Its job is dropped.
    fn into_reader(self) -> VersionReader<N>
        ensures { Some result ≡ self.entry.reader }
    {
        let ServerThread { reader, job, .. } = self;
        mem::drop(job);
        let Some(reader) = reader else { unreachable!() };
        reader
    }
}

impl<
    'g,
    's,
    Z: FirstZone + Send + Sync,
    N: ServerName + Send + Sync,
    L: ServiceLog + Sync,
    C: Clock + Sync,
> Task for ServerThread<'g, 's, Z, N, L, C> {
    ghost number = { λ thread. number_of thread.job };

    ghost seen = { λ thread. seen_by thread.reader };

    ghost is_done = { λ thread. IsSome (end_of thread.job) };

    // A thread that fails ends the server.
    fn work<R: Wait>(&mut self, rt: &R) {
        if self.shutdown.thread_started() {
            self.log.tell(rt, Event::Serving);
        }
        let Some(reader) = self.reader.take() else {
            unreachable!()
        };
        let sender = sender_at(self.updates, self.place);
        let (reader, end) = self
            .job
            .serve(rt, self.alloc, self.server, self.log, sender, reader);
        self.reader = Some(reader);
        self.job.leave(rt, self.updates);
        self.shutdown.leave();
        if !is_done(end) {
            self.shutdown.end();
        }
        self.log.tell(rt, self.job.event_of(end));
    }
}

/// Makes a thread of each reader, with the job at its place, and puts them into `threads`, which is empty and has room for them.
fn put_threads<'g, 's, Z: FirstZone, N: ServerName, L: ServiceLog, C: Clock>(
    alloc: Global,
    server: &'g Server<'s, Z, N>,
    shutdown: &'g Shutdown,
    log: &'g L,
    updates: &'g Updates,
    readers: &mut Vec<VersionReader<N>>,
    jobs: Vec<SocketJob<'g, C>>,
    threads: &mut Vec<ServerThread<'g, 's, Z, N, L, C>>,
)
    requires count { vec_len readers.old ≡ vec_len jobs }
    requires room { vec_len jobs ≤ vec_capacity threads.old }
    requires empty { threads.old.items ≡ [] }
    ensures readers { map (λ thread. thread.reader) threads.new.items ≡ map (λ reader. Some reader) readers.old.items }
    ensures jobs { map (λ thread. thread.job) threads.new.items ≡ jobs.entry.items }
    ensures taken { readers.new.items ≡ [] }
    ensures capacity { vec_capacity readers.new ≡ vec_capacity readers.old }
{
    let mut place = 0usize;
    let mut jobs = jobs.into_iter();
    for reader in readers.drain(..) {
        let Some(job) = jobs.next() else {
            unreachable!()
        };
        threads.push_reserved(ServerThread {
            reader: Some(reader),
            job,
            place,
            alloc,
            server,
            shutdown,
            log,
            updates,
        });
        place = place.saturating_add(1);
    }
}

/// Puts the readers of threads into `readers`, which is empty and has room for them. The threads' jobs are dropped.
pub(crate) fn put_readers<Z: FirstZone, N: ServerName, L: ServiceLog, C: Clock>(
    threads: Vec<ServerThread<'_, '_, Z, N, L, C>>,
    readers: &mut Vec<VersionReader<N>>,
)
    requires room { vec_len threads ≤ vec_capacity readers.old }
    requires empty { readers.old.items ≡ [] }
    ensures readers { map (λ reader. Some reader) readers.new.items ≡ map (λ thread. thread.reader) threads.entry.items }
    ensures count { vec_len readers.new ≡ vec_len threads.entry }
    ensures capacity { vec_capacity readers.new ≡ vec_capacity readers.old }
{
    for thread in threads {
        readers.push_reserved(thread.into_reader());
    }
}

/// Does each job on a thread of its own, with the reader at its place, and the main task on this one, and waits for all. The threads are made in `threads`, which is empty and
/// has room for them, and come back in their order with the jobs and readers, which are taken out of `readers`. Each job has ended, and what its reader has seen published begins
/// with what it had seen before. No job begins until each has its thread, and the start is logged once all have begun. False where a thread was refused, or where there was no
/// memory to track the threads. Then no job has begun, the main task wasn't done, and the jobs and readers come back unchanged.
pub(crate) fn run_threads<
    'g,
    's,
    R: Threads + Wait + Sync,
    Z: FirstZone + Send + Sync,
    N: ServerName + Send + Sync,
    L: ServiceLog + Sync,
    C: Clock + Sync,
    M: MainTask,
>(
    rt: &R,
    alloc: Global,
    server: &'g Server<'s, Z, N>,
    shutdown: &'g Shutdown,
    updates: &'g Updates,
    main_task: M,
    readers: &mut Vec<VersionReader<N>>,
    jobs: Vec<SocketJob<'g, C>>,
    mut threads: Vec<ServerThread<'g, 's, Z, N, L, C>>,
    log: &'g L,
) -> (bool, Vec<ServerThread<'g, 's, Z, N, L, C>>, M)
    requires count { vec_len readers.old ≡ vec_len jobs }
    requires room { vec_len jobs ≤ vec_capacity threads }
    requires empty { threads.items ≡ [] }
    ensures numbers { map (λ thread. number_of thread.job) result.1.items ≡ map (λ job. number_of job) jobs.entry.items }
    ensures done { result.0 ≡ true → All (λ thread. IsSome (end_of thread.job)) result.1.items }
    ensures seen { Each (λ given thread. BeginsWith (seen_by thread.reader) given.seen) readers.old.items result.1.items }
    ensures none { result.0 ≡ false → (map (λ thread. thread.reader) result.1.items ≡ map (λ reader. Some reader) readers.old.items) × (map (λ thread. thread.job) result.1.items ≡ jobs.entry.items) }
    ensures count { vec_len result.1 ≡ vec_len jobs.entry }
    ensures taken { readers.new.items ≡ [] }
    ensures capacity { vec_capacity readers.new ≡ vec_capacity readers.old }
{
    put_threads(
        alloc,
        server,
        shutdown,
        log,
        updates,
        readers,
        jobs,
        &mut threads,
    );
    run_tasks(rt, alloc, threads, main_task)
}

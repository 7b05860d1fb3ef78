//! Worker threads: each runs one job.
ghost use Rattle.std.specs.Prelude.{◌≡◌, ℕ, ◌≤◌, true, false, [], List, All, map, vec_len, vec_capacity, IfOk, IfErr, MatchResult};
ghost use Rattle.zone_tree.specs.Version.{Version};
ghost use Rattle.requests.specs.Served.{BeginsWith, Grows};
ghost use Rattle.worker_jobs.specs.GivenBack.{Each, IsReturned};

use dns_engine::{FirstZone, VersionReader};
use requests::Handler;
use serve_core::{Peer, Transport};
use snapshot_cell::Naming;
use std::alloc::Global;
use std::net::{Ipv4Addr, SocketAddr, SocketAddrV4};
use std::snapshot::Snapshot;
use std::sync::{OnceLock, OnceToken, Wait};
use std::thread::{self, Promise, PromisedHandle, Scope, Threads};
use zone_server::{DatagramHandler, Server, ServerName, ServiceLog};

/// The job of a worker thread.
pub trait Job: Send + Drop {
    /// The job's number, which never changes.
    ghost number: { Self → ℕ };

    /// What holds of a job that has been done.
    ghost is_done: { Self → Type 0 };

    /// Does the job, with a handler that answers each peer that it is turned to. Logs how the job ends.
    fn run<R: Wait, A: Handler, L: ServiceLog>(&mut self, rt: &R, handler: &mut A, log: &L)
        ensures number { number self.new ≡ number self.old }
        ensures done { is_done self.new }
        ensures grows { Grows (A.seen handler.new) (A.seen handler.old) };
}

/// Not all jobs could be started: a thread was refused, or there was no memory to track the jobs. The pairs come back, and no job has begun.
#[derive(Drop)]
pub struct NotStarted<N: Naming, J>(pub Vec<(VersionReader<N>, J)>);

/// A task for a thread.
pub trait Task: Send + Drop {
    /// The task's number, which never changes.
    ghost number: { Self → ℕ };

    /// The versions that its reader has seen published, the first one first.
    ghost seen: { Self → List Version };

    /// What holds of a task that has been done.
    ghost is_done: { Self → Type 0 };

    /// Does the task.
    fn work<R: Wait>(&mut self, rt: &R)
        ensures number { number self.new ≡ number self.old }
        ensures done { is_done self.new }
        ensures grows { BeginsWith (seen self.new) (seen self.old) };
}

/// A task for the thread that waits for the others.
pub trait MainTask: Drop {
    /// Does the task, once each other task has its thread.
    fn run<R: Wait>(&mut self, rt: &R);
}

/// No task for the thread that waits.
#[derive(Clone, Copy)]
pub struct NoMainTask;

impl MainTask for NoMainTask {
    fn run<R: Wait>(&mut self, _rt: &R) {}
}

/// An address of no peer: 0.0.0.0, port 0.
pub fn nobody() -> SocketAddr {
    SocketAddr::V4(SocketAddrV4::new(Ipv4Addr::new(0, 0, 0, 0), 0))
}

/// A job with its handler, which has a reader, and with its log.
#[derive(Drop)]
struct Worker<'g, 's, Z: FirstZone, N: ServerName, J, L> {
    asked: DatagramHandler<'g, 's, Z, N, L>,
    job: J,
    log: &'g L,
}

impl<
    'g,
    's,
    Z: FirstZone + Send + Sync,
    N: ServerName + Send + Sync,
    J: Job,
    L: ServiceLog + Sync,
> Task for Worker<'g, 's, Z, N, J, L> {
    ghost number = { λ worker. J.number worker.job };

    ghost seen = { λ worker. worker.asked.reader.seen };

    ghost is_done = { λ worker. J.is_done worker.job };

    fn work<R: Wait>(&mut self, rt: &R) {
        self.job.run(rt, &mut self.asked, self.log);
    }
}

/// A task that its thread gives back, and the value that the thread read from the lock: whether the tasks may be done.
#[derive(Drop)]
struct Returned<'m, W> {
    work: W,
    reported: OnceToken<'m, bool>,
}

/// A task that is given to a thread, and the lock that tells the thread whether the tasks may be done.
#[derive(Drop)]
struct Given<'m, W> {
    may: &'m OnceLock<bool>,
    work: Snapshot<W>,
}

impl<'m, W: Task> Promise<Returned<'m, W>> for Given<'m, W> {
    ghost kept_by = { λ given back. IsReturned W.number W.seen W.is_done given.may.now.id given.work.value back.reported.of back.reported.value back.work };
}

/// Does a task once all threads have been started. Doesn't do it where a thread was refused.
fn do_one<'m, R: Wait, W: Task>(rt: &R, may: &'m OnceLock<bool>, mut work: W) -> Returned<'m, W>
    ensures { IsReturned W.number W.seen W.is_done may.entry.now.id work result.reported.of result.reported.value result.work }
{
    may.wait(rt);
    let reported = may.init(rt, || false);
    if *may.value(&reported) {
        work.work(rt);
    }
    Returned { work, reported }
}

/// A task whose thread has been started, or one that is given back because its thread was refused.
type StartedThread<'m, W> = Result<PromisedHandle<Returned<'m, W>, Given<'m, W>>, Returned<'m, W>>;

/// Starts a thread for a task. Where the thread is refused, no task may be done from then on.
fn start_thread<'s, E, R: Threads + Wait + Sync, W: Task + 's>(
    rt: &'s R,
    scope: &'s Scope<'s, E>,
    may: &'s OnceLock<bool>,
    work: W,
) -> StartedThread<'s, W>
    ensures { MatchResult result
        (λ handle. (handle.promise.may.now.id ≡ may.entry.now.id) × (handle.promise.work.value ≡ work))
        (λ back. IsReturned W.number W.seen W.is_done may.entry.now.id work back.reported.of back.reported.value back.work) }
{
    let given = Given {
        may,
        work: Snapshot::of(&work),
    };
    match scope.spawn_with(given, move || do_one(rt, may, work)) {
        Ok(handle) => Ok(handle),
        Err(refused) => {
            let _ = may.init(rt, || false);
            let again = refused.value;
            Err(again())
        }
    }
}

/// Starts a thread for each task, and appends the started tasks to `begun`, which has room for them.
fn start_threads<'s, E, R: Threads + Wait + Sync, W: Task + 's>(
    rt: &'s R,
    scope: &'s Scope<'s, E>,
    may: &'s OnceLock<bool>,
    tasks: Vec<W>,
    mut begun: Vec<StartedThread<'s, W>>,
) -> Vec<StartedThread<'s, W>>
    requires room { vec_len tasks ≤ vec_capacity begun }
    requires empty { begun.items ≡ [] }
    requires len { vec_len begun ≡ 0 }
    ensures count { vec_len result ≡ vec_len tasks }
    ensures begun { Each (λ given one. MatchResult one
        (λ handle. (handle.promise.may.now.id ≡ may.entry.now.id) × (handle.promise.work.value ≡ given))
        (λ back. IsReturned W.number W.seen W.is_done may.entry.now.id given back.reported.of back.reported.value back.work)) tasks.items result.items }
{
    for work in tasks {
        begun.push_reserved(start_thread(rt, scope, may, work));
    }
    begun
}

/// Waits for a task.
fn end<'s, R: Threads, W: Task>(rt: &R, begun: StartedThread<'s, W>) -> Returned<'s, W>
    ensures { MatchResult begun.entry
        (λ handle. IsReturned W.number W.seen W.is_done handle.promise.may.now.id handle.promise.work.value result.reported.of result.reported.value result.work)
        (λ back. result ≡ back) }
{
    match begun {
        Ok(handle) => handle.join(rt),
        Err(returned) => returned,
    }
}

/// Waits for each task, and appends what comes back to `returned`, which has room for it.
fn end_all<'s, R: Threads, W: Task>(
    rt: &R,
    begun: Vec<StartedThread<'s, W>>,
    mut returned: Vec<Returned<'s, W>>,
) -> Vec<Returned<'s, W>>
    requires room { vec_len begun ≤ vec_capacity returned }
    requires empty { returned.items ≡ [] }
    requires len { vec_len returned ≡ 0 }
    ensures count { vec_len result ≡ vec_len begun.entry }
    ensures ended { Each (λ one back. MatchResult one
        (λ handle. IsReturned W.number W.seen W.is_done handle.promise.may.now.id handle.promise.work.value back.reported.of back.reported.value back.work)
        (λ given. back ≡ given)) begun.entry.items result.items }
{
    for one in begun {
        returned.push_reserved(end(rt, one));
    }
    returned
}

/// Appends the tasks that came back to `done`, which has room for them.
fn tasks_of<'s, W: Task>(
    reported: &OnceToken<'s, bool>,
    returned: Vec<Returned<'s, W>>,
    mut done: Vec<W>,
) -> Vec<W>
    requires room { vec_len returned ≤ vec_capacity done }
    requires empty { done.items ≡ [] }
    requires len { vec_len done ≡ 0 }
    requires reported { All (λ back. back.reported.of ≡ reported.now.of) returned.items }
    ensures { Each (λ back work. (back.reported.value ≡ reported.now.value) × (work ≡ back.work)) returned.entry.items result.items }
{
    for back in returned {
        let Returned {
            work,
            reported: own,
        } = back;
        own.agrees(reported);
        done.push_reserved(work);
    }
    done
}

/// Does the main task, where the other tasks may be done.
fn run_main_task<R: Wait, M: MainTask>(rt: &R, may: bool, main_task: M) -> M {
    let mut main_task = main_task;
    if may {
        main_task.run(rt);
    }
    main_task
}

/// Does each task on a thread of a scope, and the main task on this one, and waits for all. Gives the tasks back in their order. A lock tells the threads whether the
/// tasks may be done. False where a thread was refused, or where there is no memory to track the tasks. Then no task has begun, and the main task isn't done.
fn run_in_scope<'s, E, R: Threads + Wait + Sync, W: Task + 's, M: MainTask>(
    rt: &'s R,
    alloc: Global,
    scope: &'s Scope<'s, E>,
    may: &'s OnceLock<bool>,
    tasks: Vec<W>,
    main_task: M,
) -> (bool, Vec<W>, M)
    ensures numbers { map W.number result.1.items ≡ map W.number tasks.items }
    ensures seen { Each (λ given work. BeginsWith (W.seen work) (W.seen given)) tasks.items result.1.items }
    ensures done { result.0 ≡ true → All W.is_done result.1.items }
    ensures none { result.0 ≡ false → result.1.items ≡ tasks.items }
{
    let count = tasks.len();
    let Ok(begun) = Vec::with_capacity(alloc, count) else {
        return (false, tasks, main_task);
    };
    let Ok(returned) = Vec::with_capacity(alloc, count) else {
        return (false, tasks, main_task);
    };
    let Ok(done) = Vec::with_capacity(alloc, count) else {
        return (false, tasks, main_task);
    };
    let begun = start_threads(rt, scope, may, tasks, begun);
    let reported = may.init(rt, || true);
    let started = *may.value(&reported);
    let main_task = run_main_task(rt, started, main_task);
    let returned = end_all(rt, begun, returned);
    let done = tasks_of(&reported, returned, done);
    (started, done, main_task)
}

/// Does each task on a thread of its own, and the main task on this one, and waits for all. Gives the tasks back in their order. False where a thread was
/// refused, or where there is no memory to track the tasks. Then no task has begun, and the main task isn't done.
pub fn run_tasks<R: Threads + Wait + Sync, W: Task, M: MainTask>(
    rt: &R,
    alloc: Global,
    tasks: Vec<W>,
    main_task: M,
) -> (bool, Vec<W>, M)
    ensures numbers { map W.number result.1.items ≡ map W.number tasks.items }
    ensures seen { Each (λ given work. BeginsWith (W.seen work) (W.seen given)) tasks.items result.1.items }
    ensures done { result.0 ≡ true → All W.is_done result.1.items }
    ensures none { result.0 ≡ false → result.1.items ≡ tasks.items }
{
    let may = &OnceLock::new();
    thread::scope(
        thread::scope_env(),
        rt,
        |scope|
            ensures numbers { map W.number result.1.items ≡ map W.number tasks.items }
            ensures seen { Each (λ given work. BeginsWith (W.seen work) (W.seen given)) tasks.items result.1.items }
            ensures done { result.0 ≡ true → All W.is_done result.1.items }
            ensures none { result.0 ≡ false → result.1.items ≡ tasks.items }
        { run_in_scope(rt, alloc, scope, may, tasks, main_task) },
    )
}

/// Makes a worker of each pair, and appends it to `tasks`, which has room for them.
fn put_workers<'g, 's, Z: FirstZone, N: ServerName, J: Drop, L: ServiceLog>(
    alloc: Global,
    server: &'g Server<'s, Z, N>,
    log: &'g L,
    pairs: Vec<(VersionReader<N>, J)>,
    tasks: &mut Vec<Worker<'g, 's, Z, N, J, L>>,
)
    requires room { vec_len pairs ≤ vec_capacity tasks.old }
    requires empty { tasks.old.items ≡ [] }
    ensures pairs { map (λ worker. (worker.asked.reader, worker.job)) tasks.new.items ≡ pairs.items }
{
    for (reader, job) in pairs {
        let peer = Peer::over(Transport::Udp, false);
        tasks.push_reserved(Worker {
            asked: DatagramHandler::new(alloc, server, reader, log, peer, nobody()),
            job,
            log,
        });
    }
}

/// Makes a pair of each worker, and appends it to `back`, which has room for them.
fn put_pairs<Z: FirstZone, N: ServerName, J: Drop, L: ServiceLog>(
    done: Vec<Worker<'_, '_, Z, N, J, L>>,
    back: &mut Vec<(VersionReader<N>, J)>,
)
    requires room { vec_len done ≤ vec_capacity back.old }
    requires empty { back.old.items ≡ [] }
    ensures pairs { back.new.items ≡ map (λ worker. (worker.asked.reader, worker.job)) done.entry.items }
{
    for Worker { asked, job, .. } in done {
        back.push_reserved((asked.into_reader(), job));
    }
}

/// Does each job on a thread of its own, with a reader, and waits for all. Gives the pairs back in their order: each job with the
/// reader that it was given. The versions that a reader has seen published begin with those that it had seen. No job begins until each has its
/// thread. [`NotStarted`] where a thread was refused, or where there was no memory to track the jobs. Then no job has begun, and the
/// pairs come back as they were given.
pub fn run_workers<
    'g,
    's,
    R: Threads + Wait + Sync,
    Z: FirstZone + Send + Sync,
    N: ServerName + Send + Sync,
    J: Job,
    L: ServiceLog + Sync,
>(
    rt: &R,
    alloc: Global,
    server: &'g Server<'s, Z, N>,
    pairs: Vec<(VersionReader<N>, J)>,
    log: &'g L,
) -> Result<Vec<(VersionReader<N>, J)>, NotStarted<N, J>>
    ensures numbers { IfOk result (λ back. map (λ pair. J.number pair.1) back.items ≡ map (λ pair. J.number pair.1) pairs.items) }
    ensures done { IfOk result (λ back. All (λ pair. J.is_done pair.1) back.items) }
    ensures seen { IfOk result (λ back. Each (λ given pair. BeginsWith pair.0.seen given.0.seen) pairs.items back.items) }
    ensures none { IfErr result (λ refused. refused.0.items ≡ pairs.items) }
{
    let count = pairs.len();
    let Ok(mut tasks) = Vec::with_capacity(alloc, count) else {
        return Err(NotStarted(pairs));
    };
    let Ok(mut back) = Vec::with_capacity(alloc, count) else {
        return Err(NotStarted(pairs));
    };
    put_workers(alloc, server, log, pairs, &mut tasks);
    let (started, done, _) = run_tasks(rt, alloc, tasks, NoMainTask);
    put_pairs(done, &mut back);
    if started {
        Ok(back)
    } else {
        Err(NotStarted(back))
    }
}

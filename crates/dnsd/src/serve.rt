//! Serving a zone on sockets (RFC 1035, 4.2).
ghost use Rattle.std.specs.Prelude.{◌≤◌, vec_len};
ghost use Rattle.transfer_core.specs.declared.kept.TheConstants.{KEPT};
ghost use Rattle.dnsd_setup.specs.Starts.{CanStart};

use crate::control::{NotBound, control_for, control_of, unbind_control};
use crate::key_rights::{rights_for, shared_keys};
use crate::metrics::{counters_for, metrics_for, metrics_of, seen_writer_of, update_work_of};
use crate::secondaries::{SecondarySockets, secondaries_for};
use crate::thread_specs::{places_for, thread_specs_for, work_limits_of};
use crate::warnings::{listening_for, warn, warn_of_zone};
use command_line::{BAD_COMMAND, MAX_THREADS, Serve, StorePlan};
use commands::{DONE, FAILED};
use dnsd_setup::{
    BoundSockets, CountedLog, CountedStore, Entries, FileReader, Log, LogLine, ServedZone,
    StartedZone, WorkerSockets, ZoneStore, ZoneText, bind_sockets, keys_for, read_text_for,
    start_entries, start_store_for, tell_outside, text_for,
};
use key_file::KeyFile;
use requests::Allowed;
use serve_workers::{ConnectionPlan, Most, Plan, ThreadSpec, UpdateConfig, WorkLimit, serve_zone};
use server_control::{ControlPlan, MetricsPlan, ServeFault, SharedWork, Shutdown};
use std::alloc::Global;
use std::fs::{File, Files};
use std::marker::Brand;
use std::net::{Net, TcpListener, TcpStream};
use std::random::RandomSource;
use std::rt::Env;
use std::sync::Wait;
use std::thread::Threads;
use std::time::Clock;
use std::{io, mem};
use store_compaction::{TextWriter, ThreadTextWriter};
use tsig::Keys;
use zone_tree::ZoneRead;

/// The maximum number of updates that may wait for the update thread, whatever their size (own).
const WAITING: usize = 1024;

/// Serves a zone and returns the program's status: 0 if each worker has done as much as it may, 1 if the zone or the store is refused, 3 on an I/O
/// error, if a thread cannot be started, or on lack of memory. With a store, the sockets are bound and the log's thread is started before the store
/// is created, so that a failure up to then leaves the store's directory as it was.
pub fn run_serve<
    R: Files<File = File>
        + Env
        + Eprint
        + Input
        + AllocGlobal
        + Net<Listener = TcpListener, Stream = TcpStream>
        + Threads
        + Wait
        + Clock
        + RandomSource
        + Copy
        + Send
        + Sync
        + Drop
        + 'static,
    S: Fn(FileReader) -> io::Result<()>,
>(rt: &R, serve: &Serve<'_>, start: &S) -> io::Result<u8>
    requires { (f : _) (x : _) → S.pre f x }
{
    let keys = match keys_for(rt, serve) {
        Ok(Ok(keys)) => keys,
        Ok(Err(status)) => return Ok(status),
        Err(fault) => return Err(fault),
    };
    let text = match text_for(rt, serve) {
        Ok(Ok(text)) => text,
        Ok(Err(status)) => return Ok(status),
        Err(fault) => return Err(fault),
    };
    match serve.store {
        Some(plan) => serve_store(rt, serve, plan, text, keys.as_ref(), start),
        None => serve_zone_text(rt, serve, text, keys.as_ref(), start),
    }
}

/// Serves the zone of a text. Its updates are lost when the program exits.
fn serve_zone_text<
    R: Files<File = File>
        + Env
        + Eprint
        + AllocGlobal
        + Net<Listener = TcpListener, Stream = TcpStream>
        + Threads
        + Wait
        + Clock
        + RandomSource
        + Copy
        + Send
        + Sync
        + Drop
        + 'static,
    S: Fn(FileReader) -> io::Result<()>,
>(rt: &R, serve: &Serve<'_>, text: ZoneText, keys: Option<&KeyFile>, start: &S) -> io::Result<u8>
    requires { (f : _) (x : _) → S.pre f x }
{
    let begun = match read_text_for(rt, serve, text) {
        Ok(Ok(begun)) => begun,
        Ok(Err(status)) => return Ok(status),
        Err(fault) => return Err(fault),
    };
    let bound = match bind(rt, serve, keys.map(|file| &file.keys), start) {
        Ok(Some(bound)) => bound,
        Ok(None) => return Ok(FAILED),
        Err(fault) => return Err(fault),
    };
    let served = serve_on_sockets(rt, serve, begun, bound, keys);
    unbind_control(rt, serve);
    served
}

/// Serves the zone of a store, or the zone of the text from which the store is created.
fn serve_store<
    R: Files<File = File>
        + Env
        + Eprint
        + AllocGlobal
        + Net<Listener = TcpListener, Stream = TcpStream>
        + Threads
        + Wait
        + Clock
        + RandomSource
        + Copy
        + Send
        + Sync
        + Drop
        + 'static,
    S: Fn(FileReader) -> io::Result<()>,
>(
    rt: &R,
    serve: &Serve<'_>,
    plan: StorePlan<'_>,
    text: ZoneText,
    keys: Option<&KeyFile>,
    start: &S,
) -> io::Result<u8>
    requires { (f : _) (x : _) → S.pre f x }
{
    let bound = match bind(rt, serve, keys.map(|file| &file.keys), start) {
        Ok(Some(bound)) => bound,
        Ok(None) => return Ok(FAILED),
        Err(fault) => return Err(fault),
    };
    let served = serve_bound_store(rt, serve, plan, text, bound, keys);
    unbind_control(rt, serve);
    served
}

/// Serves the zone of a store on sockets that are already bound.
fn serve_bound_store<
    R: Files<File = File>
        + Env
        + Eprint
        + AllocGlobal
        + Net<Listener = TcpListener, Stream = TcpStream>
        + Threads
        + Wait
        + Clock
        + RandomSource
        + Copy
        + Send
        + Sync
        + Drop
        + 'static,
>(
    rt: &R,
    serve: &Serve<'_>,
    plan: StorePlan<'_>,
    text: ZoneText,
    bound: Bound,
    keys: Option<&KeyFile>,
) -> io::Result<u8> {
    match start_store_for(rt, serve, plan, text) {
        Ok(Ok(begun)) => serve_on_sockets(rt, serve, begun, bound, keys),
        Ok(Err(status)) => Ok(status),
        Err(fault) => Err(fault),
    }
}

/// What a server acquires from the system before it has a zone.
#[derive(Drop)]
struct Bound {
    /// The sockets on which it serves.
    sockets: BoundSockets,
    /// The sockets for secondaries.
    secondaries: SecondarySockets,
    /// The queue of the log's thread.
    entries: Entries,
    /// What the thread needs that takes the operator's commands, if there is one.
    control: Option<ControlPlan>,
    /// What the thread needs that serves metrics, if there is one.
    metrics: Option<MetricsPlan>,
}

/// Binds all sockets, and starts the log's thread. None if an address cannot be listened on or a secondary cannot be notified; standard error then
/// has the reason.
fn bind<
    R: Files<File = File>
        + Env
        + Eprint
        + AllocGlobal
        + Net<Listener = TcpListener, Stream = TcpStream>
        + Threads
        + Wait
        + Clock
        + RandomSource
        + Copy
        + Send
        + Drop
        + 'static,
    S: Fn(FileReader) -> io::Result<()>,
>(rt: &R, serve: &Serve<'_>, keys: Option<&Keys>, start: &S) -> io::Result<Option<Bound>>
    requires { (f : _) (x : _) → S.pre f x }
{
    let sockets = match bind_sockets(rt, serve) {
        Ok(Some(sockets)) => sockets,
        Ok(None) => return Ok(None),
        Err(fault) => return Err(fault),
    };
    let (secondaries, listen) = (serve.secondaries.as_slice(), serve.listen.as_slice());
    let secondaries = match secondaries_for(rt, secondaries, listen, keys) {
        Ok(Some(secondaries)) => secondaries,
        Ok(None) => return Ok(None),
        Err(fault) => return Err(fault),
    };
    let metrics = match metrics_for(rt, serve) {
        Ok(Ok(metrics)) => metrics,
        Ok(Err(NotBound)) => return Ok(None),
        Err(fault) => return Err(fault),
    };
    let seen = match seen_writer_of(metrics.as_ref()) {
        Ok(seen) => seen,
        Err(fault) => return Err(io::Error::from(fault)),
    };
    let entries = match start_entries(rt, seen) {
        Ok(entries) => entries,
        Err(fault) => return Err(io::Error::from(fault)),
    };
    let control = match control_for(rt, serve, &entries, start) {
        Ok(Ok(control)) => control,
        Ok(Err(NotBound)) => return Ok(None),
        Err(fault) => return Err(fault),
    };
    Ok(Some(Bound {
        sockets,
        secondaries,
        entries,
        control,
        metrics,
    }))
}

/// Serves a zone on sockets that are already bound.
fn serve_on_sockets<
    R: Files<File = File>
        + Eprint
        + AllocGlobal
        + Net<Listener = TcpListener, Stream = TcpStream>
        + Threads
        + Wait
        + Clock
        + RandomSource
        + Copy
        + Send
        + Sync
        + Drop
        + 'static,
>(
    rt: &R,
    serve: &Serve<'_>,
    begun: StartedZone,
    bound: Bound,
    keys: Option<&KeyFile>,
) -> io::Result<u8>
    requires { CanStart begun }
{
    if tell_outside(rt, serve.rules.as_slice(), begun.zone().apex())? {
        return Ok(BAD_COMMAND);
    }
    for own in serve.key_rules.iter() {
        if tell_outside(rt, own.rules.as_slice(), begun.zone().apex())? {
            return Ok(BAD_COMMAND);
        }
    }
    let Bound {
        sockets,
        secondaries,
        entries,
        control,
        metrics,
    } = bound;
    let (workers, addresses, kept) = sockets.into_parts();
    let control = control_of(control, metrics.as_ref(), &begun, addresses.as_slice())?;
    let metrics = metrics_of(metrics, &begun, addresses.as_slice())?;
    let log = Log::new(entries, listening_for(serve, &begun, addresses, kept));
    warn(rt, serve, &log);
    warn_of_zone(rt, serve, &begun, &log);
    let served = serve_on_workers(
        rt,
        serve,
        begun,
        workers,
        secondaries,
        keys,
        control,
        metrics,
        &log,
    );
    let status = status_of(rt, served, &log);
    log.end(rt);
    Ok(status)
}

/// The program's status once a zone is no longer served. The log gets the reason, if there is one.
fn status_of<R: Wait>(rt: &R, served: Result<(), ServeFault>, log: &Log) -> u8 {
    match served {
        Ok(()) => DONE,
        Err(fault) => {
            log.add(rt, LogLine::Fault(fault));
            FAILED
        }
    }
}

/// Serves a zone on the workers' sockets.
fn serve_on_workers<
    R: Files<File = File>
        + AllocGlobal
        + Net
        + Threads
        + Wait
        + Clock
        + RandomSource
        + Copy
        + Sync
        + Drop,
>(
    rt: &R,
    serve: &Serve<'_>,
    begun: StartedZone,
    sockets: Vec<WorkerSockets>,
    secondaries: SecondarySockets,
    keys: Option<&KeyFile>,
    control: Option<ControlPlan>,
    metrics: Option<MetricsPlan>,
    log: &Log,
) -> Result<(), ServeFault>
    requires { CanStart begun }
{
    let alloc = rt.alloc();
    let Some(limits) = work_limits_of(alloc, serve.workers, serve.most) else {
        return Err(ServeFault::NoMemory);
    };
    let Ok(work) = update_work_of(metrics.as_ref()) else {
        return Err(ServeFault::NoMemory);
    };
    let telling = WorkLimit::new(u64::MAX);
    let apex = begun.zone().apex();
    let specs = thread_specs_for(
        alloc,
        sockets,
        secondaries,
        control,
        metrics,
        apex,
        &limits,
        &telling,
    );
    let Some(specs) = specs else {
        return Err(ServeFault::NoMemory);
    };
    serve_with_specs(rt, alloc, serve, begun, specs, keys, work, log)
}

/// Serves a zone with one thread for each of these specs. The update thread shows by `work` since when a batch has been under way, if there is that.
fn serve_with_specs<
    R: Files<File = File>
        + AllocGlobal
        + Net
        + Threads
        + Wait
        + Clock
        + RandomSource
        + Copy
        + Sync
        + Drop,
>(
    rt: &R,
    alloc: Global,
    serve: &Serve<'_>,
    begun: StartedZone,
    specs: Vec<ThreadSpec<'_>>,
    keys: Option<&KeyFile>,
    work: Option<SharedWork>,
    log: &Log,
) -> Result<(), ServeFault>
    requires { CanStart begun }
{
    if specs.len() > MAX_THREADS {
        return Err(ServeFault::NotStarted);
    }
    let dir = match serve.store {
        Some(plan) => plan.dir,
        None => "",
    };
    let Ok(dir) = format!(in alloc; "{dir}") else {
        return Err(ServeFault::NoMemory);
    };
    let Ok(rights) = rights_for(alloc, keys, serve.key_rules.as_slice()) else {
        return Err(ServeFault::NoMemory);
    };
    let Ok(counters) = counters_for(alloc, serve) else {
        return Err(ServeFault::NoMemory);
    };
    let shutdown = Shutdown::new(specs.len());
    let plan = Plan {
        shutdown: &shutdown,
        keep: serve.keep,
        places: places_for(rt, serve, log),
        connections: ConnectionPlan {
            limits: serve.limits,
            allowed: Allowed::new(alloc, serve.rules.as_slice()),
        },
        keys: shared_keys(keys, rights.as_slice()),
        counters: counters.as_ref(),
    };
    let texts = ThreadTextWriter::new(*rt, dir);
    let most = Most {
        items: WAITING,
        octets: serve.update_queue,
    };
    serve_with_store(rt, alloc, most, begun, texts, specs, plan, work, log)
}

/// Where updates are stored and counted, with the log of a server.
type StoreOf<'a, R, T> = CountedStore<'a, ZoneStore<'a, R, T, CountedLog<'a, Log>>, R>;

/// Serves a zone with one thread for each of these specs. At most `most` updates wait, and the store's zone texts are written by `texts`.
fn serve_with_store<
    R: Files<File = File> + AllocGlobal + Net + Threads + Wait + Clock + Copy + Sync + Drop,
    T: TextWriter,
>(
    rt: &R,
    alloc: Global,
    most: Most,
    begun: StartedZone,
    texts: T,
    specs: Vec<ThreadSpec<'_>>,
    plan: Plan<'_>,
    work: Option<SharedWork>,
    log: &Log,
) -> Result<(), ServeFault>
    requires begun { CanStart begun }
    requires threads { vec_len specs ≤ 62 }
    requires kept { plan.keep ≤ KEPT }
{
    let log = &CountedLog::new(log, plan.counters);
    let Ok(zone) = begun.prepare(rt, alloc, plan.keep, texts, log) else {
        return Err(ServeFault::NoMemory);
    };
    let ServedZone {
        first,
        later,
        store,
        lock,
    } = zone;
    let store = CountedStore::new(store, plan.counters, work, rt);
    let config = UpdateConfig { most, store };
    let served = serve_zone::<R, Brand, CountedLog<'_, Log>, StoreOf<'_, R, T>>(
        rt, alloc, first, later, specs, plan, config, log,
    );
    mem::drop(lock);
    served
}

//! Makes the jobs of threads from their specs.
ghost use Rattle.std.specs.Prelude.{◌≡◌, ◌⊎◌, ◌↔◌, map, vec_len, IfOk, IfErr};
ghost use Rattle.std.specs.List.{All};
ghost use Rattle.std.specs.IoError.{error_kind};
ghost use Rattle.server_control.specs.declared.serve_fault.ServeFault.{ServeFault as Fault};
ghost use Rattle.serve_workers.specs.Numbers.{number_of, takes_datagrams, are_datagrams, HasRights};

use crate::service::Plan;
use crate::thread_spec::ThreadSpec;
use crate::threads::{SocketJob, TcpJob};
use crate::updates::Updates;
use server_control::ServeFault;
use sockets::{TcpPlace, Watch};
use std::alloc::Global;
use std::io::{self, ErrorKind};
use std::mem;
use std::net::{Net, TcpListener};
use std::sync::Wait;
use std::time::Clock;
use tcp_connections::Messages;
use tcp_loop::EventLoop;
use worker_jobs::{ConnectionsJob, Scratch, StopFlag, WakeList};

/// The place at which a listener's connections come in. It is watched under its number.
fn place_of<C: Clock>(
    watch: &mut Watch<'_, C>,
    listener: TcpListener,
    number: usize,
) -> io::Result<TcpPlace> {
    let mut place = TcpPlace::new(mio::net::TcpListener::from_std(listener));
    watch.watch_place(&mut place, number)?;
    Ok(place)
}

/// The places at which listeners' connections come in, one for each listener. Each is watched under its number.
fn places_of<C: Clock>(
    alloc: Global,
    watch: &mut Watch<'_, C>,
    listeners: Vec<TcpListener>,
) -> io::Result<Vec<TcpPlace>>
    ensures { IfOk result (λ places. vec_len places ≡ vec_len listeners) }
{
    let mut places = Vec::new(alloc);
    let mut number = 0usize;
    for listener in listeners {
        places.push(place_of(watch, listener, number)?)?;
        number = number.saturating_add(1);
    }
    Ok(places)
}

/// The job of the worker with a number on nonblocking listeners. An error where they can't be polled, or an allocation fails.
pub(crate) fn tcp_job<'a, R: Clock + Net + Wait, M: Messages>(
    rt: &'a R,
    alloc: Global,
    worker: usize,
    listeners: Vec<TcpListener>,
    plan: Plan<'a>,
    stop: StopFlag<'a>,
    wakes: Option<&'a WakeList>,
    scratch: Scratch,
) -> io::Result<TcpJob<'a, M, R>>
    ensures number { IfOk result (λ job. job.number ≡ worker) }
    ensures plan { IfOk result (λ job. job.plan ≡ plan.entry.connections) }
{
    let count = listeners.len();
    let mut watch = match Watch::new(rt, alloc, rt) {
        Ok(watch) => watch,
        Err(fault) => return Err(fault),
    };
    let places = match places_of(alloc, &mut watch, listeners) {
        Ok(places) => places,
        Err(fault) => return Err(fault),
    };
    let waker = match watch.waker() {
        Ok(waker) => waker,
        Err(fault) => return Err(fault),
    };
    let event_loop = match EventLoop::new(alloc, plan.places, count) {
        Ok(event_loop) => event_loop,
        Err(fault) => return Err(io::Error::from(fault)),
    };
    let plan = plan.connections;
    let job = ConnectionsJob::new(worker, watch, places, event_loop, plan, stop, rt, scratch);
    let Some(wakes) = wakes else {
        mem::drop(waker);
        return Ok(job);
    };
    wakes.wake_by(rt, waker);
    Ok(job.with_wake_list(alloc, wakes))
}

/// Why a job can't be made: no memory, or its sockets have failed.
pub(crate) fn fault_of(fault: &io::Error) -> ServeFault
    ensures memory { (result ≡ Fault.NoMemory) ↔ (error_kind fault.now ≡ ErrorKind.OutOfMemory) }
    ensures device { (result ≡ Fault.NoMemory) ⊎ (result ≡ Fault.Device) }
{
    if fault.kind() == ErrorKind::OutOfMemory {
        ServeFault::NoMemory
    } else {
        ServeFault::Device
    }
}

/// Makes the jobs of threads, in their order. Each learns of ready connections by the list that `updates` has for its place. Fails where an allocation or a socket fails.
pub(crate) fn jobs_of<'a, R: Clock + Net + Wait>(
    rt: &'a R,
    alloc: Global,
    specs: Vec<ThreadSpec<'a>>,
    plan: Plan<'a>,
    updates: &'a Updates,
) -> Result<Vec<SocketJob<'a, R>>, ServeFault>
    ensures numbers { IfOk result (λ jobs. map (λ job. number_of job) jobs.items ≡ map (λ spec. spec.worker) specs.entry.items) }
    ensures kinds { IfOk result (λ jobs. map (λ job. takes_datagrams job) jobs.items ≡ map (λ spec. are_datagrams spec.sockets) specs.entry.items) }
    ensures rights { IfOk result (λ jobs. All (λ job. HasRights plan.entry.connections.allowed.rules.now job) jobs.items) }
    ensures count { IfOk result (λ jobs. vec_len jobs ≡ vec_len specs.entry) }
    ensures refused { IfErr result (λ fault. (fault ≡ Fault.NoMemory) ⊎ (fault ≡ Fault.Device)) }
{
    let Ok(mut jobs) = Vec::with_capacity(alloc, specs.len()) else {
        return Err(ServeFault::NoMemory);
    };
    let mut place = 0usize;
    for spec in specs {
        let Ok(scratch) = Scratch::new(alloc) else {
            return Err(ServeFault::NoMemory);
        };
        let shown = match plan.counters {
            Some(counters) => counters.thread(place),
            None => None,
        };
        let wakes = updates.wake_list_at(place);
        let job = match spec.into_job(rt, alloc, plan, wakes, shown, scratch) {
            Ok(job) => job,
            Err(fault) => return Err(fault_of(&fault)),
        };
        jobs.push_reserved(job);
        place = place.saturating_add(1);
    }
    Ok(jobs)
}

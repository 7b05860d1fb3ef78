//! What each thread of a server serves, and how many connections.
use crate::metrics::notify_work_of;
use crate::secondaries::SecondarySockets;
use command_line::Serve;
use dns_name::Name;
use dnsd_setup::{Log, LogLine, WorkerSockets, descriptors};
use serve_workers::{Sockets, ThreadSpec, WorkLimit};
use server_control::{ControlPlan, MetricsPlan};
use std::alloc::Global;
use std::fs::Files;
use std::sync::Wait;

/// What each thread serves: each worker's listeners, each of its UDP sockets, and, in one more thread each, the secondaries of the zone with this apex,
/// the operator, and who asks for metrics. None if there is not enough memory.
pub fn thread_specs_for<'a>(
    alloc: Global,
    sockets: Vec<WorkerSockets>,
    secondaries: SecondarySockets,
    control: Option<ControlPlan>,
    metrics: Option<MetricsPlan>,
    apex: &Name,
    limits: &'a [WorkLimit],
    telling: &'a WorkLimit,
) -> Option<Vec<ThreadSpec<'a>>> {
    let mut specs = thread_specs_of(alloc, sockets, limits)?;
    if !secondaries.is_empty() {
        let worker = specs.len().saturating_add(1);
        let work = notify_work_of(metrics.as_ref()).ok()?;
        let secondaries = Sockets::Secondaries(secondaries.of_zone(apex.copy(), work));
        put(&mut specs, worker, telling, secondaries)?;
    }
    if let Some(control) = control {
        let worker = specs.len().saturating_add(1);
        put(&mut specs, worker, telling, Sockets::Control(control))?;
    }
    if let Some(metrics) = metrics {
        let worker = specs.len().saturating_add(1);
        put(&mut specs, worker, telling, Sockets::Metrics(metrics))?;
    }
    Some(specs)
}

/// What each thread serves: for each worker, one thread serves its listeners, and one more thread each of its UDP sockets. None if there is not
/// enough memory, or fewer limits than workers.
fn thread_specs_of<'a>(
    alloc: Global,
    workers: Vec<WorkerSockets>,
    limits: &'a [WorkLimit],
) -> Option<Vec<ThreadSpec<'a>>> {
    let mut specs = Vec::new(alloc);
    let mut worker = 0usize;
    for sockets in workers {
        let limit = limits.get(worker)?;
        worker = worker.saturating_add(1);
        put_thread_specs(&mut specs, worker, limit, sockets)?;
    }
    Some(specs)
}

/// Appends what a worker's threads serve.
fn put_thread_specs<'a>(
    specs: &mut Vec<ThreadSpec<'a>>,
    worker: usize,
    limit: &'a WorkLimit,
    sockets: WorkerSockets,
) -> Option<()> {
    let (datagrams, listeners) = sockets.into_parts();
    put(specs, worker, limit, Sockets::Connections(listeners))?;
    for socket in datagrams {
        put(specs, worker, limit, Sockets::Datagrams(socket))?;
    }
    Some(())
}

/// Appends what one thread serves. None if there is not enough memory.
fn put<'a>(
    specs: &mut Vec<ThreadSpec<'a>>,
    worker: usize,
    limit: &'a WorkLimit,
    sockets: Sockets,
) -> Option<()> {
    let spec = ThreadSpec {
        worker,
        limit,
        sockets,
    };
    if specs.push(spec).is_err() {
        return None;
    }
    Some(())
}

/// The work limits of the workers, each of which exits after `most` datagrams and connections. None if there is not enough memory.
pub fn work_limits_of(alloc: Global, workers: usize, most: u64) -> Option<Vec<WorkLimit>> {
    let mut limits = Vec::new(alloc);
    for _ in 0..workers {
        if limits.push(WorkLimit::new(most)).is_err() {
            return None;
        }
    }
    Some(limits)
}

/// The maximum number of open connections per worker: as many as requested, or else, with a line in the log, as many as there are descriptors for.
pub fn places_for<R: Files + AllocGlobal + Wait>(rt: &R, serve: &Serve<'_>, log: &Log) -> usize {
    let (workers, places, addresses) = (serve.workers, serve.places, serve.listen.len());
    let wanted = descriptors::wanted(workers, places, addresses);
    match descriptors::limit(rt) {
        Some(limit) if limit < wanted => {
            let places = descriptors::places_within(limit, workers, places, addresses);
            let line = LogLine::FewDescriptors {
                limit,
                wanted,
                places,
            };
            log.add(rt, line);
            places
        }
        _ => places,
    }
}

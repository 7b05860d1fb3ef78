//! What is counted and served of a running server: the socket for metrics, and the counters of its threads.
use crate::control::NotBound;
use command_line::Serve;
use counters::ServerCounters;
use dnsd_setup::{SeenWriter, StartedZone, bind_metrics};
use log_lines::RecentLines;
use server_control::{MetricsPlan, ProcessFiles, SharedWork, UdpDrops, WorkSince};
use signed_replies::{SystemClock, UnixClock};
use std::alloc::{AllocError, Global};
use std::fs::{File, Files};
use std::io;
use std::net::{Net, SocketAddr};
use std::rt::Env;
use std::sync::Arc;
use std::time::Clock;

/// When a server is started that starts now, in seconds since 1970.
pub fn started<R: Clock>(rt: &R) -> u64 {
    SystemClock::new(rt).now()
}

/// How many threads of the server answer no requests.
pub fn beside_of(serve: &Serve<'_>) -> usize {
    let notifying = if serve.secondaries.is_empty() { 0 } else { 1 };
    let controlling = if serve.control.is_some() { 1 } else { 0 };
    let telling = if serve.metrics.is_some() { 1 } else { 0 };
    notifying + controlling + telling
}

/// How many lines of the log the page shows (own).
const LINES: usize = 20;

/// The files in which the system lists UDP sockets (Linux, proc(5)), by the process's own directory: where `/proc` shows processes alone, it has no `/proc/net`.
const UDP_SOCKETS: [&str; 2] = ["/proc/self/net/udp", "/proc/self/net/udp6"];

/// What shows how many datagrams the system drops: the files that can be opened. The fault is a growth that was refused.
pub fn drops_for<R: Files<File = File> + AllocGlobal>(rt: &R) -> io::Result<UdpDrops> {
    let mut files = Vec::new(rt.alloc());
    for path in UDP_SOCKETS {
        if let Ok(file) = File::open(rt, path) {
            files.push(file)?;
        }
    }
    Ok(UdpDrops::new(rt.alloc(), files))
}

/// The files in which the system reports on the process (Linux, proc(5)).
pub fn process_for<R: Files<File = File>>(rt: &R) -> ProcessFiles {
    let times = File::open(rt, "/proc/self/stat").ok();
    let memory = File::open(rt, "/proc/self/status").ok();
    ProcessFiles::new(times, memory)
}

/// The plan for telling metrics, if there is one, of a server that begins with this at these addresses. The fault is a growth that was refused.
pub fn metrics_of(
    metrics: Option<MetricsPlan>,
    begun: &StartedZone,
    addresses: &[SocketAddr],
) -> Result<Option<MetricsPlan>, AllocError> {
    let Some(mut plan) = metrics else {
        return Ok(None);
    };
    for address in addresses {
        plan.drops.watch(*address)?;
    }
    plan.store = begun.store_state()?;
    Ok(Some(plan))
}

/// Binds the socket for metrics, if they are served: what a thread needs that serves them.
pub fn metrics_for<R: Files<File = File> + Net + Env + Eprint + AllocGlobal + Clock>(
    rt: &R,
    serve: &Serve<'_>,
) -> io::Result<Result<Option<MetricsPlan>, NotBound>> {
    let Some(address) = serve.metrics else {
        return Ok(Ok(None));
    };
    match bind_metrics(rt, address) {
        Ok(Some(listener)) => Ok(Ok(Some(MetricsPlan {
            listener,
            drops: drops_for(rt)?,
            process: process_for(rt),
            lines: Arc::new(rt.alloc(), RecentLines::new(rt.alloc(), LINES))?,
            updating: Arc::new(rt.alloc(), WorkSince::new())?,
            logging: Arc::new(rt.alloc(), WorkSince::new())?,
            notifying: Arc::new(rt.alloc(), WorkSince::new())?,
            controlling: Arc::new(rt.alloc(), WorkSince::new())?,
            beside: beside_of(serve),
            store: None,
            started: started(rt),
        }))),
        Ok(None) => Ok(Err(NotBound)),
        Err(fault) => Err(fault),
    }
}

/// What others see of the log's thread, if metrics are served. The fault is a request for memory that was refused.
pub fn seen_writer_of(metrics: Option<&MetricsPlan>) -> Result<Option<SeenWriter>, AllocError> {
    match metrics {
        Some(plan) => Ok(Some(SeenWriter {
            lines: Arc::try_clone(&plan.lines)?,
            work: Arc::try_clone(&plan.logging)?,
        })),
        None => Ok(None),
    }
}

/// Where the update thread shows since when a batch has been under way, if metrics are served. The fault is a request for memory that was refused.
pub fn update_work_of(metrics: Option<&MetricsPlan>) -> Result<Option<SharedWork>, AllocError> {
    match metrics {
        Some(plan) => Ok(Some(Arc::try_clone(&plan.updating)?)),
        None => Ok(None),
    }
}

/// Where the thread that notifies secondaries shows when a round began, if metrics are served. The fault is a request for memory that was refused.
pub fn notify_work_of(metrics: Option<&MetricsPlan>) -> Result<Option<SharedWork>, AllocError> {
    match metrics {
        Some(plan) => Ok(Some(Arc::try_clone(&plan.notifying)?)),
        None => Ok(None),
    }
}

/// Where the thread that takes the operator's commands shows the same.
pub fn control_work_of(metrics: Option<&MetricsPlan>) -> Result<Option<SharedWork>, AllocError> {
    match metrics {
        Some(plan) => Ok(Some(Arc::try_clone(&plan.controlling)?)),
        None => Ok(None),
    }
}

/// Where the threads that answer requests show what they count, if metrics are served. The fault is a request for memory that was refused.
pub fn counters_for(
    alloc: Global,
    serve: &Serve<'_>,
) -> Result<Option<ServerCounters>, AllocError> {
    if serve.metrics.is_none() {
        return Ok(None);
    }
    let threads = serve.workers * (serve.listen.len() + 1);
    let mut counters = ServerCounters::new(alloc, threads)?;
    for secondary in serve.secondaries.iter() {
        counters.add_secondary(secondary.address)?;
    }
    Ok(Some(counters))
}

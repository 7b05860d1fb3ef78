//! A zone served by worker threads on sockets of the system, and how that ends: each thread has reached its limit, or all end since one of them
//! has failed.

use crate::nowhere::Nowhere;
use dns_engine::SharedVersion;
use memory_devices::zone;
use requests::Allowed;
use rights::parse_rule;
use serve_workers::{
    ConnectionPlan, Most, Plan, Sockets, ThreadSpec, UpdateConfig, WorkLimit, serve_zone,
};
use server_control::{ServeFault, Shutdown};
use sockets::{Turn, bind_datagrams, bind_listener};
use std::alloc::Global;
use std::io;
use std::marker::Brand;
use std::net::{Net, Shutdown as Close, SocketAddr, TcpListener, TcpStream, UdpSocket};
use std::os::fd::OwnedFd;
use std::sync::Wait;
use std::sync::atomic::{AtomicU64, Ordering};
use std::thread::Threads;
use std::time::Clock;
use tcp_connections::Limits;
use zone_server::{Event, JobEnd, ServiceLog};
use zone_tree::Version;

/// The address of this host, from which updates are allowed.
pub(crate) const HOST: [u8; 4] = [127, 0, 0, 1];

/// A second, in nanoseconds.
const SECOND: u64 = 1_000_000_000;

/// Added to a server's sum for each thread that has reached its limit.
pub(crate) const DONE: u64 = 1;

/// Added for each thread that has failed.
const FAILED: u64 = 10;

/// Added when all threads have started.
pub(crate) const BEGUN: u64 = 100;

/// Added at the server's end if a thread could not be started.
pub(crate) const NOT_STARTED: u64 = 1_000;

/// Added if memory allocation failed.
const NO_MEMORY: u64 = 2_000;

/// Added if a socket has failed.
pub(crate) const DEVICE: u64 = 3_000;

/// Added if no version could be loaded.
const SPENT: u64 = 4_000;

/// A log that adds up the events of threads.
#[derive(Drop)]
struct Summed {
    sum: AtomicU64,
}

impl ServiceLog for Summed {
    fn tell<R: Wait>(&self, _rt: &R, event: Event) {
        let more = match event {
            Event::Serving => BEGUN,
            Event::End {
                end: JobEnd::Done(_),
                ..
            } => DONE,
            Event::End { .. } => FAILED,
            _ => 0,
        };
        self.sum.fetch_add(more, Ordering::SeqCst);
    }
}

/// The number added for a server's end.
fn reason_of(served: Result<(), ServeFault>) -> u64 {
    match served {
        Ok(()) => 0,
        Err(ServeFault::NotStarted) => NOT_STARTED,
        Err(ServeFault::NoMemory) => NO_MEMORY,
        Err(ServeFault::Device) => DEVICE,
        Err(ServeFault::Spent) => SPENT,
    }
}

/// A socket for datagrams and a listener, each on a port of its own that the system chooses.
pub(crate) fn sockets<R: Net>(rt: &R) -> io::Result<(UdpSocket, TcpListener)> {
    let any = SocketAddr::from((HOST, 0));
    let datagrams = bind_datagrams(rt, any, Turn::First)?;
    let listener = bind_listener(rt, any, Turn::First)?;
    Ok((datagrams, listener))
}

/// Shuts a listener down for all its owners: no more connections can be accepted (Linux, accept(2)).
fn break_listener(listener: &TcpListener) -> io::Result<()> {
    let same = TcpStream::from(OwnedFd::from(listener.try_clone()?));
    same.shutdown(Close::Both)
}

/// Appends the specifications of a worker's threads, for its sockets and with its number, to `duties`.
pub(crate) fn add_worker<'a>(
    alloc: Global,
    worker: usize,
    limit: &'a WorkLimit,
    own: (Option<UdpSocket>, Option<TcpListener>),
    duties: &mut Vec<ThreadSpec<'a>>,
) -> io::Result<()> {
    let (datagrams, listener) = own;
    if let Some(socket) = datagrams {
        let sockets = Sockets::Datagrams(socket);
        duties.push(ThreadSpec {
            worker,
            limit,
            sockets,
        })?;
    }
    if let Some(listener) = listener {
        let sockets = Sockets::Connections(Vec::from_array(alloc, [listener])?);
        duties.push(ThreadSpec {
            worker,
            limit,
            sockets,
        })?;
    }
    Ok(())
}

/// Serves a zone by threads with these specifications, and an update thread. Returns the server's sum. None if there are too many threads, or
/// no memory for the zone.
pub(crate) fn served<R: Net + Threads + Wait + Clock + Sync>(
    rt: &R,
    alloc: Global,
    duties: Vec<ThreadSpec<'_>>,
) -> Option<u64> {
    let threads = duties.len();
    if threads > 8 {
        return None;
    }
    let shutdown = Shutdown::new(threads);
    let mut rules = Vec::new(alloc);
    rules
        .push(parse_rule(alloc, "127.0.0.1: update, transfer").ok()?)
        .ok()?;
    let plan = Plan {
        shutdown: &shutdown,
        keep: 0,
        places: 8,
        connections: ConnectionPlan {
            limits: Limits {
                idle: SECOND,
                message: SECOND,
                reply: SECOND,
                rate: 0,
            },
            allowed: Allowed::new(alloc, &rules),
        },
        keys: None,
        counters: None,
    };
    let zone = zone(alloc)?;
    let version = Version::first(zone);
    let Some(first) = SharedVersion::new(alloc, version) else {
        return None;
    };
    let later = Vec::new(alloc);
    let config = UpdateConfig {
        most: Most {
            items: 8,
            octets: 1 << 20,
        },
        store: Nowhere,
    };
    let log = Summed {
        sum: AtomicU64::new(0),
    };
    let end = serve_zone::<R, Brand, Summed, Nowhere>(
        rt, alloc, first, later, duties, plan, config, &log,
    );
    Some(reason_of(end).saturating_add(log.sum.load(Ordering::SeqCst)))
}

/// The specifications of the threads of two workers, each with a limit of its own. With `is_broken`, the listener of the second one is shut
/// down.
fn duties_of<'a, R: Net>(
    rt: &R,
    alloc: Global,
    limits: &'a [WorkLimit],
    is_broken: bool,
) -> io::Result<Vec<ThreadSpec<'a>>> {
    let mut duties = Vec::new(alloc);
    let mut worker = 0usize;
    for limit in limits {
        worker = worker.saturating_add(1);
        let (datagrams, listener) = sockets(rt)?;
        if is_broken && worker == 2 {
            break_listener(&listener)?;
        }
        let own = (Some(datagrams), Some(listener));
        add_worker(alloc, worker, limit, own, &mut duties)?;
    }
    Ok(duties)
}

/// Serves a zone by two workers, each of which may answer `most` requests, and returns the server's sum. None if there are no sockets, or no
/// memory for the start.
pub(crate) fn served_by_two<R: Net + Threads + Wait + Clock + Sync>(
    rt: &R,
    alloc: Global,
    most: u64,
    is_broken: bool,
) -> Option<u64> {
    let limits = [WorkLimit::new(most), WorkLimit::new(most)];
    let duties = duties_of(rt, alloc, &limits, is_broken).ok()?;
    served(rt, alloc, duties)
}

// Workers that may do nothing reach their limit at once. If a thread fails, the others end too, whatever their limits, and the server's end
// gives the reason.
#[test]
fn a_server_ends_with_its_threads(rt: HostRuntime) {
    let cases = [
        (0, false, BEGUN + 4 * DONE),
        (u64::MAX, true, DEVICE + BEGUN + FAILED + 3 * DONE),
    ];
    for (most, is_broken, want) in cases {
        let sum = served_by_two(&rt, rt.alloc(), most, is_broken);
        assert_eq!(rt; sum, Some(want), "of {most}");
    }
}

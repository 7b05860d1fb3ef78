//! The sockets on which a zone is served (RFC 1035, 4.2).
use command_line::Serve;
use log_lines::Level;
use sockets::{Turn, bind_datagrams, bind_listener, keep_received};
use std::alloc::Global;
use std::io::{self, ErrorKind};
use std::net::{Net, SocketAddr, TcpListener, UdpSocket};
use std::rt::Env;

/// The sockets of a worker: for each address a UDP socket and a TCP listener.
pub struct WorkerSockets {
    datagrams: Vec<UdpSocket>,
    listeners: Vec<TcpListener>,
}

impl Drop for WorkerSockets {
    fn drop(self) {
        let WorkerSockets {
            datagrams: _,
            listeners: _,
        } = self;
    }
}

impl WorkerSockets {
    /// The UDP sockets, and the TCP listeners.
    pub fn into_parts(self) -> (Vec<UdpSocket>, Vec<TcpListener>) {
        let WorkerSockets {
            datagrams,
            listeners,
        } = self;
        (datagrams, listeners)
    }
}

/// The sockets of a server.
pub struct BoundSockets {
    workers: Vec<WorkerSockets>,
    addresses: Vec<SocketAddr>,
    kept: u32,
}

impl Drop for BoundSockets {
    fn drop(self) {
        let BoundSockets {
            workers: _,
            addresses: _,
            kept: _,
        } = self;
    }
}

impl BoundSockets {
    /// The sockets of each worker; the addresses, with the ports that they were given; and the size, in octets, of the smallest receive buffer of
    /// the UDP sockets.
    pub fn into_parts(self) -> (Vec<WorkerSockets>, Vec<SocketAddr>, u32) {
        let BoundSockets {
            workers,
            addresses,
            kept,
        } = self;
        (workers, addresses, kept)
    }
}

/// An address that cannot be listened on, and why.
#[derive(Drop)]
struct Unbound {
    /// The address and port.
    listen: SocketAddr,
    /// The transport, UDP or TCP.
    transport: &'static str,
    /// The reason.
    fault: io::Error,
}

/// Binds all sockets on which a zone is served. None if an address cannot be listened on; standard error then has the reason.
pub fn bind_sockets<R: Env + Eprint + AllocGlobal + Net>(
    rt: &R,
    serve: &Serve<'_>,
) -> io::Result<Option<BoundSockets>> {
    match bind_all(rt, rt.alloc(), serve.listen.as_slice(), serve.workers) {
        Ok((workers, addresses)) => {
            let kept = keep_datagrams(workers.as_slice(), serve.udp_buffer);
            Ok(Some(BoundSockets {
                workers,
                addresses,
                kept,
            }))
        }
        Err(unbound) => {
            tell_unbound(rt, &unbound)?;
            Ok(None)
        }
    }
}

impl Unbound {
    /// That an address cannot be listened on.
    fn new(listen: SocketAddr, transport: &'static str, fault: io::Error) -> Unbound {
        Unbound {
            listen,
            transport,
            fault,
        }
    }
}

/// Binds a listener and a UDP socket at an address. Also returns the address with the port that they were given.
fn bind_both<R: Net>(
    rt: &R,
    listen: SocketAddr,
    turn: Turn,
) -> Result<(TcpListener, UdpSocket, SocketAddr), Unbound> {
    let listener = match bind_listener(rt, listen, turn) {
        Ok(listener) => listener,
        Err(fault) => return Err(Unbound::new(listen, "TCP", fault)),
    };
    let address = match listener.local_addr() {
        Ok(address) => address,
        Err(fault) => return Err(Unbound::new(listen, "TCP", fault)),
    };
    match bind_datagrams(rt, address, turn) {
        Ok(datagrams) => Ok((listener, datagrams, address)),
        Err(fault) => Err(Unbound::new(listen, "UDP", fault)),
    }
}

/// Binds the sockets of the first worker. Also returns the addresses with the ports that they were given.
fn bind_first<R: Net>(
    rt: &R,
    alloc: Global,
    listen: &[SocketAddr],
) -> Result<(WorkerSockets, Vec<SocketAddr>), Unbound> {
    let mut sockets = WorkerSockets {
        datagrams: Vec::new(alloc),
        listeners: Vec::new(alloc),
    };
    let mut addresses = Vec::new(alloc);
    for address in listen {
        let bound = bind_into(&mut sockets, rt, *address, Turn::First)?;
        if let Err(fault) = addresses.push(bound) {
            return Err(Unbound::new(*address, "TCP", io::Error::from(fault)));
        }
    }
    Ok((sockets, addresses))
}

/// Binds the sockets of another worker, at the addresses of the first.
fn bind_another<R: Net>(
    rt: &R,
    alloc: Global,
    listen: &[SocketAddr],
) -> Result<WorkerSockets, Unbound> {
    let mut sockets = WorkerSockets {
        datagrams: Vec::new(alloc),
        listeners: Vec::new(alloc),
    };
    for address in listen {
        bind_into(&mut sockets, rt, *address, Turn::Another)?;
    }
    Ok(sockets)
}

/// Binds a listener and a UDP socket at an address, and appends them to a worker's sockets. Returns the address with the port that they were given.
fn bind_into<R: Net>(
    sockets: &mut WorkerSockets,
    rt: &R,
    address: SocketAddr,
    turn: Turn,
) -> Result<SocketAddr, Unbound> {
    let (listener, datagrams, bound) = bind_both(rt, address, turn)?;
    let listened = sockets.listeners.push(listener).is_ok();
    if listened && sockets.datagrams.push(datagrams).is_ok() {
        return Ok(bound);
    }
    Err(no_memory(address))
}

/// The fault for lack of memory.
fn no_memory(listen: SocketAddr) -> Unbound {
    Unbound::new(listen, "TCP", io::Error::from(ErrorKind::OutOfMemory))
}

/// Binds the sockets of all workers, at least one, and returns them with the addresses and the ports that they were given. If another program has a
/// port, none of the workers gets it.
fn bind_all<R: Net>(
    rt: &R,
    alloc: Global,
    listen: &[SocketAddr],
    workers: usize,
) -> Result<(Vec<WorkerSockets>, Vec<SocketAddr>), Unbound> {
    let (first, addresses) = bind_first(rt, alloc, listen)?;
    let mut all = Vec::new(alloc);
    let mut next = Some(first);
    for before in 0..workers {
        let sockets = match next.take() {
            Some(sockets) => sockets,
            None => bind_another(rt, alloc, addresses.as_slice())?,
        };
        if all.push(sockets).is_err() {
            break;
        }
        if before + 1 == workers {
            return Ok((all, addresses));
        }
    }
    let none = SocketAddr::V4(std::net::SocketAddrV4::new(std::net::Ipv4Addr::new(0, 0, 0, 0), 0));
    Err(no_memory(none))
}

/// Asks the system for a receive buffer of this many octets for each UDP socket, and returns the size of the smallest one that it grants.
fn keep_datagrams(workers: &[WorkerSockets], octets: u32) -> u32 {
    let mut fewest = octets;
    for worker in workers {
        fewest = fewest.min(keep_for(worker, octets));
    }
    fewest
}

/// The same for one worker.
fn keep_for(worker: &WorkerSockets, octets: u32) -> u32 {
    let mut fewest = octets;
    for socket in worker.datagrams.iter() {
        fewest = fewest.min(keep_received(socket, octets).unwrap_or(0));
    }
    fewest
}

/// Writes why an address cannot be listened on to standard error.
fn tell_unbound<R: Env + AllocGlobal + Eprint>(rt: &R, unbound: &Unbound) -> io::Result<()> {
    let Unbound {
        listen,
        transport,
        fault,
    } = unbound;
    let mark = Level::Error.mark_for(rt);
    match reason_of(fault) {
        Some(reason) => {
            eprintln!(rt; "{mark}error: cannot listen on {listen} ({transport}): {reason}")
        }
        None => { eprintln!(rt; "{mark}error: cannot listen on {listen} ({transport}): {fault}") }
    }
}

/// Why an address cannot be listened on, in an operator's words. None if the text of the I/O error is used.
fn reason_of(fault: &io::Error) -> Option<&'static str> {
    match fault.kind() {
        ErrorKind::AddrInUse => Some("address in use"),
        ErrorKind::AddrNotAvailable => Some("not an address of this machine"),
        ErrorKind::PermissionDenied => {
            Some("a port below 1024 needs root or the capability CAP_NET_BIND_SERVICE")
        }
        _ => None,
    }
}

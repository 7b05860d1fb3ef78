//! Sockets bound to an address and a port.
ghost use Rattle.std.specs.Prelude.{◌≡◌, pos};
ghost use Rattle.libc.specs.Net.{Family, Kind as IsKind};
ghost use Rattle.sockets.specs.Options.{kind_of};

use crate::address::address_octets;
use crate::option::Choice;
use crate::system::check;
use libc::net as c;
use os::FromRawFd;
use std::io;
use std::net::{Net, SocketAddr, TcpListener, UdpSocket};
use std::os::fd::{AsRawFd, OwnedFd};

/// How many connections may wait to be accepted. The system lowers this number to its own limit.
const BACKLOG: i32 = i32::MAX;

/// Whether a socket is the first one at its port.
#[derive(Clone, Copy)]
pub enum Turn {
    /// The first socket. Binding it fails if another socket has the port. After it is bound, other sockets can share the port.
    First,
    /// An additional socket, next to those that share the port.
    Another,
}

/// What a socket transports.
#[derive(Clone, Copy)]
enum Carried {
    /// Datagrams (UDP).
    Datagrams,
    /// Connections (TCP).
    Connections,
}

impl Carried {
    /// The socket type for the system call, with two flags: a call that would block fails instead, and no other program inherits
    /// the socket.
    fn kind(self) -> i32
        ensures known { IsKind result }
        ensures kind { result ≡ kind_of self }
    {
        match self {
            Carried::Datagrams => c::SOCK_DGRAM | c::SOCK_NONBLOCK | c::SOCK_CLOEXEC,
            Carried::Connections => c::SOCK_STREAM | c::SOCK_NONBLOCK | c::SOCK_CLOEXEC,
        }
    }
}

/// Opens a UDP socket and binds it to an address and a port. The socket is non-blocking: a call that would block fails with `WouldBlock`.
/// An error is the system's. For the first socket it is "Address already in use" if another socket has the port.
pub fn bind_datagrams<R: Net>(_net: &R, address: SocketAddr, turn: Turn) -> io::Result<UdpSocket> {
    let socket = open(address, Carried::Datagrams)?;
    bind(&socket, address, turn)?;
    Ok(UdpSocket::from(socket))
}

/// Opens a TCP listener at an address and a port. The listener is non-blocking: an `accept` that would block fails with `WouldBlock`.
/// An error is the system's. For the first socket it is "Address already in use" if another socket has the port.
pub fn bind_listener<R: Net>(_net: &R, address: SocketAddr, turn: Turn) -> io::Result<TcpListener> {
    let socket = open(address, Carried::Connections)?;
    Choice::ReuseAddress.set(&socket)?;
    bind(&socket, address, turn)?;
    check(c::listen(socket.as_raw_fd(), BACKLOG))?;
    Ok(TcpListener::from(socket))
}

/// Opens a socket of an address's family without binding it. An IPv6 socket serves IPv6 only.
fn open(address: SocketAddr, carried: Carried) -> io::Result<OwnedFd> {
    match address {
        SocketAddr::V4(_) => socket_of(c::AF_INET, carried),
        SocketAddr::V6(_) => {
            let socket = socket_of(c::AF_INET6, carried)?;
            Choice::Ipv6Alone.set(&socket)?;
            Ok(socket)
        }
    }
}

/// Opens a socket of a family.
fn socket_of(family: i32, carried: Carried) -> io::Result<OwnedFd>
    requires { Family family }
{
    // The call takes three numbers and no memory of this program.
    let number = unsafe { c::socket(family, carried.kind(), 0) };
    check(number)?;
    // The system has just returned this file descriptor, so nothing else owns or closes it.
    Ok(unsafe { OwnedFd::from_raw_fd(number) })
}

/// Binds a socket. The first socket allows others to share its port only after it is bound, so binding fails if another socket already
/// has the port. An additional socket has to allow sharing before it is bound.
fn bind(socket: &OwnedFd, address: SocketAddr, turn: Turn) -> io::Result<()> {
    match turn {
        Turn::First => {
            bind_at(socket, address)?;
            Choice::SharePort.set(socket)
        }
        Turn::Another => {
            Choice::SharePort.set(socket)?;
            bind_at(socket, address)
        }
    }
}

/// Binds a socket without changing its options.
fn bind_at(socket: &OwnedFd, address: SocketAddr) -> io::Result<()> {
    let (octets, size) = address_octets(address);
    // C reads `size` octets, and `octets` holds an address of that size.
    check(unsafe { c::bind(socket.as_raw_fd(), &octets, size) })
}

//! Socket options that are set before a socket is used.
ghost use Rattle.std.specs.Prelude.{◌≡◌, pos};
ghost use Rattle.libc.specs.Net.{SockOption};
ghost use Rattle.sockets.specs.Options.{option_of};

use crate::system::check;
use libc::net as c;
use std::io;
use std::net::UdpSocket;
use std::os::fd::{AsRawFd, OwnedFd};

/// Size of the C type int in octets.
const INT_OCTETS: u32 = 4;

/// A socket option that is either on or off.
#[derive(Clone, Copy)]
pub(crate) enum Choice {
    /// The port can be bound even if recently closed connections still hold it (SO_REUSEADDR).
    ReuseAddress,
    /// Other sockets can bind the same port (SO_REUSEPORT).
    SharePort,
    /// The socket serves IPv6 only and leaves the IPv4 port to another socket (IPV6_V6ONLY; RFC 3493, 5.3).
    Ipv6Alone,
}

impl Choice {
    /// The option's level, and its name at that level.
    fn level_and_name(self) -> (i32, i32)
        ensures known { SockOption result.0 result.1 }
        ensures option { result ≡ option_of self }
    {
        match self {
            Choice::ReuseAddress => (c::SOL_SOCKET, c::SO_REUSEADDR),
            Choice::SharePort => (c::SOL_SOCKET, c::SO_REUSEPORT),
            Choice::Ipv6Alone => (c::IPPROTO_IPV6, c::IPV6_V6ONLY),
        }
    }

    /// Turns the option on for a socket. An error is the system's.
    pub(crate) fn set(self, socket: &OwnedFd) -> io::Result<()> {
        let (level, name) = self.level_and_name();
        let mut on = [0; 16];
        on[..4].copy_from_slice(&1i32.to_ne_bytes());
        // The option's value is the number 1, in the first 4 octets. C may read all 16 octets.
        check(unsafe { c::setsockopt(socket.as_raw_fd(), level, name, &on, INT_OCTETS) })
    }
}

/// Asks the system to keep up to `octets` octets of datagrams until they are read (SO_RCVBUF; socket(7)). Returns how many octets it
/// keeps, which is at most `net.core.rmem_max`. An error is the system's.
pub fn keep_received(socket: &UdpSocket, octets: u32) -> io::Result<u32> {
    let mut value = [0; 16];
    value[..4].copy_from_slice(&octets.to_ne_bytes());
    // C reads the number from the first 4 of the 16 octets.
    check(unsafe {
        c::setsockopt(
            socket.as_raw_fd(),
            c::SOL_SOCKET,
            c::SO_RCVBUF,
            &value,
            INT_OCTETS,
        )
    })?;
    let mut size = INT_OCTETS;
    // C writes at most 4 octets.
    check(unsafe {
        c::getsockopt(
            socket.as_raw_fd(),
            c::SOL_SOCKET,
            c::SO_RCVBUF,
            &mut value,
            &mut size,
        )
    })?;
    let [a, b, c, d, ..] = value;
    // The system reports twice the size, since it adds the same amount for its own use.
    Ok(u32::from_ne_bytes([a, b, c, d]) / 2)
}

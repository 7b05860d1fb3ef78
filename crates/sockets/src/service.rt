//! Notifies the service manager, through the socket that systemd names in the environment variable `NOTIFY_SOCKET` (sd_notify(3)).
ghost use Rattle.std.specs.Prelude.{◌≡◌, ◌<◌, ◌≤◌, IfSome, None, length};
ghost use Rattle.mio.specs.SockAddr.{sockaddr_un};

use crate::address::put;
use crate::system::check;
use libc::net as c;
use os::FromRawFd;
use std::net::Net;
use std::os::fd::{AsRawFd, OwnedFd};

/// Maximum length of a Unix socket's name in octets (unix(7)).
const NAME_OCTETS: usize = 107;

/// A socket connected to the service manager.
pub struct ServiceManager {
    socket: OwnedFd,
}

impl Drop for ServiceManager {
    fn drop(self) {
        let ServiceManager { socket: _ } = self;
    }
}

impl ServiceManager {
    /// Connects to the service manager at an address: the path of a socket, or an abstract name, which begins with `@` (unix(7)). None if the address is neither or too
    /// long, or if the system doesn't connect to it.
    pub fn at<R: Net>(_net: &R, name: &str) -> Option<ServiceManager> {
        let (octets, size) = match name.as_bytes() {
            [b'@', name @ ..] => unix_address(name, true)?,
            [b'/', ..] => unix_address(name.as_bytes(), false)?,
            _ => return None,
        };
        // The call takes three numbers and no memory of this program.
        let number = unsafe {
            c::socket(
                c::AF_UNIX,
                c::SOCK_DGRAM | c::SOCK_NONBLOCK | c::SOCK_CLOEXEC,
                0,
            )
        };
        check(number).ok()?;
        // The system has just returned this file descriptor, so nothing else owns or closes it.
        let socket = unsafe { OwnedFd::from_raw_fd(number) };
        // C reads `size` octets, and `octets` holds an address of that size.
        check(unsafe { c::connect(socket.as_raw_fd(), &octets, size) }).ok()?;
        Some(ServiceManager { socket })
    }

    /// Sends a state such as `READY=1` to the service manager. If it can't be sent at once, it is lost.
    pub fn notify(&self, state: &str) {
        // C reads the octets of `state`.
        let _ = unsafe { c::send(self.socket.as_raw_fd(), state.as_bytes(), c::MSG_NOSIGNAL) };
    }
}

/// A path or an abstract name as C's `sockaddr_un`, and its size in octets. None if the name is too long.
fn unix_address(name: &[u8], is_abstract: bool) -> Option<([u8; c::_SS_SIZE], u32)>
    ensures octets { IfSome result (λ r. r ≡ sockaddr_un name.now is_abstract) }
    ensures size { IfSome result (λ r. r.1 ≤ 110) }
    ensures long { result ≡ None → 107 < length name.now }
{
    if name.len() > NAME_OCTETS {
        return None;
    }
    let mut octets = [0; c::_SS_SIZE];
    put(&mut octets, 0, &(c::AF_UNIX as u16).to_ne_bytes());
    // An abstract name follows a zero octet.
    put(&mut octets, if is_abstract { 3 } else { 2 }, name);
    Some((octets, name.len() as u32 + 3))
}

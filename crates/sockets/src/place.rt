//! Accepts TCP connections (RFC 1035, 4.2.2).
ghost use Rattle.std.specs.Prelude.{◌≡◌};
ghost use Rattle.std.specs.IoError.{raw_os_error};
ghost use Rattle.sockets.specs.Refused.{refused_as};

use crate::peer::TcpPeer;
use mio::net::TcpListener;
use std::io;
use tcp_loop::{Arrivals, Refusal};

/// A non-blocking TCP listener.
pub struct TcpPlace {
    pub(crate) listener: TcpListener,
}

impl Drop for TcpPlace {
    fn drop(self) {
        let TcpPlace { listener: _ } = self;
    }
}

impl TcpPlace {
    /// Accepts connections from a listener, which has to be non-blocking.
    pub fn new(listener: TcpListener) -> TcpPlace {
        TcpPlace { listener }
    }
}

/// Why no connection was accepted, by the system's error (Linux, accept(2)). An error that isn't listed there counts as a lack of room, so that
/// no loop repeats the call without end.
fn refusal_of(fault: &io::Error) -> Refusal
    ensures { result ≡ refused_as (raw_os_error fault.now) }
{
    match fault.raw_os_error() {
        // EAGAIN
        Some(11) => Refusal::Blocked,
        // EPERM, EINTR, ENONET, EPROTO, ENOPROTOOPT, EOPNOTSUPP, ENETDOWN, ENETUNREACH, ECONNABORTED, EHOSTDOWN, EHOSTUNREACH
        Some(1 | 4 | 64 | 71 | 92 | 95 | 100 | 101 | 103 | 112 | 113) => Refusal::Client,
        // EBADF, EFAULT, EINVAL, ENOTSOCK
        Some(9 | 14 | 22 | 88) => Refusal::Broken,
        _ => Refusal::Room,
    }
}

impl Arrivals for TcpPlace {
    type Stream = TcpPeer;

    fn take(&mut self) -> Result<TcpPeer, Refusal> {
        let (stream, from) = match self.listener.accept() {
            Ok(taken) => taken,
            Err(fault) => return Err(refusal_of(&fault)),
        };
        if stream.set_nodelay(true).is_err() {
            return Err(Refusal::Client);
        }
        Ok(TcpPeer::new(stream, from))
    }
}

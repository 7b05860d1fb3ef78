//! Listeners, which accept connections (RFC 1035, 4.2.2).
ghost use Rattle.std.specs.Prelude.{◌≡◌};
ghost use Rattle.std.specs.declared.net.socket_addr.SocketAddr.{SocketAddr as Address};

use std::net::SocketAddr;
use tcp_connections::Blocking;

/// A connection's stream that reports the address of its peer.
pub trait Remote {
    /// The address of its peer.
    ghost origin: { Self → Address };

    /// The address of its peer.
    fn address(&self) -> SocketAddr
        ensures { result ≡ origin self.now };
}

/// Why no connection is accepted.
#[derive(Clone, Copy, PartialEq, Eq, Debug)]
pub enum Refusal {
    /// No connection is waiting.
    Blocked,
    /// A connection failed before it was accepted, which concerns its client alone.
    Client,
    /// There is no room for a connection: no descriptor, or no memory.
    Room,
    /// No connection can be accepted any more.
    Broken,
}

/// A listener, which accepts connections.
pub trait Arrivals {
    /// The stream from which a connection's requests are read, and to which its replies are written.
    type Stream: Blocking + Remote + Drop;

    /// Accepts the next connection.
    fn take(&mut self) -> Result<Self::Stream, Refusal>;
}

//! Requests and replies as datagrams (RFC 1035, 4.2.1).
ghost use Rattle.std.specs.Prelude.{◌≡◌, ℕ, ◌≤◌, List, length, take, Option, None, IfSome};
ghost use Rattle.dns_message.specs.Message.{message_limit};
ghost use Rattle.requests.specs.Datagrams.{Datagram, Receives, SendsOrFails, count_of};

use std::net::SocketAddr;

/// Where requests come from and replies go to, one datagram each. If a device in memory reports its datagrams, contracts speak of them.
pub trait Datagrams {
    /// The datagrams that are left to be received, and those that were sent; none if the device doesn't report them.
    ghost datagrams: { Self → Option (List Datagram × List Datagram) };

    /// How many sends and receives have failed; at most 2^64 - 1 are counted.
    ghost failed: { Self → ℕ };

    /// Receives a datagram to the start of a buffer that has room for any datagram, and returns its number of octets and its sender. None
    /// if the receive fails, which is counted.
    fn receive(&mut self, buf: &mut [u8]) -> Option<(usize, SocketAddr)>
        requires { message_limit ≤ length buf.old }
        ensures bound { IfSome result (λ received. received.0 ≤ length buf.new) }
        ensures receives { IfSome result (λ received. Receives (datagrams self.old) (datagrams self.new) (take received.0 buf.new, received.1)) }
        ensures same { IfSome result (λ _. failed self.new ≡ failed self.old) }
        ensures nothing { result ≡ None → datagrams self.new ≡ datagrams self.old }
        ensures counted { result ≡ None → failed self.new ≡ count_of (failed self.old) 1 };

    /// Sends a datagram, or keeps it until no more can be received without waiting. A failure is counted.
    fn send(&mut self, octets: &[u8], to: SocketAddr)
        ensures { SendsOrFails (datagrams self.old) (failed self.old) (datagrams self.new) (failed self.new) (octets.now, to) };

    /// Sends the datagrams that are kept to be sent. A device that reports its datagrams keeps none; another one also counts the failures
    /// of these sends.
    fn flush(&mut self)
        ensures same { datagrams self.new ≡ datagrams self.old }
        ensures counted { IfSome (datagrams self.old) (λ _. failed self.new ≡ failed self.old) };

    /// How many sends and receives have failed; at most 2^64 - 1 are counted.
    fn faults(&self) -> u64
        ensures { result ≡ failed self.now };
}

//! Datagrams (RFC 1035, 4.2.1).
ghost use Rattle.std.specs.Prelude.{◌≡◌, ◌≤◌, length, take};
ghost use Rattle.dns_message.specs.Message.{message_limit};

use crate::copy::copy_front;
use std::marker::Model;
use std::net::SocketAddr;

/// A datagram: its octets, at most 65,535, and the address of its sender or of its receiver.
#[derive(Drop)]
pub struct Datagram {
    octets: Vec<u8>,
    address: SocketAddr,
}

impl Model for Datagram {
    ghost use Rattle.std.specs.Prelude.{◌≤◌, length};
    ghost use Rattle.dns_message.specs.Message.{message_limit};
    ghost use Rattle.requests.specs.Datagrams.{Datagram};

    ghost Value = { Datagram };

    ghost view = { λ a. (a.octets.items, a.address) };

    ghost invariant = { λ a. length a.octets.items ≤ message_limit };
}

impl Datagram {
    /// A datagram of these octets, from or to this address.
    pub fn new(octets: Vec<u8>, address: SocketAddr) -> Datagram
        requires { length octets.items ≤ message_limit }
        ensures { result ≡ (octets.items, address) }
    {
        Datagram { octets, address }
    }

    /// Its octets.
    pub fn octets(&self) -> &[u8]
        ensures { result.now ≡ self.now.0 }
    {
        self.octets.as_slice()
    }

    /// The address of the sender or of the receiver.
    pub fn address(&self) -> SocketAddr
        ensures { result ≡ self.now.1 }
    {
        self.address
    }

    /// Copies its octets to the start of a buffer that has room for any datagram. Returns their number.
    pub(crate) fn copy_to(&self, buf: &mut [u8]) -> usize
        requires { message_limit ≤ length buf.old }
        ensures bound { result ≤ length buf.new }
        ensures copied { take result buf.new ≡ self.now.0 }
    {
        copy_front(&self.octets, self.octets.len(), buf)
    }
}

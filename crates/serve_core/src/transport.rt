//! What carries requests and replies (RFC 1035, 4.2).
ghost use Rattle.std.specs.Prelude.{◌≡◌, ◌≤◌};
ghost use Rattle.serve_core.specs.Transport.{limit_of, room_of, is_stream};

use dns_message::{Edns, MAX_LIMIT, MAX_UDP, MIN_LIMIT, udp_limit};

/// The most octets of a reply over UDP (RFC 6891, 6.2.3 to 6.2.5; own).
pub const UDP_LIMIT: usize = MAX_UDP;

/// The most octets of a reply over TCP (RFC 1035, 4.2.2).
pub const TCP_LIMIT: usize = MAX_LIMIT;

/// What carries a request and its reply (RFC 1035, 4.2).
#[derive(Clone, Copy, Debug, PartialEq, Eq)]
pub enum Transport {
    /// A datagram each (RFC 1035, 4.2.1).
    Udp,
    /// A connection, on which each message stands after its length in two octets (RFC 1035, 4.2.2).
    Tcp,
}

impl Transport {
    /// Whether it is a stream, and not a datagram for each message (RFC 1035, 4.2.1 and 4.2.2).
    pub fn is_stream(self) -> bool
        ensures { result ≡ is_stream self }
    {
        match self {
            Transport::Udp => false,
            Transport::Tcp => true,
        }
    }

    /// The most octets of the reply to a request with this OPT, or none (RFC 1035, 4.2.1 and 4.2.2; RFC 6891, 6.2.3 to 6.2.5).
    pub fn limit(self, edns: Option<Edns>) -> usize
        ensures limit { result ≡ limit_of self edns }
        // What the writing of a reply takes.
        ensures least { MIN_LIMIT ≤ result }
        ensures most { result ≤ room_of self }
    {
        match self {
            Transport::Udp => udp_limit(edns),
            Transport::Tcp => TCP_LIMIT,
        }
    }
}

//! Who asks.
ghost use Rattle.std.specs.Prelude.{◌≡◌};
ghost use Rattle.rights.specs.Address.{number_of};

use crate::address::number_of;
use std::net::IpAddr;

/// Who sends a request (RFC 2136, 1.1 and 3.3).
#[derive(Clone, Copy, Debug, PartialEq, Eq)]
pub struct Requestor {
    /// Its address as a number of 128 bits. An IPv4 address is that of its IPv4-mapped IPv6 address (RFC 4291, 2.5.5.2).
    pub bits: u128,
    /// Whether it asks over TCP, by which its address is known to be its own (RFC 1035, 4.2.2).
    pub is_tcp: bool,
}

impl Requestor {
    /// One at an address.
    pub fn new(address: IpAddr, is_tcp: bool) -> Requestor
        ensures bits { result.bits ≡ number_of address }
        ensures tcp { result.is_tcp ≡ is_tcp }
    {
        Requestor {
            bits: number_of(address),
            is_tcp,
        }
    }
}

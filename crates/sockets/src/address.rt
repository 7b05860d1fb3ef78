//! Socket addresses in the form that system calls take.
ghost use Rattle.std.specs.Prelude.{◌≡◌, ◌+◌, ◌≤◌, length};
ghost use Rattle.mio.specs.SockAddr.{put as put_at, family_and_port as front_of, sockaddr, sockaddr_in, sockaddr_in6};

use libc::net as c;
use std::net::{SocketAddr, SocketAddrV4, SocketAddrV6};

/// Size of C's `sockaddr_in` in octets.
const V4_OCTETS: u32 = 16;

/// Size of C's `sockaddr_in6` in octets.
const V6_OCTETS: u32 = 28;

/// An address as C's `sockaddr_in` or `sockaddr_in6`, and its size in octets.
pub(crate) fn address_octets(address: SocketAddr) -> ([u8; c::_SS_SIZE], u32)
    ensures octets { result ≡ sockaddr address }
    ensures size { result.1 ≤ 128 }
{
    match address {
        SocketAddr::V4(address) => (v4_octets(address), V4_OCTETS),
        SocketAddr::V6(address) => (v6_octets(address), V6_OCTETS),
    }
}

/// Copies octets into an address, starting at index `at`.
pub(crate) fn put(raw: &mut [u8; c::_SS_SIZE], at: usize, octets: &[u8])
    requires { at + length octets.now ≤ 128 }
    ensures { raw.new ≡ put_at raw.old at octets.now }
{
    raw[at..at + octets.len()].copy_from_slice(octets);
}

/// The first four octets of an address: the family in native byte order, then the port in network byte order.
fn family_and_port(family: u16, port: u16) -> [u8; c::_SS_SIZE]
    ensures { result ≡ front_of family port }
{
    let mut raw = [0; c::_SS_SIZE];
    put(&mut raw, 0, &family.to_ne_bytes());
    put(&mut raw, 2, &port.to_be_bytes());
    raw
}

/// An IPv4 address as C's `sockaddr_in`.
fn v4_octets(address: SocketAddrV4) -> [u8; c::_SS_SIZE]
    ensures { result ≡ sockaddr_in address }
{
    let mut raw = family_and_port(c::AF_INET as u16, address.port());
    put(&mut raw, 4, &address.ip().octets());
    raw
}

/// An IPv6 address as C's `sockaddr_in6`.
fn v6_octets(address: SocketAddrV6) -> [u8; c::_SS_SIZE]
    ensures { result ≡ sockaddr_in6 address }
{
    let mut raw = family_and_port(c::AF_INET6 as u16, address.port());
    put(&mut raw, 4, &address.flowinfo().to_ne_bytes());
    put(&mut raw, 8, &address.ip().octets());
    put(&mut raw, 24, &address.scope_id().to_ne_bytes());
    raw
}

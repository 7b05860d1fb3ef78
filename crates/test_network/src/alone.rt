//! Sockets of IPv6 beside those of IPv4, and what each socket is to the process.
use sockets::{Turn, bind_datagrams, bind_listener};
use std::fs;
use std::net::{SocketAddr, UdpSocket};
use std::os::fd::{AsRawFd, RawFd};
use std::test::Fail;

/// Each address of IPv4, at a port.
fn all_of_ipv4(port: u16) -> SocketAddr {
    SocketAddr::from(([0, 0, 0, 0], port))
}

/// Each address of IPv6, at a port.
fn all_of_ipv6(port: u16) -> SocketAddr {
    SocketAddr::from(([0u16; 8], port))
}

#[test]
fn datagrams_of_both_families_have_one_port(rt: HostRuntime) -> Result<(), Fail> {
    let four = bind_datagrams(&rt, all_of_ipv4(0), Turn::First)?;
    let port = four.local_addr()?.port();
    let six = bind_datagrams(&rt, all_of_ipv6(port), Turn::First)?;
    let client = UdpSocket::bind(&rt, SocketAddr::from(([127, 0, 0, 1], 0)))?;
    let _ = client.send_to(b"4", SocketAddr::from(([127, 0, 0, 1], port)))?;
    let client = UdpSocket::bind(&rt, SocketAddr::from(([0, 0, 0, 0, 0, 0, 0, 1u16], 0)))?;
    let _ = client.send_to(b"6", SocketAddr::from(([0, 0, 0, 0, 0, 0, 0, 1u16], port)))?;
    let mut octets = [0; 2];
    let (len, from) = four.recv_from(&mut octets)?;
    assert!(rt; len == 1 && octets[0] == b'4' && from.is_ipv4(), "{from}");
    let (len, from) = six.recv_from(&mut octets)?;
    assert!(rt; len == 1 && octets[0] == b'6' && from.is_ipv6(), "{from}");
    Ok(())
}

#[test]
fn listeners_of_both_families_have_one_port(rt: HostRuntime) -> Result<(), Fail> {
    let six = bind_listener(&rt, all_of_ipv6(0), Turn::First)?;
    let port = six.local_addr()?.port();
    let four = bind_listener(&rt, all_of_ipv4(port), Turn::First)?;
    assert_eq!(rt; four.local_addr()?.port(), port);
    Ok(())
}

/// The flags with which a descriptor of this process is open, as the system tells them (proc(5)).
fn flags_of(rt: &HostRuntime, number: RawFd) -> Result<u32, Fail> {
    let path = format!(in rt.alloc(); "/proc/self/fdinfo/{number}")?;
    let outcome = fs::read_to_string(rt, path.as_str())?;
    let mut words = outcome.split_ascii_whitespace();
    let _ = words.find(|word| *word == "flags:");
    let flags = words.next().ok_or("no flags are told")?;
    Ok(u32::from_str_radix(flags, 8)?)
}

#[test]
fn sockets_neither_wait_nor_are_inherited(rt: HostRuntime) -> Result<(), Fail> {
    // O_NONBLOCK and O_CLOEXEC, as Linux tells them.
    let wanted = 0o2004000;
    let socket = bind_datagrams(&rt, all_of_ipv4(0), Turn::First)?;
    assert_eq!(rt;
        flags_of(&rt, socket.as_raw_fd())? & wanted,
        wanted,
        "of datagrams"
    );
    let listener = bind_listener(&rt, all_of_ipv4(0), Turn::First)?;
    assert_eq!(rt;
        flags_of(&rt, listener.as_raw_fd())? & wanted,
        wanted,
        "of connections"
    );
    Ok(())
}

//! Sockets that share a port, and one that has it alone.
use sockets::{Turn, bind_datagrams, bind_listener};
use std::io;
use std::io::{ErrorKind, Read};
use std::net::{SocketAddr, TcpListener, TcpStream, UdpSocket};
use std::test::Fail;

/// How many clients ask, each from a port of its own: so many that each socket that shares a port gets some but for one time in ten
/// million.
const CLIENTS: u32 = 64;

/// This host, and a port that the system picks.
fn any_port() -> SocketAddr {
    SocketAddr::from(([127, 0, 0, 1], 0))
}

/// How many datagrams a socket has received that doesn't wait.
fn received(socket: &UdpSocket) -> io::Result<u32> {
    let mut octets = [0; 1];
    for count in 0..CLIENTS + 1 {
        match socket.recv_from(&mut octets) {
            Ok(_) => {}
            Err(fault) if fault.kind() == ErrorKind::WouldBlock => return Ok(count),
            Err(fault) => return Err(fault),
        }
    }
    Ok(CLIENTS + 1)
}

/// How many connections a listener has that doesn't wait.
fn accepted(listener: &TcpListener) -> io::Result<u32> {
    for count in 0..CLIENTS + 1 {
        match listener.accept() {
            Ok(_) => {}
            Err(fault) if fault.kind() == ErrorKind::WouldBlock => return Ok(count),
            Err(fault) => return Err(fault),
        }
    }
    Ok(CLIENTS + 1)
}

#[test]
fn four_sockets_at_a_port_each_get_some_datagrams(rt: HostRuntime) -> Result<(), Fail> {
    let first = bind_datagrams(&rt, any_port(), Turn::First)?;
    let address = first.local_addr()?;
    let second = bind_datagrams(&rt, address, Turn::Another)?;
    let third = bind_datagrams(&rt, address, Turn::Another)?;
    let fourth = bind_datagrams(&rt, address, Turn::Another)?;
    for _ in 0..CLIENTS {
        let client = UdpSocket::bind(&rt, any_port())?;
        let _ = client.send_to(b"?", address)?;
    }
    let (a, b) = (received(&first)?, received(&second)?);
    let (c, d) = (received(&third)?, received(&fourth)?);
    assert!(rt; a > 0 && b > 0 && c > 0 && d > 0, "{a}, {b}, {c} and {d}");
    Ok(())
}

#[test]
fn two_listeners_at_a_port_each_get_some_connections(rt: HostRuntime) -> Result<(), Fail> {
    let first = bind_listener(&rt, any_port(), Turn::First)?;
    let address = first.local_addr()?;
    let second = bind_listener(&rt, address, Turn::Another)?;
    let mut clients = Vec::with_capacity(rt.alloc(), 64)?;
    for _ in 0..CLIENTS {
        clients.push(TcpStream::connect(&rt, address)?)?;
    }
    let (a, b) = (accepted(&first)?, accepted(&second)?);
    assert!(rt; a > 0 && b > 0, "{a} and {b}");
    Ok(())
}

#[test]
fn port_in_use_by_another_first_is_reported(rt: HostRuntime) -> Result<(), Fail> {
    let socket = bind_datagrams(&rt, any_port(), Turn::First)?;
    let fault = bind_datagrams(&rt, socket.local_addr()?, Turn::First)
        .err()
        .ok_or("a second socket is bound")?;
    assert_eq!(rt; fault.kind(), ErrorKind::AddrInUse, "of datagrams");
    let listener = bind_listener(&rt, any_port(), Turn::First)?;
    let fault = bind_listener(&rt, listener.local_addr()?, Turn::First)
        .err()
        .ok_or("a second listener is bound")?;
    assert_eq!(rt; fault.kind(), ErrorKind::AddrInUse, "of connections");
    Ok(())
}

#[test]
fn another_beside_one_that_does_not_share_is_refused(rt: HostRuntime) -> Result<(), Fail> {
    let socket = UdpSocket::bind(&rt, any_port())?;
    let fault = bind_datagrams(&rt, socket.local_addr()?, Turn::Another)
        .err()
        .ok_or("a socket is bound beside one that doesn't share")?;
    assert_eq!(rt; fault.kind(), ErrorKind::AddrInUse);
    Ok(())
}

#[test]
fn port_of_connections_that_ended_is_bound_again(rt: HostRuntime) -> Result<(), Fail> {
    let listener = bind_listener(&rt, any_port(), Turn::First)?;
    let address = listener.local_addr()?;
    let mut client = TcpStream::connect(&rt, address)?;
    let (served, _) = listener.accept()?;
    drop(served);
    let mut octets = [0; 1];
    assert_eq!(rt; client.read(&mut octets)?, 0, "the end comes from here");
    drop(client);
    drop(listener);
    let _again = bind_listener(&rt, address, Turn::First)?;
    Ok(())
}

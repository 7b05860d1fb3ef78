//! A worker's turns over sockets of this machine.

use crate::echo::LARGE;
use crate::pieces::{repeated, room_of};
use crate::running::{Running, SECOND};
use mio::net::TcpListener;
use sockets::{TcpPeer, TcpPlace, Watch};
use std::alloc::Global;
use std::io::{self, ErrorKind, Read, Write};
use std::net::{Net, Shutdown, SocketAddr, TcpListener as StdListener, TcpStream};
use std::sync::Wait;
use std::test::Fail;
use std::time::Clock;
use tcp_loop::{NotWatched, Readiness};

/// A poll that waits at most a millisecond.
#[derive(Drop)]
struct Hasty<'a, C> {
    watch: Watch<'a, C>,
}

impl<C: Clock> Readiness<TcpPeer> for Hasty<'_, C> {
    ghost time = { λ hasty. hasty.watch.now };

    fn watch(&mut self, stream: &mut TcpPeer, key: usize) -> Result<(), NotWatched> {
        Readiness::watch(&mut self.watch, stream, key)
    }

    fn wait(&mut self, most: u64, keys: &mut Vec<usize>) -> Result<u64, NotWatched> {
        self.watch.wait(most.min(SECOND / 1_000), keys)
    }
}

/// A worker with a listener on a port that the system chooses, and its address.
fn started<'a, R: Net + Clock>(
    rt: &'a R,
    alloc: Global,
) -> io::Result<(Running<TcpPeer, Hasty<'a, R>, TcpPlace>, SocketAddr)> {
    let listener = TcpListener::bind(rt, SocketAddr::from(([127, 0, 0, 1], 0)))?;
    let address = listener.local_addr()?;
    let mut place = TcpPlace::new(listener);
    let mut watch = Watch::new(rt, alloc, rt)?;
    watch.watch_place(&mut place, 0)?;
    let running = Running::new(alloc, Hasty { watch }, place)?;
    Ok((running, address))
}

/// The number of octets that a client reads up to the end, or in `most` turns of a worker.
fn read_all<R: Wait, C: Clock>(
    rt: &R,
    alloc: Global,
    running: &mut Running<TcpPeer, Hasty<'_, C>, TcpPlace>,
    client: &mut TcpStream,
    most: usize,
) -> io::Result<usize> {
    client.set_nonblocking(true)?;
    let mut buf = room_of(alloc, 65_536)?;
    let mut count = 0usize;
    for _turn in 0..most {
        running.turn(rt, 1)?;
        match client.read(&mut buf) {
            Ok(0) => return Ok(count),
            Ok(more) => count = count.saturating_add(more),
            Err(fault) if fault.kind() == ErrorKind::WouldBlock => {}
            Err(fault) => return Err(fault),
        }
    }
    Ok(count)
}

/// The actions of a client.
struct Visit {
    /// The octets that it sends first, and the number of turns after that.
    first: &'static [u8],
    turns: usize,
    /// The octets that it sends next, repeated `times` times, whether it closes its side, and the number of turns before it reads.
    next: &'static [u8],
    times: usize,
    closes: bool,
    delay: usize,
    /// The maximum number of turns in which it reads.
    reads: usize,
    /// The number of replies that it gets, and the number of connections that have ended cleanly by then.
    replies: usize,
    ended: u64,
}

/// Half of a request is sent with another request, and its rest with a third. Each gets a reply.
const SOME: Visit = Visit {
    first: &[0, 1, b'L', 0],
    turns: 1,
    next: &[1, b'L', 0, 1, b'L'],
    times: 1,
    closes: true,
    delay: 0,
    reads: 20_000,
    replies: 3,
    ended: 1,
};

const VISITS: [Visit; 5] = [
    SOME,
    Visit { ended: 2, ..SOME },
    Visit { ended: 3, ..SOME },
    // 19 MB are more than the system buffers for a client that reads nothing.
    Visit {
        first: &[],
        next: &[0, 1, b'L'],
        times: 300,
        delay: 1_000,
        replies: 300,
        ended: 4,
        ..SOME
    },
    // A request of 19,532 octets, whose length is two `L` itself, fills the worker's buffer several times. The octets after a full buffer have
    // arrived too, and are not reported again. The connection is accepted before, and reported as ready for writing, so that later only the
    // request is reported.
    Visit {
        first: &[],
        turns: 9,
        next: b"L",
        times: 19_534,
        closes: false,
        reads: 100,
        replies: 1,
        ended: 4,
        ..SOME
    },
];

/// The number of octets that such a client reads, the number of connections that were started by then, and the number that have ended cleanly.
fn seen_by<R: Net<Stream = TcpStream> + Wait, C: Clock>(
    rt: &R,
    alloc: Global,
    running: &mut Running<TcpPeer, Hasty<'_, C>, TcpPlace>,
    address: SocketAddr,
    visit: &Visit,
) -> io::Result<(usize, u64, u64)> {
    let mut client = TcpStream::connect(rt, address)?;
    client.write_all(visit.first)?;
    running.turn(rt, visit.turns)?;
    client.write_all(&repeated(alloc, visit.next, visit.times)?)?;
    if visit.closes {
        client.shutdown(Shutdown::Write)?;
    }
    running.turn(rt, visit.delay)?;
    let count = read_all(rt, alloc, running, &mut client, visit.reads)?;
    let tally = running.turns.tally();
    Ok((count, tally.begun, tally.ends.clean))
}

#[test]
fn clients_that_come_one_by_one_are_answered(rt: HostRuntime) -> Result<(), Fail> {
    let (mut running, address) = started(&rt, rt.alloc())?;
    let mut begun = 0u64;
    for row in VISITS.iter() {
        begun = begun.saturating_add(1);
        let wanted = (row.replies.saturating_mul(LARGE + 2), begun, row.ended);
        assert_eq!(rt;
            seen_by(&rt, rt.alloc(), &mut running, address, row)?,
            wanted,
            "client {begun}"
        );
    }
    Ok(())
}

#[test]
fn one_that_is_reset_ends_alone(rt: HostRuntime) -> Result<(), Fail> {
    let (mut running, address) = started(&rt, rt.alloc())?;
    let mut other = TcpStream::connect(&rt, address)?;
    other.write_all(&[0, 1])?;
    let mut client = TcpStream::connect(&rt, address)?;
    client.write_all(&[0, 1, b'L'])?;
    running.turn(&rt, 9)?;
    // When a connection with unread octets is closed, the system resets it.
    drop(client);
    running.turn(&rt, 9)?;
    let ends = running.turns.tally().ends;
    assert_eq!(rt; [ends.device, ends.total()], [1, 1]);
    other.write_all(b"L")?;
    other.shutdown(Shutdown::Write)?;
    let count = read_all(&rt, rt.alloc(), &mut running, &mut other, 20_000)?;
    assert_eq!(rt; count, LARGE + 2);
    Ok(())
}

#[test]
fn a_client_has_the_rights_of_its_own_address(rt: HostRuntime) -> Result<(), Fail> {
    let (mut running, address) = started(&rt, rt.alloc())?;
    let mut client = TcpStream::connect(&rt, address)?;
    client.write_all(&[0, 1, b'?'])?;
    running.turn(&rt, 50)?;
    client.set_nonblocking(true)?;
    let mut reply = [1; 3];
    let count = client.read(&mut reply)?;
    assert_eq!(rt; count, 3);
    // 127.0.0.1 may not transfer.
    assert_eq!(rt; reply, [0, 1, 0]);
    Ok(())
}

/// Whether a client's requests over sockets are answered. An error if a device fails or memory allocation fails.
fn is_answered<R: Net<Listener = StdListener, Stream = TcpStream> + Clock + Wait>(
    rt: &R,
    alloc: Global,
) -> io::Result<bool> {
    let (mut running, address) = started(rt, alloc)?;
    let seen = seen_by(rt, alloc, &mut running, address, &SOME)?;
    Ok(seen == (3 * (LARGE + 2), 1, 1))
}

#[test]
fn sockets_are_served_where_memory_is_refused(rt: HostRuntime) {
    let first = is_answered(&rt, rt.alloc()).ok();
    let second = is_answered(&rt, rt.alloc()).ok();
    assert!(rt; first == Some(true) || second == Some(true));
}

#[test]
fn a_waker_ends_a_wait_and_tells_no_key(rt: HostRuntime) -> Result<(), Fail> {
    let mut watch = Watch::new(&rt, rt.alloc(), &rt)?;
    let waker = watch.waker()?;
    let mut keys = Vec::new(rt.alloc());
    let Ok(before) = Readiness::<TcpPeer>::wait(&mut watch, 0, &mut keys) else {
        return Err("no wait")?;
    };
    waker.wake()?;
    let Ok(now) = Readiness::<TcpPeer>::wait(&mut watch, 20 * SECOND, &mut keys) else {
        return Err("no wait")?;
    };
    assert!(rt; keys.is_empty() && now.saturating_sub(before) < 10 * SECOND);
    Ok(())
}

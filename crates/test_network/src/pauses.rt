//! No wait for sockets sleeps, however many sockets the wait before it reported: a test with a clock that counts.
use mio::net::TcpListener;
use sockets::{TcpPeer, TcpPlace, Watch};
use std::alloc::Global;
use std::cell::Cell;
use std::io::{self, ErrorKind, Write};
use std::net::{Net, SocketAddr, TcpListener as StdListener, TcpStream};
use std::test::Fail;
use std::time::{Clock, Duration};
use tcp_loop::{Arrivals, Readiness};

/// A millisecond, in nanoseconds.
const MILLISECOND: u64 = 1_000_000;

/// A clock that does not sleep, but counts the calls to do so.
#[derive(Drop)]
struct Counting<'a, C> {
    clock: &'a C,
    pauses: Cell<usize>,
}

impl<C: Clock> Clock for Counting<'_, C> {
    fn monotonic(&self) -> io::Result<Duration> {
        self.clock.monotonic()
    }

    fn since_1970(&self) -> io::Result<Duration> {
        self.clock.since_1970()
    }

    fn sleep(&self, _duration: Duration) {
        self.pauses.set(self.pauses.get().saturating_add(1));
    }
}

/// Clients, the connections that have come from them, and the poll that watches these.
#[derive(Drop)]
struct Connected<'a, C> {
    clock: &'a C,
    watch: Watch<'a, C>,
    clients: Vec<TcpStream>,
    peers: Vec<TcpPeer>,
    keys: Vec<usize>,
}

impl<'a, C: Clock> Connected<'a, C> {
    /// `most` clients, each of whose connections has been reported as ready for writing.
    fn new<R: Net<Listener = StdListener, Stream = TcpStream>>(
        net: &R,
        alloc: Global,
        clock: &'a C,
        most: usize,
    ) -> io::Result<Connected<'a, C>> {
        let listener = TcpListener::bind(net, SocketAddr::from(([127, 0, 0, 1], 0)))?;
        let address = listener.local_addr()?;
        let mut place = TcpPlace::new(listener);
        let mut connected = Connected {
            clock,
            watch: Watch::new(net, alloc, clock)?,
            clients: Vec::new(alloc),
            peers: Vec::new(alloc),
            keys: Vec::new(alloc),
        };
        for key in 0..most {
            connected.clients.push(TcpStream::connect(net, address)?)?;
            let Ok(mut peer) = place.take() else {
                return Err(io::Error::from(ErrorKind::Other));
            };
            if Readiness::watch(&mut connected.watch, &mut peer, key).is_err() {
                return Err(io::Error::from(ErrorKind::Other));
            }
            connected.peers.push(peer)?;
        }
        connected.wait(0)?;
        connected.wait(0)?;
        Ok(connected)
    }

    /// Sends one octet from each of the first `count` clients.
    fn send(&mut self, count: usize) -> io::Result<()> {
        for client in self.clients.iter_mut().take(count) {
            client.write_all(b"a")?;
        }
        Ok(())
    }

    /// The number of sockets that a wait of at most `most` nanoseconds reports.
    fn wait(&mut self, most: u64) -> io::Result<usize> {
        self.keys.clear();
        if self.watch.wait(most, &mut self.keys).is_err() {
            return Err(io::Error::from(ErrorKind::Other));
        }
        Ok(self.keys.len())
    }
}

/// The number of sockets that a wait reports once `count` clients have sent an octet, the number that the next one reports, which may take
/// `most` nanoseconds, and the number that one after it reports; and, after each of the last two, the number of pauses so far.
fn outcome<C: Clock>(
    connected: &mut Connected<'_, Counting<'_, C>>,
    count: usize,
    most: u64,
) -> io::Result<[usize; 5]> {
    connected.send(count)?;
    let first = connected.wait(1_000 * MILLISECOND)?;
    let next = connected.wait(most)?;
    let pauses = connected.clock.pauses.get();
    let last = connected.wait(MILLISECOND)?;
    Ok([first, next, pauses, last, connected.clock.pauses.get()])
}

#[test]
fn no_wait_begins_with_a_pause(rt: HostRuntime) -> Result<(), Fail> {
    let clock = Counting {
        clock: &rt,
        pauses: Cell::new(0),
    };
    let mut connected = Connected::new(&rt, rt.alloc(), &clock, 20)?;
    // The number of clients that send, and the length of the next wait.
    let rows = [
        (1, MILLISECOND),
        (2, MILLISECOND),
        (2, 0),
        (15, MILLISECOND),
        (16, MILLISECOND),
        (20, MILLISECOND),
    ];
    for (count, most) in rows {
        let wanted = [count, 0, 0, 0, 0];
        assert_eq!(rt;
            outcome(&mut connected, count, most)?,
            wanted,
            "after {count} of them"
        );
    }
    Ok(())
}

//! The replies that clients of a server get (RFC 1035, 4.2): to datagrams that are in a socket together, as many as a worker may answer, and to
//! updates, whose code comes from the update thread. A query sent after the reply to an update sees its effect (RFC 2136, 3).

use crate::ending::{BEGUN, HOST, add_worker, served, sockets};
use crate::frames::{QUERY, REPLY, frame_of};
use serve_workers::WorkLimit;
use std::alloc::Global;
use std::io::{self, Read, Write};
use std::net::{Net, OpenStream, Shutdown, SocketAddr, TcpListener, UdpSocket};
use std::sync::Wait;
use std::test::Fail;
use std::thread::{self, Threads};
use std::time::{Clock, Duration};

/// An update that adds an address, after its ID (RFC 2136, 2.5.1), and its reply: NOERROR, and nothing of the request (RFC 2136, 3.8).
const UPDATE: &[u8] =
    b"\x28\x00\x00\x01\x00\x00\x00\x01\x00\x00\x07example\x04test\x00\x00\x06\x00\x01\x04host\xc0\x0c\x00\x01\x00\x01\x00\x00\x00\x3c\x00\x04\xc0\x00\x02\x07";

const ANSWERED: &[u8] = b"\xa8\x00\x00\x00\x00\x00\x00\x00\x00\x00";

/// The query for that address, and its reply (RFC 1035, 4.1).
const HOST_QUERY: &[u8] =
    b"\x01\x00\x00\x01\x00\x00\x00\x00\x00\x00\x04host\x07example\x04test\x00\x00\x01\x00\x01";

const FOUND: &[u8] =
    b"\x85\x00\x00\x01\x00\x01\x00\x00\x00\x00\x04host\x07example\x04test\x00\x00\x01\x00\x01\xc0\x0c\x00\x01\x00\x01\x00\x00\x00\x3c\x00\x04\xc0\x00\x02\x07";

/// A request with an ID, and the reply to it. Both messages are without the ID.
#[derive(Clone, Copy)]
struct Exchange {
    id: u16,
    message: &'static [u8],
    reply: &'static [u8],
}

/// The sockets of a worker.
#[derive(Clone, Copy)]
enum Takes {
    Datagrams,
    Connections,
    Both,
}

/// The requests to a server.
struct Case {
    /// What is tested.
    name: &'static str,
    /// The sockets of its worker, and the maximum number of requests that it may answer.
    takes: Takes,
    most: u64,
    /// Whether there is one more worker, which may answer nothing.
    has_idle: bool,
    /// The requests sent as datagrams before the server starts, and those sent once the first are answered: each with this number of IDs, from
    /// its own on.
    datagrams: [(Exchange, u16); 2],
    /// The requests on a connection, sent before the server starts, if there are any. The client sends no more on it after them.
    stream: &'static [Exchange],
}

const WWW: Exchange = Exchange {
    id: 0,
    message: QUERY,
    reply: REPLY,
};

const LATER: Exchange = Exchange {
    id: 40,
    message: QUERY,
    reply: REPLY,
};

const ADDS: Exchange = Exchange {
    id: 7,
    message: UPDATE,
    reply: ANSWERED,
};

const ADDED: Exchange = Exchange {
    id: 8,
    message: HOST_QUERY,
    reply: FOUND,
};

const CASES: [Case; 8] = [
    // The datagrams after the first 32 are received without waiting, and the last of their replies are sent when the worker ends.
    Case {
        name: "all that came before a worker ends are replied",
        takes: Takes::Datagrams,
        most: 100,
        has_idle: false,
        datagrams: [(WWW, 100), (WWW, 0)],
        stream: &[],
    },
    // The last 8 of 40 are received without waiting, and none of their replies waits for the next datagram.
    Case {
        name: "none waits for the next datagram",
        takes: Takes::Datagrams,
        most: 41,
        has_idle: false,
        datagrams: [(WWW, 40), (LATER, 1)],
        stream: &[],
    },
    Case {
        name: "a server that may answer one request ends with a datagram",
        takes: Takes::Both,
        most: 1,
        has_idle: false,
        datagrams: [(WWW, 1), (WWW, 0)],
        stream: &[],
    },
    Case {
        name: "it ends with a connection",
        takes: Takes::Both,
        most: 1,
        has_idle: false,
        datagrams: [(WWW, 0), (WWW, 0)],
        stream: &[WWW],
    },
    Case {
        name: "one that may answer two answers both",
        takes: Takes::Both,
        most: 2,
        has_idle: false,
        datagrams: [(WWW, 1), (WWW, 0)],
        stream: &[LATER],
    },
    // The update thread sends the reply.
    Case {
        name: "an update by a datagram is told, and seen by a query after its reply",
        takes: Takes::Datagrams,
        most: 2,
        has_idle: false,
        datagrams: [(ADDS, 1), (ADDED, 1)],
        stream: &[],
    },
    // The worker thread writes the reply; it is woken for this.
    Case {
        name: "an update on a connection is told before the next request",
        takes: Takes::Connections,
        most: 1,
        has_idle: false,
        datagrams: [(WWW, 0), (WWW, 0)],
        stream: &[ADDS, ADDED],
    },
    Case {
        name: "updates are judged though another worker has ended",
        takes: Takes::Datagrams,
        most: 2,
        has_idle: true,
        datagrams: [(WWW, 1), (ADDS, 1)],
        stream: &[],
    },
];

/// A client's socket that is connected to a server's, and waits at most two seconds for a datagram.
fn client_of<R: Net>(rt: &R, server: &UdpSocket) -> io::Result<UdpSocket> {
    let client = UdpSocket::bind(rt, SocketAddr::from((HOST, 0)))?;
    client.connect(server.local_addr()?)?;
    client.set_read_timeout(Some(Duration::from_secs(2)))?;
    Ok(client)
}

/// Sends requests as datagrams, with `count` IDs.
fn ask(alloc: Global, client: &UdpSocket, round: (Exchange, u16)) -> io::Result<()> {
    let (asked, count) = round;
    for more in 0..count {
        let frame = frame_of(alloc, asked.id.saturating_add(more), asked.message)?;
        let _ = client.send(frame.get(2..).unwrap_or(&[]))?;
    }
    Ok(())
}

/// Whether the replies to requests with `count` IDs arrive, in order.
fn are_replied(alloc: Global, client: &UdpSocket, round: (Exchange, u16)) -> io::Result<bool> {
    let (asked, count) = round;
    for more in 0..count {
        let frame = frame_of(alloc, asked.id.saturating_add(more), asked.reply)?;
        let mut octets = [0u8; 512];
        let len = client.recv(&mut octets)?;
        if octets.get(..len) != frame.get(2..) {
            return Ok(false);
        }
    }
    Ok(true)
}

/// A connection on which all requests are sent, if there are any.
fn connection_of<R: Net>(
    rt: &R,
    alloc: Global,
    server: &TcpListener,
    stream: &[Exchange],
) -> io::Result<Option<R::Stream>> {
    if stream.is_empty() {
        return Ok(None);
    }
    let mut client = rt.connect(server.local_addr()?)?;
    for asked in stream {
        client.write_all(&frame_of(alloc, asked.id, asked.message)?)?;
    }
    client.shutdown(Shutdown::Write)?;
    Ok(Some(client))
}

/// Whether exactly the replies to all requests arrive, in order, on a connection that has ended.
fn has_replies<S: Read>(alloc: Global, client: &mut S, stream: &[Exchange]) -> io::Result<bool> {
    let mut frames = Vec::new(alloc);
    for asked in stream {
        frames.extend_from_slice(&frame_of(alloc, asked.id, asked.reply)?)?;
    }
    let mut octets = Vec::new(alloc);
    client.read_to_end(&mut octets)?;
    Ok(octets == frames)
}

/// Whether the first requests of a case are answered, and then the others, which are sent in any case. The case is given by its index, which
/// can be moved into a thread.
fn are_answered(alloc: Global, client: &UdpSocket, at: usize) -> bool {
    let Some(case) = CASES.get(at) else {
        return false;
    };
    let [first, then] = case.datagrams;
    let is_first = are_replied(alloc, client, first).unwrap_or(false);
    let is_asked = ask(alloc, client, then).is_ok();
    is_first && is_asked && are_replied(alloc, client, then).unwrap_or(false)
}

/// Whether a zone is served as a case says, on those of the sockets that its worker has, and each thread reaches its limit.
fn is_served<R: Net + Threads + Wait + Clock + Sync>(
    rt: &R,
    alloc: Global,
    case: &Case,
    both: (UdpSocket, TcpListener),
) -> io::Result<bool> {
    let (datagrams, listener) = both;
    let own = match case.takes {
        Takes::Datagrams => (Some(datagrams), None),
        Takes::Connections => (None, Some(listener)),
        Takes::Both => (Some(datagrams), Some(listener)),
    };
    let (limit, idle) = (WorkLimit::new(case.most), WorkLimit::new(0));
    let mut duties = Vec::new(alloc);
    add_worker(alloc, 1, &limit, own, &mut duties)?;
    if case.has_idle {
        let (datagrams, listener) = sockets(rt)?;
        let own = (Some(datagrams), Some(listener));
        add_worker(alloc, 2, &idle, own, &mut duties)?;
    }
    let want = BEGUN.saturating_add(duties.len() as u64);
    Ok(served(rt, alloc, duties) == Some(want))
}

/// Whether all requests of the case with index `at` are answered, by a server that ends after that.
fn is_answered<R: Net + Threads + Wait + Clock + Sync>(
    rt: &R,
    alloc: Global,
    at: usize,
    case: &Case,
) -> io::Result<bool> {
    let own = sockets(rt)?;
    let client = client_of(rt, &own.0)?;
    ask(alloc, &client, case.datagrams[0])?;
    let connection = connection_of(rt, alloc, &own.1, case.stream)?;
    let asking = thread::spawn(rt, move || are_answered(alloc, &client, at))?;
    let is_served = is_served(rt, alloc, case, own)?;
    let are_answered = asking.join(rt);
    let has_replies = match connection {
        Some(client) => {
            let mut client = client;
            has_replies(alloc, &mut client, case.stream)?
        }
        None => true,
    };
    Ok(is_served && are_answered && has_replies)
}

#[test]
fn clients_are_replied(rt: HostRuntime) -> Result<(), Fail> {
    for (at, case) in CASES.iter().enumerate() {
        assert!(rt; is_answered(&rt, rt.alloc(), at, case)?, "{}", case.name);
    }
    Ok(())
}

//! Requests in datagrams held in memory (RFC 1035, 4.2.1), with the octets that RFC 1035, 4 gives for them, written by hand.
use crate::served::{Course, first_wrong, outcome};
use crate::streams::ALL;
use crate::submitted::MOST;
use dns_engine::{FirstZone, VersionReader};
use memory_devices::{
    Datagram, MemoryDatagrams, NoLog, OpenGate, answer_datagrams, asker, octets_of, rules_if,
};
use requests::{Allowed, Datagrams, DatagramsEnd, Gate};
use serve_core::{Peer, Transport};
use std::alloc::Global;
use std::sync::Wait;
use update_batches::Queue;
use zone_server::{DatagramHandler, Server, ServerName, ServiceLog, UpdateSender};

/// A query for an alias, and its reply: the alias and the address of its target (RFC 1035, 4.1).
const WWW: &str = "12340100000100000000000003777777076578616d706c6504746573740000010001";

const WWW_REPLY: &str =
    "12348500000100020000000003777777076578616d706c6504746573740000010001c00c0005000100000e10000603776562c010c02e0001000100000e100004c000020a";

/// Eleven octets, which get no reply.
const SHORT: &str = "1234010000010000000000";

/// An update that adds an address at `new`, and the reply NOERROR (RFC 2136, 2.2 and 2.5.1).
const UPDATE: &str =
    "432128000001000000010000076578616d706c6504746573740000060001036e6577c00c0001000100000e100004c000024d";

const UPDATED: &str = "4321a8000000000000000000";

/// A query for that address, and its reply.
const NEW: &str = "123401000001000000000000036e6577076578616d706c6504746573740000010001";

const NEW_REPLY: &str =
    "123485000001000100000000036e6577076578616d706c6504746573740000010001c00c0001000100000e100004c000024d";

/// An IXFR from a client that has serial 1, and the reply REFUSED, 5, to a peer that is not allowed to have the zone (RFC 1995, 3).
const CHANGES: &str =
    "123400000001000000010000076578616d706c6504746573740000fb0001c00c0006000100000000001600000000000100000000000000000000000000000000";

const REFUSED: &str = "123480050001000000000000076578616d706c6504746573740000fb0001";

/// Its reply to a peer that may have the zone, after the update: the SOA of serial 2, that of serial 1, from which nothing went, and that of serial 2 with the record
/// that came (RFC 1995, 4).
const CHANGED: &str = "\
123484000001000500000000076578616d706c6504746573740000fb0001c00c0006000100000e100022036e7331c00c0561646d696ec00c\
0000000200001c2000000384001275000000012cc00c0006000100000e100018c02ac0300000000100001c2000000384001275000000012cc00c\
0006000100000e100018c02ac0300000000200001c2000000384001275000000012c036e6577c00c0001000100000e100004c000024dc00c0006\
000100000e100018c02ac0300000000200001c2000000384001275000000012c";

/// A query for an address, and its reply.
const WEB: &str = "00010100000100000000000003776562076578616d706c6504746573740000010001";

const WEB_REPLY: &str =
    "00018500000100010000000003776562076578616d706c6504746573740000010001c00c0001000100000e100004c000020a";

/// A query for a name that does not exist. The reply has RCODE 3 and the SOA with the TTL of its MINIMUM (RFC 2308, 3).
const NOPE: &str = "000201000001000000000000046e6f7065076578616d706c6504746573740000010001";

const NOPE_REPLY: &str =
    "000285030001000000010000046e6f7065076578616d706c6504746573740000010001c011000600010000012c0022036e7331c0110561646d696ec0110000000100001c2000000384001275000000012c";

/// A header that announces a question, with none after it, and the reply FORMERR, only a header (RFC 1035, 4.1.1).
const HEADER: &str = "123401000001000000000000";

const FORMERR: &str = "123481010000000000000000";

/// The reply SERVFAIL to the update above.
const FULL: &str = "4321a8020000000000000000";

/// An update without its zone, and the reply FORMERR (RFC 2136, 3.1.1).
const NO_ZONE: &str = "432128000000000000000000";

const NO_ZONE_REPLY: &str = "4321a8010000000000000000";

/// A row for datagrams.
#[derive(Clone, Copy)]
pub(crate) struct Row {
    /// Whether the peers are allowed to update and transfer.
    may: bool,
    /// The maximum number of datagrams to answer.
    most: u64,
    /// Which sends fail, counted from 0.
    refused: &'static [u64],
    /// The requests, in hexadecimal.
    requests: &'static [&'static str],
    /// How the answering ends.
    end: DatagramsEnd,
    /// The number of failures that are counted.
    faults: u64,
    /// The replies that are sent: the position of the request whose client gets the reply, and the reply, in hexadecimal.
    sent: &'static [(u16, &'static str)],
}

/// Datagrams over the zone.
const DATAGRAMS: &[Course] = &[
    Course::Datagrams(Row {
        may: true,
        most: 4,
        refused: &[],
        requests: &[WWW, WWW, WWW, WWW],
        end: DatagramsEnd::Done,
        faults: 0,
        sent: &[
            (0, WWW_REPLY),
            (1, WWW_REPLY),
            (2, WWW_REPLY),
            (3, WWW_REPLY),
        ],
    }),
    Course::Datagrams(Row {
        may: true,
        most: 2,
        refused: &[],
        requests: &[WWW, WWW, WWW, WWW],
        end: DatagramsEnd::Done,
        faults: 0,
        sent: &[(0, WWW_REPLY), (1, WWW_REPLY)],
    }),
    Course::Datagrams(Row {
        may: true,
        most: 4,
        refused: &[],
        requests: &[SHORT, WWW, SHORT, WWW],
        end: DatagramsEnd::Done,
        faults: 0,
        sent: &[(1, WWW_REPLY), (3, WWW_REPLY)],
    }),
    Course::Datagrams(Row {
        may: true,
        most: 3,
        refused: &[],
        requests: &[UPDATE, WWW, NEW],
        end: DatagramsEnd::Done,
        faults: 0,
        sent: &[(0, UPDATED), (1, WWW_REPLY), (2, NEW_REPLY)],
    }),
    Course::Datagrams(Row {
        may: true,
        most: 4,
        refused: &[1],
        requests: &[WWW, UPDATE, NEW, WWW],
        end: DatagramsEnd::Done,
        faults: 1,
        sent: &[(0, WWW_REPLY), (2, NEW_REPLY), (3, WWW_REPLY)],
    }),
    Course::Datagrams(Row {
        may: true,
        most: 4,
        refused: &[0],
        requests: &[WWW],
        end: DatagramsEnd::Device,
        faults: 2,
        sent: &[],
    }),
    Course::Datagrams(Row {
        may: true,
        most: 4,
        refused: &[],
        requests: &[],
        end: DatagramsEnd::Device,
        faults: 1,
        sent: &[],
    }),
    Course::Datagrams(Row {
        may: true,
        most: 0,
        refused: &[],
        requests: &[WWW],
        end: DatagramsEnd::Done,
        faults: 0,
        sent: &[],
    }),
    Course::Datagrams(Row {
        may: false,
        most: 2,
        refused: &[],
        requests: &[CHANGES, WWW],
        end: DatagramsEnd::Done,
        faults: 0,
        sent: &[(0, REFUSED), (1, WWW_REPLY)],
    }),
    // two requests, and both replies
    Course::Datagrams(Row {
        may: false,
        most: 2,
        refused: &[],
        requests: &[WEB, NOPE],
        end: DatagramsEnd::Done,
        faults: 0,
        sent: &[(0, WEB_REPLY), (1, NOPE_REPLY)],
    }),
];

/// Two updates.
pub(crate) const TWO_UPDATES: Row = Row {
    may: true,
    most: 2,
    refused: &[],
    requests: &[UPDATE, UPDATE],
    end: DatagramsEnd::Done,
    faults: 0,
    sent: &[(0, UPDATED), (1, UPDATED)],
};

/// Datagrams by a reader of two grants. A query takes one grant; a header alone and requests that get no reply take none. An IXFR for the
/// changes of an update takes one more, for the version that the update made (own).
const SPENT: &[Course] = &[
    Course::Datagrams(Row {
        may: false,
        most: 9,
        refused: &[],
        requests: &[WWW, SHORT, WWW, HEADER, SHORT, WWW],
        end: DatagramsEnd::Spent,
        faults: 0,
        sent: &[(0, WWW_REPLY), (2, WWW_REPLY), (3, FORMERR)],
    }),
    Course::Datagrams(Row {
        may: true,
        most: 9,
        refused: &[],
        requests: &[UPDATE, CHANGES, WWW],
        end: DatagramsEnd::Spent,
        faults: 0,
        sent: &[(0, UPDATED), (1, CHANGED)],
    }),
    Course::Datagrams(Row {
        may: true,
        most: 9,
        refused: &[],
        requests: &[WWW, UPDATE, CHANGES, WWW],
        end: DatagramsEnd::Spent,
        faults: 0,
        sent: &[(0, WWW_REPLY), (1, UPDATED)],
    }),
];

/// The datagrams of a row: one for each request, from a client whose port is its position.
fn datagrams_of(alloc: Global, row: &Row) -> Option<MemoryDatagrams> {
    let mut datagrams = Vec::new(alloc);
    let mut place = 0u16;
    for request in row.requests {
        let octets = octets_of(alloc, request)?;
        if octets.len() > 65_535 {
            return None;
        }
        datagrams.push(Datagram::new(octets, asker(place))).ok()?;
        place = place.wrapping_add(1);
    }
    let refused = row.refused.to_vec(alloc).ok()?;
    Some(MemoryDatagrams::new(alloc, datagrams, refused))
}

/// Whether the datagrams sent are these replies, each to the client that sent the request.
fn is_sent(alloc: Global, sent: &[Datagram], right: &[(u16, &str)]) -> Option<bool> {
    if sent.len() != right.len() {
        return Some(false);
    }
    for (datagram, (place, reply)) in sent.iter().zip(right.iter()) {
        let reply = octets_of(alloc, reply)?;
        if datagram.octets() != reply.as_slice() || datagram.address() != asker(*place) {
            return Some(false);
        }
    }
    Some(true)
}

/// Answers a row's datagrams from a server, with one of the readers, which it puts back. With a sender, updates are submitted. Returns how the
/// answering ended, and the datagrams that are left and sent. None if memory allocation fails or there is no reader.
pub(crate) fn serve<'a, R: Wait, Z: FirstZone, N: ServerName, L: ServiceLog, G: Gate>(
    rt: &R,
    alloc: Global,
    server: &'a Server<'_, Z, N>,
    readers: &mut Vec<VersionReader<N>>,
    row: &Row,
    sender: Option<UpdateSender<'a>>,
    log: &'a L,
    gate: &'a G,
) -> Option<(DatagramsEnd, MemoryDatagrams)> {
    let datagrams = datagrams_of(alloc, row)?;
    let reader = readers.pop()?;
    let peer = Peer::over(Transport::Udp, false);
    let asked = DatagramHandler::new(alloc, server, reader, log, peer, asker(0));
    let mut asked = match sender {
        Some(sender) => asked.with_sender(sender),
        None => asked,
    };
    let mut request = [0u8; 65_535];
    let mut out = [0u8; 65_535];
    let rules = rules_if(alloc, row.may)?;
    let allowed = Allowed::new(alloc, &rules);
    let served = answer_datagrams(
        rt,
        &mut asked,
        datagrams,
        allowed,
        row.most,
        gate,
        &mut request,
        &mut out,
    );
    let _ = readers.push(asked.into_reader());
    Some(served)
}

/// Updates for a queue that has room for the first. That one is judged later, and each of the others gets its reply at once.
const SUBMITTED: Row = Row {
    may: true,
    most: 3,
    refused: &[],
    requests: &[UPDATE, UPDATE, NO_ZONE],
    end: DatagramsEnd::Done,
    faults: 0,
    sent: &[(1, FULL), (2, NO_ZONE_REPLY)],
};

/// Whether a row's datagrams go as the row says.
pub(crate) fn go<'a, R: Wait, Z: FirstZone, N: ServerName>(
    rt: &R,
    alloc: Global,
    server: &'a Server<'_, Z, N>,
    readers: &mut Vec<VersionReader<N>>,
    row: &Row,
    sender: Option<UpdateSender<'a>>,
) -> Option<bool> {
    let (end, datagrams) = serve(rt, alloc, server, readers, row, sender, &NoLog, &OpenGate)?;
    let is_sent = is_sent(alloc, datagrams.sent(), row.sent)?;
    Some(is_sent && end == row.end && datagrams.faults() == row.faults)
}

/// Whether the datagrams of `SUBMITTED` go as it says.
pub(crate) fn submit<R: Wait, Z: FirstZone, N: ServerName>(
    rt: &R,
    alloc: Global,
    server: &Server<'_, Z, N>,
    readers: &mut Vec<VersionReader<N>>,
) -> Option<bool> {
    let queue = Queue::new(alloc, MOST).ok()?;
    let sender = UpdateSender {
        queue: &queue,
        worker: 1,
    };
    go(rt, alloc, server, readers, &SUBMITTED, Some(sender))
}

// The replies are in the order of their requests, each to the client that sent the request. A send that fails is counted, and the next request
// is answered. A receive that fails ends the answering, and so does a query for which no grant is left.
#[test]
fn datagrams(rt: HostRuntime) {
    assert_eq!(rt; first_wrong(&rt, rt.alloc(), ALL, DATAGRAMS), None);
    assert_eq!(rt; first_wrong(&rt, rt.alloc(), 2, SPENT), None);
}

// An update that isn't queued, since there is no room or it can't be read, gets its reply.
#[test]
fn updates_that_are_not_queued(rt: HostRuntime) {
    assert_eq!(rt;
        outcome(&rt, rt.alloc(), ALL, 0, &Course::Submitted),
        Some(true)
    );
}

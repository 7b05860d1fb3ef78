//! Streams of requests, and the octets that are written on them, as RFC 1035, 4 and RFC 2136, 2 give them, written by hand.
use crate::served::{Course, first_wrong};
use dns_engine::{FirstZone, VersionReader};
use memory_devices::{
    Kept, MemoryStream, OpenGate, answer_stream, asker, octets_of, rule_of, rules_if,
};
use requests::{Allowed, Gate, StreamEnd};
use serve_core::{Peer, Transport};
use std::alloc::Global;
use std::sync::Wait;
use zone_replies::ConnectionHandler;
use zone_server::{Server, ServerName, ServiceLog};

/// No limit, of reads and writes or of grants.
pub(crate) const ALL: u64 = u64::MAX;

/// A row for a stream.
#[derive(Clone, Copy)]
pub(crate) struct Row {
    /// Whether the peer is allowed to update and transfer.
    pub(crate) may: bool,
    /// The rule of the peer; if it is empty, that one or none.
    pub(crate) rule: &'static str,
    /// How many octets can be written.
    pub(crate) room: usize,
    /// The maximum number of octets that a read gives or a write takes.
    pub(crate) step: usize,
    /// How many reads and writes succeed.
    pub(crate) calls: u64,
    /// How the stream ends.
    pub(crate) end: StreamEnd,
    /// The octets that are read, and those that are written, in hexadecimal.
    pub(crate) input: &'static str,
    pub(crate) written: &'static str,
    /// The lines that are logged.
    pub(crate) outcome: &'static str,
}

/// A stream with no input and no failures, of a peer that is allowed to update and transfer.
pub(crate) const TRANSFER: Row = Row {
    may: true,
    rule: "",
    room: 9999,
    step: 3,
    calls: ALL,
    end: StreamEnd::Clean,
    input: "",
    written: "",
    outcome: "",
};

/// The same of a peer that is allowed neither, one octet at a time.
const ONE_BY_ONE: Row = Row {
    may: false,
    step: 1,
    ..TRANSFER
};

/// A query for the address of web.example.test., and one for that of nope.example.test., which does not exist: ID, RD, one question (RFC 1035,
/// 4.1.1 and 4.1.2). The reply to the first has QR, AA and RD, the question, and the address, whose owner is a pointer to the question's name
/// (RFC 1035, 4.1.3 and 4.1.4). The reply to the second has RCODE 3, and the SOA with the TTL of its MINIMUM (RFC 2308, 3).
const TWO_QUERIES: &str = "\
0022000101000001000000000000\
03776562076578616d706c6504746573740000010001\
0023000201000001000000000000\
046e6f7065076578616d706c6504746573740000010001";

/// Streams over the zone.
const STREAMS: &[Course] = &[
    // an update, the same again, and queries after it
    Course::Stream(Row {
        input: "003e432128000001000100010000076578616d706c6504746573740000060001036e6577c00c00ff00fe000000000000c01e0001000100000e100004c000024d003e432128000001000100010000076578616d706c6504746573740000060001036e6577c00c00ff00fe000000000000c01e0001000100000e100004c000024d0022123401000001000000000000036e6577076578616d706c6504746573740000010001001e123401000001000000000000076578616d706c6504746573740000060001",
        written: "000c4321a8000000000000000000000c4321a80600000000000000000032123485000001000100000000036e6577076578616d706c6504746573740000010001c00c0001000100000e100004c000024d004c123485000001000100000000076578616d706c6504746573740000060001c00c0006000100000e100022036e7331c00c0561646d696ec00c0000000200001c2000000384001275000000012c",
        outcome: "update from 192.0.2.7:4711: NOERROR, serial 1 to 2;update from 192.0.2.7:4711: YXDOMAIN;",
        ..TRANSFER
    }),
    // updates of a peer that is not allowed to update
    Course::Stream(Row {
        may: false,
        input: "0032432128000001000000010000076578616d706c6504746573740000060001036e6577c00c0001000100000e100004c000024d003e432128000001000100010000076578616d706c6504746573740000060001036e6577c00c00ff00fe000000000000c01e0001000100000e100004c000024d001e123401000001000000000000076578616d706c6504746573740000060001",
        written: "000c4321a8050000000000000000000c4321a8050000000000000000004c123485000001000100000000076578616d706c6504746573740000060001c00c0006000100000e100022036e7331c00c0561646d696ec00c0000000100001c2000000384001275000000012c",
        outcome: "update from 192.0.2.7:4711 refused: not permitted by --allow or --may;update from 192.0.2.7:4711 refused: not permitted by --allow or --may;",
        ..TRANSFER
    }),
    // an update that adds an address next to an alias and deletes the alias; the same again
    Course::Stream(Row {
        input: "003e432128000001000000020000076578616d706c650474657374000006000103777777c00c0001000100000e100004c0000207c01e000500ff000000000000001e123401000001000000000000076578616d706c6504746573740000060001002212340100000100000000000003777777076578616d706c6504746573740000010001003e432128000001000000020000076578616d706c650474657374000006000103777777c00c0001000100000e100004c0000207c01e000500ff000000000000001e123401000001000000000000076578616d706c6504746573740000060001002212340100000100000000000003777777076578616d706c6504746573740000010001",
        written: "000c4321a8000000000000000000004c123485000001000100000000076578616d706c6504746573740000060001c00c0006000100000e100022036e7331c00c0561646d696ec00c0000000200001c2000000384001275000000012c005012348503000100000001000003777777076578616d706c6504746573740000010001c010000600010000012c0022036e7331c0100561646d696ec0100000000200001c2000000384001275000000012c000c4321a8000000000000000000004c123485000001000100000000076578616d706c6504746573740000060001c00c0006000100000e100022036e7331c00c0561646d696ec00c0000000300001c2000000384001275000000012c003212348500000100010000000003777777076578616d706c6504746573740000010001c00c0001000100000e100004c0000207",
        outcome: "update from 192.0.2.7:4711: NOERROR, serial 1 to 2;update from 192.0.2.7:4711: NOERROR, serial 2 to 3;",
        ..TRANSFER
    }),
    // a frame without its last octet
    Course::Stream(Row {
        end: StreamEnd::Torn,
        input: "002212340100000100000000000003777777076578616d706c6504746573740000010001002212340100000100000000000003777777076578616d706c65047465737400000100",
        written: "004412348500000100020000000003777777076578616d706c6504746573740000010001c00c0005000100000e10000603776562c010c02e0001000100000e100004c000020a",
        ..TRANSFER
    }),
    // half a length
    Course::Stream(Row {
        end: StreamEnd::Torn,
        input: "00",
        ..TRANSFER
    }),
    // requests that get no reply
    Course::Stream(Row {
        input: "000b12340100000100000000000000002212340100000100000000000003777777076578616d706c6504746573740000010001",
        written: "004412348500000100020000000003777777076578616d706c6504746573740000010001c00c0005000100000e10000603776562c010c02e0001000100000e100004c000020a",
        ..TRANSFER
    }),
    // nothing
    Course::Stream(Row { ..TRANSFER }),
    // a stream that takes 68 octets
    Course::Stream(Row {
        room: 68,
        end: StreamEnd::Device,
        input: "002212340100000100000000000003777777076578616d706c6504746573740000010001002212340100000100000000000003777777076578616d706c6504746573740000010001",
        written: "004412348500000100020000000003777777076578616d706c6504746573740000010001c00c0005000100000e10000603776562c010c02e0001000100000e100004c000",
        ..TRANSFER
    }),
    // an update, its changes, only the SOA for a client that has them, and a full transfer
    Course::Stream(Row {
        input: "003e432128000001000100010000076578616d706c6504746573740000060001036e6577c00c00ff00fe000000000000c01e0001000100000e100004c000024d0040123400000001000000010000076578616d706c6504746573740000fb0001c00c00060001000000000016000000000001000000000000000000000000000000000040123400000001000000010000076578616d706c6504746573740000fb0001c00c0006000100000000001600000000000200000000000000000000000000000000001e123400000001000000000000076578616d706c6504746573740000fc0001",
        written: "000c4321a800000000000000000000cc123484000001000500000000076578616d706c6504746573740000fb0001c00c0006000100000e100022036e7331c00c0561646d696ec00c0000000200001c2000000384001275000000012cc00c0006000100000e100018c02ac0300000000100001c2000000384001275000000012cc00c0006000100000e100018c02ac0300000000200001c2000000384001275000000012c036e6577c00c0001000100000e100004c000024dc00c0006000100000e100018c02ac0300000000200001c2000000384001275000000012c004c123484000001000100000000076578616d706c6504746573740000fb0001c00c0006000100000e100022036e7331c00c0561646d696ec00c0000000200001c2000000384001275000000012c00c8123484000001000700000000076578616d706c6504746573740000fc0001c00c0006000100000e100022036e7331c00c0561646d696ec00c0000000200001c2000000384001275000000012cc00c0002000100000e100002c02a036e6577c00c0001000100000e100004c000024dc02a0001000100000e100004c000020103776562c00c0001000100000e100004c000020a03777777c00c0005000100000e100002c07ec00c0006000100000e100018c02ac0300000000200001c2000000384001275000000012c",
        outcome: "update from 192.0.2.7:4711: NOERROR, serial 1 to 2;",
        ..TRANSFER
    }),
    // the changes of two updates
    Course::Stream(Row {
        input: "0032432128000001000000010000076578616d706c6504746573740000060001036e6577c00c0001000100000e100004c000024d0032432128000001000000010000076578616d706c6504746573740000060001036e6577c00c0001000100000e100004c000024e0040123400000001000000010000076578616d706c6504746573740000fb0001c00c0006000100000000001600000000000100000000000000000000000000000000",
        written: "000c4321a8000000000000000000000c4321a80000000000000000000124123484000001000800000000076578616d706c6504746573740000fb0001c00c0006000100000e100022036e7331c00c0561646d696ec00c0000000300001c2000000384001275000000012cc00c0006000100000e100018c02ac0300000000100001c2000000384001275000000012cc00c0006000100000e100018c02ac0300000000200001c2000000384001275000000012c036e6577c00c0001000100000e100004c000024dc00c0006000100000e100018c02ac0300000000200001c2000000384001275000000012cc00c0006000100000e100018c02ac0300000000300001c2000000384001275000000012cc0940001000100000e100004c000024ec00c0006000100000e100018c02ac0300000000300001c2000000384001275000000012c",
        outcome: "update from 192.0.2.7:4711: NOERROR, serial 1 to 2;update from 192.0.2.7:4711: NOERROR, serial 2 to 3;",
        ..TRANSFER
    }),
    // transfers of a peer that is not allowed to have the zone
    Course::Stream(Row {
        may: false,
        input: "001e123400000001000000000000076578616d706c6504746573740000fc00010040123400000001000000010000076578616d706c6504746573740000fb0001c00c0006000100000000001600000000000100000000000000000000000000000000",
        written: "001e123480050001000000000000076578616d706c6504746573740000fc0001001e123480050001000000000000076578616d706c6504746573740000fb0001",
        outcome: "transfer from 192.0.2.7:4711 refused: not permitted by --allow or --may;transfer from 192.0.2.7:4711 refused: not permitted by --allow or --may;",
        ..TRANSFER
    }),
    // a transfer on a stream that takes 150 octets
    Course::Stream(Row {
        room: 150,
        end: StreamEnd::Device,
        input: "001e123400000001000000000000076578616d706c6504746573740000fc0001",
        written: "00b4123484000001000600000000076578616d706c6504746573740000fc0001c00c0006000100000e100022036e7331c00c0561646d696ec00c0000000100001c2000000384001275000000012cc00c0002000100000e100002c02ac02a0001000100000e100004c000020103776562c00c0001000100000e100004c000020a03777777c00c0005000100000e100002c06ac00c0006",
        ..TRANSFER
    }),
    // updates by a rule of one name and type: a record of it, one more beside it at another name, one of another type, and a deletion of all sets
    Course::Stream(Row {
        rule: "192.0.2.7: update exact new.example.test. A",
        input: "0032432128000001000000010000076578616d706c6504746573740000060001036e6577c00c0001000100000e100004c000024d0046432128000001000000020000076578616d706c6504746573740000060001036e6577c00c0001000100000e100004c000024e03626164c00c0001000100000e100004c000024e0030432128000001000000010000076578616d706c6504746573740000060001036e6577c00c0010000100000e1000020161002e432128000001000000010000076578616d706c6504746573740000060001036e6577c00c00ff00ff000000000000",
        written: "000c4321a8000000000000000000000c4321a8050000000000000000000c4321a8050000000000000000000c4321a8050000000000000000",
        outcome: "update from 192.0.2.7:4711: NOERROR, serial 1 to 2;update from 192.0.2.7:4711 refused: no rule permits bad.example.test. A;update from 192.0.2.7:4711 refused: no rule permits new.example.test. TXT;update from 192.0.2.7:4711 refused: no rule permits new.example.test. ANY;",
        ..TRANSFER
    }),
    // an update that cannot be read
    Course::Stream(Row {
        input: "000c432128000001000000000000",
        written: "000c4321a8010000000000000000",
        outcome: "update from 192.0.2.7:4711: FORMERR;",
        ..TRANSFER
    }),
    // the same from a peer that is not allowed to update
    Course::Stream(Row {
        may: false,
        input: "000c432128000001000000000000",
        written: "000c4321a8010000000000000000",
        outcome: "update from 192.0.2.7:4711 refused: not permitted by --allow or --may;",
        ..TRANSFER
    }),
    // two queries, one octet at a time
    Course::Stream(Row {
        input: TWO_QUERIES,
        written: "\
0032000185000001000100000000\
03776562076578616d706c6504746573740000010001\
c00c0001000100000e100004c000020a\
0051000285030001000000010000\
046e6f7065076578616d706c6504746573740000010001\
c011000600010000012c0022036e7331c0110561646d696ec0110000000100001c2000000384001275000000012c",
        ..ONE_BY_ONE
    }),
    // the same, where a read of the first query fails
    Course::Stream(Row {
        calls: 35,
        end: StreamEnd::Device,
        input: TWO_QUERIES,
        ..ONE_BY_ONE
    }),
    // where a write of the first reply fails
    Course::Stream(Row {
        calls: 40,
        end: StreamEnd::Device,
        input: TWO_QUERIES,
        written: "00320001",
        ..ONE_BY_ONE
    }),
    // where a read of the second query fails, after the first reply
    Course::Stream(Row {
        calls: 90,
        end: StreamEnd::Device,
        input: TWO_QUERIES,
        written: "003200018500000100010000000003776562076578616d706c6504746573740000010001c00c0001000100000e100004c000020a",
        ..ONE_BY_ONE
    }),
    // a header that announces a question, with none after it, which gets RCODE 1 and only a header (RFC 1035, 4.1.1), and a query
    Course::Stream(Row {
        input: "\
000c123401000001000000000000\
0022000101000001000000000000\
03776562076578616d706c6504746573740000010001",
        written: "\
000c123481010000000000000000\
0032000185000001000100000000\
03776562076578616d706c6504746573740000010001\
c00c0001000100000e100004c000020a",
        ..ONE_BY_ONE
    }),
];

/// The stream of a row. None if a read or a write would give or take nothing, or if memory allocation fails.
fn stream_of(alloc: Global, row: &Row) -> Option<MemoryStream> {
    if row.step == 0 {
        return None;
    }
    let stream = MemoryStream::new(alloc, octets_of(alloc, row.input)?, row.room, row.step).ok()?;
    Some(stream.failing_after(row.calls))
}

/// Answers a row's stream from a server, with one of the readers, which it puts back. Returns how the stream ended, and the stream. None if
/// memory allocation fails or there is no reader.
pub(crate) fn serve<R: Wait, Z: FirstZone, N: ServerName, L: ServiceLog, G: Gate>(
    rt: &R,
    alloc: Global,
    server: &Server<'_, Z, N>,
    readers: &mut Vec<VersionReader<N>>,
    row: &Row,
    log: &L,
    gate: &G,
) -> Option<(StreamEnd, MemoryStream)> {
    let stream = stream_of(alloc, row)?;
    let reader = readers.pop()?;
    let peer = Peer::over(Transport::Tcp, false);
    let rules = match row.rule {
        "" => rules_if(alloc, row.may)?,
        rule => rule_of(alloc, rule)?,
    };
    let allowed = Allowed::new(alloc, &rules);
    let replies = ConnectionHandler::new(alloc, server, reader, log, peer, asker(4711));
    let mut replies = replies.with_rules(allowed);
    let mut room = [0u8; 4_096];
    let mut out = [0u8; 65_535];
    let served = answer_stream(
        rt,
        alloc,
        &mut replies,
        allowed,
        asker(4711),
        stream,
        gate,
        &mut room,
        &mut out,
    );
    let _ = readers.push(replies.into_reader(rt));
    Some(served)
}

/// Whether a row's stream goes as the row says.
pub(crate) fn go<R: Wait, Z: FirstZone, N: ServerName>(
    rt: &R,
    alloc: Global,
    server: &Server<'_, Z, N>,
    readers: &mut Vec<VersionReader<N>>,
    row: &Row,
) -> Option<bool> {
    let written = octets_of(alloc, row.written)?;
    let log = Kept::new(alloc);
    let (end, stream) = serve(rt, alloc, server, readers, row, &log, &OpenGate)?;
    let is_written = stream.written() == written.as_slice();
    Some(is_written && end == row.end && log.has(rt, row.outcome))
}

// Updates, queries and transfers on a stream, in order, and how it ends (RFC 1035, 4.2.2; RFC 1995, 4; RFC 2136, 3; RFC 5936, 2.2).
#[test]
fn streams(rt: HostRuntime) {
    assert_eq!(rt; first_wrong(&rt, rt.alloc(), ALL, STREAMS), None);
}

//! Streams that end or fail at each position in two requests and their replies, frames too short for a header, and streams whose reader has no
//! grants left (RFC 1035, 4.1.1 and 4.2.2).
use crate::served::{Course, first_wrong, outcome};
use crate::streams::{ALL, Row, TRANSFER};
use dns_engine::KEPT;
use memory_devices::MemoryStream;
use requests::{Counted, StreamEnd};
use std::test::Fail;

/// A query for the address of www.example.test., in a frame, followed by a frame with only ten of the 34 octets of a query. The reply to the
/// first has the alias and the address of its target.
const CUT: Row = Row {
    may: false,
    end: StreamEnd::Torn,
    input: "\
002212340100000100000000000003777777076578616d706c6504746573740000010001\
002212340100000100000000",
    written: "\
004412348500000100020000000003777777076578616d706c6504746573740000010001\
c00c0005000100000e10000603776562c010c02e0001000100000e100004c000020a",
    ..TRANSFER
};

/// The query twice. The replies have 140 octets with their lengths.
const TWICE: Row = Row {
    end: StreamEnd::Clean,
    input: "\
002212340100000100000000000003777777076578616d706c6504746573740000010001\
002212340100000100000000000003777777076578616d706c6504746573740000010001",
    written: "\
004412348500000100020000000003777777076578616d706c6504746573740000010001\
c00c0005000100000e10000603776562c010c02e0001000100000e100004c000020a\
004412348500000100020000000003777777076578616d706c6504746573740000010001\
c00c0005000100000e10000603776562c010c02e0001000100000e100004c000020a",
    ..CUT
};

/// Frames of no octets, of one octet and of eleven, between two queries. They get no reply, and the stream continues.
const SHORT: Row = Row {
    input: "\
0000\
002212340100000100000000000003777777076578616d706c6504746573740000010001\
000112\
000b1234010000010000000000\
002212340100000100000000000003777777076578616d706c6504746573740000010001\
0000",
    ..TWICE
};

// Streams that end cleanly or within a frame, for several numbers of octets in one read or write.
#[test]
fn streams_end_within_a_frame_and_after_it(rt: HostRuntime) {
    for step in [1usize, 2, 3, 34, 36, 70, 9999] {
        let rows = [
            Course::Stream(Row { step, ..CUT }),
            Course::Stream(Row { step, ..TWICE }),
            Course::Stream(Row { step, ..SHORT }),
        ];
        assert_eq!(rt; first_wrong(&rt, rt.alloc(), ALL, &rows), None, "{step}");
    }
}

/// The first octets of a hexadecimal text; the empty text if it has fewer.
fn front_of(text: &'static str, octets: usize) -> &'static str {
    match text.split_at_checked(octets.saturating_mul(2)) {
        Some((front, _)) => front,
        None => "",
    }
}

/// The query twice, on a stream that takes `calls` octets and no more, several or one at a time; and on a stream on which `calls` calls succeed
/// after the 36 reads, of one octet each, of the first request: 70 writes of its reply, then reads of the second request.
fn failing(calls: u8) -> [Course; 3] {
    let room = usize::from(calls);
    let some = Row {
        room,
        end: StreamEnd::Device,
        written: front_of(TWICE.written, room),
        ..TWICE
    };
    let one = Row { step: 1, ..some };
    let fails = Row {
        room: 9999,
        calls: 36 + u64::from(calls),
        written: front_of(TWICE.written, room.min(70)),
        ..one
    };
    [
        Course::Stream(some),
        Course::Stream(one),
        Course::Stream(fails),
    ]
}

// A stream that takes no more octets, or whose write or read fails, ends with `Device`, and exactly the octets that it took are written.
#[test]
fn a_stream_that_fails_has_what_it_took(rt: HostRuntime) {
    for calls in 0..106u8 {
        let rows = failing(calls);
        assert_eq!(rt; first_wrong(&rt, rt.alloc(), ALL, &rows), None, "{calls}");
    }
}

// A write to a stream with room for one octet takes one octet. Each further write takes none and is counted as a failure.
#[test]
fn a_write_of_nothing_is_counted(rt: HostRuntime) -> Result<(), Fail> {
    let memory = MemoryStream::new(rt.alloc(), Vec::new(rt.alloc()), 1, 9)?;
    let mut stream = Counted::new(memory);
    let first = (stream.write(b"ab").unwrap_or(0), stream.faults);
    let second = (stream.write(b"b").is_err(), stream.faults);
    let third = (stream.write(b"b").is_err(), stream.faults);
    assert_eq!(rt; (first, second, third), ((1, 0), (true, 1), (true, 2)));
    Ok(())
}

/// The query, a header without its question, and the query again, for which no grant is left.
const QUERIES: Row = Row {
    end: StreamEnd::Spent,
    input: "\
002212340100000100000000000003777777076578616d706c6504746573740000010001\
000c123401000001000000000000\
002212340100000100000000000003777777076578616d706c6504746573740000010001",
    written: "\
004412348500000100020000000003777777076578616d706c6504746573740000010001\
c00c0005000100000e10000603776562c010c02e0001000100000e100004c000020a\
000c123481010000000000000000",
    ..TWICE
};

/// Two full transfers, of which the second finds no grant left (RFC 5936, 2.2).
const TRANSFERS: Row = Row {
    end: StreamEnd::Spent,
    input: "\
001e123400000001000000000000076578616d706c6504746573740000fc0001\
001e123400000001000000000000076578616d706c6504746573740000fc0001",
    written: "\
00b4123484000001000600000000076578616d706c6504746573740000fc0001c00c0006000100000e100022036e7331c00c0561646d696ec00c\
0000000100001c2000000384001275000000012cc00c0002000100000e100002c02ac02a0001000100000e100004c000020103776562c00c0001\
000100000e100004c000020a03777777c00c0005000100000e100002c06ac00c0006000100000e100018c02ac0300000000100001c2000000384\
001275000000012c",
    ..TRANSFER
};

/// An update, and two incremental transfers of its changes, of which the second finds too few grants left (RFC 1995, 4; RFC 2136, 3).
const CHANGES: Row = Row {
    end: StreamEnd::Spent,
    input: "\
0032432128000001000000010000076578616d706c6504746573740000060001036e6577c00c0001000100000e100004c000024d\
0040123400000001000000010000076578616d706c6504746573740000fb0001c00c0006000100000000001600000000000100000000000000000000000000000000\
0040123400000001000000010000076578616d706c6504746573740000fb0001c00c0006000100000000001600000000000100000000000000000000000000000000",
    written: "\
000c4321a8000000000000000000\
00cc123484000001000500000000076578616d706c6504746573740000fb0001c00c0006000100000e100022036e7331c00c0561646d696ec00c\
0000000200001c2000000384001275000000012cc00c0006000100000e100018c02ac0300000000100001c2000000384001275000000012cc00c\
0006000100000e100018c02ac0300000000200001c2000000384001275000000012c036e6577c00c0001000100000e100004c000024dc00c0006\
000100000e100018c02ac0300000000200001c2000000384001275000000012c",
    outcome: "update from 192.0.2.7:4711: NOERROR, serial 1 to 2;",
    ..TRANSFER
};

/// A query, an update, and an incremental transfer of its changes, which finds too few.
const NO_CHANGES: Row = Row {
    input: "\
002212340100000100000000000003777777076578616d706c6504746573740000010001\
0032432128000001000000010000076578616d706c6504746573740000060001036e6577c00c0001000100000e100004c000024d\
0040123400000001000000010000076578616d706c6504746573740000fb0001c00c0006000100000000001600000000000100000000000000000000000000000000",
    written: "\
004412348500000100020000000003777777076578616d706c6504746573740000010001\
c00c0005000100000e10000603776562c010c02e0001000100000e100004c000020a\
000c4321a8000000000000000000",
    ..CHANGES
};

/// Updates, of which the third and the fourth find no grant left for the version that they would make. The fifth changes nothing and needs
/// none. The SOA is then that of the second.
const UPDATES: Row = Row {
    input: "\
0032432128000001000000010000076578616d706c6504746573740000060001036e6577c00c0001000100000e100004c000024d\
0032432128000001000000010000076578616d706c6504746573740000060001036e6577c00c0001000100000e100004c000024e\
0032432128000001000000010000076578616d706c6504746573740000060001036e6577c00c0001000100000e100004c000024f\
0032432128000001000000010000076578616d706c6504746573740000060001036e6577c00c0001000100000e100004c000024f\
0032432128000001000000010000076578616d706c6504746573740000060001036e6577c00c0001000100000e100004c000024e\
001e123401000001000000000000076578616d706c6504746573740000060001",
    written: "\
000c4321a8000000000000000000\
000c4321a8000000000000000000\
000c4321a8020000000000000000\
000c4321a8020000000000000000\
000c4321a8000000000000000000\
004c123485000001000100000000076578616d706c6504746573740000060001c00c0006000100000e100022036e7331c00c0561646d696ec00c\
0000000300001c2000000384001275000000012c",
    outcome: "\
update from 192.0.2.7:4711: NOERROR, serial 1 to 2;\
update from 192.0.2.7:4711: NOERROR, serial 2 to 3;\
update from 192.0.2.7:4711: SERVFAIL;\
update from 192.0.2.7:4711: SERVFAIL;\
update from 192.0.2.7:4711: NOERROR, serial 3 unchanged;",
    ..TRANSFER
};

/// Streams by the number of grants that the server's reader and the connection's reader each have, and whether they go as their rows say.
/// Without a grant there is no server: its engine takes one for the first version and one for each further version. A query takes one grant, and
/// so does a transfer, which starts in the version in which it is permitted. An incremental transfer of the changes of an update takes a second,
/// for the version that the update made. Nothing is written of a reply for which there are too few grants (own).
const BY_GRANTS: &[(u64, Row, Option<bool>)] = &[
    (0, QUERIES, None),
    (1, QUERIES, Some(true)),
    (1, TRANSFERS, Some(true)),
    (2, NO_CHANGES, Some(true)),
    (2, CHANGES, Some(true)),
    (3, CHANGES, Some(true)),
    (3, UPDATES, Some(true)),
];

#[test]
fn no_grant_ends_a_stream(rt: HostRuntime) {
    for (grants, row, right) in BY_GRANTS {
        let got = outcome(&rt, rt.alloc(), *grants, KEPT, &Course::Stream(*row));
        assert_eq!(rt; got, *right, "{grants} and {}", row.input);
    }
}

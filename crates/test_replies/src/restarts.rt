//! Incremental transfers of a server over a cell that starts with the versions that the updates of a journal make (RFC 1995, 4; own).
ghost use Rattle.std.specs.Prelude.{◌≡◌};
ghost use Rattle.std.specs.List.{All};
ghost use Rattle.dns_engine.specs.Versions.{IsFirst, AreNext};
ghost use Rattle.zone_server.specs.Right.{AreNamed};

use crate::slots::update_of;
use crate::streams::{self, Row, TRANSFER};
use dns_engine::{
    FirstZone, KEPT, SharedVersion, VersionCell, VersionPublisher, VersionReader, ZoneVersions,
};
use dns_rdata::Rcode;
use memory_devices::{NamedParts, NoLog, OpenGate, last_of, named_parts, octets_of};
use snapshot_cell::{Cell, Parts};
use std::alloc::Global;
use std::marker::Brand;
use std::process::Abort;
use std::sync::Wait;
use store_recovery::{Recovery, recover_zone};
use zone_server::{Server, ServerLedgers, ServerName};
use zone_tree::Version;

/// A zone text, with serial 1.
const ZONE: &[u8] =
    b"example.test. 3600 IN SOA ns1.example.test. admin.example.test. 1 7200 900 1209600 300
example.test. 3600 IN NS ns1.example.test.
ns1.example.test. 3600 IN A 192.0.2.1
";

/// Ten updates of it (RFC 2136, 2), each of which adds an address at `new`, in their form on a stream: each after its length (RFC 1035, 4.2.2).
/// They have the same form in a frame of a journal. The serial goes from 1 to 11.
const UPDATES: &str = "\
0032432128000001000000010000076578616d706c6504746573740000060001036e6577c00c0001000100000e100004c000020b\
0032432128000001000000010000076578616d706c6504746573740000060001036e6577c00c0001000100000e100004c000020c\
0032432128000001000000010000076578616d706c6504746573740000060001036e6577c00c0001000100000e100004c000020d\
0032432128000001000000010000076578616d706c6504746573740000060001036e6577c00c0001000100000e100004c000020e\
0032432128000001000000010000076578616d706c6504746573740000060001036e6577c00c0001000100000e100004c000020f\
0032432128000001000000010000076578616d706c6504746573740000060001036e6577c00c0001000100000e100004c0000210\
0032432128000001000000010000076578616d706c6504746573740000060001036e6577c00c0001000100000e100004c0000211\
0032432128000001000000010000076578616d706c6504746573740000060001036e6577c00c0001000100000e100004c0000212\
0032432128000001000000010000076578616d706c6504746573740000060001036e6577c00c0001000100000e100004c0000213\
0032432128000001000000010000076578616d706c6504746573740000060001036e6577c00c0001000100000e100004c0000214";

/// A journal of them, built with Python: the head, the octets before the updates, and the sum after them.
const HEAD: &str = "\
646e7364206a6f75726e616c2c20320a00000000000000017369787465656e206f63746574732e2e00000000000000a8ab638bb7ce898f9beee31da5f30b72e4b307b035d9c1eeeafd8b0a0005ffff\
9a00000001000000000000000f278032eeecbdc02092f0ecada9e54ea83a4035196c8e09db8bae8234e8ff74132eb2af1ebaee5198a7e6717ac370c0330f7b13858e4cb06dfdbf9432435f8da8";

const LEAD: &str = "2eb2af1ebaee5198000002080000000000000000";

const SUM: &str = "f75cfd18522dea0af41a3fb7fe7208642832c8f1674aaf8b1af2d70416b8c261";

/// The updates on a stream of a peer that is allowed to update, and the reply to each: NOERROR.
const TAKEN: Row = Row {
    input: UPDATES,
    written: "\
000c4321a8000000000000000000000c4321a8000000000000000000000c4321a8000000000000000000000c4321a8000000000000000000000c4321a8000000000000000000\
000c4321a8000000000000000000000c4321a8000000000000000000000c4321a8000000000000000000000c4321a8000000000000000000000c4321a8000000000000000000",
    outcome: "\
update from 192.0.2.7:4711: NOERROR, serial 1 to 2;\
update from 192.0.2.7:4711: NOERROR, serial 2 to 3;\
update from 192.0.2.7:4711: NOERROR, serial 3 to 4;\
update from 192.0.2.7:4711: NOERROR, serial 4 to 5;\
update from 192.0.2.7:4711: NOERROR, serial 5 to 6;\
update from 192.0.2.7:4711: NOERROR, serial 6 to 7;\
update from 192.0.2.7:4711: NOERROR, serial 7 to 8;\
update from 192.0.2.7:4711: NOERROR, serial 8 to 9;\
update from 192.0.2.7:4711: NOERROR, serial 9 to 10;\
update from 192.0.2.7:4711: NOERROR, serial 10 to 11;",
    ..TRANSFER
};

/// IXFRs on a stream (RFC 1995, 3), of clients that have the serials from 3 to 11, and of one that has serial 2.
const CHANGES: Row = Row {
    input: "\
0040123400000001000000010000076578616d706c6504746573740000fb0001c00c0006000100000000001600000000000300000000000000000000000000000000\
0040123400000001000000010000076578616d706c6504746573740000fb0001c00c0006000100000000001600000000000400000000000000000000000000000000\
0040123400000001000000010000076578616d706c6504746573740000fb0001c00c0006000100000000001600000000000500000000000000000000000000000000\
0040123400000001000000010000076578616d706c6504746573740000fb0001c00c0006000100000000001600000000000600000000000000000000000000000000\
0040123400000001000000010000076578616d706c6504746573740000fb0001c00c0006000100000000001600000000000700000000000000000000000000000000\
0040123400000001000000010000076578616d706c6504746573740000fb0001c00c0006000100000000001600000000000800000000000000000000000000000000\
0040123400000001000000010000076578616d706c6504746573740000fb0001c00c0006000100000000001600000000000900000000000000000000000000000000\
0040123400000001000000010000076578616d706c6504746573740000fb0001c00c0006000100000000001600000000000a00000000000000000000000000000000\
0040123400000001000000010000076578616d706c6504746573740000fb0001c00c0006000100000000001600000000000b00000000000000000000000000000000\
0040123400000001000000010000076578616d706c6504746573740000fb0001c00c0006000100000000001600000000000200000000000000000000000000000000",
    ..TRANSFER
};

/// A journal of these parts, given in hexadecimal.
fn journal_of(alloc: Global, parts: &[&str]) -> Option<Vec<u8>> {
    let mut journal = Vec::new(alloc);
    for part in parts {
        let octets = octets_of(alloc, part)?;
        journal.extend_from_slice(&octets).ok()?;
    }
    Some(journal)
}

/// The octets that a server writes on the stream of IXFRs. It uses one of the readers and puts it back.
fn written<R: Wait, Z: FirstZone, N: ServerName>(
    rt: &R,
    alloc: Global,
    server: &Server<'_, Z, N>,
    readers: &mut Vec<VersionReader<N>>,
) -> Option<Vec<u8>> {
    let (_end, stream) = streams::serve(rt, alloc, server, readers, &CHANGES, &NoLog, &OpenGate)?;
    stream.written().to_vec(alloc).ok()
}

/// The response codes of updates.
type Codes = (Rcode, Rcode, Rcode);

/// The response codes of three updates that a server gets: one that adds an address, one that adds an address that is there, and one from a
/// peer that is not allowed to update. It uses one of the readers and puts it back.
fn codes<R: Wait, Z: FirstZone, N: ServerName>(
    rt: &R,
    alloc: Global,
    server: &Server<'_, Z, N>,
    readers: &mut Vec<VersionReader<N>>,
) -> Option<Codes> {
    let (further, again) = (update_of(alloc, 77)?, update_of(alloc, 11)?);
    let mut reader = readers.pop()?;
    let (first, _) = server.update(rt, alloc, &mut reader, &further, true);
    let (second, _) = server.update(rt, alloc, &mut reader, &again, true);
    let (third, _) = server.update(rt, alloc, &mut reader, &further, false);
    readers.push(reader).ok()?;
    Some((first, second, third))
}

/// The results of a server.
#[derive(Drop)]
struct Ran {
    /// Whether the first stream goes as its row says.
    is_taken: bool,
    /// The octets that are written on the second one.
    changes: Vec<u8>,
    /// The response codes of three further updates.
    codes: Option<Codes>,
    /// The number and the serial of the last version of the server's cell.
    last: (u64, u32),
}

/// A server over a cell, which keeps as many versions as it may. If there are no later versions to publish first, it publishes those that
/// updates make. Otherwise the later versions are published, and the right to publish more is dropped.
fn server_after<'a, Z: FirstZone, N: ServerName>(
    alloc: Global,
    cell: &'a VersionCell<Z, N>,
    publisher: VersionPublisher<Z, N>,
    reader: VersionReader<N>,
    later: Vec<SharedVersion>,
    ledgers: ServerLedgers,
) -> Option<Server<'a, Z, N>>
    requires first { publisher.number ≡ 0 }
    requires named { AreNamed N.published N.reserved ledgers }
    requires follow { AreNext publisher.value later.items }
{
    if later.is_empty() {
        return Server::new(alloc, cell, publisher, reader, KEPT, ledgers).ok();
    }
    match Server::resume(alloc, cell, publisher, reader, KEPT, later, ledgers) {
        Ok((server, _right)) => Some(server),
        Err(_) => None,
    }
}

/// The results of a server for the updates of a row and for the IXFRs. The server keeps as many versions as it may, over a cell in which the
/// later versions are published after the first one.
fn written_in<R: Wait + Abort, Z: FirstZone, N: ServerName>(
    rt: &R,
    alloc: Global,
    parts: Parts<SharedVersion, ZoneVersions<Z>>,
    later: Vec<SharedVersion>,
    ledgers: ServerLedgers,
    updates: &Row,
) -> Ran
    requires cell { (parts.cell ≡ N.cell) × (parts.publisher.cell ≡ N.cell) }
    requires readers { All (λ r. r.cell ≡ N.cell) parts.readers.items }
    requires first { parts.publisher.number ≡ 0 }
    requires named { AreNamed N.published N.reserved ledgers }
    requires follow { AreNext parts.publisher.value later.items }
{
    let Some(
        NamedParts {
            cell,
            publisher,
            mut readers,
        },
    ) = named_parts::<R, Z, N>(rt, alloc, parts)
    else {
        panic!(rt; "there is no memory");
    };
    let reader = readers.pop().expect(rt, "a reader");
    let server = server_after(alloc, &cell, publisher, reader, later, ledgers);
    let server = server.expect(rt, "a server");
    let is_taken = streams::go(rt, alloc, &server, &mut readers, updates) == Some(true);
    let changes = written(rt, alloc, &server, &mut readers).unwrap_or(Vec::new(alloc));
    let codes = codes(rt, alloc, &server, &mut readers);
    let (publisher, reader) = server.finish();
    readers.push(reader).ok().expect(rt, "memory");
    let last = last_of(
        rt,
        NamedParts {
            cell,
            publisher,
            readers,
        },
    );
    Ran {
        is_taken,
        changes,
        codes,
        last: (last.get().number(), last.get().serial().0),
    }
}

/// The same over a cell that starts with a version.
fn written_from<R: Wait + Abort, Z: FirstZone>(
    rt: &R,
    alloc: Global,
    first: Version,
    later: Vec<Version>,
    updates: &Row,
) -> Ran
    requires first { IsFirst Z.zone first }
    requires follow { AreNext first later.items }
{
    let Ok(later) = SharedVersion::all(alloc, later) else {
        panic!(rt; "there is no memory");
    };
    let Some(first) = SharedVersion::new(alloc, first) else {
        panic!(rt; "there is no memory");
    };
    let Ok(parts) = Cell::<SharedVersion, ZoneVersions<Z>>::new(alloc, 2, first) else {
        panic!(rt; "there is no cell");
    };
    let ledgers = ServerLedgers::new();
    written_in::<R, Z, Brand>(rt, alloc, parts, later, ledgers, updates)
}

/// The same over a cell that starts with the versions recovered from a journal over the zone text.
fn written_after<R: Wait + Abort>(rt: &R, alloc: Global, journal: &[u8], updates: &Row) -> Ran {
    let Ok(start) = recover_zone(alloc, ZONE, journal) else {
        panic!(rt; "there is no start");
    };
    let Recovery { newest, .. } = start;
    let (first, later) = newest.rebased();
    written_from::<R, Brand>(rt, alloc, first, later, updates)
}

// A client that is at most eight versions behind gets the same changes from the server that accepted the updates and from the next one: for
// serial 3, the SOAs that start and end the reply, and three records for each of eight versions; 4190 octets for all clients. A client that is
// nine versions behind gets a full transfer from the next server: two SOAs, NS, the address of its host, and ten addresses at `new`.
#[test]
fn what_changed_is_sent_after_a_restart(rt: HostRuntime) {
    let alloc = rt.alloc();
    let none = journal_of(alloc, &[HEAD]).expect(&rt, "memory");
    let all = journal_of(alloc, &[HEAD, LEAD, UPDATES, SUM]).expect(&rt, "memory");
    let before = written_after(&rt, alloc, &none, &TAKEN);
    let after = written_after(&rt, alloc, &all, &TRANSFER);
    assert!(rt; before.changes.get(..4190) == after.changes.get(..4190));
    let counts = (
        after.changes.get(8..10),
        after.changes.get(4198..4200),
        before.changes.get(4198..4200),
    );
    assert!(rt; counts == (Some(&[0, 26]), Some(&[0, 14]), Some(&[0, 29])));
    // The last version stays; the versions of the next server are numbered from the oldest that is kept.
    let ends = (before.is_taken, before.last, after.is_taken, after.last);
    assert_eq!(rt; ends, (true, (11, 12), true, (8, 11)));
    // The first server makes one more version, for an address that is added. Where the right to publish is dropped, an update that would make
    // one gets SERVFAIL.
    let taken = (Rcode::NoError, Rcode::NoError, Rcode::Refused);
    let turned_away = (Rcode::ServFail, Rcode::NoError, Rcode::Refused);
    assert!(rt; (before.codes, after.codes) == (Some(taken), Some(turned_away)));
}

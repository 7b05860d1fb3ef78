//! Replies to IXFR: incremental while the versions are there, and full once one of them has gone (RFC 1995, 4; own).
use crate::served::{Course, outcome};
use crate::streams::{self, ALL, Row, TRANSFER};
use dns_engine::{FirstZone, VersionReader};
use std::alloc::Global;
use std::sync::Wait;
use zone_server::{Server, ServerName};

/// An update that adds an address at `new`, and the reply NOERROR.
const FIRST_UPDATE: Row = Row {
    input: "\
0032432128000001000000010000076578616d706c6504746573740000060001036e6577c00c0001000100000e100004c000024d",
    written: "000c4321a8000000000000000000",
    outcome: "update from 192.0.2.7:4711: NOERROR, serial 1 to 2;",
    ..TRANSFER
};

/// An update that adds another one, and an IXFR from serial 1, whose reply has the changes of both updates: the version that the first update
/// made has an owner.
const WHILE_OWNED: Row = Row {
    input: "\
0032432128000001000000010000076578616d706c6504746573740000060001036e6577c00c0001000100000e100004c000024e\
0040123400000001000000010000076578616d706c6504746573740000fb0001c00c0006000100000000001600000000000100000000000000000000000000000000",
    written: "\
000c4321a80000000000000000000124123484000001000800000000076578616d706c6504746573740000fb0001c00c0006000100000e100022036e7331c00c0561646d696ec00c0000000300001c2000000384001275000000012cc00c0006000100000e100018c02ac0300000000100001c2000000384001275000000012cc00c0006000100000e100018c02ac0300000000200001c2000000384001275000000012c036e6577c00c0001000100000e100004c000024dc00c0006000100000e100018c02ac0300000000200001c2000000384001275000000012cc00c0006000100000e100018c02ac0300000000300001c2000000384001275000000012cc0940001000100000e100004c000024ec00c0006000100000e100018c02ac0300000000300001c2000000384001275000000012c",
    outcome: "update from 192.0.2.7:4711: NOERROR, serial 2 to 3;",
    ..TRANSFER
};

/// The same IXFR, once that version has no owner: the reply is a full transfer.
const ONCE_GONE: Row = Row {
    input: "\
0040123400000001000000010000076578616d706c6504746573740000fb0001c00c0006000100000000001600000000000100000000000000000000000000000000",
    written: "\
00d8123484000001000800000000076578616d706c6504746573740000fb0001\
c00c0006000100000e100022036e7331c00c0561646d696ec00c0000000300001c2000000384001275000000012c\
c00c0002000100000e100002c02a\
036e6577c00c0001000100000e100004c000024d\
c05a0001000100000e100004c000024e\
c02a0001000100000e100004c0000201\
03776562c00c0001000100000e100004c000020a\
03777777c00c0005000100000e100002c08e\
c00c0006000100000e100018c02ac0300000000300001c2000000384001275000000012c",
    outcome: "",
    ..TRANSFER
};

/// Runs the streams while the version between two updates has an owner, and once it has none.
pub(crate) fn go<R: Wait, Z: FirstZone, N: ServerName>(
    rt: &R,
    alloc: Global,
    server: &Server<'_, Z, N>,
    readers: &mut Vec<VersionReader<N>>,
) -> Option<bool> {
    let first = streams::go(rt, alloc, server, readers, &FIRST_UPDATE);
    let mut reader = readers.pop()?;
    let owner = server.cell().load(&mut reader).ok();
    let _ = readers.push(reader);
    let owned = streams::go(rt, alloc, server, readers, &WHILE_OWNED);
    let buried = owner?.release().buried();
    let gone = streams::go(rt, alloc, server, readers, &ONCE_GONE);
    Some((first?, owned?, buried, gone?) == (true, true, Some(1), true))
}

// The transfer is incremental while the versions are there, whatever owns them, and full once one of them has gone (RFC 1995, 4).
#[test]
fn a_version_is_sent_as_long_as_it_is_there(rt: HostRuntime) {
    assert_eq!(rt;
        outcome(&rt, rt.alloc(), ALL, 0, &Course::OwnedAWhile),
        Some(true)
    );
}

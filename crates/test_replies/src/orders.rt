//! The order in which a gate is entered, a request is answered and the gate is left.
use crate::datagrams::{self, TWO_UPDATES};
use crate::served::{Course, outcome};
use crate::streams::{self, ALL, TRANSFER};
use dns_engine::{FirstZone, VersionReader};
use requests::Gate;
use std::alloc::Global;
use std::sync::Wait;
use std::sync::atomic::{AtomicU64, Ordering};
use zone_server::{Event, Server, ServerName, ServiceLog};

/// The calls so far, in order, each a digit: 1 when the gate is entered, 2 when an update is logged (it is answered then), 3 when the gate is
/// left.
#[derive(Drop)]
struct Calls {
    digits: AtomicU64,
}

impl Calls {
    /// Notes a call.
    fn note(&self, digit: u64) {
        let digits = self.digits.load(Ordering::SeqCst);
        let more = digits.wrapping_mul(10).wrapping_add(digit);
        self.digits.store(more, Ordering::SeqCst);
    }
}

impl Gate for Calls {
    fn enter(&self) {
        self.note(1);
    }

    fn leave(&self) {
        self.note(3);
    }
}

impl ServiceLog for Calls {
    fn tell<R: Wait>(&self, _rt: &R, _event: Event) {
        self.note(2);
    }
}

/// Two updates on a stream, each of which adds an address (RFC 2136, 2.5.1).
const ON_A_STREAM: streams::Row = streams::Row {
    input: "\
0032432128000001000000010000076578616d706c6504746573740000060001036e6577c00c0001000100000e100004c000024d\
0032432128000001000000010000076578616d706c6504746573740000060001036e6577c00c0001000100000e100004c000024e",
    ..TRANSFER
};

/// Two updates on a stream, and two in datagrams.
pub(crate) fn go<R: Wait, Z: FirstZone, N: ServerName>(
    rt: &R,
    alloc: Global,
    server: &Server<'_, Z, N>,
    readers: &mut Vec<VersionReader<N>>,
) -> Option<bool> {
    let calls = Calls {
        digits: AtomicU64::new(0),
    };
    let _ = streams::serve(rt, alloc, server, readers, &ON_A_STREAM, &calls, &calls)?;
    let _ = datagrams::serve(
        rt,
        alloc,
        server,
        readers,
        &TWO_UPDATES,
        None,
        &calls,
        &calls,
    )?;
    Some(calls.digits.load(Ordering::SeqCst) == 123_123_123_123)
}

// Each request passes the gate by itself, and is answered between its entry and its exit.
#[test]
fn the_gate_is_entered_before_the_answer(rt: HostRuntime) {
    assert_eq!(rt;
        outcome(&rt, rt.alloc(), ALL, 0, &Course::FourUpdates),
        Some(true)
    );
}

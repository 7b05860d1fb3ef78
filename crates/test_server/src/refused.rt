//! Tickets when memory allocation fails.
use crate::states::{TestState, passes};
use crate::updates::{is_ready, put_servfail};
use dns_engine::{FirstZone, VersionCell, VersionPublisher, VersionReader};
use dns_rdata::Rcode;
use memory_devices::{Play, Played};
use std::alloc::Global;
use std::sync::Wait;
use zone_server::{ServerLedgers, ServerName, ServerState};

/// The number of tickets that are opened.
const TICKETS: usize = 100;

/// A hundred tickets, with a result at the first. With `anew`, a ticket that finds no memory is opened again.
#[derive(Drop)]
struct Tickets {
    anew: bool,
}

impl Tickets {
    /// Opens a ticket. With `anew`, it is tried again if memory allocation fails.
    fn open<Z: FirstZone, N: ServerName>(
        &self,
        state: &mut ServerState<'_, Z, N>,
    ) -> Option<usize> {
        match state.open() {
            None if self.anew => state.open(),
            ticket => ticket,
        }
    }
}

impl Play for Tickets {
    fn play<R: Wait, Z: FirstZone, N: ServerName>(
        &self,
        rt: &R,
        alloc: Global,
        cell: &VersionCell<Z, N>,
        publisher: VersionPublisher<Z, N>,
        readers: Vec<VersionReader<N>>,
        ledgers: ServerLedgers,
    ) -> Played<Z, N> {
        match TestState::make(alloc, cell, publisher, readers, ledgers) {
            Ok((mut test, _right, reader)) => {
                let outcome = self.run(alloc, &mut test.state);
                test.end(reader, outcome)
            }
            Err(played) => played,
        }
    }
}

impl Tickets {
    /// Runs the test. Returns whether it passes; None if memory allocation fails.
    fn run<Z: FirstZone, N: ServerName>(
        &self,
        alloc: Global,
        state: &mut ServerState<'_, Z, N>,
    ) -> Option<bool> {
        let mut next = 0usize;
        let mut right = self.open(state)? == 0;
        right = put_servfail(alloc, state, 1, 0)? && right;
        for _ in 1..TICKETS {
            // If there is no memory for a ticket, the tickets that are there stay as they were.
            if let Some(ticket) = self.open(state) {
                next = next.saturating_add(1);
                right = ticket == next && right;
            }
        }
        right = (next == 99 || !self.anew) && right;
        Some(is_ready(&state.fetch(0), &(1, Rcode::ServFail, 0, None)) && right)
    }
}

// If any one allocation fails, there is no ticket, the result at another ticket stays, and the next request opens the ticket.
#[test]
fn tickets_where_memory_is_refused(rt: HostRuntime) {
    let passed = match passes(&rt, rt.alloc(), Tickets { anew: true }) {
        Some(passed) => Some(passed),
        None => passes(&rt, rt.alloc(), Tickets { anew: true }),
    };
    assert!(rt; passed == Some(true));
}

// If all allocations fail from some point on, no more tickets are opened, and the result at an open one stays.
#[test]
fn tickets_where_memory_is_refused_ever_after(rt: HostRuntime) {
    assert!(rt; passes(&rt, rt.alloc(), Tickets { anew: false }) != Some(false));
}

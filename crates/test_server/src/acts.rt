//! Acts on a server state, by the workers that hold its tickets and by the update thread.
use crate::states::TestState;
use crate::updates::{is_ready, put_servfail};
use dns_engine::{FirstZone, VersionCell, VersionPublisher, VersionReader};
use dns_rdata::Rcode;
use memory_devices::{Play, Played};
use std::alloc::Global;
use std::sync::Wait;
use zone_server::{Poll, ServerLedgers, ServerName, ServerState};

/// An act on a server state, and its expected result.
#[derive(Clone, Copy)]
pub(crate) enum Act {
    /// Opens a ticket; it is this one.
    Open(usize),
    /// Puts the result of an update at a ticket; the octet tells the update from others.
    Put(usize, u8),
    /// Polls a ticket: the result is pending.
    Pending(usize),
    /// Polls a ticket: the result of this update is ready.
    Ready(usize, u8),
    /// Polls a ticket: it is not in use.
    Unknown(usize),
    /// Abandons a ticket: its client no longer waits.
    Leave(usize),
    /// Frees a ticket at which no result will be put.
    Close(usize),
}

/// Whether an act on a server state has the expected result. None if memory allocation fails.
fn is_as_expected<Z: FirstZone, N: ServerName>(
    alloc: Global,
    state: &mut ServerState<'_, Z, N>,
    act: Act,
) -> Option<bool> {
    match act {
        Act::Open(ticket) => return Some(state.open()? == ticket),
        Act::Put(ticket, octet) => return put_servfail(alloc, state, octet, ticket),
        Act::Pending(ticket) => return Some(matches!(state.fetch(ticket), Poll::Pending)),
        Act::Ready(ticket, octet) => {
            let expected = (octet, Rcode::ServFail, 0, None);
            return Some(is_ready(&state.fetch(ticket), &expected));
        }
        Act::Unknown(ticket) => return Some(matches!(state.fetch(ticket), Poll::Unknown)),
        Act::Leave(ticket) => state.leave(ticket),
        Act::Close(ticket) => state.close(ticket),
    }
    Some(true)
}

/// Acts on a server state, one after another.
#[derive(Drop)]
pub(crate) struct Acts(pub(crate) &'static [Act]);

impl Play for Acts {
    fn play<R: Wait, Z: FirstZone, N: ServerName>(
        &self,
        rt: &R,
        alloc: Global,
        cell: &VersionCell<Z, N>,
        publisher: VersionPublisher<Z, N>,
        readers: Vec<VersionReader<N>>,
        ledgers: ServerLedgers,
    ) -> Played<Z, N> {
        match TestState::make(alloc, cell, publisher, readers, ledgers) {
            Ok((mut test, _right, reader)) => {
                let outcome = self.run(alloc, &mut test.state);
                test.end(reader, outcome)
            }
            Err(played) => played,
        }
    }
}

impl Acts {
    /// Runs the acts. Returns whether each has the expected result; None if memory allocation fails.
    fn run<Z: FirstZone, N: ServerName>(
        &self,
        alloc: Global,
        state: &mut ServerState<'_, Z, N>,
    ) -> Option<bool> {
        for act in self.0 {
            if !is_as_expected(alloc, state, *act)? {
                return Some(false);
            }
        }
        // Nothing is published by the acts.
        Some(state.number() == 0 && state.serial().0 == 7)
    }
}

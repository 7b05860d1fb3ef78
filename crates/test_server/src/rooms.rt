//! How many more versions find room: those that batches make, and those that single updates make once the server state has the right to
//! publish.
use crate::batches::{judge, publish};
use crate::states::{TestState, passes_by};
use crate::updates::{have_codes, queued, to_client, update};
use dns_engine::{FirstZone, VersionCell, VersionPublisher, VersionReader};
use dns_rdata::Rcode;
use memory_devices::{Play, Played};
use std::alloc::Global;
use std::sync::Wait;
use std::test::Fail;
use zone_server::{Outgoing, PublishRight, QueuedUpdate, ServerLedgers, ServerName, ServerState};

/// Updates that add the addresses of the numbers from `from` up to, but not including, `to`, whose replies are sent by datagram.
fn updates(alloc: Global, from: u8, to: u8) -> Option<Vec<QueuedUpdate>> {
    let mut requests = Vec::new(alloc);
    for number in from..to {
        requests.push(queued(alloc, number, to_client())?).ok()?;
    }
    Some(requests)
}

/// Whether so many replies are to be sent, each by datagram.
fn are_sent(outgoing: &[Outgoing], count: usize) -> bool {
    let is_sent = |one: &Outgoing| matches!(one, Outgoing::Send { worker: 2, .. });
    outgoing.len() == count && outgoing.iter().all(is_sent)
}

/// Three updates where two more versions can be published.
#[derive(Drop)]
struct NoRoom;

impl Play for NoRoom {
    fn play<R: Wait, Z: FirstZone, N: ServerName>(
        &self,
        rt: &R,
        alloc: Global,
        cell: &VersionCell<Z, N>,
        publisher: VersionPublisher<Z, N>,
        readers: Vec<VersionReader<N>>,
        ledgers: ServerLedgers,
    ) -> Played<Z, N> {
        match TestState::make(alloc, cell, publisher, readers, ledgers) {
            Ok((mut test, mut right, mut reader)) => {
                let outcome = self.run(rt, alloc, &mut test.state, &mut right, &mut reader);
                test.end(reader, outcome)
            }
            Err(played) => played,
        }
    }
}

impl NoRoom {
    /// Runs the test. Returns whether it passes; None if memory allocation fails.
    fn run<R: Wait, Z: FirstZone, N: ServerName>(
        &self,
        rt: &R,
        alloc: Global,
        state: &mut ServerState<'_, Z, N>,
        right: &mut PublishRight<N>,
        reader: &mut VersionReader<N>,
    ) -> Option<bool> {
        let requests = updates(alloc, 1, 4)?;
        let batch = judge(rt, alloc, state, right, reader, &requests)?;
        let mut passes = batch.number == 0 && batch.room == 2;
        passes = batch.updates.len() == 2 && state.number() == 0 && passes;
        // The third gets SERVFAIL.
        let (verdicts, outgoing) = publish(alloc, state, right, reader, batch, requests)?;
        passes = have_codes(&verdicts, &[0, 0, 2]) && are_sent(&outgoing, 3) && passes;
        passes = state.number() == 2 && state.serial().0 == 9 && passes;
        // Where no more versions find room, an update that changes nothing gets NOERROR, and one that would make a version gets SERVFAIL.
        let requests = updates(alloc, 2, 4)?;
        let batch = judge(rt, alloc, state, right, reader, &requests)?;
        passes = batch.number == 2 && batch.room == 0 && batch.updates.is_empty() && passes;
        let (verdicts, outgoing) = publish(alloc, state, right, reader, batch, requests)?;
        passes = have_codes(&verdicts, &[0, 2]) && are_sent(&outgoing, 2) && passes;
        Some(state.number() == 2 && state.serial().0 == 9 && passes)
    }
}

// Of three grants the engine's own version takes one, so two more versions find room: in a batch of three updates two make one, and in the
// next batch none does.
#[test]
fn a_batch_makes_as_many_versions_as_find_room(rt: HostRuntime) -> Result<(), Fail> {
    assert_eq!(rt; passes_by(&rt, rt.alloc(), 3, NoRoom), Some(true));
    Ok(())
}

/// Single updates before and after the server state has the right to publish, where two more versions can be published.
#[derive(Drop)]
struct OneByOne;

impl Play for OneByOne {
    fn play<R: Wait, Z: FirstZone, N: ServerName>(
        &self,
        rt: &R,
        alloc: Global,
        cell: &VersionCell<Z, N>,
        publisher: VersionPublisher<Z, N>,
        readers: Vec<VersionReader<N>>,
        ledgers: ServerLedgers,
    ) -> Played<Z, N> {
        match TestState::make(alloc, cell, publisher, readers, ledgers) {
            Ok((mut test, right, mut reader)) => {
                let outcome = self.run(rt, alloc, &mut test.state, right, &mut reader);
                test.end(reader, outcome)
            }
            Err(played) => played,
        }
    }
}

/// Whether an update that adds the address of a number gets this code, and the version published last then has this number.
fn gets<Z: FirstZone, N: ServerName>(
    alloc: Global,
    state: &mut ServerState<'_, Z, N>,
    address: u8,
    code: Rcode,
    number: u64,
) -> Option<bool> {
    let request = update(alloc, address)?;
    let got = state.update(alloc, request.update(), true);
    Some(got == code && state.number() == number)
}

/// Whether an update of a peer that may not update, which would add the address of a number, gets REFUSED.
fn is_refused<Z: FirstZone, N: ServerName>(
    alloc: Global,
    state: &mut ServerState<'_, Z, N>,
    address: u8,
) -> Option<bool> {
    let request = update(alloc, address)?;
    Some(state.update(alloc, request.update(), false) == Rcode::Refused)
}

impl OneByOne {
    /// Runs the test. Returns whether it passes; None if memory allocation fails.
    fn run<R: Wait, Z: FirstZone, N: ServerName>(
        &self,
        rt: &R,
        alloc: Global,
        state: &mut ServerState<'_, Z, N>,
        right: PublishRight<N>,
        reader: &mut VersionReader<N>,
    ) -> Option<bool> {
        let mut right = right;
        let requests = updates(alloc, 1, 2)?;
        let batch = judge(rt, alloc, state, &mut right, reader, &requests)?;
        let mut passes = batch.room == 2 && gets(alloc, state, 1, Rcode::ServFail, 0)?;
        let (verdicts, _) = publish(alloc, state, &mut right, reader, batch, requests)?;
        passes = have_codes(&verdicts, &[0]) && state.number() == 1 && passes;
        passes = gets(alloc, state, 1, Rcode::NoError, 1)? && passes;
        passes = gets(alloc, state, 2, Rcode::ServFail, 1)? && passes;
        passes = is_refused(alloc, state, 2)? && passes;
        // The room that the batch did not use is free again.
        state.keep(right);
        passes = is_refused(alloc, state, 2)? && state.number() == 1 && passes;
        passes = gets(alloc, state, 2, Rcode::NoError, 2)? && passes;
        passes = gets(alloc, state, 2, Rcode::NoError, 2)? && passes;
        passes = gets(alloc, state, 3, Rcode::ServFail, 2)? && passes;
        Some(state.serial().0 == 9 && passes)
    }
}

// While another owner has the right to publish, a single update that would change the zone gets SERVFAIL. Once the server state has the right,
// such an update makes a version if one more finds room.
#[test]
fn single_updates_are_published_by_the_right(rt: HostRuntime) -> Result<(), Fail> {
    assert_eq!(rt; passes_by(&rt, rt.alloc(), 3, OneByOne), Some(true));
    Ok(())
}

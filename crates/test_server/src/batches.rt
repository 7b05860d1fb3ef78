//! Batches of updates that are judged in the version published last, and then published.
ghost use Rattle.std.specs.Prelude.{◌≡◌, ◌≤◌, ℕ, IfSome, length, drop};
ghost use Rattle.zone_tree.specs.Version.{Version};
ghost use Rattle.dns_engine.specs.Held.{IsLatest};
ghost use Rattle.update_batches.specs.Batch.{versions_in, IsBatch};
ghost use Rattle.update_batches.specs.Results.{first_verdict};
ghost use Rattle.zone_server.specs.UpdateResult.{IsJudgedIn, queued_results};

use crate::states::{TestState, passes};
use crate::updates::{MIXED, Outcome, have_codes, is_ready, is_wake, mixed};
use dns_engine::{FirstZone, VersionCell, VersionChain, VersionPublisher, VersionReader};
use dns_rdata::Serial;
use memory_devices::{Play, Played};
use std::alloc::Global;
use std::sync::Wait;
use std::test::Fail;
use transfer_core::{ChainView, VersionList};
use update_batches::{MOST, QueuedUpdate, Verdict, VersionUpdate, judge_batch};
use zone_server::{
    Outgoing, Poll, PublishRight, QueuedResult, ServerLedgers, ServerName, ServerState,
    UpdateResult,
};

/// A batch of updates that were judged in the version published last: the number and serial of that version, and how many more versions could
/// be published after it.
#[derive(Drop)]
pub(crate) struct JudgedBatch {
    pub number: u64,
    pub before: Serial,
    pub room: usize,
    pub verdicts: Vec<Verdict>,
    pub updates: Vec<VersionUpdate>,
}

/// Judges updates in the version published last, which the reader loads, each after the effect of those before it. At most as many make a
/// version as are sure to find room. None if memory allocation fails.
pub(crate) fn judge<R: Wait, Z: FirstZone, N: ServerName>(
    rt: &R,
    alloc: Global,
    state: &mut ServerState<'_, Z, N>,
    right: &mut PublishRight<N>,
    reader: &mut VersionReader<N>,
    requests: &[QueuedUpdate],
) -> Option<JudgedBatch>
    ensures counted { right.new.published.amount ≡ length reader.new.seen }
    ensures room { IfSome result (λ batch. length batch.updates.items ≤ right.new.reserved.amount) }
    ensures judged { IfSome result (λ batch. (last : Version) × (room : ℕ) × IsLatest Z.zone reader.new.seen last × (last.number ≡ batch.number)
        × IsBatch last requests.now batch.verdicts.items batch.updates.items room) }
{
    state.audit(reader, right);
    let begun = state.begin_batch(rt, reader, right);
    let Ok(mut verdicts) = Vec::with_capacity(alloc, requests.len()) else {
        return None;
    };
    let most = begun.room.min(MOST);
    let updates = judge_batch(alloc, &begun.last, requests, most, &mut verdicts);
    Some(JudgedBatch {
        number: begun.number,
        before: begun.last.get().serial(),
        room: begun.room,
        verdicts,
        updates,
    })
}

/// The first of these verdicts, SERVFAIL if there is none, and those after it.
fn first_verdict(verdicts: &[Verdict]) -> (Verdict, &[Verdict])
    ensures { (result.0 ≡ first_verdict verdicts.now) × (result.1.now ≡ drop 1 verdicts.now) }
{
    match verdicts.split_first() {
        Some((first, rest)) => (*first, rest),
        None => (Verdict::failed(), verdicts),
    }
}

/// The results of updates with these verdicts, judged in a version whose number is at least this one. None if memory allocation fails.
fn results_of(
    alloc: Global,
    number: u64,
    requests: Vec<QueuedUpdate>,
    verdicts: &[Verdict],
) -> Option<Vec<QueuedResult>>
    ensures { IfSome result (λ results. results.items ≡ queued_results number verdicts.now requests.items) }
{
    let mut results = Vec::with_capacity(alloc, requests.len()).ok()?;
    let mut left = verdicts;
    for update in requests {
        let (verdict, rest) = first_verdict(left);
        let QueuedUpdate { request, reply_to } = update;
        let done = UpdateResult {
            asked: request,
            least: number,
            code: verdict.code,
            serials: verdict.serials,
        };
        results.push(QueuedResult { done, reply_to }).ok()?;
        left = rest;
    }
    Some(results)
}

/// Publishes a batch of updates, and puts their results. Gives their verdicts, and what is to be sent. None if memory allocation fails, and then
/// nothing is published.
pub(crate) fn publish<Z: FirstZone, N: ServerName>(
    alloc: Global,
    state: &mut ServerState<'_, Z, N>,
    right: &mut PublishRight<N>,
    reader: &mut VersionReader<N>,
    batch: JudgedBatch,
    requests: Vec<QueuedUpdate>,
) -> Option<(Vec<Verdict>, Vec<Outgoing>)>
    requires counted { right.old.published.amount ≡ length reader.old.seen }
    requires room { length batch.updates.items ≤ right.old.reserved.amount }
    requires judged { (last : Version) × (room : ℕ) × IsLatest Z.zone reader.old.seen last × (last.number ≡ batch.number)
        × IsBatch last requests.items batch.verdicts.items batch.updates.items room }
    ensures { right.new.published.amount ≡ length reader.new.seen }
{
    let JudgedBatch {
        number,
        before: _,
        room: _,
        verdicts,
        updates,
    } = batch;
    let mut results = results_of(alloc, number, requests, &verdicts)?;
    let mut outgoing = Vec::with_capacity(alloc, results.len()).ok()?;
    state.publish_batch(reader, right, updates);
    state.put_results(&mut results, &mut outgoing);
    Some((verdicts, outgoing))
}

/// Whether a reader gets the versions after the one of serial 7, up to number 2: those of serials 8 and 9, in this order.
fn has_both<R: Wait, Z: FirstZone, N: ServerName>(
    rt: &R,
    state: &mut ServerState<'_, Z, N>,
    reader: &mut VersionReader<N>,
) -> bool {
    state.meet(reader);
    let outcome = state.chain(Serial(7), 2, reader);
    let Ok(chain) = VersionChain::of(rt, outcome) else {
        return false;
    };
    let serial_at = |at: usize| chain.version(at).map(|version| version.serial().0);
    chain.is_whole() && chain.len() == 2 && serial_at(0) == Some(8) && serial_at(1) == Some(9)
}

/// Whether the results at the first tickets are these.
fn are_ready<Z: FirstZone, N: ServerName>(
    state: &mut ServerState<'_, Z, N>,
    expected: &[Outcome],
) -> bool {
    let mut right = true;
    for (ticket, outcome) in expected.iter().enumerate() {
        right = is_ready(&state.fetch(ticket), outcome) && right;
    }
    right
}

/// Whether the results at the first `count` tickets are pending.
fn are_pending<Z: FirstZone, N: ServerName>(
    state: &mut ServerState<'_, Z, N>,
    count: usize,
) -> bool {
    let mut right = true;
    for ticket in 0..count {
        right = matches!(state.fetch(ticket), Poll::Pending) && right;
    }
    right
}

/// Opens the first five tickets. Gives whether they are these. None if memory allocation fails.
fn open_five<Z: FirstZone, N: ServerName>(state: &mut ServerState<'_, Z, N>) -> Option<bool> {
    let mut right = true;
    for ticket in 0..5usize {
        right = state.open()? == ticket && right;
    }
    Some(right)
}

/// A batch that is published.
#[derive(Drop)]
struct InOrder;

impl Play for InOrder {
    fn play<R: Wait, Z: FirstZone, N: ServerName>(
        &self,
        rt: &R,
        alloc: Global,
        cell: &VersionCell<Z, N>,
        publisher: VersionPublisher<Z, N>,
        readers: Vec<VersionReader<N>>,
        ledgers: ServerLedgers,
    ) -> Played<Z, N> {
        match TestState::make(alloc, cell, publisher, readers, ledgers) {
            Ok((mut test, mut right, mut reader)) => {
                let outcome = self.run(rt, alloc, &mut test.state, &mut right, &mut reader);
                test.end(reader, outcome)
            }
            Err(played) => played,
        }
    }
}

impl InOrder {
    /// Runs the test. Returns whether it passes; None if memory allocation fails.
    fn run<R: Wait, Z: FirstZone, N: ServerName>(
        &self,
        rt: &R,
        alloc: Global,
        state: &mut ServerState<'_, Z, N>,
        right: &mut PublishRight<N>,
        reader: &mut VersionReader<N>,
    ) -> Option<bool> {
        let mut passes = open_five(state)?;
        let requests = mixed(alloc)?;
        let batch = judge(rt, alloc, state, right, reader, &requests)?;
        // The last version uses one of the 64 slots. Before the batch is published, no reader sees a judged version and no result is there.
        passes = batch.number == 0 && batch.before.0 == 7 && batch.room == 63 && passes;
        passes = batch.updates.len() == 2 && state.number() == 0 && passes;
        passes = are_pending(state, 5) && passes;
        let (verdicts, outgoing) = publish(alloc, state, right, reader, batch, requests)?;
        passes = have_codes(&verdicts, &[0, 0, 10, 1, 0]) && passes;
        passes = outgoing.len() == 5 && outgoing.iter().all(is_wake) && passes;
        let next = state.begin_batch(rt, reader, right);
        passes = next.number == 2 && next.room == 61 && next.last.get().serial().0 == 9 && passes;
        passes = state.number() == 2 && state.serial().0 == 9 && passes;
        passes = state.last_shared().get().serial().0 == 9 && has_both(rt, state, reader) && passes;
        Some(are_ready(state, &MIXED) && passes)
    }
}

// Once the versions that a batch makes are published in order, the result of each update is at its ticket, and its worker is to be woken.
#[test]
fn a_batch_is_published_in_order(rt: HostRuntime) -> Result<(), Fail> {
    assert_eq!(rt; passes(&rt, rt.alloc(), InOrder), Some(true));
    Ok(())
}

//! Publishing the update thread's batches, and replying to the clients whose updates waited (RFC 2136, 3.8).
ghost use Rattle.std.specs.Prelude.{◌≡◌, ◌+◌, ◌≤◌, ◌++◌, [], ◌∷◌, length, take, drop, map, vec_len, vec_capacity, IfOk, IfErr};
ghost use Rattle.zone_tree.specs.Version.{Version as VersionOf};
ghost use Rattle.serve_core.specs.Transport.{room_of};
ghost use Rattle.serve_core.specs.declared.transport.Transport.TheVariants.{Udp as ByUdp};
ghost use Rattle.update_batches.specs.Engine.{IsLast, AreMade};
ghost use Rattle.update_batches.specs.Batch.{versions_in};
ghost use Rattle.update_batches.specs.Results.{AreDone, first_verdict, replies_to};
ghost use Rattle.zone_server.specs.Brought.{brought_after, brought_from, all_brought, AreReplies};
ghost use Rattle.zone_server.specs.Met.{HasBegun};
ghost use Rattle.zone_server.specs.UpdateResult.{queued_results};

use crate::answer::UpdateOutcome;
use crate::outgoing::Outgoing;
use crate::reply_sender::ReplySender;
use crate::right::{PublishRight, ServerName};
use crate::server::Server;
use crate::service_log::{Event, ServiceLog};
use crate::submit::write_done;
use crate::telling::tell_update;
use crate::update_result::QueuedResult;
use dns_engine::{FirstZone, SharedVersion, VersionReader};
use notify::{Large, passed_by};
use serve_core::{Peer, Transport, UDP_LIMIT};
use std::alloc::Global;
use std::marker::Model;
use std::sync::Wait;
use update_batches::{BATCH, QueuedUpdate, ReplyList, UpdatePublisher, Verdict, VersionUpdate};
use wire_names::NameWriter;
use zone_tree::Version;

/// The first owner to which one of these versions gives more records than stock secondaries take. Each version is made from the one before it, and the first from `first`. None
/// if there is no such owner.
fn passed_in(first: &SharedVersion, updates: &[VersionUpdate]) -> Option<Large> {
    for at in 0..updates.len() {
        let before = before_at(first, updates, at);
        if let Some(large) = passed_of(before.get(), updates[at].version().get()) {
            return Some(large);
        }
    }
    None
}

/// The same, when the first version is known.
fn large_in(first: &Option<SharedVersion>, updates: &[VersionUpdate]) -> Option<Large> {
    match first {
        Some(first) => passed_in(first, updates),
        None => None,
    }
}

/// The version before the one at an index: the previous one of these, or the first version if there is none.
fn before_at<'a>(
    first: &'a SharedVersion,
    updates: &'a [VersionUpdate],
    at: usize,
) -> &'a SharedVersion
    requires { at ≤ length updates.now }
{
    if at == 0 {
        return first;
    }
    updates[at - 1].version()
}

/// The first owner to which a version, made from the one before it, gives more records than stock secondaries take.
fn passed_of(before: &Version, version: &Version) -> Option<Large> {
    let delta = version.delta()?;
    passed_by(before.zone(), version.zone(), delta.additions())
}

/// Takes the first `count` of these updates as results, each with its verdict, SERVFAIL if there are too few, and notes the reply to each. They are removed from `requests`.
fn take_results(
    replied: &mut ReplyList,
    least: u64,
    requests: &mut Vec<QueuedUpdate>,
    count: usize,
    verdicts: &[Verdict],
    results: &mut Vec<QueuedResult>,
)
    requires some { count ≤ length requests.old.items }
    requires room { vec_len results.old + count ≤ vec_capacity results.old }
    requires none { results.old.items ≡ [] }
    ensures replied { replied.new.replies ≡ replied.old.replies ++ replies_to verdicts.now (take count requests.old.items) }
    ensures results { results.new.items ≡ queued_results least verdicts.now (take count requests.old.items) }
    ensures room { vec_capacity results.new ≡ vec_capacity results.old }
    ensures rest { requests.new.items ≡ drop count requests.old.items }
    ensures requests_room { vec_capacity requests.new ≡ vec_capacity requests.old }
{
    let mut left = verdicts;
    for update in requests.drain(..count) {
        let (verdict, rest) = first_verdict(left);
        replied.note(
            &[u64::from(verdict.code.number())],
            update.request.messages(),
        );
        results.push_reserved(QueuedResult::of(update, verdict, least));
        left = rest;
    }
}

/// The first of these verdicts, SERVFAIL if there is none, and those after it.
fn first_verdict(verdicts: &[Verdict]) -> (Verdict, &[Verdict])
    ensures { (result.0 ≡ first_verdict verdicts.now) × (result.1.now ≡ drop 1 verdicts.now) }
{
    match verdicts.split_first() {
        Some((first, rest)) => (*first, rest),
        None => (Verdict::failed(), verdicts),
    }
}

/// Wakes the worker of a reply, or sends it by datagram, which is logged.
fn send_one<R: Wait, L: ServiceLog, P: ReplySender>(
    rt: &R,
    log: &L,
    replying: &mut P,
    names: &mut NameWriter,
    out: &mut [u8],
    one: Outgoing,
)
    requires { room_of ByUdp ≤ length out.old }
    ensures brought { P.brought replying.new ≡ brought_after (P.brought replying.old) (brought_from one ∷ []) }
    ensures room { length out.new ≡ length out.old }
{
    match one {
        Outgoing::Wake { worker, key, at } => replying.tell(rt, worker, key, at),
        Outgoing::Send {
            worker,
            to,
            tsig,
            done,
        } => {
            let peer = Peer::over(Transport::Udp, true);
            tell_update(rt, log, peer, to, UpdateOutcome::of(&done));
            let len = write_done(names, &done.asked, done.code, peer, out);
            replying.send(worker, to, tsig, &out[..len]);
        }
    }
}

/// Does the same for all of these, in their order.
fn send_all<R: Wait, L: ServiceLog, P: ReplySender>(
    rt: &R,
    log: &L,
    replying: &mut P,
    names: &mut NameWriter,
    out: &mut [u8],
    outgoing: &mut Vec<Outgoing>,
)
    requires { room_of ByUdp ≤ length out.old }
    ensures brought { P.brought replying.new ≡ brought_after (P.brought replying.old) (map brought_from outgoing.old.items) }
    ensures none { outgoing.new.items ≡ [] }
    ensures room { vec_capacity outgoing.new ≡ vec_capacity outgoing.old }
{
    for one in outgoing.drain(..) {
        send_one(rt, log, replying, names, out, one);
    }
}

/// Publishes the versions of batches in a server with the right to publish, and replies to the clients whose updates waited. Its reader has seen everything published, since
/// nobody else publishes.
pub struct ServerPublisher<'a, 's, Z: FirstZone, N: ServerName, L, P: ReplySender + Drop> {
    server: &'a Server<'s, Z, N>,
    reader: VersionReader<N>,
    right: PublishRight<N>,
    log: &'a L,
    replying: P,
    /// The buffer and the writer for replies by datagram.
    out: [u8; UDP_LIMIT],
    names: NameWriter,
    /// The number of the version published last.
    last: u64,
    /// The number of the version in which the last batch was begun.
    begun: u64,
    /// That version, until the batch is published.
    first: Option<SharedVersion>,
    /// The results of a batch, while it is finished. There is room for those of a whole batch.
    results: Vec<QueuedResult>,
    /// The replies to be sent once a batch is published. There is room for those of a whole batch.
    outgoing: Vec<Outgoing>,
    /// The replies made so far, for clauses only.
    replied: ReplyList,
}

impl<'a, 's, Z: FirstZone, N: ServerName, L, P: ReplySender + Drop> Drop
    for ServerPublisher<'a, 's, Z, N, L, P> {
    fn drop(self) {
        let ServerPublisher {
            server: _,
            reader: _,
            right: _,
            log: _,
            replying: _,
            out: _,
            names: _,
            last: _,
            begun: _,
            first: _,
            results: _,
            outgoing: _,
            replied: _,
        } = self;
    }
}

impl<'a, 's, Z: FirstZone, N: ServerName, L, P: ReplySender + Drop> Model
    for ServerPublisher<'a, 's, Z, N, L, P> {
    ghost use Rattle.std.specs.Prelude.{◌≡◌, ◌+◌, ◌≤◌, [], length, vec_capacity};
    ghost use Rattle.zone_server.specs.Met.{PublisherState, HasMetLast};

    ghost Value = { PublisherState };

    ghost view = { λ t. record { seen = t.reader.seen; begun = t.begun + 1; room = t.right.reserved.amount; replied = t.replied.replies; brought = P.brought t.replying } };

    ghost invariant = { λ t. HasMetLast Z.zone t.reader.seen t.last t.begun × (t.right.published.amount ≡ length t.reader.seen)
        × (t.results.items ≡ []) × (64 ≤ vec_capacity t.results) × (t.outgoing.items ≡ []) × (64 ≤ vec_capacity t.outgoing) };
}

impl<'a, 's, Z: FirstZone, N: ServerName, L: ServiceLog, P: ReplySender + Drop> ServerPublisher<
    'a,
    's,
    Z,
    N,
    L,
    P,
> {
    /// A publisher for a server, with a reader, which meets everything published, and the right to publish. The log gets updates that came by datagram, as their workers log
    /// the others. It takes the memory for the replies of a batch; if there is none, the reader comes back.
    pub fn new<R: Wait>(
        rt: &R,
        alloc: Global,
        server: &'a Server<'s, Z, N>,
        mut reader: VersionReader<N>,
        mut right: PublishRight<N>,
        log: &'a L,
        replying: P,
    ) -> Result<ServerPublisher<'a, 's, Z, N, L, P>, VersionReader<N>>
        ensures begun { IfOk result (λ made. (last : VersionOf) × HasBegun Z.zone reader.seen made last) }
        ensures all { IfOk result (λ made. right.published.amount ≡ length made.seen) }
        ensures brought { IfOk result (λ made. made.brought ≡ P.brought replying) }
        ensures replied { IfOk result (λ made. made.replied ≡ []) }
        ensures given_back { IfErr result (λ back. back ≡ reader) }
    {
        let Ok(results) = Vec::with_capacity(alloc, BATCH) else {
            return Err(reader);
        };
        let Ok(outgoing) = Vec::with_capacity(alloc, BATCH) else {
            return Err(reader);
        };
        let _ = server.audit(rt, &mut reader, &mut right);
        let begun = server.begin_batch(rt, &mut reader, &mut right);
        Ok(ServerPublisher {
            server,
            reader,
            right,
            log,
            replying,
            out: [0u8; UDP_LIMIT],
            names: NameWriter::new(),
            last: begun.number,
            begun: begun.number,
            first: None,
            results,
            outgoing,
            replied: ReplyList::new(),
        })
    }

    /// Ends the publisher: its reader, and the sender of its replies.
    pub fn into_parts(self) -> (VersionReader<N>, P)
        ensures seen { result.0.seen ≡ self.entry.seen }
        ensures brought { P.brought result.1 ≡ self.entry.brought }
    {
        let ServerPublisher {
            server: _,
            reader,
            right: _,
            log: _,
            replying,
            out: _,
            names: _,
            last: _,
            begun: _,
            first: _,
            results: _,
            outgoing: _,
            replied: _,
        } = self;
        (reader, replying)
    }
}

impl<'a, 's, Z: FirstZone, N: ServerName, L: ServiceLog, P: ReplySender + Drop> UpdatePublisher
    for ServerPublisher<'a, 's, Z, N, L, P> {
    ghost published = { λ publisher. publisher.seen };

    ghost begun = { λ publisher. publisher.begun };

    ghost room = { λ publisher. publisher.room };

    ghost replied = { λ publisher. publisher.replied };

    fn begin_batch<R: Wait>(&mut self, rt: &R) -> (SharedVersion, usize)
        ensures last { IsLast self.new.seen result.0 }
        ensures published { self.new.seen ≡ self.old.seen }
        ensures begun { self.new.begun ≡ length self.new.seen }
        ensures room { self.new.room ≡ result.1 }
        ensures replied { self.new.replied ≡ self.old.replied }
        ensures all { HasBegun Z.zone self.old.seen self.new result.0 }
        ensures brought { self.new.brought ≡ self.old.brought }
    {
        let ServerPublisher {
            server,
            reader,
            right,
            last,
            begun,
            first,
            ..
        } = self;
        let batch = server.begin_batch(rt, reader, right);
        *last = batch.number;
        *begun = batch.number;
        *first = Some(batch.last.share(rt));
        (batch.last, batch.room)
    }

    fn finish<R: Wait>(
        &mut self,
        rt: &R,
        requests: &mut Vec<QueuedUpdate>,
        count: usize,
        verdicts: &[Verdict],
        updates: Vec<VersionUpdate>,
    )
        requires made { (first : VersionOf) × IsLast self.old.seen first × AreMade first (versions_in updates.items) }
        requires room { length updates.items ≤ self.old.room }
        requires some { count ≤ length requests.old.items }
        requires few { count ≤ 64 }
        requires done { AreDone (self.old.seen ++ versions_in updates.items) self.old.begun verdicts.now (take count requests.old.items) }
        ensures published { self.new.seen ≡ self.old.seen ++ versions_in updates.items }
        ensures begun { self.new.begun ≡ self.old.begun }
        ensures room { self.new.room + length updates.items ≡ self.old.room }
        ensures replied { self.new.replied ≡ self.old.replied ++ replies_to verdicts.now (take count requests.old.items) }
        ensures rest { requests.new.items ≡ drop count requests.old.items }
        ensures requests_room { vec_capacity requests.new ≡ vec_capacity requests.old }
        ensures brought { self.new.brought ≡ brought_after self.old.brought (all_brought verdicts.now (take count requests.old.items)) }
        ensures replies { AreReplies Z.zone self.new.seen self.new.begun verdicts.now (take count requests.old.items) }
    {
        let ServerPublisher {
            server,
            reader,
            right,
            log,
            replying,
            out,
            names,
            last,
            begun,
            first,
            results,
            outgoing,
            replied,
        } = self;
        take_results(replied, *begun, requests, count, verdicts, results);
        let large = large_in(first, &updates);
        *first = None;
        *last = server.finish_batch(rt, reader, right, updates, results, outgoing);
        if let Some(large) = large {
            log.tell(rt, Event::Large(large));
        }
        send_all(rt, *log, replying, names, out, outgoing);
    }
}

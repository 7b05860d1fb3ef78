//! The server: a cell of versions, and its engine behind a lock.
ghost use Rattle.std.specs.Prelude.{◌≡◌, ◌⊎◌, ◌↔◌, ◌+◌, ◌<◌, ◌≤◌, ◌++◌, ℕ, [], IfOk, IfErr, length, map, vec_len, vec_capacity};
ghost use Rattle.cell_core.specs.Words.{notes};
ghost use Rattle.zone_tree.specs.Version.{Version, zone_serial};
ghost use Rattle.dns_engine.specs.Replayed.{IsReplay};
ghost use Rattle.requests.specs.Served.{BeginsWith, Grows};
ghost use Rattle.update_batches.specs.Batch.{versions_in};
ghost use Rattle.zone_server.specs.Brought.{brought_for, brought_from, outgoing_for};
ghost use Rattle.zone_server.specs.UpdateResult.{AreResults, IsJudgedIn};
ghost use Rattle.zone_server.specs.Tickets.{IsFetchedBy};
ghost use Rattle.zone_server.specs.Right.{AreNamed};
ghost use Rattle.zone_server.specs.Known.{learned_by, HasMet, MeetsAndAsks};
ghost use Rattle.zone_server.specs.QueuedUpdate.{MeetsAt, IsBegun};
ghost use Rattle.zone_server.specs.Updated.{IsUpdated};
ghost use Rattle.dns_engine.specs.Versions.{AreNext};
ghost use Rattle.dns_engine.specs.Held.{IsLatest};
ghost use Rattle.dns_engine.specs.declared.fault.EngineFault.{EngineFault as Fault};
ghost use Rattle.transfer_core.specs.declared.kept.TheConstants.{KEPT};

use crate::open_ticket::{OpenTicket, TicketPoll, WaitingTicket};
use crate::outgoing::Outgoing;
use crate::right::{PublishRight, ServerLedgers, ServerName};
use crate::server_state::{BatchStart, ServerState};
use crate::update_result::QueuedResult;
use dns_engine::{
    Engine, FirstZone, NoEngine, SharedChain, SharedVersion, VersionCell, VersionPublisher,
    VersionReader,
};
use dns_message::Update;
use dns_rdata::{Rcode, Serial};
use std::alloc::Global;
use std::sync::{Mutex, Wait};
use update_batches::{Serials, VersionUpdate};

/// A cell of versions, with the engine that publishes in it behind a lock, and the results of updates that wait for their replies. Queries take no lock.
pub struct Server<'a, Z: FirstZone, N: ServerName> {
    cell: &'a VersionCell<Z, N>,
    state: Mutex<ServerState<'a, Z, N>>,
}

impl<'a, Z: FirstZone, N: ServerName> Drop for Server<'a, Z, N> {
    fn drop(self) {
        let Server { cell: _, state: _ } = self;
    }
}

/// The serial of an engine's last version, after the reader has met everything published.
fn meet_last<Z: FirstZone, N: ServerName>(
    state: &mut ServerState<'_, Z, N>,
    reader: &mut VersionReader<N>,
) -> Serial
    ensures serial { result.0 ≡ zone_serial state.old.held.last.zone }
    ensures met { HasMet Z.zone state.old reader.old reader.new }
    ensures same { state.new ≡ state.old }
{
    let _ = state.number();
    state.meet(reader);
    state.serial()
}

/// A ticket that was opened, if one was.
fn opened(ticket: Option<usize>) -> Option<OpenTicket> {
    match ticket {
        Some(ticket) => Some(OpenTicket::new(ticket)),
        None => None,
    }
}

impl<'a, Z: FirstZone, N: ServerName> Server<'a, Z, N> {
    /// Creates the server of a cell with only its first version published. Its engine keeps `keep` older versions besides the last one, and publishes what updates make. It
    /// fails as the engine does, and both tokens come back unchanged.
    pub fn new(
        alloc: Global,
        cell: &'a VersionCell<Z, N>,
        publisher: VersionPublisher<Z, N>,
        reader: VersionReader<N>,
        keep: usize,
        ledgers: ServerLedgers,
    ) -> Result<Server<'a, Z, N>, NoEngine<Z, N>>
        requires first { publisher.number ≡ 0 }
        requires named { AreNamed N.published N.reserved ledgers }
        ensures kept { IfOk result (λ _. keep ≤ KEPT) }
        ensures grant { IfOk result (λ _. 0 < reader.left) }
        ensures refused { IfErr result (λ refused. (refused.fault ≡ Fault.TooGreat) ↔ (KEPT < keep)) }
        ensures spent { IfErr result (λ refused. refused.fault ≡ Fault.Spent → (reader.left ≡ 0) ⊎ (publisher.noted ≡ notes)) }
        ensures given_back { IfErr result (λ refused. (refused.publisher ≡ publisher) × (refused.reader ≡ reader)) }
    {
        let engine = Engine::new(cell, publisher, reader, keep)?;
        let (mut state, right) = ServerState::of(alloc, cell, engine, ledgers);
        state.keep(right);
        Ok(Server {
            cell,
            state: Mutex::new(state),
        })
    }

    /// Creates the server of a cell with only its first version published, after its engine has published the versions of `later`, and gives the right to publish more. It
    /// fails as the engine does, which has then published none of them, and both tokens come back.
    pub fn resume(
        alloc: Global,
        cell: &'a VersionCell<Z, N>,
        publisher: VersionPublisher<Z, N>,
        reader: VersionReader<N>,
        keep: usize,
        later: Vec<SharedVersion>,
        ledgers: ServerLedgers,
    ) -> Result<(Server<'a, Z, N>, PublishRight<N>), NoEngine<Z, N>>
        requires first { publisher.number ≡ 0 }
        requires named { AreNamed N.published N.reserved ledgers }
        requires follow { AreNext publisher.value later.items }
        ensures right { IfOk result (λ made. made.1.published.amount ≡ length (publisher.published ++ later.items)) }
        ensures kept { IfOk result (λ _. keep ≤ KEPT) }
        ensures refused { IfErr result (λ refused. (refused.fault ≡ Fault.TooGreat) ↔ (KEPT < keep)) }
        ensures spent { IfErr result (λ refused. refused.fault ≡ Fault.Spent → (reader.left ≡ 0) ⊎ (publisher.noted ≡ notes) ⊎ (0 < length later.items)) }
        ensures given_back { IfErr result (λ refused. refused.publisher.published ≡ publisher.published) }
    {
        let engine = Engine::resume(cell, publisher, reader, keep, later)?;
        let (state, right) = ServerState::of(alloc, cell, engine, ledgers);
        let server = Server {
            cell,
            state: Mutex::new(state),
        };
        Ok((server, right))
    }

    /// Its cell.
    pub fn cell(&self) -> &'a VersionCell<Z, N> {
        self.cell
    }

    /// Passes an update to the engine under its lock. It gives the reply's code, and the serials of the zone before and after the update: those of an engine whose last version
    /// is the first zone with updates replayed. The reader meets everything published under the lock, before and after, so it has seen the version that the reply says was
    /// made. If another holds the right to publish, an update that would change the zone gets SERVFAIL.
    pub fn update<R: Wait>(
        &self,
        rt: &R,
        alloc: Global,
        reader: &mut VersionReader<N>,
        update: &Update,
        may: bool,
    ) -> (Rcode, Serials)
        ensures { IsUpdated Z.zone update.now may reader.old reader.new result.0 result.1 }
    {
        let mut state = self.state.lock(rt);
        let before = meet_last(&mut state, reader);
        let code = state.update(alloc, update, may);
        let after = meet_last(&mut state, reader);
        (code, Serials { before, after })
    }

    /// The engine's history of the versions after the one with a serial, up to a number. It is read under the lock, and the reader meets everything published.
    pub fn chain<R: Wait>(
        &self,
        rt: &R,
        reader: &mut VersionReader<N>,
        from: Serial,
        upto: u64,
    ) -> SharedChain<'a, Z, N>
        ensures { MeetsAndAsks Z.zone from.0 upto reader.old reader.new result }
    {
        let mut state = self.state.lock(rt);
        meet_last(&mut state, reader);
        state.chain(from, upto, reader)
    }

    /// Lets a reader meet everything published, under the lock, and gives the number of the version published last.
    pub fn meet<R: Wait>(&self, rt: &R, reader: &mut VersionReader<N>) -> u64
        ensures { MeetsAt Z.zone reader.old reader.new result }
    {
        let mut state = self.state.lock(rt);
        meet_last(&mut state, reader);
        state.number()
    }

    /// Opens a ticket for an update that is to wait for its reply, under the lock, and the reader meets everything published. It gives the number of the version published
    /// last, and no ticket if there is no memory for it.
    pub fn open<R: Wait>(&self, rt: &R, reader: &mut VersionReader<N>) -> (u64, Option<OpenTicket>)
        ensures { MeetsAt Z.zone reader.old reader.new result.0 }
    {
        let mut state = self.state.lock(rt);
        meet_last(&mut state, reader);
        let number = state.number();
        (number, opened(state.open()))
    }

    /// Fetches the result at a ticket, if it is there yet, under the lock, and the reader meets everything published. If it is not, the ticket comes back. It gives the number
    /// of the version published last with it.
    pub fn fetch<R: Wait>(
        &self,
        rt: &R,
        reader: &mut VersionReader<N>,
        ticket: WaitingTicket,
    ) -> (u64, TicketPoll)
        ensures met { MeetsAt Z.zone reader.old reader.new result.0 }
        ensures fetched { IsFetchedBy Z.zone reader.new.seen ticket result.1 }
    {
        let mut state = self.state.lock(rt);
        meet_last(&mut state, reader);
        let number = state.number();
        let poll = state.fetch(ticket.number());
        (number, ticket.fetched(poll))
    }

    /// Abandons a ticket: a result that is still to come is dropped.
    pub fn leave<R: Wait>(&self, rt: &R, ticket: WaitingTicket) {
        self.state.lock(rt).leave(ticket.into_left());
    }

    /// Frees a ticket whose update is not queued, and so gets no result.
    pub fn close<R: Wait>(&self, rt: &R, opened: OpenTicket) {
        self.state.lock(rt).close(opened.into_closed());
    }

    /// Lets the reader of the holder of the right to publish see everything published, under the lock, and gives the number of the version published last.
    pub fn audit<R: Wait>(
        &self,
        rt: &R,
        reader: &mut VersionReader<N>,
        right: &mut PublishRight<N>,
    ) -> u64
        ensures met { MeetsAt Z.zone reader.old reader.new result }
        ensures counted { right.new.published.amount ≡ length reader.new.seen }
        ensures all { right.old.published.amount ≡ length reader.old.seen → reader.new ≡ reader.old }
        ensures right { (right.new.published.amount ≡ right.old.published.amount) × (right.new.reserved.amount ≡ right.old.reserved.amount) }
    {
        let mut state = self.state.lock(rt);
        state.audit(reader, right);
        state.number()
    }

    /// Begins a batch of updates, under the lock, for the holder of the right to publish, whose reader has seen everything published. It gives the version in which they are to
    /// be judged, and how many more versions are reserved to be published after it. The lock is free while the updates are judged and written to a disk.
    pub fn begin_batch<R: Wait>(
        &self,
        rt: &R,
        reader: &mut VersionReader<N>,
        right: &mut PublishRight<N>,
    ) -> BatchStart
        requires counted { right.old.published.amount ≡ length reader.old.seen }
        ensures begun { IsBegun Z.zone reader.old reader.new result }
        ensures same { reader.new ≡ reader.old }
        ensures reserved { right.new.reserved.amount ≡ result.room }
        ensures counted { right.new.published.amount ≡ right.old.published.amount }
    {
        self.state.lock(rt).begin_batch(rt, reader, right)
    }

    /// Finishes a batch, under the lock, for the holder of the right to publish, whose reader then sees its versions: publishes them, which must be reserved, and puts the results at
    /// their tickets, if their replies are pending. Results of updates that came by datagram, and receipts for the others, are added to `outgoing`, which has room for them. It gives
    /// the number of the version published last.
    pub fn finish_batch<R: Wait>(
        &self,
        rt: &R,
        reader: &mut VersionReader<N>,
        right: &mut PublishRight<N>,
        updates: Vec<VersionUpdate>,
        results: &mut Vec<QueuedResult>,
        outgoing: &mut Vec<Outgoing>,
    ) -> u64
        requires counted { right.old.published.amount ≡ length reader.old.seen }
        requires judged { IsJudgedIn Z.zone reader.old.seen (versions_in updates.items) }
        requires room { length updates.items ≤ right.old.reserved.amount }
        requires done { AreResults Z.zone (reader.old.seen ++ versions_in updates.items) results.old.items }
        requires outgoing_room { vec_len outgoing.old + vec_len results.old ≤ vec_capacity outgoing.old }
        ensures met { MeetsAt Z.zone reader.old reader.new result }
        ensures published { reader.new.seen ≡ reader.old.seen ++ versions_in updates.items }
        ensures counted { right.new.published.amount ≡ length reader.new.seen }
        ensures reserved { right.new.reserved.amount + length updates.items ≡ right.old.reserved.amount }
        ensures put { outgoing.new.items ≡ outgoing.old.items ++ map outgoing_for results.old.items }
        ensures outgoing { map brought_from outgoing.new.items ≡ map brought_from outgoing.old.items ++ map brought_for results.old.items }
        ensures outgoing_room { vec_capacity outgoing.new ≡ vec_capacity outgoing.old }
        ensures none { results.new.items ≡ [] }
        ensures results_room { vec_capacity results.new ≡ vec_capacity results.old }
    {
        let mut state = self.state.lock(rt);
        state.publish_batch(reader, right, updates);
        state.put_results(results, outgoing);
        state.number()
    }

    /// Ends the server. Its engine's history and owners are dropped, and its publisher and its reader come back, with everything that was published.
    pub fn finish(self) -> (VersionPublisher<Z, N>, VersionReader<N>)
        ensures latest { IsLatest Z.zone result.0.published result.0.value }
        ensures number { result.0.number ≡ result.0.value.number }
        ensures seen { result.1.seen ≡ result.0.published }
    {
        let Server { cell: _, state } = self;
        let state = state.into_inner();
        let _ = state.number();
        state.into_engine().finish()
    }
}

//! The data behind a server's lock: the engine of its cell, and the results of queued updates until they are fetched (own).
ghost use Rattle.std.specs.Prelude.{◌≡◌, ◌+◌, ◌<◌, ◌≤◌, ◌++◌, [], ◌∷◌, length, map, vec_len, vec_capacity};
ghost use Rattle.zone_tree.specs.Version.{Version, zone_serial};
ghost use Rattle.counted_handles.specs.Ruled.{Begins};
ghost use Rattle.weak_history.specs.Owned.{IsChain};
ghost use Rattle.dns_engine.specs.Held.{IsLatest, state_for};
ghost use Rattle.dns_engine.specs.Replayed.{IsReplay};
ghost use Rattle.dns_engine.specs.Outcomes.{IsTold};
ghost use Rattle.dns_engine.specs.Entries.{entries_of};
ghost use Rattle.update_batches.specs.Batch.{versions_in};
ghost use Rattle.zone_server.specs.Brought.{brought_for, brought_from, outgoing_for};
ghost use Rattle.update_batches.specs.Engine.{IsLast, AreMade};
ghost use Rattle.update_batches.specs.declared.update_request.UpdateRequest.{UpdateRequest as Request};
ghost use Rattle.update_batches.specs.UpdateRequest.{makes};
ghost use Rattle.zone_server.specs.UpdateResult.{IsDone, IsFetched, IsJudgedIn, AreResults};
ghost use Rattle.zone_server.specs.Right.{AreNamed};

use crate::outgoing::Outgoing;
use crate::pending_replies::PendingReplies;
use crate::right::{PublishRight, Published, Reserved, ServerLedgers, ServerName};
use crate::update_result::{Poll, QueuedResult};
use dns_engine::{
    Engine, FirstZone, Judged, SharedChain, SharedVersion, VersionCell, VersionReader, judge,
};
use dns_message::Update;
use dns_rdata::{Rcode, Serial};
use std::alloc::Global;
use std::marker::Model;
use std::sync::Wait;
use std::sync::ledger::Book;
use update_batches::{ReplyTo, VersionUpdate};

/// The engine of a cell, and the results of updates that wait for their replies. Contracts see the engine, and know that each result is about versions that it has published.
/// Only the holder of the right to publish can publish, so it knows what is published even while it does not hold the lock.
pub struct ServerState<'a, Z: FirstZone, N: ServerName> {
    cell: &'a VersionCell<Z, N>,
    engine: Engine<'a, Z, N>,
    replies: PendingReplies,
    /// The number of published versions.
    published: Book<Published<N>>,
    /// The number of further versions reserved for the holder of the right.
    reserved: Book<Reserved<N>>,
    /// The right to publish, unless another holds it.
    right: Option<PublishRight<N>>,
}

impl<'a, Z: FirstZone, N: ServerName> Drop for ServerState<'a, Z, N> {
    fn drop(self) {
        let ServerState {
            cell: _,
            engine: _,
            replies: _,
            published: _,
            reserved: _,
            right: _,
        } = self;
    }
}

impl<'a, Z: FirstZone, N: ServerName> Model for ServerState<'a, Z, N> {
    ghost use Rattle.std.specs.List.{All};
    ghost use Rattle.dns_engine.specs.Held.{EngineState};
    ghost use Rattle.zone_server.specs.UpdateResult.{IsTicketDone};
    ghost use Rattle.zone_server.specs.Right.{AreCounted};

    ghost Value = { EngineState };

    ghost view = { λ a. a.engine };

    ghost invariant = { λ a. All (IsTicketDone Z.zone a.engine.held.published) a.replies.tickets.items × AreCounted a.engine a.published.total a.reserved.total };
}

/// The start of a batch of updates to be judged.
#[derive(Drop)]
pub struct BatchStart {
    /// The version published last, in which the updates are judged.
    pub last: SharedVersion,
    /// Its number.
    pub number: u64,
    /// How many more versions can certainly be published.
    pub room: usize,
}

/// Reads an engine's last number. This is only for proofs, which learn from it that the engine's last version is the latest that it has published.
fn learn_latest<Z: FirstZone, N: ServerName>(engine: &Engine<'_, Z, N>)
    ensures latest { IsLatest Z.zone engine.now.held.published engine.now.held.last }
    ensures replayed { IsReplay Z.zone engine.now.held.last }
{
    let _ = engine.number();
}

impl<'a, Z: FirstZone, N: ServerName> ServerState<'a, Z, N> {
    /// The state of an engine with its cell and no pending reply, and the right to publish.
    pub fn of(
        alloc: Global,
        cell: &'a VersionCell<Z, N>,
        engine: Engine<'a, Z, N>,
        ledgers: ServerLedgers,
    ) -> (ServerState<'a, Z, N>, PublishRight<N>)
        requires { AreNamed N.published N.reserved ledgers }
        ensures state { result.0 ≡ engine.entry }
        ensures right { result.1.published.amount ≡ length engine.entry.held.published }
    {
        learn_latest(&engine);
        let tickets = PendingReplies::new(alloc);
        let ServerLedgers {
            published: first,
            reserved: second,
        } = ledgers;
        let (mut published, mut mine) = first.open::<Published<N>>();
        let (reserved, rest) = second.open::<Reserved<N>>();
        // The first version has number 0.
        published.add(&mut mine, engine.number());
        published.add(&mut mine, 1);
        let state = ServerState {
            cell,
            engine,
            replies: tickets,
            published,
            reserved,
            right: None,
        };
        let right = PublishRight {
            published: mine,
            reserved: rest,
            room: 0,
        };
        (state, right)
    }

    /// Stores the right to publish, so that [`ServerState::update`] can publish.
    pub fn keep(&mut self, right: PublishRight<N>)
        ensures { self.new ≡ self.old }
    {
        self.right = Some(right);
    }

    /// Gives the engine back. Pending replies are dropped.
    pub fn into_engine(self) -> Engine<'a, Z, N>
        ensures { result ≡ self.entry }
    {
        let ServerState {
            cell: _,
            engine,
            replies: _,
            published: _,
            reserved: _,
            right: _,
        } = self;
        engine
    }

    /// The number of the version published last.
    pub fn number(&self) -> u64
        ensures number { result ≡ self.now.held.last.number }
        ensures latest { IsLatest Z.zone self.now.held.published self.now.held.last }
        ensures replayed { IsReplay Z.zone self.now.held.last }
    {
        self.engine.number()
    }

    /// The version published last, as a shared owner.
    pub fn last_shared(&self) -> &SharedVersion
        ensures { result.now ≡ self.now.held.last }
    {
        self.engine.last_shared()
    }

    /// The serial of the zone published last.
    pub fn serial(&self) -> Serial
        ensures { result.0 ≡ zone_serial self.now.held.last.zone }
    {
        self.engine.last_version().serial()
    }

    /// Lets a reader see everything published, of which it had seen a prefix. This takes no grant and does not block.
    pub fn meet(&mut self, reader: &mut VersionReader<N>)
        ensures met { reader.new ≡ record { cell = reader.old.cell; seen = self.old.held.published; left = reader.old.left; gone = reader.old.gone } }
        ensures begun { Begins reader.old.seen self.old.held.published }
        ensures same { self.new ≡ self.old }
    {
        self.engine.meet(self.cell, reader);
    }

    /// Judges an update and publishes the version it makes, as [`Engine::update`] does, if this state has the right to publish. Otherwise an update that would change the zone
    /// gets SERVFAIL. It does not block.
    pub fn update(&mut self, alloc: Global, update: &Update, may: bool) -> Rcode
        ensures reported { IsTold self.old update.now may result self.new }
    {
        let Some(mut right) = self.right.take() else {
            return self.code_here(alloc, update, may);
        };
        let code = self.update_by(&mut right, alloc, update, may);
        self.right = Some(right);
        code
    }

    /// The code of an update while nothing can be published: SERVFAIL if it would change the zone.
    fn code_here(&self, alloc: Global, update: &Update, may: bool) -> Rcode
        ensures { IsTold self.now update.now may result self.now }
    {
        learn_latest(&self.engine);
        match judge(alloc, self.engine.last_shared(), update, may) {
            Judged::Code(code) => code,
            Judged::Made(_) => Rcode::ServFail,
            Judged::Starved => Rcode::ServFail,
        }
    }

    /// Judges an update and publishes the version it makes with the right to publish, as [`Engine::update`] does.
    fn update_by(
        &mut self,
        right: &mut PublishRight<N>,
        alloc: Global,
        update: &Update,
        may: bool,
    ) -> Rcode
        ensures { IsTold self.old update.now may result self.new }
    {
        let ServerState {
            cell,
            engine,
            replies: _,
            published,
            reserved,
            right: _,
        } = self;
        right.release(reserved);
        let before = engine.number();
        let code = engine.update(alloc, cell, update, may);
        let after = engine.number();
        published.add(&mut right.published, after - before);
        learn_latest(engine);
        code
    }

    /// The engine's history of the versions after the one with a serial, up to a number, as [`Engine::chain`] gives it. It does not block.
    pub fn chain(
        &mut self,
        from: Serial,
        upto: u64,
        reader: &mut VersionReader<N>,
    ) -> SharedChain<'a, Z, N>
        ensures chain { IsChain (entries_of self.old.held.published) from.0 upto reader.old reader.new result }
        ensures same { self.new ≡ self.old }
    {
        self.engine.chain(from, upto, reader)
    }

    /// A ticket for a pending reply. None if there is no memory for it.
    pub fn open(&mut self) -> Option<usize>
        ensures { self.new ≡ self.old }
    {
        self.replies.open()
    }

    /// The result at a ticket, if it is there yet. The ticket is then free.
    pub fn fetch(&mut self, ticket: usize) -> Poll
        ensures reported { IsFetched Z.zone self.old.held.published result }
        ensures same { self.new ≡ self.old }
    {
        self.replies.fetch(ticket)
    }

    /// Abandons a ticket: a result that is still to come is dropped.
    pub fn leave(&mut self, ticket: usize)
        ensures { self.new ≡ self.old }
    {
        self.replies.leave(ticket);
    }

    /// Frees a ticket that is to get no result.
    pub fn close(&mut self, ticket: usize)
        ensures { self.new ≡ self.old }
    {
        self.replies.close(ticket);
    }

    /// Puts the results at their tickets, if their replies are pending. Results of updates that came by datagram, and receipts for the others, are added to `outgoing`, which has room
    /// for them.
    pub fn put_results(&mut self, results: &mut Vec<QueuedResult>, outgoing: &mut Vec<Outgoing>)
        requires done { AreResults Z.zone self.old.held.published results.old.items }
        requires room { vec_len outgoing.old + vec_len results.old ≤ vec_capacity outgoing.old }
        ensures same { self.new ≡ self.old }
        ensures put { outgoing.new.items ≡ outgoing.old.items ++ map outgoing_for results.old.items }
        ensures outgoing { map brought_from outgoing.new.items ≡ map brought_from outgoing.old.items ++ map brought_for results.old.items }
        ensures room { vec_capacity outgoing.new ≡ vec_capacity outgoing.old }
        ensures none { results.new.items ≡ [] }
        ensures results_room { vec_capacity results.new ≡ vec_capacity results.old }
    {
        for one in results.drain(..) {
            let left = self.put_result(one);
            outgoing.push_reserved(left);
        }
    }

    /// Puts a result at its ticket, if it came on a connection and its reply is pending.
    fn put_result(&mut self, one: QueuedResult) -> Outgoing
        requires { IsDone Z.zone self.old.held.published one.done }
        ensures same { self.new ≡ self.old }
        ensures put { result ≡ outgoing_for one }
        ensures brought { brought_from result ≡ brought_for one }
    {
        let QueuedResult { done, reply_to } = one;
        match reply_to {
            ReplyTo::Connection {
                worker,
                key,
                ticket,
            } => {
                let at = self.replies.tell(ticket, done);
                Outgoing::Wake { worker, key, at }
            }
            ReplyTo::Datagram { worker, to, tsig } => Outgoing::Send {
                worker,
                to,
                tsig,
                done,
            },
        }
    }

    /// Lets the reader of the holder of the right to publish see everything published, whose number of versions the right knows. It does not block.
    pub fn audit(&mut self, reader: &mut VersionReader<N>, right: &mut PublishRight<N>)
        ensures met { reader.new ≡ record { cell = reader.old.cell; seen = self.old.held.published; left = reader.old.left; gone = reader.old.gone } }
        ensures begun { Begins reader.old.seen self.old.held.published }
        ensures counted { right.new.published.amount ≡ length self.old.held.published }
        ensures all { right.old.published.amount ≡ length reader.old.seen → reader.new ≡ reader.old }
        ensures right { (right.new.published.amount ≡ right.old.published.amount) × (right.new.reserved.amount ≡ right.old.reserved.amount) }
        ensures same { self.new ≡ self.old }
    {
        self.published.audit(&mut right.published);
        self.meet(reader);
    }

    /// Begins a batch of updates for the holder of the right to publish, whose reader has seen everything published, since nobody else publishes. It gives the version in which
    /// the updates are to be judged, and how many more versions are reserved after it: as many as can certainly be published.
    pub fn begin_batch<R: Wait>(
        &mut self,
        rt: &R,
        reader: &mut VersionReader<N>,
        right: &mut PublishRight<N>,
    ) -> BatchStart
        requires counted { right.old.published.amount ≡ length reader.old.seen }
        ensures same { reader.new ≡ reader.old }
        ensures published { self.old.held.published ≡ reader.old.seen }
        ensures latest { IsLatest Z.zone self.old.held.published self.old.held.last }
        ensures replayed { IsReplay Z.zone self.old.held.last }
        ensures last { result.last ≡ self.old.held.last }
        ensures number { result.number ≡ self.old.held.last.number }
        ensures room { result.room ≡ self.new.free }
        ensures held { self.new.held ≡ self.old.held }
        ensures reserved { right.new.reserved.amount ≡ result.room }
        ensures counted { right.new.published.amount ≡ right.old.published.amount }
    {
        self.audit(reader, right);
        let room = self.reserve(right);
        let last = self.last_shared().share(rt);
        let number = self.number();
        BatchStart { last, number, room }
    }

    /// Reserves as many versions as can certainly be published, whatever else happens ([`Engine::count`]), and gives their number.
    fn reserve(&mut self, right: &mut PublishRight<N>) -> usize
        ensures state { self.new ≡ state_for self.old result }
        ensures reserved { right.new.reserved.amount ≡ result }
        ensures counted { right.new.published.amount ≡ right.old.published.amount }
    {
        let ServerState {
            cell,
            engine,
            replies: _,
            published: _,
            reserved,
            right: _,
        } = self;
        right.release(reserved);
        let room = engine.count(cell);
        right.reserve(reserved, room);
        room as usize
    }

    /// Publishes the versions of a batch, which must be reserved, for the holder of the right to publish, whose reader then sees them.
    pub fn publish_batch(
        &mut self,
        reader: &mut VersionReader<N>,
        right: &mut PublishRight<N>,
        updates: Vec<VersionUpdate>,
    )
        requires counted { right.old.published.amount ≡ length reader.old.seen }
        requires judged { IsJudgedIn Z.zone reader.old.seen (versions_in updates.items) }
        requires room { length updates.items ≤ right.old.reserved.amount }
        ensures met { reader.new ≡ record { cell = reader.old.cell; seen = reader.old.seen ++ versions_in updates.items; left = reader.old.left; gone = reader.old.gone } }
        ensures published { self.new.held.published ≡ reader.old.seen ++ versions_in updates.items }
        ensures counted { right.new.published.amount ≡ length (reader.old.seen ++ versions_in updates.items) }
        ensures reserved { right.new.reserved.amount + length updates.items ≡ right.old.reserved.amount }
    {
        self.audit(reader, right);
        self.publish_all(right, updates);
        self.audit(reader, right);
    }

    /// Publishes versions in their order. They must be reserved, and some update makes each of them from the one before it.
    fn publish_all(&mut self, right: &mut PublishRight<N>, updates: Vec<VersionUpdate>)
        requires made { (first : Version) × IsLast self.old.held.published first × AreMade first (versions_in updates.items) }
        requires room { length updates.items ≤ right.old.reserved.amount }
        ensures published { self.new.held.published ≡ self.old.held.published ++ versions_in updates.items }
        ensures reserved { right.new.reserved.amount + length updates.items ≡ right.old.reserved.amount }
    {
        for update in updates {
            self.publish(right, update.into_version());
        }
    }

    /// Publishes a version that some update makes from the last one, for the holder of the right. The version must be reserved.
    fn publish(&mut self, right: &mut PublishRight<N>, version: SharedVersion)
        requires room { 0 < right.old.reserved.amount }
        requires made { (last : Version) × (asked : Request) × IsLast self.old.held.published last × makes last asked version }
        ensures published { self.new.held.published ≡ self.old.held.published ++ version ∷ [] }
        ensures reserved { right.new.reserved.amount + 1 ≡ right.old.reserved.amount }
    {
        let ServerState {
            cell,
            engine,
            replies: _,
            published,
            reserved,
            right: _,
        } = self;
        reserved.audit(&mut right.reserved);
        learn_latest(engine);
        engine.publish_next(cell, version);
        learn_latest(engine);
        published.add(&mut right.published, 1);
        reserved.sub(&mut right.reserved, 1);
        right.room -= 1;
    }
}

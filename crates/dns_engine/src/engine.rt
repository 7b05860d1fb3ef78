//! The engine: who publishes, and the newest versions.
ghost use Rattle.std.specs.Prelude.{◌≡◌, ◌⊎◌, ◌↔◌, ◌<◌, ◌≤◌, ◌+◌, ◌-◌, ◌^◌, [], IfOk, IfErr, MatchBool};
ghost use Rattle.std.specs.Bool.{OnFalse, OnTrue};
ghost use Rattle.cell_core.specs.Words.{notes};
ghost use Rattle.counted_handles.specs.Ruled.{Begins};
ghost use Rattle.weak_history.specs.Owned.{IsChain};
ghost use Rattle.dns_engine.specs.Entries.{entries_of};
ghost use Rattle.dns_engine.specs.Versions.{IsNext};
ghost use Rattle.dns_engine.specs.Held.{IsLatest, free_of, state_with, state_for};
ghost use Rattle.dns_engine.specs.Replayed.{IsReplay};
ghost use Rattle.dns_engine.specs.Outcomes.{IsTold};
ghost use Rattle.dns_engine.specs.declared.fault.EngineFault.{EngineFault as Fault};

use crate::fault::{EngineFault, NoEngine};
use crate::learn::learn_last;
use crate::owners::Owners;
use crate::shared::SharedVersion;
use crate::versions::{
    ChangeHistory, FirstZone, VersionCell, VersionOwner, VersionPublisher, VersionReader,
    ZoneVersions,
};
use dns_message::Update;
use dns_rdata::{Rcode, Serial};
use snapshot_cell::Naming;
use std::alloc::Global;
use std::marker::Model;
use std::mem;
use transfer_core::{KEPT, WINDOW};
use update_core::apply;
use weak_history::{Chain, History};
use zone_tree::Version;

/// The one who publishes in a cell of versions, with the newest of them: the last, and at most so many older ones as it was made
/// to keep, which it owns; and the history of those whose changes are told, which it doesn't. Contracts see the versions that it owns with
/// all that were published, with the grants that its reader has left and with how many versions it is sure to publish, and know that they are
/// the newest that were published, and that the history is that of all that were published. No call of it waits.
#[derive(Drop)]
pub struct Engine<'a, Z: FirstZone, N: Naming> {
    publisher: VersionPublisher<Z, N>,
    reader: VersionReader<N>,
    last: VersionOwner<'a, Z, N>,
    keep: usize,
    older: Owners<'a, Z, N>,
    history: ChangeHistory<'a, Z, N>,
}

impl<'a, Z: FirstZone, N: Naming> Model for Engine<'a, Z, N> {
    ghost use Rattle.std.specs.Prelude.{◌≡◌, ◌≤◌};
    ghost use Rattle.dns_engine.specs.Entries.{history_of};
    ghost use Rattle.dns_engine.specs.Held.{EngineState, IsNewest, KEPT, free_of};

    ghost Value = { EngineState };

    ghost view = { λ a. record { held = record { published = a.reader.seen; last = a.last.value; keep = a.keep; older = a.older }; left = a.reader.left; free = free_of a.publisher.ready a.reader.left a.publisher.noted a.last.value.number } };

    ghost invariant = { λ a. (a.keep ≤ KEPT) × (a.publisher.published ≡ a.reader.seen) × (a.publisher.value ≡ a.last.value) × (a.publisher.number ≡ a.last.value.number) × IsNewest Z.zone (record { published = a.reader.seen; last = a.last.value; keep = a.keep; older = a.older }) × (a.history ≡ history_of a.reader.seen) };
}

impl<'a, Z: FirstZone, N: Naming> Engine<'a, Z, N> {
    /// The engine of a cell in which the first version alone is published, to keep so many older versions beside the last.
    /// [`EngineFault::TooGreat`] exactly where these would be more than [`KEPT`]; else [`EngineFault::Spent`] exactly where the
    /// reader has no grant left, or the publisher can give no weak owner. Both give the publisher and the reader back as they were.
    pub fn new(
        cell: &'a VersionCell<Z, N>,
        mut publisher: VersionPublisher<Z, N>,
        mut reader: VersionReader<N>,
        keep: usize,
    ) -> Result<Engine<'a, Z, N>, NoEngine<Z, N>>
        requires { publisher.number ≡ 0 }
        ensures made { IfOk result (λ engine. engine ≡ record { held = record { published = publisher.published; last = publisher.value; keep = keep; older = [] }; left = reader.left - 1; free = free_of publisher.ready (reader.left - 1) (publisher.noted + 1) publisher.value.number }) }
        ensures kept { IfOk result (λ _. keep ≤ KEPT) }
        ensures grant { IfOk result (λ _. 0 < reader.left) }
        ensures refused { IfErr result (λ refused. (refused.fault ≡ Fault.TooGreat) ↔ (KEPT < keep)) }
        ensures spent { IfErr result (λ refused. refused.fault ≡ Fault.Spent → (reader.left ≡ 0) ⊎ (publisher.noted ≡ notes)) }
        ensures given_back { IfErr result (λ refused. (refused.publisher ≡ publisher) × (refused.reader ≡ reader)) }
    {
        learn_last(&publisher);
        if keep > KEPT {
            return Err(NoEngine {
                fault: EngineFault::TooGreat,
                publisher,
                reader,
            });
        }
        let Ok((last, weak)) = cell.newest_with_weak(&mut publisher, &mut reader) else {
            return Err(NoEngine {
                fault: EngineFault::Spent,
                publisher,
                reader,
            });
        };
        let mut history = History::new(WINDOW);
        history.push(last.get().get().serial(), weak);
        Ok(Engine {
            publisher,
            reader,
            last,
            keep,
            older: Owners::new(),
            history,
        })
    }

    /// The number of the version published last.
    pub fn number(&self) -> u64
        ensures number { result ≡ self.now.held.last.number }
        ensures latest { IsLatest Z.zone self.now.held.published self.now.held.last }
        ensures replayed { IsReplay Z.zone self.now.held.last }
    {
        self.publisher.last_number()
    }

    /// The version published last.
    pub fn last_version(&self) -> &Version
        ensures { result.now ≡ self.now.held.last }
    {
        self.last.get().get()
    }

    /// Lets a reader see all that is published, of which it had seen a beginning, for no grant. It waits for nobody.
    pub fn meet(&mut self, cell: &VersionCell<Z, N>, reader: &mut VersionReader<N>)
        ensures met { reader.new ≡ record { cell = reader.old.cell; seen = self.old.held.published; left = reader.old.left; gone = reader.old.gone } }
        ensures begun { Begins reader.old.seen self.old.held.published }
        ensures same { self.new ≡ self.old }
    {
        cell.meet(&mut self.publisher, reader);
    }

    /// What its history tells of the versions after the one of a serial, up to a number, as [`History::chain`]. It waits for nobody.
    pub fn chain(
        &mut self,
        from: Serial,
        upto: u64,
        reader: &mut VersionReader<N>,
    ) -> Chain<'a, SharedVersion, ZoneVersions<Z>, N>
        ensures chain { IsChain (entries_of self.old.held.published) from.0 upto reader.old reader.new result }
        ensures same { self.new ≡ self.old }
    {
        self.history.chain(from, upto, reader)
    }

    /// Publishes what an update makes of the version published last, sent by a peer that may update, or may not, and tells its
    /// code (RFC 2136, 3). SERVFAIL also tells that there is no number left, or that memory, a slot of the cell, a grant of its reader
    /// or a weak owner of its publisher is wanted; nothing has then changed. It waits for nobody.
    pub fn update(
        &mut self,
        alloc: Global,
        cell: &'a VersionCell<Z, N>,
        update: &Update,
        may: bool,
    ) -> Rcode
        ensures reported { IsTold self.old update.now may result self.new }
        // Where no number is left, no rule is asked.
        ensures last { 2 ^ 64 ≤ self.old.held.last.number + 1 → result ≡ Rcode.ServFail }
        ensures replayed { IsReplay Z.zone self.old.held.last }
    {
        if self.number() == u64::MAX {
            return Rcode::ServFail;
        }
        let outcome = apply(alloc, self.last_version(), update, may);
        let code = outcome.code();
        let Some(version) = outcome.next() else {
            return code;
        };
        if self.publish(alloc, cell, version) {
            code
        } else {
            Rcode::ServFail
        }
    }

    /// Publishes the version after the last one, keeps that one beside it, and enters the new one in the history. False where there was
    /// no memory for it, no slot, no grant or no weak owner: nothing has then changed.
    fn publish(&mut self, alloc: Global, cell: &'a VersionCell<Z, N>, version: Version) -> bool
        requires room { self.old.held.last.number + 1 < 2 ^ 64 }
        requires follows { IsNext self.old.held.last version }
        ensures { MatchBool result ((0 < self.old.left) × (self.new ≡ state_with self.old version)) (self.new ≡ self.old) }
    {
        let Some(version) = SharedVersion::new(alloc, version) else {
            return false;
        };
        self.publish_shared(cell, version)
    }

    /// The same of a version that several can own, for which no memory is wanted.
    fn publish_shared(&mut self, cell: &'a VersionCell<Z, N>, version: SharedVersion) -> bool
        requires room { self.old.held.last.number + 1 < 2 ^ 64 }
        requires follows { IsNext self.old.held.last version }
        ensures grant { OnTrue result (0 < self.old.left) }
        ensures published { OnTrue result (self.new ≡ state_with self.old version) }
        ensures same { OnFalse result (self.new ≡ self.old) }
        ensures none { OnFalse result (self.old.free ≡ 0) }
    {
        let owners = self.reader.left().min(self.publisher.left());
        if owners == 0 {
            return false;
        }
        let Ok(old) = cell.publish(&mut self.publisher, version) else {
            return false;
        };
        let Ok((last, weak)) = cell.newest_with_weak(&mut self.publisher, &mut self.reader) else {
            unreachable!()
        };
        self.history.push(last.get().get().serial(), weak);
        mem::replace(&mut self.last, last).release();
        self.older.keep_newest(self.keep, old);
        true
    }

    /// Counts how many versions it is sure to publish, whatever else happens: a free slot of the cell, a grant, a weak owner and a number is
    /// there for each, and nobody else takes them. It waits for nobody.
    pub fn count(&mut self, cell: &VersionCell<Z, N>) -> u64
        ensures { self.new ≡ state_for self.old result }
    {
        let numbers = u64::MAX - self.number();
        let owners = self.publisher.left().min(self.reader.left());
        let slots = cell.count(&mut self.publisher).number();
        (slots as u64).min(owners).min(numbers)
    }

    /// The version published last, which several can own.
    pub fn last_shared(&self) -> &SharedVersion
        ensures { result.now ≡ self.now.held.last }
    {
        self.last.get()
    }

    /// Looks at the grants for a proof alone, which learns by it that a number is left where the engine is sure to publish.
    fn learn_room(&self)
        ensures { 0 < self.now.free → self.now.held.last.number + 1 < 2 ^ 64 }
    {
        let _ = self.reader.left();
    }

    /// Publishes a version that an update makes of the last one, where it is sure to (RFC 2136, 3). It takes no memory, and waits for nobody.
    pub fn publish_next(&mut self, cell: &'a VersionCell<Z, N>, version: SharedVersion)
        requires free { 0 < self.old.free }
        requires follows { IsNext self.old.held.last version }
        ensures { self.new ≡ state_with self.old version }
    {
        self.learn_room();
        if self.publish_shared(cell, version) {
            return;
        }
        unreachable!()
    }

    /// Ends the engine: its history and its owners are given up, and its publisher and its reader come back, with all that was published.
    pub fn finish(self) -> (VersionPublisher<Z, N>, VersionReader<N>)
        ensures publisher { (result.0.published ≡ self.entry.held.published) × (result.0.number ≡ self.entry.held.last.number) × (result.0.value ≡ self.entry.held.last) }
        ensures reader { (result.1.seen ≡ self.entry.held.published) × (result.1.left ≡ self.entry.left) }
    {
        let Engine {
            publisher,
            reader,
            last,
            keep: _,
            older,
            history,
        } = self;
        drop(history);
        drop(older);
        last.release();
        (publisher, reader)
    }
}

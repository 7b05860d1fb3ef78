//! How an engine begins with versions that were made before it (RFC 1995, 5; own).
ghost use Rattle.std.specs.Prelude.{◌≡◌, ◌⊎◌, ◌↔◌, ◌<◌, ◌≤◌, ◌-◌, IfOk, IfErr, length};
ghost use Rattle.cell_core.specs.Words.{notes};
ghost use Rattle.dns_engine.specs.Versions.{AreNext};
ghost use Rattle.dns_engine.specs.Held.{KEPT, held_alone, held_through};
ghost use Rattle.dns_engine.specs.declared.fault.EngineFault.{EngineFault as Fault};

use crate::engine::Engine;
use crate::fault::{EngineFault, NoEngine};
use crate::shared::SharedVersion;
use crate::versions::{FirstZone, VersionCell, VersionPublisher, VersionReader};
use snapshot_cell::Naming;

impl<'a, Z: FirstZone, N: Naming> Engine<'a, Z, N> {
    /// The engine of a cell in which the first version alone is published, once it has published these after it: it holds the newest of them, and
    /// its history has them all. It is refused as [`Engine::new`] is, and [`EngineFault::Spent`] is told also where it isn't sure to publish so
    /// many: none is then published, and both tokens come back.
    pub fn resume(
        cell: &'a VersionCell<Z, N>,
        publisher: VersionPublisher<Z, N>,
        reader: VersionReader<N>,
        keep: usize,
        later: Vec<SharedVersion>,
    ) -> Result<Engine<'a, Z, N>, NoEngine<Z, N>>
        requires first { publisher.number ≡ 0 }
        requires follow { AreNext publisher.value later.items }
        ensures held { IfOk result (λ engine. engine.held ≡ held_through (held_alone publisher.published publisher.value keep) later.items) }
        ensures left { IfOk result (λ engine. engine.left ≡ reader.left - 1 - length later.items) }
        ensures kept { IfOk result (λ _. keep ≤ KEPT) }
        ensures refused { IfErr result (λ refused. (refused.fault ≡ Fault.TooGreat) ↔ (KEPT < keep)) }
        ensures spent { IfErr result (λ refused. refused.fault ≡ Fault.Spent → (reader.left ≡ 0) ⊎ (publisher.noted ≡ notes) ⊎ (0 < length later.items)) }
        ensures given_back { IfErr result (λ refused. refused.publisher.published ≡ publisher.published) }
    {
        let mut engine = Engine::new(cell, publisher, reader, keep)?;
        let sure = engine.count(cell);
        if sure < later.len() as u64 {
            let (publisher, reader) = engine.finish();
            return Err(NoEngine {
                fault: EngineFault::Spent,
                publisher,
                reader,
            });
        }
        engine.publish_all(cell, later);
        Ok(engine)
    }

    /// Publishes versions one after another, where it is sure to publish as many. It takes no memory, and waits for nobody.
    fn publish_all(&mut self, cell: &'a VersionCell<Z, N>, later: Vec<SharedVersion>)
        requires free { length later.items ≤ self.old.free }
        requires follow { AreNext self.old.held.last later.items }
        ensures held { self.new.held ≡ held_through self.old.held later.items }
        ensures left { self.new.left ≡ self.old.left - length later.items }
    {
        for version in later {
            self.publish_next(cell, version);
        }
    }
}

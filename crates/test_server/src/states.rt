//! Server states for tests.
ghost use Rattle.std.specs.Prelude.{◌≡◌};
ghost use Rattle.zone_server.specs.Right.{AreNamed};

use dns_engine::{Engine, FirstZone, KEPT, VersionCell, VersionPublisher, VersionReader};
use dns_name::Name;
use master_file::read_zone;
use memory_devices::{Play, Played, is_played_by};
use std::alloc::Global;
use std::sync::Wait;
use zone_server::{PublishRight, ServerLedgers, ServerName, ServerState};

/// The zone text of the tests, with serial 7.
const ZONE: &str = "example. 3600 IN SOA ns.example. host.example. 7 1 1 1 1
example. 3600 IN NS ns.example.
";

/// A server state of the tests' zone, whose engine keeps as many versions as it may, with the readers that it does not use.
pub(crate) struct TestState<'a, Z: FirstZone, N: ServerName> {
    /// The server state.
    pub state: ServerState<'a, Z, N>,
    readers: Vec<VersionReader<N>>,
}

/// A server state, the right to publish in it, and one more reader.
pub(crate) type NewState<'a, Z, N> = (TestState<'a, Z, N>, PublishRight<N>, VersionReader<N>);

impl<'a, Z: FirstZone, N: ServerName> TestState<'a, Z, N> {
    /// Makes the server state of a cell, with the right to publish in it, and one more reader. Where there is no server state, the test's
    /// result is None, with the publisher and the readers.
    pub fn make(
        alloc: Global,
        cell: &'a VersionCell<Z, N>,
        publisher: VersionPublisher<Z, N>,
        readers: Vec<VersionReader<N>>,
        ledgers: ServerLedgers,
    ) -> Result<NewState<'a, Z, N>, Played<Z, N>>
        requires first { publisher.number ≡ 0 }
        requires named { AreNamed N.published N.reserved ledgers }
    {
        let mut readers = readers;
        let Some(own) = readers.pop() else {
            return Err(not_played(publisher, readers));
        };
        let Some(reader) = readers.pop() else {
            let _ = readers.push(own);
            return Err(not_played(publisher, readers));
        };
        match Engine::new(cell, publisher, own, KEPT) {
            Ok(engine) => {
                let (state, right) = ServerState::of(alloc, cell, engine, ledgers);
                Ok((TestState { state, readers }, right, reader))
            }
            Err(refused) => {
                let _ = readers.push(reader);
                let _ = readers.push(refused.reader);
                Err(not_played(refused.publisher, readers))
            }
        }
    }

    /// The result of a test, with the publisher and all readers.
    pub fn end(self, reader: VersionReader<N>, outcome: Option<bool>) -> Played<Z, N> {
        let TestState { state, mut readers } = self;
        let (publisher, own) = state.into_engine().finish();
        let _ = readers.push(reader);
        let _ = readers.push(own);
        Played {
            outcome,
            publisher,
            readers,
        }
    }
}

/// The result where there is no server state, with the publisher and the readers.
fn not_played<Z: FirstZone, N: ServerName>(
    publisher: VersionPublisher<Z, N>,
    readers: Vec<VersionReader<N>>,
) -> Played<Z, N> {
    Played {
        outcome: None,
        publisher,
        readers,
    }
}

/// Runs a test. Returns whether it passes; None if memory allocation fails.
pub(crate) fn passes<R: Wait, T: Play + Drop>(rt: &R, alloc: Global, run: T) -> Option<bool> {
    passes_by(rt, alloc, u64::MAX, run)
}

/// The same, with readers that have `grants` grants.
pub(crate) fn passes_by<R: Wait, T: Play + Drop>(
    rt: &R,
    alloc: Global,
    grants: u64,
    run: T,
) -> Option<bool> {
    let zone = read_zone(alloc, ZONE.as_bytes(), &Name::root()).ok()?;
    is_played_by(rt, alloc, zone, grants, &run)
}

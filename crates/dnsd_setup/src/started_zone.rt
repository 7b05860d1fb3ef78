//! What a server starts to serve.
ghost use Rattle.std.specs.Prelude.{IfOk};
ghost use Rattle.dns_engine.specs.Versions.{IsFirst, AreNext};
ghost use Rattle.dnsd_setup.specs.Starts.{CanStart, IsIn, StartsWith};

use dns_engine::SharedVersion;
use std::alloc::{AllocError, Global};
use std::fs::{File, Files};
use std::sync::{Arc, Wait};
use store_compaction::{CompactedStore, StoreWriter, TextWriter};
use store_files::{FileDisk, StoreLock};
use store_server::{LoggedCompactions, LoggedStore, ServerStore, Started, StoreLog, resume_store};
use update_batches::SharedStoreState;
use zone_tree::{Version, Zone, ZoneRead};

/// Where a server's updates are stored; it logs its events to the server's log.
pub type ZoneStore<'a, R, T, L> = ServerStore<
    'a,
    CompactedStore<R, T, LoggedCompactions<'a, L>>,
    L,
>;

/// A store in which updates survive a restart.
#[derive(Drop)]
pub struct StartedStore {
    /// Its directory.
    pub dir: String,
    /// The journal size, in octets, at which a new zone text is written.
    pub journal: u64,
    /// The result of starting from it.
    pub started: Started,
    /// What other threads see of it while updates are written to it.
    pub state: SharedStoreState,
}

/// What a server starts with.
pub enum StartedZone {
    /// A zone, whose updates are lost when the program exits.
    Zone(Zone),
    /// A store.
    Store(StartedStore),
}

impl Drop for StartedZone {
    fn drop(self) {
        match self {
            StartedZone::Zone(_) => {}
            StartedZone::Store(_) => {}
        }
    }
}

/// What a server starts to serve.
#[derive(Drop)]
pub struct ServedZone<
    'a,
    R: Files<File = File> + Alloc + Clone + Drop,
    T: TextWriter,
    L: StoreLog,
> {
    /// The oldest of its versions.
    pub first: SharedVersion,
    /// The versions after it.
    pub later: Vec<SharedVersion>,
    /// Where updates are stored.
    pub store: ZoneStore<'a, R, T, L>,
    /// The lock on the store's directory, if there is a store.
    pub lock: Option<StoreLock>,
}

impl StartedZone {
    /// The zone that is served.
    pub fn zone(&self) -> &Zone {
        match self {
            StartedZone::Zone(zone) => zone,
            StartedZone::Store(kept) => match kept.started.store.later.last() {
                Some(last) => last.zone(),
                None => kept.started.store.first.zone(),
            },
        }
    }

    /// The number of the version that has this zone.
    pub fn number(&self) -> u64 {
        match self {
            StartedZone::Zone(_) => 0,
            StartedZone::Store(kept) => match kept.started.store.later.last() {
                Some(last) => last.number(),
                None => kept.started.store.first.number(),
            },
        }
    }

    /// What other threads see of its store; none without a store. Fails if there is not enough memory.
    pub fn store_state(&self) -> Result<Option<SharedStoreState>, AllocError> {
        match self {
            StartedZone::Zone(_) => Ok(None),
            StartedZone::Store(kept) => Ok(Some(Arc::try_clone(&kept.state)?)),
        }
    }

    /// The number of records in that zone.
    pub fn records(&self) -> usize {
        let mut records = 0usize;
        for set in self.zone().walk() {
            records = records.saturating_add(set.data().len());
        }
        records
    }

    /// Prepares the versions and the store of a server that keeps `keep` older versions. The store's zone texts are written by `texts`. The store
    /// logs its events to `log`. An error is lack of memory.
    pub fn prepare<
        'a,
        R: Files<File = File> + Wait + AllocGlobal + Copy + Drop,
        T: TextWriter,
        L: StoreLog,
    >(
        self,
        rt: &R,
        alloc: Global,
        keep: usize,
        texts: T,
        log: &'a L,
    ) -> Result<ServedZone<'a, R, T, L>, AllocError>
        requires { CanStart self }
        ensures begins { IfOk result (λ b. StartsWith self b.first b.later.items b.store) }
        ensures served { IfOk result (λ b. IsFirst b.first.zone b.first × AreNext b.first b.later.items) }
    {
        match self {
            StartedZone::Zone(zone) => {
                let Some(first) = SharedVersion::new(alloc, Version::first(zone)) else {
                    return Err(AllocError);
                };
                Ok(ServedZone {
                    first,
                    later: Vec::new(alloc),
                    store: ServerStore::Nowhere,
                    lock: None,
                })
            }
            StartedZone::Store(kept) => {
                let StartedStore {
                    dir,
                    journal,
                    started,
                    state,
                } = kept;
                let Started { lock, store, .. } = started;
                let own = Arc::try_clone(&state)?;
                let (first, later, writer) = resume_store(rt, alloc, store, keep)?;
                Ok(ServedZone {
                    first,
                    later,
                    store: kept_in(rt, dir, journal, writer, texts, log, (state, own)),
                    lock: Some(lock),
                })
            }
        }
    }
}

/// A store with this writer, in which updates are stored and whose zone texts are written by `texts`. Other threads see it by a state, which is there twice.
fn kept_in<'a, R: Files<File = File> + AllocGlobal + Copy + Drop, T: TextWriter, L: StoreLog>(
    rt: &R,
    dir: String,
    journal: u64,
    writer: StoreWriter<FileDisk>,
    texts: T,
    log: &'a L,
    states: (SharedStoreState, SharedStoreState),
) -> ZoneStore<'a, R, T, L>
    ensures { IsIn writer result }
{
    let compactions = LoggedCompactions::new(log);
    let store = CompactedStore::new(*rt, dir, writer, texts, compactions, journal, states.0);
    ServerStore::Store(LoggedStore::new(store, log, states.1))
}

//! What a server begins with from an open store (own).
ghost use Rattle.std.specs.Prelude.{◌≡◌, ◌<◌, List, [], length, min, All, IfOk};
ghost use Rattle.dns_engine.specs.Held.{KEPT};
ghost use Rattle.dns_engine.specs.Versions.{IsFirst, AreNext};
ghost use Rattle.journal.specs.Batch.{request_octets};
ghost use Rattle.journal.specs.Frame.{body_limit};
ghost use Rattle.update_batches.specs.declared.version_update.VersionUpdate.{VersionUpdate};
ghost use Rattle.store_compaction.specs.RecentUpdates.{followed};
ghost use Rattle.update_batches.specs.Batch.{versions_in, updates_of};
ghost use Rattle.store_compaction.specs.Writer.{recent_of as recent_in};
ghost use Rattle.store_server.specs.OpenStore.{IsGiven, WritesOn};

use crate::resume::OpenStore;
use dns_engine::SharedVersion;
use journal::RequestMessages;
use std::alloc::{AllocError, Global};
use std::sync::Wait;
use store_compaction::{RecentUpdates, StoreWriter, steps_of};
use store_files::FileDisk;

/// The versions with which a server begins that keeps `keep` older ones, and the writer of their store, whose recent updates share these versions. It allocates memory.
pub fn resume_store<R: Wait>(
    rt: &R,
    alloc: Global,
    store: OpenStore,
    keep: usize,
) -> Result<(SharedVersion, Vec<SharedVersion>, StoreWriter<FileDisk>), AllocError>
    requires { IsGiven store }
    ensures first { IfOk result (λ r. r.0 ≡ store.first) }
    ensures later { IfOk result (λ r. r.1.items ≡ store.later.items) }
    ensures served { IfOk result (λ r. IsFirst r.0.zone r.0 × AreNext r.0 r.1.items) }
    ensures writes { IfOk result (λ r. WritesOn r.0 r.1.items r.2) }
    ensures keep { IfOk result (λ r. (recent_in r.2).keep ≡ min keep KEPT) }
    ensures recent { IfOk result (λ r. (steps : List VersionUpdate) × (versions_in steps ≡ store.later.items) × (updates_of steps ≡ store.updates.items)
        × (recent_in r.2 ≡ followed (record { oldest = store.first; steps = []; keep = min keep KEPT }) steps)) }
{
    let OpenStore {
        head,
        log,
        first,
        later,
        updates,
    } = store;
    let Some(first) = SharedVersion::new(alloc, first) else {
        return Err(AllocError);
    };
    let later = SharedVersion::all(alloc, later)?;
    let recent = recent_of(rt, alloc, &first, &later, &updates, keep)?;
    Ok((first, later, StoreWriter::of(head, log, recent)))
}

/// The recent updates of versions, each but the first with the update that made it, of which `keep` older ones are kept.
fn recent_of<R: Wait>(
    rt: &R,
    alloc: Global,
    first: &SharedVersion,
    later: &[SharedVersion],
    updates: &[RequestMessages],
    keep: usize,
) -> Result<RecentUpdates, AllocError>
    requires short { All (λ messages. length (request_octets messages) < body_limit) updates.now }
    requires many { length later.now ≡ length updates.now }
    ensures { IfOk result (λ recent. (steps : List VersionUpdate) × (versions_in steps ≡ later.now) × (updates_of steps ≡ updates.now)
        × (recent ≡ followed (record { oldest = first.now; steps = []; keep = min keep KEPT }) steps)) }
{
    let mut recent = RecentUpdates::of(alloc, first.share(rt), keep)?;
    recent.follow(steps_of(rt, alloc, later, updates)?);
    Ok(recent)
}

//! The newest versions of a zone, kept so that their changes can be sent to clients that ask for a transfer (RFC 1995, 4 and 5).
ghost use Rattle.std.specs.Prelude.{◌≡◌, ◌∷◌, ◌++◌, [], IfOk};
ghost use Rattle.zone_tree.specs.Zone.{soa_of};
ghost use Rattle.transfer_core.specs.Chain.{told_changes};
ghost use Rattle.commands.specs.Versions.{Past, begun, changes_for, kept_with, Holds};

use circular_buffer::HeapCircularBuffer;
use dns_message::Query;
use std::alloc::{AllocError, Global};
use std::marker::Model;
use std::mem;
use transfer_core::{ChainView, KEPT, KeptChain, Reach, VersionList, WINDOW, chain_since};
use zone_tree::{Version, Zone};

/// The newest version and at most [`KEPT`] older ones, oldest first.
#[derive(Drop)]
pub struct Kept {
    older: HeapCircularBuffer<Version>,
    newest: Version,
}

impl Model for Kept {
    ghost use Rattle.std.specs.Prelude.{◌≡◌};
    ghost use Rattle.transfer_core.specs.declared.kept.TheConstants.{KEPT};
    ghost use Rattle.commands.specs.Versions.{Keeping};

    ghost Value = { Keeping };

    ghost view = { λ a. record { older = a.older.items; newest = a.newest } };

    ghost invariant = { λ a. a.older.capacity ≡ KEPT };
}

impl Kept {
    /// Starts with the first version of a zone, and allocates the memory for all versions that will ever be kept.
    pub fn new(alloc: Global, zone: Zone) -> Result<Kept, AllocError>
        ensures holds { IfOk result (λ kept. Holds (begun zone) kept) }
        ensures number { IfOk result (λ kept. kept.newest.number ≡ 0) }
    {
        Ok(Kept {
            older: HeapCircularBuffer::with_capacity(alloc, KEPT)?,
            newest: Version::first(zone),
        })
    }

    /// The newest version.
    pub fn last_version(&self) -> &Version
        ensures { result.now ≡ self.now.newest }
    {
        &self.newest
    }

    /// The versions after the one that an IXFR client holds, if the client's version is in the window and these versions are kept; empty for any
    /// other query (RFC 1995, 4 and 5; own).
    pub fn chain_for<'a>(&'a self, query: &Query) -> KeptChain<'a, Kept>
        ensures { (past : Past) → Holds past self.now
            → told_changes (⟦<KeptChain<'a, Kept> as ChainView>⟧.whole result) (soa_of self.now.newest.zone) (⟦<KeptChain<'a, Kept> as VersionList>⟧.versions result)
            ≡ changes_for past query.now }
    {
        let reach = Reach {
            upto: self.len(),
            window: WINDOW,
        };
        chain_since(self, reach, query.serial)
    }

    /// Moves on to the next version, if there is one. The oldest version is dropped if [`KEPT`] older ones are already kept.
    pub fn go_on(&mut self, next: Option<Version>)
        ensures { self.new ≡ kept_with self.old next }
    {
        if let Some(next) = next {
            let last = mem::replace(&mut self.newest, next);
            let _ = self.older.push_back(last);
        }
    }
}

impl VersionList for Kept {
    ghost versions = { λ kept. kept.older ++ kept.newest ∷ [] };

    fn len(&self) -> usize {
        self.older.len() + 1
    }

    fn version(&self, at: usize) -> Option<&Version> {
        match self.older.get(at) {
            Some(version) => Some(version),
            None if at == self.older.len() => Some(&self.newest),
            None => None,
        }
    }
}

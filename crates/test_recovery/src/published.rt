//! The versions that a store is to have.
use dns_engine::{KEPT, SharedVersion};
use std::alloc::AllocError;
use std::mem;
use update_batches::VersionUpdate;

/// The first version of a store, and those that its batches made.
#[derive(Drop)]
pub(crate) struct Published {
    /// The last version.
    pub(crate) last: SharedVersion,
    /// The versions before it, oldest first.
    pub(crate) older: Vec<SharedVersion>,
}

impl Published {
    /// Adds the versions of a batch.
    pub(crate) fn add(&mut self, batch: Vec<VersionUpdate>) -> Result<(), AllocError> {
        for update in batch {
            let before = mem::replace(&mut self.last, update.into_version());
            self.older.push(before)?;
        }
        Ok(())
    }

    /// The newest of the versions before the last one, oldest first: as many as an engine keeps.
    pub(crate) fn kept(&self) -> &[SharedVersion] {
        let from = self.older.len().saturating_sub(KEPT);
        self.older.get(from..).unwrap_or_default()
    }
}

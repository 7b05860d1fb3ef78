//! Versions that several own.
ghost use Rattle.std.specs.Prelude.{◌≡◌, IfSome, IfOk};

use std::alloc::{AllocError, Global};
use std::marker::Model;
use std::sync::{Arc, Wait};
use zone_tree::Version;

/// A version that several own. Contracts see the version.
pub struct SharedVersion {
    version: Arc<Version, Global>,
}

impl Drop for SharedVersion {
    fn drop(self) {
        let SharedVersion { version: _ } = self;
    }
}

impl Model for SharedVersion {
    ghost use Rattle.zone_tree.specs.Version.{Version};

    ghost Value = { Version };

    ghost view = { λ a. a.version.value };
}

impl SharedVersion {
    /// The first owner of a version; None where there is no memory for it: the version is then dropped.
    pub fn new(alloc: Global, version: Version) -> Option<SharedVersion>
        ensures { IfSome result (λ shared. shared ≡ version) }
    {
        let version = Arc::new(alloc, version).ok()?;
        Some(SharedVersion { version })
    }

    /// The first owners of versions, in their order. Where there is no memory for them the versions are dropped.
    pub fn all(alloc: Global, versions: Vec<Version>) -> Result<Vec<SharedVersion>, AllocError>
        ensures { IfOk result (λ shared. shared.items ≡ versions.items) }
    {
        let mut shared = Vec::with_capacity(alloc, versions.len())?;
        for version in versions {
            let Some(owner) = SharedVersion::new(alloc, version) else {
                return Err(AllocError);
            };
            shared.push_reserved(owner);
        }
        Ok(shared)
    }

    /// The version.
    pub fn get(&self) -> &Version
        ensures { result.now ≡ self.now }
    {
        &self.version
    }

    /// One owner more of the version. Its count of owners is full at 2^63 - 1 of them, which no memory holds: it would wait there until
    /// one is given up.
    pub fn share<R: Wait>(&self, rt: &R) -> SharedVersion
        ensures { result ≡ self.now }
    {
        for _ in rt.forever() {
            if let Ok(version) = self.version.clone() {
                return SharedVersion { version };
            }
        }
        unreachable!()
    }
}

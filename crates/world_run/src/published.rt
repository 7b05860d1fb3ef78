//! Versions of a zone with a count of references.
ghost use Rattle.std.specs.Prelude.{◌≡◌, IfOk, IfErr};

use crate::fault::WorldFault;
use std::alloc::Global;
use std::marker::Model;
use std::mem;
use std::sync::Arc;
use zone_tree::Version;

/// A version of a zone with a count of references. Contracts see the version.
#[derive(Drop)]
pub struct Published {
    version: Arc<Version>,
}

impl Model for Published {
    ghost use Rattle.zone_tree.specs.Version.{Version as Numbered};

    ghost Value = { Numbered };

    ghost view = { λ a. a.version.value };
}

impl Published {
    /// A version with one reference.
    ///
    /// `NoMemory` where an allocation was refused.
    pub fn new(alloc: Global, version: Version) -> Result<Published, WorldFault>
        ensures ok { IfOk result (λ published. published ≡ version) }
        ensures refused { IfErr result (λ fault. fault ≡ WorldFault.NoMemory) }
    {
        match Arc::new(alloc, version) {
            Ok(version) => Ok(Published { version }),
            Err(refused) => {
                mem::drop(refused);
                Err(WorldFault::NoMemory)
            }
        }
    }

    /// Another reference to the same version.
    ///
    /// `NoMemory` where there are so many references that they can't be counted.
    pub fn share(&self) -> Result<Published, WorldFault>
        ensures ok { IfOk result (λ published. published ≡ self.now) }
        ensures refused { IfErr result (λ fault. fault ≡ WorldFault.NoMemory) }
    {
        match Arc::try_clone(&self.version) {
            Ok(version) => Ok(Published { version }),
            Err(_) => Err(WorldFault::NoMemory),
        }
    }

    /// The version.
    pub fn version(&self) -> &Version
        ensures { result.now ≡ self.now }
    {
        &self.version
    }
}

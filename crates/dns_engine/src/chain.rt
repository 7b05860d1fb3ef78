//! The versions since the one that an asker holds (RFC 1995, 4).
ghost use Rattle.std.specs.Prelude.{◌≡◌, ◌++◌, ◌∷◌, [], true, false, IfOk, OnErr};
ghost use Rattle.dns_engine.specs.Chain.{ChainState, IsCopied};
ghost use Rattle.dns_engine.specs.Owned.{versions_of};
ghost use Rattle.weak_history.specs.declared.chain.Chain.TheVariants.{Spent as WantsGrant};

use crate::copies::Copies;
use crate::shared::SharedVersion;
use crate::versions::{FirstZone, ZoneVersions};
use snapshot_cell::{Naming, Spent};
use std::marker::Model;
use std::sync::Wait;
use transfer_core::{ChainView, VersionList};
use weak_history::{Chain, Owners};
use zone_tree::Version;

/// The versions after the one that an asker holds, up to the served one, or that they aren't all there. They stay whatever is published
/// after them, and are owned beside the cell: they take none of its slots. Contracts see whether they are all there, and the versions.
#[derive(Drop)]
pub struct VersionChain {
    whole: bool,
    versions: Copies,
}

impl Model for VersionChain {
    ghost use Rattle.dns_engine.specs.Chain.{ChainState};

    ghost Value = { ChainState };

    ghost view = { λ a. record { whole = a.whole; versions = a.versions } };
}

impl VersionChain {
    /// No version, where they aren't all there, or nobody asks for them.
    pub fn none() -> VersionChain
        ensures { result ≡ record { whole = false; versions = [] } }
    {
        VersionChain {
            whole: false,
            versions: Copies::new(),
        }
    }

    /// The versions of owners, which are given up.
    fn whole<R: Wait, Z: FirstZone, N: Naming>(
        rt: &R,
        owners: Owners<'_, SharedVersion, ZoneVersions<Z>, N>,
    ) -> VersionChain
        ensures { result ≡ record { whole = true; versions = versions_of owners.entry } }
    {
        let mut left = owners;
        let mut versions = Copies::new();
        for _at in 0..left.len() {
            let Some(owner) = left.take_first() else {
                unreachable!()
            };
            versions.push(owner.get().share(rt));
        }
        VersionChain {
            whole: true,
            versions,
        }
    }

    /// What a history tells, owned beside the cell. [`Spent`] where a grant was wanted for it, and nowhere else.
    pub fn of<R: Wait, Z: FirstZone, N: Naming>(
        rt: &R,
        reported: Chain<'_, SharedVersion, ZoneVersions<Z>, N>,
    ) -> Result<VersionChain, Spent>
        ensures copied { IfOk result (λ chain. IsCopied reported.entry chain) }
        ensures spent { OnErr result (reported.entry ≡ WantsGrant) }
    {
        match reported {
            Chain::Whole(owners) => Ok(VersionChain::whole(rt, owners)),
            Chain::Gone(_) => Ok(VersionChain::none()),
            Chain::Unknown => Ok(VersionChain::none()),
            Chain::Spent => Err(Spent),
        }
    }
}

impl VersionList for VersionChain {
    ghost versions = { λ chain. chain.versions };

    fn len(&self) -> usize {
        self.versions.len()
    }

    fn version(&self, at: usize) -> Option<&Version> {
        self.versions.version(at)
    }
}

impl ChainView for VersionChain {
    ghost whole = { λ chain. chain.whole };

    fn is_whole(&self) -> bool {
        self.whole
    }
}

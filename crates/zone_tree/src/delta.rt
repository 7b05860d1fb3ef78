//! What one zone changed of the one before it (RFC 1995, 4).
ghost use Rattle.std.specs.Prelude.{◌≡◌, length, IfOk};
ghost use Rattle.dns_rdata.specs.Numbers.{type_SOA};
ghost use Rattle.dns_rdata.specs.Record.{rtype_of};
ghost use Rattle.zone_tree.specs.Delta.{DifferOnlyAt};
ghost use Rattle.zone_tree.specs.Sets.{records_in, AreAscending};
ghost use Rattle.zone_tree.specs.Version.{AreChanges};

use crate::left_out::{in_order, left_out_sets};
use crate::read::ZoneRead;
use crate::zone::Zone;
use dns_name::Name;
use dns_rdata::RRset;
use std::alloc::{AllocError, Global};
use std::marker::Model;

/// What a zone changed of the one before it: that zone's SOA, the records taken out and those put in, SOA apart, each set
/// by set in canonical order. A record whose TTL changed is taken out and put in (RFC 1995, 4).
pub struct Delta {
    old_soa: RRset,
    deletions: Vec<RRset>,
    additions: Vec<RRset>,
}

impl Drop for Delta {
    fn drop(self) {
        let Delta {
            old_soa: _,
            deletions: _,
            additions: _,
        } = self;
    }
}

impl Model for Delta {
    ghost use Rattle.zone_tree.specs.Delta.{IsDelta};
    ghost use Rattle.zone_tree.specs.Sets.{records_in};
    ghost use Rattle.zone_tree.specs.Version.{Changes};

    ghost Value = { Changes };

    ghost view = { λ a. record { old_soa = a.old_soa; deletions = records_in a.deletions.items; additions = records_in a.additions.items } };

    ghost invariant = { λ a. IsDelta a.old_soa a.deletions.items a.additions.items };
}

impl Delta {
    /// What changed from one zone to another, which differ only at these owners, SOA apart; they may come in any order, and
    /// more than once. `AllocError` where a growth was refused.
    pub fn between(
        alloc: Global,
        before: &Zone,
        after: &Zone,
        owners: Vec<Name>,
    ) -> Result<Delta, AllocError>
        requires { DifferOnlyAt owners.items before.now after.now }
        ensures { IfOk result (λ delta. AreChanges delta before.now after.now) }
    {
        let owners = in_order(alloc, &owners)?;
        Ok(Delta {
            old_soa: before.soa().copy(alloc)?,
            deletions: left_out_sets(alloc, before, after, &owners)?,
            additions: left_out_sets(alloc, after, before, &owners)?,
        })
    }

    /// The SOA of the zone before, which is one record.
    pub fn old_soa(&self) -> &RRset
        ensures set { result.now ≡ self.now.old_soa }
        ensures typed { rtype_of result.now ≡ type_SOA }
        ensures one { length result.now ≡ 1 }
    {
        &self.old_soa
    }

    /// The records taken out, as sets in canonical order.
    pub fn deletions(&self) -> &[RRset]
        ensures records { records_in result.now ≡ self.now.deletions }
        ensures ascending { AreAscending result.now }
    {
        &self.deletions
    }

    /// The records put in, as sets in canonical order.
    pub fn additions(&self) -> &[RRset]
        ensures records { records_in result.now ≡ self.now.additions }
        ensures ascending { AreAscending result.now }
    {
        &self.additions
    }
}

//! A record of a text as it is kept until the text is read.
ghost use Rattle.std.specs.Cmp.{partial_equiv_from_equiv, partial_order_from_agreeing_total};
ghost use Rattle.std.specs.Ordering.{as_partial_cmp, eq_by_cmp};
ghost use Rattle.std.specs.Prelude.{◌≡◌, ◌<◌, ◌^◌, IfOk, true, refl, bytes_eq};
ghost use Rattle.dns_name.specs.Name.{fold_name, is_same, is_under};
ghost use Rattle.dns_rdata.specs.Record.{owner_of};
ghost use Rattle.master_file.specs.SetOrder.{is_set_of, set_order, set_order_total, set_order_equiv};
ghost use Rattle.master_file.specs.FaultyLine.{is_among};
ghost use Rattle.master_file.specs.ZoneText.{record_in};
ghost use Rattle.zone_tree.specs.Zone.{is_wild};

use crate::record_entry::RecordEntry;
use dns_name::{Name, StoredName};
use dns_rdata::{RData, RRset, RType, Ttl};
use std::alloc::{AllocError, Global};
use std::cmp::Ordering;
use std::collections::BTreeSet;
use std::marker::Model;
use zone_tree::has_asterisk;

/// A record of a text, ordered by its owner and type (RFC 4034, 6.1).
#[derive(Drop)]
pub(crate) struct KeptRecord {
    owner: StoredName,
    line: u64,
    ttl: Ttl,
    rdata: RData,
}

impl Model for KeptRecord {
    ghost use Rattle.std.specs.Prelude.{◌<◌, ◌^◌};
    ghost use Rattle.master_file.specs.declared.record_entry.RecordEntry.{RecordEntry};

    ghost Value = { RecordEntry };

    ghost view = { λ a. record { line = a.line; owner = a.owner; ttl = a.ttl; rdata = a.rdata } };

    ghost invariant = { λ a. a.ttl.0 < 2 ^ 31 };
}

impl KeptRecord {
    /// A record of a text, whose owner is in lower case.
    pub(crate) fn new(alloc: Global, rr: RecordEntry) -> Result<KeptRecord, AllocError>
        requires lasts { rr.ttl.0 < 2 ^ 31 }
        requires folded { rr.owner ≡ fold_name rr.owner }
        ensures { IfOk result (λ kept. kept ≡ rr) }
    {
        let RecordEntry {
            line,
            owner,
            ttl,
            rdata,
        } = rr;
        Ok(KeptRecord {
            owner: StoredName::new(alloc, &owner)?,
            line,
            ttl,
            rdata,
        })
    }

    /// The same record once more. `AllocError` where a growth was refused.
    pub(crate) fn copy(&self, alloc: Global) -> Result<KeptRecord, AllocError>
        ensures { IfOk result (λ kept. kept ≡ self.now) }
    {
        Ok(KeptRecord {
            owner: self.owner.copy(alloc)?,
            line: self.line,
            ttl: self.ttl,
            rdata: self.rdata.copy(alloc)?,
        })
    }

    /// The line on which its entry begins, counted from 1.
    pub(crate) fn line(&self) -> u64
        ensures { result ≡ self.now.line }
    {
        self.line
    }

    /// Its type.
    pub(crate) fn rtype(&self) -> RType
        ensures { result.0 ≡ self.now.rdata.rtype }
    {
        self.rdata.rtype()
    }

    /// Whether the first label of its owner is `*`.
    pub(crate) fn is_wild(&self) -> bool
        ensures { result ≡ is_wild self.now.owner }
    {
        has_asterisk(&self.owner.to_name())
    }

    /// Whether its owner is among others.
    pub(crate) fn is_at(&self, owners: &BTreeSet<StoredName>) -> bool
        ensures { result ≡ is_among owners.now.keys self.now.owner }
    {
        owners.contains(&self.owner)
    }

    /// Whether another record has its owner.
    pub(crate) fn is_beside(&self, other: &KeptRecord) -> bool
        ensures { result ≡ is_same self.now.owner other.now.owner }
    {
        self.owner == other.owner
    }

    /// Whether another record has its data.
    pub(crate) fn has_data_of(&self, other: &KeptRecord) -> bool
        ensures { result ≡ bytes_eq self.now.rdata.octets other.now.rdata.octets }
    {
        self.rdata.octets() == other.rdata.octets()
    }

    /// Whether the owner is a name or has it among its ancestors (RFC 1034, 3.1).
    pub(crate) fn is_under(&self, name: &Name) -> bool
        ensures { result ≡ is_under self.now.owner name.now }
    {
        self.owner.is_under(name)
    }

    /// Whether it is of a set: of its owner and type.
    pub(crate) fn is_of(&self, set: &RRset) -> bool
        ensures of { result ≡ is_set_of (record_in self.now) set.now }
        ensures owner { result ≡ true → owner_of set.now ≡ fold_name self.now.owner }
    {
        *set.stored_owner() == self.owner && set.rtype() == self.rdata.rtype()
    }

    /// The record's owner, which is in lower case, its TTL and its data.
    pub(crate) fn into_parts(self) -> (StoredName, Ttl, RData)
        ensures owner { result.0 ≡ self.owner }
        ensures folded { result.0 ≡ fold_name result.0 }
        ensures ttl { result.1 ≡ self.ttl }
        ensures data { result.2 ≡ self.rdata }
        ensures lasts { result.1.0 < 2 ^ 31 }
    {
        let KeptRecord {
            owner,
            ttl,
            rdata,
            ..
        } = self;
        // What a stored name keeps is known of the owner from here on.
        let _octets = owner.octets();
        (owner, ttl, rdata)
    }
}

impl PartialEq for KeptRecord {
    ghost eq = { eq_by_cmp set_order };

    ghost laws = { partial_equiv_from_equiv set_order_equiv };

    fn eq(&self, other: &KeptRecord) -> bool {
        self.cmp(other).is_eq()
    }
}

impl Eq for KeptRecord {
    ghost laws = { set_order_equiv };
}

impl Ord for KeptRecord {
    ghost cmp = { set_order };

    ghost total = { set_order_total };

    ghost matches_partial_cmp = { λ _ _. refl };

    ghost matches_eq = { λ _ _. refl };

    fn cmp(&self, other: &KeptRecord) -> Ordering {
        self.owner
            .cmp(&other.owner)
            .then_with(|| self.rdata.rtype().0.cmp(&other.rdata.rtype().0))
    }
}

impl PartialOrd for KeptRecord {
    ghost partial_cmp = { as_partial_cmp set_order };

    ghost laws = { partial_order_from_agreeing_total set_order set_order_total (λ _ _. refl) (λ _ _. refl) };

    fn partial_cmp(&self, other: &KeptRecord) -> Option<Ordering> {
        Some(self.cmp(other))
    }
}

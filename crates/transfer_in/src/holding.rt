//! The records that are held while a list is taken.
ghost use Rattle.std.specs.Prelude.{◌≡◌, ◌+◌, ◌<◌, ◌^◌, [], length, true, false, IfOk};
ghost use Rattle.zone_tree.specs.Zone.{rrset_of};
ghost use Rattle.std.specs.List.Sorted.{IsStrictlySortedBy};
ghost use Rattle.transfer_core.specs.Take.{is_among, held_cmp, inserted, removed};

use crate::held::HeldRecord;
use crate::sizes::SetKey;
use std::alloc::{AllocError, Global};
use std::collections::{BTreeMap, BTreeSet};
use std::marker::Model;

/// Records in order, and how many each set of them has. Contracts see the list of the records.
#[derive(Drop)]
pub(crate) struct Holding {
    records: BTreeSet<HeldRecord>,
    sizes: BTreeMap<SetKey, usize>,
}

impl Model for Holding {
    ghost use Rattle.std.specs.Prelude.{List};
    ghost use Rattle.dns_rdata.specs.Record.{Record};
    ghost use Rattle.transfer_in.specs.Held.{AreSizes};

    ghost Value = { List Record };

    ghost view = { λ a. a.records.keys };

    ghost invariant = { λ a. AreSizes a.sizes a.records.keys };
}

impl Holding {
    /// No records.
    pub(crate) fn new(alloc: Global) -> Holding
        ensures { result ≡ [] }
    {
        Holding {
            records: BTreeSet::new(alloc),
            sizes: BTreeMap::new(alloc),
        }
    }

    /// How many records are held.
    pub(crate) fn len(&self) -> usize
        ensures { result ≡ length self.now }
    {
        self.records.len()
    }

    /// Whether a record is held, with its TTL.
    pub(crate) fn has(&self, held: &HeldRecord) -> bool
        ensures { result ≡ is_among self.now held.now }
    {
        self.records.contains(held)
    }

    /// The records themselves.
    pub(crate) fn into_records(self) -> BTreeSet<HeldRecord>
        ensures { result.keys ≡ self }
    {
        let Holding { records, sizes: _ } = self;
        records
    }

    /// How many records a set has; fewer than 2^63, as all of them are.
    pub(crate) fn size_of(&self, key: &SetKey) -> usize
        ensures size { result ≡ length (rrset_of self.now key.now.owner key.now.rtype) }
        ensures small { result < 2 ^ 63 }
    {
        learn_order(&self.records);
        self.sizes.get(key).copied().unwrap_or(0)
    }

    /// The records with one more, and how many its set then has. An `Err` only where a growth was refused.
    pub(crate) fn with(
        self,
        alloc: Global,
        held: HeldRecord,
    ) -> Result<(Holding, usize), AllocError>
        requires { is_among self held ≡ false }
        ensures records { IfOk result (λ next. next.0 ≡ inserted held self) }
        ensures size { IfOk result (λ next. next.1 ≡ length (rrset_of (inserted held self) held.owner held.rtype)) }
    {
        let key = held.key(alloc)?;
        let size = self.size_of(&key) + 1;
        let Holding {
            mut records,
            mut sizes,
        } = self;
        sizes.insert(key, size)?;
        records.insert(held)?;
        Ok((Holding { records, sizes }, size))
    }

    /// The records without one of them, and how many its set then has. An `Err` only where a growth was refused.
    pub(crate) fn without(
        self,
        alloc: Global,
        held: &HeldRecord,
    ) -> Result<(Holding, usize), AllocError>
        requires { is_among self held.now ≡ true }
        ensures records { IfOk result (λ next. next.0 ≡ removed held.now self) }
        ensures size { IfOk result (λ next. next.1 ≡ length (rrset_of (removed held.now self) held.now.owner held.now.rtype)) }
    {
        let key = held.key(alloc)?;
        let size = self.size_of(&key).saturating_sub(1);
        let Holding {
            mut records,
            mut sizes,
        } = self;
        learn_order(&records);
        sizes.insert(key, size)?;
        let _ = records.remove(held);
        Ok((Holding { records, sizes }, size))
    }
}

/// Counts records for a proof alone, which learns by it that they stand in order and are fewer than 2^63.
fn learn_order(records: &BTreeSet<HeldRecord>)
    ensures small { length records.now.keys < 2 ^ 63 }
    ensures ordered { IsStrictlySortedBy held_cmp records.now.keys }
{
    let _ = records.len();
}

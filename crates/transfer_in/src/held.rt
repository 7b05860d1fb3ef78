//! A record that is held while a list is taken.
ghost use Rattle.std.specs.Cmp.{partial_equiv_from_equiv, partial_order_from_agreeing_total};
ghost use Rattle.std.specs.Ordering.{as_partial_cmp, eq_by_cmp, nat_cmp, ordering_then};
ghost use Rattle.std.specs.Cmp.Lexicographic.{slice_cmp};
ghost use Rattle.std.specs.Prelude.{◌≡◌, ◌&&◌, ◌<◌, ◌≤◌, [], ◌∷◌, length, nat_le, true, All, IfOk, IfSome, Some, option_map, refl};
ghost use Rattle.dns_rdata.specs.Limits.{max_data};
ghost use Rattle.dns_name.specs.Name.{Name, is_under};
ghost use Rattle.dns_rdata.specs.Data.{data_of, serial_of};
ghost use Rattle.dns_rdata.specs.Record.{Record, IsLawful, owner_of, rtype_of};
ghost use Rattle.zone_tree.specs.Zone.{is_of};
ghost use Rattle.dns_rdata.specs.Raw.{RawRecord};
ghost use Rattle.zone_tree.specs.Change.{is_same_record};
ghost use Rattle.transfer_core.specs.Take.{held_cmp, entered, is_soa};
ghost use Rattle.transfer_in.specs.Held.{held_total, held_equiv};

use crate::sizes::SetKey;
use dns_name::{Name, StoredName};
use dns_rdata::{
    Class, DataFault, MAX_DATA, RData, RRset, RType, RawRecord, Serial, Ttl, soa_serial,
};
use std::alloc::{AllocError, Global};
use std::cmp::Ordering;
use std::marker::Model;
use transfer_core::LentRecord;

/// A record that is held while a list is taken, one that a zone may have but for the number of its octets. Records stand
/// in canonical order, those that differ in their TTL alone by that (RFC 4034, 6.1 and 6.3; own).
#[derive(Drop)]
pub(crate) struct HeldRecord {
    owner: StoredName,
    rtype: RType,
    ttl: Ttl,
    octets: Vec<u8>,
}

impl Model for HeldRecord {
    ghost use Rattle.dns_rdata.specs.Record.{Record, IsLawful};

    ghost Value = { Record };

    ghost view = { λ a. record { owner = a.owner; rtype = a.rtype.0; ttl = a.ttl.0; rdata = a.octets.items } };

    ghost invariant = { λ a. IsLawful (record { owner = a.owner; rtype = a.rtype.0; ttl = a.ttl.0; rdata = a.octets.items }) };
}

/// The octets of data as it enters a zone, as [`RType::data_octets`] gives them.
fn octets_in_zone(alloc: Global, rtype: RType, octets: &[u8]) -> Result<Option<Vec<u8>>, AllocError>
    ensures of { IfOk result (λ found. option_map (λ own. own.items) found ≡ data_of rtype.0 octets.now) }
    ensures form { IfOk result (λ found. IfSome found (λ own. data_of rtype.0 own.items ≡ Some own.items)) }
    ensures bytes { IfOk result (λ found. IfSome found (λ own. All (λ octet. octet < 256) own.items)) }
{
    match rtype.data_octets(alloc, octets)? {
        Some(own) => Ok(Some(own)),
        None => Ok(None),
    }
}

impl HeldRecord {
    /// A sent record as it enters a zone: its owner and the names in its data in lower case. None where it isn't of class
    /// IN, its type is a metatype, or its data haven't that type's form (RFC 1035, 3.3; RFC 4343, 3; own). An `Err` only
    /// where a growth was refused.
    pub(crate) fn entered(alloc: Global, sent: &RawRecord) -> Result<Option<HeldRecord>, AllocError>
        ensures { IfOk result (λ found. found ≡ entered sent.now) }
    {
        if sent.class != Class::IN {
            return Ok(None);
        }
        let Some(octets) = octets_in_zone(alloc, sent.rtype, &sent.octets)? else {
            return Ok(None);
        };
        Ok(Some(HeldRecord {
            owner: StoredName::new(alloc, &sent.owner)?,
            rtype: sent.rtype,
            ttl: Ttl::received(sent.ttl),
            octets,
        }))
    }

    /// A record of a zone. An `Err` only where a growth was refused.
    pub(crate) fn lent(alloc: Global, lent: &LentRecord<'_>) -> Result<HeldRecord, AllocError>
        ensures { IfOk result (λ held. held ≡ lent.now) }
    {
        Ok(HeldRecord {
            owner: StoredName::new(alloc, &lent.owner().to_name())?,
            rtype: lent.rtype(),
            ttl: lent.ttl(),
            octets: Vec::from_slice(alloc, lent.rdata().octets())?,
        })
    }

    /// The same record once more. An `Err` only where a growth was refused.
    pub(crate) fn copy(&self, alloc: Global) -> Result<HeldRecord, AllocError>
        ensures { IfOk result (λ held. held ≡ self.now) }
    {
        Ok(HeldRecord {
            owner: StoredName::new(alloc, &self.owner.to_name())?,
            rtype: self.rtype,
            ttl: self.ttl,
            octets: Vec::from_slice(alloc, &self.octets)?,
        })
    }

    /// The key of its set. An `Err` only where a growth was refused.
    pub(crate) fn key(&self, alloc: Global) -> Result<SetKey, AllocError>
        ensures { IfOk result (λ key. key ≡ record { owner = self.now.owner; rtype = self.now.rtype }) }
    {
        SetKey::new(alloc, &self.owner, self.rtype)
    }

    /// Whether it is an SOA.
    pub(crate) fn is_soa(&self) -> bool
        ensures { result ≡ is_soa self.now }
    {
        self.rtype == RType::SOA
    }

    /// The serial of an SOA (RFC 1035, 3.3.13).
    pub(crate) fn serial(&self) -> Serial
        requires { is_soa self.now ≡ true }
        ensures { result.0 ≡ serial_of self.now.rdata }
    {
        soa_serial(&self.octets)
    }

    /// Whether it equals another, its TTL included.
    pub(crate) fn is_same(&self, other: &HeldRecord) -> bool
        ensures { result ≡ is_same_record self.now other.now }
    {
        self.cmp(other).is_eq()
    }

    /// Whether its owner is in a zone and its data has no more octets than a record may have.
    pub(crate) fn fits(&self, apex: &Name) -> bool
        ensures { result ≡ (is_under self.now.owner apex.now && nat_le (length self.now.rdata) max_data) }
    {
        self.owner.is_under(apex) && self.octets.len() <= MAX_DATA
    }

    /// Whether its owner is in a zone.
    pub(crate) fn is_under(&self, apex: &Name) -> bool
        ensures { result ≡ is_under self.now.owner apex.now }
    {
        self.owner.is_under(apex)
    }

    /// Whether it is of a set: of its owner and type.
    pub(crate) fn is_of(&self, set: &RRset) -> bool
        ensures of { result ≡ is_of (owner_of set.now) (rtype_of set.now) self.now }
        ensures owner { result ≡ true → self.now.owner ≡ owner_of set.now }
        ensures rtype { result ≡ true → self.now.rtype ≡ rtype_of set.now }
    {
        self.owner == *set.stored_owner() && self.rtype == set.rtype()
    }

    /// The TTL, in seconds.
    pub(crate) fn ttl(&self) -> Ttl
        ensures { result.0 ≡ self.now.ttl }
    {
        self.ttl
    }

    /// The data. An `Err` only where a growth was refused.
    pub(crate) fn data(&self, alloc: Global) -> Result<RData, AllocError>
        requires { length self.now.rdata ≤ max_data }
        ensures rtype { IfOk result (λ rdata. rdata.rtype ≡ self.now.rtype) }
        ensures octets { IfOk result (λ rdata. rdata.octets ≡ self.now.rdata) }
    {
        match RData::from_wire(alloc, self.rtype, &self.octets) {
            Ok(rdata) => Ok(rdata),
            Err(DataFault::NoMemory) => Err(AllocError),
            Err(DataFault::BadLength | DataFault::TooLong) => unreachable!(),
        }
    }

    /// The set of it alone. An `Err` only where a growth was refused.
    pub(crate) fn into_set(self, alloc: Global) -> Result<RRset, AllocError>
        requires { length self.rdata ≤ max_data }
        ensures { IfOk result (λ set. set ≡ self ∷ []) }
    {
        let rdata = self.data(alloc)?;
        let HeldRecord { owner, ttl, .. } = self;
        RRset::with_owner(alloc, owner, ttl, rdata)
    }

    // The order of the records of one owner, whatever their TTLs are.
    fn order_at_owner(&self, other: &HeldRecord) -> Ordering
        ensures { result ≡ ordering_then (nat_cmp self.now.rtype other.now.rtype) (slice_cmp nat_cmp self.now.rdata other.now.rdata) }
    {
        self.rtype
            .0
            .cmp(&other.rtype.0)
            .then(self.octets.as_slice().cmp(&other.octets.as_slice()))
    }
}

impl PartialEq for HeldRecord {
    ghost eq = { eq_by_cmp held_cmp };

    ghost laws = { partial_equiv_from_equiv held_equiv };

    fn eq(&self, other: &HeldRecord) -> bool {
        self.cmp(other).is_eq()
    }
}

impl Eq for HeldRecord {
    ghost laws = { held_equiv };
}

impl Ord for HeldRecord {
    ghost cmp = { held_cmp };

    ghost total = { held_total };

    ghost matches_partial_cmp = { λ _ _. refl };

    ghost matches_eq = { λ _ _. refl };

    fn cmp(&self, other: &HeldRecord) -> Ordering {
        self.owner
            .cmp(&other.owner)
            .then_with(|| self.order_at_owner(other))
            .then(self.ttl.0.cmp(&other.ttl.0))
    }
}

impl PartialOrd for HeldRecord {
    ghost partial_cmp = { as_partial_cmp held_cmp };

    ghost laws = { partial_order_from_agreeing_total held_cmp held_total (λ _ _. refl) (λ _ _. refl) };

    fn partial_cmp(&self, other: &HeldRecord) -> Option<Ordering> {
        Some(self.cmp(other))
    }
}

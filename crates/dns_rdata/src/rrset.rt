//! The records that share an owner and a type (RFC 2181, 5).
ghost use Rattle.std.specs.Prelude.{◌≡◌, ◌≢◌, ◌↔◌, ◌<◌, ◌≤◌, ◌^◌, false, not, [], ◌∷◌, length, map, filter, insert, bytes_eq, All, IfOk, IfSome, IsNone, OnOk, OnErr, MatchBool, MatchResult};
ghost use Rattle.std.specs.Result.{IsErrOf};
ghost use Rattle.dns_rdata.specs.Limits.{max_data, max_set};
ghost use Rattle.dns_name.specs.Name.{fold_name};
ghost use Rattle.dns_rdata.specs.Data.{IsData};
ghost use Rattle.dns_rdata.specs.Record.{Record, IsLawful, records_with, owner_of, rtype_of, ttl_of, IsSet, with_data, with_record, has_data, without_data};

use crate::data::RData;
use crate::numbers::{RType, Ttl};
use dns_name::{Name, StoredName};
use smallvec::SmallVec;
use std::alloc::{AllocError, Global};
use std::cmp::Ordering;
use std::default::MadeWith;
use std::marker::Model;
use thiserror::Error;

/// The most records of a set.
pub const MAX_SET: usize = 256;

/// Why a record isn't put into a set.
#[derive(Clone, Copy, Debug, PartialEq, Eq, Error)]
pub enum SetFault {
    /// The set has [`MAX_SET`] records, and this would be another.
    #[error("a set has at most 256 records")]
    Limit,
    /// A growth was refused.
    #[error("no memory for another record")]
    NoMemory,
}

/// The records of one owner and type, with one TTL, ordered by their data octets: at least one, at most
/// [`MAX_SET`], no two equal (RFC 2181, 5; RFC 4034, 6.3). The owner is in lower case.
pub struct RRset {
    owner: StoredName,
    rtype: RType,
    ttl: Ttl,
    rdata: SmallVec<RData, 1>,
}

impl Drop for RRset {
    fn drop(self) {
        let RRset {
            owner: _,
            rtype: _,
            ttl: _,
            rdata: _,
        } = self;
    }
}

impl Model for RRset {
    ghost use Rattle.std.specs.Prelude.{List};
    ghost use Rattle.dns_rdata.specs.Record.{Record, records_with, IsSet};

    ghost Value = { List Record };

    ghost view = { λ a. records_with a.owner a.rtype.0 a.ttl.0 a.rdata.items };

    ghost invariant = { λ a. IsSet a.owner a.rtype.0 a.ttl.0 a.rdata.items };
}

impl RRset {
    /// The set of one record. Its owner is the name in lower case, and the TTL is in seconds.
    pub fn new(alloc: Global, owner: &Name, ttl: Ttl, rdata: RData) -> Result<RRset, AllocError>
        requires { ttl.0 < 2 ^ 31 }
        ensures { IfOk result (λ set. set
            ≡ record { owner = fold_name owner.now; rtype = rdata.rtype; ttl = ttl.0; rdata = rdata.octets } ∷ []) }
    {
        let stored = StoredName::new(alloc, owner)?;
        RRset::with_owner(alloc, stored, ttl, rdata)
    }

    /// The set of one record, at an owner as it is kept. The TTL is in seconds.
    pub fn with_owner(
        alloc: Global,
        owner: StoredName,
        ttl: Ttl,
        rdata: RData,
    ) -> Result<RRset, AllocError>
        requires { ttl.0 < 2 ^ 31 }
        ensures { IfOk result (λ set. set
            ≡ record { owner = owner; rtype = rdata.rtype; ttl = ttl.0; rdata = rdata.octets } ∷ []) }
    {
        Ok(RRset::of_one(alloc, owner, ttl, rdata))
    }

    /// `with_owner`, which takes no memory: one record lies in the value.
    fn of_one(alloc: Global, owner: StoredName, ttl: Ttl, rdata: RData) -> RRset
        requires { ttl.0 < 2 ^ 31 }
        ensures { result
            ≡ record { owner = owner; rtype = rdata.rtype; ttl = ttl.0; rdata = rdata.octets } ∷ [] }
    {
        // What a stored name keeps is known of the owner from here on.
        let _octets = owner.octets();
        let rtype = rdata.rtype();
        RRset {
            owner,
            rtype,
            ttl,
            rdata: SmallVec::from_buf(alloc, [rdata]),
        }
    }

    /// The owner, in lower case.
    pub fn owner(&self) -> Name
        ensures of { result ≡ owner_of self.now }
        ensures shared { All (λ r. r.owner ≡ result) self.now }
        ensures folded { result ≡ fold_name result }
    {
        self.owner.to_name()
    }

    /// The owner as it is kept, for those who compare and copy nothing.
    pub fn stored_owner(&self) -> &StoredName
        ensures of { result.now ≡ owner_of self.now }
        ensures shared { All (λ r. r.owner ≡ result.now) self.now }
        ensures folded { result.now ≡ fold_name result.now }
    {
        &self.owner
    }

    /// The type of its records.
    pub fn rtype(&self) -> RType
        ensures of { result.0 ≡ rtype_of self.now }
        ensures shared { All (λ r. r.rtype ≡ result.0) self.now }
    {
        self.rtype
    }

    /// The TTL of its records, in seconds, at most [`Ttl::MAX`].
    pub fn ttl(&self) -> Ttl
        ensures of { result.0 ≡ ttl_of self.now }
        ensures shared { All (λ r. r.ttl ≡ result.0) self.now }
        ensures lasts { result.0 < 2 ^ 31 }
    {
        self.ttl
    }

    /// The records' data, in strictly ascending order of their octets (RFC 4034, 6.3).
    pub fn data(&self) -> &[RData]
        ensures records { self.now
            ≡ records_with (owner_of self.now) (rtype_of self.now) (ttl_of self.now) result.now }
        ensures lawful { IsSet (owner_of self.now) (rtype_of self.now) (ttl_of self.now) result.now }
        ensures each { All IsLawful self.now }
        ensures short { All (λ r. length r.rdata ≤ max_data) self.now }
    {
        self.rdata.as_slice()
    }

    /// The same records once more. `AllocError` where a growth was refused.
    pub fn copy(&self, alloc: Global) -> Result<RRset, AllocError>
        ensures { IfOk result (λ set. set ≡ self.now) }
    {
        let owner = self.owner.copy(alloc)?;
        let rdata = copies(alloc, &self.rdata)?;
        Ok(RRset {
            owner,
            rtype: self.rtype,
            ttl: self.ttl,
            rdata,
        })
    }

    /// Puts one more record into its place: equal records are one. Whether it is new (RFC 2181, 5).
    ///
    /// `Limit` where the set has [`MAX_SET`] records and this would be another. Where it fails, the set is unchanged.
    pub fn insert(&mut self, rdata: RData) -> Result<bool, SetFault>
        requires { rdata.rtype ≡ rtype_of self.old }
        ensures ok { OnOk result (self.new ≡ with_record
            (record { owner = owner_of self.old; rtype = rdata.rtype; ttl = ttl_of self.old; rdata = rdata.octets })
            self.old) }
        ensures fresh { IfOk result (λ is_new. is_new ≡ not (has_data self.old rdata.octets)) }
        ensures limit { IsErrOf result SetFault.Limit
            ↔ ((length self.old ≡ max_set) × (has_data self.old rdata.octets ≡ false)) }
        // Data that is there already wants no memory.
        ensures no_memory { IsErrOf result SetFault.NoMemory
            → (has_data self.old rdata.octets ≡ false) × (length self.old < max_set) }
        ensures err { OnErr result (self.new ≡ self.old) }
    {
        let Err(place) = place_of(&self.rdata, &rdata) else {
            return Ok(false);
        };
        if self.rdata.len() == MAX_SET {
            return Err(SetFault::Limit);
        }
        self.rdata
            .insert(place, rdata)
            .map_err(|_| SetFault::NoMemory)?;
        Ok(true)
    }

    /// Whether another set has the same records, with the same TTL.
    pub fn is_same(&self, other: &RRset) -> bool
        ensures { MatchBool result (self.now ≡ other.now) (self.now ≢ other.now) }
    {
        if self.owner != other.owner {
            return false;
        }
        if self.rtype != other.rtype {
            return false;
        }
        if self.ttl != other.ttl {
            return false;
        }
        are_same(&self.rdata, &other.rdata)
    }

    /// The set without the record of these data octets; None where it has no other (RFC 2181, 5).
    pub fn without(self, octets: &[u8]) -> Option<RRset>
        ensures none { IsNone result ↔ (without_data self octets.now ≡ []) }
        ensures left { IfSome result (λ left. left ≡ without_data self octets.now) }
    {
        let RRset {
            owner,
            rtype,
            ttl,
            rdata,
        } = self;
        let rdata = without_octets(rdata, octets);
        if rdata.is_empty() {
            return None;
        }
        Some(RRset {
            owner,
            rtype,
            ttl,
            rdata,
        })
    }

    /// Gives each record this TTL, in seconds.
    pub fn set_ttl(&mut self, ttl: Ttl)
        requires { ttl.0 < 2 ^ 31 }
        ensures { self.new ≡ map (λ (r : Record). record r { ttl = ttl.0 }) self.old }
    {
        self.ttl = ttl;
    }
}

impl MadeWith<Global> for RRset {
    /// What an unused place holds: a record of no octets at the root.
    fn made_with(alloc: Global) -> RRset {
        RRset::of_one(alloc, StoredName::root(), Ttl(0), RData::made_with(alloc))
    }
}

/// Whether data are the same, one by one.
fn are_same(own: &[RData], other: &[RData]) -> bool
    ensures { MatchBool result (own.now ≡ other.now) (own.now ≢ other.now) }
{
    if own.len() != other.len() {
        return false;
    }
    for (at, rdata) in own.iter().enumerate() {
        if !is_same_datum(rdata, &other[at]) {
            return false;
        }
    }
    true
}

/// Whether two data are the same: their type, and their octets.
fn is_same_datum(own: &RData, other: &RData) -> bool
    ensures { MatchBool result (own.now ≡ other.now) (own.now ≢ other.now) }
{
    own.rtype() == other.rtype() && own.octets() == other.octets()
}

/// The data but for that of these octets.
fn without_octets(mut all: SmallVec<RData, 1>, octets: &[u8]) -> SmallVec<RData, 1>
    ensures { result.items ≡ filter (λ d. not (bytes_eq octets.now d.octets)) all.items }
{
    all.retain(
        |own: &mut RData| -> bool
            ensures left { own.new ≡ own.old }
            ensures kept { result ≡ not (bytes_eq octets.entry.now own.old.octets) }
        { octets != own.octets() },
    );
    all
}

/// Where data stands among data in order; where it isn't there, the place that keeps them in order.
fn place_of(sorted: &[RData], rdata: &RData) -> Result<usize, usize>
    ensures lawful { IsData rdata.now }
    ensures place { MatchResult result (λ at. with_data rdata.now sorted.now ≡ sorted.now)
        (λ at. (at ≤ length sorted.now) × (with_data rdata.now sorted.now ≡ insert sorted.now at rdata.now)) }
{
    let octets = rdata.octets();
    for (at, other) in sorted.iter().enumerate() {
        match octets.cmp(other.octets()) {
            Ordering::Less => return Err(at),
            Ordering::Equal => return Ok(at),
            Ordering::Greater => {}
        }
    }
    Err(sorted.len())
}

/// The same data once more.
fn copies(alloc: Global, from: &[RData]) -> Result<SmallVec<RData, 1>, AllocError>
    ensures { IfOk result (λ own. own.items ≡ from.now) }
{
    let mut own = SmallVec::new(alloc);
    own.reserve(from.len())?;
    for rdata in from {
        own.push(rdata.copy(alloc)?)?;
    }
    Ok(own)
}

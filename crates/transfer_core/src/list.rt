//! The list of a zone in whole (RFC 5936, 2.2).
ghost use Rattle.std.specs.Iterator.{YieldsFirst, item_count};
ghost use Rattle.std.specs.Prelude.{◌≡◌, ◌≢◌, ◌<◌, ◌^◌, ◌++◌, [], MatchOption};
ghost use Rattle.std.specs.Option.{option_copied};
ghost use Rattle.dns_name.specs.Name.{fold_name};
ghost use Rattle.zone_tree.specs.Sets.{records_in};
ghost use Rattle.zone_tree.specs.Zone.{IsZone};
ghost use Rattle.transfer_core.specs.Lists.{full, beside_soa, records_left};
ghost use Rattle.transfer_core.specs.Places.{zone_left};

use dns_name::{Name, StoredName};
use dns_rdata::{RData, RRset, RType, Ttl};
use std::marker::Model;
use zone_tree::{Walk, Zone, ZoneRead};

/// A record of a set, lent.
#[derive(Drop)]
pub struct LentRecord<'a> {
    set: &'a RRset,
    rdata: &'a RData,
}

impl<'a> Model for LentRecord<'a> {
    ghost use Rattle.std.specs.Prelude.{◌≡◌};
    ghost use Rattle.dns_rdata.specs.Record.{Record, owner_of, rtype_of, ttl_of};

    ghost Value = { Record };

    ghost view = { λ a. record { owner = owner_of a.set.now; rtype = rtype_of a.set.now; ttl = ttl_of a.set.now; rdata = a.rdata.now.octets } };

    ghost invariant = { λ a. a.rdata.now.rtype ≡ rtype_of a.set.now };
}

impl<'a> LentRecord<'a> {
    /// The owner, in lower case.
    pub fn owner(&self) -> &'a StoredName
        ensures of { result.now ≡ self.now.owner }
        ensures folded { result.now ≡ fold_name result.now }
    {
        self.set.stored_owner()
    }

    /// The type.
    pub fn rtype(&self) -> RType
        ensures { result.0 ≡ self.now.rtype }
    {
        self.set.rtype()
    }

    /// The TTL, in seconds.
    pub fn ttl(&self) -> Ttl
        ensures of { result.0 ≡ self.now.ttl }
        ensures lasts { result.0 < 2 ^ 31 }
    {
        self.set.ttl()
    }

    /// The data.
    pub fn rdata(&self) -> &'a RData
        ensures octets { result.now.octets ≡ self.now.rdata }
        ensures typed { result.now.rtype ≡ self.now.rtype }
    {
        self.rdata
    }
}

/// The records of a set that are left.
#[derive(Drop)]
pub struct SetRecords<'a> {
    set: &'a RRset,
    rest: &'a [RData],
}

impl<'a> Model for SetRecords<'a> {
    ghost use Rattle.std.specs.Prelude.{◌≡◌, List, All};
    ghost use Rattle.dns_rdata.specs.Record.{Record, owner_of, rtype_of, ttl_of, records_with};

    ghost Value = { List Record };

    ghost view = { λ a. records_with (owner_of a.set.now) (rtype_of a.set.now) (ttl_of a.set.now) a.rest.now };

    ghost invariant = { λ a. All (λ d. d.rtype ≡ rtype_of a.set.now) a.rest.now };
}

impl<'a> SetRecords<'a> {
    /// All records of a set.
    pub fn new(set: &'a RRset) -> SetRecords<'a>
        ensures all { result ≡ set.now }
        ensures some { result ≢ [] }
    {
        SetRecords {
            set,
            rest: set.data(),
        }
    }

    /// No record, of a set.
    pub(crate) fn none(set: &'a RRset) -> SetRecords<'a>
        ensures { result ≡ [] }
    {
        SetRecords { set, rest: &[] }
    }
}

impl<'a> Iterator for SetRecords<'a> {
    type Item = LentRecord<'a>;

    ghost next_gives = { YieldsFirst (λ records. records) };

    ghost remaining = { item_count (λ records. records) };

    fn next(&mut self) -> Option<LentRecord<'a>> {
        let (rdata, rest) = self.rest.split_first()?;
        self.rest = rest;
        Some(LentRecord {
            set: self.set,
            rdata,
        })
    }
}

/// The next set of a walk that isn't the SOA's.
fn next_other<'a>(walk: &mut Walk<'a>) -> Option<&'a RRset>
    ensures { MatchOption (option_copied result) ((beside_soa (records_in walk.old) ≡ []) × (beside_soa (records_in walk.new) ≡ [])) (λ set. beside_soa (records_in walk.old) ≡ set ++ beside_soa (records_in walk.new)) }
{
    loop {
        let set = walk.next()?;
        if set.rtype() != RType::SOA {
            return Some(set);
        }
    }
}

/// The next set of a list: one of the walk, and where none is left the one that closes the list.
fn next_set<'a>(walk: &mut Walk<'a>, closing: &mut Option<&'a RRset>) -> Option<&'a RRset>
    ensures { MatchOption (option_copied result)
        ((records_left walk.old (option_copied closing.old) ≡ []) × (records_left walk.new (option_copied closing.new) ≡ []))
        (λ set. records_left walk.old (option_copied closing.old) ≡ set ++ records_left walk.new (option_copied closing.new)) }
{
    match next_other(walk) {
        Some(set) => Some(set),
        None => closing.take(),
    }
}

/// The list of a zone in whole, as far as it is left: the SOA, all other records in canonical order, the SOA again
/// (RFC 5936, 2.2). It takes no memory. Contracts see the records that are left.
#[derive(Drop)]
pub struct FullList<'a> {
    rest: SetRecords<'a>,
    walk: Walk<'a>,
    closing: Option<&'a RRset>,
}

impl<'a> Model for FullList<'a> {
    ghost use Rattle.std.specs.Prelude.{List, ◌++◌};
    ghost use Rattle.std.specs.Option.{option_copied};
    ghost use Rattle.dns_rdata.specs.Record.{Record};
    ghost use Rattle.transfer_core.specs.Lists.{records_left};

    ghost Value = { List Record };

    ghost view = { λ list. list.rest ++ records_left list.walk (option_copied list.closing) };
}

/// The list of a zone in whole: its SOA, all its other records in canonical order, its SOA again (RFC 5936, 2.2). It takes
/// no memory.
pub fn full<Z: ZoneRead>(zone: &Z) -> FullList<'_>
    ensures list { result ≡ full (Z.records zone.now) }
    ensures lawful { IsZone (Z.records zone.now) }
{
    let soa = zone.soa();
    FullList {
        rest: SetRecords::new(soa),
        walk: zone.walk(),
        closing: Some(soa),
    }
}

/// The list of a zone in whole from an owner and a type on: its other records from there on in canonical order, its SOA (RFC 5936, 2.2). It
/// takes no memory.
pub(crate) fn zone_from<'a>(zone: &'a Zone, owner: &Name, rtype: RType) -> FullList<'a>
    ensures { result ≡ zone_left zone.now owner.now rtype.0 }
{
    let soa = zone.soa();
    FullList {
        rest: SetRecords::none(soa),
        walk: zone.walk_from(owner, rtype),
        closing: Some(soa),
    }
}

impl<'a> Iterator for FullList<'a> {
    type Item = LentRecord<'a>;

    ghost next_gives = { YieldsFirst (λ list. list) };

    ghost remaining = { item_count (λ list. list) };

    fn next(&mut self) -> Option<LentRecord<'a>> {
        if let Some(record) = self.rest.next() {
            return Some(record);
        }
        let set = next_set(&mut self.walk, &mut self.closing)?;
        self.rest = SetRecords::new(set);
        self.rest.next()
    }
}

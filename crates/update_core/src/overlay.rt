//! A zone, and in place of some owners' sets what the records of an update that were taken so far made of them (RFC 2136,
//! 3.4.2). An owner's sets are copied once, when a record changes them first, and put into the zone's tree once, at the end.
ghost use Rattle.std.specs.Prelude.{◌≡◌, ◌≢◌, IfOk, OnOk, MatchBool, Some, None, [], false, if◌then◌else◌};
ghost use Rattle.std.specs.List.{AllByRecursion};
ghost use Rattle.std.specs.List.Sorted.{IsStrictlySortedBy};
ghost use Rattle.std.specs.Option.{option_copied, option_map};
ghost use Rattle.std.specs.BTreeMap.{is_at};
ghost use Rattle.std.specs.Map.{keys_of};
ghost use Rattle.dns_name.specs.Name.{Name, canonical_cmp, is_same, fold_name};
ghost use Rattle.zone_tree.specs.Zone.{IsZone, rrsets_of};
ghost use Rattle.zone_tree.specs.Sets.{records_in};
ghost use Rattle.zone_tree.specs.Edit.{AreOwn};
ghost use Rattle.update_core.specs.Tagged.{tagged_cmp};
ghost use Rattle.update_core.specs.Overlay.{AllOwn, IsLastOwn, all_of, at_owner, own_at, own_of};

use crate::one_set::change_set;
use crate::own_sets::{change_all, copies, count_records, count_with};
use crate::rows::ActFault;
use crate::tagged::TaggedName;
use dns_name::{Name, StoredName};
use dns_rdata::{RData, RRset, RawRecord};
use std::alloc::{AllocError, Global};
use std::collections::BTreeMap;
use std::marker::Model;
use zone_tree::{Change, Zone, ZoneRead, edit_owners};

/// An owner with its sets.
type Own = (TaggedName, Vec<RRset>);

/// Owners with their sets.
type Owned = BTreeMap<TaggedName, Vec<RRset>>;

/// A zone with other sets for those of some owners: of the one that was changed last, and of others before it. Contracts see the
/// zone's records, and those with the other sets.
#[derive(Drop)]
pub(crate) struct Overlay<'a> {
    zone: &'a Zone,
    others: Owned,
    last: Option<Own>,
    count: usize,
}

impl<'a> Model for Overlay<'a> {
    ghost use Rattle.update_core.specs.Overlay.{Overlaid, IsOverlay, made_of};

    ghost Value = { Overlaid };

    ghost view = { λ a. record { base = a.zone.now; made = made_of a.zone.now a.last a.others.entries } };

    ghost invariant = { λ a. IsOverlay a.zone.now a.last a.others.entries a.count };
}

impl<'a> Overlay<'a> {
    ghost use Rattle.std.specs.Result.{IsErrOf};
    ghost use Rattle.zone_tree.specs.Zone.{apex_of};
    ghost use Rattle.update_core.specs.Verdict.{prescan_of};
    ghost use Rattle.update_core.specs.Act.{effect, IsSent};
    ghost use Rattle.update_core.specs.Applied.{AreOf};
    ghost use Rattle.update_core.specs.Overlay.{IsChangeAt, IsOfOneSet};

    /// A zone where no owner was taken.
    pub(crate) fn new(alloc: Global, zone: &'a Zone) -> Overlay<'a>
        ensures base { result.base ≡ zone.now }
        ensures made { result.made ≡ zone.now }
    {
        let _soa = zone.soa();
        Overlay {
            zone,
            others: BTreeMap::new(alloc),
            last: None,
            count: zone.count(),
        }
    }

    /// That what it made is a zone.
    pub(crate) fn check(&self)
        ensures { IsZone self.now.made }
    {
        let _count = self.count;
    }

    /// The zone's apex, which no record changes.
    pub(crate) fn apex(&self) -> &Name
        ensures { result.now ≡ apex_of self.now.made }
    {
        self.zone.apex()
    }

    /// All sets of an owner, each in whole, by type number.
    pub(crate) fn sets_at(&self, owner: &TaggedName) -> &[RRset]
        ensures own { AreOwn owner.now result.now }
        ensures records { records_in result.now ≡ rrsets_of self.now.made owner.now }
    {
        if let Some(own) = last_sets(&self.last, owner) {
            return own;
        }
        match self.others.get(owner) {
            Some(own) => own.as_slice(),
            None => self.zone.stored_sets(owner.name()),
        }
    }

    /// With the changes that a record makes of its owner's sets; `Limit` where there are more than 1,000,000 records then.
    pub(crate) fn edited(
        self,
        alloc: Global,
        owner: TaggedName,
        raw: &RawRecord,
        changes: Vec<Change>,
    ) -> Result<Overlay<'a>, ActFault>
        requires key { owner ≡ fold_name raw.now.owner }
        requires sent { IsSent raw.now }
        requires passed { prescan_of self.made raw.now ≡ None }
        requires of { AreOf self.made raw.now changes.items }
        requires at { AllByRecursion (IsChangeAt raw.now.owner) changes.items }
        ensures base { IfOk result (λ next. next.base ≡ self.entry.base) }
        ensures after { IfOk result (λ next. effect self.entry.made raw.now ≡ Some next.made) }
        ensures apex { IfOk result (λ next. apex_of next.made ≡ apex_of self.entry.made) }
        ensures limit { IsErrOf result ActFault.Limit → effect self.entry.made raw.now ≡ None }
    {
        let Overlay {
            zone,
            mut others,
            last,
            count,
        } = self;
        let mut own = taken(alloc, zone, &mut others, last, &owner)?;
        let before = count_records(&own)?;
        change_all(&mut own, &raw.owner, changes)?;
        let after = count_records(&own)?;
        let count = count_with(count, before, after)?;
        Ok(Overlay {
            zone,
            others,
            last: Some((owner, own)),
            count,
        })
    }

    /// With what a record makes of the set of its type; `Limit` where that has more than 256 records then, or the zone more than
    /// 1,000,000.
    pub(crate) fn with_set(
        self,
        alloc: Global,
        owner: TaggedName,
        raw: &RawRecord,
        rdata: Option<RData>,
    ) -> Result<Overlay<'a>, ActFault>
        requires key { owner ≡ fold_name raw.now.owner }
        requires sent { IsSent raw.now }
        requires passed { prescan_of self.made raw.now ≡ None }
        requires row { IsOfOneSet self.made raw.now rdata }
        ensures base { IfOk result (λ next. next.base ≡ self.entry.base) }
        ensures after { IfOk result (λ next. effect self.entry.made raw.now ≡ Some next.made) }
        ensures apex { IfOk result (λ next. apex_of next.made ≡ apex_of self.entry.made) }
        ensures limit { IsErrOf result ActFault.Limit → effect self.entry.made raw.now ≡ None }
    {
        let Overlay {
            zone,
            mut others,
            last,
            count,
        } = self;
        let mut own = taken(alloc, zone, &mut others, last, &owner)?;
        let (before, after) = change_set(alloc, &mut own, owner.name(), raw, rdata)?;
        let count = count_with(count, before, after)?;
        Ok(Overlay {
            zone,
            others,
            last: Some((owner, own)),
            count,
        })
    }

    /// Whether another zone was made: what stands at each owner that was taken is compared, and nothing else can have changed.
    pub(crate) fn is_changed(&self) -> bool
        ensures changed { MatchBool result (self.now.made ≢ self.now.base) (self.now.made ≡ self.now.base) }
        ensures lawful { IsZone self.now.base × IsZone self.now.made }
    {
        let Some(last) = &self.last else {
            return self.differs_at_any(&self.others);
        };
        if self.differs_at(&last.0) {
            return true;
        }
        self.differs_at_any(&self.others)
    }

    /// Whether other records stand at one of some owners than in the zone.
    fn differs_at_any(&self, owners: &Owned) -> bool
        ensures { MatchBool result (self.now.made ≢ self.now.base) (AllByRecursion (λ own. rrsets_of self.now.made own.0 ≡ rrsets_of self.now.base own.0) owners.now.entries) }
    {
        for (owner, _) in owners {
            if self.differs_at(owner) {
                return true;
            }
        }
        false
    }

    /// Whether other records stand at an owner than in the zone.
    fn differs_at(&self, owner: &TaggedName) -> bool
        ensures { MatchBool result (rrsets_of self.now.made owner.now ≢ rrsets_of self.now.base owner.now) (rrsets_of self.now.made owner.now ≡ rrsets_of self.now.base owner.now) }
    {
        !are_same(self.sets_at(owner), self.zone.stored_sets(owner.name()))
    }

    /// The zone that was made.
    pub(crate) fn into_zone(self, alloc: Global) -> Result<Zone, ActFault>
        ensures made { IfOk result (λ made. made ≡ self.entry.made) }
        ensures no_limit { IsErrOf result ActFault.Limit → ⊥ }
    {
        let Overlay {
            zone,
            others,
            last,
            count,
        } = self;
        let owned = owned_in(alloc, others, last)?;
        let made = edit_owners(alloc, zone, owned, count)?;
        Ok(made)
    }
}

/// Whether sets are the same, one by one.
fn are_same(own: &[RRset], other: &[RRset]) -> bool
    ensures { MatchBool result (own.now ≡ other.now) (own.now ≢ other.now) }
{
    if own.len() != other.len() {
        return false;
    }
    for (at, set) in own.iter().enumerate() {
        if !set.is_same(&other[at]) {
            return false;
        }
    }
    true
}

/// All owners that were taken, the one that was changed last after the others.
fn owned_in(
    alloc: Global,
    others: Owned,
    last: Option<Own>,
) -> Result<Vec<(StoredName, Vec<RRset>)>, AllocError>
    ensures { IfOk result (λ owned. owned.items ≡ all_of last others.entries) }
{
    let mut owned = Vec::with_capacity(alloc, others.len() + 1)?;
    for (owner, own) in others {
        owned.push((owner.into_name(), own))?;
    }
    let Some(last) = last else {
        return Ok(owned);
    };
    owned.push((last.0.into_name(), last.1))?;
    Ok(owned)
}

/// The sets of the owner that was changed last, where it is this one.
fn last_sets<'a>(last: &'a Option<Own>, owner: &TaggedName) -> Option<&'a [RRset]>
    ensures { option_copied result ≡ option_map (λ own. own.items) (own_of owner.now last.now []) }
{
    let Some(own) = last else {
        return None;
    };
    if own.0 == *owner {
        return Some(own.1.as_slice());
    }
    None
}

/// Takes an owner's sets: those of the owner that was changed last, where it is this one; else that one is put beside the
/// others, and these sets are taken out of those of others, or copied from the zone's.
fn taken(
    alloc: Global,
    zone: &Zone,
    others: &mut Owned,
    last: Option<Own>,
    owner: &TaggedName,
) -> Result<Vec<RRset>, AllocError>
    requires last { IsLastOwn last }
    requires each { AllOwn others.old.entries }
    requires ordered { IsStrictlySortedBy tagged_cmp (keys_of others.old.entries) }
    ensures own { IfOk result (λ own. AreOwn owner.now own.items) }
    ensures records { IfOk result (λ own. records_in own.items ≡ at_owner (rrsets_of zone.now owner.now) (own_of owner.now last others.old.entries)) }
    ensures each { OnOk result (AllOwn others.new.entries) }
    ensures ordered { OnOk result (IsStrictlySortedBy tagged_cmp (keys_of others.new.entries)) }
    ensures others { OnOk result ((name : Name) → is_at (canonical_cmp owner.now) name ≡ false → own_at name others.new.entries ≡ own_of name last others.old.entries) }
{
    let Some((name, own)) = last else {
        return take(alloc, zone, others, owner);
    };
    if name == *owner {
        return Ok(own);
    }
    put_aside(others, name, own)?;
    take(alloc, zone, others, owner)
}

/// Takes an owner's sets out of those of others, or copies the zone's.
fn take(
    alloc: Global,
    zone: &Zone,
    others: &mut Owned,
    owner: &TaggedName,
) -> Result<Vec<RRset>, AllocError>
    requires { AllOwn others.old.entries }
    ensures own { IfOk result (λ own. AreOwn owner.now own.items) }
    ensures records { IfOk result (λ own. records_in own.items ≡ at_owner (rrsets_of zone.now owner.now) (own_at owner.now others.old.entries)) }
    ensures each { AllOwn others.new.entries }
    ensures ordered { IsStrictlySortedBy tagged_cmp (keys_of others.new.entries) }
    ensures others { (name : Name) → is_at (canonical_cmp owner.now) name ≡ false → own_at name others.new.entries ≡ own_at name others.old.entries }
{
    match others.remove(owner) {
        Some(own) => Ok(own),
        None => copies(alloc, zone.stored_sets(owner.name())),
    }
}

/// Puts an owner's sets beside those of others.
fn put_aside(others: &mut Owned, owner: TaggedName, own: Vec<RRset>) -> Result<(), AllocError>
    requires own { AreOwn owner own.items }
    requires each { AllOwn others.old.entries }
    ensures each { OnOk result (AllOwn others.new.entries) }
    ensures ordered { OnOk result (IsStrictlySortedBy tagged_cmp (keys_of others.new.entries)) }
    ensures others { OnOk result ((name : Name) → own_at name others.new.entries ≡ (if is_at (canonical_cmp owner) name then Some own else own_at name others.old.entries)) }
{
    others.insert(owner, own)?;
    Ok(())
}

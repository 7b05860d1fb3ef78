//! A zone as a shared tree of its owners.
ghost use Rattle.std.specs.Prelude.{◌≡◌, ◌<◌, ◌≤◌, List, length, Err, IfOk, OnOk, OnErr};
ghost use Rattle.std.specs.Result.{IsErrOf};
ghost use Rattle.std.specs.List.{AllByRecursion};
ghost use Rattle.std.specs.Option.{option_copied, option_map};
ghost use Rattle.zone_tree.specs.Limits.{max_records};
ghost use Rattle.dns_name.specs.Name.{canonical_cmp};
ghost use Rattle.dns_rdata.specs.Record.{Record};
ghost use Rattle.shared_tree.specs.Pairs.{first_pair, pair_after, value_at};
ghost use Rattle.zone_tree.specs.Change.{edited};
ghost use Rattle.zone_tree.specs.Edit.{with_owners, AreOwn};
ghost use Rattle.zone_tree.specs.Filed.{items_of, records_under, AreFiled};
ghost use Rattle.zone_tree.specs.Zone.{IsZone, KeepsRules};

use crate::change::Change;
use crate::check::{Judged, check};
use crate::draft::{Draft, with_changes, with_owned};
use crate::fault::{NewFault, ZoneFault};
use crate::key::OwnerKey;
use crate::look::{set_of_type, sets_from};
use crate::owners::{Owned, Owners, under_owners};
use crate::read::{Near, ZoneRead};
use crate::walk::Walk;
use dns_name::{Name, Sought, SoughtName, StoredName};
use dns_rdata::{RRset, RType};
use shared_tree::{Seek, Tree};
use std::alloc::Global;
use std::marker::Model;

/// The most records of a zone.
pub const MAX_RECORDS: usize = 1_000_000;

/// A zone: its sets under their owners, in canonical order. A zone is never changed; zones share what they have in
/// common.
pub struct Zone {
    apex: Name,
    count: usize,
    owners: Owners,
}

impl Drop for Zone {
    fn drop(self) {
        let Zone {
            apex: _,
            count: _,
            owners: _,
        } = self;
    }
}

impl Model for Zone {
    ghost use Rattle.std.specs.Prelude.{List};
    ghost use Rattle.dns_rdata.specs.Record.{Record};
    ghost use Rattle.zone_tree.specs.Filed.{records_under, AreKept};

    ghost Value = { List Record };

    ghost view = { λ a. records_under a.owners.pairs };

    ghost invariant = { λ a. AreKept a.apex a.count a.owners.pairs };
}

impl Zone {
    ghost use Rattle.std.specs.Prelude.{IfOk, IfErr, OnErr};
    ghost use Rattle.std.specs.Result.{IsErrOf};
    ghost use Rattle.zone_tree.specs.Zone.{IsZone};
    ghost use Rattle.zone_tree.specs.Sets.{records_in, AreUnsplit};
    ghost use Rattle.zone_tree.specs.Fault.{IsFirstFault, IfBroken};

    /// The zone of these sets, which are in canonical order (RFC 4034, 6.1), each all that the zone has of its owner
    /// and type. Where they are no zone, the first rule that they break, in the order of
    /// [`BrokenRule`](crate::BrokenRule). `NoMemory` only where a growth was refused, of sets that are a zone.
    pub fn new(alloc: Global, sets: Vec<RRset>) -> Result<Zone, NewFault>
        ensures zone { IfOk result (λ zone. (zone ≡ records_in sets.items) × IsZone zone) }
        ensures refused { IfErr result (λ fault. IfBroken fault (λ _. AreUnsplit sets.items → IsZone (records_in sets.items) → ⊥)) }
        ensures fault { IfErr result (λ fault. IfBroken fault (λ rule. IsFirstFault rule sets.items)) }
        ensures no_memory { IsErrOf result NewFault.NoMemory → IsZone (records_in sets.items) }
    {
        let Judged { apex, count } = check(&sets).map_err(NewFault::Broken)?;
        let base = OwnerKey::new(alloc, &apex)?;
        let owners = Tree::from_sorted(alloc, base, under_owners(alloc, sets)?)?;
        Ok(Zone {
            apex,
            count,
            owners,
        })
    }
}

impl Zone {
    ghost use Rattle.std.specs.Prelude.{◌∷◌, ◌++◌, length};
    ghost use Rattle.dns_rdata.specs.Record.{owner_of, rtype_of};
    ghost use Rattle.zone_tree.specs.Zone.{rrsets_of};
    ghost use Rattle.zone_tree.specs.Sets.{records_in, sets_in, AreWhole, IsRRset};
    ghost use Rattle.zone_tree.specs.From.{records_from};

    /// How many records it has.
    pub fn count(&self) -> usize
        ensures { result ≡ length self.now }
    {
        self.count
    }

    /// All sets of an owner, which is given as a zone keeps it, each in whole, by type number.
    pub fn stored_sets(&self, owner: &StoredName) -> &[RRset]
        ensures records { records_in result.now ≡ rrsets_of self.now owner.now }
        ensures whole { AreWhole self.now result.now }
        ensures each { AllByRecursion IsRRset result.now }
    {
        sets_of(&self.owners, owner)
    }

    /// All sets from that of an owner and a type on, each in whole, in canonical order (RFC 4034, 6.1); the zone needn't have
    /// one of that owner and type. From one of these on there is what the walk has left there. It takes no memory.
    pub fn walk_from(&self, owner: &Name, rtype: RType) -> Walk<'_>
        ensures sets { result ≡ sets_in (records_from self.now owner.now rtype.0) }
        ensures records { records_in result ≡ records_from self.now owner.now rtype.0 }
        ensures rest { (front rest : List (List Record)) (set : List Record) → result ≡ front ++ set ∷ rest → records_from self.now (owner_of set) (rtype_of set) ≡ records_in (set ∷ rest) }
    {
        let sought = SoughtName::new(owner);
        let own = sets_from(sets_of(&self.owners, &sought), rtype);
        Walk::within(own, self.owners.walk_above(&sought))
    }
}

impl ZoneRead for Zone {
    ghost records = { λ zone. zone };

    fn apex(&self) -> &Name {
        &self.apex
    }

    fn rrset(&self, owner: &Name, rtype: RType) -> Option<&RRset> {
        set_of_type(sets_at(&self.owners, owner), rtype)
    }

    fn rrsets_at(&self, owner: &Name) -> &[RRset] {
        sets_at(&self.owners, owner)
    }

    fn sets_at(&self, owner: &Sought<'_>) -> &[RRset] {
        sets_of(&self.owners, owner)
    }

    fn around<'r>(&self, name: &Sought<'r>) -> Near<'_, 'r> {
        let found = self.owners.around(name);
        match found.at {
            Some(pair) => Near {
                sets: pair.1.as_slice(),
                closest: name.same(),
            },
            None => {
                let before = owner_in(found.before);
                let behind = owner_in(found.behind);
                Near {
                    sets: &[],
                    closest: name.closest(before, behind),
                }
            }
        }
    }

    fn exists(&self, name: &Name) -> bool {
        let sought = SoughtName::new(name);
        if self.owners.get(&sought).is_some() {
            return true;
        }
        match owner_behind(&self.owners, &sought) {
            Some(pair) => pair.0.is_under(&sought),
            None => false,
        }
    }

    fn soa(&self) -> &RRset {
        // The apex is the first owner: all others are below it (RFC 4034, 6.1).
        match set_of_type(first_sets(&self.owners), RType::SOA) {
            Some(set) => set,
            None => unreachable!(),
        }
    }

    fn walk(&self) -> Walk<'_> {
        Walk::new(self.owners.walk())
    }
}

/// The owner of a pair, as it is kept.
fn owner_in<'a>(pair: Option<&'a Owned>) -> Option<&'a StoredName>
    ensures { option_copied result ≡ option_map (λ pair. pair.0) (option_copied pair.entry) }
{
    match pair {
        Some(pair) => Some(pair.0.stored()),
        None => None,
    }
}

/// That a zone may have so many records.
fn check_limit(count: usize) -> Result<(), ZoneFault>
    ensures few { OnOk result (count ≤ max_records) }
    ensures limit { OnErr result ((result ≡ Err ZoneFault.Limit) × (max_records < count)) }
{
    if count > MAX_RECORDS {
        return Err(ZoneFault::Limit);
    }
    Ok(())
}

/// The sets of an owner.
pub(crate) fn sets_at<'a>(owners: &'a Owners, owner: &Name) -> &'a [RRset]
    ensures { result.now ≡ items_of (value_at canonical_cmp owner.now owners.now.pairs) }
{
    sets_of(owners, &SoughtName::new(owner))
}

/// The sets of an owner that is sought.
fn sets_of<'a, Q: Seek<OwnerKey>>(owners: &'a Owners, owner: &Q) -> &'a [RRset]
    ensures { result.now ≡ items_of (value_at canonical_cmp (Q.key owner.now) owners.now.pairs) }
{
    match owners.get(owner) {
        Some(sets) => sets.as_slice(),
        None => &[],
    }
}

/// The sets of the first owner.
fn first_sets(owners: &Owners) -> &[RRset]
    ensures { result.now ≡ items_of (option_map (λ pair. pair.1) (first_pair owners.now.pairs)) }
{
    match owners.first() {
        Some(pair) => pair.1.as_slice(),
        None => &[],
    }
}

/// The first owner after a name, with its sets.
fn owner_behind<'a>(owners: &'a Owners, name: &SoughtName) -> Option<&'a Owned>
    ensures { option_copied result ≡ pair_after canonical_cmp name.now owners.now.pairs }
{
    owners.after(name)
}

/// The zone that changes make of a zone, one after the other; that zone stays as it is (RFC 2136, 3.4.2). The zones on
/// the way needn't keep the rules of a zone, the last one does.
///
/// `Limit` where it has more than [`MAX_RECORDS`] records. `NoMemory` where a growth was refused.
pub fn edit(alloc: Global, zone: &Zone, changes: &[Change]) -> Result<Zone, ZoneFault>
    requires { KeepsRules (edited zone.now changes.now) }
    ensures edited { IfOk result (λ new. (new ≡ edited zone.now changes.now) × IsZone new) }
    ensures limit { IsErrOf result ZoneFault.Limit → max_records < length (edited zone.now changes.now) }
{
    let draft = Draft {
        owners: zone.owners.share()?,
        count: zone.count,
    };
    let Draft { owners, count } = with_changes(alloc, draft, changes)?;
    check_limit(count)?;
    Ok(zone_of(owners, count))
}

/// The zone that has these sets for those of some owners, one owner after the other, which makes so many records; that zone
/// stays as it is, and no set is copied. The zones on the way needn't keep the rules of a zone, the last one does.
///
/// `Limit` where it has more than [`MAX_RECORDS`] records. `NoMemory` where a growth was refused.
pub fn edit_owners(
    alloc: Global,
    zone: &Zone,
    owned: Vec<(StoredName, Vec<RRset>)>,
    count: usize,
) -> Result<Zone, ZoneFault>
    requires each { AllByRecursion (λ own. AreOwn own.0 own.1.items) owned.items }
    requires rules { KeepsRules (with_owners zone.now owned.items) }
    requires counted { count ≡ length (with_owners zone.now owned.items) }
    ensures edited { IfOk result (λ new. (new ≡ with_owners zone.now owned.items) × IsZone new) }
    ensures limit { IsErrOf result ZoneFault.Limit → max_records < count }
{
    let owners = with_owned(alloc, zone.owners.share()?, owned)?;
    check_limit(count)?;
    Ok(zone_of(owners, count))
}

/// The zone of these owners with their sets, which are so many records. The apex is the first owner (RFC 4034, 6.1).
fn zone_of(owners: Owners, count: usize) -> Zone
    requires filed { AreFiled owners.pairs }
    requires rules { KeepsRules (records_under owners.pairs) }
    requires counted { count ≡ length (records_under owners.pairs) }
    requires few { count ≤ max_records }
    ensures zone { result ≡ records_under owners.pairs }
    ensures lawful { IsZone result }
{
    let Some(first) = owners.first() else {
        unreachable!()
    };
    let apex = first.0.owner();
    Zone {
        apex,
        count,
        owners,
    }
}

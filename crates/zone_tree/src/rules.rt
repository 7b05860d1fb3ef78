//! The rules of a zone that its apex and its owners have to keep.
ghost use Rattle.std.specs.Prelude.{◌≡◌, ◌==◌, ◌&&◌, not, length, IfErr, OnOk};
ghost use Rattle.std.specs.List.{list_any};
ghost use Rattle.dns_name.specs.Name.{is_same, is_under};
ghost use Rattle.dns_rdata.specs.Numbers.{type_NS, type_CNAME};
ghost use Rattle.dns_rdata.specs.Record.{owner_of, rtype_of};
ghost use Rattle.zone_tree.specs.Zone.{apex_of, rrsets_of, is_wild};
ghost use Rattle.zone_tree.specs.Sets.{records_in, AreAscending, KeepsApexRules};
ghost use Rattle.zone_tree.specs.Fault.{IsFirstFault, NoneBefore};

use crate::check::len_of;
use crate::fault::BrokenRule;
use crate::look::sets_at;
use dns_name::{Name, SoughtName, StoredName};
use dns_rdata::{RRset, RType};

/// That every owner is at or below the apex, the apex has an NS, each alias stands alone, and no NS stands at an owner
/// whose first label is `*`.
pub(crate) fn check_rules(sets: &[RRset], apex: &Name) -> Result<(), BrokenRule>
    requires rising { AreAscending sets.now }
    requires apex { apex.now ≡ apex_of (records_in sets.now) }
    requires first { NoneBefore BrokenRule.Outside sets.now }
    ensures kept { OnOk result (KeepsApexRules (records_in sets.now)) }
    ensures fault { IfErr result (λ fault. IsFirstFault fault sets.now) }
{
    if has_outside(sets, apex) {
        return Err(BrokenRule::Outside);
    }
    if !has_name_server(sets, apex) {
        return Err(BrokenRule::NoNameServer);
    }
    if has_crowded_alias(sets) {
        return Err(BrokenRule::AliasNotAlone);
    }
    if has_wild_cut(sets) {
        return Err(BrokenRule::WildCut);
    }
    Ok(())
}

// Whether an owner isn't at or below the apex.
fn has_outside(sets: &[RRset], apex: &Name) -> bool
    ensures { result ≡ list_any (λ set. not (is_under (owner_of set) apex.now)) sets.now }
{
    let sought = SoughtName::new(apex);
    sets.iter().any(|set| !sought.is_above(set.stored_owner()))
}

/// Whether an NS stands at the apex.
pub(crate) fn has_name_server(sets: &[RRset], apex: &Name) -> bool
    ensures { result ≡ list_any (λ set. is_same (owner_of set) apex.now && rtype_of set == type_NS) sets.now }
{
    sets.iter()
        .any(|set| set.rtype() == RType::NS && set.owner() == *apex)
}

// Whether an owner has one record.
fn has_one_record(sets: &[RRset], owner: &StoredName) -> bool
    requires { AreAscending sets.now }
    ensures { result ≡ (length (rrsets_of (records_in sets.now) owner.now) == 1) }
{
    match sets_at(sets, owner) {
        [only] => len_of(only) == 1,
        _ => false,
    }
}

/// Whether an alias stands beside another record (RFC 1034, 3.6.2).
pub(crate) fn has_crowded_alias(sets: &[RRset]) -> bool
    requires { AreAscending sets.now }
    ensures { result ≡ list_any (λ set. rtype_of set == type_CNAME && not (length (rrsets_of (records_in sets.now) (owner_of set)) == 1)) sets.now }
{
    sets.iter().any(|set| set.rtype() == RType::CNAME && !has_one_record(sets, set.stored_owner()))
}

/// Whether the first label is `*`: its length, and then its octet (RFC 4592, 2.1.1).
pub fn has_asterisk(name: &Name) -> bool
    ensures { result ≡ is_wild name.now }
{
    matches!(name.wire(), [1, b'*', ..])
}

/// Whether an NS stands at an owner whose first label is `*`.
pub(crate) fn has_wild_cut(sets: &[RRset]) -> bool
    ensures { result ≡ list_any (λ set. is_wild (owner_of set) && rtype_of set == type_NS) sets.now }
{
    sets.iter().any(|set| set.rtype() == RType::NS && has_asterisk(&set.owner()))
}

//! What is found at a name of a zone (RFC 1034, 4.3.2, step 3; RFC 4592, 3.3).
ghost use Rattle.std.specs.Prelude.{◌≡◌, ◌↔◌, true, ℕ, List, [], IsNone, IfSome};
ghost use Rattle.std.specs.List.{flat_map};
ghost use Rattle.dns_name.specs.Name.{is_under};
ghost use Rattle.dns_rdata.specs.Record.{Record};
ghost use Rattle.zone_tree.specs.Zone.{IsZone, apex_of, soa_of};
ghost use Rattle.lookup_core.specs.Look.{look, found_at, data_at, follows_aliases};
ghost use Rattle.lookup_core.specs.Shown.{AreAllAt, HasItsServers, IsMatched, look_shown};

use crate::matched::Matched;
use crate::sets::set_of;
use crate::walk::{match_below, match_down};
use dns_name::Name;
use dns_rdata::{RRset, RType};
use std::slice;
use zone_tree::ZoneRead;

/// What is found at a name, under that name.
#[derive(Drop)]
pub(crate) enum Look<'z> {
    /// A zone cut at or above the name: its NS set.
    Cut(&'z RRset),
    /// An alias, for a type that follows aliases.
    Alias(&'z RRset),
    /// Data of the type asked: at least one set.
    Data(&'z [RRset]),
    /// The name, or the source of synthesis in its place, exists without data of the type asked.
    NoData,
    /// Neither the name nor the source of synthesis exists.
    NoName,
}

/// What is found at a name: what the records there say, else those at the source of synthesis (RFC 1034, 4.3.2, step 3;
/// RFC 4592, 3.3).
pub(crate) fn look_up<'z, Z: ZoneRead>(zone: &'z Z, name: &Name, rtype: RType) -> Look<'z>
    ensures look { look_shown name.now result ≡ look (Z.records zone.now) name.now rtype.0 }
    ensures servers { HasItsServers (Z.records zone.now) name.now result }
{
    let matched = match_down(zone, name);
    found_where(matched, rtype)
}

/// The same at a name at or below the apex, at which this SOA stands.
pub(crate) fn look_below<'z, Z: ZoneRead>(
    zone: &'z Z,
    soa: &RRset,
    name: &Name,
    rtype: RType,
) -> Look<'z>
    requires soa { soa.now ≡ soa_of (Z.records zone.now) }
    requires lawful { IsZone (Z.records zone.now) }
    requires under { is_under name.now (apex_of (Z.records zone.now)) ≡ true }
    ensures look { look_shown name.now result ≡ look (Z.records zone.now) name.now rtype.0 }
    ensures servers { HasItsServers (Z.records zone.now) name.now result }
{
    let matched = match_below(zone, soa, name);
    found_where(matched, rtype)
}

/// What is found at a name that stands so.
fn found_where<'z>(matched: Matched<'z>, rtype: RType) -> Look<'z>
    ensures look { (zone : List Record) (name : List (List ℕ)) → IsMatched zone name matched.entry → look_shown name result ≡ look zone name rtype.0 }
    ensures servers { (zone : List Record) (name : List (List ℕ)) → IsMatched zone name matched.entry → HasItsServers zone name result }
{
    match matched {
        Matched::Cut(servers) => Look::Cut(servers),
        Matched::Exact(sets) => found_in(sets, rtype),
        Matched::Wild(sets) => found_in(sets, rtype),
        Matched::Missing => Look::NoName,
    }
}

/// What all sets at a name say of a type, under any name searched (RFC 1034, 4.3.2, step 3a).
fn found_in<'z>(sets: &'z [RRset], rtype: RType) -> Look<'z>
    ensures { (zone : List Record) (at name : List (List ℕ)) → AreAllAt zone at sets.now
        → look_shown name result ≡ found_at zone at name rtype.0 }
{
    // The alias before the type asked: an alias stands alone at its owner.
    if follows_aliases(rtype)
        && let Some(alias) = set_of(sets, RType::CNAME)
    {
        return Look::Alias(alias);
    }
    match data_in(sets, rtype) {
        Some(sets) => Look::Data(sets),
        None => Look::NoData,
    }
}

/// Of all sets at a name those of the type asked, all of them for ANY (RFC 1035, 3.2.3); None where there is none.
fn data_in<'z>(sets: &'z [RRset], rtype: RType) -> Option<&'z [RRset]>
    ensures none { (zone : List Record) (at : List (List ℕ)) → AreAllAt zone at sets.now
        → IsNone result ↔ (data_at zone at rtype.0 ≡ []) }
    ensures sets { (zone : List Record) (at : List (List ℕ)) → AreAllAt zone at sets.now
        → IfSome result (λ found. flat_map (λ set. set) found.now ≡ data_at zone at rtype.0) }
{
    if rtype != RType::ANY {
        return Some(slice::from_ref(set_of(sets, rtype)?));
    }
    let first = sets.first()?;
    prove!(!first.data().is_empty());
    Some(sets)
}

/// Whether a type is answered by an alias in place of itself: neither CNAME nor ANY (RFC 1034, 3.6.2).
fn follows_aliases(rtype: RType) -> bool
    ensures { result ≡ follows_aliases rtype.0 }
{
    rtype != RType::CNAME && rtype != RType::ANY
}

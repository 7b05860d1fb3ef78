//! Aliases followed, and where a chain of them ends (RFC 1034, 3.6.2 and 4.3.2, step 3a).
ghost use Rattle.std.specs.Prelude.{◌≡◌, ◌≤◌, ◌==◌, ◌↔◌, ◌-◌, List, [], ◌∷◌, length, map, bytes_eq, IsTrue};
ghost use Rattle.std.specs.Cmp.Lexicographic.{pointwise};
ghost use Rattle.std.specs.List.{flat_map, list_any};
ghost use Rattle.dns_name.specs.Name.{fold_name, is_same};
ghost use Rattle.dns_rdata.specs.Numbers.{type_CNAME};
ghost use Rattle.dns_rdata.specs.Record.{Record, rtype_of};
ghost use Rattle.dns_rdata.specs.Shown.{records_shown};
ghost use Rattle.lookup_core.specs.Place.{is_none_of};
ghost use Rattle.lookup_core.specs.Look.{look, owned_by};
ghost use Rattle.lookup_core.specs.Chain.{target, is_final, chain, end_at};
ghost use Rattle.lookup_core.specs.declared.aliases.TheConstants.{MOST_ALIASES};
ghost use Rattle.lookup_core.specs.Shown.{section_shown, searched_before, end_shown, chain_shown, look_shown, AreServersOfEnd, HasItsServers, IsOnTheWay};

use crate::look::{Look, look_below};
use arrayvec::ArrayVec;
use dns_name::Name;
use dns_rdata::{LentName, RRset, RType, Shown};
use std::slice;
use zone_tree::ZoneRead;

/// The most aliases that one answer follows (own).
pub const MOST_ALIASES: usize = 16;

/// The most entries of an answer section: each alias, and what is found at their end.
pub const MOST_SHOWN: usize = MOST_ALIASES + 1;

/// The end of a chain of aliases.
#[derive(Drop)]
pub(crate) enum End<'z> {
    /// A referral: this is the last name looked up, and the NS set of the zone cut that it is at or below.
    Cut(LentName<'z>, &'z RRset),
    /// Data of the type asked.
    Data(Shown<'z>),
    /// The last name exists, without data of the type asked.
    NoData,
    /// The last name doesn't exist.
    NoName,
    /// The last alias's target isn't searched.
    Stop,
}

/// The chain from the name asked, at which this was found: its aliases in order, put into the room lent, and its end. It stops at a target
/// outside the zone, at one already searched, or after [`MOST_ALIASES`] aliases (own).
pub(crate) fn follow<'z, Z: ZoneRead>(
    zone: &'z Z,
    name: &'z Name,
    rtype: RType,
    first: Look<'z>,
    aliases: &mut ArrayVec<Shown<'z>, MOST_SHOWN>,
) -> End<'z>
    requires empty { aliases.old.items ≡ [] }
    requires seen { look_shown name.now first ≡ look (Z.records zone.now) name.now rtype.0 }
    requires servers { HasItsServers (Z.records zone.now) name.now first }
    ensures chain { chain_shown aliases.new.items result ≡ chain (Z.records zone.now) name.now rtype.0 }
    ensures few { length aliases.new.items ≤ MOST_ALIASES }
    ensures some { is_none_of (section_shown aliases.new.items) ≡ (length aliases.new.items == 0) }
    ensures servers { AreServersOfEnd (Z.records zone.now) result }
{
    let asked = LentName::spelt(name);
    let Look::Alias(alias) = first else {
        return end_of(asked, first);
    };
    let target = target(alias);
    aliases.push(under(asked, slice::from_ref(alias)));
    let next = target.to_name();
    if is_final(zone, aliases.as_slice(), &next) {
        return End::Stop;
    }
    let found = look_below(zone, zone.soa(), &next, rtype);
    match found {
        Look::Alias(_) => follow_on(zone, name, rtype, target, found, aliases),
        _ => end_of(target, found),
    }
}

/// The same after the first alias: from its target on, at which this was found. The names searched are kept in lower case, so that each is
/// folded once, and those that are the same have the same octets (RFC 4343, 3). It is a function of its own, since most chains end before.
#[inline(never)]
fn follow_on<'z, Z: ZoneRead>(
    zone: &'z Z,
    name: &Name,
    rtype: RType,
    first: LentName<'z>,
    found: Look<'z>,
    aliases: &mut ArrayVec<Shown<'z>, MOST_SHOWN>,
) -> End<'z>
    requires way { IsOnTheWay (Z.records zone.now) name.now rtype.0 aliases.old.items (MOST_ALIASES - 1) first }
    requires one { map (λ alias. alias.owner) aliases.old.items ≡ name.now ∷ [] }
    requires seen { look_shown first found ≡ look (Z.records zone.now) first rtype.0 }
    requires servers { HasItsServers (Z.records zone.now) first found }
    ensures chain { chain_shown aliases.new.items result ≡ chain (Z.records zone.now) name.now rtype.0 }
    ensures few { length aliases.new.items ≤ MOST_ALIASES }
    ensures some { is_none_of (section_shown aliases.new.items) ≡ (length aliases.new.items == 0) }
    ensures servers { AreServersOfEnd (Z.records zone.now) result }
{
    let mut names: ArrayVec<Name, MOST_ALIASES> = ArrayVec::new();
    names.push(name.fold());
    let mut folded = first.to_name().fold();
    let mut searched = first;
    let mut found = found;
    for _ in 1..MOST_ALIASES {
        let Look::Alias(alias) = found else {
            return end_of(searched, found);
        };
        let target = target(alias);
        aliases.push(under(searched, slice::from_ref(alias)));
        names.push(folded);
        let next = target.to_name();
        folded = next.fold();
        if is_final_among(zone, names.as_slice(), &next, &folded) {
            return End::Stop;
        }
        found = look_below(zone, zone.soa(), &next, rtype);
        searched = target;
    }
    End::Stop
}

/// The end of a chain that goes no further than a name, at which this was found: a stop at an alias.
fn end_of<'z>(name: LentName<'z>, found: Look<'z>) -> End<'z>
    ensures end { end_shown result ≡ end_at (look_shown name.entry found.entry) }
    ensures servers { (zone : List Record) → HasItsServers zone name.entry found.entry → AreServersOfEnd zone result }
{
    match found {
        Look::Cut(servers) => End::Cut(name, servers),
        Look::Alias(_) => End::Stop,
        Look::Data(sets) => End::Data(under(name, sets)),
        Look::NoData => End::NoData,
        Look::NoName => End::NoName,
    }
}

/// Sets under the name searched, with their own TTLs (RFC 4592, 3.3).
pub(crate) fn under<'z>(name: LentName<'z>, sets: &'z [RRset]) -> Shown<'z>
    ensures owner { result.owner ≡ name.entry }
    ensures records { records_shown result ≡ owned_by name.entry (flat_map (λ set. set) sets.now) }
{
    Shown {
        owner: name,
        ttl: None,
        sets,
    }
}

/// The name that an alias stands for (RFC 1035, 3.3.1).
fn target(alias: &RRset) -> LentName<'_>
    requires { rtype_of alias.now ≡ type_CNAME }
    ensures { result ≡ target alias.now }
{
    LentName::target(&alias.data()[0])
}

/// Whether a target isn't searched: it is outside the zone, or already searched (own).
fn is_final<Z: ZoneRead>(zone: &Z, aliases: &[Shown<'_>], target: &Name) -> bool
    ensures { result ≡ is_final (Z.records zone.now) (searched_before aliases.now) target.now }
{
    !target.is_under(zone.apex()) || is_searched(aliases, target)
}

/// Whether one of the aliases was found at a name.
fn is_searched(aliases: &[Shown<'_>], name: &Name) -> bool
    ensures { result ≡ list_any (λ before. is_same before name.now) (searched_before aliases.now) }
{
    for alias in aliases {
        if alias.owner.is_same(name) {
            return true;
        }
    }
    false
}

/// Whether a target isn't searched, by names in lower case: those at which aliases were found, and its own (RFC 4343, 3).
fn is_final_among<Z: ZoneRead>(zone: &Z, names: &[Name], target: &Name, folded: &Name) -> bool
    requires { folded.now ≡ fold_name target.now }
    ensures { (aliases : List Shown) → names.now ≡ map (λ alias. fold_name alias.owner) aliases
        → result ≡ is_final (Z.records zone.now) (searched_before aliases) target.now }
{
    !target.is_under(zone.apex()) || is_among(names, folded)
}

/// Whether one of other names is spelt as a name is.
fn is_among(names: &[Name], name: &Name) -> bool
    ensures { result ≡ list_any (λ other. pointwise bytes_eq other name.now) names.now }
{
    for other in names {
        if is_spelt_as(other, name) {
            return true;
        }
    }
    false
}

/// Whether two names are spelt the same: then they have the same octets (RFC 1035, 3.1).
fn is_spelt_as(name: &Name, other: &Name) -> bool
    ensures { result ≡ pointwise bytes_eq name.now other.now }
{
    are_same(name.wire(), other.wire())
}

/// Whether octets are the same: eight of them are compared at a time, as numbers.
fn are_same(octets: &[u8], others: &[u8]) -> bool
    ensures { IsTrue result ↔ (octets.now ≡ others.now) }
{
    if octets.len() != others.len() {
        return false;
    }
    let mut rest = octets;
    let mut there = others;
    while let (Some((eight, behind)), Some((same, after))) = (
        rest.split_first_chunk::<8>(),
        there.split_first_chunk::<8>(),
    ) {
        if !are_eight_same(eight, same) {
            return false;
        }
        rest = behind;
        there = after;
    }
    rest == there
}

/// Whether eight octets are the same, as numbers.
#[inline(always)]
fn are_eight_same(octets: &[u8; 8], others: &[u8; 8]) -> bool
    ensures { IsTrue result ↔ (octets.now ≡ others.now) }
{
    u64::from_be_bytes(*octets) == u64::from_be_bytes(*others)
}

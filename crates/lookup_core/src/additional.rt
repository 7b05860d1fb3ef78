//! The additional section: the addresses of the names in an answer's data (RFC 1034, 4.3.2, step 6).
ghost use Rattle.std.specs.Prelude.{◌≡◌, ◌==◌, List, [], ◌∷◌, length, filter, option_to_list};
ghost use Rattle.std.specs.List.{flat_map, list_any};
ghost use Rattle.dns_name.specs.Name.{Name};
ghost use Rattle.dns_rdata.specs.Record.{Record, owner_of, rtype_of};
ghost use Rattle.dns_rdata.specs.Shown.{records_shown};
ghost use Rattle.zone_tree.specs.Zone.{is_of, rrset_of};
ghost use Rattle.lookup_core.specs.Additional.{has_hosts, hosts_in, hosts_of, is_same_set, is_wanted, wanted_sets, additional_of};
ghost use Rattle.lookup_core.specs.Shown.{AreAllAt, section_shown, with_more};

use crate::sections::unchanged_set;
use crate::sets::set_of;
use arrayvec::ArrayVec;
use dns_name::Name;
use dns_rdata::{Layout, RData, RRset, RType, Shown};
use std::marker::Model;
use zone_tree::ZoneRead;

/// The most sets of an additional section (own).
pub const MOST_ADDITIONAL: usize = 32;

/// The sets gathered for an additional section, each once.
#[derive(Drop)]
pub(crate) struct Additional<'z> {
    shown: ArrayVec<Shown<'z>, MOST_ADDITIONAL>,
}

impl<'z> Model for Additional<'z> {
    ghost use Rattle.std.specs.Prelude.{List, All};
    ghost use Rattle.std.specs.List.{flat_map};
    ghost use Rattle.dns_rdata.specs.Record.{Record};
    ghost use Rattle.lookup_core.specs.Shown.{IsStanding};

    ghost Value = { List (List Record) };

    ghost view = { λ a. flat_map (λ shown. shown.sets.now) a.shown.items };

    ghost invariant = { λ a. All IsStanding a.shown.items };
}

impl<'z> Additional<'z> {
    /// No sets.
    fn new() -> Additional<'z>
        ensures { result ≡ [] }
    {
        Additional {
            shown: ArrayVec::new(),
        }
    }

    /// Whether there is room for no more.
    fn is_full(&self) -> bool
        ensures { result ≡ (length self.now == MOST_ADDITIONAL) }
    {
        self.shown.is_full()
    }

    /// Whether a set of this owner and type is among them.
    fn has(&self, set: &RRset) -> bool
        ensures { result ≡ list_any (is_same_set set.now) self.now }
    {
        for shown in self.shown.as_slice() {
            if holds(shown.sets, set) {
                return true;
            }
        }
        false
    }

    /// One more set, where it isn't among them and there is room for it.
    fn add(&mut self, set: &'z RRset)
        ensures { self.new ≡ with_more self.old (set.now ∷ []) }
    {
        if !self.shown.is_full() && !self.has(set) {
            self.shown.push(unchanged_set(set));
        }
    }

    /// The section that shows them.
    fn into_section(self) -> ArrayVec<Shown<'z>, MOST_ADDITIONAL>
        ensures { section_shown result.items ≡ flat_map (λ set. set) self.entry }
    {
        self.shown
    }
}

/// Whether one of the sets has the owner and type of another.
fn holds(sets: &[RRset], set: &RRset) -> bool
    ensures { result ≡ list_any (is_same_set set.now) sets.now }
{
    for other in sets {
        if is_same_set(set, other) {
            return true;
        }
    }
    false
}

/// Whether two sets have one owner and one type (RFC 2181, 5).
fn is_same_set(set: &RRset, other: &RRset) -> bool
    ensures { result ≡ is_same_set set.now other.now }
{
    set.stored_owner() == other.stored_owner() && set.rtype() == other.rtype()
}

/// The additional section of an answer: the address sets at the names in its data and then in the authority's, each
/// once, none that stands in the answer, at most [`MOST_ADDITIONAL`] (RFC 1034, 4.3.2, step 6; RFC 1035, 3.3.9 and
/// 3.3.11; own).
pub fn additional_of<'z, Z: ZoneRead>(
    zone: &'z Z,
    answer: &[Shown<'z>],
    authority: &[Shown<'z>],
) -> ArrayVec<Shown<'z>, MOST_ADDITIONAL>
    ensures { section_shown result.items
        ≡ additional_of (Z.records zone.now) (section_shown answer.now) (section_shown authority.now) }
{
    let mut additional = Additional::new();
    add_section(zone, answer, answer, &mut additional);
    add_section(zone, answer, authority, &mut additional);
    additional.into_section()
}

/// Whether a section shows records of a type whose data name hosts: where it doesn't, no address comes along for it.
pub fn may_name_hosts(section: &[Shown<'_>]) -> bool
    ensures { result ≡ list_any (λ r. has_hosts r.rtype) (section_shown section.now) }
{
    for shown in section {
        if may_show_hosts(shown) {
            return true;
        }
    }
    false
}

/// Whether sets of a type whose data name hosts are shown.
#[tactic(auto, using(crate::proofs::HostLemmas::any_shown))]
fn may_show_hosts(shown: &Shown<'_>) -> bool
    ensures { result ≡ list_any (λ r. has_hosts r.rtype) (records_shown shown.now) }
{
    has_type(shown.sets, RType::NS)
        || has_type(shown.sets, RType::MX)
        || has_type(shown.sets, RType::SRV)
}

/// Adds the address sets for the names in a section's data.
fn add_section<'z, Z: ZoneRead>(
    zone: &'z Z,
    answer: &[Shown<'z>],
    section: &[Shown<'z>],
    additional: &mut Additional<'z>,
)
    ensures { additional.new ≡ with_more additional.old
        (wanted_sets (Z.records zone.now) (section_shown answer.now) (hosts_of (section_shown section.now))) }
{
    for shown in section {
        add_sets(zone, answer, shown.sets, additional);
    }
}

/// Adds the address sets for the names in the data of sets.
fn add_sets<'z, Z: ZoneRead>(
    zone: &'z Z,
    answer: &[Shown<'z>],
    sets: &[RRset],
    additional: &mut Additional<'z>,
)
    ensures { additional.new ≡ with_more additional.old
        (wanted_sets (Z.records zone.now) (section_shown answer.now) (hosts_of (flat_map (λ set. set) sets.now))) }
{
    for set in sets {
        add_data(zone, answer, set.data(), additional);
    }
}

/// Adds the address sets for the names in data.
fn add_data<'z, Z: ZoneRead>(
    zone: &'z Z,
    answer: &[Shown<'z>],
    all: &[RData],
    additional: &mut Additional<'z>,
)
    ensures { additional.new ≡ with_more additional.old
        (wanted_sets (Z.records zone.now) (section_shown answer.now) (flat_map (λ d. hosts_in d.rtype d.octets) all.now)) }
{
    for rdata in all {
        if let Some(host) = host_in(rdata) {
            add_addresses(zone, answer, &host, additional);
        }
    }
}

/// Adds the address sets of a name: A, then AAAA (RFC 1035, 3.4.1; RFC 3596, 2.1 and 3). Where there is no room for
/// them, they aren't looked up.
fn add_addresses<'z, Z: ZoneRead>(
    zone: &'z Z,
    answer: &[Shown<'z>],
    host: &Name,
    additional: &mut Additional<'z>,
)
    ensures { additional.new ≡ with_more additional.old
        (wanted_sets (Z.records zone.now) (section_shown answer.now) (host.now ∷ [])) }
{
    if additional.is_full() {
        return;
    }
    let sets = zone.rrsets_at(host);
    add_set(answer, sets, RType::A, additional);
    add_set(answer, sets, RType::AAAA, additional);
}

/// The name in data whose addresses come along: that of NS, MX and SRV (RFC 1035, 3.3.9 and 3.3.11; RFC 2782).
#[tactic(auto, unfolding(dns_rdata::specs::Layout::layout_of))]
fn host_in(rdata: &RData) -> Option<Name>
    ensures { option_to_list result ≡ hosts_in rdata.now.rtype rdata.now.octets }
{
    let rtype = rdata.rtype();
    if !has_hosts(rtype) {
        return None;
    }
    let Layout::Fields { front, .. } = rtype.layout()? else {
        return None;
    };
    let (name, _) = Name::from_wire(rdata.octets().get(front..)?)?;
    Some(name)
}

/// Whether the addresses of names in data of a type come along: NS, MX and SRV, which have one name (RFC 1035, 3.3.9 and
/// 3.3.11; RFC 2782).
pub(crate) fn has_hosts(rtype: RType) -> bool
    ensures { result ≡ has_hosts rtype.0 }
{
    rtype == RType::NS || rtype == RType::MX || rtype == RType::SRV
}

/// Adds the set of a type among all sets at a name, unless it stands in the answer.
fn add_set<'z>(
    answer: &[Shown<'z>],
    sets: &'z [RRset],
    rtype: RType,
    additional: &mut Additional<'z>,
)
    ensures { (zone : List Record) (host : Name) → AreAllAt zone host sets.now → additional.new ≡ with_more additional.old
        (filter (is_wanted (section_shown answer.now)) (rrset_of zone host rtype.0 ∷ [])) }
{
    if let Some(set) = set_of(sets, rtype)
        && !is_answered(answer, set)
    {
        additional.add(set);
    }
}

/// Whether records of a set's owner and type stand in the answer.
fn is_answered(answer: &[Shown<'_>], set: &RRset) -> bool
    ensures { result ≡ list_any (is_of (owner_of set.now) (rtype_of set.now)) (section_shown answer.now) }
{
    for shown in answer {
        if shows(shown, set) {
            return true;
        }
    }
    false
}

/// Whether sets are shown under a set's owner, and one of them has its type.
fn shows(shown: &Shown<'_>, set: &RRset) -> bool
    ensures { result ≡ list_any (is_of (owner_of set.now) (rtype_of set.now)) (records_shown shown.now) }
{
    has_type(shown.sets, set.rtype()) && shown.owner.to_name() == set.owner()
}

/// Whether the sets have records of a type.
fn has_type(sets: &[RRset], rtype: RType) -> bool
    ensures { result ≡ list_any (λ r. r.rtype == rtype.0) (flat_map (λ set. set) sets.now) }
{
    for set in sets {
        if is_of_type(set, rtype) {
            return true;
        }
    }
    false
}

/// Whether a set is of a type.
fn is_of_type(set: &RRset, rtype: RType) -> bool
    ensures { result ≡ list_any (λ r. r.rtype == rtype.0) set.now }
{
    prove!(!set.data().is_empty());
    set.rtype() == rtype
}

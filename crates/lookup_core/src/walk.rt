//! From a name up to the closest that exists, and on to the apex (RFC 1034, 4.3.2, step 3; RFC 4592, 3.3.1).
//!
//! The zone is searched once for the name, which tells as well which of its ancestors is the closest that exists. Zone cuts
//! are sought from that one on, by a search for each name that is left below the apex; and where the name doesn't exist, the
//! source of synthesis is searched. What is at the apex or above it is known, since the records are a zone.
ghost use Rattle.std.specs.Prelude.{◌≡◌, ◌≤◌, false, true, ◌∷◌, length, IsNone, IfSome};
ghost use Rattle.std.specs.Option.{option_copied, option_map};
ghost use Rattle.dns_name.specs.Name.{asterisk, fold_name, is_under, wire_of};
ghost use Rattle.dns_rdata.specs.Numbers.{type_NS};
ghost use Rattle.zone_tree.specs.Zone.{IsZone, apex_of, exists, rrset_of, soa_of};
ghost use Rattle.lookup_core.specs.Place.{cut_of};
ghost use Rattle.lookup_core.specs.Shown.{AreAllAt, AreAllAtSource, IsMatched};

use crate::matched::Matched;
use crate::sets::set_of;
use arrayvec::ArrayVec;
use dns_name::{MAX_BELOW_ASTERISK, MAX_NAME, Name, Sought, SoughtRoom};
use dns_rdata::{RRset, RType};
use zone_tree::{Near, ZoneRead};

/// Where a name stands on the way down from the apex (RFC 1034, 4.3.2, step 3).
pub(crate) fn match_down<'z, Z: ZoneRead>(zone: &'z Z, name: &Name) -> Matched<'z>
    ensures { IsMatched (Z.records zone.now) name.now result }
{
    let top = Sought::stored(zone.soa().stored_owner());
    let mut room: SoughtRoom = ArrayVec::new();
    let sought = Sought::new(name, &mut room);
    match_sought(zone, &top, name, &sought)
}

/// The same of a name at or below the apex, at which this SOA stands: only the labels before the apex are put in the form in
/// which names are sought.
pub(crate) fn match_below<'z, Z: ZoneRead>(zone: &'z Z, soa: &RRset, name: &Name) -> Matched<'z>
    requires soa { soa.now ≡ soa_of (Z.records zone.now) }
    requires lawful { IsZone (Z.records zone.now) }
    requires under { is_under name.now (apex_of (Z.records zone.now)) ≡ true }
    ensures { IsMatched (Z.records zone.now) name.now result }
{
    let top = Sought::stored(soa.stored_owner());
    let mut room: SoughtRoom = ArrayVec::new();
    let sought = Sought::below(&top, zone.apex(), name, &mut room);
    match_sought(zone, &top, name, &sought)
}

/// The same of a name that is put in the form in which names are sought.
fn match_sought<'z, Z: ZoneRead>(
    zone: &'z Z,
    top: &Sought<'_>,
    name: &Name,
    sought: &Sought<'_>,
) -> Matched<'z>
    requires lawful { IsZone (Z.records zone.now) }
    requires top { top.now ≡ apex_of (Z.records zone.now) }
    requires sought { sought.now ≡ fold_name name.now }
    ensures { IsMatched (Z.records zone.now) name.now result }
{
    prove!(name.wire().len() <= MAX_NAME);
    let near = zone.around(sought);
    let there = sought.is_level(&near.closest);
    let own = own_sets(&near, there);
    if let Some(servers) = cut_of(zone, top, &near.closest, own) {
        return Matched::Cut(servers);
    }
    if there {
        return Matched::Exact(near.sets);
    }
    match source_sets(zone, &near.closest) {
        Some(sets) => Matched::Wild(sets),
        None => Matched::Missing,
    }
}

/// All sets of the closest of a name and its ancestors that exist, where it is the name itself.
fn own_sets<'z>(near: &Near<'z, '_>, there: bool) -> Option<&'z [RRset]>
    ensures { IfSome result (λ sets. (there ≡ true) × (sets.now ≡ near.now.sets.now)) }
{
    if there { Some(near.sets) } else { None }
}

/// The NS set of the first zone cut on the way down from the apex to a name, whose own sets may be known (RFC 1034, 4.3.2,
/// step 3b).
fn cut_of<'z, Z: ZoneRead>(
    zone: &'z Z,
    top: &Sought<'_>,
    name: &Sought<'_>,
    own: Option<&'z [RRset]>,
) -> Option<&'z RRset>
    requires lawful { IsZone (Z.records zone.now) }
    requires top { top.now ≡ apex_of (Z.records zone.now) }
    requires own { IfSome own (λ sets. AreAllAt (Z.records zone.now) name.now sets.now) }
    ensures { option_copied result ≡ option_map (λ cut. rrset_of (Z.records zone.now) cut type_NS) (cut_of (Z.records zone.now) name.now) }
{
    // The apex is no zone cut, and no name above it owns a record.
    if name.is_above(top) {
        return None;
    }
    let above = name.parent()?;
    if let Some(servers) = cut_of(zone, top, &above, None) {
        return Some(servers);
    }
    set_of(known_sets(zone, name, own), RType::NS)
}

/// All sets at a name, which may be known.
fn known_sets<'z, Z: ZoneRead>(
    zone: &'z Z,
    name: &Sought<'_>,
    own: Option<&'z [RRset]>,
) -> &'z [RRset]
    requires { IfSome own (λ sets. AreAllAt (Z.records zone.now) name.now sets.now) }
    ensures { AreAllAt (Z.records zone.now) name.now result.now }
{
    match own {
        Some(sets) => sets,
        None => zone.sets_at(name),
    }
}

/// All sets at the source of synthesis, `*` before the closest encloser; None where it doesn't exist (RFC 4592, 3.3.1).
fn source_sets<'z, Z: ZoneRead>(zone: &'z Z, encloser: &Sought<'_>) -> Option<&'z [RRset]>
    requires { length (wire_of encloser.now) ≤ MAX_BELOW_ASTERISK }
    ensures none { IsNone result → exists (Z.records zone.now) (asterisk ∷ encloser.now) ≡ false }
    ensures some { IfSome result (λ sets. AreAllAtSource (Z.records zone.now) (asterisk ∷ encloser.now) sets.now) }
{
    let mut room: SoughtRoom = ArrayVec::new();
    let source = encloser.with_asterisk(&mut room);
    let near = zone.around(&source);
    if source.is_level(&near.closest) {
        Some(near.sets)
    } else {
        None
    }
}

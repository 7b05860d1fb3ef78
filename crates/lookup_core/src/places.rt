//! Where a name stands, by names as they are spelt (RFC 1034, 4.3.2, steps 2 and 3; RFC 4592, 2.2.3 and 3.3.1).
//!
//! The zone is searched once for each name between the apex and the name, and once more for that name: what is at the
//! apex or above it is known, since the records are a zone. An answer finds the same by fewer searches.
ghost use Rattle.std.specs.Prelude.{◌≡◌, ◌≤◌, length, IfSome};
ghost use Rattle.dns_name.specs.Name.{wire_of};
ghost use Rattle.zone_tree.specs.Zone.{IsZone, apex_of, exists};
ghost use Rattle.lookup_core.specs.Place.{place, cut_of, closest_encloser, source_of};

use crate::matched::Place;
use dns_name::{MAX_BELOW_ASTERISK, MAX_NAME, Name};
use dns_rdata::RType;
use zone_tree::ZoneRead;

/// Where a name stands in a zone (RFC 1034, 4.3.2, steps 2 and 3). No memory is taken.
pub fn place<Z: ZoneRead>(zone: &Z, name: &Name) -> Place
    ensures { result ≡ place (Z.records zone.now) name.now }
{
    if !name.is_under(zone.apex()) {
        return Place::Outside;
    }
    if let Some(cut) = cut_of(zone, name) {
        return Place::Cut(cut);
    }
    if zone.exists(name) {
        return Place::Exact;
    }
    match source_of(zone, name) {
        Some(source) if zone.exists(&source) => Place::Wild(source),
        _ => Place::Missing,
    }
}

/// The first zone cut on the way down from the apex to the name (RFC 1034, 4.3.2, step 3b).
fn cut_of<Z: ZoneRead>(zone: &Z, name: &Name) -> Option<Name>
    ensures { result ≡ cut_of (Z.records zone.now) name.now }
{
    // The apex is no zone cut, and no name above it owns a record.
    if apex(zone).is_under(name) {
        return None;
    }
    let above = name.parent()?;
    if let Some(cut) = cut_of(zone, &above) {
        return Some(cut);
    }
    if zone.rrset(name, RType::NS).is_some() {
        return Some(name.copy());
    }
    None
}

/// The source of synthesis: `*` before the closest encloser (RFC 4592, 3.3.1).
fn source_of<Z: ZoneRead>(zone: &Z, name: &Name) -> Option<Name>
    ensures { result ≡ source_of (Z.records zone.now) name.now }
{
    closest_encloser(zone, name)?.with_asterisk()
}

/// Of the name's ancestors that exist, the one with most labels (RFC 4592, 3.3.1). `*` fits before it, since the
/// name has a label more.
fn closest_encloser<Z: ZoneRead>(zone: &Z, name: &Name) -> Option<Name>
    ensures is { result ≡ closest_encloser (Z.records zone.now) name.now }
    ensures has_room { IfSome result (λ encloser. length (wire_of encloser) ≤ MAX_BELOW_ASTERISK) }
{
    prove!(name.wire().len() <= MAX_NAME);
    let mut at = name.parent();
    while let Some(ancestor) = at {
        if exists(zone, &ancestor) {
            return Some(ancestor);
        }
        at = ancestor.parent();
    }
    None
}

/// Whether a name exists: the apex and the names above it do, since the SOA stands at the apex (RFC 4592, 2.2.3).
fn exists<Z: ZoneRead>(zone: &Z, name: &Name) -> bool
    ensures { result ≡ exists (Z.records zone.now) name.now }
{
    apex(zone).is_under(name) || zone.exists(name)
}

/// The apex of the zone that the records are.
fn apex<Z: ZoneRead>(zone: &Z) -> &Name
    ensures name { result.now ≡ apex_of (Z.records zone.now) }
    ensures lawful { IsZone (Z.records zone.now) }
{
    let _soa = zone.soa();
    zone.apex()
}

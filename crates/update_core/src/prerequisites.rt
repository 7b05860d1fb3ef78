//! What is asked of an update before its peer's permission (RFC 2136, 3.1 and 3.2).
ghost use Rattle.std.specs.Prelude.{◌≡◌, ◌&&◌, ◌||◌, not, bytes_eq, if◌then◌else◌, None, Some};
ghost use Rattle.std.specs.Result.{result_err};
ghost use Rattle.std.specs.List.{list_any, list_all};
ghost use Rattle.dns_rdata.specs.declared.numbers.Rcode.TheVariants.{NXRRSet};
ghost use Rattle.update_core.specs.Verdict.{check, zone_section, prerequisite, first_code, is_in_use, has_rrset, is_gathered, is_met, are_met};

use crate::ordered::{MOST, are_met_in_order};
use dns_message::{Update, ZoneEntry};
use dns_name::Name;
use dns_rdata::{Class, RData, RType, RawRecord, Rcode};
use zone_tree::ZoneRead;

/// As many prerequisites are compared one by one: to put so few in order would cost more.
const FEW: usize = 8;

/// Whether the zone section and the prerequisites let an update through; else the code of the first rule that doesn't
/// (RFC 2136, 3.1 and 3.2). It takes no memory.
///
/// The time grows as the number of prerequisites, but for sorting those of class IN.
pub fn check<Z: ZoneRead>(zone: &Z, update: &Update) -> Result<(), Rcode>
    ensures { result_err result ≡ check (Z.records zone.now) update.now }
{
    check_zone_section(zone, &update.zone)?;
    let raws = update.prerequisites.as_slice();
    check_each(zone, raws)?;
    check_sets(zone, raws)
}

/// That the zone section is of type SOA, and names the zone (RFC 2136, 3.1.1 and 3.1.2).
fn check_zone_section<Z: ZoneRead>(zone: &Z, entry: &ZoneEntry) -> Result<(), Rcode>
    ensures { result_err result ≡ zone_section (Z.records zone.now) entry.now }
{
    if entry.rtype != RType::SOA {
        return Err(Rcode::FormErr);
    }
    if entry.name != *zone.apex() || entry.class != Class::IN {
        return Err(Rcode::NotAuth);
    }
    Ok(())
}

/// Each prerequisite by itself, in order (RFC 2136, 3.2).
fn check_each<Z: ZoneRead>(zone: &Z, raws: &[RawRecord]) -> Result<(), Rcode>
    ensures { result_err result ≡ first_code (prerequisite (Z.records zone.now)) raws.now }
{
    for raw in raws {
        check_one(zone, raw)?;
    }
    Ok(())
}

/// One prerequisite by itself (RFC 2136, 3.2.1, 3.2.2 and 3.2.5).
fn check_one<Z: ZoneRead>(zone: &Z, raw: &RawRecord) -> Result<(), Rcode>
    ensures { result_err result ≡ prerequisite (Z.records zone.now) raw.now }
{
    if raw.ttl != 0 {
        return Err(Rcode::FormErr);
    }
    if !raw.owner.is_under(zone.apex()) {
        return Err(Rcode::NotZone);
    }
    let is_any = raw.rtype == RType::ANY;
    match raw.class {
        Class::ANY | Class::NONE if !raw.octets.is_empty() => Err(Rcode::FormErr),
        Class::ANY if is_any && !is_in_use(zone, &raw.owner) => Err(Rcode::NxDomain),
        Class::ANY if !is_any && !has_rrset(zone, raw) => Err(Rcode::NXRRSet),
        Class::NONE if is_any && is_in_use(zone, &raw.owner) => Err(Rcode::YXDomain),
        Class::NONE if !is_any && has_rrset(zone, raw) => Err(Rcode::YXRRSet),
        Class::ANY | Class::NONE | Class::IN => Ok(()),
        _ => Err(Rcode::FormErr),
    }
}

/// Whether a name is in use: it owns a record. An empty non-terminal isn't (RFC 2136, 2.4.4).
pub(crate) fn is_in_use<Z: ZoneRead>(zone: &Z, name: &Name) -> bool
    ensures { result ≡ is_in_use (Z.records zone.now) name.now }
{
    !zone.rrsets_at(name).is_empty()
}

/// Whether the zone has a set of a record's owner and type (RFC 2136, 2.4.1).
fn has_rrset<Z: ZoneRead>(zone: &Z, raw: &RawRecord) -> bool
    ensures { result ≡ has_rrset (Z.records zone.now) raw.now.owner raw.now.rtype }
{
    zone.rrset(&raw.owner, raw.rtype).is_some()
}

/// That the prerequisites of class IN, gathered by owner and type, are the zone's sets (RFC 2136, 3.2.3).
fn check_sets<Z: ZoneRead>(zone: &Z, raws: &[RawRecord]) -> Result<(), Rcode>
    ensures { result_err result ≡ (if are_met (Z.records zone.now) raws.now then None else Some NXRRSet) }
{
    // More than a message has come from no peer.
    if raws.len() <= FEW || raws.len() > MOST {
        return check_one_by_one(zone, raws);
    }
    if are_met_in_order(zone, raws) {
        Ok(())
    } else {
        Err(Rcode::NXRRSet)
    }
}

/// The same, each set compared with all prerequisites: the time grows as the square of their number.
fn check_one_by_one<Z: ZoneRead>(zone: &Z, raws: &[RawRecord]) -> Result<(), Rcode>
    ensures { result_err result ≡ (if are_met (Z.records zone.now) raws.now then None else Some NXRRSet) }
{
    for (at, raw) in raws.iter().enumerate() {
        // A set is compared at the first of its records.
        if raw.class == Class::IN && !is_repeated(&raws[..at], raw) && !is_met(zone, raws, raw) {
            return Err(Rcode::NXRRSet);
        }
    }
    Ok(())
}

/// Whether a record is of class IN and stands under an owner and type.
fn is_gathered(raw: &RawRecord, name: &Name, rtype: RType) -> bool
    ensures { result ≡ is_gathered name.now rtype.0 raw.now }
{
    raw.class == Class::IN && raw.owner == *name && raw.rtype == rtype
}

/// Whether one of the records is of class IN and of a record's owner and type.
fn is_repeated(before: &[RawRecord], raw: &RawRecord) -> bool
    ensures { result ≡ list_any (is_gathered raw.now.owner raw.now.rtype) before.now }
{
    before
        .iter()
        .any(|other| is_gathered(other, &raw.owner, raw.rtype))
}

/// Whether the prerequisites gathered under a record's owner and type are the zone's set, TTLs apart (RFC 2136, 3.2.3).
fn is_met<Z: ZoneRead>(zone: &Z, raws: &[RawRecord], raw: &RawRecord) -> bool
    ensures { result ≡ is_met (Z.records zone.now) raws.now raw.now }
{
    match zone.rrset(&raw.owner, raw.rtype) {
        Some(set) => {
            let all = set.data();
            has_all_sent(all, raws, raw) && is_all_sent(all, raws, raw)
        }
        None => !is_repeated(raws, raw),
    }
}

/// Whether data has the octets of each record that is gathered with the one given.
fn has_all_sent(all: &[RData], raws: &[RawRecord], raw: &RawRecord) -> bool
    ensures { result ≡ list_all (λ r. not (is_gathered raw.now.owner raw.now.rtype r) || list_any (λ d. bytes_eq r.octets d.octets) all.now) raws.now }
{
    raws.iter().all(|other| {
        !is_gathered(other, &raw.owner, raw.rtype) || has_octets(all, &other.octets)
    })
}

/// Whether one of the data has these octets.
fn has_octets(all: &[RData], octets: &[u8]) -> bool
    ensures { result ≡ list_any (λ d. bytes_eq octets.now d.octets) all.now }
{
    all.iter().any(|own| octets == own.octets())
}

/// Whether each of a set's data is that of a record that is gathered with the one given.
fn is_all_sent(all: &[RData], raws: &[RawRecord], raw: &RawRecord) -> bool
    ensures { result ≡ list_all (λ d. list_any (λ r. is_gathered raw.now.owner raw.now.rtype r && bytes_eq r.octets d.octets) raws.now) all.now }
{
    all.iter().all(|own| is_sent(own.octets(), raws, raw))
}

/// Whether data octets are those of a record that is gathered with the one given.
fn is_sent(octets: &[u8], raws: &[RawRecord], raw: &RawRecord) -> bool
    ensures { result ≡ list_any (λ r. is_gathered raw.now.owner raw.now.rtype r && bytes_eq r.octets octets.now) raws.now }
{
    raws.iter().any(|other| {
        is_gathered(other, &raw.owner, raw.rtype) && other.octets.as_slice() == octets
    })
}

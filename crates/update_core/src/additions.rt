//! What a record that an update adds changes (RFC 2136, 3.4.2.2).
ghost use Rattle.std.specs.Prelude.{◌≡◌, ◌<◌, ◌≤◌, ◌^◌, ◌&&◌, ◌||◌, not, ◌==◌, ◌≢◌, true, [], None, length, All, IfOk, OnOk};
ghost use Rattle.std.specs.Bool.{OnTrue};
ghost use Rattle.std.specs.Option.{is_some};
ghost use Rattle.std.specs.Result.{IsErrOf};
ghost use Rattle.dns_rdata.specs.Limits.{max_data, max_set};
ghost use Rattle.dns_name.specs.Name.{is_same};
ghost use Rattle.dns_rdata.specs.Numbers.{class_IN, type_CNAME, type_SOA};
ghost use Rattle.dns_rdata.specs.Data.{serial_of};
ghost use Rattle.dns_rdata.specs.Record.{rtype_of};
ghost use Rattle.dns_rdata.specs.SerialOrder.{serial_less};
ghost use Rattle.zone_tree.specs.Zone.{IsZone, apex_of, rrset_of};
ghost use Rattle.zone_tree.specs.Version.{zone_serial};
ghost use Rattle.update_core.specs.Verdict.{prescan_of, has_form, has_rrset};
ghost use Rattle.update_core.specs.Act.{effect, entered, has_other_than_alias, has_lesser_soa, IsSent};
ghost use Rattle.update_core.specs.Overlay.{IsRow};
ghost use Rattle.update_core.specs.Applied.{is_beside_alias, joined, set_behind};

use crate::ordered::is_among;
use crate::place::Place;
use crate::rows::{ActFault, Row};
use dns_name::Name;
use dns_rdata::{DataFault, RData, RRset, RType, RawRecord, Ttl};
use std::alloc::Global;

/// What a record of class IN does. The table of effects comes before the limits.
pub(crate) fn row_of_addition(
    alloc: Global,
    zone: &Place<'_>,
    raw: &RawRecord,
) -> Result<Row, ActFault>
    requires lawful { IsZone zone.now.made }
    requires at { zone.now.owner ≡ raw.now.owner }
    requires class { (raw.now.class == class_IN) ≡ true }
    requires passed { prescan_of zone.now.made raw.now ≡ None }
    ensures row { IfOk result (IsRow zone.now.made raw.now) }
    ensures limit { IsErrOf result ActFault.Limit → effect zone.now.made raw.now ≡ None }
{
    if is_beside_alias(zone, raw) {
        return Ok(Row::Nothing);
    }
    let rdata = data_in_zone(alloc, raw)?;
    if is_lesser_soa(zone, raw, &rdata) {
        return Ok(Row::Nothing);
    }
    if is_present(zone, raw, &rdata) {
        return Ok(Row::Nothing);
    }
    Ok(Row::OneSet(Some(rdata)))
}

/// Whether a record would put an alias beside other data, or other data beside an alias (RFC 2136, 3.4.2.2).
fn is_beside_alias(zone: &Place<'_>, raw: &RawRecord) -> bool
    requires lawful { IsZone zone.now.made }
    requires at { zone.now.owner ≡ raw.now.owner }
    ensures { result ≡ is_beside_alias zone.now.made raw.now }
{
    if raw.rtype == RType::CNAME {
        return has_other_than_alias(zone);
    }
    has_alias(zone)
}

/// Whether an alias stands at a name.
fn has_alias(zone: &Place<'_>) -> bool
    ensures { result ≡ has_rrset zone.now.made zone.now.owner type_CNAME }
{
    zone.rrset(RType::CNAME).is_some()
}

/// Whether a record of another type than CNAME stands at a name. An alias stands alone at its owner.
fn has_other_than_alias(zone: &Place<'_>) -> bool
    requires { IsZone zone.now.made }
    ensures { result ≡ has_other_than_alias zone.now.made zone.now.owner }
{
    zone.is_in_use() && !has_alias(zone)
}

/// Whether a record is an SOA whose serial isn't greater than that of one that stands at its owner, or where none stands
/// there (RFC 2136, 3.4.2.2). Its data are those that enter the zone.
fn is_lesser_soa(zone: &Place<'_>, raw: &RawRecord, rdata: &RData) -> bool
    requires lawful { IsZone zone.now.made }
    requires at { zone.now.owner ≡ raw.now.owner }
    requires rtype { rdata.now.rtype ≡ raw.now.rtype }
    requires data { rdata.now.octets ≡ (entered raw.now).rdata }
    ensures { result ≡ (raw.now.rtype == type_SOA && not (has_lesser_soa zone.now.made raw.now)) }
{
    raw.rtype == RType::SOA && !is_greater_soa(zone, &raw.owner, rdata)
}

/// Whether an SOA stands at a name whose serial is less than that of an SOA's data (RFC 1982, 3.2).
fn is_greater_soa(zone: &Place<'_>, owner: &Name, rdata: &RData) -> bool
    requires { zone.now.owner ≡ owner.now }
    ensures { rdata.now.rtype ≡ type_SOA → result ≡ (is_same owner.now (apex_of zone.now.made) && serial_less (zone_serial zone.now.made) (serial_of rdata.now.octets)) }
{
    match rdata.soa() {
        Some(soa) => *owner == *zone.apex() && zone.serial().less(soa.serial),
        None => false,
    }
}

/// A record's data as they enter a zone; `Limit` over 4,096 octets.
fn data_in_zone(alloc: Global, raw: &RawRecord) -> Result<RData, ActFault>
    requires { has_form raw.now ≡ true }
    ensures data { IfOk result (λ d. (d.rtype ≡ raw.now.rtype) × (d.octets ≡ (entered raw.now).rdata)) }
    ensures short { OnOk result (length raw.now.octets ≤ max_data) }
    ensures sent { IsSent raw.now }
    ensures limit { IsErrOf result ActFault.Limit → max_data < length raw.now.octets }
    ensures starved { IsErrOf result ActFault.NoMemory → length raw.now.octets ≤ max_data }
{
    let _owner = raw.owner.wire();
    are_octets(&raw.octets);
    match RData::from_wire(alloc, raw.rtype, &raw.octets) {
        Ok(rdata) => Ok(rdata),
        Err(DataFault::TooLong) => Err(ActFault::Limit),
        Err(DataFault::NoMemory) => Err(ActFault::NoMemory),
        Err(DataFault::BadLength) => unreachable!(),
    }
}

/// That octets are below 256.
fn are_octets(octets: &[u8])
    ensures { All (λ octet. octet < 256) octets.now }
{
    let _len = octets.len();
}

/// Whether a record that joins others stands in a zone already, with the TTL that it would give them: then it has no effect.
fn is_present(zone: &Place<'_>, raw: &RawRecord, rdata: &RData) -> bool
    requires lawful { IsZone zone.now.made }
    requires at { zone.now.owner ≡ raw.now.owner }
    requires rtype { rdata.now.rtype ≡ raw.now.rtype }
    requires data { rdata.now.octets ≡ (entered raw.now).rdata }
    ensures some { OnTrue result (rrset_of zone.now.made raw.now.owner raw.now.rtype ≢ []) }
    ensures same { OnTrue result (set_behind zone.now.made raw.now ≡ rrset_of zone.now.made raw.now.owner raw.now.rtype) }
    ensures few { OnTrue result (length (set_behind zone.now.made raw.now) ≤ max_set) }
{
    if raw.rtype != RType::CNAME && raw.rtype != RType::SOA {
        if let Some(own) = zone.rrset(raw.rtype) {
            return has_record(own, Ttl::received(raw.ttl), rdata);
        }
    }
    false
}

/// Whether a set has this TTL, and a record of these data: then one more of them changes nothing of it.
fn has_record(own: &RRset, ttl: Ttl, rdata: &RData) -> bool
    requires { rdata.now.rtype ≡ rtype_of own.now }
    ensures same { OnTrue result (joined own.now ttl.0 rdata.now.octets ≡ own.now) }
    ensures few { OnTrue result (length own.now ≤ max_set) }
{
    let _records = own.data();
    own.ttl() == ttl && is_among(own, rdata.octets())
}

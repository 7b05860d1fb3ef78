//! The hosts that records name, and what a zone says of them (RFC 1034, 4.3.2; RFC 2181, 10.3; RFC 2782).
ghost use Rattle.std.specs.Prelude.{◌≡◌, not};
ghost use Rattle.lookup_core.specs.Additional.{has_hosts};
ghost use Rattle.lookup_core.specs.Place.{is_none_of};
ghost use Rattle.zone_tree.specs.Zone.{rrset_of};
ghost use Rattle.zone_warnings.specs.Warnings.{first_of, host_of, name_of, has_address, state_at, placed_state, state_of};
ghost use Rattle.dns_rdata.specs.Layout.{names_in_data};
ghost use Rattle.master_file.specs.ZoneText.{record_in};

use dns_name::Name;
use dns_rdata::{RData, RType};
use lookup_core::{Place, place};
use master_file::RecordEntry;
use zone_tree::{Zone, ZoneRead};

/// What a zone says of a host.
#[derive(Clone, Copy, Debug, PartialEq, Eq)]
pub enum HostState {
    /// It has an address, or isn't the zone's to say.
    Fine,
    /// It is an alias.
    Alias,
    /// It has no address.
    NoAddress,
    /// It is at or below a zone cut, and has no address there.
    NoGlue,
}

/// The first name in data: the host of NS, MX and SRV, what an alias or a PTR stands for, an SOA's primary (RFC 1035, 3.3; RFC 2782).
#[tactic(auto, unfolding(dns_rdata::specs::Layout::layout_of))]
pub(crate) fn name_in(rdata: &RData) -> Option<Name>
    ensures { result ≡ first_of (names_in_data rdata.now.rtype rdata.now.octets) }
{
    let front = match rdata.rtype() {
        RType::NS | RType::CNAME | RType::PTR | RType::SOA => 0,
        RType::MX => 2,
        RType::SRV => 6,
        _ => return None,
    };
    let (name, _) = Name::from_wire(rdata.octets().get(front..)?)?;
    Some(name)
}

/// Whether a type's data names a host: NS, MX and SRV.
fn has_hosts(rtype: RType) -> bool
    ensures { result ≡ has_hosts rtype.0 }
{
    rtype == RType::NS || rtype == RType::MX || rtype == RType::SRV
}

/// The host that a record names.
fn host_of(rr: &RecordEntry) -> Option<Name>
    ensures { result ≡ host_of (record_in rr.now) }
{
    if has_hosts(rr.rdata.rtype()) {
        return name_in(&rr.rdata);
    }
    None
}

/// What a zone says of the host that a record names; `Fine` where it names none.
pub(crate) fn state_of(zone: &Zone, rr: &RecordEntry) -> HostState
    ensures { result ≡ state_of zone.now (host_of (record_in rr.now)) }
{
    let Some(host) = host_of(rr) else {
        return HostState::Fine;
    };
    if host.is_root() {
        return HostState::Fine;
    }
    placed_state(zone, &host)
}

/// What a zone says of a host.
fn placed_state(zone: &Zone, host: &Name) -> HostState
    ensures { result ≡ placed_state zone.now host.now }
{
    match place(zone, host) {
        Place::Outside => HostState::Fine,
        Place::Cut(_) if has_address(zone, host) => HostState::Fine,
        Place::Cut(_) => HostState::NoGlue,
        Place::Exact => state_at(zone, host),
        Place::Wild(source) => state_at(zone, &source),
        Place::Missing => HostState::NoAddress,
    }
}

/// What the records at a name make of a host.
fn state_at(zone: &Zone, name: &Name) -> HostState
    ensures { result ≡ state_at zone.now name.now }
{
    if owns(zone, name, RType::CNAME) {
        return HostState::Alias;
    }
    if has_address(zone, name) {
        return HostState::Fine;
    }
    HostState::NoAddress
}

/// Whether a name owns an address: A or AAAA.
fn has_address(zone: &Zone, name: &Name) -> bool
    ensures { result ≡ has_address zone.now name.now }
{
    owns(zone, name, RType::A) || owns(zone, name, RType::AAAA)
}

/// Whether a name owns records of a type.
fn owns(zone: &Zone, name: &Name, rtype: RType) -> bool
    ensures { result ≡ not (is_none_of (rrset_of zone.now name.now rtype.0)) }
{
    zone.rrset(name, rtype).is_some()
}

//! Which warnings a record of a text shows.
ghost use Rattle.std.specs.Prelude.{◌≡◌, IfOk};
ghost use Rattle.master_file.specs.ZoneText.{record_in};
ghost use Rattle.zone_warnings.specs.Warnings.{is_shown, ttl_in};

use crate::hosts::{HostState, name_in, state_of};
use crate::names::{ends_twice, one_ends_twice};
use dns_rdata::{RType, Ttl};
use master_file::RecordEntry;
use std::alloc::{AllocError, Global};
use zone_tree::{Zone, ZoneRead};

/// What an operator is warned of.
#[derive(Clone, Copy, Debug, PartialEq, Eq)]
pub enum Warning {
    /// The host of an NS, an MX or an SRV has no address in the zone.
    NoAddress,
    /// The host of an NS is at or below a zone cut, and has no address there (RFC 1034, 4.2.1; RFC 9471, 3).
    NoGlue,
    /// The host of an NS, an MX or an SRV is an alias (RFC 2181, 10.3; RFC 2782).
    Alias,
    /// The name in the data ends with the zone's name twice.
    NameTwice,
    /// The owner ends with the zone's name twice.
    OwnerTwice,
    /// The TTL is another than that of the record's set in the zone (RFC 2181, 5.2).
    OtherTtl,
}

/// Whether a record of a text shows a warning in the zone. An `Err` only where a growth was refused.
pub(crate) fn is_shown(
    alloc: Global,
    zone: &Zone,
    rr: &RecordEntry,
    warning: Warning,
) -> Result<bool, AllocError>
    ensures { IfOk result (λ is. is ≡ is_shown zone.now (record_in rr.now) warning) }
{
    match warning {
        Warning::NoAddress => Ok(state_of(zone, rr) == HostState::NoAddress),
        Warning::NoGlue => Ok(
            rr.rdata.rtype() == RType::NS && state_of(zone, rr) == HostState::NoGlue,
        ),
        Warning::Alias => Ok(state_of(zone, rr) == HostState::Alias),
        Warning::NameTwice => one_ends_twice(alloc, zone.apex(), name_in(&rr.rdata)),
        Warning::OwnerTwice => ends_twice(alloc, zone.apex(), &rr.owner),
        Warning::OtherTtl => Ok(rr.ttl != ttl_in(zone, rr)),
    }
}

/// The TTL that a record's set has in the zone.
pub(crate) fn ttl_in(zone: &Zone, rr: &RecordEntry) -> Ttl
    ensures { result.0 ≡ ttl_in zone.now (record_in rr.now) }
{
    match zone.rrset(&rr.owner, rr.rdata.rtype()) {
        Some(set) => set.ttl(),
        None => Ttl(0),
    }
}

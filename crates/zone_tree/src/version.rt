//! Versions of a zone: the zones that it becomes, one after the other.
ghost use Rattle.std.specs.Prelude.{◌≡◌, ◌+◌, ◌<◌, ◌^◌, length, Some, None};
ghost use Rattle.std.specs.Option.{option_copied};
ghost use Rattle.dns_rdata.specs.Numbers.{type_SOA};
ghost use Rattle.dns_rdata.specs.Data.{serial_of};
ghost use Rattle.dns_rdata.specs.Record.{rtype_of};
ghost use Rattle.zone_tree.specs.Version.{zone_serial, first_data, AreChanges};

use crate::delta::Delta;
use crate::read::ZoneRead;
use crate::zone::Zone;
use dns_rdata::{RRset, Serial};
use std::marker::Model;

/// A version of a zone: its number among the zone's versions, counted from 0, the zone with its serial, and what it changed
/// of the version before it (RFC 1995, 4).
pub struct Version {
    number: u64,
    zone: Zone,
    serial: Serial,
    delta: Option<Delta>,
}

impl Drop for Version {
    fn drop(self) {
        let Version {
            number: _,
            zone: _,
            serial: _,
            delta: _,
        } = self;
    }
}

impl Model for Version {
    ghost use Rattle.std.specs.Prelude.{◌≡◌};
    ghost use Rattle.zone_tree.specs.Version.{Version as Numbered, zone_serial};

    ghost Value = { Numbered };

    ghost view = { λ a. record { number = a.number; zone = a.zone; changes = a.delta } };

    ghost invariant = { λ a. a.serial.0 ≡ zone_serial a.zone };
}

impl Version {
    /// The first version, of number 0.
    pub fn first(zone: Zone) -> Version
        ensures { result ≡ record { number = 0; zone = zone; changes = None } }
    {
        Version {
            number: 0,
            serial: zone.serial(),
            zone,
            delta: None,
        }
    }

    /// The version after this one, with what it changed of this one's zone.
    pub fn next(&self, zone: Zone, delta: Delta) -> Version
        requires number { self.now.number + 1 < 2 ^ 64 }
        requires changes { AreChanges delta self.now.zone zone }
        ensures { result ≡ record { number = self.now.number + 1; zone = zone; changes = Some delta } }
    {
        Version {
            number: self.number + 1,
            serial: zone.serial(),
            zone,
            delta: Some(delta),
        }
    }

    /// Gives it another number: its zone, and what it changed, stay.
    pub fn renumber(&mut self, number: u64)
        ensures { self.new ≡ record { number = number; zone = self.old.zone; changes = self.old.changes } }
    {
        self.number = number;
    }

    /// Its zone alone.
    pub fn into_zone(self) -> Zone
        ensures { result ≡ self.zone }
    {
        let Version {
            number: _,
            zone,
            serial: _,
            delta: _,
        } = self;
        zone
    }

    /// Its number among the zone's versions, counted from 0.
    pub fn number(&self) -> u64
        ensures { result ≡ self.now.number }
    {
        self.number
    }

    /// Its zone.
    pub fn zone(&self) -> &Zone
        ensures { result.now ≡ self.now.zone }
    {
        &self.zone
    }

    /// Its zone's serial (RFC 1035, 3.3.13).
    pub fn serial(&self) -> Serial
        ensures { result.0 ≡ zone_serial self.now.zone }
    {
        self.serial
    }

    /// What it changed of the version before it; None of the first version (RFC 1995, 4).
    pub fn delta(&self) -> Option<&Delta>
        ensures { option_copied result ≡ self.now.changes }
    {
        self.delta.as_ref()
    }
}

impl Zone {
    /// The zone's serial: that of its SOA (RFC 1035, 3.3.13).
    pub fn serial(&self) -> Serial
        ensures { result.0 ≡ zone_serial self.now }
    {
        serial_in(self.soa())
    }
}

/// The serial of an SOA's set (RFC 1035, 3.3.13).
pub fn serial_in(soa: &RRset) -> Serial
    requires typed { rtype_of soa.now ≡ type_SOA }
    requires one { length soa.now ≡ 1 }
    ensures { result.0 ≡ serial_of (first_data soa.now) }
{
    soa.data()[0].soa().unwrap().serial
}

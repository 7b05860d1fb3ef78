//! What an update changes that takes a zone to another, in numbers.
ghost use Rattle.std.specs.Prelude.{◌≡◌, if◌then◌else◌};
ghost use Rattle.dns_rdata.specs.SerialOrder.{serial_less, serial_next};
ghost use Rattle.zone_tree.specs.Version.{zone_serial};
ghost use Rattle.zone_change.specs.Summary.{is_deletion, is_addition, deleted_by, added_by, serial_after};

use dns_message::Update;
use dns_rdata::{Class, RType, RawRecord, Serial};
use zone_tree::{Zone, ZoneRead};

/// What an update that takes a zone to another changes, in numbers.
#[derive(Clone, Copy, Debug, PartialEq, Eq)]
pub struct ChangeSummary {
    /// The serial of the zone before.
    pub from: Serial,
    /// The serial of the zone after.
    pub to: Serial,
    /// The serial that the other zone has, which may not be greater than that before.
    pub given: Serial,
    /// How many records are deleted, the SOA not counted.
    pub deleted: usize,
    /// How many records are added, the SOA not counted.
    pub added: usize,
}

/// What an update changes that takes a zone to another.
pub fn summary_of(served: &Zone, next: &Zone, update: &Update) -> ChangeSummary
    ensures from { result.from.0 ≡ zone_serial served.now }
    ensures to { result.to.0 ≡ serial_after served.now next.now }
    ensures given { result.given.0 ≡ zone_serial next.now }
    ensures deleted { result.deleted ≡ deleted_by update.now }
    ensures added { result.added ≡ added_by update.now }
{
    let raws = update.updates.as_slice();
    ChangeSummary {
        from: served.serial(),
        to: serial_after(served.serial(), next.serial()),
        given: next.serial(),
        deleted: raws.iter().filter(|raw| is_deletion(raw)).count(),
        added: raws.iter().filter(|raw| is_addition(raw)).count(),
    }
}

/// Whether a record of an update section deletes one of a zone (RFC 2136, 2.5.4).
fn is_deletion(raw: &RawRecord) -> bool
    ensures { result ≡ is_deletion raw.now }
{
    raw.class == Class::NONE
}

/// Whether it adds one that isn't an SOA (RFC 2136, 2.5.1).
fn is_addition(raw: &RawRecord) -> bool
    ensures { result ≡ is_addition raw.now }
{
    raw.class != Class::NONE && raw.rtype != RType::SOA
}

/// The serial of the zone that a change leads to: the other zone's where it is greater, and else the one after that of the zone before (RFC 1982, 3).
fn serial_after(old: Serial, next: Serial) -> Serial
    ensures { result.0 ≡ if serial_less old.0 next.0 then next.0 else serial_next old.0 }
{
    if old.less(next) { next } else { old.next() }
}

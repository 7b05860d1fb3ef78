//! Which is served at a start (own).
ghost use Rattle.std.specs.Prelude.{◌≡◌, ◌≢◌, ◌⊎◌, false, Some, IfOk, IfErr};
ghost use Rattle.master_file.specs.Fault.{no_memory};
ghost use Rattle.store_recovery.specs.Choice.{IsChoice, IsChoiceFault};
ghost use Rattle.store_recovery.specs.declared.choices.Take.TheVariants.{Store as TheStore};
ghost use Rattle.store_recovery.specs.Choosing.{by_serial, of_zones, IsWithoutZone};

use dns_name::Name;
use dns_rdata::Serial;
use journal::TextSum;
use master_file::{Cause, FileFault, read_zone};
use std::alloc::Global;
use zone_tree::{Zone, ZoneRead};

/// What the operator chooses, of a store and the zone text that he names, where that is another one than the store was created from.
#[derive(Clone, Copy, Debug, PartialEq, Eq)]
pub enum Take {
    /// The store: of the text only its zone's apex is compared.
    Store,
    /// The zone text: the store, changed to its zone.
    Zone,
}

/// Which is served at a start.
#[derive(Drop)]
pub enum Choice {
    /// The store: the zone text is the one that it was created from.
    Same,
    /// The store, which is chosen.
    Store,
    /// The store, changed to the zone text, which is chosen: its zone.
    Zone(Zone),
    /// The store, though the zone text is another one: its zone has this serial, which isn't greater than that of the store's last version.
    StoreThoughOther(Serial),
    /// Neither, until one of them is chosen: the zone text is another one, and its zone has this serial, which is greater.
    RefuseNewer(Serial),
    /// Neither, whatever is chosen: the zone text is a zone of this apex, which differs from the store's.
    RefuseOtherApex(Name),
}

/// Decides which is served at a start: a store that was created from the text `begun` and whose last version has the zone `last`, or the zone text that the operator names,
/// in which names are relative to the origin; `taken` is his choice of the two, if any. Apexes are compared as names are (RFC 4343, 3), and serials, where he has
/// none, as in RFC 1982, 3.2. Where the text is the one that the store was created from, or the store is chosen, only its zone's apex is compared, if it is a zone.
///
/// The fault is that of a text that is no zone, is another one than the store was created from, and is needed for the decision; or `NoMemory`, at line 0, where an
/// allocation was refused.
pub fn choose(
    alloc: Global,
    begun: &TextSum,
    last: &Zone,
    text: &[u8],
    origin: &Name,
    taken: Option<Take>,
) -> Result<Choice, FileFault>
    ensures chosen { IfOk result (λ choice. IsChoice begun.now last.now origin.now text.now taken choice) }
    ensures fault { IfErr result (λ fault. IsChoiceFault begun.now origin.now text.now taken fault) }
{
    let same = begun.is_of(text);
    match read_zone(alloc, text, origin) {
        Ok(zone) => Ok(of_zones(last, zone, same, taken)),
        Err(fault) => without_zone(fault, same, taken),
    }
}

/// Which is served, of a store whose last version has the zone `last` and a text of this zone, by whether the text is the one that the store was created from, and what is
/// chosen.
fn of_zones(last: &Zone, zone: Zone, same: bool, taken: Option<Take>) -> Choice
    ensures { result ≡ of_zones last.now zone same taken }
{
    let apex = zone.apex().copy();
    if apex != *last.apex() {
        return Choice::RefuseOtherApex(apex);
    }
    if same {
        return Choice::Same;
    }
    match taken {
        Some(Take::Store) => Choice::Store,
        Some(Take::Zone) => Choice::Zone(zone),
        None => by_serial(last.serial(), zone.serial()),
    }
}

/// Which is served where a text has this fault: the store, where the text is the one that it was created from, or the store is chosen; but nothing where there is no memory.
fn without_zone(fault: FileFault, same: bool, taken: Option<Take>) -> Result<Choice, FileFault>
    ensures chosen { IfOk result (λ choice. (fault ≢ no_memory) × IsWithoutZone same taken choice) }
    ensures fault { IfErr result (λ reported. (reported ≡ fault) × ((fault ≡ no_memory) ⊎ ((same ≡ false) × (taken ≢ Some TheStore)))) }
{
    if fault.line == 0 && fault.cause == Cause::NoMemory {
        return Err(fault);
    }
    if same {
        return Ok(Choice::Same);
    }
    match taken {
        Some(Take::Store) => Ok(Choice::Store),
        Some(Take::Zone) | None => Err(fault),
    }
}

/// Which is served where nothing is chosen, by the serial of the store's last version and that of another text's zone (RFC 1982, 3.2).
fn by_serial(last: Serial, given: Serial) -> Choice
    ensures { result ≡ by_serial last.0 given }
{
    if last.less(given) {
        Choice::RefuseNewer(given)
    } else {
        Choice::StoreThoughOther(given)
    }
}

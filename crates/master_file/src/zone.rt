//! A zone's text as a zone (RFC 1035, 5).
ghost use Rattle.std.specs.Prelude.{◌≡◌, ◌⊎◌, List, Ok, Err, IfOk, IfErr, IfSome};
ghost use Rattle.std.specs.Option.{IfNone};
ghost use Rattle.dns_rdata.specs.Record.{Record};
ghost use Rattle.master_file.specs.Fault.{no_memory};
ghost use Rattle.master_file.specs.ZoneText.{zone_of_text};
ghost use Rattle.zone_tree.specs.Zone.{IsZone};
ghost use Rattle.master_file.specs.Records.{records_of};

use crate::fault::FileFault;
use crate::faulty::{fault_of, read_all};
use crate::sorted::sets_of;
use dns_name::Name;
use std::alloc::{AllocError, Global};
use zone_tree::{NewFault, Zone};

/// The zone of a text; None where the text is no zone.
fn zone_in(alloc: Global, text: &[u8], origin: &Name) -> Result<Option<Zone>, AllocError>
    ensures zone { IfOk result (λ found. IfSome found (λ zone. zone_of_text origin.now text.now ≡ Ok zone)) }
    ensures lawful { IfOk result (λ found. IfSome found (λ zone. IsZone zone)) }
    ensures refused { IfOk result (λ found. IfNone found ((zone : List Record) → zone_of_text origin.now text.now ≡ Ok zone → ⊥)) }
{
    // What a name keeps is known of the origin from here on.
    let _wire = origin.wire();
    let (records, fault) = read_all(alloc, text, origin)?;
    if fault.is_some() {
        return Ok(None);
    }
    let Some(sets) = sets_of(alloc, records, None)? else {
        return Ok(None);
    };
    match Zone::new(alloc, sets) {
        Ok(zone) => Ok(Some(zone)),
        Err(NewFault::NoMemory) => Err(AllocError),
        Err(NewFault::Broken(_)) => Ok(None),
    }
}

/// The zone of a text, its names relative to the origin; else the fault that is told (RFC 1035, 5).
///
/// A record too many and a fault of an entry are told at the first entry that has one. After the whole text a second SOA,
/// no SOA or no NS at the apex, an owner outside the apex and a conflict are tried in this order. `NoMemory`, at line 0, where a
/// growth was refused. Its time is that of sorting the records, and all of the text's are kept until its end; a text that is no
/// zone is read once more for the line that shows its fault.
pub fn read_zone(alloc: Global, text: &[u8], origin: &Name) -> Result<Zone, FileFault>
    ensures zone { IfOk result (λ zone. zone_of_text origin.now text.now ≡ Ok zone) }
    ensures lawful { IfOk result (λ zone. IsZone zone) }
    ensures fault { IfErr result (λ fault. (fault ≡ no_memory) ⊎ (zone_of_text origin.now text.now ≡ Err fault)) }
{
    match zone_in(alloc, text, origin)? {
        Some(zone) => Ok(zone),
        None => Err(fault_of(alloc, text, origin)?),
    }
}

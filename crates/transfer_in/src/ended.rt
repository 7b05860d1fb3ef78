//! What is held after the last record, as a zone (RFC 1995, 4; RFC 5936, 2.2).
ghost use Rattle.std.specs.Prelude.{◌≡◌, ◌⊎◌, true, false, IfOk, IfErr};
ghost use Rattle.dns_name.specs.Name.{fold_name};
ghost use Rattle.zone_tree.specs.Zone.{IsZone};
ghost use Rattle.transfer_core.specs.Take.{is_zone};
ghost use Rattle.transfer_in.specs.ListState.{AreHeld};

use crate::grouped::sets_of;
use crate::holding::Holding;
use dns_name::Name;
use std::alloc::Global;
use transfer_core::TransferFault;
use zone_tree::{NewFault, Zone, ZoneFault, ZoneRead, edit};

/// What is held as the zone of an apex, which is in lower case. `NotInZone` where it is none, `NoMemory` where a growth was
/// refused.
pub(crate) fn zone_of(alloc: Global, apex: &Name, records: Holding) -> Result<Zone, TransferFault>
    requires held { AreHeld apex.now records }
    requires folded { apex.now ≡ fold_name apex.now }
    ensures zone { IfOk result (λ zone. zone ≡ records) }
    ensures passes { IfOk result (λ _. is_zone apex.now records ≡ true) }
    ensures lawful { IfOk result IsZone }
    ensures fault { IfErr result (λ fault. (fault ≡ TransferFault.NoMemory) ⊎ ((fault ≡ TransferFault.NotInZone) × (is_zone apex.now records ≡ false))) }
{
    let Some(sets) = sets_of(alloc, apex, records)? else {
        return Err(TransferFault::NotInZone);
    };
    match Zone::new(alloc, sets) {
        Ok(zone) => of_apex(apex, zone),
        Err(NewFault::NoMemory) => Err(TransferFault::NoMemory),
        Err(NewFault::Broken(_)) => Err(TransferFault::NotInZone),
    }
}

/// A zone whose apex is this one, which is in lower case. `NotInZone` where it has another.
fn of_apex(apex: &Name, zone: Zone) -> Result<Zone, TransferFault>
    requires lawful { IsZone zone }
    requires folded { apex.now ≡ fold_name apex.now }
    ensures zone { IfOk result (λ same. same ≡ zone) }
    ensures passes { IfOk result (λ _. is_zone apex.now zone ≡ true) }
    ensures fault { IfErr result (λ fault. (fault ≡ TransferFault.NotInZone) × (is_zone apex.now zone ≡ false)) }
{
    if zone.apex() == apex {
        return Ok(zone);
    }
    Err(TransferFault::NotInZone)
}

/// The same zone once more, whose sets are shared. `NoMemory` where a growth was refused.
pub(crate) fn same_zone(alloc: Global, zone: &Zone) -> Result<Zone, TransferFault>
    ensures zone { IfOk result (λ same. same ≡ zone.now) }
    ensures lawful { IfOk result IsZone }
    ensures fault { IfErr result (λ fault. fault ≡ TransferFault.NoMemory) }
{
    // That the records are a zone is known of them from here on.
    let _soa = zone.soa();
    match edit(alloc, zone, &[]) {
        Ok(same) => Ok(same),
        Err(ZoneFault::NoMemory) => Err(TransferFault::NoMemory),
        Err(ZoneFault::Limit) => unreachable!(),
    }
}

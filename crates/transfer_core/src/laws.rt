//! Laws of the definitions, each the contract of a function that does nothing.
ghost use Rattle.std.specs.Prelude.{◌≡◌, ◌↔◌, List, ◌∷◌, map, Ok, Err};
ghost use Rattle.dns_name.specs.Name.{Name};
ghost use Rattle.dns_rdata.specs.Record.{Record};
ghost use Rattle.dns_rdata.specs.Raw.{RawRecord};
ghost use Rattle.zone_tree.specs.Zone.{IsZone, apex_of};
ghost use Rattle.transfer_core.specs.declared.fault.TransferFault.{TransferFault};
ghost use Rattle.transfer_core.specs.Lists.{full, incremental, newest, as_sent, AreVersions};
ghost use Rattle.transfer_core.specs.Take.{take, Reading, steps_through, HasFirstFault};

/// A holder of a zone that takes the full list of a zone of the same apex holds that zone (RFC 5936, 2.2).
pub fn full_lists_are_taken()
    ensures { (zone other : List Record) → IsZone other → apex_of other ≡ apex_of zone → take zone (map as_sent (full other)) ≡ Ok other }
{}

/// A holder of a zone that takes the incremental list from it, through zones of its apex whose serials all differ, holds
/// the newest (RFC 1995, 4).
pub fn incremental_lists_are_taken()
    ensures { (zone next : List Record) (zones : List (List Record)) → AreVersions zone (next ∷ zones) → take zone (map as_sent (incremental zone (next ∷ zones))) ≡ Ok (newest next zones) }
{}

/// The records of a list are refused exactly where one of them has a fault, with the fault of the first that has one;
/// what comes after it is never looked at (RFC 1995, 4).
pub fn first_faults_are_reported()
    ensures { (apex : Name) (first : Record) (reading : Reading) (list : List RawRecord) (fault : TransferFault) → (steps_through apex first reading list ≡ Err fault) ↔ HasFirstFault apex first reading list fault }
{}

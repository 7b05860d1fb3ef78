//! The law of the update that takes one zone to another.
ghost use Rattle.std.specs.Prelude.{◌≡◌, true, List, None, Some};
ghost use Rattle.dns_rdata.specs.Record.{Record};
ghost use Rattle.update_core.specs.Verdict.{verdict};
ghost use Rattle.update_core.specs.Act.{act};
ghost use Rattle.zone_change.specs.Change.{aimed, change_to, CanChange};

/// The update that takes one zone to another breaks no rule, and makes the zone that the change is to lead to (RFC 2136, 3).
pub fn changes_lead_there()
    ensures taken { (old next : List Record) → CanChange old next → verdict old (change_to old next) true ≡ None }
    ensures leads { (old next : List Record) → CanChange old next → act old (change_to old next) ≡ Some (aimed old next) }
{}

//! Laws of the definitions, each the contract of a function that does nothing.
ghost use Rattle.std.specs.Prelude.{◌≡◌, ◌⊎◌, Bool, true, List, ◌++◌, None, Some, All};
ghost use Rattle.dns_rdata.specs.Record.{Record};
ghost use Rattle.dns_rdata.specs.SerialOrder.{serial_less};
ghost use Rattle.dns_message.specs.declared.update.Update.{Update};
ghost use Rattle.zone_tree.specs.Zone.{IsZone, apex_of};
ghost use Rattle.update_core.specs.Verdict.{verdict};
ghost use Rattle.zone_tree.specs.Version.{zone_serial};
ghost use Rattle.update_core.specs.Act.{act, replay, IsSent, AreTaken};

/// Prerequisites and the zone section change nothing: updates of the same records do the same (RFC 2136, 3.2 and 3.4).
pub fn prerequisites_change_nothing()
    ensures { (zone : List Record) (update other : Update) → update.updates ≡ other.updates → act zone update ≡ act zone other }
{}

/// Replays of one list agree, also where the list is replayed in two parts.
pub fn replays_agree()
    ensures same { (zone : List Record) (updates others : List Update) → updates ≡ others → replay zone updates ≡ replay zone others }
    ensures parts { (zone : List Record) (updates others : List Update) → replay zone (updates ++ others) ≡ replay (replay zone updates) others }
{}

/// An update that is taken leaves the zone as it is, or makes one whose serial is greater (RFC 2136, 3.6; RFC 1982, 3.2).
pub fn serials_rise()
    ensures { (zone after : List Record) (update : Update) (may : Bool) → IsZone zone → verdict zone update may ≡ None → act zone update ≡ Some after
        → (after ≡ zone) ⊎ (serial_less (zone_serial zone) (zone_serial after) ≡ true) }
{}

/// An update that is taken makes of a zone a zone of the same apex, and so do updates one after another (RFC 2136, 3.4).
pub fn updates_keep_a_zone()
    ensures zone { (zone next : List Record) (update : Update) (may : Bool) → IsZone zone → All IsSent update.updates → verdict zone update may ≡ None → act zone update ≡ Some next → IsZone next }
    ensures apex { (zone next : List Record) (update : Update) (may : Bool) → IsZone zone → All IsSent update.updates → verdict zone update may ≡ None → act zone update ≡ Some next → apex_of next ≡ apex_of zone }
    ensures replayed { (zone : List Record) (updates : List Update) → IsZone zone → AreTaken zone updates → IsZone (replay zone updates) }
{}

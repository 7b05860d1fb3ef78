//! Laws of the definitions.
ghost use Rattle.std.specs.Prelude.{◌≡◌, ◌↔◌, ◌≤◌, ℕ, false, List, length, All, None};
ghost use Rattle.dns_name.specs.Name.{Name};
ghost use Rattle.dns_rdata.specs.Record.{Record};
ghost use Rattle.zone_tree.specs.Zone.{exists, IsZone};
ghost use Rattle.lookup_core.specs.Place.{cut_of};
ghost use Rattle.lookup_core.specs.Look.{look, NoName};
ghost use Rattle.lookup_core.specs.Chain.{chain};
ghost use Rattle.lookup_core.specs.Sections.{sections};
ghost use Rattle.lookup_core.specs.Laws.{is_synthesized, HasSingleAliases, IsReached, IsAddition};

/// A name error and an answer with no data differ by existence alone: off the zone cuts there is no name exactly where
/// neither the name nor the source of synthesis exists (RFC 2308, 2.1 and 2.2; RFC 4592, 2.2).
pub fn names_without_existence()
    ensures { (zone : List Record) (name : Name) (rtype : ℕ) → cut_of zone name ≡ None → (look zone name rtype ≡ NoName) ↔ ((exists zone name ≡ false) × (is_synthesized zone name ≡ false)) }
{}

/// In a zone no owner has two aliases, and a chain has at most 16 (RFC 2181, 10.1; own).
pub fn chains_are_short()
    ensures single { (zone : List Record) → IsZone zone → HasSingleAliases zone }
    ensures short { (zone : List Record) (name : Name) (rtype : ℕ) → IsZone zone → length (chain zone name rtype).aliases ≤ 16 }
{}

/// Each record of an answer section stands at the name asked or at the target of an alias of the chain.
pub fn owners_are_reached()
    ensures { (zone : List Record) (name : Name) (rtype : ℕ) → All (IsReached name (chain zone name rtype).aliases) (sections zone name rtype).answer }
{}

/// What an additional section has are addresses as they stand in the zone, none of a set that the answer shows
/// (RFC 1034, 4.3.2, step 6; own).
pub fn additions_are_addresses()
    ensures { (zone : List Record) (name : Name) (rtype : ℕ) → All (IsAddition zone (sections zone name rtype).answer) (sections zone name rtype).additional }
{}

//! Laws of the definitions, each the contract of a function that does nothing, and worked examples.
ghost use Rattle.std.specs.Prelude.{◌≡◌, ◌↔◌, ℕ, List, [], ◌∷◌, codes, true, false, All, Any, Contains, IsTrue};
ghost use Rattle.dns_name.specs.Name.{Name, is_under};
ghost use Rattle.dns_rdata.specs.Numbers.{type_A, type_AAAA, type_SOA};
ghost use Rattle.dns_rdata.specs.Record.{Record};
ghost use Rattle.zone_tree.specs.Change.{left_out};
ghost use Rattle.zone_tree.specs.Patch.{put};
ghost use Rattle.zone_tree.specs.Version.{Changes, AreChanges};
ghost use Rattle.zone_tree.specs.Zone.{IsZone, rrset_of, rrsets_of, exists, soa_of, apex_of, is_wild};
ghost use Rattle.zone_tree.specs.Example.{example, in_example, hour_record, small_zone};

/// Zones of the same records are equal.
pub fn same_records()
    ensures { (zone other : List Record) → IsZone zone → IsZone other → ((r : Record) → Contains zone r ↔ Contains other r) → zone ≡ other }
{}

/// A name exists exactly where it or a name below it owns a record; so each owner exists, and each ancestor of a name
/// that exists (RFC 4592, 2.2.2 and 2.2.3).
pub fn names_that_exist()
    ensures at_or_below { (zone : List Record) (name : Name) → IsTrue (exists zone name) ↔ Any (λ r. IsTrue (is_under r.owner name)) zone }
    ensures owners { (zone : List Record) → All (λ r. IsTrue (exists zone r.owner)) zone }
    ensures ancestors { (zone : List Record) (name ancestor : Name) → IsTrue (exists zone name) → IsTrue (is_under name ancestor) → IsTrue (exists zone ancestor) }
{}

/// The one SOA of a zone stands at its apex (RFC 1034, 4.2.1).
pub fn soa_at_apex()
    ensures { (zone : List Record) → IsZone zone → rrset_of zone (apex_of zone) type_SOA ≡ soa_of zone }
{}

/// What changed from one zone to another, put on the first with the other's SOA, gives the other; from a zone to itself nothing
/// changes (RFC 1995, 4).
pub fn changes_give_the_next()
    ensures none { (zone : List Record) → left_out zone zone ≡ [] }
    ensures next { (zone next : List Record) (changes : Changes) → IsZone zone → IsZone next → AreChanges changes zone next → put zone changes (soa_of next) ≡ next }
{}

/// The records of the worked examples are a zone.
pub fn example_is_a_zone()
    ensures { IsZone small_zone }
{}

/// Worked examples of the definitions, in a zone of an SOA and an NS at `example`, a text at `*.example` and an address at
/// `a.b.example` (RFC 1034, 4.2; RFC 4592, 2.1.1 and 2.2.2).
pub fn examples()
    ensures apex { apex_of small_zone ≡ example }
    ensures set { rrset_of small_zone (codes "a" ∷ in_example (codes "b")) type_A ≡ hour_record (codes "a" ∷ in_example (codes "b")) type_A (192 ∷ 0 ∷ 2 ∷ 1 ∷ []) ∷ [] }
    ensures case { rrset_of small_zone (codes "A" ∷ codes "b" ∷ codes "EXAMPLE" ∷ []) type_A ≡ rrset_of small_zone (codes "a" ∷ in_example (codes "b")) type_A }
    ensures other_type { rrset_of small_zone (codes "a" ∷ in_example (codes "b")) type_AAAA ≡ [] }
    ensures empty_non_terminal { exists small_zone (in_example (codes "b")) ≡ true }
    ensures owns_nothing { rrsets_of small_zone (in_example (codes "b")) ≡ [] }
    ensures missing { exists small_zone (in_example (codes "c")) ≡ false }
    ensures end_of_label { exists small_zone (in_example (codes "ab")) ≡ false }
    ensures wildcard_itself { exists small_zone (in_example (codes "*")) ≡ true }
    ensures wild { is_wild (in_example (codes "*")) ≡ true }
    ensures not_wild { is_wild (codes "sub" ∷ in_example (codes "*")) ≡ false }
{}

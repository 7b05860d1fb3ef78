//! Laws of the definitions, each the contract of a function that does nothing, and worked examples.
ghost use Rattle.std.specs.Prelude.{◌≡◌, ℕ, ◌+◌, ◌≤◌, ◌↔◌, Bool, List, [], ◌∷◌, ◌++◌, length, codes, All, Some, Ok, Err};
ghost use Rattle.dns_name.specs.Name.{Name, wire_of, IsLabel, IsName};
ghost use Rattle.wire_names.specs.declared.part.NameReadFault.{NameReadFault};
ghost use Rattle.wire_names.specs.declared.part.NameReadFault.TheVariants.{Short, BadLength, BadPointer};
ghost use Rattle.wire_names.specs.NameAt.{name_at};
ghost use Rattle.wire_names.specs.Spells.{Spells, Refuses};
ghost use Rattle.wire_names.specs.Table.{Entry, IsTable, table_of, position_in};
ghost use Rattle.wire_names.specs.Written.{written, name_octets, new_entries};
ghost use Rattle.wire_names.specs.Examples.{f_isi_arpa};

/// A place spells at most one name, of lawful labels, and reading goes on at one place; what it spells isn't refused
/// where it fits into 255 octets (RFC 1035, 4.1.4).
pub fn one_reading()
    ensures once { (msg : List ℕ) (run at next beyond : ℕ) (name other : Name) → Spells msg run at name next → Spells msg run at other beyond → (name ≡ other) × (next ≡ beyond) }
    ensures labels { (msg : List ℕ) (run at next : ℕ) (name : Name) → Spells msg run at name next → All IsLabel name }
    ensures apart { (msg : List ℕ) (run at used next : ℕ) (name : Name) (fault : NameReadFault) → Spells msg run at name next → used + length (wire_of name) ≤ 255 → Refuses msg run at used fault → ⊥ }
{}

/// A place has at most one fault: the first in reading order.
pub fn one_fault()
    ensures { (msg : List ℕ) (at : ℕ) (fault other : NameReadFault) → Refuses msg at at 0 fault → Refuses msg at at 0 other → fault ≡ other }
{}

/// What is computed at a place is the name that it spells, where that fits into 255 octets, and else its fault.
pub fn name_at_is()
    ensures spelt { (msg : List ℕ) (at next : ℕ) (name : Name) → (name_at msg at ≡ Ok (name, next)) ↔ (Spells msg at at name next × (length (wire_of name) ≤ 255)) }
    ensures refused { (msg : List ℕ) (at : ℕ) (fault : NameReadFault) → (name_at msg at ≡ Err fault) ↔ Refuses msg at at 0 fault }
{}

/// A name that was written is spelt at its place, whatever follows (RFC 1035, 4.1.4).
pub fn written_is_spelt()
    ensures { (compress : Bool) (msg : List ℕ) (entries : List Entry) (behind : List ℕ) (name : Name) → IsTable msg entries → IsName name → Spells (msg ++ (written compress (table_of msg entries) name ++ behind)) (length msg) (length msg) name (length msg + length (written compress (table_of msg entries) name)) }
{}

/// A table stays what it is while its message goes on.
pub fn table_stays()
    ensures { (msg more : List ℕ) (entries : List Entry) → IsTable msg entries → IsTable (msg ++ more) entries × (table_of (msg ++ more) entries ≡ table_of msg entries) }
{}

/// Worked examples of the definitions: a label before a pointer down to a zero octet, a pointer to its own run's
/// start, a length octet of 64, and a label that is cut; the names of RFC 1035, 4.1.4, after a name at position 20;
/// and a name that two positions spell, of which the least is its earliest.
#[tactic(auto, unfolding(crate::specs::NameAt::name_at, crate::specs::NameAt::name_from))]
pub fn examples()
    ensures down { name_at (0 ∷ 1 ∷ 97 ∷ 192 ∷ 0 ∷ []) 1 ≡ Ok ((97 ∷ []) ∷ [], 5) }
    ensures own_start { name_at (0 ∷ 1 ∷ 97 ∷ 192 ∷ 1 ∷ []) 1 ≡ Err BadPointer }
    ensures bits { name_at (64 ∷ []) 0 ≡ Err BadLength }
    ensures cut { name_at (1 ∷ 97 ∷ []) 0 ≡ Err Short }
    ensures first { name_octets [] f_isi_arpa ≡ 1 ∷ codes "F" ++ 3 ∷ codes "ISI" ++ 4 ∷ codes "ARPA" ++ 0 ∷ [] }
    ensures suffix { name_octets (new_entries [] 20 f_isi_arpa) (codes "FOO" ∷ f_isi_arpa) ≡ 3 ∷ codes "FOO" ++ 192 ∷ 20 ∷ [] }
    ensures whole { name_octets (new_entries [] 20 f_isi_arpa) (codes "ARPA" ∷ []) ≡ 192 ∷ 26 ∷ [] }
    ensures least { position_in ((40, f_isi_arpa) ∷ (20, f_isi_arpa) ∷ []) f_isi_arpa ≡ Some 20 }
    ensures case { name_octets (new_entries [] 20 f_isi_arpa) (codes "arpa" ∷ []) ≡ 4 ∷ codes "arpa" ++ 0 ∷ [] }
{}

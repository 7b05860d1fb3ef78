//! Laws of the definitions, each the contract of a function that does nothing, and worked examples.
ghost use Rattle.std.specs.Prelude.{◌≡◌, ℕ, ◌<◌, ◌≤◌, ◌*◌, ◌↔◌, List, [], ◌∷◌, ◌++◌, length, drop, map, codes, All, IsTrue, Ok, Some, true, false};
ghost use Rattle.std.specs.Cmp.{IsTotalOrder, IsEquivalence};
ghost use Rattle.std.specs.Cmp.Lexicographic.{slice_cmp};
ghost use Rattle.std.specs.Ordering.{nat_cmp};
ghost use Rattle.std.specs.declared.cmp.Ordering.TheVariants.{Less, Equal, Greater};
ghost use Rattle.dns_name.specs.Text.{name_of_text, text_of};
ghost use Rattle.dns_name.specs.Name.{Name, wire_of, name_in, IsName, fold_name, is_same, is_under, self_and_ancestors, canonical_cmp, parent_of};
ghost use Rattle.dns_name.specs.Stored.{stored_of, name_stored};

use crate::name::{MAX_BELOW_ASTERISK, MAX_LABEL, MAX_NAME};
use crate::print::MAX_TEXT;
use crate::stored::MAX_STORED;

/// What octets are read as is a name, and its octets stand before them; a name's octets are read as that name,
/// whatever stands after them (RFC 1035, 3.1).
pub fn one_reading()
    ensures is_present { (octets : List ℕ) (name : Name) → name_in octets ≡ Some name → IsName name × (octets ≡ wire_of name ++ drop (length (wire_of name)) octets) }
    ensures back { (name : Name) (rest : List ℕ) → IsName name → name_in (wire_of name ++ rest) ≡ Some name }
{}

/// Names are the same where they are equal once folded, and to be the same is an equivalence (RFC 4343, 3).
pub fn same_but_for_case()
    ensures folded { (name other : Name) → IsTrue (is_same name other) ↔ (fold_name name ≡ fold_name other) }
    ensures equivalence { IsEquivalence is_same }
    ensures octets { (name : Name) → IsName name → IsName (fold_name name) × (length (wire_of (fold_name name)) ≡ length (wire_of name)) }
{}

/// The canonical order is total, and ties where names are the same (RFC 4034, 6.1).
pub fn canonical_order()
    ensures total { IsTotalOrder canonical_cmp }
    ensures ties { (name other : Name) → (canonical_cmp name other ≡ Equal) ↔ IsTrue (is_same name other) }
{}

/// A name is under each of its ancestors, and under those alone that its labels end in (RFC 1034, 3.1).
pub fn under_ancestors()
    ensures each { (name : Name) → All (λ ancestor. IsTrue (is_under name ancestor)) (self_and_ancestors name) }
    ensures ending { (name other : Name) → IsTrue (is_under name other) ↔ ((front : Name) × (fold_name name ≡ front ++ fold_name other)) }
{}

/// A name's text is read as that name, whatever the origin is (RFC 1035, 5.1).
pub fn text_is_read_back()
    ensures { (name origin : Name) → IsName name → All (All (λ octet. octet < 256)) name → name_of_text (text_of name) origin ≡ Ok name }
{}

/// Octets that stand for names compare as the names do in canonical order, and are read as the names in lower case
/// (RFC 4034, 6.1; own).
pub fn stored_names()
    ensures order { (name other : Name) → slice_cmp nat_cmp (stored_of name) (stored_of other) ≡ canonical_cmp name other }
    ensures back { (name : Name) → name_stored (stored_of name) ≡ fold_name name }
{}

/// The limits of names by their numbers: 255 octets and 63 of a label (RFC 1035, 2.3.4), 253 below the label `*` with
/// its length octet, and four characters for each octet but the closing one. At most two octets are stored for each octet.
pub fn limits()
    ensures name { MAX_NAME ≡ 255 }
    ensures label { MAX_LABEL ≡ 63 }
    ensures below_asterisk { MAX_BELOW_ASTERISK ≡ 253 }
    ensures text { MAX_TEXT ≡ 1016 }
    ensures stored { MAX_STORED ≡ 2 * MAX_NAME }
{}

/// Worked examples of the definitions: the names in the canonical order of RFC 4034, 6.1; case (RFC 4343, 3); and `@`
/// alone, which is the origin, beside `\@`, which is a label (RFC 1035, 5.1). Last, what is stored for a name.
pub fn examples()
    ensures first { canonical_cmp (codes "example" ∷ []) (codes "a" ∷ codes "example" ∷ []) ≡ Less }
    ensures second { canonical_cmp (codes "a" ∷ codes "example" ∷ []) (codes "yljkjljk" ∷ codes "a" ∷ codes "example" ∷ []) ≡ Less }
    ensures third { canonical_cmp (codes "yljkjljk" ∷ codes "a" ∷ codes "example" ∷ []) (codes "Z" ∷ codes "a" ∷ codes "example" ∷ []) ≡ Less }
    ensures fourth { canonical_cmp (codes "Z" ∷ codes "a" ∷ codes "example" ∷ []) (codes "zABC" ∷ codes "a" ∷ codes "EXAMPLE" ∷ []) ≡ Less }
    ensures fifth { canonical_cmp (codes "zABC" ∷ codes "a" ∷ codes "EXAMPLE" ∷ []) (codes "z" ∷ codes "example" ∷ []) ≡ Less }
    ensures sixth { canonical_cmp (codes "z" ∷ codes "example" ∷ []) ((1 ∷ []) ∷ codes "z" ∷ codes "example" ∷ []) ≡ Less }
    ensures seventh { canonical_cmp ((1 ∷ []) ∷ codes "z" ∷ codes "example" ∷ []) (codes "*" ∷ codes "z" ∷ codes "example" ∷ []) ≡ Less }
    ensures eighth { canonical_cmp (codes "*" ∷ codes "z" ∷ codes "example" ∷ []) ((200 ∷ []) ∷ codes "z" ∷ codes "example" ∷ []) ≡ Less }
    ensures under { is_under (codes "a" ∷ codes "B" ∷ codes "c" ∷ []) (codes "b" ∷ codes "C" ∷ []) ≡ true }
    ensures itself { is_under (codes "b" ∷ codes "c" ∷ []) (codes "b" ∷ codes "c" ∷ []) ≡ true }
    ensures end_of_label { is_under (codes "ab" ∷ codes "c" ∷ []) (codes "b" ∷ codes "c" ∷ []) ≡ false }
    ensures folded { fold_name (codes "Foo" ∷ codes "EXAMPLE" ∷ []) ≡ codes "foo" ∷ codes "example" ∷ [] }
    ensures parent { parent_of (codes "a" ∷ codes "b" ∷ []) ≡ Some (codes "b" ∷ []) }
    ensures origin { name_of_text (codes "@") (codes "example" ∷ []) ≡ Ok (codes "example" ∷ []) }
    ensures at_sign { name_of_text (92 ∷ codes "@") (codes "example" ∷ []) ≡ Ok (codes "@" ∷ codes "example" ∷ []) }
    ensures read { name_in (1 ∷ 97 ∷ 0 ∷ 7 ∷ []) ≡ Some (codes "a" ∷ []) }
    ensures stored { stored_of (codes "a" ∷ codes "BC" ∷ []) ≡ 98 ∷ 99 ∷ 0 ∷ 97 ∷ 0 ∷ [] }
    ensures escaped { stored_of ((0 ∷ 1 ∷ 2 ∷ []) ∷ []) ≡ 1 ∷ 1 ∷ 1 ∷ 2 ∷ 2 ∷ 0 ∷ [] }
    ensures root_stored { stored_of [] ≡ [] }
{}

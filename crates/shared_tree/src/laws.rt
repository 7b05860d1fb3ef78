//! What the words on pairs say of one another. The functions do nothing: their clauses are the laws.
ghost use Rattle.std.specs.Prelude.{◌≡◌, ℕ, List, [], ◌∷◌, Some, None, true, false};
ghost use Rattle.std.specs.Ordering.{nat_cmp, is_eq};
ghost use Rattle.shared_tree.specs.Pairs.{value_at, pair_after, pairs_with, pairs_without};

/// Worked examples of the words, on keys that are numbers.
pub fn examples()
    ensures put_between { (x y z : ℕ) → pairs_with nat_cmp 2 z ((1, x) ∷ (3, y) ∷ []) ≡ (1, x) ∷ (2, z) ∷ (3, y) ∷ [] }
    ensures put_over { (x y z : ℕ) → pairs_with nat_cmp 3 z ((1, x) ∷ (3, y) ∷ []) ≡ (1, x) ∷ (3, z) ∷ [] }
    ensures taken_out { (x y : ℕ) → pairs_without nat_cmp 1 ((1, x) ∷ (3, y) ∷ []) ≡ (3, y) ∷ [] }
    ensures found { (x y : ℕ) → value_at nat_cmp 3 ((1, x) ∷ (3, y) ∷ []) ≡ Some y }
    ensures comes_after { (x y : ℕ) → pair_after nat_cmp 1 ((1, x) ∷ (3, y) ∷ []) ≡ Some (3, y) }
{}

/// A change at a key shows at that key, and at no other.
pub fn one_key_changes<K: Ord, V>()
    ensures put { (key : K) (value : V) (pairs : List (K × V)) → value_at K.cmp key (pairs_with K.cmp key value pairs) ≡ Some value }
    ensures put_elsewhere { (key other : K) (value : V) (pairs : List (K × V)) → is_eq (K.cmp key other) ≡ false → value_at K.cmp other (pairs_with K.cmp key value pairs) ≡ value_at K.cmp other pairs }
    ensures taken_out { (key : K) (pairs : List (K × V)) → value_at K.cmp key (pairs_without K.cmp key pairs) ≡ None }
    ensures taken_out_elsewhere { (key other : K) (pairs : List (K × V)) → is_eq (K.cmp key other) ≡ false → value_at K.cmp other (pairs_without K.cmp key pairs) ≡ value_at K.cmp other pairs }
{}

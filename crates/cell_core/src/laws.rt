//! Laws of the cell, each the contract of a function that does nothing, and a worked example.
ghost use Rattle.std.specs.Prelude.{◌≡◌, ℕ, ◌+◌, ◌<◌, true, false, List, [], ◌∷◌, ◌++◌, length, Option, None, Some, ◌⊎◌};
ghost use Rattle.std.specs.List.{slice_get};
ghost use Rattle.cell_core.specs.Cell.{Cell, CellStep, IsLast, Steps, HasStep, Runs, IsReached, EachFollows, with_strong};
ghost use Rattle.cell_core.specs.Loaded.{loaded, IsLoad, WasLast};
ghost use Rattle.cell_core.specs.Example.{one_value, two_values, to_two_values, one_weak, to_one_weak, one_buried};

use crate::follows::Follows;

/// Over any run the values published stay, in their order, at the front of those published then, and what is buried
/// stays buried.
pub fn only_grows<T>()
    ensures published { (before after : Cell T) (run : List (CellStep T × Option ℕ)) → Runs before run after
        → (more : List T) × (after.published ≡ before.published ++ more) }
    ensures buried { (before after : Cell T) (run : List (CellStep T × Option ℕ)) → Runs before run after
        → (k : ℕ) → before.buried k ≡ true → after.buried k ≡ true }
{}

/// Over any run each owner keeps what it owns: the value published with a number stays the same.
pub fn owners_keep_their_value<T>()
    ensures { (before after : Cell T) (run : List (CellStep T × Option ℕ)) → Runs before run after
        → (k : ℕ) → k < length before.published → slice_get after.published k ≡ slice_get before.published k }
{}

/// A number with a strong owner isn't buried.
pub fn owned_is_not_buried<T>()
    ensures { (cell : Cell T) → IsReached cell → (k : ℕ) → 0 < cell.strong k → cell.buried k ≡ false }
{}

/// The last number isn't buried.
pub fn last_is_not_buried<T>()
    ensures { (cell : Cell T) → IsReached cell → (k : ℕ) → IsLast cell k → cell.buried k ≡ false }
{}

/// A buried number is that of a published value, and not of the last.
pub fn buried_was_published<T>()
    ensures { (cell : Cell T) → IsReached cell → (k : ℕ) → cell.buried k ≡ true → k + 1 < length cell.published }
{}

/// A number with a strong or a weak owner is that of a published value.
pub fn owned_was_published<T>()
    ensures strong { (cell : Cell T) → IsReached cell → (k : ℕ) → 0 < cell.strong k → k < length cell.published }
    ensures weak { (cell : Cell T) → IsReached cell → (k : ℕ) → 0 < cell.weak k → k < length cell.published }
{}

/// A weak owner's step up gives a strong owner of that very number, or none where it is buried.
pub fn up_gives_that_number<T>()
    ensures { (cell after : Cell T) (k : ℕ) (given : Option ℕ) → IsReached cell → Steps cell (CellStep.Up k) given after
        → (given ≡ Some k) ⊎ ((given ≡ None) × (cell.buried k ≡ true)) }
{}

/// A handle that a load gave owns the number that was last at that load, whatever is done after it, and its value is the
/// one that was last then.
pub fn load_gives_the_last<T>()
    ensures { (before after : Cell T) (run : List (CellStep T × Option ℕ)) (place : ℕ) → Runs before run after → IsLoad run place
        → (number : ℕ) × (loaded run place ≡ Some number) × WasLast before run after place number }
{}

/// Where each value follows the one before it, and one more follows the last, each of them does.
pub fn follows_goes_on<T, F: Follows<T>>()
    ensures { (values : List T) (last next : T) → EachFollows F.follows (values ++ last ∷ []) → F.follows last next
        → EachFollows F.follows (values ++ last ∷ next ∷ []) }
{}

/// A worked example: 10 is published and loaded, 20 is published and loaded, 10 gets a weak owner, loses its strong ones
/// and is buried.
pub fn examples()
    ensures two_values { Runs one_value to_two_values two_values }
    ensures one_weak { Runs two_values to_one_weak one_weak }
    ensures buried { Steps one_weak (CellStep.Bury 0) None one_buried }
    ensures loaded { (loaded to_one_weak 0 ≡ Some 1) × (loaded to_one_weak 2 ≡ None) × (loaded to_one_weak 4 ≡ None) }
    ensures counts { (two_values.strong 0 ≡ 2) × (one_weak.strong 0 ≡ 0) × (one_weak.strong 1 ≡ 1) × (one_weak.weak 0 ≡ 1) }
    ensures kept { (one_buried.published ≡ 10 ∷ 20 ∷ []) × (one_buried.buried 0 ≡ true) × (one_buried.buried 1 ≡ false) }
    ensures up { Steps one_weak (CellStep.Up 0) (Some 0) (with_strong 0 one_weak) }
    ensures up_of_buried { Steps one_buried (CellStep.Up 0) None one_buried }
    ensures no_bury_of_owned { HasStep two_values (CellStep.Bury 0) → ⊥ }
    ensures no_bury_of_last { HasStep one_value (CellStep.Bury 0) → ⊥ }
    ensures no_bury_again { HasStep one_buried (CellStep.Bury 0) → ⊥ }
    ensures no_drop_of_unowned { HasStep one_weak (CellStep.Drop 0) → ⊥ }
    ensures rises { EachFollows (λ value next. value < next) (1 ∷ 2 ∷ 4 ∷ []) }
    ensures falls { EachFollows (λ value next. value < next) (1 ∷ 4 ∷ 2 ∷ []) → ⊥ }
{}

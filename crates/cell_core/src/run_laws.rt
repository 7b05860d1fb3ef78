//! Laws of runs from the first value on, in the words of a user of the cell: what was published and buried is read off the steps
//! made and what they told. Each is the contract of a function that does nothing.
ghost use Rattle.std.specs.Prelude.{◌≡◌, ◌≢◌, ◌↔◌, ℕ, ◌+◌, ◌-◌, ◌<◌, ◌≤◌, ◌==◌, ◌^◌, true, List, [], ◌∷◌, ◌++◌, length, take, count_by, Option, Some, ◌⊎◌};
ghost use Rattle.std.specs.List.{slice_get};
ghost use Rattle.std.specs.Option.{option_and_then};
ghost use Rattle.cell_core.specs.Cell.{Cell};
ghost use Rattle.cell_core.specs.Words.{State, begun, found_by, found_last, grants, notes, bulk, free_word, dead_word, slot_of, number_in, fading_of};
ghost use Rattle.cell_core.specs.WordSteps.{Makes};
ghost use Rattle.cell_core.specs.Shows.{Shows, WordRuns, AtRest, held, owned_by};
ghost use Rattle.cell_core.specs.Published.{published_by, IsBuriedBy, SeesAllTaken};
ghost use Rattle.cell_core.specs.declared.words.Slot.{Slot};
ghost use Rattle.cell_core.specs.declared.words.Owner.TheVariants.{Holding, Weakly};
ghost use Rattle.cell_core.specs.declared.words.Publisher.TheVariants.{Settling};
ghost use Rattle.cell_core.specs.declared.words.WordStep.TheVariants.{Load, Probe, Prepare, Swap, Settle, Release, Bury, Look, Raise};
ghost use Rattle.cell_core.specs.declared.words.WordEvent.TheVariants.{Loaded, Passed, Taken, NoSlot, Prepared, Swapped, Settled, Emptied, Buried, Kept, Dead, Raised};
ghost use Rattle.cell_core.specs.declared.words.WordStep.{WordStep};
ghost use Rattle.cell_core.specs.declared.words.WordEvent.{WordEvent};

/// The words show what the run told: the values that it published, and as buried the numbers that it buried.
pub fn runs_tell_what_is_shown<T>()
    ensures { (first : T) (after : State T) (run : List (WordStep T × WordEvent)) → WordRuns (begun first) run after
        → (cell : Cell T) × Shows after cell × (cell.published ≡ published_by first run)
        × ((number : ℕ) → (cell.buried number ≡ true) ↔ IsBuriedBy run number) }
{}

/// An owner finds the value that was published with its number, however often its slot was used again; and in W's slot lies
/// the value published last.
pub fn owners_find_what_was_published<T>()
    ensures owner { (first : T) (after : State T) (run : List (WordStep T × WordEvent)) (owner number place : ℕ) → WordRuns (begun first) run after
        → slice_get after.owners owner ≡ Some (Holding number place)
        → (value : T) × (found_by after owner ≡ Some value) × (slice_get (published_by first run) number ≡ Some value) }
    ensures last { (first : T) (after : State T) (run : List (WordStep T × WordEvent)) (last : ℕ) → WordRuns (begun first) run after
        → length (published_by first run) ≡ last + 1
        → (value : T) × (found_last after ≡ Some value) × (slice_get (published_by first run) last ≡ Some value) }
{}

/// A load gives an owner of the value that was published last when its one step was made.
pub fn loads_give_the_last_published<T>()
    ensures { (first : T) (after : State T) (run : List (WordStep T × WordEvent)) (place owner number : ℕ) → WordRuns (begun first) run after
        → slice_get run place ≡ Some (Load, Loaded owner number) → length (published_by first (take place run)) ≡ number + 1 }
{}

/// A number is buried once, by one call; never while it is owned or the last; and then it is never owned or the last again.
pub fn burials_are_final<T>()
    ensures once { (first : T) (after : State T) (run : List (WordStep T × WordEvent)) (one two number its other : ℕ) → WordRuns (begun first) run after
        → slice_get run one ≡ Some (Bury its, Buried number) → slice_get run two ≡ Some (Bury other, Buried number) → one ≡ two }
    ensures before { (first : T) (after : State T) (run : List (WordStep T × WordEvent)) (place owner number : ℕ) → WordRuns (begun first) run after
        → slice_get run place ≡ Some (Bury owner, Buried number)
        → (between : State T) × WordRuns (begun first) (take place run) between × (held between.owners number ≡ 0)
        × (owned_by between.publisher number ≡ 0) × (number + 1 < length (published_by first (take place run))) }
    ensures behind { (first : T) (after : State T) (run : List (WordStep T × WordEvent)) (number : ℕ) → WordRuns (begun first) run after
        → IsBuriedBy run number
        → (held after.owners number ≡ 0) × (owned_by after.publisher number ≡ 0) × (number + 1 < length (published_by first run)) }
{}

/// A weak owner's step up gives an owner of that very number, which isn't buried, or none of a number that is buried; and a look sees
/// whether it is.
pub fn upgrades_give_that_number<T>()
    ensures given { (first : T) (after new : State T) (run : List (WordStep T × WordEvent)) (owner next number its place : ℕ) → WordRuns (begun first) run after
        → slice_get after.owners owner ≡ Some (Weakly its place) → Makes {T = T} after (Raise owner) (Raised next number) new
        → (number ≡ its) × (slice_get new.owners next ≡ Some (Holding its place)) × (IsBuriedBy run its → ⊥) }
    ensures none { (first : T) (after new : State T) (run : List (WordStep T × WordEvent)) (owner : ℕ) → WordRuns (begun first) run after
        → Makes {T = T} after (Raise owner) Dead new
        → (its : ℕ) × (place : ℕ) × (slice_get after.owners owner ≡ Some (Weakly its place)) × IsBuriedBy run its }
    ensures seen { (first : T) (after new : State T) (run : List (WordStep T × WordEvent)) (owner : ℕ) → WordRuns (begun first) run after
        → Makes {T = T} after (Look owner) Dead new
        → (its : ℕ) × (place : ℕ) × (slice_get after.owners owner ≡ Some (Weakly its place)) × IsBuriedBy run its }
{}

/// A clone gives another owner of the number that its owner has.
pub fn clones_give_that_number<T>()
    ensures { (first : T) (after new : State T) (run : List (WordStep T × WordEvent)) (event : WordEvent) (owner its place : ℕ) → WordRuns (begun first) run after
        → slice_get after.owners owner ≡ Some (Holding its place) → Makes {T = T} after (Raise owner) event new
        → (event ≡ Raised (length after.owners) its) × (slice_get new.owners (length after.owners) ≡ Some (Holding its place)) }
{}

/// When no call is under way, there is no weak owner and, of the numbers before the last, those from one on are owned, exactly those
/// before it were buried, all slots are free but one for each of the others, and K of each slot is 1.
pub fn rest_was_buried<T>()
    ensures buried { (first : T) (after : State T) (run : List (WordStep T × WordEvent)) (from last : ℕ) → WordRuns (begun first) run after
        → length (published_by first run) ≡ last + 1 → AtRest after from last → (number : ℕ) → IsBuriedBy run number ↔ (number < from) }
    ensures free { (first : T) (after : State T) (run : List (WordStep T × WordEvent)) (from last : ℕ) → WordRuns (begun first) run after
        → length (published_by first run) ≡ last + 1 → AtRest after from last
        → count_by (λ there. there.shares == free_word) after.table + (last - from) ≡ 63 }
    ensures weak_word { (first : T) (after : State T) (run : List (WordStep T × WordEvent)) (from last : ℕ) → WordRuns (begun first) run after
        → length (published_by first run) ≡ last + 1 → AtRest after from last
        → (place : ℕ) (there : Slot T) → slice_get after.table place ≡ Some there → there.weak ≡ 1 }
{}

/// A run that goes on publishes more after what was published, and what was buried stays so.
pub fn runs_only_add<T>()
    ensures published { (first : T) (run more : List (WordStep T × WordEvent))
        → (values : List T) × (published_by first (run ++ more) ≡ published_by first run ++ values) }
    ensures buried { (run more : List (WordStep T × WordEvent)) (number : ℕ) → IsBuriedBy run number → IsBuriedBy (run ++ more) number }
{}

/// No word goes round at 2^64: at most 2^46 shares are given out in all, beside a slot's 2^62, and at most 2^32 weak owners are made.
pub fn no_word_overflows<T>()
    ensures latest { (first : T) (after : State T) (run : List (WordStep T × WordEvent)) → WordRuns (begun first) run after
        → (after.granted ≤ grants) × (after.latest < 2 ^ 54) }
    ensures shares { (first : T) (after : State T) (run : List (WordStep T × WordEvent)) (place : ℕ) (there : Slot T) → WordRuns (begun first) run after
        → slice_get after.table place ≡ Some there
        → (there.shares ≡ free_word) ⊎ ((dead_word ≤ there.shares) × (there.shares ≤ dead_word + grants)) ⊎ (there.shares ≤ bulk + grants) }
    ensures load { (first : T) (after new : State T) (run : List (WordStep T × WordEvent)) (event : WordEvent) → WordRuns (begun first) run after
        → Makes {T = T} after Load event new → (new.latest ≡ after.latest + 1) × (slot_of new.latest ≡ slot_of after.latest) }
    ensures settle { (first : T) (after : State T) (run : List (WordStep T × WordEvent)) (number place given : ℕ) (there : Slot T) → WordRuns (begun first) run after
        → after.publisher ≡ Settling number place given → slice_get after.table place ≡ Some there → bulk - given - 1 ≤ there.shares }
    ensures release { (first : T) (after : State T) (run : List (WordStep T × WordEvent)) (owner number place : ℕ) (there : Slot T) → WordRuns (begun first) run after
        → slice_get after.owners owner ≡ Some (Holding number place) → slice_get after.table place ≡ Some there
        → (0 < there.shares) × (there.shares < free_word) }
    ensures weak { (first : T) (after : State T) (run : List (WordStep T × WordEvent)) (place : ℕ) (there : Slot T) → WordRuns (begun first) run after
        → slice_get after.table place ≡ Some there → there.weak ≤ notes + 1 }
    ensures fade { (first : T) (after : State T) (run : List (WordStep T × WordEvent)) (owner place : ℕ) (there : Slot T) → WordRuns (begun first) run after
        → option_and_then fading_of (slice_get after.owners owner) ≡ Some place → slice_get after.table place ≡ Some there → 0 < there.weak }
{}

/// A publication finds no slot only after it has probed all 64, one after the other, and has seen another word than FREE in
/// each.
pub fn no_slot_after_64_probes<T>()
    ensures { (first : T) (after : State T) (run : List (WordStep T × WordEvent)) (place : ℕ) → WordRuns (begun first) run after
        → slice_get run place ≡ Some (Probe, NoSlot) → SeesAllTaken (begun first) run place 63 }
{}

/// Worked examples: what runs publish and bury.
pub fn run_examples()
    ensures published { published_by {T = ℕ} 10 ((Load, Loaded 0 0) ∷ (Prepare 20, Prepared) ∷ (Swap, Swapped 0) ∷ (Probe, Passed) ∷ []) ≡ 10 ∷ 20 ∷ [] }
    ensures prepared { published_by {T = ℕ} 10 ((Probe, Taken) ∷ (Prepare 20, Prepared) ∷ []) ≡ 10 ∷ [] }
    ensures again { published_by {T = ℕ} 10 ((Prepare 20, Prepared) ∷ (Swap, Swapped 0) ∷ (Settle, Settled 0 0) ∷ (Prepare 30, Prepared) ∷ (Swap, Swapped 1) ∷ []) ≡ 10 ∷ 20 ∷ 30 ∷ [] }
    ensures buried { IsBuriedBy {T = ℕ} ((Release 1, Emptied) ∷ (Bury 1, Buried 0) ∷ []) 0 }
    ensures unburied { IsBuriedBy {T = ℕ} ((Release 1, Emptied) ∷ (Bury 1, Kept) ∷ []) 0 → ⊥ }
{}

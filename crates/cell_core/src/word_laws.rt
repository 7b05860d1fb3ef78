//! Laws of the steps on words, each the contract of a function that does nothing.
ghost use Rattle.std.specs.Prelude.{◌≡◌, ◌≢◌, ◌↔◌, ℕ, ◌+◌, ◌-◌, ◌<◌, ◌≤◌, ◌==◌, ◌^◌, true, false, List, ◌++◌, length, take, count_by, Option, Some, None};
ghost use Rattle.std.specs.List.{slice_get};
ghost use Rattle.std.specs.Option.{option_and_then};
ghost use Rattle.cell_core.specs.Cell.{Cell, CellStep, IsLast, Runs};
ghost use Rattle.cell_core.specs.Words.{State, found_by, found_last, grants, notes, free_word, slot_of, number_in, version_in, word_of, given_of, fading_of, fetch_add, fetch_sub, bulk, dead_word, begun, first_slot};
ghost use Rattle.cell_core.specs.WordSteps.{Makes, HasWordStep, with_publisher, with_owner, with_new_owner, with_slot, with_shares, with_weak_word, with_grant, owned_in};
ghost use Rattle.cell_core.specs.Made.{made};
ghost use Rattle.cell_core.specs.WordExample.{once_loaded, once_noted, dead_slot, dead_once, faded_once, closed_once, restored_once};
ghost use Rattle.cell_core.specs.Shows.{Shows, ShowsStep, WordRuns, AtRest, held, weaks, owned_by};
ghost use Rattle.cell_core.specs.declared.words.Slot.{Slot};
ghost use Rattle.cell_core.specs.declared.words.Owner.TheVariants.{Holding, Weakly, Burying, Fading, Resetting, Freeing, Spent};
ghost use Rattle.cell_core.specs.declared.words.Publisher.TheVariants.{Probing, Preparing, Swapping, Settling};
ghost use Rattle.cell_core.specs.declared.words.WordStep.TheVariants.{Load, Probe, Prepare, Swap, Settle, Release, Bury, Free, Look, Raise, Note, Fade, Reset};
ghost use Rattle.cell_core.specs.declared.words.WordEvent.TheVariants.{Buried, Loaded, Passed, Left, Freed, Alive, Dead, Raised, Noted, Faded, Closed, Restored};
ghost use Rattle.cell_core.specs.declared.words.WordStep.{WordStep};
ghost use Rattle.cell_core.specs.declared.words.WordEvent.{WordEvent};

/// Whatever cell the words show, a step on one of them makes them show a cell that one of its steps reaches, or the same.
pub fn word_steps_show_the_cell<T>()
    ensures { (state new : State T) (step : WordStep T) (event : WordEvent) (cell : Cell T) → Shows state cell → Makes state step event new
        → (next : Cell T) × ShowsStep state step event cell next × Shows new next }
{}

/// Whatever cell the words show, a run of steps on them makes them show a cell that a run of no more steps of the cell reaches.
pub fn word_runs_show_runs<T>()
    ensures { (before after : State T) (run : List (WordStep T × WordEvent)) (cell : Cell T) → Shows before cell → WordRuns before run after
        → (next : Cell T) × (steps : List (CellStep T × Option ℕ)) × (length steps ≤ length run) × Runs cell steps next × Shows after next }
{}

/// Whatever cell the words show, a run of steps on them publishes only after what was published, and what was buried stays so.
pub fn words_only_grow<T>()
    ensures { (before after : State T) (run : List (WordStep T × WordEvent)) (cell : Cell T) → Shows before cell → WordRuns before run after
        → (next : Cell T) × Shows after next × ((more : List T) × (next.published ≡ cell.published ++ more))
        × ((k : ℕ) → cell.buried k ≡ true → next.buried k ≡ true) }
{}

/// An owner finds in its slot the value that was published with its number, through any reuse of the slot.
pub fn owner_finds_its_value<T>()
    ensures slot { (state : State T) (cell : Cell T) (owner number place : ℕ) → Shows state cell → slice_get state.owners owner ≡ Some (Holding number place)
        → (value : T) × (version_in state place ≡ Some (record { number = number; value = value })) × (slice_get cell.published number ≡ Some value) }
    ensures found { (state : State T) (cell : Cell T) (owner number place : ℕ) → Shows state cell → slice_get state.owners owner ≡ Some (Holding number place)
        → found_by state owner ≡ slice_get cell.published number }
    ensures last { (state : State T) (cell : Cell T) (number : ℕ) → Shows state cell → IsLast cell number
        → found_last state ≡ slice_get cell.published number }
{}

/// What a bury buries has no owner, is none that the publisher is to settle, and isn't in W.
pub fn buried_is_unowned<T>()
    ensures { (state new : State T) (cell : Cell T) (owner number : ℕ) → Shows state cell → Makes state (Bury owner) (Buried number) new
        → (held state.owners number ≡ 0) × (owned_by state.publisher number ≡ 0) × (number_in state (slot_of state.latest) ≢ Some number) }
{}

/// A number is buried once, by one call, whatever the order of the steps.
pub fn buried_once<T>()
    ensures { (before after : State T) (cell : Cell T) (run : List (WordStep T × WordEvent)) (one two number first second : ℕ) → Shows before cell
        → WordRuns before run after → slice_get run one ≡ Some (Bury first, Buried number) → slice_get run two ≡ Some (Bury second, Buried number)
        → one ≡ two }
{}

/// S of a weak owner's slot tells whether its version is buried: below DEAD the version lies there. The slot isn't used again while the
/// weak owner is there: it isn't free, and the publisher hasn't taken it.
pub fn weak_owner_sees_its_version<T>()
    ensures alive { (state : State T) (cell : Cell T) (owner number place : ℕ) (there : Slot T) → Shows state cell
        → slice_get state.owners owner ≡ Some (Weakly number place) → slice_get state.table place ≡ Some there → there.shares < dead_word
        → (value : T) × (there.version ≡ Some (record { number = number; value = value })) × (slice_get cell.published number ≡ Some value) × (cell.buried number ≡ false) }
    ensures dead { (state : State T) (cell : Cell T) (owner number place : ℕ) (there : Slot T) → Shows state cell
        → slice_get state.owners owner ≡ Some (Weakly number place) → slice_get state.table place ≡ Some there → dead_word ≤ there.shares
        → cell.buried number ≡ true }
    ensures kept { (state : State T) (cell : Cell T) (owner number place : ℕ) (there : Slot T) → Shows state cell
        → slice_get state.owners owner ≡ Some (Weakly number place) → slice_get state.table place ≡ Some there
        → (there.shares ≢ free_word) × (state.publisher ≢ Preparing place) × (state.publisher ≢ Swapping place) }
{}

/// A slot is given free only when nobody has its number, weakly or not, and K is 1 then.
pub fn freed_is_unowned<T>()
    ensures { (state new : State T) (cell : Cell T) (owner place : ℕ) → Shows state cell → slice_get state.owners owner ≡ Some (Freeing place)
        → Makes state (Free owner) Freed new
        → (number : ℕ) × (there : Slot T) × (slice_get state.table place ≡ Some there) × (there.weak ≡ 1) × (cell.buried number ≡ true)
        × (held state.owners number ≡ 0) × (weaks state.owners number ≡ 0) }
{}

/// When no call is under way, there is no weak owner and, of the numbers before the last, those from one on are owned, exactly those
/// before it are buried, all slots are free but one for each of the others, and K of each slot is 1.
pub fn rest_is_buried_and_free<T>()
    ensures buried { (state : State T) (cell : Cell T) (from last : ℕ) → Shows state cell → IsLast cell last → AtRest state from last
        → (j : ℕ) → (cell.buried j ≡ true) ↔ (j < from) }
    ensures free { (state : State T) (cell : Cell T) (from last : ℕ) → Shows state cell → IsLast cell last → AtRest state from last
        → count_by (λ there. there.shares == free_word) state.table + (last - from) ≡ 63 }
    ensures weak_word { (state : State T) (cell : Cell T) (from last : ℕ) → Shows state cell → IsLast cell last → AtRest state from last
        → (place : ℕ) (there : Slot T) → slice_get state.table place ≡ Some there → there.weak ≡ 1 }
    ensures weak { (state : State T) (cell : Cell T) (from last : ℕ) → Shows state cell → AtRest state from last
        → (j : ℕ) → cell.weak j ≡ 0 }
{}

/// No call under way is stuck: whatever cell the words show, the next step of each owner and of the publisher can be made; a
/// prepare while numbers fit 64 bits, a load and a raise while there are shares to give out, and a note while there are weak owners to
/// make.
pub fn calls_go_on<T>()
    ensures load { (state : State T) (cell : Cell T) → Shows state cell → state.granted < grants → HasWordStep {T = T} state Load }
    ensures release { (state : State T) (cell : Cell T) (owner number place : ℕ) → Shows state cell
        → slice_get state.owners owner ≡ Some (Holding number place) → HasWordStep {T = T} state (Release owner) }
    ensures bury { (state : State T) (cell : Cell T) (owner place : ℕ) → Shows state cell
        → slice_get state.owners owner ≡ Some (Burying place) → HasWordStep {T = T} state (Bury owner) }
    ensures free { (state : State T) (cell : Cell T) (owner place : ℕ) → Shows state cell
        → slice_get state.owners owner ≡ Some (Freeing place) → HasWordStep {T = T} state (Free owner) }
    ensures probe { (state : State T) (cell : Cell T) (place : ℕ) → Shows state cell → state.publisher ≡ Probing place
        → HasWordStep {T = T} state Probe }
    ensures prepare { (state : State T) (cell : Cell T) (place : ℕ) (value : T) → Shows state cell → state.publisher ≡ Preparing place
        → length cell.published < 2 ^ 64 → HasWordStep state (Prepare value) }
    ensures swap { (state : State T) (cell : Cell T) (place : ℕ) → Shows state cell → state.publisher ≡ Swapping place
        → HasWordStep {T = T} state Swap }
    ensures settle { (state : State T) (cell : Cell T) (number place given : ℕ) → Shows state cell
        → state.publisher ≡ Settling number place given → HasWordStep {T = T} state Settle }
    ensures look { (state : State T) (cell : Cell T) (owner number place : ℕ) → Shows state cell → owned_in state owner ≡ Some (number, place)
        → HasWordStep {T = T} state (Look owner) }
    ensures raise { (state : State T) (cell : Cell T) (owner number place : ℕ) → Shows state cell → owned_in state owner ≡ Some (number, place)
        → state.granted < grants → HasWordStep {T = T} state (Raise owner) }
    ensures note { (state : State T) (cell : Cell T) (owner number place : ℕ) → Shows state cell
        → slice_get state.owners owner ≡ Some (Holding number place) → state.noted < notes → HasWordStep {T = T} state (Note owner) }
    ensures fade { (state : State T) (cell : Cell T) (owner place : ℕ) → Shows state cell
        → option_and_then fading_of (slice_get state.owners owner) ≡ Some place → HasWordStep {T = T} state (Fade owner) }
    ensures reset { (state : State T) (cell : Cell T) (owner place : ℕ) → Shows state cell
        → slice_get state.owners owner ≡ Some (Resetting place) → HasWordStep {T = T} state (Reset owner) }
{}

/// A load of a run gives the number that was in W then, and its owner has no other number, whatever is done after it.
pub fn load_gives_what_was_in_w<T>()
    ensures was_last { (before after : State T) (run : List (WordStep T × WordEvent)) (place owner number : ℕ) → WordRuns before run after
        → slice_get run place ≡ Some (Load, Loaded owner number)
        → (between : State T) × WordRuns before (take place run) between × (number_in between (slot_of between.latest) ≡ Some number) }
    ensures keeps { (before after : State T) (run : List (WordStep T × WordEvent)) (place owner number other slot : ℕ) → WordRuns before run after
        → slice_get run place ≡ Some (Load, Loaded owner number) → slice_get after.owners owner ≡ Some (Holding other slot) → other ≡ number }
{}

/// What a step on a word makes is a function of the state: none exactly where there is no such step.
pub fn steps_are_a_function<T>()
    ensures made { (old new : State T) (step : WordStep T) (event : WordEvent) → Makes old step event new → made old step ≡ Some (event, new) }
    ensures makes { (old new : State T) (step : WordStep T) (event : WordEvent) → made old step ≡ Some (event, new) → Makes old step event new }
    ensures none { (old : State T) (step : WordStep T) → (HasWordStep old step → ⊥) → made old step ≡ None }
{}

/// Worked examples of the words and of the steps on them: 10 is published, and then loaded.
pub fn word_examples()
    ensures word { (word_of 3 5 ≡ 844424930131973) × (slot_of (word_of 3 5) ≡ 3) × (given_of (word_of 3 5) ≡ 5) }
    ensures shares { (fetch_sub (bulk - 5) 1 ≡ bulk - 6) × (fetch_sub 0 1 ≡ 18446744073709551615) × (fetch_add 18446744073709551615 1 ≡ 0) }
    ensures apart { (bulk + grants < free_word) × (free_word < dead_word) }
    ensures load { Makes {T = ℕ} (begun 10) Load (Loaded 0 0) once_loaded }
    ensures probe { Makes {T = ℕ} (begun 10) Probe Passed (with_publisher (Probing 1) (begun 10)) }
    ensures release { Makes once_loaded (Release 0) Left (with_owner 0 Spent (with_slot 0 (with_shares (bulk - 1) (first_slot 10)) once_loaded)) }
    ensures value { (found_by once_loaded 0 ≡ Some 10) × (found_last once_loaded ≡ Some 10) }
    ensures no_swap { HasWordStep {T = ℕ} (begun 10) Swap → ⊥ }
    ensures no_release { HasWordStep {T = ℕ} (begun 10) (Release 0) → ⊥ }
{}

/// Worked examples of weak owners: 10 is published and loaded, and gets a weak owner; and 10 is buried, while its weak owner is still
/// there: who buried it fades, the weak owner fades and resets K, and gives the slot free.
pub fn weak_examples()
    ensures note { Makes once_loaded (Note 0) (Noted 1 0) once_noted }
    ensures alive { Makes once_noted (Look 1) Alive once_noted }
    ensures up { Makes once_noted (Raise 1) (Raised 2 0) (with_new_owner (Holding 0 0) (with_grant (with_slot 0 (with_shares (bulk + 1) (with_weak_word 2 (first_slot 10))) once_noted))) }
    ensures copy { Makes once_noted (Raise 0) (Raised 2 0) (with_new_owner (Holding 0 0) (with_grant (with_slot 0 (with_shares (bulk + 1) (with_weak_word 2 (first_slot 10))) once_noted))) }
    ensures gone { Makes dead_once (Look 1) Dead dead_once }
    ensures late { Makes dead_once (Raise 1) Dead (with_grant (with_slot 0 (with_shares (dead_word + 1) (dead_slot 2)) dead_once)) }
    ensures burier { Makes dead_once (Fade 0) Faded faded_once }
    ensures last { Makes faded_once (Fade 1) Closed closed_once }
    ensures reset { Makes closed_once (Reset 1) Restored restored_once }
    ensures free { Makes restored_once (Free 1) Freed (with_owner 1 Spent (with_slot 0 (with_shares free_word (dead_slot 1)) restored_once)) }
    ensures no_free { HasWordStep {T = ℕ} closed_once (Free 1) → ⊥ }
    ensures no_reset { HasWordStep {T = ℕ} faded_once (Reset 0) → ⊥ }
    ensures no_note { HasWordStep {T = ℕ} once_noted (Note 1) → ⊥ }
{}

//! Worked examples on words, and refused growth.
use cell_core::{
    Follows, StepFault, WordEvent, WordMachine, WordStep, burials_are_final, buried_is_unowned,
    buried_once, buried_was_published, calls_go_on, clones_give_that_number, examples,
    follows_goes_on, freed_is_unowned, last_is_not_buried, load_gives_the_last,
    load_gives_what_was_in_w, loads_give_the_last_published, no_slot_after_64_probes,
    no_word_overflows, only_grows, owned_is_not_buried, owned_was_published, owner_finds_its_value,
    owners_find_what_was_published, owners_keep_their_value, rest_is_buried_and_free,
    rest_was_buried, run_examples, runs_only_add, runs_tell_what_is_shown, steps_are_a_function,
    up_gives_that_number, upgrades_give_that_number, weak_examples, weak_owner_sees_its_version,
    word_examples, word_runs_show_runs, word_steps_show_the_cell, words_only_grow,
};
use std::alloc::Global;
use std::test::Fail;

/// Numbers that never fall.
struct Rising;

impl Follows<u64> for Rising {
    ghost use Rattle.std.specs.Prelude.{◌≤◌};

    ghost follows = { λ value next. value ≤ next };
}

/// Whether a fault has this text.
fn is_text(alloc: Global, fault: StepFault, text: &str) -> bool {
    match format!(in alloc; "{fault}") {
        Ok(words) => words.as_str() == text,
        Err(_) => false,
    }
}

// The words of the faults.
#[test]
fn faults(rt: HostRuntime) {
    assert!(rt; is_text(rt.alloc(), StepFault::NotEnabled, "C1 NotEnabled"));
    assert!(rt; is_text(rt.alloc(), StepFault::NoMemory, "C2 NoMemory"));
}

// Each law at a type.
#[test]
fn laws() {
    only_grows::<u64>();
    owners_keep_their_value::<u64>();
    owned_is_not_buried::<u64>();
    last_is_not_buried::<u64>();
    buried_was_published::<u64>();
    owned_was_published::<u64>();
    up_gives_that_number::<u64>();
    load_gives_the_last::<u64>();
    follows_goes_on::<u64, Rising>();
    examples();
    word_steps_show_the_cell::<u64>();
    word_runs_show_runs::<u64>();
    words_only_grow::<u64>();
    owner_finds_its_value::<u64>();
    buried_is_unowned::<u64>();
    buried_once::<u64>();
    calls_go_on::<u64>();
    word_examples();
    weak_examples();
    weak_owner_sees_its_version::<u64>();
    freed_is_unowned::<u64>();
    upgrades_give_that_number::<u64>();
    clones_give_that_number::<u64>();
    rest_is_buried_and_free::<u64>();
    load_gives_what_was_in_w::<u64>();
    steps_are_a_function::<u64>();
    runs_tell_what_is_shown::<u64>();
    owners_find_what_was_published::<u64>();
    loads_give_the_last_published::<u64>();
    burials_are_final::<u64>();
    rest_was_buried::<u64>();
    runs_only_add::<u64>();
    no_word_overflows::<u64>();
    no_slot_after_64_probes::<u64>();
    run_examples();
}

/// A step, and what it gives.
type Row<T> = (WordStep<T>, Result<WordEvent, StepFault>);

/// The first row that goes otherwise; None where there is none.
fn first_wrong<T: Drop>(machine: &mut WordMachine<T>, rows: Vec<Row<T>>) -> Option<usize> {
    for (at, (step, given)) in rows.into_iter().enumerate() {
        if machine.step(step) != given {
            return Some(at);
        }
    }
    None
}

/// A load of the first value, and the publication of the second one up to its swap.
const PUBLISHED: [Row<u64>; 5] = [
    (
        WordStep::Load,
        Ok(WordEvent::Loaded {
            owner: 0,
            number: 0,
        }),
    ),
    (WordStep::Probe, Ok(WordEvent::Passed)),
    (WordStep::Probe, Ok(WordEvent::Taken)),
    (WordStep::Prepare(20), Ok(WordEvent::Prepared)),
    (WordStep::Swap, Ok(WordEvent::Swapped(0))),
];

/// The end of the publication, and a load of the second value.
const SETTLED: [Row<u64>; 2] = [
    (
        WordStep::Settle,
        Ok(WordEvent::Settled {
            owner: 1,
            number: 0,
        }),
    ),
    (
        WordStep::Load,
        Ok(WordEvent::Loaded {
            owner: 2,
            number: 1,
        }),
    ),
];

/// The first value is buried when the loader and the publisher have released it. Its slot is then used again.
const BURIED: [Row<u64>; 7] = [
    (WordStep::Release(0), Ok(WordEvent::Left)),
    (WordStep::Release(1), Ok(WordEvent::Emptied)),
    (WordStep::Bury(1), Ok(WordEvent::Buried(0))),
    (WordStep::Fade(1), Ok(WordEvent::Closed)),
    (WordStep::Reset(1), Ok(WordEvent::Restored)),
    (WordStep::Free(1), Ok(WordEvent::Freed)),
    (WordStep::Probe, Ok(WordEvent::Taken)),
];

// The first value is loaded, published over, and buried when the loader and the publisher have released it. Its slot is then
// used again.
#[test]
fn words_worked_example(rt: HostRuntime) -> Result<(), Fail> {
    let mut machine = WordMachine::new(rt.alloc(), 10u64).expect(&rt, "a machine");
    let rows = Vec::from_array(rt.alloc(), PUBLISHED)?;
    assert_eq!(rt; first_wrong(&mut machine, rows), None);
    let rows = Vec::from_array(rt.alloc(), SETTLED)?;
    assert_eq!(rt; first_wrong(&mut machine, rows), None);
    let values = [1, 2, 3].map(|slot| machine.value(slot).copied());
    assert!(rt; values == [Some(10), Some(20), None]);
    let rows = Vec::from_array(rt.alloc(), BURIED)?;
    assert_eq!(rt; first_wrong(&mut machine, rows), None);
    Ok(())
}

/// A weak owner of the first value, which is raised once, and sees it buried. It is the last that knows it.
const WEAK: [Row<u64>; 26] = [
    (
        WordStep::Load,
        Ok(WordEvent::Loaded {
            owner: 0,
            number: 0,
        }),
    ),
    (
        WordStep::Note(0),
        Ok(WordEvent::Noted {
            owner: 1,
            number: 0,
        }),
    ),
    (WordStep::Look(1), Ok(WordEvent::Alive)),
    (WordStep::Probe, Ok(WordEvent::Passed)),
    (WordStep::Probe, Ok(WordEvent::Taken)),
    (WordStep::Prepare(20), Ok(WordEvent::Prepared)),
    (WordStep::Swap, Ok(WordEvent::Swapped(0))),
    (
        WordStep::Settle,
        Ok(WordEvent::Settled {
            owner: 2,
            number: 0,
        }),
    ),
    (WordStep::Release(0), Ok(WordEvent::Left)),
    (WordStep::Release(2), Ok(WordEvent::Emptied)),
    (
        WordStep::Raise(1),
        Ok(WordEvent::Raised {
            owner: 3,
            number: 0,
        }),
    ),
    (WordStep::Bury(2), Ok(WordEvent::Kept)),
    (WordStep::Release(3), Ok(WordEvent::Emptied)),
    (WordStep::Look(1), Ok(WordEvent::Alive)),
    (WordStep::Bury(3), Ok(WordEvent::Buried(0))),
    (WordStep::Look(1), Ok(WordEvent::Dead)),
    (WordStep::Raise(1), Ok(WordEvent::Dead)),
    (WordStep::Free(3), Err(StepFault::NotEnabled)),
    (WordStep::Fade(3), Ok(WordEvent::Faded)),
    (WordStep::Probe, Ok(WordEvent::Passed)),
    (WordStep::Probe, Ok(WordEvent::Passed)),
    (WordStep::Probe, Ok(WordEvent::Taken)),
    (WordStep::Fade(1), Ok(WordEvent::Closed)),
    (WordStep::Fade(1), Err(StepFault::NotEnabled)),
    (WordStep::Reset(1), Ok(WordEvent::Restored)),
    (WordStep::Free(1), Ok(WordEvent::Freed)),
];

// A version that nobody owns is raised before its bury; once it is buried it isn't raised, and its slot is free when the weak owner
// has faded.
#[test]
fn weak_owners(rt: HostRuntime) -> Result<(), Fail> {
    let mut machine = WordMachine::new(rt.alloc(), 10u64).expect(&rt, "a machine");
    let rows = Vec::from_array(rt.alloc(), WEAK)?;
    assert_eq!(rt; first_wrong(&mut machine, rows), None);
    Ok(())
}

/// The release of the first version's only other owner leaves it before its publisher has settled, and the publisher's empties it.
const RELEASED: [Row<u64>; 5] = [
    (WordStep::Release(0), Ok(WordEvent::Left)),
    (
        WordStep::Settle,
        Ok(WordEvent::Settled {
            owner: 1,
            number: 0,
        }),
    ),
    (WordStep::Release(1), Ok(WordEvent::Emptied)),
    (WordStep::Bury(1), Ok(WordEvent::Buried(0))),
    (WordStep::Bury(1), Err(StepFault::NotEnabled)),
];

// Until its publisher has settled, the version before keeps shares: the release of its only other owner leaves it, and the
// publisher's empties it. It is buried once.
#[test]
fn release_before_settle(rt: HostRuntime) -> Result<(), Fail> {
    let mut machine = WordMachine::new(rt.alloc(), 10u64).expect(&rt, "a machine");
    let rows = Vec::from_array(rt.alloc(), PUBLISHED)?;
    assert_eq!(rt; first_wrong(&mut machine, rows), None);
    let rows = Vec::from_array(rt.alloc(), RELEASED)?;
    assert_eq!(rt; first_wrong(&mut machine, rows), None);
    Ok(())
}

/// Steps that aren't due.
const NOT_ENABLED: [Row<u64>; 11] = [
    (WordStep::Prepare(20), Err(StepFault::NotEnabled)),
    (WordStep::Swap, Err(StepFault::NotEnabled)),
    (WordStep::Settle, Err(StepFault::NotEnabled)),
    (WordStep::Release(0), Err(StepFault::NotEnabled)),
    (WordStep::Bury(0), Err(StepFault::NotEnabled)),
    (WordStep::Fade(0), Err(StepFault::NotEnabled)),
    (WordStep::Reset(0), Err(StepFault::NotEnabled)),
    (WordStep::Free(0), Err(StepFault::NotEnabled)),
    (WordStep::Look(0), Err(StepFault::NotEnabled)),
    (WordStep::Raise(0), Err(StepFault::NotEnabled)),
    (WordStep::Note(0), Err(StepFault::NotEnabled)),
];

// A step that isn't due is refused.
#[test]
fn words_not_enabled(rt: HostRuntime) -> Result<(), Fail> {
    let mut machine = WordMachine::new(rt.alloc(), 10u64).expect(&rt, "a machine");
    let rows = Vec::from_array(rt.alloc(), NOT_ENABLED)?;
    assert_eq!(rt; first_wrong(&mut machine, rows), None);
    Ok(())
}

/// A text is published after the first one.
const TEXT_PUBLISHED: [Row<&'static str>; 5] = [
    (
        WordStep::Load,
        Ok(WordEvent::Loaded {
            owner: 0,
            number: 0,
        }),
    ),
    (WordStep::Probe, Ok(WordEvent::Passed)),
    (WordStep::Probe, Ok(WordEvent::Taken)),
    (WordStep::Prepare("two"), Ok(WordEvent::Prepared)),
    (WordStep::Swap, Ok(WordEvent::Swapped(0))),
];

// Values that borrow: the first one's owner still finds it.
#[test]
fn borrowed_values(rt: HostRuntime) -> Result<(), Fail> {
    let mut machine = WordMachine::new(rt.alloc(), "one").expect(&rt, "a machine");
    let rows = Vec::from_array(rt.alloc(), TEXT_PUBLISHED)?;
    assert_eq!(rt; first_wrong(&mut machine, rows), None);
    let values = (machine.value(0).copied(), machine.last().copied());
    assert!(rt; values == (Some("one"), Some("two")));
    Ok(())
}

/// Whether so many probes pass.
fn all_pass(machine: &mut WordMachine<u64>, count: u64) -> bool {
    for _ in 0..count {
        if machine.step(WordStep::Probe) != Ok(WordEvent::Passed) {
            return false;
        }
    }
    true
}

/// Whether a value is published after that with the number before it, where so many slots aren't free.
fn is_published(machine: &mut WordMachine<u64>, before: u64, taken: u64) -> bool {
    all_pass(machine, taken)
        && machine.step(WordStep::Probe) == Ok(WordEvent::Taken)
        && machine.step(WordStep::Prepare(taken)) == Ok(WordEvent::Prepared)
        && machine.step(WordStep::Swap) == Ok(WordEvent::Swapped(before))
        && machine.step(WordStep::Settle).is_ok()
        && machine.last().copied() == Some(taken)
}

/// Whether so many values are published, each in the next slot.
fn are_published(machine: &mut WordMachine<u64>, count: u64) -> bool {
    for before in 0..count {
        if !is_published(machine, before, before + 1) {
            return false;
        }
    }
    true
}

/// The 64th probe ends a publication, and the next one begins anew.
const FULL: [Row<u64>; 2] = [
    (WordStep::Probe, Ok(WordEvent::NoSlot)),
    (WordStep::Probe, Ok(WordEvent::Passed)),
];

// Every slot in use: the 64th probe ends the publication, and the next one begins anew.
#[test]
fn no_slot(rt: HostRuntime) -> Result<(), Fail> {
    let mut machine = WordMachine::new(rt.alloc(), 0u64).expect(&rt, "a machine");
    assert!(rt; are_published(&mut machine, 63) && all_pass(&mut machine, 63));
    let rows = Vec::from_array(rt.alloc(), FULL)?;
    assert_eq!(rt; first_wrong(&mut machine, rows), None);
    Ok(())
}

/// A machine of words in which 0 is published, made once more where a growth was refused.
fn words_started(alloc: Global) -> Result<WordMachine<u64>, StepFault> {
    match WordMachine::new(alloc, 0) {
        Err(StepFault::NoMemory) => WordMachine::new(alloc, 0),
        made => made,
    }
}

/// What a load gives, made once more where a growth was refused.
fn load(machine: &mut WordMachine<u64>) -> Result<WordEvent, StepFault> {
    match machine.step(WordStep::Load) {
        Err(StepFault::NoMemory) => machine.step(WordStep::Load),
        made => made,
    }
}

// With any one growth refused, the fault is NoMemory, and the same step works once more: no share was given out before.
#[test]
fn words_refused_growth(rt: HostRuntime) {
    let mut machine = words_started(rt.alloc()).expect(&rt, "memory");
    for owner in 0..40usize {
        assert!(rt;
            load(&mut machine) == Ok(WordEvent::Loaded { owner, number: 0 }),
            "owner {owner}"
        );
    }
}

//! The steps of calls on the words of the cell.
ghost use Rattle.std.specs.Prelude.{◌≡◌, true, is_some, Some, None, IfOk, IfErr, MatchOption};
ghost use Rattle.std.specs.Option.{option_map};
ghost use Rattle.cell_core.specs.Made.{made};
ghost use Rattle.world_run.specs.Numbered.{first_version};
ghost use Rattle.world_run.specs.Phases.{after, word_step};
ghost use Rattle.world_run.specs.World.{loaded_once as says_loaded_once, started_words as says_started_words, most_steps, steps_up_to, call_of, without_call};

use crate::calls::{UnderWay, take_out};
use crate::fault::WorldFault;
use crate::lent::Handle;
use crate::phase::{Phase, Progress};
use crate::published::Published;
use cell_core::{StepFault, WordEvent, WordMachine, WordStep};
use std::alloc::Global;
use std::mem;
use zone_tree::{Version, Zone};

/// The owner of the first version that is kept.
pub(crate) const FIRST_OWNER: usize = 0;

/// No call takes more steps than this.
const MOST_STEPS: usize = 127;

/// Makes the next step of a call on the words, and gives the event that it reported; None where the words have no such step.
pub(crate) fn make_step(
    machine: &mut WordMachine<Published>,
    phase: &Phase<'_>,
) -> Result<Option<WordEvent>, WorldFault>
    ensures ok { IfOk result (λ reported. MatchOption reported
        ((made machine.old (word_step phase.now) ≡ None) × (machine.new ≡ machine.old))
        (λ event. made machine.old (word_step phase.now) ≡ Some (event, machine.new))) }
    ensures refused { IfErr result (λ fault. fault ≡ WorldFault.NoMemory) }
{
    match phase.word_step() {
        Ok(taken) => match machine.step(taken) {
            Ok(event) => Ok(Some(event)),
            Err(StepFault::NotEnabled) => Ok(None),
            Err(StepFault::NoMemory) => Err(WorldFault::NoMemory),
        },
        Err(fault) => Err(fault),
    }
}

/// Removes the call under way of a name, and gives what follows its step, which has been made.
pub(crate) fn go_past<'a>(
    machine: &WordMachine<Published>,
    calls: &mut Vec<UnderWay<'a>>,
    name: &Handle<'_>,
    event: WordEvent,
) -> Result<Progress<'a>, WorldFault>
    requires { is_some (call_of name.now calls.old.items) ≡ true }
    ensures ok { IfOk result (λ progress. Some progress ≡ option_map (λ call. after machine.now call.phase event) (call_of name.now calls.old.items)) }
    ensures left { calls.new.items ≡ without_call name.now calls.old.items }
    ensures refused { IfErr result (λ fault. fault ≡ WorldFault.NoMemory) }
{
    let Some(phase) = take_out(calls, name) else {
        unreachable!()
    };
    phase.after(machine, event)
}

/// Takes the steps of a call up to its end; at a step that can't be made, it stops.
pub(crate) fn take_steps<'a>(
    machine: &mut WordMachine<Published>,
    first: Phase<'a>,
) -> Result<Progress<'a>, WorldFault>
    ensures ok { IfOk result (λ progress. (progress, machine.new) ≡ steps_up_to most_steps machine.old first.entry) }
    ensures refused { IfErr result (λ fault. fault ≡ WorldFault.NoMemory) }
{
    let mut phase = first;
    for _ in 0..MOST_STEPS {
        let event = match make_step(machine, &phase) {
            Ok(Some(event)) => event,
            Ok(None) => return Ok(Progress::On(phase)),
            Err(fault) => {
                mem::drop(phase);
                return Err(fault);
            }
        };
        match phase.after(machine, event) {
            Ok(Progress::On(further)) => phase = further,
            Ok(Progress::Done(end)) => return Ok(Progress::Done(end)),
            Err(fault) => return Err(fault),
        }
    }
    Ok(Progress::On(phase))
}

/// The words at the start, in which the first version is a zone's.
pub(crate) fn first_words(
    alloc: Global,
    zone: Zone,
    window: usize,
) -> Result<WordMachine<Published>, WorldFault>
    ensures made { IfOk result (λ machine. machine ≡ says_started_words (first_version zone) window) }
    ensures refused { IfErr result (λ fault. fault ≡ WorldFault.NoMemory) }
{
    match Published::new(alloc, Version::first(zone)) {
        Ok(first) => started_words(alloc, first, window),
        Err(fault) => Err(fault),
    }
}

/// The words at the start: a version is published and loaded once, and has a weak owner where there is a window.
fn started_words(
    alloc: Global,
    first: Published,
    window: usize,
) -> Result<WordMachine<Published>, WorldFault>
    ensures made { IfOk result (λ machine. machine ≡ says_started_words first window) }
    ensures refused { IfErr result (λ fault. fault ≡ WorldFault.NoMemory) }
{
    let mut machine = match loaded_once(alloc, first) {
        Ok(machine) => machine,
        Err(fault) => return Err(fault),
    };
    if window == 0 {
        return Ok(machine);
    }
    match machine.step(WordStep::Note(FIRST_OWNER)) {
        Ok(_) => Ok(machine),
        Err(_) => Err(WorldFault::NoMemory),
    }
}

/// The words in which a version is published and loaded once.
fn loaded_once(alloc: Global, first: Published) -> Result<WordMachine<Published>, WorldFault>
    ensures made { IfOk result (λ machine. machine ≡ says_loaded_once first) }
    ensures refused { IfErr result (λ fault. fault ≡ WorldFault.NoMemory) }
{
    let Ok(mut machine) = WordMachine::new(alloc, first) else {
        return Err(WorldFault::NoMemory);
    };
    match machine.step(WordStep::Load) {
        Ok(_) => Ok(machine),
        Err(_) => Err(WorldFault::NoMemory),
    }
}

//! The calls under way, with their names.
ghost use Rattle.std.specs.Prelude.{◌≡◌, ◌++◌, ◌∷◌, [], IfErr, OnOk, filter, not, bytes_eq, find, position};
ghost use Rattle.std.specs.List.{list_any};
ghost use Rattle.std.specs.Option.{option_copied, option_map};
ghost use Rattle.world_run.specs.Phases.{reserves as says_reserves, reserves_weakly as says_reserves_weakly};
ghost use Rattle.world_run.specs.World.{call_of, is_used as says_used, is_barred as says_barred, without_call};
ghost use Rattle.world_run.specs.declared.calls.UnderWay.{UnderWay as UnderWayRow};

use crate::fault::WorldFault;
use crate::lent::Handle;
use crate::phase::Phase;
use std::mem;

/// A call under way, with its name.
#[derive(Drop)]
pub struct UnderWay<'a> {
    name: Handle<'a>,
    phase: Phase<'a>,
}

impl<'a> UnderWay<'a> {
    /// The call's phase: the step that it takes next.
    pub(crate) fn phase(&self) -> &Phase<'a>
        ensures { result.now ≡ self.now.phase }
    {
        &self.phase
    }
}

/// Whether a call under way has this name.
fn is_call(call: &UnderWay<'_>, name: &Handle<'_>) -> bool
    ensures { result ≡ bytes_eq call.now.name name.now }
{
    call.name.as_slice() == name.as_slice()
}

/// Whether a call under way reserves a name for a strong owner.
pub(crate) fn is_reserved(calls: &[UnderWay<'_>], name: &Handle<'_>) -> bool
    ensures { result ≡ list_any (λ call. says_reserves name.now call.phase) calls.now }
{
    for call in calls {
        if call.phase.reserves(name) {
            return true;
        }
    }
    false
}

/// Whether a call under way reserves a name for a weak owner.
pub(crate) fn is_reserved_weakly(calls: &[UnderWay<'_>], name: &Handle<'_>) -> bool
    ensures { result ≡ list_any (λ call. says_reserves_weakly name.now call.phase) calls.now }
{
    for call in calls {
        if call.phase.reserves_weakly(name) {
            return true;
        }
    }
    false
}

/// Whether a call under way uses an owner.
pub(crate) fn is_used(calls: &[UnderWay<'_>], owner: usize) -> bool
    ensures { result ≡ says_used calls.now owner }
{
    for call in calls {
        if call.phase.uses(owner) {
            return true;
        }
    }
    false
}

/// Whether a call under way needs the window unchanged.
pub(crate) fn is_barred(calls: &[UnderWay<'_>]) -> bool
    ensures { result ≡ says_barred calls.now }
{
    for call in calls {
        if call.phase.bars() {
            return true;
        }
    }
    false
}

/// The call under way of a name.
pub(crate) fn call_under<'b, 'a>(
    calls: &'b [UnderWay<'a>],
    name: &Handle<'_>,
) -> Option<&'b UnderWay<'a>>
    ensures { option_copied result ≡ call_of name.now calls.now }
{
    for call in calls {
        if is_call(call, name) {
            return Some(call);
        }
    }
    None
}

/// The index of the call under way of a name.
fn place_of(calls: &[UnderWay<'_>], name: &Handle<'_>) -> Option<usize>
    ensures { result ≡ position (λ call. bytes_eq call.name name.now) calls.now }
{
    for at in 0..calls.len() {
        if is_call(&calls[at], name) {
            return Some(at);
        }
    }
    None
}

/// Removes the call under way of a name, and gives its phase.
pub(crate) fn take_out<'a>(calls: &mut Vec<UnderWay<'a>>, name: &Handle<'_>) -> Option<Phase<'a>>
    ensures taken { result ≡ option_map (λ call. call.phase) (call_of name.now calls.old.items) }
    ensures left { calls.new.items ≡ without_call name.now calls.old.items }
{
    let Some(at) = place_of(calls, name) else {
        return None;
    };
    let call = calls.remove(at);
    calls.retain(|call| !is_call(call, name));
    Some(call.phase)
}

/// Adds a call under way.
pub(crate) fn put_under_way<'a>(
    calls: &mut Vec<UnderWay<'a>>,
    name: &Handle<'a>,
    phase: Phase<'a>,
) -> Result<(), WorldFault>
    ensures ok { OnOk result (calls.new.items ≡ calls.old.items ++ record { name = name.now; phase = phase.entry } ∷ []) }
    ensures refused { IfErr result (λ fault. fault ≡ WorldFault.NoMemory) }
{
    if calls.reserve(1).is_err() {
        mem::drop(phase);
        return Err(WorldFault::NoMemory);
    }
    calls.push_reserved(UnderWay {
        name: name.copy(),
        phase,
    });
    Ok(())
}

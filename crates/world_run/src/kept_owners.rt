//! The strong owners of the versions that are kept, the oldest first.
ghost use Rattle.std.specs.Prelude.{◌≡◌, ◌++◌, ◌∷◌, [], IfErr, OnOk, if◌then◌else◌, nat_lt, length, remove};
ghost use Rattle.world_run.specs.World.{oldest_kept, is_held as says_held};

use crate::fault::WorldFault;
use crate::published::Published;
use cell_core::WordMachine;

/// Whether the limit of kept versions is reached.
fn are_all_kept(keep: usize, kept: &[usize]) -> bool
    ensures { result ≡ nat_lt keep (length kept.now) }
{
    kept.len() > keep
}

/// The owner of the oldest version that is kept, where the limit of kept versions is reached.
pub(crate) fn oldest_of(keep: usize, kept: &[usize]) -> Option<usize>
    ensures { result ≡ oldest_kept keep kept.now }
{
    if are_all_kept(keep, kept) {
        return kept.first().copied();
    }
    None
}

/// Whether the owner that is to be released, if any, has a version.
pub(crate) fn is_held(machine: &WordMachine<Published>, owner: Option<usize>) -> bool
    ensures { result ≡ says_held machine.now owner }
{
    match owner {
        None => true,
        Some(owner) => machine.value(owner).is_some(),
    }
}

/// Adds an owner at the end of those that are kept; where the limit of kept versions is reached, the first one is removed.
pub(crate) fn put_kept(kept: &mut Vec<usize>, keep: usize, owner: usize) -> Result<(), WorldFault>
    ensures ok { OnOk result (kept.new.items ≡ (if nat_lt keep (length kept.old.items) then remove kept.old.items 0 else kept.old.items) ++ owner ∷ []) }
    ensures refused { IfErr result (λ fault. fault ≡ WorldFault.NoMemory) }
{
    if are_all_kept(keep, kept) {
        let _ = kept.remove(0);
    }
    match kept.push(owner) {
        Ok(()) => Ok(()),
        Err(_) => Err(WorldFault::NoMemory),
    }
}

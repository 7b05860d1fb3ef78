//! Recovery of what is before damage (own).
ghost use Rattle.std.specs.Prelude.{◌≡◌, IfOk, IfErr};
ghost use Rattle.store_recovery.specs.Before.{EndsWhole, IsUnread, IsStartedBefore, IsBeforeFault};
ghost use Rattle.store_recovery.specs.Private.{of_journal};

use crate::fault::StartFault;
use crate::start::{Recovery, recover_zone};
use journal::{Refused, read_all, read_head};
use std::alloc::Global;

/// The position after the last of the whole batches that follow one another from the journal's head on: the number of octets with the head. It allocates memory.
fn whole_end(alloc: Global, journal: &[u8]) -> Result<usize, Refused>
    ensures whole { IfOk result (λ end. EndsWhole journal.now end) }
    ensures refused { IfErr result (λ why. IsUnread journal.now (of_journal why)) }
{
    let (_, salt, behind) = read_head(journal)?;
    let mut digested = 0;
    let (_, rest) = read_all(alloc, &salt, &mut digested, behind)?;
    Ok(journal.len() - rest.len())
}

/// The zone of a zone text with the updates of those batches of its journal that are whole and follow one another from the first on, whatever is after
/// them: where batches that were synced to the disk are damaged, those before the damage. What is after them isn't reported. It allocates memory.
pub fn recover_before(alloc: Global, text: &[u8], journal: &[u8]) -> Result<Recovery, StartFault>
    ensures started { IfOk result (λ start. IsStartedBefore text.now journal.now start) }
    ensures refused { IfErr result (λ fault. IsBeforeFault text.now journal.now fault) }
{
    let end = whole_end(alloc, journal)?;
    recover_zone(alloc, text, &journal[..end])
}

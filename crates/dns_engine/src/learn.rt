//! Calls for a proof alone: what is looked at is of no use to the code, but its contract tells what was published.
ghost use Rattle.std.specs.Prelude.{◌≡◌};
ghost use Rattle.snapshot_cell.specs.Tokens.{IsLastOf};
ghost use Rattle.counted_handles.specs.History.{IsHistory};
ghost use Rattle.dns_engine.specs.Versions.{IsFirst, IsNext};

use crate::versions::{FirstZone, VersionPublisher};
use snapshot_cell::Naming;

/// Looks at the last number of one who publishes for a proof alone, which learns by it that its versions are a history.
pub(crate) fn learn_last<Z: FirstZone, N: Naming>(publisher: &VersionPublisher<Z, N>)
    ensures history { IsHistory (IsFirst Z.zone) IsNext publisher.now.published }
    ensures last { IsLastOf publisher.now.published (record { number = publisher.now.number; value = publisher.now.value }) }
{
    let _ = publisher.last_number();
}

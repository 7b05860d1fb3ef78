//! What the zone of a zone file makes of the zone that is served (RFC 2136; own).
ghost use Rattle.std.specs.Prelude.{IfOk};
ghost use Rattle.server_control.specs.FileZone.{IsFileZone};

use crate::reload_slot::{FileChange, FileZone};
use std::alloc::Global;
use update_batches::UpdateRequest;
use update_messages::{PrepareFault, Prepared, PreparedChange, prepare_change};
use zone_tree::Zone;

/// What the zone of the zone file makes of the zone that is served. It allocates memory, and fails as [`prepare_change`] does.
pub fn file_zone(alloc: Global, served: &Zone, next: &Zone) -> Result<FileZone, PrepareFault>
    ensures { IfOk result (IsFileZone served.now next.now) }
{
    let change = match prepare_change(alloc, served, next)? {
        Prepared::Unchanged(serial) => return Ok(FileZone::Unchanged(serial)),
        Prepared::Change(change) => change,
    };
    let PreparedChange {
        update,
        messages,
        summary,
    } = change;
    let request = UpdateRequest::joined(update, messages, true);
    Ok(FileZone::Changed(FileChange { request, summary }))
}

//! Reopening a store (own).
ghost use Rattle.std.specs.Prelude.{◌≡◌, length, IfOk, IfErr};
ghost use Rattle.store_files.specs.File.{written};
ghost use Rattle.store_recovery.specs.Start.{IsStarted};
ghost use Rattle.store_server.specs.Started.{AreLastUpdates, GoesOn, IsOwnFault};

use crate::refusal::Refusal;
use journal::{Head, Log, RequestMessages};
use store_files::{FileDisk, Pair};
use store_recovery::Recovery;
use zone_tree::Version;

/// A store that a server has open.
#[derive(Drop)]
pub struct OpenStore {
    /// The head of its journal.
    pub head: Head,
    /// Its journal, which ends with its last batch.
    pub log: Log<FileDisk>,
    /// The oldest of its recent versions, as the first version of its zone.
    pub first: Version,
    /// The versions after it, the last of which is served.
    pub later: Vec<Version>,
    /// The updates that made these versions, each as the messages of its request.
    pub updates: Vec<RequestMessages>,
}

/// Reopens a zone file and its journal, from which `start` was recovered, and whose last updates made the recovered versions after the oldest one. What the journal has after
/// its last batch is cut off.
pub fn resume_pair(
    pair: Pair,
    start: Recovery,
    updates: Vec<RequestMessages>,
) -> Result<OpenStore, Refusal>
    requires noted { written pair.disk ≡ pair.journal.items }
    requires started { IsStarted pair.text.items pair.journal.items start }
    requires updates { AreLastUpdates pair.text.items pair.journal.items (length start.newest.older.items) updates.items }
    ensures resumed { IfOk result (λ resumed. GoesOn pair.text.items pair.journal.items start resumed) }
    ensures refused { IfErr result IsOwnFault }
{
    let Pair {
        text: _,
        journal: _,
        disk,
    } = pair;
    let Recovery {
        head,
        salt,
        number,
        end,
        ending: _,
        newest,
    } = start;
    let log = Log::resume(disk, &salt, number, end as u64)?;
    let (first, later) = newest.rebased();
    Ok(OpenStore {
        head,
        log,
        first,
        later,
        updates,
    })
}

//! Recovery of a zone from a zone text and a journal (own).
ghost use Rattle.std.specs.Prelude.{◌≡◌, map, IfOk, IfErr};
ghost use Rattle.journal.specs.Head.{salt_of};
ghost use Rattle.journal.specs.Recovered.{IsRecovered};
ghost use Rattle.store_recovery.specs.Private.{ending_of};
ghost use Rattle.store_recovery.specs.Start.{IsStarted, IsStartFault};

use crate::fault::StartFault;
use crate::recent_versions::RecentVersions;
use crate::replayed::replay_all;
use dns_name::Name;
use journal::{Head, Recovered, SUM, recover};
use master_file::read_zone;
use std::alloc::Global;

/// What is after the last whole batch of a journal.
#[derive(Clone, Copy, Debug, PartialEq, Eq)]
pub enum Ending {
    /// Nothing.
    Clean,
    /// Only zeros: room that was allocated ahead, or pages that a crash lost.
    Blank,
    /// Octets from this position on that are no frame: what a crash leaves of the last batch, or damage in it. The octets don't show which of
    /// the two.
    Torn(usize),
}

/// What is recovered from a zone text and a journal.
#[derive(Drop)]
pub struct Recovery {
    /// The journal's head.
    pub head: Head,
    /// The salt of its frames.
    pub salt: [u8; SUM],
    /// The number of batches, which is the number of the next frame.
    pub number: u64,
    /// The position after the last batch: how many octets of the journal are read.
    pub end: usize,
    /// What is after it.
    pub ending: Ending,
    /// The newest versions of the zone; the last one is served.
    pub newest: RecentVersions,
}

/// The zone of a zone text with all updates of its journal, each applied as it was when it was received; and what is after them. It
/// allocates memory.
pub fn recover_zone(alloc: Global, text: &[u8], journal: &[u8]) -> Result<Recovery, StartFault>
    ensures started { IfOk result (λ start. IsStarted text.now journal.now start) }
    ensures refused { IfErr result (λ fault. IsStartFault text.now journal.now fault) }
{
    let found = recover(alloc, text, journal)?;
    start_of(alloc, text, journal, &found)
}

/// The recovery from a zone text and a journal that was read as `found`; the journal isn't read again. It allocates memory.
pub fn start_of(
    alloc: Global,
    text: &[u8],
    journal: &[u8],
    found: &Recovered<'_>,
) -> Result<Recovery, StartFault>
    requires salt { found.now.salt ≡ salt_of found.now.head }
    requires recovered { IsRecovered text.now journal.now found.now.head (map (λ request. map (λ message. message.now) request.items) found.now.updates.items) found.now.number found.now.end found.now.torn }
    ensures started { IfOk result (λ start. IsStarted text.now journal.now start) }
    ensures refused { IfErr result (λ fault. IsStartFault text.now journal.now fault) }
{
    let zone = read_zone(alloc, text, &Name::root())?;
    if zone.serial().0 != found.head.serial {
        return Err(StartFault::OtherSerial);
    }
    let newest = replay_all(alloc, zone, &found.updates)?;
    let ending = ending_of(found.torn, found.end, journal.len());
    Ok(Recovery {
        head: found.head,
        salt: found.salt,
        number: found.number,
        end: found.end,
        ending,
        newest,
    })
}

/// What is after the first `end` octets of `len`, if it is torn, or isn't.
fn ending_of(torn: bool, end: usize, len: usize) -> Ending
    ensures { result ≡ ending_of torn end len }
{
    if torn {
        Ending::Torn(end)
    } else if end == len {
        Ending::Clean
    } else {
        Ending::Blank
    }
}
